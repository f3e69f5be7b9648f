// The segments of the points of an instance.
ghost use Rattle.std.specs.Prelude.{◌<◌, ◌+◌, ◌≤◌, length, IfOk, OnOk};
ghost use Rattle.tri_theory.specs.Triangulations.{IsSegment};
ghost use Rattle.formula_parts.specs.Found.{AreFound};
ghost use Rattle.formula_parts.specs.Lists.{AreSegments};

use edge_table::Edge;
use std::alloc::{AllocError, Global};
use tri_check::Instance;

// Adds the edge of `a` and `b`, where it is a segment.
fn add_segment(inst: &Instance, segments: &mut Vec<Edge>, a: u32, b: u32) -> Result<(), AllocError>
    requires order { a < b }
    requires within { b < length inst.now.points }
    requires found { AreFound (IsSegment inst.now.points) 64 segments.old.items a b }
    ensures { OnOk result (AreFound (IsSegment inst.now.points) 64 segments.new.items a (b + 1)) }
{
    match Edge::of(a, b) {
        Some(e) => {
            if inst.is_segment(e) {
                segments.push(e)?;
            }
            Ok(())
        }
        None => Ok(()),
    }
}

// Adds the segments with the lower end `a`.
fn add_from(inst: &Instance, segments: &mut Vec<Edge>, a: u32) -> Result<(), AllocError>
    requires within { a < length inst.now.points }
    requires few { length inst.now.points ≤ 64 }
    requires found { AreFound (IsSegment inst.now.points) 64 segments.old.items a 0 }
    ensures { OnOk result (AreFound (IsSegment inst.now.points) 64 segments.new.items (a + 1) 0) }
{
    for b in a + 1..inst.count() {
        add_segment(inst, segments, a, b)?;
    }
    Ok(())
}

// All segments in order.
pub(crate) fn segments(alloc: Global, inst: &Instance) -> Result<Vec<Edge>, AllocError>
    requires { length inst.now.points ≤ 64 }
    ensures { IfOk result (λ found. AreSegments inst.now.points found.items) }
{
    let mut found = Vec::new(alloc);
    for a in 0..inst.count() {
        add_from(inst, &mut found, a)?;
    }
    Ok(found)
}
