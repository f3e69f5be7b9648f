// The flips that some triangulation of the points of an instance may have.
ghost use Rattle.std.specs.Prelude.{◌<◌, ◌+◌, ◌≤◌, ◌↔◌, ℕ, length, IsTrue, IfOk, OnOk};
ghost use Rattle.tri_theory.specs.Points.{IsLeft};
ghost use Rattle.tri_theory.specs.Triangulations.{IsSegment};
ghost use Rattle.formula_law.specs.Frames.{MayFlip};
ghost use Rattle.formula_parts.specs.Found.{AreFound, IsClear, IsSwap};
ghost use Rattle.formula_parts.specs.Lists.{AreSegments};
ghost use Rattle.formula_parts.specs.Tables.{AreTables};

use crate::tables::{Tables, crosses, holds_none, is_left};
use edge_table::Edge;
use std::alloc::{AllocError, Global};
use tri_check::Instance;

// Whether the closed quadrilateral of two triangles that turn left holds no points but its corners.
fn is_empty(inst: &Instance, tables: &Tables, a: u32, b: u32, c: u32, d: u32) -> bool
    requires tables { AreTables inst.now.points tables.now.turns.items tables.now.empties.items }
    requires first { a < length inst.now.points }
    requires second { b < length inst.now.points }
    requires third { c < length inst.now.points }
    requires fourth { d < length inst.now.points }
    requires right { IsLeft inst.now.points a b c }
    requires left { IsLeft inst.now.points a c d }
    ensures { IsTrue result ↔ ((p : ℕ) → p < length inst.now.points → IsClear inst.now.points a b c d p) }
{
    let _ = inst.count();
    holds_none(inst, tables, a, b, c) && holds_none(inst, tables, a, c, d)
}

// Whether `e` may flip to `f`. Both are segments.
fn may_flip(inst: &Instance, tables: &Tables, e: Edge, f: Edge) -> bool
    requires tables { AreTables inst.now.points tables.now.turns.items tables.now.empties.items }
    requires from { IsSegment inst.now.points e }
    requires to { IsSegment inst.now.points f }
    ensures { IsTrue result ↔ MayFlip inst.now.points e f }
{
    let _ = inst.count();
    if !crosses(inst, tables, e, f) {
        return false;
    }
    let a = e.low();
    let b = f.low();
    let c = e.high();
    let d = f.high();
    if is_left(inst, tables, a, b, c) {
        is_empty(inst, tables, a, b, c, d)
    } else {
        is_empty(inst, tables, a, d, c, b)
    }
}

// Adds the segments with the numbers `i` and `j`, where the one may flip to the other.
fn add_flip(
    inst: &Instance,
    tables: &Tables,
    segments: &[Edge],
    pairs: &mut Vec<(u32, u32)>,
    i: u32,
    j: u32,
) -> Result<(), AllocError>
    requires from { i < length segments.now }
    requires to { j < length segments.now }
    requires tables { AreTables inst.now.points tables.now.turns.items tables.now.empties.items }
    requires segments { AreSegments inst.now.points segments.now }
    requires found { AreFound (IsSwap inst.now.points segments.now) 4096 pairs.old.items i j }
    ensures { OnOk result (AreFound (IsSwap inst.now.points segments.now) 4096 pairs.new.items i (j + 1)) }
{
    if !may_flip(inst, tables, segments[i as usize], segments[j as usize]) {
        return Ok(());
    }
    pairs.push((i, j))?;
    Ok(())
}

// Adds the flips from the segment with the number `i`.
fn add_from(
    inst: &Instance,
    tables: &Tables,
    segments: &[Edge],
    pairs: &mut Vec<(u32, u32)>,
    i: u32,
) -> Result<(), AllocError>
    requires within { i < length segments.now }
    requires tables { AreTables inst.now.points tables.now.turns.items tables.now.empties.items }
    requires segments { AreSegments inst.now.points segments.now }
    requires found { AreFound (IsSwap inst.now.points segments.now) 4096 pairs.old.items i 0 }
    ensures { OnOk result (AreFound (IsSwap inst.now.points segments.now) 4096 pairs.new.items (i + 1) 0) }
{
    for j in 0..segments.len() as u32 {
        add_flip(inst, tables, segments, pairs, i, j)?;
    }
    Ok(())
}

// All flips in order, each as the numbers of the edge and its image.
pub(crate) fn flips(
    alloc: Global,
    inst: &Instance,
    tables: &Tables,
    segments: &[Edge],
) -> Result<Vec<(u32, u32)>, AllocError>
    requires tables { AreTables inst.now.points tables.now.turns.items tables.now.empties.items }
    requires segments { AreSegments inst.now.points segments.now }
    ensures { IfOk result (λ found. AreFound (IsSwap inst.now.points segments.now) 4096 found.items (length segments.now) 0) }
{
    let mut found = Vec::new(alloc);
    for i in 0..segments.len() as u32 {
        add_from(inst, tables, segments, &mut found, i)?;
    }
    Ok(found)
}
