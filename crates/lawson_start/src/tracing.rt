// The run of one input, with its images.
ghost use Rattle.std.specs.Prelude.{◌≢◌, ◌<◌, ◌≤◌, ◌-◌, ◌*◌, ◌/◌, length, AllPairs, IfOk};
ghost use Rattle.lawson_law.specs.LawsonRuns.{AreNoLaterImages};
ghost use Rattle.lawson_start.specs.Starts.{IsWholeRun, AreImages};
ghost use Rattle.lawson_start.specs.Steps.{IsTraceOf};

use crate::Trace;
use crate::bad::bad_edges;
use crate::run::flip;
use edge_table::EdgeSeq;
use flip_mesh::Mesh;
use std::alloc::{AllocError, Global};
use tri_check::{Instance, Triang};

// The run from a triangulation.
fn trace_from(alloc: Global, input: &Triang) -> Result<Trace, AllocError>
    ensures { IfOk result (IsTraceOf input.now.points input.now.edges) }
{
    let _ = input.len();
    let mut flips = EdgeSeq::make(alloc);
    let mut images = EdgeSeq::make(alloc);
    let mut mesh = Mesh::of(alloc, input)?;
    let mut bad = bad_edges(alloc, &mesh, input)?;
    while let Some(e) = bad.first() {
        let image = flip(&mut mesh, &mut bad, e)?;
        flips.push(e)?;
        images.push(image)?;
    }
    Ok(Trace { flips, images })
}

/// The whole run of the input with this place, that is the run which `start` follows, here without a budget. With m edges it takes O(m log m) steps, and each flip O(log m) more.
pub fn trace(alloc: Global, inst: &Instance, t: u32) -> Result<Trace, AllocError>
    requires { t < length inst.now.inputs }
    ensures run { IfOk result (λ trace. IsWholeRun inst.now.points inst.now.inputs t trace.flips) }
    ensures images { IfOk result (λ trace. AreImages inst.now.points inst.now.inputs t trace.flips trace.images) }
    ensures away { IfOk result (λ trace. AreNoLaterImages trace.flips trace.images) }
    ensures once { IfOk result (λ trace. AllPairs ◌≢◌ trace.flips) }
    ensures short { IfOk result (λ trace. length trace.flips ≤ length inst.now.points * (length inst.now.points - 1) / 2) }
{
    let _ = inst.count();
    trace_from(alloc, inst.input(t))
}
