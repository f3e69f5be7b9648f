// The first centre of an instance, with a track from each input to it.
ghost use Rattle.std.specs.Prelude.{◌<◌, ◌≤◌, ◌-◌, ◌*◌, ◌/◌, length, ℕ, List, slice_get, Some, ◌≡◌, IfOk, IfErr};
ghost use Rattle.std.specs.List.{AllZip};
ghost use Rattle.edge_table.specs.declared.edge.Edge.{Edge};
ghost use Rattle.lawson_start.specs.declared.fault.StartFault.TheVariants as start_fault;
ghost use Rattle.lawson_start.specs.Starts.{IsStart, IsStartFault};
ghost use Rattle.lawson_start.specs.Steps.{IsRunOf, IsFaultAt};

use crate::run::run_within;
use crate::{Start, StartFault};
use round_pack::{Track, TrackList};
use std::alloc::Global;
use tri_check::Instance;

// The track of the run of the input with the place `t`.
fn track_of(alloc: Global, inst: &Instance, t: u32, budget: u64) -> Result<Track, StartFault>
    requires { t < length inst.now.inputs }
    ensures ok { IfOk result (λ track. (input : List Edge) → slice_get inst.now.inputs t ≡ Some input → IsRunOf inst.now.points budget input track) }
    ensures err { IfErr result (IsFaultAt inst.now.points inst.now.inputs budget t) }
{
    match run_within(alloc, inst.input(t), budget)? {
        Some(track) => Ok(track),
        None => Err(StartFault::FlipBudget(t)),
    }
}

// The tracks of the runs of all inputs.
fn tracks_of(alloc: Global, inst: &Instance, budget: u64) -> Result<TrackList, StartFault>
    ensures ok { IfOk result (AllZip (IsRunOf inst.now.points budget) inst.now.inputs) }
    ensures err { IfErr result (IsStartFault inst.now.points inst.now.inputs budget) }
{
    let mut tracks = TrackList::make(alloc);
    let count = inst.inputs();
    for t in 0..count {
        tracks.push(track_of(alloc, inst, t, budget)?)?;
    }
    Ok(tracks)
}

/// The triangulation in which no edge is bad, and from each input the run to it: the flips of the least bad edge in edge order, until none is bad. An edge is bad where it flips and its image lies under it, that is where the opposite corner is strictly inside the circle of one of its two triangles, or on it while the image has the least of the four numbers as an end.
///
/// A run is followed for as many flips as the budget allows, and no further. A budget of `run_bound` of `lawson_law` is enough for each run. With m edges an input takes O(m log m) steps, and each of its flips O(log m) more, beside what the track takes to append it.
pub fn start(alloc: Global, inst: &Instance, budget: u64) -> Result<Start, StartFault>
    ensures ok { IfOk result (IsStart inst.now.points inst.now.inputs budget) }
    ensures err { IfErr result (IsStartFault inst.now.points inst.now.inputs budget) }
    ensures enough { length inst.now.points * (length inst.now.points - 1) / 2 ≤ budget → IfErr result (λ fault. fault ≡ start_fault.OutOfMemory) }
{
    let _ = inst.count();
    let tracks = tracks_of(alloc, inst, budget)?;
    let centre = tracks.at(0).end()?;
    Ok(Start { centre, tracks })
}
