// Plans of instances, with the tracks of their opening or with flips that are told.
ghost use Rattle.std.specs.Prelude.{◌≡◌, ◌<◌, length, IfOk, OnOk};

use crate::polygons::{HEXAGON, OCTAGON, SQUARE, edge, instance};
use edge_table::Edge;
use flip_mesh::Mesh;
use lawson_start::start;
use plan_core::Plan;
use round_pack::{Track, TrackList};
use std::alloc::Global;
use std::process::Abort;
use std::sync::Arc;
use std::test::Fail;
use tri_check::{Instance, Triang};

// The plan of an instance's opening.
pub(crate) fn opening(alloc: Global, inst: Arc<Instance>) -> Result<Plan, Fail> {
    let opening = start(alloc, &inst, 100)?;
    Ok(Plan::opening(alloc, inst, opening.centre, opening.tracks)?)
}

// The opening of the octagon with its fans at 0 and at 1 as inputs.
pub(crate) fn octagon(alloc: Global) -> Result<Plan, Fail> {
    let first = [(0, 2), (0, 3), (0, 4), (0, 5), (0, 6)];
    let second = [(1, 3), (1, 4), (1, 5), (1, 6), (1, 7)];
    opening(alloc, instance(alloc, &OCTAGON, &[&first, &second])?)
}

// The opening of the square with each of its diagonals as an input.
pub(crate) fn both_diagonals(alloc: Global) -> Result<Plan, Fail> {
    opening(alloc, instance(alloc, &SQUARE, &[&[(0, 2)], &[(1, 3)]])?)
}

fn append(alloc: Global, track: &mut Track, e: Edge) -> Result<(), Fail>
    ensures points { OnOk result (track.new.points ≡ track.old.points) }
    ensures start { OnOk result (track.new.start ≡ track.old.start) }
{
    track.reserve(1)?;
    let mesh = Mesh::of(alloc, &track.end()?)?;
    match mesh.quad(e) {
        Some(_) => {
            track.append(e);
            Ok(())
        }
        None => Err(Fail::new("no flip")),
    }
}

// The flips of these edges, one after the other.
fn track_from(
    rt: &impl Abort,
    alloc: Global,
    input: &Triang,
    flips: &[(u32, u32)],
) -> Result<Track, Fail>
    ensures points { IfOk result (λ t. t.points ≡ input.now.points) }
    ensures start { IfOk result (λ t. t.start ≡ input.now.edges) }
{
    let mut track = Track::at(alloc, input)?;
    for i in 0..flips.len() {
        append(alloc, &mut track, edge(rt, flips[i].0, flips[i].1))?;
    }
    Ok(track)
}

fn expect_one_input(rt: &impl Abort, inst: &Instance)
    ensures { length inst.now.inputs ≡ 1 }
{
    assert!(rt; inst.inputs() == 1);
}

pub(crate) fn expect_input(rt: &impl Abort, inst: &Instance, t: u32)
    ensures { t < length inst.now.inputs }
{
    assert!(rt; t < inst.inputs());
}

// The plan whose centre is where these flips lead from the only input.
fn opened(
    rt: &impl Abort,
    alloc: Global,
    inst: Arc<Instance>,
    flips: &[(u32, u32)],
) -> Result<Plan, Fail> {
    expect_one_input(rt, &inst);
    let track = track_from(rt, alloc, inst.input(0), flips)?;
    let centre = track.end()?;
    let mut tracks = TrackList::make(alloc);
    tracks.push(track)?;
    Ok(Plan::opening(alloc, inst, centre, tracks)?)
}

// The square with the diagonal 1-3 as its only input, from which these flips lead to the centre.
pub(crate) fn square(rt: &impl Abort, alloc: Global, flips: &[(u32, u32)]) -> Result<Plan, Fail> {
    opened(rt, alloc, instance(alloc, &SQUARE, &[&[(1, 3)]])?, flips)
}

// The hexagon with three diagonals as its only input, from which two flips of one round lead to the centre.
pub(crate) fn hexagon(rt: &impl Abort, alloc: Global) -> Result<Plan, Fail> {
    let inst = instance(alloc, &HEXAGON, &[&[(0, 2), (2, 5), (3, 5)]])?;
    opened(rt, alloc, inst, &[(0, 2), (3, 5)])
}
