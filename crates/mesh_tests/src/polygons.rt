// Convex polygons with ample memory, their diagonals, and instances of them.
ghost use Rattle.std.specs.Prelude.{◌<◌, length};

use edge_table::{Edge, EdgeSeq, Rounds};
use geo_orient::Point;
use std::alloc::{AllocError, Global};
use std::process::Abort;
use std::sync::Arc;
use std::test::Fail;
use tri_check::{Instance, PairList, PointList, RawInputs, RawInstance, RawPair, Uid};

pub(crate) const SQUARE: [(i64, i64); 4] = [(0, 0), (2, 0), (2, 2), (0, 2)];

pub(crate) const PENTAGON: [(i64, i64); 5] = [(0, 0), (4, 0), (5, 3), (2, 5), (-1, 3)];

pub(crate) const HEXAGON: [(i64, i64); 6] = [(5, 0), (3, 4), (-3, 4), (-5, 0), (-3, -4), (3, -4)];

pub(crate) const OCTAGON: [(i64, i64); 8] = [
    (8, 1),
    (7, 4),
    (4, 7),
    (1, 8),
    (-1, 8),
    (-4, 7),
    (-7, 4),
    (-8, 1),
];

fn points_of(alloc: Global, places: &[(i64, i64)]) -> Result<PointList, AllocError> {
    let mut points = PointList::make(alloc);
    for i in 0..places.len() {
        points.push(Point {
            x: places[i].0,
            y: places[i].1,
        })?;
    }
    Ok(points)
}

fn pairs_of(alloc: Global, diagonals: &[(i64, i64)]) -> Result<PairList, AllocError> {
    let mut pairs = PairList::make(alloc);
    for i in 0..diagonals.len() {
        pairs.push(RawPair {
            a: diagonals[i].0,
            b: diagonals[i].1,
        })?;
    }
    Ok(pairs)
}

fn inputs_of(alloc: Global, inputs: &[&[(i64, i64)]]) -> Result<RawInputs, AllocError> {
    let mut lists = RawInputs::make(alloc);
    for i in 0..inputs.len() {
        lists.push(pairs_of(alloc, inputs[i])?)?;
    }
    Ok(lists)
}

// The polygon with these corners, and for each input its diagonals.
pub(crate) fn instance(
    alloc: Global,
    corners: &[(i64, i64)],
    inputs: &[&[(i64, i64)]],
) -> Result<Arc<Instance>, Fail> {
    let uid = Uid::of(alloc, "polygon")?;
    let points = points_of(alloc, corners)?;
    let lists = inputs_of(alloc, inputs)?;
    Ok(Instance::check(alloc, RawInstance::unweighted(alloc, uid, points, lists)?)?)
}

// The square with each of its diagonals as an input.
pub(crate) fn both_diagonals(alloc: Global) -> Result<Arc<Instance>, Fail> {
    instance(alloc, &SQUARE, &[&[(0, 2)], &[(1, 3)]])
}

pub(crate) fn expect_input(rt: &impl Abort, inst: &Instance, t: u32)
    ensures { t < length inst.now.inputs }
{
    assert!(rt; t < inst.inputs());
}

pub(crate) fn edge(rt: &impl Abort, a: u32, b: u32) -> Edge {
    Edge::of(a, b).expect(rt, "two points")
}

// One round of one edge.
pub(crate) fn one_round(alloc: Global, e: Edge) -> Result<Rounds, AllocError> {
    let mut round = EdgeSeq::make(alloc);
    round.push(e)?;
    let mut rounds = Rounds::make(alloc);
    rounds.push(round)?;
    Ok(rounds)
}
