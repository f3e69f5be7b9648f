// Convex polygons with ample memory, their diagonals, and instances of them.
use edge_table::{Edge, EdgeSeq, Rounds};
use geo_orient::Point;
use std::alloc::{AllocError, Global};
use std::process::Abort;
use std::sync::Arc;
use std::test::Fail;
use tri_check::{Instance, PairList, PointList, RawInputs, RawInstance, RawPair, Uid};

pub(crate) const SQUARE: [(i64, i64); 4] = [(0, 0), (2, 0), (2, 2), (0, 2)];

pub(crate) const HEXAGON: [(i64, i64); 6] = [(5, 0), (3, 4), (-3, 4), (-5, 0), (-3, -4), (3, -4)];

pub(crate) const OCTAGON: [(i64, i64); 8] = [
    (8, 1),
    (7, 4),
    (4, 7),
    (1, 8),
    (-1, 8),
    (-4, 7),
    (-7, 4),
    (-8, 1),
];

fn points_of(alloc: Global, places: &[(i64, i64)]) -> Result<PointList, AllocError> {
    let mut points = PointList::make(alloc);
    for i in 0..places.len() {
        points.push(Point {
            x: places[i].0,
            y: places[i].1,
        })?;
    }
    Ok(points)
}

fn pairs_of(alloc: Global, diagonals: &[(i64, i64)]) -> Result<PairList, AllocError> {
    let mut pairs = PairList::make(alloc);
    for i in 0..diagonals.len() {
        pairs.push(RawPair {
            a: diagonals[i].0,
            b: diagonals[i].1,
        })?;
    }
    Ok(pairs)
}

fn inputs_of(alloc: Global, inputs: &[&[(i64, i64)]]) -> Result<RawInputs, AllocError> {
    let mut lists = RawInputs::make(alloc);
    for i in 0..inputs.len() {
        lists.push(pairs_of(alloc, inputs[i])?)?;
    }
    Ok(lists)
}

// The polygon with these corners, and for each input its diagonals.
pub(crate) fn instance(
    alloc: Global,
    corners: &[(i64, i64)],
    inputs: &[&[(i64, i64)]],
) -> Result<Arc<Instance>, Fail> {
    let uid = Uid::of(alloc, "polygon")?;
    let points = points_of(alloc, corners)?;
    let lists = inputs_of(alloc, inputs)?;
    Ok(Instance::check(alloc, RawInstance::unweighted(alloc, uid, points, lists)?)?)
}

pub(crate) fn edge(rt: &impl Abort, a: u32, b: u32) -> Edge {
    Edge::of(a, b).expect(rt, "two points")
}

// These edges, in order.
fn edges_of(rt: &impl Abort, alloc: Global, ends: &[(u32, u32)]) -> Result<EdgeSeq, AllocError> {
    let mut edges = EdgeSeq::make(alloc);
    for i in 0..ends.len() {
        edges.push(edge(rt, ends[i].0, ends[i].1))?;
    }
    Ok(edges)
}

// Rounds of these edges.
pub(crate) fn rounds_of(
    rt: &impl Abort,
    alloc: Global,
    lists: &[&[(u32, u32)]],
) -> Result<Rounds, AllocError> {
    let mut rounds = Rounds::make(alloc);
    for i in 0..lists.len() {
        rounds.push(edges_of(rt, alloc, lists[i])?)?;
    }
    Ok(rounds)
}

// Whether a list is of these edges, in order.
pub(crate) fn are_edges(rt: &impl Abort, edges: &EdgeSeq, ends: &[(u32, u32)]) -> bool {
    if edges.len() != ends.len() {
        return false;
    }
    for i in 0..ends.len() {
        if *edges.at(i) != edge(rt, ends[i].0, ends[i].1) {
            return false;
        }
    }
    true
}

// Whether rounds are of these edges, in order.
pub(crate) fn are_rounds(rt: &impl Abort, rounds: &Rounds, lists: &[&[(u32, u32)]]) -> bool {
    if rounds.len() != lists.len() {
        return false;
    }
    for i in 0..lists.len() {
        if !are_edges(rt, rounds.at(i), lists[i]) {
            return false;
        }
    }
    true
}
