// The members of an input: its pairs as edges, with the hull segments.
ghost use Rattle.std.specs.Prelude.{◌≡◌, ◌<◌, ◌+◌, ◌↔◌, length, unsigned_abs, IsTrue, IsNone, IfSome, IfOk, OnOk, MatchOption};
ghost use Rattle.edge_table.specs.Edges.{edge};
ghost use Rattle.tri_check.specs.Faults.{IsCompletedInput};
ghost use Rattle.tri_check.specs.Stages as stage;

use crate::RawPair;
use edge_table::{Edge, EdgeList};
use geo_orient::Point;
use std::alloc::{AllocError, Global};

// Whether both numbers name points.
fn names_points(points: &[Point], pair: RawPair) -> bool
    requires { stage.AreUsable points.now }
    ensures { IsTrue result ↔ stage.NamesPoints points.now pair }
{
    let count = points.len() as i64;
    0 <= pair.a && pair.a < count && 0 <= pair.b && pair.b < count
}

// The first pair with a number that names no point.
pub(crate) fn bad_vertex(points: &[Point], pairs: &[RawPair]) -> Option<usize>
    requires { stage.AreUsable points.now }
    ensures { MatchOption result (stage.ArePairs points.now pairs.now) (stage.IsLeast (length pairs.now) (stage.HasBadVertex points.now pairs.now)) }
{
    for p in 0..pairs.len() {
        if !names_points(points, pairs[p]) {
            return Some(p);
        }
    }
    None
}

// The first pair with equal numbers.
pub(crate) fn first_loop(pairs: &[RawPair]) -> Option<usize>
    ensures { MatchOption result (stage.IsNone (length pairs.now) (stage.IsLoop pairs.now)) (stage.IsLeast (length pairs.now) (stage.IsLoop pairs.now)) }
{
    for p in 0..pairs.len() {
        let pair = pairs[p];
        if pair.a == pair.b {
            return Some(p);
        }
    }
    None
}

// The pair as an edge.
fn edge_of(points: &[Point], pair: RawPair) -> Option<Edge>
    requires usable { stage.AreUsable points.now }
    requires names { stage.NamesPoints points.now pair }
    ensures none { IsNone result ↔ (pair.a ≡ pair.b) }
    ensures ends { IfSome result (λ e. e ≡ edge (unsigned_abs pair.a) (unsigned_abs pair.b)) }
{
    Edge::of(pair.a as u32, pair.b as u32)
}

// Adds the pair with the place `p`.
fn add_pair(
    points: &[Point],
    pairs: &[RawPair],
    items: &mut Vec<Edge>,
    p: usize,
) -> Result<(), AllocError>
    requires usable { stage.AreUsable points.now }
    requires pairs { stage.ArePairs points.now pairs.now }
    requires apart { stage.IsNone (length pairs.now) (stage.IsLoop pairs.now) }
    requires within { p < length pairs.now }
    requires gathered { stage.AreGathered points.now pairs.now items.old.items p }
    ensures { OnOk result (stage.AreGathered points.now pairs.now items.new.items (p + 1)) }
{
    match edge_of(points, pairs[p]) {
        Some(e) => {
            items.push(e)?;
            Ok(())
        }
        None => Ok(()),
    }
}

// The edges of the hull, as they are listed.
fn listed(alloc: Global, hull: &EdgeList) -> Result<Vec<Edge>, AllocError>
    ensures { IfOk result (λ v. v.items ≡ hull.now) }
{
    let mut items = Vec::new(alloc);
    for i in 0..hull.len() {
        items.push(hull.at(i))?;
    }
    Ok(items)
}

// The edges of the hull and of all pairs, one after the other.
fn gathered(
    alloc: Global,
    points: &[Point],
    pairs: &[RawPair],
    hull: &EdgeList,
) -> Result<Vec<Edge>, AllocError>
    requires usable { stage.AreUsable points.now }
    requires pairs { stage.ArePairs points.now pairs.now }
    requires apart { stage.IsNone (length pairs.now) (stage.IsLoop pairs.now) }
    requires hull { stage.AreHull points.now hull.now }
    ensures { IfOk result (λ v. stage.AreGathered points.now pairs.now v.items (length pairs.now)) }
{
    let mut items = listed(alloc, hull)?;
    for p in 0..pairs.len() {
        add_pair(points, pairs, &mut items, p)?;
    }
    Ok(items)
}

// The edges as a set. Time grows with their number where they ascend.
fn set_of(alloc: Global, items: &[Edge]) -> Result<EdgeList, AllocError>
    ensures { IfOk result (λ s. stage.HasFirst items.now s (length items.now)) }
{
    let mut edges = EdgeList::make(alloc);
    for i in 0..items.len() {
        edges.insert(items[i])?;
    }
    Ok(edges)
}

// The members.
pub(crate) fn members(
    alloc: Global,
    points: &[Point],
    pairs: &[RawPair],
    hull: &EdgeList,
) -> Result<EdgeList, AllocError>
    requires usable { stage.AreUsable points.now }
    requires pairs { stage.ArePairs points.now pairs.now }
    requires apart { stage.IsNone (length pairs.now) (stage.IsLoop pairs.now) }
    requires hull { stage.AreHull points.now hull.now }
    ensures completed { IfOk result (IsCompletedInput points.now pairs.now) }
    ensures edges { IfOk result (stage.AreEdges points.now) }
{
    let mut items = gathered(alloc, points, pairs, hull)?;
    items.sort()?;
    let edges = set_of(alloc, &items)?;
    Ok(edges)
}
