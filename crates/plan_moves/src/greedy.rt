// One round of a descent: in edge order, each edge that flips to one which fewer members of the centre cross, and that shares no triangle with an edge taken before.
ghost use Rattle.std.specs.Prelude.{◌≡◌, ◌≢◌, ◌↔◌, ◌++◌, ◌∷◌, [], IsTrue, IfOk, OnOk, MatchBool, nat_lt};
ghost use Rattle.edge_table.specs.Edges.{edge, IsAscending};
ghost use Rattle.tri_theory.specs.Triangulations.{AreJoined, IsSegment};
ghost use Rattle.tri_theory.specs.Crossings.{crossings};
ghost use Rattle.tri_theory.specs.Flips.{Flips};
ghost use Rattle.tri_theory.specs.Rounds.{IsRound};
ghost use Rattle.tri_check.specs.Layouts.{IsTriangulated};
ghost use Rattle.flip_list_law.specs.FlipLists.{flipped_edges};
ghost use Rattle.replay.specs.Independent.{AreIndependent};
ghost use Rattle.replay.specs.Steps.{AreCornersApart};
ghost use Rattle.plan_law.specs.Improvers.{greedy_round};
ghost use Rattle.plan_moves.specs.Rounds.{HasNoSide, IsTaken, IsPassed, IsTried, HasEachLower, HasEachNeighbour, AddsNeighbours, HaveSameMembers};

use cross_bound::crossings;
use edge_table::{Edge, EdgeList, EdgeSeq};
use flip_mesh::{Mesh, Quad};
use std::alloc::{AllocError, Global};

// Whether the edge of two points is taken.
fn is_taken(taken: &EdgeList, a: u32, b: u32) -> bool
    requires { a ≢ b }
    ensures { IsTrue result ↔ AreJoined taken.now a b }
{
    match Edge::of(a, b) {
        Some(f) => taken.has(f),
        None => unreachable!(),
    }
}

// Whether no side of a quadrilateral is taken.
fn is_apart(taken: &EdgeList, q: Quad) -> bool
    requires { AreCornersApart q }
    ensures { IsTrue result ↔ HasNoSide q taken.now }
{
    !is_taken(taken, q.a, q.b)
        && (!is_taken(taken, q.b, q.c)
            && (!is_taken(taken, q.c, q.d) && !is_taken(taken, q.d, q.a)))
}

// Whether fewer members of the centre cross the edge of two points than cross another edge.
fn is_lower(centre: &Mesh, b: u32, d: u32, e: Edge) -> bool
    requires apart { b ≢ d }
    requires image { IsSegment centre.now.points (edge b d) }
    requires segment { IsSegment centre.now.points e }
    ensures { result ≡ nat_lt (crossings centre.now.points centre.now.edges (edge b d)) (crossings centre.now.points centre.now.edges e) }
{
    match Edge::of(b, d) {
        Some(f) => crossings(centre, f) < crossings(centre, e),
        None => unreachable!(),
    }
}

// Whether an edge is taken after the others.
fn takes(mesh: &Mesh, centre: &Mesh, taken: &EdgeList, e: Edge) -> bool
    requires points { mesh.now.points ≡ centre.now.points }
    ensures { MatchBool result (IsTaken mesh.now.points centre.now.edges mesh.now.edges taken.now e) (IsPassed mesh.now.points centre.now.edges mesh.now.edges taken.now e) }
{
    let _ = mesh.points();
    match mesh.quad(e) {
        Some(q) => is_apart(taken, q) && is_lower(centre, q.b, q.d, e),
        None => false,
    }
}

// Takes an edge after the others, or passes it over.
fn try_edge(mesh: &Mesh, centre: &Mesh, taken: &mut EdgeList, e: Edge) -> Result<(), AllocError>
    requires points { mesh.now.points ≡ centre.now.points }
    ensures { OnOk result (IsTried mesh.now.points centre.now.edges mesh.now.edges taken.old e taken.new) }
{
    if !takes(mesh, centre, taken, e) {
        return Ok(());
    }
    taken.insert(e)?;
    Ok(())
}

// The edges of a set, in edge order.
fn listed(alloc: Global, edges: &EdgeList) -> Result<EdgeSeq, AllocError>
    ensures ok { IfOk result (λ list. list ≡ edges.now) }
    ensures ascending { IsAscending edges.now }
{
    let mut list = EdgeSeq::make(alloc);
    for i in 0..edges.len() {
        list.push(edges.at(i))?;
    }
    Ok(list)
}

// The round that a descent makes where the mesh stands. Only the candidates can be taken.
pub(crate) fn greedy_round(
    alloc: Global,
    mesh: &Mesh,
    candidates: &EdgeList,
    centre: &Mesh,
) -> Result<EdgeSeq, AllocError>
    requires points { mesh.now.points ≡ centre.now.points }
    requires candidates { HasEachLower mesh.now.points centre.now.edges mesh.now.edges candidates.now }
    ensures { IfOk result (λ round. round ≡ flipped_edges (greedy_round mesh.now.points centre.now.edges mesh.now.edges)) }
{
    let _ = mesh.points();
    let mut taken = EdgeList::make(alloc);
    for i in 0..candidates.len() {
        try_edge(mesh, centre, &mut taken, candidates.at(i))?;
    }
    listed(alloc, &taken)
}

// Adds the edge of two points.
fn add_side(sides: &mut Vec<Edge>, a: u32, b: u32) -> Result<(), AllocError>
    requires { a ≢ b }
    ensures { OnOk result (sides.new.items ≡ sides.old.items ++ edge a b ∷ []) }
{
    match Edge::of(a, b) {
        Some(f) => {
            sides.push(f)?;
            Ok(())
        }
        None => unreachable!(),
    }
}

// Adds the four sides of the quadrilateral at an edge.
fn add_sides(mesh: &Mesh, sides: &mut Vec<Edge>, e: Edge) -> Result<(), AllocError>
    requires { Flips mesh.now.points mesh.now.edges e }
    ensures { OnOk result (AddsNeighbours mesh.now.points mesh.now.edges e sides.old.items sides.new.items) }
{
    let _ = mesh.points();
    match mesh.quad(e) {
        Some(q) => {
            add_side(sides, q.a, q.b)?;
            add_side(sides, q.b, q.c)?;
            add_side(sides, q.c, q.d)?;
            add_side(sides, q.d, q.a)?;
            Ok(())
        }
        None => unreachable!(),
    }
}

// The edges of a list, as a set. It takes O(m log m) steps where m edges ascend.
pub(crate) fn set_of(alloc: Global, items: &[Edge]) -> Result<EdgeList, AllocError>
    ensures { IfOk result (λ edges. HaveSameMembers edges items.now) }
{
    let mut edges = EdgeList::make(alloc);
    for e in items {
        edges.insert(*e)?;
    }
    Ok(edges)
}

// The sides of the quadrilaterals at the edges of a round.
pub(crate) fn neighbours(
    alloc: Global,
    mesh: &Mesh,
    round: &EdgeSeq,
) -> Result<EdgeList, AllocError>
    requires { AreIndependent mesh.now.points mesh.now.edges round.now }
    ensures { IfOk result (HasEachNeighbour mesh.now.points mesh.now.edges round.now) }
{
    let mut sides = Vec::new(alloc);
    for e in round.as_slice() {
        add_sides(mesh, &mut sides, *e)?;
    }
    sides.sort()?;
    set_of(alloc, &sides)
}

// Flips the edges of a round, one after the other.
pub(crate) fn flip_round(mesh: &mut Mesh, round: &EdgeSeq)
    requires triangulated { IsTriangulated mesh.old.points mesh.old.edges }
    requires independent { AreIndependent mesh.old.points mesh.old.edges round.now }
    ensures points { mesh.new.points ≡ mesh.old.points }
    ensures round { IsRound mesh.old.points mesh.old.edges round.now mesh.new.edges }
{
    for e in round.as_slice() {
        mesh.flip(*e);
    }
}
