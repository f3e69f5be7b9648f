// What keeps the members of an input from being a triangulation.
ghost use Rattle.std.specs.Prelude.{◌≡◌, ◌<◌, ◌↔◌, ℕ, length, slice_get, Some, Contains, IsTrue, MatchBool, MatchOption};
ghost use Rattle.tri_theory.specs.Points.{Separates};
ghost use Rattle.tri_theory.specs.Triangulations.{AreJoined, Crosses, IsEmptyTriangle};
ghost use Rattle.tri_check.specs.Faults.{IsOpen};
ghost use Rattle.tri_check.specs.Stages as stage;

use crate::points::{blocker, has_left, is_left, point_at};
use edge_table::{Edge, EdgeList};
use geo_orient::{Point, cross};

// The first point strictly between the ends.
pub(crate) fn blocker_of(points: &[Point], e: Edge) -> Option<u32>
    requires usable { stage.AreUsable points.now }
    requires within { e.1 < length points.now }
    ensures { MatchOption result (stage.IsNone (length points.now) (Separates points.now e.0 e.1)) (stage.IsLeast (length points.now) (Separates points.now e.0 e.1)) }
{
    blocker(points, e.low(), e.high())
}

// The first member with a point strictly between its ends, and the first such point.
pub(crate) fn blocked(points: &[Point], edges: &EdgeList) -> Option<(Edge, u32)>
    requires usable { stage.AreUsable points.now }
    requires edges { stage.AreEdges points.now edges.now }
    ensures { MatchOption result
        (stage.IsNoEdge edges.now (stage.IsBlocked points.now))
        (λ r. stage.IsFirstEdge edges.now (stage.IsBlocked points.now) r.0 × stage.IsLeast (length points.now) (Separates points.now r.0.0 r.0.1) r.1) }
{
    for i in 0..edges.len() {
        let e = edges.at(i);
        if let Some(q) = blocker_of(points, e) {
            return Some((e, q));
        }
    }
    None
}

fn crosses(points: &[Point], e: Edge, f: Edge) -> bool
    requires usable { stage.AreUsable points.now }
    requires first { e.1 < length points.now }
    requires second { f.1 < length points.now }
    ensures { IsTrue result ↔ Crosses points.now e f }
{
    cross(
        point_at(points, e.low()),
        point_at(points, e.high()),
        point_at(points, f.low()),
        point_at(points, f.high()),
    )
}

// The first later member that crosses `e`, which has the place `i`.
fn crossing_of(points: &[Point], edges: &EdgeList, i: usize, e: Edge) -> Option<Edge>
    requires usable { stage.AreUsable points.now }
    requires edges { stage.AreEdges points.now edges.now }
    requires within { i < length edges.now }
    requires place { slice_get edges.now i ≡ Some e }
    ensures { MatchOption result
        (stage.IsNoEdge edges.now (stage.CrossesLater points.now e))
        (stage.IsFirstEdge edges.now (stage.CrossesLater points.now e)) }
{
    let count = edges.len();
    for j in i + 1..count {
        let f = edges.at(j);
        if crosses(points, e, f) {
            return Some(f);
        }
    }
    None
}

// The first two members that cross, in edge order.
pub(crate) fn crossing(points: &[Point], edges: &EdgeList) -> Option<(Edge, Edge)>
    requires usable { stage.AreUsable points.now }
    requires edges { stage.AreEdges points.now edges.now }
    ensures { MatchOption result
        (stage.IsNoEdge edges.now (stage.IsCrossed points.now edges.now))
        (λ r. stage.IsFirstEdge edges.now (stage.IsCrossed points.now edges.now) r.0 × stage.IsFirstEdge edges.now (stage.CrossesLater points.now r.0) r.1) }
{
    for i in 0..edges.len() {
        let e = edges.at(i);
        if let Some(f) = crossing_of(points, edges, i, e) {
            return Some((e, f));
        }
    }
    None
}

fn ends_at(e: Edge, p: u32) -> bool
    ensures answer { IsTrue result ↔ stage.EndsAt e p }
    ensures order { e.0 < e.1 }
{
    e.low() == p || e.high() == p
}

// Whether the point is an end of a member.
fn is_end(edges: &EdgeList, p: u32) -> bool
    ensures { MatchBool result (stage.IsEnd edges.now p) ((q : ℕ) → ¬ AreJoined edges.now p q) }
{
    for i in 0..edges.len() {
        let e = edges.at(i);
        if ends_at(e, p) {
            return true;
        }
    }
    false
}

// The first point that is an end of no member.
pub(crate) fn lone_point(points: &[Point], edges: &EdgeList) -> Option<u32>
    requires usable { stage.AreUsable points.now }
    ensures { MatchOption result
        ((p : ℕ) → p < length points.now → stage.IsEnd edges.now p)
        (stage.IsLeast (length points.now) (λ p. (q : ℕ) → ¬ AreJoined edges.now p q)) }
{
    for p in 0..points.len() as u32 {
        if !is_end(edges, p) {
            return Some(p);
        }
    }
    None
}

// Whether the two are joined by a member.
fn are_joined(points: &[Point], edges: &EdgeList, a: u32, b: u32) -> bool
    requires { stage.AreEdges points.now edges.now }
    ensures { IsTrue result ↔ AreJoined edges.now a b }
{
    match Edge::of(a, b) {
        Some(e) => edges.has(e),
        None => false,
    }
}

// Whether `p` is a corner, or lies outside the closed triangle.
fn is_apart(points: &[Point], a: u32, b: u32, c: u32, p: u32) -> bool
    requires usable { stage.AreUsable points.now }
    requires first { a < length points.now }
    requires second { b < length points.now }
    requires third { c < length points.now }
    requires fourth { p < length points.now }
    ensures { IsTrue result ↔ stage.IsApart points.now a b c p }
{
    if p == a || p == b || p == c {
        return true;
    }
    is_left(points, b, a, p) || is_left(points, c, b, p) || is_left(points, a, c, p)
}

// Whether the closed triangle has no points but its corners.
fn is_empty(points: &[Point], a: u32, b: u32, c: u32) -> bool
    requires usable { stage.AreUsable points.now }
    requires first { a < length points.now }
    requires second { b < length points.now }
    requires third { c < length points.now }
    ensures { IsTrue result ↔ ((p : ℕ) → p < length points.now → stage.IsApart points.now a b c p) }
{
    for p in 0..points.len() as u32 {
        if !is_apart(points, a, b, c, p) {
            return false;
        }
    }
    true
}

// Whether `a`, `b` and `c` are the corners of an empty triangle.
fn is_triangle(points: &[Point], edges: &EdgeList, a: u32, b: u32, c: u32) -> bool
    requires usable { stage.AreUsable points.now }
    requires edges { stage.AreEdges points.now edges.now }
    requires first { a < length points.now }
    requires second { b < length points.now }
    requires third { c < length points.now }
    requires joined { AreJoined edges.now a b }
    ensures { IsTrue result ↔ IsEmptyTriangle points.now edges.now a b c }
{
    if !are_joined(points, edges, b, c) {
        return false;
    }
    if !are_joined(points, edges, c, a) {
        return false;
    }
    if !is_left(points, a, b, c) {
        return false;
    }
    is_empty(points, a, b, c)
}

// Whether the side has an empty triangle on the left.
fn has_triangle(points: &[Point], edges: &EdgeList, a: u32, b: u32) -> bool
    requires usable { stage.AreUsable points.now }
    requires edges { stage.AreEdges points.now edges.now }
    requires first { a < length points.now }
    requires second { b < length points.now }
    requires joined { AreJoined edges.now a b }
    ensures { MatchBool result
        ((c : ℕ) × IsEmptyTriangle points.now edges.now a b c)
        ((c : ℕ) → ¬ IsEmptyTriangle points.now edges.now a b c) }
{
    for c in 0..points.len() as u32 {
        if is_triangle(points, edges, a, b, c) {
            return true;
        }
    }
    false
}

// Whether points lie on the left, and no empty triangle does.
fn is_open(points: &[Point], edges: &EdgeList, a: u32, b: u32) -> bool
    requires usable { stage.AreUsable points.now }
    requires edges { stage.AreEdges points.now edges.now }
    requires first { a < length points.now }
    requires second { b < length points.now }
    requires joined { AreJoined edges.now a b }
    ensures { MatchBool result (IsOpen points.now edges.now a b) (stage.IsClosed points.now edges.now a b) }
{
    if !has_left(points, a, b) {
        return false;
    }
    if has_triangle(points, edges, a, b) {
        return false;
    }
    true
}

// Whether a side of the member is open.
fn has_open_side(points: &[Point], edges: &EdgeList, e: Edge) -> bool
    requires usable { stage.AreUsable points.now }
    requires edges { stage.AreEdges points.now edges.now }
    requires member { Contains edges.now e }
    ensures { MatchBool result (stage.HasOpenSide points.now edges.now e) (stage.IsClosed points.now edges.now e.0 e.1 × stage.IsClosed points.now edges.now e.1 e.0) }
{
    let a = e.low();
    let b = e.high();
    if is_open(points, edges, a, b) {
        return true;
    }
    if is_open(points, edges, b, a) {
        return true;
    }
    false
}

// The first member with an open side.
pub(crate) fn open_side(points: &[Point], edges: &EdgeList) -> Option<Edge>
    requires usable { stage.AreUsable points.now }
    requires edges { stage.AreEdges points.now edges.now }
    ensures { MatchOption result
        (stage.AreClosed points.now edges.now)
        (stage.IsFirstEdge edges.now (stage.HasOpenSide points.now edges.now)) }
{
    for i in 0..edges.len() {
        let e = edges.at(i);
        if has_open_side(points, edges, e) {
            return Some(e);
        }
    }
    None
}
