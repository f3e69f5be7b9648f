// The first member that a segment crosses.
ghost use Rattle.std.specs.Prelude.{◌≡◌, ◌≢◌, ◌<◌, ◌⊎◌, ℕ, pos, length, MatchBool};
ghost use Rattle.tri_theory.specs.Points.{IsLeft, turn};
ghost use Rattle.tri_theory.specs.Triangulations.{AreJoined, IsEmptyTriangle, IsSegment};
ghost use Rattle.cross_bound.specs.Walks.{IsFirst, IsNonMember};

use crate::walk::{Way, is_left};
use edge_table::Edge;
use flip_mesh::Mesh;

// The third corner of the triangle left of the way from `a` to `b`, where a point lies there.
fn third(mesh: &Mesh, a: u32, b: u32) -> u32
    requires joined { AreJoined mesh.now.edges a b }
    requires side { (p : ℕ) × (p < length mesh.now.points) × IsLeft mesh.now.points a b p }
    ensures { IsEmptyTriangle mesh.now.points mesh.now.edges a b result }
{
    let _ = mesh.points();
    match mesh.apex(a, b) {
        Some(c) => c,
        None => unreachable!(),
    }
}

// Turns to the left round the segment's low end, from a member that has the high end on its left.
fn turn_left(mesh: &Mesh, e: Edge, near: u32) -> Way
    requires outside { IsNonMember mesh.now.points mesh.now.edges e }
    requires joined { AreJoined mesh.now.edges e.0 near }
    requires beyond { IsLeft mesh.now.points e.0 near e.1 }
    ensures { IsFirst mesh.now.points mesh.now.edges e result }
{
    let _ = mesh.points();
    let mut right = near;
    let mut left = third(mesh, e.low(), near);
    while is_left(mesh, e.low(), left, e.high()) {
        right = left;
        left = third(mesh, e.low(), right);
    }
    Way { left, right }
}

// Turns to the right, from a member that has the high end on its right.
fn turn_right(mesh: &Mesh, e: Edge, near: u32) -> Way
    requires outside { IsNonMember mesh.now.points mesh.now.edges e }
    requires joined { AreJoined mesh.now.edges e.0 near }
    requires beyond { IsLeft mesh.now.points near e.0 e.1 }
    ensures { IsFirst mesh.now.points mesh.now.edges e result }
{
    let _ = mesh.points();
    let mut left = near;
    let mut right = third(mesh, near, e.low());
    while is_left(mesh, right, e.low(), e.high()) {
        left = right;
        right = third(mesh, left, e.low());
    }
    Way { left, right }
}

// A member at `u` that isn't on the line of `u` and `near`.
fn off_line(mesh: &Mesh, u: u32, near: u32) -> u32
    requires { AreJoined mesh.now.edges u near }
    ensures joined { AreJoined mesh.now.edges u result }
    ensures off { turn mesh.now.points u near result ≢ pos 0 }
{
    let _ = mesh.points();
    match mesh.apex(u, near) {
        Some(c) => c,
        None => match mesh.apex(near, u) {
            Some(c) => c,
            None => unreachable!(),
        },
    }
}

// The first member that a segment outside crosses, found from a member at its low end that isn't on its line.
fn first_from(mesh: &Mesh, e: Edge, near: u32) -> Way
    requires outside { IsNonMember mesh.now.points mesh.now.edges e }
    requires joined { AreJoined mesh.now.edges e.0 near }
    requires off { turn mesh.now.points e.0 near e.1 ≢ pos 0 }
    ensures { IsFirst mesh.now.points mesh.now.edges e result }
{
    let _ = mesh.points();
    if is_left(mesh, e.low(), near, e.high()) {
        turn_left(mesh, e, near)
    } else {
        turn_right(mesh, e, near)
    }
}

// Whether three points aren't on one line.
fn is_off(mesh: &Mesh, a: u32, b: u32, c: u32) -> bool
    requires first { a < length mesh.now.points }
    requires second { b < length mesh.now.points }
    requires third { c < length mesh.now.points }
    ensures { MatchBool result (turn mesh.now.points a b c ≢ pos 0) (turn mesh.now.points a b c ≡ pos 0) }
{
    let _ = mesh.points();
    is_left(mesh, a, b, c) || is_left(mesh, b, a, c)
}

// The first member that a segment outside crosses.
pub(crate) fn first_way(mesh: &Mesh, e: Edge) -> Way
    requires { IsNonMember mesh.now.points mesh.now.edges e }
    ensures { IsFirst mesh.now.points mesh.now.edges e result }
{
    let _ = mesh.points();
    let near = mesh.near(e.low());
    if is_off(mesh, e.low(), near, e.high()) {
        first_from(mesh, e, near)
    } else {
        first_from(mesh, e, off_line(mesh, e.low(), near))
    }
}
