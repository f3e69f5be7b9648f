// Which edges are bad: a test, and the set of those that are.
ghost use Rattle.std.specs.Prelude.{◌≡◌, ◌≢◌, ◌<◌, ◌↔◌, length, IsTrue, IfOk, OnOk};
ghost use Rattle.edge_table.specs.Edges.{edge};
ghost use Rattle.geo_orient.specs.Reach.{IsInReach};
ghost use Rattle.tri_theory.specs.Points.{point};
ghost use Rattle.tri_theory.specs.Flips.{IsQuad};
ghost use Rattle.lawson_law.specs.Circles.{circle, IsUnder};
ghost use Rattle.lawson_law.specs.LawsonRuns.{IsBad};
ghost use Rattle.lawson_start.specs.Steps.{AreBad, IsRetested, AreSidesRetested};

use crate::queue::EdgeQueue;
use edge_table::Edge;
use flip_mesh::{Mesh, Quad};
use geo_orient::{Point, in_circle};
use std::alloc::{AllocError, Global};
use tri_check::Triang;

// The point with the number `i`.
fn point_at(mesh: &Mesh, i: u32) -> Point
    requires { i < length mesh.now.points }
    ensures point { result ≡ point mesh.now.points i }
    ensures in_reach { IsInReach result }
{
    *mesh.points().at(i as usize)
}

// Positive where the fourth corner is inside the circle of the other three.
fn circle_of(mesh: &Mesh, q: Quad) -> i128
    requires { IsQuad mesh.now.points mesh.now.edges q.a q.b q.c q.d }
    ensures { result ≡ circle mesh.now.points q.a q.b q.c q.d }
{
    let _ = mesh.points();
    in_circle(
        point_at(mesh, q.a),
        point_at(mesh, q.b),
        point_at(mesh, q.c),
        point_at(mesh, q.d),
    )
}

// Whether the other diagonal lies under that of `a` and `c`.
fn is_under(mesh: &Mesh, q: Quad) -> bool
    requires { IsQuad mesh.now.points mesh.now.edges q.a q.b q.c q.d }
    ensures { IsTrue result ↔ IsUnder mesh.now.points q.a q.b q.c q.d }
{
    let circle = circle_of(mesh, q);
    circle > 0 || (circle == 0 && q.b.min(q.d) < q.a.min(q.c))
}

fn is_bad(mesh: &Mesh, e: Edge) -> bool
    ensures { IsTrue result ↔ IsBad mesh.now.points mesh.now.edges e }
{
    let _ = mesh.points();
    match mesh.quad(e) {
        Some(q) => is_under(mesh, q),
        None => false,
    }
}

// Puts an edge into the set where it is bad, and takes it out where it isn't.
pub(crate) fn retest(mesh: &Mesh, bad: &mut EdgeQueue, e: Edge) -> Result<(), AllocError>
    ensures { OnOk result (IsRetested mesh.now.points mesh.now.edges bad.old bad.new e) }
{
    if is_bad(mesh, e) {
        bad.insert(e)?;
        Ok(())
    } else {
        bad.remove(e);
        Ok(())
    }
}

fn retest_between(mesh: &Mesh, bad: &mut EdgeQueue, a: u32, b: u32) -> Result<(), AllocError>
    requires { a ≢ b }
    ensures { OnOk result (IsRetested mesh.now.points mesh.now.edges bad.old bad.new (edge a b)) }
{
    match Edge::of(a, b) {
        Some(e) => retest(mesh, bad, e),
        None => unreachable!(),
    }
}

// The same for the sides of a quadrilateral.
pub(crate) fn retest_sides(mesh: &Mesh, bad: &mut EdgeQueue, q: Quad) -> Result<(), AllocError>
    requires ab { q.a ≢ q.b }
    requires bc { q.b ≢ q.c }
    requires cd { q.c ≢ q.d }
    requires da { q.d ≢ q.a }
    ensures { OnOk result (AreSidesRetested mesh.now.points mesh.now.edges bad.old bad.new q) }
{
    retest_between(mesh, bad, q.a, q.b)?;
    retest_between(mesh, bad, q.b, q.c)?;
    retest_between(mesh, bad, q.c, q.d)?;
    retest_between(mesh, bad, q.d, q.a)?;
    Ok(())
}

// The bad edges of a triangulation.
pub(crate) fn bad_edges(alloc: Global, mesh: &Mesh, t: &Triang) -> Result<EdgeQueue, AllocError>
    requires { mesh.now ≡ t.now }
    ensures { IfOk result (AreBad t.now.points t.now.edges) }
{
    let mut bad = EdgeQueue::make(alloc);
    for i in 0..t.len() {
        retest(mesh, &mut bad, t.edge_at(i))?;
    }
    Ok(bad)
}
