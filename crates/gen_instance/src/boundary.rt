// One side of the boundary of the points that a sweep has passed: a chain of points, of which the last is the newest.
ghost use Rattle.std.specs.Prelude.{◌≡◌, ◌↔◌, ◌<◌, ◌+◌, ◌-◌, length, IsTrue, OnOk};
ghost use Rattle.tri_theory.specs.Points.{IsLeft};
ghost use Rattle.sweep_law.specs.Boundaries.{CanBeSwept, IsOn, IsFirstSeen, turned};
ghost use Rattle.gen_instance.specs.Orders.{AreNamed};
ghost use Rattle.gen_instance.specs.Sides.{side_of};

use geo_orient::{Point, orient};
use std::alloc::AllocError;

// A side of the boundary, and of each way of its chain.
#[derive(Clone, Copy)]
pub(crate) enum Side {
    Right,
    Left,
}

// Whether a point lies strictly left of the way from one point to another.
fn is_left(points: &[Point], c: u32, d: u32, s: u32) -> bool
    requires points { CanBeSwept points.now }
    requires from { c < length points.now }
    requires to { d < length points.now }
    requires point { s < length points.now }
    ensures { IsTrue result ↔ IsLeft points.now c d s }
{
    orient(points[c as usize], points[d as usize], points[s as usize]) > 0
}

// Whether a point lies strictly on a side of the way from one point to another.
fn is_on(side: Side, points: &[Point], c: u32, d: u32, s: u32) -> bool
    requires points { CanBeSwept points.now }
    requires from { c < length points.now }
    requires to { d < length points.now }
    requires point { s < length points.now }
    ensures { IsTrue result ↔ IsOn (side_of side) points.now c d s }
{
    match side {
        Side::Right => is_left(points, d, c, s),
        Side::Left => is_left(points, c, d, s),
    }
}

// The lowest place of a chain from which on a point lies strictly on that side of each way. Takes the time of the ways behind it.
pub(crate) fn first_seen(side: Side, points: &[Point], chain: &[u32], p: u32) -> usize
    requires points { CanBeSwept points.now }
    requires some { 0 < length chain.now }
    requires named { AreNamed points.now chain.now }
    requires point { p < length points.now }
    ensures { IsFirstSeen (side_of side) points.now chain.now p result }
{
    let mut place = chain.len() - 1;
    while place > 0 && is_on(side, points, chain[place - 1], chain[place], p) {
        place -= 1;
    }
    place
}

// Cuts a chain behind a place, and leads it to a point.
pub(crate) fn turn_to(chain: &mut Vec<u32>, place: usize, p: u32) -> Result<(), AllocError>
    requires { place < length chain.old.items }
    ensures { OnOk result (chain.new.items ≡ turned chain.old.items place p) }
{
    chain.truncate(place + 1);
    chain.push(p)?;
    Ok(())
}
