// How points of an instance lie to each other.
ghost use Rattle.std.specs.Prelude.{◌≡◌, ◌<◌, ◌↔◌, ◌<ℤ◌, pos, length, IsTrue};
ghost use Rattle.geo_orient.specs.Reach.{IsInReach};
ghost use Rattle.tri_theory.specs.Points.{point, IsLeft};

use geo_orient::{Point, orient};
use tri_check::Instance;

fn is_positive(x: i128) -> bool
    ensures { IsTrue result ↔ (pos 0 <ℤ x) }
{
    x > 0
}

// The point with the number `i`.
fn point_at(inst: &Instance, i: u32) -> Point
    requires { i < length inst.now.points }
    ensures point { result ≡ point inst.now.points i }
    ensures in_reach { IsInReach result }
{
    let _ = inst.count();
    inst.point(i)
}

// Whether `c` lies strictly left of the way from `a` to `b`.
pub(crate) fn is_left_of(inst: &Instance, a: u32, b: u32, c: u32) -> bool
    requires first { a < length inst.now.points }
    requires second { b < length inst.now.points }
    requires third { c < length inst.now.points }
    ensures { IsTrue result ↔ IsLeft inst.now.points a b c }
{
    is_positive(orient(point_at(inst, a), point_at(inst, b), point_at(inst, c)))
}
