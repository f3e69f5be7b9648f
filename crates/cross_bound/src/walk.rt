// The members that a segment crosses, one after the other.
ghost use Rattle.std.specs.Prelude.{◌≡◌, ◌<◌, ◌<ℤ◌, ◌↔◌, pos, length, IsTrue, IfNone, IfSome};
ghost use Rattle.geo_orient.specs.Reach.{IsInReach};
ghost use Rattle.tri_theory.specs.Points.{point, IsLeft};
ghost use Rattle.tri_theory.specs.Triangulations.{IsEmptyTriangle, IsSegment};
ghost use Rattle.tri_theory.specs.Crossings.{crossings};
ghost use Rattle.cross_bound.specs.Walks.{IsCrossed, IsFirst, IsNext};

use edge_table::Edge;
use flip_mesh::Mesh;
use geo_orient::{Point, orient};

// The ends of a member that a segment crosses, left and right of the way from the segment's low end to its high one.
#[derive(Clone, Copy)]
pub struct Way {
    pub left: u32,
    pub right: u32,
}

// The point with the number `i`.
fn point_at(mesh: &Mesh, i: u32) -> Point
    requires { i < length mesh.now.points }
    ensures point { result ≡ point mesh.now.points i }
    ensures in_reach { IsInReach result }
{
    *mesh.points().at(i as usize)
}

fn is_positive(x: i128) -> bool
    ensures { IsTrue result ↔ (pos 0 <ℤ x) }
{
    x > 0
}

// Whether `c` lies left of the way from `a` to `b`.
pub(crate) fn is_left(mesh: &Mesh, a: u32, b: u32, c: u32) -> bool
    requires first { a < length mesh.now.points }
    requires second { b < length mesh.now.points }
    requires third { c < length mesh.now.points }
    ensures { IsTrue result ↔ IsLeft mesh.now.points a b c }
{
    is_positive(orient(point_at(mesh, a), point_at(mesh, b), point_at(mesh, c)))
}

// The next member that the segment crosses, where it doesn't end in the triangle behind this one.
fn next_way(mesh: &Mesh, e: Edge, way: Way) -> Option<Way>
    requires segment { IsSegment mesh.now.points e }
    requires crossed { IsCrossed mesh.now.points mesh.now.edges e way }
    ensures none { IfNone result (IsEmptyTriangle mesh.now.points mesh.now.edges way.left way.right e.1) }
    ensures some { IfSome result (IsNext mesh.now.points mesh.now.edges e way) }
{
    let _ = mesh.points();
    match mesh.apex(way.left, way.right) {
        Some(z) => {
            if z == e.high() {
                return None;
            }
            if is_left(mesh, e.low(), e.high(), z) {
                Some(Way {
                    left: z,
                    right: way.right,
                })
            } else {
                Some(Way {
                    left: way.left,
                    right: z,
                })
            }
        }
        None => unreachable!(),
    }
}

// How many members the segment crosses, from the first one on.
pub(crate) fn walk(mesh: &Mesh, e: Edge, first: Way) -> u32
    requires segment { IsSegment mesh.now.points e }
    requires first { IsFirst mesh.now.points mesh.now.edges e first }
    ensures { result ≡ crossings mesh.now.points mesh.now.edges e }
{
    let _ = mesh.points();
    let mut way = first;
    let mut count: u32 = 1;
    while let Some(next) = next_way(mesh, e, way) {
        way = next;
        count += 1;
    }
    count
}
