// The triangles that a flip takes and makes.
ghost use Rattle.std.specs.Prelude.{◌≡◌, min, max};
ghost use Rattle.flip_list_law.specs.FlipLists.{triangle, is_same, makes, one_side, other_side};

use edge_table::Edge;
use flip_list_law::Flip;

// The numbers of a triangle's corners, ascending.
pub(crate) type Triangle = (u32, u32, u32);

fn lesser(a: u32, b: u32) -> u32
    ensures { result ≡ min a b }
{
    if a < b { a } else { b }
}

fn greater(a: u32, b: u32) -> u32
    ensures { result ≡ max a b }
{
    if a < b { b } else { a }
}

// The triangle of an edge and a third corner.
fn triangle(e: Edge, corner: u32) -> Triangle
    ensures { result ≡ triangle e.0 e.1 corner }
{
    let low = e.low();
    let high = e.high();
    (
        lesser(low, lesser(high, corner)),
        greater(lesser(low, high), lesser(greater(low, high), corner)),
        greater(low, greater(high, corner)),
    )
}

fn is_same(s: Triangle, t: Triangle) -> bool
    ensures { result ≡ is_same s t }
{
    s.0 == t.0 && (s.1 == t.1 && s.2 == t.2)
}

// The two triangles at a flip's edge.
pub(crate) fn one_side(flip: &Flip) -> Triangle
    ensures { result ≡ one_side flip.now }
{
    triangle(flip.edge, flip.image.low())
}

pub(crate) fn other_side(flip: &Flip) -> Triangle
    ensures { result ≡ other_side flip.now }
{
    triangle(flip.edge, flip.image.high())
}

pub(crate) fn makes(flip: &Flip, t: Triangle) -> bool
    ensures { result ≡ makes flip.now t }
{
    let low = flip.image.low();
    if low != t.0 && low != t.1 {
        return false;
    }
    let first = is_same(t, triangle(flip.image, flip.edge.low()));
    let second = is_same(t, triangle(flip.image, flip.edge.high()));
    first || second
}
