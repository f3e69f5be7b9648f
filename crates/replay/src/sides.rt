// The first of the edges taken so far that is a side of a quadrilateral.
ghost use Rattle.std.specs.Prelude.{◌≡◌, ◌≢◌, IfSome, IfNone, Contains};
ghost use Rattle.edge_table.specs.declared.edge.Edge.{Edge};
ghost use Rattle.edge_table.specs.Edges.{edge};
ghost use Rattle.replay.specs.Faults.{IsFirstWith};
ghost use Rattle.replay.specs.Steps.{AreCornersApart, IsFirstPlace, IsOuterSide, earlier};

use edge_table::Edge;
use flip_mesh::Quad;
use indexmap::IndexSet;

// The earlier of two places.
fn earlier(a: Option<usize>, b: Option<usize>) -> Option<usize>
    ensures { result ≡ earlier a b }
{
    match a {
        None => b,
        Some(i) => match b {
            None => Some(i),
            Some(j) => { if i < j { Some(i) } else { Some(j) } }
        },
    }
}

// The place of the edge of `a` and `b`.
fn place_of(taken: &IndexSet<Edge>, a: u32, b: u32) -> Option<usize>
    requires { a ≢ b }
    ensures { IsFirstPlace (λ f. f ≡ edge a b) taken.now.keys result }
{
    match Edge::of(a, b) {
        Some(f) => taken.get_index_of(&f),
        None => unreachable!(),
    }
}

// The place of the first side of the quadrilateral.
fn first_place(taken: &IndexSet<Edge>, q: Quad) -> Option<usize>
    requires { AreCornersApart q }
    ensures { IsFirstPlace (IsOuterSide q) taken.now.keys result }
{
    let ab = place_of(taken, q.a, q.b);
    let bc = place_of(taken, q.b, q.c);
    let cd = place_of(taken, q.c, q.d);
    let da = place_of(taken, q.d, q.a);
    earlier(ab, earlier(bc, earlier(cd, da)))
}

// The first of the taken edges that is a side of the quadrilateral.
pub(crate) fn first_side(taken: &IndexSet<Edge>, q: Quad) -> Option<Edge>
    requires { AreCornersApart q }
    ensures none { IfNone result ((f : Edge) → Contains taken.now.keys f → ¬ IsOuterSide q f) }
    ensures some { IfSome result (IsFirstWith (IsOuterSide q) taken.now.keys) }
{
    match first_place(taken, q) {
        Some(i) => Some(taken.as_slice()[i]),
        None => None,
    }
}
