// The edge of two triangulations that the most members of the other one cross.
ghost use Rattle.std.specs.Prelude.{◌≡◌, ◌++◌, ◌∷◌, [], Some, ℕ, List, map};
ghost use Rattle.edge_table.specs.declared.edge.Edge.{Edge};
ghost use Rattle.tri_theory.specs.Crossings.{crossings};
ghost use Rattle.cross_bound.specs.declared.best.Side.{Side};
ghost use Rattle.cross_bound.specs.Best.{IsBest};

use crate::count::crossings;
use edge_table::Edge;
use flip_mesh::Mesh;
use tri_check::Triang;

/// One of two triangulations.
#[derive(Clone, Copy, Debug, PartialEq, Eq)]
pub enum Side {
    First,
    Second,
}

// An edge of one triangulation, and how many members of the other one cross it.
#[derive(Clone, Copy)]
pub struct Best {
    pub from: Side,
    pub edge: Edge,
    pub count: u32,
}

// The best so far, with one more edge tried: the earlier one of two with as many crossings.
fn better(best: Option<Best>, next: Best) -> Best
    ensures { (f : Side × Edge → ℕ) → (xs : List (Side × Edge)) → IsBest f xs best → next.count ≡ f (next.from, next.edge) → IsBest f (xs ++ (next.from, next.edge) ∷ []) (Some result) }
{
    match best {
        None => next,
        Some(old) => { if old.count < next.count { next } else { old } }
    }
}

// The best so far, with all edges of one triangulation tried.
pub(crate) fn best_of(from: Side, own: &Triang, other: &Mesh, best: Option<Best>) -> Option<Best>
    requires { own.now.points ≡ other.now.points }
    ensures { (f : Side × Edge → ℕ) → ((e : Edge) → f (from, e) ≡ crossings other.now.points other.now.edges e) → (xs : List (Side × Edge)) → IsBest f xs best → IsBest f (xs ++ map (λ e. (from, e)) own.now.edges) result }
{
    let mut best = best;
    for i in 0..own.len() {
        let edge = own.edge_at(i);
        let count = crossings(other, edge);
        best = Some(better(best, Best { from, edge, count }));
    }
    best
}
