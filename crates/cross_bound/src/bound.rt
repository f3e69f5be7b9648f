// How many rounds two triangulations are apart at least.
ghost use Rattle.std.specs.Prelude.{◌≡◌, IfOk};
ghost use Rattle.cross_bound.specs.Bounds.{IsCrossBound, KeepsApart};

use crate::Side;
use crate::best::best_of;
use crate::count::digits;
use edge_table::Edge;
use flip_mesh::Mesh;
use std::alloc::{AllocError, Global};
use tri_check::Triang;

/// A bound from below on the number of rounds between two triangulations.
#[derive(Clone, Copy, Debug, PartialEq, Eq)]
pub enum CrossBound {
    /// They are equal.
    Same,
    /// An edge of the one, which `count` members of the other cross, and the number of binary digits of `count`: they are so many rounds apart at least.
    Crossed {
        from: Side,
        edge: Edge,
        count: u32,
        lower: u32,
    },
}

/// The bound of two triangulations by the edge that the most members of the other one cross: of the first triangulation rather than of the second, and then the first in edge order.
/// It makes a mesh of each, and walks along the edges of the one in the mesh of the other.
pub fn cross_bound(alloc: Global, a: &Triang, b: &Triang) -> Result<CrossBound, AllocError>
    requires { a.now.points ≡ b.now.points }
    ensures bound { IfOk result (IsCrossBound a.now.points a.now.edges b.now.edges) }
    ensures apart { IfOk result (KeepsApart a.now.points a.now.edges b.now.edges) }
{
    let _ = a.len();
    let _ = b.len();
    if a.same(b) {
        return Ok(CrossBound::Same);
    }
    let first = Mesh::of(alloc, a)?;
    let second = Mesh::of(alloc, b)?;
    let of_first = best_of(Side::First, a, &second, None);
    let of_both = best_of(Side::Second, b, &first, of_first);
    match of_both {
        Some(best) => Ok(CrossBound::Crossed {
            from: best.from,
            edge: best.edge,
            count: best.count,
            lower: digits(best.count),
        }),
        None => unreachable!(),
    }
}
