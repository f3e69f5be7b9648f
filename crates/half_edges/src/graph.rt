// The half edges of a triangulation.
ghost use Rattle.std.specs.Prelude.{◌≡◌, ◌<◌, suc, Some, length, slice_get, IfOk};
ghost use Rattle.tri_check.specs.Layouts.{IsTriangulated};
ghost use Rattle.half_edges.specs.Graphs.{IsGraph};

use crate::HalfEdge;
use crate::build::{begins_of, halves_of};
use crate::sides::{edges_of, ways_of};
use flip_mesh::Mesh;
use std::alloc::{AllocError, Global};
use std::marker::Model;
use std::ops::Range;
use tri_check::Triang;

/// The half edges of a triangulation, ordered by where they come from and then by where they go to.
///
/// Beyond each half edge lies the triangle on its left, with the places of the half edges along its other two sides: so a step from triangle to triangle takes O(1) steps. The opposite half edge is never needed for it: `near` and `far` lead the way on, with the next triangles on their left.
#[derive(Drop)]
pub struct HalfEdges {
    halves: Vec<HalfEdge>,
    begins: Vec<usize>,
}

impl Model for HalfEdges {
    ghost use Rattle.half_edges.specs.Graphs.{Graph};

    ghost Value = { Graph };

    ghost view = { λ g. record { halves = g.halves.items; begins = g.begins.items } };
}

// How many points there are.
fn count_of(t: &Triang) -> u32
    requires { IsTriangulated t.now.points t.now.edges }
    ensures { result ≡ length t.now.points }
{
    t.points().len() as u32
}

impl HalfEdges {
    /// The half edges of a triangulation, in O(n log n) steps for n points.
    pub fn of(alloc: Global, t: &Triang) -> Result<Self, AllocError>
        ensures { IfOk result (IsGraph t.now.points t.now.edges) }
    {
        let _ = t.len();
        let mesh = Mesh::of(alloc, t)?;
        let edges = edges_of(alloc, t)?;
        let ways = ways_of(alloc, t)?;
        let halves = halves_of(alloc, &mesh, &edges, &ways)?;
        let begins = begins_of(alloc, count_of(t), &ways)?;
        Ok(HalfEdges { halves, begins })
    }

    /// All half edges.
    pub fn items(&self) -> &[HalfEdge]
        ensures { result.now ≡ self.now.halves }
    {
        &self.halves
    }

    /// How many points there are.
    pub fn points(&self) -> usize
        requires { 0 < length self.now.begins }
        ensures { suc result ≡ length self.now.begins }
    {
        self.begins.len() - 1
    }

    /// The places of the half edges that leave a point. They stand side by side, in the order of where they go to.
    pub fn leaving(&self, u: u32) -> Range<usize>
        requires { suc u < length self.now.begins }
        ensures start { slice_get self.now.begins u ≡ Some result.start }
        ensures end { slice_get self.now.begins (suc u) ≡ Some result.end }
    {
        let i = u as usize;
        self.begins[i]..self.begins[i + 1]
    }
}
