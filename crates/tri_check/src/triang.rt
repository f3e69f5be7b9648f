// A triangulation of a list of points.
ghost use Rattle.std.specs.Prelude.{◌≡◌, ◌<◌, ◌↔◌, length, slice_get, Some, Contains, IsTrue, IfOk};
ghost use Rattle.tri_check.specs.Layouts.{IsTriangulated};

use crate::PointList;
use edge_table::{Edge, EdgeList};
use std::alloc::{AllocError, Global};
use std::marker::Model;
use std::sync::Arc;

/// A triangulation of a list of points, seen as the points and the ascending list of its edges.
#[derive(Drop)]
pub struct Triang {
    points: Arc<PointList>,
    edges: EdgeList,
}

impl Model for Triang {
    ghost use Rattle.tri_check.specs.Layouts.{Layout, IsTriangulated};

    ghost Value = { Layout };

    ghost view = { λ t. record { points = t.points.value; edges = t.edges } };

    ghost invariant = { λ t. IsTriangulated t.points.value t.edges };
}

impl Triang {
    /// The triangulation with these edges.
    pub fn from_edges(points: Arc<PointList>, edges: EdgeList) -> Self
        requires { IsTriangulated points.value edges }
        ensures points { result.points ≡ points.value }
        ensures edges { result.edges ≡ edges }
    {
        Triang { points, edges }
    }

    /// The number of edges.
    pub fn len(&self) -> usize
        ensures len { result ≡ length self.now.edges }
        ensures triangulation { IsTriangulated self.now.points self.now.edges }
    {
        self.edges.len()
    }

    /// The edge at a place of edge order.
    pub fn edge_at(&self, i: usize) -> Edge
        requires { i < length self.now.edges }
        ensures { slice_get self.now.edges i ≡ Some result }
    {
        self.edges.at(i)
    }

    /// Whether the edge is a member, in logarithmic time.
    pub fn has(&self, e: Edge) -> bool
        ensures { IsTrue result ↔ Contains self.now.edges e }
    {
        self.edges.has(e)
    }

    pub fn points(&self) -> &Arc<PointList>
        ensures { result.now.value ≡ self.now.points }
    {
        &self.points
    }

    /// Whether the two have the same edges, in time linear in their number.
    pub fn same(&self, other: &Triang) -> bool
        requires { self.now.points ≡ other.now.points }
        ensures { IsTrue result ↔ (self.now.edges ≡ other.now.edges) }
    {
        self.edges.same(&other.edges)
    }

    /// An equal triangulation. The points are shared, and not copied.
    pub fn copy(&self) -> Result<Self, AllocError>
        ensures points { IfOk result (λ t. t.points ≡ self.now.points) }
        ensures edges { IfOk result (λ t. t.edges ≡ self.now.edges) }
    {
        Ok(Triang {
            points: Arc::try_clone(&self.points)?,
            edges: self.edges.copy()?,
        })
    }
}
