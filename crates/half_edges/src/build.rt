// Half edges from the triangles of a mesh.
ghost use Rattle.std.specs.Prelude.{◌≡◌, Some, length, slice_get, IfOk, Contains};
ghost use Rattle.edge_table.specs.Edges.{edge, IsAscending};
ghost use Rattle.tri_theory.specs.Triangulations.{AreJoined};
ghost use Rattle.half_edges.specs.declared.half.HalfEdge.{HalfEdge};
ghost use Rattle.half_edges.specs.Graphs.{AreBegins, AreDirected, IsBeyond, IsHalf, ways_of};

use crate::search::{begin_of, place};
use crate::{Beyond, HalfEdge};
use flip_mesh::Mesh;
use std::alloc::{AllocError, Global};

// The triangle left of the way from `u` to `v`.
fn beyond(mesh: &Mesh, ways: &[(u32, u32)], u: u32, v: u32) -> Option<Beyond>
    requires directed { AreDirected mesh.now.edges ways.now }
    requires joined { AreJoined mesh.now.edges u v }
    ensures { IsBeyond mesh.now.points mesh.now.edges ways.now u v result }
{
    match mesh.apex(u, v) {
        Some(apex) => Some(Beyond {
            apex,
            near: place(ways, u, apex),
            far: place(ways, apex, v),
        }),
        None => None,
    }
}

// The place of the edge of `u` and `v`.
fn edge_place(edges: &[(u32, u32)], u: u32, v: u32) -> usize
    requires ascending { IsAscending edges.now }
    requires joined { AreJoined edges.now u v }
    ensures { slice_get edges.now result ≡ Some (edge u v) }
{
    place(edges, u.min(v), u.max(v))
}

// The half edge from `u` to `v`.
fn half(mesh: &Mesh, edges: &[(u32, u32)], ways: &[(u32, u32)], u: u32, v: u32) -> HalfEdge
    requires edges { edges.now ≡ mesh.now.edges }
    requires directed { AreDirected mesh.now.edges ways.now }
    requires joined { AreJoined mesh.now.edges u v }
    ensures from { result.from ≡ u }
    ensures to { result.to ≡ v }
    ensures half { IsHalf mesh.now.points mesh.now.edges ways.now result }
{
    let _ = mesh.points();
    HalfEdge {
        from: u,
        to: v,
        edge: edge_place(edges, u, v),
        beyond: beyond(mesh, ways, u, v),
    }
}

// The half edges on these ways.
pub(crate) fn halves_of(
    alloc: Global,
    mesh: &Mesh,
    edges: &[(u32, u32)],
    ways: &[(u32, u32)],
) -> Result<Vec<HalfEdge>, AllocError>
    requires edges { edges.now ≡ mesh.now.edges }
    requires directed { AreDirected mesh.now.edges ways.now }
    ensures ways { IfOk result (λ v. ways_of v.items ≡ ways.now) }
    ensures halves { IfOk result (λ v. (h : HalfEdge) → Contains v.items h → IsHalf mesh.now.points mesh.now.edges ways.now h) }
{
    let mut halves = Vec::new(alloc);
    halves.reserve(ways.len())?;
    for i in 0..ways.len() {
        let (u, v) = ways[i];
        halves.push(half(mesh, edges, ways, u, v))?;
    }
    Ok(halves)
}

// Where the ways from each of so many points begin, and where those from the last one end.
pub(crate) fn begins_of(
    alloc: Global,
    count: u32,
    ways: &[(u32, u32)],
) -> Result<Vec<usize>, AllocError>
    requires { IsAscending ways.now }
    ensures { IfOk result (λ v. AreBegins count ways.now v.items) }
{
    let mut begins = Vec::new(alloc);
    for u in 0..count {
        begins.push(begin_of(ways, u))?;
    }
    begins.push(begin_of(ways, count))?;
    Ok(begins)
}
