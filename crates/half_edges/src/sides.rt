// The edges of a triangulation as pairs of points, and the same in both directions.
ghost use Rattle.std.specs.Prelude.{◌≡◌, IfOk, OnOk, map};
ghost use Rattle.tri_check.specs.Layouts.{IsTriangulated};
ghost use Rattle.side_table.specs.declared.side.Side.{Side};
ghost use Rattle.side_table.specs.Sides.{IsOrderedSides};
ghost use Rattle.flip_mesh.specs.Build.{AddsWay, AreWays};
ghost use Rattle.half_edges.specs.Graphs.{AreDirected};

use side_table::{Side, SideTable};
use std::alloc::{AllocError, Global};
use tri_check::Triang;

// Adds the way from `u` to `v`, where it isn't there.
fn add_way(table: &mut SideTable, u: u32, v: u32) -> Result<(), AllocError>
    requires { IsOrderedSides table.old }
    ensures { OnOk result (AddsWay table.old table.new u v) }
{
    match table.get(u, v) {
        Some(_) => Ok(()),
        None => {
            table.add(Side {
                from: u,
                to: v,
                apex: None,
            })?;
            Ok(())
        }
    }
}

// Each edge in both directions.
fn way_table(alloc: Global, t: &Triang) -> Result<SideTable, AllocError>
    requires { IsTriangulated t.now.points t.now.edges }
    ensures { IfOk result (λ table. AreWays table t.now.edges) }
{
    let mut table = SideTable::make(alloc);
    for i in 0..t.len() {
        let e = t.edge_at(i);
        let u = e.low();
        let v = e.high();
        add_way(&mut table, u, v)?;
        add_way(&mut table, v, u)?;
    }
    Ok(table)
}

// The ends of these sides.
fn ends_of(alloc: Global, sides: &[Side]) -> Result<Vec<(u32, u32)>, AllocError>
    ensures { IfOk result (λ v. v.items ≡ map (λ (s : Side). (s.from, s.to)) sides.now) }
{
    let mut ends = Vec::new(alloc);
    for i in 0..sides.len() {
        let s = sides[i];
        ends.push((s.from, s.to))?;
    }
    Ok(ends)
}

// Each edge in both directions, in order.
pub(crate) fn ways_of(alloc: Global, t: &Triang) -> Result<Vec<(u32, u32)>, AllocError>
    requires { IsTriangulated t.now.points t.now.edges }
    ensures { IfOk result (λ v. AreDirected t.now.edges v.items) }
{
    let table = way_table(alloc, t)?;
    let sides = table.list()?;
    ends_of(alloc, &sides)
}

// The edges, each from its low end to its high one.
pub(crate) fn edges_of(alloc: Global, t: &Triang) -> Result<Vec<(u32, u32)>, AllocError>
    ensures { IfOk result (λ v. v.items ≡ t.now.edges) }
{
    let mut edges = Vec::new(alloc);
    for i in 0..t.len() {
        let e = t.edge_at(i);
        edges.push((e.low(), e.high()))?;
    }
    Ok(edges)
}
