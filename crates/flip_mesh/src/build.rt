// The sides of a triangulation: for each side the nearest of the corners on its left.
ghost use Rattle.std.specs.Prelude.{◌≡◌, ◌<◌, ◌<ℤ◌, pos, ◌↔◌, ◌⊎◌, ℕ, length, IsTrue, IfOk, IfSome, OnOk};
ghost use Rattle.geo_orient.specs.Reach.{IsInReach};
ghost use Rattle.tri_theory.specs.Points.{point, IsLeft};
ghost use Rattle.tri_theory.specs.Triangulations.{AreJoined};
ghost use Rattle.tri_check.specs.Layouts.{IsTriangulated};
ghost use Rattle.side_table.specs.Sides.{IsOrderedSides};
ghost use Rattle.flip_mesh.specs.Answers.{IsApex};
ghost use Rattle.flip_mesh.specs.Places.{AreBegins};
ghost use Rattle.flip_mesh.specs.Build.{AddsWay, AreWays, IsCorner, IsReached, IsNoFarther, HaveApexes};

use crate::search::{begins_of, has_fewer, has_way};
use geo_orient::{Point, orient};
use side_table::{Side, SideTable};
use std::alloc::{AllocError, Global};
use tri_check::Triang;

// Adds the way from `u` to `v`, where it isn't there.
fn add_way(table: &mut SideTable, u: u32, v: u32) -> Result<(), AllocError>
    requires { IsOrderedSides table.old }
    ensures { OnOk result (AddsWay table.old table.new u v) }
{
    match table.get(u, v) {
        Some(_) => Ok(()),
        None => {
            table.add(Side {
                from: u,
                to: v,
                apex: None,
            })?;
            Ok(())
        }
    }
}

// Each edge in both directions.
fn way_table(alloc: Global, t: &Triang) -> Result<SideTable, AllocError>
    requires { IsTriangulated t.now.points t.now.edges }
    ensures { IfOk result (λ table. AreWays table t.now.edges) }
{
    let mut table = SideTable::make(alloc);
    for i in 0..t.len() {
        let e = t.edge_at(i);
        let u = e.low();
        let v = e.high();
        add_way(&mut table, u, v)?;
        add_way(&mut table, v, u)?;
    }
    Ok(table)
}

// The same in order.
fn ways(alloc: Global, t: &Triang) -> Result<Vec<Side>, AllocError>
    requires { IsTriangulated t.now.points t.now.edges }
    ensures { IfOk result (λ v. AreWays v.items t.now.edges) }
{
    let table = way_table(alloc, t)?;
    table.list()
}

// The point with the number `i`.
fn point_at(t: &Triang, i: u32) -> Point
    requires triangulated { IsTriangulated t.now.points t.now.edges }
    requires within { i < length t.now.points }
    ensures point { result ≡ point t.now.points i }
    ensures in_reach { IsInReach result }
{
    *t.points().at(i as usize)
}

fn is_positive(x: i128) -> bool
    ensures { IsTrue result ↔ (pos 0 <ℤ x) }
{
    x > 0
}

// Whether `c` lies left of the way from `a` to `b`.
fn is_left(t: &Triang, a: u32, b: u32, c: u32) -> bool
    requires triangulated { IsTriangulated t.now.points t.now.edges }
    requires first { a < length t.now.points }
    requires second { b < length t.now.points }
    requires third { c < length t.now.points }
    ensures { IsTrue result ↔ IsLeft t.now.points a b c }
{
    is_positive(orient(point_at(t, a), point_at(t, b), point_at(t, c)))
}

// Whether `w`, which is joined to the one end of the way from `u` to `v`, is joined to `q`, its other end, and lies left of it.
fn is_corner(t: &Triang, items: &[Side], begins: &[usize], u: u32, v: u32, q: u32, w: u32) -> bool
    requires triangulated { IsTriangulated t.now.points t.now.edges }
    requires ways { AreWays items.now t.now.edges }
    requires begins { AreBegins items.now (length t.now.points) begins.now }
    requires side { AreJoined t.now.edges u v }
    requires reached { IsReached t.now.edges u v q w }
    ensures { IsTrue result ↔ IsCorner t.now.points t.now.edges u v w }
{
    if !is_left(t, u, v, w) {
        return false;
    }
    has_way(items, begins, q, w)
}

// The nearer of the best corner so far and `w`, where `w` is one.
fn nearer(
    t: &Triang,
    items: &[Side],
    begins: &[usize],
    u: u32,
    v: u32,
    q: u32,
    best: Option<u32>,
    w: u32,
) -> Option<u32>
    requires triangulated { IsTriangulated t.now.points t.now.edges }
    requires ways { AreWays items.now t.now.edges }
    requires begins { AreBegins items.now (length t.now.points) begins.now }
    requires side { AreJoined t.now.edges u v }
    requires reached { IsReached t.now.edges u v q w }
    requires corner { IfSome best (IsCorner t.now.points t.now.edges u v) }
    ensures corner { IfSome result (IsCorner t.now.points t.now.edges u v) }
    ensures keeps { (x : ℕ) → IsCorner t.now.points t.now.edges u v x → IsNoFarther t.now.points u x best → IsNoFarther t.now.points u x result }
    ensures here { IsCorner t.now.points t.now.edges u v w → IsNoFarther t.now.points u w result }
{
    if !is_corner(t, items, begins, u, v, q, w) {
        return best;
    }
    match best {
        None => Some(w),
        Some(b) => {
            if is_left(t, u, w, b) {
                Some(w)
            } else {
                Some(b)
            }
        }
    }
}

// The third corner of the empty triangle on the left of a side, sought among the points that are joined to its end `p`. Its other end is `q`.
fn apex_from(
    t: &Triang,
    items: &[Side],
    begins: &[usize],
    u: u32,
    v: u32,
    p: u32,
    q: u32,
) -> Option<u32>
    requires triangulated { IsTriangulated t.now.points t.now.edges }
    requires ways { AreWays items.now t.now.edges }
    requires begins { AreBegins items.now (length t.now.points) begins.now }
    requires side { AreJoined t.now.edges u v }
    requires ends { ((p ≡ u) × (q ≡ v)) ⊎ ((p ≡ v) × (q ≡ u)) }
    ensures { IsApex t.now.points t.now.edges u v result }
{
    let mut best = None;
    let p_at = p as usize;
    for i in begins[p_at]..begins[p_at + 1] {
        best = nearer(t, items, begins, u, v, q, best, items[i].to);
    }
    best
}

// The same, sought from the end that fewer points are joined to.
fn apex_of(t: &Triang, items: &[Side], begins: &[usize], u: u32, v: u32) -> Option<u32>
    requires triangulated { IsTriangulated t.now.points t.now.edges }
    requires ways { AreWays items.now t.now.edges }
    requires begins { AreBegins items.now (length t.now.points) begins.now }
    requires side { AreJoined t.now.edges u v }
    ensures { IsApex t.now.points t.now.edges u v result }
{
    if has_fewer(begins, u, v) {
        apex_from(t, items, begins, u, v, u, v)
    } else {
        apex_from(t, items, begins, u, v, v, u)
    }
}

// Finds the third corner of each side, where the places at which those of each point begin are known.
fn find_apexes(t: &Triang, begins: &[usize], items: &mut Vec<Side>)
    requires triangulated { IsTriangulated t.now.points t.now.edges }
    requires ways { AreWays items.old.items t.now.edges }
    requires begins { AreBegins items.old.items (length t.now.points) begins.now }
    ensures ways { AreWays items.new.items t.now.edges }
    ensures apexes { HaveApexes t.now.points t.now.edges items.new.items }
{
    for i in 0..items.len() {
        let s = items[i];
        let apex = apex_of(t, items, begins, s.from, s.to);
        items[i] = Side {
            from: s.from,
            to: s.to,
            apex,
        };
    }
}

// The sides of a triangulation in order, each with its third corner.
pub(crate) fn sides(alloc: Global, t: &Triang) -> Result<Vec<Side>, AllocError>
    requires triangulated { IsTriangulated t.now.points t.now.edges }
    ensures ways { IfOk result (λ v. AreWays v.items t.now.edges) }
    ensures apexes { IfOk result (λ v. HaveApexes t.now.points t.now.edges v.items) }
{
    let mut items = ways(alloc, t)?;
    let begins = begins_of(alloc, &items, t.points().len() as u32)?;
    find_apexes(t, &begins, &mut items);
    Ok(items)
}
