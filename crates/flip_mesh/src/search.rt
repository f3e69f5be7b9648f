// Ways in an ordered list of sides, found by halving it.
ghost use Rattle.std.specs.Prelude.{◌≡◌, ℕ, ◌<◌, ◌+◌, ◌↔◌, length, IsTrue, IfOk, IfErr};
ghost use Rattle.side_table.specs.Sides.{HasSide, IsOrderedSides};
ghost use Rattle.flip_mesh.specs.Places.{IsSideAt, LiesBetween, SideBelongsAt, BeginsAt, AreBegins};

use side_table::Side;
use std::alloc::{AllocError, Global};

// Where the way from `u` to `v` is, or where it belongs. It lies between two places.
fn place_between(items: &[Side], from: usize, to: usize, u: u32, v: u32) -> Result<usize, usize>
    requires ordered { IsOrderedSides items.now }
    requires between { LiesBetween items.now u v from to }
    ensures found { IfOk result (IsSideAt items.now u v) }
    ensures belongs { IfErr result (SideBelongsAt items.now u v) }
{
    let mut low = from;
    let mut high = to;
    while low < high {
        let middle = low + (high - low) / 2;
        let s = items[middle];
        if s.is_way(u, v) {
            return Ok(middle);
        }
        if s.comes_before(u, v) {
            low = middle + 1;
        } else {
            high = middle;
        }
    }
    Err(low)
}

// Where the sides from `u` begin.
fn begin_of(items: &[Side], u: u32) -> usize
    requires { IsOrderedSides items.now }
    ensures { BeginsAt items.now u result }
{
    match place_between(items, 0, items.len(), u, 0) {
        Ok(i) => i,
        Err(i) => i,
    }
}

// Where the sides of each of so many points begin, and after them where the list ends.
pub(crate) fn begins_of(
    alloc: Global,
    items: &[Side],
    points: u32,
) -> Result<Vec<usize>, AllocError>
    requires ordered { IsOrderedSides items.now }
    requires few { points < 4294967295 }
    ensures { IfOk result (λ v. AreBegins items.now points v.items) }
{
    let mut begins = Vec::new(alloc);
    for u in 0..points + 1 {
        begins.push(begin_of(items, u))?;
    }
    Ok(begins)
}

// Whether the way from `u` to `v` is there.
pub(crate) fn has_way(items: &[Side], begins: &[usize], u: u32, v: u32) -> bool
    requires ordered { IsOrderedSides items.now }
    requires begins { (points : ℕ) × AreBegins items.now points begins.now × (u < points) }
    ensures { IsTrue result ↔ HasSide items.now u v }
{
    let u_at = u as usize;
    match place_between(items, begins[u_at], begins[u_at + 1], u, v) {
        Ok(_) => true,
        Err(_) => false,
    }
}

// How many sides come from `u`.
fn degree(begins: &[usize], u: u32) -> usize
    requires { u + 1 < length begins.now }
{
    let u_at = u as usize;
    begins[u_at + 1].saturating_sub(begins[u_at])
}

// Whether no more sides come from `u` than from `v`.
pub(crate) fn has_fewer(begins: &[usize], u: u32, v: u32) -> bool
    requires first { u + 1 < length begins.now }
    requires second { v + 1 < length begins.now }
{
    degree(begins, u) <= degree(begins, v)
}
