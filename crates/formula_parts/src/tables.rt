// Tables of how points lie to each other, so that each three of them are tested once.
ghost use Rattle.std.specs.Prelude.{◌≡◌, ◌*◌, ◌<◌, ◌≤◌, ◌↔◌, false, length, slice_index_or, IsTrue, IfOk};
ghost use Rattle.tri_theory.specs.Points.{IsLeft, AreApart};
ghost use Rattle.tri_theory.specs.Triangulations.{Crosses};
ghost use Rattle.formula_parts.specs.Tables.{AreTables, IsApart, IsEmptyOfPoints, IsTable, Tells, place};

use crate::points::is_left_of;
use edge_table::Edge;
use std::alloc::{AllocError, Global};
use tri_check::Instance;

// Which three of at most 64 points turn left, and which triangles hold no other point.
#[derive(Drop)]
pub struct Tables {
    turns: Vec<bool>,
    empties: Vec<bool>,
}

// The entry of `a`, `b`, `c`.
fn entry(table: &[bool], a: u32, b: u32, c: u32) -> bool
    requires within { place a b c < length table.now }
    requires first { a < 64 }
    requires second { b < 64 }
    requires third { c < 64 }
    ensures { result ≡ slice_index_or table.now (place a b c) false }
{
    table[(a * 4096 + b * 64 + c) as usize]
}

// Whether `c` lies strictly left of the way from `a` to `b`, by the table.
fn turns_left(inst: &Instance, turns: &[bool], a: u32, b: u32, c: u32) -> bool
    requires few { length inst.now.points ≤ 64 }
    requires table { IsTable (IsLeft inst.now.points) (length inst.now.points) turns.now }
    requires first { a < length inst.now.points }
    requires second { b < length inst.now.points }
    requires third { c < length inst.now.points }
    ensures { IsTrue result ↔ IsLeft inst.now.points a b c }
{
    let _ = inst;
    entry(turns, a, b, c)
}

// The entry at place `i` of the table of turns.
fn turn_at(inst: &Instance, i: u32) -> bool
    requires few { length inst.now.points ≤ 64 }
    requires within { i < length inst.now.points * 4096 }
    ensures { Tells (IsLeft inst.now.points) (length inst.now.points) i result }
{
    let b = i / 64 % 64;
    let c = i % 64;
    if b >= inst.count() {
        return false;
    }
    if c >= inst.count() {
        return false;
    }
    is_left_of(inst, i / 4096, b, c)
}

fn turns(alloc: Global, inst: &Instance) -> Result<Vec<bool>, AllocError>
    requires { length inst.now.points ≤ 64 }
    ensures { IfOk result (λ table. IsTable (IsLeft inst.now.points) (length inst.now.points) table.items) }
{
    let mut table = Vec::new(alloc);
    for i in 0..inst.count() * 4096 {
        table.push(turn_at(inst, i))?;
    }
    Ok(table)
}

// Whether `p` is a corner, or lies outside the closed triangle.
fn is_apart(inst: &Instance, turns: &[bool], a: u32, b: u32, c: u32, p: u32) -> bool
    requires few { length inst.now.points ≤ 64 }
    requires table { IsTable (IsLeft inst.now.points) (length inst.now.points) turns.now }
    requires first { a < length inst.now.points }
    requires second { b < length inst.now.points }
    requires third { c < length inst.now.points }
    requires fourth { p < length inst.now.points }
    ensures { IsTrue result ↔ IsApart inst.now.points a b c p }
{
    if p == a || p == b || p == c {
        return true;
    }
    turns_left(inst, turns, b, a, p)
        || turns_left(inst, turns, c, b, p)
        || turns_left(inst, turns, a, c, p)
}

// Whether the closed triangle holds no points but its corners.
fn is_empty_of_points(inst: &Instance, turns: &[bool], a: u32, b: u32, c: u32) -> bool
    requires few { length inst.now.points ≤ 64 }
    requires table { IsTable (IsLeft inst.now.points) (length inst.now.points) turns.now }
    requires first { a < length inst.now.points }
    requires second { b < length inst.now.points }
    requires third { c < length inst.now.points }
    ensures { IsTrue result ↔ IsEmptyOfPoints inst.now.points a b c }
{
    for p in 0..inst.count() {
        if !is_apart(inst, turns, a, b, c, p) {
            return false;
        }
    }
    true
}

// The entry at place `i` of the table of empty triangles.
fn empty_at(inst: &Instance, turns: &[bool], i: u32) -> bool
    requires few { length inst.now.points ≤ 64 }
    requires table { IsTable (IsLeft inst.now.points) (length inst.now.points) turns.now }
    requires within { i < length inst.now.points * 4096 }
    ensures { Tells (IsEmptyOfPoints inst.now.points) (length inst.now.points) i result }
{
    let b = i / 64 % 64;
    let c = i % 64;
    if b >= inst.count() {
        return false;
    }
    if c >= inst.count() {
        return false;
    }
    is_empty_of_points(inst, turns, i / 4096, b, c)
}

fn empties(alloc: Global, inst: &Instance, turns: &[bool]) -> Result<Vec<bool>, AllocError>
    requires few { length inst.now.points ≤ 64 }
    requires table { IsTable (IsLeft inst.now.points) (length inst.now.points) turns.now }
    ensures { IfOk result (λ table. IsTable (IsEmptyOfPoints inst.now.points) (length inst.now.points) table.items) }
{
    let mut table = Vec::new(alloc);
    for i in 0..inst.count() * 4096 {
        table.push(empty_at(inst, turns, i))?;
    }
    Ok(table)
}

// Both tables of the points of an instance.
pub(crate) fn make_tables(alloc: Global, inst: &Instance) -> Result<Tables, AllocError>
    requires { length inst.now.points ≤ 64 }
    ensures { IfOk result (λ t. AreTables inst.now.points t.turns.items t.empties.items) }
{
    let turns = turns(alloc, inst)?;
    let empties = empties(alloc, inst, &turns)?;
    Ok(Tables { turns, empties })
}

// Whether `c` lies strictly left of the way from `a` to `b`.
pub(crate) fn is_left(inst: &Instance, tables: &Tables, a: u32, b: u32, c: u32) -> bool
    requires tables { AreTables inst.now.points tables.now.turns.items tables.now.empties.items }
    requires first { a < length inst.now.points }
    requires second { b < length inst.now.points }
    requires third { c < length inst.now.points }
    ensures { IsTrue result ↔ IsLeft inst.now.points a b c }
{
    turns_left(inst, &tables.turns, a, b, c)
}

// Whether no other point lies in the closed triangle.
pub(crate) fn holds_none(inst: &Instance, tables: &Tables, a: u32, b: u32, c: u32) -> bool
    requires tables { AreTables inst.now.points tables.now.turns.items tables.now.empties.items }
    requires first { a < length inst.now.points }
    requires second { b < length inst.now.points }
    requires third { c < length inst.now.points }
    ensures { IsTrue result ↔ IsEmptyOfPoints inst.now.points a b c }
{
    let _ = inst;
    entry(&tables.empties, a, b, c)
}

// Whether `c` and `d` lie strictly on opposite sides of the line of `a` and `b`.
fn are_apart(inst: &Instance, tables: &Tables, a: u32, b: u32, c: u32, d: u32) -> bool
    requires tables { AreTables inst.now.points tables.now.turns.items tables.now.empties.items }
    requires first { a < length inst.now.points }
    requires second { b < length inst.now.points }
    requires third { c < length inst.now.points }
    requires fourth { d < length inst.now.points }
    ensures { IsTrue result ↔ AreApart inst.now.points a b c d }
{
    (is_left(inst, tables, a, b, c) && is_left(inst, tables, b, a, d))
        || (is_left(inst, tables, b, a, c) && is_left(inst, tables, a, b, d))
}

// Whether the two edges cross.
pub(crate) fn crosses(inst: &Instance, tables: &Tables, e: Edge, f: Edge) -> bool
    requires tables { AreTables inst.now.points tables.now.turns.items tables.now.empties.items }
    requires first { e.1 < length inst.now.points }
    requires second { f.1 < length inst.now.points }
    ensures { IsTrue result ↔ Crosses inst.now.points e f }
{
    let a = e.low();
    let b = e.high();
    let c = f.low();
    let d = f.high();
    are_apart(inst, tables, a, b, c, d) && are_apart(inst, tables, c, d, a, b)
}
