// The triangles of a set of members, guessed, and tests that they fit together at their sides.
//
// What is guessed is nowhere trusted: a wrong guess makes a test fail.
ghost use Rattle.std.specs.Prelude.{◌≡◌, ◌<◌, ◌≤◌, ℕ, length, slice_get, Some, Contains, IsTrue, IfSome, IfOk};
ghost use Rattle.tri_theory.specs.Points.{IsLeft, ArePlaced};
ghost use Rattle.tri_theory.specs.Triangulations.{AreJoined, IsTriangulation};
ghost use Rattle.planar_law.specs.Patches.{HasThird};
ghost use Rattle.tri_check.specs.Tables.{third, Fits, IsTableOf};
ghost use Rattle.tri_check.specs.Stages as stage;

use crate::numbers::{count_at, number_at, write_at};
use crate::points::is_left;
use edge_table::{Edge, EdgeList};
use geo_orient::Point;
use std::alloc::{AllocError, Global};

/// The third corners of the triangles at a member: on the left and on the right of the way from its lower end. Where there is none, the number of an end stands.
#[derive(Clone, Copy)]
pub(crate) struct Thirds {
    left: u32,
    right: u32,
}

// The members at each point. Those with the lower end `p` stand at the places from `lows[p]` to `lows[p + 1]`. The other ends of all that end at `p` are `ends` from `starts[p]` to `starts[p + 1]`.
#[derive(Drop)]
struct Index {
    lows: Vec<u32>,
    starts: Vec<u32>,
    ends: Vec<u32>,
}

// Turns counts into sums up to each place.
fn add_up(numbers: &mut [u32]) {
    let mut sum: u32 = 0;
    for i in 0..numbers.len() {
        sum = sum.wrapping_add(number_at(numbers, i));
        write_at(numbers, i, sum);
    }
}

impl Index {
    fn of(alloc: Global, points: usize, edges: &EdgeList) -> Result<Index, AllocError>
        requires { points ≤ 16384 }
    {
        let mut lows = vec![in alloc; 0u32; points + 1]?;
        let mut starts = vec![in alloc; 0u32; points + 1]?;
        for i in 0..edges.len() {
            let e = edges.at(i);
            count_at(&mut lows, e.low() as usize + 1);
            count_at(&mut starts, e.low() as usize + 1);
            count_at(&mut starts, e.high() as usize + 1);
        }
        add_up(&mut lows);
        add_up(&mut starts);
        let mut next = starts.clone()?;
        let mut ends = vec![in alloc; 0u32; number_at(&starts, points) as usize]?;
        for i in 0..edges.len() {
            let e = edges.at(i);
            let low = e.low();
            let high = e.high();
            write_at(&mut ends, number_at(&next, low as usize) as usize, high);
            count_at(&mut next, low as usize);
            write_at(&mut ends, number_at(&next, high as usize) as usize, low);
            count_at(&mut next, high as usize);
        }
        Ok(Index { lows, starts, ends })
    }

    fn degree(&self, p: u32) -> u32 {
        let from = number_at(&self.starts, p as usize);
        let to = number_at(&self.starts, p as usize + 1);
        to.saturating_sub(from)
    }
}

// Whether all three name points, and `c` lies strictly left of the way from `a` to `b`.
pub(crate) fn turns_left(points: &[Point], a: u32, b: u32, c: u32) -> bool
    requires { stage.AreUsable points.now }
    ensures left { IsTrue result → IsLeft points.now a b c }
    ensures named { IsTrue result → c < length points.now }
{
    let count = points.len();
    (a as usize) < count && (b as usize) < count && (c as usize) < count && is_left(points, a, b, c)
}

// Of the points joined to `a` on the left of the way from `a` to `b`, the first from the right.
fn guess_at_start(points: &[Point], index: &Index, a: u32, b: u32) -> u32
    requires { stage.AreUsable points.now }
{
    let from = number_at(&index.starts, a as usize);
    let to = number_at(&index.starts, a as usize + 1);
    let mut best = a;
    for k in from..to {
        let c = number_at(&index.ends, k as usize);
        if turns_left(points, a, b, c) && (best == a || turns_left(points, a, c, best)) {
            best = c;
        }
    }
    best
}

// Of the points joined to `b` on the left of the way from `a` to `b`, the first from the left.
fn guess_at_end(points: &[Point], index: &Index, a: u32, b: u32) -> u32
    requires { stage.AreUsable points.now }
{
    let from = number_at(&index.starts, b as usize);
    let to = number_at(&index.starts, b as usize + 1);
    let mut best = b;
    for k in from..to {
        let c = number_at(&index.ends, k as usize);
        if turns_left(points, a, b, c) && (best == b || turns_left(points, b, best, c)) {
            best = c;
        }
    }
    best
}

// The third corner on the left of the way from `a` to `b`, sought among the neighbours of the end that has fewer.
fn guess(points: &[Point], index: &Index, a: u32, b: u32) -> u32
    requires { stage.AreUsable points.now }
{
    if index.degree(a) <= index.degree(b) {
        guess_at_start(points, index, a, b)
    } else {
        guess_at_end(points, index, a, b)
    }
}

// The third corners of all members. The time for a member grows with the members at one of its ends.
fn guesses(
    alloc: Global,
    points: &[Point],
    edges: &EdgeList,
    index: &Index,
) -> Result<Vec<Thirds>, AllocError>
    requires usable { stage.AreUsable points.now }
    requires edges { stage.AreEdges points.now edges.now }
    ensures { IfOk result (λ v. IsTableOf edges.now v.items) }
{
    let mut table = Vec::with_capacity(alloc, edges.len())?;
    for i in 0..edges.len() {
        let e = edges.at(i);
        table.push(Thirds {
            left: guess(points, index, e.low(), e.high()),
            right: guess(points, index, e.high(), e.low()),
        })?;
    }
    Ok(table)
}

// The place of a member that is there, sought from one place to another.
fn place_of(edges: &EdgeList, from: usize, to: usize, e: Edge) -> Option<usize>
    ensures there { IfSome result (λ i. slice_get edges.now i ≡ Some e) }
    ensures within { IfSome result (λ i. i < length edges.now) }
{
    let mut low = from;
    let mut high = to;
    for _ in 0..64 {
        if low >= high {
            return None;
        }
        let middle = low + (high - low) / 2;
        if middle >= edges.len() {
            return None;
        }
        let f = edges.at(middle);
        if f == e {
            return Some(middle);
        }
        if f < e {
            low = middle + 1;
        } else {
            high = middle;
        }
    }
    None
}

// The third corner that the table has for the way from `a` to `b`, where the two are joined.
fn third_at(edges: &EdgeList, index: &Index, table: &[Thirds], a: u32, b: u32) -> Option<u32>
    requires table { IsTableOf edges.now table.now }
    ensures joined { IfSome result (λ c. AreJoined edges.now a b) }
    ensures third { IfSome result (λ c. third edges.now table.now a b ≡ c) }
{
    let e = Edge::of(a, b)?;
    let from = number_at(&index.lows, e.low() as usize);
    let to = number_at(&index.lows, e.low() as usize + 1);
    let i = place_of(edges, from as usize, to as usize, e)?;
    let thirds = table[i];
    if a < b {
        Some(thirds.left)
    } else {
        Some(thirds.right)
    }
}

// Whether `a` and `b` are joined, and `c` is the third corner that the table has for the way from `a` to `b`.
fn has_third(edges: &EdgeList, index: &Index, table: &[Thirds], a: u32, b: u32, c: u32) -> bool
    requires table { IsTableOf edges.now table.now }
    ensures joined { IsTrue result → AreJoined edges.now a b }
    ensures third { IsTrue result → third edges.now table.now a b ≡ c }
{
    match third_at(edges, index, table, a, b) {
        Some(d) => d == c,
        None => false,
    }
}

// Whether the third corner `c` of the way from `a` to `b`, a member, makes a triangle on its left that fits.
fn fits_left(
    points: &[Point],
    edges: &EdgeList,
    index: &Index,
    table: &[Thirds],
    a: u32,
    b: u32,
    c: u32,
) -> bool
    requires usable { stage.AreUsable points.now }
    requires table { IsTableOf edges.now table.now }
    requires joined { AreJoined edges.now a b }
    requires third { third edges.now table.now a b ≡ c }
    ensures { IsTrue result → HasThird points.now edges.now (third edges.now table.now) a b }
{
    turns_left(points, a, b, c)
        && has_third(edges, index, table, b, c, a)
        && has_third(edges, index, table, c, a, b)
}

// Whether the member at a place is a side of triangles that fit, where points lie.
fn fits(
    points: &[Point],
    edges: &EdgeList,
    hull: &EdgeList,
    index: &Index,
    table: &[Thirds],
    i: usize,
) -> bool
    requires usable { stage.AreUsable points.now }
    requires edges { stage.AreEdges points.now edges.now }
    requires hull { stage.AreHull points.now hull.now }
    requires table { IsTableOf edges.now table.now }
    requires within { i < length edges.now }
    ensures { IsTrue result → (e : Edge) → slice_get edges.now i ≡ Some e → Fits points.now edges.now table.now e }
{
    let e = edges.at(i);
    let thirds = table[i];
    let left = fits_left(points, edges, index, table, e.low(), e.high(), thirds.left);
    let right = fits_left(points, edges, index, table, e.high(), e.low(), thirds.right);
    if left {
        if right {
            return true;
        }
        return hull.has(e);
    }
    if right {
        return hull.has(e);
    }
    false
}

// Whether all members do.
fn all_fit(
    points: &[Point],
    edges: &EdgeList,
    hull: &EdgeList,
    index: &Index,
    table: &[Thirds],
) -> bool
    requires usable { stage.AreUsable points.now }
    requires edges { stage.AreEdges points.now edges.now }
    requires hull { stage.AreHull points.now hull.now }
    requires table { IsTableOf edges.now table.now }
    ensures { IsTrue result → (e : Edge) → Contains edges.now e → Fits points.now edges.now table.now e }
{
    for i in 0..edges.len() {
        if !fits(points, edges, hull, index, table, i) {
            return false;
        }
    }
    true
}

// Whether the point is an end of a member.
fn is_end(edges: &EdgeList, index: &Index, table: &[Thirds], p: u32) -> bool
    requires table { IsTableOf edges.now table.now }
    ensures { IsTrue result → stage.IsEnd edges.now p }
{
    let first = number_at(&index.starts, p as usize);
    let q = number_at(&index.ends, first as usize);
    third_at(edges, index, table, p, q).is_some()
}

// Whether all points are.
fn all_are_ends(points: &[Point], edges: &EdgeList, index: &Index, table: &[Thirds]) -> bool
    requires usable { stage.AreUsable points.now }
    requires table { IsTableOf edges.now table.now }
    ensures { IsTrue result → (p : ℕ) → p < length points.now → stage.IsEnd edges.now p }
{
    for p in 0..points.len() as u32 {
        if !is_end(edges, index, table, p) {
            return false;
        }
    }
    true
}

// Whether the members are shown to be a triangulation by tests of neighbours alone. The guesses are right wherever they are one.
pub(crate) fn is_triangulation(
    alloc: Global,
    points: &[Point],
    edges: &EdgeList,
    hull: &EdgeList,
) -> Result<bool, AllocError>
    requires usable { stage.AreUsable points.now }
    requires placed { ArePlaced points.now }
    requires edges { stage.AreEdges points.now edges.now }
    requires hull { stage.AreHull points.now hull.now }
    ensures { IfOk result (λ b. IsTrue b → IsTriangulation points.now edges.now) }
{
    // A triangulation has fewer than three members a point. With more the guesses would take long.
    if edges.len() / 3 > points.len() {
        return Ok(false);
    }
    let index = Index::of(alloc, points.len(), edges)?;
    let table = guesses(alloc, points, edges, &index)?;
    if !all_are_ends(points, edges, &index, &table) {
        return Ok(false);
    }
    Ok(all_fit(points, edges, hull, &index, &table))
}
