// The hull segments of a list of points.
ghost use Rattle.std.specs.Prelude.{◌≡◌, ◌<◌, ◌≤◌, ◌+◌, neg_ℤ, ◌<ℤ◌, ◌↔◌, ℕ, length, IsTrue, IfSome, IfOk, OnOk};
ghost use Rattle.edge_table.specs.declared.edge.Edge.{Edge};
ghost use Rattle.tri_theory.specs.Inputs.{IsHullSegment};
ghost use Rattle.tri_check.specs.Stages.{AreUsable, AreHull};
ghost use Rattle.tri_check.specs.Hulls.{IsHullBelow, edge_from, AddsLinks};
ghost use Rattle.tri_theory.specs.Points.{point, IsLeft, ArePlaced};
ghost use Rattle.planar_law.specs.Chains.{key, height, link, AreKeys, IsOver, IsChain};

use crate::keys::{ascend, falling_keys, key_at, order_of, rising_keys};
use crate::numbers::{number_at, write_at};
use crate::points::{has_left, is_clear, is_left};
use crate::table::turns_left;
use edge_table::{Edge, EdgeList};
use geo_orient::Point;
use std::alloc::{AllocError, Global};

// Whether the edge of `a` and `b` is a hull segment.
fn is_hull_segment(points: &[Point], a: u32, b: u32) -> bool
    requires usable { AreUsable points.now }
    requires order { a < b }
    requires within { b < length points.now }
    ensures { IsTrue result ↔ IsHullSegment points.now (edge_from a b) }
{
    if has_left(points, a, b) && has_left(points, b, a) {
        return false;
    }
    is_clear(points, a, b)
}

// Adds the edge of `a` and `b`, where it is a hull segment.
fn add_segment(points: &[Point], edges: &mut EdgeList, a: u32, b: u32) -> Result<(), AllocError>
    requires usable { AreUsable points.now }
    requires order { a < b }
    requires within { b < length points.now }
    requires hull { IsHullBelow points.now edges.old a b }
    ensures { OnOk result (IsHullBelow points.now edges.new a (b + 1)) }
{
    if !is_hull_segment(points, a, b) {
        return Ok(());
    }
    match Edge::of(a, b) {
        Some(e) => {
            edges.insert(e)?;
            Ok(())
        }
        None => Ok(()),
    }
}

// Adds the hull segments with the lower end `a`.
fn add_from(points: &[Point], edges: &mut EdgeList, a: u32) -> Result<(), AllocError>
    requires usable { AreUsable points.now }
    requires within { a < length points.now }
    requires hull { IsHullBelow points.now edges.old a 0 }
    ensures { OnOk result (IsHullBelow points.now edges.new (a + 1) 0) }
{
    for b in a + 1..points.len() as u32 {
        add_segment(points, edges, a, b)?;
    }
    Ok(())
}

// The hull segments, by tests of all pairs of points.
fn plain_hull(alloc: Global, points: &[Point]) -> Result<EdgeList, AllocError>
    requires { AreUsable points.now }
    ensures { IfOk result (AreHull points.now) }
{
    let mut edges = EdgeList::make(alloc);
    for a in 0..points.len() as u32 {
        add_from(points, &mut edges, a)?;
    }
    Ok(edges)
}

// The points along the hull in the given order, on its right side. Whether they are is tested where it matters.
fn guess_chain(alloc: Global, points: &[Point], order: &[u32]) -> Result<Vec<u32>, AllocError>
    requires { AreUsable points.now }
{
    let mut chain = Vec::new(alloc);
    for k in 0..order.len() {
        let p = order[k];
        for _ in 0..chain.len() {
            let count = chain.len();
            if count < 2 || !turns_left(points, chain[count - 1], chain[count - 2], p) {
                break;
            }
            let _ = chain.pop();
        }
        chain.push(p)?;
    }
    Ok(chain)
}

// For each point the place of the side of the chain that it is over.
fn guess_sides(
    alloc: Global,
    points: &[Point],
    order: &[u32],
    chain: &[u32],
) -> Result<Vec<u32>, AllocError> {
    let mut sides = vec![in alloc; 0u32; points.len()]?;
    let mut j: u32 = 0;
    for k in 0..order.len() {
        let p = order[k];
        write_at(&mut sides, p as usize, j);
        let next = j as usize + 1;
        if next + 1 < chain.len() && number_at(chain, next) == p {
            j = j.wrapping_add(1);
        }
    }
    Ok(sides)
}

// Whether all numbers name points.
fn are_named(points: &[Point], chain: &[u32]) -> bool
    ensures { IsTrue result → (j : ℕ) → j < length chain.now → link chain.now j < length points.now }
{
    for j in 0..chain.len() {
        if number_at(chain, j) as usize >= points.len() {
            return false;
        }
    }
    true
}

// Whether the chain doesn't turn right after the side with the place `j`.
fn turns_at(points: &[Point], chain: &[u32], j: usize) -> bool
    requires usable { AreUsable points.now }
    requires named { (j : ℕ) → j < length chain.now → link chain.now j < length points.now }
    requires within { j < length chain.now }
    ensures { IsTrue result → j + 2 < length chain.now → (IsLeft points.now (link chain.now (j + 1)) (link chain.now j) (link chain.now (j + 2)) → ⊥) }
{
    if j + 2 >= chain.len() {
        return true;
    }
    let a = number_at(chain, j);
    let b = number_at(chain, j + 1);
    let c = number_at(chain, j + 2);
    if is_left(points, b, a, c) {
        return false;
    }
    true
}

// Whether it turns right nowhere.
fn turns(points: &[Point], chain: &[u32]) -> bool
    requires usable { AreUsable points.now }
    requires named { (j : ℕ) → j < length chain.now → link chain.now j < length points.now }
    ensures { IsTrue result → (j : ℕ) → j + 2 < length chain.now → (IsLeft points.now (link chain.now (j + 1)) (link chain.now j) (link chain.now (j + 2)) → ⊥) }
{
    for j in 0..chain.len() {
        if !turns_at(points, chain, j) {
            return false;
        }
    }
    true
}

// Whether the point is over the side of the chain with the place `j`, on its left or an end.
fn is_over(points: &[Point], keys: &[i64], chain: &[u32], t: u32, j: usize) -> bool
    requires usable { AreUsable points.now }
    requires named { (j : ℕ) → j < length chain.now → link chain.now j < length points.now }
    requires within { t < length points.now }
    ensures { IsTrue result → IsOver points.now keys.now chain.now t j }
{
    if j >= chain.len() || j + 1 >= chain.len() {
        return false;
    }
    let a = number_at(chain, j);
    let b = number_at(chain, j + 1);
    if key_at(keys, t) < key_at(keys, a) {
        return false;
    }
    if key_at(keys, b) < key_at(keys, t) {
        return false;
    }
    if t == a {
        return true;
    }
    if t == b {
        return true;
    }
    is_left(points, a, b, t)
}

// Whether each point is over the side that is said.
fn all_are_over(points: &[Point], keys: &[i64], chain: &[u32], sides: &[u32]) -> bool
    requires usable { AreUsable points.now }
    requires named { (j : ℕ) → j < length chain.now → link chain.now j < length points.now }
    ensures { IsTrue result → (t : ℕ) → t < length points.now → (j : ℕ) × IsOver points.now keys.now chain.now t j }
{
    for t in 0..points.len() as u32 {
        if !is_over(
            points,
            keys,
            chain,
            t,
            number_at(sides, t as usize) as usize,
        ) {
            return false;
        }
    }
    true
}

// Whether the chain is half a hull.
fn is_chain(points: &[Point], keys: &[i64], chain: &[u32], sides: &[u32]) -> bool
    requires { AreUsable points.now }
    ensures { IsTrue result → IsChain points.now keys.now chain.now }
{
    if !are_named(points, chain) {
        return false;
    }
    if !ascend(keys, chain) {
        return false;
    }
    if !turns(points, chain) {
        return false;
    }
    all_are_over(points, keys, chain, sides)
}

// Half a hull, in the order of the keys.
fn chain_of(alloc: Global, points: &[Point], keys: &[i64]) -> Result<Option<Vec<u32>>, AllocError>
    requires usable { AreUsable points.now }
    requires keys { AreKeys points.now keys.now }
    ensures { IfOk result (λ o. IfSome o (λ v. IsChain points.now keys.now v.items)) }
{
    let order = order_of(alloc, keys)?;
    let chain = guess_chain(alloc, points, &order)?;
    let sides = guess_sides(alloc, points, &order, &chain)?;
    if is_chain(points, keys, &chain, &sides) {
        Ok(Some(chain))
    } else {
        Ok(None)
    }
}

// Adds the side of the chain with the place `j`, where it is there.
fn add_link(
    edges: &mut EdgeList,
    before: &EdgeList,
    chain: &[u32],
    j: usize,
) -> Result<(), AllocError>
    requires apart { (k : ℕ) → k + 1 < length chain.now → (link chain.now k ≡ link chain.now (k + 1) → ⊥) }
    requires within { j < length chain.now }
    requires links { AddsLinks before.now edges.old chain.now j }
    ensures { OnOk result (AddsLinks before.now edges.new chain.now (j + 1)) }
{
    if j + 1 >= chain.len() {
        return Ok(());
    }
    match Edge::of(number_at(chain, j), number_at(chain, j + 1)) {
        Some(e) => {
            edges.insert(e)?;
            Ok(())
        }
        None => Ok(()),
    }
}

// The edges with the sides of the chain.
fn with_links(before: &EdgeList, chain: &[u32]) -> Result<EdgeList, AllocError>
    requires { (k : ℕ) → k + 1 < length chain.now → (link chain.now k ≡ link chain.now (k + 1) → ⊥) }
    ensures { IfOk result (λ s. AddsLinks before.now s chain.now (length chain.now)) }
{
    let mut edges = before.copy()?;
    for j in 0..chain.len() {
        add_link(&mut edges, before, chain, j)?;
    }
    Ok(edges)
}

// The hull segments along two chains, by rising and by falling keys.
fn along(
    alloc: Global,
    points: &[Point],
    up: &[i64],
    down: &[i64],
    first: &[u32],
    second: &[u32],
) -> Result<EdgeList, AllocError>
    requires usable { AreUsable points.now }
    requires placed { ArePlaced points.now }
    requires up { AreKeys points.now up.now }
    requires down { AreKeys points.now down.now }
    requires rising { (i : ℕ) → i < length points.now → height up.now i ≡ key (point points.now i) }
    requires falling { (i : ℕ) → i < length points.now → height down.now i ≡ neg_ℤ (key (point points.now i)) }
    requires first { IsChain points.now up.now first.now }
    requires second { IsChain points.now down.now second.now }
    ensures { IfOk result (AreHull points.now) }
{
    let none = EdgeList::make(alloc);
    let half = with_links(&none, first)?;
    let edges = with_links(&half, second)?;
    Ok(edges)
}

// The hull segments by two chains, one in each direction.
fn chain_hull(alloc: Global, points: &[Point]) -> Result<Option<EdgeList>, AllocError>
    requires usable { AreUsable points.now }
    requires placed { ArePlaced points.now }
    ensures { IfOk result (λ o. IfSome o (AreHull points.now)) }
{
    let up = rising_keys(alloc, points)?;
    let down = falling_keys(alloc, points)?;
    let first = match chain_of(alloc, points, &up)? {
        Some(chain) => chain,
        None => return Ok(None),
    };
    let second = match chain_of(alloc, points, &down)? {
        Some(chain) => chain,
        None => return Ok(None),
    };
    let edges = along(alloc, points, &up, &down, &first, &second)?;
    Ok(Some(edges))
}

// The hull segments.
pub(crate) fn hull(alloc: Global, points: &[Point]) -> Result<EdgeList, AllocError>
    requires usable { AreUsable points.now }
    requires placed { ArePlaced points.now }
    ensures { IfOk result (AreHull points.now) }
{
    match chain_hull(alloc, points)? {
        Some(edges) => Ok(edges),
        None => plain_hull(alloc, points),
    }
}
