// The points in order of x and then of y, by one number for both coordinates.
ghost use Rattle.std.specs.Prelude.{◌≡◌, ◌<◌, ◌≤◌, ◌+◌, ◌<ℤ◌, ℕ, neg_ℤ, length, IsTrue, IfOk};
ghost use Rattle.geo_orient.specs.Reach.{IsInReach};
ghost use Rattle.tri_theory.specs.Points.{point};
ghost use Rattle.planar_law.specs.Chains.{key, height, link, AreKeys};
ghost use Rattle.tri_check.specs.Stages.{AreUsable, AreDistinct};

use crate::numbers::{number_at, write_at};
use geo_orient::Point;
use std::alloc::{AllocError, Global};

// More than two coordinates in reach are apart.
const STEP: i64 = 2_147_483_648;

fn key(p: Point) -> i64
    requires { IsInReach p }
    ensures { result ≡ key p }
{
    p.x * STEP + p.y
}

fn negative_key(p: Point) -> i64
    requires { IsInReach p }
    ensures { result ≡ neg_ℤ (key p) }
{
    -(p.x * STEP + p.y)
}

// The key of each point.
pub(crate) fn rising_keys(alloc: Global, points: &[Point]) -> Result<Vec<i64>, AllocError>
    requires { AreUsable points.now }
    ensures keys { IfOk result (λ v. AreKeys points.now v.items) }
    ensures values { IfOk result (λ v. (i : ℕ) → i < length points.now → height v.items i ≡ key (point points.now i)) }
{
    let mut keys = Vec::with_capacity(alloc, points.len())?;
    for i in 0..points.len() {
        keys.push(key(points[i]))?;
    }
    Ok(keys)
}

// The negative of the key of each point.
pub(crate) fn falling_keys(alloc: Global, points: &[Point]) -> Result<Vec<i64>, AllocError>
    requires { AreUsable points.now }
    ensures keys { IfOk result (λ v. AreKeys points.now v.items) }
    ensures values { IfOk result (λ v. (i : ℕ) → i < length points.now → height v.items i ≡ neg_ℤ (key (point points.now i))) }
{
    let mut keys = Vec::with_capacity(alloc, points.len())?;
    for i in 0..points.len() {
        keys.push(negative_key(points[i]))?;
    }
    Ok(keys)
}

// The key with a number, or 0 past the end.
pub(crate) fn key_at(keys: &[i64], i: u32) -> i64
    ensures { result ≡ height keys.now i }
{
    match keys.get(i as usize) {
        Some(x) => *x,
        None => 0,
    }
}

// The numbers of the keys in the order of the keys. Whether they are is tested where it matters.
pub(crate) fn order_of(alloc: Global, keys: &[i64]) -> Result<Vec<u32>, AllocError>
    requires { length keys.now ≤ 16384 }
{
    let mut pairs = Vec::with_capacity(alloc, keys.len())?;
    for i in 0..keys.len() {
        pairs.push((keys[i], i as u32))?;
    }
    pairs.sort()?;
    let mut order = Vec::with_capacity(alloc, keys.len())?;
    for i in 0..pairs.len() {
        order.push(pairs[i].1)?;
    }
    Ok(order)
}

// Whether the keys of these numbers ascend.
pub(crate) fn ascend(keys: &[i64], numbers: &[u32]) -> bool
    ensures { IsTrue result → (j : ℕ) → j + 1 < length numbers.now → height keys.now (link numbers.now j) <ℤ height keys.now (link numbers.now (j + 1)) }
{
    for k in 0..numbers.len() {
        if k + 1 < numbers.len()
            && key_at(keys, number_at(numbers, k)) >= key_at(keys, number_at(numbers, k + 1))
        {
            return false;
        }
    }
    true
}

// Whether the point `i` stands in the order at its rank.
fn stands(order: &[u32], ranks: &[u32], i: u32) -> bool
    ensures within { IsTrue result → link ranks.now i < length order.now }
    ensures there { IsTrue result → link order.now (link ranks.now i) ≡ i }
{
    let rank = number_at(ranks, i as usize) as usize;
    rank < order.len() && number_at(order, rank) == i
}

// Whether all points do.
fn all_stand(order: &[u32], ranks: &[u32], count: u32) -> bool
    ensures within { IsTrue result → (i : ℕ) → i < count → link ranks.now i < length order.now }
    ensures there { IsTrue result → (i : ℕ) → i < count → link order.now (link ranks.now i) ≡ i }
{
    for i in 0..count {
        if !stands(order, ranks, i) {
            return false;
        }
    }
    true
}

// Whether no two points are equal, by an order and the ranks in it.
fn differ(points: &[Point], keys: &[i64], order: &[u32], ranks: &[u32]) -> bool
    requires usable { AreUsable points.now }
    requires keys { AreKeys points.now keys.now }
    ensures { IsTrue result → AreDistinct points.now }
{
    if !ascend(keys, order) {
        return false;
    }
    all_stand(order, ranks, points.len() as u32)
}

// Whether no two points are equal, by their order. It is false also where the order can't be told.
pub(crate) fn are_distinct(alloc: Global, points: &[Point]) -> Result<bool, AllocError>
    requires { AreUsable points.now }
    ensures { IfOk result (λ b. IsTrue b → AreDistinct points.now) }
{
    let keys = rising_keys(alloc, points)?;
    let order = order_of(alloc, &keys)?;
    let mut ranks = vec![in alloc; 0u32; points.len()]?;
    for k in 0..points.len() as u32 {
        write_at(&mut ranks, number_at(&order, k as usize) as usize, k);
    }
    Ok(differ(points, &keys, &order, &ranks))
}
