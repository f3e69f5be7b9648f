// Tests of points, and searches for points.
ghost use Rattle.std.specs.Prelude.{◌≡◌, ◌<◌, ◌≤◌, ◌<ℤ◌, ◌↔◌, ℕ, pos, length, slice_get, Some, IsTrue, MatchBool, MatchOption};
ghost use Rattle.geo_orient.specs.Reach.{IsInReach};
ghost use Rattle.tri_theory.specs.Points.{point, IsLeft, Separates};
ghost use Rattle.tri_check.specs.Layouts.{AreInReach};
ghost use Rattle.tri_check.specs.Stages.{IsLeast, IsNone, AreUsable, AreDistinct, IsFirstRepeat, AreCollinear, AreSpread};

use geo_orient::{Point, between, in_reach, orient};

fn is_positive(x: i128) -> bool
    ensures { IsTrue result ↔ (pos 0 <ℤ x) }
{
    x > 0
}

// The point with the number `i`.
pub(crate) fn point_at(points: &[Point], i: u32) -> Point
    requires usable { AreUsable points.now }
    requires within { i < length points.now }
    ensures point { result ≡ point points.now i }
    ensures in_reach { IsInReach result }
{
    points[i as usize]
}

// Whether `c` lies strictly left of the way from `a` to `b`.
pub(crate) fn is_left(points: &[Point], a: u32, b: u32, c: u32) -> bool
    requires usable { AreUsable points.now }
    requires first { a < length points.now }
    requires second { b < length points.now }
    requires third { c < length points.now }
    ensures { IsTrue result ↔ IsLeft points.now a b c }
{
    is_positive(orient(
        point_at(points, a),
        point_at(points, b),
        point_at(points, c),
    ))
}

// The first point out of reach.
pub(crate) fn out_of_reach(points: &[Point]) -> Option<u32>
    requires { length points.now ≤ 16384 }
    ensures { MatchOption result (AreInReach points.now) (IsLeast (length points.now) (λ i. ¬ IsInReach (point points.now i))) }
{
    for i in 0..points.len() as u32 {
        if !in_reach(points[i as usize]) {
            return Some(i);
        }
    }
    None
}

// The first point after `i` that is equal to it.
fn repeat_of(points: &[Point], i: u32) -> Option<u32>
    requires usable { AreUsable points.now }
    requires within { i < length points.now }
    ensures { MatchOption result
        ((j : ℕ) → i < j → j < length points.now → ¬ (point points.now i ≡ point points.now j))
        (λ r. (i < r) × (r < length points.now) × (point points.now i ≡ point points.now r) × ((j : ℕ) → i < j → j < r → ¬ (point points.now i ≡ point points.now j))) }
{
    let p = point_at(points, i);
    for j in i + 1..points.len() as u32 {
        if p == point_at(points, j) {
            return Some(j);
        }
    }
    None
}

// The first two equal points.
pub(crate) fn repeated(points: &[Point]) -> Option<(u32, u32)>
    requires { AreUsable points.now }
    ensures { MatchOption result (AreDistinct points.now) (λ r. IsFirstRepeat points.now r.0 r.1) }
{
    for i in 0..points.len() as u32 {
        if let Some(j) = repeat_of(points, i) {
            return Some((i, j));
        }
    }
    None
}

// Whether all points lie on one line.
pub(crate) fn are_collinear(points: &[Point]) -> bool
    requires usable { AreUsable points.now }
    requires some { 3 ≤ length points.now }
    requires distinct { AreDistinct points.now }
    ensures { MatchBool result (AreCollinear points.now) (AreSpread points.now) }
{
    for c in 0..points.len() as u32 {
        if is_left(points, 0, 1, c) {
            return false;
        }
        if is_left(points, 1, 0, c) {
            return false;
        }
    }
    true
}

// Whether some point lies strictly left of the way from `a` to `b`.
pub(crate) fn has_left(points: &[Point], a: u32, b: u32) -> bool
    requires usable { AreUsable points.now }
    requires first { a < length points.now }
    requires second { b < length points.now }
    ensures { MatchBool result
        ((p : ℕ) × (p < length points.now) × IsLeft points.now a b p)
        (IsNone (length points.now) (IsLeft points.now a b)) }
{
    for p in 0..points.len() as u32 {
        if is_left(points, a, b, p) {
            return true;
        }
    }
    false
}

// Whether `p` lies strictly between `a` and `b`.
fn separates(points: &[Point], a: u32, b: u32, p: u32) -> bool
    requires usable { AreUsable points.now }
    requires first { a < length points.now }
    requires second { b < length points.now }
    requires third { p < length points.now }
    ensures { IsTrue result ↔ Separates points.now a b p }
{
    between(
        point_at(points, a),
        point_at(points, b),
        point_at(points, p),
    )
}

// The first point strictly between `a` and `b`.
pub(crate) fn blocker(points: &[Point], a: u32, b: u32) -> Option<u32>
    requires usable { AreUsable points.now }
    requires first { a < length points.now }
    requires second { b < length points.now }
    ensures { MatchOption result
        (IsNone (length points.now) (Separates points.now a b))
        (IsLeast (length points.now) (Separates points.now a b)) }
{
    for p in 0..points.len() as u32 {
        if separates(points, a, b, p) {
            return Some(p);
        }
    }
    None
}

// Whether no point lies strictly between `a` and `b`.
pub(crate) fn is_clear(points: &[Point], a: u32, b: u32) -> bool
    requires usable { AreUsable points.now }
    requires first { a < length points.now }
    requires second { b < length points.now }
    ensures { IsTrue result ↔ IsNone (length points.now) (Separates points.now a b) }
{
    blocker(points, a, b).is_none()
}
