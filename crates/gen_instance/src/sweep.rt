// Sweeps: points are taken in the order of a direction, and each is joined with those before it that it sees.
ghost use Rattle.std.specs.Prelude.{◌≡◌, ◌<◌, ◌≤◌, ◌+◌, ◌++◌, [], ◌∷◌, length, map, take, drop, IfOk, OnOk};
ghost use Rattle.planar_law.specs.Chains.{link};
ghost use Rattle.sweep_law.specs.Sweeps.{IsSweepOrder};
ghost use Rattle.sweep_law.specs.Boundaries.{IsDirection, CanBeSwept, AreTaken, pairs_with};
ghost use Rattle.gen_instance.specs.Generated.{IsSweptAlong, raw_pair};
ghost use Rattle.gen_instance.specs.Orders.{AreNamed};
ghost use Rattle.gen_instance.specs.Sweeping.{IsSweeping};

use crate::boundary::{Side, first_seen, turn_to};
use crate::direction::Direction;
use crate::order::{in_order, order_of};
use geo_orient::Point;
use std::alloc::{AllocError, Global};
use tri_check::{PairList, RawPair};

// What a sweep has made of the points that it has passed.
#[derive(Drop)]
struct Sweep {
    pairs: PairList,
    rights: Vec<u32>,
    lefts: Vec<u32>,
}

// A sweep that has passed one point.
fn start(alloc: Global, p: u32) -> Result<Sweep, AllocError>
    ensures pairs { IfOk result (λ sweep. sweep.pairs ≡ []) }
    ensures rights { IfOk result (λ sweep. sweep.rights.items ≡ p ∷ []) }
    ensures lefts { IfOk result (λ sweep. sweep.lefts.items ≡ p ∷ []) }
{
    Ok(Sweep {
        pairs: PairList::make(alloc),
        rights: vec![in alloc; p]?,
        lefts: vec![in alloc; p]?,
    })
}

// The numbers of two chains from these places on, in the order of the sweep, each once.
fn taken(
    alloc: Global,
    points: &[Point],
    direction: Direction,
    rights: &[u32],
    i: usize,
    lefts: &[u32],
    j: usize,
) -> Result<Vec<u32>, AllocError>
    requires points { CanBeSwept points.now }
    requires direction { IsDirection direction.a direction.b }
    requires rights { AreNamed points.now rights.now }
    requires right_place { i < length rights.now }
    requires lefts { AreNamed points.now lefts.now }
    requires left_place { j < length lefts.now }
    ensures { IfOk result (λ taken. AreTaken points.now direction.a direction.b rights.now i lefts.now j taken.items) }
{
    let mut ends = Vec::new(alloc);
    ends.extend_from_slice(&rights[i..])?;
    ends.extend_from_slice(&lefts[j..])?;
    in_order(alloc, points, direction, ends.as_slice())
}

// Lists the pairs of these points with another.
fn list_pairs(pairs: &mut PairList, before: &[u32], p: u32) -> Result<(), AllocError>
    ensures { OnOk result (pairs.new ≡ pairs.old ++ map raw_pair (pairs_with p before.now)) }
{
    for r in before {
        pairs.push(RawPair {
            a: i64::from(*r),
            b: i64::from(p),
        })?;
    }
    Ok(())
}

// Passes the point at a place of the order.
fn pass(
    alloc: Global,
    points: &[Point],
    direction: Direction,
    order: &[u32],
    place: usize,
    sweep: &mut Sweep,
) -> Result<(), AllocError>
    requires points { CanBeSwept points.now }
    requires direction { IsDirection direction.a direction.b }
    requires order { IsSweepOrder points.now direction.a direction.b order.now }
    requires place { place < length order.now }
    requires sweep { IsSweeping points.now direction.a direction.b order.now place sweep.old }
    ensures { OnOk result (IsSweeping points.now direction.a direction.b order.now (place + 1) sweep.new) }
{
    let p = order[place];
    let i = first_seen(Side::Right, points, sweep.rights.as_slice(), p);
    let j = first_seen(Side::Left, points, sweep.lefts.as_slice(), p);
    let seen = taken(
        alloc,
        points,
        direction,
        sweep.rights.as_slice(),
        i,
        sweep.lefts.as_slice(),
        j,
    )?;
    list_pairs(&mut sweep.pairs, seen.as_slice(), p)?;
    turn_to(&mut sweep.rights, i, p)?;
    turn_to(&mut sweep.lefts, j, p)
}

// The pairs of the sweep along a direction.
pub(crate) fn sweep_along(
    alloc: Global,
    points: &[Point],
    direction: Direction,
) -> Result<PairList, AllocError>
    requires points { CanBeSwept points.now }
    requires count { length points.now ≤ 16_384 }
    requires direction { IsDirection direction.a direction.b }
    ensures { IfOk result (λ pairs. IsSweptAlong points.now direction pairs) }
{
    let order = order_of(alloc, points, direction)?;
    let mut sweep = start(alloc, order[0])?;
    for place in 1..order.len() {
        pass(
            alloc,
            points,
            direction,
            order.as_slice(),
            place,
            &mut sweep,
        )?;
    }
    Ok(sweep.pairs)
}
