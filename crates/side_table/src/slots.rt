// Sides in slots, in no order, found by chains of the slots in each bucket.
ghost use Rattle.std.specs.Prelude.{◌≡◌, ◌<◌, ◌++◌, ◌∷◌, [], ℕ, length, slice_set, MatchOption, Contains, IfOk, OnOk, OnErr};
ghost use Rattle.side_table.specs.Chains.{AreChained};
ghost use Rattle.side_table.specs.Sides.{HasSide, IsWay, IsOrderedSides};
ghost use Rattle.side_table.specs.Slots.{bucket, keys_of, AreDistinct, AreKept, IsPlace, in_order};

use crate::Side;
use crate::chain::{link, link_at, no_heads, unlink};
use std::alloc::{AllocError, Global};

fn bucket(count: usize, from: u32, to: u32) -> usize
    requires { 0 < count }
    ensures value { result ≡ bucket count from to }
    ensures within { result < count }
{
    (from as usize * 2654435761 + to as usize) % count
}

// How many buckets serve for so many sides and some more.
fn buckets_for(count: usize) -> usize
    ensures { 0 < result }
{
    count.saturating_add(count / 2).saturating_add(8)
}

// The slot of the way from `u` to `v`, where it is there.
pub(crate) fn find(
    heads: &[Option<usize>],
    before: &[Option<usize>],
    slots: &[Side],
    u: u32,
    v: u32,
) -> Option<usize>
    requires { AreKept heads.now before.now slots.now }
    ensures { MatchOption result (¬ HasSide slots.now u v) (IsPlace slots.now u v) }
{
    if heads.is_empty() {
        return None;
    }
    let mut at = heads[bucket(heads.len(), u, v)];
    while let Some(place) = at {
        if slots[place].is_way(u, v) {
            return Some(place);
        }
        at = before[place];
    }
    None
}

// Adds a side in a slot of its own. There is a bucket.
fn keep(
    heads: &mut Vec<Option<usize>>,
    before: &mut Vec<Option<usize>>,
    slots: &mut Vec<Side>,
    t: Side,
) -> Result<(), AllocError>
    requires buckets { 0 < length heads.old.items }
    requires chained { AreChained heads.old.items before.old.items (keys_of (length heads.old.items) slots.old.items) }
    ensures chained { AreChained heads.new.items before.new.items (keys_of (length heads.new.items) slots.new.items) }
    ensures added { OnOk result (slots.new.items ≡ slots.old.items ++ t ∷ []) }
    ensures unchanged { OnErr result (slots.new.items ≡ slots.old.items) }
    ensures heads_len { length heads.new.items ≡ length heads.old.items }
{
    before.reserve(1)?;
    slots.reserve(1)?;
    slots.push_reserved(t);
    let b = bucket(heads.len(), t.from, t.to);
    link(heads, before, b);
    Ok(())
}

// Chains of these slots.
pub(crate) fn chains_of(
    alloc: Global,
    sides: &[Side],
) -> Result<(Vec<Option<usize>>, Vec<Option<usize>>, Vec<Side>), AllocError>
    ensures buckets { IfOk result (λ r. 0 < length r.0.items) }
    ensures chained { IfOk result (λ r. AreChained r.0.items r.1.items (keys_of (length r.0.items) r.2.items)) }
    ensures same { IfOk result (λ r. r.2.items ≡ sides.now) }
{
    let mut heads = no_heads(alloc, buckets_for(sides.len()))?;
    let mut before = Vec::new(alloc);
    let mut slots = Vec::new(alloc);
    before.reserve(sides.len())?;
    slots.reserve(sides.len())?;
    for i in 0..sides.len() {
        keep(&mut heads, &mut before, &mut slots, sides[i])?;
    }
    Ok((heads, before, slots))
}

// Adds a side on a way that isn't there. There are more buckets than slots, or more are made.
pub(crate) fn insert(
    alloc: Global,
    heads: &mut Vec<Option<usize>>,
    before: &mut Vec<Option<usize>>,
    slots: &mut Vec<Side>,
    t: Side,
) -> Result<(), AllocError>
    requires kept { AreKept heads.old.items before.old.items slots.old.items }
    requires fresh { ¬ HasSide slots.old.items t.from t.to }
    ensures kept { AreKept heads.new.items before.new.items slots.new.items }
    ensures added { OnOk result (slots.new.items ≡ slots.old.items ++ t ∷ []) }
    ensures unchanged { OnErr result (slots.new.items ≡ slots.old.items) }
{
    if slots.len() < heads.len() {
        return keep(heads, before, slots, t);
    }
    let (more, again, same) = chains_of(alloc, slots)?;
    *heads = more;
    *before = again;
    *slots = same;
    keep(heads, before, slots, t)
}

// Puts a side into a slot in place of that which was there, on whatever way.
pub(crate) fn exchange(
    heads: &mut Vec<Option<usize>>,
    before: &mut Vec<Option<usize>>,
    slots: &mut Vec<Side>,
    place: usize,
    t: Side,
)
    requires kept { AreKept heads.old.items before.old.items slots.old.items }
    requires within { place < length slots.old.items }
    ensures chained { AreChained heads.new.items before.new.items (keys_of (length heads.new.items) slots.new.items) }
    ensures slots { slots.new.items ≡ slice_set slots.old.items place t }
    ensures heads_len { length heads.new.items ≡ length heads.old.items }
{
    let s = slots[place];
    let out = bucket(heads.len(), s.from, s.to);
    unlink(heads, before, out, place);
    slots[place] = t;
    let into = bucket(heads.len(), t.from, t.to);
    link_at(heads, before, into, place);
}

// A side from `u`, where there is one, sought in all slots.
fn scan(slots: &[Side], u: u32) -> Option<Side>
    ensures { MatchOption result ((v : ℕ) → ¬ HasSide slots.now u v) (λ s. Contains slots.now s × (s.from ≡ u)) }
{
    for i in 0..slots.len() {
        let s = slots[i];
        if s.from == u {
            return Some(s);
        }
    }
    None
}

// The same, with a hint of a slot.
pub(crate) fn from_hint(slots: &[Side], hints: &[usize], u: u32) -> Option<Side>
    ensures { MatchOption result ((v : ℕ) → ¬ HasSide slots.now u v) (λ s. Contains slots.now s × (s.from ≡ u)) }
{
    let i = hint(hints, u);
    if i < slots.len() {
        let s = slots[i];
        if s.from == u {
            return Some(s);
        }
    }
    scan(slots, u)
}

// The slot that was noted last for a point, or for another in its stead.
fn hint(hints: &[usize], u: u32) -> usize {
    if hints.is_empty() {
        return 0;
    }
    hints[u as usize % hints.len()]
}

// Notes the slot of a side from a point. It helps to find one, and need not hold any more then.
pub(crate) fn note(hints: &mut Vec<usize>, u: u32, place: usize) {
    if !hints.is_empty() {
        let i = u as usize % hints.len();
        hints[i] = place;
    }
}

// A slot for each point, as far as half as many as there are sides suffice.
pub(crate) fn hints_of(alloc: Global, slots: &[Side]) -> Result<Vec<usize>, AllocError> {
    let mut hints = Vec::new(alloc);
    let count = slots.len() / 2;
    hints.reserve(count)?;
    for _ in 0..count {
        hints.push(0)?;
    }
    for i in 0..slots.len() {
        note(&mut hints, slots[i].from, i);
    }
    Ok(hints)
}

// Notes the slot of a new side, and makes room for more points from time to time.
pub(crate) fn note_more(
    alloc: Global,
    hints: &mut Vec<usize>,
    slots: &[Side],
    u: u32,
    place: usize,
) -> Result<(), AllocError> {
    if hints.len() < slots.len() / 4 {
        *hints = hints_of(alloc, slots)?;
    }
    note(hints, u, place);
    Ok(())
}

// The sides in order.
pub(crate) fn listed(alloc: Global, slots: &[Side]) -> Result<Vec<Side>, AllocError>
    requires { AreDistinct slots.now }
    ensures { IfOk result (λ v. v.items ≡ in_order slots.now) }
{
    let mut list = slots.to_vec(alloc)?;
    list.sort_unstable_by_key(|s| (s.from, s.to));
    Ok(list)
}
