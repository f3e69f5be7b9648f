// Flips found by their images: a chain for each bucket, from its last flip back.
ghost use Rattle.std.specs.Prelude.{◌≡◌, ◌+◌, ◌<◌, ◌++◌, ◌∷◌, [], ◌&&◌, true, None, Some, List, length, slice_index_or, slice_set, vec_len, vec_capacity, IsSome, IfOk, OnOk, ◌≤◌};
ghost use Rattle.round_pack.specs.Slots.{Slot, flips_in, numbers_in, slot_makes};
ghost use Rattle.round_pack.specs.Chains.{bucket, is_in, last_where, later, AreChained, AreOrdered, IsNext};

use crate::maker::Triangle;
use crate::slot::{Entry, makes_at};
use std::alloc::{AllocError, Global};

fn bucket(count: usize, low: u32, high: u32) -> usize
    requires { 0 < count }
    ensures value { result ≡ bucket count low high }
    ensures within { result < count }
{
    (low as usize * 31 + high as usize) % count
}

fn later(a: Option<usize>, b: Option<usize>) -> Option<usize>
    ensures { result ≡ later a b }
{
    match a {
        None => b,
        Some(i) => match b {
            None => Some(i),
            Some(j) => { if i < j { Some(j) } else { Some(i) } }
        },
    }
}

// No flips yet, with so many buckets.
pub(crate) fn no_heads(alloc: Global, count: usize) -> Result<Vec<Option<usize>>, AllocError>
    requires { 0 < count }
    ensures { IfOk result (λ v. AreChained v.items [] []) }
{
    let mut heads = Vec::new(alloc);
    let mut left = count;
    while left > 0 {
        heads.push(None)?;
        left -= 1;
    }
    Ok(heads)
}

// Puts a flip at the end of its bucket's chain.
pub(crate) fn link(heads: &mut Vec<Option<usize>>, before: &mut Vec<Option<usize>>, entry: &Entry)
    requires heads { 0 < length heads.old.items }
    requires room { vec_len before.old < vec_capacity before.old }
    ensures chained { (slots : List Slot) → AreChained heads.old.items before.old.items slots → AreChained heads.new.items before.new.items (slots ++ Some entry.now ∷ []) }
    ensures heads_len { length heads.new.items ≡ length heads.old.items }
    ensures len { vec_len before.new ≡ vec_len before.old + 1 }
    ensures capacity { vec_capacity before.new ≡ vec_capacity before.old }
{
    let b = bucket(heads.len(), entry.flip.image.low(), entry.flip.image.high());
    let place = before.len();
    before.push_reserved(heads[b]);
    heads[b] = Some(place);
}

// The next flip of a bucket after the one at a place.
fn next_in(
    heads: &[Option<usize>],
    before: &[Option<usize>],
    slots: &[Option<Entry>],
    b: usize,
    place: usize,
) -> Option<usize>
    requires chained { AreChained heads.now before.now slots.now }
    requires bucket { b < length heads.now }
    requires within { place < length slots.now }
    requires there { is_in (length heads.now) b (slice_index_or slots.now place None) ≡ true }
    ensures { IsNext (length heads.now) b slots.now place result }
{
    let _ = slots.len();
    let mut next = None;
    let mut at = heads[b];
    while let Some(i) = at {
        if i == place {
            break;
        }
        next = at;
        at = before[i];
    }
    next
}

// Takes the flip at a place out of its bucket's chain.
pub(crate) fn unlink(
    heads: &mut Vec<Option<usize>>,
    before: &mut Vec<Option<usize>>,
    slots: &[Option<Entry>],
    place: usize,
    entry: &Entry,
)
    requires chained { AreChained heads.old.items before.old.items slots.now }
    requires within { place < length slots.now }
    requires there { slice_index_or slots.now place None ≡ Some entry.now }
    ensures chained { AreChained heads.new.items before.new.items (slice_set slots.now place None) }
    ensures len { vec_len before.new ≡ vec_len before.old }
    ensures capacity { vec_capacity before.new ≡ vec_capacity before.old }
{
    let b = bucket(heads.len(), entry.flip.image.low(), entry.flip.image.high());
    let earlier = before[place];
    match next_in(heads, before, slots, b, place) {
        Some(next) => before[next] = earlier,
        None => heads[b] = earlier,
    }
}

// Empties the slot at a place.
pub(crate) fn take_out(
    heads: &mut Vec<Option<usize>>,
    before: &mut Vec<Option<usize>>,
    slots: &mut Vec<Option<Entry>>,
    place: usize,
)
    requires chained { AreChained heads.old.items before.old.items slots.old.items }
    requires within { place < length slots.old.items }
    requires there { IsSome (slice_index_or slots.old.items place None) }
    ensures chained { AreChained heads.new.items before.new.items (slice_set slots.old.items place None) }
    ensures slots { slots.new.items ≡ slice_set slots.old.items place None }
    ensures slots_len { vec_len slots.new ≡ vec_len slots.old }
    ensures slots_capacity { vec_capacity slots.new ≡ vec_capacity slots.old }
    ensures len { vec_len before.new ≡ vec_len before.old }
    ensures capacity { vec_capacity before.new ≡ vec_capacity before.old }
{
    match slots[place] {
        Some(entry) => {
            unlink(heads, before, slots, place, &entry);
            slots[place] = None;
        }
        None => unreachable!(),
    }
}

// Puts a flip at the end of others, and takes memory for it.
fn keep(
    heads: &mut Vec<Option<usize>>,
    before: &mut Vec<Option<usize>>,
    slots: &mut Vec<Option<Entry>>,
    entry: &Entry,
) -> Result<(), AllocError>
    requires { AreChained heads.old.items before.old.items slots.old.items }
    ensures chained { OnOk result (AreChained heads.new.items before.new.items slots.new.items) }
    ensures slots { OnOk result (slots.new.items ≡ slots.old.items ++ Some entry.now ∷ []) }
{
    before.reserve(1)?;
    slots.reserve(1)?;
    slots.push_reserved(Some(*entry));
    link(heads, before, entry);
    Ok(())
}

// The same flips without the empty slots, with room for so many more.
pub(crate) fn compacted(
    alloc: Global,
    slots: &[Option<Entry>],
    buckets: usize,
    room: usize,
) -> Result<(Vec<Option<Entry>>, Vec<Option<usize>>, Vec<Option<usize>>), AllocError>
    requires { 0 < buckets }
    ensures chained { IfOk result (λ r. AreChained r.1.items r.2.items r.0.items) }
    ensures flips { IfOk result (λ r. flips_in r.0.items ≡ flips_in slots.now) }
    ensures numbers { IfOk result (λ r. numbers_in r.0.items ≡ numbers_in slots.now) }
    ensures slots_room { IfOk result (λ r. vec_len r.0 + room ≤ vec_capacity r.0) }
    ensures before_room { IfOk result (λ r. vec_len r.2 + room ≤ vec_capacity r.2) }
{
    let mut heads = no_heads(alloc, buckets)?;
    let mut before = Vec::new(alloc);
    let mut kept = Vec::new(alloc);
    for i in 0..slots.len() {
        if let Some(entry) = slots[i] {
            keep(&mut heads, &mut before, &mut kept, &entry)?;
        }
    }
    kept.reserve(room)?;
    before.reserve(room)?;
    Ok((kept, heads, before))
}

// The last flip of an edge's bucket that makes the triangle.
fn walk(
    heads: &[Option<usize>],
    before: &[Option<usize>],
    slots: &[Option<Entry>],
    low: u32,
    high: u32,
    t: Triangle,
) -> Option<usize>
    requires { AreChained heads.now before.now slots.now }
    ensures { result ≡ last_where (λ s. is_in (length heads.now) (bucket (length heads.now) low high) s && slot_makes s t) slots.now }
{
    let mut at = heads[bucket(heads.len(), low, high)];
    while let Some(place) = at {
        if makes_at(&slots[place], t) {
            return Some(place);
        }
        at = before[place];
    }
    None
}

// The slot of the flip that last made the triangle.
pub(crate) fn last_maker(
    heads: &[Option<usize>],
    before: &[Option<usize>],
    slots: &[Option<Entry>],
    t: Triangle,
) -> Option<usize>
    requires chained { AreChained heads.now before.now slots.now }
    requires ordered { AreOrdered (flips_in slots.now) }
    ensures { result ≡ last_where (λ s. slot_makes s t) slots.now }
{
    let first = walk(heads, before, slots, t.0, t.1, t);
    let second = walk(heads, before, slots, t.0, t.2, t);
    let third = walk(heads, before, slots, t.1, t.2, t);
    later(first, later(second, third))
}
