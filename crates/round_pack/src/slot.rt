// Flips in order with their round numbers, where some were taken out and left an empty slot.
ghost use Rattle.std.specs.Prelude.{◌≡◌, ◌<◌, length, slice_index_or, None, IfOk};
ghost use Rattle.round_pack.specs.Slots.{flips_in, numbers_in, slot_makes, slot_number};

use crate::maker::{Triangle, makes};
use flip_list_law::Flip;
use std::alloc::{AllocError, Global};

// A flip with its round number.
#[derive(Clone, Copy)]
pub(crate) struct Entry {
    pub(crate) flip: Flip,
    pub(crate) number: u64,
}

// Whether the slot's flip makes the triangle.
pub(crate) fn makes_at(slot: &Option<Entry>, t: Triangle) -> bool
    ensures { result ≡ slot_makes slot.now t }
{
    match slot {
        Some(entry) => makes(&entry.flip, t),
        None => false,
    }
}

// The slot's round number, or 0.
pub(crate) fn number_at(slots: &[Option<Entry>], place: usize) -> u64
    requires { place < length slots.now }
    ensures { result ≡ slot_number (slice_index_or slots.now place None) }
{
    match slots[place] {
        Some(entry) => entry.number,
        None => 0,
    }
}

// The flips that are there.
pub(crate) fn flips_in(alloc: Global, slots: &[Option<Entry>]) -> Result<Vec<Flip>, AllocError>
    ensures { IfOk result (λ v. v.items ≡ flips_in slots.now) }
{
    let mut flips = Vec::new(alloc);
    for i in 0..slots.len() {
        if let Some(entry) = slots[i] {
            flips.push(entry.flip)?;
        }
    }
    Ok(flips)
}

// Their round numbers.
pub(crate) fn numbers_in(alloc: Global, slots: &[Option<Entry>]) -> Result<Vec<u64>, AllocError>
    ensures { IfOk result (λ v. v.items ≡ numbers_in slots.now) }
{
    let mut numbers = Vec::new(alloc);
    for i in 0..slots.len() {
        if let Some(entry) = slots[i] {
            numbers.push(entry.number)?;
        }
    }
    Ok(numbers)
}
