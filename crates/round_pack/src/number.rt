// Round numbers.
ghost use Rattle.std.specs.Prelude.{◌≡◌, suc};
ghost use Rattle.flip_list_law.specs.FlipLists.{rounds_before, round_numbers, last_numbers, greatest, same_place};
ghost use Rattle.round_pack.specs.Slots.{flips_in, numbers_in};
ghost use Rattle.round_pack.specs.Chains.{AreChained, AreOrdered, undone_slot};

use crate::chain::last_maker;
use crate::maker::{Triangle, one_side, other_side};
use crate::slot::{Entry, number_at};
use flip_list_law::Flip;

fn same_place(first: Option<usize>, second: Option<usize>) -> Option<usize>
    ensures { result ≡ same_place first second }
{
    match first {
        None => None,
        Some(i) => match second {
            None => None,
            Some(j) => { if i == j { Some(i) } else { None } }
        },
    }
}

// The slot of the one flip that last made both triangles at the flip's edge.
pub(crate) fn undone_by(
    heads: &[Option<usize>],
    before: &[Option<usize>],
    slots: &[Option<Entry>],
    flip: &Flip,
) -> Option<usize>
    requires chained { AreChained heads.now before.now slots.now }
    requires ordered { AreOrdered (flips_in slots.now) }
    ensures { result ≡ undone_slot slots.now flip.now }
{
    same_place(
        last_maker(heads, before, slots, one_side(flip)),
        last_maker(heads, before, slots, other_side(flip)),
    )
}

// The number of the flip that last made the triangle, or 0.
fn last_number(
    heads: &[Option<usize>],
    before: &[Option<usize>],
    slots: &[Option<Entry>],
    t: Triangle,
) -> u64
    requires chained { AreChained heads.now before.now slots.now }
    requires ordered { AreOrdered (flips_in slots.now) }
    requires numbered { numbers_in slots.now ≡ round_numbers (flips_in slots.now) }
    ensures { result ≡ last_numbers (flips_in slots.now) t }
{
    match last_maker(heads, before, slots, t) {
        Some(place) => number_at(slots, place),
        None => 0,
    }
}

// The number that the flip gets at the end of the list.
pub(crate) fn next_number(
    heads: &[Option<usize>],
    before: &[Option<usize>],
    slots: &[Option<Entry>],
    flip: &Flip,
) -> u64
    requires chained { AreChained heads.now before.now slots.now }
    requires ordered { AreOrdered (flips_in slots.now) }
    requires numbered { numbers_in slots.now ≡ round_numbers (flips_in slots.now) }
    ensures { result ≡ suc (rounds_before (last_numbers (flips_in slots.now)) flip.now) }
{
    let first = last_number(heads, before, slots, one_side(flip));
    let second = last_number(heads, before, slots, other_side(flip));
    if first < second {
        second + 1
    } else {
        first + 1
    }
}

// The greatest number, or 0.
pub(crate) fn greatest(numbers: &[u64]) -> u64
    ensures { result ≡ greatest numbers.now }
{
    let mut most = 0;
    for n in numbers {
        if *n > most {
            most = *n;
        }
    }
    most
}
