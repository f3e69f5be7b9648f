// How many flips each round has.
ghost use Rattle.std.specs.Prelude.{◌≡◌, ◌<◌, ◌≤◌, ◌+◌, ◌++◌, ◌∷◌, [], ◌-◌, ℕ, List, length, slice_index, vec_len, vec_capacity};
ghost use Rattle.flip_list_law.specs.FlipLists.{greatest};
ghost use Rattle.round_pack.specs.Slots.{numbers_in};
ghost use Rattle.round_pack.specs.Counts.{AreCounted, AreFilled, IsRest};

use crate::slot::Entry;

// Counts a flip with the number, beside those of these slots.
pub(crate) fn count_in(counts: &mut Vec<usize>, slots: &[Option<Entry>], number: u64)
    requires counted { AreCounted counts.old.items (numbers_in slots.now) }
    requires positive { 0 < number }
    requires next { number ≤ length counts.old.items + 1 }
    requires room { vec_len counts.old < vec_capacity counts.old }
    ensures counted { AreCounted counts.new.items (numbers_in slots.now ++ number ∷ []) }
    ensures len { vec_len counts.new ≤ vec_len counts.old + 1 }
    ensures capacity { vec_capacity counts.new ≡ vec_capacity counts.old }
{
    let _ = slots.len();
    let round = (number - 1) as usize;
    if round < counts.len() {
        counts[round] += 1;
    } else {
        counts.push_reserved(1);
    }
}

// Counts a flip with the number no longer. Only the last round can end so.
pub(crate) fn count_out(counts: &mut Vec<usize>, number: u64)
    requires positive { 0 < number }
    requires within { number ≤ length counts.old.items }
    requires filled { 0 < slice_index counts.old.items (number - 1) }
    ensures counted { (numbers rest : List ℕ) → AreCounted counts.old.items numbers → IsRest numbers rest number → AreFilled rest → AreCounted counts.new.items rest }
    ensures len { vec_len counts.new ≤ vec_len counts.old }
    ensures capacity { vec_capacity counts.new ≡ vec_capacity counts.old }
{
    let round = (number - 1) as usize;
    if counts[round] == 1 {
        counts.pop();
    } else {
        counts[round] -= 1;
    }
}

// The rounds that are left without a flip of the number.
pub(crate) fn rounds_without(counts: &[usize], number: u64) -> u64
    requires positive { 0 < number }
    requires within { number ≤ length counts.now }
    ensures { (numbers rest : List ℕ) → AreCounted counts.now numbers → IsRest numbers rest number → AreFilled rest → result ≡ greatest rest }
{
    let rounds = counts.len() as u64;
    if counts[(number - 1) as usize] == 1 {
        rounds - 1
    } else {
        rounds
    }
}
