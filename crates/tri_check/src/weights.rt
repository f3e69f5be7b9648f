// The weights of the inputs: how many of each input a plan counts.
ghost use Rattle.std.specs.Prelude.{◌≡◌, ◌<◌, ◌≤◌, ◌↔◌, pos, length, map, sum, All, IsTrue, IfOk, IfErr, MatchOption};
ghost use Rattle.tri_theory.specs.Copies.{copy_of};
ghost use Rattle.tri_check.specs.Faults.{IsWeight};
ghost use Rattle.tri_check.specs.Stages as stage;

use crate::{Bad, CheckFault};
use item_list::ItemList;
use std::alloc::{AllocError, Global};

const MAX_WEIGHT: i64 = 16;

const MAX_SUM: u64 = 256;

fn is_weight(w: i64) -> bool
    ensures { IsTrue result ↔ IsWeight w }
{
    1 <= w && w <= MAX_WEIGHT
}

// The first weight that isn't from 1 to 16.
fn out_of_range(weights: &[i64]) -> Option<usize>
    ensures { MatchOption result (stage.AreInRange weights.now) (stage.IsLeast (length weights.now) (λ t. ¬ IsWeight (stage.weight_at weights.now t))) }
{
    for t in 0..weights.len() {
        if !is_weight(weights[t]) {
            return Some(t);
        }
    }
    None
}

fn number(w: &i64) -> u32
    requires { IsWeight w.now }
    ensures { pos result ≡ w.now }
{
    *w as u32
}

// The weights as they are counted.
fn numbers(alloc: Global, weights: &[i64]) -> Result<ItemList<u32>, AllocError>
    requires { stage.AreInRange weights.now }
    ensures { IfOk result (λ numbers. stage.AreNumbers weights.now numbers (length weights.now)) }
{
    let mut numbers = ItemList::make(alloc);
    for t in 0..weights.len() {
        numbers.push(number(&weights[t]))?;
    }
    Ok(numbers)
}

pub(crate) fn sum_of(numbers: &[u32]) -> u64
    requires few { length numbers.now ≤ 256 }
    requires small { All (λ w. w ≤ 16) numbers.now }
    ensures { result ≡ sum numbers.now }
{
    let mut total: u64 = 0;
    for w in numbers {
        total += *w as u64;
    }
    total
}

// The weights as they are counted, each from 1 to 16 and at most 256 in all.
pub(crate) fn check_weights(alloc: Global, weights: &[i64]) -> Result<ItemList<u32>, CheckFault>
    requires { length weights.now ≤ 256 }
    ensures ok { IfOk result (λ numbers. stage.AreWeighed weights.now numbers) }
    ensures err { IfErr result (stage.IsWeightRefusal weights.now) }
{
    if let Some(t) = out_of_range(weights) {
        return Err(CheckFault::Bad(Bad::WeightRange(t as u32)));
    }
    let numbers = numbers(alloc, weights)?;
    let total = sum_of(numbers.as_slice());
    if total > MAX_SUM {
        return Err(CheckFault::Bad(Bad::WeightSum(total)));
    }
    Ok(numbers)
}

// The input that copy `c` is of, where the copies of the first input come first, then those of the second, and so on.
pub(crate) fn owner(weights: &[u32], c: u32) -> u32
    requires few { length weights.now ≤ 256 }
    requires copy { c < sum weights.now }
    ensures copy { result ≡ copy_of weights.now c }
    ensures input { result < length weights.now }
{
    let mut left = c;
    for t in 0..weights.len() {
        if left < weights[t] {
            return t as u32;
        }
        left -= weights[t];
    }
    unreachable!()
}
