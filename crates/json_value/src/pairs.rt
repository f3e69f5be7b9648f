// Lists of pairs of whole numbers.
ghost use Rattle.std.specs.Prelude.{◌≡◌, ◌<◌, ◌↔◌, IfOk, IfErr, IsTrue, All, map};
ghost use Rattle.std.specs.List.{AllZip, flat_map};
ghost use Rattle.serde_json.specs.View.{view};
ghost use Rattle.json_value.specs.Values.{IsPair, IsPairOf, IsListOf, IsFirstOther, Lists, elements, numbers_of_pairs};
ghost use Rattle.json_value.specs.Faults.{OnOther, IsMoved};

use crate::NumberFault;
use serde_json::Value;
use std::alloc::Global;
use tri_check::{PairList, RawInputs, RawPair};

fn is_pair(value: &Value) -> bool
    ensures { IsTrue result ↔ IsPair (view value.now) }
{
    match value.as_array() {
        Some(list) => list.len() == 2,
        None => false,
    }
}

/// Whether each value is a list of two.
pub fn are_pairs(values: &[Value]) -> bool
    ensures { IsTrue result ↔ All IsPair (map view values.now) }
{
    for value in values {
        if !is_pair(value) {
            return false;
        }
    }
    true
}

fn is_pair_list(value: &Value) -> bool
    ensures { IsTrue result ↔ IsListOf IsPair (view value.now) }
{
    match value.as_array() {
        Some(list) => are_pairs(list),
        None => false,
    }
}

/// Whether each value is a list of lists of two.
pub fn are_pair_lists(values: &[Value]) -> bool
    ensures { IsTrue result ↔ All (IsListOf IsPair) (map view values.now) }
{
    for value in values {
        if !is_pair_list(value) {
            return false;
        }
    }
    true
}

fn pair_in(value: &Value) -> Result<RawPair, u64>
    requires { IsPair (view value.now) }
    ensures ok { IfOk result (λ pair. IsPairOf (view value.now) pair) }
    ensures other { IfErr result (λ k. IsFirstOther (elements (view value.now)) k) }
    ensures within { IfErr result (λ k. k < 2) }
{
    let Some(list) = value.as_array() else {
        unreachable!();
    };
    let Some(a) = list[0].as_i64() else {
        return Err(0);
    };
    let Some(b) = list[1].as_i64() else {
        return Err(1);
    };
    Ok(RawPair { a, b })
}

/// The pairs of whole numbers that the values are. A place counts the numbers of all pairs.
pub fn pairs_in(alloc: Global, values: &[Value]) -> Result<PairList, NumberFault>
    requires { All IsPair (map view values.now) }
    ensures ok { IfOk result (λ pairs. AllZip IsPairOf (map view values.now) pairs) }
    // The place is that of the first number that is not whole.
    ensures other { IfErr result (λ e. OnOther e (flat_map elements (map view values.now))) }
{
    let mut pairs = PairList::make(alloc);
    let mut place: u64 = 0;
    for value in values {
        match pair_in(value) {
            Ok(pair) => pairs.push(pair)?,
            Err(k) => return Err(NumberFault::NotInteger(place + k)),
        }
        place += 2;
    }
    Ok(pairs)
}

// The fault of values that stand behind others with so many numbers.
fn moved(fault: NumberFault, before: u64) -> NumberFault
    ensures { IsMoved fault before result }
{
    match fault {
        NumberFault::NotInteger(place) => match before.checked_add(place) {
            Some(place) => NumberFault::NotInteger(place),
            // So many numbers fit no memory.
            None => NumberFault::OutOfMemory,
        },
        NumberFault::OutOfMemory => NumberFault::OutOfMemory,
    }
}

/// The lists of pairs of whole numbers that the values are. A place counts the numbers of all pairs of all lists.
pub fn pair_lists_in(alloc: Global, values: &[Value]) -> Result<RawInputs, NumberFault>
    requires { All (IsListOf IsPair) (map view values.now) }
    ensures ok { IfOk result (λ lists. AllZip (Lists IsPairOf) (map view values.now) lists) }
    // The place is that of the first number that is not whole.
    ensures other { IfErr result (λ e. OnOther e (flat_map numbers_of_pairs (map view values.now))) }
{
    let mut lists = RawInputs::make(alloc);
    let mut place: u64 = 0;
    for value in values {
        let Some(list) = value.as_array() else {
            unreachable!();
        };
        match pairs_in(alloc, list) {
            Ok(pairs) => lists.push(pairs)?,
            Err(fault) => return Err(moved(fault, place)),
        }
        // More numbers than 64 bits can count fit no memory.
        let Some(next) = place.checked_add(2 * list.len() as u64) else {
            return Err(NumberFault::OutOfMemory);
        };
        place = next;
    }
    Ok(lists)
}
