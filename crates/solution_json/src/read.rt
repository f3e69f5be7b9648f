// A solution read from a text.
ghost use Rattle.std.specs.Prelude.{◌≡◌, ◌+◌, ◌*◌, ◌↔◌, IfOk, IfErr, IfSome, IsTrue, All, None, Some, length, map};
ghost use Rattle.std.specs.List.{AllZip, flat_map};
ghost use Rattle.serde_json.specs.Find.{as_str, get};
ghost use Rattle.serde_json.specs.View.{view};
ghost use Rattle.json_value.specs.Values.{IsList, IsListOf, IsPair, IsPairOf, Lists, numbers_of_lists};
ghost use Rattle.solution_json.specs.Edges.{pairs_within};
ghost use Rattle.solution_json.specs.Members.{name_of, IsAt, HasType};
ghost use Rattle.solution_json.specs.Faults.{HasForm, OnFault, OnFaultIn, OnNumbers, IsNumberFault};
ghost use Rattle.solution_json.specs.Forms.{TextsSpellOnce, IsSolution, Spells};

use crate::edges::{lists_of, pair_count};
use crate::{SolForm, SolMember, Solution, SolutionFault};
use json_value::{NumberFault, ParseFault, are_pair_lists, pair_lists_in, parse};
use serde_json::Value;
use std::alloc::Global;
use tri_check::{RawInputs, Uid};

/// The law of spelling.
pub fn laws()
    ensures { TextsSpellOnce }
{}

/// The solution that a text of JSON spells. Time and memory grow with the length of the text.
pub fn read_solution(alloc: Global, bytes: &[u8]) -> Result<Solution, SolutionFault>
    ensures ok { IfOk result (λ s. Spells bytes.now s) }
    ensures form { IfOk result (λ s. HasForm bytes.now) }
    // The fault is the first that the bytes have.
    ensures fault { IfErr result (λ e. OnFault bytes.now e) }
{
    match parse(alloc, bytes) {
        Ok(value) => solution_in(alloc, &value),
        Err(ParseFault::NotJson) => Err(SolutionFault::Form(SolForm::NotJson)),
        Err(ParseFault::OutOfMemory) => Err(SolutionFault::OutOfMemory),
    }
}

fn solution_in(alloc: Global, value: &Value) -> Result<Solution, SolutionFault>
    ensures ok { IfOk result (λ s. IsSolution (view value.now) s) }
    ensures fault { IfErr result (λ e. OnFaultIn (view value.now) e) }
{
    if !value.is_object() {
        return Err(SolutionFault::Form(SolForm::NotObject));
    }
    let uid = member_in(value, SolMember::Uid)?;
    let flips = member_in(value, SolMember::Flips)?;
    let uid = text_in(uid)?;
    let flips = flips_in(flips)?;
    let raws = schedules_in(alloc, flips)?;
    let lists = lists_of(alloc, &raws)?;
    let uid = Uid::of(alloc, uid)?;
    Ok(Solution { uid, lists })
}

fn member_in<'a>(value: &'a Value, m: SolMember) -> Result<&'a Value, SolForm>
    ensures ok { IfOk result (λ v. IsAt (view value.now) m (view v.now)) }
    ensures missing { IfErr result (λ f. (f ≡ SolForm.Missing m) × (get (name_of m) (view value.now) ≡ None)) }
{
    match value.get(m.name()) {
        Some(found) => Ok(found),
        None => Err(SolForm::Missing(m)),
    }
}

fn text_in(value: &Value) -> Result<&str, SolForm>
    ensures ok { IfOk result (λ s. as_str (view value.now) ≡ Some s.now) }
    ensures wrong { IfErr result (λ f. (f ≡ SolForm.WrongType SolMember.Uid) × (as_str (view value.now) ≡ None)) }
{
    match value.as_str() {
        Some(text) => Ok(text),
        None => Err(SolForm::WrongType(SolMember::Uid)),
    }
}

fn is_rounds(value: &Value) -> bool
    ensures { IsTrue result ↔ IsListOf (IsListOf IsPair) (view value.now) }
{
    match value.as_array() {
        Some(list) => are_pair_lists(list),
        None => false,
    }
}

fn are_rounds(values: &[Value]) -> bool
    ensures { IsTrue result ↔ All (IsListOf (IsListOf IsPair)) (map view values.now) }
{
    for value in values {
        if !is_rounds(value) {
            return false;
        }
    }
    true
}

fn flips_in(value: &Value) -> Result<&[Value], SolForm>
    ensures ok { IfOk result (λ vs. IsList (view value.now) (map view vs.now)
        × All (IsListOf (IsListOf IsPair)) (map view vs.now)) }
    ensures wrong { IfErr result (λ f. (f ≡ SolForm.WrongType SolMember.Flips)
        × ¬ HasType SolMember.Flips (view value.now)) }
{
    match value.as_array() {
        Some(list) => if are_rounds(list) {
            Ok(list.as_slice())
        } else {
            Err(SolForm::WrongType(SolMember::Flips))
        },
        None => Err(SolForm::WrongType(SolMember::Flips)),
    }
}

// The fault of values that stand behind others with so many numbers.
fn number_fault(fault: NumberFault, before: u64) -> SolutionFault
    ensures { IsNumberFault fault before result }
{
    match fault {
        NumberFault::NotInteger(place) => match before.checked_add(place) {
            Some(place) => SolutionFault::Form(SolForm::NotInteger(place)),
            // So many numbers fit no memory.
            None => SolutionFault::OutOfMemory,
        },
        NumberFault::OutOfMemory => SolutionFault::OutOfMemory,
    }
}

// The place after so many numbers and then the lists of pairs, unless 64 bits can't count it.
fn place_after(place: u64, raw: &RawInputs) -> Option<u64>
    ensures { IfSome result (λ n. n ≡ place + 2 * length (pairs_within raw.now)) }
{
    place.checked_add(pair_count(raw)?.checked_mul(2)?)
}

// The pairs of the rounds of each list.
fn schedules_in(alloc: Global, values: &[Value]) -> Result<Vec<RawInputs>, SolutionFault>
    requires { All (IsListOf (IsListOf IsPair)) (map view values.now) }
    ensures ok { IfOk result (λ raws. AllZip (Lists (Lists IsPairOf)) (map view values.now) raws.items) }
    ensures fault { IfErr result (λ e. OnNumbers e (flat_map numbers_of_lists (map view values.now))) }
{
    let mut raws = Vec::new(alloc);
    let mut place: u64 = 0;
    for value in values {
        let Some(list) = value.as_array() else {
            unreachable!();
        };
        let raw = match pair_lists_in(alloc, list) {
            Ok(raw) => raw,
            Err(fault) => return Err(number_fault(fault, place)),
        };
        // More numbers than 64 bits can count fit no memory.
        let Some(next) = place_after(place, &raw) else {
            return Err(SolutionFault::OutOfMemory);
        };
        place = next;
        raws.push(raw)?;
    }
    Ok(raws)
}
