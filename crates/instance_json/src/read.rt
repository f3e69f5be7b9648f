// An instance read from a text, member by member.
ghost use Rattle.std.specs.Prelude.{◌≡◌, IfOk, IfErr, IsSomeAnd, MatchOption, All, None, Some, length, map, pos, replicate};
ghost use Rattle.std.specs.List.{AllZip, flat_map};
ghost use Rattle.std.specs.Option.{option_map};
ghost use Rattle.serde_json.specs.Data.{Data};
ghost use Rattle.serde_json.specs.Find.{as_array, as_str, get};
ghost use Rattle.serde_json.specs.View.{view};
ghost use Rattle.json_value.specs.Values.{IsList, IsListOf, IsNumber, IsPair, IsPairOf, Lists, numbers_of_pairs};
ghost use Rattle.instance_json.specs.Members.{name_of, IsAt, HasType};
ghost use Rattle.instance_json.specs.Faults.{OnFault, OnFaultIn, HasForm, IsOther};
ghost use Rattle.instance_json.specs.Forms.{TextsSpellOnce, IsListIfAny, WeighInputs, HasMembers, HasLists, IsRaw, Spells};

use crate::{Form, InstanceFault, Member};
use geo_orient::Point;
use json_value::{NumberFault, ParseFault};
use serde_json::Value;
use std::alloc::{AllocError, Global};
use tri_check::{PointList, RawInputs, RawInstance, Uid, WeightList};

/// The law of spelling.
pub fn laws()
    ensures { TextsSpellOnce }
{}

/// The instance that a text of JSON spells. Where the text has no weights, each input weighs 1. Time and memory grow with the length of the text.
pub fn read_instance(alloc: Global, bytes: &[u8]) -> Result<RawInstance, InstanceFault>
    ensures ok { IfOk result (λ raw. Spells bytes.now raw) }
    ensures form { IfOk result (λ raw. HasForm bytes.now) }
    ensures counted { IfOk result (λ raw. length raw.weights ≡ length raw.inputs) }
    // The fault is the first that the bytes have.
    ensures fault { IfErr result (λ e. OnFault bytes.now e) }
{
    match json_value::parse(alloc, bytes) {
        Ok(value) => instance_in(alloc, &value),
        Err(ParseFault::NotJson) => Err(InstanceFault::Form(Form::NotJson)),
        Err(ParseFault::OutOfMemory) => Err(InstanceFault::OutOfMemory),
    }
}

fn instance_in(alloc: Global, value: &Value) -> Result<RawInstance, InstanceFault>
    ensures ok { IfOk result (λ raw. IsRaw (view value.now) raw) }
    ensures counted { IfOk result (λ raw. length raw.weights ≡ length raw.inputs) }
    ensures fault { IfErr result (λ e. OnFaultIn (view value.now) e) }
{
    if !value.is_object() {
        return Err(InstanceFault::Form(Form::NotObject));
    }
    let uid = member_in(value, Member::Uid)?;
    let xs = member_in(value, Member::PointsX)?;
    let ys = member_in(value, Member::PointsY)?;
    let inputs = member_in(value, Member::Triangulations)?;
    let weights = value.get(Member::Weights.name());
    instance_of_members(alloc, uid, xs, ys, inputs, weights)
}

fn member_in<'a>(value: &'a Value, m: Member) -> Result<&'a Value, Form>
    ensures ok { IfOk result (λ v. IsAt (view value.now) m (view v.now)) }
    ensures missing { IfErr result (λ f. (f ≡ Form.Missing m) × (get (name_of m) (view value.now) ≡ None)) }
{
    match value.get(m.name()) {
        Some(found) => Ok(found),
        None => Err(Form::Missing(m)),
    }
}

// The instance of an object with these members, of which the weights may be missing.
fn instance_of_members(
    alloc: Global,
    uid: &Value,
    xs: &Value,
    ys: &Value,
    inputs: &Value,
    weights: Option<&Value>,
) -> Result<RawInstance, InstanceFault>
    ensures ok { IfOk result (λ raw. (d : Data)
        → HasMembers d (view uid.now) (view xs.now) (view ys.now) (view inputs.now) (option_map (λ v. view v.now) weights.entry) → IsRaw d raw) }
    ensures counted { IfOk result (λ raw. length raw.weights ≡ length raw.inputs) }
    ensures fault { IfErr result (λ e. (d : Data)
        → HasMembers d (view uid.now) (view xs.now) (view ys.now) (view inputs.now) (option_map (λ v. view v.now) weights.entry) → OnFaultIn d e) }
{
    let uid = text_in(uid)?;
    let xs = list_in(xs, Member::PointsX)?;
    let ys = list_in(ys, Member::PointsY)?;
    let inputs = inputs_in(inputs)?;
    let weights = weights_in(weights)?;
    instance_of_lists(alloc, uid, xs, ys, inputs, weights)
}

fn text_in(value: &Value) -> Result<&str, Form>
    ensures ok { IfOk result (λ s. as_str (view value.now) ≡ Some s.now) }
    ensures wrong { IfErr result (λ f. (f ≡ Form.WrongType Member.Uid) × (as_str (view value.now) ≡ None)) }
{
    match value.as_str() {
        Some(text) => Ok(text),
        None => Err(Form::WrongType(Member::Uid)),
    }
}

fn list_in<'a>(value: &'a Value, m: Member) -> Result<&'a [Value], Form>
    ensures ok { IfOk result (λ vs. IsList (view value.now) (map view vs.now)) }
    ensures wrong { IfErr result (λ f. (f ≡ Form.WrongType m) × (as_array (view value.now) ≡ None)) }
{
    match value.as_array() {
        Some(list) => Ok(list.as_slice()),
        None => Err(Form::WrongType(m)),
    }
}

fn inputs_in(value: &Value) -> Result<&[Value], Form>
    ensures ok { IfOk result (λ vs. IsList (view value.now) (map view vs.now) × All (IsListOf IsPair) (map view vs.now)) }
    ensures wrong { IfErr result (λ f. (f ≡ Form.WrongType Member.Triangulations) × ¬ IsListOf (IsListOf IsPair) (view value.now)) }
{
    let list = list_in(value, Member::Triangulations)?;
    if json_value::are_pair_lists(list) {
        Ok(list)
    } else {
        Err(Form::WrongType(Member::Triangulations))
    }
}

// The list of the weights, if there are any.
fn weights_in(value: Option<&Value>) -> Result<Option<&[Value]>, Form>
    ensures ok { IfOk result (λ vs. IsListIfAny (option_map (λ v. view v.now) value.entry) (option_map (λ list. map view list.now) vs)) }
    ensures wrong { IfErr result (λ f. (f ≡ Form.WrongType Member.Weights) × IsSomeAnd value.entry (λ v. as_array (view v.now) ≡ None)) }
{
    match value {
        Some(found) => Ok(Some(list_in(found, Member::Weights)?)),
        None => Ok(None),
    }
}

// The instance of an object with this name and these lists at its members, of which that of the weights may be missing.
fn instance_of_lists(
    alloc: Global,
    uid: &str,
    xs: &[Value],
    ys: &[Value],
    inputs: &[Value],
    weights: Option<&[Value]>,
) -> Result<RawInstance, InstanceFault>
    requires { All (IsListOf IsPair) (map view inputs.now) }
    ensures ok { IfOk result (λ raw. (d : Data)
        → HasLists d uid.now (map view xs.now) (map view ys.now) (map view inputs.now) (option_map (λ list. map view list.now) weights.entry) → IsRaw d raw) }
    ensures counted { IfOk result (λ raw. length raw.weights ≡ length raw.inputs) }
    ensures fault { IfErr result (λ e. (d : Data)
        → HasLists d uid.now (map view xs.now) (map view ys.now) (map view inputs.now) (option_map (λ list. map view list.now) weights.entry) → OnFaultIn d e) }
{
    let xs = numbers_in(alloc, xs, Member::PointsX)?;
    let ys = numbers_in(alloc, ys, Member::PointsY)?;
    let inputs = pairs_in(alloc, inputs)?;
    let weights = weights_of(alloc, weights, inputs.len())?;
    if xs.len() != ys.len() {
        return Err(InstanceFault::Form(Form::LengthMismatch(xs.len() as u64, ys.len() as u64)));
    }
    if weights.len() != inputs.len() {
        return Err(InstanceFault::Form(Form::WeightCount(
            weights.len() as u64,
            inputs.len() as u64,
        )));
    }
    let points = points_of(alloc, &xs, &ys)?;
    let uid = Uid::of(alloc, uid)?;
    Ok(RawInstance {
        uid,
        points,
        inputs,
        weights,
    })
}

fn numbers_in(alloc: Global, values: &[Value], m: Member) -> Result<Vec<i64>, InstanceFault>
    ensures ok { IfOk result (λ v. AllZip IsNumber (map view values.now) v.items) }
    ensures other { IfErr result (λ e. IsOther m (map view values.now) e) }
{
    match json_value::numbers_in(alloc, values) {
        Ok(numbers) => Ok(numbers),
        Err(NumberFault::NotInteger(place)) => Err(InstanceFault::Form(Form::NotInteger(m, place))),
        Err(NumberFault::OutOfMemory) => Err(InstanceFault::OutOfMemory),
    }
}

fn pairs_in(alloc: Global, values: &[Value]) -> Result<RawInputs, InstanceFault>
    requires { All (IsListOf IsPair) (map view values.now) }
    ensures ok { IfOk result (λ lists. AllZip (Lists IsPairOf) (map view values.now) lists) }
    ensures other { IfErr result (λ e. IsOther Member.Triangulations (flat_map numbers_of_pairs (map view values.now)) e) }
{
    match json_value::pair_lists_in(alloc, values) {
        Ok(inputs) => Ok(inputs),
        Err(NumberFault::NotInteger(place)) => Err(InstanceFault::Form(Form::NotInteger(
            Member::Triangulations,
            place,
        ))),
        Err(NumberFault::OutOfMemory) => Err(InstanceFault::OutOfMemory),
    }
}

// The weights that are listed, or ones for so many inputs where there is no list.
fn weights_of(
    alloc: Global,
    values: Option<&[Value]>,
    inputs: usize,
) -> Result<WeightList, InstanceFault>
    ensures ok { IfOk result (λ weights. WeighInputs (option_map (λ list. map view list.now) values.entry) inputs weights) }
    ensures other { IfErr result (λ e. MatchOption values.entry (e ≡ InstanceFault.OutOfMemory) (λ list. IsOther Member.Weights (map view list.now) e)) }
{
    match values {
        Some(values) => listed_weights(alloc, values),
        None => Ok(ones(alloc, inputs)?),
    }
}

fn listed_weights(alloc: Global, values: &[Value]) -> Result<WeightList, InstanceFault>
    ensures ok { IfOk result (λ weights. AllZip IsNumber (map view values.now) weights) }
    ensures other { IfErr result (λ e. IsOther Member.Weights (map view values.now) e) }
{
    let numbers = numbers_in(alloc, values, Member::Weights)?;
    Ok(WeightList::of(alloc, &numbers)?)
}

fn ones(alloc: Global, count: usize) -> Result<WeightList, AllocError>
    ensures { IfOk result (λ ones. ones ≡ replicate count (pos 1)) }
{
    let mut ones = WeightList::make(alloc);
    for _ in 0..count {
        ones.push(1)?;
    }
    Ok(ones)
}

fn points_of(alloc: Global, xs: &[i64], ys: &[i64]) -> Result<PointList, AllocError>
    requires { length xs.now ≡ length ys.now }
    ensures xs { IfOk result (λ points. map (λ p. p.x) points ≡ xs.now) }
    ensures ys { IfOk result (λ points. map (λ p. p.y) points ≡ ys.now) }
{
    let mut points = PointList::make(alloc);
    for (i, x) in xs.iter().enumerate() {
        points.push(Point { x: *x, y: ys[i] })?;
    }
    Ok(points)
}
