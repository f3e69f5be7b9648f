// A solution written as a text.
ghost use Rattle.std.specs.Prelude.{◌≡◌, IfOk, All};
ghost use Rattle.serde_json.specs.View.{view};
ghost use Rattle.solution_json.specs.Texts.{pair_data, round_data, rounds_data, lists_data, object_data, text_of, IsEdge};
ghost use Rattle.solution_json.specs.Forms.{Spells};

use crate::Solution;
use edge_table::{Edge, EdgeSeq, Rounds, RoundsList};
use host_io::Bytes;
use serde_json::{Value, json};
use std::alloc::{AllocError, Global};

/// The text of a solution. Time and memory grow with its length.
pub fn solution_text(alloc: Global, s: &Solution) -> Result<Bytes, AllocError>
    ensures text { IfOk result (λ b. b ≡ text_of s.now) }
    // What was written is read as the solution that was written.
    ensures spells { IfOk result (λ b. Spells b s.now) }
{
    let flips = lists_value(alloc, &s.lists)?;
    let value = object_value(alloc, s.uid.text(), flips)?;
    let text = value.to_vec(alloc)?;
    Bytes::of(alloc, &text)
}

fn object_value(alloc: Global, uid: &str, flips: Value) -> Result<Value, AllocError>
    ensures { IfOk result (λ v. view v ≡ object_data uid.now (view flips)) }
{
    json!(in alloc; {"content_type": "CGSHOP2026_Solution", "flips": flips, "instance_uid": uid, "meta": {}})
}

fn pair_value(alloc: Global, edge: &Edge) -> Result<Value, AllocError>
    ensures value { IfOk result (λ v. view v ≡ pair_data edge.now) }
    ensures edge { IfOk result (λ v. IsEdge edge.now) }
{
    json!(in alloc; [edge.low(), edge.high()])
}

fn round_value(alloc: Global, round: &EdgeSeq) -> Result<Value, AllocError>
    ensures value { IfOk result (λ v. view v ≡ round_data round.now) }
    ensures edges { IfOk result (λ v. All IsEdge round.now) }
{
    let mut items = Vec::new(alloc);
    for i in 0..round.len() {
        items.push(pair_value(alloc, round.at(i))?)?;
    }
    Ok(Value::Array(items))
}

fn rounds_value(alloc: Global, rounds: &Rounds) -> Result<Value, AllocError>
    ensures value { IfOk result (λ v. view v ≡ rounds_data rounds.now) }
    ensures edges { IfOk result (λ v. All (λ round. All IsEdge round) rounds.now) }
{
    let mut items = Vec::new(alloc);
    for i in 0..rounds.len() {
        items.push(round_value(alloc, rounds.at(i))?)?;
    }
    Ok(Value::Array(items))
}

fn lists_value(alloc: Global, lists: &RoundsList) -> Result<Value, AllocError>
    ensures value { IfOk result (λ v. view v ≡ lists_data lists.now) }
    ensures edges { IfOk result (λ v. All (λ rounds. All (λ round. All IsEdge round) rounds) lists.now) }
{
    let mut items = Vec::new(alloc);
    for i in 0..lists.len() {
        items.push(rounds_value(alloc, lists.at(i))?)?;
    }
    Ok(Value::Array(items))
}
