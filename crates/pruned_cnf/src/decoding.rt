// The rounds that a model of a pruned formula tells.
ghost use Rattle.std.specs.Prelude.{◌≡◌, ◌+◌, ◌*◌, ◌<◌, ◌≤◌, length, filter, IfOk, OnOk};
ghost use Rattle.log_law.specs.Clauses.{listed};
ghost use Rattle.formula_law.specs.PrunedFormula.{live_round_of};
ghost use Rattle.pruned_cnf.specs.Queries.{live_in, rounds_in};
ghost use Rattle.pruned_cnf.specs.Numbered.{count_of_places, flips_before};

use crate::Query;
use edge_table::{EdgeSeq, Rounds};
use rup_check::Truth;
use std::alloc::{AllocError, Global};

// How many segments can be there after `t` rounds.
fn count_layer(query: &Query, t: u32) -> u64
    ensures count { result ≡ length (filter (live_in query.now t) query.now.frame.segments) }
    ensures few { result ≤ 4096 }
{
    let mut live: u64 = 0;
    for n in 0..query.lists().segments() {
        if query.is_live(t, n) {
            live += 1;
        }
    }
    live
}

// How many places are live.
fn count_places(query: &Query) -> u64
    ensures count { result ≡ count_of_places query.now }
    ensures few { result ≤ (query.now.rounds + 1) * 4096 }
{
    let mut live: u64 = 0;
    for t in 0..=query.rounds() {
        live += count_layer(query, t);
    }
    live
}

// Whether the variable is on.
fn is_on(truth: &Truth, variable: u64) -> bool
    requires { 0 < variable }
    ensures { result ≡ listed truth.now variable }
{
    let i = (variable - 1) as usize;
    if i >= truth.len() {
        return false;
    }
    *truth.at(i)
}

// The edges that flip in round `t`. `last` is the number of the last variable before those of the round, and afterwards the last one of the round.
fn read_round(
    alloc: Global,
    query: &Query,
    truth: &Truth,
    t: u32,
    last: &mut u64,
) -> Result<EdgeSeq, AllocError>
    requires round { t < query.now.rounds }
    requires few { count_of_places query.now ≤ (query.now.rounds + 1) * 4096 }
    requires last { last.old ≡ flips_before query.now t }
    ensures edges { IfOk result (λ edges. edges ≡ live_round_of query.now.frame (live_in query.now) (listed truth.now) query.now.rounds t) }
    ensures last { OnOk result (last.new ≡ flips_before query.now (t + 1)) }
{
    let lists = query.lists();
    let mut edges = EdgeSeq::make(alloc);
    for n in 0..lists.flips() {
        if query.is_live_flip(t, n) {
            *last += 1;
            if is_on(truth, *last) {
                edges.push(lists.segment(lists.flip(n).0))?;
            }
        }
    }
    Ok(edges)
}

/// The edges that flip in each of the rounds, by an assignment of the pruned formula's variables: variables that it doesn't have are off. No formula is built; the time is that of looking at each flip in each round.
pub fn decode(alloc: Global, query: &Query, truth: &Truth) -> Result<Rounds, AllocError>
    ensures { IfOk result (λ rounds. rounds ≡ rounds_in query.now (listed truth.now)) }
{
    let mut last = count_places(query);
    let mut rounds = Rounds::make(alloc);
    for t in 0..query.rounds() {
        let edges = read_round(alloc, query, truth, t, &mut last)?;
        rounds.push(edges)?;
    }
    Ok(rounds)
}
