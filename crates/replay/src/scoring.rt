// The score of the rounds of all inputs of an instance.
ghost use Rattle.std.specs.Prelude.{◌≡◌, ◌<◌, length, IfOk, IfErr};
ghost use Rattle.tri_theory.specs.Rounds.{IsPlan, total};
ghost use Rattle.replay.specs.Scores.{LeadsTo, AllLead, AreAllDistinct, IsScoreFault};
ghost use Rattle.replay.specs.Ends.{IsEndFault, IsCentre, IsApart, IsNextApart};

use crate::{ReplayFault, ScoreFault, replay};
use edge_table::{Rounds, RoundsList};
use std::alloc::Global;
use tri_check::{Instance, Triang};

/// The rounds of all inputs, each counted as often as the weight of its input says and an empty one like any other, and the triangulation in which all of them end.
#[derive(Drop)]
pub struct Scored {
    pub total: u128,
    pub centre: Triang,
}

// The number of rounds, empty ones among them.
fn cost(rounds: &Rounds) -> u64
    ensures { result ≡ length rounds.now }
{
    rounds.len() as u64
}

/// The rounds of all lists, empty ones among them, each counted as often as the weight of its input says.
pub fn total(inst: &Instance, lists: &RoundsList) -> u128
    requires { length lists.now ≡ length inst.now.inputs }
    ensures { result ≡ total inst.now.weights lists.now }
{
    let mut sum: u128 = 0;
    for t in 0..inst.inputs() {
        sum += inst.weighed(t, cost(lists.at(t as usize)));
    }
    sum
}

// Where the rounds of an input end.
fn end_of(alloc: Global, inst: &Instance, lists: &RoundsList, t: u32) -> Result<Triang, ScoreFault>
    requires input { t < length inst.now.inputs }
    requires list { t < length lists.now }
    ensures points { IfOk result (λ end. end.points ≡ inst.now.points) }
    ensures ok { IfOk result (λ end. LeadsTo inst.now.points inst.now.inputs lists.now t end.edges) }
    ensures err { IfErr result (IsEndFault inst.now.points inst.now.inputs lists.now t) }
{
    match replay(alloc, inst.input(t), lists.at(t as usize)) {
        Ok(end) => Ok(end),
        Err(ReplayFault::Round(fault)) => Err(ScoreFault::Round(t, fault)),
        Err(ReplayFault::OutOfMemory) => Err(ScoreFault::OutOfMemory),
    }
}

// The first input whose end isn't the centre, with one more input tried.
fn next_apart(apart: Option<u32>, t: u32, end: &Triang, centre: &Triang) -> Option<u32>
    requires { end.now.points ≡ centre.now.points }
    ensures { IsNextApart apart t end.now.edges centre.now.edges result }
{
    match apart {
        Some(s) => Some(s),
        None => { if end.same(centre) { None } else { Some(t) } }
    }
}

// The first input whose rounds don't end in the centre, once all rounds are replayed.
fn first_apart(
    alloc: Global,
    inst: &Instance,
    lists: &RoundsList,
    centre: &Triang,
) -> Result<Option<u32>, ScoreFault>
    requires number { length lists.now ≡ length inst.now.inputs }
    requires points { centre.now.points ≡ inst.now.points }
    requires first { LeadsTo inst.now.points inst.now.inputs lists.now 0 centre.now.edges }
    ensures lead { IfOk result (λ _. AllLead inst.now.points inst.now.inputs lists.now (length inst.now.inputs)) }
    ensures apart { IfOk result (IsApart inst.now.points inst.now.inputs lists.now (length inst.now.inputs) centre.now.edges) }
    ensures err { IfErr result (IsScoreFault inst.now.points inst.now.inputs lists.now) }
{
    let mut apart: Option<u32> = None;
    for t in 1..inst.inputs() {
        let end = end_of(alloc, inst, lists, t)?;
        apart = next_apart(apart, t, &end, centre);
    }
    Ok(apart)
}

// The common end of the rounds of all inputs.
fn centre_of(alloc: Global, inst: &Instance, lists: &RoundsList) -> Result<Triang, ScoreFault>
    requires { length lists.now ≡ length inst.now.inputs }
    ensures points { IfOk result (λ centre. centre.points ≡ inst.now.points) }
    ensures ok { IfOk result (λ centre. IsCentre inst.now.points inst.now.inputs lists.now centre.edges) }
    ensures err { IfErr result (IsScoreFault inst.now.points inst.now.inputs lists.now) }
{
    let _ = inst.count();
    let centre = end_of(alloc, inst, lists, 0)?;
    match first_apart(alloc, inst, lists, &centre)? {
        Some(t) => Err(ScoreFault::NoCommonCentre(t)),
        None => Ok(centre),
    }
}

/// The score of one list of rounds for each input, or the first fault. Takes the time of a replay of each list.
pub fn score(alloc: Global, inst: &Instance, lists: &RoundsList) -> Result<Scored, ScoreFault>
    ensures total { IfOk result (λ scored. scored.total ≡ total inst.now.weights lists.now) }
    ensures points { IfOk result (λ scored. scored.centre.points ≡ inst.now.points) }
    ensures plan { IfOk result (λ scored. IsPlan inst.now.points inst.now.inputs scored.centre.edges lists.now) }
    ensures distinct { IfOk result (λ _. AreAllDistinct lists.now) }
    ensures err { IfErr result (IsScoreFault inst.now.points inst.now.inputs lists.now) }
{
    let said = lists.len() as u64;
    let is = u64::from(inst.inputs());
    if said != is {
        return Err(ScoreFault::InputCount { said, is });
    }
    let centre = centre_of(alloc, inst, lists)?;
    Ok(Scored {
        total: total(inst, lists),
        centre,
    })
}
