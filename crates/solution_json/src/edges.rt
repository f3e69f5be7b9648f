// Edges from pairs of whole numbers.
ghost use Rattle.std.specs.Prelude.{◌≡◌, ◌+◌, IfOk, IfErr, IfSome, IsNone, length};
ghost use Rattle.std.specs.List.{AllZip, flat_map};
ghost use Rattle.solution_json.specs.Edges.{NamesEdge, IsEdgeOf, OnPair, IsMoved, pairs_within};
ghost use Rattle.solution_json.specs.Faults.{IsPairFault, OnPairs};
ghost use Rattle.solution_json.specs.declared.edges.PairFault.TheVariants as faults;

use crate::{SolForm, SolutionFault};
use edge_table::{Edge, EdgeSeq, Rounds, RoundsList};
use std::alloc::{AllocError, Global};
use tri_check::{PairList, RawInputs, RawPair};

/// Why pairs give no edges.
#[derive(Clone, Copy, Debug, PartialEq, Eq)]
pub enum PairFault {
    /// The first pair that names no edge has this place among all pairs, from 0.
    BadPair(u64),
    OutOfMemory,
}

impl From<AllocError> for PairFault {
    ghost from_gives = { λ _ e. e ≡ faults.OutOfMemory };

    fn from(_: AllocError) -> Self {
        PairFault::OutOfMemory
    }
}

fn edge_of(pair: &RawPair) -> Option<Edge>
    ensures none { IsNone result → ¬ NamesEdge pair.now }
    ensures edge { IfSome result (λ e. IsEdgeOf pair.now e) }
{
    let a = u32::try_from(pair.a).ok()?;
    let b = u32::try_from(pair.b).ok()?;
    Edge::of(a, b)
}

fn round_of(alloc: Global, pairs: &PairList) -> Result<EdgeSeq, PairFault>
    ensures ok { IfOk result (λ edges. AllZip IsEdgeOf pairs.now edges) }
    ensures fault { IfErr result (λ e. OnPair e pairs.now) }
{
    let mut edges = EdgeSeq::make(alloc);
    let mut place: u64 = 0;
    for i in 0..pairs.len() {
        match edge_of(pairs.at(i)) {
            Some(edge) => edges.push(edge)?,
            None => return Err(PairFault::BadPair(place)),
        }
        place += 1;
    }
    Ok(edges)
}

// The fault of a round that stands behind others with so many pairs.
fn moved(fault: PairFault, before: u64) -> PairFault
    ensures { IsMoved fault before result }
{
    match fault {
        PairFault::BadPair(place) => match before.checked_add(place) {
            Some(place) => PairFault::BadPair(place),
            // So many pairs fit no memory.
            None => PairFault::OutOfMemory,
        },
        PairFault::OutOfMemory => PairFault::OutOfMemory,
    }
}

fn rounds_of(alloc: Global, raw: &RawInputs) -> Result<Rounds, PairFault>
    ensures ok { IfOk result (λ rounds. AllZip (AllZip IsEdgeOf) raw.now rounds) }
    ensures fault { IfErr result (λ e. OnPair e (pairs_within raw.now)) }
{
    let mut rounds = Rounds::make(alloc);
    let mut place: u64 = 0;
    for i in 0..raw.len() {
        let pairs = raw.at(i);
        match round_of(alloc, pairs) {
            Ok(edges) => rounds.push(edges)?,
            Err(fault) => return Err(moved(fault, place)),
        }
        // More pairs than 64 bits can count fit no memory.
        let Some(next) = place.checked_add(pairs.len() as u64) else {
            return Err(PairFault::OutOfMemory);
        };
        place = next;
    }
    Ok(rounds)
}

/// How many pairs the lists have, unless 64 bits can't count them.
pub fn pair_count(raw: &RawInputs) -> Option<u64>
    ensures { IfSome result (λ n. n ≡ length (pairs_within raw.now)) }
{
    let mut count: u64 = 0;
    for i in 0..raw.len() {
        count = count.checked_add(raw.at(i).len() as u64)?;
    }
    Some(count)
}

// The place after so many pairs and then those of the lists, unless 64 bits can't count it.
fn pairs_after(place: u64, raw: &RawInputs) -> Option<u64>
    ensures { IfSome result (λ n. n ≡ place + length (pairs_within raw.now)) }
{
    place.checked_add(pair_count(raw)?)
}

// The fault of a list of rounds that stands behind others with so many pairs.
fn pair_fault(fault: PairFault, before: u64) -> SolutionFault
    ensures { IsPairFault fault before result }
{
    match moved(fault, before) {
        PairFault::BadPair(place) => match place.checked_mul(2) {
            Some(place) => SolutionFault::Form(SolForm::BadPair(place)),
            // So many numbers fit no memory.
            None => SolutionFault::OutOfMemory,
        },
        PairFault::OutOfMemory => SolutionFault::OutOfMemory,
    }
}

/// The lists of rounds of edges that the pairs name.
pub fn lists_of(alloc: Global, raws: &[RawInputs]) -> Result<RoundsList, SolutionFault>
    ensures ok { IfOk result (λ lists. AllZip (AllZip (AllZip IsEdgeOf)) raws.now lists) }
    ensures fault { IfErr result (λ e. OnPairs e (flat_map pairs_within raws.now)) }
{
    let mut lists = RoundsList::make(alloc);
    let mut place: u64 = 0;
    for raw in raws {
        match rounds_of(alloc, raw) {
            Ok(rounds) => lists.push(rounds)?,
            Err(fault) => return Err(pair_fault(fault, place)),
        }
        // More pairs than 64 bits can count fit no memory.
        let Some(next) = pairs_after(place, raw) else {
            return Err(SolutionFault::OutOfMemory);
        };
        place = next;
    }
    Ok(lists)
}
