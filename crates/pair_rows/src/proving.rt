// The row of two inputs: from the bound by crossings up, refuting the pruned formula of one number of rounds after the other.
ghost use Rattle.std.specs.Prelude.{◌≡◌, ◌<◌, ◌≤◌, length, IfOk};
ghost use Rattle.bound_law.specs.Bounds.{input_at};
ghost use Rattle.flip_cnf.specs.HeldFrames.{IsHeldFrame};
ghost use Rattle.pair_rows.specs.Rows.{IsEarned, IsFromCrossBound, IsTrue, MetIsExact, MetAscends};
ghost use Rattle.pair_rows.specs.Tries.{IsTried, IsBound, IsClimbed};
ghost use Rattle.pair_rows.specs.Versions.{Pruned};

use crate::{End, Evidence, Row};
use cross_bound::{CrossBound, cross_bound};
use edge_table::Rounds;
use flip_cnf::{BuildFault, Frame};
use rup_check::Log;
use sat_search::{Answer, solve};
use std::alloc::{AllocError, Global};
use tri_check::Instance;

// What a try of a number of rounds came to: a log that refutes it, or why there is no higher bound.
#[derive(Debug, Drop)]
enum Tried {
    Refuted(Log),
    Ended(End),
}

// Tries whether the inputs lie within `k` rounds.
fn try_rounds(
    alloc: Global,
    inst: &Instance,
    frame: &Frame,
    i: u32,
    j: u32,
    k: u32,
    budget: u64,
) -> Result<Tried, AllocError>
    requires frame { IsHeldFrame inst.now.points frame.now }
    requires from { i < length inst.now.inputs }
    requires to { j < length inst.now.inputs }
    requires rounds { k ≤ 400_000 }
    requires budget { budget ≤ 1_000_000 }
    ensures { IfOk result (IsTried inst.now.points frame.now (input_at inst.now.inputs i) (input_at inst.now.inputs j) budget k) }
{
    let cnf = match frame.build2(inst, i, j, k) {
        Ok(cnf) => cnf,
        Err(BuildFault::ManyPoints(n)) => return Ok(Tried::Ended(End::ManyPoints(n))),
        Err(BuildFault::TooLarge(clauses)) => {
            return Ok(Tried::Ended(End::TooLarge { k, clauses }));
        }
        Err(BuildFault::OutOfMemory) => return Err(AllocError),
    };
    match solve(alloc, &cnf, budget)? {
        Answer::Sat(truth) => Ok(Tried::Ended(End::Met(frame.decode2(inst, i, j, k, &truth)?))),
        Answer::Refuted(log) => Ok(Tried::Refuted(log)),
        Answer::Spent(log) => Ok(Tried::Ended(End::Spent { k, log })),
    }
}

// A lower bound, in rounds, with what shows it.
#[derive(Debug, Drop)]
struct Bound {
    lower: u32,
    evidence: Evidence,
}

// Raises a lower bound until a try ends it.
fn climb(
    alloc: Global,
    inst: &Instance,
    frame: &Frame,
    i: u32,
    j: u32,
    budget: u64,
    from: Bound,
) -> Result<Row, AllocError>
    requires frame { IsHeldFrame inst.now.points frame.now }
    requires first { i < length inst.now.inputs }
    requires second { j < length inst.now.inputs }
    requires budget { budget ≤ 1_000_000 }
    requires rounds { from.lower ≤ 400_000 }
    requires bound { IsBound inst.now.points frame.now (input_at inst.now.inputs i) (input_at inst.now.inputs j) budget from.lower from.evidence }
    ensures { IfOk result (IsClimbed inst.now.points inst.now.inputs frame.now budget i j) }
{
    let _ = inst.count();
    let mut bound = from;
    loop {
        let k = bound.lower;
        match try_rounds(alloc, inst, frame, i, j, k, budget)? {
            Tried::Refuted(log) => {
                bound = Bound {
                    lower: k + 1,
                    evidence: Evidence::Refuted { k, log },
                };
            }
            Tried::Ended(end) => return Ok(Row {
                i,
                j,
                lower: k,
                evidence: bound.evidence,
                end,
            }),
        }
    }
}

/// The row of two inputs. Equal inputs have the lower bound 0. Others begin at the bound by crossings, which is raised by 1 with each pruned formula that is refuted, until rounds are found, a search costs more than the budget, or there is no formula.
///
/// The budget is of literals and hints of one log, with 3 for each of its lines. The time is that of the bound, of the formulas that are built, and of their searches.
pub fn prove_pair(
    alloc: Global,
    inst: &Instance,
    frame: &Frame,
    i: u32,
    j: u32,
    budget: u64,
) -> Result<Row, AllocError>
    requires frame { IsHeldFrame inst.now.points frame.now }
    requires order { i < j }
    requires within { j < length inst.now.inputs }
    requires budget { budget ≤ 1_000_000 }
    ensures first { IfOk result (λ row. row.i ≡ i) }
    ensures second { IfOk result (λ row. row.j ≡ j) }
    ensures earned { IfOk result (IsEarned Pruned inst.now.points inst.now.inputs frame.now budget) }
    ensures begins { IfOk result (IsFromCrossBound inst.now.points inst.now.inputs) }
    ensures is_true { IfOk result (IsTrue inst.now.points inst.now.inputs) }
    ensures exact { IfOk result (MetIsExact inst.now.points inst.now.inputs) }
    ensures ascends { IfOk result (λ row. MetAscends row.end) }
{
    let _ = inst.count();
    match cross_bound(alloc, inst.input(i), inst.input(j))? {
        CrossBound::Same => Ok(Row {
            i,
            j,
            lower: 0,
            evidence: Evidence::Nothing,
            end: End::Met(Rounds::make(alloc)),
        }),
        CrossBound::Crossed {
            from,
            edge,
            count,
            lower,
        } => {
            let evidence = Evidence::Crosses { from, edge, count };
            climb(alloc, inst, frame, i, j, budget, Bound { lower, evidence })
        }
    }
}
