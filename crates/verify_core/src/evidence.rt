// The evidence of a row's lower bound.
ghost use Rattle.std.specs.Prelude.{◌≡◌, ◌↔◌, ◌<◌, ◌≤◌, length, Contains, IsTrue, IfOk, IfErr, OnOk};
ghost use Rattle.tri_theory.specs.Triangulations.{IsSegment};
ghost use Rattle.tri_theory.specs.Crossings.{crossings};
ghost use Rattle.crossing_law.specs.Digits.{digits};
ghost use Rattle.bound_law.specs.Bounds.{input_at};
ghost use Rattle.log_law.specs.Logs.{Refutes};
ghost use Rattle.flip_cnf.specs.HeldFrames.{IsHeldFrame};
ghost use Rattle.pair_rows.specs.declared.row.Evidence.TheVariants as evidence;
ghost use Rattle.verify_core.specs.RowFaults.{OnWhy, OfFormula, IsSound, IsEvidenceFault, IsLowerFault, lower_by, named};

use crate::RowWhy;
use crate::fault::RowFault;
use crate::formula::formula_of;
use crate::input::input_of;
use cross_bound::{Side, crossings};
use edge_table::Edge;
use flip_cnf::Frame;
use flip_mesh::Mesh;
use pair_rows::Evidence;
use rup_check::{CheckLogFault, Log, check};
use std::alloc::{AllocError, Global};
use tri_check::{Instance, Triang};

// The input that is named, of two. With the two exchanged it is the other one.
fn named(inst: &Instance, i: u32, j: u32, from: Side) -> &Triang
    requires first { i < length inst.now.inputs }
    requires second { j < length inst.now.inputs }
    ensures points { result.now.points ≡ inst.now.points }
    ensures edges { result.now.edges ≡ named from (input_at inst.now.inputs i) (input_at inst.now.inputs j) }
{
    match from {
        Side::First => input_of(inst, i),
        Side::Second => input_of(inst, j),
    }
}

// How many members of a triangulation cross a segment.
fn count(alloc: Global, t: &Triang, edge: Edge) -> Result<u32, AllocError>
    requires { IsSegment t.now.points edge }
    ensures { IfOk result (λ n. n ≡ crossings t.now.points t.now.edges edge) }
{
    let _ = t.len();
    let mesh = Mesh::of(alloc, t)?;
    Ok(crossings(&mesh, edge))
}

// How many members of the one cross a member of the other.
fn count_others(alloc: Global, own: &Triang, other: &Triang, edge: Edge) -> Result<u32, AllocError>
    requires points { own.now.points ≡ other.now.points }
    requires there { Contains own.now.edges edge }
    ensures { IfOk result (λ n. n ≡ crossings other.now.points other.now.edges edge) }
{
    let _ = own.len();
    count(alloc, other, edge)
}

fn check_crosses(
    alloc: Global,
    version: u32,
    inst: &Instance,
    frame: &Frame,
    i: u32,
    j: u32,
    from: Side,
    edge: Edge,
    said: u32,
) -> Result<(), RowFault>
    requires first { i < length inst.now.inputs }
    requires second { j < length inst.now.inputs }
    ensures ok { OnOk result (IsSound version inst.now.points frame.now (input_at inst.now.inputs i) (input_at inst.now.inputs j) (evidence.Crosses from edge said)) }
    ensures err { IfErr result (OnWhy (IsEvidenceFault version inst.now.points frame.now (input_at inst.now.inputs i) (input_at inst.now.inputs j) (evidence.Crosses from edge said))) }
{
    let own = named(inst, i, j, from);
    if !own.has(edge) {
        return Err(RowFault::Why(RowWhy::EdgeNotThere(edge)));
    }
    let is = count_others(alloc, own, named(inst, j, i, from), edge)?;
    if said != is {
        return Err(RowFault::Why(RowWhy::CountWrong { said, is }));
    }
    Ok(())
}

fn check_refuted(
    alloc: Global,
    version: u32,
    inst: &Instance,
    frame: &Frame,
    i: u32,
    j: u32,
    k: u32,
    log: &Log,
) -> Result<(), RowFault>
    requires frame { IsHeldFrame inst.now.points frame.now }
    requires first { i < length inst.now.inputs }
    requires second { j < length inst.now.inputs }
    ensures ok { OnOk result (OfFormula version inst.now.points frame.now (input_at inst.now.inputs i) (input_at inst.now.inputs j) k (λ built. Refutes built log.now)) }
    ensures err { IfErr result (OnWhy (IsEvidenceFault version inst.now.points frame.now (input_at inst.now.inputs i) (input_at inst.now.inputs j) (evidence.Refuted k log.now))) }
{
    match formula_of(version, inst, frame, i, j, k)? {
        None => Err(RowFault::Why(RowWhy::NoCnf)),
        Some(cnf) => match check(alloc, &cnf, log) {
            Ok(()) => Ok(()),
            Err(CheckLogFault::Log(fault)) => Err(RowFault::Why(RowWhy::Log(fault))),
            Err(CheckLogFault::OutOfMemory) => Err(RowFault::OutOfMemory),
        },
    }
}

/// Whether the evidence is what it says.
pub fn check_evidence(
    alloc: Global,
    version: u32,
    inst: &Instance,
    frame: &Frame,
    i: u32,
    j: u32,
    evidence: &Evidence,
) -> Result<(), RowFault>
    requires frame { IsHeldFrame inst.now.points frame.now }
    requires first { i < length inst.now.inputs }
    requires second { j < length inst.now.inputs }
    ensures ok { OnOk result (IsSound version inst.now.points frame.now (input_at inst.now.inputs i) (input_at inst.now.inputs j) evidence.now) }
    ensures err { IfErr result (OnWhy (IsEvidenceFault version inst.now.points frame.now (input_at inst.now.inputs i) (input_at inst.now.inputs j) evidence.now)) }
{
    match evidence {
        Evidence::Nothing => Ok(()),
        Evidence::Crosses { from, edge, count } => check_crosses(
            alloc, version, inst, frame, i, j, *from, *edge, *count,
        ),
        Evidence::Refuted { k, log } => check_refuted(alloc, version, inst, frame, i, j, *k, log),
    }
}

// How many binary digits a number has, and of 0 none.
fn digits(n: u32) -> u32
    ensures { result ≡ digits n }
{
    let mut rest = n;
    let mut digits: u32 = 0;
    while rest > 0 {
        rest /= 2;
        digits += 1;
    }
    digits
}

// The lower bound that an evidence gives.
fn lower_by(evidence: &Evidence) -> u32
    requires { lower_by evidence.now ≤ 400_001 }
    ensures { result ≡ lower_by evidence.now }
{
    match evidence {
        Evidence::Nothing => 0,
        Evidence::Crosses { count, .. } => digits(*count),
        Evidence::Refuted { k, .. } => *k + 1,
    }
}

/// Whether the lower bound is the one that the evidence gives.
pub fn check_lower(lower: u32, evidence: &Evidence) -> Result<(), RowFault>
    requires { lower_by evidence.now ≤ 400_001 }
    ensures ok { OnOk result (lower ≡ lower_by evidence.now) }
    ensures err { IfErr result (OnWhy (IsLowerFault lower evidence.now)) }
{
    let is = lower_by(evidence);
    if lower != is {
        return Err(RowFault::Why(RowWhy::LowerWrong { said: lower, is }));
    }
    Ok(())
}
