// The verifier.
ghost use Rattle.std.specs.Prelude.{◌≡◌, ◌≤◌, List, length, IfOk, IfErr, OnOk};
ghost use Rattle.edge_table.specs.declared.edge.Edge.{Edge};
ghost use Rattle.tri_theory.specs.Rounds.{IsPlan, total};
ghost use Rattle.replay.specs.Scores.{AreAllDistinct};
ghost use Rattle.cert_text.specs.Certs.{IsWritable};
ghost use Rattle.verify_core.specs.Faults.{IsShown, OnNo, AreNamed, IsNameFault, IsPlanFault};

use crate::bound::bound_of;
use crate::perm::first_wrong;
use crate::row::check_rows;
use crate::{No, VerifyFault};
use cert_text::Cert;
use flip_cnf::Frame;
use replay::{ScoreFault, Scored, score};
use solution_json::Solution;
use std::alloc::Global;
use tri_check::Instance;

/// What a certificate shows: the total of the solution, and a bound that no plan's total is below.
#[derive(Clone, Copy, Debug, PartialEq, Eq)]
pub struct Yes {
    pub total: u128,
    pub bound: u64,
}

// Whether the solution and the certificate are of this instance.
fn check_names(inst: &Instance, s: &Solution, c: &Cert) -> Result<(), No>
    ensures ok { OnOk result (AreNamed inst.now s.now c.now) }
    ensures err { IfErr result (IsNameFault inst.now s.now c.now) }
{
    if !s.uid.same(inst.uid()) {
        return Err(No::UidSolution);
    }
    if !c.uid.same(inst.uid()) {
        return Err(No::UidCertificate);
    }
    let is = u64::from(inst.inputs());
    let said = s.lists.len() as u64;
    if said != is {
        return Err(No::InputCount { said, is });
    }
    let said = u64::from(c.inputs);
    if said != is {
        return Err(No::InputCount { said, is });
    }
    let said = u64::from(c.copies);
    let is = u64::from(inst.copies());
    if said != is {
        return Err(No::CopyCount { said, is });
    }
    Ok(())
}

// The score of the solution's lists.
fn scored(alloc: Global, inst: &Instance, s: &Solution) -> Result<Scored, VerifyFault>
    requires { length s.now.lists ≡ length inst.now.inputs }
    ensures plan { IfOk result (λ scored. IsPlan inst.now.points inst.now.inputs scored.centre.edges s.now.lists) }
    ensures total { IfOk result (λ scored. scored.total ≡ total inst.now.weights s.now.lists) }
    ensures distinct { IfOk result (λ _. AreAllDistinct s.now.lists) }
    ensures err { IfErr result (IsPlanFault inst.now s.now) }
{
    match score(alloc, inst, &s.lists) {
        Ok(scored) => Ok(scored),
        Err(ScoreFault::InputCount { .. }) => unreachable!(),
        Err(ScoreFault::Round(t, fault)) => Err(VerifyFault::No(No::Round(t, fault))),
        Err(ScoreFault::NoCommonCentre(t)) => Err(VerifyFault::No(No::NoCommonCentre(t))),
        Err(ScoreFault::OutOfMemory) => Err(VerifyFault::OutOfMemory),
    }
}

/// Whether the certificate shows the total of the solution and its bound, or the first fault. Its logs are those of the formula of its version: the whole one for version 1, and else the pruned one.
pub fn verify(alloc: Global, inst: &Instance, s: &Solution, c: &Cert) -> Result<Yes, VerifyFault>
    requires writable { IsWritable c.now }
    ensures total { IfOk result (λ yes. yes.total ≡ total inst.now.weights s.now.lists) }
    ensures said { IfOk result (λ yes. yes.total ≡ c.now.total) }
    ensures bound { IfOk result (λ yes. yes.bound ≡ c.now.bound) }
    ensures shown { IfOk result (λ _. IsShown inst.now s.now c.now) }
    ensures no { IfErr result (OnNo inst.now s.now c.now) }
    ensures least { IfOk result (λ yes. (centre : List Edge) (schedules : List (List (List Edge))) → IsPlan inst.now.points inst.now.inputs centre schedules → yes.bound ≤ total inst.now.weights schedules) }
{
    let _ = inst.count();
    let frame = Frame::of(alloc, inst)?;
    match check_names(inst, s, c) {
        Ok(()) => {}
        Err(fault) => return Err(VerifyFault::No(fault)),
    }
    let is = scored(alloc, inst, s)?.total;
    if c.total != is {
        return Err(VerifyFault::No(No::TotalWrong { said: c.total, is }));
    }
    check_rows(alloc, c.version, inst, &frame, &c.rows)?;
    if let Some(p) = first_wrong(&c.perm, inst.copies()) {
        return Err(VerifyFault::No(No::NotPermutation(p)));
    }
    let is = bound_of(inst, &c.rows, &c.perm);
    if c.bound != is {
        return Err(VerifyFault::No(No::BoundWrong { said: c.bound, is }));
    }
    Ok(Yes {
        total: c.total,
        bound: c.bound,
    })
}
