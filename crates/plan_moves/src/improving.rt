// Improvers, one after the other: those with even numbers walk, and those with odd numbers descend.
ghost use Rattle.std.specs.Prelude.{◌≡◌, ◌≤◌, ◌<◌, Some, length, OnOk, OnErr};
ghost use Rattle.plan_core.specs.declared.fault.SwapFault.TheVariants as swap_fault;
ghost use Rattle.plan_law.specs.Plans.{plan_total, followed_all, swapped};
ghost use Rattle.plan_law.specs.Improvers.{walk, descent};
ghost use Rattle.plan_law.specs.ImproverLaws.{IsBetter};
ghost use Rattle.plan_law.specs.Solving.{move_of, swap_of};
ghost use Rattle.plan_law.specs.Improving.{taken, improved_by, improved};
ghost use Rattle.plan_moves.specs.Improved.{words_of, CanFollow, IsPartlyImproved};

use crate::lowering::follow_in_turn;
use crate::{Descent, Walk, descend, walk_turn, walker};
use edge_table::{EdgeSeq, Rounds};
use plan_core::{Plan, SwapFault};
use std::alloc::{AllocError, Global};

// Follows edges that can be followed one after the other.
fn follow_all(plan: &mut Plan, edges: &EdgeSeq) -> Result<(), AllocError>
    requires { CanFollow plan.old.problem.points plan.old.plan edges.now }
    ensures problem { plan.new.problem ≡ plan.old.problem }
    ensures ok { OnOk result (followed_all plan.old.problem.points plan.old.plan edges.now ≡ Some plan.new.plan) }
    ensures err { OnErr result (plan.new.plan ≡ plan.old.plan) }
{
    plan.reserve(edges.len())?;
    follow_in_turn(plan, edges);
    Ok(())
}

// What is missing where the rounds of a better descent aren't put in place: they have no fault, so it is memory.
fn missing(fault: SwapFault) -> AllocError
    requires { fault ≡ swap_fault.OutOfMemory }
{
    match fault {
        SwapFault::OutOfMemory => AllocError,
        SwapFault::Round(_) | SwapFault::OtherEnd(_) | SwapFault::NotFewer { .. } => unreachable!(),
    }
}

// Puts the rounds of a better descent in place of the list of their input.
fn put_rounds(plan: &mut Plan, t: u32, rounds: &Rounds) -> Result<(), AllocError>
    requires input { t < length plan.old.problem.inputs }
    requires better { IsBetter plan.old.problem.points plan.old.problem.inputs plan.old.plan t rounds.now }
    ensures problem { plan.new.problem ≡ plan.old.problem }
    ensures ok { OnOk result (swapped plan.old.problem.points plan.old.problem.inputs plan.old.plan t rounds.now ≡ Some plan.new.plan) }
    ensures err { OnErr result (plan.new.plan ≡ plan.old.plan) }
{
    let _ = plan.total();
    match plan.swap(t, rounds) {
        Ok(_) => Ok(()),
        Err(fault) => Err(missing(fault)),
    }
}

// Takes the better answer of a walk, where there is one.
fn improve_by_walk(alloc: Global, plan: &mut Plan, p: u32, seed: u64) -> Result<(), AllocError>
    ensures problem { plan.new.problem ≡ plan.old.problem }
    ensures ok { OnOk result (plan.new.plan ≡ taken plan.old.problem.points plan.old.problem.inputs plan.old.plan (move_of p (walk plan.old.problem.points plan.old.plan (words_of seed p)))) }
    ensures err { OnErr result (plan.new.plan ≡ plan.old.plan) }
{
    let mut words = walker(seed, u64::from(p));
    match walk_turn(alloc, plan, &mut words)? {
        Walk::Better(edges) => follow_all(plan, &edges),
        Walk::NotBetter => Ok(()),
    }
}

// Takes the better answer of a descent, where there is one.
fn improve_by_descent(alloc: Global, plan: &mut Plan, p: u32, t: u32) -> Result<(), AllocError>
    requires { t < length plan.old.problem.inputs }
    ensures problem { plan.new.problem ≡ plan.old.problem }
    ensures ok { OnOk result (plan.new.plan ≡ taken plan.old.problem.points plan.old.problem.inputs plan.old.plan (swap_of p t (descent plan.old.problem.points plan.old.problem.inputs plan.old.plan t))) }
    ensures err { OnErr result (plan.new.plan ≡ plan.old.plan) }
{
    let _ = plan.total();
    match descend(alloc, plan, t)? {
        Descent::Better(rounds) => put_rounds(plan, t, &rounds),
        Descent::NotBetter { .. } | Descent::Stuck(_) => Ok(()),
    }
}

// Takes the better answer of an improver, where there is one.
fn improve_by(alloc: Global, plan: &mut Plan, p: u32, seed: u64) -> Result<(), AllocError>
    ensures problem { plan.new.problem ≡ plan.old.problem }
    ensures ok { OnOk result (plan.new.plan ≡ improved_by (words_of seed) plan.old.problem.points plan.old.problem.inputs p plan.old.plan) }
    ensures err { OnErr result (plan.new.plan ≡ plan.old.plan) }
{
    let _ = plan.total();
    if p % 2 == 0 {
        improve_by_walk(alloc, plan, p, seed)
    } else {
        let t = p / 2 % plan.inst().inputs();
        improve_by_descent(alloc, plan, p, t)
    }
}

/// Lets so many improvers work on a plan, one after the other, and takes each better answer. Improver p walks by the words of `walker(seed, p)` where p is even. Where p is odd it descends for the input p / 2 modulo the number of inputs. So the plan is a function of the one before, of the number of improvers, and of the seed.
///
/// It takes the time of the walks and descents, and the total falls by each better answer.
pub fn improve(alloc: Global, plan: &mut Plan, turns: u32, seed: u64) -> Result<(), AllocError>
    ensures problem { plan.new.problem ≡ plan.old.problem }
    ensures total { plan_total plan.new.plan ≤ plan_total plan.old.plan }
    ensures ok { OnOk result (plan.new.plan ≡ improved (words_of seed) plan.old.problem.points plan.old.problem.inputs turns 0 plan.old.plan) }
    ensures err { OnErr result (IsPartlyImproved (words_of seed) plan.old.problem.points plan.old.problem.inputs turns plan.old.plan plan.new.plan) }
{
    let _ = plan.total();
    for p in 0..turns {
        improve_by(alloc, plan, p, seed)?;
    }
    Ok(())
}
