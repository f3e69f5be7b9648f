// What a turn works out on a plan and a table of lower bounds, without a book.
ghost use Rattle.std.specs.Prelude.{◌≡◌, ◌<◌, length, sum, IfOk};
ghost use Rattle.assignment_law.specs.Assignments.{IsAssignment, HasGreatestSum};
ghost use Rattle.match_bound.specs.Tables.{weight};
ghost use Rattle.plan_law.specs.Solving.{turns_of};
ghost use Rattle.flip_cnf.specs.HeldFrames.{IsHeldFrame};
ghost use Rattle.worker_pool.specs.Jobs.{AreLimits, MayBeJob, job_of, order_of};
ghost use Rattle.worker_pool.specs.Outcomes.{job_at};
ghost use Rattle.worker_pool.specs.Works.{IsWork, ground_for};

use crate::{Job, Limits, Outcome, job};
use book_core::Entry;
use flip_cnf::Frame;
use match_bound::{Perm, Weights, best_assignment};
use pair_rows::prove_pair;
use plan_core::Plan;
use plan_moves::{Descent, Walk, descend, walk_turn, walker};
use std::alloc::{AllocError, Global};

// What a turn offers, or how it ends without an offer.
#[derive(Debug, Drop)]
pub(crate) enum Work {
    Offers(Entry),
    Ends(Outcome),
}

// The job of a turn on a plan.
fn job_on(limits: &Limits, plan: &Plan, u: u64) -> Job
    requires limits { AreLimits limits.now }
    requires turn { u < turns_of (order_of limits.now) plan.now.problem.inputs }
    ensures job { job_at limits.now (ground_for plan.now.problem plan.now.plan) u ≡ job_of result }
    ensures fits { MayBeJob (length plan.now.problem.inputs) result }
{
    let inst = plan.inst();
    let _ = inst.count();
    job(limits, inst.inputs(), u)
}

// An assignment of the copies that is best under a table of their lower bounds.
pub(crate) fn best_of(alloc: Global, plan: &Plan, weights: &Weights) -> Result<Perm, AllocError>
    requires table { length weights.now ≡ sum plan.now.plan.weights }
    ensures assigns { IfOk result (IsAssignment (sum plan.now.problem.weights)) }
    ensures best { IfOk result (HasGreatestSum (weight weights.now) (length weights.now)) }
{
    let _ = plan.total();
    Ok(best_assignment(alloc, weights)?.perm)
}

// What a job comes to on a plan, of which the journal has `front` moves and swaps.
fn do_job(
    alloc: Global,
    plan: &Plan,
    weights: &Weights,
    front: u64,
    frame: &Frame,
    limits: &Limits,
    u: u64,
    job: Job,
) -> Result<Work, AllocError>
    requires limits { AreLimits limits.now }
    requires frame { IsHeldFrame plan.now.problem.points frame.now }
    requires table { length weights.now ≡ sum plan.now.plan.weights }
    requires job { job_at limits.now (ground_for plan.now.problem plan.now.plan) u ≡ job_of job }
    requires fits { MayBeJob (length plan.now.problem.inputs) job }
    ensures { IfOk result (IsWork limits.now frame.now u plan.now.problem plan.now.plan weights.now front) }
{
    let inst = plan.inst();
    match job {
        Job::Walk(p) => {
            let mut words = walker(limits.seed, p);
            match walk_turn(alloc, plan, &mut words)? {
                Walk::Better(edges) => Ok(Work::Offers(Entry::Move { turn: u, edges })),
                Walk::NotBetter => Ok(Work::Ends(Outcome::NotBetter { base: front })),
            }
        }
        Job::Descend(_, t) => match descend(alloc, plan, t)? {
            Descent::Better(rounds) => Ok(Work::Offers(Entry::Swap {
                turn: u,
                input: t,
                rounds,
            })),
            Descent::NotBetter { .. } => Ok(Work::Ends(Outcome::NotBetter { base: front })),
            Descent::Stuck(round) => Ok(Work::Ends(Outcome::Stuck { base: front, round })),
        },
        Job::Row(i, j) => {
            let row = prove_pair(alloc, inst, frame, i, j, limits.budget)?;
            Ok(Work::Offers(Entry::Row { turn: u, row }))
        }
        Job::Pack => {
            let perm = best_of(alloc, plan, weights)?;
            Ok(Work::Offers(Entry::Pack { turn: u, perm }))
        }
    }
}

// What the turn `u` comes to on a plan with a table of lower bounds, where the journal has `front` moves and swaps. A walk or a descent ends without an offer where it finds no better plan.
pub(crate) fn work_on(
    alloc: Global,
    plan: &Plan,
    weights: &Weights,
    front: u64,
    frame: &Frame,
    limits: &Limits,
    u: u64,
) -> Result<Work, AllocError>
    requires limits { AreLimits limits.now }
    requires frame { IsHeldFrame plan.now.problem.points frame.now }
    requires table { length weights.now ≡ sum plan.now.plan.weights }
    requires turn { u < turns_of (order_of limits.now) plan.now.problem.inputs }
    ensures { IfOk result (IsWork limits.now frame.now u plan.now.problem plan.now.plan weights.now front) }
{
    let job = job_on(limits, plan, u);
    do_job(alloc, plan, weights, front, frame, limits, u, job)
}
