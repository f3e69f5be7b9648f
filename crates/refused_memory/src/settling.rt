// A plan that is settled.
use crate::octagon::{HEAVY, opened};
use crate::trial::{Trial, unless_broken};
use plan_core::Plan;
use plan_moves::{first_move, settle};
use std::alloc::{AllocError, Global};

// No move lowers the total, which is this one.
fn is_settled(plan: &Plan, total: u128) -> Result<bool, AllocError> {
    Ok(first_move(plan)?.is_none() && plan.total() == total)
}

// Settles the plan, and where that is refused memory the total is no higher, and again. Then it is settled with this total.
fn settle_twice(alloc: Global, plan: &mut Plan, total: u128) -> Result<Trial, AllocError> {
    let before = plan.total();
    if settle(alloc, plan).is_ok() {
        return Ok(unless_broken(is_settled(plan, total)?, Trial::Answered));
    }
    let no_higher = plan.total() <= before;
    let done = settle(alloc, plan).is_ok();
    let settled = is_settled(plan, total)?;
    Ok(unless_broken(no_higher && done && settled, Trial::Kept))
}

// The heavy octagon is settled by five moves.
pub(crate) fn try_settle(alloc: Global) -> Result<Trial, AllocError> {
    let book = opened(alloc, HEAVY)?;
    let mut plan = book.plan().copy()?;
    settle_twice(alloc, &mut plan, 5)
}
