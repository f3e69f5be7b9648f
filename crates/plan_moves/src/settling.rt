// Settling: the first move that lowers the total, again and again.
ghost use Rattle.std.specs.Prelude.{◌≡◌, ◌≤◌, IfOk, OnErr};
ghost use Rattle.plan_law.specs.Plans.{plan_total, Settles};
ghost use Rattle.plan_moves.specs.Settlings.{IsOnTheWay};
ghost use Rattle.plan_moves.specs.Ways.{StepsOn};

use crate::lowering::{first_move, follow_in_turn};
use plan_core::{MoveList, Plan};
use std::alloc::{AllocError, Global};

// Makes the first move that lowers the total and adds it to those that were made. Answers whether there is such a move.
fn step(plan: &mut Plan, made: &mut MoveList) -> Result<bool, AllocError>
    ensures problem { plan.new.problem ≡ plan.old.problem }
    ensures ok { IfOk result (λ more. StepsOn plan.old.problem.points plan.old.plan made.old more plan.new.plan made.new) }
    ensures err { OnErr result (IsOnTheWay plan.old.problem.points plan.old.plan plan.new.plan) }
{
    match first_move(plan)? {
        Some(edges) => {
            plan.reserve(edges.len())?;
            follow_in_turn(plan, &edges);
            made.push(edges)?;
            Ok(true)
        }
        None => Ok(false),
    }
}

/// Makes the first move that lowers the total until none is left, and answers the moves made, in order. The moves of a plan are those that `Plan::moves` lists.
///
/// No move is tried on a copy of the plan (`first_move`). The total falls by each move, so there are at most as many moves as its first value.
pub fn settle(alloc: Global, plan: &mut Plan) -> Result<MoveList, AllocError>
    ensures problem { plan.new.problem ≡ plan.old.problem }
    ensures total { plan_total plan.new.plan ≤ plan_total plan.old.plan }
    ensures ok { IfOk result (λ made. Settles plan.old.problem.points plan.old.plan made plan.new.plan) }
    ensures err { OnErr result (IsOnTheWay plan.old.problem.points plan.old.plan plan.new.plan) }
{
    let mut made = MoveList::make(alloc);
    while step(plan, &mut made)? {}
    Ok(made)
}
