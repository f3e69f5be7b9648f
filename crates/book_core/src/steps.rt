// Making a move or a swap on a plan where that lowers its total.
ghost use Rattle.std.specs.Prelude.{◌≡◌, ◌≤◌, ◌<◌, [], ◌∷◌, length, Some, IfNone, IfSome, IfOk, IfErr, OnErr};
ghost use Rattle.plan_law.specs.Plans.{followed_all};
ghost use Rattle.plan_law.specs.Worlds.{StopsAt};
ghost use Rattle.book_core.specs.PlanSteps.{IsLowered, IsNoMove, IsNoSwap, IsSwappedIn};

use crate::Refusal;
use edge_table::{Edge, EdgeSeq, Rounds};
use plan_core::{Plan, SwapFault};

// Follows edges one after the other, up to the first that doesn't flip in its turn, and answers its place.
fn follow_until(plan: &mut Plan, edges: &EdgeSeq) -> Option<usize>
    requires { length edges.now ≤ plan.old.spare }
    ensures problem { plan.new.problem ≡ plan.old.problem }
    ensures none { IfNone result (followed_all plan.old.problem.points plan.old.plan edges.now ≡ Some plan.new.plan) }
    ensures some { IfSome result (StopsAt plan.old.problem.points plan.old.plan edges.now) }
{
    for i in 0..edges.len() {
        let e = *edges.at(i);
        if !plan.flips(e) {
            let _ = plan.total();
            return Some(i);
        }
        plan.follow(e);
    }
    None
}

// Follows one edge where that lowers the total, and answers by how much. It needs no copy of the plan.
fn make_move_of_one(plan: &mut Plan, e: Edge) -> Result<u128, Refusal>
    ensures problem { plan.new.problem ≡ plan.old.problem }
    ensures ok { IfOk result (λ saved. IsLowered plan.old.plan (followed_all plan.old.problem.points plan.old.plan (e ∷ [])) saved plan.new.plan) }
    ensures err { IfErr result (IsNoMove plan.old.problem.points plan.old.plan (e ∷ [])) }
    ensures kept { OnErr result (plan.new.plan ≡ plan.old.plan) }
{
    let held = plan.total();
    if !plan.flips(e) {
        return Err(Refusal::BadMove(0));
    }
    let given = plan.total_after(e);
    if held <= given {
        return Err(Refusal::NotBetter { held, given });
    }
    plan.reserve(1)?;
    plan.follow(e);
    Ok(held - given)
}

// Follows edges one after the other on a copy of the plan, and puts it in place where that lowers the total.
fn make_move_on_copy(plan: &mut Plan, edges: &EdgeSeq) -> Result<u128, Refusal>
    ensures problem { plan.new.problem ≡ plan.old.problem }
    ensures ok { IfOk result (λ saved. IsLowered plan.old.plan (followed_all plan.old.problem.points plan.old.plan edges.now) saved plan.new.plan) }
    ensures err { IfErr result (IsNoMove plan.old.problem.points plan.old.plan edges.now) }
    ensures kept { OnErr result (plan.new.plan ≡ plan.old.plan) }
{
    let held = plan.total();
    let mut copy = plan.copy()?;
    copy.reserve(edges.len())?;
    if let Some(place) = follow_until(&mut copy, edges) {
        return Err(Refusal::BadMove(place as u64));
    }
    let given = copy.total();
    if held <= given {
        return Err(Refusal::NotBetter { held, given });
    }
    *plan = copy;
    Ok(held - given)
}

// Makes a move where it lowers the total, and answers by how much.
pub(crate) fn make_move(plan: &mut Plan, edges: &EdgeSeq) -> Result<u128, Refusal>
    ensures problem { plan.new.problem ≡ plan.old.problem }
    ensures ok { IfOk result (λ saved. IsLowered plan.old.plan (followed_all plan.old.problem.points plan.old.plan edges.now) saved plan.new.plan) }
    ensures err { IfErr result (IsNoMove plan.old.problem.points plan.old.plan edges.now) }
    ensures kept { OnErr result (plan.new.plan ≡ plan.old.plan) }
{
    if edges.len() == 1 {
        make_move_of_one(plan, *edges.at(0))
    } else {
        make_move_on_copy(plan, edges)
    }
}

// Puts the flips of rounds in place of the list of an input where that lowers the total, and answers by how much.
pub(crate) fn make_swap(plan: &mut Plan, t: u32, rounds: &Rounds) -> Result<u128, Refusal>
    requires { t < length plan.old.problem.inputs }
    ensures problem { plan.new.problem ≡ plan.old.problem }
    ensures ok { IfOk result (λ saved. IsSwappedIn plan.old.problem plan.old.plan t rounds.now saved plan.new.plan) }
    ensures err { IfErr result (IsNoSwap plan.old.problem plan.old.plan t rounds.now) }
    ensures kept { OnErr result (plan.new.plan ≡ plan.old.plan) }
{
    let held = plan.total();
    match plan.swap(t, rounds) {
        Ok(saved) => Ok(plan.inst().weighed(t, saved)),
        Err(SwapFault::NotFewer { held: was, given }) => {
            match held.checked_add(plan.inst().weighed(t, given - was)) {
                Some(given) => Err(Refusal::NotBetter { held, given }),
                None => Err(Refusal::OutOfMemory),
            }
        }
        Err(SwapFault::OutOfMemory) => Err(Refusal::OutOfMemory),
        Err(fault) => Err(Refusal::BadSwap(fault)),
    }
}
