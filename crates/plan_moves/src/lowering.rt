// Which moves lower the total of a plan.
ghost use Rattle.std.specs.Prelude.{◌≡◌, ◌≤◌, ◌↔◌, ◌∷◌, [], length, find, IsTrue, IfOk};
ghost use Rattle.plan_law.specs.Plans.{lowers, first_lowering};
ghost use Rattle.plan_moves.specs.Singles.{HasLeastSingle, ComesFirst, IsLesser, IsAlone};
ghost use Rattle.plan_moves.specs.Ways.{Follows};

use edge_table::{Edge, EdgeSeq};
use plan_core::{MoveList, Plan};
use std::alloc::AllocError;

// Follows edges one after the other, up to the first that doesn't flip in its turn. Answers whether there is none such.
pub(crate) fn follow_in_turn(plan: &mut Plan, edges: &EdgeSeq) -> bool
    requires { length edges.now ≤ plan.old.spare }
    ensures problem { plan.new.problem ≡ plan.old.problem }
    ensures plan { Follows plan.old.problem.points plan.old.plan edges.now result plan.new.plan }
{
    for i in 0..edges.len() {
        let e = *edges.at(i);
        if !plan.flips(e) {
            let _ = plan.total();
            return false;
        }
        plan.follow(e);
    }
    true
}

// Whether following one edge lowers the total. It needs no copy of the plan.
fn lowers_by_one(plan: &Plan, e: Edge) -> bool
    ensures { result ≡ lowers plan.now.problem.points plan.now.plan (e ∷ []) }
{
    let total = plan.total();
    plan.flips(e) && plan.total_after(e) < total
}

// Whether a move lowers the total.
fn lowers_by(plan: &Plan, edges: &EdgeSeq) -> Result<bool, AllocError>
    ensures { IfOk result (λ b. b ≡ lowers plan.now.problem.points plan.now.plan edges.now) }
{
    if edges.len() == 1 {
        Ok(lowers_by_one(plan, *edges.at(0)))
    } else {
        plan.lowers(edges)
    }
}

// The first of some moves that lowers the total.
fn first_of(plan: &Plan, moves: &MoveList) -> Result<Option<EdgeSeq>, AllocError>
    ensures { IfOk result (λ first. first ≡ find (lowers plan.now.problem.points plan.now.plan) moves.now) }
{
    for i in 0..moves.len() {
        if lowers_by(plan, moves.at(i))? {
            return Ok(Some(moves.at(i).copy()?));
        }
    }
    Ok(None)
}

// Whether an edge comes before that of a move of one edge, or there is no move.
fn comes_first(e: Edge, found: &Option<EdgeSeq>) -> bool
    requires { IsAlone found.now }
    ensures { IsTrue result ↔ ComesFirst e found.now }
{
    match found {
        Some(edges) => e.cmp(edges.at(0)).is_lt(),
        None => true,
    }
}

// Whether a move is of one edge that lowers the total and comes before the one that was found so far.
fn is_lesser(plan: &Plan, edges: &EdgeSeq, found: &Option<EdgeSeq>) -> bool
    requires { IsAlone found.now }
    ensures { IsTrue result ↔ IsLesser (lowers plan.now.problem.points plan.now.plan) found.now edges.now }
{
    if edges.len() != 1 {
        return false;
    }
    let e = *edges.at(0);
    comes_first(e, found) && lowers_by_one(plan, e)
}

// The move of the least edge, among the moves of one edge that lower the total.
fn least_single(plan: &Plan, moves: &MoveList) -> Result<Option<EdgeSeq>, AllocError>
    ensures { IfOk result (HasLeastSingle (lowers plan.now.problem.points plan.now.plan) moves.now (length moves.now)) }
{
    let mut least: Option<EdgeSeq> = None;
    for i in 0..moves.len() {
        if is_lesser(plan, moves.at(i), &least) {
            least = Some(moves.at(i).copy()?);
        }
    }
    Ok(least)
}

/// The first move that lowers the total, as `Plan::moves` lists them. A move of one edge lowers it only where that edge is the whole last round of a list, so only the last moves are tried. None is tried on a copy of the plan: one of one edge by `Plan::total_after`, and one of several by `Plan::lowers`.
pub fn first_move(plan: &Plan) -> Result<Option<EdgeSeq>, AllocError>
    ensures { IfOk result (λ first. first ≡ first_lowering plan.now.problem.points plan.now.plan) }
{
    let _ = plan.total();
    let moves = plan.last_moves()?;
    match least_single(plan, &moves)? {
        Some(edges) => Ok(Some(edges)),
        None => first_of(plan, &moves),
    }
}
