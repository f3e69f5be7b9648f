// Walks: moves that words pick, up to the first that makes the total lower than it was at the start.
ghost use Rattle.std.specs.Prelude.{◌≡◌, ◌↔◌, [], ◌++◌, IsTrue, IfOk, OnOk};
ghost use Rattle.rand_core.specs.Stream.{next_u32};
ghost use Rattle.rand_core.specs.Steps.{first_words};
ghost use Rattle.rand_pcg.specs.Lcg.{started, increment_of};
ghost use Rattle.rand_pcg.specs.Pcg.{multiplier_64};
ghost use Rattle.plan_law.specs.Plans.{moves};
ghost use Rattle.plan_law.specs.Improvers.{picked, walk};
ghost use Rattle.plan_moves.specs.Answers.{walk_answer};
ghost use Rattle.plan_moves.specs.Draws.{Draws};
ghost use Rattle.plan_moves.specs.Ways.{Walks};

use crate::lowering::follow_in_turn;
use edge_table::EdgeSeq;
use plan_core::Plan;
use rand_core::Rng;
use rand_pcg::Pcg32;
use std::alloc::{AllocError, Global};

// A walk makes at most so many moves.
const MOVES: u32 = 8;

/// What a walk on a plan answers.
#[derive(Debug, Drop)]
pub enum Walk {
    /// The edges of the first moves that together make the total lower, one move after the other.
    Better(EdgeSeq),
    /// No number of the moves makes the total lower, or the plan has no move.
    NotBetter,
}

/// The generator of an improver's words, by the seed of all improvers and the improver's number. Improvers draw from streams of their own, so what one draws changes nothing for another.
pub fn walker(seed: u64, p: u64) -> Pcg32
    ensures { result ≡ started 64 multiplier_64 seed (increment_of 64 p) }
{
    Pcg32::new(seed, p)
}

// Adds edges at the end of others.
fn join(edges: &mut EdgeSeq, more: &EdgeSeq) -> Result<(), AllocError>
    ensures { OnOk result (edges.new ≡ edges.old ++ more.now) }
{
    for e in more.as_slice() {
        edges.push(*e)?;
    }
    Ok(())
}

// Whether a plan has no move.
fn has_no_move(plan: &Plan) -> Result<bool, AllocError>
    ensures { IfOk result (λ b. IsTrue b ↔ (moves plan.now.problem.points plan.now.plan ≡ [])) }
{
    Ok(plan.flippable()?.is_empty() && plan.last_moves()?.is_empty())
}

// The move that a word picks, if there is a move: an edge that flips, or else a last move. The moves aren't listed for it.
fn picked_move(alloc: Global, plan: &Plan, word: u32) -> Result<Option<EdgeSeq>, AllocError>
    ensures { IfOk result (λ edges. edges ≡ picked (moves plan.now.problem.points plan.now.plan) word) }
{
    let singles = plan.flippable()?;
    let lasts = plan.last_moves()?;
    let count = singles.len() as u128 + lasts.len() as u128;
    if count == 0 {
        return Ok(None);
    }
    let place = (word as u128 % count) as usize;
    if place < singles.len() {
        let mut edges = EdgeSeq::make(alloc);
        edges.push(*singles.at(place))?;
        return Ok(Some(edges));
    }
    Ok(Some(lasts.at(place - singles.len()).copy()?))
}

// Makes the move that a word picks, and adds its edges to those of the moves made. Answers whether there is a move.
fn make_move(
    alloc: Global,
    plan: &mut Plan,
    word: u32,
    made: &mut EdgeSeq,
) -> Result<bool, AllocError>
    ensures problem { plan.new.problem ≡ plan.old.problem }
    ensures ok { IfOk result (λ more. Walks plan.old.problem.points plan.old.plan made.old word more plan.new.plan made.new) }
{
    let _ = plan.total();
    match picked_move(alloc, plan, word)? {
        Some(edges) => {
            plan.reserve(edges.len())?;
            follow_in_turn(plan, &edges);
            join(made, &edges)?;
            Ok(true)
        }
        None => Ok(false),
    }
}

/// Walks on a plan over at most eight moves. Each is picked among the moves of the plan as walked so far by a word modulo their number. The answer is the first number of these moves that makes the total lower than the plan's, whose edges can be followed one after the other.
///
/// The plan is copied once, where it has a move. A word is drawn only where the moves before it don't make the total lower, and none where the plan has no move. A step takes the time of listing the edges that flip and the last moves, and of following the move that is picked in each list.
pub fn walk_turn<R: Rng>(alloc: Global, plan: &Plan, words: &mut R) -> Result<Walk, AllocError>
    ensures ok { IfOk result (λ w. walk_answer w ≡ walk plan.now.problem.points plan.now.plan (first_words next_u32 8 (R.stream words.old))) }
    ensures words { Draws plan.now.problem.points plan.now.plan (R.stream words.old) (R.stream words.new) }
{
    let start = plan.total();
    if has_no_move(plan)? {
        return Ok(Walk::NotBetter);
    }
    let mut walked = plan.copy()?;
    let mut made = EdgeSeq::make(alloc);
    for _ in 0..MOVES {
        if !make_move(alloc, &mut walked, words.next_u32(), &mut made)? {
            return Ok(Walk::NotBetter);
        }
        if walked.total() < start {
            return Ok(Walk::Better(made));
        }
    }
    Ok(Walk::NotBetter)
}
