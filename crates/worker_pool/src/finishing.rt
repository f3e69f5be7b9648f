// What a book gets after all turns: the moves that settle it, and a best assignment.
ghost use Rattle.std.specs.Prelude.{◌≡◌, sum, None, IfOk, OnOk, OnErr};
ghost use Rattle.assignment_law.specs.Assignments.{IsAssignment};
ghost use Rattle.plan_law.specs.Plans.{first_lowering};
ghost use Rattle.book_core.specs.HeldBooks.{now_of};
ghost use Rattle.worker_pool.specs.Outcomes.{IsBestAt};
ghost use Rattle.worker_pool.specs.Finishes.{MovesOn, HasSettlingMoves, IsSettlingOn, IsPackedOn, IsFinished};

use crate::work::best_of;
use book_core::{Book, Entry, Refusal};
use match_bound::Perm;
use plan_moves::first_move;
use std::alloc::{AllocError, Global};

// Offers the first move that lowers the total. Answers whether there is one.
fn settle_once(book: &mut Book, turn: u64) -> Result<bool, AllocError>
    ensures ok { IfOk result (λ more. MovesOn turn book.old more book.new) }
    ensures err { OnErr result (book.new ≡ book.old) }
{
    let first = first_move(book.plan())?;
    match first {
        Some(edges) => {
            let base = book.front();
            match book.offer(base, Entry::Move { turn, edges }) {
                Ok(_) => Ok(true),
                Err(_) => Err(AllocError),
            }
        }
        None => Ok(false),
    }
}

// The same again and again, until none is left.
fn settle_book(book: &mut Book, turn: u64) -> Result<(), AllocError>
    ensures moves { HasSettlingMoves turn book.old book.new }
    ensures ok { OnOk result (first_lowering book.old.problem.points (now_of book.new).plan ≡ None) }
{
    while settle_once(book, turn)? {}
    Ok(())
}

// A best assignment under the rows of a book.
fn best_for(alloc: Global, book: &Book) -> Result<Perm, AllocError>
    ensures assigns { IfOk result (IsAssignment (sum book.now.problem.weights)) }
    ensures best { IfOk result (IsBestAt (now_of book.now)) }
    ensures held { OnOk result (IsAssignment (sum (now_of book.now).plan.weights) (now_of book.now).assignment) }
{
    let _ = book.plan().total();
    let _ = book.perm();
    best_of(alloc, book.plan(), book.weights())
}

// Offers it. A book whose bound wouldn't rise has a best one.
fn pack_book(alloc: Global, book: &mut Book, turn: u64) -> Result<(), AllocError>
    ensures ok { OnOk result (IsPackedOn turn book.old book.new) }
    ensures err { OnErr result (book.new ≡ book.old) }
{
    let perm = best_for(alloc, book)?;
    let base = book.front();
    match book.offer(base, Entry::Pack { turn, perm }) {
        Ok(_) => Ok(()),
        Err(Refusal::NoRise { .. }) => Ok(()),
        Err(_) => Err(AllocError),
    }
}

/// Settles a book, and then packs a best assignment where the bound rises: appends the first move that lowers the total until none is left, and an assignment of the copies with the greatest bound under the rows if it is greater than the one held. All these entries are of one turn. Where memory runs out, the moves made so far stand.
///
/// There are at most as many moves as the total has rounds.
pub fn finish(alloc: Global, book: &mut Book, turn: u64) -> Result<(), AllocError>
    ensures ok { OnOk result (IsFinished turn book.old book.new) }
    ensures err { OnErr result (IsSettlingOn turn book.old book.new) }
{
    settle_book(book, turn)?;
    pack_book(alloc, book, turn)
}
