// A replica that catches up with a book.
ghost use Rattle.std.specs.Prelude.{◌≡◌, length};
ghost use Rattle.book_core.specs.HeldReplicas.{IsReplica};

use crate::octagon::{OCTAGON, opened_for_two, shorter};
use crate::trial::{Trial, unless_broken};
use book_core::{Book, Entry, Replica};
use std::alloc::{AllocError, Global};

// Catches up with the book, and where that is refused memory the replica has seen no less, and again. Then it has seen all.
fn catch_twice(book: &Book, replica: &mut Replica) -> Trial
    requires { IsReplica book.now replica.old }
{
    let seen = replica.seen();
    if replica.catch(book).is_ok() {
        return unless_broken(has_all(book, replica), Trial::Answered);
    }
    let further = seen <= replica.seen() && replica.seen() <= book.len();
    let caught = replica.catch(book).is_ok();
    unless_broken(further && caught && has_all(book, replica), Trial::Kept)
}

// The replica has what the book has.
fn has_all(book: &Book, replica: &Replica) -> bool {
    replica.seen() == book.len()
        && replica.front() == book.front()
        && replica.plan().total() == book.plan().total()
}

// Offers rounds to the book, which the replica then hasn't seen.
fn run_ahead(alloc: Global, book: &mut Book, replica: &Replica) -> Result<(), AllocError>
    requires two { length book.old.problem.inputs ≡ 2 }
    requires replica { IsReplica book.old replica.now }
    ensures { IsReplica book.new replica.now }
{
    let entry = Entry::Swap {
        turn: 7,
        input: 1,
        rounds: shorter(alloc)?,
    };
    match book.offer(0, entry) {
        Ok(_) => Ok(()),
        Err(_) => Err(AllocError),
    }
}

pub(crate) fn try_catch(alloc: Global) -> Result<Trial, AllocError> {
    let mut book = opened_for_two(alloc, OCTAGON)?;
    let mut replica = Replica::of(alloc, &book)?;
    run_ahead(alloc, &mut book, &replica)?;
    Ok(catch_twice(&book, &mut replica))
}
