// Entries that are offered to a book.
ghost use Rattle.std.specs.Prelude.{◌≡◌, length, sum, IfOk};
ghost use Rattle.assignment_law.specs.Assignments.{IsAssignment};
ghost use Rattle.book_core.specs.HeldBooks.{IsOffer};
ghost use Rattle.book_core.specs.declared.entry.Entry.TheVariants as entry;

use crate::octagon::{HEAVY, Numbers, OCTAGON, numbers_of, opened, opened_for_two, shorter};
use crate::trial::{Trial, unless_broken};
use book_core::{Book, Entry, Refusal};
use flip_cnf::Frame;
use match_bound::{Perm, best_assignment};
use pair_rows::prove_pair;
use plan_moves::first_move;
use std::alloc::{AllocError, Global};

// Offers an entry, and where that is refused memory and leaves the book as it was, the same entry again. The book has these numbers then.
fn offer_twice(book: &mut Book, first: Entry, second: Entry, wanted: Numbers) -> Trial
    requires first { IsOffer book.old.problem first }
    requires second { IsOffer book.old.problem second }
{
    let before = numbers_of(book);
    let base = book.front();
    match book.offer(base, first) {
        Ok(_) => unless_broken(numbers_of(book) == wanted, Trial::Answered),
        Err(Refusal::OutOfMemory) => {
            let same = numbers_of(book) == before;
            let taken = book.offer(base, second).is_ok();
            unless_broken(same && taken && numbers_of(book) == wanted, Trial::Kept)
        }
        Err(_) => Trial::Broken,
    }
}

// The first move that lowers the total of the heavy octagon.
pub(crate) fn try_move(alloc: Global) -> Result<Trial, AllocError> {
    let mut book = opened(alloc, HEAVY)?;
    let Some(edges) = first_move(book.plan())? else {
        return Ok(Trial::Broken);
    };
    let second = edges.copy()?;
    let wanted = Numbers {
        total: 13,
        entries: 1,
        front: 1,
        bound: 0,
    };
    let first = Entry::Move { turn: 7, edges };
    let second = Entry::Move {
        turn: 7,
        edges: second,
    };
    Ok(offer_twice(&mut book, first, second, wanted))
}

// Rounds for the second input.
fn swap(alloc: Global) -> Result<Entry, AllocError>
    ensures { IfOk result (λ e. (rounds : _) × (e ≡ entry.Swap 7 1 rounds)) }
{
    Ok(Entry::Swap {
        turn: 7,
        input: 1,
        rounds: shorter(alloc)?,
    })
}

pub(crate) fn try_swap(alloc: Global) -> Result<Trial, AllocError> {
    let mut book = opened_for_two(alloc, OCTAGON)?;
    let first = swap(alloc)?;
    let second = swap(alloc)?;
    let wanted = Numbers {
        total: 4,
        entries: 1,
        front: 1,
        bound: 0,
    };
    Ok(offer_twice(&mut book, first, second, wanted))
}

// The row of the two inputs.
pub(crate) fn row(alloc: Global, book: &Book) -> Result<Entry, AllocError>
    requires { length book.now.problem.inputs ≡ 2 }
    ensures { IfOk result (IsOffer book.now.problem) }
{
    let frame = Frame::of(alloc, book.plan().inst())?;
    let row = prove_pair(alloc, book.plan().inst(), &frame, 0, 1, 1000)?;
    Ok(Entry::Row { turn: 7, row })
}

pub(crate) fn try_row(alloc: Global) -> Result<Trial, AllocError> {
    let mut book = opened_for_two(alloc, OCTAGON)?;
    let first = row(alloc, &book)?;
    let second = row(alloc, &book)?;
    let wanted = Numbers {
        total: 5,
        entries: 1,
        front: 0,
        bound: 0,
    };
    Ok(offer_twice(&mut book, first, second, wanted))
}

// The book with its row.
pub(crate) fn with_row(alloc: Global, text: &str) -> Result<Book, AllocError> {
    let mut book = opened_for_two(alloc, text)?;
    let row = row(alloc, &book)?;
    match book.offer(0, row) {
        Ok(_) => Ok(book),
        Err(_) => Err(AllocError),
    }
}

// A best assignment under the rows of a book.
fn best_for(alloc: Global, book: &Book) -> Result<Perm, AllocError>
    ensures { IfOk result (IsAssignment (sum book.now.problem.weights)) }
{
    Ok(best_assignment(alloc, book.weights())?.perm)
}

pub(crate) fn try_pack(alloc: Global) -> Result<Trial, AllocError> {
    let mut book = with_row(alloc, OCTAGON)?;
    let first = Entry::Pack {
        turn: 7,
        perm: best_for(alloc, &book)?,
    };
    let second = Entry::Pack {
        turn: 7,
        perm: best_for(alloc, &book)?,
    };
    let wanted = Numbers {
        total: 5,
        entries: 2,
        front: 0,
        bound: 4,
    };
    Ok(offer_twice(&mut book, first, second, wanted))
}
