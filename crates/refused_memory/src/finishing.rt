// A book that is finished.
use crate::octagon::{HEAVY, Numbers, numbers_of};
use crate::offering::with_row;
use crate::trial::{Trial, unless_broken};
use book_core::Book;
use std::alloc::{AllocError, Global};
use worker_pool::finish;

// From the first numbers to the second ones the journal has grown and the total hasn't.
fn goes_on(before: Numbers, after: Numbers) -> bool {
    before.entries <= after.entries
        && before.front <= after.front
        && after.total <= before.total
        && before.bound <= after.bound
}

// Finishes the book, and where that is refused memory its moves stand, and again. Then it has these numbers.
fn finish_twice(alloc: Global, book: &mut Book, wanted: Numbers) -> Trial {
    let before = numbers_of(book);
    if finish(alloc, book, 9).is_ok() {
        return unless_broken(numbers_of(book) == wanted, Trial::Answered);
    }
    let stands = goes_on(before, numbers_of(book)) && goes_on(numbers_of(book), wanted);
    let done = finish(alloc, book, 9).is_ok();
    unless_broken(stands && done && numbers_of(book) == wanted, Trial::Kept)
}

// The heavy octagon with its row is finished by five moves and an assignment.
pub(crate) fn try_finish(alloc: Global) -> Result<Trial, AllocError> {
    let mut book = with_row(alloc, HEAVY)?;
    let wanted = Numbers {
        total: 5,
        entries: 7,
        front: 5,
        bound: 4,
    };
    Ok(finish_twice(alloc, &mut book, wanted))
}
