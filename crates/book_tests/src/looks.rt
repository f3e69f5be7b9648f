// How a book is. What has `must` in its name fails unless things are so.
use book_core::Book;
use std::test::Fail;

fn counts(book: &Book) -> (u64, u64, u64) {
    (book.len(), book.front(), book.bound())
}

fn totals(book: &Book) -> (u128, u128) {
    (book.opening_total(), book.plan().total())
}

// The book has so many entries, so many moves and swaps among them, and this bound.
pub(crate) fn must_count(book: &Book, entries: u64, front: u64, bound: u64) -> Result<(), Fail> {
    let told = counts(book);
    if told == (entries, front, bound) {
        Ok(())
    } else {
        Err(Fail::new(format_args!("counts {told:?}")))
    }
}

// Its opening and its plan have these totals.
pub(crate) fn must_total(book: &Book, opening: u128, plan: u128) -> Result<(), Fail> {
    let told = totals(book);
    if told == (opening, plan) {
        Ok(())
    } else {
        Err(Fail::new(format_args!("totals {told:?}")))
    }
}

// Both.
pub(crate) fn must_look(
    book: &Book,
    totals: (u128, u128),
    counts: (u64, u64, u64),
) -> Result<(), Fail> {
    must_total(book, totals.0, totals.1)?;
    must_count(book, counts.0, counts.1, counts.2)
}

// The book has a row of its first two inputs.
pub(crate) fn must_have_row(book: &Book) -> Result<(), Fail> {
    if book.row(0, 1).is_some() {
        Ok(())
    } else {
        Err(Fail::new("no row"))
    }
}
