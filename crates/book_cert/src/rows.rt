// The rows of a book, in the order of their pairs.
ghost use Rattle.std.specs.Prelude.{◌≡◌, ◌++◌, ◌+◌, ◌-◌, ◌<◌, map, flat_map, length, IfOk, OnOk};
ghost use Rattle.std.specs.List.{range_with_len};
ghost use Rattle.plan_law.specs.Books.{row_of};
ghost use Rattle.book_core.specs.Entries.{pair_row};
ghost use Rattle.book_core.specs.HeldBooks.{now_of};
ghost use Rattle.book_cert.specs.Certificates.{if_some, rows_by_pair};

use book_core::Book;
use cert_text::RowList;
use std::alloc::{AllocError, Global};

// Puts the row of two inputs behind others, where there is one.
fn push_row(rows: &mut RowList, book: &Book, i: u32, j: u32) -> Result<(), AllocError>
    ensures { OnOk result (map pair_row rows.new ≡ map pair_row rows.old ++ if_some (row_of (now_of book.now).rows i j)) }
{
    match book.row(i, j) {
        Some(row) => rows.push(row.copy()?),
        None => Ok(()),
    }
}

// The rows of an input with those after it, of m inputs.
fn push_rows(rows: &mut RowList, book: &Book, i: u32, m: u32) -> Result<(), AllocError>
    requires { i < m }
    ensures { OnOk result (map pair_row rows.new ≡ map pair_row rows.old ++ flat_map (λ j. if_some (row_of (now_of book.now).rows i j)) (range_with_len (i + 1) (m - (i + 1)))) }
{
    for j in i + 1..m {
        push_row(rows, book, i, j)?;
    }
    Ok(())
}

pub(crate) fn rows_of(alloc: Global, book: &Book) -> Result<RowList, AllocError>
    ensures { IfOk result (λ rows. map pair_row rows ≡ rows_by_pair (length book.now.problem.inputs) (now_of book.now).rows) }
{
    let m = book.plan().inst().inputs();
    let mut rows = RowList::make(alloc);
    for i in 0..m {
        push_rows(&mut rows, book, i, m)?;
    }
    Ok(rows)
}
