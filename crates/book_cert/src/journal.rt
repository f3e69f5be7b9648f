// The moves and swaps of a book as the journal of a certificate.
ghost use Rattle.std.specs.Prelude.{◌≡◌, ◌++◌, ◌∷◌, [], map, IfOk, OnOk};
ghost use Rattle.book_solve.specs.Solved.{plan_lines};
ghost use Rattle.book_cert.specs.Certificates.{entry_of};

use book_core::{Book, Entry};
use cert_text::{JournalLine, JournalLines};
use std::alloc::{AllocError, Global};

// Puts the line of an entry behind others, where the entry is a move or a swap.
fn push_line(lines: &mut JournalLines, entry: &Entry) -> Result<(), AllocError>
    ensures { OnOk result (map entry_of lines.new ≡ map entry_of lines.old ++ plan_lines (entry.now ∷ [])) }
{
    match entry {
        Entry::Move { turn, edges } => lines.push(JournalLine::Move {
            turn: *turn,
            edges: edges.copy()?,
        }),
        Entry::Swap {
            turn,
            input,
            rounds,
        } => lines.push(JournalLine::Swap {
            turn: *turn,
            input: *input,
            rounds: rounds.copy()?,
        }),
        Entry::Row { .. } | Entry::Pack { .. } => Ok(()),
    }
}

pub(crate) fn journal_of(alloc: Global, book: &Book) -> Result<JournalLines, AllocError>
    ensures { IfOk result (λ lines. map entry_of lines ≡ plan_lines book.now.journal) }
{
    let mut lines = JournalLines::make(alloc);
    for place in 0..book.len() {
        push_line(&mut lines, book.entry(place))?;
    }
    Ok(lines)
}
