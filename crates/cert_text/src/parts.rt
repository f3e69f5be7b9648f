// The changes and the rows of a certificate.
ghost use Rattle.std.specs.Prelude.{◌≡◌};
ghost use Rattle.line_text.specs.Lines.{Gives};
ghost use Rattle.line_text.specs.Readings.{one_line, times};
ghost use Rattle.cert_text.specs.Heads.{row_line_of, evidence_line_of, end_head_of, journal_head_of};
ghost use Rattle.cert_text.specs.Readings.{journal_rounds, journal_line, journal_line_at, evidence_lines_of, evidence_with, evidence_at, end_rounds, end_lines_of, end_with, end_at, row_at, journal_at, rows_at};

use crate::heads::{
    EndHead, EvidenceHead, JournalHead, RowHead, end_head_in, evidence_in, journal_in, row_in,
};
use crate::reading::{large_line, log, rounds};
use crate::{JournalLine, JournalLines, RowList};
use edge_table::Rounds;
use line_text::{ReadFault, Reader};
use pair_rows::{End, Evidence, Row};
use rup_check::Log;
use std::alloc::Global;

fn journal_head(alloc: Global, reader: &mut Reader) -> Result<JournalHead, ReadFault>
    ensures { Gives (λ x. x) result reader.new (one_line journal_head_of reader.old) }
{
    let line = reader.next_line()?;
    reader.made(journal_in(alloc, line)?)
}

// How many rounds follow.
fn rounds_after(head: &JournalHead) -> u64
    ensures { result ≡ journal_rounds head.now }
{
    match head {
        JournalHead::Whole(_) => 0,
        JournalHead::Rounds { count, .. } => *count,
    }
}

fn change(head: JournalHead, rounds: Rounds) -> JournalLine
    ensures { result ≡ journal_line head rounds }
{
    match head {
        JournalHead::Whole(line) => line,
        JournalHead::Rounds { turn, input, .. } => JournalLine::Swap {
            turn,
            input,
            rounds,
        },
    }
}

#[tactic(auto, unfolding(crate::specs::Readings::journal_line_at))]
fn journal_line(alloc: Global, reader: &mut Reader) -> Result<JournalLine, ReadFault>
    ensures { Gives (λ x. x) result reader.new (journal_line_at reader.old) }
{
    let head = journal_head(alloc, reader)?;
    let count = rounds_after(&head);
    let rounds = rounds(alloc, reader, count)?;
    Ok(change(head, rounds))
}

fn journal_lines(alloc: Global, reader: &mut Reader, count: u64) -> Result<JournalLines, ReadFault>
    ensures { Gives (λ x. x) result reader.new (times journal_line_at count reader.old) }
{
    let mut journal = JournalLines::make(alloc);
    for _ in 0..count {
        let line = journal_line(alloc, reader)?;
        journal.push(line)?;
    }
    Ok(journal)
}

/// The changes, behind a line with their number.
#[tactic(auto, unfolding(crate::specs::Readings::journal_at))]
pub fn journal(alloc: Global, reader: &mut Reader) -> Result<JournalLines, ReadFault>
    ensures { Gives (λ x. x) result reader.new (journal_at reader.old) }
{
    let count = large_line(alloc, reader, b"journal")?;
    journal_lines(alloc, reader, count)
}

fn evidence_head(alloc: Global, reader: &mut Reader) -> Result<EvidenceHead, ReadFault>
    ensures { Gives (λ x. x) result reader.new (one_line evidence_line_of reader.old) }
{
    let line = reader.next_line()?;
    reader.made(evidence_in(alloc, line)?)
}

// How many lines of a log follow.
fn lines_after(head: &EvidenceHead) -> u64
    ensures { result ≡ evidence_lines_of head.now }
{
    match head {
        EvidenceHead::Whole(_) => 0,
        EvidenceHead::Log { lines, .. } => *lines,
    }
}

fn shown(head: EvidenceHead, log: Log) -> Evidence
    ensures { result ≡ evidence_with head log }
{
    match head {
        EvidenceHead::Whole(evidence) => evidence,
        EvidenceHead::Log { k, .. } => Evidence::Refuted { k, log },
    }
}

#[tactic(auto, unfolding(crate::specs::Readings::evidence_at))]
fn evidence(alloc: Global, reader: &mut Reader) -> Result<Evidence, ReadFault>
    ensures { Gives (λ x. x) result reader.new (evidence_at reader.old) }
{
    let head = evidence_head(alloc, reader)?;
    let count = lines_after(&head);
    let log = log(alloc, reader, count)?;
    Ok(shown(head, log))
}

fn end_head(alloc: Global, reader: &mut Reader) -> Result<EndHead, ReadFault>
    ensures { Gives (λ x. x) result reader.new (one_line end_head_of reader.old) }
{
    let line = reader.next_line()?;
    reader.made(end_head_in(alloc, line)?)
}

// How many rounds and how many lines of a log follow.
fn parts_after(head: &EndHead) -> (u64, u64)
    ensures { result ≡ (end_rounds head.now, end_lines_of head.now) }
{
    match head {
        EndHead::Whole(_) => (0, 0),
        EndHead::Rounds(rounds) => (*rounds, 0),
        EndHead::Log { lines, .. } => (0, *lines),
    }
}

fn ended(head: EndHead, rounds: Rounds, log: Log) -> End
    ensures { result ≡ end_with head (rounds, log) }
{
    match head {
        EndHead::Whole(end) => end,
        EndHead::Rounds(_) => End::Met(rounds),
        EndHead::Log { k, .. } => End::Spent { k, log },
    }
}

#[tactic(auto, unfolding(crate::specs::Readings::end_at))]
fn end(alloc: Global, reader: &mut Reader) -> Result<End, ReadFault>
    ensures { Gives (λ x. x) result reader.new (end_at reader.old) }
{
    let head = end_head(alloc, reader)?;
    let (rounds_count, lines) = parts_after(&head);
    let rounds = rounds(alloc, reader, rounds_count)?;
    let log = log(alloc, reader, lines)?;
    Ok(ended(head, rounds, log))
}

fn row_head(alloc: Global, reader: &mut Reader) -> Result<RowHead, ReadFault>
    ensures { Gives (λ x. x) result reader.new (one_line row_line_of reader.old) }
{
    let line = reader.next_line()?;
    reader.made(row_in(alloc, line)?)
}

#[tactic(auto, unfolding(crate::specs::Readings::row_at))]
fn row(alloc: Global, reader: &mut Reader) -> Result<Row, ReadFault>
    ensures { Gives (λ x. x) result reader.new (row_at reader.old) }
{
    let head = row_head(alloc, reader)?;
    let evidence = evidence(alloc, reader)?;
    let end = end(alloc, reader)?;
    Ok(Row {
        i: head.i,
        j: head.j,
        lower: head.lower,
        evidence,
        end,
    })
}

fn row_list(alloc: Global, reader: &mut Reader, count: u64) -> Result<RowList, ReadFault>
    ensures { Gives (λ x. x) result reader.new (times row_at count reader.old) }
{
    let mut rows = RowList::make(alloc);
    for _ in 0..count {
        let row = row(alloc, reader)?;
        rows.push(row)?;
    }
    Ok(rows)
}

/// The rows, behind a line with their number.
#[tactic(auto, unfolding(crate::specs::Readings::rows_at))]
pub fn rows(alloc: Global, reader: &mut Reader) -> Result<RowList, ReadFault>
    ensures { Gives (λ x. x) result reader.new (rows_at reader.old) }
{
    let count = large_line(alloc, reader, b"rows")?;
    row_list(alloc, reader, count)
}
