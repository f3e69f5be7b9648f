// A certificate written as a text.
ghost use Rattle.std.specs.Prelude.{◌≡◌, ◌++◌, ◌∷◌, [], map, codes, length, OnOk};
ghost use Rattle.std.specs.List.{AllByRecursion, flat_map};
ghost use Rattle.line_text.specs.Lines.{Appends};
ghost use Rattle.line_text.specs.LogLines.{log_line, IsLogLine, IsFromOne};
ghost use Rattle.cert_text.specs.Certs.{IsSmall, IsLarge, IsEdge, IsRound, IsLog, IsJournalLine, IsEvidence, IsEnd, IsRow, HasEdge, EvidenceFromOne, EndFromOne, RowFromOne};
ghost use Rattle.cert_text.specs.Texts.{listed, ends, round_line, journal_lines, logged_lines, evidence_lines, end_lines, pair_line, row_lines};

use crate::{JournalLine, JournalLines, RowList};
use cross_bound::Side;
use edge_table::{Edge, EdgeSeq, Rounds};
use host_io::Bytes;
use line_text::{put_line, put_log_line};
use pair_rows::{End, Evidence, Row};
use rup_check::Log;
use std::alloc::{AllocError, Global};

fn push_edge(numbers: &mut Vec<u128>, edge: Edge) -> Result<(), AllocError>
    ensures numbers { OnOk result (numbers.new.items ≡ numbers.old.items ++ edge.0 ∷ edge.1 ∷ []) }
    ensures fits { IsEdge edge }
{
    numbers.push(edge.low() as u128)?;
    numbers.push(edge.high() as u128)?;
    Ok(())
}

fn push_ends(numbers: &mut Vec<u128>, edges: &EdgeSeq) -> Result<(), AllocError>
    ensures numbers { OnOk result (numbers.new.items ≡ numbers.old.items ++ ends edges.now) }
    ensures fits { OnOk result (IsRound edges.now) }
{
    for i in 0..edges.len() {
        push_edge(numbers, *edges.at(i))?;
    }
    Ok(())
}

fn put_round(alloc: Global, out: &mut Bytes, edges: &EdgeSeq) -> Result<(), AllocError>
    ensures text { OnOk result (Appends out.old out.new (round_line edges.now ∷ [])) }
    ensures fits { OnOk result (IsRound edges.now) }
{
    let mut numbers = Vec::new(alloc);
    push_ends(&mut numbers, edges)?;
    put_line(out, b"round", &numbers)
}

fn put_rounds(alloc: Global, out: &mut Bytes, rounds: &Rounds) -> Result<(), AllocError>
    ensures text { OnOk result (Appends out.old out.new (map round_line rounds.now)) }
    ensures fits { OnOk result (AllByRecursion IsRound rounds.now) }
{
    for i in 0..rounds.len() {
        put_round(alloc, out, rounds.at(i))?;
    }
    Ok(())
}

fn put_log(out: &mut Bytes, log: &Log) -> Result<(), AllocError>
    requires { AllByRecursion IsFromOne log.now }
    ensures text { OnOk result (Appends out.old out.new (map log_line log.now)) }
    ensures fits { OnOk result (AllByRecursion IsLogLine log.now) }
{
    for i in 0..log.len() {
        put_log_line(out, log.at(i))?;
    }
    Ok(())
}

fn put_move(alloc: Global, out: &mut Bytes, turn: u64, edges: &EdgeSeq) -> Result<(), AllocError>
    requires { HasEdge (JournalLine.Move turn edges.now) }
    ensures text { OnOk result (Appends out.old out.new (journal_lines (JournalLine.Move turn edges.now))) }
    ensures fits { OnOk result (IsJournalLine (JournalLine.Move turn edges.now)) }
{
    let mut numbers = Vec::new(alloc);
    numbers.push(turn as u128)?;
    push_ends(&mut numbers, edges)?;
    put_line(out, b"move", &numbers)
}

fn put_swap(
    alloc: Global,
    out: &mut Bytes,
    turn: u64,
    input: u32,
    rounds: &Rounds,
) -> Result<(), AllocError>
    ensures text { OnOk result (Appends out.old out.new (journal_lines (JournalLine.Swap turn input rounds.now))) }
    ensures fits { OnOk result (IsJournalLine (JournalLine.Swap turn input rounds.now)) }
{
    let count = rounds.len() as u128;
    put_line(out, b"swap", &[turn as u128, input as u128, count])?;
    put_rounds(alloc, out, rounds)
}

fn put_journal_line(alloc: Global, out: &mut Bytes, line: &JournalLine) -> Result<(), AllocError>
    requires { HasEdge line.now }
    ensures text { OnOk result (Appends out.old out.new (journal_lines line.now)) }
    ensures fits { OnOk result (IsJournalLine line.now) }
{
    match line {
        JournalLine::Move { turn, edges } => put_move(alloc, out, *turn, edges),
        JournalLine::Swap {
            turn,
            input,
            rounds,
        } => put_swap(alloc, out, *turn, *input, rounds),
    }
}

fn put_journal_lines(
    alloc: Global,
    out: &mut Bytes,
    journal: &JournalLines,
) -> Result<(), AllocError>
    requires { AllByRecursion HasEdge journal.now }
    ensures text { OnOk result (Appends out.old out.new (flat_map journal_lines journal.now)) }
    ensures fits { OnOk result (AllByRecursion IsJournalLine journal.now) }
{
    for i in 0..journal.len() {
        put_journal_line(alloc, out, journal.at(i))?;
    }
    Ok(())
}

// A line with a number of rounds and that of the lines of a log, and the log.
fn put_logged(out: &mut Bytes, name: &[u8], k: u32, log: &Log) -> Result<(), AllocError>
    requires { AllByRecursion IsFromOne log.now }
    ensures text { OnOk result (Appends out.old out.new (logged_lines name.now k log.now)) }
    ensures fits { OnOk result (IsSmall k × IsLog log.now) }
{
    let count = log.len() as u128;
    put_line(out, name, &[k as u128, count])?;
    put_log(out, log)
}

fn put_crosses(out: &mut Bytes, from: Side, edge: Edge, count: u32) -> Result<(), AllocError>
    ensures text { OnOk result (Appends out.old out.new (evidence_lines (Evidence.Crosses from edge count))) }
    ensures fits { IsEvidence (Evidence.Crosses from edge count) }
{
    let numbers = [edge.low() as u128, edge.high() as u128, count as u128];
    match from {
        Side::First => put_line(out, b"crosses first", &numbers),
        Side::Second => put_line(out, b"crosses second", &numbers),
    }
}

fn put_evidence(out: &mut Bytes, evidence: &Evidence) -> Result<(), AllocError>
    requires { EvidenceFromOne evidence.now }
    ensures text { OnOk result (Appends out.old out.new (evidence_lines evidence.now)) }
    ensures fits { OnOk result (IsEvidence evidence.now) }
{
    match evidence {
        Evidence::Nothing => put_line(out, b"none", &[]),
        Evidence::Crosses { from, edge, count } => put_crosses(out, *from, *edge, *count),
        Evidence::Refuted { k, log } => put_logged(out, b"refuted", *k, log),
    }
}

fn put_met(alloc: Global, out: &mut Bytes, rounds: &Rounds) -> Result<(), AllocError>
    ensures text { OnOk result (Appends out.old out.new (end_lines (End.Met rounds.now))) }
    ensures fits { OnOk result (IsEnd (End.Met rounds.now)) }
{
    let count = rounds.len() as u128;
    put_line(out, b"met", &[count])?;
    put_rounds(alloc, out, rounds)
}

fn put_too_large(out: &mut Bytes, k: u32, clauses: u64) -> Result<(), AllocError>
    ensures text { OnOk result (Appends out.old out.new (end_lines (End.TooLarge k clauses))) }
    ensures fits { IsEnd (End.TooLarge k clauses) }
{
    put_line(out, b"toolarge", &[k as u128, clauses as u128])
}

fn put_many_points(out: &mut Bytes, n: u32) -> Result<(), AllocError>
    ensures text { OnOk result (Appends out.old out.new (end_lines (End.ManyPoints n))) }
    ensures fits { IsEnd (End.ManyPoints n) }
{
    put_line(out, b"manypoints", &[n as u128])
}

fn put_end(alloc: Global, out: &mut Bytes, end: &End) -> Result<(), AllocError>
    requires { EndFromOne end.now }
    ensures text { OnOk result (Appends out.old out.new (end_lines end.now)) }
    ensures fits { OnOk result (IsEnd end.now) }
{
    match end {
        End::Met(rounds) => put_met(alloc, out, rounds),
        End::Spent { k, log } => put_logged(out, b"spent", *k, log),
        End::TooLarge { k, clauses } => put_too_large(out, *k, *clauses),
        End::ManyPoints(n) => put_many_points(out, *n),
    }
}

fn put_pair(out: &mut Bytes, i: u32, j: u32, lower: u32) -> Result<(), AllocError>
    ensures text { OnOk result (Appends out.old out.new (pair_line i j lower ∷ [])) }
    ensures fits { IsSmall i × IsSmall j × IsSmall lower }
{
    put_line(out, b"row", &[i as u128, j as u128, lower as u128])
}

fn put_row(alloc: Global, out: &mut Bytes, row: &Row) -> Result<(), AllocError>
    requires { RowFromOne row.now }
    ensures text { OnOk result (Appends out.old out.new (row_lines row.now)) }
    ensures fits { OnOk result (IsRow row.now) }
{
    put_pair(out, row.i, row.j, row.lower)?;
    put_evidence(out, &row.evidence)?;
    put_end(alloc, out, &row.end)
}

fn put_row_lines(alloc: Global, out: &mut Bytes, rows: &RowList) -> Result<(), AllocError>
    requires { AllByRecursion RowFromOne rows.now }
    ensures text { OnOk result (Appends out.old out.new (flat_map row_lines rows.now)) }
    ensures fits { OnOk result (AllByRecursion IsRow rows.now) }
{
    for i in 0..rows.len() {
        put_row(alloc, out, rows.at(i))?;
    }
    Ok(())
}

/// Puts the changes at the end, behind a line with their number.
pub fn put_journal(alloc: Global, out: &mut Bytes, journal: &JournalLines) -> Result<(), AllocError>
    requires { AllByRecursion HasEdge journal.now }
    ensures text { OnOk result (Appends out.old out.new (listed (codes "journal") journal_lines journal.now)) }
    ensures fits { OnOk result (IsLarge (length journal.now) × AllByRecursion IsJournalLine journal.now) }
{
    let count = journal.len() as u128;
    put_line(out, b"journal", &[count])?;
    put_journal_lines(alloc, out, journal)
}

/// Puts the rows at the end, behind a line with their number.
pub fn put_rows(alloc: Global, out: &mut Bytes, rows: &RowList) -> Result<(), AllocError>
    requires { AllByRecursion RowFromOne rows.now }
    ensures text { OnOk result (Appends out.old out.new (listed (codes "rows") row_lines rows.now)) }
    ensures fits { OnOk result (IsLarge (length rows.now) × AllByRecursion IsRow rows.now) }
{
    let count = rows.len() as u128;
    put_line(out, b"rows", &[count])?;
    put_row_lines(alloc, out, rows)
}
