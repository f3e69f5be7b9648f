// The lines of a certificate, each with what its numbers say.
ghost use Rattle.std.specs.Prelude.{◌≡◌, IfOk};
ghost use Rattle.line_text.specs.Words.{each_of};
ghost use Rattle.cert_text.specs.Heads.{small_of, round_of, wide_line_of, large_one, large_line_of, version_of, named_version_of, version_line_of, counts_of, counts_line_of, perm_of, perm_line_of, end_line_of, row_head_of, row_line_of, none_head, crosses_head, log_head, refuted_head, evidence_line_of, met_head, spent_head, too_large_head, many_points_head, end_head_of, move_head, swap_head, journal_head_of};

use crate::JournalLine;
use crate::numbers::{edge, edges, large, one, small, three, two};
use cross_bound::Side;
use edge_table::EdgeSeq;
use line_text::numbers_after;
use match_bound::Perm;
use pair_rows::{End, Evidence};
use std::alloc::{AllocError, Global};

/// How many inputs and copies there are.
#[derive(Clone, Copy, Debug)]
pub struct Counts {
    pub inputs: u32,
    pub copies: u32,
}

/// The first line of a row.
#[derive(Clone, Copy, Debug)]
pub struct RowHead {
    pub i: u32,
    pub j: u32,
    pub lower: u32,
}

/// An evidence that is one line, or the first line of one with a log.
#[derive(Debug, Drop)]
pub enum EvidenceHead {
    Whole(Evidence),
    Log { k: u32, lines: u64 },
}

/// An end that is one line, or the first line of one with rounds or with a log.
#[derive(Debug, Drop)]
pub enum EndHead {
    Whole(End),
    Rounds(u64),
    Log { k: u32, lines: u64 },
}

/// A change that is one line, or the first line of one with rounds.
#[derive(Debug, Drop)]
pub enum JournalHead {
    Whole(JournalLine),
    Rounds { turn: u64, input: u32, count: u64 },
}

/// The edges of a round.
pub fn round_in(alloc: Global, line: &[u8]) -> Result<Option<EdgeSeq>, AllocError>
    ensures { IfOk result (λ found. found ≡ round_of line.now) }
{
    match numbers_after(alloc, b"round", line)? {
        Some(numbers) => edges(alloc, &numbers),
        None => Ok(None),
    }
}

/// The number of a line of this name.
pub fn wide_in(alloc: Global, name: &[u8], line: &[u8]) -> Result<Option<u128>, AllocError>
    ensures { IfOk result (λ found. found ≡ wide_line_of name.now line.now) }
{
    match numbers_after(alloc, name, line)? {
        Some(numbers) => Ok(one(&numbers)),
        None => Ok(None),
    }
}

fn large_number(numbers: &[u128]) -> Option<u64>
    ensures { result ≡ large_one numbers.now }
{
    large(one(numbers)?)
}

/// The number of a line of this name, where 64 bits hold it.
pub fn large_in(alloc: Global, name: &[u8], line: &[u8]) -> Result<Option<u64>, AllocError>
    ensures { IfOk result (λ found. found ≡ large_line_of name.now line.now) }
{
    match numbers_after(alloc, name, line)? {
        Some(numbers) => Ok(large_number(&numbers)),
        None => Ok(None),
    }
}

fn version(numbers: &[u128]) -> Option<u32>
    ensures { result ≡ version_of numbers.now }
{
    match one(numbers)? {
        1 => Some(1),
        2 => Some(2),
        3 => Some(3),
        _ => None,
    }
}

fn version_named(alloc: Global, name: &[u8], line: &[u8]) -> Result<Option<u32>, AllocError>
    ensures { IfOk result (λ found. found ≡ named_version_of name.now line.now) }
{
    match numbers_after(alloc, name, line)? {
        Some(numbers) => Ok(version(&numbers)),
        None => Ok(None),
    }
}

/// The version of a certificate.
pub fn version_in(alloc: Global, line: &[u8]) -> Result<Option<u32>, AllocError>
    ensures { IfOk result (λ found. found ≡ version_line_of line.now) }
{
    version_named(alloc, b"flipcentre-certificate", line)
}

fn input_counts(version: u32, numbers: &[u128]) -> Option<Counts>
    ensures { result ≡ counts_of version numbers.now }
{
    if version < 3 {
        let inputs = small(one(numbers)?)?;
        return Some(Counts {
            inputs,
            copies: inputs,
        });
    }
    let (inputs, copies) = two(numbers)?;
    Some(Counts {
        inputs: small(inputs)?,
        copies: small(copies)?,
    })
}

/// The numbers of inputs and of copies.
pub fn counts_in(alloc: Global, version: u32, line: &[u8]) -> Result<Option<Counts>, AllocError>
    ensures { IfOk result (λ found. found ≡ counts_line_of version line.now) }
{
    match numbers_after(alloc, b"inputs", line)? {
        Some(numbers) => Ok(input_counts(version, &numbers)),
        None => Ok(None),
    }
}

fn small_numbers(alloc: Global, numbers: &[u128]) -> Result<Option<Perm>, AllocError>
    ensures { IfOk result (λ found. found ≡ each_of small_of numbers.now) }
{
    let mut perm = Perm::make(alloc);
    for n in numbers {
        match small(*n) {
            Some(n) => perm.push(n)?,
            None => return Ok(None),
        }
    }
    Ok(Some(perm))
}

fn perm(alloc: Global, copies: u32, numbers: &[u128]) -> Result<Option<Perm>, AllocError>
    ensures { IfOk result (λ found. found ≡ perm_of copies numbers.now) }
{
    if numbers.len() == copies as usize {
        small_numbers(alloc, numbers)
    } else {
        Ok(None)
    }
}

/// What each copy goes to.
pub fn perm_in(alloc: Global, copies: u32, line: &[u8]) -> Result<Option<Perm>, AllocError>
    ensures { IfOk result (λ found. found ≡ perm_line_of copies line.now) }
{
    match numbers_after(alloc, b"pack", line)? {
        Some(numbers) => perm(alloc, copies, &numbers),
        None => Ok(None),
    }
}

/// Whether the line is the last one.
pub fn end_in(alloc: Global, line: &[u8]) -> Result<Option<()>, AllocError>
    ensures { IfOk result (λ found. found ≡ end_line_of line.now) }
{
    match numbers_after(alloc, b"end", line)? {
        Some(numbers) => {
            if numbers.is_empty() {
                Ok(Some(()))
            } else {
                Ok(None)
            }
        }
        None => Ok(None),
    }
}

fn row_head(numbers: &[u128]) -> Option<RowHead>
    ensures { result ≡ row_head_of numbers.now }
{
    let (i, j, lower) = three(numbers)?;
    Some(RowHead {
        i: small(i)?,
        j: small(j)?,
        lower: small(lower)?,
    })
}

/// The first line of a row.
pub fn row_in(alloc: Global, line: &[u8]) -> Result<Option<RowHead>, AllocError>
    ensures { IfOk result (λ found. found ≡ row_line_of line.now) }
{
    match numbers_after(alloc, b"row", line)? {
        Some(numbers) => Ok(row_head(&numbers)),
        None => Ok(None),
    }
}

fn no_evidence(numbers: &[u128]) -> Option<EvidenceHead>
    ensures { result ≡ none_head numbers.now }
{
    if numbers.is_empty() {
        Some(EvidenceHead::Whole(Evidence::Nothing))
    } else {
        None
    }
}

fn crosses(from: Side, numbers: &[u128]) -> Option<EvidenceHead>
    ensures { result ≡ crosses_head from numbers.now }
{
    let (u, v, count) = three(numbers)?;
    let edge = edge(u, v)?;
    let count = small(count)?;
    Some(EvidenceHead::Whole(Evidence::Crosses { from, edge, count }))
}

fn log_numbers(numbers: &[u128]) -> Option<(u32, u64)>
    ensures { result ≡ log_head numbers.now }
{
    let (k, lines) = two(numbers)?;
    Some((small(k)?, large(lines)?))
}

fn refuted(numbers: &[u128]) -> Option<EvidenceHead>
    ensures { result ≡ refuted_head numbers.now }
{
    let (k, lines) = log_numbers(numbers)?;
    Some(EvidenceHead::Log { k, lines })
}

/// The first line of an evidence.
pub fn evidence_in(alloc: Global, line: &[u8]) -> Result<Option<EvidenceHead>, AllocError>
    ensures { IfOk result (λ found. found ≡ evidence_line_of line.now) }
{
    if let Some(numbers) = numbers_after(alloc, b"none", line)? {
        return Ok(no_evidence(&numbers));
    }
    if let Some(numbers) = numbers_after(alloc, b"crosses first", line)? {
        return Ok(crosses(Side::First, &numbers));
    }
    if let Some(numbers) = numbers_after(alloc, b"crosses second", line)? {
        return Ok(crosses(Side::Second, &numbers));
    }
    match numbers_after(alloc, b"refuted", line)? {
        Some(numbers) => Ok(refuted(&numbers)),
        None => Ok(None),
    }
}

fn met(numbers: &[u128]) -> Option<EndHead>
    ensures { result ≡ met_head numbers.now }
{
    Some(EndHead::Rounds(large(one(numbers)?)?))
}

fn spent(numbers: &[u128]) -> Option<EndHead>
    ensures { result ≡ spent_head numbers.now }
{
    let (k, lines) = log_numbers(numbers)?;
    Some(EndHead::Log { k, lines })
}

fn too_large(numbers: &[u128]) -> Option<EndHead>
    ensures { result ≡ too_large_head numbers.now }
{
    let (k, clauses) = log_numbers(numbers)?;
    Some(EndHead::Whole(End::TooLarge { k, clauses }))
}

fn many_points(numbers: &[u128]) -> Option<EndHead>
    ensures { result ≡ many_points_head numbers.now }
{
    Some(EndHead::Whole(End::ManyPoints(small(one(numbers)?)?)))
}

/// The first line of an end.
pub fn end_head_in(alloc: Global, line: &[u8]) -> Result<Option<EndHead>, AllocError>
    ensures { IfOk result (λ found. found ≡ end_head_of line.now) }
{
    if let Some(numbers) = numbers_after(alloc, b"met", line)? {
        return Ok(met(&numbers));
    }
    if let Some(numbers) = numbers_after(alloc, b"spent", line)? {
        return Ok(spent(&numbers));
    }
    if let Some(numbers) = numbers_after(alloc, b"toolarge", line)? {
        return Ok(too_large(&numbers));
    }
    match numbers_after(alloc, b"manypoints", line)? {
        Some(numbers) => Ok(many_points(&numbers)),
        None => Ok(None),
    }
}

fn move_line(alloc: Global, numbers: &[u128]) -> Result<Option<JournalHead>, AllocError>
    ensures { IfOk result (λ found. found ≡ move_head numbers.now) }
{
    if numbers.is_empty() {
        return Ok(None);
    }
    let Some(turn) = large(numbers[0]) else {
        return Ok(None);
    };
    let Some(edges) = edges(alloc, &numbers[1..])? else {
        return Ok(None);
    };
    if edges.is_empty() {
        return Ok(None);
    }
    Ok(Some(JournalHead::Whole(JournalLine::Move { turn, edges })))
}

fn swap_line(numbers: &[u128]) -> Option<JournalHead>
    ensures { result ≡ swap_head numbers.now }
{
    let (turn, input, count) = three(numbers)?;
    Some(JournalHead::Rounds {
        turn: large(turn)?,
        input: small(input)?,
        count: large(count)?,
    })
}

/// The first line of a change.
pub fn journal_in(alloc: Global, line: &[u8]) -> Result<Option<JournalHead>, AllocError>
    ensures { IfOk result (λ found. found ≡ journal_head_of line.now) }
{
    if let Some(numbers) = numbers_after(alloc, b"move", line)? {
        return move_line(alloc, &numbers);
    }
    match numbers_after(alloc, b"swap", line)? {
        Some(numbers) => Ok(swap_line(&numbers)),
        None => Ok(None),
    }
}
