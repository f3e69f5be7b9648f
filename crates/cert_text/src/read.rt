// A certificate read from a text.
ghost use Rattle.std.specs.Prelude.{◌≡◌, IfOk, IfErr};
ghost use Rattle.line_text.specs.Lines.{Gives, place, Fails};
ghost use Rattle.line_text.specs.Readings.{one_line};
ghost use Rattle.cert_text.specs.Certs.{IsWritable};
ghost use Rattle.cert_text.specs.Forms.{Spells, OnFault, TextsSpellOnce};
ghost use Rattle.cert_text.specs.Heads.{version_line_of, counts_line_of, perm_line_of, end_line_of, uid_line_of};
ghost use Rattle.cert_text.specs.Readings.{head_at, totals_at, perm_at, cert_at, whole_cert, Whole};

use crate::heads::{Counts, counts_in, end_in, perm_in, version_in};
use crate::parts::{journal, rows};
use crate::reading::{large_line, wide_line};
use crate::uid::uid_in;
use crate::{Cert, CertReadFault};
use host_io::CertKind;
use line_text::{ReadFault, Reader, TextFault};
use match_bound::Perm;
use std::alloc::Global;
use tri_check::Uid;

/// What a certificate speaks of.
#[derive(Debug, Drop)]
pub struct Head {
    pub version: u32,
    pub uid: Uid,
    pub counts: Counts,
}

/// What a certificate claims.
#[derive(Clone, Copy, Debug)]
pub struct Totals {
    pub opening: u128,
    pub total: u128,
    pub bound: u64,
}

fn version_line(alloc: Global, reader: &mut Reader) -> Result<u32, ReadFault>
    ensures { Gives (λ x. x) result reader.new (one_line version_line_of reader.old) }
{
    let line = reader.next_line()?;
    reader.made(version_in(alloc, line)?)
}

fn uid_line(alloc: Global, reader: &mut Reader) -> Result<Uid, ReadFault>
    ensures { Gives (λ x. x) result reader.new (one_line uid_line_of reader.old) }
{
    let line = reader.next_line()?;
    reader.made(uid_in(alloc, line)?)
}

fn counts_line(alloc: Global, reader: &mut Reader, version: u32) -> Result<Counts, ReadFault>
    ensures { Gives (λ x. x) result reader.new (one_line (counts_line_of version) reader.old) }
{
    let line = reader.next_line()?;
    reader.made(counts_in(alloc, version, line)?)
}

#[tactic(auto, unfolding(crate::specs::Readings::head_at))]
fn head_lines(alloc: Global, reader: &mut Reader) -> Result<Head, ReadFault>
    ensures { Gives (λ x. x) result reader.new (head_at reader.old) }
{
    let version = version_line(alloc, reader)?;
    let uid = uid_line(alloc, reader)?;
    let counts = counts_line(alloc, reader, version)?;
    Ok(Head {
        version,
        uid,
        counts,
    })
}

#[tactic(auto, unfolding(crate::specs::Readings::totals_at))]
fn total_lines(alloc: Global, reader: &mut Reader) -> Result<Totals, ReadFault>
    ensures { Gives (λ x. x) result reader.new (totals_at reader.old) }
{
    let opening = wide_line(alloc, reader, b"opening")?;
    let total = wide_line(alloc, reader, b"total")?;
    let bound = large_line(alloc, reader, b"bound")?;
    Ok(Totals {
        opening,
        total,
        bound,
    })
}

fn perm_line(alloc: Global, reader: &mut Reader, copies: u32) -> Result<Perm, ReadFault>
    ensures { Gives (λ x. x) result reader.new (one_line (perm_line_of copies) reader.old) }
{
    let line = reader.next_line()?;
    reader.made(perm_in(alloc, copies, line)?)
}

fn end_line(alloc: Global, reader: &mut Reader) -> Result<(), ReadFault>
    ensures { Gives (λ x. x) result reader.new (one_line end_line_of reader.old) }
{
    let line = reader.next_line()?;
    reader.made(end_in(alloc, line)?)
}

#[tactic(auto, unfolding(crate::specs::Readings::perm_at))]
fn last_lines(alloc: Global, reader: &mut Reader, copies: u32) -> Result<Perm, ReadFault>
    ensures { Gives (λ x. x) result reader.new (perm_at copies reader.old) }
{
    let perm = perm_line(alloc, reader, copies)?;
    end_line(alloc, reader)?;
    Ok(perm)
}

#[tactic(auto, unfolding(crate::specs::Readings::cert_at))]
fn cert(alloc: Global, reader: &mut Reader) -> Result<Cert, ReadFault>
    ensures { Gives (λ x. x) result reader.new (cert_at reader.old) }
{
    let head = head_lines(alloc, reader)?;
    let totals = total_lines(alloc, reader)?;
    let journal = journal(alloc, reader)?;
    let rows = rows(alloc, reader)?;
    let perm = last_lines(alloc, reader, head.counts.copies)?;
    Ok(Cert {
        version: head.version,
        uid: head.uid,
        inputs: head.counts.inputs,
        copies: head.counts.copies,
        opening: totals.opening,
        total: totals.total,
        bound: totals.bound,
        journal,
        rows,
        perm,
    })
}

// A certificate, and nothing behind it.
fn whole(alloc: Global, bytes: &[u8]) -> Result<Cert, ReadFault>
    ensures { Whole result (whole_cert bytes.now) }
{
    let mut reader = Reader::of(bytes);
    let cert = cert(alloc, &mut reader)?;
    if reader.is_empty() {
        return Ok(cert);
    }
    // More lines than 64 bits can count fit no memory.
    let Some(line) = reader.line().checked_add(1) else {
        return Err(ReadFault::OutOfMemory);
    };
    let kind = CertKind::Rest;
    Err(ReadFault::Text(TextFault { line, kind }))
}

/// The certificate that a text spells. Time and memory grow with the length of the text.
pub fn read_cert(alloc: Global, bytes: &[u8]) -> Result<Cert, CertReadFault>
    ensures ok { IfOk result (λ c. Spells bytes.now c) }
    // What was read may be written.
    ensures writable { IfOk result (λ c. IsWritable c) }
    // The fault is the first that the bytes have, and they spell no certificate.
    ensures fault { IfErr result (λ e. OnFault bytes.now e) }
{
    Ok(whole(alloc, bytes)?)
}

/// The law of spelling.
pub fn laws()
    ensures { TextsSpellOnce }
{}
