// A certificate read part by part.
ghost use Rattle.std.specs.Prelude.{◌≡◌};
ghost use Rattle.line_text.specs.Lines.{Gives};
ghost use Rattle.line_text.specs.LogLines.{log_line_of};
ghost use Rattle.line_text.specs.Readings.{one_line};
ghost use Rattle.cert_text.specs.Heads.{round_of, wide_line_of, large_line_of};
ghost use Rattle.cert_text.specs.Readings.{log_at, rounds_at};

use crate::heads::{large_in, round_in, wide_in};
use edge_table::{EdgeSeq, Rounds};
use line_text::{ReadFault, Reader, log_line_of};
use rup_check::{Line, Log};
use std::alloc::Global;

fn log_line(alloc: Global, reader: &mut Reader) -> Result<Line, ReadFault>
    ensures { Gives (λ x. x) result reader.new (one_line log_line_of reader.old) }
{
    let line = reader.next_line()?;
    reader.made(log_line_of(alloc, line)?)
}

/// So many lines of a log.
pub fn log(alloc: Global, reader: &mut Reader, count: u64) -> Result<Log, ReadFault>
    ensures { Gives (λ x. x) result reader.new (log_at count reader.old) }
{
    let mut log = Log::make(alloc);
    for _ in 0..count {
        let line = log_line(alloc, reader)?;
        log.push(line)?;
    }
    Ok(log)
}

fn round(alloc: Global, reader: &mut Reader) -> Result<EdgeSeq, ReadFault>
    ensures { Gives (λ x. x) result reader.new (one_line round_of reader.old) }
{
    let line = reader.next_line()?;
    reader.made(round_in(alloc, line)?)
}

/// So many rounds.
pub fn rounds(alloc: Global, reader: &mut Reader, count: u64) -> Result<Rounds, ReadFault>
    ensures { Gives (λ x. x) result reader.new (rounds_at count reader.old) }
{
    let mut rounds = Rounds::make(alloc);
    for _ in 0..count {
        let edges = round(alloc, reader)?;
        rounds.push(edges)?;
    }
    Ok(rounds)
}

/// The number of a line of this name, where 64 bits hold it.
pub fn large_line(alloc: Global, reader: &mut Reader, name: &[u8]) -> Result<u64, ReadFault>
    ensures { Gives (λ x. x) result reader.new (one_line (large_line_of name.now) reader.old) }
{
    let line = reader.next_line()?;
    reader.made(large_in(alloc, name, line)?)
}

/// The number of a line of this name.
pub fn wide_line(alloc: Global, reader: &mut Reader, name: &[u8]) -> Result<u128, ReadFault>
    ensures { Gives (λ x. x) result reader.new (one_line (wide_line_of name.now) reader.old) }
{
    let line = reader.next_line()?;
    reader.made(wide_in(alloc, name, line)?)
}
