// Lines put at the end of bytes.
ghost use Rattle.std.specs.Prelude.{◌≡◌, ◌<◌, ◌++◌, ◌∷◌, [], ℕ, ◌^◌, decimal, OnOk, map};
ghost use Rattle.std.specs.List.{flat_map, AllByRecursion};
ghost use Rattle.line_text.specs.Lines.{Appends};
ghost use Rattle.line_text.specs.LogLines.{IsLogLine, literal_word, log_of, log_line, IsFromOne, HasSmallNumbers};
ghost use Rattle.line_text.specs.Words.{named};

use host_io::Bytes;
use itoa::Buffer;
use log_law::Lit;
use rup_check::{Clause, Hints, Line};
use std::alloc::AllocError;

fn put_decimal(out: &mut Bytes, n: u128) -> Result<(), AllocError>
    ensures { OnOk result (out.new ≡ out.old ++ decimal n) }
{
    let mut buffer = Buffer::new();
    out.append(buffer.format(n).as_bytes())
}

fn put_number(out: &mut Bytes, n: u128) -> Result<(), AllocError>
    ensures { OnOk result (out.new ≡ out.old ++ 32 ∷ decimal n) }
{
    out.push(32)?;
    put_decimal(out, n)
}

fn put_numbers(out: &mut Bytes, numbers: &[u128]) -> Result<(), AllocError>
    ensures { OnOk result (out.new ≡ out.old ++ flat_map (λ word. 32 ∷ word) (map decimal numbers.now)) }
{
    for n in numbers {
        put_number(out, *n)?;
    }
    Ok(())
}

/// Puts a line of a name and numbers at the end. Time and memory grow with its length.
pub fn put_line(out: &mut Bytes, name: &[u8], numbers: &[u128]) -> Result<(), AllocError>
    ensures { OnOk result (Appends out.old out.new (named name.now numbers.now ∷ [])) }
{
    out.append(name)?;
    put_numbers(out, numbers)?;
    out.push(10)
}

fn put_literal(out: &mut Bytes, literal: Lit) -> Result<(), AllocError>
    ensures text { OnOk result (out.new ≡ out.old ++ 32 ∷ literal_word literal) }
    ensures small { literal.var < 2 ^ 32 }
{
    if literal.on {
        put_number(out, u128::from(literal.var))
    } else {
        out.push(32)?;
        out.push(45)?;
        put_decimal(out, u128::from(literal.var))
    }
}

fn put_literals(out: &mut Bytes, literals: &Clause) -> Result<(), AllocError>
    ensures text { OnOk result (out.new ≡ out.old ++ flat_map (λ word. 32 ∷ word) (map literal_word literals.now)) }
    ensures small { OnOk result (AllByRecursion (λ l. l.var < 2 ^ 32) literals.now) }
{
    for i in 0..literals.len() {
        put_literal(out, *literals.at(i))?;
    }
    Ok(())
}

fn put_hint(out: &mut Bytes, hint: u32) -> Result<(), AllocError>
    ensures text { OnOk result (out.new ≡ out.old ++ 32 ∷ decimal hint) }
    ensures small { hint < 2 ^ 32 }
{
    put_number(out, u128::from(hint))
}

fn put_hints(out: &mut Bytes, hints: &Hints) -> Result<(), AllocError>
    ensures text { OnOk result (out.new ≡ out.old ++ flat_map (λ word. 32 ∷ word) (map decimal hints.now)) }
    ensures small { OnOk result (AllByRecursion (λ n. n < 2 ^ 32) hints.now) }
{
    for i in 0..hints.len() {
        put_hint(out, *hints.at(i))?;
    }
    Ok(())
}

fn put_identifier(out: &mut Bytes, id: u32) -> Result<(), AllocError>
    ensures text { OnOk result (out.new ≡ out.old ++ decimal id) }
    ensures small { id < 2 ^ 32 }
{
    put_decimal(out, u128::from(id))
}

// A line of a log, of its parts.
fn put_parts(out: &mut Bytes, id: u32, literals: &Clause, hints: &Hints) -> Result<(), AllocError>
    ensures text { OnOk result (Appends out.old out.new (log_line (log_of id literals.now hints.now) ∷ [])) }
    ensures small { OnOk result (HasSmallNumbers (log_of id literals.now hints.now)) }
{
    put_identifier(out, id)?;
    put_literals(out, literals)?;
    put_number(out, 0)?;
    put_hints(out, hints)?;
    put_number(out, 0)?;
    out.push(10)
}

/// Puts a line of a log at the end, in which variables and hints are numbered from 1. Time and memory grow with its length.
pub fn put_log_line(out: &mut Bytes, line: &Line) -> Result<(), AllocError>
    requires { IsFromOne line.now }
    ensures text { OnOk result (Appends out.old out.new (log_line line.now ∷ [])) }
    ensures fits { OnOk result (IsLogLine line.now) }
{
    put_parts(out, line.id, &line.lits, &line.hints)
}
