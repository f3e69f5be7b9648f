// The words of a line.
ghost use Rattle.std.specs.Prelude.{◌≡◌, ◌<◌, length, IfOk, IfSome, option_map};
ghost use Rattle.line_text.specs.Words.{cut_at, words_of, each_of, number_of, after_name, numbers_in, numbers_after};

use crate::number::number;
use memchr::memchr;
use std::alloc::{AllocError, Global};

/// What stands before the first such byte, and what stands after it if there is one. Time grows with the length of what stands before.
pub fn cut(text: &[u8], at: u8) -> (&[u8], Option<&[u8]>)
    ensures cut { (result.0.now, option_map (λ rest. rest.now) result.1) ≡ cut_at at text.now }
    ensures shorter { IfSome result.1 (λ rest. length rest.now < length text.now) }
{
    match memchr(at, text) {
        Some(i) => (&text[..i], Some(&text[i + 1..])),
        None => (text, None),
    }
}

// The numbers that all words spell.
fn numbers(alloc: Global, bytes: &[u8]) -> Result<Option<Vec<u128>>, AllocError>
    ensures { IfOk result (λ found. option_map (λ v. v.items) found ≡ each_of number_of (words_of bytes.now)) }
{
    let mut found = Vec::new(alloc);
    let mut left = bytes;
    loop {
        let (word, rest) = cut(left, 32);
        match number(word) {
            Some(n) => found.push(n)?,
            None => return Ok(None),
        }
        match rest {
            Some(rest) => left = rest,
            None => return Ok(Some(found)),
        }
    }
}

// The numbers with a space before each.
fn spaced_numbers(alloc: Global, bytes: &[u8]) -> Result<Option<Vec<u128>>, AllocError>
    ensures { IfOk result (λ found. option_map (λ v. v.items) found ≡ numbers_in bytes.now) }
{
    if bytes.is_empty() {
        return Ok(Some(Vec::new(alloc)));
    }
    if bytes[0] == 32 {
        numbers(alloc, &bytes[1..])
    } else {
        Ok(None)
    }
}

/// What follows a name, where the line begins with it.
pub fn strip_name<'a>(name: &[u8], line: &'a [u8]) -> Option<&'a [u8]>
    ensures { option_map (λ rest. rest.now) result ≡ after_name name.now line.now }
{
    line.strip_prefix(name)
}

/// The numbers of a line after its name, if it is a line of that name.
pub fn numbers_after(
    alloc: Global,
    name: &[u8],
    line: &[u8],
) -> Result<Option<Vec<u128>>, AllocError>
    ensures { IfOk result (λ found. option_map (λ v. v.items) found ≡ numbers_after name.now line.now) }
{
    match strip_name(name, line) {
        Some(bytes) => spaced_numbers(alloc, bytes),
        None => Ok(None),
    }
}
