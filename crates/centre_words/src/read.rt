// What words ask for.
ghost use Rattle.std.specs.Prelude.{◌≡◌, IfOk, Err};
ghost use Rattle.centre_words.specs.Words.{texts, Asks, IsUnasked, WordsAskOnce};

use crate::asked::{Asked, WordsFault};
use crate::command::parse;
use crate::meaning::asked_by;
use crate::plain::are_plain;
use std::alloc::Global;

/// Words ask for at most one thing.
pub fn laws()
    ensures { WordsAskOnce }
{}

/// What the words after the program's name ask for. Time and memory grow with the length of the words.
pub fn read_words(alloc: Global, words: &[String]) -> Result<Asked, WordsFault>
    ensures asked { IfOk result (Asks (texts words.now)) }
    // Want of memory alone is told where the words ask for something.
    ensures words { result ≡ Err WordsFault.Words → IsUnasked (texts words.now) }
{
    if !are_plain(words) {
        return Err(WordsFault::Words);
    }
    let matches = parse(alloc, words)?;
    match matches.subcommand() {
        Some((command, found)) => asked_by(alloc, command, found),
        None => Err(WordsFault::Words),
    }
}
