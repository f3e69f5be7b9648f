// A text that is read line by line.
ghost use Rattle.std.specs.Prelude.{◌≡◌, ◌+◌, ◌↔◌, [], IsTrue};
ghost use Rattle.line_text.specs.Lines.{place, Gives};
ghost use Rattle.line_text.specs.Readings.{next_line, made_of};

use crate::words::cut;
use crate::{ReadFault, TextFault};
use host_io::CertKind;
use std::marker::Model;

/// A text that is read line by line, seen as how many lines were read, and the bytes that are left.
#[derive(Drop)]
pub struct Reader<'a> {
    line: u64,
    left: &'a [u8],
}

impl<'a> Model for Reader<'a> {
    ghost use Rattle.line_text.specs.Lines.{Place, place};

    ghost Value = { Place };

    ghost view = { λ r. place r.line r.left.now };
}

impl<'a> Reader<'a> {
    /// A reader of all bytes.
    pub fn of(bytes: &'a [u8]) -> Self
        ensures { result ≡ place 0 bytes.now }
    {
        Reader {
            line: 0,
            left: bytes,
        }
    }

    /// Whether no byte is left.
    pub fn is_empty(&self) -> bool
        ensures { IsTrue result ↔ (self.now.left ≡ []) }
    {
        self.left.is_empty()
    }

    /// How many lines were read.
    pub fn line(&self) -> u64
        ensures { result ≡ self.now.line }
    {
        self.line
    }

    /// The next line, without its line feed.
    pub fn next_line(&mut self) -> Result<&'a [u8], ReadFault>
        ensures { Gives (λ line. line.now) result self.new (next_line self.old) }
    {
        // More lines than 64 bits can count fit no memory.
        let Some(line) = self.line.checked_add(1) else {
            return Err(ReadFault::OutOfMemory);
        };
        let (bytes, rest) = cut(self.left, 10);
        let Some(left) = rest else {
            let kind = CertKind::Cut;
            return Err(ReadFault::Text(TextFault { line, kind }));
        };
        self.line = line;
        self.left = left;
        Ok(bytes)
    }

    /// What was made of the line that was read last, or its fault.
    pub fn made<T: Drop>(&self, made: Option<T>) -> Result<T, ReadFault>
        ensures { Gives (λ x. x) result self.now (made_of made self.now) }
    {
        let (line, kind) = (self.line, CertKind::Shape);
        made.ok_or(ReadFault::Text(TextFault { line, kind }))
    }
}
