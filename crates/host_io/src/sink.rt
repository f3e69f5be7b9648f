// Where a program's output goes.
ghost use Rattle.std.specs.Prelude.{◌≡◌, ◌<◌, ◌≤◌, [], Option, List, ℕ, Ok, length, IfOk};
ghost use Rattle.host_io.specs.Sink.{Puts, SinkHasCause, Takes};

use crate::SinkFail;

/// A sink of bytes.
pub trait Sink {
    /// The bytes taken so far, where the sink tells them.
    ghost told: { Self → Option (List ℕ) };

    /// How often it has failed. It stands still at the end of a u64.
    ghost faults: { Self → ℕ };

    /// Takes some first bytes of a piece, and answers how many: at least one, unless the piece is empty.
    fn put(&mut self, piece: &[u8]) -> Result<usize, SinkFail>
        ensures content { Puts (told self.old) (told self.new) piece.now result }
        ensures bound { IfOk result (λ n. n ≤ length piece.now) }
        ensures some { IfOk result (λ n. 0 < length piece.now → 0 < n) }
        ensures empty { piece.now ≡ [] → result ≡ Ok 0 }
        ensures cause { SinkHasCause (faults self.old) (faults self.new) result };
}

/// Puts all bytes, piece by piece. Where the sink fails it was told a first part of them.
///
/// It makes at most as many calls as there are bytes.
pub fn put_all<O: Sink>(out: &mut O, bytes: &[u8]) -> Result<(), SinkFail>
    ensures told { Takes (O.told out.old) (O.told out.new) bytes.now result }
    ensures cause { SinkHasCause (O.faults out.old) (O.faults out.new) result }
{
    let mut rest = bytes;
    while !rest.is_empty() {
        let count = out.put(rest)?;
        rest = &rest[count..];
    }
    Ok(())
}
