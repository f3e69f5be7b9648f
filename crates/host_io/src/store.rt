// A store of named files, as a program sees it.
ghost use Rattle.std.specs.Prelude.{◌≡◌, Option, ℕ};
ghost use Rattle.host_io.specs.Store.{Held, Counts, CountsReads, CountsWrites, HasCause, Reads, Writes};

use crate::{Bytes, StoreFail};
use std::alloc::Global;

/// A store of bytes under names.
pub trait Store {
    /// What is held under which name, where the store tells it.
    ghost held: { Self → Option Held };

    /// How often a read has failed. It stands still at the end of a u64.
    ghost read_faults: { Self → ℕ };

    /// How often a write has failed. It stands still at the end of a u64.
    ghost write_faults: { Self → ℕ };

    /// How many calls of read and write there were. It stands still at the end of a u64.
    ghost calls: { Self → ℕ };

    /// All bytes under a name. They are what is held, where the store tells it.
    fn read(&mut self, alloc: Global, name: &str) -> Result<Bytes, StoreFail>
        ensures content { Reads (held self.old) (held self.new) name.now result }
        ensures cause { HasCause (read_faults self.old) (read_faults self.new) result }
        ensures unchanged { CountsReads (held self.old) (read_faults self.old) (read_faults self.new) result }
        ensures writes { write_faults self.new ≡ write_faults self.old }
        ensures counted { Counts (calls self.old) (calls self.new) };

    /// Puts these bytes, and no others, under a name. A write that fails may leave a first part of them.
    fn write(&mut self, name: &str, bytes: &[u8]) -> Result<(), StoreFail>
        ensures content { Writes (held self.old) (held self.new) name.now bytes.now result }
        ensures cause { HasCause (write_faults self.old) (write_faults self.new) result }
        ensures unchanged { CountsWrites (held self.old) (write_faults self.old) (write_faults self.new) result }
        ensures reads { read_faults self.new ≡ read_faults self.old }
        ensures counted { Counts (calls self.old) (calls self.new) };
}
