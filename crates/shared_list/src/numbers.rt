// A list of numbers behind a lock.
ghost use Rattle.std.specs.Prelude.{◌≡◌, [], ◌∷◌, ◌++◌, OnOk, OnErr};

use std::alloc::{AllocError, Global};
use vcell::Grows;

/// The numbers that were added, in order, and how many turns there are.
#[derive(Drop)]
pub struct Numbers {
    pub turns: u64,
    pub items: Vec<u64>,
}

impl Grows for Numbers {
    type Entry = u64;

    type Ground = u64;

    ghost entries = { λ n. n.items.items };

    ghost ground = { λ n. n.turns };

    fn count(&self) -> u64 {
        self.items.len() as u64
    }
}

impl Numbers {
    pub fn new(alloc: Global, turns: u64) -> Numbers
        ensures { (result.turns ≡ turns) × (result.items.items ≡ []) }
    {
        Numbers {
            turns,
            items: Vec::new(alloc),
        }
    }

    /// Puts a number at the end.
    pub fn push(&mut self, x: u64) -> Result<(), AllocError>
        ensures turns { self.new.turns ≡ self.old.turns }
        ensures ok { OnOk result (self.new.items.items ≡ self.old.items.items ++ x ∷ []) }
        ensures err { OnErr result (self.new.items.items ≡ self.old.items.items) }
    {
        self.items.push(x)?;
        Ok(())
    }
}
