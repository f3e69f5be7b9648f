// The loan of the value. It has a file of its own: its clause names the row of `Held`, which the file that declares `Held` can't import.
ghost use Rattle.std.specs.Prelude.{◌≡◌, []};
ghost use mir.Syntax.{named};
ghost use Rattle.std.specs.Borrow.{Lends, sem};
ghost use Rattle.vcell.specs.contracts.cell.Held.{the_row};
ghost use Rattle.vcell.specs.Passes.{with_value};

use crate::cell::Held;
use crate::grows::Grows;

impl<'a, V: Grows> Held<'a, V> {
    /// The value. When the borrow ends, the holding has what was written through it, and is else as before.
    pub fn value(&mut self) -> &mut V
        ensures* writes_back { sem 𝓛 (Lends (the_row (record { mir = named 1; lft = [] }) V.row V.Entry.row V.Ground.row V.Grows) V.row self.entry result (with_value self.old)) }
        ensures value { result.now ≡ self.old.value }
    {
        &mut self.value
    }
}
