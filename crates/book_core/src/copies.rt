// What a row makes of a table over the copies of the inputs.
ghost use Rattle.std.specs.Prelude.{◌≡◌, ◌≢◌, ◌<◌, length, sum};
ghost use Rattle.bound_law.specs.Copies.{copy_of};
ghost use Rattle.match_bound.specs.Tables.{IsTable};
ghost use Rattle.book_core.specs.CopyTables.{SetsRow, SetsCopies};

use match_bound::Weights;
use tri_check::Instance;

// Gives the copy `c` and each copy of input `j` this weight.
fn set_row(table: &mut Weights, inst: &Instance, c: u32, j: u32, w: u32)
    requires side { length table.old ≡ sum inst.now.weights }
    requires below { c < sum inst.now.weights }
    requires other { copy_of inst.now.weights c ≢ j }
    ensures { SetsRow inst.now.weights table.old table.new c j w (sum inst.now.weights) }
{
    for d in 0..inst.copies() {
        if inst.copy_of(d) == j {
            table.set(c, d, w);
        }
    }
}

// Gives each copy of input `i` and each of input `j` this weight. The time grows with the number of copies, and for each copy of `i` once more.
pub(crate) fn set_copies(table: &mut Weights, inst: &Instance, i: u32, j: u32, w: u32)
    requires side { length table.old ≡ sum inst.now.weights }
    requires distinct { i ≢ j }
    ensures copies { SetsCopies inst.now.weights table.old table.new i j w (sum inst.now.weights) }
    ensures before { IsTable table.old }
    ensures after { IsTable table.new }
{
    let _ = table.side();
    for c in 0..inst.copies() {
        if inst.copy_of(c) == i {
            set_row(table, inst, c, j, w);
        }
    }
    let _ = table.side();
}
