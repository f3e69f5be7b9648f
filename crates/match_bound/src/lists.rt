// Lists of numbers: permutations and potentials.
ghost use Rattle.std.specs.Prelude.{◌≡◌, ◌<◌, ◌^◌, pos, All, map, IfOk};

use item_list::ItemList;
use std::alloc::{AllocError, Global};

/// What each input goes to, seen as a list of input numbers: place `i` is for input `i`.
pub type Perm = ItemList<u32>;

/// A list of whole numbers, one for each input.
pub type Ints = ItemList<i64>;

/// These numbers, none of which is below 0.
pub(crate) fn ints_of(alloc: Global, numbers: &[u64]) -> Result<Ints, AllocError>
    requires { All (λ n. n < 2 ^ 32) numbers.now }
    ensures { IfOk result (λ made. made ≡ map pos numbers.now) }
{
    let mut made = Ints::with_room(alloc, numbers.len())?;
    for n in numbers {
        made.push(*n as i64)?;
    }
    Ok(made)
}
