// Lists of numbers that are read and written without a test of their length.
ghost use Rattle.std.specs.Prelude.{◌≡◌, length, slice_index_or};

// The number at a place, or 0 past the end.
pub(crate) fn number_at(numbers: &[u32], i: usize) -> u32
    ensures { result ≡ slice_index_or numbers.now i 0 }
{
    match numbers.get(i) {
        Some(x) => *x,
        None => 0,
    }
}

// Writes at a place, where it is there.
pub(crate) fn write_at(numbers: &mut [u32], i: usize, x: u32)
    ensures { length numbers.new ≡ length numbers.old }
{
    if let Some(y) = numbers.get_mut(i) {
        *y = x;
    }
}

// Counts one more at a place.
pub(crate) fn count_at(numbers: &mut [u32], i: usize)
    ensures { length numbers.new ≡ length numbers.old }
{
    let x = number_at(numbers, i);
    write_at(numbers, i, x.wrapping_add(1));
}
