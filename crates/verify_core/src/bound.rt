// The bound of rows and a permutation of copies.
ghost use Rattle.std.specs.Prelude.{◌≡◌, ◌<◌, ◌≤◌, length, map, sum, eqb, ◌&&◌};
ghost use Rattle.assignment_law.specs.Assignments.{IsAssignment};
ghost use Rattle.bound_law.specs.Copies.{copy_lower};
ghost use Rattle.plan_law.specs.Books.{lower_of};
ghost use Rattle.verify_core.specs.Faults.{pair_row, bound_by};
ghost use Rattle.verify_core.specs.Bounds.{lower_in};

use cert_text::RowList;
use match_bound::Perm;
use pair_rows::Row;
use tri_check::Instance;

// Whether the row is of these two inputs.
fn is_of(row: &Row, low: u32, high: u32) -> bool
    ensures { result ≡ (eqb row.now.i low && eqb row.now.j high) }
{
    row.i == low && row.j == high
}

// The lower bound of the first row of these two inputs, and 0 without one.
fn lower_at(rows: &RowList, low: u32, high: u32) -> u32
    ensures { result ≡ lower_in rows.now low high }
{
    for r in 0..rows.len() {
        let row = rows.at(r);
        if is_of(row, low, high) {
            return row.lower;
        }
    }
    0
}

// And of two inputs in either order.
fn lower_of(rows: &RowList, i: u32, j: u32) -> u32
    ensures { result ≡ lower_of (map pair_row rows.now) i j }
{
    if i < j {
        lower_at(rows, i, j)
    } else {
        lower_at(rows, j, i)
    }
}

// And of two copies.
fn copy_lower(inst: &Instance, rows: &RowList, c: u32, d: u32) -> u32
    requires first { c < sum inst.now.weights }
    requires second { d < sum inst.now.weights }
    ensures { result ≡ copy_lower inst.now.weights (lower_of (map pair_row rows.now)) c d }
{
    lower_of(rows, inst.copy_of(c), inst.copy_of(d))
}

/// The bound of rows and a permutation of the copies: half the sum of the lower bounds, rounded up. It goes through all rows for each number of the permutation.
pub fn bound_of(inst: &Instance, rows: &RowList, perm: &Perm) -> u64
    requires { IsAssignment (sum inst.now.weights) perm.now }
    ensures { result ≡ bound_by inst.now.weights rows.now perm.now }
{
    let mut sum: u64 = 0;
    for c in 0..inst.copies() {
        sum += copy_lower(inst, rows, c, *perm.at(c as usize)) as u64;
    }
    (sum + 1) / 2
}
