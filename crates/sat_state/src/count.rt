// The counters of clauses: how many literals aren't false.
ghost use Rattle.std.specs.Prelude.{◌≡◌, ℕ, ◌+◌, ◌<◌, ◌≤◌, ◌^◌, length, slice_index_or};
ghost use Rattle.log_law.specs.Clauses.{IsClause};
ghost use Rattle.log_law.specs.Units.{remaining};
ghost use Rattle.log_law.specs.Trails.{literals};
ghost use Rattle.sat_state.specs.Tables.{times};

use crate::steps::Steps;
use crate::uses::Uses;
use rup_check::Clause;

// Counts down once for each number in the list.
pub(crate) fn count_down(left: &mut [usize], list: &Uses)
    requires { (c : ℕ) → times c list.now ≤ slice_index_or left.old c 0 }
    ensures { (c : ℕ) → slice_index_or left.old c 0 ≡ slice_index_or left.new c 0 + times c list.now }
{
    for k in 0..list.len() {
        left[list.at(k) as usize] -= 1;
    }
}

// Counts up once for each number in the list.
pub(crate) fn count_up(left: &mut [usize], list: &Uses)
    requires within { (c : ℕ) → 0 < times c list.now → c < length left.old }
    requires small { (c : ℕ) → slice_index_or left.old c 0 + times c list.now < 2 ^ 64 }
    ensures { (c : ℕ) → slice_index_or left.new c 0 ≡ slice_index_or left.old c 0 + times c list.now }
{
    for k in 0..list.len() {
        left[list.at(k) as usize] += 1;
    }
}

// How many literals of a clause aren't false.
pub(crate) fn count_open(steps: &Steps, clause: &Clause) -> usize
    requires { IsClause steps.now.variables clause.now }
    ensures { result ≡ length (remaining (literals steps.now.steps) clause.now) }
{
    let mut open = 0;
    for i in 0..clause.len() {
        if !steps.is_false(*clause.at(i)) {
            open += 1;
        }
    }
    open
}
