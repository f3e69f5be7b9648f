// Unit steps, from the clauses that new literals and new clauses touch.
ghost use Rattle.std.specs.Prelude.{◌≡◌, ℕ, ◌<◌, ◌≤◌, true, false, None, length, Contains, IfSome, IsNone, IsTrue};
ghost use Rattle.log_law.specs.Clauses.{negated};
ghost use Rattle.log_law.specs.Units.{IsFalsified, IsStill, IsAtRest};
ghost use Rattle.log_law.specs.Trails.{literals};
ghost use Rattle.log_law.specs.SearchLaws.{IsConflict};
ghost use Rattle.log_law.specs.Clauses.{IsVariable};
ghost use Rattle.sat_state.specs.Searches.{IsSearch, GoesOn};
ghost use Rattle.sat_state.specs.Tables.{search_of, clause_no, IsUntouched, IsSettled};

use crate::look::Look;
use crate::table::Table;
use log_law::{Lit, Step};

// Makes the unit step of a clause that allows one, and says whether the clause is falsified.
fn settle(table: &mut Table, level: u32, c: usize) -> bool
    requires search { IsSearch (search_of table.old level) }
    requires within { c < length table.old.clauses }
    ensures same { table.new ≡ record table.old { steps = table.new.steps } }
    ensures goes_on { GoesOn level table.old.steps table.new.steps }
    ensures search { IsSearch (search_of table.new level) }
    ensures falsified { result ≡ true → IsFalsified (literals table.new.steps) (clause_no table.new.clauses c) }
    ensures still { result ≡ false → IsStill (literals table.new.steps) (clause_no table.new.clauses c) }
{
    match table.look(c) {
        Look::Falsified => true,
        Look::Still => false,
        Look::Unit(l) => {
            table.push(Step {
                literal: l,
                level,
                reason: Some(c as u32 + 1),
            });
            false
        },
    }
}

// Settles the clauses that have the negation of a literal, or names a falsified one.
fn settle_users(table: &mut Table, level: u32, made: Lit) -> Option<u32>
    requires search { IsSearch (search_of table.old level) }
    requires in_range { IsVariable table.old.variables made.var }
    ensures same { table.new ≡ record table.old { steps = table.new.steps } }
    ensures goes_on { GoesOn level table.old.steps table.new.steps }
    ensures search { IsSearch (search_of table.new level) }
    ensures conflict { IfSome result (λ id. IsConflict table.new.clauses table.new.steps id) }
    ensures still { IsNone result → (c : ℕ) → Contains (clause_no table.new.clauses c) (negated made) → IsUntouched (length table.old.steps) table.new.steps (clause_no table.new.clauses c) → IsStill (literals table.new.steps) (clause_no table.new.clauses c) }
{
    for k in 0..table.users(made) {
        let c = table.user(made, k);
        if settle(table, level, c) {
            return Some(c as u32 + 1);
        }
    }
    None
}

// Settles the clauses from a number on, or names a falsified one.
pub(crate) fn spread_new(table: &mut Table, level: u32, seen: &mut usize) -> Option<u32>
    requires search { IsSearch (search_of table.old level) }
    requires within { seen.old ≤ length table.old.clauses }
    ensures same { table.new ≡ record table.old { steps = table.new.steps } }
    ensures goes_on { GoesOn level table.old.steps table.new.steps }
    ensures search { IsSearch (search_of table.new level) }
    ensures conflict { IfSome result (λ id. IsConflict table.new.clauses table.new.steps id) }
    ensures within { seen.new ≤ length table.new.clauses }
    ensures all { IsNone result → seen.new ≡ length table.new.clauses }
    ensures settled { (looked : ℕ) → looked ≤ length table.old.steps → IsSettled seen.old looked table.old → IsSettled seen.new looked table.new }
{
    let count = table.len();
    while *seen < count {
        if settle(table, level, *seen) {
            return Some(*seen as u32 + 1);
        }
        *seen += 1;
    }
    None
}

// Settles the clauses that have a literal that is false by a step from a place on, or names a falsified one.
pub(crate) fn spread_along(table: &mut Table, level: u32, looked: &mut usize) -> Option<u32>
    requires search { IsSearch (search_of table.old level) }
    requires within { looked.old ≤ length table.old.steps }
    requires settled { IsSettled (length table.old.clauses) looked.old table.old }
    ensures same { table.new ≡ record table.old { steps = table.new.steps } }
    ensures goes_on { GoesOn level table.old.steps table.new.steps }
    ensures search { IsSearch (search_of table.new level) }
    ensures conflict { IfSome result (λ id. IsConflict table.new.clauses table.new.steps id) }
    ensures within { looked.new ≤ length table.new.steps }
    ensures settled { IsSettled (length table.new.clauses) looked.new table.new }
    ensures rest { IsNone result → IsAtRest (literals table.new.steps) table.new.clauses }
{
    while *looked < table.steps().len() {
        let step = table.steps().at(*looked);
        let falsified = settle_users(table, level, step.literal);
        if falsified.is_some() {
            return falsified;
        }
        *looked += 1;
    }
    None
}
