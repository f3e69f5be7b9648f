// What is learnt from a conflict, and the way back.
ghost use Rattle.std.specs.Prelude.{◌≡◌, ◌≢◌, ◌⊎◌, ℕ, ◌+◌, ◌<◌, ◌≤◌, ◌++◌, ◌∷◌, [], Some, true, length, All, Contains, IfOk, OnOk};
ghost use Rattle.log_law.specs.declared.Lit.{Lit as Literal};
ghost use Rattle.log_law.specs.Clauses.{IsVariable, Formula};
ghost use Rattle.log_law.specs.Logs.{Line as LogLine, known, AllFollow};
ghost use Rattle.log_law.specs.Trails.{level_of, literals};
ghost use Rattle.log_law.specs.SearchLaws.{IsConflict};
ghost use Rattle.sat_state.specs.Searches.{IsSearch};
ghost use Rattle.sat_search.specs.Choices.{IsReady};
ghost use Rattle.sat_search.specs.Lessons.{IsLesson, IsTaught};

use crate::left::{hints_of, literals_left};
use crate::order::Order;
use crate::resolution::resolve;
use rup_check::{Clause, Line};
use sat_state::State;
use std::alloc::{AllocError, Global};

// The line that says what a conflict teaches.
pub(crate) fn lesson(
    alloc: Global,
    state: &State,
    conflict: u32,
    id: u32,
) -> Result<Line, AllocError>
    requires search { IsSearch state.now }
    requires conflict { IsConflict state.now.clauses state.now.trail conflict }
    requires id { id ≡ length state.now.clauses + 1 }
    ensures { IfOk result (IsLesson state.now conflict) }
{
    let r = resolve(alloc, state, conflict)?;
    Ok(Line {
        id,
        lits: literals_left(alloc, state, &r.left)?,
        hints: hints_of(alloc, &r)?,
    })
}

// The highest level below the present one at which a literal of a clause was made false, or 0.
fn level_below(state: &State, clause: &Clause) -> u32
    requires above { 0 < state.now.level }
    requires in_range { All (λ l. IsVariable state.now.variables l.var) clause.now }
    ensures below { result < state.now.level }
    ensures highest { (l : Literal) → Contains clause.now l → (level : ℕ) → level_of state.now.trail l.var ≡ Some level → level < state.now.level → level ≤ result }
    ensures met { (result ≡ 0) ⊎ ((l : Literal) × Contains clause.now l × (level_of state.now.trail l.var ≡ Some result)) }
{
    let level = state.level();
    let mut lower = 0;
    for i in 0..clause.len() {
        if let Some(held) = state.level_of(clause.at(i).var) {
            if held < level && held > lower {
                lower = held;
            }
        }
    }
    lower
}

// Learns a clause that a conflict teaches: goes back as far as it still makes a unit step, and holds it.
pub(crate) fn learn(state: &mut State, order: &mut Order, clause: Clause) -> Result<(), AllocError>
    requires search { IsSearch state.old }
    requires above { 0 < state.old.level }
    requires taught { IsTaught state.old clause }
    requires ready { IsReady state.old.variables (literals state.old.trail) order.old }
    requires room { length state.old.clauses < 4_000_000_000 }
    ensures variables { OnOk result (state.new.variables ≡ state.old.variables) }
    ensures ready { OnOk result (IsReady state.new.variables (literals state.new.trail) order.new) }
    ensures held { OnOk result (state.new.clauses ≡ state.old.clauses ++ clause ∷ []) }
{
    let lower = level_below(state, &clause);
    order.release(state, lower)?;
    state.back(lower);
    state.learn(clause)?;
    Ok(())
}
