// The search: decisions, unit steps, and a lesson from each conflict.
ghost use Rattle.std.specs.Prelude.{◌≡◌, ◌+◌, ◌<◌, ◌≤◌, ◌++◌, ◌∷◌, [], length, drop, MatchOption, IfOk};
ghost use Rattle.log_law.specs.Trails.{literals};
ghost use Rattle.log_law.specs.SearchLaws.{IsConflict};
ghost use Rattle.sat_state.specs.Searches.{IsSearch};
ghost use Rattle.sat_search.specs.Answers.{IsAnswer};
ghost use Rattle.sat_search.specs.Choices.{IsFull, AreTold, IsReady};
ghost use Rattle.sat_search.specs.Lessons.{lines_from};

use crate::lesson::{learn, lesson};
use crate::order::Order;
use rup_check::{Cnf, Hints, Line, Log, Truth, line_cost};
use sat_state::State;
use std::alloc::{AllocError, Global};

/// What a search comes to.
#[derive(Debug, Drop)]
pub enum Answer {
    /// A truth value for each variable, that satisfies every clause.
    Sat(Truth),
    /// A log that refutes the formula, within the budget.
    Refuted(Log),
    /// What was learnt until the budget was passed.
    Spent(Log),
}

// Decides and makes unit steps until there is a conflict, or each variable has a value.
fn go_on(state: &mut State, order: &mut Order) -> Option<u32>
    requires { IsReady state.old.variables (literals state.old.trail) order.old }
    ensures ready { IsReady state.new.variables (literals state.new.trail) order.new }
    ensures same { state.new ≡ record state.old { trail = state.new.trail; level = state.new.level } }
    ensures search { IsSearch state.new }
    ensures ends { MatchOption result (IsFull state.new) (λ id. IsConflict state.new.clauses state.new.trail id) }
{
    loop {
        let falsified = state.spread();
        if falsified.is_some() {
            return falsified;
        }
        match order.next(state) {
            Some(l) => state.decide(l),
            None => return None,
        }
    }
}

// The values of all variables.
fn truth_of(alloc: Global, vars: u32, state: &State) -> Result<Truth, AllocError>
    requires vars { vars ≡ state.now.variables }
    requires full { IsFull state.now }
    ensures long { IfOk result (λ truth. length truth ≡ vars) }
    ensures told { IfOk result (λ truth. AreTold state.now vars truth) }
{
    let mut truth = Truth::make(alloc);
    for v in 0..vars {
        truth.push(state.value(v + 1).unwrap_or(false))?;
    }
    Ok(truth)
}

// The log of the clauses that were learnt after the formula's, with these hints, and of a last line.
fn log_of(
    alloc: Global,
    cnf: &Cnf,
    state: State,
    hints: Vec<Hints>,
    last: Line,
) -> Result<Log, AllocError>
    requires known { length cnf.now.clauses ≤ length state.clauses }
    requires few { length state.clauses < 4_000_000_000 }
    requires each { length cnf.now.clauses + length hints.items ≡ length state.clauses }
    ensures { IfOk result (λ log. log ≡ lines_from (length cnf.now.clauses + 1) (drop (length cnf.now.clauses) state.clauses) hints.items ++ last ∷ []) }
{
    let mut log = Log::make(alloc);
    let mut id = cnf.len();
    for (lits, hints) in state.into_clauses(id)?.into_iter().zip(hints) {
        id += 1;
        log.push(Line { id, lits, hints })?;
    }
    log.push(last)?;
    Ok(log)
}

/// Searches for a model: it decides, makes unit steps, and learns a clause from each conflict, which becomes a line of
/// the log. The same formula and budget give the same answer.
///
/// The cost of the log bounds the conflicts: a line costs 3 at least. A conflict takes time near the unit steps that it
/// undoes and the literals of the clauses that it resolves, with a logarithm for each; once in some hundred conflicts
/// there is a pass over the variables. A decision takes time logarithmic in the variables, but for the entries of the
/// order of decisions that it passes over. Each of these was put there once: at first, for a step that was undone, or for
/// a literal that was learnt. No clause is copied but those of the formula, once.
pub fn solve(alloc: Global, cnf: &Cnf, budget: u64) -> Result<Answer, AllocError>
    requires few { length cnf.now.clauses ≤ 400_000 }
    requires small { budget ≤ 1_000_000 }
    ensures { IfOk result (IsAnswer cnf.now budget) }
{
    let vars = cnf.vars();
    let mut state = State::of(alloc, cnf)?;
    let mut order = Order::make(alloc, vars)?;
    let mut hints = Vec::new(alloc);
    let mut cost: u64 = 0;
    for place in 0..budget + 1 {
        let Some(conflict) = go_on(&mut state, &mut order) else {
            return Ok(Answer::Sat(truth_of(alloc, vars, &state)?));
        };
        let id = cnf.len() + place as u32 + 1;
        let line = lesson(alloc, &state, conflict, id)?;
        cost = cost.saturating_add(line_cost(&line));
        if cost > budget {
            return Ok(Answer::Spent(log_of(alloc, cnf, state, hints, line)?));
        }
        if line.lits.is_empty() {
            return Ok(Answer::Refuted(log_of(alloc, cnf, state, hints, line)?));
        }
        order.raise(&line.lits)?;
        hints.push(line.hints)?;
        learn(&mut state, &mut order, line.lits)?;
    }
    unreachable!()
}

#[cfg(test)]
mod tests;
