// The state of a search: clauses, a trail, and a level.
ghost use Rattle.std.specs.Prelude.{◌≡◌, ◌≢◌, ℕ, ◌+◌, ◌<◌, ◌≤◌, ◌++◌, ◌∷◌, [], None, length, drop, filter, nat_le, Contains, MatchOption, IfOk, OnOk, OnErr};
ghost use Rattle.log_law.specs.declared.Lit.{Lit as Literal};
ghost use Rattle.log_law.specs.Clauses.{IsVariable, IsClause};
ghost use Rattle.log_law.specs.Units.{value as value_of, IsUnassigned, IsAtRest};
ghost use Rattle.log_law.specs.Logs.{IsIdentifier, clause_at};
ghost use Rattle.log_law.specs.Trails.{step_at, literals, place_of, level_of, reason_of};
ghost use Rattle.log_law.specs.SearchLaws.{IsConflict, IsFresh};
ghost use Rattle.sat_state.specs.Searches.{IsSearch, GoesOn, MayLearn};
ghost use Rattle.sat_state.specs.Tables.{IsLevelled};

use crate::spread::{spread_along, spread_new};
use crate::table::Table;
use log_law::{Lit, Step};
use rup_check::{Clause, Cnf};
use std::alloc::{AllocError, Global};
use std::marker::Model;

/// The clauses of a formula and those that were learnt, and the literals that are true so far, each by a decision or
/// by a unit step from a clause. A variable counts from 1, a clause's identifier too, and a place on the trail from 0.
///
/// The clauses of the formula are copied once, when the state is made. Room for a trail of all variables is made there
/// too, so that from then on only [`State::learn`] takes memory, and [`State::into_clauses`] at the end.
#[derive(Drop)]
pub struct State {
    table: Table,
    level: u32,
    // the clauses that have the negation of a step's literal were looked at, for each step before this place
    looked: usize,
    // and so were all clauses before this number
    seen: usize,
}

impl Model for State {
    ghost use Rattle.sat_state.specs.Searches.{Search};
    ghost use Rattle.sat_state.specs.Tables.{search_of, IsState};

    ghost Value = { Search };

    ghost view = { λ s. search_of s.table s.level };

    ghost invariant = { λ s. IsState s.table s.level s.looked s.seen };
}

// Takes out the steps above a level, which isn't above the present one.
fn drop_above(table: &mut Table, present: u32, level: u32)
    requires levelled { IsLevelled table.old.steps present }
    requires lower { level ≤ present }
    ensures steps { table.new ≡ record table.old { steps = filter (λ step. nat_le step.level level) table.old.steps } }
    ensures levelled { IsLevelled table.new.steps level }
{
    let mut held = present;
    while held > level {
        let step = table.pop();
        if step.reason.is_none() {
            held -= 1;
        }
    }
}

impl State {
    /// The clauses of a formula, with no literal true, in time linear in their literals.
    pub fn of(alloc: Global, cnf: &Cnf) -> Result<State, AllocError>
        ensures { IfOk result (λ made. made ≡ record { variables = cnf.now.variables; clauses = cnf.now.clauses; trail = []; level = 0 }) }
    {
        let mut made = State {
            table: Table::make(alloc, cnf.vars())?,
            level: 0,
            looked: 0,
            seen: 0,
        };
        for i in 0..cnf.len() {
            made.hold(cnf.clause(i).copy()?)?;
        }
        Ok(made)
    }

    // Puts a clause at the end.
    fn hold(&mut self, clause: Clause) -> Result<(), AllocError>
        requires fits { IsClause self.old.variables clause }
        requires room { length self.old.clauses < 4_000_000_000 }
        requires second { 0 < self.old.level → (k : Literal) × (l : Literal) × Contains clause k × Contains clause l × (k ≢ l) × IsFresh self.old.trail self.old.level k × IsFresh self.old.trail self.old.level l }
        ensures ok { OnOk result (self.new ≡ record self.old { clauses = self.old.clauses ++ clause ∷ [] }) }
        ensures err { OnErr result (self.new ≡ self.old) }
    {
        self.table.hold(clause)?;
        Ok(())
    }

    /// Makes unit steps until no clause allows one, or names a clause whose literals are all false.
    ///
    /// The time is near the number of times that the clauses have the negations of the literals that are handled,
    /// with the length of each clause that has but one literal left. It takes no memory.
    pub fn spread(&mut self) -> Option<u32>
        ensures same { self.new ≡ record self.old { trail = self.new.trail } }
        ensures goes_on { GoesOn self.old.level self.old.trail self.new.trail }
        ensures search { IsSearch self.new }
        ensures rest { MatchOption result (IsAtRest (literals self.new.trail) self.new.clauses) (λ id. IsConflict self.new.clauses self.new.trail id) }
    {
        let falsified = spread_new(&mut self.table, self.level, &mut self.seen);
        if falsified.is_some() {
            return falsified;
        }
        spread_along(&mut self.table, self.level, &mut self.looked)
    }

    /// Makes a literal true at a new level.
    pub fn decide(&mut self, l: Lit)
        requires rest { IsAtRest (literals self.old.trail) self.old.clauses }
        requires in_range { IsVariable self.old.variables l.var }
        requires unassigned { IsUnassigned (literals self.old.trail) l }
        ensures { self.new ≡ record self.old { trail = self.old.trail ++ record { literal = l; level = self.old.level + 1; reason = None } ∷ []; level = self.old.level + 1 } }
    {
        let raised = self.level + 1;
        self.table.push(Step {
            literal: l,
            level: raised,
            reason: None,
        });
        self.level = raised;
    }

    /// Goes back to a level: the literals of higher ones are no longer true.
    ///
    /// The time is near the number of times that the clauses have the negations of those. It takes no memory.
    pub fn back(&mut self, level: u32)
        requires { level ≤ self.old.level }
        ensures { self.new ≡ record self.old { trail = filter (λ step. nat_le step.level level) self.old.trail; level = level } }
    {
        if level < self.level {
            drop_above(&mut self.table, self.level, level);
            self.level = level;
            self.looked = self.table.steps().len();
            self.seen = self.table.len();
        }
    }

    /// Puts a clause at the end, and answers its identifier. After want of memory nothing has changed.
    pub fn learn(&mut self, c: Clause) -> Result<u32, AllocError>
        requires may { MayLearn self.old c }
        requires room { length self.old.clauses < 4_000_000_000 }
        ensures id { IfOk result (λ id. id ≡ length self.old.clauses + 1) }
        ensures ok { OnOk result (self.new ≡ record self.old { clauses = self.old.clauses ++ c ∷ [] }) }
        ensures err { OnErr result (self.new ≡ self.old) }
    {
        let id = self.table.len() as u32 + 1;
        self.hold(c)?;
        Ok(id)
    }

    /// The clauses after the first so many, in their order, and nothing else of the state. No clause is copied.
    pub fn into_clauses(self, from: u32) -> Result<Vec<Clause>, AllocError>
        requires { from ≤ length self.clauses }
        ensures { IfOk result (λ clauses. clauses.items ≡ drop from self.clauses) }
    {
        let mut clauses = self.table.into_clauses();
        clauses.split_off(from as usize)
    }

    /// The present level: the number of decisions that stand.
    pub fn level(&self) -> u32
        ensures level { result ≡ self.now.level }
        ensures search { IsSearch self.now }
    {
        self.level
    }

    /// The number of literals that are true.
    pub fn trail_len(&self) -> u32
        ensures steps { result ≡ length self.now.trail }
        ensures within { result ≤ self.now.variables }
        ensures search { IsSearch self.now }
    {
        self.table.steps().len() as u32
    }

    /// The literal at a place of the trail.
    pub fn trail_at(&self, i: u32) -> Lit
        requires { i < length self.now.trail }
        ensures { result ≡ (step_at self.now.trail i).literal }
    {
        self.table.steps().at(i as usize).literal
    }

    /// The place on the trail of the step about a variable.
    pub fn place(&self, var: u32) -> Option<u32>
        requires { IsVariable self.now.variables var }
        ensures { result ≡ place_of self.now.trail var }
    {
        self.table.steps().place(var)
    }

    /// Whether a variable is true, where it is assigned.
    pub fn value(&self, var: u32) -> Option<bool>
        requires { IsVariable self.now.variables var }
        ensures { result ≡ value_of (literals self.now.trail) var }
    {
        self.table.steps().value(var)
    }

    /// The level at which a variable was assigned, where it is.
    pub fn level_of(&self, var: u32) -> Option<u32>
        requires { IsVariable self.now.variables var }
        ensures { result ≡ level_of self.now.trail var }
    {
        match self.table.steps().find(var) {
            Some(step) => Some(step.level),
            None => None,
        }
    }

    /// The identifier of the clause by which a variable was assigned. It is none for a decision, and where the variable
    /// isn't assigned.
    pub fn reason(&self, var: u32) -> Option<u32>
        requires { IsVariable self.now.variables var }
        ensures { result ≡ reason_of self.now.trail var }
    {
        match self.table.steps().find(var) {
            Some(step) => step.reason,
            None => None,
        }
    }

    /// The clause with an identifier.
    pub fn clause(&self, id: u32) -> &Clause
        requires { IsIdentifier self.now.clauses id }
        ensures { result.now ≡ clause_at self.now.clauses id }
    {
        self.table.clause(id as usize - 1)
    }
}

#[cfg(test)]
mod tests;
