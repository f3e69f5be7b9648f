// Clauses under a trail: what each new step makes false is counted.
ghost use Rattle.std.specs.Prelude.{◌≡◌, ℕ, ◌+◌, ◌<◌, ◌≤◌, ◌^◌, ◌++◌, ◌∷◌, [], length, slice_index_or, IfOk, OnOk, OnErr};
ghost use Rattle.log_law.specs.Clauses.{negated, IsVariable, IsClause};
ghost use Rattle.log_law.specs.Units.{IsUnassigned};
ghost use Rattle.log_law.specs.Trails.{literals};
ghost use Rattle.sat_state.specs.Tables.{slot as slot_of, uses_at, clause_no, IsIndexed, Tells};

use crate::count::{count_down, count_open, count_up};
use crate::look::{Look, first_open};
use crate::steps::Steps;
use crate::uses::{Uses, enlist, no_uses, slot};
use log_law::{Lit, Step};
use rup_check::Clause;
use std::alloc::{AllocError, Global};
use std::marker::Model;

#[derive(Drop)]
pub(crate) struct Table {
    steps: Steps,
    clauses: Vec<Clause>,
    // for each literal the clauses that have it
    uses: Vec<Uses>,
    // for each clause how many literals aren't false
    left: Vec<usize>,
}

impl Model for Table {
    ghost use Rattle.sat_state.specs.Tables.{Table as TableValue, IsTable};

    ghost Value = { TableValue };

    ghost view = { λ t. record { variables = t.steps.variables; clauses = t.clauses.items; steps = t.steps.steps; uses = t.uses.items } };

    ghost invariant = { λ t. IsTable t.steps.variables t.clauses.items t.steps.steps t.uses.items t.left.items };
}

// The other literal of the variable.
fn negation(l: Lit) -> Lit
    ensures { result ≡ negated l }
{
    Lit {
        var: l.var,
        on: !l.on,
    }
}

impl Table {
    // No clauses, and no steps.
    pub fn make(alloc: Global, vars: u32) -> Result<Self, AllocError>
        ensures variables { IfOk result (λ made. made.variables ≡ vars) }
        ensures clauses { IfOk result (λ made. made.clauses ≡ []) }
        ensures steps { IfOk result (λ made. made.steps ≡ []) }
    {
        Ok(Table {
            steps: Steps::make(alloc, vars)?,
            clauses: Vec::new(alloc),
            uses: no_uses(alloc, vars)?,
            left: Vec::new(alloc),
        })
    }

    pub fn steps(&self) -> &Steps
        ensures variables { result.now.variables ≡ self.now.variables }
        ensures steps { result.now.steps ≡ self.now.steps }
    {
        &self.steps
    }

    // The number of clauses.
    pub fn len(&self) -> usize
        ensures clauses { result ≡ length self.now.clauses }
        ensures few { result ≤ 4_000_000_000 }
    {
        self.clauses.len()
    }

    pub fn clause(&self, c: usize) -> &Clause
        requires { c < length self.now.clauses }
        ensures { result.now ≡ clause_no self.now.clauses c }
    {
        &self.clauses[c]
    }

    // The clauses, and nothing else of the table.
    pub fn into_clauses(self) -> Vec<Clause>
        ensures { result.items ≡ self.clauses }
    {
        self.clauses
    }

    // The number of clauses that have the negation of a literal.
    pub fn users(&self, l: Lit) -> usize
        requires { IsVariable self.now.variables l.var }
        ensures users { result ≡ length (uses_at self.now.uses (slot_of (negated l))) }
        ensures indexed { IsIndexed self.now.clauses self.now.uses }
    {
        let list = &self.uses[slot(negation(l))];
        list.len()
    }

    // The number of one of them.
    pub fn user(&self, l: Lit, k: usize) -> usize
        requires in_range { IsVariable self.now.variables l.var }
        requires place { k < length (uses_at self.now.uses (slot_of (negated l))) }
        ensures number { result ≡ slice_index_or (uses_at self.now.uses (slot_of (negated l))) k 0 }
        ensures within { result < length self.now.clauses }
    {
        let list = &self.uses[slot(negation(l))];
        list.at(k) as usize
    }

    pub fn look(&self, c: usize) -> Look
        requires { c < length self.now.clauses }
        ensures { Tells (literals self.now.steps) (clause_no self.now.clauses c) result }
    {
        if self.left[c] > 1 {
            return Look::Still;
        }
        match first_open(&self.steps, &self.clauses[c]) {
            None => Look::Falsified,
            Some(l) => {
                if self.steps.value(l.var).is_some() {
                    Look::Still
                } else {
                    Look::Unit(l)
                }
            },
        }
    }

    // Puts a step at the end. It takes no memory.
    pub fn push(&mut self, step: Step)
        requires in_range { IsVariable self.old.variables step.literal.var }
        requires unassigned { IsUnassigned (literals self.old.steps) step.literal }
        ensures { self.new ≡ record self.old { steps = self.old.steps ++ step ∷ [] } }
    {
        let list = &self.uses[slot(negation(step.literal))];
        count_down(&mut self.left, list);
        self.steps.push(step);
    }

    // Takes the last step out.
    pub fn pop(&mut self) -> Step
        requires { 0 < length self.old.steps }
        ensures { self.old ≡ record self.new { steps = self.new.steps ++ result ∷ [] } }
    {
        let step = self.steps.pop();
        let list = &self.uses[slot(negation(step.literal))];
        count_up(&mut self.left, list);
        step
    }

    // Puts a clause at the end. After want of memory no clause is new, and the lists of uses name the same.
    pub fn hold(&mut self, clause: Clause) -> Result<(), AllocError>
        requires fits { IsClause self.old.variables clause }
        requires room { length self.old.clauses < 4_000_000_000 }
        ensures ok { OnOk result (self.new ≡ record self.old { clauses = self.old.clauses ++ clause ∷ []; uses = self.new.uses }) }
        ensures err { OnErr result (self.new ≡ self.old) }
    {
        let number = self.clauses.len() as u32;
        let open = count_open(&self.steps, &clause);
        self.left.reserve(1)?;
        self.clauses.reserve(1)?;
        enlist(&mut self.uses, &clause, number)?;
        self.left.push_reserved(open);
        self.clauses.push_reserved(clause);
        Ok(())
    }
}
