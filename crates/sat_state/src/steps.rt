// The steps of a trail, with the place of the step about each variable at hand.
ghost use Rattle.std.specs.Prelude.{◌≡◌, ℕ, ◌+◌, ◌<◌, ◌≤◌, ◌^◌, ◌++◌, ◌∷◌, [], None, length, slice_index_or, IfOk};
ghost use Rattle.log_law.specs.Clauses.{IsVariable};
ghost use Rattle.log_law.specs.Units.{value as value_of, opposes, IsUnassigned};
ghost use Rattle.log_law.specs.Trails.{literals, step_at, step_of, place_of};
ghost use Rattle.sat_state.specs.Tables.{Held};

use log_law::{Lit, Step};
use std::alloc::{AllocError, Global};
use std::marker::Model;

// There is room for a step about each variable.
#[derive(Drop)]
pub(crate) struct Steps {
    vars: u32,
    steps: Vec<Step>,
    // for each variable where the step about it stands
    places: Vec<Option<u32>>,
}

impl Model for Steps {
    ghost use Rattle.std.specs.Prelude.{◌≤◌, vec_capacity};
    ghost use Rattle.sat_state.specs.Tables.{Held, IsHeld};

    ghost Value = { Held };

    ghost view = { λ s. record { variables = s.vars; steps = s.steps.items } };

    ghost invariant = { λ s. IsHeld s.vars s.steps.items s.places.items × (s.vars ≤ vec_capacity s.steps) };
}

// The places of the steps about so many variables, none of which has one.
fn no_places(alloc: Global, count: usize) -> Result<Vec<Option<u32>>, AllocError>
    ensures wide { IfOk result (λ made. length made.items ≡ count) }
    ensures empty { IfOk result (λ made. (v : ℕ) → slice_index_or made.items v None ≡ None) }
{
    let mut made = Vec::with_capacity(alloc, count)?;
    while made.len() < count {
        made.push(None)?;
    }
    Ok(made)
}

impl Steps {
    pub fn make(alloc: Global, vars: u32) -> Result<Self, AllocError>
        ensures { IfOk result (λ made. made ≡ record { variables = vars; steps = [] }) }
    {
        let steps = Vec::with_capacity(alloc, vars as usize)?;
        let places = no_places(alloc, vars as usize + 1)?;
        Ok(Steps {
            vars,
            steps,
            places,
        })
    }

    #[cfg(test)]
    pub fn vars(&self) -> u32
        ensures { result ≡ self.now.variables }
    {
        self.vars
    }

    pub fn len(&self) -> usize
        ensures steps { result ≡ length self.now.steps }
        ensures within { result ≤ self.now.variables }
        ensures small { self.now.variables < 2 ^ 32 }
    {
        let _vars = self.vars;
        self.steps.len()
    }

    pub fn at(&self, i: usize) -> Step
        requires { i < length self.now.steps }
        ensures { result ≡ step_at self.now.steps i }
    {
        self.steps[i]
    }

    // The place of the step about a variable.
    pub fn place(&self, var: u32) -> Option<u32>
        requires { IsVariable self.now.variables var }
        ensures { result ≡ place_of self.now.steps var }
    {
        self.places[var as usize]
    }

    // The step about a variable.
    pub fn find(&self, var: u32) -> Option<Step>
        requires { IsVariable self.now.variables var }
        ensures { result ≡ step_of self.now.steps var }
    {
        match self.place(var) {
            Some(place) => Some(self.steps[place as usize]),
            None => None,
        }
    }

    pub fn value(&self, var: u32) -> Option<bool>
        requires { IsVariable self.now.variables var }
        ensures { result ≡ value_of (literals self.now.steps) var }
    {
        match self.find(var) {
            Some(step) => Some(step.literal.on),
            None => None,
        }
    }

    pub fn is_false(&self, l: Lit) -> bool
        requires { IsVariable self.now.variables l.var }
        ensures { result ≡ opposes (value_of (literals self.now.steps) l.var) l.on }
    {
        match self.value(l.var) {
            Some(true) => !l.on,
            Some(false) => l.on,
            None => false,
        }
    }

    // Puts a step at the end. It takes no memory.
    pub fn push(&mut self, step: Step)
        requires in_range { IsVariable self.old.variables step.literal.var }
        requires unassigned { IsUnassigned (literals self.old.steps) step.literal }
        ensures { self.new ≡ record self.old { steps = self.old.steps ++ step ∷ [] } }
    {
        self.places[step.literal.var as usize] = Some(self.steps.len() as u32);
        self.steps.push_reserved(step);
    }

    // Takes the last step out.
    pub fn pop(&mut self) -> Step
        requires { 0 < length self.old.steps }
        ensures last { self.old ≡ record self.new { steps = self.new.steps ++ result ∷ [] } }
        ensures in_range { IsVariable self.new.variables result.literal.var }
        ensures unassigned { IsUnassigned (literals self.new.steps) result.literal }
    {
        match self.steps.pop() {
            Some(step) => {
                self.places[step.literal.var as usize] = None;
                step
            },
            None => unreachable!(),
        }
    }
}
