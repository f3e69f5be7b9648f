// The order of decisions: variables of recent conflicts first, each with the value that it had last.
ghost use Rattle.std.specs.Prelude.{◌≡◌, ℕ, ◌+◌, ◌<◌, true, false, [], length, replicate, All, IfOk, OnOk};
ghost use Rattle.std.specs.BinaryHeap.{heap_items};
ghost use Rattle.log_law.specs.Clauses.{IsVariable};
ghost use Rattle.log_law.specs.Trails.{literals};
ghost use Rattle.sat_search.specs.Choices.{IsChoice, IsWaiting, ranked, AreRanked, IsReady, KeepsWaiting, with_choice};

use log_law::Lit;
use rup_check::Clause;
use sat_state::State;
use std::alloc::{AllocError, Global};
use std::cmp::Reverse;
use std::collections::BinaryHeap;
use std::marker::Model;

// What a conflict adds to the activity of a variable at first, and where all activities are divided.
const FIRST: u64 = 1 << 10;

const HIGH: u64 = 1 << 40;

// A variable, and its activity when it was put in. The greatest activity comes first, and of those the least variable.
#[derive(PartialEq, Eq, PartialOrd, Ord, Drop)]
struct Rank {
    activity: u64,
    var: Reverse<u32>,
}

// Seen as the number of variables, and which of them wait to be decided.
//
// Each that waits has a rank with its present activity. Its older ranks stay where they are: they come later, when it
// has a value, and are passed over. So is the rank of a variable that got its value by a unit step.
#[derive(Drop)]
pub(crate) struct Order {
    vars: u32,
    activity: Vec<u64>,
    phases: Vec<bool>,
    waiting: BinaryHeap<Rank>,
    waits: Vec<bool>,
    weight: u64,
}

impl Model for Order {
    ghost use Rattle.std.specs.BinaryHeap.{heap_items};
    ghost use Rattle.sat_search.specs.Choices.{Queue, IsQueue};

    ghost Value = { Queue };

    ghost view = { λ o. record { variables = o.vars; waits = o.waits.items } };

    ghost invariant = { λ o. IsQueue (record { variables = o.vars; waits = o.waits.items }) o.activity.items o.phases.items (heap_items o.waiting) };
}

// So many activities.
fn no_activity(alloc: Global, places: usize) -> Result<Vec<u64>, AllocError>
    ensures { IfOk result (λ made. length made.items ≡ places) }
{
    vec![in alloc; 0; places]
}

// So many marks of one kind.
fn marks(alloc: Global, places: usize, mark: bool) -> Result<Vec<bool>, AllocError>
    ensures { IfOk result (λ made. made.items ≡ replicate places mark) }
{
    vec![in alloc; mark; places]
}

// Divides all activities, which keeps their order but for ties.
fn divide(activity: &mut [u64]) {
    for held in activity.iter_mut() {
        *held /= HIGH / FIRST;
    }
}

// A rank for each variable that waits.
fn ranks_of(
    alloc: Global,
    vars: u32,
    activity: &[u64],
    waits: &[bool],
) -> Result<BinaryHeap<Rank>, AllocError>
    requires activity_wide { length activity.now ≡ vars + 1 }
    requires waits_wide { length waits.now ≡ vars + 1 }
    ensures in_range { IfOk result (λ ranks. All (IsVariable vars) (ranked (heap_items ranks))) }
    ensures each { IfOk result (λ ranks. AreRanked vars waits.now (heap_items ranks)) }
{
    let mut ranks = BinaryHeap::new(alloc);
    for v in 0..vars {
        let var = v + 1;
        if waits[var as usize] {
            ranks.push(Rank {
                activity: activity[var as usize],
                var: Reverse(var),
            })?;
        }
    }
    Ok(ranks)
}

impl Order {
    pub(crate) fn make(alloc: Global, vars: u32) -> Result<Self, AllocError>
        ensures { IfOk result (IsReady vars []) }
    {
        let places = vars as usize + 1;
        let activity = no_activity(alloc, places)?;
        let waits = marks(alloc, places, true)?;
        Ok(Order {
            vars,
            phases: marks(alloc, places, false)?,
            waiting: ranks_of(alloc, vars, &activity, &waits)?,
            activity,
            waits,
            weight: FIRST,
        })
    }

    // The unassigned variable of the greatest activity, the least of those, with the value that it had last. It waits no
    // more, nor do those that were passed over.
    pub(crate) fn next(&mut self, state: &State) -> Option<Lit>
        requires { IsReady state.now.variables (literals state.now.trail) self.old }
        ensures choice { IsChoice state.now state.now.variables result }
        ensures ready { IsReady state.now.variables (with_choice (literals state.now.trail) result) self.new }
    {
        while let Some(rank) = self.waiting.pop() {
            let var = rank.var.0;
            self.waits[var as usize] = false;
            if state.value(var).is_none() {
                return Some(Lit {
                    var,
                    on: self.phases[var as usize],
                });
            }
        }
        None
    }

    // Puts a variable among those that wait, by its present activity.
    fn put(&mut self, var: u32) -> Result<(), AllocError>
        requires { IsVariable self.old.variables var }
        ensures kept { OnOk result (KeepsWaiting self.old self.new) }
        ensures waits { OnOk result (IsWaiting self.new var) }
    {
        self.waiting.push(Rank {
            activity: self.activity[var as usize],
            var: Reverse(var),
        })?;
        self.waits[var as usize] = true;
        Ok(())
    }

    // Keeps the value that a literal gives its variable, which waits again.
    fn free(&mut self, l: Lit) -> Result<(), AllocError>
        requires { IsVariable self.old.variables l.var }
        ensures kept { OnOk result (KeepsWaiting self.old self.new) }
        ensures waits { OnOk result (IsWaiting self.new l.var) }
    {
        self.phases[l.var as usize] = l.on;
        if !self.waits[l.var as usize] {
            self.put(l.var)?;
        }
        Ok(())
    }

    // Keeps the values of the steps above a level, before the search goes back to it, and lets their variables wait again.
    pub(crate) fn release(&mut self, state: &State, level: u32) -> Result<(), AllocError>
        requires { self.old.variables ≡ state.now.variables }
        ensures kept { OnOk result (KeepsWaiting self.old self.new) }
        ensures freed { OnOk result (All (λ step. level < step.level → IsWaiting self.new step.literal.var) state.now.trail) }
    {
        let mut end = state.trail_len();
        while end > 0 {
            let l = state.trail_at(end - 1);
            if state.level_of(l.var).unwrap() <= level {
                return Ok(());
            }
            self.free(l)?;
            end -= 1;
        }
        Ok(())
    }

    // Raises the activity of a variable, which waits by it from now on.
    fn lift(&mut self, var: u32) -> Result<(), AllocError>
        requires { IsVariable self.old.variables var }
        ensures kept { OnOk result (KeepsWaiting self.old self.new) }
        ensures waits { OnOk result (IsWaiting self.new var) }
    {
        let held = self.activity[var as usize];
        self.activity[var as usize] = held.saturating_add(self.weight);
        self.put(var)
    }

    // Divides all activities, and makes the ranks anew. The older ones are gone.
    fn settle(&mut self) -> Result<(), AllocError>
        ensures { self.new ≡ self.old }
    {
        divide(&mut self.activity);
        self.weight /= HIGH / FIRST;
        let alloc = *self.activity.allocator();
        self.waiting = ranks_of(alloc, self.vars, &self.activity, &self.waits)?;
        Ok(())
    }

    // Raises the activity of a clause's variables, and more so at each later call.
    pub(crate) fn raise(&mut self, clause: &Clause) -> Result<(), AllocError>
        requires { All (λ l. IsVariable self.old.variables l.var) clause.now }
        ensures { OnOk result (KeepsWaiting self.old self.new) }
    {
        for i in 0..clause.len() {
            self.lift(clause.at(i).var)?;
        }
        self.weight = self.weight.saturating_add(self.weight / 16);
        if self.weight > HIGH {
            self.settle()?;
        }
        Ok(())
    }
}
