//! The state of a search for a model: clauses, the trail of literals that are true, and unit steps.
#![tactic(auto)]

mod count;
mod look;
mod spread;
mod state;
mod steps;
mod table;
mod threads;
mod uses;

pub use state::State;
