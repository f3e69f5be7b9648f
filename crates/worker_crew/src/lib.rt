//! Workers side by side at one book: each draws turns and takes them, in a thread of its own where one can be made.
#![tactic(auto)]

mod crew;
mod gate;
mod run;
mod taken;
mod threads;
mod worker;

pub use gate::{Gate, NoGate};
pub use run::run_turns;
