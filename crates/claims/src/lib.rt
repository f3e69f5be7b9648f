//! A counter of turns. Threads draw numbers from it, and each number is drawn once.
#![tactic(auto)]

mod claims_rule;
mod counter;
mod threads;

pub use counter::{ClaimSeat, ClaimSeats, Claims};

#[cfg(test)]
mod tests;
