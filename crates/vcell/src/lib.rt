//! A lock over a value that only grows. What a pass has seen of the value is the beginning of what it finds next.
#![tactic(auto)]

mod cell;
mod grows;
mod lends;
mod lock_rule;
mod threads;

pub use cell::{Held, NoCell, Pass, PassList, VCell};
pub use grows::Grows;

#[cfg(test)]
mod tests;
