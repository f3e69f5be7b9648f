//! The best assignment of inputs to inputs under a table of weights, and the bound that an assignment gives.
#![tactic(auto)]

mod best;
mod labels;
mod lists;
mod search;
mod table;
mod threads;

pub use best::{Assign, best_assignment, perm_bound};
pub use lists::{Ints, Perm};
pub use table::Weights;
