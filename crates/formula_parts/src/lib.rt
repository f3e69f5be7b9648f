//! What formulas of rounds are made of: the segments, crossings and flips of few points, and clauses that are added group by group.
#![tactic(auto)]

mod clauses;
mod crossings;
mod flips;
mod lists;
mod points;
mod segments;
mod tables;
mod threads;

pub use clauses::{add_asked, pair, unit};
pub use lists::Lists;
