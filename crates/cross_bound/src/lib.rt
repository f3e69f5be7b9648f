//! How many members of a triangulation cross a segment, and how many rounds two triangulations are apart at least.
#![tactic(auto)]

mod best;
mod bound;
mod count;
mod start;
mod threads;
mod walk;

pub use best::Side;
pub use bound::{CrossBound, cross_bound};
pub use count::crossings;
