//! Solutions as JSON texts.
#![tactic(auto)]

mod edges;
mod fault;
mod read;
mod solution;
mod threads;
mod write;

pub use fault::{SolForm, SolMember, SolutionFault};
pub use read::{laws, read_solution};
pub use solution::Solution;
pub use write::solution_text;
