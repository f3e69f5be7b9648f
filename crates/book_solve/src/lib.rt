//! The book that a solver leaves: the first centre, improved and bounded in turns, settled, and with a best assignment.
#![tactic(auto)]

ghost use Rattle.book_solve.specs.Laws.{TurnsAndFinishSolve, PlansAreDetermined};

mod limits;
mod opening;
mod order;
mod solving;
mod threads;

pub use limits::log_budget;
pub use opening::open;
pub use order::Order;
pub use solving::{solve_alone, solve_together};

/// The laws of what a solver leaves.
pub fn laws()
    ensures turns_and_finish_solve { TurnsAndFinishSolve }
    ensures plans_are_determined { PlansAreDetermined }
{}
