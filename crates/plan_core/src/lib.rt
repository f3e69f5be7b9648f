//! Plans: a centre, and for each input of an instance a list of flips that leads to it.
#![tactic(auto)]

ghost use Rattle.plan_core.specs.Laws.{SwapsHaveNoFault, SwapFaultsAreUnique};

mod fault;
mod follow;
mod list;
mod moves;
mod plan;
mod room;
mod swap;
mod threads;
mod totals;
mod trial;

pub use fault::SwapFault;
pub use list::MoveList;
pub use plan::Plan;

/// The laws of swaps. So a swap succeeds exactly where it can, and a fault is the only one that there is to name.
pub fn laws()
    ensures swaps_have_no_fault { SwapsHaveNoFault }
    ensures swap_faults_are_unique { SwapFaultsAreUnique }
{}
