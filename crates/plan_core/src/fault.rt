// Why rounds can't stand in place of a list of a plan.
ghost use Rattle.std.specs.Prelude.{◌≡◌};
ghost use Rattle.plan_core.specs.declared.fault.SwapFault.TheVariants as swap_fault;

use edge_table::Edge;
use replay::RoundFault;
use std::alloc::{AllocError, AllocFailed};

/// Why rounds can't stand in place of a list of a plan. The earliest that holds is named.
#[derive(Clone, Copy, Debug, PartialEq, Eq)]
pub enum SwapFault {
    /// The first fault of the rounds.
    Round(RoundFault),
    /// The rounds lead elsewhere than to the centre. The edge is the first one of their end in edge order that the centre doesn't have.
    OtherEnd(Edge),
    /// The flips of the rounds need so many rounds, and those of the list no more.
    NotFewer { held: u64, given: u64 },
    OutOfMemory,
}

impl From<AllocError> for SwapFault {
    ghost from_gives = { λ _ e. e ≡ swap_fault.OutOfMemory };

    fn from(_e: AllocError) -> Self {
        SwapFault::OutOfMemory
    }
}

impl<T: Drop> From<AllocFailed<T>> for SwapFault {
    ghost from_gives = { λ _ e. e ≡ swap_fault.OutOfMemory };

    fn from(_e: AllocFailed<T>) -> Self {
        SwapFault::OutOfMemory
    }
}
