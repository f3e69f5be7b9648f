// Why an instance gets no start.
ghost use Rattle.std.specs.Prelude.{◌≡◌};
ghost use Rattle.lawson_start.specs.declared.fault.StartFault.TheVariants as start_fault;

use std::alloc::{AllocError, AllocFailed};

/// Why an instance gets no start.
#[derive(Clone, Copy, Debug, PartialEq, Eq)]
pub enum StartFault {
    /// The input with this place is the first whose run has more flips than the budget.
    FlipBudget(u32),
    OutOfMemory,
}

impl From<AllocError> for StartFault {
    ghost from_gives = { λ _ e. e ≡ start_fault.OutOfMemory };

    fn from(_e: AllocError) -> Self {
        StartFault::OutOfMemory
    }
}

impl<T: Drop> From<AllocFailed<T>> for StartFault {
    ghost from_gives = { λ _ e. e ≡ start_fault.OutOfMemory };

    fn from(_e: AllocFailed<T>) -> Self {
        StartFault::OutOfMemory
    }
}
