// Why a formula isn't built.
ghost use Rattle.std.specs.Prelude.{◌≡◌};
ghost use Rattle.flip_cnf.specs.declared.fault.BuildFault.TheVariants as build_fault;

use std::alloc::AllocError;

/// Why a formula isn't built. The earliest that holds is named.
#[derive(Clone, Copy, Debug, PartialEq, Eq)]
pub enum BuildFault {
    /// There are so many points, more than 64.
    ManyPoints(u32),
    /// It would have so many clauses, more than 400,000.
    TooLarge(u64),
    OutOfMemory,
}

impl From<AllocError> for BuildFault {
    ghost from_gives = { λ _ e. e ≡ build_fault.OutOfMemory };

    fn from(_e: AllocError) -> Self {
        BuildFault::OutOfMemory
    }
}
