// What words ask for, and why they may ask for nothing.
ghost use Rattle.std.specs.Prelude.{◌≡◌};
ghost use Rattle.centre_words.specs.declared.asked.WordsFault.TheVariants as faults;

use crate::name::Name;
use std::alloc::AllocError;

/// What is asked for, with the names of the files.
#[derive(Debug, PartialEq, Eq, Drop)]
pub enum Asked {
    /// Whether a file holds an instance.
    Check {
        instance: Name,
    },
    /// The total of a solution of an instance.
    Score {
        instance: Name,
        solution: Name,
    },
    /// A solution of an instance, and the certificate that shows its total and a bound; both are written. So many workers take the turns side by side; where there is none the caller takes them, in order. The turns are those of improvers, which draw from the seed. No input is given more flips than the last number, where there is one.
    Solve {
        instance: Name,
        solution: Name,
        certificate: Name,
        workers: u32,
        turns: u32,
        seed: u64,
        flips: Option<u64>,
    },
    /// Whether a certificate proves a solution of an instance the best.
    Verify {
        instance: Name,
        solution: Name,
        certificate: Name,
    },
    /// How many flips the run of an instance's input has; the input is named by its place.
    Trace {
        instance: Name,
        t: u64,
    },
    /// The totals and the bound of the instance that a seed names, with so many points and inputs.
    Bench {
        seed: u64,
        points: u32,
        inputs: u32,
    },
}

/// Why nothing was read.
#[derive(Clone, Copy, Debug, PartialEq, Eq)]
pub enum WordsFault {
    /// The words are those of no command.
    Words,
    OutOfMemory,
}

impl From<AllocError> for WordsFault {
    ghost from_gives = { λ _ e. e ≡ faults.OutOfMemory };

    fn from(_: AllocError) -> Self {
        WordsFault::OutOfMemory
    }
}
