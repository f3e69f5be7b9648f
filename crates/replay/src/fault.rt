// What makes lists of edges no schedule.
ghost use Rattle.std.specs.Prelude.{◌≡◌};
ghost use Rattle.replay.specs.declared.fault.ReplayFault.TheVariants as replay_fault;
ghost use Rattle.replay.specs.declared.fault.ScoreFault.TheVariants as score_fault;

use edge_table::Edge;
use std::alloc::{AllocError, AllocFailed};

/// What is wrong with a round: its place from 0, and its first edge in list order that has a fault. Of several faults of one edge the earliest here is named.
#[derive(Clone, Copy, Debug, PartialEq, Eq)]
pub enum RoundFault {
    /// The edge isn't a member before the round.
    NotEdge(u64, Edge),
    /// The edge stood earlier in the round.
    Twice(u64, Edge),
    /// The edge has no strictly convex quadrilateral of two empty triangles, so it doesn't flip.
    NotConvex(u64, Edge),
    /// One of the edge's triangles is used by the second edge, which stood earlier in the round. It is the first such one.
    SharedTriangle(u64, Edge, Edge),
}

/// Why rounds are refused.
#[derive(Clone, Copy, Debug, PartialEq, Eq)]
pub enum ReplayFault {
    /// The first fault: by round, then by place in the round.
    Round(RoundFault),
    OutOfMemory,
}

/// Why the rounds of an instance's inputs are refused. The earliest that holds is named.
#[derive(Clone, Copy, Debug, PartialEq, Eq)]
pub enum ScoreFault {
    /// So many lists of rounds are given, and so many inputs there are.
    InputCount { said: u64, is: u64 },
    /// The rounds of the input with this place have this first fault, and those of no earlier input have one.
    Round(u32, RoundFault),
    /// The input with this place is the first whose rounds don't end where those of input 0 do.
    NoCommonCentre(u32),
    OutOfMemory,
}

impl From<RoundFault> for ReplayFault {
    ghost from_gives = { λ fault e. e ≡ replay_fault.Round fault };

    fn from(fault: RoundFault) -> Self {
        ReplayFault::Round(fault)
    }
}

impl From<AllocError> for ReplayFault {
    ghost from_gives = { λ _ e. e ≡ replay_fault.OutOfMemory };

    fn from(_e: AllocError) -> Self {
        ReplayFault::OutOfMemory
    }
}

impl<T: Drop> From<AllocFailed<T>> for ReplayFault {
    ghost from_gives = { λ _ e. e ≡ replay_fault.OutOfMemory };

    fn from(_e: AllocFailed<T>) -> Self {
        ReplayFault::OutOfMemory
    }
}

impl From<AllocError> for ScoreFault {
    ghost from_gives = { λ _ e. e ≡ score_fault.OutOfMemory };

    fn from(_e: AllocError) -> Self {
        ScoreFault::OutOfMemory
    }
}
