// Why a certificate isn't accepted.
ghost use Rattle.std.specs.Prelude.{◌≡◌};
ghost use Rattle.verify_core.specs.declared.fault.RowFault.TheVariants as row_fault;
ghost use Rattle.verify_core.specs.declared.fault.VerifyFault.TheVariants as verify_fault;

use edge_table::Edge;
use replay::RoundFault;
use rup_check::LogFault;
use std::alloc::AllocError;

/// What is wrong with a row. It is tried for its pair, its evidence, its lower bound and its end, in this order, and the earliest fault is named.
#[derive(Clone, Copy, Debug, PartialEq, Eq)]
pub enum RowWhy {
    /// The pair isn't one of two inputs, the lower one first, or it isn't after that of the row before.
    BadPair,
    /// The edge of the evidence isn't in the input that is named.
    EdgeNotThere(Edge),
    /// So many members of the other input are said to cross the edge, and so many do.
    CountWrong { said: u32, is: u32 },
    /// There is no formula of the log: there are more than 64 points, or it would have more than 400,000 clauses.
    NoCnf,
    /// The first fault of the log.
    Log(LogFault),
    /// The lower bound isn't the one that the evidence gives.
    LowerWrong { said: u32, is: u32 },
    /// The first fault of the rounds.
    MetRound(RoundFault),
    /// The first edge of the end of the rounds that the second input hasn't.
    MetEnd(Edge),
    /// There are so many rounds, and the lower bound is another number.
    MetLength { said: u64, is: u64 },
    /// The number of rounds that was tried, and the lower bound, which is another number.
    EndK { said: u32, is: u32 },
    /// So many clauses are said, and there are so many; 0 where there are more than 64 points or at most 400,000 clauses.
    TooLargeWrong { said: u64, is: u64 },
    /// There are so many points: another number than is said, or at most 64.
    PointsWrong(u32),
}

/// Why a certificate isn't accepted: the earliest that holds.
#[derive(Clone, Copy, Debug, PartialEq, Eq)]
pub enum No {
    /// The solution is one of another instance.
    UidSolution,
    /// The certificate is one of another instance.
    UidCertificate,
    /// The solution's lists aren't as many as the inputs, or else the certificate's inputs aren't.
    InputCount { said: u64, is: u64 },
    /// The certificate's copies aren't as many as the weights of the inputs sum up to.
    CopyCount { said: u64, is: u64 },
    /// The rounds of the input with this place have this first fault.
    Round(u32, RoundFault),
    /// The input with this place is the first whose rounds don't end where those of input 0 do.
    NoCommonCentre(u32),
    /// The certificate's total, and that of the rounds.
    TotalWrong { said: u128, is: u128 },
    /// The pair of the first row that has a fault, and the fault.
    RowWrong(u32, u32, RowWhy),
    /// The first place of the permutation whose number is no copy or stood before.
    NotPermutation(u64),
    /// The certificate's bound, and that of its rows and its permutation.
    BoundWrong { said: u64, is: u64 },
}

/// Why there is no yes.
#[derive(Clone, Copy, Debug, PartialEq, Eq)]
pub enum VerifyFault {
    No(No),
    OutOfMemory,
}

// Why a row isn't accepted.
#[derive(Clone, Copy, Debug, PartialEq, Eq)]
pub enum RowFault {
    Why(RowWhy),
    OutOfMemory,
}

impl From<AllocError> for RowFault {
    ghost from_gives = { λ _ e. e ≡ row_fault.OutOfMemory };

    fn from(_e: AllocError) -> Self {
        RowFault::OutOfMemory
    }
}

impl From<AllocError> for VerifyFault {
    ghost from_gives = { λ _ e. e ≡ verify_fault.OutOfMemory };

    fn from(_e: AllocError) -> Self {
        VerifyFault::OutOfMemory
    }
}
