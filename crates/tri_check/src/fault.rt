// What makes raw values no instance.
ghost use Rattle.std.specs.Prelude.{◌≡◌};
ghost use Rattle.tri_check.specs.declared.fault.CheckFault.TheVariants.{OutOfMemory};

use edge_table::Edge;
use std::alloc::{AllocError, AllocFailed};

/// Why raw values are refused. An input is named by its place, a pair by its place in its input, a point by its number, all from 0.
#[derive(Clone, Copy, Debug, PartialEq, Eq)]
pub enum CheckFault {
    /// The first fault, in the order of `Bad`.
    Bad(Bad),
    OutOfMemory,
}

/// What is wrong with raw values, in the order in which it is looked for. From `BadVertex` to `OpenSide` all is looked for in input 0, then in input 1, and so on; the weights are looked at after all inputs. Of one kind the least in the order of the fields comes first.
#[derive(Clone, Copy, Debug, PartialEq, Eq)]
pub enum Bad {
    /// So many points are more than 16,384.
    TooManyPoints(u64),
    /// So many inputs are more than 256.
    TooManyInputs(u64),
    /// So many pairs in all inputs together are more than 2,000,000.
    TooManyPairs(u64),
    /// The point has a coordinate past 536,870,912 on either side of 0.
    CoordinateRange(u32),
    /// So many points are fewer than 3.
    TooFewPoints(u64),
    /// Two points are equal, the lower number first.
    RepeatedPoint(u32, u32),
    /// All points lie on one line.
    Collinear,
    NoInput,
    /// In the input, the pair has a number that names no point.
    BadVertex(u32, u64),
    /// In the input, the pair has equal numbers.
    Loop(u32, u64),
    /// In the input, the point lies strictly between the ends of the member.
    Blocked(u32, Edge, u32),
    /// In the input, the two members cross, the earlier one in edge order first.
    Crossing(u32, Edge, Edge),
    /// In the input, the point is an end of no member.
    LonePoint(u32, u32),
    /// In the input, the member lacks an empty triangle on a side on which points lie.
    OpenSide(u32, Edge),
    /// The weight of the input isn't from 1 to 16.
    WeightRange(u32),
    /// The weights have this sum, which is over 256.
    WeightSum(u64),
}

impl From<AllocError> for CheckFault {
    ghost from_gives = { λ _ e. e ≡ OutOfMemory };

    fn from(_: AllocError) -> Self {
        CheckFault::OutOfMemory
    }
}

impl<T: Drop> From<AllocFailed<T>> for CheckFault {
    ghost from_gives = { λ _ e. e ≡ OutOfMemory };

    fn from(_: AllocFailed<T>) -> Self {
        CheckFault::OutOfMemory
    }
}
