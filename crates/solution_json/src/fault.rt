// What keeps a text from being a solution.
ghost use Rattle.std.specs.Prelude.{◌≡◌};
ghost use Rattle.solution_json.specs.Members.{name_of};
ghost use Rattle.solution_json.specs.declared.fault.SolutionFault.TheVariants as faults;

use std::alloc::{AllocError, AllocFailed};

/// A member of a solution's object that is read.
#[derive(Clone, Copy, Debug, PartialEq, Eq)]
pub enum SolMember {
    Uid,
    Flips,
}

/// What is wrong with a text, in the order in which it is looked for. Of one kind the members go in the order of `SolMember`, and the least place comes first. A place counts the elements of all pairs that stand before, from 0.
#[derive(Clone, Copy, Debug, PartialEq, Eq)]
pub enum SolForm {
    /// The bytes are no text of JSON.
    NotJson,
    /// The text is no object.
    NotObject,
    /// The object lacks the member.
    Missing(SolMember),
    /// The name is no string, or the flips are no list of lists of lists of two-element lists.
    WrongType(SolMember),
    /// The element with this place is no whole number, or doesn't fit 64 bits with a sign.
    NotInteger(u64),
    /// The two numbers of the pair whose first element has this place are equal, or one is below 0 or above 4,294,967,295.
    BadPair(u64),
}

/// Why a text gives no solution.
#[derive(Clone, Copy, Debug, PartialEq, Eq)]
pub enum SolutionFault {
    /// The first fault, in the order of `SolForm`.
    Form(SolForm),
    OutOfMemory,
}

impl SolMember {
    /// The member's name in the text.
    pub fn name(self) -> &'static str
        ensures { result.now ≡ name_of self }
    {
        match self {
            SolMember::Uid => "instance_uid",
            SolMember::Flips => "flips",
        }
    }
}

impl From<SolForm> for SolutionFault {
    ghost from_gives = { λ f e. e ≡ faults.Form f };

    fn from(form: SolForm) -> Self {
        SolutionFault::Form(form)
    }
}

impl From<AllocError> for SolutionFault {
    ghost from_gives = { λ _ e. e ≡ faults.OutOfMemory };

    fn from(_: AllocError) -> Self {
        SolutionFault::OutOfMemory
    }
}

impl<T: Drop> From<AllocFailed<T>> for SolutionFault {
    ghost from_gives = { λ _ e. e ≡ faults.OutOfMemory };

    fn from(_: AllocFailed<T>) -> Self {
        SolutionFault::OutOfMemory
    }
}
