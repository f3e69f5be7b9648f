// What keeps a text from being an instance.
ghost use Rattle.std.specs.Prelude.{◌≡◌};
ghost use Rattle.instance_json.specs.Members.{name_of};
ghost use Rattle.instance_json.specs.declared.fault.InstanceFault.TheVariants as faults;

use std::alloc::{AllocError, AllocFailed};

/// A member of an instance's object that is read. The weights may be missing, and no other.
#[derive(Clone, Copy, Debug, PartialEq, Eq)]
pub enum Member {
    Uid,
    PointsX,
    PointsY,
    Triangulations,
    Weights,
}

/// What is wrong with a text, in the order in which it is looked for. Of one kind the members go in the order of `Member`, and in a member the least place comes first.
#[derive(Clone, Copy, Debug, PartialEq, Eq)]
pub enum Form {
    /// The bytes are no text of JSON.
    NotJson,
    /// The text is no object.
    NotObject,
    /// The object lacks the member, which isn't the weights.
    Missing(Member),
    /// The name is no string, the coordinates or the weights are no list, or the triangulations no list of lists of two-element lists.
    WrongType(Member),
    /// In the member, the element with this place is no whole number, or doesn't fit 64 bits with a sign. For coordinates and weights the place is the index. For triangulations it counts the elements of all pairs that stand before. Both from 0.
    NotInteger(Member, u64),
    /// There are so many x and so many y.
    LengthMismatch(u64, u64),
    /// There are so many weights for so many triangulations.
    WeightCount(u64, u64),
}

/// Why a text gives no instance.
#[derive(Clone, Copy, Debug, PartialEq, Eq)]
pub enum InstanceFault {
    /// The first fault, in the order of `Form`.
    Form(Form),
    OutOfMemory,
}

impl Member {
    /// The member's name in the text.
    pub fn name(self) -> &'static str
        ensures { result.now ≡ name_of self }
    {
        match self {
            Member::Uid => "instance_uid",
            Member::PointsX => "points_x",
            Member::PointsY => "points_y",
            Member::Triangulations => "triangulations",
            Member::Weights => "x_weights",
        }
    }
}

impl From<Form> for InstanceFault {
    ghost from_gives = { λ f e. e ≡ faults.Form f };

    fn from(form: Form) -> Self {
        InstanceFault::Form(form)
    }
}

impl From<AllocError> for InstanceFault {
    ghost from_gives = { λ _ e. e ≡ faults.OutOfMemory };

    fn from(_: AllocError) -> Self {
        InstanceFault::OutOfMemory
    }
}

impl<T: Drop> From<AllocFailed<T>> for InstanceFault {
    ghost from_gives = { λ _ e. e ≡ faults.OutOfMemory };

    fn from(_: AllocFailed<T>) -> Self {
        InstanceFault::OutOfMemory
    }
}
