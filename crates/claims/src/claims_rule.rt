// What seats at the counter know, and the rule of its table, which holds between any two steps.
//
// The table's one word is the next number. There are three kinds of step: draw a number, split a seat, join two seats.
use atomic_table::{Join, Play, Split, TableRule};
use std::collections::LinkedList;

/// What a seat knows: for how many of all seats it stands, and the numbers that it drew. No value of it is made.
pub struct View {
    /// One more than the splits that it has left, and 0 once another seat took it in.
    pub seats: u64,
    pub numbers: LinkedList<u64>,
}

/// How many turns there are, and how many seats.
#[derive(Drop)]
pub struct Extent {
    pub turns: u64,
    pub seats: u64,
}

/// Each number below the word stands in one view, once.
pub struct EachOnce;

impl TableRule<(), View, Extent> for EachOnce {
    ghost use Rattle.claims.specs.Steps.{Keeps, first_view};

    ghost holds = { Keeps };

    ghost first = { first_view };
}

pub(crate) struct Draw;

impl Play<(), View> for Draw {
    ghost use Rattle.claims.specs.Steps.{Draws};

    ghost then = { Draws };
}

pub(crate) struct Seating;

impl Split<View> for Seating {
    ghost use Rattle.claims.specs.Steps.{without_one_seat, of_one_seat};

    ghost left = { without_one_seat };

    ghost right = { of_one_seat };
}

impl Join<View> for Seating {
    ghost use Rattle.claims.specs.Steps.{of_both, spent};

    ghost both = { of_both };

    ghost spent = { spent };
}
