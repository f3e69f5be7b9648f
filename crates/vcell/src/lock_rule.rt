// What seats at the lock know, and the rule of its table, which holds between any two steps.
//
// Word 0 is the next ticket, word 1 the ticket that is served, and word 2 the number of the value's entries. The slot has the value.
// There are eight kinds of step: draw a ticket; load the ticket served, which gives the slot to the seat that has that ticket; take the value
// out of the slot; put it back; raise the count; raise the ticket served, which brings the slot home; split a seat; join two seats.
use crate::grows::Grows;
use atomic_table::{Join, Play, Split, TableRule};
use std::collections::LinkedList;
use std::snapshot::Snapshot;

/// How far a seat is with its turn. No value of it is made.
pub enum Stage<V> {
    /// It has no ticket.
    Idle,
    /// It has the ticket, which isn't served yet, as far as it knows.
    Waits(u64),
    /// Its ticket is served, and it found the value so.
    Found(u64, V),
    /// It has raised the count, from the value that it found to the value that it leaves.
    Raised(u64, V),
}

/// What a seat knows. No value of it is made.
pub struct View<V> {
    /// For how many of all seats it stands: one more than the splits that it has left, and 0 once another seat took it in.
    pub seats: u64,
    /// How many entries it made.
    pub made: u64,
    /// The value as it was last seen.
    pub last: Option<V>,
    /// The values as seats that it took in had seen them, and as it had seen them itself before that.
    pub olds: LinkedList<V>,
    pub stage: Stage<V>,
}

/// What the lock was made with.
#[derive(Drop)]
pub struct Origin<V> {
    pub start: Snapshot<V>,
    pub seats: u64,
}

/// What each seat has seen is a beginning of the value's entries, and one seat at a time has the value.
pub struct SeenIsPrefix;

impl<V: Grows> TableRule<Option<V>, View<V>, Origin<V>> for SeenIsPrefix {
    ghost use Rattle.vcell.specs.Steps.{Keeps, first_view};

    ghost holds = { Keeps V.entries V.ground };

    ghost first = { λ k. first_view k.start.value k.seats };
}

pub(crate) struct DrawTicket;

impl<V: Grows> Play<Option<V>, View<V>> for DrawTicket {
    ghost use Rattle.vcell.specs.Steps.{DrawsTicket};

    ghost then = { DrawsTicket };
}

pub(crate) struct LoadServing;

impl<V: Grows> Play<Option<V>, View<V>> for LoadServing {
    ghost use Rattle.vcell.specs.Steps.{LoadsServing};

    ghost then = { LoadsServing V.entries V.ground };
}

pub(crate) struct RaiseCount;

impl<V: Grows> Play<Option<V>, View<V>> for RaiseCount {
    ghost use Rattle.vcell.specs.Steps.{RaisesCount};

    ghost then = { RaisesCount V.entries };
}

pub(crate) struct RaiseServing;

impl<V: Grows> Play<Option<V>, View<V>> for RaiseServing {
    ghost use Rattle.vcell.specs.Steps.{RaisesServing};

    ghost then = { RaisesServing };
}

pub(crate) struct Seating;

impl<V: Grows> Split<View<V>> for Seating {
    ghost use Rattle.vcell.specs.Steps.{without_one_seat, of_one_seat};

    ghost left = { without_one_seat };

    ghost right = { of_one_seat };
}

impl<V: Grows> Join<View<V>> for Seating {
    ghost use Rattle.vcell.specs.Steps.{of_both, spent};

    ghost both = { of_both V.entries };

    ghost spent = { spent };
}
