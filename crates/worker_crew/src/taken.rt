// The turns that a worker took, and what they came to.
use item_list::ItemList;
use seat_list::SeatList;
use worker_pool::Outcome;

// A turn that a worker took, and its outcome.
#[derive(Clone, Copy, Debug, PartialEq, Eq)]
pub(crate) struct Taken {
    pub(crate) turn: u64,
    pub(crate) outcome: Outcome,
}

// In the order in which the worker drew them.
pub(crate) type TakenList = ItemList<Taken>;

// Those of each worker.
pub(crate) type Parts = SeatList<TakenList>;
