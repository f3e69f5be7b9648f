// What stands in a journal.
use edge_table::{EdgeSeq, Rounds};
use match_bound::Perm;
use pair_rows::Row;

/// One line of a journal. Moves and swaps change the plan. Each line tells in which turn it was made.
#[derive(Debug, Drop)]
pub enum Entry {
    /// The edges are followed, one after the other.
    Move {
        turn: u64,
        edges: EdgeSeq,
    },
    /// The flips of the rounds, in order, stand in place of the list of the input.
    Swap {
        turn: u64,
        input: u32,
        rounds: Rounds,
    },
    /// The row of two inputs.
    Row {
        turn: u64,
        row: Row,
    },
    /// What each copy goes to.
    Pack {
        turn: u64,
        perm: Perm,
    },
}
