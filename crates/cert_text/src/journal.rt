// What led from the opening to a solution.
ghost use Rattle.std.specs.Prelude.{◌≡◌, IfOk};

use edge_table::{EdgeSeq, Rounds};
use item_list::{Copied, ItemList};
use std::alloc::AllocError;

/// One change of the plan, with the number of the turn that made it.
#[derive(Debug, Drop)]
pub enum JournalLine {
    /// The edges were followed in all lists, one after the other.
    Move {
        turn: u64,
        edges: EdgeSeq,
    },
    /// The flips of the rounds were put in place of an input's list.
    Swap {
        turn: u64,
        input: u32,
        rounds: Rounds,
    },
}

impl JournalLine {
    /// An equal line.
    pub fn copy(&self) -> Result<Self, AllocError>
        ensures { IfOk result (λ made. made ≡ self.now) }
    {
        Ok(match self {
            JournalLine::Move { turn, edges } => JournalLine::Move {
                turn: *turn,
                edges: edges.copy()?,
            },
            JournalLine::Swap {
                turn,
                input,
                rounds,
            } => JournalLine::Swap {
                turn: *turn,
                input: *input,
                rounds: rounds.copy()?,
            },
        })
    }
}

impl Copied for JournalLine {
    fn copy(&self) -> Result<Self, AllocError> {
        JournalLine::copy(self)
    }
}

/// A list of changes.
pub type JournalLines = ItemList<JournalLine>;
