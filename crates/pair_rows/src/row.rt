// Rows: what is known of two inputs.
ghost use Rattle.std.specs.Prelude.{◌≡◌, IfOk};

use cross_bound::Side;
use edge_table::{Edge, Rounds};
use item_list::Copied;
use rup_check::Log;
use std::alloc::AllocError;

/// What shows that fewer rounds than a lower bound don't lead from one input to another.
#[derive(Debug, Drop)]
pub enum Evidence {
    /// The lower bound is 0.
    Nothing,
    /// An edge of the first input or of the second, and how many members of the other one cross it. The lower bound is the number of binary digits of the count.
    Crosses { from: Side, edge: Edge, count: u32 },
    /// A log that refutes the formula of `k` rounds. The lower bound is one more.
    Refuted { k: u32, log: Log },
}

/// Why a lower bound isn't higher.
#[derive(Debug, Drop)]
pub enum End {
    /// As many rounds lead from the first input to the second.
    Met(Rounds),
    /// The search for `k` rounds, as many as the lower bound, was given up. The lines follow from the formula.
    Spent { k: u32, log: Log },
    /// The formula of `k` rounds has this many clauses, more than 400,000.
    TooLarge { k: u32, clauses: u64 },
    /// There are this many points, more than 64.
    ManyPoints(u32),
}

/// How many rounds the inputs with the places `i` and `j` are apart at least, what shows it, and why it isn't more.
#[derive(Debug, Drop)]
pub struct Row {
    pub i: u32,
    pub j: u32,
    /// In rounds.
    pub lower: u32,
    pub evidence: Evidence,
    pub end: End,
}

impl Evidence {
    fn copy(&self) -> Result<Evidence, AllocError>
        ensures { IfOk result (λ made. made ≡ self.now) }
    {
        Ok(match self {
            Evidence::Nothing => Evidence::Nothing,
            Evidence::Crosses { from, edge, count } => Evidence::Crosses {
                from: *from,
                edge: *edge,
                count: *count,
            },
            Evidence::Refuted { k, log } => Evidence::Refuted {
                k: *k,
                log: log.copy()?,
            },
        })
    }
}

impl End {
    fn copy(&self) -> Result<End, AllocError>
        ensures { IfOk result (λ made. made ≡ self.now) }
    {
        Ok(match self {
            End::Met(rounds) => End::Met(rounds.copy()?),
            End::Spent { k, log } => End::Spent {
                k: *k,
                log: log.copy()?,
            },
            End::TooLarge { k, clauses } => End::TooLarge {
                k: *k,
                clauses: *clauses,
            },
            End::ManyPoints(n) => End::ManyPoints(*n),
        })
    }
}

impl Row {
    /// An equal row.
    pub fn copy(&self) -> Result<Row, AllocError>
        ensures { IfOk result (λ made. made ≡ self.now) }
    {
        Ok(Row {
            i: self.i,
            j: self.j,
            lower: self.lower,
            evidence: self.evidence.copy()?,
            end: self.end.copy()?,
        })
    }
}

impl Copied for Row {
    fn copy(&self) -> Result<Row, AllocError> {
        Row::copy(self)
    }
}
