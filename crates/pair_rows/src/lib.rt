//! How many rounds two inputs of an instance are apart: a lower bound with what shows it, and why it isn't higher.
#![tactic(auto)]

ghost use Rattle.pair_rows.specs.Laws.{JustifiedRowsAreTrue, FramesDontMatter, FormulasHaveFewRounds};

mod proving;
mod row;
mod threads;

pub use proving::prove_pair;
pub use row::{End, Evidence, Row};

/// The laws of rows, and of the formulas that they speak of.
pub fn laws()
    ensures justified_rows_are_true { JustifiedRowsAreTrue }
    ensures frames_dont_matter { FramesDontMatter }
    ensures formulas_have_few_rounds { FormulasHaveFewRounds }
{}
