//! Whether a certificate shows the total and the bound of a solution, or the first fault.
#![tactic(auto)]

ghost use Rattle.verify_core.specs.Laws.{ShownHaveNoFault, FirstFaultsAreOne, SoundRowsAreJustified};

mod bound;
mod end;
mod evidence;
mod fault;
mod formula;
mod input;
mod perm;
mod row;
mod threads;
mod verifying;

pub use fault::{No, RowWhy, VerifyFault};
pub use verifying::{Yes, verify};

/// The laws of faults. What is shown has none, so the verifier says yes exactly where it can; and there is one first fault at most, so what it names is decided by what it is given. A row that has none is justified with the formula of the certificate's version.
pub fn laws()
    ensures shown_have_no_fault { ShownHaveNoFault }
    ensures first_faults_are_one { FirstFaultsAreOne }
    ensures sound_rows_are_justified { SoundRowsAreJustified }
{}
