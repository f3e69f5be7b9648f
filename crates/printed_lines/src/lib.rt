//! The texts of the lines that the program prints.
#![tactic(auto)]

mod fault_words;
mod lines;
mod solution_lines;
mod verify_lines;

pub use lines::{bad_text, flips_text, form_text, no_such_input_text, valid_text, words_text};
pub use solution_lines::{
    budget_text, opening_text, other_uid_text, score_fault_text, solution_form_text, solved_text,
    total_text,
};
pub use verify_lines::{cert_form_text, no_text, yes_text};
