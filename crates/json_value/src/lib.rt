//! JSON texts as values, and lists of numbers and of pairs of numbers in them.
#![tactic(auto)]

mod pairs;
mod text;
mod threads;

pub use pairs::{are_pair_lists, are_pairs, pair_lists_in, pairs_in};
pub use text::{NumberFault, ParseFault, numbers_in, parse};
