//! The pruned formula of k rounds between two triangulations: it has variables for those segments and flips alone that can be there.
#![tactic(auto)]

mod counting;
mod decoding;
mod numbering;
mod query;
mod sizing;
mod threads;
mod writing;

pub use decoding::decode;
pub use query::Query;
pub use sizing::size;
pub use writing::build;
