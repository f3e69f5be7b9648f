//! Lists of the tokens that threads take and give back. Each list knows how many tokens it takes without memory.
#![tactic(auto)]

mod list;
mod threads;

pub use list::SeatList;

#[cfg(test)]
mod tests;
