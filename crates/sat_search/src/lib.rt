//! A search for a model that learns a clause from each conflict, and keeps a hinted log of what it learnt.
#![tactic(auto)]

mod left;
mod lesson;
mod order;
mod resolution;
mod search;
mod threads;

pub use search::{Answer, solve};

#[cfg(test)]
mod learning_tests;
#[cfg(test)]
mod tests;
