//! The words of a command line, read with `clap`.
#![tactic(auto)]

mod asked;
mod command;
mod meaning;
mod name;
mod number;
mod plain;
mod read;
mod table;
mod threads;

pub use asked::{Asked, WordsFault};
pub use name::Name;
pub use read::{laws, read_words};
