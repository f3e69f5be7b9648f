//! The directed edges of a mesh, found by their ends in a few steps, and exchanged without memory.
#![tactic(auto)]

mod chain;
mod side;
mod slots;
mod table;
mod threads;

pub use side::Side;
pub use table::SideTable;

#[cfg(test)]
mod tests;
