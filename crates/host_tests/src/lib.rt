//! Tests of stores and sinks, over files in memory and over real ones.
#![tactic(auto)]

#[cfg(test)]
mod files;
#[cfg(test)]
mod memory;
