//! Tests of certificates whose rows stand on logs.
#![tactic(auto)]

#[cfg(test)]
mod hexagon;
