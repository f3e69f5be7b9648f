//! Tests of workers side by side.
#![tactic(auto)]

#[cfg(test)]
mod gates;
#[cfg(test)]
mod many_runs;
#[cfg(test)]
mod solving;
#[cfg(test)]
mod turns;
#[cfg(test)]
mod words;
