//! Tests of what reads and validates instances and solutions.
#![tactic(auto)]

#[cfg(test)]
mod instances;
#[cfg(test)]
mod json_lists;
#[cfg(test)]
mod solutions;
#[cfg(test)]
mod validation;
