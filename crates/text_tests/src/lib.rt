//! Tests of texts of lines, of certificates and of their verifier.
#![tactic(auto)]

#[cfg(test)]
mod certificates;
#[cfg(test)]
mod lines;
#[cfg(test)]
mod verifying;
