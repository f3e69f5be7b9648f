//! Tests of the words of the command line, and of whole runs.
#![tactic(auto)]

#[cfg(test)]
mod benching;
#[cfg(test)]
mod checking;
#[cfg(test)]
mod device_faults;
#[cfg(test)]
mod edited_certificates;
#[cfg(test)]
mod runs;
#[cfg(test)]
mod sizes;
#[cfg(test)]
mod solving;
#[cfg(test)]
mod tracing;
#[cfg(test)]
mod verifying;
#[cfg(test)]
mod weights;
#[cfg(test)]
mod words;
