//! Tests of runs over files that are cut off or changed, over devices that fail, and over files at the limits of size.
#![tactic(auto)]

#[cfg(test)]
mod changed_files;
#[cfg(test)]
mod cut_files;
#[cfg(test)]
mod devices;
#[cfg(test)]
mod files;
#[cfg(test)]
mod sizes;
