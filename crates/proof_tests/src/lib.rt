//! Tests of formulas, searches, rows and assignments.
#![tactic(auto)]

#[cfg(test)]
mod assignments;
#[cfg(test)]
mod formulas;
#[cfg(test)]
mod polygons;
#[cfg(test)]
mod pruned_builds;
#[cfg(test)]
mod pruned_sizes;
#[cfg(test)]
mod rows;
