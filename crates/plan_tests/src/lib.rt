//! Tests of plans, and of what improves them.
#![tactic(auto)]

#[cfg(test)]
mod improvers;
#[cfg(test)]
mod openings;
#[cfg(test)]
mod plans;
#[cfg(test)]
mod polygons;
#[cfg(test)]
mod settling;
#[cfg(test)]
mod swaps;
