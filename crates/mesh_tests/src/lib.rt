//! Tests of meshes, lists of flips, first centres, scores and bounds by crossings.
#![tactic(auto)]

#[cfg(test)]
mod crossing_bounds;
#[cfg(test)]
mod first_centres;
#[cfg(test)]
mod half_edge_lists;
#[cfg(test)]
mod meshes;
#[cfg(test)]
mod polygons;
#[cfg(test)]
mod scores;
#[cfg(test)]
mod tracks;
