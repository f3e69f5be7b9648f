//! A triangulation that can be flipped: the sides of its triangles, each with its third corner, found by their ends.
#![tactic(auto)]

mod build;
mod mesh;
mod search;
mod threads;
mod turn;

pub use mesh::{Mesh, Quad, Wings};
