//! The half edges of a triangulation in one flat list, each with the places of its neighbours, so that a walk from triangle to triangle searches for nothing.
#![tactic(auto)]

mod build;
mod graph;
mod half;
mod search;
mod sides;
mod threads;

pub use graph::HalfEdges;
pub use half::{Beyond, HalfEdge};
