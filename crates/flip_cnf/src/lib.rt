//! The formula of k rounds between two inputs of an instance, and the rounds that a model of it tells.
#![tactic(auto)]

mod build;
mod decode;
mod fault;
mod frame;
mod numbers;
mod size;
mod threads;

pub use fault::BuildFault;
pub use frame::Frame;
