//! Instances as JSON texts.
#![tactic(auto)]

mod fault;
mod read;
mod threads;

pub use fault::{Form, InstanceFault, Member};
pub use read::{laws, read_instance};
