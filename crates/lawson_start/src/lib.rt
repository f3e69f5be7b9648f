//! The first centre of an instance: from each input the run that flips the least bad edge until none is bad.
#![tactic(auto)]

mod bad;
mod centre;
mod fault;
mod opening;
mod queue;
mod run;
mod threads;
mod traced;
mod tracing;

pub use centre::Start;
pub use fault::StartFault;
pub use opening::start;
pub use traced::Trace;
pub use tracing::trace;
