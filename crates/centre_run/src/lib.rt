//! The commands of the program: from the words to the status and the printed line, over any store and sink.
#![tactic(auto)]

mod benching;
mod checking;
mod ending;
mod reply;
mod scoring;
mod solving;
mod status;
mod threads;
mod top;
mod tracing;
mod verifying;

pub use ending::end_number;
pub use status::Status;
pub use top::{run, run_plain};
