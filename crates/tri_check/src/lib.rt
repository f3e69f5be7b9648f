//! Instances: points with triangulations as inputs, and the validator that makes them from raw values.
#![tactic(auto)]

mod check;
mod fault;
mod hull;
mod instance;
mod keys;
mod members;
mod network;
mod numbers;
mod points;
mod raw;
mod table;
mod threads;
mod triang;
mod uid;
mod weights;

pub use fault::{Bad, CheckFault};
pub use instance::Instance;
pub use raw::{PairList, PointList, RawInputs, RawInstance, RawPair, WeightList};
pub use triang::Triang;
pub use uid::Uid;
