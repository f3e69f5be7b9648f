//! Generated instances: the same points and sweeps for everyone who names the same seed.
#![tactic(auto)]

ghost use Rattle.gen_instance.specs.Laws.{InstancesAreGeneratedOnce};

mod boundary;
mod direction;
mod generating;
mod order;
mod points;
mod sweep;

pub use generating::generate;

/// The law of generated instances.
pub fn laws()
    ensures instances_are_generated_once { InstancesAreGeneratedOnce }
{}
