//! Replays rounds of flips over a triangulation, and scores the rounds of all inputs of an instance.
#![tactic(auto)]

ghost use Rattle.replay.specs.Laws.{EndsAreUnique, SchedulesHaveNoFault, FirstFaultsAreUnique, PlansHaveNoFault, ScoreFaultsAreUnique};

mod fault;
mod round;
mod schedule;
mod scoring;
mod sides;
mod threads;

pub use fault::{ReplayFault, RoundFault, ScoreFault};
pub use schedule::replay;
pub use scoring::{Scored, score, total};

/// The laws of first faults. So a replay and a score succeed exactly where they can, and a fault is the only one that there is to name.
pub fn laws()
    ensures ends_are_unique { EndsAreUnique }
    ensures schedules_have_no_fault { SchedulesHaveNoFault }
    ensures first_faults_are_unique { FirstFaultsAreUnique }
    ensures plans_have_no_fault { PlansHaveNoFault }
    ensures score_faults_are_unique { ScoreFaultsAreUnique }
{}
