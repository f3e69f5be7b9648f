//! The laws of sweeps: the points before one that a sweep joins it with are those that it sees along their boundary.
#![tactic(auto)]

ghost use Rattle.sweep_law.specs.Laws.{SweepOrdersAreUnique, FirstPointsAreAlone, SweepsJoinWhatIsSeen, BoundariesGrow};

/// The laws of sweeps.
pub fn laws()
    ensures sweep_orders_are_unique { SweepOrdersAreUnique }
    ensures first_points_are_alone { FirstPointsAreAlone }
    ensures sweeps_join_what_is_seen { SweepsJoinWhatIsSeen }
    ensures boundaries_grow { BoundariesGrow }
{}
