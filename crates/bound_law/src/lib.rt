//! The laws of copies of inputs, and of the assignment bound, below which no plan has its total.
#![tactic(auto)]

ghost use Rattle.bound_law.specs.Laws.{CopiesAreCounted, CopiesAreInOrder, CopiesAreInputs, UnitWeightsCopyOnce, UnitWeightsKeepBounds, CopiesArePlans, CopiesKeepBounds, PlansJoinInputs, AssignmentsBoundPlans};

/// The laws of copies and of the assignment bound.
pub fn laws()
    ensures copies_are_counted { CopiesAreCounted }
    ensures copies_are_in_order { CopiesAreInOrder }
    ensures copies_are_inputs { CopiesAreInputs }
    ensures unit_weights_copy_once { UnitWeightsCopyOnce }
    ensures unit_weights_keep_bounds { UnitWeightsKeepBounds }
    ensures copies_are_plans { CopiesArePlans }
    ensures copies_keep_bounds { CopiesKeepBounds }
    ensures plans_join_inputs { PlansJoinInputs }
    ensures assignments_bound_plans { AssignmentsBoundPlans }
{}
