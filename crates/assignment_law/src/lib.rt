//! Assignments, which are permutations of numbers, their sums under weights, and what shows that a sum is the greatest.
#![tactic(auto)]

ghost use Rattle.assignment_law.specs.Laws.{PotentialsShowGreatestSum, GreatestSumIsBest};

/// The laws of assignments and their bounds.
pub fn laws()
    ensures potentials_show_greatest_sum { PotentialsShowGreatestSum }
    ensures greatest_sum_is_best { GreatestSumIsBest }
{}
