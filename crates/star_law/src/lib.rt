//! Stars: the formula of three legs that meet, rows that bound three copies of inputs at once, and what disjoint rows bound together.
#![tactic(auto)]

ghost use Rattle.star_law.specs.StarLaws.{ModelsSayStars, ModelsMeet, RefutedStarsDontMeet, StarClausesAreCounted, StarsFit};
ghost use Rattle.star_law.specs.SplitLaws.{SplitsAreAll, SplitsAscend, SplitsAreCounted, SplitsBoundThree, PairsBoundThree};
ghost use Rattle.star_law.specs.BoundLaws.{JustifiedRowsAreTrue, MetRowsAreExact, StarsBoundPlans, AssignmentsRearrange, RearrangedAreAssignments, BestAssignmentsAreBest, RowsAreApart, EarnedRowsMakeBestStars};

/// The laws of the star formula: a model says three schedules to one triangulation, and such schedules have a model.
pub fn laws()
    ensures models_say_stars { ModelsSayStars }
    ensures models_meet { ModelsMeet }
    ensures refuted_stars_dont_meet { RefutedStarsDontMeet }
    ensures star_clauses_are_counted { StarClausesAreCounted }
    ensures stars_fit { StarsFit }
{}

/// The laws of splits: where none meets, three triangulations need more rounds together.
pub fn laws_of_splits()
    ensures splits_are_all { SplitsAreAll }
    ensures splits_are_in_order { SplitsAscend }
    ensures splits_are_counted { SplitsAreCounted }
    ensures splits_bound_three { SplitsBoundThree }
    ensures pairs_bound_three { PairsBoundThree }
{}

/// The laws of star rows and stars: justified rows are true, and no plan has a total below the bound of a star.
pub fn laws_of_bounds()
    ensures justified_rows_are_true { JustifiedRowsAreTrue }
    ensures met_rows_are_exact { MetRowsAreExact }
    ensures stars_bound_plans { StarsBoundPlans }
    ensures assignments_rearrange { AssignmentsRearrange }
    ensures rearranged_are_assignments { RearrangedAreAssignments }
    ensures best_assignments_are_best { BestAssignmentsAreBest }
    ensures rows_are_apart { RowsAreApart }
    ensures earned_rows_make_best_stars { EarnedRowsMakeBestStars }
{}
