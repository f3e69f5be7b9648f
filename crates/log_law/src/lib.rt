//! Formulas, hinted refutation logs and the trails of a search: what they are, and their laws.
#![tactic(auto)]

mod threads;

/// A literal: the number of a variable, counted from 1, and whether it is to be true.
#[derive(Clone, Copy, PartialEq, Eq, Debug)]
pub struct Lit {
    pub var: u32,
    pub on: bool,
}

/// A literal that a search has made true, at a level. The reason is the identifier of the clause that did so by a
/// unit step, and a decision has none.
#[derive(Clone, Copy, Debug)]
pub struct Step {
    pub literal: Lit,
    pub level: u32,
    pub reason: Option<u32>,
}

/// The first fault of a log, with the place of the line that has it. Lines count from 0, and a line is tried for
/// its faults in this order.
#[derive(Clone, Copy, PartialEq, Eq, Debug)]
pub enum LogFault {
    /// The identifier isn't the next, or a hint is no identifier of a clause or an earlier line.
    BadId(u32),
    /// A literal names no variable, or two literals name the same one.
    BadVar(u32),
    /// The clause that a hint names, the second number, is satisfied or has two or more unassigned literals.
    NotUnit(u32, u32),
    /// A hint that isn't the last is falsified.
    HintUnused(u32),
    /// The last hint isn't falsified, or there is no hint.
    NoConflict(u32),
    /// The last line has literals, or there is no line.
    NoEmptyClause,
}

ghost use Rattle.log_law.specs.LogLaws.{FollowingLinesAreImplied, FollowingLogsAreImplied, RefutedFormulasHaveNoModel, FaultlessStepsFollow, FaultlessLogsRefute, KnownClausesFit, NewLinesAreUnsaid, LogsGrow, LinesCostThree};
ghost use Rattle.log_law.specs.UnitLaws.{MembersAreTrue, UnitClauses, StillClauses};
ghost use Rattle.log_law.specs.Places.{PlacesBegin, PlacesGoBack, PlacesAssert, PlacesAreApart};
ghost use Rattle.log_law.specs.SearchLaws.{LearntLinesFollow, LearntLinesAreNew, EmptyLearntLinesAreNew, ResolutionsKeepTheLevel, ResolutionsStayFalse, LaterStepsHaveReasons, ReasonsAreEarlier, LearntLinesAssert, StepsAreFound, PlacesAreFound, PlacesHaveSteps, PlacesAreOfSteps, ValuesAreOfSteps, NoStepsAreATrail, UnitStepsKeepTrails, DecisionsKeepTrails, GoingBackKeepsTrails, LearntClausesKeepTrails, FullRestIsAModel, ListedRestIsAModel};

/// The laws of partial assignments and unit clauses.
pub fn laws_of_units()
    ensures members_are_true { MembersAreTrue }
    ensures unit_clauses { UnitClauses }
    ensures still_clauses { StillClauses }
{}

/// The laws of hinted logs.
pub fn laws_of_logs()
    ensures following_lines_are_implied { FollowingLinesAreImplied }
    ensures following_logs_are_implied { FollowingLogsAreImplied }
    ensures refuted_formulas_have_no_model { RefutedFormulasHaveNoModel }
    ensures faultless_steps_follow { FaultlessStepsFollow }
    ensures faultless_logs_refute { FaultlessLogsRefute }
    ensures known_clauses_fit { KnownClausesFit }
    ensures new_lines_are_unsaid { NewLinesAreUnsaid }
    ensures logs_grow { LogsGrow }
    ensures lines_cost_three { LinesCostThree }
{}

/// The laws of a search that learns from conflicts.
pub fn laws_of_learning()
    ensures learnt_lines_follow { LearntLinesFollow }
    ensures learnt_lines_are_new { LearntLinesAreNew }
    ensures empty_learnt_lines_are_new { EmptyLearntLinesAreNew }
    ensures resolutions_keep_the_level { ResolutionsKeepTheLevel }
    ensures resolutions_stay_false { ResolutionsStayFalse }
    ensures later_steps_have_reasons { LaterStepsHaveReasons }
    ensures reasons_are_earlier { ReasonsAreEarlier }
    ensures learnt_lines_assert { LearntLinesAssert }
{}

/// The laws of a resolution that is kept as places on the trail.
pub fn laws_of_places()
    ensures places_begin { PlacesBegin }
    ensures places_go_back { PlacesGoBack }
    ensures places_assert { PlacesAssert }
    ensures places_are_apart { PlacesAreApart }
{}

/// The laws of looking a trail's steps up, and of what keeps a search's trail a trail.
pub fn laws_of_trails()
    ensures steps_are_found { StepsAreFound }
    ensures places_are_found { PlacesAreFound }
    ensures places_have_steps { PlacesHaveSteps }
    ensures places_are_of_steps { PlacesAreOfSteps }
    ensures values_are_of_steps { ValuesAreOfSteps }
    ensures no_steps_are_a_trail { NoStepsAreATrail }
    ensures unit_steps_keep_trails { UnitStepsKeepTrails }
    ensures decisions_keep_trails { DecisionsKeepTrails }
    ensures going_back_keeps_trails { GoingBackKeepsTrails }
    ensures learnt_clauses_keep_trails { LearntClausesKeepTrails }
    ensures full_rest_is_a_model { FullRestIsAModel }
    ensures listed_rest_is_a_model { ListedRestIsAModel }
{}
