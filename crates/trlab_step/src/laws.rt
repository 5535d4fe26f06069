//! Laws of answers, steps and runs, independent of the code that computes the answers and moves the cars.
//!
//! Each law is the contract of a function with an empty body.

ghost use Rattle.trlab_step.specs.Published.{NaschOnCells, RickertOnCells, VdrOnCells};
ghost use Rattle.trlab_step.specs.Laws.{AnswersLeadToNextRoad, CrossingsAreUnique, CrossingsJoin, SpeedsAreUnique, SpeedsJoin, RunsAreDriven};
ghost use Rattle.trlab_step.specs.Laws.{NextRoadExists, NextRoadIsUnique, RoadExists, RoadIsUnique, RunContinues};
ghost use Rattle.trlab_step.specs.Laws.{CrossingsComeWithinBudget, RunsCallSafely, SpeedsComeWithinBudget};
ghost use Rattle.trlab_step.specs.Laws.{StepsCallSafely, ViewsAreInRange};

/// For each part of the standing order a motion program gives at most one list of speeds, and the lists of adjacent
/// parts join to the list of both. So it does not matter which thread computes a part, or in which order.
pub fn speeds_join()
    ensures one { SpeedsAreUnique }
    ensures join { SpeedsJoin }
{}

/// For each part of the standing order a change program gives at most one list of lane changes, and the lists of
/// adjacent parts join to the list of both.
pub fn crossings_join()
    ensures one { CrossingsAreUnique }
    ensures join { CrossingsJoin }
{}

/// If all cars cross, and then move, by their answers in standing order, the result is the next road and its tally,
/// regardless of the code that computed the answers.
pub fn answers_lead_to_next_road()
    ensures { AnswersLeadToNextRoad }
{}

/// On a legal road the views for both kinds of programs are in range, as the verifier assumes: speeds, gaps and the
/// limit. A change program needs two lanes.
pub fn views_are_in_range()
    ensures { ViewsAreInRange }
{}

/// On a legal road accepted programs answer within their budgets.
pub fn answers_come_within_budget()
    ensures speeds { SpeedsComeWithinBudget }
    ensures crossings { CrossingsComeWithinBudget }
{}

/// In both phases of a step of a legal road, under a rule for its number of lanes, each call of a program is safe: its
/// view is in range, and it ends with an answer within its budget. The same holds in each step of a run.
pub fn calls_are_safe()
    ensures step { StepsCallSafely }
    ensures run { RunsCallSafely }
{}

/// Under a rule of accepted programs each legal road has a next road; a change program needs two lanes. The next road
/// is legal, with the same limit and the same numbers of lanes and cars, and in both phases no car moved onto or
/// through another.
pub fn next_road_exists()
    ensures { NextRoadExists }
{}

/// Under any rule a road has at most one next road, and at most one tally.
pub fn next_road_is_unique()
    ensures { NextRoadIsUnique }
{}

/// A run from a legal road, under a sheet of rules for its number of lanes, has a legal road at each step, with the
/// same limit and the same numbers of lanes and cars.
pub fn road_exists()
    ensures { RoadExists }
{}

/// A run has at most one road at each step, and at most one sum of tallies.
pub fn road_is_unique()
    ensures { RoadIsUnique }
{}

/// A run continues from the road at a step to its next road under the rule in force. From the step on at which counting
/// begins, the tally is added to the sum.
pub fn run_continues()
    ensures { RunContinues }
{}

/// In every run from a legal road, under a sheet for its number of lanes, the road at each step is legal, with the
/// limit and the numbers of lanes and cars of the initial road. No car moves onto or through another, and all programs
/// end within their budgets.
pub fn runs_are_driven()
    ensures { RunsAreDriven }
{}

/// In a step under the rule `nasch` each car moves as in the Nagel-Schreckenberg model (1992).
pub fn nasch_goes_as_published()
    ensures { NaschOnCells }
{}

/// In a step under the rule `vdr` each car moves as in the VDR model of Barlovic et al. (1998).
pub fn vdr_goes_as_published()
    ensures { VdrOnCells }
{}

/// In a step under the rule `rickert` all cars of the two lanes change lanes as in Rickert et al. (1996), and then each
/// moves as in the Nagel-Schreckenberg model.
pub fn rickert_goes_as_published()
    ensures { RickertOnCells }
{}
