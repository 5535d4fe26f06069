//! Laws of outputs, independent of the code that writes them: one worker drives the roads, a text has one output, and
//! the counts in the tables of sweeps and series are consistent.
//!
//! Each law is the contract of a function with an empty body.

ghost use Rattle.trlab_campaign.specs.SweepOutput.{DiagramIsTriangle, SweepsBoundMovingSpeed, SweepsDoNotExceedPeak};
ghost use Rattle.trlab_campaign.specs.SweepOutput.{SweepsStayUnderTriangle};
ghost use Rattle.trlab_campaign.specs.CheckOutput.{IsCheckOutput};
ghost use Rattle.trlab_campaign.specs.Headline.{JobTextsAreDriven, SeriesTextsAreDriven, SweepTextsAreDriven};
ghost use Rattle.trlab_campaign.specs.Laws.{HasAtMostOneOutput, HasSomeOutput};
ghost use Rattle.trlab_campaign.specs.Laws.{LanesOfSeriesAddUp, SeriesHasAtMostOneOutput, SeriesHasSomeOutput};
ghost use Rattle.trlab_campaign.specs.Laws.{EveryNthStepIsShown, EveryStepFromStartIsEach, ShownHasAtMostOneOutput, ShownHasSomeOutput};
ghost use Rattle.trlab_campaign.specs.SweepOutput.{IsSweepOutput};

/// The output for a job text that is not rejected shows the roads of a driven run, at the steps that are shown, from
/// the road of the text to the road after the last step. Each step follows the rule in force, its programs end within
/// their budgets, no car goes onto or through another, and none is lost or added.
pub fn job_texts_are_driven()
    ensures { JobTextsAreDriven }
{}

/// The table of a series for a job text that is not rejected counts a driven run. It has each window that the run
/// completes, in order, with the sums of the steps of this window.
pub fn series_texts_are_driven()
    ensures { SeriesTextsAreDriven }
{}

/// The table for a sweep text that is not rejected has a point for each number of cars, in the order of the text. Each
/// point counts a driven run, whose cars are evenly spaced at the start.
pub fn sweep_texts_are_driven()
    ensures { SweepTextsAreDriven }
{}

/// For any choice of shown steps, a job text has exactly one output. The text determines whether that is a rejection.
pub fn run_has_one_output()
    ensures some_output { ShownHasSomeOutput }
    ensures one_output { ShownHasAtMostOneOutput }
{}

/// The steps that are shown are `from`, `from` + `every`, `from` + 2 * `every` and so on. With 1 and 0 each
/// step is shown.
pub fn steps_are_shown_apart()
    ensures apart { EveryNthStepIsShown }
    ensures each { EveryStepFromStartIsEach }
{}

/// Any check text has exactly one output. The text determines whether that is a rejection.
pub fn check_has_one_output()
    ensures some_output { HasSomeOutput IsCheckOutput }
    ensures one_output { HasAtMostOneOutput IsCheckOutput }
{}

/// Any sweep text has exactly one output. The text determines whether that is a rejection.
pub fn sweep_has_one_output()
    ensures some_output { HasSomeOutput IsSweepOutput }
    ensures one_output { HasAtMostOneOutput IsSweepOutput }
{}

/// Each point of the table for a sweep text is on or below a triangle: the flow is at most 1 minus the density, and at
/// most v_max (the sweep's `limit`) times the density, so it is at most v_max / (v_max + 1), the peak of the triangle.
/// On average, a moving car goes at least one cell per step, and at most v_max. On one lane, in the Nagel-Schreckenberg
/// model without randomization, the fundamental diagram is the triangle itself, if no step is counted before cars can
/// reach v_max.
pub fn sweeps_stay_under_triangle()
    ensures under_triangle { SweepsStayUnderTriangle }
    ensures peak { SweepsDoNotExceedPeak }
    ensures moving { SweepsBoundMovingSpeed }
    ensures triangle { DiagramIsTriangle }
{}

/// For windows of one step or more, a job text has exactly one output. The text determines whether that is a rejection.
pub fn series_has_one_output()
    ensures some_output { SeriesHasSomeOutput }
    ensures one_output { SeriesHasAtMostOneOutput }
{}

/// In each window of a series, the counts of lane 0 and lane 1 add up to the counts of the road: its number of cars
/// times the number of steps, its distance, and the car-steps with speed 0.
pub fn lanes_of_series_add_up()
    ensures { LanesOfSeriesAddUp }
{}
