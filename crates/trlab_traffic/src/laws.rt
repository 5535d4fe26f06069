//! Laws of traffic, independent of the code that computes the answers and moves the cars.
//!
//! Each law is the contract of a function with an empty body.

ghost use Rattle.trlab_traffic.specs.Bounds.{BrakingCostsRuns, BrakingCostsRunsWithLaneChanges, StepStaysUnderTriangle};
ghost use Rattle.trlab_traffic.specs.Bounds.{BrakingCostsRunsWithSlowStarts, BrakingCostsSteps};
ghost use Rattle.trlab_traffic.specs.Bounds.{BrakingCostsStepsWithLaneChanges, CellsAreTakenOrEmpty, EachRunHasBraked};
ghost use Rattle.trlab_traffic.specs.Bounds.{RunBoundsLaneChanges, RunBoundsMovingSpeed, RunKeepsBelowPeak};
ghost use Rattle.trlab_traffic.specs.Bounds.{RunStaysUnderTriangle, StepBoundsLaneChanges, StepBoundsMovingSpeed};
ghost use Rattle.trlab_traffic.specs.FlowAndJams.{FreeFlowGoesOn, FreeFlowMovesAsOne, FreeFlowStaysFree};
ghost use Rattle.trlab_traffic.specs.FlowAndJams.{SlowStartsKeepFreeFlow, SlowStartsKeepJams, SlowStartsMoveFreeFlowAsOne};
ghost use Rattle.trlab_traffic.specs.FlowAndJams.{TwoFlowsAtOneDensity};
ghost use Rattle.trlab_traffic.specs.FlowAndJams.{CarWithoutGapStops, QueueFlowsOut, QueueStarts, QueueWaits};
ghost use Rattle.trlab_traffic.specs.Following.{CarsGoDistance, EachCarHasGone, EachCarHasNext};
ghost use Rattle.trlab_traffic.specs.Following.{GapChangesBySpeedDifference, GapsFillLane, GoneIsUnique};
ghost use Rattle.trlab_traffic.specs.Following.{NextCarIsUnique, RunKeepsLaneCars, RunKeepsNextCar, StepKeepsNextCar};
ghost use Rattle.trlab_traffic.specs.Comparison.{GapProgramReachesSpeedAtOnce, NaschAcceleratesByAtMostOne};
ghost use Rattle.trlab_traffic.specs.Comparison.{NobodyBeatsGap, NobodyBeatsNasch, RandomizationSlowsRuns};
ghost use Rattle.trlab_traffic.specs.Comparison.{RandomizationSlowsSteps, RickertChangesSafely, RunKeepsOrder};
ghost use Rattle.trlab_traffic.specs.Comparison.{SafeChangesCostNobody, SafeChangesCostNobodyInVdr, SlowStartsSlowRuns};
ghost use Rattle.trlab_traffic.specs.Comparison.{SlowStartsSlowSteps, StepKeepsOrder, VdrAcceleratesByAtMostOne};
ghost use Rattle.trlab_traffic.specs.Invariance.{DeterministicRunsBecomePeriodic, NaschHasLightCone};
ghost use Rattle.trlab_traffic.specs.Invariance.{NaschWithoutRandomizationIsDeterministic, RickertIgnoresLane};
ghost use Rattle.trlab_traffic.specs.Invariance.{RickertReducesToNasch, RunIsDeterministic, RunIsHomogeneous};
ghost use Rattle.trlab_traffic.specs.Invariance.{RunIsSymmetric, RunKeepsLanesApart, SameStepsGiveSameRuns};
ghost use Rattle.trlab_traffic.specs.Invariance.{StepIsDeterministic, StepIsHomogeneous, StepIsSymmetric};
ghost use Rattle.trlab_traffic.specs.Invariance.{StepKeepsLanesApart, VdrHasLightCone, VdrReducesToNasch};
ghost use Rattle.trlab_traffic.specs.Diagram.{EvenCarsFlowOnTriangle, GapReachesTriangle, NaschReachesTriangle};
ghost use Rattle.trlab_traffic.specs.Diagram.{NaschReachesTriangleByLane, QueueReachesTriangleNoSooner};
ghost use Rattle.trlab_traffic.specs.Diagram.{Rule184ReachesTriangle};
ghost use Rattle.trlab_traffic.specs.Waves.{AccelerationEnds, CongestedCarsCloseGaps, FreeFlowMovesAhead, JamsMoveBack};
ghost use Rattle.trlab_traffic.specs.Waves.{MinimumPrinciple, MinimumPrincipleGivesDistance, MinimumPrincipleLater};
ghost use Rattle.trlab_traffic.specs.Waves.{NobodyBeatsMinimumPrinciple, PatternIsPeriodic, Rule184MinimumPrinciple};
ghost use Rattle.trlab_traffic.specs.LimitOne.{EmptyCellsFollowRule184, NaschGoesByRings, NaschIsRule184};
ghost use Rattle.trlab_traffic.specs.LimitOne.{NaschStepsRings, Rule184ClassifiesDensity};
ghost use Rattle.trlab_traffic.specs.LimitOne.{Rule184HasParticleHoleSymmetry, StepsKeepCars};
ghost use Rattle.trlab_traffic.specs.LimitOne.{DrawsAreCounted, FlowIsExact, RingsAreClustered};
ghost use Rattle.trlab_traffic.specs.LimitOne.{StationaryWeightsAreUnique, StepWeightsAddUp, StepWeightsCountWords};
ghost use Rattle.trlab_traffic.specs.LimitOne.{WeightsAreStationary, WeightsAreStationaryOverWords};
ghost use Rattle.trlab_traffic.specs.Detectors.{DetectorCountExists, DetectorCountsAtMostOne, DetectorCountsBelowPeak};
ghost use Rattle.trlab_traffic.specs.Detectors.{DetectorMeasuresFlow, DetectorsAgree, DetectorsAgreeByCars};
ghost use Rattle.trlab_traffic.specs.Detectors.{DetectorsCountDistance, DetectorsCountRun, RowMeasuresFlow, RowsAgree};
ghost use Rattle.trlab_traffic.specs.Detectors.{RunSatisfiesContinuity, RunSatisfiesContinuityByRows};
ghost use Rattle.trlab_traffic.specs.Detectors.{StepIsContinuousByRows, StepSatisfiesContinuity};

/// The distance of a step is at most the number of empty cells, and at most v_max times the number of cars, under every
/// rule and on every legal road. So flow against density is always on or under the triangle min(v_max * density,
/// 1 - density).
pub fn step_stays_under_triangle()
    ensures { StepStaysUnderTriangle }
{}

/// The mean distance of the counted steps of a run is at most the number of empty cells, and at most v_max times the
/// number of cars, under any sheet of rules. The cars and the empty cells of a road add up to all its cells.
pub fn run_stays_under_triangle()
    ensures cells { CellsAreTakenOrEmpty }
    ensures run { RunStaysUnderTriangle }
{}

/// No flow is above v_max / (v_max + 1), the peak of the triangle, at any density and under any rules.
pub fn run_keeps_below_peak()
    ensures { RunKeepsBelowPeak }
{}

/// A car that is not stopped moves at least one cell per step, and at most v_max cells. So the distance and the number
/// of stopped cars bound each other in steps, and so do the sums of both in runs.
pub fn moving_speed_is_bounded()
    ensures step { StepBoundsMovingSpeed }
    ensures run { RunBoundsMovingSpeed }
{}

/// At most as many cars change lanes in a step as there are cars, and at most as many as there are empty cells,
/// under any rule. The same holds per step for the counted steps of a run.
pub fn few_cars_change_lanes()
    ensures step { StepBoundsLaneChanges }
    ensures run { RunBoundsLaneChanges }
{}

/// Free flow stays free for ever in the Nagel-Schreckenberg model without randomization: all cars drive at v_max, so
/// they move as one (Nagel and Schreckenberg 1992, J. Phys. I France 2, 2221).
pub fn free_flow_stays_free()
    ensures step { FreeFlowGoesOn }
    ensures run { FreeFlowStaysFree }
    ensures rotated { FreeFlowMovesAsOne }
{}

/// Slow starts make free flow metastable: if moving cars never brake at random, free flow goes on for ever; if stopped
/// cars always do, a road of stopped cars stays as it is (Barlovic, Santen, Schadschneider and Schreckenberg 1998, Eur.
/// Phys. J. B 5, 793).
pub fn slow_starts_are_metastable()
    ensures free { SlowStartsKeepFreeFlow }
    ensures rotated { SlowStartsMoveFreeFlowAsOne }
    ensures jam { SlowStartsKeepJams }
{}

/// In the VDR model of Barlovic et al. (1998), if moving cars never brake at random and stopped cars always do, there
/// are two flows at every density that leaves room to drive at v_max: on one road all cars drive at v_max for ever, and
/// on another road with the same numbers of cars and cells no car ever moves.
pub fn two_flows_at_one_density()
    ensures { TwoFlowsAtOneDensity }
{}

/// A larger braking probability slows a step, in the Nagel-Schreckenberg model and in the VDR model of Barlovic et al.
/// (1998): the distance does not grow, it shrinks by at most one cell per car, and no fewer cars stop.
pub fn randomization_slows()
    ensures nasch { RandomizationSlowsSteps }
    ensures vdr { SlowStartsSlowSteps }
{}

/// In a step without lane changes a car's gap changes by the new speed of the next car ahead minus its own new speed.
pub fn gaps_follow_speeds()
    ensures { GapChangesBySpeedDifference }
{}

/// The gaps of a lane add up to its empty cells, if it has a car, so the mean gap is the number of empty cells per car.
/// Without lane changes each lane of a run keeps its number of cars.
pub fn gaps_fill_lanes()
    ensures gaps { GapsFillLane }
    ensures cars { RunKeepsLaneCars }
{}

/// A car that has no gap stops, under any rule without lane changes.
pub fn car_without_gap_stops()
    ensures { CarWithoutGapStops }
{}

/// A queue dissolves from its front, one car per step. Under any rules without lane changes the j-th car behind the
/// head is stopped in its cell for j steps. In the Nagel-Schreckenberg model without randomization it moves by one cell
/// in the next step, if the head has a gap at the start.
pub fn queue_dissolves_from_front()
    ensures waits { QueueWaits }
    ensures starts { QueueStarts }
{}

/// In the VDR model of Barlovic et al. (1998) a queue flows out one car at a time: once the car ahead has left its
/// cell, the next car leaves in the first step in which it does not brake at random. So the outflow depends only on
/// the braking probability of stopped cars.
pub fn queue_flows_out_car_by_car()
    ensures { QueueFlowsOut }
{}

/// Nobody overtakes on a lane: each car has one next car ahead, and keeps it in each step and run without lane
/// changes.
pub fn nobody_overtakes()
    ensures next { EachCarHasNext }
    ensures one { NextCarIsUnique }
    ensures step { StepKeepsNextCar }
    ensures run { RunKeepsNextCar }
{}

/// Each car of a run has gone exactly one distance. If every step is counted, the distances of all cars add up to the
/// distance of the run.
pub fn cars_go_distance()
    ensures each { EachCarHasGone }
    ensures one { GoneIsUnique }
    ensures all { CarsGoDistance }
{}

/// Nobody beats the Nagel-Schreckenberg model without randomization, car by car and step by step: in runs from one
/// start, without lane changes and under rules that accelerate by at most one, no car ever gets further. With
/// randomization, this model and the VDR model of Barlovic et al. (1998) are such rules.
pub fn nobody_beats_nasch()
    ensures run { NobodyBeatsNasch }
    ensures nasch { NaschAcceleratesByAtMostOne }
    ensures vdr { VdrAcceleratesByAtMostOne }
{}

/// No rule without lane changes beats cars that reach their speed at once (Fukui and Ishibashi 1996, J. Phys. Soc.
/// Japan 65, 1868).
pub fn nobody_beats_gap()
    ensures run { NobodyBeatsGap }
    ensures program { GapProgramReachesSpeedAtOnce }
{}

/// The minimum principle gives the distance of each car in closed form (Newell 1993, Transp. Res. B 27, 281; Daganzo
/// 2006, Transp. Res. B 40, 396). It is exact if cars reach their speed at once, and in the Nagel-Schreckenberg model
/// without randomization from step v_max on, or from the start if v_max = 1. Under all rules without lane changes it
/// is an upper bound.
pub fn minimum_principle()
    ensures gap { MinimumPrinciple }
    ensures distance { MinimumPrincipleGivesDistance }
    ensures rule_184 { Rule184MinimumPrinciple }
    ensures later { MinimumPrincipleLater }
    ensures bound { NobodyBeatsMinimumPrinciple }
{}

/// If v_max is 1, a larger braking probability slows whole runs, car by car: runs of the Nagel-Schreckenberg model and
/// of the VDR model of Barlovic et al. (1998), compared with the Nagel-Schreckenberg model with a probability that is
/// not larger. If v_max is larger, this need not hold.
pub fn randomization_slows_runs()
    ensures nasch { RandomizationSlowsRuns }
    ensures vdr { SlowStartsSlowRuns }
{}

/// The Nagel-Schreckenberg model with v_max = 1 is attractive (Liggett 1985, Interacting Particle Systems): if no car
/// of a road is further than the same car on another road, this stays so in steps and in runs, with the same random
/// words. It also stays so if cars brake more often on the road behind.
pub fn nasch_is_attractive()
    ensures step { StepKeepsOrder }
    ensures run { RunKeepsOrder }
{}

/// Safe lane changes cost nobody. If cars change lanes only if the gap ahead on the other lane is larger than their
/// speed and the gap behind at least v_max, then in one step of the Nagel-Schreckenberg model or of the VDR model of
/// Barlovic et al. (1998) each car goes at least as far as without lane changes. The lane changes of Rickert et al.
/// (1996) are safe.
pub fn safe_lane_changes_cost_nobody()
    ensures nasch { SafeChangesCostNobody }
    ensures vdr { SafeChangesCostNobodyInVdr }
    ensures rickert { RickertChangesSafely }
{}

/// All places of a ring are alike: under any rule, if a legal road is rotated, its next road is rotated by the same
/// number of cells, with the same tally. The same holds for runs.
pub fn ring_is_homogeneous()
    ensures step { StepIsHomogeneous }
    ensures run { RunIsHomogeneous }
{}

/// Both lanes are alike under rules whose programs do not read the lane, such as the lane-change rules of Rickert et
/// al. (1996): if the lanes of a road are exchanged, the lanes of its next road are too, with the same tally. The
/// same holds for runs.
pub fn lanes_are_symmetric()
    ensures rickert { RickertIgnoresLane }
    ensures step { StepIsSymmetric }
    ensures run { RunIsSymmetric }
{}

/// Without lane changes the lanes of a road are independent: a lane's future does not depend on the other lane.
pub fn lanes_are_apart()
    ensures step { StepKeepsLanesApart }
    ensures run { RunKeepsLanesApart }
{}

/// Influence stays in a light cone in the Nagel-Schreckenberg model and in the VDR model of Barlovic et al. (1998):
/// with the same random words, a cell after t steps depends only on v_max * t cells behind it and 2 t cells ahead.
pub fn influence_stays_in_light_cone()
    ensures nasch { NaschHasLightCone }
    ensures vdr { VdrHasLightCone }
{}

/// If programs are deterministic, the key does not matter: a road has one next road for all dice, and a run is
/// the same for all keys. The Nagel-Schreckenberg model without randomization is deterministic.
pub fn deterministic_rules_ignore_key()
    ensures nasch { NaschWithoutRandomizationIsDeterministic }
    ensures step { StepIsDeterministic }
    ensures run { RunIsDeterministic }
{}

/// A run under a deterministic rule becomes periodic: from some step on its roads repeat for ever. The number of this
/// step plus the period is at most (cells * (v_max + 1)) ^ cars, an upper bound on the number of roads.
pub fn deterministic_runs_become_periodic()
    ensures { DeterministicRunsBecomePeriodic }
{}

/// Two models reduce to the Nagel-Schreckenberg model: the VDR model of Barlovic et al. (1998), if stopped and moving
/// cars brake with the same probability, and the two-lane model of Rickert, Nagel, Schreckenberg and Latour (1996,
/// Physica A 231, 534), if the probability of a lane change is 0. Rules with the same steps have the same runs.
pub fn rules_reduce_to_nasch()
    ensures vdr { VdrReducesToNasch }
    ensures rickert { RickertReducesToNasch }
    ensures runs { SameStepsGiveSameRuns }
{}

/// With v_max = 1 and without randomization a step of the Nagel-Schreckenberg model is a step of rule 184 on each lane
/// (Wolfram 1983, Rev. Mod. Phys. 55, 601). Backwards round the ring, empty cells follow rule 184 too.
pub fn nasch_is_rule_184()
    ensures rule { NaschIsRule184 }
    ensures holes { Rule184HasParticleHoleSymmetry }
    ensures lanes { EmptyCellsFollowRule184 }
{}

/// With v_max = 1 a step of the Nagel-Schreckenberg model is a step of a ring of taken and empty cells, on each lane:
/// a car moves to the next cell if this cell is empty and the car does not brake on its random word. The distance is
/// the number of cars that move.
pub fn nasch_steps_rings()
    ensures step { NaschStepsRings }
    ensures distance { NaschGoesByRings }
    ensures cars { StepsKeepCars }
{}

/// With v_max = 1 the Nagel-Schreckenberg model has the stationary state of Schreckenberg, Schadschneider, Nagel and
/// Ito (1995, Phys. Rev. E 51, 2939), for every braking probability p and on every ring: counted over all roads and
/// all random words, a step does not change the weight of any road. The weight has a factor 1 for each car with an
/// empty cell ahead, and a factor p for each other car. If p is above 0 and below 1, it is the only stationary state.
pub fn nasch_has_stationary_state()
    ensures words { WeightsAreStationaryOverWords }
    ensures weights { WeightsAreStationary }
    ensures unique { StationaryWeightsAreUnique }
    ensures chances { StepWeightsAddUp }
    ensures counts { StepWeightsCountWords }
    ensures counted { DrawsAreCounted }
{}

/// The exact flow of this stationary state on every finite ring: the sum of the weights of all roads with the same
/// number of cars, and that of their weights times their mean distances, in binomial coefficients.
pub fn stationary_flow_is_exact()
    ensures clusters { RingsAreClustered }
    ensures flow { FlowIsExact }
{}

/// In the Nagel-Schreckenberg model without randomization the fundamental diagram of one lane is a triangle: from any
/// initial state and for every v_max the flow reaches min(v_max * density, 1 - density). On several lanes each lane
/// reaches its own triangle. (For cars that reach their speed at once: Fukui and Ishibashi 1996, J. Phys. Soc. Japan
/// 65, 1868.)
pub fn nasch_reaches_triangle()
    ensures one_lane { NaschReachesTriangle }
    ensures by_lane { NaschReachesTriangleByLane }
{}

/// If cars reach their speed at once, a run on one lane with N cars and E empty cells is on the triangle from step
/// min(N, E / v_max) - 1 on (Fukui and Ishibashi 1996, J. Phys. Soc. Japan 65, 1868). From one queue of all cars no
/// rules without lane changes reach it sooner.
pub fn gap_reaches_triangle()
    ensures triangle { GapReachesTriangle }
    ensures no_sooner { QueueReachesTriangleNoSooner }
{}

/// With v_max = 1 and without randomization a run on one lane with N cars and E empty cells is on the triangle from
/// step min(N, E) - 1 on (Krug and Spohn 1988, Phys. Rev. A 38, 4271).
pub fn rule_184_reaches_triangle()
    ensures { Rule184ReachesTriangle }
{}

/// Rule 184 classifies densities (Capcarrere, Sipper and Tomassini 1996, Phys. Rev. Lett. 77, 4969): from step
/// min(N, E) - 1 on no two of the N cars are neighbours if N <= E, the number of empty cells, and no two empty cells
/// if N >= E.
pub fn rule_184_classifies_density()
    ensures { Rule184ClassifiesDensity }
{}

/// Kinematic waves (Lighthill and Whitham 1955, Proc. R. Soc. London A 229, 317): without randomization the pattern of
/// taken and empty cells on a lane that has relaxed keeps its form and moves, ahead by v_max per step if the lane is
/// dilute, and back by one cell per step if it is congested, for every v_max. So on n cells it comes again after n
/// steps.
pub fn kinematic_waves()
    ensures free { FreeFlowMovesAhead }
    ensures jams { JamsMoveBack }
    ensures period { PatternIsPeriodic }
    ensures acceleration { AccelerationEnds }
    ensures gaps { CongestedCarsCloseGaps }
{}

/// Each random braking of a car costs at least one cell of distance, in the Nagel-Schreckenberg model, in the VDR model
/// of Barlovic et al. (1998) and in the two-lane model of Rickert et al. (1996): the distance plus the number of
/// brakings stays under the triangle.
pub fn braking_costs_distance()
    ensures step { BrakingCostsSteps }
    ensures exists { EachRunHasBraked }
    ensures nasch { BrakingCostsRuns }
    ensures vdr { BrakingCostsRunsWithSlowStarts }
    ensures lane_changes { BrakingCostsStepsWithLaneChanges }
    ensures rickert { BrakingCostsRunsWithLaneChanges }
{}

/// Evenly spaced, stopped cars reach the triangle within v_max - 1 steps, the time to reach v_max.
pub fn even_cars_flow_on_triangle()
    ensures { EvenCarsFlowOnTriangle }
{}

/// Detectors measure the flow: all detectors of a road together count the distance of a step, under any rule, and
/// each counts at most one car. Between two detectors of a lane no car is lost or created if no car changes
/// lanes: the continuity equation (Lighthill and Whitham 1955, Proc. R. Soc. London A 229, 317).
pub fn detectors_count_flow()
    ensures distance { DetectorsCountDistance }
    ensures one { DetectorCountsAtMostOne }
    ensures step { StepSatisfiesContinuity }
{}

/// If no car changes lanes, continuity also holds for the counted steps of a run. The counts of two detectors then
/// differ by at most the number of cells between them, and within one lap by at most the number of cars and the number
/// of empty cells of the lane. On one lane all detectors together count the distance, and each one measures the flow.
pub fn detectors_count_runs()
    ensures exists { DetectorCountExists }
    ensures run { RunSatisfiesContinuity }
    ensures agree { DetectorsAgree }
    ensures by_cars { DetectorsAgreeByCars }
    ensures distance { DetectorsCountRun }
    ensures flow { DetectorMeasuresFlow }
{}

/// In v_max + 1 consecutive steps a detector counts at most v_max cars if no car changes lanes.
pub fn detector_counts_below_peak()
    ensures { DetectorCountsBelowPeak }
{}

/// Even if cars change lanes, none is lost or created between two rows of detectors, each with one detector on each
/// lane. So within one lap the counts of two rows differ by at most the number of cars and the number of empty cells of
/// the road, and each row measures the flow.
pub fn rows_of_detectors_count()
    ensures step { StepIsContinuousByRows }
    ensures run { RunSatisfiesContinuityByRows }
    ensures agree { RowsAgree }
    ensures flow { RowMeasuresFlow }
{}
