//! The steps of a window, and the counts of the road and of each lane in them.

ghost use Rattle.std.specs.Prelude.{◌≡◌, ◌+◌, ◌*◌, ◌<◌, ◌≤◌, ◌^◌, ℕ, length, slice_index_or, IfOk, OnOk};
ghost use Rattle.trlab_bounds.specs.declared.roads.TheConstants.{MAX_LENGTH, MAX_LIMIT};
ghost use Rattle.trlab_bounds.specs.declared.runs.TheConstants.{MAX_STEPS};
ghost use Rattle.trlab_diagram.specs.Tables.{IsMeasured};
ghost use Rattle.trlab_road.specs.Cells.{Cells, cars, lane_of};
ghost use Rattle.trlab_road.specs.Stored.{no_car};
ghost use Rattle.trlab_step.specs.declared.tally.StepTally.{StepTally};
ghost use Rattle.trlab_campaign.specs.SeriesOutput.{IsBoundedCount, IsLaterBy, counts_of_cars};
ghost use Rattle.trlab_campaign.specs.SeriesOutput.{AreRoads, IsCourse, cars_on, lane_count, roads_after};
ghost use Rattle.trlab_campaign.specs.SeriesOutput.{total_speed_on, stopped_on, window_of};

use std::alloc::{AllocError, Global};
use trlab_diagram::{LaneCount, Point, Window};
use trlab_road::{LaneCar, Road};
use trlab_step::{Executor, Run, StepTally};

/// The counts of a lane without cars.
fn no_cars() -> LaneCount
    ensures { result ≡ record { cars = 0; distance = 0; stopped = 0 } }
{
    LaneCount {
        cars: 0,
        distance: 0,
        stopped: 0,
    }
}

/// The number of cars on a lane, the sum of their speeds, and the number of stopped cars.
fn count_cars(line: &[LaneCar]) -> LaneCount
    requires at_most_max_length { length line.now ≤ MAX_LENGTH }
    requires at_most_max_limit { (k : ℕ) → k < length line.now
        → (slice_index_or line.now k no_car).speed ≤ MAX_LIMIT }
    ensures value { result ≡ counts_of_cars line.now }
    ensures bounded { IsBoundedCount 1 result }
{
    let mut distance = 0;
    let mut stopped = 0;
    for k in 0..line.len() {
        let speed = line[k].speed();
        distance += u64::from(speed);
        stopped += u64::from(speed == 0);
    }
    LaneCount {
        cars: line.len() as u64,
        distance,
        stopped,
    }
}

/// The counts of a lane of a road; all are 0 if the road does not have this lane.
fn count_lane(road: &Road, lane: u32) -> LaneCount
    ensures cars { result.cars ≡ cars_on lane road.now }
    ensures distance { result.distance ≡ total_speed_on lane road.now }
    ensures stopped { result.stopped ≡ stopped_on lane road.now }
    ensures bounded { IsBoundedCount 1 result }
{
    if road.lanes() <= lane {
        return no_cars();
    }
    count_cars(road.line_of(lane))
}

/// The sum of two counts.
fn lane_sum(before: LaneCount, now: LaneCount) -> LaneCount
    requires cars { before.cars + now.cars < 2 ^ 64 }
    requires distance { before.distance + now.distance < 2 ^ 64 }
    requires stopped { before.stopped + now.stopped < 2 ^ 64 }
    ensures cars { result.cars ≡ before.cars + now.cars }
    ensures distance { result.distance ≡ before.distance + now.distance }
    ensures stopped { result.stopped ≡ before.stopped + now.stopped }
{
    LaneCount {
        cars: before.cars + now.cars,
        distance: before.distance + now.distance,
        stopped: before.stopped + now.stopped,
    }
}

/// Advances a run by `steps` steps, which are not counted.
pub fn skip_steps<E: Executor>(
    executor: &E,
    alloc: Global,
    run: &mut Run,
    steps: u32,
) -> Result<(), AllocError>
    requires ready { E.is_ready executor.now }
    requires room { run.old.step + steps < 2 ^ 32 }
    ensures { OnOk result (IsLaterBy steps run.old run.new) }
{
    for _ in 0..steps {
        run.advance(executor, alloc)?;
    }
    Ok(())
}

/// Advances a run by `steps` steps, and returns the counts of lane 0 and of lane 1, summed over the roads after the
/// steps.
fn count_lanes<E: Executor>(
    executor: &E,
    alloc: Global,
    run: &mut Run,
    steps: u32,
) -> Result<(LaneCount, LaneCount), AllocError>
    requires ready { E.is_ready executor.now }
    requires at_most_max_steps { steps ≤ MAX_STEPS }
    requires room { run.old.step + steps < 2 ^ 32 }
    ensures on { OnOk result (IsLaterBy steps run.old run.new) }
    ensures lane0 { (roads : ℕ → Cells) → AreRoads run.old.seed run.old.sheet roads
        → IfOk result (λ lanes. lanes.0 ≡ lane_count 0 (roads_after roads run.old.step steps)) }
    ensures lane1 { (roads : ℕ → Cells) → AreRoads run.old.seed run.old.sheet roads
        → IfOk result (λ lanes. lanes.1 ≡ lane_count 1 (roads_after roads run.old.step steps)) }
{
    let mut lane0 = no_cars();
    let mut lane1 = no_cars();
    for done in 0..steps {
        run.advance(executor, alloc)?;
        lane0 = lane_sum(lane0, count_lane(run.road(), 0));
        lane1 = lane_sum(lane1, count_lane(run.road(), 1));
    }
    Ok((lane0, lane1))
}

/// The counts of a run's last `steps` steps; `before` is its sum of tallies before them.
fn point_since(run: &Run, before: StepTally, steps: u32) -> Point
    requires distance { before.distance ≤ run.now.sum.distance }
    requires stopped { before.stopped ≤ run.now.sum.stopped }
    requires changes { before.changes ≤ run.now.sum.changes }
    ensures cars { result.cars ≡ cars run.now.road }
    ensures cells { result.cells ≡ length run.now.road.lanes * length (lane_of run.now.road 0) }
    ensures steps { result.steps ≡ steps }
    ensures distance { before.distance + result.distance ≡ run.now.sum.distance }
    ensures stopped { before.stopped + result.stopped ≡ run.now.sum.stopped }
    ensures changes { before.changes + result.changes ≡ run.now.sum.changes }
    ensures cells_there { 1 ≤ result.cells }
{
    let road = run.road();
    let after = run.tally();
    Point {
        cars: u64::from(road.cars()),
        cells: u64::from(road.lanes()) * u64::from(road.length()),
        steps: u64::from(steps),
        distance: after.distance - before.distance,
        stopped: after.stopped - before.stopped,
        changes: after.changes - before.changes,
    }
}

/// Advances a run by the `every` steps of a window, and returns the window's counts.
pub fn take_window<E: Executor>(
    executor: &E,
    alloc: Global,
    run: &mut Run,
    every: u32,
) -> Result<Window, AllocError>
    requires ready { E.is_ready executor.now }
    requires at_least_one_step { 1 ≤ every }
    requires at_most_max_steps { every ≤ MAX_STEPS }
    requires room { run.old.step + every < 2 ^ 32 }
    requires counts { run.old.seed.warm ≡ 0 }
    ensures on { OnOk result (IsLaterBy every run.old run.new) }
    ensures counted { (roads : ℕ → Cells) (tallies : ℕ → StepTally)
        → IsCourse run.old.seed run.old.sheet roads tallies
        → IfOk result (λ window. window ≡ window_of roads tallies run.old.step every) }
    ensures measured { IfOk result (λ window. IsMeasured window.point) }
{
    let before = run.tally();
    let (lane0, lane1) = count_lanes(executor, alloc, run, every)?;
    Ok(Window {
        step: u64::from(run.step()),
        point: point_since(run, before, every),
        lane0,
        lane1,
    })
}
