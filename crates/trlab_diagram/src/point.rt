//! The counts of a road: points of the diagram with the flow at each, and windows of a series.

ghost use Rattle.std.specs.Prelude.{◌≡◌};
ghost use Rattle.trlab_diagram.specs.Tables.{IsMeasured, flow_of};

/// A point of the fundamental diagram: the counts of a road over some steps.
///
/// The density, in cars per cell, is `cars / cells`; `flow` returns the flow.
#[derive(Clone, Copy, Debug, PartialEq, Eq)]
pub struct Point {
    /// The number of cars on the road.
    pub cars: u64,
    /// The number of cells of the road: the length of a lane times the number of lanes.
    pub cells: u64,
    /// The number of counted steps.
    pub steps: u64,
    /// The sum of the speeds of all cars in all these steps, in cells.
    pub distance: u64,
    /// The number of car-steps with speed 0: a car counts once for each step after which it is stopped.
    pub stopped: u64,
    /// The number of lane changes in all these steps.
    pub changes: u64,
}

/// The flow at a point, in millionths of a car per step, rounded down.
///
/// This is the density times the mean speed, which Greenshields (1935) measured on roads and Nagel and
/// Schreckenberg (1992) on roads of cells. There must be at least one cell and one step.
pub fn flow(point: &Point) -> u128
    requires { IsMeasured point.now }
    ensures { result ≡ flow_of point.now }
{
    u128::from(point.distance) * 1_000_000 / (u128::from(point.cells) * u128::from(point.steps))
}

/// The counts of a lane, summed over the roads after each of some steps. A car that is on the lane after three of these
/// steps counts three times, so `cars` and `stopped` are car-steps.
#[derive(Clone, Copy, Debug, PartialEq, Eq)]
pub struct LaneCount {
    /// The number of car-steps on the lane.
    pub cars: u64,
    /// The sum of the speeds in these car-steps, in cells.
    pub distance: u64,
    /// The number of these car-steps with speed 0.
    pub stopped: u64,
}

/// A window of a series: the counts over consecutive steps, of the whole road and of each lane.
#[derive(Clone, Copy, Debug, PartialEq, Eq)]
pub struct Window {
    /// The step at which the window ends, numbered like the pictures of a run.
    pub step: u64,
    /// The counts of the road.
    pub point: Point,
    /// The counts of lane 0.
    pub lane0: LaneCount,
    /// The counts of lane 1; all are 0 if the road has only one lane.
    pub lane1: LaneCount,
}
