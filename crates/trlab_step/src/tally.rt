//! Tallies: the distance, the stopped cars and the lane changes of a step, or their sums over several steps. A sum
//! counts car-steps: a car that is stopped after three steps counts three times.
//!
//! The sums of one step fit into 32 bits, and adding these is faster; the sums over all steps of a run fit into 64.

ghost use Rattle.std.specs.Prelude.{◌≡◌, ◌*◌, ◌≤◌, count_by, length, nat_eq, sum, ◌+◌, ◌<◌, ◌^◌};
ghost use Rattle.trlab_bounds.specs.declared.roads.TheConstants.{MAX_LENGTH, MAX_LANES};
ghost use Rattle.trlab_step.specs.Run.{no_tally, tally_sum};

/// The counts of a step, or their sums over several steps. The distance determines the flow (Nagel and Schreckenberg
/// 1992).
#[derive(Clone, Copy, Debug, PartialEq, Eq)]
pub struct StepTally {
    /// The sum of the new speeds of all cars, in cells.
    pub distance: u64,
    /// The number of cars whose new speed is 0; over several steps, of the car-steps that end with speed 0.
    pub stopped: u64,
    /// The number of cars that crossed to the other lane; over several steps, of the lane changes.
    pub changes: u64,
}

/// The number of cars that cross.
pub fn count_lane_changes(crosses: &[bool]) -> u64
    requires at_most_max_cars { length crosses.now ≤ MAX_LANES * MAX_LENGTH }
    ensures { result ≡ count_by (λ crosses. crosses) crosses.now }
{
    let mut count = 0u32;
    for is_crossing in crosses {
        count += u32::from(*is_crossing);
    }
    u64::from(count)
}

/// The tally of new speeds, without lane changes.
pub fn tally_of(speeds: &[u8]) -> StepTally
    requires at_most_max_cars { length speeds.now ≤ MAX_LANES * MAX_LENGTH }
    ensures distance { result.distance ≡ sum speeds.now }
    ensures stopped { result.stopped ≡ count_by (λ speed. nat_eq speed 0) speeds.now }
    ensures changes { result.changes ≡ 0 }
{
    let mut distance = 0u32;
    let mut stopped = 0u32;
    for speed in speeds {
        distance += u32::from(*speed);
        stopped += u32::from(*speed == 0);
    }
    StepTally {
        distance: u64::from(distance),
        stopped: u64::from(stopped),
        changes: 0,
    }
}

/// The tally before any step: all counts are 0.
pub fn no_tally() -> StepTally
    ensures { result ≡ no_tally }
{
    StepTally {
        distance: 0,
        stopped: 0,
        changes: 0,
    }
}

/// The sum of two tallies, count by count.
pub fn tally_sum(a: StepTally, b: StepTally) -> StepTally
    requires distance { a.distance + b.distance < 2 ^ 64 }
    requires stopped { a.stopped + b.stopped < 2 ^ 64 }
    requires changes { a.changes + b.changes < 2 ^ 64 }
    ensures { result ≡ tally_sum a b }
{
    StepTally {
        distance: a.distance + b.distance,
        stopped: a.stopped + b.stopped,
        changes: a.changes + b.changes,
    }
}
