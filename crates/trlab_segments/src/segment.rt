//! The cars of a road in standing order, cut into segments of nearly equal size, and the gate before each segment.
//! There are more segments than workers, so that no worker waits long for the last one.

ghost use Rattle.std.specs.Prelude.{◌≡◌, ◌+◌, ◌<◌, ◌≤◌};
ghost use Rattle.trlab_bounds.specs.declared.runs.TheConstants.{MAX_WORKERS};
ghost use Rattle.trlab_segments.specs.Segments.{first_car, segment_count};

/// Successive cars in standing order: from car `from` up to, but not including, car `to`.
#[derive(Clone, Copy)]
pub struct Segment {
    pub from: u32,
    pub to: u32,
}

/// The number of segments for `workers` workers: four per worker, but at most one per car.
pub fn segment_count(cars: u32, workers: u32) -> u32
    requires { (0 < workers) × (workers ≤ MAX_WORKERS) }
    ensures { result ≡ segment_count cars workers }
{
    cars.min(4 * workers)
}

/// The first car of segment `number` of `count` on a road of `cars` cars.
fn first_car(cars: u32, count: u32, number: u32) -> u32
    requires any { 0 < count }
    requires number { number ≤ count }
    ensures value { result ≡ first_car cars count number }
    ensures in_range { result ≤ cars }
{
    (number as u64 * cars as u64 / count as u64) as u32
}

impl Segment {
    /// Segment `number` of `count` on a road of `cars` cars.
    pub fn of(cars: u32, count: u32, number: u32) -> Segment
        requires { number < count }
        ensures from { result.from ≡ first_car cars count number }
        ensures to { result.to ≡ first_car cars count (number + 1) }
        ensures in_range { (result.from ≤ result.to) × (result.to ≤ cars) }
    {
        Segment {
            from: first_car(cars, count, number),
            to: first_car(cars, count, number + 1),
        }
    }
}

/// The number by which a gate knows the lane changes of a step.
pub const CHANGE_PHASE: u32 = 0;

/// The number by which a gate knows the motion of a step.
pub const MOTION_PHASE: u32 = 1;

/// A worker passes the gate before it asks the cars of a segment. A gate influences no answer; it may hold a worker up,
/// so that a test can observe several workers at once.
pub trait Gate {
    /// Lets a worker (0 is the calling thread) begin a segment of a phase (`CHANGE_PHASE` or `MOTION_PHASE`) of a step
    /// of the road with this number.
    fn pass(&self, number: u32, worker: u32, phase: u32, segment: u32);
}

/// A gate that every worker passes at once.
#[derive(Clone, Copy)]
pub struct OpenGate;

impl Gate for OpenGate {
    fn pass(&self, _number: u32, _worker: u32, _phase: u32, _segment: u32) {}
}
