//! Jobs of few cars on one lane.

use std::alloc::Global;
use trlab_road::Road;
use trlab_sequential_book::Seed;
use trlab_words::{CERTAIN, Key};

/// The maximum speed of the cars, in cells per step.
const LIMIT: u32 = 5;

/// No car brakes at random.
pub const NEVER: u32 = 0;

/// Each car brakes with probability 1/2.
pub const BY_HALF: u32 = CERTAIN / 2;

/// Each car brakes in each step.
pub const ALWAYS: u32 = CERTAIN;

/// A job on a road of one lane with this picture, in the Nagel-Schreckenberg model. Its key is zero.
#[derive(Clone, Copy)]
pub struct TestJob {
    pub picture: &'static [u8],
    /// The number of its road, on which its random numbers depend.
    pub number: u32,
    /// The braking probability times 2^31.
    pub chance: u32,
    pub steps: u32,
}

/// A job of two stopped cars that never brake at random.
pub fn two_cars(number: u32, steps: u32) -> TestJob {
    TestJob {
        picture: b"0.0.......",
        number,
        chance: NEVER,
        steps,
    }
}

/// The seed of a job, without warm-up, on a road of maximum speed `LIMIT`. `None` if the road cannot be made.
pub fn new_seed(alloc: Global, job: &TestJob) -> Option<Seed> {
    Some(Seed {
        road: Road::parse(alloc, LIMIT, &[job.picture]).ok()?,
        key: Key([0; 32]),
        number: job.number,
        warm: 0,
    })
}
