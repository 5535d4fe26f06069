//! The limits of sweeps.

ghost use Rattle.std.specs.Prelude.{◌≡◌, ◌*◌};

use trlab_bounds::roads::{MAX_LANES, MAX_LENGTH};
use trlab_bounds::runs::MAX_STEPS;

/// The maximum number of cars in a line of a sweep text: one per cell of the largest road.
pub const MAX_CARS: u32 = 200_000;

/// The maximum number of points of a sweep.
pub const MAX_POINTS: u32 = 200;

/// The maximum number of steps of all points of a sweep together.
pub const MAX_WORK: u32 = 500_000;

/// The maximum number of cars on the roads of a sweep that are in memory at the same time: 32 roads of the largest
/// size.
pub const MAX_CARS_IN_MEMORY: u32 = 6_400_000;

/// The limits as numbers. Definitions name the constants, so a changed constant would change the definitions
/// too; it is rejected here.
pub fn sweeps()
    ensures cars { MAX_CARS ≡ 200000 }
    ensures largest { MAX_CARS ≡ MAX_LANES * MAX_LENGTH }
    ensures points { MAX_POINTS ≡ 200 }
    ensures work { MAX_WORK ≡ 500000 }
    ensures steps { MAX_STEPS ≡ MAX_WORK }
    ensures in_memory { MAX_CARS_IN_MEMORY ≡ 32 * MAX_CARS }
{}
