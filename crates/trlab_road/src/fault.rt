//! The reasons why pictures or evenly spaced cars do not make a road.

ghost use Rattle.std.specs.Prelude.{◌≡◌};
ghost use Rattle.trlab_road.specs.declared.fault.RoadFault.TheVariants.{Memory};

use std::alloc::AllocError;
use thiserror::Error;

/// The first reason why no road can be made. Faults are checked in the order of the variants up to `Limit`; then
/// characters one by one, or the number of cars.
#[derive(Clone, Copy, Debug, PartialEq, Eq, Error)]
pub enum RoadFault {
    /// The number of lanes is not 1 or 2.
    #[error("a road has one or two lanes")]
    Lanes,
    /// The lanes do not have 1 to 100,000 cells, or not all the same number.
    #[error("the lanes have no cell, too many or unequal lengths")]
    Length,
    /// The speed limit is not 1 to 35.
    #[error("the speed limit is out of range")]
    Limit,
    /// A character is neither a dot nor a digit or letter for a speed.
    #[error("invalid character in lane {lane}, cell {place}")]
    Character { lane: u32, place: u32 },
    /// A speed is above the limit.
    #[error("the speed in lane {lane}, cell {place} is above the limit")]
    SpeedAboveLimit { lane: u32, place: u32 },
    /// An allocation failed.
    #[error("out of memory")]
    Memory,
    /// There are more cars than cells.
    #[error("more cars than cells")]
    TooManyCars,
}

impl From<AllocError> for RoadFault {
    ghost from_gives = { λ _ fault. fault ≡ Memory };

    fn from(_: AllocError) -> RoadFault {
        RoadFault::Memory
    }
}
