//! The limits of roads, and of the numbers that cars see.

/// The maximum speed limit of a road, in cells per step: the highest speed that one character can show, `z`.
pub const MAX_LIMIT: u32 = 35;

/// The maximum number of cells of a lane.
pub const MAX_LENGTH: u32 = 100_000;

/// The maximum number of lanes of a road.
pub const MAX_LANES: u32 = 2;

/// The largest gap that a car can see: all other cells of the longest lane.
pub const MAX_GAP: u32 = 99_999;
