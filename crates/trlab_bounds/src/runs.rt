//! The limits of runs: steps, rules, workers and runners.

/// The maximum number of steps of a run.
pub const MAX_STEPS: u32 = 500000;

/// The maximum number of rules after the first one.
pub const MAX_LATER: u32 = 1023;

/// The maximum number of workers of a run.
pub const MAX_WORKERS: u32 = 16;

/// The maximum number of runners of a sweep or a book.
pub const MAX_RUNNERS: u32 = 16;
