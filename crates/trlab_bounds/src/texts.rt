//! The limits of input files.

/// The maximum number of bytes of an input.
pub const TEXT_LIMIT: usize = 4194304;

/// The largest number that an input can contain: ten digits.
pub const LONGEST_NUMBER: u64 = 9999999999;
