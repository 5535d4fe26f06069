//! The value of `ALL_PARTS`. Definitions use the constant by name, so a new value would silently change their meaning;
//! this law would then fail.
//!
//! The law is the contract of a function with an empty body.

ghost use Rattle.std.specs.Prelude.{◌≡◌};

use crate::knowledge::ALL_PARTS;

/// The right to add to a list has 1024 parts, so a list has at most 1024 strands.
pub fn limits()
    ensures parts { ALL_PARTS ≡ 1024 }
{}
