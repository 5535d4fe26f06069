//! The limit of a quoted line, as a number.
//!
//! The law is the contract of a function with an empty body.

ghost use Rattle.std.specs.Prelude.{◌≡◌};

use crate::page::MAX_QUOTED;

/// At most 80 bytes of a line are quoted.
pub fn quotes()
    ensures { MAX_QUOTED ≡ 80 }
{}
