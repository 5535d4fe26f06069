//! The verifier's notes: an abstract interpretation of driver programs (Cousot and Cousot 1977), one
//! instruction at a time. A note is the knowledge of the values before an instruction. This crate has the order of
//! notes, their join, the transfer of each instruction, and the reasons to reject it; docs/VERIFIER.md explains them.
//!
//! ```text
//! let (slow, fast) = (AbstractValue::Between(0, 2), AbstractValue::Between(3, 5));
//! let (is_same, known_level) = (false, 0);
//! let level = level_between(slow, fast, is_same, known_level); // 2: the slow value is below the fast one
//! ```
#![tactic(auto)]

pub mod laws;
mod levels;
mod note;
mod reasons;
mod result;
mod rows;
mod strength;
mod transfer;

pub use note::{AT_MOST, AbstractValue, BELOW, entry_levels, entry_values, level_between};
pub use reasons::{Operands, Reason, reason_against};
pub use rows::StoredNote;
pub use strength::{is_no_stronger, join, join_itself};
pub use transfer::{jump_note, next_note};
