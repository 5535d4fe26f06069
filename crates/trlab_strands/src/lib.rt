//! Records which events each of several threads has added to one list under a lock. A strand has the events of one
//! thread, each with its number in the list; all strands together have each event exactly once.
//!
//! So the owner of all strands knows which thread added which event of the history, and in which order. All strands of
//! a list share one word of memory, whose value no result depends on, and need no other memory.
//!
//! ```text
//! let (strands, mut keeper, mut strand) = blank.open::<L>();
//! keeper.note(&strands, &mut strand, &7); // event 0 of the list, and an event of this strand
//! ```
#![tactic(auto)]

mod knowledge;
pub mod laws;
mod tokens;

pub use knowledge::{ALL_PARTS, Ledger};
pub use tokens::{Blank, Keeper, Strand, Strands};
