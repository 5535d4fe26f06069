//! The verifier of driver programs: an accepted program is never stuck and ends within its budget, for every
//! view and all random words. The verifier visits each instruction once, with the join of its incoming notes;
//! docs/VERIFIER.md explains how.
//!
//! ```text
//! let text = b"get r0, gap\nget r1, limit\nmin r0, r0, r1\ngo r0";
//! let code = assemble(alloc, Kind::Motion, text).ok()?;
//! let motion = verify_motion(alloc, code).ok()?; // an error if a car could collide or the program might not end
//! ```
#![tactic(auto)]

mod for_embedders;
pub mod laws;
mod note;
mod program;
mod table;
mod verdict;
mod verify;

pub use for_embedders::check_notes;
pub use note::{Mark, Note};
pub use program::{AcceptedProgram, Change, ChangeKind, Motion, MotionKind, ProgramKind};
pub use table::{NotesFault, notes, notes_of_rejected};
pub use verify::{VerifyFault, verify_as, verify_change, verify_motion};
