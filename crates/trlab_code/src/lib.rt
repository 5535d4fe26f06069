//! Driver programs: their instructions, their bytes, and the views of cars.
//!
//! ```text
//! let instrs = vec![in alloc; Instr::Get(Register::R0, Input::Gap), Instr::Go(Register::R0)].ok()?;
//! let code = Code::new(Kind::Motion, instrs)?;
//! let bytes = encode(alloc, &code).ok()?; // 8 for the header, and 8 for each instruction
//! let same = decode(alloc, &bytes).ok()?;
//! ```
#![tactic(auto)]

mod encoding;
mod fault;
mod instruction;
pub mod laws;
mod program;
mod row;
mod view;

pub use encoding::{decode, encode};
pub use fault::CodeFault;
pub use instruction::{Input, Instr, Register, Variable};
pub use program::{Code, Kind};
pub use trlab_bounds::programs::{CERTAIN, MAX_INSTRUCTIONS, VARIABLES, WORDS};
pub use view::{ChangeView, MotionView, View};
