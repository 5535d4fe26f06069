//! The text of driver programs: from lines to programs, and back to the one text that is printed.
//!
//! ```text
//! let code = assemble(alloc, Kind::Motion, b"get r0,gap ; all of it\ngo r0").ok()?;
//! let text = disassemble(alloc, &code).ok()?; // "get r0, gap\ngo r0\n"
//! ```
#![tactic(auto)]

mod assembly;
mod fault;
pub mod laws;
mod names;
mod operands;
mod parts;
mod printing;
mod reading;

pub use assembly::assemble;
pub use fault::{AsmFault, Why};
pub use names::{
    HasText, INPUTS, MNEMONICS, Mnemonic, REGISTERS, input_text, mnemonic_named, mnemonic_text,
    register_text,
};
pub use operands::{OperandKind, is_label, operand_kinds};
pub use printing::disassemble;
