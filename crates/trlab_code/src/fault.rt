//! Why bytes do not encode a program.

ghost use Rattle.std.specs.Prelude.{◌≡◌};
ghost use Rattle.trlab_code.specs.declared.fault.CodeFault.TheVariants.{Memory};

use std::alloc::AllocError;
use thiserror::Error;

/// The first reason why bytes do not encode a program. Instructions are counted from 0.
///
/// The header is checked from left to right, then the length against its number of instructions, then each instruction
/// in turn, its opcode first, then whether the instructions need version 2, and last the bytes after the instructions.
/// Fewer than 8 bytes are `Short`. Version 1 has no `headspeed`: an instruction that reads it has a field out of range.
#[derive(Clone, Copy, Debug, PartialEq, Eq, Error)]
pub enum CodeFault {
    #[error("the bytes end too early")]
    Short,
    #[error("the bytes do not begin with `TRLB`")]
    Magic,
    #[error("the version is neither 1 nor 2")]
    Version,
    #[error("the kind is neither 0 nor 1")]
    Kind,
    #[error("the count of instructions is not 1 to 128")]
    Count,
    #[error("instruction {0} has an opcode of no instruction")]
    Opcode(u32),
    #[error("instruction {0} has a field out of range")]
    Field(u32),
    #[error("no instruction reads `headspeed`, so the version is 1")]
    NeedlessVersion,
    #[error("bytes follow the last instruction")]
    Trailing,
    #[error("out of memory")]
    Memory,
}

impl From<AllocError> for CodeFault {
    ghost from_gives = { λ _ fault. fault ≡ Memory };

    fn from(_: AllocError) -> CodeFault {
        CodeFault::Memory
    }
}
