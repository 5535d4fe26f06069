//! The faults of program texts and their order.

ghost use Rattle.std.specs.Prelude.{◌≡◌};
ghost use Rattle.trlab_asm.specs.declared.fault.Why.TheVariants.{Memory};

use std::alloc::AllocError;
use thiserror::Error;

/// The fault of a program text, with its number.
///
/// Lines are read in order. In a line, faults of the label come first, then an unknown instruction, then too
/// many instructions, then the form of all operands, then their ranges. `Empty` comes after all lines, and then
/// `NoLabel`, again in the order of lines.
#[derive(Clone, Copy, Debug, PartialEq, Eq, Error)]
pub enum Why {
    #[error("unknown instruction, or invalid label")]
    Word = 1,
    #[error("invalid operand, or the wrong number of operands")]
    Operand = 2,
    #[error("a number is out of range, or has more than 10 digits")]
    Number = 3,
    #[error("the label is defined in an earlier line")]
    LabelTwice = 4,
    #[error("no line has this label")]
    NoLabel = 5,
    #[error("a program has at most 128 instructions")]
    TooLong = 6,
    #[error("the program has no instruction")]
    Empty = 7,
    #[error("out of memory")]
    Memory = 8,
}

/// The first fault of a text. Lines are counted from 1; `Empty` and `Memory` have line 0.
#[derive(Clone, Copy, Debug, PartialEq, Eq, Error)]
#[error("line {line}: {why}")]
pub struct AsmFault {
    pub line: usize,
    pub why: Why,
}

impl From<AllocError> for AsmFault {
    ghost from_gives = { λ _ fault. fault ≡ record { line = 0; why = Memory } };

    fn from(_: AllocError) -> AsmFault {
        AsmFault {
            line: 0,
            why: Why::Memory,
        }
    }
}
