//! Faults of texts: the cause with its number, and the line.

ghost use Rattle.std.specs.Prelude.{◌≡◌};
ghost use Rattle.trlab_texts.specs.Causes.{cause_number, why_number, code_fault_number, road_fault_number};

use thiserror::Error;
use trlab_asm::Why;
use trlab_code::CodeFault;
use trlab_road::RoadFault;

/// The cause of a line's fault.
#[derive(Clone, Copy, Debug, PartialEq, Eq, Error)]
pub enum Cause {
    /// A line that may not come here, a wrong number of words, or a text that ends too early.
    #[error("unexpected line")]
    Line,
    /// Not a number, or a number outside its range.
    #[error("malformed number, or a number out of range")]
    Number,
    /// The key is not 64 hexadecimal digits.
    #[error("not a key of 64 hexadecimal digits")]
    Key,
    /// A change program on a road of one lane.
    #[error("a change program needs two lanes")]
    OneLane,
    /// The step is not above the step before it, or not below the number of steps.
    #[error("the step is not above the last one, or not below the number of steps")]
    Order,
    /// More rules of later steps than a job may have, or more points than a sweep may have.
    #[error("too many `at` lines, or too many points")]
    TooMany,
    /// The points so far take more steps together than a sweep may take.
    #[error("too many steps for one sweep")]
    Work,
    /// The bytes of a program are not hexadecimal.
    #[error("not in hexadecimal digits")]
    Hex,
    /// The text is longer than a text may be.
    #[error("the text is too long")]
    TooBig,
    /// The lines of a block are not a program.
    #[error("no program: {0}")]
    Program(Why),
    /// The bytes do not encode a program of the kind that is needed here.
    #[error("no program: {0}")]
    Code(CodeFault),
    /// The lanes do not show a road.
    #[error("no road: {0}")]
    Road(RoadFault),
    /// The verifier rejects a program of a standard rule. No text has this cause, because the verifier accepts
    /// these programs (law `standard_programs_are_accepted` of `trlab_rules`).
    #[error("the verifier rejects a program of a standard rule")]
    StandardRefused,
    /// The verifier rejects the program, for the reason with this number.
    #[error("the verifier rejects the program (reason {0})")]
    Verdict(u32),
}

impl Cause {
    /// The number of the cause, as it is printed for a rejected text.
    pub fn number(self) -> u64
        ensures { result ≡ cause_number self }
    {
        match self {
            Cause::Line => 1,
            Cause::Number => 2,
            Cause::Key => 3,
            Cause::OneLane => 4,
            Cause::Order => 5,
            Cause::TooMany => 6,
            Cause::Work => 7,
            Cause::Hex => 8,
            Cause::TooBig => 9,
            Cause::Program(why) => 10 + why_number(why),
            Cause::Code(fault) => 20 + code_fault_number(fault),
            Cause::Road(fault) => 30 + road_fault_number(fault),
            Cause::StandardRefused => 40,
            Cause::Verdict(reason) => 40 + u64::from(reason),
        }
    }
}

/// The number, from 1 to 8, of a fault in a program's lines.
fn why_number(why: Why) -> u64
    ensures { result ≡ why_number why }
{
    match why {
        Why::Word => 1,
        Why::Operand => 2,
        Why::Number => 3,
        Why::LabelTwice => 4,
        Why::NoLabel => 5,
        Why::TooLong => 6,
        Why::Empty => 7,
        Why::Memory => 8,
    }
}

/// The number, from 1 to 10, of a fault in a program's bytes.
fn code_fault_number(fault: CodeFault) -> u64
    ensures { result ≡ code_fault_number fault }
{
    match fault {
        CodeFault::Short => 1,
        CodeFault::Magic => 2,
        CodeFault::Version => 3,
        CodeFault::Kind => 4,
        CodeFault::Count => 5,
        CodeFault::Opcode(_) => 6,
        CodeFault::Field(_) => 7,
        CodeFault::Trailing => 8,
        CodeFault::Memory => 9,
        CodeFault::NeedlessVersion => 10,
    }
}

/// The number, from 1 to 7, of a fault of a road.
fn road_fault_number(fault: RoadFault) -> u64
    ensures { result ≡ road_fault_number fault }
{
    match fault {
        RoadFault::Lanes => 1,
        RoadFault::Length => 2,
        RoadFault::Limit => 3,
        RoadFault::Character { .. } => 4,
        RoadFault::SpeedAboveLimit { .. } => 5,
        RoadFault::Memory => 6,
        RoadFault::TooManyCars => 7,
    }
}

/// Why a text was rejected.
#[derive(Clone, Copy, Debug, PartialEq, Eq, Error)]
pub enum TextFault {
    /// The first fault of the text; lines are counted from 1, and line 0 is the whole text.
    #[error("line {line}: {cause}")]
    At { line: u32, cause: Cause },
    /// An allocation failed.
    #[error("out of memory")]
    Memory,
}
