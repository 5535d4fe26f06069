//! The causes of rejected inputs, in words.

use trlab_asm::Why;
use trlab_code::CodeFault;
use trlab_road::RoadFault;
use trlab_texts::Cause;

pub fn cause_meaning(cause: Cause) -> &'static str {
    match cause {
        Cause::Line => "Unexpected, malformed or missing line.",
        Cause::Number => "Malformed number, or a number out of range.",
        Cause::Key => "Invalid key: exactly 64 hexadecimal digits are needed.",
        Cause::OneLane => "A rule with lane changes needs a road with two lanes.",
        Cause::Order =>
            "`at` lines must be in increasing order, and every step must be below `steps`.",
        Cause::TooMany =>
            "Too many lines: a job has at most 1023 `at` lines, a sweep at most 200 `cars` lines.",
        Cause::Work =>
            "Too much work: up to this line the points need more than 500000 steps (`warm` + `measure` each).",
        Cause::Hex =>
            "Invalid `code` line: write each byte as two hexadecimal digits, 0 to 9 or a to f.",
        Cause::TooBig => "The input is too large: the maximum is 4 MiB (4,194,304 bytes).",
        Cause::StandardRefused =>
            "The verifier rejects a program of this standard rule. No input causes this error.",
        Cause::Program(why) => program_meaning(why),
        Cause::Code(fault) => code_meaning(fault),
        Cause::Road(fault) => road_meaning(fault),
        Cause::Verdict(_) => "The verifier rejects the program that begins here.",
    }
}

/// The meaning of a fault of a program's lines.
fn program_meaning(why: Why) -> &'static str {
    match why {
        Why::Word => "Unknown instruction, or an invalid label before `:`.",
        Why::Operand => "Invalid operand, or the wrong number of operands.",
        Why::Number => "A number in this instruction is out of range.",
        Why::LabelTwice => "This label is already defined above.",
        Why::NoLabel => "This jump goes to a label that does not exist.",
        Why::TooLong => "The program is too long: this is instruction 129, and the maximum is 128.",
        Why::Empty => "The program has no instructions.",
        Why::Memory => "Out of memory.",
    }
}

/// The meaning of a fault of a program's bytes.
fn code_meaning(fault: CodeFault) -> &'static str {
    match fault {
        CodeFault::Short => "The program ends in the middle: bytes are missing.",
        CodeFault::Magic => "The first four bytes must be 54 52 4c 42.",
        CodeFault::Version => "The version (the fifth byte) must be 01 or 02.",
        CodeFault::Kind =>
            "This is a program of the other kind: a motion program is needed for `motion`, \
            a change program for `change`.",
        CodeFault::Count => "The number of instructions (bytes 7 and 8) must be 1 to 128.",
        CodeFault::Opcode(_) => "Unknown opcode.",
        CodeFault::Field(_) => "A field of an instruction is out of range.",
        CodeFault::Trailing => "There are bytes after the last instruction.",
        CodeFault::NeedlessVersion =>
            "The version must be 1 unless an instruction reads `headspeed`.",
        CodeFault::Memory => "Out of memory.",
    }
}

/// The meaning of a fault of a road's lanes.
fn road_meaning(fault: RoadFault) -> &'static str {
    match fault {
        RoadFault::Length => "The lane is too long, or the two lanes have different lengths.",
        RoadFault::Character { .. } => "Invalid character in a lane.",
        RoadFault::SpeedAboveLimit { .. } =>
            "A car in this lane is faster than the maximum speed (`limit`).",
        RoadFault::TooManyCars => "There are more cars than cells.",
        RoadFault::Lanes => "A road has one or two lanes.",
        RoadFault::Limit => "The maximum speed (`limit`) must be 1 to 35.",
        RoadFault::Memory => "Out of memory.",
    }
}

/// Where to look if no repair helps; empty if the meaning of the cause is enough.
pub fn cause_hint(cause: Cause) -> &'static str {
    match cause {
        Cause::Line => "the keyword, and how many values follow it.",
        Cause::Number | Cause::Program(Why::Number) =>
            "that the number is in its range and has 1 to 10 digits.",
        Cause::Order => "the `at` line above this one, and the line `steps`.",
        Cause::TooMany => "whether you can split the input into several files.",
        Cause::Work =>
            "whether you can use fewer points or fewer steps, or split the sweep into several files.",
        Cause::TooBig => "that this is the file you meant.",
        Cause::Program(Why::Word) =>
            "the name of the instruction; a label is at most 32 letters, digits and `_`, then `:`.",
        Cause::Program(Why::Operand) => "the number of operands, and the commas between them.",
        Cause::Program(Why::LabelTwice) =>
            "the line above with the same label: rename one of the two.",
        Cause::Program(Why::NoLabel) =>
            "the spelling of the label where it is defined, before `:`.",
        Cause::Program(Why::TooLong) =>
            "whether the program can be shorter: the maximum is 128 instructions.",
        Cause::Program(Why::Empty) =>
            "whether the lines of the program are missing, or all comments.",
        Cause::Code(fault) => code_hint(fault),
        Cause::Road(RoadFault::Length) =>
            "the length of each lane: 1 to 100000 cells, and equal for both lanes.",
        Cause::Road(RoadFault::Character { .. }) =>
            "this cell: it must be `.`, a digit or a lower-case letter.",
        Cause::Road(RoadFault::SpeedAboveLimit { .. }) => "this cell, and the line `limit`.",
        Cause::Road(RoadFault::TooManyCars) =>
            "the lines `length` and `lanes`: at most one car fits into a cell.",
        _ => "",
    }
}

/// Where to look for a fault of a program's bytes.
fn code_hint(fault: CodeFault) -> &'static str {
    match fault {
        CodeFault::Short | CodeFault::Count | CodeFault::Trailing =>
            "bytes 7 and 8 (low byte first): they give the number of instructions, 8 bytes each.",
        CodeFault::Version | CodeFault::NeedlessVersion =>
            "the fifth byte: 02 if an instruction reads `headspeed`, otherwise 01.",
        CodeFault::Kind => "the sixth byte: 00 for a motion program, 01 for a change program.",
        CodeFault::Opcode(_) => "the first byte of the instruction: it must be 01 to 16.",
        CodeFault::Field(_) =>
            "the fields: registers are 00 to 07, random words 00 to 0f, unused fields 00.",
        CodeFault::Magic | CodeFault::Memory => "",
    }
}
