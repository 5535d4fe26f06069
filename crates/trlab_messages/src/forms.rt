//! The forms of lines and of instructions, in words.

use trlab_asm::Mnemonic;
use trlab_texts::LineName;

/// The valid inputs of `trlab check`.
pub const EXPECTED_OF_CHECK: &str =
    "`motion`, `change`, `notes motion` or `notes change`, followed by one instruction per line; \
     or only the line `code X` or `notes code X`.";

/// The form of a line of a job or sweep.
pub fn form_of_line(line: LineName) -> &'static str {
    match line {
        LineName::Road => "`road 1`, the first line of a job.",
        LineName::Sweep => "`sweep 1`, the first line of a sweep.",
        LineName::Key => "`key` followed by 64 hexadecimal digits.",
        LineName::Limit => "`limit n` (maximum speed in cells per step, 1 to 35).",
        LineName::Lane =>
            "`lane` followed by 1 to 100000 cells: `.` is empty, a car is its speed, 0 to 9 or a to z.",
        LineName::Rule => "`rule nasch t`, `rule vdr t t0`, `rule rickert t c` or `rule own` \
             (t, t0 and c: probabilities times 2147483648).",
        LineName::Motion => "a motion program: `motion`, its instructions and `end`; or `code X`.",
        LineName::Change => "a change program: `change`, its instructions and `end`; or `code X`.",
        LineName::End => "an instruction of the program, or `end` after the last one.",
        LineName::Length => "`length n` (cells per lane, 1 to 100000).",
        LineName::Lanes => "`lanes 1` or `lanes 2`.",
        LineName::Steps => "`steps n` (0 to 500000).",
        LineName::At => "`at STEP rule ..`, or the end of the file.",
        LineName::Warm => "`warm n` (steps before counting starts, 0 to 500000).",
        LineName::Measure => "`measure n` (steps that are counted, 1 to 500000).",
        LineName::Cars => "`cars n` (a point with n cars, 0 to 200000).",
    }
}

/// The names of the instructions.
pub const INSTRUCTIONS: &str =
    "num, get, side, draw, copy, add, sub, mul, div, min, max, not, and, or, \
     jump, jlt, jle, jtrue, jfalse, go, cross or stay.";

/// The form of an instruction with its operands.
pub fn form_of_instruction(name: Mnemonic) -> &'static str {
    match name {
        Mnemonic::Num => "`num rd, n` (n from 0 to 4294967295).",
        Mnemonic::Get =>
            "`get rd, input`: speed, limit, gap or headspeed; in a change also sidegap, sideback, lane.",
        Mnemonic::Side => "`side rd`.",
        Mnemonic::Draw => "`draw rd, k, t`, k from 0 to 15, t from 0 to 2147483648.",
        Mnemonic::Copy => "`copy rd, ra`.",
        Mnemonic::Add => "`add rd, ra, rb`.",
        Mnemonic::Sub => "`sub rd, ra, rb`.",
        Mnemonic::Mul => "`mul rd, ra, n` (n from 0 to 4294967295).",
        Mnemonic::Div => "`div rd, ra, n` (n from 1 to 4294967295).",
        Mnemonic::Min => "`min rd, ra, rb`.",
        Mnemonic::Max => "`max rd, ra, rb`.",
        Mnemonic::Not => "`not rd, ra`.",
        Mnemonic::And => "`and rd, ra, rb`.",
        Mnemonic::Or => "`or rd, ra, rb`.",
        Mnemonic::Jump => "`jump L` (L is a label, or `@n` for instruction n, counted from 0).",
        Mnemonic::JumpLess => "`jlt ra, rb, L` (L is a label or `@n`).",
        Mnemonic::JumpAtMost => "`jle ra, rb, L` (L is a label or `@n`).",
        Mnemonic::JumpTrue => "`jtrue ra, L` (L is a label or `@n`).",
        Mnemonic::JumpFalse => "`jfalse ra, L` (L is a label or `@n`).",
        Mnemonic::Go => "`go ra`.",
        Mnemonic::Cross => "`cross`, without operands.",
        Mnemonic::Stay => "`stay`, without operands.",
    }
}
