//! The calls `motion`, `change`, `code` and `notes`.

ghost use Rattle.std.specs.Prelude.{◌<◌};
ghost use Rattle.trlab_bounds.specs.declared.programs.TheConstants.{VARIABLES};

use crate::report::{Outcome, Report};
use std::alloc::{AllocError, Global};
use trlab_asm::{
    AsmFault, INPUTS, REGISTERS, Why, assemble, disassemble, input_text, register_text,
};
use trlab_code::{Code, CodeFault, Kind, VARIABLES, decode, encode};
use trlab_verify::{Mark, Note, NotesFault, check_notes, notes};

/// Assembles a program, and writes its bytes in hexadecimal and its canonical text, or the fault.
pub fn write_assembled(report: &mut Report, kind: Kind, text: &[u8]) -> Outcome {
    match assemble(report.alloc, kind, text) {
        Ok(code) => write_code(report, &code),
        Err(fault) => write_asm_fault(report, fault),
    }
}

/// Writes the line and the number of the fault of a program that was not assembled.
fn write_asm_fault(report: &mut Report, fault: AsmFault) -> Outcome {
    match fault.why {
        Why::Memory => report.fail(),
        why => {
            let (line, why) = (fault.line, why as u32);
            report.push_allocated(format!(in report.alloc; "line {line} why {why}\n"));
            Outcome::Refused
        }
    }
}

/// Writes the bytes of a program in hexadecimal and its canonical text.
fn write_code(report: &mut Report, code: &Code) -> Outcome {
    match encode(report.alloc, code) {
        Ok(bytes) => push_hex(report, &bytes),
        Err(_) => return report.fail(),
    }
    write_canonical(report, code)
}

/// Writes bytes in hexadecimal, eight per line.
fn push_hex(report: &mut Report, bytes: &[u8]) {
    for row in bytes.chunks(8) {
        report.push_allocated(hex::encode(report.alloc, row));
        report.push_str("\n");
    }
}

/// Writes the canonical text of a program.
fn write_canonical(report: &mut Report, code: &Code) -> Outcome {
    match disassemble(report.alloc, code) {
        Ok(text) => report.push_bytes(&text),
        Err(_) => return report.fail(),
    }
    Outcome::Done
}

/// Decodes a program from hexadecimal digits, and writes its kind and its canonical text, or the fault.
pub fn write_decoded(report: &mut Report, text: &[u8]) -> Outcome {
    match without_white_space(report.alloc, text) {
        Ok(digits) => write_decoded_digits(report, &digits),
        Err(_) => report.fail(),
    }
}

/// A copy of a text without its white space.
fn without_white_space(alloc: Global, text: &[u8]) -> Result<Vec<u8>, AllocError> {
    let mut digits = Vec::new(alloc);
    for byte in text {
        if !byte.is_ascii_whitespace() {
            digits.push(*byte)?;
        }
    }
    Ok(digits)
}

/// Writes the kind and the canonical text of the program that hexadecimal digits encode, or the fault.
fn write_decoded_digits(report: &mut Report, digits: &[u8]) -> Outcome {
    match hex::decode(report.alloc, digits) {
        Ok(bytes) => write_decoded_bytes(report, &bytes),
        Err(_) => report.finish(Outcome::Refused, "no hexadecimal\n"),
    }
}

/// Writes the kind and the canonical text of the program that bytes encode, or the fault.
fn write_decoded_bytes(report: &mut Report, bytes: &[u8]) -> Outcome {
    match decode(report.alloc, bytes) {
        Ok(code) => {
            report.push_str(match code.kind() {
                Kind::Motion => "Motion\n",
                Kind::Change => "Change\n",
            });
            write_canonical(report, &code)
        }
        Err(CodeFault::Memory) => report.fail(),
        Err(fault) => {
            report.push_allocated(format!(in report.alloc; "{fault:?}\n"));
            Outcome::Refused
        }
    }
}

/// Assembles a program, checks its notes as a table, and writes them, or the fault.
pub fn write_notes(report: &mut Report, kind: Kind, text: &[u8]) -> Outcome {
    match assemble(report.alloc, kind, text) {
        Ok(code) => write_code_notes(report, &code),
        Err(fault) => write_asm_fault(report, fault),
    }
}

/// Writes the notes of a program.
fn write_code_notes(report: &mut Report, code: &Code) -> Outcome {
    match notes(report.alloc, code) {
        Ok(table) => push_notes(report, &table, check_notes(code, &table)),
        Err(NotesFault::Refused) => report.finish(Outcome::Refused, "no notes\n"),
        Err(NotesFault::Memory) => report.fail(),
    }
}

/// Writes a table of notes, one note per line, if the check accepted it.
fn push_notes(report: &mut Report, table: &[Note], is_checked: bool) -> Outcome {
    if !is_checked {
        return report.finish(Outcome::Refused, "notes that do not check\n");
    }
    for note in table {
        push_note(report, note);
    }
    Outcome::Done
}

/// The name of the variable with this number: first come the registers, then the inputs.
fn variable_name(variable: usize) -> &'static [u8]
    requires { variable < VARIABLES }
{
    match variable.checked_sub(REGISTERS.len()) {
        Some(input) => input_text(INPUTS[input]),
        None => register_text(REGISTERS[variable]),
    }
}

/// The level of a variable that is at most another one.
const AT_MOST: u8 = 1;

/// The level of a variable that is below another one.
const BELOW: u8 = 2;

/// Writes a note on a line: the values of the registers, the order of the variables (`<=` or `<`), and `side` if the
/// side cell is known to be empty.
fn push_note(report: &mut Report, note: &Note) {
    for register in 0..note.regs.len() {
        push_mark(report, variable_name(register), note.regs[register]);
    }
    for variable in 0..VARIABLES {
        push_order(report, variable, "<=", &note.levels[variable], AT_MOST);
        push_order(report, variable, "<", &note.levels[variable], BELOW);
    }
    if note.side {
        push_named(report, b"side", "");
    }
    report.push_str("\n");
}

/// Writes a register's name with its range or its kind of flag, or nothing if it is unset.
fn push_mark(report: &mut Report, name: &[u8], mark: Mark) {
    match mark {
        Mark::Unset => {}
        Mark::Num(low, high) => {
            push_named(report, name, " ");
            report.push_allocated(format!(in report.alloc; "{low} {high}"));
        }
        Mark::Flag(true) => push_named(report, name, " side"),
        Mark::Flag(false) => push_named(report, name, " flag"),
    }
}

/// Writes a name and the words after it. A space comes before the name unless it begins a line.
fn push_named(report: &mut Report, name: &[u8], after: &str) {
    match report.bytes.last() {
        None | Some(b'\n') => {}
        Some(_) => report.push_str(" "),
    }
    report.push_bytes(name);
    report.push_str(after);
}

/// Writes a variable, a sign, and the other variables to which it has this level, separated by commas; nothing if there
/// are none.
fn push_order(report: &mut Report, variable: usize, sign: &str, levels: &[u8; VARIABLES], level: u8)
    requires { variable < VARIABLES }
{
    let mut is_first = true;
    for other in 0..VARIABLES {
        if variable != other && levels[other] == level {
            if is_first {
                push_named(report, variable_name(variable), sign);
            } else {
                report.push_str(",");
            }
            report.push_bytes(variable_name(other));
            is_first = false;
        }
    }
}
