//! The problem with a line of a program.

use crate::fault::ByteSpan;
use crate::instruction::{operand_at_fault, start_of_name};
use crate::problem::push_number_problem;
use crate::sentence::{Draft, Quoted};
use trlab_asm::{OperandKind, Why, is_label, mnemonic_named, operand_kinds};
use trlab_lines::{label_and_rest, name_and_operands, without_comment};

/// The number of operands after the name of an instruction, separated by commas or blanks.
fn count_operands(operands: &[u8]) -> usize {
    operands
        .split(|byte| matches!(byte, b',' | b' ' | b'\t'))
        .filter(|word| !word.is_empty())
        .count()
}

/// The message for an operand of the wrong form; it follows the operand.
fn wrong_operand(operand: OperandKind) -> &'static str {
    match operand {
        OperandKind::Register =>
            "is not a register (r0 to r7). To use a number, load it first: `num r1, ..`.",
        OperandKind::Result =>
            "is not a register (r0 to r7): the first operand is the register for the result.",
        OperandKind::Number | OperandKind::Divisor | OperandKind::Word =>
            "is not a whole number (digits only).",
        OperandKind::Chance => "is not a probability: write p x 2147483648 as a whole number.",
        OperandKind::Input => "is not an input.",
        OperandKind::Target => "is neither a label nor `@` followed by an instruction number.",
    }
}

/// Adds the first operand of the wrong form, or the wrong number of operands.
fn push_operand_problem(problem: &mut Draft, line: &[u8]) {
    let (name, operands) = name_and_operands(line);
    let Some(name) = mnemonic_named(name) else {
        return;
    };
    let count = count_operands(operands);
    let wanted = operand_kinds(name).len();
    if count != wanted {
        return write!(problem, "{count} operands; the instruction takes {wanted}.");
    }
    if let Some(found) = operand_at_fault(line, Why::Operand) {
        let word = Quoted(found.word);
        write!(problem, "`{word}` {}", wrong_operand(found.operand));
    }
}

/// Adds the problem with an invalid label.
fn push_label_problem(problem: &mut Draft, line: &[u8]) {
    match label_and_rest(without_comment(line)) {
        (Some(label), _) if !is_label(label) => {
            let label = Quoted(label);
            write!(
                problem,
                "`{label}` is not a label: \
                use at most 32 letters, digits and `_`, not starting with a digit."
            );
        }
        _ => {}
    }
}

/// Adds the problem with a line of a program, unless the meaning of the cause is enough.
pub fn push_program_problem(problem: &mut Draft, line: &[u8], why: Why) {
    match why {
        Why::Word => push_label_problem(problem, line),
        Why::Operand => push_operand_problem(problem, line),
        Why::Number => {
            if let Some(found) = operand_at_fault(line, why)
                && let Some((least, most)) = found.operand.range()
            {
                push_number_problem(problem, found.word, u64::from(least), u64::from(most));
            }
        }
        Why::LabelTwice | Why::NoLabel | Why::TooLong | Why::Empty | Why::Memory => {}
    }
}

/// The bytes of an invalid label, or otherwise of the instruction's name; `None` if the line has neither.
pub fn word_span(line: &[u8]) -> Option<ByteSpan> {
    let (start, length) = match label_and_rest(without_comment(line)) {
        (Some(label), _) if !is_label(label) => (0, label.len()),
        _ => (start_of_name(line), name_and_operands(line).0.len()),
    };
    if length == 0 {
        return None;
    }
    Some(ByteSpan { start, length })
}
