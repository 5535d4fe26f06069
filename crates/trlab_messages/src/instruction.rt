//! Instructions on lines of programs, and their operands.

use trlab_asm::{OperandKind, Why, mnemonic_named, operand_kinds};
use trlab_lines::{
    cut, label_and_rest, name_and_operands, only_word, without_comment, without_indent,
};
use trlab_texts::word::number_from;

/// The number of bytes before the name of a line's instruction.
pub fn start_of_name(line: &[u8]) -> usize {
    let code = without_comment(line);
    let (_, body) = label_and_rest(code);
    code.len().saturating_sub(without_indent(body).len())
}

/// Whether a line is rejected for this word as an operand of this kind.
fn is_at_fault(operand: OperandKind, word: &[u8], why: Why) -> bool {
    match (why, operand.range()) {
        (Why::Operand, _) => !operand.has_form(word),
        (Why::Number, Some((least, most))) => number_from(least, most, word).is_err(),
        (Why::NoLabel, None) => operand == OperandKind::Target,
        _ => false,
    }
}

/// An operand in a line of a program.
#[derive(Clone, Copy)]
pub struct OperandWord<'a> {
    pub operand: OperandKind,
    /// The number of bytes of the line before it.
    pub at: usize,
    pub word: &'a [u8],
}

/// The first operand for which a line of a program is rejected, if operands are separated by commas.
pub fn operand_at_fault(line: &[u8], why: Why) -> Option<OperandWord<'_>> {
    let (name, operands) = name_and_operands(line);
    let start = start_of_name(line).saturating_add(name.len());
    let mut left = operands;
    for operand in operand_kinds(mnemonic_named(name)?) {
        let (front, rest) = cut(left, b',').unwrap_or((left, b""));
        let word = only_word(front)?;
        if is_at_fault(*operand, word, why) {
            let before = operands.len().saturating_sub(without_indent(left).len());
            return Some(OperandWord {
                operand: *operand,
                at: start.saturating_add(before),
                word,
            });
        }
        left = rest;
    }
    None
}
