//! Candidates for the lines of programs: for their words, labels and operands.

use crate::Result;
use crate::alike::{NearestName, edits_within, nearest_name};
use crate::candidates::line::joined;
use crate::candidates::number::{PROBABILITY, value_candidates};
use crate::candidates::{Candidates, END_ALONE, FOREIGN_COMMENT, WITHOUT_END};
use crate::fault::{ByteSpan, Fault};
use crate::instruction::{OperandWord, operand_at_fault, start_of_name};
use std::alloc::Global;
use trlab_asm::{INPUTS, MNEMONICS, OperandKind, REGISTERS, Why, is_label, mnemonic_named};
use trlab_jobs::Subject;
use trlab_lines::{
    Place, cut, is_numeral, label_and_rest, name_and_operands, next_line, without_comment,
    without_indent,
};
use trlab_texts::LineName;
use trlab_texts::word::{head_word, without_prefix};

/// The first words of the lines after which a program begins.
const PROGRAM_HEADS: [&[u8]; 3] = [b"motion", b"change", b"notes"];

/// The first words of the lines that may come after a program of a job or sweep.
const WORDS_AFTER_PROGRAMS: [&[u8]; 7] = [
    b"steps", b"at", b"change", b"warm", b"measure", b"motion", b"code",
];

/// Whether the first word of a line is `end` or nearly so.
fn is_like_end(alloc: Global, line: &[u8]) -> Result<bool> {
    let (name, _) = name_and_operands(line);
    let name = name.strip_suffix(b"\r").unwrap_or(name);
    // The instruction `and` is one edit away from `end`.
    if mnemonic_named(name).is_some() {
        return Ok(false);
    }
    Ok(edits_within(alloc, name, b"end", 1)?.is_some())
}

/// Places for a missing line `end` in the last program of a text.
#[derive(Clone, Copy)]
struct EndPlaces {
    /// A line that may be `end`, misspelled or with something after it.
    like_end: Option<ByteSpan>,
    /// The number of bytes before the first other line that may follow a program.
    next: Option<usize>,
}

/// No place is found yet.
const NOWHERE: EndPlaces = EndPlaces {
    like_end: None,
    next: None,
};

/// The places for a missing line `end`: those of an earlier program are forgotten when a later one begins.
fn end_places(alloc: Global, text: &[u8]) -> Result<EndPlaces> {
    let mut places = NOWHERE;
    let mut left = text;
    // There are no more lines than bytes.
    for _ in 0..text.len() {
        let Some((line, rest)) = next_line(left) else {
            break;
        };
        let start = text.len().saturating_sub(left.len());
        if PROGRAM_HEADS.contains(&head_word(line)) {
            places = NOWHERE;
        } else if places.like_end.is_none() && is_like_end(alloc, line)? {
            let length = line.len();
            places.like_end = Some(ByteSpan { start, length });
        } else if places.next.is_none() && WORDS_AFTER_PROGRAMS.contains(&head_word(line)) {
            places.next = Some(start);
        }
        left = rest;
    }
    Ok(places)
}

/// Adds candidates with the line `end` in the last program of an input that has ended.
pub fn end_candidates(list: &mut Candidates, fault: &Fault<'_>) {
    let places = end_places(list.alloc, fault.place.text);
    let EndPlaces { like_end, next } = list.ok_or_remember_failure(places).unwrap_or(NOWHERE);
    if let Some(line) = like_end {
        list.edit(
            END_ALONE,
            line.start,
            line.length,
            b"end".to_vec(list.alloc),
        );
    }
    if let Some(at) = next {
        list.edit(WITHOUT_END, at, 0, b"end\n".to_vec(list.alloc));
    }
    list.insert_above(fault, WITHOUT_END, LineName::End);
}

/// Adds candidates that write `;` instead of the comment mark of other languages.
fn other_comment_candidates(list: &mut Candidates, fault: &Fault<'_>) {
    let line = without_comment(fault.line);
    if let Some((front, _)) = cut(line, b'#') {
        list.edit_in_line(FOREIGN_COMMENT, front.len(), 1, b";");
    }
    match cut(line, b'/') {
        Some((front, [b'/', ..])) => list.edit_in_line(FOREIGN_COMMENT, front.len(), 2, b";"),
        _ => {}
    }
}

/// Adds a candidate that writes the line as `end`, or deletes it because a driver program has no such line.
fn like_end_candidate(list: &mut Candidates, fault: &Fault<'_>) {
    if fault.subject == Subject::Check {
        let mistake = "`trlab check` takes no line `end`: the program ends where the input ends.";
        list.delete_line(fault, mistake);
    } else {
        list.edit_in_line(END_ALONE, 0, fault.line.len(), b"end");
    }
}

/// Adds candidates for a line whose first word is not an instruction.
pub fn unknown_word_candidates(list: &mut Candidates, fault: &Fault<'_>) {
    other_comment_candidates(list, fault);
    let (label, _) = label_and_rest(without_comment(fault.line));
    let (name, _) = name_and_operands(fault.line);
    if fault.subject != Subject::Check && WORDS_AFTER_PROGRAMS.contains(&name) {
        list.insert_above(fault, WITHOUT_END, LineName::End);
    }
    if let Some(true) = list.ok_or_remember_failure(is_like_end(list.alloc, fault.line)) {
        like_end_candidate(list, fault);
    }
    if !matches!(label, Some(label) if !is_label(label)) {
        let meant = nearest_name(list.alloc, name, &MNEMONICS);
        list.fix_spelling(start_of_name(fault.line), name, meant);
    }
}

/// The label of the program at a place that is most like a word.
fn nearest_label<'a>(alloc: Global, place: &Place<'a>, word: &[u8]) -> Result<Option<&'a [u8]>> {
    let text = place.text;
    let mut best = NearestName::to(word);
    let mut left = text;
    // There are no more lines than bytes.
    for _ in 0..text.len() {
        let Some((line, rest)) = next_line(left) else {
            break;
        };
        let at = text.len().saturating_sub(left.len());
        if at > place.start && line == b"end".as_slice() {
            break;
        }
        if at < place.start && PROGRAM_HEADS.contains(&head_word(line)) {
            best.restart(word);
        }
        if let (Some(label), _) = label_and_rest(without_comment(line)) {
            best.compare(alloc, word, label)?;
        }
        left = rest;
    }
    Ok(best.found)
}

/// Adds the label that a jump's unknown target may mean.
pub fn label_candidate(list: &mut Candidates, fault: &Fault<'_>) {
    if let Some(OperandWord { at, word, .. }) = operand_at_fault(fault.line, Why::NoLabel) {
        let meant = nearest_label(list.alloc, &fault.place, word);
        if let Some(Some(label)) = list.ok_or_remember_failure(meant) {
            list.edit_in_line("probably a misspelled label.", at, word.len(), label);
        }
    }
}

/// Adds candidates that replace a wrong operand with the one that it may mean. A number, also after `r`, is not taken
/// for a misspelled name.
fn word_candidate(list: &mut Candidates, found: OperandWord<'_>) {
    let OperandWord { operand, at, word } = found;
    let is_number = is_numeral(without_prefix(b"r", word).unwrap_or(word));
    match operand {
        OperandKind::Register | OperandKind::Result if !is_number => {
            let meant = nearest_name(list.alloc, word, &REGISTERS);
            list.fix_spelling(at, word, meant);
        }
        OperandKind::Input if !is_number => {
            let meant = nearest_name(list.alloc, word, &INPUTS);
            list.fix_spelling(at, word, meant);
        }
        OperandKind::Target if is_numeral(word) => {
            list.edit_in_line("put `@` before the number of an instruction.", at, 0, b"@");
        }
        OperandKind::Chance => value_candidates(list, at, word, Some(PROBABILITY)),
        OperandKind::Number | OperandKind::Divisor | OperandKind::Word => {
            value_candidates(list, at, word, None);
        }
        OperandKind::Register | OperandKind::Result | OperandKind::Input | OperandKind::Target => {}
    }
}

/// Adds a candidate with commas between the operands.
fn comma_candidate(list: &mut Candidates, fault: &Fault<'_>) {
    let (name, operands) = name_and_operands(fault.line);
    let words = without_indent(operands);
    let before = name
        .len()
        .saturating_add(operands.len().saturating_sub(words.len()));
    let at = start_of_name(fault.line).saturating_add(before);
    let mistake = "separate operands with commas.";
    list.rewrite(mistake, at, words.len(), joined(list.alloc, words, b", "));
}

/// Adds candidates for a line whose operands are wrong.
pub fn operand_candidates(list: &mut Candidates, fault: &Fault<'_>, why: Why) {
    other_comment_candidates(list, fault);
    match operand_at_fault(fault.line, why) {
        Some(found) => word_candidate(list, found),
        None => comma_candidate(list, fault),
    }
}
