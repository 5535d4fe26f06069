//! Candidates for an unexpected line.

use crate::Result;
use crate::alike::{NearestName, nearest_word};
use crate::candidates::number::density_candidate;
use crate::candidates::program::end_candidates;
use crate::candidates::{
    BOTH_OUTSIDE_PROGRAM, COMMENT_OUTSIDE_PROGRAM, Candidates, EMPTY_OUTSIDE_PROGRAM, MISPLACED,
};
use crate::fault::Fault;
use crate::lines::UnreadLines;
use crate::names::{CHECK_NAMES, RULE_NAMES, after_rule, belongs_in, is_name_of_line, line_named};
use crate::problem::BYTE_ORDER_MARK;
use crate::repairs::Change;
use std::alloc::Global;
use trlab_asm::mnemonic_named;
use trlab_jobs::{Subject, subject_named};
use trlab_lines::{cut, name_and_operands, next_line, without_indent};
use trlab_texts::LineName;
use trlab_texts::word::{head_word, without_prefix};

/// The maximum length in bytes of a line that is rewritten, because the explanation shows the whole new line.
const LONGEST_LINE: usize = 120;

/// Words that other simulators use, and the lines that they mean.
const OTHER_WORDS: [(&[u8], LineName); 14] = [
    (b"density", LineName::Cars),
    (b"count", LineName::Cars),
    (b"seed", LineName::Key),
    (b"vmax", LineName::Limit),
    (b"speed", LineName::Limit),
    (b"maxspeed", LineName::Limit),
    (b"cells", LineName::Length),
    (b"size", LineName::Length),
    (b"model", LineName::Rule),
    (b"time", LineName::Steps),
    (b"iterations", LineName::Steps),
    (b"warmup", LineName::Warm),
    (b"transient", LineName::Warm),
    (b"sample", LineName::Measure),
];

/// Joins the words of a line with this separator; after a word that ends with a comma, only with a space.
pub fn joined(alloc: Global, words: &[u8], separator: &[u8]) -> Result<Vec<u8>> {
    let mut bytes = Vec::new(alloc);
    let mut is_after_blank = false;
    for byte in words {
        if matches!(*byte, b' ' | b'\t' | b'\r') {
            is_after_blank = !bytes.is_empty();
            continue;
        }
        if is_after_blank {
            let has_comma = bytes.last() == Some(&b',');
            bytes.extend_from_slice(if has_comma { b" " } else { separator })?;
        }
        bytes.push(*byte)?;
        is_after_blank = false;
    }
    Ok(bytes)
}

/// Adds a candidate with single spaces between words, and none at either end of the line.
fn blanks_candidate(list: &mut Candidates, fault: &Fault<'_>) {
    if fault.line.len() > LONGEST_LINE {
        return;
    }
    let mistake = "separate words with one space, with none at either end of the line.";
    match joined(list.alloc, fault.line, b" ") {
        Ok(words) if words.is_empty() || words.as_slice() == fault.line => {}
        words => list.rewrite(mistake, 0, fault.line.len(), words),
    }
}

/// Whether a line is a comment and nothing else.
fn is_comment(line: &[u8]) -> bool {
    matches!(without_indent(line).first(), Some(b';' | b'#'))
}

/// Whether a line is empty but for blanks.
fn is_blank(line: &[u8]) -> bool {
    matches!(without_indent(line), b"" | b"\r")
}

/// Adds a candidate that deletes the line at fault and all comments and empty lines directly below it, if it is a
/// comment or empty itself.
fn wordless_candidate(list: &mut Candidates, fault: &Fault<'_>) {
    let mut has_comment = is_comment(fault.line);
    let mut has_blank = is_blank(fault.line);
    if !has_comment && !has_blank {
        return;
    }
    let mut below = fault.place.below();
    // There are no more lines than bytes.
    for _ in 0..below.len() {
        match next_line(below) {
            Some((line, rest)) if is_comment(line) || is_blank(line) => {
                has_comment |= is_comment(line);
                has_blank |= is_blank(line);
                below = rest;
            }
            _ => break,
        }
    }
    let mistake = match (has_comment, has_blank) {
        (true, true) => BOTH_OUTSIDE_PROGRAM,
        (true, false) => COMMENT_OUTSIDE_PROGRAM,
        (false, _) => EMPTY_OUTSIDE_PROGRAM,
    };
    list.delete_to(fault, mistake, below);
}

/// Adds a candidate that deletes a comment after words: the first `mark`, everything after it, and the blanks before
/// it.
fn comment_candidate(list: &mut Candidates, fault: &Fault<'_>, mark: u8) {
    let Some((front, _)) = cut(fault.line, mark) else {
        return;
    };
    let end = front
        .iter()
        .rposition(|byte| *byte != b' ' && *byte != b'\t');
    if let Some(end) = end {
        let kept = end.saturating_add(1);
        let removed = fault.line.len().saturating_sub(kept);
        list.edit_in_line(COMMENT_OUTSIDE_PROGRAM, kept, removed, b"");
    }
}

/// Adds candidates for a byte order mark at the start of the line at fault: one that deletes it, and if the line also
/// ends with a carriage return, one that deletes both, because deleting only one of them would not help.
fn mark_candidates(list: &mut Candidates, fault: &Fault<'_>) {
    if let Some(line) = without_prefix(BYTE_ORDER_MARK, fault.line) {
        let mistake = "no file may begin with a byte order mark.";
        list.edit_in_line(mistake, 0, BYTE_ORDER_MARK.len(), b"");
        if let Some(line) = line.strip_suffix(b"\r") {
            let mistake =
                "no file may begin with a byte order mark or have Windows line endings: use LF only.";
            list.edit_in_line(mistake, 0, fault.line.len(), line);
        }
    }
}

/// Adds candidates for a byte order mark, comments, empty lines and superfluous blanks, whatever the line should be.
fn stray_character_candidates(list: &mut Candidates, fault: &Fault<'_>) {
    mark_candidates(list, fault);
    wordless_candidate(list, fault);
    blanks_candidate(list, fault);
    comment_candidate(list, fault, b';');
    comment_candidate(list, fault, b'#');
}

/// The name of a valid line that is most like a word.
fn nearest_wanted(alloc: Global, fault: &Fault<'_>, word: &[u8]) -> Result<Option<&'static [u8]>> {
    let mut best = NearestName::to(word);
    for name in &LineName::ALL {
        if fault.wants(*name) {
            best.compare(alloc, word, name.word())?;
        }
    }
    Ok(best.found)
}

/// Adds candidates that replace the first word with the name of a valid line that it may mean.
fn name_candidates(list: &mut Candidates, fault: &Fault<'_>, word: &[u8]) {
    list.fix_spelling(0, word, nearest_wanted(list.alloc, fault, word));
    if word.eq_ignore_ascii_case(b"density") && fault.wants(LineName::Cars) {
        density_candidate(list, fault);
    }
    for (other, name) in &OTHER_WORDS {
        if word.eq_ignore_ascii_case(*other) && fault.wants(*name) {
            list.fix_spelling(0, word, Ok(Some(name.word())));
        }
    }
}

/// Adds a candidate that replaces the word after `rule` with the name of a rule that it may mean.
fn rule_candidate(list: &mut Candidates, fault: &Fault<'_>) {
    if let Some(rest) = after_rule(fault.line) {
        let name = head_word(rest);
        let at = fault.line.len().saturating_sub(rest.len());
        let meant = nearest_word(list.alloc, name, &RULE_NAMES);
        list.fix_spelling(at, name, meant);
    }
}

/// Adds a candidate that writes the blanks between the cells of a lane as empty cells.
fn lane_candidate(list: &mut Candidates, fault: &Fault<'_>) {
    if fault.line.len() <= LONGEST_LINE
        && fault.wants(LineName::Lane)
        && let Some(cells) = without_prefix(b"lane ", fault.line)
        && cells.contains(&b' ')
    {
        let at = fault.line.len().saturating_sub(cells.len());
        let mistake = "an empty cell is written as `.`.";
        list.rewrite(mistake, at, cells.len(), joined(list.alloc, cells, b"."));
    }
}

/// Whether the line at fault, which begins with this word, may belong further down: lines of this name belong in the
/// input, and none is above it.
fn may_belong_below(fault: &Fault<'_>, word: &[u8]) -> bool {
    let mut above = UnreadLines::below(0, fault.place.above());
    matches!(line_named(word), Some(name) if belongs_in(name, fault.subject))
        && above.read_to(word).is_none()
}

/// Two lines, with an LF between them.
fn in_two_lines(alloc: Global, first: &[u8], second: &[u8]) -> Result<Vec<u8>> {
    let mut lines = first.to_vec(alloc)?;
    lines.push(b'\n')?;
    lines.extend_from_slice(second)?;
    Ok(lines)
}

/// Adds a candidate that swaps the line at fault, which begins with this word, with the one below it, if that line is
/// valid here.
fn swap_candidate(list: &mut Candidates, fault: &Fault<'_>, word: &[u8]) {
    let Some((below, _)) = next_line(fault.place.below()) else {
        return;
    };
    let is_wanted = match line_named(head_word(below)) {
        // A program has more lines, and all of them would have to move.
        None | Some(LineName::Motion | LineName::Change) => false,
        Some(name) => fault.wants(name),
    };
    let is_short = fault.line.len().max(below.len()) <= LONGEST_LINE;
    if is_wanted && is_short && may_belong_below(fault, word) {
        let length = fault.line.len().saturating_add(below.len());
        let swapped = in_two_lines(list.alloc, below, fault.line);
        let mistake = "these two lines are in the wrong order.";
        list.rewrite(mistake, 0, length.saturating_add(1), swapped);
    }
}

/// Adds a candidate for each line that would be valid here: it inserts an example of this line. `at` lines are never
/// missing, because a job needs none, and an example of a program would be no help.
fn missing_candidates(list: &mut Candidates, fault: &Fault<'_>, mistake: &'static str) {
    for line in &LineName::ALL {
        match line {
            LineName::Motion | LineName::Change | LineName::At | LineName::End => {}
            _ if fault.wants(*line) => list.insert_above(fault, mistake, *line),
            _ => {}
        }
    }
}

/// Adds a candidate that reads the input with another command, if this first word belongs to an input of that command.
fn command_candidate(list: &mut Candidates, fault: &Fault<'_>, word: &[u8]) {
    match subject_named(word) {
        Some(other) if fault.place.number == 1 && other != fault.subject => {
            list.change("this input is for another command.", Change::ReadAs(other));
        }
        _ => {}
    }
}

/// Adds candidates for a line of a job or sweep that begins with this word.
fn word_candidates(list: &mut Candidates, fault: &Fault<'_>, word: &[u8]) {
    name_candidates(list, fault, word);
    rule_candidate(list, fault);
    lane_candidate(list, fault);
    if is_name_of_line(word) {
        swap_candidate(list, fault, word);
        let missing = "a line is missing above this one, for example this one.";
        missing_candidates(list, fault, missing);
        list.delete_line(fault, MISPLACED);
    }
}

/// Adds candidates for an unexpected line.
pub fn line_candidates(list: &mut Candidates, fault: &Fault<'_>) {
    let word = head_word(fault.line);
    let has_ended = fault.place.line.is_none();
    if has_ended && fault.wants(LineName::End) {
        end_candidates(list, fault);
    } else if has_ended {
        let mistake = "the file ends too early: a line is missing, for example this one.";
        missing_candidates(list, fault, mistake);
    } else if mnemonic_named(name_and_operands(fault.line).0).is_some() {
        for line in &[LineName::Motion, LineName::Change] {
            if fault.subject == Subject::Check || fault.wants(*line) {
                list.insert_above(fault, "the first line of the program is missing.", *line);
            }
        }
    } else {
        stray_character_candidates(list, fault);
        command_candidate(list, fault, word);
        if fault.subject == Subject::Check {
            let meant = nearest_word(list.alloc, word, &CHECK_NAMES);
            list.fix_spelling(0, word, meant);
            list.delete_line(fault, MISPLACED);
        } else {
            word_candidates(list, fault, word);
        }
    }
}
