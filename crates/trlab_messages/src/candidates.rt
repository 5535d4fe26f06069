//! Candidates: repairs that may be tried, the most likely first.

mod bytes;
mod line;
mod number;
mod program;

use crate::Result;
use crate::candidates::bytes::{
    cell_candidate, hex_candidates, lanes_candidate, version_candidate,
};
use crate::candidates::line::line_candidates;
use crate::candidates::number::number_candidates;
use crate::candidates::program::{label_candidate, operand_candidates, unknown_word_candidates};
use crate::fault::Fault;
use crate::names::line_after;
use crate::repairs::{Change, Edit, Repair};
use std::alloc::{AllocError, Global};
use trlab_asm::Why;
use trlab_code::CodeFault;
use trlab_road::RoadFault;
use trlab_texts::{Cause, LineName};

// The mistakes that candidates correct, as an explanation states them.

const MISSPELLED: &str = "probably a misspelling.";

const COMMENT_OUTSIDE_PROGRAM: &str = "comments are allowed only inside programs.";

const EMPTY_OUTSIDE_PROGRAM: &str = "empty lines are allowed only inside programs.";

const BOTH_OUTSIDE_PROGRAM: &str = "comments and empty lines are allowed only inside programs.";

const FOREIGN_COMMENT: &str = "a comment begins with `;`.";

const DIGITS_ONLY: &str = "write the number with digits only.";

const END_ALONE: &str = "the last line of a program is `end` and nothing else.";

const WITHOUT_END: &str = "the program has no line `end`.";

const MISPLACED: &str = "this line belongs elsewhere, or is a duplicate.";

const WINDOWS_LINE_ENDING: &str =
    "the line ends with a carriage return (Windows line ending): use LF only, in all lines.";

/// The maximum number of repairs that are tried. Each trial reads the whole text again.
pub const MAX_TRIED: usize = 5;

/// The candidates for a fault, at most `MAX_TRIED`.
#[derive(Drop)]
pub struct Candidates {
    pub alloc: Global,
    /// The number of bytes before the line at fault.
    start: usize,
    repairs: Vec<Repair>,
    /// Whether an allocation failed. It is reported once, after all candidates were added.
    has_failed: bool,
}

impl Candidates {
    /// Returns the value, or remembers that its allocation failed.
    pub fn ok_or_remember_failure<T>(&mut self, value: Result<T>) -> Option<T> {
        self.has_failed |= value.is_err();
        value.ok()
    }

    /// Adds a change, and the mistake that it corrects.
    pub fn change(&mut self, mistake: &'static str, change: Change) {
        if self.repairs.len() < MAX_TRIED {
            let pushed = self.repairs.push(Repair { mistake, change });
            self.has_failed |= pushed.is_err();
        }
    }

    /// Adds a candidate that replaces `removed` bytes of the input, from the position `at` on, counted from 0. If the
    /// replacement could not be allocated, remembers this instead.
    pub fn edit(
        &mut self,
        mistake: &'static str,
        at: usize,
        removed: usize,
        replacement: Result<Vec<u8>>,
    ) {
        if let Some(inserted) = self.ok_or_remember_failure(replacement) {
            let edit = Edit {
                at,
                removed,
                inserted,
            };
            self.change(mistake, Change::Edited(edit));
        }
    }

    /// Adds a candidate like `edit`, but `at` is a position in the line at fault.
    pub fn rewrite(
        &mut self,
        mistake: &'static str,
        at: usize,
        removed: usize,
        replacement: Result<Vec<u8>>,
    ) {
        self.edit(mistake, self.start.saturating_add(at), removed, replacement);
    }

    /// Adds a candidate like `rewrite`, with a copy of these bytes as the replacement.
    pub fn edit_in_line(
        &mut self,
        mistake: &'static str,
        at: usize,
        removed: usize,
        replacement: &[u8],
    ) {
        let replacement = replacement.to_vec(self.alloc);
        self.rewrite(mistake, at, removed, replacement);
    }

    /// Adds a candidate that inserts a line above the one at fault, or at the end of the input.
    pub fn insert_above(&mut self, fault: &Fault<'_>, mistake: &'static str, line: LineName) {
        let inserted = line_after(fault.place.above(), line);
        self.edit_in_line(mistake, 0, 0, inserted);
    }

    /// Adds a candidate that deletes the line at fault.
    pub fn delete_line(&mut self, fault: &Fault<'_>, mistake: &'static str) {
        self.delete_to(fault, mistake, fault.place.below());
    }

    /// Adds a candidate that deletes the lines from the line at fault to the last one above `below`, which is the part
    /// of the input that is kept.
    pub fn delete_to(&mut self, fault: &Fault<'_>, mistake: &'static str, below: &[u8]) {
        let above = fault.place.text.len().saturating_sub(below.len());
        let removed = above.saturating_sub(self.start);
        self.edit_in_line(mistake, 0, removed, b"");
    }

    /// Adds a candidate that replaces a word of the line at fault by the name that was meant, if there is one.
    pub fn fix_spelling(&mut self, at: usize, word: &[u8], meant: Result<Option<&[u8]>>) {
        if let Some(Some(meant)) = self.ok_or_remember_failure(meant)
            && meant != word
        {
            self.edit_in_line(MISSPELLED, at, word.len(), meant);
        }
    }
}

/// Adds the candidates for a fault.
fn add_candidates(list: &mut Candidates, fault: &Fault<'_>) {
    if let Some(front) = fault.line.strip_suffix(b"\r") {
        list.edit_in_line(WINDOWS_LINE_ENDING, front.len(), 1, b"");
    }
    match fault.cause {
        Cause::Line => line_candidates(list, fault),
        Cause::Program(Why::Word) => unknown_word_candidates(list, fault),
        Cause::Program(Why::Operand) => operand_candidates(list, fault, Why::Operand),
        Cause::Program(Why::Number) => operand_candidates(list, fault, Why::Number),
        Cause::Program(Why::NoLabel) => label_candidate(list, fault),
        Cause::Number => number_candidates(list, fault),
        Cause::Key | Cause::Hex => hex_candidates(list, fault),
        Cause::OneLane => lanes_candidate(list, fault),
        Cause::Code(CodeFault::NeedlessVersion) => version_candidate(list, fault),
        Cause::Road(RoadFault::Character { place, .. }) => cell_candidate(list, fault, place),
        _ => {}
    }
}

/// The repairs to try for a fault, the most likely first.
///
/// # Errors
///
/// If an allocation fails.
pub fn candidates_for(alloc: Global, fault: &Fault<'_>) -> Result<Vec<Repair>> {
    let mut list = Candidates {
        alloc,
        start: fault.place.start,
        repairs: Vec::new(alloc),
        has_failed: false,
    };
    add_candidates(&mut list, fault);
    let Candidates {
        repairs,
        has_failed,
        ..
    } = list;
    if has_failed {
        return Err(AllocError);
    }
    Ok(repairs)
}
