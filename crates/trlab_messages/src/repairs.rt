//! Repairs: the lines that they change, and their words in the text form.

use crate::sentence::{Draft, Shown};
use std::alloc::Global;
use trlab_jobs::Subject;
use trlab_lines::{Place, bytes_at, cut};

/// A change of a text: some bytes are replaced.
pub struct Edit {
    /// The number of bytes before the change.
    pub at: usize,
    /// The number of bytes that are removed.
    pub removed: usize,
    /// The bytes that replace them.
    pub inserted: Vec<u8>,
}

// Not derived: a derived drop is proved again, field by field, wherever the value goes out of scope.
impl Drop for Edit {
    fn drop(self) {
        let Edit {
            at: _at,
            removed: _removed,
            inserted: _inserted,
        } = self;
    }
}

impl Edit {
    /// Two neighbouring lines in their new order, if the edit swaps them. No other edit both removes bytes and inserts
    /// an LF.
    pub fn swapped_lines(&self) -> Option<(&[u8], &[u8])> {
        if self.removed == 0 {
            None
        } else {
            cut(&self.inserted, b'\n')
        }
    }
}

/// The change that a repair makes.
#[derive(Drop)]
pub enum Change {
    /// The input is edited.
    Edited(Edit),
    /// The input is read as this kind.
    ReadAs(Subject),
}

/// A likely mistake, and the change that corrects it.
pub struct Repair {
    /// The mistake in words.
    pub mistake: &'static str,
    pub change: Change,
}

// Not derived: a derived drop is proved again, field by field, wherever the value goes out of scope.
impl Drop for Repair {
    fn drop(self) {
        let Repair {
            mistake: _mistake,
            change: _change,
        } = self;
    }
}

/// The command that reads an input.
pub fn command_of(subject: Subject) -> &'static str {
    match subject {
        Subject::Job => "run",
        Subject::Sweep => "sweep",
        Subject::Check => "check",
    }
}

/// The line with the byte at the position `at` of the text. Usually this is the line at fault, `error`.
fn place_of<'a>(error: &Place<'a>, at: usize) -> Place<'a> {
    let length = error.line.unwrap_or(b"").len();
    if error.start <= at && at <= error.start.saturating_add(length) {
        return *error;
    }
    let above = bytes_at(error.text, 0, at).iter();
    let lines = above.filter(|byte| **byte == b'\n').count();
    Place::at(
        error.text,
        u32::try_from(lines).unwrap_or(u32::MAX).saturating_add(1),
    )
}

/// Adds how to edit a line after its first `before` bytes.
fn push_within(how: &mut Draft, place: &Place<'_>, before: usize, edit: &Edit) {
    let line = place.line.unwrap_or(b"");
    let number = place.number;
    let column = before.saturating_add(1);
    let removed = Shown(bytes_at(line, before, edit.removed));
    let inserted = Shown(&edit.inserted);
    if !edit.inserted.is_empty() && !removed.0.is_empty() {
        write!(
            how,
            "Line {number}, column {column}: replace `{removed}` with `{inserted}`."
        );
    } else if !edit.inserted.is_empty() {
        write!(how, "Line {number}, column {column}: insert `{inserted}`.");
    } else if before.saturating_add(edit.removed) == line.len() {
        write!(
            how,
            "Line {number}: delete everything from column {column} on."
        );
    } else {
        write!(how, "Line {number}, column {column}: delete `{removed}`.");
    }
}

/// The bytes that an edit removes, without the LF at their end.
fn removed_lines<'a>(text: &'a [u8], edit: &Edit) -> &'a [u8] {
    let removed = bytes_at(text, edit.at, edit.removed);
    removed.strip_suffix(b"\n").unwrap_or(removed)
}

/// Adds how to delete lines, from the line `first` on.
fn push_deletion(how: &mut Draft, first: u32, lines: &[u8]) {
    let line_ends = lines.iter().filter(|byte| **byte == b'\n').count();
    let last = u32::try_from(line_ends)
        .unwrap_or(u32::MAX)
        .saturating_add(first);
    if last == first {
        write!(how, "Delete line {first}.");
    } else {
        write!(how, "Delete lines {first} to {last}.");
    }
}

/// Adds how to make an edit: of whole lines if possible, and otherwise of a part of one line.
fn push_edit(how: &mut Draft, place: &Place<'_>, before: usize, edit: &Edit) {
    let number = place.number;
    let length = place.line.unwrap_or(b"").len();
    let line = edit.inserted.strip_prefix(b"\n").unwrap_or(&edit.inserted);
    let line = Shown(line.strip_suffix(b"\n").unwrap_or(line));
    if edit.at == place.text.len() {
        write!(how, "At the end, add the line `{line}`.");
    } else if edit.removed == 0 && edit.inserted.last() == Some(&b'\n') {
        write!(how, "Above line {number}, add the line `{line}`.");
    } else if edit.swapped_lines().is_some() {
        let below = number.saturating_add(1);
        write!(how, "Swap lines {number} and {below}.");
    } else if edit.inserted.is_empty() && before == 0 && edit.removed >= length.max(1) {
        push_deletion(how, number, removed_lines(place.text, edit));
    } else if before == 0 && edit.removed == length {
        write!(how, "Replace line {number} with `{line}`.");
    } else {
        push_within(how, place, before, edit);
    }
}

/// A repair, and how to make it.
#[derive(Drop)]
pub struct RepairInWords {
    pub repair: Repair,
    /// How to make it, in one line.
    pub how: Draft,
    /// The number of the line that is edited.
    pub line_number: u32,
    /// The number of bytes of this line before the edit.
    pub before: usize,
    /// The lines that are deleted, if there are two or more.
    pub deleted: Draft,
}

impl RepairInWords {
    /// Puts a repair of the error at a place into words.
    pub fn new(alloc: Global, error: &Place<'_>, repair: Repair) -> RepairInWords {
        let mut how = Draft::new(alloc);
        let mut deleted = Draft::new(alloc);
        let (line_number, before) = match &repair.change {
            Change::Edited(edit) => {
                let place = place_of(error, edit.at);
                let before = edit.at.saturating_sub(place.start);
                push_edit(&mut how, &place, before, edit);
                let lines = removed_lines(place.text, edit);
                if edit.inserted.is_empty() && lines.contains(&b'\n') {
                    write!(
                        deleted,
                        "{}",
                        Shown(bytes_at(place.text, edit.at, edit.removed))
                    );
                }
                (place.number, before)
            }
            Change::ReadAs(other) => {
                write!(how, "Read it with `trlab {}`.", command_of(*other));
                (error.number, 0)
            }
        };
        RepairInWords {
            repair,
            how,
            line_number,
            before,
            deleted,
        }
    }
}
