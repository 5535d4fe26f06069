//! The tables of notes that the verifier computes, in the form for callers (docs/VERIFIER.md).

ghost use Rattle.std.specs.Prelude.{◌≡◌, ℕ, ◌<◌, ◌≤◌, All, IfErr, IfOk, Some, length, MatchOption};
ghost use Rattle.trlab_code.specs.Program.{IsInRange, Program};
ghost use Rattle.trlab_notes.specs.Notes.{Note as ANote, entry, maybe_closure};
ghost use Rattle.trlab_notes.specs.Stored.{note_of, stored_note_at};
ghost use Rattle.trlab_verify.specs.declared.table.NotesFault.TheVariants.{Memory};
ghost use Rattle.trlab_verify.specs.Verdict.{incoming, IsAccepted};
ghost use Rattle.trlab_verify.specs.Tables.{IsNotesFaultOf, HasInputRanges, meaning, meaning_at, table_of, Checks, AreVerdictNotes, AreNotesOfRejected, noted_count};
ghost use Rattle.trlab_notes.specs.Reasons.{reason_number};

use crate::note::{Note, first_note, write};
use crate::verdict::{Rejection, judge, start_notes};
use std::alloc::{AllocError, Global};
use thiserror::Error;
use trlab_code::{Code, Instr, Kind, MAX_INSTRUCTIONS};
use trlab_notes::{Reason, StoredNote};

/// Why a program has no notes.
#[derive(Debug, Drop, Error)]
pub enum NotesFault {
    /// The program is rejected as one of its own kind.
    #[error("the program is refused")]
    Refused,
    /// An allocation failed.
    #[error("out of memory")]
    Memory,
}

impl From<AllocError> for NotesFault {
    ghost from_gives = { λ _ fault. fault ≡ Memory };

    fn from(_: AllocError) -> NotesFault {
        NotesFault::Memory
    }
}

/// The form of the stored note of the instruction at `pc`. The first form has only the levels at the start.
fn write_at(kind: Kind, pc: usize, stored: &StoredNote) -> Note
    requires { HasInputRanges kind (note_of stored.now) }
    ensures first { pc ≡ 0 → meaning kind result ≡ entry kind }
    ensures later { 0 < pc → meaning kind result ≡ note_of stored.now }
{
    if pc == 0 {
        first_note(kind)
    } else {
        write(kind, stored)
    }
}

/// The forms of the stored notes, of which none may be missing.
pub fn write_all(
    alloc: Global,
    kind: Kind,
    stored: &[Option<StoredNote>],
) -> Result<Vec<Note>, AllocError>
    requires { (pc : ℕ) → pc < length stored.now →
        (note : ANote) × (stored_note_at stored.now pc ≡ Some note) × HasInputRanges kind note }
    ensures one_each { IfOk result (λ notes. length notes.items ≡ length stored.now) }
    ensures first { IfOk result (λ notes. 0 < length stored.now → meaning_at kind notes.items 0 ≡ entry kind) }
    ensures later { IfOk result (λ notes. (pc : ℕ) → 0 < pc → pc < length stored.now →
        stored_note_at stored.now pc ≡ Some (meaning_at kind notes.items pc)) }
{
    let mut notes = Vec::with_capacity(alloc, stored.len())?;
    for pc in 0..stored.len() {
        match stored[pc] {
            Some(note) => notes.push(write_at(kind, pc, &note))?,
            None => unreachable!(),
        }
    }
    Ok(notes)
}

/// The forms of the notes with which a program is judged as one of its own kind.
fn judge_notes(
    alloc: Global,
    kind: Kind,
    instrs: &[Instr],
    stored: &mut [Option<StoredNote>],
) -> Result<Vec<Note>, NotesFault>
    requires at_most_max_instructions { length instrs.now ≤ MAX_INSTRUCTIONS }
    requires in_range { All IsInRange instrs.now }
    requires one_each { length stored.old ≡ length instrs.now }
    requires begins { (q : ℕ) → q < length instrs.now →
        stored_note_at stored.old q ≡ maybe_closure (incoming kind instrs.now 0 q) }
    ensures accepted { IfOk result (λ notes. IsAccepted kind (record { kind = kind; instrs = instrs.now })) }
    ensures best { IfOk result (λ notes.
        AreVerdictNotes kind (record { kind = kind; instrs = instrs.now }) (table_of kind notes.items)) }
    ensures refused { IfErr result (λ fault. IsNotesFaultOf (record { kind = kind; instrs = instrs.now }) fault) }
{
    if judge(kind, kind, instrs, stored).is_some() {
        return Err(NotesFault::Refused);
    }
    Ok(write_all(alloc, kind, stored)?)
}

/// The notes with which a program is accepted as one of its own kind, one for each instruction.
///
/// This table checks, and no table that checks has a stronger note.
///
/// # Errors
///
/// `Refused` if the program is rejected as one of its own kind: then it has no notes. `Memory` if allocation
/// fails.
pub fn notes(alloc: Global, code: &Code) -> Result<Vec<Note>, NotesFault>
    ensures accepted { IfOk result (λ notes. IsAccepted code.now.kind code.now) }
    ensures best { IfOk result (λ notes.
        AreVerdictNotes code.now.kind code.now (table_of code.now.kind notes.items)) }
    ensures checks { IfOk result (λ notes.
        Checks code.now.kind code.now (table_of code.now.kind notes.items)) }
    ensures refused { IfErr result (λ fault. IsNotesFaultOf code.now fault) }
{
    let instrs = code.instrs();
    let kind = code.kind();
    let mut stored = start_notes(alloc, kind, instrs)?;
    judge_notes(alloc, kind, instrs, &mut stored)
}

/// The number of instructions with a note if the verdict is this rejection.
fn noted_count(rejection: Rejection) -> usize
    ensures { result ≡ noted_count rejection.at (reason_number rejection.reason) }
{
    match rejection.reason {
        Reason::Unreachable => rejection.at as usize,
        _ => rejection.at as usize + 1,
    }
}

/// The forms of the notes with which a program is rejected as one of its own kind; none if it is accepted.
fn judge_rejected(
    alloc: Global,
    kind: Kind,
    instrs: &[Instr],
    stored: &mut [Option<StoredNote>],
) -> Result<Option<Vec<Note>>, AllocError>
    requires at_most_max_instructions { length instrs.now ≤ MAX_INSTRUCTIONS }
    requires in_range { All IsInRange instrs.now }
    requires one_each { length stored.old ≡ length instrs.now }
    requires begins { (q : ℕ) → q < length instrs.now →
        stored_note_at stored.old q ≡ maybe_closure (incoming kind instrs.now 0 q) }
    ensures { let program : Program = record { kind = kind; instrs = instrs.now } in
        IfOk result (λ notes. MatchOption notes (IsAccepted kind program)
        (λ notes. AreNotesOfRejected kind program (table_of kind notes.items))) }
{
    match judge(kind, kind, instrs, stored) {
        None => Ok(None),
        Some(rejection) => {
            let (judged, _) = stored.split_at(noted_count(rejection));
            Ok(Some(write_all(alloc, kind, judged)?))
        }
    }
}

/// The notes with which a program is rejected as one of its own kind, one for each instruction up to the
/// rejected one, which has none if it is unreachable; `None` if the program is accepted.
///
/// # Errors
///
/// If an allocation fails.
pub fn notes_of_rejected(alloc: Global, code: &Code) -> Result<Option<Vec<Note>>, AllocError>
    ensures { IfOk result (λ notes. MatchOption notes (IsAccepted code.now.kind code.now)
        (λ notes. AreNotesOfRejected code.now.kind code.now (table_of code.now.kind notes.items))) }
{
    let instrs = code.instrs();
    let kind = code.kind();
    let mut stored = start_notes(alloc, kind, instrs)?;
    judge_rejected(alloc, kind, instrs, &mut stored)
}
