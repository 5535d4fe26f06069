//! Checks tables of notes without allocating. A table that checks is a certificate: it proves that its program is
//! safe, no matter how the table was computed (docs/VERIFIER.md).
//!
//! Programs that embed trlab call this, and so do its tests. trlab itself computes the notes of a program, so it has no
//! table to check.

ghost use Rattle.std.specs.Prelude.{◌≡◌, ◌↔◌, ℕ, suc, ◌<◌, ◌≤◌, ◌||◌, ◌&&◌, All, IfSome, IsTrue, Some, false, length, nat_eq, slice_get};
ghost use Rattle.trlab_code.specs.declared.instruction.Instr.{Instr as AnInstr};
ghost use Rattle.trlab_code.specs.Flow.{falls, target, on_target};
ghost use Rattle.trlab_code.specs.Machine.{IsSafe};
ghost use Rattle.trlab_code.specs.Program.{IsInRange};
ghost use Rattle.trlab_notes.specs.Stored.{note_of};
ghost use Rattle.trlab_notes.specs.Transfer.{next_note, jump_note};
ghost use Rattle.trlab_notes.specs.Notes.{IsNoStronger};
ghost use Rattle.trlab_notes.specs.Reasons.{may_be_too_large};
ghost use Rattle.trlab_verify.specs.Tables.{HasValidLevels, meaning, meaning_at, table_of, Checks, ChecksAt};
ghost use Rattle.trlab_verify.specs.Verdict.{Follows, IsLongest};

use crate::note::{Note, read};
use trlab_code::{Code, Instr, Kind, MAX_INSTRUCTIONS};
use trlab_notes::{StoredNote, is_no_stronger, jump_note, next_note, reason_against};

/// Whether an instruction jumps to q.
fn jumps_to(instr: Instr, q: usize) -> bool
    ensures { result ≡ on_target (nat_eq q) (target instr) }
{
    match instr.target() {
        Some(target) => q == target as usize,
        None => false,
    }
}

/// Whether control may go from the instruction at pc to q.
fn follows(instr: Instr, pc: usize, q: usize) -> bool
    requires { pc < MAX_INSTRUCTIONS }
    ensures { result ≡ ((falls instr && nat_eq q (suc pc)) || on_target (nat_eq q) (target instr)) }
{
    (instr.falls() && q == pc + 1) || jumps_to(instr, q)
}

/// Whether some instruction leads to the one at q.
fn is_reached(instrs: &[Instr], q: usize) -> bool
    requires { length instrs.now ≤ MAX_INSTRUCTIONS }
    ensures { IsTrue result ↔ ((pc : ℕ) × Follows instrs.now pc q) }
{
    for pc in 0..instrs.len() {
        if follows(instrs[pc], pc, q) {
            return true;
        }
    }
    false
}

/// Whether the note that a form means is no stronger than another.
fn is_within(kind: Kind, form: &Note, note: &StoredNote) -> bool
    ensures { IsTrue result ↔ IsNoStronger (meaning kind form.now) (note_of note.now) }
{
    match read(kind, form) {
        Some(stored) => is_no_stronger(&stored, note),
        None => false,
    }
}

/// Whether the next instruction's note in the table is no stronger than the note that `pc` sends there.
fn checks_next(kind: Kind, table: &[Note], pc: usize, note: &StoredNote, instr: Instr) -> bool
    requires inside { pc < length table.now }
    requires in_range { IsInRange instr }
    requires fits { may_be_too_large (note_of note.now) instr ≡ false }
    ensures { IsTrue result ↔ (suc pc < length table.now →
        IfSome (next_note (note_of note.now) instr) (IsNoStronger (meaning_at kind table.now (suc pc)))) }
{
    let next = pc + 1;
    if next >= table.len() {
        return true;
    }
    match next_note(note, instr) {
        Some(falling) => is_within(kind, &table[next], &falling),
        None => true,
    }
}

/// Whether the note of a jump's target in the table is no stronger than the note that the jump sends there.
fn checks_target(kind: Kind, table: &[Note], note: &StoredNote, instr: Instr) -> bool
    ensures { IsTrue result ↔ ((t : ℕ) → target instr ≡ Some t → t < length table.now →
        IsNoStronger (meaning_at kind table.now t) (jump_note (note_of note.now) instr)) }
{
    let Some(target) = instr.target() else {
        return true;
    };
    let to = target as usize;
    to >= table.len() || is_within(kind, &table[to], &jump_note(note, instr))
}

/// Whether a table checks at `pc`, and no known level there is above 2.
fn checks_at(kind: Kind, instrs: &[Instr], table: &[Note], pc: usize) -> bool
    requires inside { pc < length instrs.now }
    requires at_most_max_instructions { length instrs.now ≤ MAX_INSTRUCTIONS }
    requires in_range { All IsInRange instrs.now }
    requires one_each { length table.now ≡ length instrs.now }
    ensures { IsTrue result ↔ (HasValidLevels (meaning_at kind table.now pc)
        × ((i : AnInstr) → slice_get instrs.now pc ≡ Some i →
        ChecksAt kind (record { kind = kind; instrs = instrs.now }) (meaning_at kind table.now) pc i)) }
{
    let instr = instrs[pc];
    let Some(note) = read(kind, &table[pc]) else {
        return false;
    };
    if pc > 0 && !is_reached(instrs, pc) {
        return false;
    }
    if reason_against(kind, kind, instrs.len(), pc, &note, instr).is_some() {
        return false;
    }
    checks_next(kind, table, pc, &note, instr) && checks_target(kind, table, &note, instr)
}

/// Whether a table of notes checks for a program of its own kind: the first note is no stronger than the entry
/// note, each instruction is reached and there is no reason to reject it, and the note that it sends on each
/// path is at least as strong as the one there.
///
/// If it checks, the program is never stuck and ends within its longest path, for every view and all random
/// words, no matter how the table was computed. A table with the wrong number of notes, or with a known level above
/// 2, does not check. The call allocates nothing.
pub fn check_notes(code: &Code, table: &[Note]) -> bool
    ensures exact { IsTrue result ↔
        Checks code.now.kind code.now (table_of code.now.kind table.now) }
    ensures safe { IsTrue result → (budget : ℕ) →
        IsLongest code.now.instrs 0 budget → IsSafe code.now.kind code.now.instrs budget }
{
    let kind = code.kind();
    let instrs = code.instrs();
    if table.len() != instrs.len() {
        return false;
    }
    if !is_within(kind, &table[0], &StoredNote::entry(kind)) {
        return false;
    }
    for pc in 0..instrs.len() {
        if !checks_at(kind, instrs, table, pc) {
            return false;
        }
    }
    true
}
