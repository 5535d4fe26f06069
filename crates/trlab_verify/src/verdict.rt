//! The verdict on a program: the first rejected instruction, and the reason. The instructions are judged in
//! order, each by the join of the notes that arrive there (docs/VERIFIER.md).

ghost use Rattle.std.specs.Prelude.{◌≡◌, ℕ, ◌<◌, false, length, Some, nat_eq, if◌then◌else◌, ◌≤◌, All, IfOk, IfSome, MatchOption, None};
ghost use Rattle.trlab_code.specs.Program.{IsInRange, Program};
ghost use Rattle.trlab_notes.specs.Transfer.{jump_note};
ghost use Rattle.trlab_verify.specs.Verdict.{next_note_to, jump_note_to, add_note, add_notes, incoming, note_at, IsAccepted, IsRefused};
ghost use Rattle.trlab_notes.specs.Stored.{note_of, stored_note_at};
ghost use Rattle.trlab_notes.specs.Reasons.{may_be_too_large, reason_number};
ghost use Rattle.trlab_notes.specs.Notes.{maybe_closure};

use std::alloc::{AllocError, Global};
use trlab_code::{Code, Instr, Kind, MAX_INSTRUCTIONS};
use trlab_notes::{Reason, StoredNote, join, join_itself, jump_note, next_note, reason_against};

/// Joins a note with the notes that arrived at `pc` before.
fn add_incoming(notes: &mut [Option<StoredNote>], pc: usize, note: StoredNote)
    requires { pc < length notes.old }
    ensures { (q : ℕ) → stored_note_at notes.new q ≡ (if nat_eq q pc
        then add_note (stored_note_at notes.old pc) (Some (note_of note)) else stored_note_at notes.old q) }
{
    notes[pc] = match notes[pc] {
        None => Some(join_itself(&note)),
        Some(old) => Some(join(&old, &note)),
    };
}

/// Sends a note from the instruction at `pc` to the next one.
fn send_next(notes: &mut [Option<StoredNote>], pc: usize, note: &StoredNote, instr: Instr)
    requires inside { pc < length notes.old }
    requires in_range { IsInRange instr }
    requires fits { may_be_too_large (note_of note.now) instr ≡ false }
    ensures { (q : ℕ) → q < length notes.old →
        stored_note_at notes.new q
        ≡ add_note (stored_note_at notes.old q) (next_note_to pc (note_of note.now) instr q) }
{
    let next = pc + 1;
    if next >= notes.len() {
        return;
    }
    if let Some(falling) = next_note(note, instr) {
        add_incoming(notes, next, falling);
    }
}

/// Sends a note to the target of a jump.
fn send_jump(notes: &mut [Option<StoredNote>], note: &StoredNote, instr: Instr)
    ensures { (q : ℕ) → q < length notes.old →
        stored_note_at notes.new q ≡ add_note (stored_note_at notes.old q) (jump_note_to (note_of note.now) instr q) }
{
    if let Some(target) = instr.target() {
        let to = target as usize;
        if to < notes.len() {
            add_incoming(notes, to, jump_note(note, instr));
        }
    }
}

/// Sends the notes of the instruction at `pc` to the next instruction and to its jump's target.
pub fn send(notes: &mut [Option<StoredNote>], pc: usize, note: &StoredNote, instr: Instr)
    requires inside { pc < length notes.old }
    requires in_range { IsInRange instr }
    requires fits { may_be_too_large (note_of note.now) instr ≡ false }
    ensures { (q : ℕ) → q < length notes.old →
        stored_note_at notes.new q
        ≡ add_notes pc (Some (note_of note.now)) (Some instr) q (stored_note_at notes.old q) }
{
    send_next(notes, pc, note, instr);
    send_jump(notes, note, instr);
}

/// The first rejected instruction, counted from 0, and the first reason there.
#[derive(Clone, Copy)]
pub struct Rejection {
    pub at: u32,
    pub reason: Reason,
}

/// The notes at the start: only the first instruction has one, the entry note.
pub fn start_notes(
    alloc: Global,
    kind: Kind,
    instrs: &[Instr],
) -> Result<Vec<Option<StoredNote>>, AllocError>
    requires { 1 ≤ length instrs.now }
    ensures one_each { IfOk result (λ notes. length notes.items ≡ length instrs.now) }
    ensures begins { IfOk result (λ notes. (q : ℕ) → q < length instrs.now →
        stored_note_at notes.items q ≡ maybe_closure (incoming kind instrs.now 0 q)) }
{
    let mut notes = vec![in alloc; None; instrs.len()]?;
    notes[0] = Some(StoredNote::entry(kind));
    Ok(notes)
}

/// Judges the instructions in order up to the first rejection, and sends each one's notes to those that may follow.
pub fn judge(
    kind: Kind,
    own: Kind,
    instrs: &[Instr],
    notes: &mut [Option<StoredNote>],
) -> Option<Rejection>
    requires at_most_max_instructions { length instrs.now ≤ MAX_INSTRUCTIONS }
    requires in_range { All IsInRange instrs.now }
    requires one_each { length notes.old ≡ length instrs.now }
    requires begins { (q : ℕ) → q < length instrs.now →
        stored_note_at notes.old q ≡ maybe_closure (incoming kind instrs.now 0 q) }
    ensures verdict { let program : Program = record { kind = own; instrs = instrs.now } in
        MatchOption result (IsAccepted kind program)
        (λ rejection. IsRefused kind program rejection.at (reason_number rejection.reason)) }
    ensures stored { result ≡ None → (q : ℕ) → q < length instrs.now →
        stored_note_at notes.new q ≡ maybe_closure (note_at kind instrs.now q) }
    ensures judged { IfSome result (λ rejection. (q : ℕ) → q ≤ rejection.at →
        stored_note_at notes.new q ≡ maybe_closure (note_at kind instrs.now q)) }
{
    for pc in 0..instrs.len() {
        let instr = instrs[pc];
        let Some(note) = notes[pc] else {
            return Some(Rejection {
                at: pc as u32,
                reason: Reason::Unreachable,
            });
        };
        if let Some(reason) = reason_against(kind, own, instrs.len(), pc, &note, instr) {
            return Some(Rejection {
                at: pc as u32,
                reason,
            });
        }
        send(notes, pc, &note, instr);
    }
    None
}

/// The verdict on a program as one of kind `kind`: its rejection, or `None` if it is accepted.
pub fn verdict(alloc: Global, kind: Kind, code: &Code) -> Result<Option<Rejection>, AllocError>
    ensures { IfOk result (λ rejection.
        MatchOption rejection (IsAccepted kind code.now)
        (λ found. IsRefused kind code.now found.at (reason_number found.reason))) }
{
    let instrs = code.instrs();
    let mut notes = start_notes(alloc, kind, instrs)?;
    Ok(judge(kind, code.kind(), instrs, &mut notes))
}
