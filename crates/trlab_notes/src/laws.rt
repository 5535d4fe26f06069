//! Laws of notes: their levels, their order, their join, and the transfer of instructions.
//!
//! Each law is the contract of a function with an empty body.

ghost use Rattle.std.specs.Prelude.{◌≡◌, ℕ, None};
ghost use Rattle.trlab_code.specs.declared.instruction.Instr.{Instr};
ghost use Rattle.trlab_code.specs.declared.program.Kind.{Kind as AKind};
ghost use Rattle.trlab_notes.specs.Notes.{Note, IsNoStronger, AreNoStronger, join};
ghost use Rattle.trlab_notes.specs.Reasons.{reason_against};
ghost use Rattle.trlab_notes.specs.Transfer.{next_note, jump_note};

use crate::note::{AT_MOST, BELOW};

/// The levels of known order: 1 if a variable is at most another, and 2 if it is below another.
pub fn levels()
    ensures at_most { AT_MOST ≡ 1 }
    ensures below { BELOW ≡ 2 }
{}

/// The order of notes by strength is reflexive and transitive.
pub fn notes_are_ordered()
    ensures itself { (m : Note) → IsNoStronger m m }
    ensures through { (l m n : Note) → IsNoStronger l m → IsNoStronger m n → IsNoStronger l n }
{}

/// The join of two notes is the strongest note that is no stronger than either of them.
pub fn join_is_strongest()
    ensures first { (m n : Note) → IsNoStronger (join m n) m }
    ensures second { (m n : Note) → IsNoStronger (join m n) n }
    ensures most { (l m n : Note) → IsNoStronger l m → IsNoStronger l n → IsNoStronger l (join m n) }
{}

/// If there is no reason to reject an instruction with one note, there is none with a stronger note, and the
/// notes after it are at least as strong.
pub fn notes_are_monotone()
    ensures clear { (kind own : AKind) (len pc : ℕ) (m n : Note) (i : Instr) → IsNoStronger m n →
        reason_against kind own len pc m i ≡ None → reason_against kind own len pc n i ≡ None }
    ensures falls { (kind own : AKind) (len pc : ℕ) (m n : Note) (i : Instr) → IsNoStronger m n →
        reason_against kind own len pc m i ≡ None → AreNoStronger (next_note m i) (next_note n i) }
    ensures jumps { (m n : Note) (i : Instr) → IsNoStronger m n → IsNoStronger (jump_note m i) (jump_note n i) }
{}
