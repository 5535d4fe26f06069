//! The notes that an instruction sends: to the next instruction, and to the target of its jump.

ghost use Rattle.std.specs.Prelude.{◌≡◌, ◌≤◌, false};
ghost use Rattle.trlab_notes.specs.declared.note.TheConstants.{AT_MOST, BELOW};
ghost use Rattle.trlab_notes.specs.Notes.{closure, maybe_closure};
ghost use Rattle.trlab_notes.specs.Stored.{note_of, maybe_note};
ghost use Rattle.trlab_notes.specs.Transfer.{refine_flag, refine_order, next_note, jump_note};
ghost use Rattle.trlab_code.specs.Program.{IsInRange};
ghost use Rattle.trlab_notes.specs.Reasons.{may_be_too_large};

use crate::note::{AT_MOST, BELOW};
use crate::rows::{StoredNote, refine_rows};
use trlab_code::{Instr, Register, Variable};

impl StoredNote {
    /// The note refined by a comparison: p has this level to q, `AT_MOST` or `BELOW`.
    pub(crate) fn refine_order(&self, p: Variable, q: Variable, level: u8) -> StoredNote
        requires level_from { AT_MOST ≤ level }
        requires level_to { level ≤ BELOW }
        ensures { note_of result ≡ closure (refine_order (note_of self.now) p q level) }
    {
        let (first, last) = (self.columns[p.number()], self.rows[q.number()]);
        StoredNote {
            values: self.values,
            rows: refine_rows(&self.rows, first, level, last),
            columns: refine_rows(&self.columns, last, level, first),
            side: self.side,
        }
    }

    /// The note refined by the knowledge that the flag in a register is true.
    pub(crate) fn refine_flag(&self, register: Register) -> StoredNote
        ensures { note_of result ≡ closure (refine_flag (note_of self.now) register) }
    {
        StoredNote {
            values: self.values,
            rows: self.rows,
            columns: self.columns,
            side: self.side || self.register_value(register).implies(),
        }
    }
}

/// The note that is sent to the next instruction; `None` if control never continues there.
#[tactic(auto, using(crate::proofs::Tables::stored_same))]
pub fn next_note(note: &StoredNote, instr: Instr) -> Option<StoredNote>
    requires in_range { IsInRange instr }
    requires fits { may_be_too_large (note_of note.now) instr ≡ false }
    ensures { maybe_note result ≡ maybe_closure (next_note (note_of note.now) instr) }
{
    match instr {
        Instr::JumpLess(a, b, _) => {
            Some(note.refine_order(Variable::Register(b), Variable::Register(a), AT_MOST))
        }
        Instr::JumpAtMost(a, b, _) => {
            Some(note.refine_order(Variable::Register(b), Variable::Register(a), BELOW))
        }
        Instr::JumpTrue(..) => Some(*note),
        Instr::JumpFalse(a, _) => Some(note.refine_flag(a)),
        _ => {
            let dest = instr.destination()?;
            Some(note.assign_result(dest, instr))
        }
    }
}

/// The note that a jump sends to its target.
#[tactic(auto, using(crate::proofs::Tables::stored_same))]
pub fn jump_note(note: &StoredNote, instr: Instr) -> StoredNote
    ensures { note_of result ≡ closure (jump_note (note_of note.now) instr) }
{
    match instr {
        Instr::JumpLess(a, b, _) => {
            note.refine_order(Variable::Register(a), Variable::Register(b), BELOW)
        }
        Instr::JumpAtMost(a, b, _) => {
            note.refine_order(Variable::Register(a), Variable::Register(b), AT_MOST)
        }
        Instr::JumpTrue(a, _) => note.refine_flag(a),
        _ => *note,
    }
}
