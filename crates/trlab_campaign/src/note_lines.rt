//! The lines with the notes of an accepted program.

ghost use Rattle.std.specs.Prelude.{◌≡◌, [], ◌∷◌, ◌++◌, flat_map, length, OnOk};
ghost use Rattle.std.specs.List.{range_with_len};
ghost use Rattle.trlab_code.specs.declared.program.Kind.{Kind};
ghost use Rattle.trlab_notes.specs.Notes.{with_side};
ghost use Rattle.trlab_verify.specs.Tables.{mark_value, meaning, meaning_at};
ghost use Rattle.trlab_verify.specs.Verdict.{IsAccepted};
ghost use Rattle.trlab_campaign.specs.CheckOutput.{register_entry, abstract_value_text, registers_text};
ghost use Rattle.trlab_campaign.specs.CheckOutput.{side_text, note_line, notes_text};

use crate::output::push_text;
use std::alloc::{AllocError, Global};
use trlab_asm::{REGISTERS, register_text};
use trlab_code::{Code, Register};
use trlab_verify::{Mark, Note, NotesFault, notes};

/// Adds a space, the name of a register, a space and the content of the register.
fn push_entry(out: &mut Vec<u8>, register: Register, held: &[u8]) -> Result<(), AllocError>
    ensures { OnOk result (out.new.items ≡ out.old.items ++ register_entry register held.now) }
{
    out.push(b' ')?;
    out.extend_from_slice(register_text(register))?;
    out.push(b' ')?;
    out.extend_from_slice(held)
}

/// Adds the text of a register with this mark. `side` is whether the side cell is known to be empty.
fn push_mark(
    alloc: Global,
    out: &mut Vec<u8>,
    register: Register,
    mark: Mark,
    side: bool,
) -> Result<(), AllocError>
    ensures { OnOk result
        (out.new.items ≡ out.old.items ++ abstract_value_text register (with_side side (mark_value mark))) }
{
    match mark {
        Mark::Unset => Ok(()),
        Mark::Num(low, high) => {
            let range = format!(in alloc; "{low} {high}")?;
            push_entry(out, register, range.as_bytes())
        }
        Mark::Flag(imp) => {
            let held: &[u8] = if imp || side { b"side" } else { b"flag" };
            push_entry(out, register, held)
        }
    }
}

/// Adds the text of the registers of a note.
fn push_registers(alloc: Global, out: &mut Vec<u8>, note: &Note) -> Result<(), AllocError>
    ensures { (kind : Kind) → OnOk result
        (out.new.items ≡ out.old.items ++ registers_text (meaning kind note.now)) }
{
    for i in 0..REGISTERS.len() {
        let register = REGISTERS[i];
        let mark = note.regs[register.number()];
        push_mark(alloc, out, register, mark, note.side)?;
    }
    Ok(())
}

/// The end of a note's line: ` side` if the side cell is known to be empty, and an LF.
fn line_end(side: bool) -> &'static [u8]
    ensures { result.now ≡ side_text side ++ (10 ∷ []) }
{
    if side { b" side\n" } else { b"\n" }
}

/// Adds the line of the note before the instruction at `pc`.
fn push_note(alloc: Global, out: &mut Vec<u8>, pc: usize, note: &Note) -> Result<(), AllocError>
    ensures { (kind : Kind) → OnOk result
        (out.new.items ≡ out.old.items ++ note_line pc (meaning kind note.now)) }
{
    let head = format!(in alloc; "note {pc}");
    push_text(out, head)?;
    push_registers(alloc, out, note)?;
    out.extend_from_slice(line_end(note.side))
}

/// Adds a line for each note.
fn push_table(alloc: Global, out: &mut Vec<u8>, table: &[Note]) -> Result<(), AllocError>
    ensures { (kind : Kind) → OnOk result (out.new.items ≡ out.old.items
        ++ flat_map (λ pc. note_line pc (meaning_at kind table.now pc))
        (range_with_len 0 (length table.now))) }
{
    for pc in 0..table.len() {
        push_note(alloc, out, pc, &table[pc])?;
    }
    Ok(())
}

/// Adds the notes of an accepted program, one line per instruction.
///
/// # Errors
///
/// If an allocation fails.
pub fn push_notes(alloc: Global, out: &mut Vec<u8>, code: &Code) -> Result<(), AllocError>
    requires { IsAccepted code.now.kind code.now }
    ensures { OnOk result (out.new.items ≡ out.old.items ++ notes_text code.now) }
{
    match notes(alloc, code) {
        Ok(table) => push_table(alloc, out, &table),
        Err(NotesFault::Memory) => Err(AllocError),
        Err(NotesFault::Refused) => unreachable!(),
    }
}
