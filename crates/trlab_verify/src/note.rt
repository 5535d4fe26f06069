//! Notes in the form in which callers read and write them: marks of the registers, and levels by the numbers of
//! variables. A form does not list the inputs, because their ranges are known (docs/PROGRAMS.md).

ghost use Rattle.std.specs.Prelude.{◌≡◌, ◌↔◌, ℕ, ◌<◌, ◌≤◌, IfSome, IsTrue, None, slice_index};
ghost use Rattle.trlab_code.specs.declared.instruction.Variable.{Variable as AVariable};
ghost use Rattle.trlab_notes.specs.declared.note.TheConstants.{BELOW};
ghost use Rattle.trlab_notes.specs.Notes.{closure, entry};
ghost use Rattle.trlab_notes.specs.Rows.{AreValidLevels, known_level_from, value_in};
ghost use Rattle.trlab_notes.specs.Stored.{note_of};
ghost use Rattle.trlab_verify.specs.Tables.{form_value, mark_value, meaning, HasValidLevels, HasInputRanges};

use trlab_code::{Kind, VARIABLES};
use trlab_notes::{AbstractValue, BELOW, StoredNote, entry_levels, entry_values, level_between};

/// The abstract value of a register.
#[derive(Clone, Copy, PartialEq, Eq)]
pub enum Mark {
    /// Unknown: the register may be unset, or hold a number on one path and a flag on another.
    Unset,
    /// It holds a number from the first to the second, both included. If the first is above the second, control
    /// never comes here.
    Num(u32, u32),
    /// It holds a flag. With `true`, the side cell is empty if the flag is true.
    Flag(bool),
}

/// The knowledge of the values before an instruction, on every path that leads there.
#[derive(Clone, Copy, PartialEq, Eq)]
pub struct Note {
    /// The abstract values of the registers `r0` to `r7`.
    pub regs: [Mark; 8],
    /// The order of the variables: `levels[x][y]` is 1 if variable x is at most variable y, 2 if it is below,
    /// and 0 if nothing is known beyond the ranges. The variables are `r0` to `r7`, speed, limit, gap, sidegap,
    /// sideback, lane and headspeed. Entries with x = y, or of a variable that is not a number, are not used.
    pub levels: [[u8; VARIABLES]; VARIABLES],
    /// Whether the side cell is known to be empty.
    pub side: bool,
}

/// The abstract value of a mark.
fn mark_value(mark: Mark) -> AbstractValue
    ensures { result ≡ mark_value mark }
{
    match mark {
        Mark::Unset => AbstractValue::Unknown,
        Mark::Num(low, high) => AbstractValue::Between(low, high),
        Mark::Flag(imp) => AbstractValue::Implies(imp),
    }
}

/// The mark of an abstract value.
fn mark_of(value: AbstractValue) -> Mark
    ensures { mark_value result ≡ value }
{
    match value {
        AbstractValue::Unknown => Mark::Unset,
        AbstractValue::Between(low, high) => Mark::Num(low, high),
        AbstractValue::Implies(imp) => Mark::Flag(imp),
    }
}

/// The abstract values of a form's variables, in the order of their numbers.
fn variables(kind: Kind, form: &Note) -> [AbstractValue; VARIABLES]
    ensures { (x : AVariable) → value_in result x ≡ form_value kind form.now x }
{
    let mut variables = entry_values(kind);
    for x in 0..8 {
        variables[x] = mark_value(form.regs[x]);
    }
    variables
}

/// Whether no known level of the variable with the number x is above `BELOW`.
fn has_levels_from(values: &[AbstractValue; VARIABLES], levels: &[u8; VARIABLES], x: usize) -> bool
    requires { x < VARIABLES }
    ensures { IsTrue result ↔ ((y : ℕ) → y < VARIABLES →
        known_level_from values.now x y (slice_index levels.now y) ≤ BELOW) }
{
    for y in 0..VARIABLES {
        if level_between(values[x], values[y], x == y, levels[y]) > BELOW {
            return false;
        }
    }
    true
}

/// Whether no known level is above `BELOW`, the largest level.
fn has_levels(values: &[AbstractValue; VARIABLES], levels: &[[u8; VARIABLES]; VARIABLES]) -> bool
    ensures { IsTrue result ↔ AreValidLevels values.now levels.now }
{
    for x in 0..VARIABLES {
        if !has_levels_from(values, &levels[x], x) {
            return false;
        }
    }
    true
}

/// The note that a form means, as it is stored; `None` if a known level is above `BELOW`.
pub fn read(kind: Kind, form: &Note) -> Option<StoredNote>
    ensures none { result ≡ None → ¬ (HasValidLevels (meaning kind form.now)) }
    ensures some { IfSome result (λ stored. HasValidLevels (meaning kind form.now)) }
    ensures stored { IfSome result (λ stored. note_of stored ≡ closure (meaning kind form.now)) }
{
    let values = variables(kind, form);
    if !has_levels(&values, &form.levels) {
        return None;
    }
    Some(StoredNote::new(values, &form.levels, form.side))
}

/// The form of a note. The note must have the ranges of the inputs, because a form does not list them.
pub fn write(kind: Kind, note: &StoredNote) -> Note
    requires { HasInputRanges kind (note_of note.now) }
    ensures { meaning kind result ≡ note_of note.now }
{
    let mut regs = [Mark::Unset; 8];
    for x in 0..8 {
        regs[x] = mark_of(note.values[x]);
    }
    Note {
        regs,
        levels: note.levels(),
        side: note.side,
    }
}

/// The form of the entry note. Its levels are the levels at the start of a program, except those that ranges imply.
pub fn first_note(kind: Kind) -> Note
    ensures { meaning kind result ≡ entry kind }
{
    let mut note = write(kind, &StoredNote::entry(kind));
    let levels = entry_levels();
    note.levels = levels;
    note
}
