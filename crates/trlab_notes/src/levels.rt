//! The values and the levels of variables in stored notes, and the first storing of a note.

ghost use Rattle.std.specs.Prelude.{◌≡◌, ℕ, ◌<◌, ◌≤◌, slice_index, slice_index_or};
ghost use Rattle.trlab_code.specs.declared.instruction.Variable.{Variable as AVariable};
ghost use Rattle.trlab_code.specs.Machine.{variable_number};
ghost use Rattle.trlab_notes.specs.declared.note.AbstractValue.TheVariants.{Unknown};
ghost use Rattle.trlab_notes.specs.declared.note.TheConstants.{BELOW};
ghost use Rattle.trlab_notes.specs.Notes.{closure, entry, known_level, value_with_side, with_side};
ghost use Rattle.trlab_notes.specs.Rows.{AreValidLevels, known_level_from, level_at, level_in, level_of, levels_in, value_in};
ghost use Rattle.trlab_notes.specs.Stored.{note_of};

use crate::note::{AbstractValue, entry_levels, entry_values, level_between};
use crate::rows::{LevelRow, StoredNote, columns};
use trlab_code::{Kind, VARIABLES, Variable};

/// The known levels of the variable x to all variables, from its own levels and the ranges.
fn known_row(values: &[AbstractValue; VARIABLES], x: usize, levels: &[u8; VARIABLES]) -> LevelRow
    requires inside { x < VARIABLES }
    requires small { (y : ℕ) → y < VARIABLES → known_level_from values.now x y (slice_index levels.now y) ≤ BELOW }
    ensures { (y : ℕ) → y < VARIABLES → level_in result y ≡ known_level_from values.now x y (slice_index levels.now y) }
{
    let mut row = LevelRow::empty();
    for y in 0..VARIABLES {
        row = row.with(y, level_between(values[x], values[y], x == y, levels[y]));
    }
    row
}

/// The known levels of all variables to all variables, from these levels and the ranges.
fn known_rows(
    values: &[AbstractValue; VARIABLES],
    levels: &[[u8; VARIABLES]; VARIABLES],
) -> [LevelRow; VARIABLES]
    requires { AreValidLevels values.now levels.now }
    ensures { (x y : ℕ) → x < VARIABLES → y < VARIABLES →
        level_of result x y ≡ known_level_from values.now x y (level_at levels.now x y) }
{
    let mut rows = [LevelRow::empty(); VARIABLES];
    for x in 0..VARIABLES {
        rows[x] = known_row(values, x, &levels[x]);
    }
    rows
}

/// An abstract value refined by `side`: if the side cell is known to be empty, each flag implies that it is.
fn with_side(side: bool, value: AbstractValue) -> AbstractValue
    ensures { result ≡ with_side side value }
{
    match value {
        AbstractValue::Implies(imp) => AbstractValue::Implies(imp || side),
        other => other,
    }
}

impl StoredNote {
    /// The note with these abstract values and these levels.
    pub fn new(
        values: [AbstractValue; VARIABLES],
        levels: &[[u8; VARIABLES]; VARIABLES],
        side: bool,
    ) -> StoredNote
        requires { AreValidLevels values levels.now }
        ensures { note_of result ≡ closure (record {
          values = value_in values;
          level = levels_in levels.now;
          side = side;
        }) }
    {
        let rows = known_rows(&values, levels);
        StoredNote {
            values,
            rows,
            columns: columns(&rows),
            side,
        }
    }

    /// The note of a program's first instruction.
    pub fn entry(kind: Kind) -> StoredNote
        ensures { note_of result ≡ closure (entry kind) }
    {
        StoredNote::new(entry_values(kind), &entry_levels(), false)
    }

    /// The abstract value of the variable with the number x, refined by the knowledge of the side cell.
    pub(crate) fn value_at(&self, x: usize) -> AbstractValue
        requires { x < VARIABLES }
        ensures { result ≡ with_side self.now.side (slice_index_or self.now.values x Unknown) }
    {
        with_side(self.side, self.values[x])
    }

    /// The abstract value of a variable, refined by the knowledge of the side cell.
    #[tactic(auto, unfolding(crate::specs::Notes::value_with_side))]
    pub(crate) fn value_with_side(&self, variable: Variable) -> AbstractValue
        ensures { result ≡ value_with_side (note_of self.now) variable }
    {
        self.value_at(variable.number())
    }

    /// The known levels of this variable to all variables.
    pub(crate) fn row(&self, variable: Variable) -> LevelRow
        ensures { (y : AVariable) → level_in result (variable_number y) ≡ known_level (note_of self.now) variable y }
    {
        self.rows[variable.number()]
    }

    /// The known levels of all variables to this variable.
    pub(crate) fn column(&self, variable: Variable) -> LevelRow
        ensures { (x : AVariable) → level_in result (variable_number x) ≡ known_level (note_of self.now) x variable }
    {
        self.columns[variable.number()]
    }

    /// The known level of a variable to another: `AT_MOST`, `BELOW`, or 0 if their order is not known.
    pub(crate) fn known_level(&self, from: Variable, to: Variable) -> u8
        ensures { result ≡ known_level (note_of self.now) from to }
    {
        self.row(from).level(to.number())
    }

    /// All known levels: `[x][y]` is the level of the variable with the number x to the one with the number y.
    pub fn levels(&self) -> [[u8; VARIABLES]; VARIABLES]
        ensures { (x y : AVariable) → levels_in result x y ≡ known_level (note_of self.now) x y }
    {
        let mut levels = [[0; VARIABLES]; VARIABLES];
        for x in 0..VARIABLES {
            levels[x] = self.rows[x].levels();
        }
        levels
    }
}
