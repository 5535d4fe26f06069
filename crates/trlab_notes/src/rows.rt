//! A row has the levels of one variable to all variables, as bits. The rows of all variables are their order; a note
//! is stored with them.

ghost use Rattle.std.specs.Prelude.{◌≡◌, ◌↔◌, ℕ, ◌*◌, ◌<◌, ◌≤◌, IsTrue, min, max, nat_eq, if◌then◌else◌, slice_index};
ghost use Rattle.std.specs.Int.{bit_at};
ghost use Rattle.trlab_notes.specs.Transfer.{chain, slacken, sharpen};
ghost use Rattle.trlab_notes.specs.declared.note.TheConstants.{AT_MOST, BELOW};
ghost use Rattle.trlab_notes.specs.Rows.{IsTransposed, IncludesRanges, level_in, level_of};

use crate::note::{AT_MOST, AbstractValue, BELOW};
use trlab_code::VARIABLES;

/// The levels of one variable to all variables, as bits: its level to the variable with the number y is `BELOW` if
/// bit y of `below` is set, `AT_MOST` if only bit y of `at_most` is, and otherwise 0.
#[derive(Clone, Copy)]
pub struct LevelRow {
    at_most: u16,
    below: u16,
}

/// Sets or clears one bit.
fn with_bit(bits: u16, variable: usize, is_on: bool) -> u16
    requires { variable < 16 }
    ensures { (y : ℕ) → y < 16 →
        bit_at result y ≡ (if nat_eq y variable then (if is_on then 1 else 0) else bit_at bits y) }
{
    if is_on {
        bits | 1 << variable
    } else {
        bits & !(1 << variable)
    }
}

impl LevelRow {
    /// The row in which nothing is known: all levels are 0.
    pub fn empty() -> LevelRow
        ensures { (y : ℕ) → level_in result y ≡ 0 }
    {
        LevelRow {
            at_most: 0,
            below: 0,
        }
    }

    /// The level to the variable with the number y.
    pub fn level(self, y: usize) -> u8
        requires { y < VARIABLES }
        ensures { result ≡ level_in self y }
    {
        if (self.below >> y) & 1 == 1 {
            BELOW
        } else {
            ((self.at_most >> y) & 1) as u8
        }
    }

    /// The levels to all variables, in the order of their numbers.
    pub fn levels(self) -> [u8; VARIABLES]
        ensures { (y : ℕ) → y < VARIABLES → slice_index result y ≡ level_in self y }
    {
        let mut levels = [0; VARIABLES];
        for y in 0..VARIABLES {
            levels[y] = self.level(y);
        }
        levels
    }

    /// The bits of the variables whose levels are not 0.
    fn known_bits(self) -> u16
        ensures { (y : ℕ) → bit_at result y ≡ min (level_in self y) 1 }
    {
        self.at_most | self.below
    }

    /// The smaller of two levels for each variable.
    pub fn min_levels(self, other: LevelRow) -> LevelRow
        ensures { (y : ℕ) → level_in result y ≡ min (level_in self y) (level_in other y) }
    {
        LevelRow {
            at_most: self.known_bits() & other.known_bits(),
            below: self.below & other.below,
        }
    }

    /// The larger of two levels for each variable.
    pub fn max_levels(self, other: LevelRow) -> LevelRow
        ensures { (y : ℕ) → level_in result y ≡ max (level_in self y) (level_in other y) }
    {
        LevelRow {
            at_most: self.at_most | other.at_most,
            below: self.below | other.below,
        }
    }

    /// Raises each level `AT_MOST` to `BELOW`.
    fn strict(self) -> LevelRow
        ensures { (y : ℕ) → level_in result y ≡ 2 * min (level_in self y) 1 }
    {
        LevelRow {
            at_most: 0,
            below: self.known_bits(),
        }
    }

    /// The levels of x that follow if x has the level `first` to p, p has the level `middle` to q, and this is the
    /// row of q.
    pub fn chain(self, first: u8, middle: u8) -> LevelRow
        requires first_in { first ≤ BELOW }
        requires middle_from { AT_MOST ≤ middle }
        requires middle_to { middle ≤ BELOW }
        ensures { (y : ℕ) → level_in result y ≡ chain first middle (level_in self y) }
    {
        if first == 0 {
            LevelRow::empty()
        } else if first == BELOW || middle == BELOW {
            self.strict()
        } else {
            self
        }
    }

    /// The levels after a number of at least `low` is added to the larger side or subtracted from the smaller one.
    pub fn sharpen(self, low: u32) -> LevelRow
        ensures { (y : ℕ) → level_in result y ≡ sharpen (level_in self y) low }
    {
        if low == 0 { self } else { self.strict() }
    }

    /// The levels of a sum, if one summand has this row and the other is at most `high`.
    pub fn slacken(self, high: u32) -> LevelRow
        ensures { (y : ℕ) → level_in result y ≡ slacken (level_in self y) high }
    {
        LevelRow {
            at_most: if high <= 1 { self.below } else { 0 },
            below: 0,
        }
    }

    /// The row with this level to a variable.
    pub fn with(self, variable: usize, level: u8) -> LevelRow
        requires inside { variable < VARIABLES }
        requires in_range { level ≤ BELOW }
        ensures { (y : ℕ) → y < VARIABLES →
            level_in result y ≡ (if nat_eq y variable then level else level_in self y) }
    {
        LevelRow {
            at_most: with_bit(self.at_most, variable, level == AT_MOST),
            below: with_bit(self.below, variable, level == BELOW),
        }
    }

    /// Whether each level is at most the other row's level to the same variable.
    pub fn is_within(self, other: LevelRow) -> bool
        ensures { IsTrue result ↔ ((y : ℕ) → y < VARIABLES → level_in self y ≤ level_in other y) }
    {
        for y in 0..VARIABLES {
            if self.level(y) > other.level(y) {
                return false;
            }
        }
        true
    }
}

/// The rows after `variable` gets the levels `row` to all variables, and the others get the levels `column` to it.
pub fn with_variable(
    rows: &[LevelRow; VARIABLES],
    variable: usize,
    row: LevelRow,
    column: LevelRow,
) -> [LevelRow; VARIABLES]
    requires { variable < VARIABLES }
    ensures { (x y : ℕ) → x < VARIABLES → y < VARIABLES → level_of result x y ≡
        (if nat_eq x variable then level_in row y
        else (if nat_eq y variable then level_in column x else level_of rows.now x y)) }
{
    let mut changed = *rows;
    for x in 0..VARIABLES {
        changed[x] = if x == variable {
            row
        } else {
            rows[x].with(variable, column.level(x))
        };
    }
    changed
}

/// The rows refined by a known level of p to q: `first` has the levels of all variables to p, and `last` the levels of
/// q to all variables.
pub fn refine_rows(
    rows: &[LevelRow; VARIABLES],
    first: LevelRow,
    level: u8,
    last: LevelRow,
) -> [LevelRow; VARIABLES]
    requires level_from { AT_MOST ≤ level }
    requires level_to { level ≤ BELOW }
    ensures { (x y : ℕ) → x < VARIABLES → y < VARIABLES → level_of result x y ≡
        (if nat_eq y x then level_of rows.now x x
        else max (level_of rows.now x y) (chain (level_in first x) level (level_in last y))) }
{
    let mut refined = *rows;
    for x in 0..VARIABLES {
        let row = rows[x];
        let more = row.max_levels(last.chain(first.level(x), level));
        refined[x] = more.with(x, row.level(x));
    }
    refined
}

/// The rows of a join: each level is the smaller one of `a` and `b`.
pub fn join_rows(a: &[LevelRow; VARIABLES], b: &[LevelRow; VARIABLES]) -> [LevelRow; VARIABLES]
    ensures { (x y : ℕ) → x < VARIABLES → y < VARIABLES →
        level_of result x y ≡ min (level_of a.now x y) (level_of b.now x y) }
{
    let mut common = *a;
    for x in 0..VARIABLES {
        common[x] = a[x].min_levels(b[x]);
    }
    common
}

/// The column of y: the levels of all variables to y.
fn column(rows: &[LevelRow; VARIABLES], y: usize) -> LevelRow
    requires { y < VARIABLES }
    ensures { (x : ℕ) → x < VARIABLES → level_in result x ≡ level_of rows.now x y }
{
    let mut column = LevelRow::empty();
    for x in 0..VARIABLES {
        column = column.with(x, rows[x].level(y));
    }
    column
}

/// The transposed rows: the columns of all variables.
pub fn columns(rows: &[LevelRow; VARIABLES]) -> [LevelRow; VARIABLES]
    ensures { (x y : ℕ) → x < VARIABLES → y < VARIABLES → level_of result y x ≡ level_of rows.now x y }
{
    let mut columns = *rows;
    for y in 0..VARIABLES {
        columns[y] = column(rows, y);
    }
    columns
}

/// A note as it is stored: the abstract value of each variable, and the known levels of all variables to all.
#[derive(Clone, Copy)]
pub struct StoredNote {
    /// The abstract values, in the order of the variables' numbers.
    pub values: [AbstractValue; VARIABLES],
    /// The row of x has the levels of x to each variable.
    pub rows: [LevelRow; VARIABLES],
    /// The column of y has the levels of each variable to y.
    pub columns: [LevelRow; VARIABLES],
    /// Whether the side cell is known to be empty.
    pub side: bool,
    pub ghost ranges: { IncludesRanges values rows },
    pub ghost transposed: { IsTransposed rows columns },
}
