//! Abstract values: the knowledge of one variable, and the order of two.

ghost use Rattle.std.specs.Prelude.{◌≡◌};
ghost use Rattle.trlab_code.specs.declared.instruction.Variable.{Variable as AVariable};
ghost use Rattle.trlab_notes.specs.Notes.{low, high, implies, level_between, range_level, entry_values, entry_level};
ghost use Rattle.trlab_notes.specs.Rows.{levels_in, value_in};

use trlab_bounds::roads::{MAX_GAP, MAX_LIMIT};
use trlab_code::{Kind, VARIABLES};

/// The level of a variable that is known to be at most another.
pub const AT_MOST: u8 = 1;

/// The level of a variable that is known to be below another.
pub const BELOW: u8 = 2;

/// An abstract value: the verifier's knowledge of one variable before an instruction.
#[derive(Clone, Copy)]
pub enum AbstractValue {
    /// Unknown: it may be unset, or a number on one path and a flag on another.
    Unknown,
    /// It is a number from the first to the second, both included.
    Between(u32, u32),
    /// It is a flag. With `true`, the side cell is empty if the flag is true.
    Implies(bool),
}

impl AbstractValue {
    /// The smallest number of a range; 0 if it is not a range.
    pub(crate) fn low(self) -> u32
        ensures { result ≡ low self }
    {
        match self {
            AbstractValue::Between(low, _) => low,
            _ => 0,
        }
    }

    /// The largest number of a range; 0 if it is not a range.
    pub(crate) fn high(self) -> u32
        ensures { result ≡ high self }
    {
        match self {
            AbstractValue::Between(_, high) => high,
            _ => 0,
        }
    }

    /// Whether a flag implies that the side cell is empty.
    pub(crate) fn implies(self) -> bool
        ensures { result ≡ implies self }
    {
        match self {
            AbstractValue::Implies(imp) => imp,
            _ => false,
        }
    }
}

/// The level of a number of at most `high` to a number of at least `low`: `BELOW`, `AT_MOST` or 0.
fn range_level(high: u32, low: u32) -> u8
    ensures { result ≡ range_level high low }
{
    if high < low {
        BELOW
    } else if high == low {
        AT_MOST
    } else {
        0
    }
}

/// The known level of a variable with the abstract value `s` to one with `t`: `AT_MOST` if they are the same variable,
/// else the larger of `level` and the level of their ranges; 0 if one of them is not a number.
pub fn level_between(s: AbstractValue, t: AbstractValue, is_same: bool, level: u8) -> u8
    ensures { result ≡ level_between s t is_same level }
{
    match (s, t) {
        (AbstractValue::Between(..), AbstractValue::Between(..)) if is_same => AT_MOST,
        (AbstractValue::Between(_, high), AbstractValue::Between(low, _)) => level.max(range_level(
            high, low,
        )),
        _ => 0,
    }
}

/// The abstract values of the variables at the start of a program, in the order of their numbers.
pub fn entry_values(kind: Kind) -> [AbstractValue; VARIABLES]
    ensures { (x : AVariable) → value_in result x ≡ entry_values kind x }
{
    let unset = AbstractValue::Unknown;
    let speed = AbstractValue::Between(0, MAX_LIMIT);
    let limit = AbstractValue::Between(1, MAX_LIMIT);
    let gap = AbstractValue::Between(0, MAX_GAP);
    let (side_gap, lane) = match kind {
        Kind::Motion => (unset, unset),
        Kind::Change => (gap, AbstractValue::Between(0, 1)),
    };
    // r0 to r7, and then speed, limit, gap, sidegap, sideback, lane and headspeed.
    [
        unset, unset, unset, unset, unset, unset, unset, unset, speed, limit, gap, side_gap,
        side_gap, lane, speed,
    ]
}

/// The levels at the start of a program: the car's speed and its leader's are at most the limit.
pub fn entry_levels() -> [[u8; VARIABLES]; VARIABLES]
    ensures { (x y : AVariable) → levels_in result x y ≡ entry_level x y }
{
    let none = [0; VARIABLES];
    // Index 9 is the limit.
    let within_limit = [0, 0, 0, 0, 0, 0, 0, 0, 0, AT_MOST, 0, 0, 0, 0, 0];
    let (speed, headspeed) = (within_limit, within_limit);
    [
        none, none, none, none, none, none, none, none, speed, none, none, none, none, none,
        headspeed,
    ]
}
