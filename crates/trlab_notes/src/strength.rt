//! The order of notes and their join, which is the common knowledge of two notes when two paths meet.

ghost use Rattle.std.specs.Prelude.{◌≡◌, ◌↔◌, ℕ, ◌<◌, ◌≤◌, IsTrue, slice_index_or};
ghost use Rattle.trlab_notes.specs.declared.note.AbstractValue.TheVariants.{Unknown};
ghost use Rattle.trlab_notes.specs.Notes.{with_side, IsNoMorePrecise, IsNoStronger, join, join_values};
ghost use Rattle.trlab_notes.specs.Rows.{level_of};
ghost use Rattle.trlab_notes.specs.Stored.{note_of};

use crate::note::AbstractValue;
use crate::rows::{StoredNote, join_rows};
use trlab_code::VARIABLES;

/// Whether the abstract value `s` is no more precise than `t`.
fn is_no_more_precise(s: AbstractValue, t: AbstractValue) -> bool
    ensures { IsTrue result ↔ IsNoMorePrecise s t }
{
    match (s, t) {
        (AbstractValue::Unknown, _) => true,
        (AbstractValue::Between(low, high), AbstractValue::Between(least, most)) => low <= least
            && most <= high,
        (AbstractValue::Implies(imp), AbstractValue::Implies(other)) => !imp || other,
        _ => false,
    }
}

/// Whether no abstract value of `m` is more precise than in `n`.
fn has_weaker_variables(m: &StoredNote, n: &StoredNote) -> bool
    ensures { IsTrue result ↔ ((x : ℕ) → x < VARIABLES → IsNoMorePrecise
        (with_side m.now.side (slice_index_or m.now.values x Unknown))
        (with_side n.now.side (slice_index_or n.now.values x Unknown))) }
{
    for x in 0..VARIABLES {
        if !is_no_more_precise(m.value_at(x), n.value_at(x)) {
            return false;
        }
    }
    true
}

/// Whether no level of `m` is above the corresponding level of `n`.
fn has_smaller_levels(m: &StoredNote, n: &StoredNote) -> bool
    ensures { IsTrue result ↔ ((x y : ℕ) → x < VARIABLES → y < VARIABLES →
        level_of m.now.rows x y ≤ level_of n.now.rows x y) }
{
    for x in 0..VARIABLES {
        if !m.rows[x].is_within(n.rows[x]) {
            return false;
        }
    }
    true
}

/// Whether `m` is no stronger than `n`: it knows no more of the values, the order and the side cell.
pub fn is_no_stronger(m: &StoredNote, n: &StoredNote) -> bool
    ensures { IsTrue result ↔ IsNoStronger (note_of m.now) (note_of n.now) }
{
    has_weaker_variables(m, n) && has_smaller_levels(m, n) && (!m.side || n.side)
}

/// The common knowledge of two abstract values: for example, the smallest range that contains two ranges.
fn join_values(a: AbstractValue, b: AbstractValue) -> AbstractValue
    ensures { result ≡ join_values a b }
{
    match (a, b) {
        (AbstractValue::Between(low, high), AbstractValue::Between(other_low, other_high)) => {
            AbstractValue::Between(low.min(other_low), high.max(other_high))
        }
        (AbstractValue::Implies(p), AbstractValue::Implies(q)) => AbstractValue::Implies(p && q),
        _ => AbstractValue::Unknown,
    }
}

/// The common knowledge of two notes about the value of each variable.
fn join_variables(a: &StoredNote, b: &StoredNote) -> [AbstractValue; VARIABLES]
    ensures { (x : ℕ) → x < VARIABLES → slice_index_or result x Unknown ≡ join_values
        (with_side a.now.side (slice_index_or a.now.values x Unknown))
        (with_side b.now.side (slice_index_or b.now.values x Unknown)) }
{
    let mut values = [AbstractValue::Unknown; VARIABLES];
    for x in 0..VARIABLES {
        values[x] = join_values(a.value_at(x), b.value_at(x));
    }
    values
}

/// The strongest note that is no stronger than either of two.
pub fn join(a: &StoredNote, b: &StoredNote) -> StoredNote
    ensures { note_of result ≡ join (note_of a.now) (note_of b.now) }
{
    StoredNote {
        values: join_variables(a, b),
        rows: join_rows(&a.rows, &b.rows),
        columns: join_rows(&a.columns, &b.columns),
        side: a.side && b.side,
    }
}

/// The join of a note with itself: if the side cell is known to be empty, each flag implies that it is.
pub fn join_itself(note: &StoredNote) -> StoredNote
    ensures { note_of result ≡ join (note_of note.now) (note_of note.now) }
{
    StoredNote {
        values: join_variables(note, note),
        rows: note.rows,
        columns: note.columns,
        side: note.side,
    }
}
