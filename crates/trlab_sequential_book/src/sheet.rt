//! Sheets of the book: the rules of a job.

ghost use Rattle.std.specs.Prelude.{◌≡◌, ◌≤◌, ◌<◌, ◌↔◌, ◌+◌, ◌^◌, ◌∷◌, ◌++◌, [], IsTrue, IfOk, IfErr, OnOk, OnErr, length, Some, slice_get, vec_len, vec_capacity};
ghost use Rattle.trlab_step.specs.Run.{IsSheet, in_force};
ghost use Rattle.trlab_sequential_book.specs.Leases.{IsSteady};
ghost use Rattle.trlab_sequential_book.specs.Sheets.{RanUnderSheet, BeginBy, IsBookSheet, MayRefuse, with_rule_from, entry_in_force};
ghost use Rattle.trlab_rules.specs.Rules.{Programs};

use crate::fault::BookFault;
use crate::lease::ExecutedStep;
use crate::rule::SharedRule;
use std::alloc::{AllocError, Global};
use std::marker::Model;
use trlab_rules::Rule;

/// The maximum number of entries of a sheet.
pub const MAX_ENTRIES: usize = 1024;

/// The rules of a job. Each entry is in force from its step until the next entry begins; the first begins at step 0.
pub struct Sheet {
    entries: Vec<(u32, SharedRule)>,
}

// Not derived: a derived drop is proved again, field by field, wherever the value goes out of scope.
impl Drop for Sheet {
    fn drop(self) {
        let Sheet { entries: _entries } = self;
    }
}

impl Model for Sheet {
    ghost use Rattle.trlab_step.specs.Run.{Sheet as Rules};
    ghost use Rattle.trlab_sequential_book.specs.Sheets.{IsBookSheet};

    ghost Value = { Rules };

    ghost view = { λ sheet. sheet.entries.items };

    ghost invariant = { λ sheet. IsBookSheet sheet.entries.items };
}

impl Sheet {
    /// The sheet with one rule, in force from step 0.
    pub(crate) fn new(alloc: Global, rule: SharedRule) -> Result<Sheet, AllocError>
        ensures { IfOk result (λ sheet. sheet ≡ (0, rule) ∷ []) }
    {
        let mut entries = Vec::new(alloc);
        entries.push((0, rule))?;
        Ok(Sheet { entries })
    }

    /// The number of entries, 1 to `MAX_ENTRIES`. Their steps rise from 0.
    pub fn len(&self) -> usize
        ensures value { result ≡ length self.now }
        ensures at_most_max { result ≤ MAX_ENTRIES }
        ensures rules { IsSheet self.now }
    {
        self.entries.len()
    }

    /// The entry with this index, counted from 0: the step from which its rule is in force, and the rule.
    pub fn entry(&self, index: usize) -> (u32, &Rule)
        requires { index < length self.now }
        ensures { slice_get self.now index ≡ Some (result.0, result.1.now) }
    {
        let (from, rule) = self.shared_entry(index);
        (from, rule.get())
    }

    /// `entry`, with the rule as a `SharedRule`, which can be shared.
    fn shared_entry(&self, index: usize) -> (u32, &SharedRule)
        requires { index < length self.now }
        ensures { slice_get self.now index ≡ Some (result.0, result.1.now) }
    {
        let entry = &self.entries[index];
        (entry.0, &entry.1)
    }

    /// The entry in force at a step: the last one that begins there or before.
    pub(crate) fn entry_in_force(&self, step: u32) -> &(u32, SharedRule)
        ensures entry { entry_in_force self.now step ≡ Some result.now }
        ensures rule { in_force self.now step ≡ Some result.now.1 }
    {
        let begun = self.entries.partition_point(|entry| entry.0 <= step);
        &self.entries[begun - 1]
    }

    /// A copy that shares the rules.
    ///
    /// # Errors
    ///
    /// If an allocation fails.
    pub(crate) fn copy(&self, alloc: Global) -> Result<Sheet, AllocError>
        ensures { IfOk result (λ copy. copy ≡ self.now) }
    {
        let entries = copy_entries(alloc, &self.entries)?;
        Ok(Sheet { entries })
    }

    /// Whether the steps `applied`, numbered from `first`, were run under the rules in force. If they all have the same
    /// rule (`is_steady`) and the last entry begins at `first` or before, one comparison decides.
    pub(crate) fn are_in_force(&self, first: u32, applied: &[ExecutedStep], is_steady: bool) -> bool
        requires steps { first + length applied.now < 2 ^ 32 }
        requires steady { IsTrue is_steady → IsSteady applied.now }
        ensures { IsTrue result ↔ RanUnderSheet self.now first applied.now }
    {
        let Some(ran) = applied.first() else {
            return true;
        };
        let (from, rule) = self.shared_entry(self.len() - 1);
        if is_steady && from <= first {
            rule.equals(&ran.rule)
        } else {
            self.are_each_in_force(first, applied)
        }
    }

    /// `are_in_force`, by comparing the rule of each step.
    fn are_each_in_force(&self, first: u32, applied: &[ExecutedStep]) -> bool
        requires { first + length applied.now < 2 ^ 32 }
        ensures { IsTrue result ↔ RanUnderSheet self.now first applied.now }
    {
        let mut step = first;
        for ran in applied {
            let entry = self.entry_in_force(step);
            if !entry.1.equals(&ran.rule) {
                return false;
            }
            step += 1;
        }
        true
    }

    /// Adds a rule that is in force from the step `from`. It replaces an entry that begins at the same step.
    ///
    /// # Errors
    ///
    /// `SheetFull` if the sheet would have more than `MAX_ENTRIES` entries, `Memory` if an allocation fails. Then
    /// nothing changes.
    pub(crate) fn enter(&mut self, from: u32, rule: Rule) -> Result<(), BookFault>
        requires { BeginBy from self.old }
        ensures ok { OnOk result
            ((self.new ≡ with_rule_from self.old from rule) × (length self.new ≤ MAX_ENTRIES) × IsSheet self.new) }
        ensures err { IfErr result (λ fault. MayRefuse fault (with_rule_from self.old from rule)) }
        ensures unchanged { OnErr result (self.new ≡ self.old) }
    {
        let alloc = *self.entries.allocator();
        let rule = SharedRule::new(alloc, rule)?;
        make_room(&mut self.entries, from)?;
        self.entries.push_reserved((from, rule));
        Ok(())
    }
}

/// Makes room for an entry that begins at the step `from`. Drops the last entry if it begins there as well.
fn make_room(entries: &mut Vec<(u32, SharedRule)>, from: u32) -> Result<(), BookFault>
    requires sheet { IsBookSheet entries.old.items }
    requires begin { BeginBy from entries.old.items }
    ensures ok { (rule : Programs) → OnOk result
        (entries.new.items ++ (from, rule) ∷ [] ≡ with_rule_from entries.old.items from rule) }
    ensures sheet { (rule : Programs) → OnOk result (IsBookSheet (entries.new.items ++ (from, rule) ∷ [])) }
    ensures room { OnOk result (vec_len entries.new < vec_capacity entries.new) }
    ensures err { (rule : Programs)
        → IfErr result (λ fault. MayRefuse fault (with_rule_from entries.old.items from rule)) }
    ensures unchanged { OnErr result (entries.new.items ≡ entries.old.items) }
{
    let Some(last) = entries.pop() else {
        unreachable!()
    };
    if last.0 == from {
        return Ok(());
    }
    entries.push_reserved(last);
    if entries.len() >= MAX_ENTRIES {
        return Err(BookFault::SheetFull);
    }
    Ok(entries.reserve(1)?)
}

/// A copy of a list of entries that shares their rules.
fn copy_entries(
    alloc: Global,
    entries: &[(u32, SharedRule)],
) -> Result<Vec<(u32, SharedRule)>, AllocError>
    ensures { IfOk result (λ copies. copies.items ≡ entries.now) }
{
    let mut copies = Vec::with_capacity(alloc, entries.len())?;
    for entry in entries {
        let rule = entry.1.share()?;
        copies.push_reserved((entry.0, rule));
    }
    Ok(copies)
}
