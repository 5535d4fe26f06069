//! The snapshots that tests expect from reads.

use crate::traffic::nasch_rule;
use std::alloc::Global;
use trlab_road::Road;
use trlab_rules::Rule;
use trlab_sequential_book::{Sheet, Snapshot};

/// The expected result of a read.
#[derive(Clone, Copy)]
pub struct ExpectedRead<'a> {
    /// The number of steps done.
    pub steps: u32,
    /// The picture of the only lane.
    pub picture: &'a [u8],
    /// The first step of each rule, and its braking probability times 2^31.
    pub rules: &'a [(u32, u32)],
}

/// Whether a road of one lane has this picture; false if an allocation fails.
pub fn has_picture(alloc: Global, road: &Road, picture: &[u8]) -> bool {
    if road.lanes() != 1 {
        return false;
    }
    match road.picture(alloc, 0) {
        Ok(shown) => shown.as_slice() == picture,
        Err(_) => false,
    }
}

/// Whether a rule is the Nagel-Schreckenberg rule with braking probability `chance` / 2^31; false if an allocation
/// fails.
fn is_rule(alloc: Global, rule: &Rule, chance: u32) -> bool {
    match nasch_rule(alloc, chance) {
        Some(wanted) => rule.equals(&wanted),
        None => false,
    }
}

/// Whether a sheet has these rules in order, each with its first step and its braking probability times 2^31; false if
/// an allocation fails.
fn has_rules(alloc: Global, sheet: &Sheet, wanted: &[(u32, u32)]) -> bool {
    if sheet.len() != wanted.len() {
        return false;
    }
    for index in 0..wanted.len() {
        let (from, chance) = wanted[index];
        let (first, rule) = sheet.entry(index);
        if first != from || !is_rule(alloc, rule, chance) {
            return false;
        }
    }
    true
}

/// Whether a snapshot is as expected; false if an allocation fails.
pub fn is_shown(alloc: Global, seen: &Snapshot, wanted: &ExpectedRead) -> bool {
    seen.step() == wanted.steps
        && has_picture(alloc, seen.road(), wanted.picture)
        && has_rules(alloc, seen.sheet(), wanted.rules)
}
