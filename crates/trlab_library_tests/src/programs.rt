//! Programs of rules: faults of their text, tables of notes, and the rule of the VDR model.

use crate::traffic::vdr_rule;
use std::alloc::Global;
use trlab_asm::{AsmFault, Why, assemble};
use trlab_code::Kind;
use trlab_verify::{check_notes, notes};

/// Whether a fault is printed in these words; false if an allocation fails.
fn is_printed(alloc: Global, fault: &AsmFault, words: &str) -> bool {
    match fault.to_string(alloc) {
        Ok(text) => text.as_str() == words,
        Err(_) => false,
    }
}

#[test]
fn faults_are_printed_in_words(rt: HostRuntime) {
    let fault = AsmFault {
        line: 3,
        why: Why::NoLabel,
    };
    assert!(rt; is_printed(rt.alloc(), &fault, "line 3: no line has this label"));
}

/// A motion that takes the smaller of speed and gap.
const SLOW: &[u8] = b"get r0, speed\nget r1, gap\njle r0, r1, L4\ncopy r0, r1\nL4: go r0\n";

/// Whether the verifier's table of notes for `SLOW` is accepted, and rejected without its last note.
fn checks_tables(alloc: Global) -> Option<bool> {
    let code = assemble(alloc, Kind::Motion, SLOW).ok()?;
    let mut table = notes(alloc, &code).ok()?;
    let is_accepted = check_notes(&code, &table);
    table.pop();
    Some(is_accepted && !check_notes(&code, &table))
}

#[test]
fn tables_that_claim_enough_are_accepted(rt: HostRuntime) {
    assert!(rt; checks_tables(rt.alloc()) == Some(true));
}

#[test]
fn the_vdr_rule_is_made(rt: HostRuntime) {
    assert!(rt; vdr_rule(rt.alloc(), 1, 2).is_some());
}
