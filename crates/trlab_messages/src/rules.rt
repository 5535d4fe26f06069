//! The rules of a valid input with their probabilities, and the sizes that jobs and sweeps have in common.

use crate::body::Body;
use crate::lines::UnreadLines;
use crate::names::after_rule;
use crate::probability::push_probability;
use crate::program::push_rule_draws;
use crate::sentence::{Draft, Quoted};
use trlab_bounds::programs::CERTAIN;
use trlab_lines::cut;
use trlab_rules::Rule;
use trlab_texts::word::{head_word, number_from};

/// The names of the probabilities in the line of each model, in their order.
const NASCH_NAMES: [&str; 2] = ["p", "p"];

const VDR_NAMES: [&str; 2] = ["p", "p0"];

const RICKERT_NAMES: [&str; 2] = ["p", "c"];

/// Adds the probabilities after the name of a model.
fn push_probabilities(facts: &mut Draft, words: &[u8]) {
    let names = if words.starts_with(b"vdr") {
        &VDR_NAMES
    } else if words.starts_with(b"rickert") {
        &RICKERT_NAMES
    } else {
        &NASCH_NAMES
    };
    let mut left = words;
    for name in names {
        let Some((_, rest)) = cut(left, b' ') else {
            break;
        };
        if let Ok(parts) = number_from(0, CERTAIN, head_word(rest)) {
            push_probability(facts, *name, parts);
        }
        left = rest;
    }
}

/// Reads the lines up to the next one that begins with the word `name`, and adds this line of a rule with its
/// probabilities, or with the draws of its programs.
pub fn add_next_rule(body: &mut Body, lines: &mut UnreadLines<'_>, name: &[u8], rule: &Rule) {
    let Some(found) = lines.read_to(name) else {
        return;
    };
    let number = found.number;
    writeln!(body.facts, "line {number}: {}", Quoted(found.line));
    let words = after_rule(found.line).unwrap_or(b"");
    if words == b"own".as_slice() {
        let pushed = push_rule_draws(body.alloc, &mut body.facts, lines, rule);
        body.ok_or_remember_failure(pushed);
    } else {
        push_probabilities(&mut body.facts, words);
    }
}

/// The bytes of memory for each byte of a job or a sweep.
pub const MEMORY_PER_INPUT_BYTE: u64 = 9;

/// The number of megabytes, 1,000,000 bytes each, rounded up.
pub fn megabytes(bytes: u64) -> u64 {
    bytes.saturating_add(999_999) / 1_000_000
}

/// The number of decimal digits of a number.
pub fn count_digits(number: u64) -> u64 {
    u64::from(number.checked_ilog10().unwrap_or(0)).saturating_add(1)
}
