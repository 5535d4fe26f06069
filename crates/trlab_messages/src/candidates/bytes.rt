//! Candidates for keys, programs in bytes and lanes.

use crate::Result;
use crate::candidates::{Candidates, DIGITS_ONLY};
use crate::fault::Fault;
use crate::problem::{BEFORE_CELLS, KEY_DIGITS, first_non_hex_digit};
use std::alloc::Global;
use trlab_lines::Place;
use trlab_texts::word::without_prefix;
use trlab_texts::{Cause, Wanted};

/// A key made from a shorter word by leading zeros.
fn long_key(alloc: Global, word: &[u8]) -> Result<Vec<u8>> {
    let mut key = vec![in alloc; b'0'; KEY_DIGITS.saturating_sub(word.len())]?;
    key.extend_from_slice(word)?;
    Ok(key)
}

/// Adds candidates that delete `0x`, replace a letter by the digit that was meant, or put zeros before a short key.
pub fn hex_candidates(list: &mut Candidates, fault: &Fault<'_>) {
    let Wanted::Digits(digits) = fault.wanted else {
        return;
    };
    let (_, at) = digits.place();
    let word = digits.bytes();
    if word.starts_with(b"0x") {
        list.edit_in_line(DIGITS_ONLY, at, 2, b"");
    }
    if let Some(place) = first_non_hex_digit(word) {
        let digit_at = at.saturating_add(place);
        match word.get(place) {
            Some(b'o' | b'O') => list.edit_in_line(DIGITS_ONLY, digit_at, 1, b"0"),
            Some(b'l' | b'I') => list.edit_in_line(DIGITS_ONLY, digit_at, 1, b"1"),
            _ => {}
        }
    } else if fault.cause == Cause::Key && word.len() < KEY_DIGITS {
        let mistake = "a key has 64 hexadecimal digits; leading zeros count.";
        list.rewrite(mistake, at, word.len(), long_key(list.alloc, word));
    }
}

/// Adds a candidate that writes version 1, because no instruction of the program needs version 2.
pub fn version_candidate(list: &mut Candidates, fault: &Fault<'_>) {
    if let Some(space) = fault.line.iter().rposition(|byte| *byte == b' ') {
        // The version is the fifth byte: a space and the 8 digits of the first four bytes come before it.
        let mistake = "the version is 1 if no instruction reads `headspeed`.";
        list.edit_in_line(mistake, space.saturating_add(9), 2, b"01");
    }
}

/// The maximum length of a lane for which an empty second lane is inserted, because the explanation shows the whole
/// line.
const LONGEST_LANE: usize = 100;

/// Adds a candidate that writes a capital letter in a cell as a lower-case letter.
pub fn cell_candidate(list: &mut Candidates, fault: &Fault<'_>, cell: u32) {
    let at = BEFORE_CELLS.saturating_add(cell as usize);
    let mistake = "a car is a digit or a lower-case letter.";
    match fault.line.get(at) {
        Some(letter) if letter.is_ascii_uppercase() => {
            list.edit_in_line(mistake, at, 1, &[letter.to_ascii_lowercase()])
        }
        _ => {}
    }
}

/// The line of an empty lane with this number of cells.
fn empty_lane(alloc: Global, cells: usize) -> Result<Vec<u8>> {
    let mut line = b"lane ".to_vec(alloc)?;
    line.resize(cells.saturating_add(BEFORE_CELLS), b'.')?;
    line.push(b'\n')?;
    Ok(line)
}

/// Adds a candidate for the second lane that a rule needs: an empty one below the first, or the line `lanes 2`.
pub fn lanes_candidate(list: &mut Candidates, fault: &Fault<'_>) {
    let Wanted::SecondLane { line: number } = fault.wanted else {
        return;
    };
    let mistake = "this rule needs a second lane. (Or use a rule without lane changes.)";
    let Place { start, line, .. } = Place::at(fault.place.above(), *number);
    let line = line.unwrap_or(b"");
    match without_prefix(b"lane ", line) {
        None => list.edit(mistake, start, line.len(), b"lanes 2".to_vec(list.alloc)),
        Some(lane) if lane.len() <= LONGEST_LANE => {
            let below = start.saturating_add(line.len()).saturating_add(1);
            list.edit(mistake, below, 0, empty_lane(list.alloc, lane.len()));
        }
        Some(_) => {}
    }
}
