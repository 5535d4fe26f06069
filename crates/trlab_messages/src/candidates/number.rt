//! Candidates for numbers that are written as fractions, with a sign, in groups of digits or with a power of ten.

use crate::candidates::{Candidates, DIGITS_ONLY};
use crate::fault::Fault;
use std::num::{nearest_u64_to_f64, saturating_f64_to_u64};
use trlab_bounds::programs::CERTAIN;
use trlab_bounds::roads::{MAX_LANES, MAX_LENGTH};
use trlab_lines::{cut, is_numeral, next_line};
use trlab_texts::{Excerpt, LineName, Quantity, Wanted};

/// A quantity that may by mistake be written as a fraction, from 0 to 1, of a whole.
#[derive(Clone, Copy)]
pub struct Fraction {
    pub mistake: &'static str,
    pub whole: u32,
}

/// A probability p, which is written as p x 2^31.
pub const PROBABILITY: Fraction = Fraction {
    mistake: "a probability p is written as p x 2147483648.",
    whole: CERTAIN,
};

const DENSITY: &str =
    "`cars` takes a number of cars, not a density; this is that density on this road.";

/// The number, from 1 to `max`, in the first line with this name above the fault; 0 if there is none.
fn number_above(fault: &Fault<'_>, name: LineName, max: u32) -> u32 {
    let mut left = fault.place.above();
    for _ in 0..fault.place.number {
        let Some((line, rest)) = next_line(left) else {
            break;
        };
        if let Ok(number) = Excerpt::number_after(name, 1, max, line) {
            return number;
        }
        left = rest;
    }
    0
}

/// Adds a candidate that replaces the word at the position `at` of the line with the number that it may mean. If a
/// fraction is given, a value of at most 1 means this part of its whole; any other value means itself.
pub fn value_candidates(list: &mut Candidates, at: usize, word: &[u8], fraction: Option<Fraction>) {
    let Some(value) = value_of(word) else {
        return;
    };
    let (mistake, number) = match fraction {
        Some(fraction) if value <= 1.0 => (
            fraction.mistake,
            Some(nearest_part(value, fraction.whole)),
        ),
        _ => (DIGITS_ONLY, whole_number(value)),
    };
    if let Some(number) = number {
        let digits = format!(in list.alloc; "{number}");
        list.rewrite(mistake, at, word.len(), digits.map(String::into_bytes));
    }
}

/// Adds the line `cars n` for a line `density x`: n is x times the number of cells of the sweep's road, rounded.
pub fn density_candidate(list: &mut Candidates, fault: &Fault<'_>) {
    let length = number_above(fault, LineName::Length, MAX_LENGTH);
    let cells = length.saturating_mul(number_above(fault, LineName::Lanes, MAX_LANES));
    let (_, word) = cut(fault.line, b' ').unwrap_or((b"", b""));
    if let Some(density) = value_of(word)
        && density <= 1.0
    {
        let count = nearest_part(density, cells);
        let line = format!(in list.alloc; "cars {count}");
        list.rewrite(DENSITY, 0, fault.line.len(), line.map(String::into_bytes));
    }
}

/// Adds the number that the word at fault in a job or sweep may mean: a fraction of 2^31 for a probability, a fraction
/// of the cells for a number of cars, or the word's own value.
pub fn number_candidates(list: &mut Candidates, fault: &Fault<'_>) {
    let Wanted::Number { word, quantity, .. } = fault.wanted else {
        return;
    };
    let fraction = match quantity {
        Quantity::Probability => Some(PROBABILITY),
        Quantity::Cars { cells } => Some(Fraction {
            mistake: DENSITY,
            whole: *cells,
        }),
        Quantity::Other => None,
    };
    let (_, at) = word.place();
    value_candidates(list, at, word.bytes(), fraction);
}

/// The value of a whole number whose digits are in groups of three, for example `1,000`, `1_000` or `1'000`.
fn grouped_of(word: &[u8]) -> Option<f64> {
    // The comma of `0,500` is a decimal comma.
    if matches!(word.first(), Some(b'0')) {
        return None;
    }
    let mut value = 0.0;
    let mut is_first = true;
    for group in word.split(|byte| matches!(byte, b',' | b'_' | b'\'')) {
        let has_length = group.len() == 3 || (is_first && matches!(group.len(), 1 | 2));
        if !has_length || !is_numeral(group) {
            return None;
        }
        let part: f64 = fast_float::parse(group).ok()?;
        value = value * 1000.0 + part;
        is_first = false;
    }
    Some(value)
}

/// The value of a number with a decimal comma, for example `0,5`.
fn with_comma_of(word: &[u8]) -> Option<f64> {
    let (whole, decimals) = cut(word, b',')?;
    if !is_numeral(whole) || !is_numeral(decimals) {
        return None;
    }
    let whole: f64 = fast_float::parse(whole).ok()?;
    let mut part: f64 = fast_float::parse(decimals).ok()?;
    let mut scale = 1.0;
    for _ in decimals {
        scale *= 10.0;
    }
    part /= scale;
    Some(whole + part)
}

/// The value of a number without a sign, for example `0.25`, `.25`, `1e4`, `007`, `1,000` or `0,25`.
fn decimal_of(word: &[u8]) -> Option<f64> {
    match word.first() {
        Some(b'.' | b'0'..=b'9') => match fast_float::parse(word) {
            Ok(value) => Some(value),
            Err(_) => match grouped_of(word) {
                None => with_comma_of(word),
                grouped => grouped,
            },
        },
        _ => None,
    }
}

/// The value of a number, a percentage such as `25%` or a fraction such as `1/4`.
fn value_of(word: &[u8]) -> Option<f64> {
    let word = word.strip_prefix(b"+").unwrap_or(word);
    if let Some(percent) = word.strip_suffix(b"%") {
        return Some(decimal_of(percent)? / 100.0);
    }
    match cut(word, b'/') {
        Some((numerator, denominator)) => Some(decimal_of(numerator)? / decimal_of(denominator)?),
        None => decimal_of(word),
    }
}

/// A value as a whole number, if it is one.
fn whole_number(value: f64) -> Option<u64> {
    let number = saturating_f64_to_u64(value);
    (nearest_u64_to_f64(number) == value).then_some(number)
}

/// A part of a whole, rounded to the nearest number.
fn nearest_part(part: f64, whole: u32) -> u64 {
    saturating_f64_to_u64(part * f64::from(whole) + 0.5)
}
