//! Words of lines, separated by single spaces, and numbers.

ghost use Rattle.std.specs.Prelude.{◌≡◌, ◌≢◌, ◌≤◌, ℕ, decimal, MatchOption, option_map};
ghost use Rattle.trlab_bounds.specs.declared.texts.TheConstants.{LONGEST_NUMBER};
ghost use Rattle.trlab_lines.specs.Lines.{without_prefix};
ghost use Rattle.trlab_texts.specs.Words.{is_word, number_of, within, head_word};

use crate::fault::Cause;
use trlab_bounds::programs::MAX_DIGITS;
use trlab_lines::{cut, digits_value, is_numeral};

/// The line after a prefix, if it has this prefix.
pub fn without_prefix<'a>(prefix: &[u8], line: &'a [u8]) -> Option<&'a [u8]>
    ensures { option_map (λ rest. rest.now) result ≡ without_prefix prefix.now line.now }
{
    line.strip_prefix(prefix)
}

/// Whether a text is one word: not empty, and without spaces.
pub fn is_word(text: &[u8]) -> bool
    ensures { result ≡ is_word text.now }
{
    !text.is_empty() && !text.contains(&b' ')
}

/// The first word of a line: the bytes before its first space, or all of them.
pub fn head_word(line: &[u8]) -> &[u8]
    ensures { result.now ≡ head_word line.now }
{
    match cut(line, b' ') {
        None => line,
        Some((word, _)) => word,
    }
}

/// The value of at most ten decimal digits, without a sign or a leading 0.
fn number(word: &[u8]) -> Option<u64>
    ensures { MatchOption result
        ((n : ℕ) → n ≤ LONGEST_NUMBER → word.now ≢ decimal n)
        (λ n. (word.now ≡ decimal n) × (n ≤ LONGEST_NUMBER)) }
{
    if !is_numeral(word) {
        return None;
    }
    if word.len() > MAX_DIGITS {
        return None;
    }
    if word.len() > 1 && word[0] == b'0' {
        return None;
    }
    Some(digits_value(word))
}

/// The value of a word, if it is a number from `low` to `high`.
///
/// # Errors
///
/// `Cause::Number` for any other word.
#[tactic(auto, using(crate::proofs::Numbers::number_of_some, crate::proofs::Numbers::number_of_none))]
pub fn number_from(low: u32, high: u32, word: &[u8]) -> Result<u32, Cause>
    ensures { result ≡ within low high (number_of word.now) }
{
    match number(word) {
        Some(n) if u64::from(low) <= n && n <= u64::from(high) => Ok(n as u32),
        _ => Err(Cause::Number),
    }
}

/// The value of a word, if it is a number of at most `MAX_DIGITS` digits.
///
/// # Errors
///
/// `Cause::Number` for any other word.
#[tactic(auto, using(crate::proofs::Numbers::number_of_some, crate::proofs::Numbers::number_of_none, crate::proofs::Numbers::long_within))]
pub fn long_number(word: &[u8]) -> Result<u64, Cause>
    ensures { result ≡ within 0 LONGEST_NUMBER (number_of word.now) }
{
    number(word).ok_or(Cause::Number)
}
