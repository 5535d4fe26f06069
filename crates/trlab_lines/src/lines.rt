//! Lines of a text, the words of a line, and the values of decimal digits.

ghost use Rattle.std.specs.Prelude.{◌≡◌, ◌<◌, [], ◌∷◌, length, MatchOption, IfSome, ◌==◌, not, option_map, ◌≤◌, true};
ghost use Rattle.trlab_lines.specs.Lines.{lines_of, BeginsWithLine, HasNoLineFeed, all_digits, is_numeral};
ghost use Rattle.std.specs.List.{position};
ghost use Rattle.trlab_lines.specs.Lines.{cut, is_blank, without_indent, up_to_blank, only_word, without_comment, label_and_rest, name_and_operands};
ghost use Rattle.std.specs.Str.Parse.{digits_value};

use trlab_bounds::programs::MAX_DIGITS;

/// Splits off the first line, without its LF. Returns the line and the rest, or `None` for an empty text.
///
/// The last line needs no LF, so a text that is a single LF has one empty line.
pub fn next_line(text: &[u8]) -> Option<(&[u8], &[u8])>
    ensures lines { MatchOption result (lines_of text.now ≡ [])
        (λ found. lines_of text.now ≡ found.0.now ∷ lines_of found.1.now) }
    ensures bytes { MatchOption result (text.now ≡ []) (λ found. BeginsWithLine text.now found.0.now found.1.now) }
    ensures no_end { IfSome result (λ found. HasNoLineFeed found.0.now) }
    ensures shorter { IfSome result (λ found. length found.1.now < length text.now) }
{
    if text.is_empty() {
        return None;
    }
    match cut(text, b'\n') {
        None => Some((text, &[])),
        Some(found) => Some(found),
    }
}

/// Whether a byte separates words: a space or a tab.
fn is_blank(byte: u8) -> bool
    ensures { result ≡ is_blank byte }
{
    byte == b' ' || byte == b'\t'
}

/// The index of the first occurrence of a byte.
fn position_of(text: &[u8], byte: u8) -> Option<usize>
    ensures value { result ≡ position (λ b. b == byte) text.now }
    ensures inside { IfSome result (λ i. i < length text.now) }
{
    text.iter().position(|b| *b == byte)
}

/// The index of the first space or tab.
fn first_blank(text: &[u8]) -> Option<usize>
    ensures value { result ≡ position (λ b. is_blank b) text.now }
    ensures inside { IfSome result (λ i. i < length text.now) }
{
    text.iter().position(|b| is_blank(*b))
}

/// The index of the first byte that is neither a space nor a tab.
fn first_of_word(text: &[u8]) -> Option<usize>
    ensures value { result ≡ position (λ b. not (is_blank b)) text.now }
    ensures inside { IfSome result (λ i. i < length text.now) }
{
    text.iter().position(|b| !is_blank(*b))
}

/// Splits a text at the first occurrence of a byte, which is in neither part; `None` if it does not occur.
pub fn cut(text: &[u8], byte: u8) -> Option<(&[u8], &[u8])>
    ensures { option_map (λ parts. (parts.0.now, parts.1.now)) result ≡ cut byte text.now }
{
    let i = position_of(text, byte)?;
    let (before, _) = text.split_at(i);
    let (_, after) = text.split_at(i + 1);
    Some((before, after))
}

/// The text without leading blanks (spaces and tabs).
pub fn without_indent(text: &[u8]) -> &[u8]
    ensures { result.now ≡ without_indent text.now }
{
    match first_of_word(text) {
        None => &[],
        Some(i) => {
            let (_, rest) = text.split_at(i);
            rest
        }
    }
}

/// Splits a text before its first blank. If it has none, the second part is empty.
pub fn up_to_blank(text: &[u8]) -> (&[u8], &[u8])
    ensures { (result.0.now, result.1.now) ≡ up_to_blank text.now }
{
    match first_blank(text) {
        None => (text, &[]),
        Some(i) => text.split_at(i),
    }
}

/// The only word of a text, `None` if it has several. A text of blanks has the empty word.
pub fn only_word(text: &[u8]) -> Option<&[u8]>
    ensures { option_map (λ word. word.now) result ≡ only_word text.now }
{
    let (word, rest) = up_to_blank(without_indent(text));
    if without_indent(rest).is_empty() {
        Some(word)
    } else {
        None
    }
}

/// The line up to its first `;`, with which a comment begins.
pub fn without_comment(line: &[u8]) -> &[u8]
    ensures { result.now ≡ without_comment line.now }
{
    match cut(line, b';') {
        None => line,
        Some((before, _)) => before,
    }
}

/// Splits a text at its first colon into a label and the rest. Without a colon, the rest is the whole text.
pub fn label_and_rest(text: &[u8]) -> (Option<&[u8]>, &[u8])
    ensures { (option_map (λ label. label.now) result.0, result.1.now) ≡ label_and_rest text.now }
{
    match cut(text, b':') {
        None => (None, text),
        Some((label, body)) => (Some(label), body),
    }
}

/// The first word after a label and before a comment, for example the name of an instruction, and the bytes after it.
/// If the line has no word there, both are empty.
pub fn name_and_operands(line: &[u8]) -> (&[u8], &[u8])
    ensures { (result.0.now, result.1.now) ≡ name_and_operands line.now }
{
    let (_, body) = label_and_rest(without_comment(line));
    up_to_blank(without_indent(body))
}

/// Whether all bytes are decimal digits; true for an empty text.
fn all_digits(text: &[u8]) -> bool
    ensures { result ≡ all_digits text.now }
{
    text.iter().all(|byte| byte.is_ascii_digit())
}

/// Whether a word consists of one or more decimal digits.
pub fn is_numeral(text: &[u8]) -> bool
    ensures { result ≡ is_numeral text.now }
{
    !text.is_empty() && all_digits(text)
}

/// The value of at most ten decimal digits, which may have leading zeros.
pub fn digits_value(digits: &[u8]) -> u64
    requires digits { all_digits digits.now ≡ true }
    requires at_most_max_digits { length digits.now ≤ MAX_DIGITS }
    ensures { result ≡ digits_value 10 digits.now }
{
    let mut value = 0;
    for digit in digits {
        value = value * 10 + u64::from(*digit - b'0');
    }
    value
}
