//! The kind of input that a text is meant to be.

ghost use Rattle.std.specs.Prelude.{◌≡◌, ◌≢◌, [], IfOk, option_map, true};
ghost use Rattle.trlab_lines.specs.Lines.{lines_of};
ghost use Rattle.trlab_explain.specs.Explanations.{IsMeant, IsWithinOneEdit, MayBeMeantAs, has_content, leading_word, without_mark};

use std::alloc::Global;
use strsim::generic_damerau_levenshtein;
use trlab_jobs::{Subject, subject_named};
use trlab_lines::{next_line, up_to_blank, without_indent};
use trlab_messages::Result;
use trlab_texts::word::without_prefix;

/// The maximum length in bytes of a word that is compared with names, which are much shorter.
const LONGEST_WORD: usize = 16;

/// Whether a word is at most one edit away from a name: a byte inserted, deleted or replaced, or two neighbours
/// swapped. False for words longer than `LONGEST_WORD`.
fn is_nearly(alloc: Global, word: &[u8], name: &[u8]) -> Result<bool>
    requires { name.now ≢ [] }
    ensures { IfOk result (λ is_so. is_so ≡ true → IsWithinOneEdit word.now name.now) }
{
    if word.is_empty() || word.len() > LONGEST_WORD {
        return Ok(false);
    }
    let edits = generic_damerau_levenshtein(alloc, word, name)?;
    Ok(edits <= 1)
}

/// The kind that an input with an unknown leading word is meant to be.
fn misspelled_subject(alloc: Global, word: &[u8]) -> Result<Subject>
    ensures { IfOk result (MayBeMeantAs word.now) }
{
    if is_nearly(alloc, word, b"road")? {
        Ok(Subject::Job)
    } else if is_nearly(alloc, word, b"sweep")? {
        Ok(Subject::Sweep)
    } else {
        Ok(Subject::Check)
    }
}

/// Whether a line with this first word is neither blank nor a comment. An empty line of a Windows file has only a
/// carriage return.
fn has_content(word: &[u8]) -> bool
    ensures { result ≡ has_content word.now }
{
    match word.first() {
        None => false,
        Some(byte) => *byte != b';' && *byte != b'#' && *byte != b'\r',
    }
}

/// The first word of a text's first line that is neither blank nor a comment; `None` if there is no such line.
fn leading_word(text: &[u8]) -> Option<&[u8]>
    ensures { option_map (λ word. word.now) result ≡ leading_word (lines_of text.now) }
{
    let mut left = text;
    while let Some((line, rest)) = next_line(left) {
        let (word, _) = up_to_blank(without_indent(line));
        if has_content(word) {
            return Some(word);
        }
        left = rest;
    }
    None
}

/// A text without a byte order mark at its beginning.
fn without_mark(text: &[u8]) -> &[u8]
    ensures { result.now ≡ without_mark text.now }
{
    match without_prefix(b"\xef\xbb\xbf", text) {
        Some(rest) => rest,
        None => text,
    }
}

/// The kind that an input is meant to be, by its leading word, even a misspelled one; otherwise a check. A byte order
/// mark before it does not count.
///
/// # Errors
///
/// If an allocation fails.
pub fn subject_of(alloc: Global, text: &[u8]) -> Result<Subject>
    ensures { IfOk result (IsMeant (lines_of (without_mark text.now))) }
{
    let Some(word) = leading_word(without_mark(text)) else {
        return Ok(Subject::Check);
    };
    match subject_named(word) {
        Some(subject) => Ok(subject),
        None => misspelled_subject(alloc, word),
    }
}
