//! Misspelled names.

use crate::Result;
use std::alloc::Global;
use strsim::generic_damerau_levenshtein;
use trlab_asm::HasText;

/// The maximum length of a word that is compared with names. No name is longer: a label has at most 32 characters.
const LONGEST_WORD: usize = 32;

/// The maximum number of edits from a word to the name that was meant.
const MAX_EDITS: usize = 2;

/// The maximum number of names that a word is compared with, because a long input can have very many labels.
const MAX_NAMES: u32 = 4096;

/// The number of edits from a word to another, if it is at most `max_edits`. Exchanging two neighbours is one edit.
/// Words that differ only in case have 0 edits; otherwise a letter in the other case counts as one edit.
pub fn edits_within(
    alloc: Global,
    word: &[u8],
    other: &[u8],
    max_edits: usize,
) -> Result<Option<usize>> {
    if word.eq_ignore_ascii_case(other) {
        return Ok(Some(0));
    }
    if word.len() > LONGEST_WORD || word.len().abs_diff(other.len()) > max_edits {
        return Ok(None);
    }
    let edits = generic_damerau_levenshtein(alloc, word, other)?;
    Ok(if edits <= max_edits {
        Some(edits)
    } else {
        None
    })
}

/// The name most like a word, among the names compared so far.
#[derive(Clone, Copy)]
pub struct NearestName<'a> {
    /// The fewest edits so far; at first, one more than a name may need.
    edits: usize,
    /// How many more names are compared.
    remaining: u32,
    /// The name, if no other is as near.
    pub found: Option<&'a [u8]>,
}

impl<'a> NearestName<'a> {
    /// The state before the first name is compared. A name must need fewer edits than the word has letters, so that at
    /// least one letter is right.
    pub fn to(word: &[u8]) -> NearestName<'a> {
        NearestName {
            edits: word.len().max(1).min(MAX_EDITS + 1),
            remaining: MAX_NAMES,
            found: None,
        }
    }

    /// Forgets the names so far, but still counts them.
    pub fn restart(&mut self, word: &[u8]) {
        let remaining = self.remaining;
        *self = NearestName::to(word);
        self.remaining = remaining;
    }

    /// Compares one more name. If it is as near as the nearest one so far, neither is found.
    pub fn compare(&mut self, alloc: Global, word: &[u8], name: &'a [u8]) -> Result<()> {
        if self.remaining == 0 {
            return Ok(());
        }
        self.remaining -= 1;
        if let Some(edits) = edits_within(alloc, word, name, self.edits)? {
            self.found = (edits < self.edits).then_some(name);
            self.edits = edits;
        }
        Ok(())
    }
}

/// The word of `all` with the fewest edits from `word`, if no other has as few.
pub fn nearest_word(
    alloc: Global,
    word: &[u8],
    all: &[&'static [u8]],
) -> Result<Option<&'static [u8]>> {
    let mut best = NearestName::to(word);
    for name in all {
        best.compare(alloc, word, *name)?;
    }
    Ok(best.found)
}

/// The name of a value in `all` with the fewest edits from `word`, if no other has as few.
pub fn nearest_name<T: HasText>(
    alloc: Global,
    word: &[u8],
    all: &[T],
) -> Result<Option<&'static [u8]>> {
    let mut best = NearestName::to(word);
    for named in all {
        best.compare(alloc, word, named.text())?;
    }
    Ok(best.found)
}
