//! Sentences with bytes of the input: while a sentence is a draft, it has one character, U+0000 to U+00FF, per byte.

use crate::Result;
use std::alloc::{AllocError, Global};
use std::fmt;
use trlab_lines::{MAX_QUOTED, Page};

/// Bytes of the input or of a change, shown in full.
#[derive(Clone, Copy)]
pub struct Shown<'a>(pub &'a [u8]);

impl fmt::Display for Shown<'_> {
    fn fmt<W: fmt::Write>(&self, f: &mut fmt::Formatter<W>) -> fmt::Result {
        for byte in self.0 {
            f.write_char(char::from(*byte))?;
        }
        Ok(())
    }
}

/// The first bytes of a word or line of the input, and ` ..` if there are more.
#[derive(Clone, Copy)]
pub struct Quoted<'a>(pub &'a [u8]);

impl fmt::Display for Quoted<'_> {
    fn fmt<W: fmt::Write>(&self, f: &mut fmt::Formatter<W>) -> fmt::Result {
        let (front, rest) = self.0.split_at(MAX_QUOTED.min(self.0.len()));
        let front = Shown(front);
        let end = if rest.is_empty() { "" } else { " .." };
        write!(f, "{front}{end}")
    }
}

/// Sentences that are being written. `write!` returns nothing: a failed allocation is remembered, and `text` returns
/// it.
#[derive(Drop)]
pub struct Draft {
    text: String,
    has_failed: bool,
}

impl Draft {
    /// A draft that has allocated nothing yet.
    pub fn new(alloc: Global) -> Draft {
        Draft {
            text: String::new(alloc),
            has_failed: false,
        }
    }

    /// Appends a string.
    pub fn push_str(&mut self, words: &str) {
        self.has_failed |= self.text.push_str(words).is_err();
    }

    /// Appends a string, and ends the line.
    pub fn push_line(&mut self, words: &str) {
        self.push_str(words);
        self.push_str("\n");
    }

    /// `write!` and `writeln!` call this.
    pub fn write_fmt<D: fmt::Display + Drop>(&mut self, words: D) {
        self.has_failed |= self.text.write_fmt(words).is_err();
    }

    /// Appends the lines of another draft, with `first` before the first one and `later` before the others.
    pub fn push_lines<'x>(&mut self, first: &'x str, later: &'x str, lines: &Draft) {
        self.has_failed |= lines.has_failed;
        let mut is_first = true;
        for line in lines.text.split_terminator('\n') {
            self.push_str(if is_first { first } else { later });
            self.push_line(line);
            is_first = false;
        }
    }

    /// Whether nothing was written, and no allocation failed.
    pub fn is_empty(&self) -> bool {
        self.text.is_empty() && !self.has_failed
    }

    /// The words.
    ///
    /// # Errors
    ///
    /// If an allocation failed while they were written.
    pub fn text(&self) -> Result<&str> {
        if self.has_failed {
            Err(AllocError)
        } else {
            Ok(&self.text)
        }
    }
}

impl fmt::Display for Draft {
    fn fmt<W: fmt::Write>(&self, f: &mut fmt::Formatter<W>) -> fmt::Result {
        match self.text() {
            Ok(text) => f.write_str(text),
            Err(_) => Err(fmt::Error),
        }
    }
}

/// Adds a character as a byte, or `?` for a character above U+00FF; an LF ends the line.
fn push_character(page: &mut Page, character: char) -> Result<()> {
    match u8::try_from(character) {
        Ok(b'\n') => page.end_line(),
        Ok(byte) => page.show_all(&[byte]),
        Err(_) => page.say("?"),
    }
}

/// A page of sentences: bytes that are not plain are escaped, and a character above U+00FF becomes `?`.
///
/// # Errors
///
/// If an allocation fails.
pub fn page_of(alloc: Global, text: &str) -> Result<Page> {
    let mut page = Page::new(alloc);
    for character in text.chars() {
        push_character(&mut page, character)?;
    }
    Ok(page)
}
