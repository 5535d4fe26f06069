//! A text that is read line by line.

ghost use Rattle.std.specs.Prelude.{◌≡◌, ◌+◌, ◌-◌, ◌<◌, ◌^◌, [], ◌∷◌, None, length, MatchOption, MatchResult, IsTrue, ◌↔◌, true};
ghost use Rattle.trlab_lines.specs.Lines.{lines_of};
ghost use Rattle.trlab_texts.specs.Reading.{IsNextLine, Rest as RestOfLines, all_lines, Reports, line};
ghost use Rattle.trlab_texts.specs.Programs.{SplitsAtEnd, split_at_end};
ghost use Rattle.std.specs.Fn.{FnOnceReturnsAt};
ghost use Rattle.trlab_texts.specs.declared.fault.Cause.{Cause};
ghost use Rattle.trlab_texts.specs.declared.fault.TextFault.{TextFault};
ghost use Rattle.trlab_texts.specs.Words.{has_name, next_word_is};

use crate::line_name::{LineName, LineNames};
use crate::refusal::{Objection, Refusal};
use crate::word::head_word;
use std::marker::Model;
use trlab_lines::next_line;

/// The unread lines of a text, and the number of the first, counted from 1.
#[derive(Drop)]
pub struct Rest<'a> {
    unread: &'a [u8],
    number: u32,
    /// Other names that the next line may have.
    also_wanted: LineNames,
}

impl<'a> Model for Rest<'a> {
    ghost Value = { RestOfLines };

    ghost view = { λ rest. record { number = rest.number; left = lines_of rest.unread.now } };

    // Each unread line has at least one byte, so no line number overflows.
    ghost invariant = { λ rest. rest.number + length rest.unread.now < 2 ^ 32 };
}

impl<'a> Rest<'a> {
    /// All lines of a text.
    pub fn start(text: &'a [u8]) -> Rest<'a>
        requires { length text.now < 2 ^ 31 }
        ensures { result ≡ all_lines text.now }
    {
        Rest {
            unread: text,
            number: 1,
            also_wanted: LineNames::none(),
        }
    }

    /// The number of the next line.
    pub fn number(&self) -> u32
        ensures { result ≡ self.now.number }
    {
        self.number
    }

    /// The number of the line before the next one; 0 at the start.
    pub fn line_before(&self) -> u32
        ensures { result ≡ self.now.number - 1 }
    {
        self.number.saturating_sub(1)
    }

    /// Whether no line is left.
    pub fn is_end(&self) -> bool
        ensures { IsTrue result ↔ (self.now.left ≡ []) }
    {
        self.unread.is_empty()
    }

    /// Adds a name that the next line may have; refusals list it.
    pub fn or(self, name: LineName) -> Rest<'a>
        ensures { result ≡ self.entry }
    {
        Rest {
            unread: self.unread,
            number: self.number,
            also_wanted: self.also_wanted.with(name),
        }
    }

    /// Whether the next line begins with this word.
    pub fn next_word_is(&self, word: &[u8]) -> bool
        ensures { result ≡ next_word_is word.now self.now.left }
    {
        match next_line(self.unread) {
            Some((line, _)) => head_word(line) == word,
            None => false,
        }
    }

    /// The names that the next line may have, with this name added.
    pub fn names_with(&self, name: LineName) -> LineNames
        ensures { has_name result name ≡ true }
    {
        self.also_wanted.with(name)
    }

    /// The refusal of a text that ends here, because a line with this name is missing.
    pub fn ended(&self, name: LineName) -> Refusal<'a>
        ensures { result ≡ TextFault.At self.now.number Cause.Line }
    {
        Refusal::no_line(self.number, self.names_with(name))
    }

    /// Returns the next line, if a line is left, and the rest after it.
    pub fn next(self) -> Option<(&'a [u8], Rest<'a>)>
        ensures { MatchOption result (self.entry.left ≡ [])
            (λ found. IsNextLine self.entry found.0.now found.1) }
    {
        let (line, unread) = next_line(self.unread)?;
        let after = Rest {
            unread,
            number: self.number + 1,
            also_wanted: LineNames::none(),
        };
        Some((line, after))
    }

    /// Returns the next line and the rest after it. The name is for the refusal; it is not tested here.
    ///
    /// # Errors
    ///
    /// `Cause::Line` at the number of the next line, if no line is left.
    pub fn next_line(self, name: LineName) -> Result<(&'a [u8], Rest<'a>), Refusal<'a>>
        ensures { MatchResult result
            (λ found. IsNextLine self.entry found.0.now found.1)
            (λ fault. (self.entry.left ≡ []) × (fault ≡ TextFault.At self.entry.number Cause.Line)) }
    {
        let ended = self.ended(name);
        self.next().ok_or(ended)
    }

    /// Reads the next line with `read`, and returns the value and the rest after the line. The name is for the refusal;
    /// only `read` tests the line.
    ///
    /// # Errors
    ///
    /// The error of `next_line`, or the objection of `read`, at the number of the line.
    pub fn read_line<T, F: FnOnce(&'a [u8]) -> Result<T, Objection<'a>>>(
        self,
        name: LineName,
        read: F,
    ) -> Result<(T, Rest<'a>), Refusal<'a>>
        requires { F.IsAlwaysCallable read }
        ensures { Reports (line (FnOnceReturnsAt F.FnOnce read) self.entry) result }
    {
        let number = self.number();
        let names = self.names_with(name);
        let (text, after) = self.next_line(name)?;
        match read(text) {
            Ok(value) => Ok((value, after)),
            Err(refusal) => Err(refusal.at(number, names)),
        }
    }

    /// Returns the lines before the line `end`, and the rest after it.
    ///
    /// # Errors
    ///
    /// `Cause::Line` one line past the last, if no line is `end`.
    pub fn part(self) -> Result<(&'a [u8], Rest<'a>), Refusal<'a>>
        ensures { MatchResult result
            (λ found. SplitsAtEnd self.entry (lines_of found.0.now) found.1)
            (λ fault. (split_at_end self.entry.left ≡ None)
            × (fault ≡ TextFault.At (self.entry.number + length self.entry.left) Cause.Line)) }
    {
        let Rest { unread, number, .. } = self;
        let mut left = unread;
        let mut lines = 0;
        while let Some((line, rest)) = next_line(left) {
            lines += 1;
            if line == b"end".as_slice() {
                let (part, _) = unread.split_at(unread.len() - left.len());
                let after = Rest {
                    unread: rest,
                    number: number + lines,
                    also_wanted: LineNames::none(),
                };
                return Ok((part, after));
            }
            left = rest;
        }
        let names = LineNames::none().with(LineName::End);
        Err(Refusal::no_line(number + lines, names))
    }
}
