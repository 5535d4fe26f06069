//! Excerpts of lines, with their positions for explanations of faults.

ghost use Rattle.std.specs.Prelude.{◌≡◌, Err};
ghost use Rattle.trlab_lines.specs.Lines.{cut, without_prefix};
ghost use Rattle.trlab_texts.specs.Words.{as_word, is_word, number_of, number_within, two_words, within, word_after};
ghost use Rattle.trlab_bounds.specs.declared.texts.TheConstants.{LONGEST_NUMBER};
ghost use Rattle.trlab_texts.specs.Words.{name_and_space};
ghost use Rattle.trlab_texts.specs.Reading.{HasBytesAt};

use crate::fault::Cause;
use crate::line_name::LineName;
use crate::refusal::{Objection, Quantity, Wanted};
use crate::word;
use std::marker::Model;
use trlab_bounds::texts::LONGEST_NUMBER;

/// Some bytes of a line and their position in it, counted in bytes from 0.
#[derive(Drop)]
pub struct Excerpt<'a> {
    line: &'a [u8],
    at: usize,
    bytes: &'a [u8],
}

impl<'a> Model for Excerpt<'a> {
    ghost use Rattle.std.specs.Prelude.{ℕ, List};
    ghost use Rattle.trlab_texts.specs.Reading.{HasBytesAt};

    ghost Value = { List ℕ };

    ghost view = { λ excerpt. excerpt.bytes.now };

    ghost invariant = { λ excerpt. HasBytesAt excerpt.line.now excerpt.at excerpt.bytes.now };
}

impl<'a> Excerpt<'a> {
    /// The whole line.
    pub fn of(line: &'a [u8]) -> Excerpt<'a>
        ensures { result ≡ line.now }
    {
        Excerpt {
            line,
            at: 0,
            bytes: line,
        }
    }

    /// The line, and the position of the excerpt in it.
    pub fn place(&self) -> (&'a [u8], usize)
        ensures { HasBytesAt result.0.now result.1 self.now }
    {
        (self.line, self.at)
    }

    /// The only word after the name of a line; the name ends with a space.
    ///
    /// # Errors
    ///
    /// `Cause::Line` for anything else.
    pub fn word_after(&self, name: &[u8]) -> Result<Excerpt<'a>, Objection<'a>>
        ensures { result ≡ word_after name.now self.now }
    {
        match self.after(name) {
            Some(word) => {
                if word.is_word() {
                    Ok(word)
                } else {
                    Err(Objection::no_line())
                }
            }
            None => Err(Objection::no_line()),
        }
    }

    /// The number from `low` to `high` that is the only word after the name of a line.
    ///
    /// # Errors
    ///
    /// `Cause::Line` unless one word follows the name, `Cause::Number` for any other word.
    pub fn number_after(
        name: LineName,
        low: u32,
        high: u32,
        line: &'a [u8],
    ) -> Result<u32, Objection<'a>>
        ensures { result ≡ number_within low high (word_after (name_and_space name) line.now) }
    {
        let word = Excerpt::of(line).word_after(name.name_and_space())?;
        word.number(low, high, Quantity::Other)
    }

    /// The bytes of the excerpt, without the rest of the line.
    pub fn bytes(&self) -> &'a [u8]
        ensures { result.now ≡ self.now }
    {
        self.bytes
    }

    /// The excerpt after a prefix, if it has this prefix.
    pub fn after(&self, prefix: &[u8]) -> Option<Excerpt<'a>>
        ensures { result ≡ without_prefix prefix.now self.now }
    {
        let bytes = word::without_prefix(prefix, self.bytes)?;
        Some(Excerpt {
            line: self.line,
            at: self.at + prefix.len(),
            bytes,
        })
    }

    /// The excerpts before and after the first occurrence of a byte.
    pub fn cut(&self, byte: u8) -> Option<(Excerpt<'a>, Excerpt<'a>)>
        ensures { result ≡ cut byte self.now }
    {
        let (front, back) = trlab_lines::cut(self.bytes, byte)?;
        let before = Excerpt {
            line: self.line,
            at: self.at,
            bytes: front,
        };
        let after = Excerpt {
            line: self.line,
            at: self.at + front.len() + 1,
            bytes: back,
        };
        Some((before, after))
    }

    /// Whether the excerpt is one word: not empty, and without spaces.
    pub fn is_word(&self) -> bool
        ensures { result ≡ is_word self.now }
    {
        word::is_word(self.bytes)
    }

    /// The excerpt, if it is one word.
    pub fn as_word(self) -> Option<Excerpt<'a>>
        ensures { result ≡ as_word self.entry }
    {
        if self.is_word() { Some(self) } else { None }
    }

    /// Its two words, if it consists of two words and one space between them.
    pub fn two_words(&self) -> Option<(Excerpt<'a>, Excerpt<'a>)>
        ensures { result ≡ two_words self.now }
    {
        let (first, second) = self.cut(b' ')?;
        if first.is_word() && second.is_word() {
            Some((first, second))
        } else {
            None
        }
    }

    /// Its value, if it is a number from `low` to `high`.
    ///
    /// # Errors
    ///
    /// `Cause::Number` for anything else.
    #[tactic(auto, using(crate::proofs::Places::only_number))]
    pub fn number(self, low: u32, high: u32, quantity: Quantity) -> Result<u32, Objection<'a>>
        ensures { result ≡ within low high (number_of self.entry) }
    {
        match word::number_from(low, high, self.bytes) {
            Ok(n) => Ok(n),
            Err(_) => Err(self.not_a_number(u64::from(low), u64::from(high), quantity)),
        }
    }

    /// Its value, if it is a number of at most `MAX_DIGITS` digits.
    ///
    /// # Errors
    ///
    /// `Cause::Number` for anything else.
    #[tactic(auto, using(crate::proofs::Places::only_number))]
    pub fn long_number(self) -> Result<u64, Objection<'a>>
        ensures { result ≡ within 0 LONGEST_NUMBER (number_of self.entry) }
    {
        match word::long_number(self.bytes) {
            Ok(n) => Ok(n),
            Err(_) => Err(self.not_a_number(0, LONGEST_NUMBER, Quantity::Other)),
        }
    }

    /// The objection that these bytes are not a key.
    pub fn not_a_key(self) -> Objection<'a>
        ensures { result ≡ Cause.Key }
    {
        Objection::new(Cause::Key, Wanted::Digits(self))
    }

    /// The objection that these bytes are not hexadecimal digits, two per byte.
    pub fn no_hex(self) -> Objection<'a>
        ensures { result ≡ Cause.Hex }
    {
        Objection::new(Cause::Hex, Wanted::Digits(self))
    }

    /// The objection that these bytes are not a number from `least` to `most`.
    fn not_a_number(self, least: u64, most: u64, quantity: Quantity) -> Objection<'a>
        requires { within least most (number_of self) ≡ Err Cause.Number }
        ensures { result ≡ Cause.Number }
    {
        let wanted = Wanted::Number {
            word: self,
            least,
            most,
            quantity,
        };
        Objection::new(Cause::Number, wanted)
    }
}
