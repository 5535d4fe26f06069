//! Chances, which are probabilities times 2^31, and the random words on which they happen.

ghost use Rattle.std.specs.Prelude.{◌≡◌, ◌↔◌, ◌≤◌, ℕ, IsSome, IfSome};
ghost use Rattle.trlab_words.specs.Words.{happens_on};
ghost use Rattle.trlab_bounds.specs.declared.programs.TheConstants.{CERTAIN};

use std::marker::Model;
use trlab_bounds::programs::CERTAIN;

/// A probability times 2^31: from 0, which never happens, to `CERTAIN`.
#[derive(Clone, Copy, Debug, PartialEq, Eq)]
pub struct Chance {
    parts: u32,
}

impl Model for Chance {
    ghost Value = { ℕ };

    ghost view = { λ chance. chance.parts };

    ghost invariant = { λ chance. chance.parts ≤ CERTAIN };

    ghost inverse = { λ parts. record { parts = parts } };
}

impl Chance {
    /// The probability `parts` / 2^31, or `None` if that is more than 1.
    pub fn new(parts: u32) -> Option<Chance>
        ensures in_range { IsSome result ↔ (parts ≤ CERTAIN) }
        ensures value { IfSome result (λ chance. chance ≡ parts) }
    {
        if parts <= CERTAIN {
            Some(Chance { parts })
        } else {
            None
        }
    }

    /// The probability times 2^31.
    pub fn get(self) -> u32
        ensures value { result ≡ self }
        ensures in_range { result ≤ CERTAIN }
    {
        self.parts
    }
}

/// Whether an event of this probability happens on a random word: it does if half of the word, rounded down, is below
/// the probability times 2^31.
pub fn happens(word: u32, chance: Chance) -> bool
    ensures { result ≡ happens_on chance word }
{
    word / 2 < chance.parts
}
