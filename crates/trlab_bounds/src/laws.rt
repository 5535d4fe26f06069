//! The limits as numbers. Definitions name the constants, so changing a constant would change their meaning; these laws
//! prevent that.
//!
//! Each law is the contract of a function with an empty body.

ghost use Rattle.std.specs.Prelude.{◌≡◌, ◌+◌, ◌*◌, ◌^◌, codes};

use crate::programs::{
    CERTAIN, HEADER_BYTES, HEADSPEED_VERSION, INSTR_BYTES, LONGEST_LABEL, MAGIC, MAX_DIGITS,
    MAX_INSTRUCTIONS, MAX_NUMBER, PLAIN_VERSION, VARIABLES, WORDS,
};
use crate::roads::{MAX_GAP, MAX_LANES, MAX_LENGTH, MAX_LIMIT};
use crate::runs::{MAX_LATER, MAX_RUNNERS, MAX_STEPS, MAX_WORKERS};
use crate::texts::{LONGEST_NUMBER, TEXT_LIMIT};

/// The limits of roads. A gap is at most all other cells of the longest lane.
pub fn roads()
    ensures limit { MAX_LIMIT ≡ 35 }
    ensures length { MAX_LENGTH ≡ 100000 }
    ensures lanes { MAX_LANES ≡ 2 }
    ensures gap { MAX_GAP + 1 ≡ MAX_LENGTH }
{}

/// The limits of programs.
pub fn programs()
    ensures instructions { MAX_INSTRUCTIONS ≡ 128 }
    ensures variables { VARIABLES ≡ 15 }
    ensures words { WORDS ≡ 16 }
    ensures certain { CERTAIN ≡ 2 ^ 31 }
{}

/// The bytes of encoded programs.
pub fn encodings()
    ensures magic { MAGIC ≡ codes "TRLB" }
    ensures version { PLAIN_VERSION ≡ 1 }
    ensures headspeed { HEADSPEED_VERSION ≡ 2 }
    ensures header { HEADER_BYTES ≡ 8 }
    ensures instruction { INSTR_BYTES ≡ 8 }
{}

/// The limits of program texts.
pub fn program_texts()
    ensures greatest { MAX_NUMBER + 1 ≡ 2 ^ 32 }
    ensures digits { MAX_DIGITS ≡ 10 }
    ensures label { LONGEST_LABEL ≡ 32 }
{}

/// The limits of inputs: 4 MiB, and numbers of ten digits.
pub fn texts()
    ensures text { TEXT_LIMIT ≡ 4 * 2 ^ 20 }
    ensures longest { LONGEST_NUMBER + 1 ≡ 10 ^ 10 }
{}

/// The limits of runs.
pub fn runs()
    ensures steps { MAX_STEPS ≡ 500000 }
    ensures later { MAX_LATER ≡ 1023 }
    ensures workers { MAX_WORKERS ≡ 16 }
    ensures runners { MAX_RUNNERS ≡ 16 }
{}
