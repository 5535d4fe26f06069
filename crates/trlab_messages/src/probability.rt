//! Probabilities as decimals.

use crate::amount::Amount;
use crate::sentence::Draft;
use trlab_bounds::programs::CERTAIN;

/// A probability above 0 and at most this many parts of 2^31 (one in a million) is probably a mistake.
const SUSPICIOUSLY_SMALL: u32 = 2147;

/// The number of decimals of a printed probability: enough to distinguish any two of them.
const DECIMALS: u32 = 11;

/// Adds a probability with its name. The input states it as a multiple of 2^-31.
pub fn push_probability(facts: &mut Draft, name: &str, parts: u32) {
    let probability = Amount::of(u64::from(parts), u64::from(CERTAIN), DECIMALS);
    let warning = if 0 < parts && parts <= SUSPICIOUSLY_SMALL {
        " Warning: less than one in a million. 2147483648 means always."
    } else {
        ""
    };
    writeln!(facts, "  {name} = {probability} ({parts}).{warning}");
}
