//! The random words of a car in a step, and random events on them.
//!
//! ```text
//! let (road, car, step) = (0, 0, 0);
//! let words = words(&Key([0; 32]), road, car, step); // 2917185654, 2419978656, ..
//! let brakes = happens(words[0], Chance::new(CERTAIN / 4)?); // with probability 1/4
//! ```
#![tactic(auto)]

mod block;
mod chance;
mod key;
mod lanes;
mod step_start;

pub use chance::{Chance, happens};
pub use key::{Key, PreparedKey, word_of_cars, words};
pub use trlab_bounds::programs::CERTAIN;
