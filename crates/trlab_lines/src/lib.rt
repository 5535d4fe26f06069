//! Lines of a text with their places, words and numbers, and pages of printable ASCII, which may quote any bytes.
//!
//! ```text
//! let (line, rest) = next_line(b"road 1\nlanes 2\n")?; // "road 1" and "lanes 2\n"
//! let (name, number) = cut(line, b' ')?; // "road" and "1"
//! ```
#![tactic(auto)]

pub mod laws;
mod lines;
mod oddity;
mod page;
mod place;

pub use lines::{
    cut, digits_value, is_numeral, label_and_rest, name_and_operands, next_line, only_word,
    up_to_blank, without_comment, without_indent,
};
pub use oddity::{Oddity, oddity_of};
pub use page::{MAX_QUOTED, Page};
pub use place::{Place, bytes_at, count_lines};
