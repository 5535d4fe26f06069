//! Places in a text: its lines, by their numbers.

ghost use Rattle.std.specs.Prelude.{◌≡◌, ◌++◌, ◌<◌, ◌^◌, ℕ, List, drop, length, option_map, take};
ghost use Rattle.trlab_lines.specs.Lines.{line_at, lines_of, IsPlaceOf};

use crate::lines::next_line;

/// The number of lines of a text.
pub fn count_lines(text: &[u8]) -> usize
    ensures { result ≡ length (lines_of text.now) }
{
    let mut left = text;
    let mut count = 0;
    while let Some((_, rest)) = next_line(left) {
        count += 1;
        left = rest;
    }
    count
}

/// A place in a text: a line, the start of the text (line 0), or the end after the last line.
#[derive(Clone, Copy)]
pub struct Place<'a> {
    /// The whole text.
    pub text: &'a [u8],
    /// The number of the line, counted from 1; 0 for the start of the text.
    pub number: u32,
    /// The number of bytes before this place.
    pub start: usize,
    /// The line, without its LF; `None` at the start and at the end of the text.
    pub line: Option<&'a [u8]>,
}

impl<'a> Place<'a> {
    /// The place of the line `number`: for 0 the start of the text, and past the last line its end.
    pub fn at(text: &'a [u8], number: u32) -> Place<'a>
        ensures line { option_map (λ line. line.now) result.line ≡ line_at number (lines_of text.now) }
        ensures place { IsPlaceOf text.now number result }
    {
        let mut left = text;
        let mut ahead = number;
        while let Some((line, rest)) = next_line(left) {
            if ahead <= 1 {
                return Place {
                    text,
                    number,
                    start: text.len().saturating_sub(left.len()),
                    line: if ahead == 0 { None } else { Some(line) },
                };
            }
            ahead -= 1;
            left = rest;
        }
        Place {
            text,
            number,
            start: text.len(),
            line: None,
        }
    }

    /// The lines above this place, each with its LF.
    pub fn above(&self) -> &'a [u8]
        ensures { result.now ≡ take self.now.start self.now.text.now }
    {
        let (above, _) = split(self.text, self.start);
        above
    }

    /// The lines below this place: all lines if it is the start of the text, and none if it is the end.
    pub fn below(&self) -> &'a [u8]
        ensures lines { IsPlaceOf self.now.text.now self.now.number self.now
            → lines_of result.now ≡ drop self.now.number (lines_of self.now.text.now) }
        ensures end { (before : List ℕ) × (self.now.text.now ≡ before ++ result.now) }
    {
        let end = match self.line {
            Some(line) => self.start.saturating_add(line.len()).saturating_add(1),
            None => self.start,
        };
        let (_, below) = split(self.text, end);
        below
    }
}

/// Splits a text after its first `at` bytes, or at its end if it has fewer.
fn split(text: &[u8], at: usize) -> (&[u8], &[u8])
    ensures front { result.0.now ≡ take at text.now }
    ensures back { result.1.now ≡ drop at text.now }
    ensures fits { length text.now < 2 ^ 64 }
{
    text.split_at(at.min(text.len()))
}

/// The `count` bytes of a text after its first `at` bytes, or fewer if the text ends before.
pub fn bytes_at(text: &[u8], at: usize, count: usize) -> &[u8]
    ensures { result.now ≡ take count (drop at text.now) }
{
    let (_, after) = split(text, at);
    let (bytes, _) = split(after, count);
    bytes
}
