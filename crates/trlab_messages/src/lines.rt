//! The lines of an input, with their numbers.

use crate::Result;
use std::alloc::Global;
use trlab_lines::{name_and_operands, next_line};
use trlab_texts::word::head_word;

/// A line and its number.
#[derive(Clone, Copy)]
pub struct NumberedLine<'a> {
    pub number: u32,
    pub line: &'a [u8],
}

/// The lines of a text that are not read yet.
#[derive(Clone, Copy)]
pub struct UnreadLines<'a> {
    unread: &'a [u8],
    /// The number of the line above them.
    above: u32,
}

impl<'a> UnreadLines<'a> {
    /// The lines of `text`, which is below the line `above`; 0 for a whole text.
    pub fn below(above: u32, text: &'a [u8]) -> UnreadLines<'a> {
        UnreadLines {
            unread: text,
            above,
        }
    }

    /// Reads the next line.
    pub fn read(&mut self) -> Option<NumberedLine<'a>> {
        let (line, unread) = next_line(self.unread)?;
        self.unread = unread;
        self.above = self.above.saturating_add(1);
        Some(NumberedLine {
            number: self.above,
            line,
        })
    }

    /// Reads the lines up to the first one that begins with `word`, and returns that one.
    pub fn read_to(&mut self, word: &[u8]) -> Option<NumberedLine<'a>> {
        // There are no more lines than bytes.
        for _ in 0..self.unread.len() {
            let line = self.read()?;
            if head_word(line.line) == word {
                return Some(line);
            }
        }
        None
    }

    /// Reads the lines of the next `count` instructions, and returns them without the empty ones between them.
    pub fn read_instructions(
        &mut self,
        alloc: Global,
        count: usize,
    ) -> Result<Vec<NumberedLine<'a>>> {
        let mut lines = Vec::new(alloc);
        // There are no more lines than bytes.
        for _ in 0..self.unread.len() {
            if lines.len() >= count {
                break;
            }
            let Some(line) = self.read() else {
                break;
            };
            if !name_and_operands(line.line).0.is_empty() {
                lines.push(line)?;
            }
        }
        Ok(lines)
    }
}
