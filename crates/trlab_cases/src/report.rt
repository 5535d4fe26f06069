//! The output of a call.

use std::alloc::{AllocError, Global};

/// The outcome of a call, which is printed above its output as `done` or `refused`.
#[derive(Clone, Copy)]
pub enum Outcome {
    Done,
    Refused,
}

/// The output of a call. If an allocation fails, writing continues, but the output is discarded at the end.
#[derive(Drop)]
pub struct Report {
    pub alloc: Global,
    pub bytes: Vec<u8>,
    /// Whether an allocation has failed.
    pub is_incomplete: bool,
}

impl Report {
    /// An empty report.
    pub fn new(alloc: Global) -> Report {
        Report {
            alloc,
            bytes: Vec::new(alloc),
            is_incomplete: false,
        }
    }

    /// Records that an allocation failed. The outcome that it returns is not printed.
    pub fn fail(&mut self) -> Outcome {
        self.is_incomplete = true;
        Outcome::Refused
    }

    /// Appends bytes.
    pub fn push_bytes(&mut self, bytes: &[u8]) {
        if self.bytes.extend_from_slice(bytes).is_err() {
            self.is_incomplete = true;
        }
    }

    /// Appends a string.
    pub fn push_str(&mut self, text: &str) {
        self.push_bytes(text.as_bytes());
    }

    /// Appends a string, or records that its allocation failed.
    pub fn push_allocated(&mut self, text: Result<String, AllocError>) {
        match text {
            Ok(text) => self.push_str(text.as_str()),
            Err(_) => self.is_incomplete = true,
        }
    }

    /// Appends a string and then a number in decimal.
    pub fn push_number(&mut self, words: &str, number: u32) {
        self.push_str(words);
        self.push_allocated(number.to_string(self.alloc));
    }

    /// Appends the last words, and returns `outcome`.
    pub fn finish(&mut self, outcome: Outcome, words: &str) -> Outcome {
        self.push_str(words);
        outcome
    }
}
