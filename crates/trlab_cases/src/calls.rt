//! The calls of the input, and their answers.

use crate::programs::{write_assembled, write_decoded, write_notes};
use crate::report::{Outcome, Report};
use crate::roads::{write_even_road, write_parsed_road};
use crate::steps::write_step;
use std::alloc::{AllocError, AllocGlobal, Global};
use std::io;
use std::io::Write;
use trlab_code::Kind;

/// Makes the call that `words` name with a text, and writes its output.
fn write_answer(report: &mut Report, words: &str, text: &str) -> Outcome {
    match words {
        "motion" => write_assembled(report, Kind::Motion, text.as_bytes()),
        "change" => write_assembled(report, Kind::Change, text.as_bytes()),
        "code" => write_decoded(report, text.as_bytes()),
        "notes motion" => write_notes(report, Kind::Motion, text.as_bytes()),
        "notes change" => write_notes(report, Kind::Change, text.as_bytes()),
        "road" => write_parsed_road(report, text),
        "even" => write_even_road(report, text),
        "step" => write_step(report, text.as_bytes()),
        _ => report.finish(Outcome::Refused, "no such call\n"),
    }
}

/// The current call: its words, and the lines of its text so far.
#[derive(Drop)]
pub struct PendingCall<'a> {
    words: &'a str,
    text: String,
}

impl<'a> PendingCall<'a> {
    /// No call yet.
    pub fn new(alloc: Global) -> PendingCall<'a> {
        PendingCall {
            words: "",
            text: String::new(alloc),
        }
    }

    /// Begins a new call if there are words, and appends a line to the text.
    fn push_line(&mut self, words: &'a str, line: &str) -> Result<(), AllocError> {
        if !words.is_empty() {
            self.words = words;
            self.text.clear();
        }
        self.text.push_str(line)?;
        self.text.push('\n')
    }

    /// Reads a line of the input, and prints it; for a line `?`, makes the current call and prints its answer instead.
    pub fn take(&mut self, rt: &(impl AllocGlobal + Print), line: &'a str) -> io::Result<()> {
        if line == "?" {
            return self.print_answer(rt);
        }
        if let Some((words, text)) = line.split_once("| ") {
            self.push_line(words.trim(), text)?;
        }
        println!(rt; "{line}")
    }

    /// Makes the current call, and prints its answer.
    fn print_answer(&self, rt: &(impl AllocGlobal + Print)) -> io::Result<()> {
        let mut report = Report::new(rt.alloc());
        let words = match write_answer(&mut report, self.words, self.text.as_str()) {
            Outcome::Done => "done",
            Outcome::Refused => "refused",
        };
        if report.is_incomplete {
            return Err(io::Error::from(AllocError));
        }
        println!(rt; "{words}")?;
        io::writer(rt).write_all(&report.bytes)
    }
}
