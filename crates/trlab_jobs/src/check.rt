//! Check texts: a program, and the question about it.

ghost use Rattle.std.specs.Prelude.{◌≡◌, ◌<◌, ◌≤◌, Err, length};
ghost use Rattle.trlab_lines.specs.Lines.{lines_of};
ghost use Rattle.trlab_jobs.specs.Check.{CheckLinesParseTo, ParsesAsCheck, LoneCodeParsesTo, ProgramParsesTo, heading_kind, question_of};
ghost use Rattle.trlab_texts.specs.Reading.{Reports};
ghost use Rattle.trlab_bounds.specs.declared.texts.TheConstants.{TEXT_LIMIT};

use std::alloc::Global;
use std::marker::Model;
use trlab_bounds::texts::TEXT_LIMIT;
use trlab_code::{Code, Kind};
use trlab_lines::next_line;
use trlab_texts::program::{is_heading, parse_code, program_after};
use trlab_texts::{Cause, Excerpt, LineName, LineNames, Refusal, TextFault};

/// The question about a program.
#[derive(Clone, Copy, PartialEq, Eq)]
pub enum Question {
    /// Whether the verifier accepts it.
    Verdict,
    /// The verdict, and the notes of the verifier: its knowledge before each instruction.
    Notes,
}

/// A program and a question about it.
#[derive(Drop)]
pub struct Check {
    pub question: Question,
    /// The program, of either kind.
    pub code: Code,
}

impl Model for Check {
    ghost use Rattle.trlab_jobs.specs.Check.{Check as Request, check_of};

    ghost Value = { Request };

    ghost view = { λ check. check_of check.question check.code };
}

/// Splits the first line of a check text: with the prefix `notes ` it asks for notes, otherwise only for the
/// verdict.
fn read_question<'a>(line: Excerpt<'a>) -> (Question, Excerpt<'a>)
    ensures { result ≡ question_of line.entry }
{
    match line.after(b"notes ") {
        Some(rest) => (Question::Notes, rest),
        None => (Question::Verdict, line),
    }
}

/// The kind of the block that a line begins, if it begins one.
fn heading_kind(line: &[u8]) -> Option<Kind>
    ensures { result ≡ heading_kind line.now }
{
    if is_heading(Kind::Motion, line) {
        Some(Kind::Motion)
    } else if is_heading(Kind::Change, line) {
        Some(Kind::Change)
    } else {
        None
    }
}

/// The names with which a check text may begin.
fn headings() -> LineNames {
    LineNames::none()
        .with(LineName::Motion)
        .with(LineName::Change)
}

/// The program of the line `code X`, which must be the only line of the text.
fn lone_code<'a>(alloc: Global, line: &Excerpt<'a>, rest: &[u8]) -> Result<Code, Refusal<'a>>
    ensures { Reports (LoneCodeParsesTo line.now (lines_of rest.now)) result }
{
    match parse_code(alloc, line) {
        Ok(Ok(code)) => {
            if rest.is_empty() {
                Ok(code)
            } else {
                Err(Refusal::no_line(2, LineNames::none()))
            }
        }
        Ok(Err(objection)) => Err(objection.at(1, headings())),
        Err(_) => Err(Refusal::memory()),
    }
}

/// The program that begins with `line`; a block continues in the lines of `rest`.
fn read_program<'a>(alloc: Global, line: &Excerpt<'a>, rest: &'a [u8]) -> Result<Code, Refusal<'a>>
    requires { length rest.now ≤ TEXT_LIMIT }
    ensures { Reports (ProgramParsesTo line.now (lines_of rest.now)) result }
{
    match heading_kind(line.bytes()) {
        Some(kind) => program_after(alloc, kind, 1, rest),
        None => lone_code(alloc, line, rest),
    }
}

/// Reads the lines of a check text of at most `TEXT_LIMIT` bytes.
fn read_lines(alloc: Global, text: &[u8]) -> Result<Check, Refusal<'_>>
    requires { length text.now ≤ TEXT_LIMIT }
    ensures { Reports (CheckLinesParseTo (lines_of text.now)) result }
{
    let Some((first, rest)) = next_line(text) else {
        return Err(Refusal::no_line(1, headings()));
    };
    let (question, line) = read_question(Excerpt::of(first));
    let code = read_program(alloc, &line, rest)?;
    Ok(Check { question, code })
}

/// Reads a check text. A refusal includes the input that was wanted at the fault.
///
/// # Errors
///
/// A refusal with the first fault of the text: `TooBig` at line 0 if the text is too long, in which case nothing is
/// read, and otherwise a cause at its line. The fault is `TextFault::Memory` if an allocation fails.
pub fn parse_check(alloc: Global, text: &[u8]) -> Result<Check, Refusal<'_>>
    ensures reported { Reports (ParsesAsCheck text.now) result }
    ensures too_big { TEXT_LIMIT < length text.now → result ≡ Err (TextFault.At 0 Cause.TooBig) }
{
    if text.len() > TEXT_LIMIT {
        return Err(Refusal::bare(TextFault::At {
            line: 0,
            cause: Cause::TooBig,
        }));
    }
    read_lines(alloc, text)
}

/// Reads a check text like [`parse_check`]. The error does not include the wanted input.
///
/// # Errors
///
/// The fault of [`parse_check`].
pub fn read_check(alloc: Global, text: &[u8]) -> Result<Check, TextFault>
    ensures reported { Reports (ParsesAsCheck text.now) result }
    ensures too_big { TEXT_LIMIT < length text.now → result ≡ Err (TextFault.At 0 Cause.TooBig) }
{
    match parse_check(alloc, text) {
        Ok(check) => Ok(check),
        Err(refusal) => Err(refusal.fault()),
    }
}
