//! The arguments of `explain`.

ghost use Rattle.std.specs.Prelude.{◌≡◌, IfOk, Ok, codes, option_map};
ghost use Rattle.clap.specs.Words.{FailsBy, found_of, kind_of, rows_of};
ghost use Rattle.trlab_command_line.specs.CommandLine.{error_kinds, explain_request, request_from_matches, subject_of_command, topic_named};
ghost use Rattle.trlab_command_line.specs.CommandLine.{HasFlagValue, MayHaveNumber};

use crate::arguments::commands::explain_command;
use crate::arguments::matches::{argument_number, is_flag_given};
use clap::error::ErrorKind;
use clap::{ArgMatches, Error};
use std::alloc::{AllocError, Global};
use trlab_explain::{Form, Topic};
use trlab_jobs::Subject;

/// A request for an explanation.
#[derive(Clone, Copy)]
pub enum ExplainRequest {
    /// Explain the input on standard input in this form. Without a subject, its first word outside comments
    /// determines its kind.
    Text(Option<Subject>, Form),
    /// Explain the cause or the reason with this number.
    Number(Topic, u32),
}

/// The kind of input that the command of this name reads; `None` for a name other than `run`, `sweep` and `check`.
fn subject_of_command(name: &[u8]) -> Option<Subject>
    ensures { result ≡ subject_of_command name.now }
{
    if name == b"run".as_slice() {
        Some(Subject::Job)
    } else if name == b"sweep".as_slice() {
        Some(Subject::Sweep)
    } else if name == b"check".as_slice() {
        Some(Subject::Check)
    } else {
        None
    }
}

/// The topic of this name, `cause` or `reason`; `None` for any other name.
fn topic_named(name: &[u8]) -> Option<Topic>
    ensures { result ≡ topic_named name.now }
{
    if name == b"cause".as_slice() {
        Some(Topic::Cause)
    } else if name == b"reason".as_slice() {
        Some(Topic::Reason)
    } else {
        None
    }
}

/// The request of the two arguments of `explain` and the flag `--json`, or the kind of error if they do not go
/// together.
fn explain_request(
    what: Option<&str>,
    number: Option<u32>,
    is_json: bool,
) -> Result<ExplainRequest, ErrorKind>
    ensures { result ≡ explain_request (option_map (λ s. s.now) what.entry) number is_json }
{
    let form = if is_json { Form::Json } else { Form::Text };
    let Some(what) = what else {
        return Ok(ExplainRequest::Text(None, form));
    };
    let name = what.as_bytes();
    match (subject_of_command(name), topic_named(name), number) {
        (Some(subject), _, None) => Ok(ExplainRequest::Text(Some(subject), form)),
        (Some(_), _, Some(_)) => Err(ErrorKind::UnknownArgument),
        (None, Some(_), _) if is_json => Err(ErrorKind::ArgumentConflict),
        (None, Some(topic), Some(number)) => Ok(ExplainRequest::Number(topic, number)),
        (None, Some(_), None) => Err(ErrorKind::MissingRequiredArgument),
        (None, None, _) => Err(ErrorKind::InvalidValue),
    }
}

/// The message for arguments of `explain` that do not go together, as `explain_request` found; `what` is the first
/// argument.
fn error_text(alloc: Global, kind: ErrorKind, what: &str) -> Result<String, AllocError> {
    match kind {
        ErrorKind::UnknownArgument => { format!(in alloc; "`explain {what}` takes no number") }
        ErrorKind::ArgumentConflict => { format!(in alloc; "`explain {what}` takes no --json") }
        ErrorKind::MissingRequiredArgument => {
            format!(in alloc;
                "`explain {what}` needs a number, for example `trlab explain {what} 1`"
            )
        }
        _ => format!(in alloc;
            "unknown word {what:?} after `explain`\n  \
             [possible words: run, sweep, check, cause, reason]\n  \
             To explain a file, type: trlab explain < FILE"
        ),
    }
}

/// An error of this kind, in the form of `clap`'s own errors for `explain`; `what` is the first argument.
fn explain_error(alloc: Global, kind: ErrorKind, what: Option<&str>) -> Result<Error, AllocError>
    ensures { IfOk result (λ error. kind_of error ≡ kind) }
{
    let text = error_text(alloc, kind, what.unwrap_or(""))?;
    let mut command = explain_command(alloc)?;
    command.error(kind, &text)
}

/// The request for `explain`, by its matches.
///
/// # Errors
///
/// If its arguments do not go together, or an allocation fails.
pub fn explain_request_from_matches(
    alloc: Global,
    matches: &ArgMatches,
) -> Result<ExplainRequest, Error>
    requires number { MayHaveNumber (codes "number") (rows_of (found_of matches.now)) }
    requires json { HasFlagValue (codes "json") (rows_of (found_of matches.now)) }
    ensures answer { IfOk result (λ asked. request_from_matches (rows_of (found_of matches.now)) ≡ Ok asked) }
    ensures fault { FailsBy (error_kinds (request_from_matches (rows_of (found_of matches.now)))) result }
{
    let what = matches.get_str("what");
    let number = argument_number(matches, "number");
    match explain_request(what, number, is_flag_given(matches, "json")) {
        Ok(asked) => Ok(asked),
        Err(kind) => Err(explain_error(alloc, kind, what)?),
    }
}
