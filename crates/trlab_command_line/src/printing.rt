//! Help, messages for arguments that are rejected, and the exit statuses: the numbers of `End`, and 2 for arguments
//! that are rejected.

ghost use Rattle.std.specs.Prelude.{◌≡◌, false};
ghost use Rattle.clap.specs.Words.{kind_of};
ghost use Rattle.trlab_campaign.specs.Ending.{WroteAtEnd, LeavesWriter};
ghost use Rattle.trlab_campaign.specs.Writers.{AddsNone, bytes_of};
ghost use Rattle.trlab_campaign.specs.declared.end.End.TheVariants.{Memory};
ghost use Rattle.trlab_command_line.specs.Ends.{IsHelp, PrintEnds, status_of_end, status_of_error};

use clap::Error;
use clap::error::ErrorKind;
use std::alloc::{AllocGlobal, Global};
use trlab_campaign::{End, Sink, write_output};

/// The exit status of arguments that are rejected.
pub const REJECTED_ARGUMENTS: u8 = 2;

/// The exit status of a command, by how it ended.
pub fn status_of_end(end: End) -> u8
    ensures { result ≡ status_of_end end }
{
    end as u8
}

/// The exit status of arguments that `clap` does not accept as a command: 0 if they ask for help or the version, 3 if
/// an allocation failed, and otherwise 2.
pub fn status_of_error(error: &Error) -> u8
    ensures { result ≡ status_of_error (kind_of error.now) }
{
    match error.kind() {
        ErrorKind::DisplayHelp | ErrorKind::DisplayVersion => status_of_end(End::Done),
        ErrorKind::OutOfMemory => status_of_end(End::Memory),
        _ => REJECTED_ARGUMENTS,
    }
}

/// Writes the requested help or version, and flushes the writer.
fn write_help<K: Sink>(alloc: Global, error: &Error, writer: &mut K) -> End
    requires { K.failed writer.old ≡ false }
    ensures ends { LeavesWriter K.Sink (WroteAtEnd IsHelp) result writer.old writer.new }
    ensures kept { result ≡ Memory → AddsNone (bytes_of K.Sink writer.old) (bytes_of K.Sink writer.new) }
{
    match error.to_string(alloc) {
        Ok(text) => write_output(false, text.as_bytes(), writer),
        Err(_) => End::Memory,
    }
}

/// The commands that read standard input and take no file name.
const INPUT_COMMANDS: [&[u8]; 4] = [b"check", b"run", b"sweep", b"series"];

/// The options whose value is a number, each with the range of its value in words. The value is the next argument, as
/// in `--every 5`, or comes after `=`, as in `--every=5`.
const NUMBER_OPTIONS: [(&str, &str); 4] = [
    ("--workers", "1 to 16"),
    ("--runners", "1 to 16"),
    ("--every", "1 to 500000"),
    ("--from", "0 to 500000"),
];

/// The bytes of an argument after the name of one of the `NUMBER_OPTIONS`: none for `--every`, and `=5` for
/// `--every=5`. `None` for any other argument.
fn after_number_option(word: &[u8]) -> Option<&[u8]> {
    for (option, _) in &NUMBER_OPTIONS {
        if let Some(rest) = word.strip_prefix(option.as_bytes()) {
            return Some(rest);
        }
    }
    None
}

/// The first of a command's arguments that is neither an option nor the value of an option, and so is probably the name
/// of a file. `None` if an unknown option comes before it, because it may be the value of that option.
fn file_name(arguments: &[String]) -> Option<&str> {
    let mut is_value = false;
    for argument in arguments {
        let word = argument.as_bytes();
        match after_number_option(word) {
            Some(rest) if rest.is_empty() => is_value = true,
            _ if is_value => is_value = false,
            _ if word.first() != Some(&b'-') => return Some(argument),
            Some(rest) if rest.first() == Some(&b'=') => {}
            _ if word == b"--progress".as_slice() => {}
            _ => return None,
        }
    }
    None
}

/// Prints on standard error how to read a file, if an argument is probably a file name.
fn suggest_redirection<R: AllocGlobal + Eprint>(rt: &R, arguments: &[String]) {
    if let Some((command, rest)) = arguments.split_first()
        && INPUT_COMMANDS.contains(&command.as_bytes())
        && let Some(name) = file_name(rest)
    {
        let _ = eprintln!(rt; "trlab reads standard input. Type: trlab {command} < {name}");
    }
}

/// The argument of `explain` whose value is a number, as `clap` shows it.
const EXPLAIN_NUMBER: &str = "[number]";

/// The range in words of the number after `explain cause` or `explain reason`.
const EXPLAIN_NUMBER_RANGE: &str = "0 to 4294967295";

/// The range in words of the option or argument that `clap` shows as `shown`, for example `--every <n>`.
fn range_of(shown: &str) -> Option<&'static str> {
    for (option, range) in &NUMBER_OPTIONS {
        if shown.starts_with(*option) {
            return Some(*range);
        }
    }
    if shown == EXPLAIN_NUMBER {
        Some(EXPLAIN_NUMBER_RANGE)
    } else {
        None
    }
}

/// Prints on standard error why arguments are rejected. If a number is wrong, the message has its range in words,
/// because `clap` writes a range as `1..=16`, or not at all.
fn print_error<R: AllocGlobal + Eprint>(rt: &R, error: &Error) {
    // The text is `error: invalid value 'VALUE' for 'OPTION <n>': REASON`, and VALUE may be any text.
    if error.kind() == ErrorKind::ValueValidation
        && let Ok(text) = error.to_string(rt.alloc())
        && let Some((front, back)) = text.as_str().rsplit_once(" for '")
        && let Some((shown, _)) = back.split_once('\'')
        && let Some(range) = range_of(shown)
    {
        let _ = eprintln!(rt;
            "{front} for '{shown}': it must be a whole number from {range}\n\n\
             For more information, try '--help'."
        );
    } else {
        let _ = rt.eprint(error);
    }
}

/// Prints help or the version to `writer` if the arguments ask for it; otherwise prints to standard error why they are
/// rejected. Returns the exit status. If that is 3 (an allocation failed), nothing was written to `writer`.
pub fn print_help_or_error<R: AllocGlobal + Eprint, K: Sink>(
    rt: &R,
    arguments: &[String],
    error: &Error,
    writer: &mut K,
) -> u8
    requires { K.failed writer.old ≡ false }
    ensures { PrintEnds K.Sink (kind_of error.now) result writer.old writer.new }
{
    match error.kind() {
        ErrorKind::DisplayHelp | ErrorKind::DisplayVersion => {
            status_of_end(write_help(rt.alloc(), error, writer))
        }
        ErrorKind::OutOfMemory => status_of_end(End::Memory),
        _ => {
            print_error(rt, error);
            suggest_redirection(rt, arguments);
            status_of_error(error)
        }
    }
}
