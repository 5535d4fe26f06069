//! The program `trlab`: executes the request of its arguments, with standard input and standard output.
#![tactic(auto)]

ghost use Rattle.std.specs.Prelude.{◌≡◌, ◌↔◌, ◌||◌, true, false, IfErr, IfOk, OnErr, map, string_bytes};
ghost use Rattle.clap.specs.Words.{FailsBy, kind_of, subcommand_of};
ghost use Rattle.trlab_command_line.specs.CommandLine.{command_line};
ghost use Rattle.trlab_command_line.specs.Ends.{EndsWithStatus, PrintEnds};
ghost use Rattle.trlab_command_line.specs.CommandLine.{FitsEngines, IsRequestOf, arguments_fault, reads_input};

use clap::Error;
use std::alloc::Global;
use std::io::{BufWriter, IsTerminal, Write};
use std::process::ExitCode;
use std::rt::Env;
use std::sync::Wait;
use std::thread::Threads;
use std::{env, io};
use trlab_campaign::{End, Milestone, ProgressObserver, Sink, Source, Watched};
use trlab_command_line::{
    ExplainRequest, REJECTED_ARGUMENTS, Request, execute, print_help_or_error, read_words,
    status_of_end,
};

/// The number of bytes of output that are gathered before they are written, so that few calls of the system are needed.
const BUFFER_SIZE: usize = 65536;

fn main(rt: HostRuntime) -> ExitCode {
    let status = match given_arguments(&rt) {
        Ok(arguments) => {
            let request = read_words(rt.alloc(), &arguments);
            match buffered(rt.alloc(), rt.stdout(), is_live(&request)) {
                Ok(out) => {
                    let input = rt.stdin();
                    let is_typed = input.is_terminal();
                    let mut reader = Watched::new(input);
                    let mut writer = Watched::new(out);
                    execute_or_report(&rt, &arguments, request, is_typed, &mut reader, &mut writer)
                }
                Err(_) => status_of_end(End::Memory),
            }
        }
        Err(error) if error.kind() == io::ErrorKind::OutOfMemory => status_of_end(End::Memory),
        Err(_) => {
            let _ = eprintln!(rt; "error: a word of the command line is not UTF-8");
            REJECTED_ARGUMENTS
        }
    };
    ExitCode::from(status)
}

/// Whether each line of the output is written as soon as it is complete: the rows of a series can be followed while it
/// runs.
fn is_live(request: &Result<Request, Error>) -> bool {
    matches!(request, Ok(Request::Series { .. }))
}

/// A writer that gathers output before it is written to `out`. It gathers nothing if `is_live` or if `out` is a
/// terminal, so that each step can be watched. Making it fails only if an allocation fails.
fn buffered<W: Write + IsTerminal + Drop>(
    alloc: Global,
    out: W,
    is_live: bool,
) -> io::Result<BufWriter<W>> {
    let capacity = if is_live || out.is_terminal() {
        0
    } else {
        BUFFER_SIZE
    };
    BufWriter::with_capacity(alloc, capacity, out)
}

/// Reports the progress of a command on standard error, in its unit, step or point; without a unit, nothing is
/// reported. A line that cannot be written is ignored.
#[derive(Drop)]
struct ProgressPrinter<'a, R> {
    rt: &'a R,
    unit: Option<&'static str>,
}

impl<R: Eprint> ProgressObserver for ProgressPrinter<'_, R> {
    fn is_watching(&self) -> bool {
        self.unit.is_some()
    }

    fn reached(&self, milestone: Milestone) {
        let Milestone {
            percent,
            number,
            count,
        } = milestone;
        if let Some(unit) = self.unit {
            let _ = eprintln!(self.rt; "trlab: {percent} % ({unit} {number} of {count})");
        }
    }
}

/// The unit in which a command reports its progress; `None` if it does not report it.
fn progress_unit(request: Request) -> Option<&'static str> {
    let (unit, is_reported) = match request {
        Request::Run { has_progress, .. } => ("step", has_progress),
        Request::Series { has_progress, .. } => ("step", has_progress),
        Request::Sweep { has_progress, .. } => ("point", has_progress),
        Request::Check | Request::Explain(_) => return None,
    };
    if is_reported { Some(unit) } else { None }
}

/// Whether a command reads standard input.
fn reads_input(request: Request) -> bool
    ensures { result ≡ reads_input request }
{
    !matches!(request, Request::Explain(ExplainRequest::Number(..)))
}

/// Executes the request of the arguments, or prints help or the error of `clap`. Returns the exit status. If the
/// request reads input and it `is_typed`, a line on standard error first explains how to end the input.
fn execute_or_report<R: AllocGlobal + Threads + Wait + Sync + Eprint, S: Source, K: Sink>(
    rt: &R,
    arguments: &[String],
    request: Result<Request, Error>,
    is_typed: bool,
    reader: &mut S,
    writer: &mut K,
) -> u8
    // `read_words` gives this request for these arguments.
    requires answer { IfOk request (IsRequestOf (subcommand_of command_line (map string_bytes arguments.now))) }
    requires fault { FailsBy (arguments_fault (map string_bytes arguments.now)) request }
    requires counts { IfOk request FitsEngines }
    requires reader_works { S.failed reader.old ≡ false }
    requires writer_works { K.failed writer.old ≡ false }
    ensures requested { IfOk request (λ request.
        EndsWithStatus S.Source K.Sink request result reader.old reader.new writer.old writer.new) }
    ensures rejected { IfErr request (λ error. PrintEnds K.Sink (kind_of error) result writer.old writer.new) }
    ensures unread { OnErr request (reader.new ≡ reader.old) }
    // 4 exactly if a device has failed, for valid and invalid arguments alike.
    ensures device { (result ≡ 4) ↔ ((S.failed reader.new || K.failed writer.new) ≡ true) }
{
    match request {
        Ok(request) => {
            if is_typed && reads_input(request) {
                let _ = eprintln!(rt;
                    "trlab: type the input and end it with Ctrl-D, or read a file with < FILE"
                );
            }
            let progress = ProgressPrinter {
                rt,
                unit: progress_unit(request),
            };
            status_of_end(execute(rt, request, reader, writer, &progress))
        }
        Err(error) => print_help_or_error(rt, arguments, &error, writer),
    }
}

/// The arguments after the program's name.
///
/// # Errors
///
/// If an argument is not UTF-8, or an allocation fails.
fn given_arguments(rt: &(impl Env + AllocGlobal)) -> io::Result<Vec<String>> {
    Ok(env::args(rt)?.skip(1).collect::<Vec<String>>(rt.alloc())?)
}
