//! The requests of the command line, as `clap` reads them.

mod commands;
mod explain;
mod matches;
mod options;

ghost use Rattle.std.specs.Prelude.{◌≡◌, ◌∷◌, [], IfOk, None, Some, false, map, codes, string_bytes};
ghost use Rattle.clap.specs.Words.{FailsBy, found_of, rows_of, subcommand_of};
ghost use Rattle.trlab_command_line.specs.CommandLine.{command_line, explain_arguments_fault};
ghost use Rattle.trlab_command_line.specs.CommandLine.{FitsEngines, IsEntered, IsNamedFirst, IsRequestOf, arguments_fault};
ghost use Rattle.trlab_command_line.specs.declared.arguments.explain.ExplainRequest.TheVariants.{Text};
ghost use Rattle.trlab_explain.specs.declared.explain.Form.TheVariants.{Text as Lines};

use crate::arguments::commands::command_line;
pub use crate::arguments::explain::ExplainRequest;
use crate::arguments::explain::explain_request_from_matches;
use crate::arguments::matches::{is_flag_given, option_number, thread_count_of};
use clap::{ArgMatches, Error};
use std::alloc::Global;

/// A request of the command line.
#[derive(Clone, Copy)]
pub enum Request {
    /// Check the program on standard input.
    Check,
    /// Run the job on standard input, and print its road at the steps `from`, `from` + `every` and so on.
    Run {
        /// The number of workers that share the work, 1 to 16.
        workers: u32,
        /// The number of steps from one printed step to the next, 1 to 500000.
        every: u32,
        /// The first printed step, 0 to 500000.
        from: u32,
        /// Whether progress is reported.
        has_progress: bool,
    },
    /// Run the roads of the sweep on standard input, and measure the flow of each.
    Sweep {
        /// The number of runners that share the roads, 1 to 16.
        runners: u32,
        /// The number of workers that share the work of each road, 1 to 16.
        workers: u32,
        /// Whether progress is reported.
        has_progress: bool,
    },
    /// Run the job on standard input, and count its traffic in windows of steps.
    Series {
        /// The number of workers that share the work, 1 to 16.
        workers: u32,
        /// The number of steps per window, 1 to 500000.
        every: u32,
        /// The step at which the first window starts, 0 to 500000.
        from: u32,
        /// Whether progress is reported.
        has_progress: bool,
    },
    /// Explain an input, a cause or a reason.
    Explain(ExplainRequest),
}

/// The request of a command, by its name and its matches.
fn request_of(alloc: Global, name: &str, matches: &ArgMatches) -> Result<Request, Error>
    requires { IsEntered name.now (rows_of (found_of matches.now)) }
    ensures answer { IfOk result (IsRequestOf (Some (name.now, rows_of (found_of matches.now)))) }
    ensures fault { FailsBy (explain_arguments_fault (Some (name.now, rows_of (found_of matches.now)))) result }
    ensures counts { IfOk result FitsEngines }
{
    match name {
        "check" => Ok(Request::Check),
        "run" => Ok(Request::Run {
            workers: thread_count_of(matches, "workers"),
            every: option_number(matches, "every"),
            from: option_number(matches, "from"),
            has_progress: is_flag_given(matches, "progress"),
        }),
        "sweep" => Ok(Request::Sweep {
            runners: thread_count_of(matches, "runners"),
            workers: thread_count_of(matches, "workers"),
            has_progress: is_flag_given(matches, "progress"),
        }),
        "series" => Ok(Request::Series {
            workers: thread_count_of(matches, "workers"),
            every: option_number(matches, "every"),
            from: option_number(matches, "from"),
            has_progress: is_flag_given(matches, "progress"),
        }),
        "explain" => Ok(Request::Explain(explain_request_from_matches(alloc, matches)?)),
        // No other command gives matches: for `help`, `clap` returns an error with the help text.
        _ => unreachable!(),
    }
}

/// The request of the arguments after the program's name: `check`, `run` or `series` with `--every n`, `--from s` and
/// `--workers n`, `sweep` with `--runners n` and `--workers n`, or `explain` with a command and `--json`, or with
/// `cause` or `reason` and a number. The numbers of runners and workers are 1 to 16 (default 1), n of `--every` is
/// 1 to 500000 (default 1), and s is 0 to 500000 (default 0). `run`, `sweep` and `series` also take `--progress`.
///
/// # Errors
///
/// An error of `clap` if the arguments ask for help or the version, if they are rejected (also because the arguments of
/// `explain` do not go together), or if an allocation fails.
pub fn read_words(alloc: Global, arguments: &[String]) -> Result<Request, Error>
    ensures answer { IfOk result (IsRequestOf (subcommand_of command_line (map string_bytes arguments.now))) }
    ensures fault { FailsBy (arguments_fault (map string_bytes arguments.now)) result }
    ensures counts { IfOk result FitsEngines }
    ensures named { IfOk result (IsNamedFirst (map string_bytes arguments.now)) }
    ensures run_alone { map string_bytes arguments.now ≡ codes "run" ∷ []
        → IfOk result (λ request. request ≡ Request.Run 1 1 0 false) }
    ensures sweep_alone { map string_bytes arguments.now ≡ codes "sweep" ∷ []
        → IfOk result (λ request. request ≡ Request.Sweep 1 1 false) }
    ensures series_alone { map string_bytes arguments.now ≡ codes "series" ∷ []
        → IfOk result (λ request. request ≡ Request.Series 1 1 0 false) }
    ensures explain_alone { map string_bytes arguments.now ≡ codes "explain" ∷ []
        → IfOk result (λ request. request ≡ Request.Explain (Text None Lines)) }
{
    let matches = command_line(alloc)?.try_get_matches_from(arguments)?;
    match matches.subcommand() {
        Some((name, entered)) => request_of(alloc, name, entered),
        // The program requires a command.
        None => unreachable!(),
    }
}
