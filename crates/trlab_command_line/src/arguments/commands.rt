//! The definitions of the commands for `clap`.

ghost use Rattle.std.specs.Prelude.{◌≡◌, IfOk, MatchResult, false};
ghost use Rattle.clap.specs.Words.{app_of, new_app, with_subcommand};
ghost use Rattle.clap.specs.declared.builder.command.Command.TheViews.{out-Command as fields_of};
ghost use Rattle.trlab_command_line.specs.CommandLine.{command_line, explain_command, job_command, program, sweep_command};

use crate::arguments::options::{
    count_option, flag, number_argument, number_option, progress_flag, what_argument,
    workers_option,
};
use crate::help::{
    ABOUT, AFTER, CHECK, EVERY_HELP, EXPLAIN, FROM_HELP, Help, JSON_HELP, RUN, RUNNERS_HELP,
    SERIES, SHOWN_EVERY_HELP, SHOWN_FROM_HELP, SWEEP, VERSION,
};
use clap::Command;
use std::alloc::{AllocError, Global};
use trlab_bounds::runs::{MAX_RUNNERS, MAX_STEPS};

/// A command without arguments, with its help texts.
fn bare_command<'a>(alloc: Global, name: &'a str, help: Help) -> Command<'a>
    ensures app { app_of result ≡ new_app name.now }
    ensures local { (fields_of result).has_globals ≡ false }
{
    Command::new(alloc, name)
        .about(help.about)
        .override_usage(help.usage)
        .after_help(help.after)
}

/// A command that runs a job: `run` or `series`.
fn job_command<'a>(
    alloc: Global,
    name: &'a str,
    help: Help,
    every_help: &'a str,
    from_help: &'a str,
) -> Result<Command<'a>, AllocError>
    ensures app { IfOk result (λ command. app_of command ≡ job_command name.now) }
    ensures local { IfOk result (λ command. (fields_of command).has_globals ≡ false) }
{
    bare_command(alloc, name, help)
        .arg(count_option(alloc, "every", MAX_STEPS, every_help))?
        .arg(number_option(alloc, "from", 0, MAX_STEPS, "0", from_help))?
        .arg(workers_option(alloc))?
        .arg(progress_flag(alloc))
}

/// The command `sweep`.
fn sweep_command<'a>(alloc: Global) -> Result<Command<'a>, AllocError>
    ensures app { IfOk result (λ command. app_of command ≡ sweep_command) }
    ensures local { IfOk result (λ command. (fields_of command).has_globals ≡ false) }
{
    bare_command(alloc, "sweep", SWEEP)
        .arg(count_option(alloc, "runners", MAX_RUNNERS, RUNNERS_HELP))?
        .arg(workers_option(alloc))?
        .arg(progress_flag(alloc))
}

/// The command `explain`.
pub fn explain_command<'a>(alloc: Global) -> Result<Command<'a>, AllocError>
    ensures app { IfOk result (λ command. app_of command ≡ explain_command) }
    ensures local { IfOk result (λ command. (fields_of command).has_globals ≡ false) }
{
    bare_command(alloc, "explain", EXPLAIN)
        .arg(what_argument(alloc))?
        .arg(number_argument(alloc))?
        .arg(flag(alloc, "json", JSON_HELP))
}

/// The program without its commands. Its arguments must name a command.
fn program<'a>(alloc: Global) -> Result<Command<'a>, AllocError>
    ensures { IfOk result (λ command. app_of command ≡ program) }
{
    Command::new(alloc, "trlab")
        .about(ABOUT)
        .version(VERSION)
        .after_help(AFTER)
        .no_binary_name(true)
        .subcommand_required(true)
        .arg_required_else_help(true)
        .bin_name("trlab")
}

/// Adds a command to the program.
fn with_command<'a>(
    program: Command<'a>,
    command: Result<Command<'a>, AllocError>,
) -> Result<Command<'a>, AllocError>
    requires { IfOk command (λ command. (fields_of command).has_globals ≡ false) }
    ensures { IfOk result (λ new. MatchResult command.entry
        (λ command. app_of new ≡ with_subcommand (app_of program.entry) (app_of command).top) (λ _. ⊥)) }
{
    program.subcommand(command?)
}

/// The command line of `trlab`: the program with its commands.
pub fn command_line<'a>(alloc: Global) -> Result<Command<'a>, AllocError>
    ensures { IfOk result (λ command. app_of command ≡ command_line) }
{
    let with_check = with_command(program(alloc)?, Ok(bare_command(alloc, "check", CHECK)))?;
    let run = job_command(alloc, "run", RUN, SHOWN_EVERY_HELP, SHOWN_FROM_HELP);
    let with_run = with_command(with_check, run)?;
    let with_sweep = with_command(with_run, sweep_command(alloc))?;
    let series = job_command(alloc, "series", SERIES, EVERY_HELP, FROM_HELP);
    let with_series = with_command(with_sweep, series)?;
    with_command(with_series, explain_command(alloc))
}
