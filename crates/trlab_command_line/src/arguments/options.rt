//! The options and the other arguments of the commands.

ghost use Rattle.std.specs.Prelude.{◌≡◌, false, pos};
ghost use Rattle.clap.specs.Words.{rule_of};
ghost use Rattle.clap.specs.declared.builder.value_parser.ValueParser.TheVariants.{Signed};
ghost use Rattle.trlab_command_line.specs.CommandLine.{count_option, flag, number_argument, number_option, progress_flag, what_argument, workers_option};

use crate::help::{NUMBER_HELP, PROGRESS_HELP, WHAT_HELP, WORKERS_HELP};
use clap::builder::ValueParser;
use clap::{Arg, ArgAction, value_parser};
use std::alloc::Global;
use trlab_bounds::runs::MAX_WORKERS;

/// A parser of numbers from `least` to `most`, both included.
fn number_parser<'a>(least: u32, most: u32) -> ValueParser<'a>
    ensures { result ≡ Signed (pos least) (pos most) }
{
    value_parser!(u32).range(i64::from(least)..=i64::from(most))
}

/// The option `--name n`, n from `least` to `most`, with the default `default`.
pub fn number_option<'a>(
    alloc: Global,
    name: &'a str,
    least: u32,
    most: u32,
    default: &'a str,
    help: &'a str,
) -> Arg<'a>
    ensures rule { rule_of result ≡ number_option name.now least most default.now }
    ensures local { result.global ≡ false }
{
    Arg::new(alloc, name)
        .long(name)
        .value_name("n")
        .value_parser(number_parser(least, most))
        .default_value(default)
        .help(help)
}

/// The option `--name n`, n from 1 to `most`, with the default 1.
pub fn count_option<'a>(alloc: Global, name: &'a str, most: u32, help: &'a str) -> Arg<'a>
    ensures rule { rule_of result ≡ count_option name.now most }
    ensures local { result.global ≡ false }
{
    number_option(alloc, name, 1, most, "1", help)
}

/// The option `--workers n`, n from 1 to `MAX_WORKERS`, with the default 1.
pub fn workers_option<'a>(alloc: Global) -> Arg<'a>
    ensures rule { rule_of result ≡ workers_option }
    ensures local { result.global ≡ false }
{
    count_option(alloc, "workers", MAX_WORKERS, WORKERS_HELP)
}

/// The flag `--name`, an option without a value.
pub fn flag<'a>(alloc: Global, name: &'a str, help: &'a str) -> Arg<'a>
    ensures rule { rule_of result ≡ flag name.now }
    ensures local { result.global ≡ false }
{
    Arg::new(alloc, name)
        .long(name)
        .action(ArgAction::SetTrue)
        .help(help)
}

/// The flag `--progress`.
pub fn progress_flag<'a>(alloc: Global) -> Arg<'a>
    ensures rule { rule_of result ≡ progress_flag }
    ensures local { result.global ≡ false }
{
    flag(alloc, "progress", PROGRESS_HELP)
}

/// The first argument of `explain`: a command, `cause` or `reason`.
pub fn what_argument<'a>(alloc: Global) -> Arg<'a>
    ensures rule { rule_of result ≡ what_argument }
    ensures local { result.global ≡ false }
{
    Arg::new(alloc, "what").help(WHAT_HELP)
}

/// The second argument of `explain`: the number of a cause or a reason.
pub fn number_argument<'a>(alloc: Global) -> Arg<'a>
    ensures rule { rule_of result ≡ number_argument }
    ensures local { result.global ≡ false }
{
    Arg::new(alloc, "number")
        .value_parser(value_parser!(u32))
        .help(NUMBER_HELP)
}
