//! The values of a command's arguments, among the matches of `clap`.

ghost use Rattle.std.specs.Prelude.{◌≡◌, ℕ, ◌≤◌, ◌<◌, ◌^◌};
ghost use Rattle.clap.specs.Words.{Text, rows_of};
ghost use Rattle.clap.specs.Matches.{found_of};
ghost use Rattle.trlab_bounds.specs.declared.runs.TheConstants.{MAX_WORKERS};
ghost use Rattle.trlab_command_line.specs.CommandLine.{GivesFlag, GivesNumber, HasFlagValue, HasValueFrom, MayHaveNumber, argument_number};

use clap::ArgMatches;

/// The number of an option that has a default.
pub fn option_number(matches: &ArgMatches, option: &str) -> u32
    requires { (least : ℕ) × (most : ℕ) × (v : Text) × (most < 2 ^ 32)
        × HasValueFrom (option.now) least most (rows_of (found_of matches.now)) v }
    ensures number { GivesNumber (option.now) (rows_of (found_of matches.now)) result }
    ensures in_range { (least most : ℕ) (v : Text) → most < 2 ^ 32
        → HasValueFrom (option.now) least most (rows_of (found_of matches.now)) v
        → (least ≤ result) × (result ≤ most) }
{
    match matches.get_one::<u32>(option) {
        Some(number) => number,
        // The option has a default.
        None => unreachable!(),
    }
}

/// The number, from 1 to 16, of `--workers` or `--runners`.
pub fn thread_count_of(matches: &ArgMatches, option: &str) -> u32
    requires { (v : Text) × HasValueFrom (option.now) 1 MAX_WORKERS (rows_of (found_of matches.now)) v }
    ensures number { GivesNumber (option.now) (rows_of (found_of matches.now)) result }
    ensures at_least_one { 1 ≤ result }
    ensures at_most_max_workers { result ≤ MAX_WORKERS }
{
    option_number(matches, option)
}

/// The number of an argument, if it is given.
pub fn argument_number(matches: &ArgMatches, argument: &str) -> Option<u32>
    requires { MayHaveNumber (argument.now) (rows_of (found_of matches.now)) }
    ensures { result ≡ argument_number (argument.now) (rows_of (found_of matches.now)) }
{
    matches.get_one::<u32>(argument)
}

/// Whether a flag is given.
pub fn is_flag_given(matches: &ArgMatches, flag: &str) -> bool
    requires { HasFlagValue (flag.now) (rows_of (found_of matches.now)) }
    ensures { GivesFlag (flag.now) (rows_of (found_of matches.now)) result }
{
    matches.get_flag(flag)
}
