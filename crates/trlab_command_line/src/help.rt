//! Help texts. `clap` adds the usage lines and the lists of options.

/// The purpose of `trlab`.
pub const ABOUT: &str =
    "Simulates road traffic with cellular automata, and verifies its driver programs";

/// The program's version, and on a second line the logic in which it is proved. The logic and not the kit of the
/// toolchain is named, because several kits share one logic.
pub const VERSION: &str = "0.7.7
proved in logic dac8208d650f15bf";

/// Below the list of commands: examples, exit statuses, and further reading.
pub const AFTER: &str = "\
Each command reads one input on standard input and writes to standard output.
Run `trlab help COMMAND` to see the input and the output of COMMAND.

Examples:
  trlab run < examples/two_cars.job
  trlab sweep < examples/fundamental_diagram.sweep > flow.csv

If trlab rejects your input, it prints `fault line N cause K`. To see why:
  trlab explain < FILE

Exit statuses:
  0  done
  1  the input or the program is rejected: see the line on standard output
  2  the command line is invalid
  3  out of memory
  4  reading or writing failed

File formats: docs/FILES.md. Error numbers: `trlab explain cause K`.";

/// The help texts of a command.
#[derive(Clone, Copy)]
pub struct Help {
    /// One line, also shown in the list of commands.
    pub about: &'static str,
    /// How to call the command, one form per line.
    pub usage: &'static str,
    /// The text below the options: input, output and an example.
    pub after: &'static str,
}

pub const CHECK: Help = Help {
    about: "Check whether the verifier accepts a driver program",
    usage: "trlab check < FILE",
    after: "\
Standard input:
  A driver program: first `motion` or `change`, then one instruction per line.
  Or a single line `code X` with the program in hexadecimal. If the first line
  begins with `notes `, for example `notes motion`, the output also lists the
  facts that the verifier knows before each instruction.

Standard output:
  `accepted budget B` (at most B instructions per car and step), then the
  program in canonical form; `refused at PC reason R` if the verifier rejects
  the program; or `fault line N cause K` if the input is malformed.
  `trlab explain check < FILE` explains the problem. Reasons and causes:
  docs/ERRORS.md.

Example:
  printf 'motion\\nget r0, speed\\nget r1, gap\\nmin r0, r0, r1\\ngo r0\\n' |
    trlab check",
};

pub const RUN: Help = Help {
    about: "Run a job and print the road at every step, or at every n-th",
    usage: "trlab run [OPTIONS] < FILE",
    after: "\
Standard input:
  A job file: random seed (`key`), maximum speed (`limit`), the road with its
  cars, the rule, and the number of steps.

Standard output:
  For each step, a line `step s` and one line per lane. `.` is an empty cell;
  any other character is a car and its speed: 0 to 9, then a (10) to z (35).
  With `--every n` and `--from s` only the steps s, s + n, s + 2n and so on.
  Or `fault line N cause K` if the input is rejected: `trlab explain run < FILE`
  explains the problem. The option `--workers` does not change the output. File
  format: docs/FILES.md; causes: docs/ERRORS.md.

Example:
  trlab run < examples/two_cars.job",
};

pub const SWEEP: Help = Help {
    about: "Measure the flow at many densities, for a fundamental diagram",
    usage: "trlab sweep [OPTIONS] < FILE",
    after: "\
Standard input:
  A sweep file: random seed (`key`), maximum speed (`limit`), lane length,
  number of lanes, rule, warm-up steps, measured steps, and one line `cars n`
  per road. Cars start stopped and evenly spaced.

Standard output:
  CSV, one row per road. Columns: cars, cells, steps (measured), distance
  (total cells travelled), stopped (car-steps at speed 0), changes (lane
  changes), flow (cars passing a cell per step, in millionths). Or `fault line
  N cause K` if the input is rejected. The options `--runners` and `--workers`
  do not change the output. File format: docs/FILES.md; causes: docs/ERRORS.md;
  whole studies: docs/STUDIES.md.

Example:
  trlab sweep < examples/fundamental_diagram.sweep > flow.csv

A small sweep to start from (three roads of 100 cells):
  sweep 1
  key 0000000000000000000000000000000000000000000000000000000000000000
  limit 5
  length 100
  lanes 1
  rule nasch 536870912
  warm 100
  measure 100
  cars 5
  cars 15
  cars 50",
};

pub const SERIES: Help = Help {
    about: "Run a job and count its traffic in windows of steps",
    usage: "trlab series [OPTIONS] < FILE",
    after: "\
Standard input:
  A job file, as for `trlab run`.

Standard output:
  CSV, one row per window of `--every` steps, starting at step `--from`. Each
  row is written as soon as its window is complete. Columns: step (at the end
  of the window), cars, cells, steps, distance (total cells travelled), stopped
  (car-steps at speed 0), changes (lane changes), flow (cars passing a cell per
  step, in millionths), then cars, distance and stopped for lane 0 and for lane
  1. Steps after the last complete window are not counted. Or `fault line N
  cause K` if the input is rejected: `trlab explain run < FILE` explains the
  problem. The option `--workers` does not change the output. Details:
  docs/FILES.md.

Example:
  trlab series --every 10 < examples/overtaking.job",
};

/// The option `--every` of `run`.
pub const SHOWN_EVERY_HELP: &str = "Steps between printed roads, 1 to 500000";

/// The option `--from` of `run`.
pub const SHOWN_FROM_HELP: &str = "First step to print, 0 to 500000";

/// The option `--every` of `series`.
pub const EVERY_HELP: &str = "Steps per window, 1 to 500000";

/// The option `--from` of `series`.
pub const FROM_HELP: &str = "Start of the first window, 0 to 500000";

pub const WORKERS_HELP: &str = "Maximum number of threads per road, 1 to 16";

/// The option `--runners` of `sweep`.
pub const RUNNERS_HELP: &str = "Roads computed at the same time, 1 to 16";

pub const PROGRESS_HELP: &str = "Report progress on standard error";

/// The first argument of `explain`.
pub const WHAT_HELP: &str = "Read the input as for run, sweep or check; or cause or reason";

/// The second argument of `explain`.
pub const NUMBER_HELP: &str = "Error number, for cause or reason";

/// The flag `--json` of `explain`.
pub const JSON_HELP: &str = "Print one JSON object, for other programs";

pub const EXPLAIN: Help = Help {
    about: "Explain an error and how to fix it, or summarize a valid input",
    usage: "\
trlab explain [--json] [run|sweep|check] < FILE
       trlab explain cause K
       trlab explain reason R",
    after: "\
Standard input:
  An input for `trlab run`, `trlab sweep` or `trlab check`. Without run, sweep
  or check, the first word outside comments decides (case does not matter):
  `road` means a job, `sweep` a sweep, anything else a driver program.

Standard output:
  For a rejected input: the error, the offending line, the expected lines, the
  problem, and often a fix (each fix shown has been tested). For a valid input:
  its road, rules, work and output. Bytes that are not printable ASCII are shown
  as \\x and two hexadecimal digits. With `--json` the same facts in one JSON
  object on one line; its members are in docs/FILES.md.

  `explain cause K` and `explain reason R` read nothing. They explain the
  error number K of `fault line N cause K`, or R of `refused at N reason R`.

Example:
  trlab explain run < examples/two_cars.job",
};
