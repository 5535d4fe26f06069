//! The engine of series: job texts in, tables of windows out. The whole text is checked before the first line is
//! written, and the line of a window is written once the steps of the window are taken.

ghost use Rattle.std.specs.Prelude.{◌≡◌, ℕ, ◌+◌, ◌*◌, ◌<◌, ◌≤◌, ◌^◌, List, flat_map, false, nat_eq, IfOk, IsOk, OnOk};
ghost use Rattle.std.specs.Prelude.{if◌then◌else◌};
ghost use Rattle.trlab_bounds.specs.declared.runs.TheConstants.{MAX_STEPS};
ghost use Rattle.trlab_diagram.specs.Tables.{window_text};
ghost use Rattle.trlab_road.specs.Cells.{Cells};
ghost use Rattle.trlab_step.specs.declared.tally.StepTally.{StepTally};
ghost use Rattle.trlab_campaign.specs.SeriesOutput.{IsLaterBy, first_windows, window_of};
ghost use Rattle.trlab_campaign.specs.Ending.{EngineEnds, LeavesUnflushed, WroteByResult};
ghost use Rattle.trlab_campaign.specs.SeriesOutput.{CompletesWindows, IsCourse, IsSeriesOutput, IsSeriesOutputForJob};
ghost use Rattle.trlab_campaign.specs.Writers.{AddsByResult, bytes_of};

use crate::counting::{skip_steps, take_window};
use crate::device::{Sink, Source, write_text};
use crate::end::{End, Failure};
use crate::pooled::{Account, run_of_job, run_pooled};
use crate::progress::ProgressObserver;
use std::alloc::{AllocGlobal, Global};
use std::sync::Wait;
use std::thread::Threads;
use trlab_bounds::runs::MAX_WORKERS;
use trlab_diagram::{DiagramFault, SeriesLines, series_heading};
use trlab_jobs::Job;
use trlab_step::{Executor, Run};

/// The windows of a series: window k has the `every` steps from the step `from` + k * `every` on.
#[derive(Drop)]
pub struct Windows {
    pub every: u32,
    pub from: u32,
    ghost at_least_one_step: { 1 ≤ every },
    ghost at_most_max_steps: { every ≤ MAX_STEPS },
    ghost in_range: { from ≤ MAX_STEPS },
}

impl Windows {
    /// Windows of `every` steps (1 to `MAX_STEPS`) each, from the step `from` (0 to `MAX_STEPS`) on.
    pub fn new(every: u32, from: u32) -> Windows
        requires at_least_one_step { 1 ≤ every }
        requires at_most_max_steps { every ≤ MAX_STEPS }
        requires in_range { from ≤ MAX_STEPS }
        ensures every { result.every ≡ every }
        ensures from { result.from ≡ from }
    {
        Windows { every, from }
    }

    /// The number of windows that a run of `steps` steps completes.
    pub fn count(&self, steps: u32) -> u32
        ensures { CompletesWindows self.now.every self.now.from steps result }
    {
        steps.saturating_sub(self.from) / self.every
    }

    /// The number of steps up to the end of the last window that a run of `steps` steps completes, or 0 if it
    /// completes none.
    pub fn steps(&self, steps: u32) -> u32
        ensures in_range { result ≤ steps }
        ensures all { (count : ℕ) × CompletesWindows self.now.every self.now.from steps count
            × (result ≡ if nat_eq count 0 then 0 else self.now.from + count * self.now.every) }
    {
        match self.count(steps) {
            0 => 0,
            count => self.from + count * self.every,
        }
    }
}

/// Takes the steps of a window, and returns its line.
fn next_line<E: Executor>(
    executor: &E,
    alloc: Global,
    run: &mut Run,
    every: u32,
    lines: &mut SeriesLines,
) -> Result<Vec<u8>, DiagramFault>
    requires ready { E.is_ready executor.now }
    requires at_least_one_step { 1 ≤ every }
    requires at_most_max_steps { every ≤ MAX_STEPS }
    requires room { run.old.step + every < 2 ^ 32 }
    requires counts { run.old.seed.warm ≡ 0 }
    ensures on { OnOk result (IsLaterBy every run.old run.new) }
    ensures line { (roads : ℕ → Cells) (tallies : ℕ → StepTally)
        → IsCourse run.old.seed run.old.sheet roads tallies
        → IfOk result (λ line. line.items ≡ window_text (window_of roads tallies run.old.step every)) }
{
    let window = take_window(executor, alloc, run, every)?;
    lines.window_text(alloc, &window)
}

/// Writes a line. Returns `Memory` if it could not be made.
fn write_line<K: Sink>(line: Result<Vec<u8>, DiagramFault>, writer: &mut K) -> Result<(), Failure>
    requires { K.failed writer.old ≡ false }
    ensures wrote { (bytes : List ℕ) → IfOk line (λ line. line.items ≡ bytes)
        → AddsByResult result (bytes_of K.Sink writer.old) (bytes_of K.Sink writer.new) bytes }
    ensures writer { LeavesUnflushed K.Sink result writer.old writer.new }
    ensures made { OnOk result (IsOk line) }
{
    match line {
        Ok(line) => match write_text(writer, &line) {
            Ok(()) => Ok(()),
            Err(_) => Err(Failure::Device),
        },
        Err(_) => Err(Failure::Memory),
    }
}

/// Takes the steps of a window, and writes its line.
fn write_window<E: Executor, K: Sink>(
    executor: &E,
    alloc: Global,
    run: &mut Run,
    every: u32,
    lines: &mut SeriesLines,
    writer: &mut K,
) -> Result<(), Failure>
    requires ready { E.is_ready executor.now }
    requires works { K.failed writer.old ≡ false }
    requires at_least_one_step { 1 ≤ every }
    requires at_most_max_steps { every ≤ MAX_STEPS }
    requires room { run.old.step + every < 2 ^ 32 }
    requires counts { run.old.seed.warm ≡ 0 }
    ensures wrote { (roads : ℕ → Cells) (tallies : ℕ → StepTally)
        → IsCourse run.old.seed run.old.sheet roads tallies
        → AddsByResult result (bytes_of K.Sink writer.old) (bytes_of K.Sink writer.new)
        (window_text (window_of roads tallies run.old.step every)) }
    ensures on { OnOk result (IsLaterBy every run.old run.new) }
    ensures writer { LeavesUnflushed K.Sink result writer.old writer.new }
{
    let line = next_line(executor, alloc, run, every, lines);
    write_line(line, writer)
}

/// Writes the lines of the first `count` windows of a run.
fn write_windows<E: Executor, K: Sink>(
    executor: &E,
    alloc: Global,
    run: &mut Run,
    windows: &Windows,
    count: u32,
    writer: &mut K,
) -> Result<(), Failure>
    requires ready { E.is_ready executor.now }
    requires works { K.failed writer.old ≡ false }
    requires start { run.old.step ≡ 0 }
    requires counts { run.old.seed.warm ≡ 0 }
    requires room { (k : ℕ) → k < count → windows.now.from + (k + 1) * windows.now.every < 2 ^ 32 }
    ensures wrote { (roads : ℕ → Cells) (tallies : ℕ → StepTally)
        → IsCourse run.old.seed run.old.sheet roads tallies
        → AddsByResult result (bytes_of K.Sink writer.old) (bytes_of K.Sink writer.new)
        (flat_map window_text (first_windows roads tallies windows.now.every windows.now.from count)) }
    ensures writer { LeavesUnflushed K.Sink result writer.old writer.new }
{
    if count == 0 {
        return Ok(());
    }
    if skip_steps(executor, alloc, run, windows.from).is_err() {
        return Err(Failure::Memory);
    }
    let mut lines = SeriesLines::new(alloc);
    for _ in 0..count {
        write_window(executor, alloc, run, windows.every, &mut lines, writer)?;
    }
    Ok(())
}

/// Runs a job, and writes the table of its windows.
fn write_series<E: Executor, K: Sink>(
    executor: &E,
    alloc: Global,
    windows: &Windows,
    job: Job,
    writer: &mut K,
) -> Result<(), Failure>
    requires ready { E.is_ready executor.now }
    requires works { K.failed writer.old ≡ false }
    ensures wrote { WroteByResult (IsSeriesOutputForJob windows.now.every windows.now.from job) result
        (bytes_of K.Sink writer.old) (bytes_of K.Sink writer.new) }
    ensures writer { LeavesUnflushed K.Sink result writer.old writer.new }
{
    let count = windows.count(job.steps);
    write_line(series_heading(alloc), writer)?;
    let mut run = run_of_job(alloc, job);
    let written = write_windows(executor, alloc, &mut run, windows, count, writer);
    drop(run);
    written
}

/// The account of `series`: the table of a run's windows.
#[derive(Drop)]
struct Series<'a> {
    windows: &'a Windows,
}

impl<'a> Account for Series<'a> {
    ghost outputs = { λ series job. IsSeriesOutputForJob series.windows.now.every series.windows.now.from job };

    fn steps(&self, job: &Job) -> u32 {
        self.windows.steps(job.steps)
    }

    fn write_job<E: Executor, K: Sink>(
        &self,
        executor: &E,
        alloc: Global,
        job: Job,
        writer: &mut K,
    ) -> Result<(), Failure> {
        write_series(executor, alloc, self.windows, job, writer)
    }
}

/// Reads a job text, and writes the table of its windows, or the line of the text's first fault. The run ends with
/// the last window, which no clause says. `progress` observes the steps.
///
/// The whole text is read and checked before a byte is written, and the line of a window is written once the steps of
/// the window are taken. If an allocation fails, or a call of the reader or writer fails, a prefix of the whole output
/// has been written. `workers`, 1 to 16, is the maximum number of threads that compute the cars. Only as many as help
/// are started, once for the whole run. The output does not depend on `workers`.
pub fn run_series_text<
    R: AllocGlobal + Threads + Wait + Sync,
    S: Source,
    K: Sink,
    O: ProgressObserver,
>(rt: &R, reader: &mut S, writer: &mut K, workers: u32, windows: &Windows, progress: &O) -> End
    requires reader_works { S.failed reader.old ≡ false }
    requires writer_works { K.failed writer.old ≡ false }
    requires at_least_one_worker { 1 ≤ workers }
    requires at_most_max_workers { workers ≤ MAX_WORKERS }
    ensures { EngineEnds S.Source K.Sink (IsSeriesOutput windows.now.every windows.now.from) result
        reader.old reader.new writer.old writer.new }
{
    run_pooled(rt, &Series { windows }, reader, writer, workers, progress)
}
