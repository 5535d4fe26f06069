//! The engine of runs: job texts in, pictures out. The whole text is checked before the first picture is
//! written. The picture of a road is made while its cars are computed, and written once they have moved.

ghost use Rattle.std.specs.Prelude.{◌≡◌, ℕ, ◌+◌, ◌<◌, ◌≤◌, ◌^◌, List, [], true, false, OnOk, if◌then◌else◌};
ghost use Rattle.trlab_jobs.specs.Job.{Job as Told, seed_of, sheet_of};
ghost use Rattle.trlab_jobs.specs.Stored.{IsStoredJob};
ghost use Rattle.trlab_step.specs.Run.{IsOneStepOn, at_start, IsRoadAt};
ghost use Rattle.trlab_campaign.specs.Ending.{EngineEnds, LeavesUnflushed, WroteByResult};
ghost use Rattle.trlab_campaign.specs.Output.{IsShownOutput, IsOutputForJob, every_from, shown_text, step_text};
ghost use Rattle.trlab_campaign.specs.Writers.{AddsByResult, bytes_of};

use crate::device::{Sink, Source, write_text};
use crate::end::{End, Failure};
use crate::output::push_step;
use crate::pooled::{Account, run_of_job, run_pooled};
use crate::progress::ProgressObserver;
use std::alloc::{AllocError, AllocGlobal, Global};
use std::sync::Wait;
use std::thread::Threads;
use trlab_bounds::runs::MAX_WORKERS;
use trlab_jobs::Job;
use trlab_road::Road;
use trlab_step::{Executor, Run, StepObserver};

/// The steps of a run that are shown: `from`, `from` + `every`, `from` + 2 * `every` and so on.
#[derive(Drop)]
pub struct ShownSteps {
    pub every: u32,
    pub from: u32,
    ghost at_least_one_step: { 1 ≤ every },
}

impl ShownSteps {
    /// The steps `from`, `from` + `every` and so on; `every` is at least 1.
    pub fn new(every: u32, from: u32) -> ShownSteps
        requires at_least_one_step { 1 ≤ every }
        ensures every { result.every ≡ every }
        ensures from { result.from ≡ from }
    {
        ShownSteps { every, from }
    }

    /// Whether a step is shown.
    pub fn has(&self, step: u32) -> bool
        ensures { result ≡ every_from self.now.every self.now.from step }
    {
        self.from <= step && (step - self.from) % self.every == 0
    }

    /// The last step that is shown in a run of `steps` steps, or 0 if none is.
    pub fn last(&self, steps: u32) -> u32
        ensures in_range { result ≤ steps }
        ensures shown { 0 < result → every_from self.now.every self.now.from result ≡ true }
        ensures none_later { (step : ℕ) → result < step → step ≤ steps
            → every_from self.now.every self.now.from step ≡ false }
    {
        if self.from <= steps {
            steps - (steps - self.from) % self.every
        } else {
            0
        }
    }
}

/// The text of a step, which is made while the cars are computed. Its memory is reused from step to step.
#[derive(Drop)]
struct StepText {
    step: u32,
    /// Whether the step is shown. The text of any other step is empty, and no picture is made of its road.
    is_shown: bool,
    bytes: Vec<u8>,
    /// `Ok` if the bytes are the complete text, `Err` if an allocation failed.
    outcome: Result<(), AllocError>,
}

impl StepText {
    /// No text yet.
    fn new(alloc: Global) -> StepText {
        StepText {
            step: 0,
            is_shown: false,
            bytes: Vec::new(alloc),
            outcome: Ok(()),
        }
    }
}

impl StepObserver for StepText {
    ghost observes = { λ before road text. OnOk text.outcome
        (text.bytes.items ≡ if before.is_shown then step_text before.step road else []) };

    fn observe(&mut self, road: &Road) {
        self.bytes.clear();
        self.outcome = if self.is_shown {
            push_step(&mut self.bytes, self.step, road)
        } else {
            Ok(())
        };
    }
}

/// Writes the text of a step. Returns `Memory` if the text is not complete.
fn write_step_text<K: Sink>(text: &StepText, writer: &mut K) -> Result<(), Failure>
    requires { K.failed writer.old ≡ false }
    ensures wrote { (bytes : List ℕ) → OnOk text.now.outcome (text.now.bytes.items ≡ bytes)
        → AddsByResult result (bytes_of K.Sink writer.old) (bytes_of K.Sink writer.new) bytes }
    ensures writer { LeavesUnflushed K.Sink result writer.old writer.new }
{
    match text.outcome {
        Ok(()) => match write_text(writer, &text.bytes) {
            Ok(()) => Ok(()),
            Err(_) => Err(Failure::Device),
        },
        Err(_) => Err(Failure::Memory),
    }
}

/// Advances a run by one step, and writes the text of the road before it if that step is shown.
fn show_step<E: Executor, K: Sink>(
    executor: &E,
    alloc: Global,
    shown: &ShownSteps,
    text: &mut StepText,
    run: &mut Run,
    writer: &mut K,
) -> Result<(), Failure>
    requires ready { E.is_ready executor.now }
    requires works { K.failed writer.old ≡ false }
    requires steps { run.old.step + 1 < 2 ^ 32 }
    ensures road { IsRoadAt run.old.seed run.old.sheet run.old.step run.old.road }
    ensures wrote { AddsByResult result (bytes_of K.Sink writer.old) (bytes_of K.Sink writer.new)
        (shown_text (every_from shown.now.every shown.now.from) run.old.step run.old.road) }
    ensures on { OnOk result (IsOneStepOn run.old run.new) }
    ensures writer { LeavesUnflushed K.Sink result writer.old writer.new }
{
    text.step = run.step();
    text.is_shown = shown.has(text.step);
    let advanced = run.advance_showing(executor, alloc, text);
    write_step_text(text, writer)?;
    match advanced {
        Ok(()) => Ok(()),
        Err(_) => Err(Failure::Memory),
    }
}

/// Writes the text of the road that a run has reached, if its step is shown.
fn show_last<K: Sink>(
    shown: &ShownSteps,
    text: &mut StepText,
    run: &Run,
    writer: &mut K,
) -> Result<(), Failure>
    requires { K.failed writer.old ≡ false }
    ensures road { IsRoadAt run.now.seed run.now.sheet run.now.step run.now.road }
    ensures wrote { AddsByResult result (bytes_of K.Sink writer.old) (bytes_of K.Sink writer.new)
        (shown_text (every_from shown.now.every shown.now.from) run.now.step run.now.road) }
    ensures writer { LeavesUnflushed K.Sink result writer.old writer.new }
{
    text.step = run.step();
    text.is_shown = shown.has(text.step);
    text.observe(run.road());
    write_step_text(text, writer)
}

/// Writes the pictures of a run from its start to the last step that is shown.
fn write_run<E: Executor, K: Sink>(
    executor: &E,
    alloc: Global,
    shown: &ShownSteps,
    run: &mut Run,
    steps: u32,
    writer: &mut K,
) -> Result<(), Failure>
    requires ready { E.is_ready executor.now }
    requires works { K.failed writer.old ≡ false }
    requires start { run.old.step ≡ 0 }
    ensures wrote { (job : Told) → IsStoredJob job
        → run.old ≡ at_start (seed_of job) (sheet_of job) → steps ≡ job.steps
        → WroteByResult (IsOutputForJob (every_from shown.now.every shown.now.from) job) result
        (bytes_of K.Sink writer.old) (bytes_of K.Sink writer.new) }
    ensures writer { LeavesUnflushed K.Sink result writer.old writer.new }
{
    let last = shown.last(steps);
    let mut text = StepText::new(alloc);
    for _ in 0..last {
        show_step(executor, alloc, shown, &mut text, run, writer)?;
    }
    show_last(shown, &mut text, run, writer)
}

/// The account of `run`: the pictures at the steps that are shown.
#[derive(Drop)]
struct StepPictures<'a> {
    shown: &'a ShownSteps,
}

impl<'a> Account for StepPictures<'a> {
    ghost outputs = { λ pictures job. IsOutputForJob (every_from pictures.shown.now.every pictures.shown.now.from) job };

    fn steps(&self, job: &Job) -> u32 {
        self.shown.last(job.steps)
    }

    fn write_job<E: Executor, K: Sink>(
        &self,
        executor: &E,
        alloc: Global,
        job: Job,
        writer: &mut K,
    ) -> Result<(), Failure> {
        let steps = job.steps;
        let mut run = run_of_job(alloc, job);
        let written = write_run(executor, alloc, self.shown, &mut run, steps, writer);
        drop(run);
        written
    }
}

/// Reads a job text, and writes the picture of its road at each step that is `shown`, or the line of the text's
/// first fault. The run ends with the last shown step, which no clause says. `progress` observes the steps.
///
/// The whole text is read and checked before a byte is written. If an allocation fails, or a call of the reader or
/// writer fails, a prefix of the whole output has been written. `workers`, 1 to 16, is the maximum number of threads
/// that compute the cars. Only as many as help are started, once for the whole run. The output does not depend on
/// `workers`.
pub fn run_shown_text<
    R: AllocGlobal + Threads + Wait + Sync,
    S: Source,
    K: Sink,
    O: ProgressObserver,
>(rt: &R, reader: &mut S, writer: &mut K, workers: u32, shown: &ShownSteps, progress: &O) -> End
    requires reader_works { S.failed reader.old ≡ false }
    requires writer_works { K.failed writer.old ≡ false }
    requires at_least_one_worker { 1 ≤ workers }
    requires at_most_max_workers { workers ≤ MAX_WORKERS }
    ensures { EngineEnds S.Source K.Sink (IsShownOutput (every_from shown.now.every shown.now.from)) result
        reader.old reader.new writer.old writer.new }
{
    run_pooled(
        rt,
        &StepPictures { shown },
        reader,
        writer,
        workers,
        progress,
    )
}
