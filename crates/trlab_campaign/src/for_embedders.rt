//! The engines of `run` and `sweep` without options: every step, and no reports of progress.
//!
//! Programs that embed trlab call them, and so do its tests. trlab itself calls `run_shown_text` and
//! `run_sweep_with_progress`.

ghost use Rattle.std.specs.Prelude.{◌≡◌, ◌≤◌, false};
ghost use Rattle.trlab_bounds.specs.declared.runs.TheConstants.{MAX_RUNNERS, MAX_WORKERS};
ghost use Rattle.trlab_campaign.specs.declared.end.End.TheVariants.{Memory};
ghost use Rattle.trlab_campaign.specs.Ending.{EngineEnds};
ghost use Rattle.trlab_campaign.specs.Output.{IsOutput};
ghost use Rattle.trlab_campaign.specs.SweepOutput.{IsSweepOutput};
ghost use Rattle.trlab_campaign.specs.Writers.{AddsNone, bytes_of};

use crate::device::{Sink, Source};
use crate::end::End;
use crate::progress::NoProgress;
use crate::run::{ShownSteps, run_shown_text};
use crate::sweep::run_sweep_with_progress;
use std::alloc::AllocGlobal;
use std::sync::Wait;
use std::thread::Threads;

/// Reads a job text, and writes the picture of its road at each step: `run_shown_text` with every step and without
/// reports of progress. Returns how it ended.
pub fn run_job_text<R: AllocGlobal + Threads + Wait + Sync, S: Source, K: Sink>(
    rt: &R,
    reader: &mut S,
    writer: &mut K,
    workers: u32,
) -> End
    requires reader_works { S.failed reader.old ≡ false }
    requires writer_works { K.failed writer.old ≡ false }
    requires at_least_one_worker { 1 ≤ workers }
    requires at_most_max_workers { workers ≤ MAX_WORKERS }
    ensures { EngineEnds S.Source K.Sink IsOutput result
        reader.old reader.new writer.old writer.new }
{
    run_shown_text(
        rt,
        reader,
        writer,
        workers,
        &ShownSteps::new(1, 0),
        &NoProgress,
    )
}

/// Reads a sweep text, and writes the table of its points: `run_sweep_with_progress` without reports of progress.
pub fn run_sweep_text<R: AllocGlobal + Threads + Wait + Sync, S: Source, K: Sink>(
    rt: &R,
    reader: &mut S,
    writer: &mut K,
    runners: u32,
    workers: u32,
) -> End
    requires reader_works { S.failed reader.old ≡ false }
    requires writer_works { K.failed writer.old ≡ false }
    requires at_least_one_runner { 1 ≤ runners }
    requires at_most_max_runners { runners ≤ MAX_RUNNERS }
    requires at_least_one_worker { 1 ≤ workers }
    requires at_most_max_workers { workers ≤ MAX_WORKERS }
    ensures ends { EngineEnds S.Source K.Sink IsSweepOutput result
        reader.old reader.new writer.old writer.new }
    ensures kept { result ≡ Memory → AddsNone (bytes_of K.Sink writer.old) (bytes_of K.Sink writer.new) }
{
    run_sweep_with_progress(rt, reader, writer, runners, workers, &NoProgress)
}
