//! The engine of sweeps: sweep texts in, tables of points out. All points are complete before the first line of the
//! table is written.

mod points;
mod runners;
mod work;

ghost use Rattle.std.specs.Prelude.{◌≡◌, ◌<◌, ◌≤◌, true, false, IfOk};
ghost use Rattle.trlab_campaign.specs.declared.end.End.TheVariants.{Memory};
ghost use Rattle.trlab_bounds.specs.declared.runs.TheConstants.{MAX_RUNNERS, MAX_WORKERS};
ghost use Rattle.trlab_campaign.specs.Ending.{WroteAtEnd, EngineEnds, LeavesWriter};
ghost use Rattle.trlab_campaign.specs.SweepOutput.{IsSweepOutput, IsOutputForSweep, ReturnsTable};
ghost use Rattle.trlab_campaign.specs.Writers.{AddsNone, bytes_of};

use crate::device::{Sink, Source};
use crate::end::{End, reject, write_output};
use crate::engine::{Engine, run_engine};
use crate::progress::ProgressObserver;
use crate::sweep::runners::Runners;
use crate::sweep::work::WorkGate;
use std::alloc::{AllocError, AllocGlobal, Global};
use std::sync::Wait;
use std::thread::Threads;
use trlab_diagram::points_text;
use trlab_jobs::{Sweep, read_sweep};
use trlab_texts::TextFault;

/// Computes the points of a sweep, and returns its table.
///
/// # Errors
///
/// If an allocation fails.
fn table<R: Threads + Wait + Sync, O: ProgressObserver + Sync>(
    rt: &R,
    alloc: Global,
    sweep: &Sweep,
    progress: &O,
    runners: u32,
    workers: u32,
) -> Result<Vec<u8>, AllocError>
    requires runners { (0 < runners) × (runners ≤ MAX_RUNNERS) }
    requires workers { (0 < workers) × (workers ≤ MAX_WORKERS) }
    ensures { IfOk result (λ text. IsOutputForSweep sweep.now false text.items) }
{
    let gate = WorkGate::new(sweep, progress);
    let runners = Runners {
        rt,
        alloc,
        sweep,
        gate: &gate,
        count: runners,
        workers,
    };
    let points = runners.points()?;
    gate.report_end();
    match points_text(alloc, &points) {
        Ok(text) => Ok(text),
        Err(_) => Err(AllocError),
    }
}

/// Writes the table of a sweep. Returns `Memory` if it could not be made.
fn write_table<K: Sink>(sweep: &Sweep, table: Result<Vec<u8>, AllocError>, writer: &mut K) -> End
    requires made { IfOk table (λ table. IsOutputForSweep sweep.now false table.items) }
    requires works { K.failed writer.old ≡ false }
    ensures ends { LeavesWriter K.Sink (WroteAtEnd (IsOutputForSweep sweep.now)) result writer.old writer.new }
    ensures kept { result ≡ Memory → AddsNone (bytes_of K.Sink writer.old) (bytes_of K.Sink writer.new) }
{
    match table {
        Ok(table) => write_output(false, &table, writer),
        Err(_) => End::Memory,
    }
}

/// The engine of sweep texts.
#[derive(Drop)]
struct SweepEngine<T> {
    /// Makes the table of a sweep. It is a closure because a method of an engine may not start threads that report
    /// progress.
    table: T,
}

impl<T: Fn(Global, &Sweep) -> Result<Vec<u8>, AllocError> + Drop> Engine for SweepEngine<T> {
    ghost is_ready = { λ engine. ReturnsTable (T.pre engine.table) (T.post engine.table) };

    ghost outputs = { λ _ text. IsSweepOutput text };

    ghost at_once = { true };

    fn write<K: Sink>(self, alloc: Global, text: &[u8], writer: &mut K) -> End {
        let sweep = match read_sweep(alloc, text) {
            Ok(sweep) => sweep,
            Err(TextFault::At { line, cause }) => return reject(alloc, line, cause, writer),
            Err(TextFault::Memory) => return End::Memory,
        };
        let table = (self.table)(alloc, &sweep);
        let end = write_table(&sweep, table, writer);
        drop(sweep);
        end
    }
}

/// Reads a sweep text, and writes the table of its points, or the line of the text's first fault. `progress`
/// observes the work on the points.
///
/// The whole text is read and checked, and all points are complete, before a byte is written. If an allocation fails,
/// nothing is written; if a call of the reader or writer fails, a prefix of the whole output. Each road is a job of a
/// book. `runners` runners, 1 to 16, take the jobs, each with at most `workers` workers, 1 to 16. The output does not
/// depend on these numbers.
pub fn run_sweep_with_progress<
    R: AllocGlobal + Threads + Wait + Sync,
    S: Source,
    K: Sink,
    O: ProgressObserver + Sync,
>(rt: &R, reader: &mut S, writer: &mut K, runners: u32, workers: u32, progress: &O) -> End
    requires reader_works { S.failed reader.old ≡ false }
    requires writer_works { K.failed writer.old ≡ false }
    requires at_least_one_runner { 1 ≤ runners }
    requires at_most_max_runners { runners ≤ MAX_RUNNERS }
    requires at_least_one_worker { 1 ≤ workers }
    requires at_most_max_workers { workers ≤ MAX_WORKERS }
    ensures ends { EngineEnds S.Source K.Sink IsSweepOutput result
        reader.old reader.new writer.old writer.new }
    ensures kept { result ≡ Memory → AddsNone (bytes_of K.Sink writer.old) (bytes_of K.Sink writer.new) }
{
    let engine = SweepEngine {
        table: |alloc: Global, sweep: &Sweep| -> Result<Vec<u8>, AllocError>
            requires runners { (0 < runners) × (runners ≤ MAX_RUNNERS) }
            requires workers { (0 < workers) × (workers ≤ MAX_WORKERS) }
        { table(rt, alloc, sweep, progress, runners, workers) },
    };
    run_engine(rt.alloc(), engine, reader, writer)
}
