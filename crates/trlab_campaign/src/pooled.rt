//! The engine of job texts, shared by `run` and `series`: a pool of workers computes the cars of the job's run, and
//! progress is reported. An `Account` writes the output meanwhile.

ghost use Rattle.std.specs.Thread.{IsSync};
ghost use Rattle.std.specs.Prelude.{◌≡◌, ◌<◌, ◌≤◌, false, IfSome, IsSome};
ghost use Rattle.trlab_bounds.specs.declared.runs.TheConstants.{MAX_WORKERS};
ghost use Rattle.trlab_jobs.specs.Job.{Job as Told, seed_of, sheet_of};
ghost use Rattle.trlab_step.specs.Run.{at_start};
ghost use Rattle.trlab_campaign.specs.Ending.{WroteAtEnd, EngineEnds, LeavesWriter, LeavesUnflushed, WroteByResult};
ghost use Rattle.trlab_campaign.specs.Output.{IsOutputForJobText, Outputs};
ghost use Rattle.trlab_campaign.specs.Writers.{bytes_of};

use crate::device::{Sink, Source};
use crate::end::{End, Failure, reject};
use crate::engine::{Engine, run_engine};
use crate::progress::{ProgressObserver, WithProgress};
use std::alloc::{AllocGlobal, Global};
use std::sync::Wait;
use std::thread::Threads;
use trlab_bounds::runs::MAX_WORKERS;
use trlab_jobs::{Job, read_job};
use trlab_segments::{Gate, OpenGate, Pool};
use trlab_step::{Executor, Run, RunSheet};
use trlab_texts::TextFault;

/// The kind of output that is written for a job: pictures or a series.
pub trait Account {
    // The possible whole outputs for a job, each marked as a rejection or not.
    ghost outputs: { Self → Told → Outputs };

    /// The number of steps by which it advances a job's run, for reports of progress.
    fn steps(&self, job: &Job) -> u32;

    /// Runs a job and writes the output, without flushing the writer.
    fn write_job<E: Executor, K: Sink>(
        &self,
        executor: &E,
        alloc: Global,
        job: Job,
        writer: &mut K,
    ) -> Result<(), Failure>
        requires ready { E.is_ready executor.now }
        requires works { K.failed writer.old ≡ false }
        ensures wrote { WroteByResult (outputs self.now job) result
            (bytes_of K.Sink writer.old) (bytes_of K.Sink writer.new) }
        ensures writer { LeavesUnflushed K.Sink result writer.old writer.new };
}

/// Writes the account of a job and flushes the writer.
fn write_account<C: Account, E: Executor, K: Sink>(
    account: &C,
    executor: &E,
    alloc: Global,
    job: Job,
    writer: &mut K,
) -> End
    requires ready { E.is_ready executor.now }
    requires works { K.failed writer.old ≡ false }
    ensures { LeavesWriter K.Sink (WroteAtEnd (C.outputs account.now job)) result writer.old writer.new }
{
    match account.write_job(executor, alloc, job, writer) {
        Ok(()) => match writer.flush() {
            Ok(()) => End::Done,
            Err(_) => End::DeviceFault,
        },
        Err(Failure::Memory) => End::Memory,
        Err(Failure::Device) => End::DeviceFault,
    }
}

/// Writes the account of a job and flushes the writer, while the helpers of a pool wait for the phases of the run.
fn write_by_pool<'x, R: Threads + Wait + Sync, G: Gate + Sync, C: Account, E: Executor, K: Sink>(
    alloc: Global,
    pool: &'x Pool<'x, R, G>,
    account: &'x C,
    executor: &'x E,
    job: Job,
    writer: &mut K,
) -> End
    requires ready { E.is_ready executor.now }
    requires works { K.failed writer.old ≡ false }
    ensures { LeavesWriter K.Sink (WroteAtEnd (C.outputs account.now job)) result writer.old writer.new }
{
    let mut job = Some(job);
    pool.run(
        alloc,
        &mut || -> End
            requires taken { IsSome job }
            requires ready { E.is_ready executor.now }
            requires works { K.failed writer.now ≡ false }
            ensures { IfSome job.entry (λ told. LeavesWriter K.Sink
                (WroteAtEnd (C.outputs account.entry.now told)) result writer.entry.now writer.exit.now) }
        {
            match job.take() {
                Some(job) => write_account(account, executor, alloc, job, writer),
                None => unreachable!(),
            }
        },
    )
}

/// Whether a rule of a job draws random numbers.
fn has_drawing_rule(job: &Job) -> bool {
    job.first.draws() || job.later.iter().any(|(_, rule)| rule.draws())
}

/// The engine of job texts, with at most `workers` workers.
#[derive(Drop)]
struct JobEngine<'a, R, C, O> {
    rt: &'a R,
    account: &'a C,
    workers: u32,
    progress: &'a O,
    ghost worker_count: { (0 < workers) × (workers ≤ MAX_WORKERS) },
}

impl<'a, R: Threads + Wait + Sync, C: Account, O: ProgressObserver> JobEngine<'a, R, C, O> {
    /// Writes the account of a job and flushes the writer. Starts only as many workers as speed up the job's road.
    fn drive<K: Sink>(&self, alloc: Global, job: Job, writer: &mut K) -> End
        requires works { K.failed writer.old ≡ false }
        ensures { LeavesWriter K.Sink (WroteAtEnd (C.outputs self.now.account.now job)) result writer.old writer.new }
    {
        let gate = OpenGate;
        let draws = has_drawing_rule(&job);
        let pool = Pool::new(self.rt, self.workers, &gate).with_workers_for(job.road.cars(), draws);
        let with_progress = WithProgress::new(&pool, self.progress, self.account.steps(&job));
        let end = write_by_pool(alloc, &pool, self.account, &with_progress, job, writer);
        with_progress.report_end(end);
        end
    }
}

impl<'a, R: Threads + Wait + Sync, C: Account, O: ProgressObserver> Engine
    for JobEngine<'a, R, C, O> {
    ghost is_ready = { λ _. IsSync R.row };

    ghost outputs = { λ engine text. IsOutputForJobText (C.outputs engine.account.now) text };

    ghost at_once = { false };

    fn write<K: Sink>(self, alloc: Global, text: &[u8], writer: &mut K) -> End {
        let job = match read_job(alloc, text) {
            Ok(job) => job,
            Err(TextFault::At { line, cause }) => return reject(alloc, line, cause, writer),
            Err(TextFault::Memory) => return End::Memory,
        };
        self.drive(alloc, job, writer)
    }
}

/// The run of a job, at its start.
pub fn run_of_job(alloc: Global, job: Job) -> Run
    ensures { result ≡ at_start (seed_of job) (sheet_of job) }
{
    let Job {
        key,
        road,
        first,
        later,
        steps: _,
    } = job;
    Run::new(alloc, key, 0, 0, road, RunSheet::new(first, later))
}

/// Reads a job text, and writes the account of its run, or the line of the text's first fault. A pool of at most
/// `workers` workers computes the cars.
pub fn run_pooled<
    R: AllocGlobal + Threads + Wait + Sync,
    C: Account,
    S: Source,
    K: Sink,
    O: ProgressObserver,
>(rt: &R, account: &C, reader: &mut S, writer: &mut K, workers: u32, progress: &O) -> End
    requires reader_works { S.failed reader.old ≡ false }
    requires writer_works { K.failed writer.old ≡ false }
    requires at_least_one_worker { 1 ≤ workers }
    requires at_most_max_workers { workers ≤ MAX_WORKERS }
    ensures { EngineEnds S.Source K.Sink (IsOutputForJobText (C.outputs account.now)) result
        reader.old reader.new writer.old writer.new }
{
    run_engine(
        rt.alloc(),
        JobEngine {
            rt,
            account,
            workers,
            progress,
        },
        reader,
        writer,
    )
}
