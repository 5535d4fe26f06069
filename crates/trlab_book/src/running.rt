//! Runners, which take the jobs of a book, one lease after the other.

ghost use Rattle.std.specs.Prelude.{◌≡◌, ◌↔◌, ◌⊎◌, ◌<◌, ◌≤◌, Ok, Err, IsOk, MatchOption, MatchResult, true};
ghost use Rattle.std.specs.Thread.{IsSend, IsSync};
ghost use Rattle.trlab_bounds.specs.declared.runs.TheConstants.{MAX_RUNNERS, MAX_WORKERS};
ghost use Rattle.trlab_sequential_book.specs.declared.book.TheConstants.{MAX_EVENTS};
ghost use Rattle.trlab_sequential_book.specs.declared.fault.BookFault.TheVariants.{HistoryFull};
ghost use Rattle.trlab_sequential_book.specs.declared.event.Reply.TheVariants.{Refused};
ghost use Rattle.trlab_sequential_book.specs.Histories.{is_event};
ghost use Rattle.trlab_sequential_book.specs.Leases.{IsLease};
ghost use Rattle.trlab_book.specs.Desks.{AddsRunnerCalls, EndsAt, EndsTurn, Goes, HasEnded, RunsSteps, clock_of, part_count};
ghost use Rattle.trlab_book.specs.HeldLeases.{Idle, Over};
ghost use Rattle.trlab_book.specs.declared.running.RunFault.TheVariants as run;

use crate::desk::{Desk, SharedBook};
use crate::team::Team;
use std::alloc::Global;
use std::fmt::Debug;
use std::sync::Wait;
use std::thread::{Threads, join};
use thiserror::Error;
use trlab_segments::Gate;
use trlab_sequential_book::{BookFault, Lease, LeaseFault};
use trlab_strands::Ledger;

/// Why a runner ended although jobs may be left.
#[derive(Clone, Copy, PartialEq, Eq, Debug, Error)]
pub enum RunFault {
    /// An allocation failed.
    #[error("out of memory")]
    Memory,
    /// The book has had `MAX_EVENTS` events.
    #[error("the book's history is full")]
    HistoryFull,
}

/// Runs the jobs of a book with 1 to `MAX_RUNNERS` runners, each until it finds no free job. Each runner has 1 to
/// `MAX_WORKERS` workers, which pass the gate. Returns the desk; the runners' calls follow its own, one runner after
/// the other.
///
/// If it succeeds, each lease that a runner took was given back, or another call had ended it, so that the book refused
/// it. The laws `leases_refused_to_runners_are_not_out` and `jobs_are_over` say what follows for the jobs.
///
/// The desk needs a part for each runner. The calling thread is one of the runners. It begins after the others were
/// started, and does the work of any that cannot be started.
///
/// # Errors
///
/// `HistoryFull` if any runner found the history full, otherwise `Memory` if an allocation failed. The desk is returned
/// with the fault.
pub fn run_jobs<L: Ledger + Send + Sync, R: Threads + Wait + Sync, G: Gate + Sync>(
    rt: &R,
    alloc: Global,
    book: &SharedBook<L>,
    desk: Desk<L>,
    runners: u32,
    workers: u32,
    gate: &G,
) -> Result<Desk<L>, (Desk<L>, RunFault)>
    requires workers { (0 < workers) × (workers ≤ MAX_WORKERS) }
    requires runners { (0 < runners) × (runners ≤ MAX_RUNNERS) × (runners ≤ part_count desk) }
    ensures { MatchResult result
        (λ d. HasEnded runners (Ok tt) desk d)
        (λ e. HasEnded runners (Err e.1) desk e.0) }
{
    let (desk, ended) = run_all(rt, alloc, book, desk, runners, workers, gate);
    match ended {
        Ok(()) => Ok(desk),
        Err(fault) => Err((desk, fault)),
    }
}

/// `run_jobs`, with the desk and the result as a pair. Each other runner takes one part of the desk; the calling thread
/// keeps the rest.
fn run_all<L: Ledger + Send + Sync, R: Threads + Wait + Sync, G: Gate + Sync>(
    rt: &R,
    alloc: Global,
    book: &SharedBook<L>,
    desk: Desk<L>,
    runners: u32,
    workers: u32,
    gate: &G,
) -> (Desk<L>, Result<(), RunFault>)
    requires workers { (0 < workers) × (workers ≤ MAX_WORKERS) }
    requires runners { (0 < runners) × (runners ≤ part_count desk) }
    ensures { HasEnded runners result.1 desk result.0 }
{
    let mut desk = desk;
    let others = runners - 1;
    if others == 0 {
        let ended = run_one(rt, alloc, book, &mut desk, workers, gate);
        return (desk, ended);
    }
    let mut theirs = book.split(&mut desk);
    let ((theirs, one), (mine, other)) = join(
        rt,
        move || -> (Desk<L>, Result<(), RunFault>)
            requires { IsSync R.row × IsSync G.row × (0 < workers) × (workers ≤ MAX_WORKERS) }
            ensures { HasEnded 1 result.1 theirs result.0 }
        {
            let ended = run_one(rt, alloc, book, &mut theirs, workers, gate);
            (theirs, ended)
        },
        move || -> (Desk<L>, Result<(), RunFault>)
            requires { IsSync R.row × IsSync G.row × IsSend L.row × IsSync L.row
                × (0 < workers) × (workers ≤ MAX_WORKERS) × (0 < others) × (others ≤ part_count desk) }
            ensures { HasEnded others result.1 desk result.0 }
        { run_all(rt, alloc, book, desk, others, workers, gate) },
    );
    (book.gather(mine, theirs), first_fault(one, other))
}

/// Joins the results of two runners: `HistoryFull` if either has it, otherwise `Memory` if either has it.
pub fn first_fault(one: Result<(), RunFault>, other: Result<(), RunFault>) -> Result<(), RunFault>
    ensures fine { IsOk result ↔ (IsOk one × IsOk other) }
    ensures full_history { (result ≡ Err run.HistoryFull) ↔ ((one ≡ Err run.HistoryFull) ⊎ (other ≡ Err run.HistoryFull)) }
{
    match (one, other) {
        (Err(RunFault::HistoryFull), _) | (_, Err(RunFault::HistoryFull)) => {
            Err(RunFault::HistoryFull)
        }
        (Err(fault), _) | (_, Err(fault)) => Err(fault),
        (Ok(()), Ok(())) => Ok(()),
    }
}

/// The maximum number of steps that a runner takes before it gives its lease back.
const STEPS_PER_TURN: u32 = 32;

/// Runs jobs until none is free. The workers live as long as the runner.
fn run_one<L: Ledger, R: Threads + Wait + Sync, G: Gate + Sync>(
    rt: &R,
    alloc: Global,
    book: &SharedBook<L>,
    desk: &mut Desk<L>,
    workers: u32,
    gate: &G,
) -> Result<(), RunFault>
    requires { (0 < workers) × (workers ≤ MAX_WORKERS) }
    ensures { HasEnded 1 result desk.old desk.new }
{
    let runner = Runner {
        rt,
        alloc,
        book,
        team: Team::new(rt, workers, gate),
    };
    runner.team.pool.run(
        alloc,
        &mut || -> Result<(), RunFault>
            ensures { HasEnded 1 result desk.entry.now desk.exit.now }
        { runner.take_leases(desk) },
    )
}

/// One runner: the book whose jobs it runs, and its workers.
#[derive(Drop)]
struct Runner<'a, L: Ledger, R, G> {
    rt: &'a R,
    alloc: Global,
    book: &'a SharedBook<L>,
    team: Team<'a, R, G>,
}

impl<'a, L: Ledger, R: Threads + Wait + Sync, G: Gate + Sync> Runner<'a, L, R, G> {
    /// Takes leases until no job is free.
    fn take_leases(&self, desk: &mut Desk<L>) -> Result<(), RunFault>
        ensures { HasEnded 1 result desk.old desk.new }
    {
        for _ in self.rt.forever() {
            if let Some(ended) = self.take_free(desk) {
                return ended;
            }
        }
        Ok(())
    }

    /// Leases a free job for one turn. Returns the result of the runner if it ends, because no job is free or after a
    /// fault; otherwise `None`.
    fn take_free(&self, desk: &mut Desk<L>) -> Option<Result<(), RunFault>>
        ensures { MatchOption result (Goes Idle Idle desk.old desk.new)
            (λ ended. EndsAt Idle Over 1 ended desk.old desk.new) }
    {
        match self.book.lease(self.rt, self.alloc, desk) {
            Ok(Some(lease)) => match self.take_turn(desk, lease) {
                Ok(()) => None,
                Err(fault) => Some(Err(fault)),
            },
            Ok(None) => Some(Ok(())),
            Err(BookFault::HistoryFull) => Some(Err(RunFault::HistoryFull)),
            Err(_) => Some(Err(RunFault::Memory)),
        }
    }

    /// Runs up to `STEPS_PER_TURN` steps of a lease and gives it back.
    fn take_turn(&self, desk: &mut Desk<L>, lease: Lease) -> Result<(), RunFault>
        ensures turn { EndsTurn lease result desk.old desk.new }
        ensures lease { IsLease lease }
    {
        let mut lease = lease;
        match self.run_steps(desk, &mut lease) {
            Ok(()) => match self.book.give_back(self.rt, desk, lease) {
                Ok(()) => Ok(()),
                Err((lease, fault)) => self.end_lease(desk, lease, fault),
            },
            Err(fault) => self.end_lease(desk, lease, fault),
        }
    }

    /// Orders and runs up to `STEPS_PER_TURN` steps, but none beyond the end of the job. The book's lock is not held
    /// while a step runs.
    fn run_steps(&self, desk: &mut Desk<L>, lease: &mut Lease) -> Result<(), BookFault>
        ensures ran { RunsSteps lease.old lease.new result desk.old desk.new }
        ensures lease { IsLease lease.old }
        ensures full_history { result ≡ Err HistoryFull → MAX_EVENTS ≤ clock_of desk.new }
    {
        for _ in 0..STEPS_PER_TURN {
            if lease.step() >= lease.steps() {
                return Ok(());
            }
            let order = match self.book.order(self.rt, self.alloc, desk, lease) {
                Ok(order) => order,
                Err(fault) => return Err(fault),
            };
            let ran = self.team.take_step(self.alloc, lease, &order);
            drop(order);
            match ran {
                Ok(()) => {}
                // Never: each order fits its lease.
                Err(LeaseFault::WrongOrder) => return Err(BookFault::StrangerLease),
                Err(LeaseFault::Memory) => return Err(BookFault::Memory),
            }
        }
        Ok(())
    }

    /// Drops a lease after a fault. If an allocation failed, the lease is revoked, so that others can take the job, and
    /// the runner ends with `Memory`, or with `HistoryFull` if the history is full. If the book no longer accepts the
    /// lease, the runner goes on.
    fn end_lease(&self, desk: &mut Desk<L>, lease: Lease, fault: BookFault) -> Result<(), RunFault>
        requires seen { fault ≡ HistoryFull → MAX_EVENTS ≤ clock_of desk.old }
        ensures on { AddsRunnerCalls desk.old desk.new }
        ensures over { IsOk result → (is_event (Refused fault) ≡ true) × (desk.new ≡ desk.old) }
        ensures full_history { result ≡ Err run.HistoryFull → MAX_EVENTS ≤ clock_of desk.new }
    {
        let job = lease.job();
        drop(lease);
        match fault {
            BookFault::HistoryFull => Err(RunFault::HistoryFull),
            BookFault::Memory => match self.book.revoke(self.rt, desk, job) {
                Err(BookFault::HistoryFull) => Err(RunFault::HistoryFull),
                Ok(()) | Err(_) => Err(RunFault::Memory),
            },
            _ => Ok(()),
        }
    }
}
