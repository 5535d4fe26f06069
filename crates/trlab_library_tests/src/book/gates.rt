//! A book can be called while a gate holds its runner.

ghost use Rattle.std.specs.Prelude.{◌≡◌, ◌≤◌};
ghost use Rattle.trlab_book.specs.Desks.{part_count};
ghost use Rattle.trlab_strands.specs.Tokens.{name_of};

use crate::book::common::books::{desk_and_success, history_of, new_blank, reads, replace, submit};
use crate::book::common::expected::ExpectedRead;
use crate::book::common::jobs::{ALWAYS, NEVER, two_cars};
use crate::book::common::meeting::waits_for;
use std::alloc::Global;
use std::marker::Brand;
use std::sync::Wait;
use std::sync::atomic::{AtomicBool, Ordering};
use std::thread::{Threads, join};
use trlab_book::{Desk, SharedBook, run_jobs};
use trlab_segments::Gate;
use trlab_sequential_book::{BookFault, Call, Event, Reply};
use trlab_strands::{Blank, Ledger};

/// The number of runners.
const RUNNERS: u32 = 1;

/// The number of workers of the runner.
const WORKERS: u32 = 1;

/// A gate that sets `has_come` when a segment comes, and holds the segment until `is_open` is set.
#[derive(Drop)]
struct Barrier {
    has_come: AtomicBool,
    is_open: AtomicBool,
}

impl Gate for Barrier {
    fn pass(&self, _number: u32, _worker: u32, _phase: u32, _segment: u32) {
        self.has_come.store(true, Ordering::SeqCst);
        waits_for(&self.is_open);
    }
}

/// How the lease of the runner at the barrier ends.
#[derive(Clone, Copy)]
enum LeaseEnd {
    /// It is revoked, and the rule of its job replaced.
    Revoked,
    /// Its job is cancelled.
    Cancelled,
}

/// Ends the lease of job 0.
fn end_lease<L: Ledger, R: Wait>(
    rt: &R,
    alloc: Global,
    book: &SharedBook<L>,
    desk: &mut Desk<L>,
    end: LeaseEnd,
) -> bool {
    match end {
        LeaseEnd::Revoked => {
            book.revoke(rt, desk, 0) == Ok(()) && replace(rt, alloc, book, desk, 0, ALWAYS) == Ok(1)
        }
        LeaseEnd::Cancelled => book.cancel(rt, desk, 0) == Ok(()),
    }
}

/// Ends the lease of the runner at the barrier, and opens the barrier.
fn end_held<L: Ledger, R: Wait>(
    rt: &R,
    alloc: Global,
    book: &SharedBook<L>,
    mut desk: Desk<L>,
    gate: &Barrier,
    end: LeaseEnd,
) -> (Desk<L>, bool) {
    let came = waits_for(&gate.has_come);
    let ended = end_lease(rt, alloc, book, &mut desk, end);
    gate.is_open.store(true, Ordering::SeqCst);
    (desk, came && ended)
}

/// Runs the jobs of a book with a runner that is held while its lease ends. Returns whether the runner and the calls
/// meanwhile have the expected answers.
fn run_held<L: Ledger + Send + Sync, R: Threads + Wait + Sync>(
    rt: &R,
    alloc: Global,
    book: &SharedBook<L>,
    mut mine: Desk<L>,
    end: LeaseEnd,
) -> (Desk<L>, bool) {
    if mine.parts() < 2 {
        return (mine, false);
    }
    let gate = Barrier {
        has_come: AtomicBool::new(false),
        is_open: AtomicBool::new(false),
    };
    let theirs = book.split(&mut mine);
    let ((theirs, ended), (mine, ran)) = join(
        rt,
        || end_held(rt, alloc, book, theirs, &gate, end),
        || -> (Desk<L>, bool)
            requires { 1 ≤ part_count mine }
        { desk_and_success(run_jobs(rt, alloc, book, mine, RUNNERS, WORKERS, &gate)) },
    );
    (book.gather(mine, theirs), ended && ran)
}

/// The expected read of the job: its four steps are done under two rules, or none because it was cancelled.
fn expected_read(end: LeaseEnd) -> ExpectedRead<'static> {
    match end {
        LeaseEnd::Revoked => ExpectedRead {
            steps: 4,
            picture: b".0....1...",
            rules: &[(0, NEVER), (1, ALWAYS)],
        },
        LeaseEnd::Cancelled => ExpectedRead {
            steps: 0,
            picture: b"0.0.......",
            rules: &[(0, NEVER)],
        },
    }
}

/// Submits a job, runs it with `run_held` and reads it. Returns whether exactly one of the runner's orders is refused,
/// because its lease ends during its first step, and all else is as expected.
fn is_refused_once<L: Ledger + Send + Sync, R: Threads + Wait + Sync>(
    rt: &R,
    alloc: Global,
    blank: Blank<Event>,
    end: LeaseEnd,
) -> bool
    requires name { name_of blank ≡ L.name }
{
    let (book, mut desk) = SharedBook::<L>::start(alloc, blank);
    let submitted = submit(rt, alloc, &book, &mut desk, &two_cars(0, 4)) == Ok(0);
    let (mut desk, ended) = run_held(rt, alloc, &book, desk, end);
    let is_right = reads(rt, alloc, &book, &mut desk, 0, &expected_read(end));
    match history_of(book, desk) {
        Some(history) => submitted && ended && is_right && refused_orders(&history, end) == 1,
        None => false,
    }
}

/// The number of orders in the history that are refused because the lease has ended in this way.
fn refused_orders(history: &[Event], end: LeaseEnd) -> u32 {
    let fault = match end {
        LeaseEnd::Revoked => BookFault::StrangerLease,
        LeaseEnd::Cancelled => BookFault::Ended,
    };
    let mut refused = 0u32;
    for event in history {
        let is_order = matches!(event.call, Call::Order(_));
        if is_order && event.reply == Reply::Refused(fault) {
            refused = refused.saturating_add(1);
        }
    }
    refused
}

#[test]
fn a_lease_ends_while_its_runner_is_held(rt: HostRuntime) {
    for end in &[LeaseEnd::Revoked, LeaseEnd::Cancelled] {
        let blank = new_blank(rt.alloc()).expect(&rt, "memory");
        assert!(rt; is_refused_once::<Brand, HostRuntime>(&rt, rt.alloc(), blank, *end));
    }
}
