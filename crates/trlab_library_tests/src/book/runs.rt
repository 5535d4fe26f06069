//! Several runners run the jobs of a new book. Then the jobs are read, and the book is closed.
//!
//! A submit or a read is made once more if an allocation failed, and runners run again. So a test whose runners do not
//! wait for each other passes even if any one allocation fails. If a runner dropped a lease without a revoke, the lease
//! would stay out and its job unfinished.

ghost use Rattle.std.specs.Prelude.{◌≡◌, ◌<◌, ◌≤◌};
ghost use Rattle.trlab_bounds.specs.declared.runs.TheConstants.{MAX_RUNNERS, MAX_WORKERS};
ghost use Rattle.trlab_strands.specs.Tokens.{name_of};

use crate::book::common::books::{desk_and_success, events_of, new_blank, reads, submit};
use crate::book::common::expected::ExpectedRead;
use crate::book::common::jobs::{BY_HALF, NEVER, TestJob};
use crate::book::common::meeting::Meeting;
use std::alloc::Global;
use std::marker::Brand;
use std::sync::Wait;
use std::thread::Threads;
use trlab_book::{Desk, RunFault, SharedBook, run_jobs};
use trlab_segments::{Gate, OpenGate};
use trlab_sequential_book::Event;
use trlab_strands::{Blank, Ledger};

/// The number of steps of each job.
const STEPS: u32 = 40;

/// A kind of jobs, on one lane.
#[derive(Clone, Copy)]
struct JobKind {
    /// The picture at the start.
    start: &'static [u8],
    /// The braking probability times 2^31.
    chance: u32,
    /// The picture after the last step, as one worker computes it.
    end: &'static [u8],
}

/// The kinds of jobs, by the numbers of their roads.
const KINDS: [JobKind; 4] = [
    // From the fifth step on, each car drives 4 cells per step, with a gap of 4 cells.
    JobKind {
        start: b"0.0.......",
        chance: NEVER,
        end: b".4....4...",
    },
    JobKind {
        start: b"0.00......",
        chance: BY_HALF,
        end: b"..0.1..1..",
    },
    JobKind {
        start: b"0.........",
        chance: BY_HALF,
        end: b"........5.",
    },
    JobKind {
        start: b"..........",
        chance: BY_HALF,
        end: b"..........",
    },
];

/// Submits a job of the kind of its number. Returns whether the book accepts it under this number.
fn is_submitted<L: Ledger, R: Wait>(
    rt: &R,
    alloc: Global,
    book: &SharedBook<L>,
    desk: &mut Desk<L>,
    number: u32,
) -> bool {
    let kind = number % 4;
    let JobKind { start, chance, .. } = KINDS[kind as usize];
    let job = TestJob {
        picture: start,
        number: kind,
        chance,
        steps: STEPS,
    };
    submit(rt, alloc, book, desk, &job) == Ok(number)
}

/// Submits jobs 0 to `jobs` - 1. Returns whether the book accepts them.
fn fill<L: Ledger, R: Wait>(
    rt: &R,
    alloc: Global,
    book: &SharedBook<L>,
    desk: &mut Desk<L>,
    jobs: u32,
) -> bool {
    for number in 0..jobs {
        let submitted = is_submitted(rt, alloc, book, desk, number)
            || is_submitted(rt, alloc, book, desk, number);
        if !submitted {
            return false;
        }
    }
    true
}

/// The number of runners, and the number of workers of each.
#[derive(Clone, Copy)]
struct Workforce {
    count: u32,
    workers: u32,
}

/// Runs the jobs of a book with runners whose workers pass a gate, again if an allocation failed. Returns whether the
/// runners succeeded.
fn run<L: Ledger + Send + Sync, R: Threads + Wait + Sync, G: Gate + Sync>(
    rt: &R,
    alloc: Global,
    book: &SharedBook<L>,
    desk: Desk<L>,
    runners: Workforce,
    gate: &G,
) -> (Desk<L>, bool)
    requires workers { (0 < runners.workers) × (runners.workers ≤ MAX_WORKERS) }
    requires count { (0 < runners.count) × (runners.count ≤ MAX_RUNNERS) }
{
    let Workforce { count, workers } = runners;
    if desk.parts() < count {
        return (desk, false);
    }
    match run_jobs(rt, alloc, book, desk, count, workers, gate) {
        Err((desk, RunFault::Memory)) => {
            desk_and_success(run_jobs(rt, alloc, book, desk, count, workers, gate))
        }
        ran => desk_and_success(ran),
    }
}

/// Whether each job has come to the end of its kind. A job is read twice if an allocation fails.
fn are_right<L: Ledger, R: Wait>(
    rt: &R,
    alloc: Global,
    book: &SharedBook<L>,
    desk: &mut Desk<L>,
    jobs: u32,
) -> bool {
    for job in 0..jobs {
        let JobKind { chance, end, .. } = KINDS[(job % 4) as usize];
        let rules = [(0u32, chance)];
        let wanted = ExpectedRead {
            steps: STEPS,
            picture: end,
            rules: rules.as_slice(),
        };
        let is_right = reads(rt, alloc, book, desk, job, &wanted)
            || reads(rt, alloc, book, desk, job, &wanted);
        if !is_right {
            return false;
        }
    }
    true
}

/// Whether runners whose workers pass a gate finish the jobs of a new book, and their desk closes it.
fn passes<L: Ledger + Send + Sync, R: AllocGlobal + Threads + Wait + Sync, G: Gate + Sync>(
    rt: &R,
    blank: Blank<Event>,
    jobs: u32,
    runners: Workforce,
    gate: &G,
) -> bool
    requires name { name_of blank ≡ L.name }
    requires workers { (0 < runners.workers) × (runners.workers ≤ MAX_WORKERS) }
    requires count { (0 < runners.count) × (runners.count ≤ MAX_RUNNERS) }
{
    let alloc = rt.alloc();
    let (book, mut desk) = SharedBook::<L>::start(alloc, blank);
    let filled = fill(rt, alloc, &book, &mut desk, jobs);
    let (mut desk, ran) = run(rt, alloc, &book, desk, runners, gate);
    let are_right = are_right(rt, alloc, &book, &mut desk, jobs);
    events_of(book, desk).is_some() && filled && ran && are_right
}

/// `passes` with a new blank.
fn passes_anew<R: AllocGlobal + Threads + Wait + Sync, G: Gate + Sync>(
    rt: &R,
    jobs: u32,
    runners: Workforce,
    gate: &G,
) -> bool
    requires workers { (0 < runners.workers) × (runners.workers ≤ MAX_WORKERS) }
    requires count { (0 < runners.count) × (runners.count ≤ MAX_RUNNERS) }
{
    match new_blank(rt.alloc()) {
        Ok(blank) => passes::<Brand, _, _>(rt, blank, jobs, runners, gate),
        Err(_) => false,
    }
}

// First a few runners run many jobs, then many runners run a few.
#[test]
fn runners_run_all_jobs(rt: HostRuntime) {
    let few = Workforce {
        count: 4,
        workers: 2,
    };
    let many = Workforce {
        count: 16,
        workers: 16,
    };
    assert!(rt; passes_anew(&rt, 16, few, &OpenGate) && passes_anew(&rt, 4, many, &OpenGate));
}

#[test]
fn two_runners_run_at_once(rt: HostRuntime) {
    let runners = Workforce {
        count: 2,
        workers: 1,
    };
    let gate = Meeting::new();
    assert!(rt; passes_anew(&rt, 2, runners, &gate) && gate.took_place());
}
