//! A book of jobs that two threads share.

ghost use Rattle.std.specs.Prelude.{◌≡◌};
ghost use Rattle.trlab_strands.specs.Tokens.{name_of};

use std::alloc::{AllocGlobal, Global};
use std::sync::Wait;
use std::thread::Threads;
use trlab_book::{Desk, SharedBook, run_jobs};
use trlab_road::Road;
use trlab_rules::nasch;
use trlab_segments::OpenGate;
use trlab_sequential_book::{Event, Seed};
use trlab_strands::{Blank, Ledger};
use trlab_words::{CERTAIN, Chance, Key};

const JOBS: u32 = 2;

const STEPS: u32 = 200;

/// The number of threads that run jobs.
const RUNNERS: u32 = 2;

/// The number of threads that run each step of a job.
const WORKERS: u32 = 1;

/// A job's road and random seed: ten stopped cars, evenly spaced on a lane of 100 cells. The cars' random numbers
/// depend on `number`.
fn new_seed(alloc: Global, number: u32) -> Option<Seed> {
    let (lanes, length, limit, cars) = (1, 100, 5, 10);
    Some(Seed {
        road: Road::even(alloc, lanes, length, limit, cars).ok()?,
        key: Key([0; 32]),
        number,
        warm: 0,
    })
}

/// Submits a job of `STEPS` steps whose cars brake with probability 1/4. Returns the job's number in the book.
fn submit<L: Ledger, R: Wait>(
    rt: &R,
    alloc: Global,
    book: &SharedBook<L>,
    desk: &mut Desk<L>,
    number: u32,
) -> Option<u32> {
    let rule = nasch(alloc, Chance::new(CERTAIN / 4)?).ok()?;
    let seed = new_seed(alloc, number)?;
    book.submit(rt, alloc, desk, seed, rule, STEPS).ok()
}

/// Runs all jobs of a book to their end. Each runner calls the book through a part of the desk, so the desk must have
/// `RUNNERS` parts. Returns the desk.
fn run<L: Ledger + Send + Sync, R: Threads + Wait + Sync>(
    rt: &R,
    alloc: Global,
    book: &SharedBook<L>,
    desk: Desk<L>,
) -> Option<Desk<L>> {
    if desk.parts() < RUNNERS {
        return None;
    }
    run_jobs(rt, alloc, book, desk, RUNNERS, WORKERS, &OpenGate).ok()
}

/// Prints the number of steps that a job has done, and the number of cells that its cars drove.
fn show<L: Ledger, R: Wait + Print>(
    rt: &R,
    alloc: Global,
    book: &SharedBook<L>,
    desk: &mut Desk<L>,
    job: u32,
) -> Option<()> {
    let snapshot = book.read(rt, alloc, desk, job).ok()?;
    let (step, distance) = (snapshot.step(), snapshot.tally().distance);
    println!(rt; "job {job}: {step} steps, {distance} cells").ok()
}

/// Submits jobs to a new book, runs them, and prints the result of each. `None` if an allocation or printing fails.
pub fn share<L: Ledger + Send + Sync, R: AllocGlobal + Threads + Wait + Sync + Print>(
    rt: &R,
    blank: Blank<Event>,
) -> Option<()>
    requires name { name_of blank ≡ L.name }
{
    let alloc = rt.alloc();
    let (book, mut desk) = SharedBook::<L>::start(alloc, blank);
    for number in 0..JOBS {
        submit(rt, alloc, &book, &mut desk, number)?;
    }
    let mut desk = run(rt, alloc, &book, desk)?;
    for job in 0..JOBS {
        show(rt, alloc, &book, &mut desk, job)?;
    }
    book.close(desk).ok()?;
    Some(())
}
