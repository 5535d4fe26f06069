//! Desks in several threads, and a book that is closed with one of two desks.

ghost use Rattle.std.specs.Prelude.{◌≡◌, ◌<◌, ◌≤◌};
ghost use Rattle.std.specs.Thread.{IsSend, IsSync};
ghost use Rattle.trlab_book.specs.Desks.{part_count};
ghost use Rattle.trlab_strands.specs.Tokens.{name_of};

use crate::book::common::books::{events_of, new_blank, reads, replace, submit};
use crate::book::common::expected::ExpectedRead;
use crate::book::common::jobs::{NEVER, two_cars};
use std::alloc::Global;
use std::marker::Brand;
use std::sync::Wait;
use std::thread::{Threads, join};
use trlab_book::{ALL_PARTS, Desk, SharedBook};
use trlab_sequential_book::Event;
use trlab_strands::{Blank, Ledger};

/// The number of threads that call the book.
const THREADS: u32 = 4;

/// How often each thread replaces the rule of its job and reads the job.
const ROUNDS: u32 = 25;

/// The expected read of a job that has done no step.
const NEW_JOB: ExpectedRead<'static> = ExpectedRead {
    steps: 0,
    picture: b"0.0.......",
    rules: &[(0, NEVER)],
};

/// Submits a job, and replaces its rule and reads it in turn. Returns whether all calls have the expected answers.
fn makes_all<L: Ledger, R: Wait>(
    rt: &R,
    alloc: Global,
    book: &SharedBook<L>,
    desk: &mut Desk<L>,
) -> bool {
    let Ok(job) = submit(rt, alloc, book, desk, &two_cars(0, 4)) else {
        return false;
    };
    for _ in 0..ROUNDS {
        let made = replace(rt, alloc, book, desk, job, NEVER) == Ok(0)
            && reads(rt, alloc, book, desk, job, &NEW_JOB);
        if !made {
            return false;
        }
    }
    true
}

/// Makes the calls of one thread at its desk. Returns the desk and whether all calls have the expected answers.
fn at_desk<L: Ledger, R: Wait>(
    rt: &R,
    alloc: Global,
    book: &SharedBook<L>,
    mut desk: Desk<L>,
) -> (Desk<L>, bool) {
    let made = makes_all(rt, alloc, book, &mut desk);
    (desk, made)
}

/// Makes the calls of `threads` threads, each at its own desk. Returns the gathered desks, and whether all calls have
/// the expected answers.
fn at_desks<L: Ledger + Send + Sync, R: Threads + Wait + Sync>(
    rt: &R,
    alloc: Global,
    book: &SharedBook<L>,
    mut desk: Desk<L>,
    threads: u32,
) -> (Desk<L>, bool)
    requires threads { (0 < threads) × (threads ≤ part_count desk) }
{
    let others = threads - 1;
    if others == 0 {
        return at_desk(rt, alloc, book, desk);
    }
    let theirs = book.split(&mut desk);
    let ((theirs, one), (mine, other)) = join(
        rt,
        move || at_desk(rt, alloc, book, theirs),
        move || -> (Desk<L>, bool)
            requires { IsSync R.row × IsSend L.row × IsSync L.row
                × (0 < others) × (others ≤ part_count desk) }
        { at_desks(rt, alloc, book, desk, others) },
    );
    (book.gather(theirs, mine), one && other)
}

/// Whether the calls of four threads have the expected answers, and are all in the history.
fn four_threads<L: Ledger + Send + Sync, R: Threads + Wait + Sync>(
    rt: &R,
    alloc: Global,
    blank: Blank<Event>,
) -> bool
    requires name { name_of blank ≡ L.name }
{
    let (book, desk) = SharedBook::<L>::start(alloc, blank);
    let (desk, made) = at_desks(rt, alloc, &book, desk, THREADS);
    // Each thread submits its job once, and replaces its rule and reads it `ROUNDS` times.
    events_of(book, desk) == Some(204) && made
}

#[test]
fn four_threads_call_one_book(rt: HostRuntime) {
    let blank = new_blank(rt.alloc()).expect(&rt, "memory");
    assert!(rt; four_threads::<Brand, HostRuntime>(&rt, rt.alloc(), blank));
}

/// Gathers two desks and closes the book. Returns whether the second desk had one part and the first all others, as
/// after a split, and the history has both calls.
fn is_closed_by_both<L: Ledger>(book: SharedBook<L>, mine: Desk<L>, theirs: Desk<L>) -> bool {
    let parts = mine.parts() == ALL_PARTS - 1 && theirs.parts() == 1;
    let desk = book.gather(mine, theirs);
    events_of(book, desk) == Some(2) && parts
}

/// Submits a job at one desk and revokes its lease at another. Returns whether the first desk cannot close the book,
/// and both can.
fn needs_both_desks<L: Ledger, R: Wait>(rt: &R, alloc: Global, blank: Blank<Event>) -> bool
    requires name { name_of blank ≡ L.name }
{
    let (book, mut mine) = SharedBook::<L>::start(alloc, blank);
    let mut theirs = book.split(&mut mine);
    let submitted = submit(rt, alloc, &book, &mut mine, &two_cars(0, 4)) == Ok(0);
    let _ = book.revoke(rt, &mut theirs, 0);
    match book.close(mine) {
        Ok(_) => false,
        Err((book, mine)) => is_closed_by_both(book, mine, theirs) && submitted,
    }
}

#[test]
fn a_book_that_does_not_close_stays_as_it_was(rt: HostRuntime) {
    let blank = new_blank(rt.alloc()).expect(&rt, "memory");
    assert!(rt; needs_both_desks::<Brand, HostRuntime>(&rt, rt.alloc(), blank));
}
