//! Limits: a history with 1,000,000 events, and a full lane of 100,000 cells. `tools/bench-book` times both.

ghost use Rattle.std.specs.Prelude.{◌≡◌, ◌<◌, ◌≤◌};
ghost use Rattle.trlab_bounds.specs.declared.runs.TheConstants.{MAX_RUNNERS};
ghost use Rattle.trlab_strands.specs.Tokens.{name_of};

use crate::book::common::books::{events_of, new_blank};
use crate::book::common::jobs::NEVER;
use crate::book::common::replies::leased;
use crate::book::common::table::{Table, TestCall};
use crate::traffic::nasch_rule;
use std::alloc::Global;
use std::marker::Brand;
use std::sync::Wait;
use std::thread::Threads;
use trlab_book::{Desk, RunFault, SharedBook, run_jobs};
use trlab_bounds::roads::MAX_LENGTH;
use trlab_road::Road;
use trlab_segments::OpenGate;
use trlab_sequential_book::{BookFault, Event, MAX_EVENTS, Reply, Seed};
use trlab_strands::{Blank, Ledger};
use trlab_words::Key;

/// Makes `calls` calls for a job that does not exist. Returns whether all are refused as `NoSuchJob`.
fn refuses_calls<L: Ledger, R: Wait>(
    rt: &R,
    alloc: Global,
    table: &mut Table<L>,
    calls: u32,
) -> bool {
    let refused = Reply::Refused(BookFault::NoSuchJob);
    for _ in 0..calls {
        if !table.answers(rt, alloc, TestCall::Revoke(7), refused) {
            return false;
        }
    }
    true
}

/// One call of each kind.
const EACH_CALL: [TestCall; 8] = [
    TestCall::Submit(4),
    TestCall::Replace(0),
    TestCall::Lease,
    TestCall::Order,
    TestCall::GiveBack,
    TestCall::Revoke(0),
    TestCall::Cancel(0),
    TestCall::Read(0, b""),
];

/// Whether one call of each kind is refused as `HistoryFull`.
fn is_full<L: Ledger, R: Wait>(rt: &R, alloc: Global, table: &mut Table<L>) -> bool {
    let refused = Reply::Refused(BookFault::HistoryFull);
    for call in &EACH_CALL {
        if !table.answers(rt, alloc, *call, refused) {
            return false;
        }
    }
    true
}

/// The number of workers of each runner.
const WORKERS: u32 = 1;

/// Runs the jobs of a book. Returns whether the runners ended because the history was full.
fn run<L: Ledger + Send + Sync, R: Threads + Wait + Sync>(
    rt: &R,
    alloc: Global,
    book: &SharedBook<L>,
    desk: Desk<L>,
    runners: u32,
) -> (Desk<L>, bool)
    requires runners { (0 < runners) × (runners ≤ MAX_RUNNERS) }
{
    if desk.parts() < runners {
        return (desk, false);
    }
    match run_jobs(rt, alloc, book, desk, runners, WORKERS, &OpenGate) {
        Ok(desk) => (desk, false),
        Err((desk, fault)) => (desk, fault == RunFault::HistoryFull),
    }
}

/// The first calls: job 0 is leased, and job 1 is free.
const FIRST_CALLS: [(TestCall, Reply); 3] = [
    (TestCall::Submit(4), Reply::Number(0)),
    (TestCall::Lease, leased!(number: 0, step: 0)),
    (TestCall::Submit(4), Reply::Number(1)),
];

/// Fills the history of a book, except for its last two events. Returns whether all replies are as expected.
fn fills<L: Ledger, R: Wait>(rt: &R, alloc: Global, table: &mut Table<L>) -> bool {
    table.answers_all(rt, alloc, &FIRST_CALLS) && refuses_calls(rt, alloc, table, 999_995)
}

/// Whether a history is full after a runner's lease and first order: its second order is refused, and so is each later
/// call, including those of three more runners.
fn has_full_history<L: Ledger + Send + Sync, R: Threads + Wait + Sync>(
    rt: &R,
    alloc: Global,
    blank: Blank<Event>,
) -> bool
    requires name { name_of blank ≡ L.name }
{
    let mut table = Table::<L>::start(alloc, blank, b"0.0.......");
    let filled = fills(rt, alloc, &mut table);
    let desk = table.desk;
    let (desk, ended) = run(rt, alloc, &table.book, desk, 1);
    let (desk, others_ended) = run(rt, alloc, &table.book, desk, 3);
    table.desk = desk;
    let is_full = is_full(rt, alloc, &mut table);
    table.events() == Some(MAX_EVENTS as usize) && filled && ended && others_ended && is_full
}

#[test]
fn a_full_history_closes(rt: HostRuntime) {
    let blank = new_blank(rt.alloc()).expect(&rt, "memory");
    assert!(rt; has_full_history::<Brand, HostRuntime>(&rt, rt.alloc(), blank));
}

const READS: u32 = 200_000;

/// Submits a job whose road is a full lane, and reads it `READS` times. Returns whether the book accepts the job.
fn shows_full_lane<L: Ledger, R: Wait>(
    rt: &R,
    alloc: Global,
    book: &SharedBook<L>,
    desk: &mut Desk<L>,
) -> bool {
    let (lanes, limit) = (1, 5);
    let Ok(road) = Road::even(alloc, lanes, MAX_LENGTH, limit, MAX_LENGTH) else {
        return false;
    };
    let Some(rule) = nasch_rule(alloc, NEVER) else {
        return false;
    };
    let seed = Seed {
        road,
        key: Key([0; 32]),
        number: 0,
        warm: 0,
    };
    let submitted = book.submit(rt, alloc, desk, seed, rule, 1) == Ok(0);
    for _ in 0..READS {
        let _ = book.read(rt, alloc, desk, 0);
    }
    submitted
}

/// Whether the book of a full lane has its submission and all reads as events.
fn has_full_lane<L: Ledger, R: Wait>(rt: &R, alloc: Global, blank: Blank<Event>) -> bool
    requires name { name_of blank ≡ L.name }
{
    let (book, mut desk) = SharedBook::<L>::start(alloc, blank);
    let shown = shows_full_lane(rt, alloc, &book, &mut desk);
    events_of(book, desk) == Some(READS as usize + 1) && shown
}

#[test]
fn a_full_lane_is_read(rt: HostRuntime) {
    let blank = new_blank(rt.alloc()).expect(&rt, "memory");
    assert!(rt; has_full_lane::<Brand, HostRuntime>(&rt, rt.alloc(), blank));
}
