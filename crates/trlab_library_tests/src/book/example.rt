//! The example of the guide to the book: two runners, and a rule that is replaced while they run.

ghost use Rattle.std.specs.Prelude.{◌≡◌, ◌≤◌};
ghost use Rattle.trlab_book.specs.Desks.{part_count};
ghost use Rattle.trlab_strands.specs.Tokens.{name_of};

use crate::book::common::books::{desk_and_success, events_of, new_blank, replace, submit};
use crate::book::common::jobs::{ALWAYS, two_cars};
use std::alloc::Global;
use std::marker::Brand;
use std::sync::Wait;
use std::thread::{Threads, join};
use trlab_book::{Desk, SharedBook, run_jobs};
use trlab_segments::OpenGate;
use trlab_sequential_book::{Event, Snapshot};
use trlab_strands::{Blank, Ledger};

/// The number of runners.
const RUNNERS: u32 = 2;

/// The number of workers of each runner.
const WORKERS: u32 = 1;

/// Replaces the rule of job 0. Returns the step from which the new rule is in force, or `None` if all steps were
/// ordered by then.
fn replace_late<L: Ledger, R: Wait>(
    rt: &R,
    alloc: Global,
    book: &SharedBook<L>,
    mut desk: Desk<L>,
) -> (Desk<L>, Option<u32>) {
    let entered = replace(rt, alloc, book, &mut desk, 0, ALWAYS).ok();
    (desk, entered)
}

/// Runs the jobs of a book with two runners, while the rule of job 0 is replaced. Returns whether they succeeded, and
/// the step from which the new rule is in force, if it entered.
fn run_and_replace<L: Ledger + Send + Sync, R: Threads + Wait + Sync>(
    rt: &R,
    alloc: Global,
    book: &SharedBook<L>,
    mut mine: Desk<L>,
) -> (Desk<L>, bool, Option<u32>) {
    if mine.parts() < 3 {
        return (mine, false, None);
    }
    let theirs = book.split(&mut mine);
    let ((theirs, entered), (mine, ran)) = join(
        rt,
        || replace_late(rt, alloc, book, theirs),
        || -> (Desk<L>, bool)
            requires { 2 ≤ part_count mine }
        { desk_and_success(run_jobs(rt, alloc, book, mine, RUNNERS, WORKERS, &OpenGate)) },
    );
    (book.gather(mine, theirs), ran, entered)
}

/// Whether the sheet of a snapshot has a second rule exactly if one entered after the first step was ordered, from that
/// step on. A rule that enters before takes the place of the first one.
fn has_entered(seen: &Snapshot, entered: Option<u32>) -> bool {
    let sheet = seen.sheet();
    match entered {
        None | Some(0) => sheet.len() == 1,
        Some(step) => sheet.len() == 2 && sheet.entry(1).0 == step,
    }
}

/// Whether job 0 has done its 100 steps, and its sheet has the rule that entered.
fn has_ended<L: Ledger, R: Wait>(
    rt: &R,
    alloc: Global,
    book: &SharedBook<L>,
    desk: &mut Desk<L>,
    entered: Option<u32>,
) -> bool {
    match book.read(rt, alloc, desk, 0) {
        Ok(seen) => seen.step() == 100 && has_entered(&seen, entered),
        Err(_) => false,
    }
}

/// Whether the sheet of job 0 has the rule that replaces its first one while two runners run it, and the book closes.
fn is_in_the_sheet<L: Ledger + Send + Sync, R: Threads + Wait + Sync>(
    rt: &R,
    alloc: Global,
    blank: Blank<Event>,
) -> bool
    requires name { name_of blank ≡ L.name }
{
    let (book, mut desk) = SharedBook::<L>::start(alloc, blank);
    let submitted = submit(rt, alloc, &book, &mut desk, &two_cars(0, 100)) == Ok(0)
        && submit(rt, alloc, &book, &mut desk, &two_cars(1, 100)) == Ok(1);
    let (mut desk, ran, entered) = run_and_replace(rt, alloc, &book, desk);
    let is_right = has_ended(rt, alloc, &book, &mut desk, entered);
    events_of(book, desk).is_some() && submitted && ran && is_right
}

#[test]
fn a_replaced_rule_is_in_the_sheet(rt: HostRuntime) {
    let blank = new_blank(rt.alloc()).expect(&rt, "memory");
    assert!(rt; is_in_the_sheet::<Brand, HostRuntime>(&rt, rt.alloc(), blank));
}
