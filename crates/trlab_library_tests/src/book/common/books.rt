//! Calls of shared books that several tests make, and how the tests begin and end a book.

use crate::book::common::expected::{ExpectedRead, is_shown};
use crate::book::common::jobs::{TestJob, new_seed};
use crate::traffic::nasch_rule;
use std::alloc::{AllocError, Global};
use std::sync::Wait;
use trlab_book::{Desk, RunFault, SharedBook};
use trlab_sequential_book::{BookFault, Event};
use trlab_strands::{Blank, Ledger};

/// A blank for a new book. Like calls of the book, it is made again if an allocation failed.
pub fn new_blank(alloc: Global) -> Result<Blank<Event>, AllocError> {
    match Blank::new(alloc) {
        Ok(blank) => Ok(blank),
        Err(_) => Blank::new(alloc),
    }
}

/// The desk that runners return, and whether they ran all jobs without a fault.
pub fn desk_and_success<L: Ledger>(ran: Result<Desk<L>, (Desk<L>, RunFault)>) -> (Desk<L>, bool) {
    match ran {
        Ok(desk) => (desk, true),
        Err((desk, _)) => (desk, false),
    }
}

/// The history of a book, if a desk closes it.
pub fn history_of<L: Ledger>(book: SharedBook<L>, desk: Desk<L>) -> Option<Vec<Event>> {
    let (_, history) = book.close(desk).ok()?;
    Some(history)
}

/// The number of events in the history of a book, if a desk closes it.
pub fn events_of<L: Ledger>(book: SharedBook<L>, desk: Desk<L>) -> Option<usize> {
    Some(history_of(book, desk)?.len())
}

/// Submits a job in the Nagel-Schreckenberg model with the job's braking probability. Returns `Memory` if its road or
/// rule cannot be made.
pub fn submit<L: Ledger, R: Wait>(
    rt: &R,
    alloc: Global,
    book: &SharedBook<L>,
    desk: &mut Desk<L>,
    job: &TestJob,
) -> Result<u32, BookFault> {
    match (new_seed(alloc, job), nasch_rule(alloc, job.chance)) {
        (Some(seed), Some(rule)) => book.submit(rt, alloc, desk, seed, rule, job.steps),
        _ => Err(BookFault::Memory),
    }
}

/// Replaces the rule of a job by the Nagel-Schreckenberg rule with braking probability `chance` / 2^31. Returns
/// `Memory` if the rule cannot be made.
pub fn replace<L: Ledger, R: Wait>(
    rt: &R,
    alloc: Global,
    book: &SharedBook<L>,
    desk: &mut Desk<L>,
    job: u32,
    chance: u32,
) -> Result<u32, BookFault> {
    match nasch_rule(alloc, chance) {
        Some(rule) => book.replace(rt, alloc, desk, job, rule),
        None => Err(BookFault::Memory),
    }
}

/// Whether a read of a job shows the expected snapshot.
pub fn reads<L: Ledger, R: Wait>(
    rt: &R,
    alloc: Global,
    book: &SharedBook<L>,
    desk: &mut Desk<L>,
    job: u32,
    wanted: &ExpectedRead,
) -> bool {
    match book.read(rt, alloc, desk, job) {
        Ok(seen) => is_shown(alloc, &seen, wanted),
        Err(_) => false,
    }
}
