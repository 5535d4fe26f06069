//! The limits of the book as numbers, the call of `submit` from which each of its jobs comes, and refused leases.
//!
//! Each law is the contract of a function with an empty body.

ghost use Rattle.std.specs.Prelude.{◌≡◌};
ghost use Rattle.trlab_sequential_book.specs.Histories.{RefusedLeasesAreNotOut, SubmitNumbersAreUnique};
ghost use Rattle.trlab_sequential_book.specs.Histories.{JobsAreSubmitted, ReadsAreDriven, SnapshotsShowSubmittedJobs};

use crate::book::{MAX_EVENTS, MAX_JOBS};
use crate::sheet::MAX_ENTRIES;

/// The limits of a book.
pub fn limits()
    ensures jobs { MAX_JOBS ≡ 256 }
    ensures entries { MAX_ENTRIES ≡ 1024 }
    ensures events { MAX_EVENTS ≡ 1000000 }
{}

/// Exactly one event of a book's history submitted the job with a given number: the submit that was answered
/// with this number. A snapshot of the job has the seed of that submit.
pub fn jobs_are_submitted()
    ensures submitted { JobsAreSubmitted }
    ensures one { SubmitNumbersAreUnique }
    ensures seen { SnapshotsShowSubmittedJobs }
{}

/// A read shows the road of one worker that runs the seed of the job's submit under the job's sheet, regardless
/// of the calls before it. Each step is clean, its programs end within their budgets, and no car is lost.
pub fn reads_are_driven()
    ensures { ReadsAreDriven }
{}

/// A lease that ran only steps which the book ordered runs the road of its job as long as it is out, whichever other
/// calls are made. So if the book refuses its order or its return, it is not out: another call has ended it.
pub fn refused_leases_are_not_out()
    ensures { RefusedLeasesAreNotOut }
{}
