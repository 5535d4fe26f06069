//! Why the book refuses a call.

ghost use Rattle.std.specs.Prelude.{◌≡◌};
ghost use Rattle.trlab_sequential_book.specs.declared.fault.BookFault.TheVariants.{Memory};

use std::alloc::AllocError;
use thiserror::Error;

/// Why the book refuses a call. If several apply, the first in the order `HistoryFull`, `NoSuchJob`, `Ended`,
/// `LanesMismatch`, `Full`, `SheetFull`, `StrangerLease` is returned. `Memory` may replace any but `HistoryFull`.
#[derive(Clone, Copy, Debug, PartialEq, Eq, Error)]
pub enum BookFault {
    /// The book has `MAX_JOBS` jobs.
    #[error("the book is full")]
    Full,
    /// The book has no job with this number.
    #[error("there is no such job")]
    NoSuchJob,
    /// The job was cancelled, or all its steps are ordered or done.
    #[error("the job has ended")]
    Ended,
    /// The rule has a change program, and the road has one lane.
    #[error("a change program needs two lanes")]
    LanesMismatch,
    /// The job's sheet would have more than `MAX_ENTRIES` entries.
    #[error("the sheet is full")]
    SheetFull,
    /// The lease is not the one that is out, or does not run this job's road under its rules. For `revoke`: no lease is
    /// out.
    #[error("the lease is not for this job")]
    StrangerLease,
    /// The book has had `MAX_EVENTS` events.
    #[error("the history is full")]
    HistoryFull,
    /// An allocation failed.
    #[error("out of memory")]
    Memory,
}

impl From<AllocError> for BookFault {
    ghost from_gives = { λ _ fault. fault ≡ Memory };

    fn from(_: AllocError) -> BookFault {
        BookFault::Memory
    }
}
