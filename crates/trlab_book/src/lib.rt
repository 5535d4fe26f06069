//! A book of jobs that threads share, with the history of all its calls, and runners that run the jobs.
//!
//! A book starts with one desk (`SharedBook::start`). Two runners run a job of 200 steps to its end:
//!
//! ```text
//! book.submit(rt, alloc, desk, seed, rule, STEPS)
//! run_jobs(rt, alloc, book, desk, RUNNERS, WORKERS, &OpenGate)
//! let snapshot = book.read(rt, alloc, desk, job).ok()?;
//! ```
//!
//! Each thread calls the book through its own [`Desk`], which knows the events made through it. The crate
//! `trlab_embedding` is a complete program with a shared book.
#![tactic(auto)]

mod desk;
mod for_embedders;
mod kept;
pub mod laws;
mod running;
mod team;

pub use desk::{Desk, SharedBook};
pub use for_embedders::advance;
pub use running::{RunFault, run_jobs};
pub use trlab_bounds::runs::MAX_RUNNERS;
pub use trlab_sequential_book::{
    Book, BookFault, Call, Event, Lease, LeaseFault, Offered, Order, Reply, Seed, SharedRule,
    SharedSeed, Sheet, Snapshot,
};
pub use trlab_strands::ALL_PARTS;
