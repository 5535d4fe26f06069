//! The book of jobs for one thread: jobs whose rules can be replaced while they run, and whose steps are run
//! outside the book.
//!
//! A job is submitted, leased, and run step by step as the book orders. Then the lease is given back:
//!
//! ```text
//! let job = book.submit(alloc, seed, rule, 200).ok()?;
//! if let Some(mut lease) = book.lease(alloc).ok()? {
//!     while lease.step() < lease.steps() {
//!         let order = book.order(alloc, &lease).ok()?;
//!         lease.advance(&Caller, alloc, &order).ok()?;
//!     }
//!     book.give_back(lease).ok()?;
//! }
//! let snapshot = book.read(alloc, job).ok()?;
//! ```
//!
//! A [`Snapshot`] shows the road of one worker that runs the job's seed under its sheet of rules, regardless of
//! how the steps were run. `trlab_book` shares a book between threads.
#![tactic(auto)]

mod book;
mod event;
mod fault;
mod job;
pub mod laws;
mod lease;
mod order;
mod rule;
mod seed;
mod sheet;
mod snapshot;

pub use book::{Book, MAX_EVENTS, MAX_JOBS};
pub use event::{Call, Event, Offered, Reply};
pub use fault::BookFault;
pub use lease::{Lease, LeaseFault};
pub use order::Order;
pub use rule::SharedRule;
pub use seed::{Seed, SharedSeed};
pub use sheet::{MAX_ENTRIES, Sheet};
pub use snapshot::Snapshot;
