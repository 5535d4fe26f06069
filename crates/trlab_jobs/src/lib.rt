//! Reads job texts, sweep texts and check texts.
//!
//! ```text
//! let job = read_job(alloc, text).ok()?;
//! let (steps, cars) = (job.steps, job.road.cars()); // 20, and 2 cars
//! ```
#![tactic(auto)]

mod check;
mod job;
mod lane;
pub mod laws;
pub mod limits;
mod rule;
mod rule_line;
mod subject;
mod sweep;

pub use check::{Check, Question, parse_check, read_check};
pub use job::{Job, parse_job, read_job};
pub use subject::{Subject, subject_named};
pub use sweep::{Sweep, parse_sweep, read_sweep};
