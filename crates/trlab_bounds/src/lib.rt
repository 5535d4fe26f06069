//! The limits of roads, programs, inputs and runs, each defined once.
//!
//! ```text
//! use trlab_bounds::roads::MAX_LENGTH; // 100,000 cells
//! ```
#![tactic(auto)]

pub mod laws;
pub mod programs;
pub mod roads;
pub mod runs;
pub mod texts;
