//! Explanations: why an input is rejected and how to repair it, or the work of a valid one, in plain words or as a
//! JSON object. Contracts fix which inputs are rejected, how an explanation begins or ends, how a line of the input is
//! quoted, and that a repair helps; they fix no other words.
//!
//! ```text
//! explain_text(rt, form, subject, reader, writer)
//! ```
#![tactic(auto)]

mod explain;
mod explanation;
pub mod laws;
mod meant;
mod numbers;
mod object;
mod repair;
mod topics;

pub use explain::{Form, explain_text};
pub use repair::likely_repair;
pub use topics::{Topic, explain_number};
