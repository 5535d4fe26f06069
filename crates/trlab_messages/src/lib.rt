//! The words of explanations: the problem at the first error of an input, the forms that would be valid there, the
//! repairs to try, why the verifier rejects a program, and the work of a valid input. They are collected in a `Body`,
//! which is written as text after the head of an explanation, or as members of a JSON object before the status.
//! Sentences are drafts and may quote any bytes of the input; `page_of` makes pages of plain text from them.
//!
//! ```text
//! push_text(&mut text, &explanation.body); // for example "This is a valid job: `trlab run` runs it."
//! ```
#![tactic(auto)]

mod alike;
mod amount;
mod body;
mod candidates;
mod causes;
mod fault;
mod forms;
mod instruction;
mod job;
mod lines;
mod members;
mod names;
mod object_writer;
mod paths;
mod probability;
mod problem;
mod program;
mod reasons;
mod repairs;
mod rules;
mod sentence;
mod sweep;
mod text;
mod topics;

pub use body::Body;
pub use candidates::candidates_for;
pub use fault::{Fault, add_fault};
pub use job::add_job;
pub use members::add_body;
pub use object_writer::ObjectWriter;
pub use program::{ProgramVerdict, add_program};
pub use repairs::{Change, Edit, Repair};
pub use sentence::{Draft, page_of};
use std::alloc::AllocError;
pub use sweep::add_sweep;
pub use text::push_text;
pub use topics::{push_cause, push_reason};

/// A result that is an error only if an allocation fails.
pub type Result<T> = std::result::Result<T, AllocError>;
