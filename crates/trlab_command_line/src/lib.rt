//! The command line of `trlab`: reading its arguments with `clap`, executing the request, and the exit statuses.
//!
//! ```text
//! let request = read_words(rt.alloc(), &arguments);
//! ```
#![tactic(auto)]

mod arguments;
mod engines;
mod help;
mod printing;

pub use arguments::{ExplainRequest, Request, read_words};
pub use engines::execute;
pub use printing::{REJECTED_ARGUMENTS, print_help_or_error, status_of_end};
