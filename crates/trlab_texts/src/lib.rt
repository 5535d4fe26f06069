//! Texts in lines: their words and numbers, the programs in them, and their first fault.
//!
//! ```text
//! let line = b"steps 20";
//! let steps = Excerpt::number_after(LineName::Steps, 0, 100, line).ok()?; // 20
//! ```
#![tactic(auto)]

mod excerpt;
mod fault;
pub mod laws;
mod line_name;
pub mod program;
mod refusal;
mod rest;
pub mod word;

pub use excerpt::Excerpt;
pub use fault::{Cause, TextFault};
pub use line_name::{LineName, LineNames};
pub use refusal::{Objection, Quantity, Refusal, Wanted};
pub use rest::Rest;
