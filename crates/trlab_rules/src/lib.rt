//! Rules: accepted programs that drive the cars of a road, and the published rules among them.
//!
//! ```text
//! nasch(alloc, Chance::new(p)?) // p, p0 and c are probabilities times 2^31
//! vdr(alloc, Chance::new(p)?, Chance::new(p0)?)
//! rickert(alloc, Chance::new(p)?, Chance::new(c)?)
//! ```
#![tactic(auto)]

mod for_embedders;
pub mod laws;
mod programs;
mod rule;
mod standard;

pub use for_embedders::slowed_1992;
pub use rule::Rule;
pub use standard::{StandardFault, nasch, rickert, vdr};
