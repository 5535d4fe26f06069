//! Workers share the cars of a road: the cars are cut into segments, and a free worker draws the number of the next
//! segment, its ticket. The workers share one counter without a lock, yet no ticket is drawn twice.
//!
//! A crew takes one step, with threads that end with each of its phases (`step_shared`). A pool asks the cars in all
//! steps of a run, with threads that live as long as the run. Both draw tickets, ask the cars of a segment and line up
//! the answers of all segments in the same way.
//!
//! ```text
//! let key = Key([7; 32]);
//! step_shared(rt, rt.alloc(), road, rule, &key, ROAD, STEP, others + 1, &OpenGate)
//! ```
#![tactic(auto)]

mod crew;
pub mod laws;
mod parts;
mod phase;
mod pool;
mod segment;
mod ticket_rule;
mod tickets;

pub use crew::{Calls, Crew, step_shared};
pub use phase::{Asked, Phase};
pub use pool::{Pool, workers_for};
pub use segment::{CHANGE_PHASE, Gate, MOTION_PHASE, OpenGate, Segment, segment_count};
pub use tickets::{Drawer, Tickets};
