//! Runs accepted driver programs, for one car or for a block of cars at once; and the laws of these runs.
//!
//! ```text
//! let (speed, limit, gap, headspeed) = (2, 5, 3, 0);
//! let view = MotionView::new(speed, limit, gap, headspeed)?;
//! let (road, car, step) = (0, 0, 0);
//! let moved = run_motion(motion, view, &words(&Key([0; 32]), road, car, step));
//! let (speed, steps) = (moved.speed, moved.steps); // 3, and 4 instructions
//! ```
#![tactic(auto)]

mod block;
mod change;
mod columns;
mod dice;
mod for_embedders;
pub mod laws;
mod motion;
mod role;
mod views;
mod waiting;

pub use change::run_changes;
pub use columns::{BLOCK_CARS, Column, Flags, REGISTER_COUNT, RegisterColumns, SMALL_BLOCK_CARS};
pub use dice::Dice;
pub use for_embedders::{Chosen, Moved, run_change, run_motion};
pub use motion::{run_few_motions, run_motions};
pub use views::Views;
