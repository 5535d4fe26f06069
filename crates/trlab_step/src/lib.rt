//! One step of a road under a rule, and runs of many steps.
//!
//! A step on two lanes has two phases: the lane change, if the rule has a change program, and then the motion. A step
//! on one lane is the motion. In each phase the program answers for all cars on the same road, and only then the
//! answers take effect, for all cars at once: in the lane change some cars cross to their side cells, and in the motion
//! each car moves as many cells as its new speed. The motion program sees the road after the lane change.
//!
//! - `step` takes a whole step, `tally` counts it, and `run` takes one step after another, under a sheet of rules
//!   (`sheet`).
//! - `lane_change` and `motion` compute the answers of each phase for some of the cars, `block` by block. An `executor`
//!   does so for all cars, on one thread or several.
//! - `for_embedders` has a step and its phases as calls that leave the road as it is.
//!
//! A run of a road whose rule never changes:
//!
//! ```text
//! let rule = nasch(alloc, Chance::new(0)?).ok()?;
//! let road = Road::parse(alloc, LIMIT, &LANES).ok()?;
//! let sheet = RunSheet::new(rule, Vec::new(alloc));
//! let (key, number, warm) = (Key([0; 32]), 0, 0);
//! Run::new(alloc, key, number, warm, road, sheet)
//!     // then, for each step
//!     run.advance(&Caller, alloc).ok()?;
//! ```
#![tactic(auto)]

mod block;
mod executor;
mod for_embedders;
mod lane_change;
pub mod laws;
mod motion;
mod run;
mod sheet;
mod step;
mod tally;

pub use executor::{Caller, Executor, NoObserver, StepObserver};
pub use for_embedders::{
    StepFault, choose_part, commit_change, commit_motion, move_part, step_road, step_road_by,
};
pub use lane_change::compute_crossings;
pub use motion::compute_speeds;
pub use run::Run;
pub use sheet::RunSheet;
pub use step::{StepContext, StepRoom, suits, take_step};
pub use tally::{StepTally, no_tally, tally_sum};
