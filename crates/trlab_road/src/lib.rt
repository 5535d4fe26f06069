//! Roads for traffic automata: rings of cells, kept as lists of cars.
//!
//! The crate reads and writes pictures, spaces cars evenly, finds gaps, and moves all cars at once in the two phases of
//! a step, the lane change and the motion.
//!
//! ```text
//! let road = Road::parse(alloc, 5, &[b"0.0......."]).ok()?;
//! for lane in 0..road.lanes() {
//!     let picture = road.picture(alloc, lane).ok()?; // "0.0......."
//! }
//! let even = Road::even(alloc, 2, 500, 5, 100).ok()?; // 100 cars on two lanes of 500 cells
//! ```
#![tactic(auto)]

mod car;
mod fault;
mod gaps;
mod lane_change;
mod lanes;
pub mod laws;
mod motion;
mod picture;
mod road;
mod spreading;

pub use car::{Car, LaneCar};
pub use fault::RoadFault;
pub use gaps::{Leader, SideGaps};
pub use lane_change::Room;
pub use road::Road;
