//! The fundamental diagram of road traffic: flow against density.
//!
//! A point of the diagram (`point`) has the counts of one road over some steps, which determine the flow. A
//! window of a series has a point and the counts of each lane. Both are lines of comma-separated values: points
//! in the table of a sweep (`table`), windows in the table of a series (`series`).
//!
//! ```text
//! let point = Point { cars: 150, cells: 1000, steps: 100, distance: 60_000, stopped: 0, changes: 0 };
//! let flow = flow(&point); // 600000 millionths of a car per step
//! let table = points_text(alloc, &[point]).ok()?; // a heading, and one row
//! ```
#![tactic(auto)]

pub mod laws;
mod point;
mod series;
mod table;

pub use point::{LaneCount, Point, Window, flow};
pub use series::{SeriesLines, series_heading};
pub use table::{DiagramFault, points_text};
