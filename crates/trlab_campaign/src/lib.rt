//! Engines: each reads an input from a `Source`, checks all of it, and writes either its output or the line of the
//! input's first fault to a `Sink` (`engine`). Each command's engine is in the module of the same name: `run` (pictures
//! of a road), `series` (a table of windows), `sweep` (a table of points) and `check` (the verdict on a program). `run`
//! and `series` share `pooled`, which runs a job. `for_embedders` has `run` and `sweep` without options.
//!
//! ```text
//! let shown = ShownSteps::new(every, from);
//! run_shown_text(rt, reader, writer, workers, &shown, progress)
//! ```
#![tactic(auto)]

mod check;
mod counting;
mod device;
mod end;
mod engine;
mod for_embedders;
pub mod laws;
mod note_lines;
mod output;
mod pooled;
mod progress;
mod run;
mod series;
mod sweep;

pub use check::check_text;
pub use device::{DeviceError, Flushes, Sink, Source, Watched};
pub use end::{End, write_output};
pub use engine::{Engine, run_engine};
pub use for_embedders::{run_job_text, run_sweep_text};
pub use output::{push_fault_line, push_rejected_line};
pub use progress::{Milestone, NoProgress, ProgressObserver};
pub use run::{ShownSteps, run_shown_text};
pub use series::{Windows, run_series_text};
pub use sweep::run_sweep_with_progress;
// For callers of the engines: the bounds of their arguments, and the readers of texts.
pub use trlab_bounds::runs::{MAX_RUNNERS, MAX_WORKERS};
pub use trlab_bounds::texts::TEXT_LIMIT;
pub use trlab_jobs::{Job, Sweep, read_job, read_sweep};
pub use trlab_texts::{Cause, TextFault};
