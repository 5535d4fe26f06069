//! The call `step`: the first step of a job, phase by phase.

ghost use Rattle.std.specs.Prelude.{◌≡◌, length};

use crate::report::{Outcome, Report};
use crate::roads::push_pictures;
use std::alloc::AllocError;
use trlab_jobs::{Job, read_job};
use trlab_road::Road;
use trlab_step::{
    StepFault, StepTally, choose_part, commit_change, commit_motion, move_part, step_road,
};
use trlab_verify::Change;

/// Writes the first step of a job and its tally, or that the rule does not suit the road.
pub fn write_step(report: &mut Report, text: &[u8]) -> Outcome {
    match read_job(report.alloc, text) {
        Ok(job) => write_phases(report, &job),
        Err(_) => report.finish(Outcome::Refused, "no job\n"),
    }
}

/// Writes the phases of the first step, and its tally.
fn write_phases(report: &mut Report, job: &Job) -> Outcome {
    match job.first.change() {
        Some(change) if job.road.lanes() == 2 => write_lane_change(report, job, change),
        _ => write_motion(report, job, &job.road),
    }
}

/// Writes the lane change (which cars cross, and the road after it), and then the rest of the step.
fn write_lane_change(report: &mut Report, job: &Job, change: &Change) -> Outcome
    requires { length job.now.road.lanes ≡ 2 }
{
    match change_lanes(report, job, change) {
        Ok(middle) => {
            push_road(report, &middle);
            write_motion(report, job, &middle)
        }
        Err(_) => report.fail(),
    }
}

/// Writes which cars cross. Returns the road after the lane change.
fn change_lanes(report: &mut Report, job: &Job, change: &Change) -> Result<Road, AllocError>
    requires { length job.now.road.lanes ≡ 2 }
{
    let road = &job.road;
    let (number, step, from, to) = (0, 0, 0, road.cars());
    let crosses = choose_part(report.alloc, road, change, &job.key, number, step, from, to)?;
    report.push_str("crosses");
    for cross in &crosses {
        report.push_str(if *cross { " yes" } else { " no" });
    }
    commit_change(report.alloc, road, &crosses)
}

/// Writes the motion from a road (the new speeds, and the road after it), and then the tally.
fn write_motion(report: &mut Report, job: &Job, road: &Road) -> Outcome {
    match move_cars(report, job, road) {
        Ok(next) => {
            push_road(report, &next);
            write_tally(report, job, &next)
        }
        Err(_) => report.fail(),
    }
}

/// Writes the new speeds. Returns the road after the motion.
fn move_cars(report: &mut Report, job: &Job, road: &Road) -> Result<Road, AllocError> {
    let motion = job.first.motion();
    let (number, step, from, to) = (0, 0, 0, road.cars());
    let speeds = move_part(report.alloc, road, motion, &job.key, number, step, from, to)?;
    report.push_str("speeds");
    for speed in &speeds {
        report.push_number(" ", *speed);
    }
    commit_motion(report.alloc, road, &speeds)
}

/// Writes the pictures of a road, and the numbers of its cars in standing order.
fn push_road(report: &mut Report, road: &Road) {
    report.push_str("\n");
    push_pictures(report, road);
    report.push_str("cars");
    for k in 0..road.cars() {
        report.push_number(" ", road.standing(k).number);
    }
    report.push_str("\n");
}

/// Takes the first step again with `step_road`, and writes its tally, or that the next road is not `wanted`.
fn write_tally(report: &mut Report, job: &Job, wanted: &Road) -> Outcome {
    let (number, step) = (0, 0);
    match step_road(report.alloc, &job.road, &job.first, &job.key, number, step) {
        Ok((next, tally)) => write_counts(report, next.equals(wanted), tally),
        Err(StepFault::Memory) => report.fail(),
        Err(StepFault::LanesMismatch) => report.finish(Outcome::Done, "another count of lanes\n"),
    }
}

/// Writes a tally, or `another road` if the road is not the same.
fn write_counts(report: &mut Report, is_same: bool, tally: StepTally) -> Outcome {
    if !is_same {
        return report.finish(Outcome::Done, "another road\n");
    }
    let (distance, stopped, changes) = (tally.distance, tally.stopped, tally.changes);
    report.push_allocated(format!(in report.alloc;
        "distance {distance} stopped {stopped} changes {changes}\n"
    ));
    Outcome::Done
}
