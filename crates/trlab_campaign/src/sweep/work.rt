//! The progress of a sweep: its workers pass a gate, which counts their work. The work of a step is its number
//! of cars.

ghost use Rattle.std.specs.Prelude.{◌≡◌, ◌≤◌, length};

use crate::progress::{Milestone, ProgressObserver, milestone_between};
use std::sync::atomic::{AtomicU64, Ordering};
use trlab_jobs::Sweep;
use trlab_segments::{Gate, MOTION_PHASE};

/// A gate that counts the work of a sweep and reports progress. A step counts when its motion begins, and each
/// percent is reported by the worker whose step reaches it.
///
/// Steps of a revoked lease are run again and count again. So the gate itself does not report the last percent:
/// `report_end` does, when all points are complete.
#[derive(Drop)]
pub struct WorkGate<'a, O> {
    progress: &'a O,
    is_watching: bool,
    /// The cars of each point.
    cars: &'a [u32],
    /// The number of points.
    count: u32,
    /// The steps of each point.
    steps: u32,
    whole: u64,
    done: AtomicU64,
    ghost count_is: { count ≡ length cars.now },
}

/// The work of the first `points` points.
fn work_of(cars: &[u32], steps: u32, points: usize) -> u64 {
    let mut work: u64 = 0;
    for count in cars.iter().take(points) {
        work = work.saturating_add(u64::from(*count) * u64::from(steps));
    }
    work
}

impl<'a, O: ProgressObserver> WorkGate<'a, O> {
    /// A gate at which no work was counted yet.
    pub fn new(sweep: &'a Sweep, progress: &'a O) -> WorkGate<'a, O>
        ensures { result.count ≡ length sweep.now.cars }
    {
        let steps = sweep.warm + sweep.measure;
        WorkGate {
            progress,
            is_watching: progress.is_watching(),
            cars: &sweep.cars,
            count: sweep.cars.len() as u32,
            steps,
            whole: work_of(&sweep.cars, steps, sweep.cars.len()),
            done: AtomicU64::new(0),
        }
    }

    /// Counts a step on the road with this number.
    fn begin_step(&self, number: u32) {
        if let Some(cars) = self.cars.get(number as usize) {
            let cars = u64::from(*cars);
            let before = self.done.fetch_add(cars, Ordering::SeqCst);
            self.report(before, before.saturating_add(cars), number + 1);
        }
    }

    /// Counts the first `points` points of the sweep as done. The steps that the caller ran passed no gate, and
    /// count now.
    pub fn count_points(&self, points: usize)
        requires at_least_one { 1 ≤ points }
        requires at_most_all { points ≤ self.now.count }
    {
        if self.is_watching
            && let Ok(number) = u32::try_from(points)
        {
            let there = work_of(self.cars, self.steps, points);
            let before = self.done.fetch_max(there, Ordering::SeqCst);
            if before < there {
                self.report(before, there, number);
            }
        }
    }

    /// Reports the percentage that the work has reached, unless it is 100 or was reached before.
    /// `number` is the current point.
    fn report(&self, before: u64, after: u64, number: u32)
        requires rises { before ≤ after }
        requires from_one { 1 ≤ number }
        requires to_last { number ≤ self.now.count }
    {
        if let Some(milestone) = milestone_between(before, after, self.whole, number, self.count)
            && milestone.percent < 100
        {
            self.progress.reached(milestone);
        }
    }

    /// Reports 100 percent, when all points are complete.
    pub fn report_end(&self) {
        if self.is_watching && self.count > 0 {
            self.progress.reached(Milestone {
                percent: 100,
                number: self.count,
                count: self.count,
            });
        }
    }
}

impl<'a, O: ProgressObserver> Gate for WorkGate<'a, O> {
    fn pass(&self, number: u32, _worker: u32, phase: u32, segment: u32) {
        if phase == MOTION_PHASE && segment == 0 && self.is_watching {
            self.begin_step(number);
        }
    }
}
