//! Reports of progress: the share of a command's work that is done. They never change an output.

ghost use Rattle.std.specs.Prelude.{◌≡◌, ◌↔◌, ◌-◌, ◌<◌, ◌≤◌, None, IfSome};
ghost use Rattle.trlab_campaign.specs.Ending.{percent_done};

use crate::end::End;
use std::alloc::{AllocError, Global};
use trlab_machine::Dice;
use trlab_road::Road;
use trlab_step::{Executor, StepObserver};
use trlab_verify::{Change, Motion};

/// Receives reports of a command's progress. No contract depends on an observer.
pub trait ProgressObserver {
    /// Whether the observer wants reports. If not, no work is counted.
    fn is_watching(&self) -> bool;

    /// Called each time another percent of the work is done. Any worker may call it.
    fn reached(&self, milestone: Milestone);
}

/// A report of progress.
#[derive(Clone, Copy, Debug, PartialEq, Eq)]
pub struct Milestone {
    /// How much of the work is done, in percent: 1 to 100.
    pub percent: u32,
    /// The current step (of a run or a series) or point (of a sweep), from 1 on.
    pub number: u32,
    /// The number of steps or points.
    pub count: u32,
    pub ghost at_least_one: { 1 ≤ percent },
    pub ghost at_most_all: { percent ≤ 100 },
    pub ghost from_one: { 1 ≤ number },
    pub ghost to_last: { number ≤ count },
}

/// Ignores progress.
#[derive(Clone, Copy)]
pub struct NoProgress;

impl ProgressObserver for NoProgress {
    fn is_watching(&self) -> bool {
        false
    }

    fn reached(&self, _milestone: Milestone) {}
}

/// The percentage of work that is done with `done` of `whole` parts, rounded down; 100 if no part is left.
fn percent_done(done: u64, whole: u64) -> u32
    ensures { result ≡ percent_done done whole }
{
    if whole <= done {
        100
    } else {
        (u128::from(done) * 100 / u128::from(whole)) as u32
    }
}

/// The milestone after `after` of the work's `whole` parts, if its percentage differs from the one after `before`
/// parts. `number` is the current step or point, of `count`.
pub fn milestone_between(
    before: u64,
    after: u64,
    whole: u64,
    number: u32,
    count: u32,
) -> Option<Milestone>
    requires rises { before ≤ after }
    // While parts are left and some are done, there is a current step or point.
    requires at_hand { before < after → before < whole → (1 ≤ number) × (number ≤ count) }
    ensures percent { IfSome result (λ milestone. milestone.percent ≡ percent_done after whole) }
    ensures number { IfSome result (λ milestone. milestone.number ≡ number) }
    ensures count { IfSome result (λ milestone. milestone.count ≡ count) }
    ensures silent { (result ≡ None) ↔ (percent_done before whole ≡ percent_done after whole) }
{
    let reached = percent_done(after, whole);
    if reached == percent_done(before, whole) {
        None
    } else {
        Some(Milestone {
            percent: reached,
            number,
            count,
        })
    }
}

/// An executor that reports progress. Before the motion of each step it reports the steps taken so far, and when the
/// run has ended with `Done` it reports all steps.
#[derive(Drop)]
pub struct WithProgress<'a, E, O> {
    executor: &'a E,
    progress: &'a O,
    is_watching: bool,
    /// The number of steps of the run.
    steps: u32,
}

impl<'a, E, O: ProgressObserver> WithProgress<'a, E, O> {
    /// An executor of a run of `steps` steps.
    pub fn new(executor: &'a E, progress: &'a O, steps: u32) -> WithProgress<'a, E, O>
        ensures { result.executor.now ≡ executor.now }
    {
        WithProgress {
            executor,
            progress,
            is_watching: progress.is_watching(),
            steps,
        }
    }

    /// The milestone after `taken` steps, if its percentage differs from the one a step earlier.
    fn milestone(&self, taken: u32) -> Option<Milestone>
        ensures percent { IfSome result (λ milestone. milestone.percent ≡ percent_done taken self.now.steps) }
        ensures number { IfSome result (λ milestone. milestone.number ≡ taken) }
        ensures count { IfSome result (λ milestone. milestone.count ≡ self.now.steps) }
        ensures silent { (result ≡ None)
            ↔ (percent_done (taken - 1) self.now.steps ≡ percent_done taken self.now.steps) }
    {
        let before = u64::from(taken.saturating_sub(1));
        milestone_between(
            before,
            u64::from(taken),
            u64::from(self.steps),
            taken,
            self.steps,
        )
    }

    /// Reports that `taken` steps are taken, one more than in the last call.
    fn report_step(&self, taken: u32) {
        if self.is_watching
            && let Some(milestone) = self.milestone(taken)
        {
            self.progress.reached(milestone);
        }
    }

    /// Reports all steps, if the run ended with `Done`.
    pub fn report_end(&self, end: End) {
        if end == End::Done {
            self.report_step(self.steps);
        }
    }
}

impl<'a, E: Executor, O: ProgressObserver> Executor for WithProgress<'a, E, O> {
    ghost is_ready = { λ with_progress. E.is_ready with_progress.executor.now };

    fn speeds<L: StepObserver>(
        &self,
        alloc: Global,
        answers: &mut Vec<u8>,
        road: &mut Road,
        motion: &Motion,
        dice: &Dice,
        observer: &mut L,
    ) -> Result<(), AllocError> {
        self.report_step(dice.step);
        self.executor
            .speeds(alloc, answers, road, motion, dice, observer)
    }

    fn crossings<L: StepObserver>(
        &self,
        alloc: Global,
        answers: &mut Vec<bool>,
        road: &mut Road,
        change: &Change,
        dice: &Dice,
        observer: &mut L,
    ) -> Result<(), AllocError> {
        self.executor
            .crossings(alloc, answers, road, change, dice, observer)
    }
}
