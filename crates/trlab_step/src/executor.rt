//! Executors compute the answers of the cars of a step, on the calling thread or on several threads, with the same
//! result. Observers see the road meanwhile.

ghost use Rattle.std.specs.Prelude.{◌≡◌, OnOk, length};
ghost use Rattle.trlab_road.specs.Cells.{cars, Cells};
ghost use Rattle.trlab_step.specs.Answers.{IsCrossingsPart, IsSpeedsPart};

use crate::lane_change::compute_crossings;
use crate::motion::compute_speeds;
use std::alloc::{AllocError, Global};
use trlab_machine::Dice;
use trlab_road::Road;
use trlab_verify::{Change, Motion};

/// Sees the road of a step before its cars cross and move. It runs on the calling thread while other threads compute
/// the answers, so writing a row costs less time.
pub trait StepObserver {
    // The relation of the observer before it sees a road, the road, and the observer after it has seen the road.
    ghost observes: { Self → Cells → Self → Type 0 };

    /// Looks at a road.
    fn observe(&mut self, road: &Road)
        ensures { observes self.old road.now self.new };
}

/// An observer that does nothing.
#[derive(Clone, Copy)]
pub struct NoObserver;

impl StepObserver for NoObserver {
    ghost observes = { λ _ _ _. Unit {0} };

    fn observe(&mut self, _: &Road) {}
}

/// Runs a program for all cars of a road, and replaces the contents of a list with their answers in standing order.
///
/// The road is borrowed mutably, so that it can be moved to other threads; it comes back unchanged. The observer sees
/// it, even if an allocation fails. It is called once, but contracts only say how it is after the call.
pub trait Executor {
    // The precondition of a call, for example the contracts of the closures that an executor calls.
    ghost is_ready: { Self → Type 0 };

    /// Computes the new speeds of the cars under a motion program, in cells per step, each in a byte.
    ///
    /// # Errors
    ///
    /// If an allocation fails.
    fn speeds<O: StepObserver>(
        &self,
        alloc: Global,
        answers: &mut Vec<u8>,
        road: &mut Road,
        motion: &Motion,
        dice: &Dice,
        observer: &mut O,
    ) -> Result<(), AllocError>
        requires ready { is_ready self.now }
        ensures speeds { OnOk result (
            IsSpeedsPart motion.now dice.now road.old 0 (cars road.old) answers.new.items) }
        ensures seen { O.observes observer.old road.old observer.new }
        ensures same { road.new ≡ road.old };

    /// Computes for each car of a road of two lanes whether it crosses under a change program.
    ///
    /// # Errors
    ///
    /// If an allocation fails.
    fn crossings<O: StepObserver>(
        &self,
        alloc: Global,
        answers: &mut Vec<bool>,
        road: &mut Road,
        change: &Change,
        dice: &Dice,
        observer: &mut O,
    ) -> Result<(), AllocError>
        requires ready { is_ready self.now }
        requires two_lanes { length road.old.lanes ≡ 2 }
        ensures crossings { OnOk result (
            IsCrossingsPart change.now dice.now road.old 0 (cars road.old) answers.new.items) }
        ensures seen { O.observes observer.old road.old observer.new }
        ensures same { road.new ≡ road.old };
}

/// Computes all answers on the calling thread, for a block of cars at a time.
#[derive(Clone, Copy)]
pub struct Caller;

impl Executor for Caller {
    ghost is_ready = { λ _. Unit {0} };

    fn speeds<O: StepObserver>(
        &self,
        _: Global,
        answers: &mut Vec<u8>,
        road: &mut Road,
        motion: &Motion,
        dice: &Dice,
        observer: &mut O,
    ) -> Result<(), AllocError> {
        observer.observe(road);
        compute_speeds(answers, road, motion, dice, 0, road.cars())
    }

    fn crossings<O: StepObserver>(
        &self,
        _: Global,
        answers: &mut Vec<bool>,
        road: &mut Road,
        change: &Change,
        dice: &Dice,
        observer: &mut O,
    ) -> Result<(), AllocError> {
        observer.observe(road);
        compute_crossings(answers, road, change, dice, 0, road.cars())
    }
}
