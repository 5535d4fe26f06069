//! The executors of a runner's steps: its team of workers, or a single worker.

ghost use Rattle.std.specs.Prelude.{◌≡◌, ◌↔◌, ◌<◌, ◌≤◌, OnOk, OnErr};
ghost use Rattle.trlab_bounds.specs.declared.runs.TheConstants.{MAX_WORKERS};
ghost use Rattle.trlab_sequential_book.specs.Leases.{FitsOrder, HasRun};
ghost use Rattle.trlab_sequential_book.specs.declared.lease.LeaseFault.TheVariants.{WrongOrder};

use std::alloc::{AllocError, Global};
use std::sync::Wait;
use std::thread::Threads;
use trlab_machine::Dice;
use trlab_road::Road;
use trlab_segments::{CHANGE_PHASE, Gate, MOTION_PHASE, Pool, segment_count};
use trlab_sequential_book::{Lease, LeaseFault, Order};
use trlab_step::{Caller, Executor, StepObserver};
use trlab_verify::{Change, Motion};

/// A single worker and its gate. It asks all cars of a phase at once, but first passes the gate once for each segment
/// that a crew of one worker would draw.
#[derive(Drop)]
struct OneWorker<'a, G> {
    gate: &'a G,
}

impl<'a, G: Gate> OneWorker<'a, G> {
    fn new(gate: &'a G) -> OneWorker<'a, G> {
        OneWorker { gate }
    }

    /// Passes the gate for each segment of a phase.
    fn pass(&self, road: &Road, dice: &Dice, phase: u32) {
        let segments = segment_count(road.cars(), 1);
        for segment in 0..segments {
            self.gate.pass(dice.road, 0, phase, segment);
        }
    }
}

impl<'a, G: Gate> Executor for OneWorker<'a, G> {
    ghost is_ready = { λ _. Unit {0} };

    fn speeds<O: StepObserver>(
        &self,
        alloc: Global,
        answers: &mut Vec<u8>,
        road: &mut Road,
        motion: &Motion,
        dice: &Dice,
        observer: &mut O,
    ) -> Result<(), AllocError> {
        self.pass(road, dice, MOTION_PHASE);
        Caller.speeds(alloc, answers, road, motion, dice, observer)
    }

    fn crossings<O: StepObserver>(
        &self,
        alloc: Global,
        answers: &mut Vec<bool>,
        road: &mut Road,
        change: &Change,
        dice: &Dice,
        observer: &mut O,
    ) -> Result<(), AllocError> {
        self.pass(road, dice, CHANGE_PHASE);
        Caller.crossings(alloc, answers, road, change, dice, observer)
    }
}

/// The 1 to `MAX_WORKERS` workers of one runner, which take the steps of its leases together, and their gate.
#[derive(Drop)]
pub struct Team<'a, R, G> {
    gate: &'a G,
    /// While `Pool::run` runs, the helpers wait for the phases of the steps.
    pub pool: Pool<'a, R, G>,
    is_one: bool,
}

impl<'a, R: Threads + Wait + Sync, G: Gate + Sync> Team<'a, R, G> {
    /// A team of `workers` workers, whose threads are started by `Pool::run`.
    pub fn new(rt: &'a R, workers: u32, gate: &'a G) -> Team<'a, R, G>
        requires { (0 < workers) × (workers ≤ MAX_WORKERS) }
    {
        Team {
            gate,
            pool: Pool::new(rt, workers, gate),
            is_one: workers == 1,
        }
    }

    /// Runs the ordered step of a lease. A single worker does not run it in the pool, because it would pass no gate
    /// there.
    ///
    /// # Errors
    ///
    /// Those of `Lease::advance`.
    pub fn take_step(
        &self,
        alloc: Global,
        lease: &mut Lease,
        order: &Order,
    ) -> Result<(), LeaseFault>
        ensures ok { OnOk result (HasRun lease.old order.now lease.new) }
        ensures unchanged { OnErr result (lease.new ≡ lease.old) }
        ensures wrong { (result ≡ Err WrongOrder) ↔ (FitsOrder lease.old order.now → ⊥) }
    {
        if self.is_one {
            lease.advance(&OneWorker::new(self.gate), alloc, order)
        } else {
            lease.advance(&self.pool, alloc, order)
        }
    }
}
