//! How a pool asks the cars of a phase: the caller opens it to the helpers, works on it as they do, and lines up the
//! answers once no helper has it.

ghost use Rattle.std.specs.Prelude.{◌≡◌, ◌<◌, IfErr, IfOk, IfSome, OnOk};
ghost use Rattle.std.specs.Arc.{arc_value};
ghost use Rattle.trlab_road.specs.Cells.{cars};
ghost use Rattle.trlab_segments.specs.Drawers.{HasDrawnNone};
ghost use Rattle.trlab_segments.specs.Answered.{AnswersAll, CoversAllCars};

use crate::phase::Asked;
use crate::pool::Pool;
use crate::pool::brief::{Brief, brief_of, draw_all};
use crate::pool::results::split_pass;
use crate::pool::task::{Task, TaskSlot};
use crate::segment::Gate;
use crate::tickets::Drawer;
use std::alloc::{AllocError, AllocFailed, Global};
use std::sync::{Arc, Wait};
use std::{hint, thread};
use trlab_machine::Dice;
use trlab_road::Road;
use trlab_step::{Caller, Executor, StepObserver};
use trlab_verify::{Change, Motion};

/// The number of times that the caller checks whether a helper is left before it yields to other threads.
const SPINS_BEFORE_YIELD: u32 = 1000;

/// Waits until no helper holds the task, and returns it.
fn wait_for_helpers<A, P: Asked<A>, R: Wait>(rt: &R, task: Arc<Task<A, P>, Global>) -> Task<A, P>
    ensures { result ≡ arc_value task }
{
    let mut task = task;
    let mut spins = 0u32;
    for _ in rt.forever() {
        match Arc::try_unwrap(task) {
            Ok(task) => return task,
            Err(shared) => task = shared,
        }
        if spins < SPINS_BEFORE_YIELD {
            spins += 1;
            hint::spin_loop();
        } else {
            thread::yield_now();
        }
    }
    unreachable!()
}

/// Puts a phase into memory that all workers share.
///
/// # Errors
///
/// Returns the road if an allocation fails.
fn shared_task<A: Copy + Drop, P: Asked<A> + Drop>(
    alloc: Global,
    brief: Brief<P>,
    reserve: Option<Drawer>,
) -> Result<Arc<Task<A, P>, Global>, Road>
    requires reserve { IfSome reserve (HasDrawnNone brief.tickets) }
    requires lanes { P.can_ask brief.road }
    ensures ok { IfOk result (λ task. (arc_value task).brief ≡ brief) }
    ensures err { IfErr result (λ back. back ≡ brief.road) }
{
    match Task::begin(alloc, brief, reserve) {
        Err(brief) => Err(brief.into_road()),
        Ok(task) => match Arc::new(alloc, task) {
            Ok(task) => Ok(task),
            Err(AllocFailed { value }) => Err(value.into_road()),
        },
    }
}

impl<'a, R: Wait, G: Gate> Pool<'a, R, G> {
    /// Opens a phase to the helpers, and shows its road to an observer.
    fn open<A: Copy + Drop, P: Asked<A> + Drop, O: StepObserver>(
        &self,
        slot: &TaskSlot<A, P>,
        task: &Arc<Task<A, P>, Global>,
        observer: &mut O,
    )
        ensures { O.observes observer.old (arc_value task.now).brief.road observer.new }
    {
        if let Ok(shared) = Arc::try_clone(task) {
            slot.set_task(self.rt, Some(shared));
            self.rendezvous.wake();
        }
        observer.observe(&task.brief.road);
    }

    /// Replaces a list by the answers of a brief's program to all cars, in standing order, and returns the brief's
    /// road. There are as many workers as the drawer has passes; helpers find the task in this slot. An observer is
    /// shown the road once the helpers are woken.
    ///
    /// # Errors
    ///
    /// If an allocation fails, in the caller or in a helper.
    fn execute<A: Copy + Drop, P: Asked<A> + Drop, O: StepObserver>(
        &self,
        slot: &TaskSlot<A, P>,
        answers: &mut Vec<A>,
        brief: Brief<P>,
        drawer: Drawer,
        observer: &mut O,
    ) -> (Road, Result<(), AllocError>)
        requires new { HasDrawnNone brief.tickets drawer }
        requires cut { CoversAllCars brief }
        requires lanes { P.can_ask brief.road }
        ensures road { result.0 ≡ brief.road }
        ensures seen { O.observes observer.old brief.road observer.new }
        ensures answers { OnOk result.1 (AnswersAll P.answers brief answers.new.items) }
    {
        let alloc = *answers.allocator();
        let (reserve, mut mine) = split_pass(&brief.tickets, drawer);
        let task = match shared_task(alloc, brief, reserve) {
            Ok(task) => task,
            Err(road) => {
                observer.observe(&road);
                return (road, Err(AllocError));
            }
        };
        self.open(slot, &task, observer);
        let parts = draw_all(alloc, &task.brief, &mut mine, 0, self.gate);
        slot.set_task(self.rt, None);
        wait_for_helpers(self.rt, task).settle(self.rt, answers, mine, parts)
    }

    /// Replaces a list by the answers of a program to all cars of a road, in standing order. The road moves to the
    /// workers and comes back unchanged; an observer sees it while the cars are asked.
    ///
    /// # Errors
    ///
    /// If an allocation fails in any worker.
    fn ask<A: Copy + Drop, P: Asked<A> + Drop, O: StepObserver>(
        &self,
        slot: &TaskSlot<A, P>,
        answers: &mut Vec<A>,
        program: &P,
        road: &mut Road,
        dice: &Dice,
        observer: &mut O,
    ) -> Result<(), AllocError>
        requires lanes { P.can_ask road.old }
        ensures unchanged { road.new ≡ road.old }
        ensures seen { O.observes observer.old road.old observer.new }
        ensures answers { OnOk result (
            P.answers program.now dice.now road.old 0 (cars road.old) answers.new.items) }
    {
        let alloc = *answers.allocator();
        let Ok((brief, drawer)) = brief_of::<A, P>(alloc, program, dice, road, self.workers) else {
            observer.observe(road);
            return Err(AllocError);
        };
        let (back, asked) = self.execute(slot, answers, brief, drawer, observer);
        *road = back;
        asked
    }
}

impl<'a, R: Wait, G: Gate> Executor for Pool<'a, R, G> {
    ghost is_ready = { λ _. Unit {0} };

    fn speeds<O: StepObserver>(
        &self,
        alloc: Global,
        answers: &mut Vec<u8>,
        road: &mut Road,
        motion: &Motion,
        dice: &Dice,
        observer: &mut O,
    ) -> Result<(), AllocError> {
        if self.workers == 1 {
            return Caller.speeds(alloc, answers, road, motion, dice, observer);
        }
        let slot = &self.rendezvous.motions;
        self.ask(slot, answers, motion, road, dice, observer)
    }

    fn crossings<O: StepObserver>(
        &self,
        alloc: Global,
        answers: &mut Vec<bool>,
        road: &mut Road,
        change: &Change,
        dice: &Dice,
        observer: &mut O,
    ) -> Result<(), AllocError> {
        if self.workers == 1 {
            return Caller.crossings(alloc, answers, road, change, dice, observer);
        }
        let slot = &self.rendezvous.changes;
        self.ask(slot, answers, change, road, dice, observer)
    }
}
