//! The workers of a single step: the threads of a crew end with each phase, so they borrow the road, and no thread
//! waits for a lock.

ghost use Rattle.std.specs.Prelude.{◌≡◌, ◌<◌, ◌≤◌, [], IfOk};
ghost use Rattle.std.specs.Thread.{IsSend, IsSync};
ghost use Rattle.trlab_bounds.specs.declared.runs.TheConstants.{MAX_WORKERS};
ghost use Rattle.trlab_road.specs.Cells.{cars};
ghost use Rattle.trlab_segments.specs.Answered.{HasTwoLanes, HasWorked, IsPartOfPhase, ReturnsCrossings, ReturnsSpeeds};
ghost use Rattle.trlab_segments.specs.Drawers.{IsDrawerOf, ticket_count, tickets_of};
ghost use Rattle.trlab_step.specs.Answers.{IsCrossingsPart, IsSpeedsPart, dice_of};
ghost use Rattle.trlab_step.specs.Next.{IsStepResult};

use crate::parts::{Part, join_parts, line_up, work};
use crate::phase::{Asked, Phase};
use crate::segment::{Gate, segment_count};
use crate::tickets::{Drawer, Tickets};
use std::alloc::{AllocError, Global};
use std::thread::{Threads, join};
use trlab_machine::Dice;
use trlab_road::Road;
use trlab_rules::Rule;
use trlab_step::{Executor, StepFault, StepObserver, StepTally, step_road_by};
use trlab_verify::{Change, Motion};
use trlab_words::Key;

/// 1 to `MAX_WORKERS` workers and their gate. The calling thread is worker 0; the others are started for each phase,
/// and have ended when its answers are returned.
#[derive(Drop)]
pub struct Crew<'a, R, G> {
    rt: &'a R,
    gate: &'a G,
    workers: u32,
    ghost in_range: { (0 < workers) × (workers ≤ MAX_WORKERS) },
}

impl<'a, R: Threads + Sync, G: Gate + Sync> Crew<'a, R, G> {
    ghost use Rattle.trlab_segments.specs.Workers.{crew_workers};

    /// A crew of `workers` workers, each of which passes the gate before each segment.
    pub fn new(rt: &'a R, workers: u32, gate: &'a G) -> Crew<'a, R, G>
        requires { (0 < workers) × (workers ≤ MAX_WORKERS) }
        ensures { crew_workers result ≡ workers }
    {
        Crew { rt, gate, workers }
    }

    /// The answers of all cars of a phase, in standing order.
    ///
    /// # Errors
    ///
    /// If an allocation fails in any worker.
    fn ask<A: Copy + Drop + Send, P: Asked<A> + Sync>(
        &self,
        alloc: Global,
        phase: &Phase<P>,
    ) -> Result<Vec<A>, AllocError>
        requires { P.can_ask phase.now.road.now }
        ensures { IfOk result (λ answers. P.answers phase.now.program.now phase.now.dice.now
            phase.now.road.now 0 (cars phase.now.road.now) answers.items) }
    {
        let count = segment_count(phase.road.cars(), self.workers);
        let (tickets, drawer) = Tickets::start(alloc, count, self.workers)?;
        let (drawer, parts) = share(self.rt, alloc, phase, &tickets, drawer, self.gate);
        let parts = parts?;
        let mut answers = Vec::new(alloc);
        // Each worker returned its pass after it had found no ticket left, so all tickets were drawn.
        match tickets.finish(drawer) {
            Ok(()) => line_up(&mut answers, phase, count, &parts)?,
            Err(_) => unreachable!(),
        }
        Ok(answers)
    }

    /// The new speeds of all cars under a motion program, in cells per step and in standing order, each in a byte.
    ///
    /// # Errors
    ///
    /// If an allocation fails in any worker.
    pub fn speeds(
        &self,
        alloc: Global,
        road: &Road,
        motion: &Motion,
        dice: &Dice,
    ) -> Result<Vec<u8>, AllocError>
        ensures { IfOk result (λ speeds.
            IsSpeedsPart motion.now dice.now road.now 0 (cars road.now) speeds.items) }
    {
        self.ask(
            alloc,
            &Phase {
                program: motion,
                road,
                dice,
            },
        )
    }

    /// Whether each car of a road of two lanes crosses under a change program, in standing order.
    ///
    /// # Errors
    ///
    /// If an allocation fails in any worker.
    pub fn crossings(
        &self,
        alloc: Global,
        road: &Road,
        change: &Change,
        dice: &Dice,
    ) -> Result<Vec<bool>, AllocError>
        requires { HasTwoLanes road.now }
        ensures { IfOk result (λ crosses.
            IsCrossingsPart change.now dice.now road.now 0 (cars road.now) crosses.items) }
    {
        self.ask(
            alloc,
            &Phase {
                program: change,
                road,
                dice,
            },
        )
    }
}

/// An executor made of two closures: one for speeds, and one for lane changes. A `Crew` is not an `Executor` itself,
/// because a method of a trait cannot yet start threads that call a gate of any type; a closure can.
#[derive(Drop)]
pub struct Calls<S, C> {
    speeds: S,
    crossings: C,
}

impl<S, C> Calls<S, C> {
    /// An executor that calls `speeds` for the motion and `crossings` for the lane change.
    pub fn new(speeds: S, crossings: C) -> Calls<S, C>
        ensures speeds { result.speeds ≡ speeds }
        ensures crossings { result.crossings ≡ crossings }
    {
        Calls { speeds, crossings }
    }
}

impl<
    S: Fn(Global, &Road, &Motion, &Dice) -> Result<Vec<u8>, AllocError>,
    C: Fn(Global, &Road, &Change, &Dice) -> Result<Vec<bool>, AllocError>,
> Executor for Calls<S, C> {
    ghost is_ready = { λ calls. ReturnsSpeeds (S.pre calls.speeds) (S.post calls.speeds)
        × ReturnsCrossings (C.pre calls.crossings) (C.post calls.crossings) };

    fn speeds<O: StepObserver>(
        &self,
        alloc: Global,
        answers: &mut Vec<u8>,
        road: &mut Road,
        motion: &Motion,
        dice: &Dice,
        observer: &mut O,
    ) -> Result<(), AllocError> {
        observer.observe(road);
        *answers = (self.speeds)(alloc, &*road, motion, dice)?;
        Ok(())
    }

    fn crossings<O: StepObserver>(
        &self,
        alloc: Global,
        answers: &mut Vec<bool>,
        road: &mut Road,
        change: &Change,
        dice: &Dice,
        observer: &mut O,
    ) -> Result<(), AllocError> {
        observer.observe(road);
        *answers = (self.crossings)(alloc, &*road, change, dice)?;
        Ok(())
    }
}

/// Asks the cars with one worker per pass of the drawer. Each worker has its own thread, except worker 0: it works on
/// the calling thread once the others were started. If a thread cannot be started, the calling thread does its work
/// too.
///
/// # Errors
///
/// The second part is an error if an allocation fails in any worker.
fn share<A: Drop + Send, P: Asked<A> + Sync, R: Threads + Sync, G: Gate + Sync>(
    rt: &R,
    alloc: Global,
    phase: &Phase<P>,
    tickets: &Tickets,
    drawer: Drawer,
    gate: &G,
) -> (Drawer, Result<Vec<Part<A>>, AllocError>)
    requires from { IsDrawerOf tickets.now drawer }
    requires fresh { tickets_of drawer ≡ [] }
    requires lanes { P.can_ask phase.now.road.now }
    ensures { HasWorked (IsPartOfPhase P.answers phase.now (ticket_count tickets.now)) tickets.now drawer result }
{
    let mut drawer = drawer;
    let worker = drawer.passes() - 1;
    if worker == 0 {
        let parts = work(alloc, phase, tickets, &mut drawer, worker, gate);
        return (drawer, parts);
    }
    let mut theirs = tickets.split(&mut drawer);
    let ((theirs, their_parts), (mine, my_parts)) = join(
        rt,
        move || -> (Drawer, Result<Vec<Part<A>>, AllocError>)
            requires { IsDrawerOf tickets.now theirs × (tickets_of theirs ≡ []) × P.can_ask phase.now.road.now }
            ensures { HasWorked (IsPartOfPhase P.answers phase.entry.now (ticket_count tickets.entry.now))
                tickets.entry.now theirs result }
        {
            let parts = work(alloc, phase, tickets, &mut theirs, worker, gate);
            (theirs, parts)
        },
        move || -> (Drawer, Result<Vec<Part<A>>, AllocError>)
            requires { IsSync R.row × IsSync G.row × IsSync P.row × IsSend A.row
                × IsDrawerOf tickets.now drawer × (tickets_of drawer ≡ []) × P.can_ask phase.now.road.now }
            ensures { HasWorked (IsPartOfPhase P.answers phase.entry.now (ticket_count tickets.entry.now))
                tickets.entry.now drawer result }
        { share(rt, alloc, phase, tickets, drawer, gate) },
    );
    (
        tickets.gather(theirs, mine),
        join_parts(their_parts, my_parts),
    )
}

/// The next road as `step_road` returns it, computed by 1 to `MAX_WORKERS` workers. It is the same for every number of
/// workers and every gate.
///
/// The cars are cut into segments, four per worker but none without a car. In each of the two phases a worker draws the
/// number of the next segment, passes the gate and asks the segment's cars, until no segment is left. The calling
/// thread is worker 0, and draws once the others were started; it also does the work of any that cannot be started.
///
/// # Errors
///
/// Those of `step_road`: `LanesMismatch` if the rule has a change program and the road has one lane, and
/// `Memory` if an allocation fails, in any thread. All threads have ended then.
pub fn step_shared<R: Threads + Sync, G: Gate + Sync>(
    rt: &R,
    alloc: Global,
    road: &Road,
    rule: &Rule,
    key: &Key,
    number: u32,
    step: u32,
    workers: u32,
    gate: &G,
) -> Result<(Road, StepTally), StepFault>
    requires { (0 < workers) × (workers ≤ MAX_WORKERS) }
    ensures { IsStepResult rule.now (dice_of key.now.0 number step) road.now result }
{
    let crew = Crew::new(rt, workers, gate);
    let dice = Dice::new(key, number, step);
    let calls = Calls::new(
        |alloc: Global, road: &Road, motion: &Motion, dice: &Dice| crew.speeds(
            alloc, road, motion, dice,
        ),
        |alloc: Global, road: &Road, change: &Change, dice: &Dice| -> Result<Vec<bool>, AllocError>
            requires { HasTwoLanes road.now }
        { crew.crossings(alloc, road, change, dice) },
    );
    step_road_by(&calls, alloc, road, rule, &dice)
}
