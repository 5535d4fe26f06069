//! One step of a road under a rule: the lane change, if the rule has one, and then the motion.

ghost use Rattle.std.specs.Prelude.{◌≡◌, Some, IfOk, OnOk, OnErr, IsSome, IsTrue, length};
ghost use Rattle.trlab_road.specs.LaneChange.{IsCleanLaneChange};
ghost use Rattle.trlab_road.specs.Cells.{IsLegal};
ghost use Rattle.trlab_step.specs.Next.{IsCleanNext, IsCountedMotion, IsLaneChangePhase, IsNext};
ghost use Rattle.trlab_step.specs.Run.{IsRuleFor, suits};

use crate::executor::{Executor, NoObserver, StepObserver};
use crate::tally::{StepTally, count_lane_changes, tally_of};
use std::alloc::{AllocError, Global};
use std::mem;
use trlab_machine::Dice;
use trlab_road::{Road, Room};
use trlab_rules::Rule;
use trlab_verify::{Change, Motion};

/// Memory that is kept from step to step, so that most steps on one thread allocate nothing. No result depends on its
/// contents.
pub struct StepRoom {
    /// The lists for a lane change.
    pub(crate) lanes: Room,
    /// The answers of the motion program.
    pub(crate) speeds: Vec<u8>,
    /// The answers of the change program.
    pub(crate) crosses: Vec<bool>,
}

// Not derived: a derived drop is proved again, field by field, wherever the value goes out of scope.
impl Drop for StepRoom {
    fn drop(self) {
        let StepRoom {
            lanes: _lanes,
            speeds: _speeds,
            crosses: _crosses,
        } = self;
    }
}

impl StepRoom {
    /// A room that has allocated nothing yet.
    pub fn new(alloc: Global) -> StepRoom {
        StepRoom {
            lanes: Room::new(alloc),
            speeds: Vec::new(alloc),
            crosses: Vec::new(alloc),
        }
    }
}

/// How the answers of the cars of a step are computed: the executor, its allocator and the dice.
#[derive(Drop)]
pub struct StepContext<'a, E> {
    pub executor: &'a E,
    pub alloc: Global,
    pub dice: &'a Dice,
}

/// Whether a rule suits a road: a rule with a change program needs two lanes.
pub fn suits(rule: &Rule, road: &Road) -> bool
    ensures value { result ≡ suits rule.now road.now }
    ensures rule { IsTrue result → IsRuleFor (length road.now.lanes) rule.now }
    ensures legal { IsLegal road.now }
{
    let lanes = road.lanes();
    !(rule.change().is_some() && lanes == 1)
}

/// Takes a step: the road becomes the next road under the rule. The step uses the memory of the room. An observer sees
/// the road before the step, even if an allocation fails.
///
/// If the rule has a change program, it decides on this road which cars cross, and these cross at once. On the road
/// after the lane change the motion program decides the new speeds, and all cars move at once. A car has the same
/// random words in both phases.
///
/// # Errors
///
/// If an allocation fails; then the road is unchanged. The room may have lost its memory, but can still be used.
pub fn take_step<E: Executor, O: StepObserver>(
    context: &StepContext<E>,
    road: &mut Road,
    room: &mut StepRoom,
    rule: &Rule,
    observer: &mut O,
) -> Result<StepTally, AllocError>
    requires ready { E.is_ready context.now.executor.now }
    requires lanes { IsSome rule.now.change → length road.old.lanes ≡ 2 }
    ensures next { IfOk result (λ tally. IsNext rule.now context.now.dice.now road.old road.new tally) }
    ensures clean { IfOk result (λ tally. IsCleanNext rule.now context.now.dice.now road.old road.new tally) }
    ensures legal { OnOk result (IsLegal road.new) }
    ensures seen { O.observes observer.old road.old observer.new }
    ensures unchanged { OnErr result (road.new ≡ road.old) }
{
    // only the proof reads it: the road is legal, so each call of a program is safe
    let _start = road.snapshot();
    let motion = rule.motion();
    match rule.change() {
        None => move_cars(context, road, &mut room.speeds, motion, observer),
        Some(change) => {
            let (middle, changes) = change_lanes(context, road, room, change, observer)?;
            let tally = move_after_lane_change(context, road, middle, room, motion)?;
            Ok(StepTally { changes, ..tally })
        }
    }
}

/// Runs the motion on `middle`, the road after the lane change, and replaces `road` by the result. Returns the tally of
/// the motion.
fn move_after_lane_change<E: Executor>(
    context: &StepContext<E>,
    road: &mut Road,
    mut middle: Road,
    room: &mut StepRoom,
    motion: &Motion,
) -> Result<StepTally, AllocError>
    requires { E.is_ready context.now.executor.now }
    ensures moved { IfOk result (λ tally.
        IsCountedMotion motion.now context.now.dice.now middle road.new tally) }
    ensures unchanged { OnErr result (road.new ≡ road.old) }
{
    let speeds = &mut room.speeds;
    let tally = move_cars(context, &mut middle, speeds, motion, &mut NoObserver)?;
    mem::replace(road, middle).leave_to(&mut room.lanes);
    Ok(tally)
}

/// The road after the lane change under a change program, and the number of cars that crossed.
fn change_lanes<E: Executor, O: StepObserver>(
    context: &StepContext<E>,
    road: &mut Road,
    room: &mut StepRoom,
    change: &Change,
    observer: &mut O,
) -> Result<(Road, u64), AllocError>
    requires ready { E.is_ready context.now.executor.now }
    requires two_lanes { length road.old.lanes ≡ 2 }
    ensures phase { IfOk result (λ after.
        IsLaneChangePhase (Some change.now) context.now.dice.now road.old after.0 after.1) }
    ensures clean { IfOk result (λ after. IsCleanLaneChange road.old after.0) }
    ensures legal { IfOk result (λ after. IsLegal after.0) }
    ensures seen { O.observes observer.old road.old observer.new }
    ensures same { road.new ≡ road.old }
{
    let alloc = context.alloc;
    context.executor.crossings(
        alloc,
        &mut room.crosses,
        road,
        change,
        context.dice,
        observer,
    )?;
    let middle = road.after_lane_change(alloc, &mut room.lanes, &room.crosses)?;
    Ok((middle, count_lane_changes(&room.crosses)))
}

/// Moves all cars of the road, and returns the tally of the motion.
fn move_cars<E: Executor, O: StepObserver>(
    context: &StepContext<E>,
    road: &mut Road,
    speeds: &mut Vec<u8>,
    motion: &Motion,
    observer: &mut O,
) -> Result<StepTally, AllocError>
    requires { E.is_ready context.now.executor.now }
    ensures moved { IfOk result (λ tally.
        IsCountedMotion motion.now context.now.dice.now road.old road.new tally) }
    ensures seen { O.observes observer.old road.old observer.new }
    ensures unchanged { OnErr result (road.new ≡ road.old) }
{
    // only the proof reads it: the road is legal, so its cars are few enough to be counted
    let _start = road.snapshot();
    context.executor.speeds(context.alloc, speeds, road, motion, context.dice, observer)?;
    road.move_cars(speeds);
    Ok(tally_of(speeds))
}
