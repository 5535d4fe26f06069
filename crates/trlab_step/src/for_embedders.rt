//! A step of a road and its parts, as calls that leave the road as it is and return new lists and roads. A car's random
//! words are determined by the key, the car's number, the number of the road and the number of the step.
//!
//! Programs that embed trlab call them, and so do its tests. A run of trlab itself calls `take_step`, which changes the
//! road in place and uses the same memory for each step.

ghost use Rattle.std.specs.Prelude.{◌≡◌, ◌≤◌, ◌<◌, ℕ, Bool, IfOk, length, slice_index};
ghost use Rattle.trlab_bounds.specs.declared.roads.TheConstants.{MAX_LIMIT};
ghost use Rattle.trlab_road.specs.Cells.{cars, IsLegal};
ghost use Rattle.trlab_road.specs.LaneChange.{IsCleanLaneChange, AreSafeCrossings, ChangesLanes};
ghost use Rattle.trlab_road.specs.Motion.{IsCleanMotion, AreSafeSpeeds, Moves, in_order};
ghost use Rattle.trlab_step.specs.Answers.{IsCrossingsPart, IsSpeedsPart, dice_of};
ghost use Rattle.trlab_step.specs.Next.{IsStepResult};
ghost use Rattle.trlab_step.specs.declared.for_embedders.StepFault.TheVariants.{Memory};

use crate::executor::{Caller, Executor, NoObserver};
use crate::lane_change::compute_crossings;
use crate::motion::compute_speeds;
use crate::step::{StepContext, StepRoom, suits, take_step};
use crate::tally::StepTally;
use std::alloc::{AllocError, Global};
use thiserror::Error;
use trlab_machine::Dice;
use trlab_road::{Road, Room};
use trlab_rules::Rule;
use trlab_verify::{Change, Motion};
use trlab_words::Key;

/// Why a step was not taken.
#[derive(Clone, Copy, Debug, PartialEq, Eq, Error)]
pub enum StepFault {
    /// The rule has a change program, but the road has only one lane.
    #[error("a change program needs two lanes")]
    LanesMismatch,
    /// An allocation failed.
    #[error("out of memory")]
    Memory,
}

impl From<AllocError> for StepFault {
    ghost from_gives = { λ _ fault. fault ≡ Memory };

    fn from(_: AllocError) -> StepFault {
        StepFault::Memory
    }
}

/// The next road under a rule, and the tally of the step, computed on the calling thread.
///
/// The key, the number of the road and the number of the step determine the random words.
///
/// # Errors
///
/// `LanesMismatch` if the rule has a change program and the road has one lane, and `Memory` if an allocation fails.
pub fn step_road(
    alloc: Global,
    road: &Road,
    rule: &Rule,
    key: &Key,
    number: u32,
    step: u32,
) -> Result<(Road, StepTally), StepFault>
    ensures { IsStepResult rule.now (dice_of key.now.0 number step) road.now result }
{
    step_road_by(&Caller, alloc, road, rule, &Dice::new(key, number, step))
}

/// The next road under a rule, and the tally of the step, as `take_step` computes them. The executor computes the
/// answers of the cars.
///
/// # Errors
///
/// `LanesMismatch` if the rule has a change program and the road has one lane, and `Memory` if an allocation fails.
pub fn step_road_by<E: Executor>(
    executor: &E,
    alloc: Global,
    road: &Road,
    rule: &Rule,
    dice: &Dice,
) -> Result<(Road, StepTally), StepFault>
    requires { E.is_ready executor.now }
    ensures { IsStepResult rule.now dice.now road.now result }
{
    if !suits(rule, road) {
        return Err(StepFault::LanesMismatch);
    }
    let mut next = road.copy(alloc)?;
    let mut room = StepRoom::new(alloc);
    let context = StepContext {
        executor,
        alloc,
        dice,
    };
    let tally = take_step(&context, &mut next, &mut room, rule, &mut NoObserver)?;
    Ok((next, tally))
}

/// Runs a change program for the cars `from..to` in standing order on a road of two lanes, and returns which of them
/// cross.
///
/// Each car's random words are determined by the key, its own number, the number of the road and the number of the
/// step. All cars see the same road, so parts can be computed in any order, or at the same time.
///
/// # Errors
///
/// If an allocation fails.
pub fn choose_part(
    alloc: Global,
    road: &Road,
    change: &Change,
    key: &Key,
    number: u32,
    step: u32,
    from: u32,
    to: u32,
) -> Result<Vec<bool>, AllocError>
    requires rising { from ≤ to }
    requires in_range { to ≤ cars road.now }
    requires two_lanes { length road.now.lanes ≡ 2 }
    ensures { IfOk result (λ crosses.
        IsCrossingsPart change.now (dice_of key.now.0 number step) road.now from to crosses.items) }
{
    let mut crosses = Vec::new(alloc);
    compute_crossings(
        &mut crosses,
        road,
        change,
        &Dice::new(key, number, step),
        from,
        to,
    )?;
    Ok(crosses)
}

/// The road after the lane change: all cars that cross do so at once. The answers are in standing order, and a car
/// may cross only to an empty side cell.
///
/// Nothing collides: each car stays or moves to an empty cell, no car is lost, and no two cars meet.
///
/// # Errors
///
/// If an allocation fails.
pub fn commit_change(alloc: Global, road: &Road, crosses: &[bool]) -> Result<Road, AllocError>
    requires { AreSafeCrossings road.now crosses.now }
    ensures crosses { IfOk result (λ next. (answer : ℕ → ℕ → Bool)
        → crosses.now ≡ in_order answer road.now → ChangesLanes answer road.now next) }
    ensures clean { IfOk result (λ next. IsCleanLaneChange road.now next) }
    ensures legal { IfOk result (λ next. IsLegal next) }
{
    road.after_lane_change(alloc, &mut Room::new(alloc), crosses)
}

/// Runs a motion program for the cars `from..to` in standing order, and returns their new speeds in cells per step.
///
/// Each car's random words are determined by the key, its own number, the number of the road and the number of the
/// step. All cars see the same road, so parts can be computed in any order, or at the same time.
///
/// # Errors
///
/// If an allocation fails.
pub fn move_part(
    alloc: Global,
    road: &Road,
    motion: &Motion,
    key: &Key,
    number: u32,
    step: u32,
    from: u32,
    to: u32,
) -> Result<Vec<u32>, AllocError>
    requires rising { from ≤ to }
    requires in_range { to ≤ cars road.now }
    ensures { IfOk result (λ speeds.
        IsSpeedsPart motion.now (dice_of key.now.0 number step) road.now from to speeds.items) }
{
    let mut answers = Vec::new(alloc);
    compute_speeds(
        &mut answers,
        road,
        motion,
        &Dice::new(key, number, step),
        from,
        to,
    )?;
    let speeds = speeds_to_u32(alloc, &answers)?;
    Ok(speeds)
}

/// The speeds as `u32` numbers.
fn speeds_to_u32(alloc: Global, speeds: &[u8]) -> Result<Vec<u32>, AllocError>
    ensures { IfOk result (λ numbers. numbers.items ≡ speeds.now) }
{
    let mut numbers = Vec::with_capacity(alloc, speeds.len())?;
    for speed in speeds {
        numbers.push(u32::from(*speed))?;
    }
    Ok(numbers)
}

/// The road after the motion: all cars move at once by their new speeds, in cells per step. The speeds are in
/// standing order, and each is at most the car's gap and the limit.
///
/// Nothing collides: each car moves only over empty cells, no car is lost, and no two cars meet.
///
/// # Errors
///
/// If an allocation fails.
pub fn commit_motion(alloc: Global, road: &Road, speeds: &[u32]) -> Result<Road, AllocError>
    requires { AreSafeSpeeds road.now speeds.now }
    ensures moves { IfOk result (λ next. (answer : ℕ → ℕ → ℕ)
        → speeds.now ≡ in_order answer road.now → Moves answer road.now next) }
    ensures clean { IfOk result (λ next. IsCleanMotion road.now next) }
    ensures legal { IfOk result (λ next. IsLegal next) }
{
    // only the proof reads it: the road is legal, so each speed fits into a byte
    let _start = road.snapshot();
    let mut next = road.copy(alloc)?;
    next.move_cars(&speeds_to_bytes(alloc, speeds)?);
    Ok(next)
}

/// The speeds as bytes; each is at most `MAX_LIMIT`.
fn speeds_to_bytes(alloc: Global, speeds: &[u32]) -> Result<Vec<u8>, AllocError>
    requires { (k : ℕ) → k < length speeds.now → slice_index speeds.now k ≤ MAX_LIMIT }
    ensures { IfOk result (λ bytes. bytes.items ≡ speeds.now) }
{
    let mut bytes = Vec::with_capacity(alloc, speeds.len())?;
    for speed in speeds {
        bytes.push(*speed as u8)?;
    }
    Ok(bytes)
}
