//! The motion of a step: runs the motion program for a block of cars at a time, and returns their new speeds.

ghost use Rattle.std.specs.Prelude.{◌≡◌, ◌<◌, ◌≤◌, ◌+◌, ◌%◌, ℕ, OnOk, slice_index};
ghost use Rattle.trlab_road.specs.Cells.{cars};
ghost use Rattle.trlab_step.specs.Answers.{IsSpeedsPart};

use crate::block::{BLOCK, fill_motion_views};
use std::alloc::{AllocError, Global};
use trlab_machine::{
    BLOCK_CARS, Column, Dice, REGISTER_COUNT, SMALL_BLOCK_CARS, Views, run_few_motions, run_motions,
};
use trlab_road::Road;
use trlab_verify::Motion;

/// The lowest byte of each number of a column: the number itself, if it is at most 255.
#[inline(always)]
fn low_bytes<const N: usize>(numbers: &Column<N>) -> [u8; N]
    ensures { (k : ℕ) → k < N → slice_index result k ≡ slice_index numbers.now k % 256 }
{
    let mut bytes = [0; N];
    for k in 0..N {
        bytes[k] = (numbers[k] % 256) as u8;
    }
    bytes
}

/// Runs a motion program for the cars `from..to` in standing order, and replaces the contents of a list with their new
/// speeds in cells per step, each in a byte.
///
/// All cars see the same road, so parts can be computed in any order, or at the same time.
///
/// # Errors
///
/// If an allocation fails.
pub fn compute_speeds(
    speeds: &mut Vec<u8>,
    road: &Road,
    motion: &Motion,
    dice: &Dice,
    from: u32,
    to: u32,
) -> Result<(), AllocError>
    requires rising { from ≤ to }
    requires in_range { to ≤ cars road.now }
    ensures { OnOk result (IsSpeedsPart motion.now dice.now road.now from to speeds.new.items) }
{
    if to - from <= SMALL_BLOCK_CARS as u32 {
        return compute_few_speeds(speeds, road, motion, dice, from, to);
    }
    speeds.clear();
    speeds.reserve((to - from) as usize)?;
    let mut views = Views::<BLOCK_CARS>::new();
    let mut registers = [[0; BLOCK_CARS]; REGISTER_COUNT];
    for block in 0..(to - from).div_ceil(BLOCK) {
        let begin = from + BLOCK * block;
        let end = begin + BLOCK.min(to - begin);
        fill_motion_views(&mut views, road, begin, end);
        let answers = low_bytes(&run_motions(motion, &views, dice, &mut registers));
        speeds.extend_from_slice(&answers[..(end - begin) as usize])?;
    }
    Ok(())
}

/// `compute_speeds` for cars that fit into one small block.
fn compute_few_speeds(
    speeds: &mut Vec<u8>,
    road: &Road,
    motion: &Motion,
    dice: &Dice,
    from: u32,
    to: u32,
) -> Result<(), AllocError>
    requires rising { from ≤ to }
    requires at_most_small_block { to ≤ from + SMALL_BLOCK_CARS }
    requires in_range { to ≤ cars road.now }
    ensures { OnOk result (IsSpeedsPart motion.now dice.now road.now from to speeds.new.items) }
{
    speeds.clear();
    let mut views = Views::<SMALL_BLOCK_CARS>::new();
    let mut registers = [[0; SMALL_BLOCK_CARS]; REGISTER_COUNT];
    fill_motion_views(&mut views, road, from, to);
    let answers = low_bytes(&run_few_motions(motion, &views, dice, &mut registers));
    speeds.extend_from_slice(&answers[..(to - from) as usize])?;
    Ok(())
}
