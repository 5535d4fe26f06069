//! The lane change of a step: runs the change program for a block of cars at a time, and returns which of them cross.

ghost use Rattle.std.specs.Prelude.{◌≡◌, ◌≤◌, OnOk, length};
ghost use Rattle.trlab_road.specs.Cells.{cars};
ghost use Rattle.trlab_step.specs.Answers.{IsCrossingsPart};

use crate::block::{BLOCK, fill_change_views};
use std::alloc::{AllocError, Global};
use trlab_machine::{BLOCK_CARS, Dice, REGISTER_COUNT, Views, run_changes};
use trlab_road::Road;
use trlab_verify::Change;

/// Runs a change program for the cars `from..to` in standing order on a road of two lanes, and replaces the contents of
/// a list with which of them cross.
///
/// All cars see the same road, so parts can be computed in any order, or at the same time.
///
/// # Errors
///
/// If an allocation fails.
pub fn compute_crossings(
    crosses: &mut Vec<bool>,
    road: &Road,
    change: &Change,
    dice: &Dice,
    from: u32,
    to: u32,
) -> Result<(), AllocError>
    requires rising { from ≤ to }
    requires in_range { to ≤ cars road.now }
    requires two_lanes { length road.now.lanes ≡ 2 }
    ensures { OnOk result (IsCrossingsPart change.now dice.now road.now from to crosses.new.items) }
{
    let mut near = 0;
    crosses.clear();
    crosses.reserve((to - from) as usize)?;
    let mut views = Views::new();
    let mut registers = [[0; BLOCK_CARS]; REGISTER_COUNT];
    for block in 0..(to - from).div_ceil(BLOCK) {
        let begin = from + BLOCK * block;
        let end = begin + BLOCK.min(to - begin);
        fill_change_views(&mut views, road, begin, end, &mut near);
        let answers = run_changes(change, &views, dice, &mut registers);
        crosses.extend_from_slice(&answers[..(end - begin) as usize])?;
    }
    Ok(())
}
