//! Evenly spaced cars: the cells of all lanes, counted place by place, are divided evenly among the cars.

ghost use Rattle.std.specs.Prelude.{◌≡◌, ◌*◌, ◌/◌, ◌<◌, ◌≤◌, ℕ, length, IfOk, MatchResult};
ghost use Rattle.trlab_bounds.specs.declared.roads.TheConstants.{MAX_LENGTH, MAX_LANES};
ghost use Rattle.trlab_road.specs.Stored.{AreSorted, cells_of, list_at};
ghost use Rattle.trlab_road.specs.Spreading.{CanSpread, IsEvenSpacingFault, IsEvenlySpacedLane};

use crate::car::LaneCar;
use crate::fault::RoadFault;
use crate::lanes::empty_lanes;
use std::alloc::{AllocError, Global};
use trlab_bounds::roads::{MAX_LANES, MAX_LENGTH, MAX_LIMIT};

/// Checks a number of lanes, the cells of each lane, a limit and a number of cars.
///
/// # Errors
///
/// The first fault: `Lanes`, then `Length`, then `Limit`, then `TooManyCars`.
pub fn check_even(lanes: u32, cells: u32, limit: u32, count: u32) -> Result<(), RoadFault>
    ensures { MatchResult result
        (λ _. CanSpread lanes cells limit count)
        (λ fault. IsEvenSpacingFault lanes cells limit count fault) }
{
    if lanes == 0 || lanes > MAX_LANES {
        return Err(RoadFault::Lanes);
    }
    if cells == 0 || cells > MAX_LENGTH {
        return Err(RoadFault::Length);
    }
    if limit == 0 || limit > MAX_LIMIT {
        return Err(RoadFault::Limit);
    }
    if count > lanes * cells {
        return Err(RoadFault::TooManyCars);
    }
    Ok(())
}

/// The flat cell of car `number`, one of `count` cars that are evenly spaced on a road of `road_cells` cells in all.
/// Flat cells count across the lanes: place 0 of each lane, then place 1, and so on.
fn flat_cell(road_cells: usize, count: usize, number: usize) -> usize
    requires at_most_max_cells { road_cells ≤ MAX_LANES * MAX_LENGTH }
    requires room { count ≤ road_cells }
    requires below { number < count }
    ensures { result ≡ number * road_cells / count }
{
    number * road_cells / count
}

/// Lanes of `cells` cells with `count` evenly spaced cars of speed 0 in all.
pub fn even_lanes(
    alloc: Global,
    lanes: usize,
    cells: usize,
    count: usize,
) -> Result<Vec<Vec<LaneCar>>, AllocError>
    requires at_least_one_lane { 1 ≤ lanes }
    requires at_most_max_lanes { lanes ≤ MAX_LANES }
    requires at_most_max_length { cells ≤ MAX_LENGTH }
    requires room { count ≤ lanes * cells }
    ensures same_lanes { IfOk result (λ next. length next.items ≡ lanes) }
    ensures sorted { IfOk result (λ next. AreSorted cells next.items) }
    ensures each_lane { IfOk result (λ next. (l : ℕ) → l < lanes
        → IsEvenlySpacedLane lanes cells count l (cells_of cells (list_at next.items l))) }
{
    let mut next = empty_lanes(alloc, lanes)?;
    for number in 0..count {
        let flat = flat_cell(lanes * cells, count, number);
        next[flat % lanes].push(LaneCar::new(number as u32, (flat / lanes) as u32, 0))?;
    }
    Ok(next)
}
