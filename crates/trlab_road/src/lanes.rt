//! The lanes of a road, each the list of its cars by increasing place.

ghost use Rattle.std.specs.Prelude.{ℕ, ◌≡◌, ◌*◌, ◌<◌, ◌≤◌, ◌↔◌, IsTrue, IfOk, [], length, slice_index_or, sum_by};
ghost use Rattle.trlab_bounds.specs.declared.roads.TheConstants.{MAX_LENGTH, MAX_LANES};
ghost use Rattle.trlab_road.specs.Stored.{IsFoundAt, list_at, lists_of, no_car, car_on};

use crate::car::{Car, LaneCar};
use std::alloc::{AllocError, Global};

/// The lane of the k-th car in standing order, and its index in the lane's list.
pub fn find(lanes: &[Vec<LaneCar>], k: u32) -> (u32, usize)
    requires at_most_max_lanes { length lanes.now ≤ MAX_LANES }
    requires below { k < sum_by length (lists_of lanes.now) }
    ensures { IsFoundAt lanes.now k result.0 result.1 }
{
    let index = k as usize;
    let first = lanes[0].len();
    if index < first {
        (0, index)
    } else {
        (1, index - first)
    }
}

/// The car at an index of the list of a lane.
pub fn car_of(lanes: &[Vec<LaneCar>], lane: u32, index: usize) -> Car
    requires on_lane { lane < length lanes.now }
    requires low { index < length (list_at lanes.now lane) }
    ensures { result ≡ car_on lane (slice_index_or (list_at lanes.now lane) index no_car) }
{
    let car = lanes[lane as usize][index];
    Car {
        number: car.number(),
        lane,
        place: car.place(),
        speed: car.speed(),
    }
}

/// The list of the cars of a lane.
pub fn list_of(lanes: &[Vec<LaneCar>], lane: u32) -> &[LaneCar]
    requires { lane < length lanes.now }
    ensures { result.now ≡ list_at lanes.now lane }
{
    &lanes[lane as usize]
}

/// The number of cars of all lanes.
pub fn count_cars(lanes: &[Vec<LaneCar>]) -> u32
    requires at_most_max_lanes { length lanes.now ≤ MAX_LANES }
    requires at_most_max_length { (l : ℕ) → l < length lanes.now
        → length (list_at lanes.now l) ≤ MAX_LENGTH }
    ensures value { result ≡ sum_by length (lists_of lanes.now) }
    ensures at_most_max_cars { result ≤ MAX_LANES * MAX_LENGTH }
{
    let mut count = 0;
    for lane in lanes {
        count += lane.len() as u32;
    }
    count
}

/// `count` empty lists, for lanes without cars.
pub fn empty_lanes(alloc: Global, count: usize) -> Result<Vec<Vec<LaneCar>>, AllocError>
    ensures same_count { IfOk result (λ lanes. length lanes.items ≡ count) }
    ensures empty { IfOk result (λ lanes. (l : ℕ) → list_at lanes.items l ≡ []) }
{
    let mut lanes = Vec::new(alloc);
    for _ in 0..count {
        lanes.push(Vec::new(alloc))?;
    }
    Ok(lanes)
}

/// A copy of the lists of all lanes.
pub fn copy_lanes(alloc: Global, lanes: &[Vec<LaneCar>]) -> Result<Vec<Vec<LaneCar>>, AllocError>
    ensures { IfOk result (λ copies. lists_of copies.items ≡ lists_of lanes.now) }
{
    let mut copies = Vec::with_capacity(alloc, lanes.len())?;
    for lane in lanes {
        copies.push(Vec::from_slice(alloc, lane)?)?;
    }
    Ok(copies)
}

/// Whether two lists have the same cars in the same order.
fn are_same_cars(cars: &[LaneCar], others: &[LaneCar]) -> bool
    ensures { IsTrue result ↔ (cars.now ≡ others.now) }
{
    if cars.len() != others.len() {
        return false;
    }
    let mut max_difference = 0;
    for k in 0..cars.len() {
        let difference = cars[k].difference(others[k]);
        max_difference = if max_difference < difference {
            difference
        } else {
            max_difference
        };
    }
    max_difference == 0
}

/// Whether two roads have the same number of lanes, with the same cars in the same order.
pub fn are_same_lanes(lanes: &[Vec<LaneCar>], others: &[Vec<LaneCar>]) -> bool
    ensures { IsTrue result ↔ (lists_of lanes.now ≡ lists_of others.now) }
{
    if lanes.len() != others.len() {
        return false;
    }
    for k in 0..lanes.len() {
        if !are_same_cars(&lanes[k], &others[k]) {
            return false;
        }
    }
    true
}
