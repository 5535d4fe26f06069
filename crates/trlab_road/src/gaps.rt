//! Gaps ahead and behind on a lane, the speed of the next car, and the surroundings of a car on the other lane.
//!
//! A lane's list is sorted by place, and on the ring the first car is ahead of the last. A place on the other lane is
//! found by binary search, or by searching from the previous car's result.

ghost use Rattle.std.specs.Prelude.{◌≡◌, ◌<◌, ◌≤◌, ℕ, length, IfSome, if◌then◌else◌, nat_lt};
ghost use Rattle.trlab_bounds.specs.declared.roads.TheConstants.{MAX_LENGTH};
ghost use Rattle.trlab_road.specs.Gaps.{behind, clear_cells, gap, headspeed};
ghost use Rattle.trlab_road.specs.Stored.{IsFirstPast, IsSortedFrom, cells_of, place_of, IsRising, IsFirstFrom, DescribesSideCell};
ghost use Rattle.trlab_road.specs.Cells.{cars_before};

use crate::car::{LaneCar, place_at, speed_at};

/// The leader of a car, which is the next car ahead on its own lane: the gap up to it, and its speed.
#[derive(Clone, Copy)]
pub struct Leader {
    /// The number of empty cells ahead of the car.
    pub gap: u32,
    /// The speed of the next car in cells per step; the car's own speed if there is no other.
    pub headspeed: u32,
}

/// The gap and the leader of the car at an index of a lane's list. The leader of the last car is the first.
pub fn look_ahead(cars: &[LaneCar], cells: usize, index: usize) -> Leader
    requires at_most_max_length { cells ≤ MAX_LENGTH }
    requires sorted { IsSortedFrom 0 cells cars.now }
    requires here { index < length cars.now }
    ensures gap { result.gap ≡ gap (cells_of cells cars.now) (place_of cars.now index) }
    ensures headspeed { result.headspeed ≡ headspeed (cells_of cells cars.now) (place_of cars.now index) }
    ensures in_range { result.gap < cells }
{
    let place = place_at(cars, index);
    let next = index + 1;
    if next < cars.len() {
        Leader {
            gap: place_at(cars, next) - place - 1,
            headspeed: speed_at(cars, next),
        }
    } else {
        Leader {
            gap: cells as u32 - 1 - place + place_at(cars, 0),
            headspeed: speed_at(cars, 0),
        }
    }
}

/// The number of empty cells ahead of a place. `next` is the index of the first car past the place.
fn gap_ahead(cars: &[LaneCar], cells: usize, place: usize, next: usize) -> usize
    requires at_most_max_length { cells ≤ MAX_LENGTH }
    requires inside { place < cells }
    requires sorted { IsSortedFrom 0 cells cars.now }
    requires parted { IsFirstPast cars.now place next }
    ensures value { result ≡ gap (cells_of cells cars.now) place }
    ensures in_range { result < cells }
{
    if next < cars.len() {
        place_at(cars, next) as usize - place - 1
    } else if cars.is_empty() {
        cells - 1
    } else {
        cells - 1 - place + place_at(cars, 0) as usize
    }
}

/// The number of empty cells behind an empty place. `next` is the index of the first car past the place.
fn gap_behind(cars: &[LaneCar], cells: usize, place: usize, next: usize) -> usize
    requires at_most_max_length { cells ≤ MAX_LENGTH }
    requires inside { place < cells }
    requires sorted { IsSortedFrom 0 cells cars.now }
    requires in_range { next ≤ length cars.now }
    requires before { (k : ℕ) → k < next → k < length cars.now → place_of cars.now k < place }
    requires after { (k : ℕ) → next ≤ k → k < length cars.now → place < place_of cars.now k }
    ensures value { result ≡ clear_cells (cells_of cells cars.now) (behind cells place) }
    ensures in_range { result < cells }
{
    if next > 0 {
        place - place_at(cars, next - 1) as usize - 1
    } else if cars.is_empty() {
        cells - 1
    } else {
        cells - 1 - place_at(cars, cars.len() - 1) as usize + place
    }
}

/// The index of the first car from a place on.
fn first_from(cars: &[LaneCar], place: u32) -> usize
    requires sorted { IsRising cars.now }
    ensures { IsFirstFrom cars.now place result }
{
    cars.partition_point(
        |car: &LaneCar| -> bool
            ensures { result ≡ nat_lt car.now.place place }
        { car.place() < place },
    )
}

/// The surroundings of a car on the other lane. Its side cell is the cell at its place on that lane.
#[derive(Clone, Copy)]
pub struct SideGaps {
    /// Whether the side cell is empty.
    pub is_empty: bool,
    /// The number of empty cells ahead of the side cell, 0 if the side cell is taken.
    pub ahead: u32,
    /// The number of empty cells behind the side cell, 0 if the side cell is taken.
    pub behind: u32,
    /// The number of cars of the other lane before the side cell.
    pub next: usize,
}

/// The number of cars that are checked together before the search continues car by car.
const SEARCHED_TOGETHER: usize = 4;

/// Returns the index after those of the four cars from index `near` on that are before a place, and `near` itself if
/// fewer than four cars are left. The index is computed as a sum, so that no branch depends on the places.
#[inline(always)]
fn pass_four(cars: &[LaneCar], place: u32, near: usize) -> usize
    requires in_range { near ≤ length cars.now }
    requires sorted { IsRising cars.now }
    requires before { (k : ℕ) → k < near → k < length cars.now → place_of cars.now k < place }
    ensures in_range { result ≤ length cars.now }
    ensures before { (k : ℕ) → k < result → k < length cars.now → place_of cars.now k < place }
{
    let mut next = near;
    if SEARCHED_TOGETHER <= cars.len() - near {
        for k in near..near + SEARCHED_TOGETHER {
            next += usize::from(place_at(cars, k) < place);
        }
    }
    next
}

/// The index of the first car from a place on. If the car before index `near` is before the place, the search goes
/// forward from `near`; else it is a binary search.
fn first_near(cars: &[LaneCar], place: u32, near: usize) -> usize
    requires sorted { IsRising cars.now }
    ensures { IsFirstFrom cars.now place result }
{
    if near == 0 || near > cars.len() || place_at(cars, near - 1) >= place {
        return first_from(cars, place);
    }
    let near = pass_four(cars, place, near);
    for next in near..cars.len() {
        if place_at(cars, next) >= place {
            return next;
        }
    }
    cars.len()
}

/// The index of the first car from a place on, if the car before index `near` is before the place and the first car is
/// among the five from `near` on. Near the end of the list the result may be `None` even so.
#[inline(always)]
fn first_of_five(cars: &[LaneCar], place: u32, near: usize) -> Option<usize>
    requires sorted { IsRising cars.now }
    ensures found { IfSome result (λ next. IsFirstFrom cars.now place next) }
    ensures past { IfSome result (λ next. 0 < next) }
    ensures not_last { IfSome result (λ next. next < length cars.now) }
{
    if near == 0 || near > cars.len() || place_at(cars, near - 1) >= place {
        return None;
    }
    let next = pass_four(cars, place, near);
    if next < cars.len() && place_at(cars, next) >= place {
        Some(next)
    } else {
        None
    }
}

/// A number if a test holds, else 0.
#[inline(always)]
fn only_if(test: bool, number: u32) -> u32
    ensures { result ≡ (if test then number else 0) }
{
    if test { number } else { 0 }
}

/// The surroundings of a place between two cars of the list, or at the second of them. They are computed as
/// differences, so that no branch depends on whether the side cell is taken. Only the proof reads the number of cells.
#[inline(always)]
fn look_between(cars: &[LaneCar], cells: usize, place: u32, next: usize) -> SideGaps
    requires inside { place < cells }
    requires sorted { IsSortedFrom 0 cells cars.now }
    requires found { IsFirstFrom cars.now place next }
    requires past { 0 < next }
    requires not_last { next < length cars.now }
    ensures beside { DescribesSideCell cells cars.now place result }
    ensures next { result.next ≡ next }
{
    let to_next = place_at(cars, next) - place;
    let is_empty = to_next != 0;
    SideGaps {
        is_empty,
        ahead: to_next.saturating_sub(1),
        behind: only_if(is_empty, place - place_at(cars, next - 1) - 1),
        next,
    }
}

/// The surroundings of any place, even before the first car or past the last. `next` is the index of the first car from
/// the place on.
fn look_anywhere(cars: &[LaneCar], cells: usize, place: u32, next: usize) -> SideGaps
    requires at_most_max_length { cells ≤ MAX_LENGTH }
    requires inside { place < cells }
    requires sorted { IsSortedFrom 0 cells cars.now }
    requires found { IsFirstFrom cars.now place next }
    ensures beside { DescribesSideCell cells cars.now place result }
    ensures next { result.next ≡ next }
{
    if next < cars.len() && place_at(cars, next) == place {
        return SideGaps {
            is_empty: false,
            ahead: 0,
            behind: 0,
            next,
        };
    }
    SideGaps {
        is_empty: true,
        ahead: gap_ahead(cars, cells, place as usize, next) as u32,
        behind: gap_behind(cars, cells, place as usize, next) as u32,
        next,
    }
}

/// The surroundings of a place. The index `near` affects only the running time: if the car at this index is near the
/// place, usually only five cars are checked.
#[inline(always)]
pub fn look_beside(cars: &[LaneCar], cells: usize, place: u32, near: usize) -> SideGaps
    requires at_most_max_length { cells ≤ MAX_LENGTH }
    requires inside { place < cells }
    requires sorted { IsSortedFrom 0 cells cars.now }
    ensures beside { DescribesSideCell cells cars.now place result }
    ensures next { result.next ≡ cars_before (cells_of cells cars.now) place }
{
    if let Some(next) = first_of_five(cars, place, near) {
        return look_between(cars, cells, place, next);
    }
    let next = first_near(cars, place, near);
    if 0 < next && next < cars.len() {
        look_between(cars, cells, place, next)
    } else {
        look_anywhere(cars, cells, place, next)
    }
}
