//! The lane change: all cars of two lanes that cross do so at once. On each lane, the cars that stay are merged with
//! those that come from the other lane.

ghost use Rattle.std.specs.Prelude.{◌≡◌, ◌+◌, ◌<◌, ◌≤◌, ℕ, length, sum_by, IfOk, OnOk, true, false, None, slice_index_or};
ghost use Rattle.std.specs.Int.{from_bool};
ghost use Rattle.trlab_bounds.specs.declared.roads.TheConstants.{MAX_LENGTH};
ghost use Rattle.trlab_road.specs.Cells.{Cells, lane_car_count};
ghost use Rattle.trlab_road.specs.LaneChange.{ChangesLanes, LaneCrosses, crosses_at};
ghost use Rattle.trlab_road.specs.Stored.{IsSortedFrom, IsRising, AreSorted, IsFirstFrom, cell_at, cells_of, lanes_from, place_of, HasLeavingCars, lane_crosses_at};

use crate::car::{LaneCar, car_at, place_at};
use crate::lanes::{empty_lanes, list_of};
use std::alloc::{AllocError, Global};
use std::mem;

/// The cars of a lane before the lane change, and the index of the first car's answer.
#[derive(Clone, Copy)]
struct AnsweredLane<'a> {
    cars: &'a [LaneCar],
    from: usize,
}

/// The place of the k-th car of a list, or the number of cells if there is no k-th car.
fn place_or_end(cars: &[LaneCar], k: usize, cells: u32) -> u32
    ensures here { k < length cars.now → result ≡ place_of cars.now k }
    ensures past { length cars.now ≤ k → result ≡ cells }
{
    match cars.get(k) {
        Some(car) => car.place(),
        None => cells,
    }
}

/// Fills a list with the cars that cross from a lane. Only the proof reads the number of cells.
fn leaving_cars(
    leaving: &mut Vec<LaneCar>,
    cells: u32,
    lane: AnsweredLane,
    crosses: &[bool],
) -> Result<(), AllocError>
    requires sorted { IsSortedFrom 0 cells lane.cars.now }
    requires each { lane.from + length lane.cars.now ≤ length crosses.now }
    ensures rises { OnOk result (IsSortedFrom 0 cells leaving.new.items) }
    ensures leaves { OnOk result (
        let old = cells_of cells lane.entry.cars.now in
        HasLeavingCars (lane_crosses_at old crosses.now lane.entry.from)
        old (cells_of cells leaving.new.items)) }
{
    leaving.clear();
    for k in 0..lane.cars.len() {
        if crosses[lane.from + k] {
            leaving.push(car_at(lane.cars, k))?;
        }
    }
    Ok(())
}

/// The index after a sequence of cars that stay and are before the place `due`; the first has the index `begin`.
fn run_end(lane: AnsweredLane, crosses: &[bool], begin: usize, due: u32) -> usize
    requires each { lane.from + length lane.cars.now ≤ length crosses.now }
    requires begin { begin < length lane.cars.now }
    requires stays { slice_index_or crosses.now (lane.from + begin) false ≡ false }
    requires before { place_of lane.cars.now begin < due }
    ensures in_range { (begin < result) × (result ≤ length lane.entry.cars.now) }
    ensures stay { (k : ℕ) → begin ≤ k → k < result
        → slice_index_or crosses.now (lane.entry.from + k) false ≡ false }
    ensures before { (k : ℕ) → begin ≤ k → k < result → place_of lane.entry.cars.now k < due }
{
    let mut end = begin + 1;
    while end < lane.cars.len() && place_at(lane.cars, end) < due && !crosses[lane.from + end] {
        end += 1;
    }
    end
}

/// Fills a list with the cars of a lane after the lane change: those that stay, and those that come from the other
/// lane.
fn change_lane(
    next: &mut Vec<LaneCar>,
    cells: u32,
    own: AnsweredLane,
    coming: &[LaneCar],
    crosses: &[bool],
) -> Result<(), AllocError>
    requires at_most_max_length { cells ≤ MAX_LENGTH }
    requires own_sorted { IsSortedFrom 0 cells own.cars.now }
    requires coming_sorted { IsSortedFrom 0 cells coming.now }
    requires own_each { own.from + length own.cars.now ≤ length crosses.now }
    ensures rises { OnOk result (IsSortedFrom 0 cells next.new.items) }
    ensures crosses { OnOk result (
        let old = cells_of cells own.entry.cars.now in
        LaneCrosses (lane_crosses_at old crosses.now own.entry.from) (λ _. true)
        old (cells_of cells coming.now) (cells_of cells next.new.items)) }
{
    next.clear();
    next.reserve(own.cars.len())?;
    let mut i = 0;
    let mut j = 0;
    let mut own_next = place_or_end(own.cars, i, cells);
    let mut due = place_or_end(coming, j, cells);
    while own_next.min(due) < cells {
        if own_next < due {
            if crosses[own.from + i] {
                i += 1;
            } else {
                let end = run_end(own, crosses, i, due);
                next.extend_from_slice(&own.cars[i..end])?;
                i = end;
            }
            own_next = place_or_end(own.cars, i, cells);
        } else {
            // a car that comes takes the cell if it is empty or its car leaves; a car that stays keeps its cell
            let own_here = own_next == due;
            let car = if own_here && !crosses[own.from + i] {
                car_at(own.cars, i)
            } else {
                car_at(coming, j)
            };
            next.push(car)?;
            i += usize::from(own_here);
            j += 1;
            own_next = place_or_end(own.cars, i, cells);
            due = place_or_end(coming, j, cells);
        }
    }
    Ok(())
}

/// The two lanes after the lane change. They use the lists of the room, if it has two.
pub fn change_lanes(
    alloc: Global,
    room: &mut Room,
    lanes: &[Vec<LaneCar>],
    cells: u32,
    crosses: &[bool],
) -> Result<Vec<Vec<LaneCar>>, AllocError>
    requires two { length lanes.now ≡ 2 }
    requires at_most_max_length { cells ≤ MAX_LENGTH }
    requires sorted { AreSorted cells lanes.now }
    requires one_each { sum_by lane_car_count (lanes_from cells lanes.now) ≤ length crosses.now }
    ensures sorted { IfOk result (λ next. AreSorted cells next.items) }
    ensures crosses { IfOk result (λ next. (limit : ℕ)
        → let old : Cells = record { limit = limit; lanes = lanes_from cells lanes.now } in
        ChangesLanes (crosses_at old crosses.now) old
        (record { limit = limit; lanes = lanes_from cells next.items })) }
{
    let first = AnsweredLane {
        cars: list_of(lanes, 0),
        from: 0,
    };
    let second = AnsweredLane {
        cars: list_of(lanes, 1),
        from: first.cars.len(),
    };
    let mut next = room.two_lists(alloc)?;
    leaving_cars(&mut room.from_first, cells, first, crosses)?;
    leaving_cars(&mut room.from_second, cells, second, crosses)?;
    change_lane(&mut next[0], cells, first, &room.from_second, crosses)?;
    change_lane(&mut next[1], cells, second, &room.from_first, crosses)?;
    Ok(next)
}

/// Memory that is kept from one lane change to the next. No result depends on its contents.
#[derive(Drop)]
pub struct Room {
    /// The lists of a road that is no longer needed.
    lanes: Vec<Vec<LaneCar>>,
    /// The cars that cross from lane 0.
    pub(crate) from_first: Vec<LaneCar>,
    /// The cars that cross from lane 1.
    pub(crate) from_second: Vec<LaneCar>,
}

impl Room {
    /// A room that has allocated nothing yet.
    pub fn new(alloc: Global) -> Room {
        Room {
            lanes: Vec::new(alloc),
            from_first: Vec::new(alloc),
            from_second: Vec::new(alloc),
        }
    }

    /// Two lists with unspecified contents.
    pub(crate) fn two_lists(&mut self, alloc: Global) -> Result<Vec<Vec<LaneCar>>, AllocError>
        ensures { IfOk result (λ lists. length lists.items ≡ 2) }
    {
        let lists = mem::replace(&mut self.lanes, Vec::new(alloc));
        if lists.len() == 2 {
            return Ok(lists);
        }
        empty_lanes(alloc, 2)
    }

    /// Keeps the lists of a road that is no longer needed.
    pub(crate) fn keep_lists(&mut self, lists: Vec<Vec<LaneCar>>) {
        self.lanes = lists;
    }
}
