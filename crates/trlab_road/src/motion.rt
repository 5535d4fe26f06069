//! The motion: the cars of each lane move at once, in place in its list.

ghost use Rattle.std.specs.Prelude.{◌≡◌, ◌+◌, ◌<◌, ◌≤◌, ℕ, length, slice_index, slice_index_or, sum_by};
ghost use Rattle.trlab_bounds.specs.declared.roads.TheConstants.{MAX_LENGTH, MAX_LIMIT};
ghost use Rattle.trlab_road.specs.Cells.{lane_car_count};
ghost use Rattle.trlab_road.specs.Motion.{LaneFits, LaneMoves};
ghost use Rattle.trlab_road.specs.Stored.{HaveMovedAhead, moved_ahead};
ghost use Rattle.trlab_road.specs.Stored.{no_car, place_of, SpeedsFitGaps, SpeedsMove, IsSortedFrom, AreSorted, cells_of, lanes_from, lane_answer};

use crate::car::LaneCar;

/// The number of cars of a block: enough for the compiler to keep the loop and use vector instructions.
const MOVED_TOGETHER: usize = 32;

/// `MOVED_TOGETHER` cars of a list, from the index `at` on, after they have moved. Their speeds begin at the index
/// `from` of `speeds`.
#[inline(always)]
fn move_block(cars: &[LaneCar], at: usize, speeds: &[u8], from: usize) -> [LaneCar; MOVED_TOGETHER]
    requires in_range { at + MOVED_TOGETHER ≤ length cars.now }
    requires one_each { from + MOVED_TOGETHER ≤ length speeds.now }
    requires at_most_max_limit { (k : ℕ) → k < MOVED_TOGETHER → slice_index speeds.now (from + k) ≤ MAX_LIMIT }
    requires short { (k : ℕ) → k < MOVED_TOGETHER
        → place_of cars.now (at + k) + slice_index speeds.now (from + k) ≤ MAX_LENGTH }
    ensures { (k : ℕ) → k < MOVED_TOGETHER → slice_index_or result k no_car
        ≡ moved_ahead (slice_index_or cars.now (at + k) no_car) (slice_index speeds.now (from + k)) }
{
    let mut moved = [LaneCar::new(0, 0, 0); MOVED_TOGETHER];
    for k in 0..MOVED_TOGETHER {
        moved[k] = move_ahead(cars[at + k], u32::from(speeds[from + k]));
    }
    moved
}

/// A car after it has moved `speed` cells ahead, its new speed, without passing the end of the lane.
#[inline(always)]
fn move_ahead(car: LaneCar, speed: u32) -> LaneCar
    requires at_most_max_limit { speed ≤ MAX_LIMIT }
    requires short { car.place + speed ≤ MAX_LENGTH }
    ensures { result ≡ moved_ahead car speed }
{
    LaneCar::new(car.number(), car.place() + speed, speed)
}

/// Moves the cars of a list, none of which passes the end of the lane. Their speeds begin at the index `from` of
/// `speeds`. Cars are moved in blocks of `MOVED_TOGETHER`, so that the compiler can use vector instructions.
fn move_straight(cars: &mut [LaneCar], speeds: &[u8], from: usize)
    requires one_each { from + length cars.old ≤ length speeds.now }
    requires at_most_max_limit { (k : ℕ) → k < length speeds.now → slice_index speeds.now k ≤ MAX_LIMIT }
    requires short { (k : ℕ) → k < length cars.old
        → place_of cars.old k + slice_index speeds.now (from + k) ≤ MAX_LENGTH }
    ensures { HaveMovedAhead speeds.now from cars.old cars.new (length cars.old) }
{
    let blocks = cars.len() / MOVED_TOGETHER;
    for block in 0..blocks {
        let at = MOVED_TOGETHER * block;
        let moved = move_block(cars, at, speeds, from + at);
        for k in 0..MOVED_TOGETHER {
            cars[at + k] = moved[k];
        }
    }
    for index in MOVED_TOGETHER * blocks..cars.len() {
        cars[index] = move_ahead(cars[index], u32::from(speeds[from + index]));
    }
}

/// Moves the cars of a lane. Their speeds begin at the index `from` of `speeds`. Only the last car can pass the end of
/// the lane; then it becomes the first.
fn move_lane(cars: &mut Vec<LaneCar>, cells: u32, speeds: &[u8], from: usize)
    requires at_most_max_length { cells ≤ MAX_LENGTH }
    requires sorted { IsSortedFrom 0 cells cars.old.items }
    requires one_each { from + length cars.old.items ≤ length speeds.now }
    requires gaps { LaneFits (lane_answer (cells_of cells cars.old.items) speeds.now from)
        (cells_of cells cars.old.items) }
    requires at_most_max_limit { (k : ℕ) → k < length speeds.now → slice_index speeds.now k ≤ MAX_LIMIT }
    ensures rises { IsSortedFrom 0 cells cars.new.items }
    ensures moves { LaneMoves (lane_answer (cells_of cells cars.old.items) speeds.now from)
        (cells_of cells cars.old.items) (cells_of cells cars.new.items) }
    ensures same_count { length cars.new.items ≡ length cars.old.items }
{
    let Some(last) = cars.pop() else {
        return;
    };
    let straight = cars.len();
    move_straight(cars, speeds, from);
    let number = last.number();
    let speed = speeds[from + straight] as u32;
    let place = last.place() + speed;
    // cannot fail: there is room, because the last car was just removed
    let _ = if place < cells {
        cars.push(LaneCar::new(number, place, speed))
    } else {
        cars.insert(0, LaneCar::new(number, place - cells, speed))
    };
}

/// Moves the cars of all lanes at once. The speeds are in standing order.
pub fn move_lanes(lanes: &mut [Vec<LaneCar>], cells: u32, speeds: &[u8])
    requires at_most_max_length { cells ≤ MAX_LENGTH }
    requires sorted { AreSorted cells lanes.old }
    requires one_each { sum_by lane_car_count (lanes_from cells lanes.old) ≤ length speeds.now }
    requires gaps { SpeedsFitGaps cells lanes.old speeds.now }
    requires at_most_max_limit { (k : ℕ) → k < length speeds.now → slice_index speeds.now k ≤ MAX_LIMIT }
    ensures sorted { AreSorted cells lanes.new }
    ensures moves { SpeedsMove cells lanes.old lanes.new speeds.now }
{
    let mut from = 0;
    for l in 0..lanes.len() {
        move_lane(&mut lanes[l], cells, speeds, from);
        from += lanes[l].len();
    }
}
