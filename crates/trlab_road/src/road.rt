//! Roads. Contracts see the cells of a road; the code keeps a list of the cars of each lane, in order of place.

ghost use Rattle.std.specs.Prelude.{◌≡◌, ◌≢◌, ◌⊎◌, ◌<◌, ◌↔◌, length, ◌++◌, IfOk, OnErr, OnOk, IsTrue, MatchResult, ◌+◌, ◌*◌, ◌≤◌, ℕ, slice_index, slice_index_or, false, Bool};
ghost use Rattle.trlab_road.specs.declared.fault.RoadFault.{RoadFault};
ghost use Rattle.trlab_road.specs.Cells.{Cells, cars, lane_of, IsAt, cars_before, IsLegal, IsNthCar};
ghost use Rattle.trlab_road.specs.Pictures.{IsFirstPictureFault, PicturesShow, picture, pictures_of};
ghost use Rattle.trlab_road.specs.Spreading.{CanSpread, IsEvenlySpaced, IsEvenSpacingFault};
ghost use Rattle.trlab_bounds.specs.declared.roads.TheConstants.{MAX_LENGTH, MAX_LIMIT, MAX_LANES};
ghost use Rattle.trlab_road.specs.declared.car.Car.{Car};
ghost use Rattle.trlab_road.specs.Gaps.{gap, headspeed, side, sideback, sidegap};
ghost use Rattle.trlab_road.specs.Stored.{IsFollowed, IsLineFrom, IsLineOf, no_car};
ghost use Rattle.trlab_road.specs.LaneChange.{IsValueOnOtherLane, IsGapOnOtherLane, sides, IsCleanLaneChange, ChangesLanes, AreSafeCrossings};
ghost use Rattle.trlab_road.specs.Motion.{IsValueOnOwnLane, gaps, AreSafeSpeeds, IsCleanMotion, Moves, in_order};

use crate::car::{Car, LaneCar, place_at};
use crate::fault::RoadFault;
use crate::gaps::{Leader, SideGaps, look_ahead, look_beside};
use crate::lane_change::{Room, change_lanes};
use crate::lanes::{are_same_lanes, car_of, copy_lanes, count_cars, find, list_of};
use crate::motion::move_lanes;
use crate::picture::{check_pictures, draw_lanes, push_picture};
use crate::spreading::{check_even, even_lanes};
use std::alloc::{AllocError, Global};
use std::marker::Model;
use std::snapshot::Snapshot;

/// A legal road: one or two lanes of cells on a ring, with a speed limit.
///
/// Cars are numbered from 0 and keep their numbers. Standing order is lane by lane, and on each lane by increasing
/// place.
pub struct Road {
    limit: u32,
    /// The number of cells of each lane.
    cells: u32,
    /// The cars of each lane, in order of place.
    lanes: Vec<Vec<LaneCar>>,
}

// Not derived: a derived drop is proved again, field by field, wherever the value goes out of scope.
impl Drop for Road {
    fn drop(self) {
        let Road {
            limit: _limit,
            cells: _cells,
            lanes: _lanes,
        } = self;
    }
}

impl Model for Road {
    ghost use Rattle.trlab_road.specs.Cells.{Cells};
    ghost use Rattle.trlab_road.specs.Stored.{IsListedRoad, lanes_from};

    ghost Value = { Cells };

    ghost view = { λ r. record { limit = r.limit; lanes = lanes_from r.cells r.lanes.items } };

    ghost invariant = { λ r. IsListedRoad r.cells r.lanes.items
        (record { limit = r.limit; lanes = lanes_from r.cells r.lanes.items }) };
}

impl Road {
    /// The road that pictures show, one for each lane, with its cars numbered in standing order. The limit is 1
    /// to 35 cells per step.
    ///
    /// A picture has one character per cell: a dot for an empty cell, and for a car its speed, as a digit
    /// from 0 to 9 or, for 10 to 35, as a letter from `a` to `z`.
    ///
    /// # Errors
    ///
    /// The first fault of the limit and the pictures: `Lanes`, then `Length`, then `Limit`, then the fault of the first
    /// invalid character, lane by lane and from left to right; or `Memory` if allocation fails.
    pub fn parse(alloc: Global, limit: u32, lanes: &[&[u8]]) -> Result<Road, RoadFault>
        ensures shown { MatchResult result
            (λ road. PicturesShow limit (pictures_of lanes.now) road)
            (λ fault. IsFirstPictureFault limit (pictures_of lanes.now) fault) }
        ensures legal { IfOk result (λ road. IsLegal road) }

        // each legal road whose cars are numbered in standing order is read from its pictures
        ensures back { (road : Cells) → IsLegal road → PicturesShow limit (pictures_of lanes.now) road
            → MatchResult result (λ next. next ≡ road) (λ fault. fault ≡ RoadFault.Memory) }

        // each fault is reported, unless allocation fails
        ensures reported { (fault : RoadFault) → IsFirstPictureFault limit (pictures_of lanes.now) fault
            → fault ≢ RoadFault.Memory → (result ≡ Err fault) ⊎ (result ≡ Err RoadFault.Memory) }
    {
        check_pictures(limit, lanes)?;
        let cells = lanes[0].len();
        let lanes = draw_lanes(alloc, lanes, cells)?;
        Ok(Road {
            limit,
            cells: cells as u32,
            lanes,
        })
    }

    /// A road of one or two lanes of 1 to 100,000 cells, with `count` evenly spaced cars of speed 0. The limit
    /// is 1 to 35 cells per step.
    ///
    /// With C cells in all, car i is in flat cell i * C / `count`, rounded down. Flat cells count across the
    /// lanes: place 0 of each lane, then place 1, and so on.
    ///
    /// # Errors
    ///
    /// The first fault: `Lanes`, then `Length`, then `Limit`, then `TooManyCars`; or `Memory` if allocation
    /// fails.
    pub fn even(
        alloc: Global,
        lanes: u32,
        cells: u32,
        limit: u32,
        count: u32,
    ) -> Result<Road, RoadFault>
        ensures fits { MatchResult result
            (λ _. CanSpread lanes cells limit count)
            (λ fault. IsEvenSpacingFault lanes cells limit count fault) }
        ensures even { IfOk result (λ road. IsEvenlySpaced lanes cells limit count road) }

        // each fault is reported, unless allocation fails
        ensures reported { (fault : RoadFault) → IsEvenSpacingFault lanes cells limit count fault
            → fault ≢ RoadFault.Memory → (result ≡ Err fault) ⊎ (result ≡ Err RoadFault.Memory) }
        ensures counted { IfOk result (λ road. cars road ≡ count) }
        ensures legal { IfOk result (λ road. IsLegal road) }
    {
        check_even(lanes, cells, limit, count)?;
        let lanes = even_lanes(alloc, lanes as usize, cells as usize, count as usize)?;
        Ok(Road {
            limit,
            cells,
            lanes,
        })
    }

    /// A copy of the road.
    ///
    /// # Errors
    ///
    /// If an allocation fails.
    pub fn copy(&self, alloc: Global) -> Result<Road, AllocError>
        ensures { IfOk result (λ road. road ≡ self.now) }
    {
        let lanes = copy_lanes(alloc, &self.lanes)?;
        Ok(Road {
            limit: self.limit,
            cells: self.cells,
            lanes,
        })
    }

    /// This road for contracts. The snapshot takes no memory.
    pub fn snapshot(&self) -> Snapshot<Road>
        ensures value { result.value ≡ self.now }
        ensures legal { IsLegal self.now }
    {
        // naming a field gives the proof the invariant
        let _ = &self.limit;
        Snapshot::of(self)
    }

    /// Whether two roads have the same limit and the same cells, including the numbers of their cars.
    pub fn equals(&self, other: &Road) -> bool
        ensures { IsTrue result ↔ (self.now ≡ other.now) }
    {
        self.limit == other.limit
            && self.cells == other.cells
            && are_same_lanes(&self.lanes, &other.lanes)
    }

    /// The picture of a lane, one character per cell: a dot, or a digit or a letter for the car's speed.
    ///
    /// # Errors
    ///
    /// If an allocation fails.
    pub fn picture(&self, alloc: Global, lane: u32) -> Result<Vec<u8>, AllocError>
        requires { lane < length self.now.lanes }
        ensures { IfOk result (λ bytes. bytes.items ≡ picture (lane_of self.now lane)) }
    {
        let mut bytes = Vec::new(alloc);
        self.push_picture(&mut bytes, lane)?;
        Ok(bytes)
    }

    /// Appends the picture of a lane to bytes.
    ///
    /// # Errors
    ///
    /// If allocation fails; then the bytes are unchanged.
    pub fn push_picture(&self, out: &mut Vec<u8>, lane: u32) -> Result<(), AllocError>
        requires { lane < length self.now.lanes }
        ensures added { OnOk result (out.new.items ≡ out.old.items ++ picture (lane_of self.now lane)) }
        ensures unchanged { OnErr result (out.new.items ≡ out.old.items) }
    {
        push_picture(out, list_of(&self.lanes, lane), self.cells)
    }

    /// Gives this road's memory to the room, for a later lane change.
    pub fn leave_to(self, room: &mut Room) {
        let Road {
            limit: _,
            cells: _,
            lanes,
        } = self;
        room.keep_lists(lanes);
    }
}

impl Road {
    /// The number of lanes: 1 or 2.
    pub fn lanes(&self) -> u32
        ensures value { result ≡ length self.now.lanes }
        ensures legal { IsLegal self.now }
    {
        self.lanes.len() as u32
    }

    /// The number of cells of each lane: 1 to 100,000.
    pub fn length(&self) -> u32
        ensures value { result ≡ length (lane_of self.now 0) }
        ensures legal { IsLegal self.now }
    {
        self.cells
    }

    /// The speed limit, 1 to 35 cells per step.
    pub fn limit(&self) -> u32
        ensures value { result ≡ self.now.limit }
        ensures legal { IsLegal self.now }
    {
        self.limit
    }

    /// The number of cars on all lanes.
    pub fn cars(&self) -> u32
        ensures value { result ≡ cars self.now }
        ensures at_most_max_cars { result ≤ MAX_LANES * MAX_LENGTH }
        ensures legal { IsLegal self.now }
    {
        count_cars(&self.lanes)
    }

    /// The k-th car in standing order, counted from 0.
    pub fn standing(&self, k: u32) -> Car
        requires { k < cars self.now }
        ensures order { IsNthCar self.now k result }
        ensures cell { IsAt self.now result }
        ensures lane { result.lane < length self.now.lanes }
        ensures place { result.place < length (lane_of self.now 0) }
    {
        let (lane, index) = find(&self.lanes, k);
        car_of(&self.lanes, lane, index)
    }

    /// The gap of the k-th car in standing order: the number of empty cells ahead of it, n - 1 for a lone car on a
    /// lane of n cells (Nagel and Schreckenberg 1992).
    pub fn gap(&self, k: u32) -> u32
        requires { k < cars self.now }
        ensures value { result ≡ slice_index (gaps self.now) k }
        ensures of_car { IsValueOnOwnLane gap self.now k result }
        ensures below { result < length (lane_of self.now 0) }
    {
        self.ahead(k).gap
    }

    /// The headspeed of the k-th car in standing order: the speed of the next car ahead on its own lane, in
    /// cells per step; its own speed if there is no other car.
    pub fn headspeed(&self, k: u32) -> u32
        requires { k < cars self.now }
        ensures of_car { IsValueOnOwnLane headspeed self.now k result }
        ensures at_most_limit { result ≤ self.now.limit }
    {
        self.ahead(k).headspeed
    }

    /// The `gap` and the `headspeed` of the k-th car in standing order.
    pub fn ahead(&self, k: u32) -> Leader
        requires { k < cars self.now }
        ensures value { result.gap ≡ slice_index (gaps self.now) k }
        ensures gap { IsValueOnOwnLane gap self.now k result.gap }
        ensures headspeed { IsValueOnOwnLane headspeed self.now k result.headspeed }
        ensures below { result.gap < length (lane_of self.now 0) }
        ensures at_most_limit { result.headspeed ≤ self.now.limit }
    {
        let (lane, index) = find(&self.lanes, k);
        look_ahead(list_of(&self.lanes, lane), self.cells as usize, index)
    }

    /// The k-th car in standing order and all cars after it on its lane, in order of place: each car but the last
    /// is followed by the next car ahead of it.
    pub fn line_from(&self, k: u32) -> &[LaneCar]
        requires { k < cars self.now }
        ensures line { IsLineFrom self.now k result.now }
        ensures followed { (j : ℕ) → j + 1 < length result.now → IsFollowed self.now (k + j)
            (slice_index_or result.now j no_car) (slice_index_or result.now (j + 1) no_car) }
    {
        let (lane, index) = find(&self.lanes, k);
        let (_, line) = list_of(&self.lanes, lane).split_at(index);
        line
    }

    /// All cars of a lane, in order of place.
    pub fn line_of(&self, lane: u32) -> &[LaneCar]
        requires { lane < length self.now.lanes }
        ensures line { IsLineOf self.now lane result.now }
        ensures at_most_max_length { length result.now ≤ MAX_LENGTH }
        ensures at_most_max_limit { (k : ℕ) → k < length result.now
            → (slice_index_or result.now k no_car).speed ≤ MAX_LIMIT }
    {
        list_of(&self.lanes, lane)
    }

    /// Whether the side cell of the k-th car in standing order, at the same place on the other lane, is empty.
    pub fn side(&self, k: u32) -> bool
        requires below { k < cars self.now }
        requires two { length self.now.lanes ≡ 2 }
        ensures value { result ≡ slice_index_or (sides self.now) k false }
        ensures of_car { IsValueOnOtherLane side self.now k result }
    {
        self.beside(k, 0).is_empty
    }

    /// The surroundings of the k-th car in standing order on the other lane: its `side`, `sidegap` and `sideback`.
    ///
    /// If you go car by car along a lane and pass the `next` of the previous result as `near`, the search
    /// continues from there; with any other `near`, such as 0, it is a binary search.
    pub fn beside(&self, k: u32, near: usize) -> SideGaps
        requires below { k < cars self.now }
        requires two { length self.now.lanes ≡ 2 }
        ensures value { result.is_empty ≡ slice_index_or (sides self.now) k false }
        ensures empty { IsValueOnOtherLane side self.now k result.is_empty }
        ensures ahead { IsGapOnOtherLane sidegap self.now k result.ahead }
        ensures behind { IsGapOnOtherLane sideback self.now k result.behind }
        ensures next { IsValueOnOtherLane cars_before self.now k result.next }
    {
        let index = k as usize;
        let first = list_of(&self.lanes, 0);
        let second = list_of(&self.lanes, 1);
        if index < first.len() {
            let place = place_at(first, index);
            look_beside(second, self.cells as usize, place, near)
        } else {
            let place = place_at(second, index - first.len());
            look_beside(first, self.cells as usize, place, near)
        }
    }

    /// The gap ahead on the other lane in cells, from the side cell of the k-th car in standing order: 0 if the
    /// side cell is taken, n - 1 on an empty lane of n (Rickert, Nagel, Schreckenberg and Latour 1996).
    pub fn sidegap(&self, k: u32) -> u32
        requires below { k < cars self.now }
        requires two { length self.now.lanes ≡ 2 }
        ensures { IsGapOnOtherLane sidegap self.now k result }
    {
        self.beside(k, 0).ahead
    }

    /// The gap behind on the other lane in cells, from the side cell of the k-th car in standing order: 0 if
    /// the side cell is taken, n - 1 on an empty lane of n (Rickert, Nagel, Schreckenberg and Latour 1996).
    pub fn sideback(&self, k: u32) -> u32
        requires below { k < cars self.now }
        requires two { length self.now.lanes ≡ 2 }
        ensures { IsGapOnOtherLane sideback self.now k result }
    {
        self.beside(k, 0).behind
    }
}

impl Road {
    /// Moves all cars at once by their new speeds, which are listed in standing order. It allocates nothing.
    pub fn move_cars(&mut self, speeds: &[u8])
        requires { AreSafeSpeeds self.old speeds.now }
        ensures moves { (answer : ℕ → ℕ → ℕ)
            → speeds.now ≡ in_order answer self.old → Moves answer self.old self.new }
        ensures clean { IsCleanMotion self.old self.new }
        ensures legal { IsLegal self.new }
    {
        move_lanes(&mut self.lanes, self.cells, speeds);
    }

    /// The road after the lane change on a road of two lanes: all cars that cross do so at once. The answers are
    /// listed in standing order. The memory comes from the room.
    ///
    /// # Errors
    ///
    /// If allocation fails; then the room may have lost its lists. Any room can be used for any lane change, because no
    /// contract mentions its contents.
    pub fn after_lane_change(
        &self,
        alloc: Global,
        room: &mut Room,
        crosses: &[bool],
    ) -> Result<Road, AllocError>
        requires { AreSafeCrossings self.now crosses.now }
        ensures crosses { IfOk result (λ next. (answer : ℕ → ℕ → Bool)
            → crosses.now ≡ in_order answer self.now → ChangesLanes answer self.now next) }
        ensures clean { IfOk result (λ next. IsCleanLaneChange self.now next) }
        ensures legal { IfOk result (λ next. IsLegal next) }
    {
        let lanes = change_lanes(alloc, room, &self.lanes, self.cells, crosses)?;
        Ok(Road {
            limit: self.limit,
            cells: self.cells,
            lanes,
        })
    }
}
