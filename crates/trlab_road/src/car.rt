//! Cars: as a road reports them, and as the list of a lane keeps them.

ghost use Rattle.std.specs.Prelude.{◌≡◌, ◌<◌, ◌≤◌, ◌&&◌, ◌↔◌, length, nat_eq, slice_index_or};
ghost use Rattle.trlab_bounds.specs.declared.roads.TheConstants.{MAX_LENGTH, MAX_LIMIT};
ghost use Rattle.trlab_road.specs.Stored.{no_car, place_of};

use std::marker::Model;

/// A car: its number, which it keeps; its lane, 0 or 1; its place, which is the number of its cell along the lane,
/// counted from 0; and its speed in cells per step, which after a step is the number of cells that it moved.
#[derive(Clone, Copy, Debug, PartialEq, Eq)]
pub struct Car {
    pub number: u32,
    pub lane: u32,
    pub place: u32,
    pub speed: u32,
}

/// A car in the list of its lane: its number, place and speed, in eight bytes, because all workers read every car in
/// each phase of a step.
#[derive(Clone, Copy)]
pub struct LaneCar {
    number: u32,
    /// The speed in the lowest six bits, the place in those above.
    place_and_speed: u32,
}

impl Model for LaneCar {
    ghost use Rattle.std.specs.Prelude.{◌+◌, ◌*◌, ◌/◌, ◌%◌};
    ghost use Rattle.std.proofs.lemmas.Nat.{div-add-mod'};
    ghost use Rattle.trlab_road.specs.Stored.{LaneCar as ListedCar};

    ghost Value = { ListedCar };

    ghost view = { λ car. record {
      number = car.number;
      place = car.place_and_speed / 64;
      speed = car.place_and_speed % 64;
    } };

    ghost inverse = { λ car. record {
      number = car.number;
      place_and_speed = car.place * 64 + car.speed;
    } };

    ghost inverse_ok = { λ car h i. record {
      number = car.number;
      place_and_speed = div-add-mod' car.place_and_speed 64 i;
    } };
}

impl LaneCar {
    /// A car with a number, a place in cells and a speed in cells per step.
    #[inline(always)]
    pub fn new(number: u32, place: u32, speed: u32) -> LaneCar
        requires on_lane { place ≤ MAX_LENGTH }
        requires at_most_max_limit { speed ≤ MAX_LIMIT }
        ensures { result ≡ record { number = number; place = place; speed = speed } }
    {
        LaneCar {
            number,
            place_and_speed: place * 64 + speed,
        }
    }

    /// A number that is 0 exactly if the two cars are equal. It is computed without branches, so that the
    /// compiler can compare many cars at once.
    #[inline(always)]
    pub fn difference(self, other: LaneCar) -> u32
        ensures { (result ≡ 0) ↔ (self ≡ other) }
    {
        let number = self.number.wrapping_sub(other.number);
        let rest = self.place_and_speed.wrapping_sub(other.place_and_speed);
        if number < rest { rest } else { number }
    }

    /// The number of the car.
    #[inline(always)]
    pub fn number(self) -> u32
        ensures { result ≡ self.number }
    {
        self.number
    }

    /// The number of the car's cell along the lane, counted from 0.
    #[inline(always)]
    pub fn place(self) -> u32
        ensures { result ≡ self.place }
    {
        self.place_and_speed / 64
    }

    /// The speed of the car, in cells per step.
    #[inline(always)]
    pub fn speed(self) -> u32
        ensures { result ≡ self.speed }
    {
        self.place_and_speed % 64
    }
}

/// The car at an index of a list.
#[inline(always)]
pub fn car_at(cars: &[LaneCar], index: usize) -> LaneCar
    requires { index < length cars.now }
    ensures { result ≡ slice_index_or cars.now index no_car }
{
    cars[index]
}

/// The place of the car at an index of a list.
#[inline(always)]
pub fn place_at(cars: &[LaneCar], index: usize) -> u32
    requires { index < length cars.now }
    ensures { result ≡ place_of cars.now index }
{
    cars[index].place()
}

/// The speed of the car at an index of a list, in cells per step.
#[inline(always)]
pub fn speed_at(cars: &[LaneCar], index: usize) -> u32
    requires { index < length cars.now }
    ensures { result ≡ (slice_index_or cars.now index no_car).speed }
{
    cars[index].speed()
}
