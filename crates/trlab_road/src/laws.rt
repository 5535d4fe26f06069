//! Laws of pictures, of the next car ahead, of the two phases of a step and of evenly spaced cars, for every road,
//! independent of the code that moves the cars.
//!
//! Each law is the contract of a function with an empty body.

ghost use Rattle.trlab_road.specs.Laws.{ValidPicturesShowLegalRoads, ValidPicturesHaveNoFault, OneFirstFault, PicturesShowOneRoad};
ghost use Rattle.trlab_road.specs.Laws.{PicturesOfLegalRoads, PicturesHaveOneMeaning, PicturesHaveMeaning, PicturesMeanTheRoad};
ghost use Rattle.trlab_road.specs.Laws.{HeadspeedIsSpeedOfNextCar, HeadspeedOfLoneCar};
ghost use Rattle.trlab_road.specs.Laws.{LegalRoadHasAllNumbers, MotionDependsOnlyOnCars, MotionIsClean, MotionKeepsCars};
ghost use Rattle.trlab_road.specs.Laws.{MotionKeepsRoadLegal, OneRoadAfterMotion, SomeRoadAfterMotion};
ghost use Rattle.trlab_road.specs.Laws.{LaneChangeDependsOnlyOnCars, LaneChangeIsClean, LaneChangeKeepsRoadLegal};
ghost use Rattle.trlab_road.specs.Laws.{OneRoadAfterLaneChange};
ghost use Rattle.trlab_road.specs.Laws.{EvenRoadHasAllCars, EvenRoadIsLegal, FittingCarsHaveNoFault, OneEvenFault, OneEvenRoad};
ghost use Rattle.trlab_road.specs.Laws.{EvenCarsHaveOneMeaning, EvenCarsHaveMeaning};

/// A limit and pictures show at most one road, which is legal if they are valid. Apart from `Memory`, they have at most
/// one first fault, and none if they are valid.
pub fn pictures_show_one_road()
    ensures one_road { PicturesShowOneRoad }
    ensures legal { ValidPicturesShowLegalRoads }
    ensures one_fault { OneFirstFault }
    ensures no_fault { ValidPicturesHaveNoFault }
{}

/// A limit and pictures have exactly one meaning: the legal road that they show, or their first fault.
pub fn pictures_have_one_meaning()
    ensures some_meaning { PicturesHaveMeaning }
    ensures one_meaning { PicturesHaveOneMeaning }
{}

/// Each legal road has valid pictures. If its cars are numbered in standing order, reading its pictures gives
/// the same road.
pub fn pictures_mean_the_road()
    ensures valid { PicturesOfLegalRoads }
    ensures same { PicturesMeanTheRoad }
{}

/// The headspeed is the speed of the next car ahead on the ring, and the car's own speed if it is the only car.
pub fn headspeed_is_speed_of_next_car()
    ensures next { HeadspeedIsSpeedOfNextCar }
    ensures lone { HeadspeedOfLoneCar }
{}

/// If the answer of each car is at most its gap and the limit, exactly one road results from the motion. It depends
/// only on the answers at cars.
pub fn motion_gives_one_road()
    ensures some_road { SomeRoadAfterMotion }
    ensures one_road { OneRoadAfterMotion }
    ensures by_cars { MotionDependsOnlyOnCars }
{}

/// If the answer of each car is at most its gap and the limit, the motion of a legal road is clean (no car is lost or
/// added, and each moves over empty cells) and gives a legal road with the same number of cars.
pub fn motion_is_clean()
    ensures clean { MotionIsClean }
    ensures legal { MotionKeepsRoadLegal }
    ensures same_cars { MotionKeepsCars }
{}

/// A legal road has a car of each number below its number of cars.
pub fn road_has_all_numbers()
    ensures { LegalRoadHasAllNumbers }
{}

/// The lane change leads to exactly one road, which depends only on the answers at cars. If cars cross only to empty
/// cells, the lane change of a legal road is clean and gives a legal road.
pub fn lane_change_is_clean()
    ensures one_road { OneRoadAfterLaneChange }
    ensures by_cars { LaneChangeDependsOnlyOnCars }
    ensures clean { LaneChangeIsClean }
    ensures legal { LaneChangeKeepsRoadLegal }
{}

/// Numbers of lanes, cells and evenly spaced cars, with a limit, determine at most one road and, apart from `Memory`,
/// at most one first fault. If they are in range and there is a cell for each car, the road is legal and has all cars,
/// and there is no fault.
pub fn even_cars_make_one_road()
    ensures one_road { OneEvenRoad }
    ensures legal { EvenRoadIsLegal }
    ensures all_cars { EvenRoadHasAllCars }
    ensures one_fault { OneEvenFault }
    ensures no_fault { FittingCarsHaveNoFault }
{}

/// Numbers of lanes, cells and evenly spaced cars, with a limit, have exactly one meaning: a legal road, or the first
/// fault.
pub fn even_cars_have_one_meaning()
    ensures some_meaning { EvenCarsHaveMeaning }
    ensures one_meaning { EvenCarsHaveOneMeaning }
{}
