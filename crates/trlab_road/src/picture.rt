//! Pictures of lanes: a dot for an empty cell, a digit or a letter for the speed of a car. They are checked first,
//! and then read into the lists of the lanes.

ghost use Rattle.std.specs.Prelude.{◌≡◌, ◌<◌, ◌≤◌, ◌↔◌, ℕ, ◌++◌, OnErr, OnOk, IfSome, IsNone, IsTrue, length, slice_index_or, ◌*◌, IfOk, MatchResult, slice_index, EachIndex};
ghost use Rattle.trlab_bounds.specs.declared.roads.TheConstants.{MAX_LIMIT, MAX_LENGTH, MAX_LANES};
ghost use Rattle.trlab_road.specs.Stored.{IsSortedFrom, cells_of, no_car, AreSorted, lanes_from, lane_of_picture, lanes_of_pictures};
ghost use Rattle.trlab_road.specs.Pictures.{ShowsCell, ShowsSpeed, picture, speed_character, HaveEqualLengths, IsFirstPictureFault, AreValidPictures, picture_at, pictures_of};
ghost use Rattle.trlab_road.specs.Cells.{LanesFit};

use crate::car::{LaneCar, place_at, speed_at};
use crate::fault::RoadFault;
use std::alloc::{AllocError, Global};
use trlab_bounds::roads::{MAX_LANES, MAX_LENGTH, MAX_LIMIT};

/// The character of an empty cell.
const DOT: u8 = b'.';

/// The characters of the speeds from 0 to the maximum.
const CHARACTERS: [u8; 36] = *b"0123456789abcdefghijklmnopqrstuvwxyz";

/// The character of a speed: its digit, and from 10 on a letter.
#[inline(always)]
fn speed_character(speed: u32) -> u8
    requires { speed ≤ MAX_LIMIT }
    ensures { result ≡ speed_character speed }
{
    CHARACTERS[speed as usize]
}

/// The speed that a character shows, in cells per step; `None` if it shows no speed.
fn speed_shown(character: u8) -> Option<u32>
    ensures none { IsNone result → ¬ (ShowsSpeed MAX_LIMIT character) }
    ensures in_range { IfSome result (λ speed. speed ≤ MAX_LIMIT) }
    ensures shown { IfSome result (λ speed. character ≡ speed_character speed) }
{
    match character {
        b'0'..=b'9' => Some(u32::from(character - b'0')),
        b'a'..=b'z' => Some(u32::from(character - b'a') + 10),
        _ => None,
    }
}

/// Whether a character shows a speed of at most `most`.
fn shows_speed(most: u32, character: u8) -> bool
    requires { most ≤ MAX_LIMIT }
    ensures { IsTrue result ↔ ShowsSpeed most character }
{
    match speed_shown(character) {
        Some(speed) => speed <= most,
        None => false,
    }
}

/// Whether a character shows a cell: a dot, or a speed of at most the limit.
fn shows_cell(limit: u32, character: u8) -> bool
    requires { limit ≤ MAX_LIMIT }
    ensures { IsTrue result ↔ ShowsCell limit character }
{
    character == DOT || shows_speed(limit, character)
}

/// Appends the picture of a lane: a dot for an empty cell, the character of the speed for a car. If allocation fails,
/// the bytes are unchanged.
pub fn push_picture(out: &mut Vec<u8>, cars: &[LaneCar], cells: u32) -> Result<(), AllocError>
    requires sorted { IsSortedFrom 0 cells cars.now }
    requires at_most_max_limit { (k : ℕ) → k < length cars.now
        → (slice_index_or cars.now k no_car).speed ≤ MAX_LIMIT }
    ensures added { OnOk result (out.new.items ≡ out.old.items ++ picture (cells_of cells cars.now)) }
    ensures unchanged { OnErr result (out.new.items ≡ out.old.items) }
{
    let start = out.len();
    out.resize(start + cells as usize, DOT)?;
    for k in 0..cars.len() {
        out[start + place_at(cars, k) as usize] = speed_character(speed_at(cars, k));
    }
    Ok(())
}

/// The place of the first character that shows no cell, or the length of the picture if all characters show cells.
fn first_invalid(limit: u32, picture: &[u8]) -> usize
    requires { limit ≤ MAX_LIMIT }
    ensures in_range { result ≤ length picture.now }
    ensures before { (x : ℕ) → x < result → ShowsCell limit (slice_index picture.now x) }
    ensures invalid { result < length picture.now
        → ¬ (ShowsCell limit (slice_index picture.now result)) }
{
    for (place, character) in picture.iter().enumerate() {
        if !shows_cell(limit, *character) {
            return place;
        }
    }
    picture.len()
}

/// Whether the lanes have the same length, 1 to 100,000 cells.
fn has_equal_lanes(pictures: &[&[u8]]) -> bool
    requires { LanesFit (length (pictures_of pictures.now)) }
    ensures { IsTrue result ↔ HaveEqualLengths (pictures_of pictures.now) }
{
    let cells = pictures[0].len();
    if cells == 0 || cells > MAX_LENGTH as usize {
        return false;
    }
    pictures.len() == 1 || pictures[1].len() == cells
}

/// Checks a limit and pictures.
///
/// # Errors
///
/// The first fault: `Lanes`, then `Length`, then `Limit`, then the fault of the first invalid character.
pub fn check_pictures(limit: u32, pictures: &[&[u8]]) -> Result<(), RoadFault>
    ensures { MatchResult result
        (λ _. AreValidPictures limit (pictures_of pictures.now))
        (λ fault. IsFirstPictureFault limit (pictures_of pictures.now) fault) }
{
    if pictures.is_empty() || pictures.len() > MAX_LANES as usize {
        return Err(RoadFault::Lanes);
    }
    if !has_equal_lanes(pictures) {
        return Err(RoadFault::Length);
    }
    if limit == 0 || limit > MAX_LIMIT {
        return Err(RoadFault::Limit);
    }
    for (lane, picture) in pictures.iter().enumerate() {
        let place = first_invalid(limit, picture);
        if place < picture.len() {
            let is_speed = shows_speed(MAX_LIMIT, picture[place]);
            let lane = lane as u32;
            let place = place as u32;
            return Err(if is_speed {
                RoadFault::SpeedAboveLimit { lane, place }
            } else {
                RoadFault::Character { lane, place }
            });
        }
    }
    Ok(())
}

/// The cars that a picture shows, numbered from `from` on.
fn draw_lane(alloc: Global, picture: &[u8], from: u32) -> Result<Vec<LaneCar>, AllocError>
    requires shown { EachIndex picture.now (λ x.
        ShowsCell MAX_LIMIT (slice_index picture.now x)) }
    requires at_most_max_length { length picture.now ≤ MAX_LENGTH }
    requires at_most_max_cars { from ≤ MAX_LANES * MAX_LENGTH }
    ensures rises { IfOk result (λ cars. IsSortedFrom 0 (length picture.now) cars.items) }
    ensures drawn { IfOk result (λ cars.
        cells_of (length picture.now) cars.items ≡ lane_of_picture from picture.now) }
{
    let mut cars = Vec::new(alloc);
    let mut number = from;
    for (place, character) in picture.iter().enumerate() {
        if let Some(speed) = speed_shown(*character) {
            cars.push(LaneCar::new(number, place as u32, speed))?;
            number += 1;
        }
    }
    Ok(cars)
}

/// The lanes that pictures of `cells` cells show, with their cars numbered in standing order.
pub fn draw_lanes(
    alloc: Global,
    pictures: &[&[u8]],
    cells: usize,
) -> Result<Vec<Vec<LaneCar>>, AllocError>
    requires valid { AreValidPictures MAX_LIMIT (pictures_of pictures.now) }
    requires first { cells ≡ length (picture_at (pictures_of pictures.now) 0) }
    ensures sorted { IfOk result (λ lanes. AreSorted cells lanes.items) }
    ensures drawn { IfOk result (λ lanes.
        lanes_from cells lanes.items ≡ lanes_of_pictures 0 (pictures_of pictures.now)) }
{
    let mut lanes = Vec::with_capacity(alloc, pictures.len())?;
    let mut number = 0;
    for picture in pictures {
        let cars = draw_lane(alloc, picture, number)?;
        number += cars.len() as u32;
        lanes.push(cars)?;
    }
    Ok(lanes)
}
