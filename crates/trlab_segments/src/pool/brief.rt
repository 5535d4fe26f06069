//! The question of a phase, as threads share it: a program, dice, the road, and the tickets of its segments.

ghost use Rattle.std.specs.Prelude.{◌≡◌, ◌<◌, ◌≤◌, IfOk, OnErr, OnOk};
ghost use Rattle.trlab_bounds.specs.declared.runs.TheConstants.{MAX_WORKERS};
ghost use Rattle.trlab_segments.specs.Answered.{HasParts, AnswersAll, IsBriefOf, HasDone, CoversAllCars, IsPartOfBrief};
ghost use Rattle.trlab_segments.specs.Drawers.{IsDrawerOf, HasDrawnNone};
ghost use Rattle.trlab_segments.specs.Segments.{first_car};

use crate::parts::{Part, collect, work};
use crate::phase::{Asked, Phase};
use crate::segment::{Gate, segment_count};
use crate::tickets::{Drawer, Tickets};
use std::alloc::{AllocError, Global};
use std::mem;
use trlab_machine::{BLOCK_CARS, Dice};
use trlab_road::Road;

/// The number of segments per worker if each has enough cars.
const SEGMENTS_PER_WORKER: u32 = 16;

/// The minimum number of cars per segment on a road that is cut into more segments than in a single step: drawing a
/// segment then costs little compared with asking its cars.
const CARS_PER_SEGMENT: u32 = 256;

/// A program to run for all cars of a road, with these dice, and the tickets of the segments into which the cars are
/// cut.
#[derive(Drop)]
pub struct Brief<P> {
    pub program: P,
    pub dice: Dice,
    pub road: Road,
    pub tickets: Tickets,
}

/// The number of segments for `workers` workers: as many as in a single step, and more on a road of many cars, so that
/// no worker waits long for the last one. Their blocks are full, or nearly so, because a block of few cars takes as
/// long as a full one.
fn segments_for(cars: u32, workers: u32) -> u32
    requires { (0 < workers) × (workers ≤ MAX_WORKERS) }
    ensures { first_car cars result result ≡ cars }
{
    let block = BLOCK_CARS as u32;
    let blocks = cars.div_ceil(block);
    let blocks_each = blocks
        .div_ceil(SEGMENTS_PER_WORKER * workers)
        .max(CARS_PER_SEGMENT / block);
    segment_count(cars, workers).max(blocks.div_ceil(blocks_each))
}

/// The brief of a phase for `workers` workers, and the first drawer of its tickets. The road moves into the brief, and
/// an empty road takes its place.
///
/// # Errors
///
/// If an allocation fails; the road then stays in its place.
pub fn brief_of<A, P: Asked<A> + Drop>(
    alloc: Global,
    program: &P,
    dice: &Dice,
    road: &mut Road,
    workers: u32,
) -> Result<(Brief<P>, Drawer), AllocError>
    requires { (0 < workers) × (workers ≤ MAX_WORKERS) }
    ensures asked { IfOk result (λ r. IsBriefOf program.now dice.now road.old r.0) }
    ensures cut { IfOk result (λ r. CoversAllCars r.0) }
    ensures new { IfOk result (λ r. HasDrawnNone r.0.tickets r.1) }
    ensures unchanged { OnErr result (road.new ≡ road.old) }
{
    let count = segments_for(road.cars(), workers);
    // An empty road: one lane of one cell, maximum speed 1, no cars.
    let Ok(empty) = Road::even(alloc, 1, 1, 1, 0) else {
        return Err(AllocError);
    };
    let program = program.copy(alloc)?;
    let (tickets, drawer) = Tickets::start(alloc, count, workers)?;
    let road = mem::replace(road, empty);
    let brief = Brief {
        program,
        dice: dice.copy(),
        road,
        tickets,
    };
    Ok((brief, drawer))
}

/// Draws one segment after another and asks its cars, until no segment is left.
///
/// # Errors
///
/// If an allocation fails.
pub fn draw_all<A: Drop, P: Asked<A>, G: Gate>(
    alloc: Global,
    brief: &Brief<P>,
    drawer: &mut Drawer,
    worker: u32,
    gate: &G,
) -> Result<Vec<Part<A>>, AllocError>
    requires new { HasDrawnNone brief.now.tickets drawer.old }
    requires lanes { P.can_ask brief.now.road }
    ensures from { IsDrawerOf brief.now.tickets drawer.new }
    ensures parts { IfOk result (λ parts.
        HasParts (IsPartOfBrief P.answers brief.now) drawer.new parts.items) }
{
    let phase = Phase {
        program: &brief.program,
        road: &brief.road,
        dice: &brief.dice,
    };
    work(alloc, &phase, &brief.tickets, drawer, worker, gate)
}

/// Replaces a list by the answers of all cars, from the parts of a drawer's tickets, and returns the road.
///
/// # Errors
///
/// If an allocation fails.
pub fn finish<A: Copy + Drop, P: Asked<A> + Drop>(
    answers: &mut Vec<A>,
    brief: Brief<P>,
    drawer: Drawer,
    parts: &[Part<A>],
) -> (Road, Result<(), AllocError>)
    requires cut { CoversAllCars brief }
    requires lanes { P.can_ask brief.road }
    requires done { HasDone P.answers brief drawer parts.now }
    ensures road { result.0 ≡ brief.road }
    ensures answers { OnOk result.1 (AnswersAll P.answers brief answers.new.items) }
{
    let Brief {
        program,
        dice,
        road,
        tickets,
    } = brief;
    let phase = Phase {
        program: &program,
        road: &road,
        dice: &dice,
    };
    let collected = collect(answers, &phase, tickets, drawer, parts);
    (road, collected)
}

impl<P: Drop> Brief<P> {
    /// Drops the brief, and returns its road.
    pub fn into_road(self) -> Road
        ensures { result ≡ self.road }
    {
        let Brief { road, .. } = self;
        road
    }
}
