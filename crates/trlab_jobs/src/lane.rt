//! The lanes of a job's road: one or two lines `lane P`, whose pictures are judged together.

ghost use Rattle.std.specs.Prelude.{◌≡◌, ◌+◌, ◌∷◌, IfOk, option_map, option_to_list};
ghost use Rattle.std.specs.Result.{result_map_both};
ghost use Rattle.trlab_road.specs.Cells.{IsLegal};
ghost use Rattle.trlab_road.specs.Pictures.{pictures_of};
ghost use Rattle.trlab_texts.specs.Causes.{IsWantedFor};
ghost use Rattle.trlab_texts.specs.Reading.{Reports, line, exactly};
ghost use Rattle.trlab_jobs.specs.Job.{lane_word, second_lane, line_of_fault, LanesParseTo, PicturesParseTo, lanes};

use std::alloc::Global;
use trlab_bounds::roads::MAX_LENGTH;
use trlab_road::{Road, RoadFault};
use trlab_texts::{Cause, Excerpt, LineName, Objection, Refusal, Rest, TextFault, Wanted};

/// Reads the line `lane P`, where P is the picture of a lane.
fn read_lane_word(line: &[u8]) -> Result<Excerpt<'_>, Objection<'_>>
    ensures { result ≡ lane_word line.now }
{
    Excerpt::of(line).word_after(LineName::Lane.name_and_space())
}

/// Reads the picture of a lane.
fn lane(rest: Rest<'_>) -> Result<(Excerpt<'_>, Rest<'_>), Refusal<'_>>
    ensures reported { Reports (line (exactly lane_word) rest.entry) result }
    ensures next { IfOk result (λ found. found.1.number ≡ rest.entry.number + 1) }
{
    rest.read_line(LineName::Lane, read_lane_word)
}

/// Reads the picture of a second lane, if the next line begins with `lane`.
fn second_lane(rest: Rest<'_>) -> Result<(Option<Excerpt<'_>>, Rest<'_>), Refusal<'_>>
    ensures { Reports (second_lane rest.entry) result }
{
    if rest.next_word_is(LineName::Lane.word()) {
        let (picture, rest) = lane(rest)?;
        Ok((Some(picture), rest))
    } else {
        Ok((None, rest.or(LineName::Lane)))
    }
}

/// The number of the line with a fault: its lane's line for a wrong character or a speed above the limit, and `last`
/// for any other fault.
fn line_of_fault(first: u32, last: u32, fault: RoadFault) -> u32
    ensures { result ≡ line_of_fault first last fault }
{
    match fault {
        RoadFault::Character { lane, .. } | RoadFault::SpeedAboveLimit { lane, .. } => {
            if lane == 0 { first } else { last }
        }
        RoadFault::Lanes
        | RoadFault::Length
        | RoadFault::Limit
        | RoadFault::Memory
        | RoadFault::TooManyCars => last,
    }
}

/// The input that is wanted instead of lanes with this fault; the first lane has `cells` cells.
fn wanted_lanes<'a>(limit: u32, cells: usize, fault: RoadFault) -> Wanted<'a>
    ensures { IsWantedFor (Cause.Road fault) result }
{
    match fault {
        RoadFault::Length => Wanted::Cells {
            first: if cells <= MAX_LENGTH as usize {
                cells as u32
            } else {
                0
            },
        },
        RoadFault::SpeedAboveLimit { .. } => Wanted::Speed { limit },
        RoadFault::Lanes
        | RoadFault::Limit
        | RoadFault::Character { .. }
        | RoadFault::Memory
        | RoadFault::TooManyCars => Wanted::Nothing,
    }
}

/// The refusal of lanes from the line `first` to the line `last`; the first lane has `cells` cells.
fn lanes_refusal<'a>(
    first: u32,
    last: u32,
    limit: u32,
    cells: usize,
    fault: RoadFault,
) -> Refusal<'a>
    ensures { result ≡ TextFault.At (line_of_fault first last fault) (Cause.Road fault) }
{
    let text_fault = TextFault::At {
        line: line_of_fault(first, last, fault),
        cause: Cause::Road(fault),
    };
    Refusal::new(text_fault, wanted_lanes(limit, cells, fault))
}

/// The road that pictures on the lines from `first` to `last` show; the first picture has `cells` cells.
fn parse_pictures<'a>(
    alloc: Global,
    first: u32,
    last: u32,
    limit: u32,
    cells: usize,
    pictures: &[&[u8]],
) -> Result<Road, Refusal<'a>>
    ensures reported { Reports (LanesParseTo first last limit (pictures_of pictures.now)) result }
    ensures legal { IfOk result (λ road. IsLegal road) }
{
    match Road::parse(alloc, limit, pictures) {
        Ok(road) => Ok(road),
        Err(RoadFault::Memory) => Err(Refusal::memory()),
        Err(fault) => Err(lanes_refusal(first, last, limit, cells, fault)),
    }
}

/// The road that one or two pictures show: the first on the line `first`, and the second, if any, on the line `after`.
fn road_of<'a>(
    alloc: Global,
    first: u32,
    after: u32,
    limit: u32,
    picture: Excerpt<'a>,
    second: Option<Excerpt<'a>>,
) -> Result<Road, Refusal<'a>>
    requires { after ≡ first + 1 }
    ensures reported { Reports
        (PicturesParseTo first limit picture.entry second.entry) result }
    ensures legal { IfOk result (λ road. IsLegal road) }
{
    let picture = picture.bytes();
    let cells = picture.len();
    match second {
        None => parse_pictures(alloc, first, first, limit, cells, &[picture]),
        Some(second) => {
            let pictures = [picture, second.bytes()];
            parse_pictures(alloc, first, after, limit, cells, &pictures)
        }
    }
}

/// Reads the lanes of a road: a line `lane P`, and the next line if it begins with `lane`.
pub fn lanes(alloc: Global, limit: u32, rest: Rest<'_>) -> Result<(Road, Rest<'_>), Refusal<'_>>
    ensures reported { Reports (lanes limit rest.entry) result }
    ensures legal { IfOk result (λ found. IsLegal found.0) }
{
    let first = rest.number();
    let (picture, rest) = lane(rest)?;
    let after = rest.number();
    let (second, rest) = second_lane(rest)?;
    let road = road_of(alloc, first, after, limit, picture, second)?;
    Ok((road, rest))
}
