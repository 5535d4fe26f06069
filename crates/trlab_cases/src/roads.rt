//! The calls `road` and `even`.

ghost use Rattle.std.specs.Prelude.{◌≡◌, ◌<◌, length};
ghost use Rattle.trlab_road.specs.Cells.{cars};

use crate::report::{Outcome, Report};
use trlab_road::{Road, RoadFault};

/// Reads a maximum speed and the pictures of lanes, one per line, and writes the road, or the fault.
pub fn write_parsed_road(report: &mut Report, text: &str) -> Outcome {
    let mut lines = text.lines();
    let limit = lines.next().unwrap_or("").parse::<u32>().unwrap_or(0);
    let mut lanes = Vec::new(report.alloc);
    for line in lines {
        if lanes.push(line.as_bytes()).is_err() {
            return report.fail();
        }
    }
    write_road_or_fault(report, Road::parse(report.alloc, limit, &lanes))
}

/// Reads a number of lanes, a length, a limit and a number of evenly spaced cars, and writes the road, or the fault.
pub fn write_even_road(report: &mut Report, text: &str) -> Outcome {
    match four_numbers(text) {
        Some(numbers) => {
            let [lanes, length, limit, cars] = numbers;
            write_road_or_fault(report, Road::even(report.alloc, lanes, length, limit, cars))
        }
        None => report.finish(Outcome::Refused, "not four numbers\n"),
    }
}

/// The four numbers of a text; `None` unless it has four words. A word that is not a number counts as 0.
fn four_numbers(text: &str) -> Option<[u32; 4]> {
    let mut words = text.split_whitespace();
    let mut numbers = [0; 4];
    for number in &mut numbers {
        *number = words.next()?.parse::<u32>().unwrap_or(0);
    }
    if words.next().is_some() {
        return None;
    }
    Some(numbers)
}

/// Writes a road, or the fault.
fn write_road_or_fault(report: &mut Report, road: Result<Road, RoadFault>) -> Outcome {
    match road {
        Ok(road) => write_road(report, &road),
        Err(RoadFault::Memory) => report.fail(),
        Err(fault) => {
            report.push_allocated(format!(in report.alloc; "{fault:?}\n"));
            Outcome::Refused
        }
    }
}

/// Writes the number of lanes, the length, the maximum speed and the number of cars of a road, then its cars in
/// standing order, then its pictures.
fn write_road(report: &mut Report, road: &Road) -> Outcome {
    report.push_number("lanes ", road.lanes());
    report.push_number(" length ", road.length());
    report.push_number(" limit ", road.limit());
    report.push_number(" cars ", road.cars());
    report.push_str("\n");
    for k in 0..road.cars() {
        push_car(report, road, k);
    }
    push_pictures(report, road);
    Outcome::Done
}

/// Writes the k-th car in standing order, with its gaps and its headspeed, on a line.
fn push_car(report: &mut Report, road: &Road, k: u32)
    requires { k < cars road.now }
{
    let car = road.standing(k);
    report.push_number("car ", car.number);
    report.push_number(" lane ", car.lane);
    report.push_number(" place ", car.place);
    report.push_number(" speed ", car.speed);
    report.push_number(" gap ", road.gap(k));
    report.push_number(" headspeed ", road.headspeed(k));
    if road.lanes() == 2 {
        push_side(report, road, k);
    }
    report.push_str("\n");
}

/// Writes whether the side cell is empty, and the gaps ahead and behind on the other lane.
fn push_side(report: &mut Report, road: &Road, k: u32)
    requires below { k < cars road.now }
    requires two { length road.now.lanes ≡ 2 }
{
    report.push_str(if road.side(k) {
        " side empty"
    } else {
        " side taken"
    });
    report.push_number(" sidegap ", road.sidegap(k));
    report.push_number(" sideback ", road.sideback(k));
}

/// Writes the picture of each lane on a line of its own.
pub fn push_pictures(report: &mut Report, road: &Road) {
    for lane in 0..road.lanes() {
        match road.picture(report.alloc, lane) {
            Ok(picture) => report.push_bytes(&picture),
            Err(_) => {
                report.fail();
            }
        }
        report.push_str("\n");
    }
}
