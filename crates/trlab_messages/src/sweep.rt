//! The work of a valid sweep.

use crate::body::{Body, Number};
use crate::lines::UnreadLines;
use crate::rules::{MEMORY_PER_INPUT_BYTE, add_next_rule, count_digits, megabytes};
use trlab_jobs::Sweep;
use trlab_jobs::limits::MAX_CARS_IN_MEMORY;

/// The numbers of cars of the points of a sweep.
#[derive(Clone, Copy)]
struct CarCounts {
    fewest: u32,
    most: u32,
    /// The sum over all points.
    total: u64,
}

impl CarCounts {
    fn of(cars: &[u32]) -> CarCounts {
        let mut counts = CarCounts {
            fewest: u32::MAX,
            most: 0,
            total: 0,
        };
        for count in cars {
            counts.fewest = counts.fewest.min(*count);
            counts.most = counts.most.max(*count);
            counts.total = counts.total.saturating_add(u64::from(*count));
        }
        counts
    }
}

/// How many of these cars start on lane 0 of two lanes: the cars are spread evenly over the cells, and the cells
/// alternate between the lanes.
fn cars_on_lane_0(cells: u64, cars: u32) -> u64 {
    let mut first = 0u64;
    for car in 0..cars {
        let cell = u64::from(car).saturating_mul(cells) / u64::from(cars).max(1);
        if cell % 2 == 0 {
            first = first.saturating_add(1);
        }
    }
    first
}

/// Adds how many of these cars start on lane 0, with this key in the JSON form.
fn add_start(body: &mut Body, key: &'static str, cells: u64, cars: u32) {
    let first = cars_on_lane_0(cells, cars);
    body.add_numbers(&[
        Number::whole("", "With ", u64::from(cars), " cars, "),
        Number::whole(key, "", first, " start on lane 0."),
    ]);
}

/// An upper bound on the number of bytes of a table's heading, which has 47.
const HEADING_BYTES: u64 = 49;

/// The maximum number of bytes of a row besides the first six numbers: 6 commas, an LF, and a flow of 8 digits, because
/// a flow is at most 35,000,000 millionths.
const ROW_BYTES: u64 = 15;

/// The maximum number of bytes of the table of a sweep.
fn output_bytes(sweep: &Sweep) -> u64 {
    let cells = u64::from(sweep.lanes).saturating_mul(u64::from(sweep.length));
    let measure = u64::from(sweep.measure);
    let mut bytes = HEADING_BYTES;
    for count in &sweep.cars {
        let cars = u64::from(*count);
        // Neither the stopped cars nor the lane changes of all steps are more than the car-steps.
        let car_steps = cars.saturating_mul(measure);
        let max_distance = car_steps.saturating_mul(u64::from(sweep.limit));
        for number in &[cars, cells, measure, max_distance, car_steps, car_steps] {
            bytes = bytes.saturating_add(count_digits(*number));
        }
        bytes = bytes.saturating_add(ROW_BYTES);
    }
    bytes
}

/// The bytes of memory for each car that is kept.
const MEMORY_PER_CAR: u64 = 26;

/// The bytes of memory for each step of each point.
const MEMORY_PER_STEP: u64 = 64;

/// The bytes of memory for the program itself.
const MEMORY_OF_PROGRAM: u64 = 4_000_000;

/// An estimate of the memory, in bytes, that a sweep with one runner uses. Its numbers are fitted to measurements; they
/// are also in docs/RELIABILITY.md. The cars of all points are kept, but not more than `MAX_CARS_IN_MEMORY` at once,
/// and the runner has those of one road again: at most the cars of the point with the most.
fn memory_bytes(text: &[u8], cars: &CarCounts, steps: u64) -> u64 {
    let most = u64::from(cars.most);
    let kept_cars = cars
        .total
        .min(u64::from(MAX_CARS_IN_MEMORY))
        .saturating_add(most);
    (text.len() as u64)
        .saturating_mul(MEMORY_PER_INPUT_BYTE)
        .saturating_add(kept_cars.saturating_mul(MEMORY_PER_CAR))
        .saturating_add(steps.saturating_mul(MEMORY_PER_STEP))
        .saturating_add(MEMORY_OF_PROGRAM)
}

/// Adds the roads of a sweep, and how their cars start if they have two lanes.
fn add_roads(body: &mut Body, sweep: &Sweep) {
    let (lanes, length) = (u64::from(sweep.lanes), u64::from(sweep.length));
    let cells = lanes.saturating_mul(length);
    let limit = u64::from(sweep.limit);
    let CarCounts { fewest, most, .. } = CarCounts::of(&sweep.cars);
    body.add_numbers(&[
        Number::whole("lanes", "Lanes: ", lanes, "."),
        Number::whole("cells", "Cells per lane: ", length, "."),
        Number::whole("limit", "Maximum speed: ", limit, " cells per step."),
        Number::whole("road_cells", "Cells per road: ", cells, "."),
        Number::whole("fewest_cars", "Fewest cars: ", u64::from(fewest), "."),
        Number::whole("most_cars", "Most cars: ", u64::from(most), "."),
    ]);
    if sweep.lanes == 2 {
        add_start(body, "fewest_on_lane_0", cells, fewest);
        if fewest != most {
            add_start(body, "most_on_lane_0", cells, most);
        }
    }
}

/// Adds the points of a sweep, and their work.
fn add_points(body: &mut Body, text: &[u8], sweep: &Sweep) {
    let cars = CarCounts::of(&sweep.cars);
    let points = sweep.cars.len() as u64;
    let (warm, measure) = (u64::from(sweep.warm), u64::from(sweep.measure));
    let steps = warm.saturating_add(measure);
    let total = points.saturating_mul(steps);
    let work = cars.total.saturating_mul(steps);
    let memory = megabytes(memory_bytes(text, &cars, total));
    let maximum = " steps in total (maximum 500000).";
    let measured = " MB with one runner (measured, not proved).";
    body.add_numbers(&[
        Number::whole("points", "Points: ", points, ", one row of the table each."),
        Number::whole("warm", "Warm-up steps per point: ", warm, "."),
        Number::whole("measure", "Measured steps per point: ", measure, "."),
        Number::whole("steps", "Work: ", total, maximum),
        Number::whole("work", "Work: ", work, " car-steps."),
        Number::whole(
            "output_bytes",
            "Output: at most ",
            output_bytes(sweep),
            " bytes.",
        ),
        Number::whole("memory_mb", "Memory: about ", memory, measured),
    ]);
}

/// Adds the roads, the rule and the work of a valid sweep.
pub fn add_sweep(body: &mut Body, text: &[u8], sweep: &Sweep) {
    body.intro = "This is a valid sweep: `trlab sweep` runs it.";
    add_roads(body, sweep);
    body.numbers_above = body.numbers.len();
    body.facts.push_line("The rule:");
    let mut lines = UnreadLines::below(0, text);
    add_next_rule(body, &mut lines, b"rule", &sweep.rule);
    add_points(body, text, sweep);
}
