//! The work of a valid job.

use crate::amount::Amount;
use crate::body::{Body, Number};
use crate::lines::UnreadLines;
use crate::rules::{MEMORY_PER_INPUT_BYTE, add_next_rule, count_digits, megabytes};
use trlab_jobs::Job;
use trlab_road::Road;

/// The bytes of a line `step s` besides the digits of s: `step ` and the LF.
const STEP_LINE_BYTES: u64 = 6;

/// The number of bytes that a run writes without `--every` and `--from`: for each step its line and a row per lane.
fn output_bytes(road: &Road, steps: u32) -> u64 {
    let rows = u64::from(road.lanes()).saturating_mul(u64::from(road.length()).saturating_add(1));
    let mut bytes = 0u64;
    for step in 0..=steps {
        let line = count_digits(u64::from(step)).saturating_add(STEP_LINE_BYTES);
        bytes = bytes.saturating_add(line).saturating_add(rows);
    }
    bytes
}

/// The bytes of memory for each car of a run.
const MEMORY_PER_CAR: u64 = 20;

/// The bytes of memory for the program itself.
const MEMORY_OF_PROGRAM: u64 = 3_000_000;

/// An estimate of the memory, in bytes, that a run with one worker uses. Its numbers are fitted to measurements; they
/// are also in docs/RELIABILITY.md.
fn memory_bytes(text: &[u8], cars: u64) -> u64 {
    (text.len() as u64)
        .saturating_mul(MEMORY_PER_INPUT_BYTE)
        .saturating_add(cars.saturating_mul(MEMORY_PER_CAR))
        .saturating_add(MEMORY_OF_PROGRAM)
}

/// The numbers of the road of a job.
fn road_numbers(road: &Road) -> [Number; 5] {
    let (lanes, length) = (u64::from(road.lanes()), u64::from(road.length()));
    let (cars, limit) = (u64::from(road.cars()), u64::from(road.limit()));
    let cells = lanes.saturating_mul(length);
    [
        Number::whole("lanes", "Lanes: ", lanes, "."),
        Number::whole("cells", "Cells per lane: ", length, "."),
        Number::whole("cars", "Cars: ", cars, "."),
        Number {
            key: "density",
            front: "Density: ",
            amount: Amount::of(cars, cells, 4),
            after: " cars per cell.",
        },
        Number::whole("limit", "Maximum speed: ", limit, " cells per step."),
    ]
}

/// The numbers of the run of a job.
fn run_numbers(text: &[u8], job: &Job) -> [Number; 4] {
    let (steps, cars) = (u64::from(job.steps), u64::from(job.road.cars()));
    let output = output_bytes(&job.road, job.steps);
    let memory = megabytes(memory_bytes(text, cars));
    let measured = " MB with one worker (measured, not proved).";
    [
        Number::whole("steps", "Steps: ", steps, "."),
        Number::whole("work", "Work: ", cars.saturating_mul(steps), " car-steps."),
        Number::whole("output_bytes", "Output: ", output, " bytes."),
        Number::whole("memory_mb", "Memory: about ", memory, measured),
    ]
}

/// Adds the rules of a job.
fn add_rules(body: &mut Body, text: &[u8], job: &Job) {
    let mut lines = UnreadLines::below(0, text);
    body.facts.push_line("The rule from the start:");
    add_next_rule(body, &mut lines, b"rule", &job.first);
    if !job.later.is_empty() {
        body.facts.push_line("Later rules:");
    }
    for (_, rule) in &job.later {
        add_next_rule(body, &mut lines, b"at", rule);
    }
}

/// Adds the road, the rules and the work of a valid job.
pub fn add_job(body: &mut Body, text: &[u8], job: &Job) {
    body.intro = "This is a valid job: `trlab run` runs it.";
    body.add_numbers(&road_numbers(&job.road));
    body.numbers_above = body.numbers.len();
    add_rules(body, text, job);
    body.add_numbers(&run_numbers(text, job));
}
