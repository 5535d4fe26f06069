//! Sweep texts: the common part of a sweep's points, and the number of cars of each point.

ghost use Rattle.std.specs.Prelude.{◌≡◌, ◌≢◌, ◌<◌, ◌≤◌, [], Err, IfOk, OnOk, length};
ghost use Rattle.trlab_bounds.specs.declared.roads.TheConstants.{MAX_LENGTH, MAX_LANES};
ghost use Rattle.trlab_bounds.specs.declared.runs.TheConstants.{MAX_STEPS};
ghost use Rattle.trlab_texts.specs.Reading.{Reports, line, exactly};
ghost use Rattle.trlab_texts.specs.Words.{name_and_space, number_within, word_after};
ghost use Rattle.trlab_jobs.specs.Sweep.{shape, span};
ghost use Rattle.std.specs.Result.{result_map_both};
ghost use Rattle.trlab_jobs.specs.declared.limits.TheConstants.{MAX_POINTS};
ghost use Rattle.trlab_jobs.specs.Lines.{admit_cars, cars_line, counts, counts_from};
ghost use Rattle.trlab_bounds.specs.declared.texts.TheConstants.{TEXT_LIMIT};
ghost use Rattle.trlab_jobs.specs.Job.{key_line};
ghost use Rattle.trlab_jobs.specs.Sweep.{sweep_heading, setup, sweep_line, SweepLinesParseTo, ParsesAsSweep};
ghost use Rattle.trlab_jobs.specs.Stored.{IsStoredSweep};

use crate::job::read_key_line;
use crate::limits::{MAX_CARS, MAX_POINTS, MAX_WORK};
use crate::rule;
use std::alloc::Global;
use std::marker::Model;
use trlab_bounds::roads::{MAX_LANES, MAX_LENGTH, MAX_LIMIT};
use trlab_bounds::runs::MAX_STEPS;
use trlab_bounds::texts::TEXT_LIMIT;
use trlab_road::RoadFault;
use trlab_rules::Rule;
use trlab_texts::{
    Cause, Excerpt, LineName, Objection, Quantity, Refusal, Rest, TextFault, Wanted,
};
use trlab_words::Key;

/// A sweep that can be run: its rule suits the number of lanes, and each road has room for its cars.
pub struct Sweep {
    /// The seed of the random numbers.
    pub key: Key,
    /// The maximum speed, 1 to `MAX_LIMIT` cells per step.
    pub limit: u32,
    /// The cells per lane, 1 to `MAX_LENGTH`.
    pub length: u32,
    /// The number of lanes, 1 or 2.
    pub lanes: u32,
    /// The rule of all points.
    pub rule: Rule,
    /// The steps of a point before counting starts, 0 to `MAX_STEPS`.
    pub warm: u32,
    /// The steps of a point that are counted, 1 to `MAX_STEPS`.
    pub measure: u32,
    /// The number of cars of each point: 1 to `MAX_POINTS` points, which take at most `MAX_WORK` steps
    /// together.
    pub cars: Vec<u32>,
}

// Not derived: a derived drop is proved again, field by field, wherever the value goes out of scope.
impl Drop for Sweep {
    fn drop(self) {
        let Sweep {
            key: _key,
            limit: _limit,
            length: _length,
            lanes: _lanes,
            rule: _rule,
            warm: _warm,
            measure: _measure,
            cars: _cars,
        } = self;
    }
}

impl Model for Sweep {
    ghost use Rattle.trlab_jobs.specs.Sweep.{Sweep as AbstractSweep};
    ghost use Rattle.trlab_jobs.specs.Stored.{IsStoredSweep};

    ghost Value = { AbstractSweep };

    ghost view = { λ sweep. record {
      setup = record {
        key = sweep.key.0;
        shape = record { limit = sweep.limit; length = sweep.length; lanes = sweep.lanes };
        rule = sweep.rule;
        span = record { warm = sweep.warm; measure = sweep.measure };
      };
      cars = sweep.cars.items;
    } };

    ghost invariant = { λ sweep. IsStoredSweep (record {
      setup = record {
        key = sweep.key.0;
        shape = record { limit = sweep.limit; length = sweep.length; lanes = sweep.lanes };
        rule = sweep.rule;
        span = record { warm = sweep.warm; measure = sweep.measure };
      };
      cars = sweep.cars.items;
    }) };
}

/// The common part of a sweep's points.
#[derive(Drop)]
struct Setup {
    key: [u8; 32],
    shape: Shape,
    rule: Rule,
    span: Span,
}

impl Model for Setup {
    ghost use Rattle.trlab_jobs.specs.Sweep.{Setup as AbstractSetup};

    ghost Value = { AbstractSetup };

    ghost view = { λ setup. record {
      key = setup.key;
      shape = setup.shape;
      rule = setup.rule;
      span = setup.span;
    } };
}

/// The shape of all roads of a sweep.
#[derive(Clone, Copy)]
pub struct Shape {
    /// The maximum speed, 1 to `MAX_LIMIT` cells per step.
    pub limit: u32,
    /// The cells per lane, 1 to `MAX_LENGTH`.
    pub length: u32,
    /// The number of lanes, 1 or 2.
    pub lanes: u32,
}

/// The steps of a point.
#[derive(Clone, Copy)]
pub struct Span {
    /// The first steps, which are not counted, 0 to `MAX_STEPS`.
    pub warm: u32,
    /// The steps after them, which are counted, 1 to `MAX_STEPS`.
    pub measure: u32,
}

/// Reads a line with this name and a number from `low` to `high`.
fn read_number_line(name: LineName, low: u32, high: u32, line: &[u8]) -> Result<u32, Objection<'_>>
    ensures value { result ≡ number_within low high (word_after (name_and_space name) line.now) }
    ensures low { IfOk result (λ n. low ≤ n) }
    ensures high { IfOk result (λ n. n ≤ high) }
{
    Excerpt::number_after(name, low, high, line)
}

/// Reads the next line, which has this name and a number from `low` to `high`.
fn number(
    name: LineName,
    low: u32,
    high: u32,
    rest: Rest<'_>,
) -> Result<(u32, Rest<'_>), Refusal<'_>>
    ensures reported { Reports
        (line (exactly (λ text. number_within low high (word_after (name_and_space name) text))) rest.entry) result }
    ensures low { IfOk result (λ found. low ≤ found.0) }
    ensures high { IfOk result (λ found. found.0 ≤ high) }
{
    rest.read_line(name, |text| read_number_line(name, low, high, text))
}

/// Reads the lines `limit n`, `length n` and `lanes n`.
pub fn read_shape(rest: Rest<'_>) -> Result<(Shape, Rest<'_>), Refusal<'_>>
    ensures reported { Reports (shape rest.entry) result }
    ensures cells { IfOk result (λ found. found.0.length ≤ MAX_LENGTH) }
    ensures at_least_one_lane { IfOk result (λ found. 1 ≤ found.0.lanes) }
    ensures at_most_max_lanes { IfOk result (λ found. found.0.lanes ≤ MAX_LANES) }
{
    let (limit, rest) = number(LineName::Limit, 1, MAX_LIMIT, rest)?;
    let (length, rest) = number(LineName::Length, 1, MAX_LENGTH, rest)?;
    let (lanes, rest) = number(LineName::Lanes, 1, MAX_LANES, rest)?;
    Ok((
        Shape {
            limit,
            length,
            lanes,
        },
        rest,
    ))
}

/// Reads the lines `warm n` and `measure n`.
pub fn read_span(rest: Rest<'_>) -> Result<(Span, Rest<'_>), Refusal<'_>>
    ensures reported { Reports (span rest.entry) result }
    ensures warm { IfOk result (λ found. found.0.warm ≤ MAX_STEPS) }
    ensures measure { IfOk result (λ found. found.0.measure ≤ MAX_STEPS) }
{
    let (warm, rest) = number(LineName::Warm, 0, MAX_STEPS, rest)?;
    let (measure, rest) = number(LineName::Measure, 1, MAX_STEPS, rest)?;
    Ok((Span { warm, measure }, rest))
}

/// Accepts the number of cars of a point if there is room for the point, for the cars, and for the steps of all
/// points so far. Points are counted from 1.
fn admit_cars<'a>(cells: u32, steps: u32, point: u32, count: u32) -> Result<u32, Objection<'a>>
    ensures value { result ≡ admit_cars cells steps point count }
    ensures room { OnOk result (point ≤ MAX_POINTS) }
{
    if point > MAX_POINTS {
        return Err(Objection::bare(Cause::TooMany));
    }
    if count > cells {
        return Err(Objection::bare(Cause::Road(RoadFault::TooManyCars)));
    }
    if u64::from(point) * u64::from(steps) > u64::from(MAX_WORK) {
        let wanted = Wanted::Work {
            points: point,
            steps,
        };
        return Err(Objection::new(Cause::Work, wanted));
    }
    Ok(count)
}

/// Reads the line `cars n` of the point with the number `point`, counted from 1. A road has `cells` cells.
fn read_cars_line(cells: u32, steps: u32, point: u32, line: &[u8]) -> Result<u32, Objection<'_>>
    ensures value { result ≡ cars_line cells steps point line.now }
    ensures room { OnOk result (point ≤ MAX_POINTS) }
{
    let word = Excerpt::of(line).word_after(LineName::Cars.name_and_space())?;
    let count = word.number(0, MAX_CARS, Quantity::Cars { cells })?;
    admit_cars(cells, steps, point, count)
}

/// Reads the next line, `cars n`, as the number of cars of the point with the number `point`.
fn next_count(
    cells: u32,
    steps: u32,
    point: u32,
    rest: Rest<'_>,
) -> Result<(u32, Rest<'_>), Refusal<'_>>
    ensures reported { Reports (line (exactly (cars_line cells steps point)) rest.entry) result }
    ensures room { OnOk result (point ≤ MAX_POINTS) }
{
    rest.read_line(
        LineName::Cars,
        |text| read_cars_line(cells, steps, point, text),
    )
}

/// Reads the numbers of cars up to the end of the text.
fn counts_to_end(
    alloc: Global,
    cells: u32,
    steps: u32,
    mut rest: Rest<'_>,
) -> Result<Vec<u32>, Refusal<'_>>
    ensures { Reports (λ says. says ≡ counts_from cells steps 1 rest.entry.number rest.entry.left)
        (result_map_both (λ counts. counts.items) (λ fault. fault) result) }
{
    let mut counts = Vec::new(alloc);
    let mut point = 1;
    while !rest.is_end() {
        let (count, after) = next_count(cells, steps, point, rest)?;
        if counts.push(count).is_err() {
            return Err(Refusal::memory());
        }
        point += 1;
        rest = after;
    }
    Ok(counts)
}

/// Reads the numbers of cars up to the end of the text; there must be at least one. A road has `cells`
/// cells in all, and a point takes `steps` steps.
pub fn counts(
    alloc: Global,
    cells: u32,
    steps: u32,
    rest: Rest<'_>,
) -> Result<Vec<u32>, Refusal<'_>>
    ensures { Reports (λ says. says ≡ counts cells steps rest.entry.number rest.entry.left)
        (result_map_both (λ counts. counts.items) (λ fault. fault) result) }
{
    if rest.is_end() {
        return Err(rest.ended(LineName::Cars));
    }
    counts_to_end(alloc, cells, steps, rest)
}

/// Reads the line `sweep 1`.
fn read_sweep_line(line: &[u8]) -> Result<(), Objection<'_>>
    ensures { result ≡ sweep_line line.now }
{
    if line == b"sweep 1".as_slice() {
        Ok(())
    } else {
        Err(Objection::no_line())
    }
}

/// Reads the line `sweep 1` and the key.
fn heading(rest: Rest<'_>) -> Result<([u8; 32], Rest<'_>), Refusal<'_>>
    ensures { Reports (sweep_heading rest.entry) result }
{
    let ((), rest) = rest.read_line(LineName::Sweep, read_sweep_line)?;
    rest.read_line(LineName::Key, read_key_line)
}

/// Reads the lines before the points: `sweep 1`, the key, the shape, the rule and the span.
fn read_setup(alloc: Global, rest: Rest<'_>) -> Result<(Setup, Rest<'_>), Refusal<'_>>
    ensures reported { Reports (setup rest.entry) result }
    ensures cells { IfOk result (λ found. found.0.shape.length ≤ MAX_LENGTH) }
    ensures at_most_max_lanes { IfOk result (λ found. found.0.shape.lanes ≤ MAX_LANES) }
    ensures warm { IfOk result (λ found. found.0.span.warm ≤ MAX_STEPS) }
    ensures measure { IfOk result (λ found. found.0.span.measure ≤ MAX_STEPS) }
{
    let (key, rest) = heading(rest)?;
    let (shape, rest) = read_shape(rest)?;
    let lanes = rule::Lanes {
        count: shape.lanes,
        line: rest.line_before(),
    };
    let (rule, rest) = rule::rule(alloc, lanes, rest)?;
    let (span, rest) = read_span(rest)?;
    Ok((
        Setup {
            key,
            shape,
            rule,
            span,
        },
        rest,
    ))
}

/// Reads the lines of a sweep text of at most `TEXT_LIMIT` bytes.
fn read_lines(alloc: Global, text: &[u8]) -> Result<Sweep, Refusal<'_>>
    requires { length text.now ≤ TEXT_LIMIT }
    ensures reported { Reports (SweepLinesParseTo text.now) result }
    ensures stored { IfOk result IsStoredSweep }
{
    let (setup, rest) = read_setup(alloc, Rest::start(text))?;
    let Setup {
        key,
        shape,
        rule,
        span,
    } = setup;
    let cells = shape.lanes * shape.length;
    let cars = counts(alloc, cells, span.warm + span.measure, rest)?;
    Ok(Sweep {
        key: Key(key),
        limit: shape.limit,
        length: shape.length,
        lanes: shape.lanes,
        rule,
        warm: span.warm,
        measure: span.measure,
        cars,
    })
}

/// Reads a sweep text. A refusal includes the input that was wanted at the fault.
///
/// # Errors
///
/// A refusal with the first fault of the text: `TooBig` at line 0 if the text is too long, in which case nothing is
/// read, and otherwise a cause at its line. The fault is `TextFault::Memory` if an allocation fails.
pub fn parse_sweep(alloc: Global, text: &[u8]) -> Result<Sweep, Refusal<'_>>
    ensures reported { Reports (ParsesAsSweep text.now) result }
    ensures too_big { TEXT_LIMIT < length text.now → result ≡ Err (TextFault.At 0 Cause.TooBig) }
    ensures stored { IfOk result IsStoredSweep }
{
    if text.len() > TEXT_LIMIT {
        return Err(Refusal::bare(TextFault::At {
            line: 0,
            cause: Cause::TooBig,
        }));
    }
    read_lines(alloc, text)
}

/// Reads a sweep text like [`parse_sweep`]. The error does not include the wanted input.
///
/// # Errors
///
/// The fault of [`parse_sweep`].
pub fn read_sweep(alloc: Global, text: &[u8]) -> Result<Sweep, TextFault>
    ensures reported { Reports (ParsesAsSweep text.now) result }
    ensures too_big { TEXT_LIMIT < length text.now → result ≡ Err (TextFault.At 0 Cause.TooBig) }
    ensures stored { IfOk result IsStoredSweep }
{
    match parse_sweep(alloc, text) {
        Ok(sweep) => Ok(sweep),
        Err(refusal) => Err(refusal.fault()),
    }
}
