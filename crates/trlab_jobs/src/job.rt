//! Job texts: a key, a road, a rule, the number of steps, and rules of later steps.

ghost use Rattle.std.specs.Prelude.{◌≡◌, ◌<◌, ◌≤◌, Err, IfOk, length};
ghost use Rattle.trlab_jobs.specs.Job.{road_line, key_line, limit_line, steps_line, ParsesAsJob, JobLinesParseTo, ReadingHasResult, job_after};
ghost use Rattle.trlab_road.specs.Cells.{IsLegal};
ghost use Rattle.trlab_texts.specs.Reading.{Reports};
ghost use Rattle.trlab_jobs.specs.Stored.{IsStoredJob};
ghost use Rattle.trlab_bounds.specs.declared.texts.TheConstants.{TEXT_LIMIT};

use crate::{lane, rule};
use hex::FromHex;
use std::alloc::Global;
use std::marker::Model;
use trlab_bounds::roads::MAX_LIMIT;
use trlab_bounds::runs::MAX_STEPS;
use trlab_bounds::texts::TEXT_LIMIT;
use trlab_road::Road;
use trlab_rules::Rule;
use trlab_texts::{Cause, Excerpt, LineName, Objection, Refusal, Rest, TextFault};
use trlab_words::Key;

/// A job that can be run: its road is legal, and its rules suit the number of lanes.
#[derive(Drop)]
pub struct Job {
    /// The seed of the random numbers.
    pub key: Key,
    /// The road at step 0.
    pub road: Road,
    /// The rule from step 0 on.
    pub first: Rule,
    /// The rules of later steps, each with the step from which it applies. These steps increase, and are below
    /// `steps`.
    pub later: Vec<(u32, Rule)>,
    /// The number of steps, 0 to `MAX_STEPS`.
    pub steps: u32,
}

impl Model for Job {
    ghost use Rattle.trlab_jobs.specs.Job.{Job as AbstractJob};
    ghost use Rattle.trlab_jobs.specs.Stored.{IsStoredJob};

    ghost Value = { AbstractJob };

    ghost view = { λ job. record {
      key = job.key.0;
      road = job.road;
      first = job.first;
      later = job.later.items;
      steps = job.steps;
    } };

    ghost invariant = { λ job. IsStoredJob (record {
      key = job.key.0;
      road = job.road;
      first = job.first;
      later = job.later.items;
      steps = job.steps;
    }) };
}

/// Reads the line `road 1`.
pub fn read_road_line(line: &[u8]) -> Result<(), Objection<'_>>
    ensures { result ≡ road_line line.now }
{
    if line == b"road 1".as_slice() {
        Ok(())
    } else {
        Err(Objection::no_line())
    }
}

/// Reads the line `key H`, where H is 64 hexadecimal digits of either case.
pub fn read_key_line(line: &[u8]) -> Result<[u8; 32], Objection<'_>>
    ensures { result ≡ key_line line.now }
{
    let digits = Excerpt::of(line).word_after(LineName::Key.name_and_space())?;
    match <[u8; 32]>::from_hex(digits.bytes()) {
        Ok(key) => Ok(key),
        Err(_) => Err(digits.not_a_key()),
    }
}

/// Reads the line `limit n`, where n is the maximum speed, 1 to `MAX_LIMIT` cells per step.
pub fn read_limit_line(line: &[u8]) -> Result<u32, Objection<'_>>
    ensures { result ≡ limit_line line.now }
{
    Excerpt::number_after(LineName::Limit, 1, MAX_LIMIT, line)
}

/// Reads the line `steps n`, where n is 0 to `MAX_STEPS`.
pub fn read_steps_line(line: &[u8]) -> Result<u32, Objection<'_>>
    ensures { result ≡ steps_line line.now }
{
    Excerpt::number_after(LineName::Steps, 0, MAX_STEPS, line)
}

/// Reads the lines after the lanes: a rule, the number of steps, and rules of later steps.
fn read_rules(alloc: Global, key: [u8; 32], road: Road, rest: Rest<'_>) -> Result<Job, Refusal<'_>>
    requires { IsLegal road }
    ensures reported { Reports (ReadingHasResult (job_after key road) rest.entry) result }
    ensures stored { IfOk result IsStoredJob }
{
    let lanes = rule::Lanes {
        count: road.lanes(),
        line: rest.line_before(),
    };
    let (first, rest) = rule::rule(alloc, lanes, rest)?;
    let (steps, rest) = rest.read_line(LineName::Steps, read_steps_line)?;
    let (later, _) = rule::later_rules(alloc, lanes, steps, rest)?;
    Ok(Job {
        key: Key(key),
        road,
        first,
        later,
        steps,
    })
}

/// Reads the lines of a job text of at most `TEXT_LIMIT` bytes.
fn read_lines(alloc: Global, text: &[u8]) -> Result<Job, Refusal<'_>>
    requires { length text.now ≤ TEXT_LIMIT }
    ensures reported { Reports (JobLinesParseTo text.now) result }
    ensures stored { IfOk result IsStoredJob }
{
    let ((), rest) = Rest::start(text).read_line(LineName::Road, read_road_line)?;
    let (key, rest) = rest.read_line(LineName::Key, read_key_line)?;
    let (limit, rest) = rest.read_line(LineName::Limit, read_limit_line)?;
    let (road, rest) = lane::lanes(alloc, limit, rest)?;
    read_rules(alloc, key, road, rest)
}

/// Reads a job text. A refusal includes the input that was wanted at the fault.
///
/// # Errors
///
/// A refusal with the first fault of the text: `TooBig` at line 0 if the text is too long, in which case nothing is
/// read, and otherwise a cause at its line. The fault is `TextFault::Memory` if an allocation fails.
pub fn parse_job(alloc: Global, text: &[u8]) -> Result<Job, Refusal<'_>>
    ensures reported { Reports (ParsesAsJob text.now) result }
    ensures too_big { TEXT_LIMIT < length text.now → result ≡ Err (TextFault.At 0 Cause.TooBig) }
    ensures stored { IfOk result IsStoredJob }
{
    if text.len() > TEXT_LIMIT {
        return Err(Refusal::bare(TextFault::At {
            line: 0,
            cause: Cause::TooBig,
        }));
    }
    read_lines(alloc, text)
}

/// Reads a job text like [`parse_job`]. The error does not include the wanted input.
///
/// # Errors
///
/// The fault of [`parse_job`].
pub fn read_job(alloc: Global, text: &[u8]) -> Result<Job, TextFault>
    ensures reported { Reports (ParsesAsJob text.now) result }
    ensures too_big { TEXT_LIMIT < length text.now → result ≡ Err (TextFault.At 0 Cause.TooBig) }
    ensures stored { IfOk result IsStoredJob }
{
    match parse_job(alloc, text) {
        Ok(job) => Ok(job),
        Err(refusal) => Err(refusal.fault()),
    }
}
