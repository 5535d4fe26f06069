//! Lines that state rules. All words are checked before the numbers, which are checked from left to right.

ghost use Rattle.std.specs.Prelude.{◌≡◌, ◌<◌, ◌≤◌, IfOk, OnOk, option_map};
ghost use Rattle.trlab_jobs.specs.Lines.{rule_words, probability_of, rule_with_probabilities, rule_line, later_words, admit_step, later_line};

use trlab_texts::{Cause, Excerpt, Objection, Quantity, Wanted};
use trlab_words::{CERTAIN, Chance};

/// A rule as a line states it. `T` is the type of its parameters: words, or the probabilities that they write.
#[derive(Drop)]
pub enum RuleLine<T> {
    /// `rule nasch t`.
    Nasch { brake: T },
    /// `rule vdr t t0`: t for moving cars, t0 for stopped cars.
    Vdr { moving: T, stopped: T },
    /// `rule rickert t c`: c for lane changes.
    Rickert { brake: T, crossing: T },
    /// `rule own`, with its programs on the lines after it.
    Own,
}

/// The words of a line `rule ..`, if they state a rule.
fn read_rule_words<'a>(line: &Excerpt<'a>) -> Option<RuleLine<Excerpt<'a>>>
    ensures { result ≡ rule_words line.now }
{
    if let Some(words) = line.after(b"rule nasch ") {
        return match words.as_word() {
            Some(brake) => Some(RuleLine::Nasch { brake }),
            None => None,
        };
    }
    if let Some(words) = line.after(b"rule vdr ") {
        return match words.two_words() {
            Some((moving, stopped)) => Some(RuleLine::Vdr { moving, stopped }),
            None => None,
        };
    }
    if let Some(words) = line.after(b"rule rickert ") {
        return match words.two_words() {
            Some((brake, crossing)) => Some(RuleLine::Rickert { brake, crossing }),
            None => None,
        };
    }
    if line.bytes() == b"rule own".as_slice() {
        Some(RuleLine::Own)
    } else {
        None
    }
}

/// The probability, times 2^31, that a word writes.
fn read_probability(word: Excerpt<'_>) -> Result<Chance, Objection<'_>>
    ensures { result ≡ probability_of word.entry }
{
    match Chance::new(word.number(0, CERTAIN, Quantity::Probability)?) {
        Some(chance) => Ok(chance),
        None => unreachable!(),
    }
}

/// The numbers of a line `rule ..`, from left to right.
fn read_probabilities<'a>(words: RuleLine<Excerpt<'a>>) -> Result<RuleLine<Chance>, Objection<'a>>
    ensures { result ≡ rule_with_probabilities words.entry }
{
    match words {
        RuleLine::Nasch { brake } => Ok(RuleLine::Nasch {
            brake: read_probability(brake)?,
        }),
        RuleLine::Vdr { moving, stopped } => {
            let moving = read_probability(moving)?;
            let stopped = read_probability(stopped)?;
            Ok(RuleLine::Vdr { moving, stopped })
        }
        RuleLine::Rickert { brake, crossing } => {
            let brake = read_probability(brake)?;
            let crossing = read_probability(crossing)?;
            Ok(RuleLine::Rickert { brake, crossing })
        }
        RuleLine::Own => Ok(RuleLine::Own),
    }
}

/// Reads a line `rule ..`.
pub fn read_rule_line(line: &[u8]) -> Result<RuleLine<Chance>, Objection<'_>>
    ensures { result ≡ rule_line line.now }
{
    match read_rule_words(&Excerpt::of(line)) {
        Some(words) => read_probabilities(words),
        None => Err(Objection::no_line()),
    }
}

/// The words of a line `at s rule ..`: the step, and the words of the rule.
fn read_later_words<'a>(line: &Excerpt<'a>) -> Option<(Excerpt<'a>, RuleLine<Excerpt<'a>>)>
    ensures { result ≡ later_words line.now }
{
    let (step, words) = line.after(b"at ")?.cut(b' ')?;
    if !step.is_word() {
        return None;
    }
    let rule = read_rule_words(&words)?;
    Some((step, rule))
}

/// Accepts the step of a later rule if it is at least `least` and below `steps`, and if `room`, the number of rules
/// that may still follow, is not 0.
fn admit_step<'a>(room: u32, steps: u32, least: u32, step: u64) -> Result<u32, Objection<'a>>
    ensures value { result ≡ admit_step room steps least step }
    ensures room { OnOk result (0 < room) }
    ensures rises { IfOk result (λ from. least ≤ from) }
    ensures in_range { IfOk result (λ from. from < steps) }
{
    if room == 0 {
        return Err(Objection::bare(Cause::TooMany));
    }
    if u64::from(least) <= step && step < u64::from(steps) {
        Ok(step as u32)
    } else {
        let wanted = Wanted::Step { least, steps };
        Err(Objection::new(Cause::Order, wanted))
    }
}

/// Reads a line `at s rule ..`. Checks its words, then its numbers, the room for it, and the order of the steps.
pub fn read_later_rule_line(
    room: u32,
    steps: u32,
    least: u32,
    line: &[u8],
) -> Result<(u32, RuleLine<Chance>), Objection<'_>>
    ensures value { result ≡ later_line room steps least line.now }
    ensures room { OnOk result (0 < room) }
    ensures rises { IfOk result (λ at. least ≤ at.0) }
    ensures in_range { IfOk result (λ at. at.0 < steps) }
{
    let Some((step, rule)) = read_later_words(&Excerpt::of(line)) else {
        return Err(Objection::no_line());
    };
    let step = step.long_number()?;
    let rule = read_probabilities(rule)?;
    let from = admit_step(room, steps, least, step)?;
    Ok((from, rule))
}
