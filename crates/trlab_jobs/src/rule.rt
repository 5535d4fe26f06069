//! Rules in texts: the rule from step 0 on, and rules of later steps.

ghost use Rattle.std.specs.Prelude.{◌≡◌, ◌<◌, ◌≤◌, IfErr, IfOk, MatchResult, OnOk, codes, nat_eq};
ghost use Rattle.trlab_bounds.specs.declared.roads.TheConstants.{MAX_LANES};
ghost use Rattle.trlab_step.specs.Run.{IsRuleFor};
ghost use Rattle.trlab_texts.specs.Reading.{Reports, ReportsFault, line, exactly};
ghost use Rattle.trlab_texts.specs.Words.{word_after};
ghost use Rattle.trlab_jobs.specs.Lines.{rule_line, later_line};
ghost use Rattle.trlab_jobs.specs.RuleParts.{code_misplacement, misplacement, next_is_change, change_if_two_lanes, change_part, own_rule, rule_from, rule};
ghost use Rattle.std.specs.Result.{result_map_both};
ghost use Rattle.trlab_jobs.specs.RuleParts.{later_rule, later_rules};
ghost use Rattle.trlab_jobs.specs.Stored.{AreLaterRules};

use crate::rule_line::{RuleLine, read_later_rule_line, read_rule_line};
use hex::FromHexError;
use std::alloc::{AllocError, Global};
use trlab_bounds::runs::MAX_LATER;
use trlab_code::Kind;
use trlab_rules::{Rule, StandardFault, nasch, rickert, vdr};
use trlab_texts::{
    Cause, Excerpt, LineName, LineNames, Objection, Refusal, Rest, TextFault, Wanted, program,
};
use trlab_verify::{Change, ChangeKind, MotionKind};
use trlab_words::Chance;

/// The number of lanes of a road, and the line that states it.
#[derive(Clone, Copy)]
pub struct Lanes {
    /// 1 or 2.
    pub count: u32,
    /// The number of the line: the last line `lane P` of a job, or the line `lanes n` of a sweep.
    pub line: u32,
    ghost in_range: { (1 ≤ count) × (count ≤ MAX_LANES) },
}

impl Lanes {
    /// The objection to a rule that needs two lanes.
    fn too_few<'a>(self) -> Objection<'a>
        ensures { result ≡ Cause.OneLane }
    {
        let wanted = Wanted::SecondLane { line: self.line };
        Objection::new(Cause::OneLane, wanted)
    }
}

/// Why the line `code X` of a change program is rejected on a road with one lane.
///
/// # Errors
///
/// If an allocation fails.
fn code_misplacement(alloc: Global, lanes: Lanes, line: &[u8]) -> Result<Objection<'_>, AllocError>
    ensures { IfOk result (λ cause. cause ≡ code_misplacement (word_after (codes "code ") line.now)) }
{
    let digits = match program::code_digits(&Excerpt::of(line)) {
        Ok(digits) => digits,
        Err(objection) => return Ok(objection),
    };
    match hex::decode(alloc, digits.bytes()) {
        Ok(_) => Ok(lanes.too_few()),
        Err(FromHexError::OutOfMemory) => Err(AllocError),
        Err(_) => Ok(digits.no_hex()),
    }
}

/// Why a change program is rejected on a road with one lane.
fn misplacement(alloc: Global, lanes: Lanes, rest: Rest<'_>) -> Refusal<'_>
    ensures { ReportsFault (misplacement rest.entry.number rest.entry.left) result }
{
    let first = rest.number();
    let (line, after) = match rest.next_line(LineName::Change) {
        Ok(found) => found,
        Err(refusal) => return refusal,
    };
    if program::is_heading(Kind::Change, line) {
        match after.part() {
            Ok(_) => lanes.too_few().at(first, LineNames::none()),
            Err(refusal) => refusal,
        }
    } else {
        match code_misplacement(alloc, lanes, line) {
            Ok(objection) => objection.at(first, LineNames::none()),
            Err(_) => Refusal::memory(),
        }
    }
}

/// Reads a change program, which is a fault on a road with one lane.
fn change_if_two_lanes(
    alloc: Global,
    lanes: Lanes,
    rest: Rest<'_>,
) -> Result<(Change, Rest<'_>), Refusal<'_>>
    ensures { Reports (change_if_two_lanes (nat_eq lanes.count 1) rest.entry) result }
{
    if lanes.count == 1 {
        Err(misplacement(alloc, lanes, rest))
    } else {
        program::accepted_part::<ChangeKind>(alloc, rest)
    }
}

/// Whether a change program begins on the next line.
fn next_is_change(rest: &Rest<'_>) -> bool
    ensures { result ≡ next_is_change rest.now.left }
{
    rest.next_word_is(b"change") || rest.next_word_is(b"code")
}

/// Reads a change program, if it begins on the next line.
fn change_part(
    alloc: Global,
    lanes: Lanes,
    rest: Rest<'_>,
) -> Result<(Option<Change>, Rest<'_>), Refusal<'_>>
    ensures { Reports (change_part lanes.count rest.entry) result }
{
    if next_is_change(&rest) {
        let (change, rest) = change_if_two_lanes(alloc, lanes, rest)?;
        Ok((Some(change), rest))
    } else if lanes.count == 1 {
        Ok((None, rest))
    } else {
        Ok((None, rest.or(LineName::Change)))
    }
}

/// Reads the programs of `rule own`: a motion program, and optionally a change program.
fn own_rule(alloc: Global, lanes: Lanes, rest: Rest<'_>) -> Result<(Rule, Rest<'_>), Refusal<'_>>
    ensures reported { Reports (own_rule lanes.count rest.entry) result }
    ensures suits { IfOk result (λ found. IsRuleFor lanes.count found.0) }
{
    let (motion, rest) = program::accepted_part::<MotionKind>(alloc, rest)?;
    let (change, rest) = change_part(alloc, lanes, rest)?;
    Ok((Rule::new(motion, change), rest))
}

/// Returns a standard rule with the rest of the text.
fn rule_with_rest(
    rule: Result<Rule, StandardFault>,
    rest: Rest<'_>,
) -> Result<(Rule, Rest<'_>), Refusal<'_>>
    requires { IfErr rule (λ fault. fault ≡ StandardFault.Memory) }
    ensures { MatchResult rule (λ rule. result ≡ Ok (rule, rest.entry)) (λ _. result ≡ Err TextFault.Memory) }
{
    match rule {
        Ok(rule) => Ok((rule, rest)),
        Err(_) => Err(Refusal::memory()),
    }
}

/// Returns the rule of the line `number`, which has been read. If it is `rule own`, reads the programs after it.
pub fn rule_from(
    alloc: Global,
    lanes: Lanes,
    number: u32,
    line: RuleLine<Chance>,
    rest: Rest<'_>,
) -> Result<(Rule, Rest<'_>), Refusal<'_>>
    ensures reported { Reports (rule_from lanes.count number line rest.entry) result }
    ensures suits { IfOk result (λ found. IsRuleFor lanes.count found.0) }
{
    match line {
        RuleLine::Nasch { brake } => rule_with_rest(nasch(alloc, brake), rest),
        RuleLine::Vdr { moving, stopped } => rule_with_rest(vdr(alloc, moving, stopped), rest),
        RuleLine::Rickert { brake, crossing } => {
            if lanes.count == 1 {
                Err(lanes.too_few().at(number, LineNames::none()))
            } else {
                rule_with_rest(rickert(alloc, brake, crossing), rest)
            }
        }
        RuleLine::Own => own_rule(alloc, lanes, rest),
    }
}

/// Reads a rule: a line `rule ..`, and its programs if it is `rule own`.
pub fn rule(alloc: Global, lanes: Lanes, rest: Rest<'_>) -> Result<(Rule, Rest<'_>), Refusal<'_>>
    ensures reported { Reports (rule lanes.count rest.entry) result }
    ensures suits { IfOk result (λ found. IsRuleFor lanes.count found.0) }
{
    let number = rest.number();
    let (line, rest) = rest.read_line(LineName::Rule, read_rule_line)?;
    rule_from(alloc, lanes, number, line, rest)
}

/// Reads the next line, `at s rule ..`. `room` is the number of later rules that may still come, including this one;
/// the step must be at least `least` and below `steps`.
fn read_later_line(
    room: u32,
    steps: u32,
    least: u32,
    rest: Rest<'_>,
) -> Result<((u32, RuleLine<Chance>), Rest<'_>), Refusal<'_>>
    ensures reported { Reports (line (exactly (later_line room steps least)) rest.entry) result }
    ensures room { OnOk result (0 < room) }
    ensures rises { IfOk result (λ found. least ≤ found.0.0) }
    ensures in_range { IfOk result (λ found. found.0.0 < steps) }
{
    rest.read_line(
        LineName::At,
        |text| read_later_rule_line(room, steps, least, text),
    )
}

/// Reads a later rule. Returns the step from which it applies, the rule and the rest.
fn later_rule(
    alloc: Global,
    room: u32,
    lanes: Lanes,
    steps: u32,
    least: u32,
    rest: Rest<'_>,
) -> Result<((u32, Rule), Rest<'_>), Refusal<'_>>
    ensures reported { Reports (later_rule room lanes.count steps least rest.entry) result }
    ensures room { OnOk result (0 < room) }
    ensures rises { IfOk result (λ found. least ≤ found.0.0) }
    ensures in_range { IfOk result (λ found. found.0.0 < steps) }
    ensures suits { IfOk result (λ found. IsRuleFor lanes.count found.0.1) }
{
    let number = rest.number();
    let ((from, line), rest) = read_later_line(room, steps, least, rest)?;
    let (rule, rest) = rule_from(alloc, lanes, number, line, rest)?;
    Ok(((from, rule), rest))
}

/// Reads the later rules, up to the end of the text. Their steps increase and are below `steps`.
pub fn later_rules(
    alloc: Global,
    lanes: Lanes,
    steps: u32,
    mut rest: Rest<'_>,
) -> Result<(Vec<(u32, Rule)>, Rest<'_>), Refusal<'_>>
    ensures reported { Reports (later_rules lanes.count steps rest.entry)
        (result_map_both (λ found. (found.0.items, found.1)) (λ fault. fault) result) }
    ensures later { IfOk result (λ found. AreLaterRules lanes.count steps 0 found.0.items) }
{
    let mut later = Vec::new(alloc);
    let mut room = MAX_LATER;
    let mut least = 0;
    while !rest.is_end() {
        let ((from, rule), after) = later_rule(alloc, room, lanes, steps, least, rest)?;
        if later.push((from, rule)).is_err() {
            return Err(Refusal::memory());
        }
        room -= 1;
        least = from + 1;
        rest = after;
    }
    Ok((later, rest))
}
