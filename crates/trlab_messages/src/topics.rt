//! The pages of causes and reasons.

use crate::causes::{cause_hint, cause_meaning};
use crate::reasons::{advice, reason_meaning};
use crate::sentence::Draft;
use trlab_code::Kind;
use trlab_notes::Reason;
use trlab_texts::Cause;

/// Adds the last line of a page; `numbers` is `causes` or `reasons`. The advice to explain a file is left out if no
/// input has this number.
fn push_end(text: &mut Draft, numbers: &str, can_occur: bool) {
    if can_occur {
        text.push_str("To find it in your file: `trlab explain < FILE`. ");
    }
    writeln!(text, "All {numbers}: docs/ERRORS.md.");
}

fn push_advice(text: &mut Draft, reason: Reason) {
    let motion = advice(reason, Kind::Motion);
    let change = advice(reason, Kind::Change);
    if motion == change {
        writeln!(text, "Advice: {motion}");
    } else {
        writeln!(text, "Advice for a motion program: {motion}");
        writeln!(text, "Advice for a change program: {change}");
    }
}

/// Adds the page of a cause, after its number.
pub fn push_cause(text: &mut Draft, cause: Cause) {
    text.push_line(cause_meaning(cause));
    if let Cause::Verdict(number) = cause
        && let Some(reason) = Reason::from_number(number)
    {
        writeln!(text, "The reason: {}", reason_meaning(reason));
        push_advice(text, reason);
    }
    let check = cause_hint(cause);
    if !check.is_empty() {
        writeln!(text, "Check: {check}");
    }
    push_end(text, "causes", cause != Cause::StandardRefused);
}

/// Adds the page of a reason, after its number.
pub fn push_reason(text: &mut Draft, reason: Reason) {
    text.push_line(reason_meaning(reason));
    push_advice(text, reason);
    push_end(text, "reasons", true);
}
