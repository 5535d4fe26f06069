//! The first error of an input: the expected forms, the problem, and a repair.

use crate::body::{Body, Problem};
use crate::causes::cause_hint;
use crate::forms::{EXPECTED_OF_CHECK, INSTRUCTIONS, form_of_instruction, form_of_line};
use crate::names::line_named;
use crate::problem::{describe_problem, span_of};
use crate::program::add_rejected_part;
use crate::repairs::{Repair, RepairInWords};
use crate::sentence::{Draft, Quoted};
use trlab_asm::{Why, mnemonic_named};
use trlab_jobs::Subject;
use trlab_lines::{Place, name_and_operands};
use trlab_texts::word::head_word;
use trlab_texts::{Cause, Excerpt, LineName, Wanted};

/// Some bytes of a line.
#[derive(Clone, Copy)]
pub struct ByteSpan {
    /// The number of bytes before them.
    pub start: usize,
    pub length: usize,
}

impl ByteSpan {
    /// The span of an excerpt in its line.
    pub fn of(excerpt: &Excerpt<'_>) -> ByteSpan {
        let (_, start) = excerpt.place();
        ByteSpan {
            start,
            length: excerpt.bytes().len(),
        }
    }
}

/// The first fault of an input.
#[derive(Clone, Copy)]
pub struct Fault<'a> {
    /// The kind of input it is read as.
    pub subject: Subject,
    /// Where the fault is.
    pub place: Place<'a>,
    /// The line at fault, which is empty at the end of the input.
    pub line: &'a [u8],
    pub cause: Cause,
    /// The lines or values that its reader wanted there.
    pub wanted: &'a Wanted<'a>,
}

impl<'a> Fault<'a> {
    /// Whether a line of this name would be valid instead of the one at fault.
    pub fn wants(&self, name: LineName) -> bool {
        matches!(self.wanted, Wanted::Lines(names) if names.has(name))
    }
}

/// The first line of the explanation of an error.
fn intro_of(subject: Subject) -> &'static str {
    match subject {
        Subject::Job => "Read as a job (`trlab run`).",
        Subject::Sweep => "Read as a sweep (`trlab sweep`).",
        Subject::Check => "Read as a driver program (`trlab check`).",
    }
}

/// Adds the forms of the lines of a job or sweep that would be valid at a fault.
fn push_line_forms(forms: &mut Draft, fault: &Fault<'_>) {
    let own_name = line_named(head_word(fault.line));
    for name in &LineName::ALL {
        let is_valid = match fault.wanted {
            Wanted::Lines(names) => names.has(*name),
            // A value is wrong, not the name of its line.
            _ => own_name == Some(*name),
        };
        if is_valid {
            forms.push_line(form_of_line(*name));
        }
    }
}

/// Adds the forms that would be valid at a fault, if the meaning of the cause does not contain them already.
fn push_forms(forms: &mut Draft, fault: &Fault<'_>) {
    match fault.cause {
        Cause::Line | Cause::Number | Cause::Key | Cause::Order => match fault.subject {
            Subject::Check => forms.push_line(EXPECTED_OF_CHECK),
            Subject::Job | Subject::Sweep => push_line_forms(forms, fault),
        },
        Cause::Program(Why::Word) => forms.push_line(INSTRUCTIONS),
        Cause::Program(Why::Operand | Why::Number) => {
            if let Some(name) = mnemonic_named(name_and_operands(fault.line).0) {
                forms.push_line(form_of_instruction(name));
                forms.push_line("Registers are r0 to r7.");
            }
        }
        _ => {}
    }
}

/// Where to look for an error if nothing was found and no repair helps.
fn hint_of(fault: &Fault<'_>) -> &'static str {
    let may_begin_program = fault.wants(LineName::Motion) || fault.wants(LineName::Change);
    if may_begin_program && mnemonic_named(name_and_operands(fault.line).0).is_some() {
        "the line above. A program begins with `motion` or `change`."
    } else {
        cause_hint(fault.cause)
    }
}

/// The problem at a fault. Set the body's repair first: a problem with neither words nor a repair gets a hint.
fn problem_at(body: &Body, fault: &Fault<'_>) -> Problem {
    let mut found = Draft::new(body.alloc);
    describe_problem(&mut found, fault);
    let mut expected = Draft::new(body.alloc);
    push_forms(&mut expected, fault);
    let mut text = Draft::new(body.alloc);
    write!(text, "{}", Quoted(fault.line));
    let is_clear = body.repair.is_some() || !found.is_empty();
    Problem {
        cause: fault.cause,
        line_number: fault.place.number,
        text: if fault.place.line.is_some() {
            Some(text)
        } else {
            None
        },
        span: span_of(fault),
        expected,
        found,
        hint: if is_clear { "" } else { hint_of(fault) },
    }
}

/// Adds the first error of an input, and a repair if one helps.
pub fn add_fault(body: &mut Body, fault: &Fault<'_>, repair: Option<Repair>) {
    // An input that is too large or empty is rejected the same way, whichever command reads it.
    if fault.cause != Cause::TooBig && !fault.place.text.is_empty() {
        body.intro = intro_of(fault.subject);
    }
    if let Cause::Verdict(reason) = fault.cause {
        add_rejected_part(body, fault, reason);
    }
    if let Some(repair) = repair {
        body.repair = Some(RepairInWords::new(body.alloc, &fault.place, repair));
    }
    body.problem = Some(problem_at(body, fault));
}
