//! The text form of explanations, below their heads.

use crate::body::{Body, Number, Problem};
use crate::causes::cause_meaning;
use crate::sentence::Draft;
use trlab_code::CodeFault;
use trlab_road::RoadFault;
use trlab_texts::Cause;

/// Adds the cause of an error, what was expected, and the instruction of a program in bytes or the cell of a lane.
fn push_problem(text: &mut Draft, problem: &Problem) {
    let number = problem.cause.number();
    let meaning = cause_meaning(problem.cause);
    writeln!(text, "Cause {number}: {meaning}");
    let before_others = match problem.cause {
        Cause::Program(_) => "",
        _ => "or ",
    };
    text.push_lines("Expected: ", before_others, &problem.expected);
    match problem.cause {
        Cause::Code(CodeFault::Opcode(pc) | CodeFault::Field(pc)) => {
            writeln!(text, "Instruction {pc}, counted from 0.")
        }
        Cause::Road(
            RoadFault::Character { place, .. } | RoadFault::SpeedAboveLimit { place, .. },
        ) => writeln!(text, "Cell {place}, counted from 0."),
        _ => {}
    }
}

fn push_numbers(text: &mut Draft, numbers: &[Number]) {
    for number in numbers {
        if number.front.is_empty() && number.after.is_empty() {
            continue;
        }
        write!(text, "{}{}", number.front, number.amount);
        text.push_str(number.after);
        if !number.key.is_empty() {
            text.push_str("\n");
        }
    }
}

fn push_facts(text: &mut Draft, body: &Body) {
    if !body.known.is_empty() {
        text.push_line("Known before it:");
    }
    text.push_lines("", "", &body.known);
    text.push_lines("", "", &body.facts);
    if !body.table.is_empty() {
        text.push_line("What the verifier knows before each instruction:");
    }
    for known in &body.table {
        text.push_str("\n");
        text.push_lines("before ", "", &known.instruction);
        if known.facts.is_empty() {
            text.push_line("    nothing");
        }
        text.push_lines("    ", "    ", &known.facts);
    }
}

/// Adds advice, the problem that was found, and a repair or where to look.
fn push_help(text: &mut Draft, body: &Body) {
    if let Some(rejection) = &body.rejection {
        writeln!(text, "Advice: {}", rejection.advice);
    }
    if let Some(problem) = &body.problem {
        text.push_lines("Found: ", "", &problem.found);
        if !problem.hint.is_empty() {
            writeln!(text, "Check: {}", problem.hint);
        }
    }
    if let Some(found) = &body.repair {
        writeln!(text, "Repair: {}", found.repair.mistake);
        text.push_lines("", "", &found.how);
    }
}

/// Adds a body as text.
pub fn push_text(text: &mut Draft, body: &Body) {
    if !body.intro.is_empty() {
        text.push_line(body.intro);
    }
    if let Some(problem) = &body.problem {
        push_problem(text, problem);
    }
    if let Some(rejection) = &body.rejection {
        text.push_lines("", "", &rejection.instruction);
        writeln!(text, "Reason {}: {}", rejection.reason, rejection.meaning);
    }
    let numbers = body.numbers.as_slice();
    let (above, below) = numbers.split_at(body.numbers_above.min(numbers.len()));
    push_numbers(text, above);
    push_facts(text, body);
    push_numbers(text, below);
    push_help(text, body);
}
