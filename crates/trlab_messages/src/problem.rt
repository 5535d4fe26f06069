//! The problem at a fault, in words; none if the meaning of the cause is enough.

mod line;
mod program;

use crate::fault::{ByteSpan, Fault};
use crate::instruction::operand_at_fault;
use crate::problem::line::push_line_problem;
use crate::problem::program::{push_program_problem, word_span};
use crate::sentence::{Draft, Quoted};
use trlab_asm::Why;
use trlab_lines::bytes_at;
use trlab_road::RoadFault;
use trlab_texts::word::long_number;
use trlab_texts::{Cause, Wanted};

/// The number of digits of a key.
pub const KEY_DIGITS: usize = 64;

/// The first bytes of a text with a byte order mark.
pub const BYTE_ORDER_MARK: &[u8] = b"\xef\xbb\xbf";

/// The problem with a text that begins with a byte order mark.
pub const WITH_BYTE_ORDER_MARK: &str =
    "the file begins with a byte order mark, which most editors do not show: \
    save it as UTF-8 without a byte order mark, or delete the first three bytes (`tail -c +4 FILE > NEW`).";

/// The number of bytes before the cells in the line of a lane: those of `lane ` with its space.
pub const BEFORE_CELLS: usize = 5;

/// Adds the problem with a word that is not a number from `least` to `most`.
fn push_number_problem(found: &mut Draft, word: &[u8], least: u64, most: u64) {
    let number = long_number(word);
    let word = Quoted(word);
    match number {
        Ok(number) if number < least => {
            write!(found, "`{word}` is less than {least}, the minimum.")
        }
        Ok(_) => write!(found, "`{word}` is more than {most}, the maximum."),
        Err(_) => write!(
            found,
            "`{word}` is not a whole number (1 to 10 digits, no leading zeros)."
        ),
    }
}

/// The position of the first character that is not a hexadecimal digit.
pub fn first_non_hex_digit(word: &[u8]) -> Option<usize> {
    word.iter().position(|byte| !byte.is_ascii_hexdigit())
}

/// Adds the problem with the hexadecimal digits of a key or of a line `code X`.
fn push_digits_problem(found: &mut Draft, word: &[u8], is_key: bool) {
    let count = word.len();
    if is_key && count != KEY_DIGITS {
        return write!(found, "the length of the key is {count}, not 64.");
    }
    match first_non_hex_digit(word) {
        Some(before) => {
            let digit = Quoted(bytes_at(word, before, 1));
            let number = before.saturating_add(1);
            let context = if is_key { "of the key" } else { "after `code`" };
            write!(
                found,
                "`{digit}` (character {number} {context}) is not a hexadecimal digit."
            )
        }
        None => write!(found, "{count} digits, an odd number: each byte takes two."),
    }
}

/// Adds the problem with the length of a lane; `first` is the first lane's length, or 0 if this is the first.
fn push_cells_problem(found: &mut Draft, line: &[u8], first: u32) {
    let cells = line.len().saturating_sub(BEFORE_CELLS);
    if first == 0 {
        write!(found, "the lane has {cells} cells; the maximum is 100000.");
    } else {
        write!(
            found,
            "the first lane has {first} cells, this one has {cells}."
        );
    }
}

/// Adds the number of steps that too many points of `steps` steps need.
fn push_work_problem(found: &mut Draft, points: u32, steps: u32) {
    let needed = u64::from(points).saturating_mul(u64::from(steps));
    if points == 1 {
        write!(
            found,
            "this point needs {needed} steps; the maximum is 500000."
        );
    } else {
        write!(
            found,
            "the first {points} points need {needed} steps; the maximum is 500000."
        );
    }
}

/// Adds the speed of a car that is faster than the maximum speed.
fn push_speed_problem(found: &mut Draft, fault: &Fault<'_>, limit: u32) {
    if let Some(span) = span_of(fault)
        && let Some(car) = fault.line.get(span.start)
        && let Some(speed) = char::from(*car).to_digit(36)
    {
        write!(
            found,
            "the speed of this car is {speed}, and the maximum is {limit}."
        );
    }
}

/// The bytes at fault in their line. `None` means the whole line.
pub fn span_of(fault: &Fault<'_>) -> Option<ByteSpan> {
    let line = fault.line;
    match fault.cause {
        Cause::Road(
            RoadFault::Character { place, .. } | RoadFault::SpeedAboveLimit { place, .. },
        ) => Some(ByteSpan {
            start: BEFORE_CELLS.saturating_add(place as usize),
            length: 1,
        }),
        Cause::Program(Why::Word) => word_span(line),
        Cause::Program(why) => {
            let found = operand_at_fault(line, why)?;
            Some(ByteSpan {
                start: found.at,
                length: found.word.len(),
            })
        }
        _ => match fault.wanted {
            Wanted::Number { word, .. } => Some(ByteSpan::of(word)),
            Wanted::Digits(digits) => Some(ByteSpan::of(digits)),
            _ => None,
        },
    }
}

/// Adds the problem at a fault, unless the meaning of the cause is enough.
pub fn describe_problem(found: &mut Draft, fault: &Fault<'_>) {
    let line = fault.line;
    match fault.wanted {
        Wanted::Lines(names) => push_line_problem(found, fault, *names),
        Wanted::Number {
            word,
            least,
            most,
            ..
        } => push_number_problem(found, word.bytes(), *least, *most),
        Wanted::Digits(digits) => {
            push_digits_problem(found, digits.bytes(), fault.cause == Cause::Key)
        }
        Wanted::Step { least, steps } => write!(
            found,
            "the step must be at least {least} and below {steps}."
        ),
        Wanted::Work { points, steps } => push_work_problem(found, *points, *steps),
        Wanted::Cells { first } => push_cells_problem(found, line, *first),
        Wanted::Speed { limit } => push_speed_problem(found, fault, *limit),
        Wanted::Nothing => {
            if let Cause::Program(why) = fault.cause {
                push_program_problem(found, line, why);
            }
        }
        Wanted::SecondLane { .. } | Wanted::Program { .. } => {}
    }
}
