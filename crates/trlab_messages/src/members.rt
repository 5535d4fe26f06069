//! The JSON form of explanations: the members that describe the input, its error and its work.

use crate::body::{Body, InstructionFacts, Number, Problem, Rejection};
use crate::causes::cause_meaning;
use crate::fault::ByteSpan;
use crate::object_writer::{
    ObjectWriter, add_amount, add_count, add_lines, add_string, add_words, begin_member,
};
use crate::repairs::{Change, RepairInWords, command_of};
use crate::sentence::{Draft, Shown};
use json::Token;
use trlab_code::CodeFault;
use trlab_texts::Cause;

/// The version of the JSON form, which its first member states.
const FORMAT: u64 = 1;

/// Adds the first and the last byte of a span, counted from 1.
fn add_span<W: ObjectWriter>(out: &mut W, span: Option<ByteSpan>) {
    match span {
        Some(ByteSpan { start, length }) => {
            add_count(out, "first", (start as u64).saturating_add(1));
            add_count(out, "last", start.saturating_add(length) as u64);
        }
        None => {
            begin_member(out, "first", Token::Null);
            begin_member(out, "last", Token::Null);
        }
    }
}

/// Adds the error that the reader of the input found, and the verifier's reason if it rejects a program there.
fn add_problem<W: ObjectWriter>(out: &mut W, problem: &Problem, rejection: Option<&Rejection>) {
    add_words(out, "kind", Ok("cause"));
    add_count(out, "number", problem.cause.number());
    add_words(out, "meaning", Ok(cause_meaning(problem.cause)));
    add_count(out, "line", u64::from(problem.line_number));
    match &problem.text {
        Some(line) => add_string(out, "text", line.text()),
        None => begin_member(out, "text", Token::Null),
    }
    add_span(out, problem.span);
    let advice = match rejection {
        Some(rejection) => {
            add_count(out, "pc", u64::from(rejection.pc));
            begin_member(out, "reason", Token::BeginObject);
            add_count(out, "number", u64::from(rejection.reason));
            add_words(out, "meaning", Ok(rejection.meaning));
            add_words(out, "instruction", rejection.instruction.text());
            out.token(Ok(Token::EndObject));
            rejection.advice
        }
        None => {
            match problem.cause {
                Cause::Code(CodeFault::Opcode(pc) | CodeFault::Field(pc)) => {
                    add_count(out, "pc", u64::from(pc))
                }
                _ => begin_member(out, "pc", Token::Null),
            }
            begin_member(out, "reason", Token::Null);
            problem.hint
        }
    };
    add_words(out, "found", problem.found.text());
    add_lines(out, "expected", &[&problem.expected]);
    add_words(out, "advice", Ok(advice));
}

/// Adds the error that the verifier found in the program of a check.
fn add_rejection<W: ObjectWriter>(out: &mut W, rejection: &Rejection) {
    add_words(out, "kind", Ok("reason"));
    add_count(out, "number", u64::from(rejection.reason));
    add_words(out, "meaning", Ok(rejection.meaning));
    add_count(out, "line", u64::from(rejection.line_number));
    add_words(out, "text", rejection.text.text());
    add_span(out, None);
    add_count(out, "pc", u64::from(rejection.pc));
    begin_member(out, "reason", Token::Null);
    begin_member(out, "found", Token::Null);
    add_lines(out, "expected", &[]);
    add_words(out, "advice", Ok(rejection.advice));
}

/// Adds the facts known before each instruction of an accepted program.
fn add_table<W: ObjectWriter>(out: &mut W, table: &[InstructionFacts]) {
    begin_member(out, "known", Token::BeginArray);
    for known in table {
        out.token(Ok(Token::BeginObject));
        add_count(out, "line", u64::from(known.line_number));
        add_words(out, "instruction", known.instruction.text());
        add_lines(out, "facts", &[&known.facts]);
        out.token(Ok(Token::EndObject));
    }
    out.token(Ok(Token::EndArray));
}

/// Adds an edit: its line, its span in the line and the replacement.
fn add_edit<W: ObjectWriter>(out: &mut W, line_number: u32, removed: ByteSpan, replacement: &[u8]) {
    out.token(Ok(Token::BeginObject));
    add_count(out, "line", u64::from(line_number));
    add_span(out, Some(removed));
    let mut words = Draft::new(out.alloc());
    write!(words, "{}", Shown(replacement));
    add_string(out, "replacement", words.text());
    out.token(Ok(Token::EndObject));
}

/// Adds the edits that replace each of two neighbouring lines by the other one.
fn add_swap<W: ObjectWriter>(out: &mut W, line_number: u32, first: &[u8], second: &[u8]) {
    let upper = ByteSpan {
        start: 0,
        length: second.len(),
    };
    let lower = ByteSpan {
        start: 0,
        length: first.len(),
    };
    add_edit(out, line_number, upper, first);
    add_edit(out, line_number.saturating_add(1), lower, second);
}

/// Adds the edits that delete lines, from the line `first` on.
fn add_deletion<W: ObjectWriter>(out: &mut W, first: u32, lines: &Draft) {
    let mut number = first;
    match lines.text() {
        Ok(text) => {
            for line in text.split_inclusive('\n') {
                let length = line.chars().count();
                add_edit(out, number, ByteSpan { start: 0, length }, b"");
                number = number.saturating_add(1);
            }
        }
        Err(error) => out.token(Err(error)),
    }
}

/// Adds a repair: its edits with their lines, spans and replacements, or another command that reads the input.
fn add_repair<W: ObjectWriter>(out: &mut W, found: &RepairInWords) {
    out.token(Ok(Token::BeginObject));
    add_words(out, "why", Ok(found.repair.mistake));
    match &found.repair.change {
        Change::ReadAs(other) => {
            add_words(out, "command", Ok(command_of(*other)));
            add_lines(out, "edits", &[]);
        }
        Change::Edited(edit) => {
            begin_member(out, "command", Token::Null);
            begin_member(out, "edits", Token::BeginArray);
            match edit.swapped_lines() {
                Some((first, second)) => add_swap(out, found.line_number, first, second),
                None if !found.deleted.is_empty() => {
                    add_deletion(out, found.line_number, &found.deleted)
                }
                None => {
                    let removed = ByteSpan {
                        start: found.before,
                        length: edit.removed,
                    };
                    add_edit(out, found.line_number, removed, &edit.inserted);
                }
            }
            out.token(Ok(Token::EndArray));
        }
    }
    out.token(Ok(Token::EndObject));
}

fn add_numbers<W: ObjectWriter>(out: &mut W, numbers: &[Number]) {
    if numbers.is_empty() {
        return begin_member(out, "numbers", Token::Null);
    }
    begin_member(out, "numbers", Token::BeginObject);
    for number in numbers {
        if !number.key.is_empty() {
            add_amount(out, number.key, number.amount);
        }
    }
    out.token(Ok(Token::EndObject));
}

/// Adds the error of an input, if it has one.
fn add_error<W: ObjectWriter>(out: &mut W, body: &Body) {
    let (problem, rejection) = (body.problem.as_ref(), body.rejection.as_ref());
    if problem.is_none() && rejection.is_none() {
        return begin_member(out, "error", Token::Null);
    }
    begin_member(out, "error", Token::BeginObject);
    if let Some(problem) = problem {
        add_problem(out, problem, rejection);
    } else if let Some(rejection) = rejection {
        add_rejection(out, rejection);
    }
    out.token(Ok(Token::EndObject));
}

/// Begins an object, with a body as its members.
pub fn add_body<W: ObjectWriter>(out: &mut W, body: &Body) {
    out.token(Ok(Token::BeginObject));
    add_count(out, "format", FORMAT);
    add_words(out, "command", Ok(command_of(body.subject)));
    add_error(out, body);
    add_lines(out, "facts", &[&body.known, &body.facts]);
    add_table(out, &body.table);
    begin_member(out, "repairs", Token::BeginArray);
    if let Some(found) = &body.repair {
        add_repair(out, found);
    }
    out.token(Ok(Token::EndArray));
    add_numbers(out, &body.numbers);
}
