//! Programs: the facts known in an accepted one, and why the verifier rejects one.

mod draws;
mod register_facts;
mod rejection;

use crate::Result;
use crate::body::{Body, InstructionFacts, Number};
use crate::fault::Fault;
use crate::lines::{NumberedLine, UnreadLines};
use crate::program::draws::push_program_draws;
pub use crate::program::draws::push_rule_draws;
use crate::program::register_facts::push_register_fact;
use crate::program::rejection::add_rejection;
use crate::sentence::{Draft, Quoted};
use std::alloc::{AllocError, Global};
use trlab_asm::{REGISTERS, disassemble};
use trlab_code::Code;
use trlab_lines::Place;
use trlab_notes::Reason;
use trlab_texts::Wanted;
use trlab_texts::word::without_prefix;
use trlab_verify::{Mark, Note, notes};

/// The verifier's verdict on a program.
#[derive(Clone, Copy)]
pub enum ProgramVerdict {
    /// It is accepted: a car runs at most `budget` instructions per step.
    Accepted { budget: u32 },
    /// It is rejected at instruction `pc`, counted from 0, for the reason with this number.
    Rejected { pc: u32, reason: u32 },
}

/// A program with the lines of its instructions, from the input or, for a program in bytes, from the canonical form.
#[derive(Clone, Copy)]
pub struct Listing<'a> {
    code: &'a Code,
    /// The lines of its instructions, in their order.
    lines: &'a [NumberedLine<'a>],
    /// The number of its first line.
    first_line: u32,
    /// Whether the program is in bytes, on a line `code X`.
    is_in_bytes: bool,
}

impl<'a> Listing<'a> {
    /// The line of an instruction.
    fn line(&self, pc: u32) -> NumberedLine<'a> {
        let found = self.lines.get(pc as usize).copied();
        found.unwrap_or(NumberedLine {
            number: 0,
            line: b"",
        })
    }

    /// The number of an instruction's line. The instructions of a program in bytes have no lines, so the caller gives
    /// the number for them.
    fn line_number(&self, pc: u32, number_in_bytes: u32) -> u32 {
        if self.is_in_bytes {
            number_in_bytes
        } else {
            self.line(pc).number
        }
    }

    /// Adds an instruction after `line N: `, or after `instruction N: ` for a program in bytes.
    fn push_instruction(&self, text: &mut Draft, pc: u32) {
        let NumberedLine { number, line } = self.line(pc);
        let line = Quoted(line);
        if self.is_in_bytes {
            write!(text, "instruction {pc}: {line}");
        } else {
            write!(text, "line {number}: {line}");
        }
    }
}

/// An instruction of an accepted program, and its note's facts about each register that is set and about the side
/// cell.
fn facts_before(alloc: Global, program: Listing<'_>, pc: u32, note: &Note) -> InstructionFacts {
    let mut instruction = Draft::new(alloc);
    program.push_instruction(&mut instruction, pc);
    let mut facts = Draft::new(alloc);
    for i in 0..REGISTERS.len() {
        if note.regs[i] != Mark::Unset {
            push_register_fact(&mut facts, note, REGISTERS[i]);
        }
    }
    if note.side {
        facts.push_line("the side cell is empty");
    }
    InstructionFacts {
        line_number: program.line_number(pc, 0),
        instruction,
        facts,
    }
}

/// Adds the budget of an accepted program, and the facts known before each instruction.
fn add_accepted(body: &mut Body, program: Listing<'_>, budget: u32) {
    // Only the JSON form needs this number: the text form has the sentence in the head.
    body.add_numbers(&[Number::whole("budget", "", u64::from(budget), "")]);
    let pushed = push_program_draws(body.alloc, &mut body.facts, program);
    body.ok_or_remember_failure(pushed);
    // An accepted program has notes, so making them fails only if an allocation fails.
    let table = notes(body.alloc, program.code).map_err(|_| AllocError);
    let Some(table) = body.ok_or_remember_failure(table) else {
        return;
    };
    let mut pc = 0u32;
    for note in &table {
        body.add_instruction_facts(facts_before(body.alloc, program, pc, note));
        pc = pc.saturating_add(1);
    }
}

/// The canonical form of a program in bytes; none if the program has lines of instructions in the input.
fn canonical_form(alloc: Global, code: &Code, first_line: &[u8]) -> Result<Option<Vec<u8>>> {
    let line = without_prefix(b"notes ", first_line).unwrap_or(first_line);
    if without_prefix(b"code ", line).is_none() {
        return Ok(None);
    }
    Ok(Some(disassemble(alloc, code)?))
}

/// The lines of a program's instructions: of its canonical form, or else of the input below its first line.
fn instruction_lines<'a>(
    alloc: Global,
    code: &Code,
    canonical: &'a Option<Vec<u8>>,
    below: UnreadLines<'a>,
) -> Result<Vec<NumberedLine<'a>>> {
    let mut lines = match canonical {
        Some(text) => UnreadLines::below(0, text),
        None => below,
    };
    lines.read_instructions(alloc, code.instrs().len())
}

/// Adds the verdict on a program; `place` is its first line.
fn add_verdict(body: &mut Body, code: &Code, place: &Place<'_>, verdict: ProgramVerdict) {
    let canonical = canonical_form(body.alloc, code, place.line.unwrap_or(b""));
    let Some(canonical) = body.ok_or_remember_failure(canonical) else {
        return;
    };
    let below = UnreadLines::below(place.number, place.below());
    let lines = instruction_lines(body.alloc, code, &canonical, below);
    let Some(lines) = body.ok_or_remember_failure(lines) else {
        return;
    };
    let program = Listing {
        code,
        lines: &lines,
        first_line: place.number,
        is_in_bytes: canonical.is_some(),
    };
    match verdict {
        ProgramVerdict::Accepted { budget } => add_accepted(body, program, budget),
        ProgramVerdict::Rejected { pc, reason } => {
            if let Some(reason) = Reason::from_number(reason) {
                add_rejection(body, program, pc, reason);
            }
        }
    }
}

/// Adds why the verifier rejects the program of a job or sweep that begins at the fault.
pub fn add_rejected_part(body: &mut Body, fault: &Fault<'_>, reason: u32) {
    if let Wanted::Program { code, at } = fault.wanted {
        let verdict = ProgramVerdict::Rejected { pc: *at, reason };
        add_verdict(body, code, &fault.place, verdict);
    }
}

/// Adds the verdict on the program of a check.
pub fn add_program(body: &mut Body, text: &[u8], code: &Code, verdict: ProgramVerdict) {
    add_verdict(body, code, &Place::at(text, 1), verdict);
}
