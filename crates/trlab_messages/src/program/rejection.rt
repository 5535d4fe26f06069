//! Rejected programs: the instruction, the reason, the facts known before it, and advice.

use crate::body::{Body, Rejection};
use crate::program::Listing;
use crate::program::register_facts::push_register_fact;
use crate::reasons::{advice_at, reason_meaning};
use crate::sentence::{Draft, Quoted, Shown};
use std::alloc::Global;
use trlab_asm::register_text;
use trlab_code::{Instr, Register};
use trlab_notes::{Operands, Reason};
use trlab_verify::{Mark, Note, notes_of_rejected};

/// Adds the facts about the registers that an instruction reads.
fn push_operands(known: &mut Draft, note: &Note, instr: Instr) {
    let (first, second) = match Operands::of(instr) {
        Operands::Nothing => return,
        Operands::Value(a) | Operands::Number(a) | Operands::Flag(a) => (a, a),
        Operands::Numbers(a, b) | Operands::Flags(a, b) => (a, b),
    };
    push_register_fact(known, note, first);
    if first != second {
        push_register_fact(known, note, second);
    }
}

/// The maximum of a register's range, or 0 if it does not hold a number.
fn maximum_of(note: &Note, register: Register) -> u64 {
    match note.regs[register.number()] {
        Mark::Num(_, high) => u64::from(high),
        _ => 0,
    }
}

/// Adds how large the result of an instruction may be.
fn push_largest(known: &mut Draft, largest: u64) {
    writeln!(known, "The result may be as large as {largest}.");
}

/// Adds a sentence on why the known facts are not enough to accept an instruction; only some reasons have such a
/// sentence.
fn push_obstacle(known: &mut Draft, reason: Reason, note: &Note, instr: Instr) {
    match (reason, instr) {
        (Reason::MaybeTooLarge, Instr::Add(_, a, b)) => {
            push_largest(
                known,
                maximum_of(note, a).saturating_add(maximum_of(note, b)),
            )
        }
        (Reason::MaybeTooLarge, Instr::Mul(_, a, n)) => {
            push_largest(known, maximum_of(note, a).saturating_mul(u64::from(n)))
        }
        (Reason::MaybeBelowZero, Instr::Sub(_, a, b)) => {
            let (a, b) = (Shown(register_text(a)), Shown(register_text(b)));
            writeln!(
                known,
                "{b} is not known to be at most {a}, so {a} - {b} may be negative."
            )
        }
        (Reason::MaybeAboveGap | Reason::MaybeAboveLimit, Instr::Go(a)) => {
            let name = Shown(register_text(a));
            let bound = if reason == Reason::MaybeAboveGap {
                "gap"
            } else {
                "limit"
            };
            writeln!(known, "{name} is not known to be at most the {bound}.")
        }
        _ => {}
    }
}

/// Whether control can pass from one instruction to another.
fn leads_to(program: Listing<'_>, from: u32, to: u32) -> bool {
    match program.code.instrs().get(from as usize) {
        Some(instr) => {
            let continues = instr.falls() && from.checked_add(1) == Some(to);
            continues || instr.target() == Some(to)
        }
        None => false,
    }
}

/// Adds the instructions from which control can pass to the rejected one, if there are several.
fn push_paths(facts: &mut Draft, program: Listing<'_>, rejected: u32) {
    let paths = (0..rejected).filter(|pc| leads_to(program, *pc, rejected));
    if paths.count() < 2 {
        return;
    }
    facts.push_line("Several paths lead here; only facts that hold on all of them are kept:");
    for pc in 0..rejected {
        if leads_to(program, pc, rejected) {
            program.push_instruction(facts, pc);
            facts.push_str("\n");
        }
    }
}

/// The instruction at which a program is rejected, and why.
fn rejection_at(alloc: Global, program: Listing<'_>, pc: u32, reason: Reason) -> Rejection {
    let mut text = Draft::new(alloc);
    write!(text, "{}", Quoted(program.line(pc).line));
    let mut instruction = Draft::new(alloc);
    program.push_instruction(&mut instruction, pc);
    let instr = program.code.instrs().get(pc as usize).copied();
    Rejection {
        pc,
        line_number: program.line_number(pc, 1),
        text,
        instruction,
        reason: reason.number(),
        meaning: reason_meaning(reason),
        advice: advice_at(reason, program.code.kind(), instr),
    }
}

/// Adds why a program with these notes is rejected at an instruction.
fn add_reason(body: &mut Body, program: Listing<'_>, notes: &[Note], pc: u32, reason: Reason) {
    body.rejection = Some(rejection_at(body.alloc, program, pc, reason));
    if reason == Reason::Unreachable {
        let facts = &mut body.facts;
        facts.push_line("The instruction above never continues here, and no jump comes here:");
        program.push_instruction(facts, pc.saturating_sub(1));
        return facts.push_str("\n");
    }
    let instr = program.code.instrs().get(pc as usize);
    if let (Some(note), Some(instr)) = (notes.get(pc as usize), instr) {
        push_operands(&mut body.known, note, *instr);
        push_obstacle(&mut body.known, reason, note, *instr);
    }
    push_paths(&mut body.facts, program, pc);
}

/// Adds why a program is rejected at an instruction.
pub fn add_rejection(body: &mut Body, program: Listing<'_>, pc: u32, reason: Reason) {
    let notes = notes_of_rejected(body.alloc, program.code);
    if let Some(Some(notes)) = body.ok_or_remember_failure(notes) {
        add_reason(body, program, &notes, pc, reason);
    }
}
