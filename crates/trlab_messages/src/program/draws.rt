//! The draws of accepted programs: their probabilities, and the random words that a car may use twice in a step.

use crate::Result;
use crate::lines::UnreadLines;
use crate::paths::{Instructions, reached_from};
use crate::probability::push_probability;
use crate::program::{Listing, canonical_form, instruction_lines};
use crate::sentence::{Draft, Quoted};
use std::alloc::Global;
use std::fmt;
use trlab_code::{Code, Instr, WORDS};
use trlab_rules::Rule;

/// An instruction `draw` of a program.
#[derive(Clone, Copy)]
struct Draw {
    /// The instruction, counted from 0.
    pc: usize,
    /// The number of its line, or of the line `code X` of its program.
    line_number: u32,
    is_in_bytes: bool,
    /// The index of its random word.
    word: u8,
    /// The instructions that may follow it on a path.
    reached: Instructions,
}

impl Draw {
    /// Whether a path goes through both draws, which are of one program.
    fn shares_path(&self, other: &Draw) -> bool {
        self.pc != other.pc && (self.reached.has(other.pc) || other.reached.has(self.pc))
    }
}

impl fmt::Display for Draw {
    fn fmt<W: fmt::Write>(&self, f: &mut fmt::Formatter<W>) -> fmt::Result {
        let line = self.line_number;
        write!(f, "{line}")?;
        if self.is_in_bytes {
            let pc = self.pc;
            write!(f, " (instruction {pc})")?;
        }
        Ok(())
    }
}

/// Adds the draws of a program, each with its probability, and returns them.
fn push_draws(alloc: Global, facts: &mut Draft, program: Listing<'_>) -> Result<Vec<Draw>> {
    let instrs = program.code.instrs();
    let mut draws = Vec::new(alloc);
    for (pc, instr) in instrs.iter().enumerate() {
        if let Instr::Draw(_, word, parts) = *instr {
            let draw = Draw {
                pc,
                line_number: program.line_number(pc as u32, program.first_line),
                is_in_bytes: program.is_in_bytes,
                word,
                reached: reached_from(instrs, pc),
            };
            let line = Quoted(program.line(pc as u32).line);
            writeln!(facts, "line {draw}: {line}");
            push_probability(facts, "p", parts);
            draws.push(draw)?;
        }
    }
    Ok(draws)
}

/// Whether one of these draws uses this random word.
fn uses(draws: &[Draw], word: u8) -> bool {
    draws.iter().any(|draw| draw.word == word)
}

/// Adds to `repeated` each draw of a program with this random word, if a car may run another draw with the same word in
/// the same step: one on the same path, or any in the other program of the rule if that also uses the word
/// (`is_used_elsewhere`).
fn add_repeated(
    repeated: &mut Vec<Draw>,
    draws: &[Draw],
    word: u8,
    is_used_elsewhere: bool,
) -> Result<()> {
    for draw in draws {
        if draw.word != word {
            continue;
        }
        let mut others = draws.iter().filter(|other| other.word == word);
        if is_used_elsewhere || others.any(|other| draw.shares_path(other)) {
            repeated.push(*draw)?;
        }
    }
    Ok(())
}

/// Adds a warning about draws that use the same random word.
fn push_warning(facts: &mut Draft, word: u8, draws: &[Draw]) {
    facts.push_str("Warning: lines ");
    let last = draws.len().saturating_sub(1);
    for (place, draw) in draws.iter().enumerate() {
        let separator = match place {
            0 => "",
            _ if place == last => " and ",
            _ => ", ",
        };
        write!(facts, "{separator}{draw}");
    }
    write!(
        facts,
        " use random word {word}. If a car runs more than one of them in a step, "
    );
    facts.push_line("they see the same random number. Use a different word for each decision.");
}

/// Adds a warning for each random word that a car may draw twice in a step, because the car may run both programs.
fn push_repeated_words(
    alloc: Global,
    facts: &mut Draft,
    motion: &[Draw],
    change: &[Draw],
) -> Result<()> {
    for word in 0..WORDS as u8 {
        let mut repeated = Vec::new(alloc);
        add_repeated(&mut repeated, motion, word, uses(change, word))?;
        add_repeated(&mut repeated, change, word, uses(motion, word))?;
        if !repeated.is_empty() {
            push_warning(facts, word, &repeated);
        }
    }
    Ok(())
}

/// Adds the draws of an accepted program of a check, if it has any.
pub fn push_program_draws(alloc: Global, facts: &mut Draft, program: Listing<'_>) -> Result<()> {
    let mut found = Draft::new(alloc);
    let draws = push_draws(alloc, &mut found, program)?;
    if !draws.is_empty() {
        facts.push_line("Random draws:");
        facts.push_lines("", "", &found);
        push_repeated_words(alloc, facts, &draws, &[])?;
    }
    Ok(())
}

/// Reads the lines of a program of a job or sweep, adds its draws, and returns them.
fn push_draws_below(
    alloc: Global,
    facts: &mut Draft,
    lines: &mut UnreadLines<'_>,
    code: &Code,
) -> Result<Vec<Draw>> {
    let Some(first) = lines.read() else {
        return Ok(Vec::new(alloc));
    };
    let canonical = canonical_form(alloc, code, first.line)?;
    let listed = instruction_lines(alloc, code, &canonical, *lines)?;
    if canonical.is_none() {
        lines.read_to(b"end");
    }
    let program = Listing {
        code,
        lines: &listed,
        first_line: first.number,
        is_in_bytes: canonical.is_some(),
    };
    push_draws(alloc, facts, program)
}

/// Reads the programs of a line `rule own`, which are on the lines below it, and adds their draws.
pub fn push_rule_draws(
    alloc: Global,
    facts: &mut Draft,
    lines: &mut UnreadLines<'_>,
    rule: &Rule,
) -> Result<()> {
    let motion = push_draws_below(alloc, facts, lines, rule.motion().code())?;
    let change = match rule.change() {
        Some(change) => push_draws_below(alloc, facts, lines, change.code())?,
        None => Vec::new(alloc),
    };
    push_repeated_words(alloc, facts, &motion, &change)
}
