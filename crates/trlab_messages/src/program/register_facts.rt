//! The verifier's facts about a register, in words.

use crate::sentence::{Draft, Shown};
use trlab_asm::{INPUTS, REGISTERS, input_text, register_text};
use trlab_code::{Kind, Register, VARIABLES};
use trlab_notes::{AbstractValue, entry_values, level_between};
use trlab_verify::{Mark, Note};

/// The name of a variable: a register or an input.
fn variable_text(variable: usize) -> &'static [u8] {
    if variable < REGISTERS.len() {
        register_text(REGISTERS[variable])
    } else if variable - REGISTERS.len() < INPUTS.len() {
        input_text(INPUTS[variable - REGISTERS.len()])
    } else {
        b""
    }
}

/// The level of a number of at most `high` to a variable, as far as their ranges determine it: 2 if it must be below
/// the variable, 1 if it must be at most the variable, and otherwise 0.
fn level_of_ranges(note: &Note, inputs: &[AbstractValue], variable: usize, high: u32) -> u8 {
    let value = match note.regs.get(variable) {
        Some(Mark::Num(low, most)) => AbstractValue::Between(*low, *most),
        Some(_) => AbstractValue::Unknown,
        None => inputs
            .get(variable)
            .copied()
            .unwrap_or(AbstractValue::Unknown),
    };
    level_between(AbstractValue::Between(0, high), value, false, 0)
}

/// Adds the variables that bound a register from above, unless the bound follows from the ranges.
fn push_orders(fact: &mut Draft, note: &Note, register: Register, high: u32) {
    let bounded = register.number();
    // A change program has all inputs, and a motion program's inputs have the same ranges in it.
    let inputs = entry_values(Kind::Change);
    for variable in 0..VARIABLES {
        let level = note.levels[bounded][variable];
        if variable == bounded || level <= level_of_ranges(note, &inputs, variable, high) {
            continue;
        }
        let order = if level == 1 { "at most" } else { "below" };
        let name = Shown(variable_text(variable));
        write!(fact, ", {order} {name}");
    }
}

/// Adds a line with a note's fact about a register: the range of its number, or that it holds a flag or may be unset.
pub fn push_register_fact(facts: &mut Draft, note: &Note, register: Register) {
    write!(facts, "{}: ", Shown(register_text(register)));
    match note.regs[register.number()] {
        Mark::Unset => facts.push_line("not set on every path"),
        Mark::Num(low, high) => {
            write!(facts, "{low}..{high}");
            push_orders(facts, note, register, high);
            facts.push_str("\n");
        }
        Mark::Flag(implies_side) if implies_side || note.side => {
            facts.push_line("a flag; if true, the side cell is empty")
        }
        Mark::Flag(_) => facts.push_line("a flag"),
    }
}
