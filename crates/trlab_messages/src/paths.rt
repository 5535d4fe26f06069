//! Paths through accepted programs, in which control only goes forward.

use trlab_code::{Instr, MAX_INSTRUCTIONS};

/// Some instructions of a program, by their indices.
#[derive(Clone, Copy)]
pub struct Instructions {
    is_member: [bool; MAX_INSTRUCTIONS],
}

impl Instructions {
    /// The set of one instruction.
    fn only(pc: usize) -> Instructions {
        let mut instructions = Instructions {
            is_member: [false; MAX_INSTRUCTIONS],
        };
        instructions.add(pc);
        instructions
    }

    fn add(&mut self, pc: usize) {
        if let Some(is_member) = self.is_member.get_mut(pc) {
            *is_member = true;
        }
    }

    /// Whether the instruction `pc` is one of them.
    pub fn has(&self, pc: usize) -> bool {
        self.is_member.get(pc) == Some(&true)
    }
}

/// The instructions on the paths that begin at `start`, with `start` itself. One pass over the program finds them,
/// because control only goes forward.
pub fn reached_from(instrs: &[Instr], start: usize) -> Instructions {
    let mut reached = Instructions::only(start);
    for pc in start..instrs.len() {
        if let Some(instr) = instrs.get(pc)
            && reached.has(pc)
        {
            if instr.falls() {
                reached.add(pc.saturating_add(1));
            }
            if let Some(target) = instr.target() {
                reached.add(target as usize);
            }
        }
    }
    reached
}
