//! The parts of an explanation, from which both the text form and the JSON form are written.

use crate::Result;
use crate::amount::Amount;
use crate::fault::ByteSpan;
use crate::repairs::RepairInWords;
use crate::sentence::Draft;
use std::alloc::{AllocError, Global};
use trlab_jobs::Subject;
use trlab_texts::Cause;

/// A number that a valid input determines. The text form puts it between two phrases, on a line of its own. A
/// number without a key is only in the text form, on the line of the next number, and one without phrases only in the
/// JSON form.
#[derive(Clone, Copy)]
pub struct Number {
    /// The name of its member in the JSON form.
    pub key: &'static str,
    /// The phrase before it in the text form.
    pub front: &'static str,
    pub amount: Amount,
    /// The phrase after it in the text form.
    pub after: &'static str,
}

impl Number {
    /// A whole number with the phrases around it.
    pub fn whole(
        key: &'static str,
        front: &'static str,
        value: u64,
        after: &'static str,
    ) -> Number {
        Number {
            key,
            front,
            amount: Amount::of(value, 1, 0),
            after,
        }
    }
}

/// The first error of an input, as its reader found it.
#[derive(Drop)]
pub struct Problem {
    pub cause: Cause,
    pub line_number: u32,
    /// The line, as the text form quotes it; `None` at the end of the input.
    pub text: Option<Draft>,
    /// The bytes at fault in the line. `None` means the whole line.
    pub span: Option<ByteSpan>,
    /// The forms that would be valid, one per line.
    pub expected: Draft,
    /// The problem in words; empty if the meaning of the cause is enough.
    pub found: Draft,
    /// Where to look if nothing was found and no repair helps; otherwise empty.
    pub hint: &'static str,
}

/// The instruction at which the verifier rejects a program, and why.
#[derive(Drop)]
pub struct Rejection {
    /// The instruction, counted from 0.
    pub pc: u32,
    /// The number of its line; 1 for a program in bytes.
    pub line_number: u32,
    /// The instruction as it is written.
    pub text: Draft,
    /// The instruction after the number of its line, as in the text form.
    pub instruction: Draft,
    pub reason: u32,
    pub meaning: &'static str,
    pub advice: &'static str,
}

/// An instruction of an accepted program, and the facts that are known before it, one per line.
#[derive(Drop)]
pub struct InstructionFacts {
    /// The number of its line; 0 for a program in bytes.
    pub line_number: u32,
    pub instruction: Draft,
    pub facts: Draft,
}

/// An explanation without its status, the line that the command prints and the line at fault.
#[derive(Drop)]
pub struct Body {
    pub alloc: Global,
    /// The kind of input it is read as.
    pub subject: Subject,
    /// The first line of the text form; may be empty.
    pub intro: &'static str,
    pub problem: Option<Problem>,
    pub rejection: Option<Rejection>,
    /// The facts known before the rejected instruction, and the missing one, one per line.
    pub known: Draft,
    /// The paths to the rejected instruction, or the rules of a valid input, one per line.
    pub facts: Draft,
    pub table: Vec<InstructionFacts>,
    /// The numbers of a valid input.
    pub numbers: Vec<Number>,
    /// How many of them come above the facts in the text form.
    pub numbers_above: usize,
    /// A repair that helps.
    pub repair: Option<RepairInWords>,
    has_failed: bool,
}

impl Body {
    /// An empty body.
    pub fn new(alloc: Global, subject: Subject) -> Body {
        Body {
            alloc,
            subject,
            intro: "",
            problem: None,
            rejection: None,
            known: Draft::new(alloc),
            facts: Draft::new(alloc),
            table: Vec::new(alloc),
            numbers: Vec::new(alloc),
            numbers_above: 0,
            repair: None,
            has_failed: false,
        }
    }

    /// Returns the value, or remembers that its allocation failed.
    pub fn ok_or_remember_failure<T>(&mut self, value: Result<T>) -> Option<T> {
        self.has_failed |= value.is_err();
        value.ok()
    }

    /// Adds numbers of a valid input.
    pub fn add_numbers(&mut self, numbers: &[Number]) {
        self.has_failed |= self.numbers.extend_from_slice(numbers).is_err();
    }

    /// Adds an instruction of an accepted program.
    pub fn add_instruction_facts(&mut self, known: InstructionFacts) {
        self.has_failed |= self.table.push(known).is_err();
    }

    /// Reports a failure that the body remembers. Its drafts report their own failures when they are read.
    ///
    /// # Errors
    ///
    /// If an allocation failed.
    pub fn outcome(&self) -> Result<()> {
        if self.has_failed {
            Err(AllocError)
        } else {
            Ok(())
        }
    }
}
