//! Programs: a kind and a list of instructions.

ghost use Rattle.std.specs.Prelude.{◌≡◌, ◌↔◌, IsTrue, MatchOption, IfSome};
ghost use Rattle.std.specs.List.{list_any};
ghost use Rattle.trlab_code.specs.Program.{Program, IsInRange, IsValidProgram, VersionAllows, reads_headspeed, version_of};

use crate::instruction::{Input, Instr};
use std::marker::Model;
use trlab_bounds::programs::{CERTAIN, HEADSPEED_VERSION, MAX_INSTRUCTIONS, PLAIN_VERSION, WORDS};

/// The kind of a driver program, named after the decision that it makes.
#[derive(Clone, Copy, Debug, PartialEq, Eq)]
pub enum Kind {
    /// The speed of a car, and with it how far the car goes in this step.
    Motion,
    /// Whether a car crosses to the other lane.
    Change,
}

/// A program of 1 to 128 instructions whose fields are in range.
pub struct Code {
    kind: Kind,
    instrs: Vec<Instr>,
}

// Not derived: a derived drop is proved again, field by field, wherever the value goes out of scope.
impl Drop for Code {
    fn drop(self) {
        let Code {
            kind: _kind,
            instrs: _instrs,
        } = self;
    }
}

impl Model for Code {
    ghost use Rattle.trlab_code.specs.Program.{Program, IsValidProgram};

    ghost Value = { Program };

    ghost view = { λ code. record { kind = code.kind; instrs = code.instrs.items } };

    ghost invariant = { λ code. IsValidProgram (record { kind = code.kind; instrs = code.instrs.items }) };
}

/// Whether the fields of an instruction are in range.
pub(crate) fn is_in_range(instr: Instr) -> bool
    ensures { IsTrue result ↔ IsInRange instr }
{
    match instr {
        Instr::Draw(_, word, chance) => usize::from(word) < WORDS && chance <= CERTAIN,
        Instr::Div(_, _, divisor) => 1 <= divisor,
        _ => true,
    }
}

/// Whether an instruction reads the speed of the next car ahead.
fn reads_headspeed(instr: Instr) -> bool
    ensures { result ≡ reads_headspeed instr }
{
    matches!(instr, Instr::Get(_, Input::Headspeed))
}

/// Whether one of the instructions reads the speed of the next car ahead.
fn some_reads_headspeed(instrs: &[Instr]) -> bool
    ensures { result ≡ list_any reads_headspeed instrs.now }
{
    instrs.iter().any(|instr| reads_headspeed(*instr))
}

/// Whether an encoding of this version may contain the instruction.
pub(crate) fn is_of_version(instr: Instr, version: u8) -> bool
    ensures { IsTrue result ↔ VersionAllows version instr }
{
    version == HEADSPEED_VERSION || !reads_headspeed(instr)
}

impl Code {
    /// A program with these instructions; `None` unless there are 1 to 128 and their fields are in range.
    pub fn new(kind: Kind, instrs: Vec<Instr>) -> Option<Code>
        ensures exact { let program : Program = record { kind = kind; instrs = instrs.items } in
            MatchOption result (¬ (IsValidProgram program)) (λ code. code ≡ program) }
        ensures program { IfSome result IsValidProgram }
    {
        if instrs.is_empty() || instrs.len() > MAX_INSTRUCTIONS {
            return None;
        }
        if instrs.iter().all(|instr| is_in_range(*instr)) {
            Some(Code { kind, instrs })
        } else {
            None
        }
    }

    /// A program with these instructions, whose number and fields are known to be in range.
    pub(crate) fn from_valid(kind: Kind, instrs: Vec<Instr>) -> Code
        requires { IsValidProgram (record { kind = kind; instrs = instrs.items }) }
        ensures { result ≡ record { kind = kind; instrs = instrs.items } }
    {
        Code { kind, instrs }
    }

    /// The kind of the program.
    pub fn kind(&self) -> Kind
        ensures { result ≡ self.now.kind }
    {
        self.kind
    }

    /// The instructions in their order.
    pub fn instrs(&self) -> &[Instr]
        ensures value { result.now ≡ self.now.instrs }
        ensures program { IsValidProgram self.now }
    {
        &self.instrs
    }

    /// The version of the program's encoding: 2 if it reads `Input::Headspeed`, else 1.
    pub fn version(&self) -> u8
        ensures { result ≡ version_of self.now }
    {
        if some_reads_headspeed(&self.instrs) {
            HEADSPEED_VERSION
        } else {
            PLAIN_VERSION
        }
    }
}
