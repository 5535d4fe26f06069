//! The names of registers, inputs and instructions: one table each, for reading and for printing.

ghost use Rattle.std.specs.Prelude.{◌≡◌, ℕ, List, bytes_eq};
ghost use Rattle.std.specs.List.{find};
ghost use Rattle.trlab_asm.specs.Names.{register_text, input_text, mnemonic_text, register_named, input_named, mnemonic_named};

use trlab_code::{Input, Register};

/// All registers, in the order of their numbers.
pub const REGISTERS: [Register; 8] = [
    Register::R0,
    Register::R1,
    Register::R2,
    Register::R3,
    Register::R4,
    Register::R5,
    Register::R6,
    Register::R7,
];

/// All inputs, in the order of their numbers.
pub const INPUTS: [Input; 7] = [
    Input::Speed,
    Input::Limit,
    Input::Gap,
    Input::SideGap,
    Input::SideBack,
    Input::Lane,
    Input::Headspeed,
];

/// An instruction without its operands.
#[derive(Clone, Copy, PartialEq, Eq)]
pub enum Mnemonic {
    Num,
    Get,
    Side,
    Draw,
    Copy,
    Add,
    Sub,
    Mul,
    Div,
    Min,
    Max,
    Not,
    And,
    Or,
    Jump,
    JumpLess,
    JumpAtMost,
    JumpTrue,
    JumpFalse,
    Go,
    Cross,
    Stay,
}

/// The mnemonics of all instructions.
pub const MNEMONICS: [Mnemonic; 22] = [
    Mnemonic::Num,
    Mnemonic::Get,
    Mnemonic::Side,
    Mnemonic::Draw,
    Mnemonic::Copy,
    Mnemonic::Add,
    Mnemonic::Sub,
    Mnemonic::Mul,
    Mnemonic::Div,
    Mnemonic::Min,
    Mnemonic::Max,
    Mnemonic::Not,
    Mnemonic::And,
    Mnemonic::Or,
    Mnemonic::Jump,
    Mnemonic::JumpLess,
    Mnemonic::JumpAtMost,
    Mnemonic::JumpTrue,
    Mnemonic::JumpFalse,
    Mnemonic::Go,
    Mnemonic::Cross,
    Mnemonic::Stay,
];

/// The name of a register: `r0` to `r7`.
pub fn register_text(register: Register) -> &'static [u8]
    ensures { result.now ≡ register_text register }
{
    match register {
        Register::R0 => b"r0",
        Register::R1 => b"r1",
        Register::R2 => b"r2",
        Register::R3 => b"r3",
        Register::R4 => b"r4",
        Register::R5 => b"r5",
        Register::R6 => b"r6",
        Register::R7 => b"r7",
    }
}

/// The name of an input, for example `sidegap`.
pub fn input_text(input: Input) -> &'static [u8]
    ensures { result.now ≡ input_text input }
{
    match input {
        Input::Speed => b"speed",
        Input::Limit => b"limit",
        Input::Gap => b"gap",
        Input::SideGap => b"sidegap",
        Input::SideBack => b"sideback",
        Input::Lane => b"lane",
        Input::Headspeed => b"headspeed",
    }
}

/// The name of an instruction, for example `jlt`.
pub fn mnemonic_text(name: Mnemonic) -> &'static [u8]
    ensures { result.now ≡ mnemonic_text name }
{
    match name {
        Mnemonic::Num => b"num",
        Mnemonic::Get => b"get",
        Mnemonic::Side => b"side",
        Mnemonic::Draw => b"draw",
        Mnemonic::Copy => b"copy",
        Mnemonic::Add => b"add",
        Mnemonic::Sub => b"sub",
        Mnemonic::Mul => b"mul",
        Mnemonic::Div => b"div",
        Mnemonic::Min => b"min",
        Mnemonic::Max => b"max",
        Mnemonic::Not => b"not",
        Mnemonic::And => b"and",
        Mnemonic::Or => b"or",
        Mnemonic::Jump => b"jump",
        Mnemonic::JumpLess => b"jlt",
        Mnemonic::JumpAtMost => b"jle",
        Mnemonic::JumpTrue => b"jtrue",
        Mnemonic::JumpFalse => b"jfalse",
        Mnemonic::Go => b"go",
        Mnemonic::Cross => b"cross",
        Mnemonic::Stay => b"stay",
    }
}

/// A value with a name in program texts.
pub trait HasText: Copy {
    ghost name: { Self → List ℕ };

    fn text(self) -> &'static [u8]
        ensures { result.now ≡ name self };
}

impl HasText for Register {
    ghost name = { register_text };

    fn text(self) -> &'static [u8] {
        register_text(self)
    }
}

impl HasText for Input {
    ghost name = { input_text };

    fn text(self) -> &'static [u8] {
        input_text(self)
    }
}

impl HasText for Mnemonic {
    ghost name = { mnemonic_text };

    fn text(self) -> &'static [u8] {
        mnemonic_text(self)
    }
}

/// The first value in `all` whose name is this word; `None` if there is none.
fn first_named<X: HasText>(all: &[X], word: &[u8]) -> Option<X>
    ensures { result ≡ find (λ x. bytes_eq (X.name x) word.now) all.now }
{
    all.iter().copied().find(|x| x.text() == word)
}

pub(crate) fn register_named(word: &[u8]) -> Option<Register>
    ensures { result ≡ register_named word.now }
{
    first_named(&REGISTERS, word)
}

pub(crate) fn input_named(word: &[u8]) -> Option<Input>
    ensures { result ≡ input_named word.now }
{
    first_named(&INPUTS, word)
}

/// The instruction whose name is this word; `None` if there is none.
pub fn mnemonic_named(word: &[u8]) -> Option<Mnemonic>
    ensures { result ≡ mnemonic_named word.now }
{
    first_named(&MNEMONICS, word)
}
