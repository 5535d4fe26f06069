//! The instructions of driver programs.

ghost use Rattle.std.specs.Prelude.{◌≡◌, ◌<◌};

use trlab_bounds::programs::VARIABLES;

/// One of the eight registers.
#[derive(Clone, Copy, Debug, PartialEq, Eq)]
pub enum Register {
    R0,
    R1,
    R2,
    R3,
    R4,
    R5,
    R6,
    R7,
}

impl Register {
    ghost use Rattle.trlab_code.specs.Machine.{register_number};

    /// The number of the register: 0 to 7.
    pub fn number(self) -> usize
        ensures value { result ≡ register_number self }
        ensures in_range { result < 8 }
    {
        self as usize
    }
}

/// A number that a car sees. Only programs of kind `Change` see the other lane and the number of the car's lane.
#[derive(Clone, Copy, Debug, PartialEq, Eq)]
pub enum Input {
    /// The car's speed before the step, in cells per step.
    Speed,
    /// The maximum speed on this road.
    Limit,
    /// The empty cells ahead on the car's own lane.
    Gap,
    /// The empty cells ahead on the other lane.
    SideGap,
    /// The empty cells behind on the other lane.
    SideBack,
    /// The car's lane, 0 or 1.
    Lane,
    /// The speed of the next car ahead on the car's own lane; its own speed if there is no other.
    Headspeed,
}

impl Input {
    ghost use Rattle.trlab_code.specs.Machine.{input_number};

    /// The number of the input: 0 to 6.
    pub fn number(self) -> usize
        ensures value { result ≡ input_number self }
        ensures in_range { result < 7 }
    {
        self as usize
    }
}

/// A variable of a program: a register, which it writes and reads, or an input, which it reads.
#[derive(Clone, Copy, Debug, PartialEq, Eq)]
pub enum Variable {
    Register(Register),
    Input(Input),
}

impl Variable {
    ghost use Rattle.trlab_code.specs.Machine.{variable_number};

    /// The number of the variable: registers are 0 to 7, inputs 8 to 14.
    pub fn number(self) -> usize
        ensures value { result ≡ variable_number self }
        ensures in_range { result < VARIABLES }
    {
        match self {
            Variable::Register(register) => register.number(),
            Variable::Input(input) => 8 + input.number(),
        }
    }
}

/// An instruction. If it writes, its first register receives the result.
///
/// The target of a jump is the index of an instruction. `Go`, `Cross` and `Stay` end the program.
#[derive(Clone, Copy)]
pub enum Instr {
    /// A number.
    Num(Register, u32),
    /// The value of an input in the car's view.
    Get(Register, Input),
    /// A flag: whether the car's side cell is empty.
    Side(Register),
    /// A flag: whether an event happens on the random word of this index, 0 to 15. The last number is the event's
    /// probability times 2^31.
    Draw(Register, u8, u32),
    /// The number or flag in a register.
    Copy(Register, Register),
    /// The sum of two registers.
    Add(Register, Register, Register),
    /// The difference of two registers.
    Sub(Register, Register, Register),
    /// A register times a number.
    Mul(Register, Register, u32),
    /// A register divided by a number above 0, rounded down.
    Div(Register, Register, u32),
    /// The smaller of two registers.
    Min(Register, Register, Register),
    /// The larger of two registers.
    Max(Register, Register, Register),
    /// Whether a flag is false.
    Not(Register, Register),
    /// Whether both flags are true.
    And(Register, Register, Register),
    /// Whether at least one of two flags is true.
    Or(Register, Register, Register),
    /// A jump.
    Jump(u32),
    /// A jump if the first register is less than the second.
    JumpLess(Register, Register, u32),
    /// A jump if the first register is at most the second.
    JumpAtMost(Register, Register, u32),
    /// A jump if the flag is true.
    JumpTrue(Register, u32),
    /// A jump if the flag is false.
    JumpFalse(Register, u32),
    /// The end of a motion program: the car's new speed.
    Go(Register),
    /// An end of a change program: the car crosses.
    Cross,
    /// An end of a change program: the car stays on its lane.
    Stay,
}

impl Instr {
    ghost use Rattle.trlab_code.specs.Flow.{destination, falls, target};

    /// The register that the instruction writes; `None` if it writes none.
    pub fn destination(self) -> Option<Register>
        ensures { result ≡ destination self }
    {
        match self {
            Instr::Num(dest, _)
            | Instr::Get(dest, _)
            | Instr::Side(dest)
            | Instr::Draw(dest, _, _)
            | Instr::Copy(dest, _)
            | Instr::Add(dest, _, _)
            | Instr::Sub(dest, _, _)
            | Instr::Mul(dest, _, _)
            | Instr::Div(dest, _, _)
            | Instr::Min(dest, _, _)
            | Instr::Max(dest, _, _)
            | Instr::Not(dest, _)
            | Instr::And(dest, _, _)
            | Instr::Or(dest, _, _) => Some(dest),
            _ => None,
        }
    }

    /// The target of a jump: the index of an instruction, counted from 0; `None` for other instructions.
    pub fn target(self) -> Option<u32>
        ensures { result ≡ target self }
    {
        match self {
            Instr::Jump(target)
            | Instr::JumpLess(_, _, target)
            | Instr::JumpAtMost(_, _, target)
            | Instr::JumpTrue(_, target)
            | Instr::JumpFalse(_, target) => Some(target),
            _ => None,
        }
    }

    /// Whether the program may continue with the next instruction; true for conditional jumps.
    pub fn falls(self) -> bool
        ensures { result ≡ falls self }
    {
        !matches!(
            self,
            Instr::Jump(_) | Instr::Go(_) | Instr::Cross | Instr::Stay
        )
    }
}
