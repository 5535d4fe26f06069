//! Instructions as rows of eight bytes.

ghost use Rattle.std.specs.Prelude.{◌≡◌, ◌+◌, ◌≤◌, ◌↔◌, length, take, drop, IsTrue, IsNone, IfSome, ℕ};
ghost use Rattle.trlab_code.specs.Machine.{register_number, input_number};
ghost use Rattle.trlab_code.specs.Program.{IsInRange, VersionAllows};
ghost use Rattle.trlab_code.specs.Encoding.{row, row_of, row_bytes, IsOpcode};

use crate::instruction::{Input, Instr, Register};
use crate::program::{is_in_range, is_of_version};
use trlab_bounds::programs::INSTR_BYTES;

/// The row of an instruction: its opcode, three one-byte fields and a number. Unused fields are 0.
#[derive(Clone, Copy, PartialEq)]
pub(crate) struct InstructionRow {
    pub opcode: u8,
    pub a: u8,
    pub b: u8,
    pub c: u8,
    pub number: u32,
}

impl InstructionRow {
    /// Reads the row that starts at an index of the bytes.
    pub(crate) fn read(bytes: &[u8], start: usize) -> InstructionRow
        requires { start + INSTR_BYTES ≤ length bytes.now }
        ensures { row_bytes result ≡ take INSTR_BYTES (drop start bytes.now) }
    {
        let row = &bytes[start..start + INSTR_BYTES];
        InstructionRow {
            opcode: row[0],
            a: row[1],
            b: row[2],
            c: row[3],
            number: u32::from_le_bytes([row[4], row[5], row[6], row[7]]),
        }
    }

    /// The bytes of the row, the number's lowest byte first.
    pub(crate) fn bytes(self) -> [u8; INSTR_BYTES]
        ensures { result ≡ row_bytes self }
    {
        let [low, second, third, high] = self.number.to_le_bytes();
        [
            self.opcode,
            self.a,
            self.b,
            self.c,
            low,
            second,
            third,
            high,
        ]
    }
}

/// The register with this number; any register if there is none.
fn register_of(byte: u8) -> Register
    ensures { (register : Register) → byte ≡ register_number register → result ≡ register }
{
    match byte {
        0 => Register::R0,
        1 => Register::R1,
        2 => Register::R2,
        3 => Register::R3,
        4 => Register::R4,
        5 => Register::R5,
        6 => Register::R6,
        _ => Register::R7,
    }
}

/// The input with this number; any input if there is none.
fn input_of(byte: u8) -> Input
    ensures { (input : Input) → byte ≡ input_number input → result ≡ input }
{
    match byte {
        0 => Input::Speed,
        1 => Input::Limit,
        2 => Input::Gap,
        3 => Input::SideGap,
        4 => Input::SideBack,
        5 => Input::Lane,
        _ => Input::Headspeed,
    }
}

/// A row without registers.
fn no_registers(opcode: u8, number: u32) -> InstructionRow
    ensures { result ≡ row opcode 0 0 0 number }
{
    InstructionRow {
        opcode,
        a: 0,
        b: 0,
        c: 0,
        number,
    }
}

/// A row with one register.
fn one_register(opcode: u8, a: Register, number: u32) -> InstructionRow
    ensures { result ≡ row opcode (register_number a) 0 0 number }
{
    InstructionRow {
        a: a.number() as u8,
        ..no_registers(opcode, number)
    }
}

/// A row with two registers.
fn two_registers(opcode: u8, a: Register, b: Register, number: u32) -> InstructionRow
    ensures { result ≡ row opcode (register_number a) (register_number b) 0 number }
{
    InstructionRow {
        b: b.number() as u8,
        ..one_register(opcode, a, number)
    }
}

/// A row with three registers.
fn three_registers(opcode: u8, a: Register, b: Register, c: Register) -> InstructionRow
    ensures { result ≡ row opcode (register_number a) (register_number b) (register_number c) 0 }
{
    InstructionRow {
        c: c.number() as u8,
        ..two_registers(opcode, a, b, 0)
    }
}

/// A row with a register and a byte.
fn register_and_byte(opcode: u8, a: Register, b: u8, number: u32) -> InstructionRow
    ensures { result ≡ row opcode (register_number a) b 0 number }
{
    InstructionRow {
        b,
        ..one_register(opcode, a, number)
    }
}

/// Encodes an instruction as a row.
pub(crate) fn row_of(instr: Instr) -> InstructionRow
    ensures { result ≡ row_of instr }
{
    match instr {
        Instr::Num(d, n) => one_register(0x01, d, n),
        Instr::Get(d, k) => register_and_byte(0x02, d, k.number() as u8, 0),
        Instr::Side(d) => one_register(0x03, d, 0),
        Instr::Draw(d, k, t) => register_and_byte(0x04, d, k, t),
        Instr::Copy(d, a) => two_registers(0x05, d, a, 0),
        Instr::Add(d, a, b) => three_registers(0x06, d, a, b),
        Instr::Sub(d, a, b) => three_registers(0x07, d, a, b),
        Instr::Mul(d, a, n) => two_registers(0x08, d, a, n),
        Instr::Div(d, a, n) => two_registers(0x09, d, a, n),
        Instr::Min(d, a, b) => three_registers(0x0a, d, a, b),
        Instr::Max(d, a, b) => three_registers(0x0b, d, a, b),
        Instr::Not(d, a) => two_registers(0x0c, d, a, 0),
        Instr::And(d, a, b) => three_registers(0x0d, d, a, b),
        Instr::Or(d, a, b) => three_registers(0x0e, d, a, b),
        Instr::Jump(t) => no_registers(0x0f, t),
        Instr::JumpLess(a, b, t) => two_registers(0x10, a, b, t),
        Instr::JumpAtMost(a, b, t) => two_registers(0x11, a, b, t),
        Instr::JumpTrue(a, t) => one_register(0x12, a, t),
        Instr::JumpFalse(a, t) => one_register(0x13, a, t),
        Instr::Go(a) => one_register(0x14, a, 0),
        Instr::Cross => no_registers(0x15, 0),
        Instr::Stay => no_registers(0x16, 0),
    }
}

impl PartialEq for Instr {
    ghost use Rattle.std.proofs.Common.{rules};
    ghost use Rattle.std.specs.Prelude.{nat_eq};
    ghost use Rattle.std.specs.Ordering.{on, eq_of_both};
    ghost use Rattle.std.specs.Cmp.Rules.{comparing};
    ghost use Rattle.trlab_code.specs.Encoding.{row_of};

    ghost eq = { on row_of (eq_of_both (on (λ row. row.opcode) nat_eq) (eq_of_both (on (λ row. row.a) nat_eq)
        (eq_of_both (on (λ row. row.b) nat_eq) (eq_of_both (on (λ row. row.c) nat_eq)
        (on (λ row. row.number) nat_eq))))) };

    ghost laws = { Prim.search (comparing, rules) depth 8 };

    /// Instructions are equal if their rows are.
    fn eq(&self, other: &Instr) -> bool {
        row_of(*self) == row_of(*other)
    }
}

impl Eq for Instr {
    ghost use Rattle.std.proofs.Common.{rules};
    ghost use Rattle.std.specs.Cmp.Rules.{comparing};

    ghost laws = { Prim.search (comparing, rules) depth 8 };
}

/// The only instruction that can have this row; any instruction if none has it.
fn candidate(row: InstructionRow) -> Instr
    ensures { (instr : Instr) → row ≡ row_of instr → result ≡ instr }
{
    let x = register_of(row.a);
    let y = register_of(row.b);
    let z = register_of(row.c);
    let number = row.number;
    match row.opcode {
        0x01 => Instr::Num(x, number),
        0x02 => Instr::Get(x, input_of(row.b)),
        0x03 => Instr::Side(x),
        0x04 => Instr::Draw(x, row.b, number),
        0x05 => Instr::Copy(x, y),
        0x06 => Instr::Add(x, y, z),
        0x07 => Instr::Sub(x, y, z),
        0x08 => Instr::Mul(x, y, number),
        0x09 => Instr::Div(x, y, number),
        0x0a => Instr::Min(x, y, z),
        0x0b => Instr::Max(x, y, z),
        0x0c => Instr::Not(x, y),
        0x0d => Instr::And(x, y, z),
        0x0e => Instr::Or(x, y, z),
        0x0f => Instr::Jump(number),
        0x10 => Instr::JumpLess(x, y, number),
        0x11 => Instr::JumpAtMost(x, y, number),
        0x12 => Instr::JumpTrue(x, number),
        0x13 => Instr::JumpFalse(x, number),
        0x14 => Instr::Go(x),
        0x15 => Instr::Cross,
        _ => Instr::Stay,
    }
}

/// Whether this is the row of the instruction.
fn is_row_of(row: InstructionRow, instr: Instr) -> bool
    ensures { IsTrue result ↔ (row ≡ row_of instr) }
{
    row_of(instr) == row
}

/// Decodes a row. `None` if the opcode is unknown, a field is out of range, an unused field is not 0, or the version
/// does not have the instruction.
pub(crate) fn instruction_of(row: InstructionRow, version: u8) -> Option<Instr>
    ensures none { IsNone result → (instr : Instr) → row ≡ row_of instr → IsInRange instr
        → ¬ (VersionAllows version instr) }
    ensures some { IfSome result (λ instr.
        (row ≡ row_of instr) × IsInRange instr × VersionAllows version instr) }
{
    let instr = candidate(row);
    if is_row_of(row, instr) && is_in_range(instr) && is_of_version(instr, version) {
        Some(instr)
    } else {
        None
    }
}

/// Whether a byte is the opcode of an instruction.
pub(crate) fn is_opcode(byte: u8) -> bool
    ensures { IsTrue result ↔ IsOpcode byte }
{
    0x01 <= byte && byte <= 0x16
}
