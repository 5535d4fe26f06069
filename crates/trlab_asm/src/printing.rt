//! The disassembler: prints a program in its canonical form.

ghost use Rattle.std.specs.Prelude.{◌≡◌, ◌++◌, decimal, OnOk, Ok, IfOk};
ghost use Rattle.trlab_code.specs.Laws.{FitsIn32Bits};
ghost use Rattle.trlab_asm.specs.Canonical.{operand_text, target_text, ◌comma◌, with_operands, operation_text, instr_text, instr_line, is_pc, is_jumped_to, canonical_text};
ghost use Rattle.trlab_code.specs.Flow.{target};
ghost use Rattle.trlab_lines.specs.Lines.{lines_of};
ghost use Rattle.trlab_asm.specs.Assembly.{code_of};

use crate::names::{Mnemonic, input_text, mnemonic_text, register_text};
use Operand::{Beyond, Input, Label, Number, Register};
use Operation::{Bare, One, Three, Two};
use std::alloc::{AllocError, Global};
use trlab_code::{Code, Instr};

/// An operand as it is printed. A target is `Label` inside the program and `Beyond` past its end.
#[derive(Clone, Copy)]
enum Operand {
    Register(trlab_code::Register),
    Input(trlab_code::Input),
    Number(u32),
    Label(u32),
    Beyond(u32),
}

/// An instruction as it is printed.
#[derive(Clone, Copy)]
enum Operation {
    Bare(Mnemonic),
    One(Mnemonic, Operand),
    Two(Mnemonic, Operand, Operand),
    Three(Mnemonic, Operand, Operand, Operand),
}

/// The target of a jump in a program of `count` instructions.
fn target_operand(count: usize, pc: u32) -> Operand
    ensures { operand_text result ≡ target_text count pc }
{
    if (pc as usize) < count {
        Label(pc)
    } else {
        Beyond(pc)
    }
}

fn push_number(alloc: Global, out: &mut Vec<u8>, prefix: &str, n: u32) -> Result<(), AllocError>
    ensures { OnOk result (out.new.items ≡ out.old.items ++ (prefix.now ++ decimal n)) }
{
    let text = format!(in alloc; "{prefix}{n}")?;
    out.extend_from_slice(text.as_bytes())
}

fn push_operand(
    alloc: Global,
    out: &mut Vec<u8>,
    prefix: &[u8],
    operand: Operand,
) -> Result<(), AllocError>
    ensures { OnOk result (out.new.items ≡ out.old.items ++ (prefix.now ++ operand_text operand)) }
{
    out.extend_from_slice(prefix)?;
    match operand {
        Register(register) => out.extend_from_slice(register_text(register)),
        Input(input) => out.extend_from_slice(input_text(input)),
        Number(n) => push_number(alloc, out, "", n),
        Label(pc) => push_number(alloc, out, "L", pc),
        Beyond(pc) => push_number(alloc, out, "@", pc),
    }
}

fn push_one(alloc: Global, out: &mut Vec<u8>, name: Mnemonic, a: Operand) -> Result<(), AllocError>
    ensures { OnOk result (out.new.items ≡ out.old.items ++ with_operands name (operand_text a)) }
{
    out.extend_from_slice(mnemonic_text(name))?;
    push_operand(alloc, out, b" ", a)
}

fn push_two(
    alloc: Global,
    out: &mut Vec<u8>,
    name: Mnemonic,
    a: Operand,
    b: Operand,
) -> Result<(), AllocError>
    ensures { OnOk result (out.new.items ≡ out.old.items ++ with_operands name (operand_text a comma operand_text b)) }
{
    push_one(alloc, out, name, a)?;
    push_operand(alloc, out, b", ", b)
}

/// The name and the operands of an instruction in a program of `count` instructions.
fn operation_of(count: usize, instr: Instr) -> Operation
    ensures value { operation_text result ≡ instr_text count instr }

    // Holds for each `u32`.
    ensures word { FitsIn32Bits instr }
{
    match instr {
        Instr::Num(d, n) => Two(Mnemonic::Num, Register(d), Number(n)),
        Instr::Get(d, k) => Two(Mnemonic::Get, Register(d), Input(k)),
        Instr::Side(d) => One(Mnemonic::Side, Register(d)),
        Instr::Draw(d, k, t) => Three(Mnemonic::Draw, Register(d), Number(u32::from(k)), Number(t)),
        Instr::Copy(d, a) => Two(Mnemonic::Copy, Register(d), Register(a)),
        Instr::Add(d, a, b) => Three(Mnemonic::Add, Register(d), Register(a), Register(b)),
        Instr::Sub(d, a, b) => Three(Mnemonic::Sub, Register(d), Register(a), Register(b)),
        Instr::Mul(d, a, n) => Three(Mnemonic::Mul, Register(d), Register(a), Number(n)),
        Instr::Div(d, a, n) => Three(Mnemonic::Div, Register(d), Register(a), Number(n)),
        Instr::Min(d, a, b) => Three(Mnemonic::Min, Register(d), Register(a), Register(b)),
        Instr::Max(d, a, b) => Three(Mnemonic::Max, Register(d), Register(a), Register(b)),
        Instr::Not(d, a) => Two(Mnemonic::Not, Register(d), Register(a)),
        Instr::And(d, a, b) => Three(Mnemonic::And, Register(d), Register(a), Register(b)),
        Instr::Or(d, a, b) => Three(Mnemonic::Or, Register(d), Register(a), Register(b)),
        Instr::Jump(pc) => One(Mnemonic::Jump, target_operand(count, pc)),
        Instr::JumpLess(a, b, pc) => {
            let to = target_operand(count, pc);
            Three(Mnemonic::JumpLess, Register(a), Register(b), to)
        }
        Instr::JumpAtMost(a, b, pc) => {
            let to = target_operand(count, pc);
            Three(Mnemonic::JumpAtMost, Register(a), Register(b), to)
        }
        Instr::JumpTrue(a, pc) => Two(Mnemonic::JumpTrue, Register(a), target_operand(count, pc)),
        Instr::JumpFalse(a, pc) => Two(Mnemonic::JumpFalse, Register(a), target_operand(count, pc)),
        Instr::Go(a) => One(Mnemonic::Go, Register(a)),
        Instr::Cross => Bare(Mnemonic::Cross),
        Instr::Stay => Bare(Mnemonic::Stay),
    }
}

fn push_operation(alloc: Global, out: &mut Vec<u8>, operation: Operation) -> Result<(), AllocError>
    ensures { OnOk result (out.new.items ≡ out.old.items ++ operation_text operation) }
{
    match operation {
        Bare(name) => out.extend_from_slice(mnemonic_text(name)),
        One(name, a) => push_one(alloc, out, name, a),
        Two(name, a, b) => push_two(alloc, out, name, a, b),
        Three(name, a, b, c) => {
            push_two(alloc, out, name, a, b)?;
            push_operand(alloc, out, b", ", c)
        }
    }
}

/// Appends the line of an instruction in a program of `count` instructions; if `is_marked`, its label comes first.
fn push_line(
    alloc: Global,
    out: &mut Vec<u8>,
    count: usize,
    is_marked: bool,
    pc: u32,
    instr: Instr,
) -> Result<(), AllocError>
    ensures line { OnOk result (out.new.items ≡ out.old.items ++ instr_line count is_marked pc instr) }

    // Holds for each `u32`.
    ensures word { FitsIn32Bits instr }
{
    if is_marked {
        push_number(alloc, out, "L", pc)?;
        out.extend_from_slice(b": ")?;
    }
    push_operation(alloc, out, operation_of(count, instr))
}

fn jumps_to(instr: Instr, pc: u32) -> bool
    ensures { result ≡ is_pc pc (target instr) }
{
    match instr.target() {
        Some(target) => target == pc,
        None => false,
    }
}

fn is_jumped_to(instrs: &[Instr], pc: u32) -> bool
    ensures { result ≡ is_jumped_to instrs.now pc }
{
    instrs.iter().any(|instr| jumps_to(*instr, pc))
}

/// The canonical text of a program: one instruction per line, and each line ends with LF.
///
/// A jump's target has a label: `L` and its pc. Operands are separated by a comma and a space. A target past the
/// end of the program is printed as `@` and its pc.
///
/// # Errors
///
/// If an allocation fails.
pub fn disassemble(alloc: Global, code: &Code) -> Result<Vec<u8>, AllocError>
    ensures canonical { IfOk result (λ text. text.items ≡ canonical_text code.now.instrs) }

    ensures again { IfOk result (λ text. code_of code.now.kind (lines_of text.items) ≡ Ok code.now) }
{
    let instrs = code.instrs();
    let mut text = Vec::new(alloc);
    for (pc, instr) in instrs.iter().enumerate() {
        let is_marked = is_jumped_to(instrs, pc as u32);
        push_line(alloc, &mut text, instrs.len(), is_marked, pc as u32, *instr)?;
        text.push(b'\n')?;
    }
    Ok(text)
}
