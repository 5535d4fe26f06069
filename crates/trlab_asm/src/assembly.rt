//! The assembler: the first pass collects labels and instructions, the second one resolves the labels.

ghost use Rattle.std.specs.Prelude.{◌≡◌, ◌≤◌, ◌⊎◌, Ok, length, vec_len, All, MatchResult, IfOk};
ghost use Rattle.trlab_code.specs.Program.{IsInRange};
ghost use Rattle.trlab_bounds.specs.declared.programs.TheConstants.{MAX_INSTRUCTIONS};
ghost use Rattle.trlab_lines.specs.Lines.{lines_of};
ghost use Rattle.trlab_asm.specs.Stored.{pcs, stored_parts};
ghost use Rattle.trlab_asm.specs.Assembly.{no_parts, first_pass, with_target, resolve, second_pass, instrs_of, code_of, IsOutOfMemory};

use crate::fault::{AsmFault, Why};
use crate::parts::{LineDraft, Parts};
use crate::reading::Labels;
use std::alloc::{AllocError, Global};
use trlab_code::{Code, Instr, Kind};
use trlab_lines::next_line;

/// The first pass: collects labels and instructions, or returns the first fault.
fn read_parts(alloc: Global, text: &[u8]) -> Result<Parts<'_>, AsmFault>
    ensures { MatchResult result
        (λ parts. first_pass no_parts 1 (lines_of text.now) ≡ Ok (stored_parts parts))
        (λ fault. (first_pass no_parts 1 (lines_of text.now) ≡ Err fault) ⊎ IsOutOfMemory fault) }
{
    let mut parts = Parts::new(alloc);
    let mut left = text;
    let mut number = 1;
    while let Some((line, rest)) = next_line(left) {
        let content = parts.read_line(number, line)?;
        parts.add(number, content)?;
        left = rest;
        number += 1;
    }
    Ok(parts)
}

/// Replaces the target of a jump; other instructions stay as they are.
fn with_target(pc: u32, instr: Instr) -> Instr
    ensures value { result ≡ with_target pc instr }
    ensures in_range { IsInRange instr → IsInRange result }
{
    match instr {
        Instr::Jump(_) => Instr::Jump(pc),
        Instr::JumpLess(a, b, _) => Instr::JumpLess(a, b, pc),
        Instr::JumpAtMost(a, b, _) => Instr::JumpAtMost(a, b, pc),
        Instr::JumpTrue(a, _) => Instr::JumpTrue(a, pc),
        Instr::JumpFalse(a, _) => Instr::JumpFalse(a, pc),
        _ => instr,
    }
}

/// The instruction of a draft. If it names a label, its target is the label's pc.
fn resolve<'a>(labels: &Labels<'a>, read: &LineDraft<'a>) -> Result<Instr, AsmFault>
    ensures value { result ≡ resolve (pcs labels.now) read.now }
    ensures in_range { IfOk result IsInRange }
{
    let draft = read.draft();
    let Some(name) = draft.label else {
        return Ok(draft.instr);
    };
    match labels.get(name) {
        Some(pc) => Ok(with_target(pc, draft.instr)),
        None => Err(AsmFault {
            line: read.line(),
            why: Why::NoLabel,
        }),
    }
}

/// The second pass: resolves all labels, or returns the first fault.
fn resolve_all<'a>(
    alloc: Global,
    labels: &Labels<'a>,
    drafts: &[LineDraft<'a>],
) -> Result<Vec<Instr>, AsmFault>
    ensures reported { MatchResult result
        (λ instrs. second_pass (pcs labels.now) drafts.now ≡ Ok instrs.items)
        (λ fault. (second_pass (pcs labels.now) drafts.now ≡ Err fault) ⊎ IsOutOfMemory fault) }
    ensures count { IfOk result (λ instrs. vec_len instrs ≡ length drafts.now) }
    ensures in_range { IfOk result (λ instrs. All IsInRange instrs.items) }
{
    let mut instrs = Vec::new(alloc);
    for line_draft in drafts {
        let instr = resolve(labels, line_draft)?;
        if instrs.push(instr).is_err() {
            return Err(AsmFault::from(AllocError));
        }
    }
    Ok(instrs)
}

/// All instructions with their targets, or the first fault; a text without instructions has the fault `Empty`.
fn instrs_of(alloc: Global, parts: &Parts<'_>) -> Result<Vec<Instr>, AsmFault>
    ensures reported { MatchResult result
        (λ instrs. instrs_of (stored_parts parts.now) ≡ Ok instrs.items)
        (λ fault. (instrs_of (stored_parts parts.now) ≡ Err fault) ⊎ IsOutOfMemory fault) }
    ensures at_least_one_instruction { IfOk result (λ instrs. 1 ≤ vec_len instrs) }
    ensures at_most_max_instructions { IfOk result (λ instrs. vec_len instrs ≤ MAX_INSTRUCTIONS) }
    ensures in_range { IfOk result (λ instrs. All IsInRange instrs.items) }
{
    let drafts = parts.drafts();
    if drafts.is_empty() {
        Err(AsmFault {
            line: 0,
            why: Why::Empty,
        })
    } else {
        resolve_all(alloc, parts.labels(), drafts)
    }
}

/// Assembles the lines of a program.
///
/// A line has a label, an instruction, both or neither, and may end with a comment after `;`. A label may be
/// used before the line that defines it. Whether the kind allows an instruction is left to the verifier.
///
/// # Errors
///
/// The first fault of the text, in the order of `Why`, or `Why::Memory` if an allocation fails.
pub fn assemble(alloc: Global, kind: Kind, text: &[u8]) -> Result<Code, AsmFault>
    ensures reported { MatchResult result
        (λ code. code_of kind (lines_of text.now) ≡ Ok code)
        (λ fault. (code_of kind (lines_of text.now) ≡ Err fault) ⊎ IsOutOfMemory fault) }
{
    let parts = read_parts(alloc, text)?;
    let instrs = instrs_of(alloc, &parts)?;
    let Some(code) = Code::new(kind, instrs) else {
        unreachable!()
    };
    Ok(code)
}
