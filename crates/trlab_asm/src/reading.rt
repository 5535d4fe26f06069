//! The lines of a program text: a label, an instruction, both or neither. Targets stay labels for now.

ghost use Rattle.std.specs.Map.{update};
ghost use Rattle.std.specs.Prelude.{◌≡◌, ◌<◌, None, Some, bytes_eq, option_map, IfOk, OnOk, OnSome};
ghost use Rattle.trlab_code.specs.Program.{IsInRange};
ghost use Rattle.trlab_asm.specs.Reading.{InstrDraft as ReadDraft, draft_without_label, jump_draft, draft_of, Line as AbstractLine, instruction, body, new_label, label_of, line_content};
ghost use Rattle.trlab_asm.specs.Operands.{map_ok};
ghost use Rattle.trlab_bounds.specs.declared.programs.TheConstants.{MAX_INSTRUCTIONS};
ghost use Rattle.trlab_asm.specs.Stored.{pcs};

use crate::fault::Why;
use crate::names::{Mnemonic, mnemonic_named};
use crate::operands::{WrittenTarget, is_label, *};
use std::alloc::{AllocError, Global};
use std::collections::BTreeMap;
use std::marker::Model;
use trlab_code::{Instr, MAX_INSTRUCTIONS};
use trlab_lines::{label_and_rest, only_word, up_to_blank, without_comment, without_indent};

/// The pc of each label.
#[derive(Drop)]
pub(crate) struct Labels<'a> {
    pcs: BTreeMap<&'a [u8], u32>,
}

impl<'a> Labels<'a> {
    pub(crate) fn new(alloc: Global) -> Labels<'a>
        ensures { pcs result ≡ λ name. None }
    {
        Labels {
            pcs: BTreeMap::new(alloc),
        }
    }

    pub(crate) fn get(&self, name: &'a [u8]) -> Option<u32>
        ensures { result ≡ pcs self.now name.now }
    {
        self.pcs.get(&name).copied()
    }

    pub(crate) fn add(&mut self, name: &'a [u8], pc: u32) -> Result<(), AllocError>
        ensures { OnOk result (pcs self.new ≡ update bytes_eq (pcs self.old) name.now (Some pc)) }
    {
        self.pcs.insert(name, pc)?;
        Ok(())
    }
}

/// An instruction as it was read. If its target is written as a label, the target is still 0.
#[derive(Drop)]
pub(crate) struct InstrDraft<'a> {
    pub instr: Instr,
    pub label: Option<&'a [u8]>,
}

impl<'a> Model for InstrDraft<'a> {
    ghost Value = { ReadDraft };

    ghost view = { λ draft. record { instr = draft.instr; label = option_map (λ label. label.now) draft.label } };

    ghost invariant = { λ draft. IsInRange draft.instr };
}

fn draft_without_label<'a>(instr: Instr) -> InstrDraft<'a>
    requires { IsInRange instr }
    ensures { result ≡ record { instr = instr; label = None } }
{
    InstrDraft { instr, label: None }
}

/// The draft of a jump to a written target.
fn jump_draft<'a>(instr: Instr, to: WrittenTarget<'a>) -> InstrDraft<'a>
    requires { IsInRange instr }
    ensures { result ≡ record { instr = instr; label = to.entry.label } }
{
    InstrDraft {
        instr,
        label: to.label,
    }
}

/// Reads the operands of an instruction.
pub(crate) fn read_draft(name: Mnemonic, text: &[u8]) -> Result<InstrDraft<'_>, Why>
    ensures { result ≡ draft_of name text.now }
{
    match name {
        Mnemonic::Num => {
            let (d, n) = register_and_number(0, text)?;
            Ok(draft_without_label(Instr::Num(d, n)))
        }
        Mnemonic::Get => {
            let (d, k) = register_input(text)?;
            Ok(draft_without_label(Instr::Get(d, k)))
        }
        Mnemonic::Side => {
            let d = register(text)?;
            Ok(draft_without_label(Instr::Side(d)))
        }
        Mnemonic::Draw => {
            let (d, (k, t)) = register_word_chance(text)?;
            Ok(draft_without_label(Instr::Draw(d, k as u8, t)))
        }
        Mnemonic::Copy => {
            let (d, a) = two_registers(text)?;
            Ok(draft_without_label(Instr::Copy(d, a)))
        }
        Mnemonic::Add => {
            let (d, (a, b)) = three_registers(text)?;
            Ok(draft_without_label(Instr::Add(d, a, b)))
        }
        Mnemonic::Sub => {
            let (d, (a, b)) = three_registers(text)?;
            Ok(draft_without_label(Instr::Sub(d, a, b)))
        }
        Mnemonic::Mul => {
            let (d, (a, n)) = two_registers_number(0, text)?;
            Ok(draft_without_label(Instr::Mul(d, a, n)))
        }
        Mnemonic::Div => {
            let (d, (a, n)) = two_registers_number(1, text)?;
            Ok(draft_without_label(Instr::Div(d, a, n)))
        }
        Mnemonic::Min => {
            let (d, (a, b)) = three_registers(text)?;
            Ok(draft_without_label(Instr::Min(d, a, b)))
        }
        Mnemonic::Max => {
            let (d, (a, b)) = three_registers(text)?;
            Ok(draft_without_label(Instr::Max(d, a, b)))
        }
        Mnemonic::Not => {
            let (d, a) = two_registers(text)?;
            Ok(draft_without_label(Instr::Not(d, a)))
        }
        Mnemonic::And => {
            let (d, (a, b)) = three_registers(text)?;
            Ok(draft_without_label(Instr::And(d, a, b)))
        }
        Mnemonic::Or => {
            let (d, (a, b)) = three_registers(text)?;
            Ok(draft_without_label(Instr::Or(d, a, b)))
        }
        Mnemonic::Jump => {
            let to = jump_target(text)?;
            Ok(jump_draft(Instr::Jump(to.pc), to))
        }
        Mnemonic::JumpLess => {
            let (a, (b, to)) = two_registers_target(text)?;
            Ok(jump_draft(Instr::JumpLess(a, b, to.pc), to))
        }
        Mnemonic::JumpAtMost => {
            let (a, (b, to)) = two_registers_target(text)?;
            Ok(jump_draft(Instr::JumpAtMost(a, b, to.pc), to))
        }
        Mnemonic::JumpTrue => {
            let (a, to) = register_target(text)?;
            Ok(jump_draft(Instr::JumpTrue(a, to.pc), to))
        }
        Mnemonic::JumpFalse => {
            let (a, to) = register_target(text)?;
            Ok(jump_draft(Instr::JumpFalse(a, to.pc), to))
        }
        Mnemonic::Go => {
            let a = register(text)?;
            Ok(draft_without_label(Instr::Go(a)))
        }
        Mnemonic::Cross => {
            no_operand(text)?;
            Ok(draft_without_label(Instr::Cross))
        }
        Mnemonic::Stay => {
            no_operand(text)?;
            Ok(draft_without_label(Instr::Stay))
        }
    }
}

/// The label and the instruction of a line.
#[derive(Drop)]
pub(crate) struct Line<'a> {
    pub label: Option<&'a [u8]>,
    pub draft: Option<InstrDraft<'a>>,
}

impl<'a> Model for Line<'a> {
    ghost Value = { AbstractLine };

    ghost view = { λ line. record { label = option_map (λ label. label.now) line.label; draft = line.draft } };
}

/// The instruction at `pc`, from its name and the text of its operands.
fn instruction<'a>(
    pc: usize,
    name: &[u8],
    operands: &'a [u8],
) -> Result<Option<InstrDraft<'a>>, Why>
    ensures value { result ≡ instruction pc (name.now, operands.now) }
    ensures room { OnOk result (pc < MAX_INSTRUCTIONS) }
{
    let Some(name) = mnemonic_named(name) else {
        return Err(Why::Word);
    };
    if pc < MAX_INSTRUCTIONS {
        read_draft(name, operands).map(Some)
    } else {
        Err(Why::TooLong)
    }
}

/// The instruction of a text without leading blanks; `None` if the text is empty.
fn body(pc: usize, text: &[u8]) -> Result<Option<InstrDraft<'_>>, Why>
    ensures value { result ≡ body pc text.now }
    ensures room { IfOk result (λ draft. OnSome draft (pc < MAX_INSTRUCTIONS)) }
{
    if text.is_empty() {
        return Ok(None);
    }
    let (name, operands) = up_to_blank(text);
    instruction(pc, name, operands)
}

/// Checks a label: `Why::Word` if it is invalid, `Why::LabelTwice` if an earlier line has it.
fn new_label<'a>(labels: &Labels<'a>, text: &'a [u8]) -> Result<Option<&'a [u8]>, Why>
    ensures { map_ok (λ label. option_map (λ label. label.now) label) result ≡ new_label (pcs labels.now) text.now }
{
    if is_label(text) {
        match labels.get(text) {
            None => Ok(Some(text)),
            Some(_) => Err(Why::LabelTwice),
        }
    } else {
        Err(Why::Word)
    }
}

/// The label in the text before a colon; `None` without a colon. `Why::Word` unless it is one word that can be a label.
fn label_of<'a>(labels: &Labels<'a>, text: Option<&'a [u8]>) -> Result<Option<&'a [u8]>, Why>
    ensures { map_ok (λ label. option_map (λ label. label.now) label) result
        ≡ label_of (pcs labels.now) (option_map (λ text. text.now) text.entry) }
{
    let Some(text) = text else {
        return Ok(None);
    };
    match only_word(text) {
        Some(word) => new_label(labels, word),
        None => Err(Why::Word),
    }
}

/// Reads a line, given the labels of earlier lines; its instruction, if it has one, is at `pc`.
pub(crate) fn read_line<'a>(labels: &Labels<'a>, pc: usize, line: &'a [u8]) -> Result<Line<'a>, Why>
    ensures value { result ≡ line_content (pcs labels.now) pc line.now }
    ensures room { IfOk result (λ content. OnSome content.draft (pc < MAX_INSTRUCTIONS)) }
{
    let (label, text) = label_and_rest(without_comment(line));
    let label = label_of(labels, label)?;
    let draft = body(pc, without_indent(text))?;
    Ok(Line { label, draft })
}
