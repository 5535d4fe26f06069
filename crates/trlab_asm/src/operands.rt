//! The operands of an instruction, separated by commas: their kinds, and how they are read.

ghost use Rattle.std.specs.Prelude.{◌≡◌, ◌≤◌, true, IfOk, option_map, Ok, ◌<◌, ok_or};
ghost use Rattle.trlab_asm.specs.OperandKinds.{kinds_of, range_of, has_form};
ghost use Rattle.trlab_asm.specs.Operands.{digits_of, value_within, WrittenTarget as Written, is_label, all_label_bytes, pc_named, target_named, word, register, input, numeral, two_numerals, number, jump_target, no_operand, two_registers, three_registers, register_input, register_and_number, two_registers_number, word_chance, register_word_chance, register_target, two_registers_target};
ghost use Rattle.trlab_asm.specs.Operands.{map_ok, ◌>>=◌ as ◌followed◌};
ghost use Rattle.trlab_lines.specs.Lines.{all_digits, cut};
ghost use Rattle.trlab_bounds.specs.declared.programs.TheConstants.{WORDS, CERTAIN};

use crate::fault::Why;
use crate::names::{Mnemonic, input_named, register_named};
use std::marker::Model;
use trlab_bounds::programs::{LONGEST_LABEL, MAX_DIGITS, MAX_NUMBER};
use trlab_code::{CERTAIN, Input, Register, WORDS};
use trlab_lines::{cut, digits_value, is_numeral, only_word};

/// The kind of an operand: its form, and its range if it is a number.
#[derive(Clone, Copy, PartialEq, Eq)]
pub enum OperandKind {
    /// A register that is read.
    Register,
    /// The register to which the result is written.
    Result,
    /// A number from 0 to `MAX_NUMBER`.
    Number,
    /// A divisor, from 1 to `MAX_NUMBER`.
    Divisor,
    /// The number of a random word, from 0 to 15.
    Word,
    /// A probability times 2^31, from 0 to 2^31.
    Chance,
    /// An input.
    Input,
    /// The target of a jump: a label, or `@` and a pc.
    Target,
}

impl OperandKind {
    /// The smallest and the largest number of this kind; `None` if the operand is not a number.
    pub fn range(self) -> Option<(u32, u32)>
        ensures { result ≡ range_of self }
    {
        match self {
            OperandKind::Number => Some((0, MAX_NUMBER)),
            OperandKind::Divisor => Some((1, MAX_NUMBER)),
            OperandKind::Word => Some((0, WORDS as u32 - 1)),
            OperandKind::Chance => Some((0, CERTAIN)),
            OperandKind::Register
            | OperandKind::Result
            | OperandKind::Input
            | OperandKind::Target => None,
        }
    }

    /// Whether a word has the form of this operand. A number may still be outside its range.
    pub fn has_form(self, word: &[u8]) -> bool
        ensures { result ≡ has_form self word.now }
    {
        match self {
            OperandKind::Register | OperandKind::Result => register_named(word).is_some(),
            OperandKind::Input => input_named(word).is_some(),
            OperandKind::Target => match word.strip_prefix(b"@") {
                Some(digits) => is_numeral(digits),
                None => is_label(word),
            },
            OperandKind::Number | OperandKind::Divisor | OperandKind::Word | OperandKind::Chance =>
                is_numeral(word),
        }
    }
}

/// The kinds of an instruction's operands, from left to right.
pub fn operand_kinds(name: Mnemonic) -> &'static [OperandKind]
    ensures { result.now ≡ kinds_of name }
{
    match name {
        Mnemonic::Num => &[OperandKind::Result, OperandKind::Number],
        Mnemonic::Get => &[OperandKind::Result, OperandKind::Input],
        Mnemonic::Side => &[OperandKind::Result],
        Mnemonic::Draw => &[OperandKind::Result, OperandKind::Word, OperandKind::Chance],
        Mnemonic::Copy | Mnemonic::Not => &[OperandKind::Result, OperandKind::Register],
        Mnemonic::Add
        | Mnemonic::Sub
        | Mnemonic::Min
        | Mnemonic::Max
        | Mnemonic::And
        | Mnemonic::Or => &[
            OperandKind::Result,
            OperandKind::Register,
            OperandKind::Register,
        ],
        Mnemonic::Mul => &[
            OperandKind::Result,
            OperandKind::Register,
            OperandKind::Number,
        ],
        Mnemonic::Div => &[
            OperandKind::Result,
            OperandKind::Register,
            OperandKind::Divisor,
        ],
        Mnemonic::Jump => &[OperandKind::Target],
        Mnemonic::JumpLess | Mnemonic::JumpAtMost => &[
            OperandKind::Register,
            OperandKind::Register,
            OperandKind::Target,
        ],
        Mnemonic::JumpTrue | Mnemonic::JumpFalse => &[OperandKind::Register, OperandKind::Target],
        Mnemonic::Go => &[OperandKind::Register],
        Mnemonic::Cross | Mnemonic::Stay => &[],
    }
}

/// The word, if it has the form of a number.
pub(crate) fn digits_of(text: &[u8]) -> Result<&[u8], Why>
    ensures value { map_ok (λ digits. digits.now) result ≡ digits_of text.now }
    ensures digits { IfOk result (λ digits. all_digits digits.now ≡ true) }
{
    if is_numeral(text) {
        Ok(text)
    } else {
        Err(Why::Operand)
    }
}

/// The value of `digits`; `Why::Number` if there are more than `MAX_DIGITS`, or if it is not from `low` to `high`.
pub(crate) fn value_within(low: u32, high: u32, digits: &[u8]) -> Result<u32, Why>
    requires { all_digits digits.now ≡ true }
    ensures value { result ≡ value_within low high digits.now }
    ensures low { IfOk result (λ n. low ≤ n) }
    ensures high { IfOk result (λ n. n ≤ high) }
{
    if digits.len() > MAX_DIGITS {
        return Err(Why::Number);
    }
    let n = digits_value(digits);
    if u64::from(low) <= n && n <= u64::from(high) {
        Ok(n as u32)
    } else {
        Err(Why::Number)
    }
}

/// Reads a word as a number from `low` to `MAX_NUMBER`.
pub(crate) fn number_of(low: u32, word: &[u8]) -> Result<u32, Why>
    ensures value { result ≡ digits_of word.now followed value_within low MAX_NUMBER }
    ensures low { IfOk result (λ n. low ≤ n) }
{
    value_within(low, MAX_NUMBER, digits_of(word)?)
}

/// The target of a jump as it is written: a pc, or a label, whose pc is not known yet and 0 here.
#[derive(Drop)]
pub(crate) struct WrittenTarget<'a> {
    pub pc: u32,
    pub label: Option<&'a [u8]>,
}

impl<'a> Model for WrittenTarget<'a> {
    ghost Value = { Written };

    ghost view = { λ target. record { pc = target.pc; label = option_map (λ label. label.now) target.label } };
}

fn all_label_bytes(text: &[u8]) -> bool
    ensures { result ≡ all_label_bytes text.now }
{
    text.iter()
        .all(|byte| byte.is_ascii_alphanumeric() || *byte == b'_')
}

/// Whether a text can be a label: 1 to `LONGEST_LABEL` letters, digits and `_`, and the first is not a digit.
pub fn is_label(text: &[u8]) -> bool
    ensures { result ≡ is_label text.now }
{
    !text.is_empty()
        && text.len() <= LONGEST_LABEL
        && !text[0].is_ascii_digit()
        && all_label_bytes(text)
}

/// The pc of a target such as `@12`.
fn pc_named(text: &[u8]) -> Result<WrittenTarget<'_>, Why>
    ensures { result ≡ pc_named text.now }
{
    let digits = text.strip_prefix(b"@").ok_or(Why::Operand)?;
    let pc = number_of(0, digits)?;
    Ok(WrittenTarget { pc, label: None })
}

pub(crate) fn target_named(text: &[u8]) -> Result<WrittenTarget<'_>, Why>
    ensures { result ≡ target_named text.now }
{
    if is_label(text) {
        Ok(WrittenTarget {
            pc: 0,
            label: Some(text),
        })
    } else {
        pc_named(text)
    }
}

/// Both operands, or the first fault.
fn both<A: Drop, B: Drop>(first: Result<A, Why>, second: Result<B, Why>) -> Result<(A, B), Why>
    ensures { result ≡ first followed λ a. second followed λ b. Ok (a, b) }
{
    Ok((first?, second?))
}

/// The only word of an operand; the word may be empty.
fn word(text: &[u8]) -> Result<&[u8], Why>
    ensures { map_ok (λ word. word.now) result ≡ word text.now }
{
    only_word(text).ok_or(Why::Operand)
}

pub(crate) fn register(text: &[u8]) -> Result<Register, Why>
    ensures { result ≡ register text.now }
{
    register_named(word(text)?).ok_or(Why::Operand)
}

fn input(text: &[u8]) -> Result<Input, Why>
    ensures { result ≡ input text.now }
{
    input_named(word(text)?).ok_or(Why::Operand)
}

/// The digits of an operand with the form of a number; its range is checked later.
fn numeral(text: &[u8]) -> Result<&[u8], Why>
    ensures value { map_ok (λ digits. digits.now) result ≡ numeral text.now }
    ensures digits { IfOk result (λ digits. all_digits digits.now ≡ true) }
{
    digits_of(word(text)?)
}

/// A number from `low` to `MAX_NUMBER`.
fn number(low: u32, text: &[u8]) -> Result<u32, Why>
    ensures value { result ≡ number low MAX_NUMBER text.now }
    ensures low { IfOk result (λ n. low ≤ n) }
{
    number_of(low, word(text)?)
}

pub(crate) fn jump_target(text: &[u8]) -> Result<WrittenTarget<'_>, Why>
    ensures { result ≡ jump_target text.now }
{
    target_named(word(text)?)
}

pub(crate) fn no_operand(text: &[u8]) -> Result<(), Why>
    ensures { result ≡ no_operand text.now }
{
    match only_word(text) {
        Some([]) => Ok(()),
        _ => Err(Why::Operand),
    }
}

pub(crate) fn two_registers(text: &[u8]) -> Result<(Register, Register), Why>
    ensures { result ≡ two_registers text.now }
{
    match cut(text, b',') {
        Some((first, rest)) => both(register(first), register(rest)),
        None => Err(Why::Operand),
    }
}

pub(crate) fn three_registers(text: &[u8]) -> Result<(Register, (Register, Register)), Why>
    ensures { result ≡ three_registers text.now }
{
    match cut(text, b',') {
        Some((first, rest)) => both(register(first), two_registers(rest)),
        None => Err(Why::Operand),
    }
}

pub(crate) fn register_input(text: &[u8]) -> Result<(Register, Input), Why>
    ensures { result ≡ register_input text.now }
{
    match cut(text, b',') {
        Some((first, rest)) => both(register(first), input(rest)),
        None => Err(Why::Operand),
    }
}

pub(crate) fn register_and_number(low: u32, text: &[u8]) -> Result<(Register, u32), Why>
    ensures value { result ≡ register_and_number low text.now }
    ensures low { IfOk result (λ operands. low ≤ operands.1) }
{
    match cut(text, b',') {
        Some((first, rest)) => both(register(first), number(low, rest)),
        None => Err(Why::Operand),
    }
}

pub(crate) fn two_registers_number(
    low: u32,
    text: &[u8],
) -> Result<(Register, (Register, u32)), Why>
    ensures value { result ≡ two_registers_number low text.now }
    ensures low { IfOk result (λ operands. low ≤ operands.1.1) }
{
    match cut(text, b',') {
        Some((first, rest)) => both(register(first), register_and_number(low, rest)),
        None => Err(Why::Operand),
    }
}

fn two_numerals(text: &[u8]) -> Result<(&[u8], &[u8]), Why>
    ensures value { map_ok (λ parts. (parts.0.now, parts.1.now)) result ≡ two_numerals text.now }
    ensures first { IfOk result (λ parts. all_digits parts.0.now ≡ true) }
    ensures second { IfOk result (λ parts. all_digits parts.1.now ≡ true) }
{
    match cut(text, b',') {
        Some((first, rest)) => both(numeral(first), numeral(rest)),
        None => Err(Why::Operand),
    }
}

/// The number of a random word, and a probability times 2^31. Both forms are checked before either range.
fn word_chance(text: &[u8]) -> Result<(u32, u32), Why>
    ensures value { result ≡ word_chance text.now }
    ensures word { IfOk result (λ operands. operands.0 < WORDS) }
    ensures chance { IfOk result (λ operands. operands.1 ≤ CERTAIN) }
{
    let (word, chance) = two_numerals(text)?;
    both(
        value_within(0, WORDS as u32 - 1, word),
        value_within(0, CERTAIN, chance),
    )
}

pub(crate) fn register_word_chance(text: &[u8]) -> Result<(Register, (u32, u32)), Why>
    ensures value { result ≡ register_word_chance text.now }
    ensures word { IfOk result (λ operands. operands.1.0 < WORDS) }
    ensures chance { IfOk result (λ operands. operands.1.1 ≤ CERTAIN) }
{
    match cut(text, b',') {
        Some((first, rest)) => both(register(first), word_chance(rest)),
        None => Err(Why::Operand),
    }
}

pub(crate) fn register_target(text: &[u8]) -> Result<(Register, WrittenTarget<'_>), Why>
    ensures { result ≡ register_target text.now }
{
    match cut(text, b',') {
        Some((first, rest)) => both(register(first), jump_target(rest)),
        None => Err(Why::Operand),
    }
}

pub(crate) fn two_registers_target(
    text: &[u8],
) -> Result<(Register, (Register, WrittenTarget<'_>)), Why>
    ensures { result ≡ two_registers_target text.now }
{
    match cut(text, b',') {
        Some((first, rest)) => both(register(first), register_target(rest)),
        None => Err(Why::Operand),
    }
}
