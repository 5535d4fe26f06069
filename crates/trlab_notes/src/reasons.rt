//! The reasons to reject an instruction, and the operands on which they depend.

ghost use Rattle.std.specs.Prelude.{◌≡◌, ◌≤◌, MatchOption, ◌<◌, nat_le};
ghost use Rattle.trlab_code.specs.Machine.{allows, allows_input};
ghost use Rattle.trlab_code.specs.Flow.{target, on_target};
ghost use Rattle.trlab_notes.specs.Reasons.{is_unknown, is_range, is_flag, is_of_kind, some_unset, some_of_wrong_type, may_be_too_large, may_be_below_zero, may_be_above, may_be_occupied, falls_out, first_reason, range_checks, reason_against};
ghost use Rattle.trlab_notes.specs.Stored.{note_of};
ghost use Rattle.trlab_notes.specs.Transfer.{register_value};

use crate::note::AbstractValue;
use crate::rows::StoredNote;
use trlab_bounds::programs::MAX_NUMBER;
use trlab_code::{Input, Instr, Kind, Register, Variable};

/// A reason to reject an instruction. Reasons are tested in the order of their numbers.
#[derive(Clone, Copy, Debug, PartialEq, Eq)]
pub enum Reason {
    /// 1: no path leads to it.
    Unreachable = 1,
    /// 2: it is not allowed in this kind of program.
    WrongProgram,
    /// 3: an operand may be unset.
    MaybeUnset,
    /// 4: an operand is a flag instead of a number, or a number instead of a flag.
    WrongValue,
    /// 5: its jump does not go forward.
    JumpsBack,
    /// 6: it jumps out of the program.
    JumpsOut,
    /// 7: control may continue past the last instruction.
    FallsOut,
    /// 8: the result may be too large for a register.
    MaybeTooLarge,
    /// 9: the result may be below zero.
    MaybeBelowZero,
    /// 10: the new speed may be above the gap.
    MaybeAboveGap,
    /// 11: the new speed may be above the limit.
    MaybeAboveLimit,
    /// 12: the side cell may be occupied.
    MaybeOccupied,
}

impl Reason {
    ghost use Rattle.trlab_notes.specs.Reasons.{reason_number};

    /// The number of the reason: 1 to 12.
    pub fn number(self) -> u32
        ensures value { result ≡ reason_number self }
        ensures from { 1 ≤ result }
        ensures to { result ≤ 12 }
    {
        self as u32
    }

    /// The reason with this number, if it is from 1 to 12.
    pub fn from_number(number: u32) -> Option<Reason>
        ensures { MatchOption result (¬ ((1 ≤ number) × (number ≤ 12)))
            (λ reason. reason_number reason ≡ number) }
    {
        match number {
            1 => Some(Reason::Unreachable),
            2 => Some(Reason::WrongProgram),
            3 => Some(Reason::MaybeUnset),
            4 => Some(Reason::WrongValue),
            5 => Some(Reason::JumpsBack),
            6 => Some(Reason::JumpsOut),
            7 => Some(Reason::FallsOut),
            8 => Some(Reason::MaybeTooLarge),
            9 => Some(Reason::MaybeBelowZero),
            10 => Some(Reason::MaybeAboveGap),
            11 => Some(Reason::MaybeAboveLimit),
            12 => Some(Reason::MaybeOccupied),
            _ => None,
        }
    }
}

/// The registers that an instruction reads, from left to right, by the type of their values.
#[derive(Clone, Copy)]
pub enum Operands {
    /// It reads none.
    Nothing,
    /// A number or a flag.
    Value(Register),
    /// A number.
    Number(Register),
    /// Two numbers.
    Numbers(Register, Register),
    /// A flag.
    Flag(Register),
    /// Two flags.
    Flags(Register, Register),
}

impl Operands {
    ghost use Rattle.trlab_notes.specs.Reasons.{operands_of};

    /// The registers that the instruction reads.
    pub fn of(instr: Instr) -> Operands
        ensures { result ≡ operands_of instr }
    {
        match instr {
            Instr::Copy(_, a) => Operands::Value(a),
            Instr::Mul(_, a, _) | Instr::Div(_, a, _) | Instr::Go(a) => Operands::Number(a),
            Instr::Add(_, a, b)
            | Instr::Sub(_, a, b)
            | Instr::Min(_, a, b)
            | Instr::Max(_, a, b)
            | Instr::JumpLess(a, b, _)
            | Instr::JumpAtMost(a, b, _) => Operands::Numbers(a, b),
            Instr::Not(_, a) | Instr::JumpTrue(a, _) | Instr::JumpFalse(a, _) => Operands::Flag(a),
            Instr::And(_, a, b) | Instr::Or(_, a, b) => Operands::Flags(a, b),
            _ => Operands::Nothing,
        }
    }
}

/// Whether programs of kind `kind` may read the input.
fn is_allowed_input(kind: Kind, input: Input) -> bool
    ensures { result ≡ allows_input kind input }
{
    match input {
        Input::Speed | Input::Limit | Input::Gap | Input::Headspeed => true,
        Input::SideGap | Input::SideBack | Input::Lane => matches!(kind, Kind::Change),
    }
}

/// Whether programs of kind `kind` may have the instruction.
fn is_allowed(kind: Kind, instr: Instr) -> bool
    ensures { result ≡ allows kind instr }
{
    match instr {
        Instr::Get(_, input) => is_allowed_input(kind, input),
        Instr::Side(_) | Instr::Cross | Instr::Stay => matches!(kind, Kind::Change),
        Instr::Go(_) => matches!(kind, Kind::Motion),
        _ => true,
    }
}

/// Whether the instruction is allowed in programs of both kinds, `kind` and `own`.
fn is_of_kind(kind: Kind, own: Kind, instr: Instr) -> bool
    ensures { result ≡ is_of_kind kind own instr }
{
    is_allowed(kind, instr) && is_allowed(own, instr)
}

/// Whether a register may be unset.
fn is_unset(note: &StoredNote, register: Register) -> bool
    ensures { result ≡ is_unknown (register_value (note_of note.now) register) }
{
    matches!(note.register_value(register), AbstractValue::Unknown)
}

/// Whether a register holds a number.
fn has_number(note: &StoredNote, register: Register) -> bool
    ensures { result ≡ is_range (register_value (note_of note.now) register) }
{
    matches!(note.register_value(register), AbstractValue::Between(..))
}

/// Whether a register holds a flag.
fn has_flag(note: &StoredNote, register: Register) -> bool
    ensures { result ≡ is_flag (register_value (note_of note.now) register) }
{
    matches!(note.register_value(register), AbstractValue::Implies(_))
}

/// Whether an operand may be unset.
fn has_unset(note: &StoredNote, instr: Instr) -> bool
    ensures { result ≡ some_unset (note_of note.now) instr }
{
    match Operands::of(instr) {
        Operands::Numbers(a, b) | Operands::Flags(a, b) => is_unset(note, a) || is_unset(note, b),
        Operands::Number(a) | Operands::Flag(a) | Operands::Value(a) => is_unset(note, a),
        Operands::Nothing => false,
    }
}

/// Whether an operand is a flag instead of a number, or a number instead of a flag.
fn has_wrong_type(note: &StoredNote, instr: Instr) -> bool
    ensures { result ≡ some_of_wrong_type (note_of note.now) instr }
{
    match Operands::of(instr) {
        Operands::Numbers(a, b) => has_flag(note, a) || has_flag(note, b),
        Operands::Number(a) => has_flag(note, a),
        Operands::Flags(a, b) => has_number(note, a) || has_number(note, b),
        Operands::Flag(a) => has_number(note, a),
        Operands::Value(_) | Operands::Nothing => false,
    }
}

/// Whether the result may be too large for a register.
fn may_be_too_large(note: &StoredNote, instr: Instr) -> bool
    ensures { result ≡ may_be_too_large (note_of note.now) instr }
{
    match instr {
        Instr::Add(_, a, b) => {
            let (a, b) = (note.register_value(a).high(), note.register_value(b).high());
            u64::from(a) + u64::from(b) > u64::from(MAX_NUMBER)
        }
        Instr::Mul(_, a, n) => {
            u64::from(note.register_value(a).high()) * u64::from(n) > u64::from(MAX_NUMBER)
        }
        _ => false,
    }
}

/// Whether the result of a subtraction may be below zero.
fn may_be_below_zero(note: &StoredNote, instr: Instr) -> bool
    ensures { result ≡ may_be_below_zero (note_of note.now) instr }
{
    match instr {
        Instr::Sub(_, a, b) => note.register_level(b, a) == 0,
        _ => false,
    }
}

/// Whether the speed of `Go` may be above an input, the gap or the limit.
fn may_be_above(input: Input, note: &StoredNote, instr: Instr) -> bool
    ensures { result ≡ may_be_above input (note_of note.now) instr }
{
    match instr {
        Instr::Go(a) => note.known_level(Variable::Register(a), Variable::Input(input)) == 0,
        _ => false,
    }
}

/// Whether the side cell may be occupied at a `Cross`.
fn may_be_occupied(note: &StoredNote, instr: Instr) -> bool
    ensures { result ≡ may_be_occupied (note_of note.now) instr }
{
    matches!(instr, Instr::Cross) && !note.side
}

/// Whether a jump does not go forward from `pc`.
fn jumps_back(pc: usize, instr: Instr) -> bool
    ensures { result ≡ on_target (λ t. nat_le t pc) (target instr) }
{
    match instr.target() {
        Some(target) => target as usize <= pc,
        None => false,
    }
}

/// Whether a jump goes past the last of `len` instructions.
fn jumps_out(len: usize, instr: Instr) -> bool
    ensures { result ≡ on_target (λ t. nat_le len t) (target instr) }
{
    match instr.target() {
        Some(target) => len <= target as usize,
        None => false,
    }
}

/// Whether the instruction at `pc` may go on past the last of `len` instructions.
fn falls_out(len: usize, pc: usize, instr: Instr) -> bool
    requires { pc < len }
    ensures { result ≡ falls_out len pc instr }
{
    instr.falls() && len <= pc + 1
}

/// The first of the reasons 8 to 12 that holds. They are about the instruction's result or answer.
fn range_reason(note: &StoredNote, instr: Instr) -> Option<Reason>
    ensures { result ≡ first_reason (range_checks (note_of note.now) instr) }
{
    if may_be_too_large(note, instr) {
        Some(Reason::MaybeTooLarge)
    } else if may_be_below_zero(note, instr) {
        Some(Reason::MaybeBelowZero)
    } else if may_be_above(Input::Gap, note, instr) {
        Some(Reason::MaybeAboveGap)
    } else if may_be_above(Input::Limit, note, instr) {
        Some(Reason::MaybeAboveLimit)
    } else if may_be_occupied(note, instr) {
        Some(Reason::MaybeOccupied)
    } else {
        None
    }
}

/// The first of the reasons 2 to 12 to reject the instruction at `pc` in a program of `len` instructions. The program
/// is judged as one of `kind`; `own` is its own kind.
pub fn reason_against(
    kind: Kind,
    own: Kind,
    len: usize,
    pc: usize,
    note: &StoredNote,
    instr: Instr,
) -> Option<Reason>
    requires { pc < len }
    ensures { result ≡ reason_against kind own len pc (note_of note.now) instr }
{
    if !is_of_kind(kind, own, instr) {
        Some(Reason::WrongProgram)
    } else if has_unset(note, instr) {
        Some(Reason::MaybeUnset)
    } else if has_wrong_type(note, instr) {
        Some(Reason::WrongValue)
    } else if jumps_back(pc, instr) {
        Some(Reason::JumpsBack)
    } else if jumps_out(len, instr) {
        Some(Reason::JumpsOut)
    } else if falls_out(len, pc, instr) {
        Some(Reason::FallsOut)
    } else {
        range_reason(note, instr)
    }
}
