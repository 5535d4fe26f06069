//! The verifier's reasons, in words.

use trlab_code::{Instr, Kind};
use trlab_notes::Reason;

pub fn reason_meaning(reason: Reason) -> &'static str {
    match reason {
        Reason::Unreachable => "This instruction can never be reached.",
        Reason::WrongProgram =>
            "This instruction or input is not allowed in a program of this kind.",
        Reason::MaybeUnset => "A register may be read before it is set.",
        Reason::WrongValue =>
            "An operand is a flag where a number is needed, or the other way round.",
        Reason::JumpsBack => "Jumps must go forward; loops are not allowed.",
        Reason::JumpsOut => "The jump leaves the program.",
        Reason::FallsOut => "The program can run past its last instruction.",
        Reason::MaybeTooLarge => "The result may be more than 4294967295.",
        Reason::MaybeBelowZero => "The difference may be negative.",
        Reason::MaybeAboveGap =>
            "The speed of `go` may be more than the gap: the car could hit the car ahead.",
        Reason::MaybeAboveLimit => "The speed of `go` may be more than the limit.",
        Reason::MaybeOccupied =>
            "The car may hit another car when it changes lanes: the side cell may be occupied.",
    }
}

/// Advice for a reason, if a program of this kind is rejected. It usually helps, but it is not tested.
pub fn advice(reason: Reason, kind: Kind) -> &'static str {
    match (reason, kind) {
        (Reason::Unreachable, _) => "delete it, or make the jump above it conditional.",
        (Reason::WrongProgram, Kind::Motion) =>
            "a motion program sees only its own lane, so use `gap`; it ends with `go`, not with `cross` or `stay`.",
        (Reason::WrongProgram, Kind::Change) =>
            "a change program ends with `cross` or `stay`; choose speeds in the motion program.",
        (Reason::MaybeUnset, _) =>
            "set the register on every path that leads here, with `num` or `get`.",
        (Reason::WrongValue, _) =>
            "use a flag only to decide a jump: `jfalse` skips the instructions for the true case.",
        (Reason::JumpsBack, _) => "unroll the loop: write the repeated instructions out.",
        (Reason::JumpsOut, _) =>
            "jump to an instruction: a label at the end of a program has none after it.",
        (Reason::FallsOut, Kind::Motion) => "end every path with `go`.",
        (Reason::FallsOut, Kind::Change) => "end every path with `cross` or `stay`.",
        (Reason::MaybeTooLarge, _) => "cap the operand with `min` first, or use a smaller factor.",
        (Reason::MaybeBelowZero, _) =>
            "never subtract more than there is: cap the second operand with `min` first, or jump over the `sub`.",
        (Reason::MaybeAboveGap, _) => "cap the speed just before `go`: `get` the gap, then `min`.",
        (Reason::MaybeAboveLimit, _) =>
            "cap the speed just before `go`: `get` the limit, then `min`.",
        (Reason::MaybeOccupied, _) =>
            "check the side cell first: `side r0`, `jfalse r0, no`, `cross`, `no: stay`.",
    }
}

/// Advice like that of [`advice`], for a program that is rejected at this instruction.
pub fn advice_at(reason: Reason, kind: Kind, instr: Option<Instr>) -> &'static str {
    match (reason, kind, instr) {
        (Reason::WrongProgram, Kind::Motion, Some(Instr::Cross | Instr::Stay)) =>
            "end a motion program with `go`: only change programs end with `cross` or `stay`.",
        (Reason::WrongProgram, Kind::Motion, Some(_)) =>
            "a motion program sees only its own lane: use `gap`.",
        _ => advice(reason, kind),
    }
}
