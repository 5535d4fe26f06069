//! Verifies codes: returns the accepted program with its budget, or the same code and the reason to reject it
//! (docs/VERIFIER.md).

ghost use Rattle.std.specs.Prelude.{◌≡◌, ℕ, ◌+◌, ◌<◌, ◌≤◌, IsTrue, length, slice_index, IfSome, if◌then◌else◌, MatchResult};
ghost use Rattle.std.specs.Option.{option_map_or};
ghost use Rattle.trlab_code.specs.Flow.{falls, target};
ghost use Rattle.trlab_verify.specs.Verdict.{IsLongest, IsForward};
ghost use Rattle.trlab_code.specs.declared.program.Kind.TheVariants.{Motion as OfMotion, Change as OfChange};
ghost use Rattle.trlab_verify.specs.Verified.{IsAcceptedAs, IsVerifyErrorAs};

use crate::program::{AcceptedProgram, Change, Motion, ProgramKind};
use crate::verdict::{Rejection, verdict};
use std::alloc::Global;
use thiserror::Error;
use trlab_code::{Code, Instr, MAX_INSTRUCTIONS};

/// Why a program is not accepted.
#[derive(Clone, Copy, Debug, PartialEq, Eq, Error)]
pub enum VerifyFault {
    /// The first rejected instruction, counted from 0, and the number of the first reason there: 1 to 12, as
    /// listed in `trlab_notes::Reason` and docs/ERRORS.md.
    #[error("refused at {at} reason {reason}")]
    Why { at: u32, reason: u32 },
    /// An allocation failed.
    #[error("out of memory")]
    Memory,
}

/// The longest path from the next instruction, 0 if it cannot follow.
fn longest_of_next(instr: Instr, pc: usize, longest: &[u32; MAX_INSTRUCTIONS]) -> u32
    requires { IsTrue (falls instr) → pc + 1 < MAX_INSTRUCTIONS }
    ensures { result ≡ (if falls instr then slice_index longest.now (pc + 1) else 0) }
{
    if instr.falls() { longest[pc + 1] } else { 0 }
}

/// The longest path from a jump's target, 0 if there is none.
fn longest_of_target(instr: Instr, longest: &[u32; MAX_INSTRUCTIONS]) -> u32
    requires { IfSome (target instr) (λ target. target < MAX_INSTRUCTIONS) }
    ensures { result ≡ option_map_or (λ target. slice_index longest.now target) (target instr) 0 }
{
    match instr.target() {
        Some(target) => longest[target as usize],
        None => 0,
    }
}

/// The longest path from the instruction at `pc`; `longest` has those from the later ones.
fn longest_from(instrs: &[Instr], pc: usize, longest: &[u32; MAX_INSTRUCTIONS]) -> u32
    requires inside { pc < length instrs.now }
    requires at_most_max_instructions { length instrs.now ≤ MAX_INSTRUCTIONS }
    requires forward { IsForward instrs.now }
    requires later { (q : ℕ) → pc < q → q < length instrs.now →
        IsLongest instrs.now q (slice_index longest.now q) }
    ensures { IsLongest instrs.now pc result }
{
    let instr = instrs[pc];
    let next = longest_of_next(instr, pc, longest);
    next.max(longest_of_target(instr, longest)) + 1
}

/// The length of the longest path through a program without backward jumps, in instructions.
pub fn longest_path(instrs: &[Instr]) -> u32
    requires at_least_one_instruction { 1 ≤ length instrs.now }
    requires at_most_max_instructions { length instrs.now ≤ MAX_INSTRUCTIONS }
    requires forward { IsForward instrs.now }
    ensures { IsLongest instrs.now 0 result }
{
    let mut longest = [0; MAX_INSTRUCTIONS];
    for pc in (0..instrs.len()).rev() {
        longest[pc] = longest_from(instrs, pc, &longest);
    }
    longest[0]
}

/// Verifies a code as a program of the kind `K`: returns it as an accepted program, or the same code and the
/// reason.
///
/// An accepted program is safe within its budget, for every view and all random words, and the budget is its
/// longest path, in instructions. A program is accepted exactly if some table of notes checks.
///
/// # Errors
///
/// `Why` if the program is rejected as one of the kind: its first rejected instruction, and the first reason
/// there. `Memory` if allocation fails.
pub fn verify_as<K: ProgramKind>(
    alloc: Global,
    code: Code,
) -> Result<AcceptedProgram<K>, (Code, VerifyFault)>
    ensures { MatchResult result (IsAcceptedAs K.KIND code) (IsVerifyErrorAs K.KIND code) }
{
    match verdict(alloc, K::KIND, &code) {
        Ok(None) => {
            let budget = longest_path(code.instrs());
            Ok(AcceptedProgram::new(code, budget))
        }
        Ok(Some(Rejection { at, reason })) => Err((
            code,
            VerifyFault::Why {
                at,
                reason: reason.number(),
            },
        )),
        Err(_) => Err((code, VerifyFault::Memory)),
    }
}

/// Verifies a code as a motion program: see [`verify_as`].
///
/// # Errors
///
/// `Why` if the program is rejected as a motion program, and `Memory`.
pub fn verify_motion(alloc: Global, code: Code) -> Result<Motion, (Code, VerifyFault)>
    ensures { MatchResult result (IsAcceptedAs OfMotion code) (IsVerifyErrorAs OfMotion code) }
{
    verify_as(alloc, code)
}

/// Verifies a code as a change program: see [`verify_as`].
///
/// # Errors
///
/// `Why` if the program is rejected as a change program, and `Memory`.
pub fn verify_change(alloc: Global, code: Code) -> Result<Change, (Code, VerifyFault)>
    ensures { MatchResult result (IsAcceptedAs OfChange code) (IsVerifyErrorAs OfChange code) }
{
    verify_as(alloc, code)
}
