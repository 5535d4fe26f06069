//! The published rules, built from the standard programs, which the verifier accepts.

ghost use Rattle.std.specs.Prelude.{◌≡◌, IfOk, IfErr};
ghost use Rattle.trlab_rules.specs.declared.standard.StandardFault.TheVariants.{Memory};
ghost use Rattle.trlab_rules.specs.Rules.{IsRule, IsNasch, IsVdr, IsRickert, IsMotionComputing, IsChangeComputing};
ghost use Rattle.trlab_code.specs.Program.{Program, IsValidProgram};
ghost use Rattle.trlab_verify.specs.Verdict.{IsAccepted};
ghost use Rattle.trlab_rules.specs.Published.{nasch_speed, vdr_speed, rickert_crosses};
ghost use Rattle.trlab_rules.specs.Standard.{nasch_program, vdr_program, rickert_program};

use crate::programs::{nasch_instrs, rickert_instrs, vdr_instrs};
use crate::rule::Rule;
use std::alloc::{AllocError, Global};
use thiserror::Error;
use trlab_code::{Code, Instr};
use trlab_verify::{AcceptedProgram, Change, Motion, ProgramKind, VerifyFault, verify_as};
use trlab_words::Chance;

/// Why a standard rule could not be made.
#[derive(Clone, Copy, Debug, PartialEq, Eq, Error)]
pub enum StandardFault {
    /// An allocation failed.
    #[error("out of memory")]
    Memory,
    /// The verifier rejects a program of the rule. No call returns this, because the verifier accepts these
    /// programs (law `standard_programs_are_accepted`).
    #[error("a program of the rule is refused")]
    Refused,
}

impl From<AllocError> for StandardFault {
    ghost from_gives = { λ _ fault. fault ≡ Memory };

    fn from(_: AllocError) -> StandardFault {
        StandardFault::Memory
    }
}

/// The model of Nagel and Schreckenberg (1992), on one lane or on lanes that no car leaves.
///
/// A car accelerates by one cell per step up to the limit, slows down to its gap, and then, with probability
/// `p` on its word 0, brakes by one.
///
/// # Errors
///
/// `Memory` if an allocation fails; never `Refused`.
pub fn nasch(alloc: Global, p: Chance) -> Result<Rule, StandardFault>
    ensures published { IfOk result (IsNasch p) }
    ensures rule { IfOk result IsRule }
    ensures memory { IfErr result (λ fault. fault ≡ Memory) }
{
    Ok(Rule::new(nasch_motion(alloc, p)?, None))
}

/// The velocity-dependent-randomization (VDR) model of Barlovic, Santen, Schadschneider and Schreckenberg (1998).
///
/// It is `nasch` with slow starts: a car whose speed before the step is 0 brakes with probability `p0`, and a moving
/// car with probability `p`.
///
/// # Errors
///
/// `Memory` if an allocation fails; never `Refused`.
pub fn vdr(alloc: Global, p: Chance, p0: Chance) -> Result<Rule, StandardFault>
    ensures published { IfOk result (IsVdr p p0) }
    ensures rule { IfOk result IsRule }
    ensures memory { IfErr result (λ fault. fault ≡ Memory) }
{
    Ok(Rule::new(vdr_motion(alloc, p, p0)?, None))
}

/// The two-lane model of Rickert, Nagel, Schreckenberg and Latour (1996), with lane-change distances of this project's
/// own.
///
/// A car crosses exactly if its side cell is empty, its gap is below its speed plus one, the gap ahead on the other
/// lane is above its speed plus one, the gap behind there is above the limit, and an event of probability `c` happens
/// on its word 1. Then all cars move as with `nasch` and probability `p`.
///
/// # Errors
///
/// `Memory` if an allocation fails; never `Refused`.
pub fn rickert(alloc: Global, p: Chance, c: Chance) -> Result<Rule, StandardFault>
    ensures published { IfOk result (IsRickert p c) }
    ensures rule { IfOk result IsRule }
    ensures memory { IfErr result (λ fault. fault ≡ Memory) }
{
    let motion = nasch_motion(alloc, p)?;
    let change = rickert_change(alloc, c)?;
    Ok(Rule::new(motion, Some(change)))
}

/// Builds the program of the kind `K` with these instructions, which the verifier accepts.
///
/// # Errors
///
/// If an allocation fails.
fn accept<K: ProgramKind>(
    alloc: Global,
    instrs: Vec<Instr>,
) -> Result<AcceptedProgram<K>, AllocError>
    requires program { IsValidProgram (record { kind = K.KIND; instrs = instrs.items }) }
    requires accepted { IsAccepted K.KIND (record { kind = K.KIND; instrs = instrs.items }) }
    ensures { let program : Program = record { kind = K.KIND; instrs = instrs.items } in
        IfOk result (λ accepted. (accepted.program ≡ program) × IsAccepted K.KIND program) }
{
    let Some(code) = Code::new(K::KIND, instrs) else {
        unreachable!()
    };
    match verify_as(alloc, code) {
        Ok(program) => Ok(program),
        Err((_, VerifyFault::Why { .. })) => unreachable!(),
        Err((_, VerifyFault::Memory)) => Err(AllocError),
    }
}

/// The accepted motion program of the Nagel-Schreckenberg model, which brakes with probability `p`.
///
/// # Errors
///
/// If an allocation fails.
fn nasch_motion(alloc: Global, p: Chance) -> Result<Motion, AllocError>
    ensures { IfOk result (IsMotionComputing (nasch_speed p) (nasch_program p)) }
{
    accept(alloc, nasch_instrs(alloc, p)?)
}

/// The accepted motion program of the VDR model: a stopped car brakes with probability `p0`, a moving car with `p`.
///
/// # Errors
///
/// If an allocation fails.
fn vdr_motion(alloc: Global, p: Chance, p0: Chance) -> Result<Motion, AllocError>
    ensures { IfOk result (IsMotionComputing (vdr_speed p p0) (vdr_program p p0)) }
{
    accept(alloc, vdr_instrs(alloc, p, p0)?)
}

/// The accepted change program of Rickert et al. (1996): lane changes with probability `c`.
///
/// # Errors
///
/// If an allocation fails.
fn rickert_change(alloc: Global, c: Chance) -> Result<Change, AllocError>
    ensures { IfOk result (IsChangeComputing (rickert_crosses c) (rickert_program c)) }
{
    accept(alloc, rickert_instrs(alloc, c)?)
}
