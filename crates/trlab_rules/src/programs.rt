//! The instructions of the standard programs: the motion of the Nagel-Schreckenberg model (1992) and of the VDR model of
//! Barlovic et al. (1998), and the lane changes of Rickert et al. (1996) with distances of this project's own. A jump
//! names the index of an instruction, counted from 0.

ghost use Rattle.std.specs.Prelude.{◌≡◌, IfOk};
ghost use Rattle.trlab_code.specs.Program.{IsValidProgram};
ghost use Rattle.trlab_rules.specs.Standard.{nasch_program, vdr_program, rickert_program};

use std::alloc::{AllocError, Global};
use trlab_code::Input::{Gap, Limit, SideBack, SideGap, Speed};
use trlab_code::Instr::{
    self, Add, Cross, Draw, Get, Go, Jump, JumpAtMost, JumpFalse, Min, Num, Side, Stay, Sub,
};
use trlab_code::Register::{R0, R1, R2, R3};
use trlab_words::Chance;

/// The motion program of the Nagel-Schreckenberg model, which brakes with probability `p`.
///
/// # Errors
///
/// If an allocation fails.
pub fn nasch_instrs(alloc: Global, p: Chance) -> Result<Vec<Instr>, AllocError>
    ensures value { IfOk result (λ instrs. instrs.items ≡ (nasch_program p).instrs) }
    ensures program { IsValidProgram (nasch_program p) }
{
    let instrs = vec![in alloc;
        Get(R0, Speed),
        Num(R1, 1),
        Add(R0, R0, R1),
        Get(R2, Limit),
        Min(R0, R0, R2),
        Get(R2, Gap),
        Min(R0, R0, R2),
        Draw(R3, 0, p.get()),
        JumpFalse(R3, 11),
        Min(R1, R1, R0),
        Sub(R0, R0, R1),
        Go(R0),
    ]?;
    Ok(instrs)
}

/// The motion program of the VDR model: a stopped car brakes with probability `p0`, a moving car with `p`.
///
/// # Errors
///
/// If an allocation fails.
pub fn vdr_instrs(alloc: Global, p: Chance, p0: Chance) -> Result<Vec<Instr>, AllocError>
    ensures value { IfOk result (λ instrs. instrs.items ≡ (vdr_program p p0).instrs) }
    ensures program { IsValidProgram (vdr_program p p0) }
{
    let instrs = vec![in alloc;
        Get(R0, Speed),
        Num(R1, 1),
        JumpAtMost(R1, R0, 5),
        Draw(R3, 0, p0.get()),
        Jump(6),
        Draw(R3, 0, p.get()),
        Add(R0, R0, R1), // from here on as in `nasch`
        Get(R2, Limit),
        Min(R0, R0, R2),
        Get(R2, Gap),
        Min(R0, R0, R2),
        JumpFalse(R3, 14),
        Min(R1, R1, R0),
        Sub(R0, R0, R1),
        Go(R0),
    ]?;
    Ok(instrs)
}

/// The change program of Rickert et al. (1996): lane changes with probability `c`.
///
/// # Errors
///
/// If an allocation fails.
pub fn rickert_instrs(alloc: Global, c: Chance) -> Result<Vec<Instr>, AllocError>
    ensures value { IfOk result (λ instrs. instrs.items ≡ (rickert_program c).instrs) }
    ensures program { IsValidProgram (rickert_program c) }
{
    let instrs = vec![in alloc;
        Side(R0),
        JumpFalse(R0, 15),
        Get(R1, Speed),
        Num(R2, 1),
        Add(R1, R1, R2),
        Get(R2, Gap),
        JumpAtMost(R1, R2, 15),
        Get(R2, SideGap),
        JumpAtMost(R2, R1, 15),
        Get(R2, SideBack),
        Get(R3, Limit),
        JumpAtMost(R2, R3, 15),
        Draw(R3, 1, c.get()),
        JumpFalse(R3, 15),
        Cross,
        Stay,
    ]?;
    Ok(instrs)
}
