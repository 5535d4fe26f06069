//! A phase of a step as all workers see it: a program runs for all cars of a road. A motion program answers the speed
//! of each car, a change program whether the car crosses.

ghost use Rattle.std.specs.Prelude.{◌≡◌, ◌≤◌, ◌++◌, [], ℕ, IfOk, OnOk, List, length};
ghost use Rattle.trlab_machine.specs.declared.dice.Dice.{Dice as TheDice};
ghost use Rattle.trlab_road.specs.Cells.{Cells, cars};
ghost use Rattle.trlab_segments.specs.Answered.{HasTwoLanes, IsAnyRoad};
ghost use Rattle.trlab_step.proofs.Joined.{crosses_begin, crosses_join, speeds_begin, speeds_join};
ghost use Rattle.trlab_step.specs.Answers.{IsCrossingsPart, IsSpeedsPart};

use crate::segment::{CHANGE_PHASE, MOTION_PHASE, Segment};
use std::alloc::{AllocError, Global};
use trlab_machine::Dice;
use trlab_road::Road;
use trlab_step::{compute_crossings, compute_speeds};
use trlab_verify::{Change, Motion};

/// A program, the road for whose cars it runs, and the dice.
#[derive(Drop)]
pub struct Phase<'a, P> {
    pub program: &'a P,
    pub road: &'a Road,
    pub dice: &'a Dice,
}

/// A program that has an answer of type `A` for each car of a road.
pub trait Asked<A>: Sized {
    /// The phase in which the program runs: `CHANGE_PHASE` or `MOTION_PHASE`.
    const PHASE: u32;

    // The roads for whose cars the program can run.
    ghost can_ask: { Cells → Type 0 };

    // Whether a list has the program's answers for the cars from one index of the standing order up to another.
    ghost answers: { Self → TheDice → Cells → ℕ → ℕ → List A → Type 0 };

    /// Replaces a list by the answers to the cars of a segment, in standing order.
    ///
    /// # Errors
    ///
    /// If an allocation fails.
    fn ask(list: &mut Vec<A>, phase: &Phase<Self>, part: Segment) -> Result<(), AllocError>
        requires rising { part.from ≤ part.to }
        requires in_range { part.to ≤ cars phase.now.road.now }
        requires lanes { can_ask phase.now.road.now }
        ensures { OnOk result (answers phase.now.program.now phase.now.dice.now
            phase.now.road.now part.from part.to list.new.items) };

    /// A copy of the program.
    ///
    /// # Errors
    ///
    /// If an allocation fails.
    fn copy(&self, alloc: Global) -> Result<Self, AllocError>
        ensures { IfOk result (λ copy. copy ≡ self.now) };

    // For no cars, the empty list is the answer.
    ghost begins: { (program : Self) (dice : TheDice) (road : Cells) → answers program dice road 0 0 [] };

    // The answers of two adjacent parts, one after the other, are the answers of both.
    ghost joins: { (program : Self) (dice : TheDice) (road : Cells)
        → (from middle to : ℕ) (first second : List A)
        → answers program dice road from middle first → answers program dice road middle to second
        → answers program dice road from to (first ++ second) };
}

impl Asked<u8> for Motion {
    const PHASE: u32 = MOTION_PHASE;

    ghost can_ask = { IsAnyRoad };

    ghost answers = { IsSpeedsPart };

    fn ask(list: &mut Vec<u8>, phase: &Phase<Motion>, part: Segment) -> Result<(), AllocError> {
        let Segment { from, to } = part;
        compute_speeds(list, phase.road, phase.program, phase.dice, from, to)
    }

    fn copy(&self, alloc: Global) -> Result<Motion, AllocError> {
        self.copy(alloc)
    }

    ghost begins = { speeds_begin };

    ghost joins = { speeds_join };
}

impl Asked<bool> for Change {
    const PHASE: u32 = CHANGE_PHASE;

    ghost can_ask = { HasTwoLanes };

    ghost answers = { IsCrossingsPart };

    fn ask(list: &mut Vec<bool>, phase: &Phase<Change>, part: Segment) -> Result<(), AllocError> {
        let Segment { from, to } = part;
        compute_crossings(list, phase.road, phase.program, phase.dice, from, to)
    }

    fn copy(&self, alloc: Global) -> Result<Change, AllocError> {
        self.copy(alloc)
    }

    ghost begins = { crosses_begin };

    ghost joins = { crosses_join };
}
