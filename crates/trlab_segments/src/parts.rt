//! The answers of segments: each worker asks the cars of the segments that it draws. The answers of all segments then
//! become one list, regardless of who computed them.

ghost use Rattle.std.specs.Prelude.{◌≡◌, ◌<◌, ◌++◌, [], ◌∷◌, All, IfOk, IsOkAnd, OnOk, map};
ghost use Rattle.trlab_road.specs.Cells.{cars};
ghost use Rattle.trlab_segments.specs.Answered.{HasIndices, HasParts, IsPartOfPhase, ticket_of};
ghost use Rattle.trlab_segments.specs.Drawers.{IsDrawerOf, ticket_count, passes_of, tickets_of};
ghost use Rattle.trlab_segments.specs.Knowledge.{IsPermutation};
ghost use Rattle.trlab_segments.specs.Segments.{first_car};

use crate::phase::{Asked, Phase};
use crate::segment::{Gate, Segment};
use crate::tickets::{Drawer, Tickets};
use std::alloc::{AllocError, Global};

/// The answers of the cars of a segment, in standing order, with the segment's number.
#[derive(Drop)]
pub struct Part<A> {
    pub number: u32,
    pub answers: Vec<A>,
}

/// Asks the cars of segment `number` of `count`, and puts their part after the others.
///
/// # Errors
///
/// If an allocation fails.
fn add_part<A: Drop, P: Asked<A>>(
    parts: &mut Vec<Part<A>>,
    alloc: Global,
    phase: &Phase<P>,
    count: u32,
    number: u32,
) -> Result<(), AllocError>
    requires number { number < count }
    requires lanes { P.can_ask phase.now.road.now }
    ensures numbers { OnOk result (
        map ticket_of parts.new.items ≡ map ticket_of parts.old.items ++ number ∷ []) }
    ensures right { OnOk result (All (IsPartOfPhase P.answers phase.now count) parts.old.items
        → All (IsPartOfPhase P.answers phase.now count) parts.new.items) }
{
    let mut answers = Vec::new(alloc);
    let segment = Segment::of(phase.road.cars(), count, number);
    P::ask(&mut answers, phase, segment)?;
    parts.push(Part { number, answers })?;
    Ok(())
}

/// Draws one segment after another and asks its cars, until no segment is left.
///
/// # Errors
///
/// If an allocation fails.
pub fn work<A: Drop, P: Asked<A>, G: Gate>(
    alloc: Global,
    phase: &Phase<P>,
    tickets: &Tickets,
    drawer: &mut Drawer,
    worker: u32,
    gate: &G,
) -> Result<Vec<Part<A>>, AllocError>
    requires from { IsDrawerOf tickets.now drawer.old }
    requires fresh { tickets_of drawer.old ≡ [] }
    requires lanes { P.can_ask phase.now.road.now }
    ensures from { IsDrawerOf tickets.now drawer.new }
    ensures passes { passes_of drawer.new ≡ passes_of drawer.old }
    ensures parts { IfOk result (λ parts.
        HasParts (IsPartOfPhase P.answers phase.now (ticket_count tickets.now)) drawer.new parts.items) }
{
    let mut parts = Vec::new(alloc);
    while let Some(number) = tickets.draw(drawer) {
        gate.pass(phase.dice.road, worker, P::PHASE, number);
        add_part(&mut parts, alloc, phase, tickets.plan.count, number)?;
    }
    Ok(parts)
}

/// The parts of two workers, in one list.
///
/// # Errors
///
/// If an allocation fails now, or failed for one of the workers.
pub fn join_parts<A: Drop>(
    one: Result<Vec<Part<A>>, AllocError>,
    other: Result<Vec<Part<A>>, AllocError>,
) -> Result<Vec<Part<A>>, AllocError>
    ensures { IfOk result (λ all.
        IsOkAnd one (λ one. IsOkAnd other (λ other. all.items ≡ one.items ++ other.items))) }
{
    let mut all = one?;
    let mut other = other?;
    if all.is_empty() {
        return Ok(other);
    }
    all.append(&mut other)?;
    Ok(all)
}

/// For each of `count` segments, in order, the index of its part.
///
/// # Errors
///
/// If an allocation fails.
fn part_indices<A>(alloc: Global, parts: &[Part<A>], count: u32) -> Result<Vec<usize>, AllocError>
    requires { IsPermutation (map ticket_of parts.now) count }
    ensures { IfOk result (HasIndices parts.now count) }
{
    let mut indices = vec![in alloc; 0; count as usize]?;
    for index in 0..parts.len() {
        indices[parts[index].number as usize] = index;
    }
    Ok(indices)
}

/// Replaces a list by the answers of the parts of `count` segments, in the order of their numbers. A list with enough
/// capacity is reused without an allocation.
///
/// # Errors
///
/// If an allocation fails.
pub fn line_up<A: Copy, P: Asked<A>>(
    answers: &mut Vec<A>,
    phase: &Phase<P>,
    count: u32,
    parts: &[Part<A>],
) -> Result<(), AllocError>
    requires right { All (IsPartOfPhase P.answers phase.now count) parts.now }
    requires whole { IsPermutation (map ticket_of parts.now) count }
    ensures { OnOk result (P.answers phase.now.program.now phase.now.dice.now
        phase.now.road.now 0 (first_car (cars phase.now.road.now) count count) answers.new.items) }
{
    let indices = part_indices(*answers.allocator(), parts, count)?;
    answers.clear();
    answers.reserve(phase.road.cars() as usize)?;
    for number in 0..count {
        let index = indices[number as usize];
        answers.extend_from_slice(&parts[index].answers)?;
    }
    Ok(())
}

/// Replaces a list by the answers of all cars, in standing order.
///
/// # Errors
///
/// If an allocation fails.
fn ask_whole<A, P: Asked<A>>(answers: &mut Vec<A>, phase: &Phase<P>) -> Result<(), AllocError>
    requires { P.can_ask phase.now.road.now }
    ensures { OnOk result (P.answers phase.now.program.now phase.now.dice.now
        phase.now.road.now 0 (cars phase.now.road.now) answers.new.items) }
{
    let to = phase.road.cars();
    P::ask(answers, phase, Segment { from: 0, to })
}

/// Replaces a list by the answers of all cars, in standing order, from the parts of a drawer's tickets. If a ticket is
/// missing, all cars are asked here.
///
/// # Errors
///
/// If an allocation fails.
pub fn collect<A: Copy, P: Asked<A>>(
    answers: &mut Vec<A>,
    phase: &Phase<P>,
    tickets: Tickets,
    drawer: Drawer,
    parts: &[Part<A>],
) -> Result<(), AllocError>
    requires lanes { P.can_ask phase.now.road.now }
    requires from { IsDrawerOf tickets drawer }
    requires parts { HasParts (IsPartOfPhase P.answers phase.now (ticket_count tickets)) drawer parts.now }
    requires cut { first_car (cars phase.now.road.now) (ticket_count tickets) (ticket_count tickets)
        ≡ cars phase.now.road.now }
    ensures { OnOk result (P.answers phase.now.program.now phase.now.dice.now
        phase.now.road.now 0 (cars phase.now.road.now) answers.new.items) }
{
    let count = tickets.plan.count;
    match tickets.finish(drawer) {
        Ok(()) => line_up(answers, phase, count, parts),
        Err(_) => ask_whole(answers, phase),
    }
}
