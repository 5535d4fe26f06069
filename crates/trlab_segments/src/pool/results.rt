//! The results of a phase so far: the deposits of helpers, and the passes that none of them has taken.

ghost use Rattle.std.specs.Prelude.{IfSome};
ghost use Rattle.trlab_segments.specs.Answered.{AreResults, IsRightResult};
ghost use Rattle.trlab_segments.specs.Drawers.{IsDrawerOf, IsJoined, HasDrawnNone};

use crate::parts::{Part, join_parts};
use crate::phase::Asked;
use crate::pool::brief::Brief;
use crate::pool::keyed_lock::Keyed;
use crate::tickets::{Drawer, Tickets};
use std::alloc::AllocError;

/// The passes that no helper has taken yet, the tickets that helpers have drawn, and their answers.
#[derive(Drop)]
pub struct Results<A> {
    pub reserve: Option<Drawer>,
    pub done: Option<Drawer>,
    /// An error if an allocation failed in a helper.
    pub parts: Result<Vec<Part<A>>, AllocError>,
}

impl<A, P: Asked<A>> Keyed<Brief<P>> for Results<A> {
    ghost fits = { λ brief results. AreResults P.answers P.can_ask brief results };
}

/// Takes a pass from the reserve for a helper, if one is left, together with the helper's worker number, from 1 on.
pub fn take_pass<A: Drop, P: Asked<A>>(
    brief: &Brief<P>,
    results: Results<A>,
) -> (Results<A>, Option<(Drawer, u32)>)
    requires { AreResults P.answers P.can_ask brief.now results }
    ensures results { AreResults P.answers P.can_ask brief.now result.0 }
    ensures new { IfSome result.1 (λ taken. HasDrawnNone brief.now.tickets taken.0) }
{
    let Results {
        reserve,
        done,
        parts,
    } = results;
    let (reserve, taken) = match reserve {
        None => (None, None),
        Some(drawer) => {
            let worker = drawer.passes();
            let (left, pass) = split_pass(&brief.tickets, drawer);
            (left, Some((pass, worker)))
        }
    };
    (
        Results {
            reserve,
            done,
            parts,
        },
        taken,
    )
}

/// Splits one pass off a drawer. Returns the rest, which is `None` after the last pass, and the drawer with this pass.
pub fn split_pass(tickets: &Tickets, drawer: Drawer) -> (Option<Drawer>, Drawer)
    requires { HasDrawnNone tickets.now drawer }
    ensures left { IfSome result.0 (HasDrawnNone tickets.now) }
    ensures pass { HasDrawnNone tickets.now result.1 }
{
    let mut drawer = drawer;
    if drawer.passes() < 2 {
        return (None, drawer);
    }
    let pass = tickets.split(&mut drawer);
    (Some(drawer), pass)
}

/// The results, after a helper has deposited its drawer and its parts.
pub fn deposit<A: Drop, P: Asked<A>>(
    brief: &Brief<P>,
    results: Results<A>,
    drawer: Drawer,
    more: Result<Vec<Part<A>>, AllocError>,
) -> Results<A>
    requires results { AreResults P.answers P.can_ask brief.now results }
    requires done { IsRightResult P.answers brief.now drawer more }
    ensures { AreResults P.answers P.can_ask brief.now result }
{
    let Results {
        reserve,
        done,
        parts,
    } = results;
    Results {
        reserve,
        done: Some(one_drawer(&brief.tickets, done, drawer)),
        parts: join_parts(parts, more),
    }
}

/// Gathers a drawer into an earlier one, if there is one. The earlier tickets come first.
fn one_drawer(tickets: &Tickets, before: Option<Drawer>, drawer: Drawer) -> Drawer
    requires before { IfSome before (IsDrawerOf tickets.now) }
    requires from { IsDrawerOf tickets.now drawer }
    ensures { IsJoined tickets.now before drawer result }
{
    match before {
        None => drawer,
        Some(before) => tickets.gather(before, drawer),
    }
}

/// The drawer with all passes that came back, and the parts of all workers, in one list.
///
/// # Errors
///
/// The second part is an error if an allocation failed, in a helper or in the caller.
pub fn gather_results<A: Drop, P: Asked<A>>(
    brief: &Brief<P>,
    results: Results<A>,
    mine: Drawer,
    parts: Result<Vec<Part<A>>, AllocError>,
) -> (Drawer, Result<Vec<Part<A>>, AllocError>)
    requires results { AreResults P.answers P.can_ask brief.now results }
    requires done { IsRightResult P.answers brief.now mine parts }
    ensures { IsRightResult P.answers brief.now result.0 result.1 }
{
    let Results {
        reserve,
        done,
        parts: theirs,
    } = results;
    let drawn = one_drawer(&brief.tickets, done, mine);
    let drawer = one_drawer(&brief.tickets, reserve, drawn);
    (drawer, join_parts(theirs, parts))
}
