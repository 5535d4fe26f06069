//! Tickets and their drawers: one shared counter, which is the next ticket, and for each drawer a seat at it. Each
//! call is one atomic step, or two, and waits for no other drawer.

ghost use Rattle.std.specs.Prelude.{◌≡◌, ◌<◌, ◌≤◌, ◌+◌, [], ◌++◌, ◌||◌, ◌↔◌, true};
ghost use Rattle.std.specs.Prelude.{None, IfOk, IfErr, IsOk, IfSome, IfNone};

use crate::ticket_rule::{
    DrawNext, JoinDrawers, OncePerTicket, OnePass, Plan, ReadCounter, TicketKnowledge,
};
use atomic_table::{Seat, Table};
use std::alloc::{AllocError, Global};

/// The numbers below a count, each to be drawn once, by any of up to `MAX_WORKERS` drawers. Threads may share the
/// tickets by reference: their counter changes in atomic steps, without a lock.
#[derive(Drop)]
pub struct Tickets {
    pub(crate) plan: Plan,
    pub(crate) table: Table<u8, TicketKnowledge, Plan, OncePerTicket, Global>,
    ghost one_word: { table.shared.table_id.words ≡ 1 },
    ghost no_slot: { table.shared.table_id.slots ≡ 0 },
    ghost same_plan: { table.shared.key ≡ plan },
}

/// Draws tickets, with one pass or more. A pass is the right to draw; a drawer with two passes can be split. The drawn
/// tickets are recorded only in ghost state, so they use no memory at run time.
#[derive(Drop)]
pub struct Drawer {
    pub(crate) passes: u32,
    pub(crate) has_ended: bool,
    pub(crate) seat: Seat<u8, TicketKnowledge>,
    ghost no_slot: { seat.me.1 ≡ [] },
    ghost some: { 0 < passes },
    ghost passes_are: { seat.me.0.passes ≡ passes },
    ghost ended_is: { seat.me.0.has_ended ≡ has_ended },
}

impl Tickets {
    ghost use Rattle.trlab_bounds.specs.declared.runs.TheConstants.{MAX_WORKERS};
    ghost use Rattle.trlab_segments.specs.Drawers.{IsDrawerOf, IsUnused, HasAllPasses, HasDrawn, IsSameDrawer};
    ghost use Rattle.trlab_segments.specs.Drawers.{ticket_count, drawers_of, passes_of, tickets_of, is_ended};
    ghost use Rattle.trlab_segments.specs.Knowledge.{IsPermutation};

    /// The tickets from 0 up to, but not including, `count`, and their first drawer, which has a pass for each of
    /// `drawers` drawers.
    ///
    /// # Errors
    ///
    /// If the counter cannot be allocated.
    pub fn start(alloc: Global, count: u32, drawers: u32) -> Result<(Tickets, Drawer), AllocError>
        requires { (0 < drawers) × (drawers ≤ MAX_WORKERS) }
        ensures from { IfOk result (λ r. IsDrawerOf r.0 r.1) }
        ensures count { IfOk result (λ r. ticket_count r.0 ≡ count) }
        ensures drawers { IfOk result (λ r. (drawers_of r.0 ≡ drawers) × (passes_of r.1 ≡ drawers)) }
        ensures fresh { IfOk result (λ r. IsUnused r.1) }
    {
        let plan = Plan { count, drawers };
        let (table, seat) = Table::of_words(alloc, &[0], &plan)?;
        let tickets = Tickets { plan, table };
        let drawer = Drawer {
            passes: drawers,
            has_ended: false,
            seat,
        };
        Ok((tickets, drawer))
    }

    /// Draws the next ticket, which no drawer drew before, or returns `None` if all are drawn. The drawer has then
    /// ended: from then on it returns `None` without an atomic step.
    pub fn draw(&self, drawer: &mut Drawer) -> Option<u32>
        requires { IsDrawerOf self.now drawer.old }
        ensures from { IsDrawerOf self.now drawer.new }
        ensures passes { passes_of drawer.new ≡ passes_of drawer.old }
        ensures some { IfSome result (λ i. HasDrawn self.now drawer.old i drawer.new) }
        ensures none { IfNone result (
            (tickets_of drawer.new ≡ tickets_of drawer.old) × (is_ended drawer.new ≡ true)) }
        ensures ended { is_ended drawer.old ≡ true → (result ≡ None) × (is_ended drawer.new ≡ true) }
    {
        if drawer.has_ended {
            return None;
        }
        let found = self
            .table
            .shared
            .fetch_add::<DrawNext>(&mut drawer.seat, 0, 1);
        if found < self.plan.count as u64 {
            Some(found as u32)
        } else {
            drawer.has_ended = true;
            None
        }
    }

    /// Takes one pass from a drawer with two or more, and returns it as a new drawer. The old drawer keeps its tickets;
    /// if it has ended, so has the new one.
    pub fn split(&self, drawer: &mut Drawer) -> Drawer
        requires from { IsDrawerOf self.now drawer.old }
        requires more { 1 < passes_of drawer.old }
        ensures from { IsDrawerOf self.now drawer.new × IsDrawerOf self.now result }
        ensures passes { (passes_of drawer.new + 1 ≡ passes_of drawer.old) × (passes_of result ≡ 1) }
        ensures tickets { (tickets_of drawer.new ≡ tickets_of drawer.old) × (tickets_of result ≡ []) }
        ensures ended { (is_ended drawer.new ≡ is_ended drawer.old)
            × (is_ended result ≡ is_ended drawer.old) }
    {
        let seat = self.table.shared.split_seat::<OnePass>(&mut drawer.seat);
        drawer.passes -= 1;
        Drawer {
            passes: 1,
            has_ended: drawer.has_ended,
            seat,
        }
    }

    /// One drawer with the passes and tickets of both, ended if one of them has.
    pub fn gather(&self, one: Drawer, other: Drawer) -> Drawer
        requires { IsDrawerOf self.now one × IsDrawerOf self.now other }
        ensures from { IsDrawerOf self.now result }
        ensures passes { passes_of result ≡ passes_of one + passes_of other }
        ensures tickets { tickets_of result ≡ tickets_of one ++ tickets_of other }
        ensures ended { is_ended result ≡ (is_ended one || is_ended other) }
    {
        let Drawer {
            passes: one_passes,
            has_ended: one_ended,
            mut seat,
        } = one;
        let Drawer {
            passes: other_passes,
            has_ended: other_ended,
            seat: other_seat,
        } = other;
        self.table
            .shared
            .join_seat::<JoinDrawers>(&mut seat, other_seat);
        // For the proof: reading the counter shows that the passes are at most the drawers, so their sum does not
        // overflow.
        self.table.shared.load::<ReadCounter>(&mut seat, 0);
        Drawer {
            passes: one_passes + other_passes,
            has_ended: one_ended || other_ended,
            seat,
        }
    }

    /// Ends the tickets if the drawer has all passes and all tickets; each ticket was then drawn once. A drawer with
    /// all passes that has ended has all tickets.
    ///
    /// # Errors
    ///
    /// The tickets and the drawer, if the drawer does not have all passes or a ticket is left.
    pub fn finish(self, drawer: Drawer) -> Result<(), (Tickets, Drawer)>
        requires { IsDrawerOf self drawer }
        ensures ok { IsOk result ↔ HasAllPasses self drawer × IsPermutation (tickets_of drawer) (ticket_count self) }
        ensures err { IfErr result (λ r. (r.0 ≡ self) × IsSameDrawer r.1 drawer) }
        ensures ended { HasAllPasses self drawer → is_ended drawer ≡ true → IsOk result }
    {
        let mut drawer = drawer;
        // Reads the counter, by the step that is fixed for this call: a `fetch_add` of 0.
        let next = self
            .table
            .shared
            .fetch_add::<ReadCounter>(&mut drawer.seat, 0, 0);
        if drawer.passes == self.plan.drawers && next >= self.plan.count as u64 {
            Ok(())
        } else {
            Err((self, drawer))
        }
    }
}

impl Drawer {
    ghost use Rattle.trlab_segments.specs.Drawers.{passes_of};

    /// The number of passes of the drawer, from 1 to `MAX_WORKERS`.
    pub fn passes(&self) -> u32
        ensures { result ≡ passes_of self.now }
    {
        self.passes
    }
}
