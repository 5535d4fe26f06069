//! The knowledge of a drawer, and its invariant in each atomic step. All of this is ghost state: at run time there is
//! one counter.

use atomic_table::{Join, Play, Split, TableRule};
use std::collections::LinkedList;

/// The number of tickets, and the maximum number of drawers.
#[derive(Clone, Copy)]
pub struct Plan {
    pub count: u32,
    pub drawers: u32,
}

/// The knowledge of a drawer: the plan, its passes, the tickets that it drew, the smallest ticket that it may draw
/// next, and whether it has found that none is left. Only contracts use this type.
pub struct TicketKnowledge {
    pub plan: Plan,
    pub passes: u32,
    pub tickets: LinkedList<u32>,
    pub least_next: u64,
    pub has_ended: bool,
}

/// The invariant: each ticket that was drawn was drawn once, by one drawer.
pub struct OncePerTicket;

impl TableRule<u8, TicketKnowledge, Plan> for OncePerTicket {
    ghost use Rattle.trlab_segments.specs.Knowledge.{SatisfiesTicketInvariant, first_drawer};

    ghost holds = { SatisfiesTicketInvariant };

    ghost first = { first_drawer };
}

/// The step that draws the next ticket.
pub struct DrawNext;

impl Play<u8, TicketKnowledge> for DrawNext {
    ghost use Rattle.trlab_segments.specs.Knowledge.{DrawsTicket};

    ghost then = { DrawsTicket };
}

/// The step that reads the counter, and changes nothing.
pub struct ReadCounter;

impl Play<u8, TicketKnowledge> for ReadCounter {
    ghost use Rattle.trlab_segments.specs.Knowledge.{ReadsCounter};

    ghost then = { ReadsCounter };
}

/// One pass moves from a drawer to a new drawer.
pub struct OnePass;

impl Split<TicketKnowledge> for OnePass {
    ghost use Rattle.trlab_segments.specs.Knowledge.{less_a_pass, one_pass};

    ghost left = { less_a_pass };

    ghost right = { one_pass };
}

/// Two drawers become one.
pub struct JoinDrawers;

impl Join<TicketKnowledge> for JoinDrawers {
    ghost use Rattle.trlab_segments.specs.Knowledge.{both_drawers, idle_knowledge};

    ghost both = { both_drawers };

    ghost spent = { idle_knowledge };
}
