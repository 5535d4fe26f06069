//! The knowledge of strands and their keeper, and its invariant in each atomic step. All of this is ghost state: at
//! run time there is only one word.

use atomic_table::{Join, Play, Split, TableRule};
use std::collections::LinkedList;
use std::marker::{Brand, PhantomData};

/// The number of parts of the right to add to a list, and so the maximum number of its strands.
pub const ALL_PARTS: u32 = 1024;

/// Names the strands of one list, so that only strands of the same list are joined. Each run of a program picks a new
/// name.
pub trait Ledger {
    ghost use Rattle.atomic_table.specs.Seated.{TableId};

    ghost name: { TableId };
}

impl Ledger for Brand {
    ghost use Rattle.std.specs.Prelude.{[]};

    ghost name = { record {
      words = 0;
      slots = 0;
      views_name = 0;
      atom = 0;
      block = 0;
      offset = 0;
      slot_names = [];
    } };
}

/// An event with all earlier events of the list. Only contracts use this type.
pub struct Noted<E> {
    pub before: LinkedList<E>,
    pub event: E,
}

/// The knowledge of a seat: for a strand its parts, the events that it added, and its clock, the smallest number that
/// its next event may have; for the keeper the whole list. Only contracts use this type.
pub struct StrandKnowledge<E> {
    pub parts: u32,
    pub events: LinkedList<Noted<E>>,
    pub clock: u64,
    pub has_list: bool,
    pub list: LinkedList<E>,
}

/// The invariant: each event of the list is in exactly one strand, once.
pub struct OncePerEvent<E> {
    marker: PhantomData<E>,
}

impl<E> TableRule<E, StrandKnowledge<E>, ()> for OncePerEvent<E> {
    ghost use Rattle.trlab_strands.specs.Knowledge.{SatisfiesStrandInvariant, first_seat};

    ghost holds = { λ key. SatisfiesStrandInvariant };

    ghost first = { λ key. first_seat };
}

/// The step in which a strand adds an event to the list.
pub struct NoteEvent;

impl<E> Play<E, StrandKnowledge<E>> for NoteEvent {
    ghost use Rattle.trlab_strands.specs.Knowledge.{NotesEvent};

    ghost then = { NotesEvent };
}

/// The step that compares a strand with the list, and changes nothing.
pub struct AuditList;

impl<E> Play<E, StrandKnowledge<E>> for AuditList {
    ghost use Rattle.trlab_strands.specs.Knowledge.{AuditsList};

    ghost then = { AuditsList };
}

/// The step in which a strand sees the whole list: its clock becomes the list's length.
pub struct SeeWholeList;

impl<E> Play<E, StrandKnowledge<E>> for SeeWholeList {
    ghost use Rattle.trlab_strands.specs.Knowledge.{SeesWholeList};

    ghost then = { SeesWholeList };
}

/// The list moves from a strand to a new seat.
pub struct Apart;

impl<E> Split<StrandKnowledge<E>> for Apart {
    ghost use Rattle.trlab_strands.specs.Knowledge.{without_list, list_seat};

    ghost left = { without_list };

    ghost right = { list_seat };
}

/// One part moves from a strand to a new strand.
pub struct OnePart;

impl<E> Split<StrandKnowledge<E>> for OnePart {
    ghost use Rattle.trlab_strands.specs.Knowledge.{without_one_part, one_part};

    ghost left = { without_one_part };

    ghost right = { one_part };
}

/// Two strands become one, or a strand takes over the list.
pub struct JoinStrands;

impl<E> Join<StrandKnowledge<E>> for JoinStrands {
    ghost use Rattle.trlab_strands.specs.Knowledge.{both_seats, no_knowledge};

    ghost both = { both_seats };

    ghost spent = { no_knowledge };
}
