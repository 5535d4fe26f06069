//! The tokens of a list: its strands, their keeper, and the word that all of them share. Each call is a few atomic
//! steps, and waits for no other thread.

ghost use Rattle.std.specs.Prelude.{◌≡◌, ◌<◌, ◌≤◌, ◌+◌, max, true, false, [], ◌∷◌, ◌++◌, length, IfOk};
ghost use Rattle.trlab_strands.specs.Knowledge.{IsLinearization, AreInList, first_seat};
ghost use Rattle.trlab_strands.specs.declared.knowledge.TheConstants.{ALL_PARTS};

use crate::knowledge::{
    Apart, AuditList, JoinStrands, Ledger, NoteEvent, OncePerEvent, OnePart, SeeWholeList,
    StrandKnowledge,
};
use atomic_table::{Seat, Table};
use std::alloc::{AllocError, Global};
use std::marker::PhantomData;

/// The strands of an empty list, before a ledger has named them.
#[derive(Drop)]
pub struct Blank<E> {
    pub(crate) table: Table<E, StrandKnowledge<E>, (), OncePerEvent<E>, Global>,
    pub(crate) seat: Seat<E, StrandKnowledge<E>>,
    ghost one_word: { table.shared.table_id.words ≡ 1 },
    ghost from: { seat.table_id ≡ table.shared.table_id },
    ghost first: { seat.me ≡ (first_seat, []) },
}

/// The word that all strands of one list share by reference.
#[derive(Drop)]
pub struct Strands<L: Ledger, E> {
    pub(crate) table: Table<E, StrandKnowledge<E>, (), OncePerEvent<E>, Global>,
    pub(crate) ledger: PhantomData<L>,
    ghost at: { table.shared.table_id ≡ L.name },
    ghost one_word: { table.shared.table_id.words ≡ 1 },
}

/// The knowledge of the whole list. It is kept under the same lock as the list.
#[derive(Drop)]
pub struct Keeper<L: Ledger, E> {
    pub(crate) seat: Seat<E, StrandKnowledge<E>>,
    pub(crate) ledger: PhantomData<L>,
    ghost at: { seat.table_id ≡ L.name },
    ghost no_slot: { seat.me.1 ≡ [] },
    ghost has_list: { seat.me.0.has_list ≡ true },
}

/// The events that one thread added to the list, and 1 to `ALL_PARTS` parts of the right to add more.
#[derive(Drop)]
pub struct Strand<L: Ledger, E> {
    pub(crate) seat: Seat<E, StrandKnowledge<E>>,
    pub(crate) ledger: PhantomData<L>,
    ghost at: { seat.table_id ≡ L.name },
    ghost no_slot: { seat.me.1 ≡ [] },
    ghost no_list: { seat.me.0.has_list ≡ false },
    ghost some: { 0 < seat.me.0.parts },
}

impl<E: Drop> Blank<E> {
    ghost use Rattle.trlab_strands.specs.Tokens.{strand_events, strand_clock, keeper_list, name_of, strand_parts};

    /// Allocates the word that the strands of an empty list will share.
    ///
    /// # Errors
    ///
    /// If the allocation fails.
    pub fn new(alloc: Global) -> Result<Blank<E>, AllocError> {
        let (table, seat) = Table::of_words(alloc, &[0], &())?;
        Ok(Blank { table, seat })
    }

    /// The shared word, the keeper of an empty list, and the strand with all parts.
    pub fn open<L: Ledger>(self) -> (Strands<L, E>, Keeper<L, E>, Strand<L, E>)
        requires { name_of self ≡ L.name }
        ensures list { keeper_list result.1 ≡ [] }
        ensures parts { strand_parts result.2 ≡ ALL_PARTS }
        ensures events { (strand_events result.2 ≡ []) × (strand_clock result.2 ≡ 0) }
    {
        let Blank { table, mut seat } = self;
        let list = table.shared.split_seat::<Apart>(&mut seat);
        (
            Strands {
                table,
                ledger: PhantomData,
            },
            Keeper {
                seat: list,
                ledger: PhantomData,
            },
            Strand {
                seat,
                ledger: PhantomData,
            },
        )
    }
}

impl<L: Ledger, E: Drop> Keeper<L, E> {
    ghost use Rattle.trlab_strands.specs.Tokens.{AddsEvent, CatchesUp, IsSameStrand, strand_events, keeper_list, strand_parts};

    /// Records an event as the next one of the list, and as the last one of this strand.
    pub fn note(&mut self, strands: &Strands<L, E>, strand: &mut Strand<L, E>, event: &E)
        ensures list { keeper_list self.new ≡ keeper_list self.old ++ event.now ∷ [] }
        ensures strand { AddsEvent strand.old (keeper_list self.old) event.now strand.new }
    {
        let shared = &strands.table.shared;
        let list = shared.split_seat::<Apart>(&mut self.seat);
        shared.join_seat::<JoinStrands>(&mut strand.seat, list);
        shared.compare_exchange_with::<NoteEvent>(&mut strand.seat, 0, 0, 0, event);
        self.seat = shared.split_seat::<Apart>(&mut strand.seat);
    }

    /// Lets a strand see the whole list: its clock rises to the length of the list. Nothing else changes.
    pub fn look(&mut self, strands: &Strands<L, E>, strand: &mut Strand<L, E>)
        ensures list { keeper_list self.new ≡ keeper_list self.old }
        ensures strand { CatchesUp strand.old (length (keeper_list self.old)) strand.new }
    {
        let shared = &strands.table.shared;
        let list = shared.split_seat::<Apart>(&mut self.seat);
        shared.join_seat::<JoinStrands>(&mut strand.seat, list);
        shared.load::<SeeWholeList>(&mut strand.seat, 0);
        self.seat = shared.split_seat::<Apart>(&mut strand.seat);
    }

    /// Changes nothing, and shows how the list and a strand agree. Each event of the strand is in the list after its
    /// earlier events. The strand has at most as many events as the list, and exactly as many if it has all parts; the
    /// list is then a linearization of them.
    pub fn audit(&mut self, strands: &Strands<L, E>, strand: &mut Strand<L, E>)
        ensures same { (keeper_list self.new ≡ keeper_list self.old) × IsSameStrand strand.old strand.new }
        ensures at_most_all_parts { strand_parts strand.old ≤ ALL_PARTS }
        ensures in_list { AreInList (keeper_list self.old) (strand_events strand.old) }
        ensures most { length (strand_events strand.old) ≤ length (keeper_list self.old) }
        ensures whole { strand_parts strand.old ≡ ALL_PARTS
            → length (strand_events strand.old) ≡ length (keeper_list self.old) }
        ensures all { length (strand_events strand.old) ≡ length (keeper_list self.old)
            → IsLinearization (keeper_list self.old) (strand_events strand.old) }
    {
        let shared = &strands.table.shared;
        let list = shared.split_seat::<Apart>(&mut self.seat);
        shared.join_seat::<JoinStrands>(&mut strand.seat, list);
        shared.load::<AuditList>(&mut strand.seat, 0);
        self.seat = shared.split_seat::<Apart>(&mut strand.seat);
    }
}

impl<L: Ledger, E: Drop> Strands<L, E> {
    ghost use Rattle.trlab_strands.specs.Tokens.{strand_events, strand_clock, strand_parts};

    /// Takes one part from a strand with two or more, and returns it as a new strand without events. The old strand
    /// keeps its events.
    pub fn split(&self, strand: &mut Strand<L, E>) -> Strand<L, E>
        requires { 1 < strand_parts strand.old }
        ensures parts { (strand_parts strand.new + 1 ≡ strand_parts strand.old) × (strand_parts result ≡ 1) }
        ensures events { (strand_events strand.new ≡ strand_events strand.old) × (strand_events result ≡ []) }
        ensures least { (strand_clock strand.new ≡ strand_clock strand.old)
            × (strand_clock result ≡ strand_clock strand.old) }
    {
        let seat = self.table.shared.split_seat::<OnePart>(&mut strand.seat);
        Strand {
            seat,
            ledger: PhantomData,
        }
    }

    /// One strand with the parts and the events of both.
    pub fn gather(&self, one: Strand<L, E>, other: Strand<L, E>) -> Strand<L, E>
        ensures parts { (strand_parts result ≡ strand_parts one + strand_parts other)
            × (strand_parts result ≤ ALL_PARTS) }
        ensures events { strand_events result ≡ strand_events one ++ strand_events other }
        ensures least { strand_clock result ≡ max (strand_clock one) (strand_clock other) }
    {
        let shared = &self.table.shared;
        let Strand { mut seat, .. } = one;
        let Strand { seat: joined, .. } = other;
        shared.join_seat::<JoinStrands>(&mut seat, joined);
        shared.load::<AuditList>(&mut seat, 0);
        Strand {
            seat,
            ledger: PhantomData,
        }
    }
}
