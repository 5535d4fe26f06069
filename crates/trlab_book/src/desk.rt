//! A book that threads share, and the desks through which they call it.

ghost use Rattle.std.specs.Prelude.{◌≡◌, ◌+◌, ◌-◌, ◌<◌, ◌≤◌, ◌^◌, ◌++◌, [], Bool, false, max, min, length, IfOk, IfErr, IsOk};
ghost use Rattle.trlab_strands.specs.Knowledge.{IsLinearization};
ghost use Rattle.trlab_strands.specs.Tokens.{keeper_list, name_of, strand_events, strand_parts};
ghost use Rattle.trlab_strands.specs.declared.knowledge.TheConstants.{ALL_PARTS};
ghost use Rattle.trlab_sequential_book.specs.declared.event.Reply.TheVariants.{Refused};

use crate::kept::{Kept, boxed, replace_call, submit_call};
use std::alloc::Global;
use std::sync::{Mutex, Wait};
use trlab_rules::Rule;
use trlab_sequential_book::{
    Book, BookFault, Event, Lease, Order, Seed, SharedRule, SharedSeed, Snapshot,
};
use trlab_strands::{ALL_PARTS, Blank, Keeper, Ledger, Strand, Strands};

/// The value under the lock of a shared book: the book with its history, and the keeper of the desks' strands, which
/// knows the same events.
#[derive(Drop)]
struct Locked<L: Ledger> {
    kept: Kept,
    keeper: Keeper<L, Event>,
    ghost noted: { kept.history.items ≡ keeper_list keeper },
}

/// A book that threads share. Each call takes the lock once. It becomes one event of the history and of the desk's
/// subhistory, unless it is refused as `HistoryFull` or `Memory`.
pub struct SharedBook<L: Ledger> {
    lock: Mutex<Locked<L>>,
    strands: Strands<L, Event>,
}

// Not derived: a derived drop is proved again, field by field, wherever the value goes out of scope.
impl<L: Ledger> Drop for SharedBook<L> {
    fn drop(self) {
        let SharedBook {
            lock: _lock,
            strands: _strands,
        } = self;
    }
}

/// The right to call a shared book, with 1 to `ALL_PARTS` parts. A desk counts the events made through it; the events
/// themselves are recorded only in ghost state, so they use no memory at run time.
#[derive(Drop)]
pub struct Desk<L: Ledger> {
    parts: u32,
    count: u64,
    strand: Strand<L, Event>,
    ghost in_range: { (0 < parts) × (parts ≤ ALL_PARTS) },
    ghost same_parts: { strand_parts strand ≡ parts },
    ghost same_count: { count ≡ min (length (strand_events strand)) (2 ^ 64 - 1) },
}

impl<L: Ledger> Desk<L> {
    ghost use Rattle.trlab_sequential_book.specs.declared.event.Call.{Call};
    ghost use Rattle.trlab_sequential_book.specs.declared.event.Reply.{Reply};
    ghost use Rattle.trlab_sequential_book.specs.Histories.{is_event, is_history_full};
    ghost use Rattle.trlab_sequential_book.specs.Machine.{has_full_history};
    ghost use Rattle.trlab_book.specs.Events.{WasMadeAfter};
    ghost use Rattle.trlab_book.specs.Desks.{NotesCall, part_count};

    /// The number of parts, from 1 to `ALL_PARTS`.
    pub fn parts(&self) -> u32
        ensures { result ≡ part_count self.now }
    {
        self.parts
    }

    /// Notes the call that has just been made; the history had `before` events before it. If the history has grown, the
    /// new event is added to the desk's subhistory. If it is full and has not grown, the desk has now seen all of it.
    ///
    /// A call breaks the invariant of `Locked` and this function restores it. It therefore takes the fields of `Locked`
    /// one by one.
    fn note_event(
        &mut self,
        keeper: &mut Keeper<L, Event>,
        strands: &Strands<L, Event>,
        kept: &Kept,
        before: usize,
    )
        requires { before ≡ length (keeper_list keeper.old) }
        ensures { (call : Call) (reply : Reply) → WasMadeAfter (keeper_list keeper.old) call reply kept.now
            → (is_event reply ≡ false → is_history_full reply ≡ has_full_history kept.now.book)
            → (kept.now.history.items ≡ keeper_list keeper.new)
            × NotesCall self.old (keeper_list keeper.old) call reply self.new }
    {
        if let Some(event) = kept.history.get(before) {
            keeper.note(strands, &mut self.strand, event);
            self.count = self.count.saturating_add(1);
        } else if kept.book.has_full_history() {
            keeper.look(strands, &mut self.strand);
        }
    }
}

impl<L: Ledger> SharedBook<L> {
    ghost use Rattle.trlab_sequential_book.specs.Histories.{give_back_reply, done_reply, is_event, lease_reply};
    ghost use Rattle.trlab_sequential_book.specs.Histories.{number_reply, order_reply, read_reply};
    ghost use Rattle.trlab_sequential_book.specs.Comparison.{LeaseCall, OrderCall, offered};
    ghost use Rattle.trlab_sequential_book.specs.Leases.{FitsOrder};
    ghost use Rattle.trlab_sequential_book.specs.Histories.{Replays};
    ghost use Rattle.trlab_sequential_book.specs.declared.event.Call.TheVariants.{Cancel, GiveBack, Read};
    ghost use Rattle.trlab_sequential_book.specs.declared.event.Call.TheVariants.{Replace, Revoke, Submit};
    ghost use Rattle.trlab_book.specs.Desks.{MakesNoEvent, LeaseIsFresh, OrderHasRuleInForce, ReadShowsJob, IsSameBook, LacksEvents};
    ghost use Rattle.trlab_book.specs.Desks.{MakesCall, MakesCallOn, IsCorrectVerdict, clock_of, part_count, subhistory_of};

    /// An empty book, and the desk with all parts. This allocates nothing; it uses the memory of the blank.
    pub fn start(alloc: Global, blank: Blank<Event>) -> (SharedBook<L>, Desk<L>)
        requires { name_of blank ≡ L.name }
        ensures parts { part_count result.1 ≡ ALL_PARTS }
        ensures events { (subhistory_of result.1 ≡ []) × (clock_of result.1 ≡ 0) }
    {
        let (strands, keeper, strand) = blank.open::<L>();
        let lock = Mutex::new(Locked {
            kept: Kept::new(alloc),
            keeper,
        });
        let desk = Desk {
            parts: ALL_PARTS,
            count: 0,
            strand,
        };
        (SharedBook { lock, strands }, desk)
    }

    /// Ends the sharing, and returns the book with its history, a linearization of the desk's subhistory.
    ///
    /// # Errors
    ///
    /// The same book and the desk, if events were made at other desks that were not gathered into this one. The desk
    /// has then seen that it lacks events. A desk with all parts always closes the book.
    pub fn close(self, desk: Desk<L>) -> Result<(Book, Vec<Event>), (SharedBook<L>, Desk<L>)>
        ensures order { IfOk result (λ r. IsLinearization r.1.items (subhistory_of desk)) }
        ensures replays { IfOk result (λ r. ∥ Replays r.1.items r.0 ∥₁) }
        ensures err { IfErr result (λ r. LacksEvents desk r.1) }
        ensures book { IfErr result (λ r. IsSameBook self r.0) }
        ensures whole { part_count desk ≡ ALL_PARTS → IsOk result }
    {
        let SharedBook { lock, strands } = self;
        let Locked { kept, mut keeper } = lock.into_inner();
        let mut desk = desk;
        keeper.audit(&strands, &mut desk.strand);
        if kept.history.len() as u64 == desk.count {
            let Kept { book, history } = kept;
            return Ok((book, history));
        }
        keeper.look(&strands, &mut desk.strand);
        let lock = Mutex::new(Locked { kept, keeper });
        Err((SharedBook { lock, strands }, desk))
    }

    /// Takes one part from a desk with two or more, and returns it as a desk for another thread.
    pub fn split(&self, desk: &mut Desk<L>) -> Desk<L>
        requires { 1 < part_count desk.old }
        ensures parts { (part_count desk.new + 1 ≡ part_count desk.old) × (part_count result ≡ 1) }
        ensures events { (subhistory_of desk.new ≡ subhistory_of desk.old) × (subhistory_of result ≡ []) }
        ensures least { (clock_of desk.new ≡ clock_of desk.old) × (clock_of result ≡ clock_of desk.old) }
    {
        let strand = self.strands.split(&mut desk.strand);
        desk.parts -= 1;
        Desk {
            parts: 1,
            count: 0,
            strand,
        }
    }

    /// Joins two desks: their parts, and the events of `one` followed by those of `other`.
    pub fn gather(&self, one: Desk<L>, other: Desk<L>) -> Desk<L>
        ensures parts { part_count result ≡ part_count one + part_count other }
        ensures events { subhistory_of result ≡ subhistory_of one ++ subhistory_of other }
        ensures least { clock_of result ≡ max (clock_of one) (clock_of other) }
    {
        let Desk {
            parts,
            count,
            strand,
        } = one;
        let Desk {
            parts: more,
            count: others,
            strand: joined,
        } = other;
        let strand = self.strands.gather(strand, joined);
        Desk {
            parts: parts + more,
            count: count.saturating_add(others),
            strand,
        }
    }

    /// Adds a job, which runs `steps` steps from the seed, under the rule until it is replaced. Returns the job's
    /// number. The history shares the seed and the rule with the job.
    ///
    /// # Errors
    ///
    /// `Full`, `LanesMismatch`, `HistoryFull` or `Memory`; seed and rule are dropped.
    pub fn submit<R: Wait>(
        &self,
        rt: &R,
        alloc: Global,
        desk: &mut Desk<L>,
        seed: Seed,
        rule: Rule,
        steps: u32,
    ) -> Result<u32, BookFault>
        ensures { MakesCall desk.old (Submit seed rule steps) (number_reply result) desk.new }
    {
        let Ok((seed, rule)) = boxed(alloc, seed, rule) else {
            return Err(self.refuse_without_memory(rt, desk));
        };
        self.submit_shared(rt, alloc, desk, seed, rule, steps)
    }

    /// `submit`, for a seed and a rule that have other owners, such as other jobs or the caller. No road is copied.
    ///
    /// # Errors
    ///
    /// Those of `submit`.
    pub fn submit_shared<R: Wait>(
        &self,
        rt: &R,
        alloc: Global,
        desk: &mut Desk<L>,
        seed: SharedSeed,
        rule: SharedRule,
        steps: u32,
    ) -> Result<u32, BookFault>
        ensures { MakesCall desk.old (Submit seed rule steps) (number_reply result) desk.new }
    {
        let Ok(call) = submit_call(&seed, &rule, steps) else {
            return Err(self.refuse_without_memory(rt, desk));
        };
        let mut guard = self.lock.lock(rt);
        let Locked { kept, keeper } = &mut *guard;
        let before = kept.history.len();
        let answer = kept.submit(alloc, seed, rule, steps, call);
        desk.note_event(keeper, &self.strands, kept, before);
        answer
    }

    /// Refuses a call that was not made because an allocation failed.
    fn refuse_without_memory<R: Wait>(&self, rt: &R, desk: &mut Desk<L>) -> BookFault
        ensures none { is_event (Refused result) ≡ false }
        ensures desk { (part_count desk.new ≡ part_count desk.old) × MakesNoEvent desk.old (Refused result) desk.new }
    {
        let mut guard = self.lock.lock(rt);
        let Locked { kept, keeper } = &mut *guard;
        let before = kept.history.len();
        let fault = kept.fault_without_memory();
        desk.note_event(keeper, &self.strands, kept, before);
        fault
    }

    /// Replaces a job's rule from the first step on that was never ordered. Returns this step. The rule is copied
    /// before the lock is taken.
    ///
    /// # Errors
    ///
    /// `NoSuchJob`, `Ended`, `LanesMismatch`, `SheetFull`, `HistoryFull` or `Memory`; the rule is dropped.
    pub fn replace<R: Wait>(
        &self,
        rt: &R,
        alloc: Global,
        desk: &mut Desk<L>,
        job: u32,
        rule: Rule,
    ) -> Result<u32, BookFault>
        ensures { MakesCall desk.old (Replace job rule) (number_reply result) desk.new }
    {
        let Ok(call) = replace_call(alloc, job, &rule) else {
            return Err(self.refuse_without_memory(rt, desk));
        };
        let mut guard = self.lock.lock(rt);
        let Locked { kept, keeper } = &mut *guard;
        let before = kept.history.len();
        let answer = kept.replace(job, rule, call);
        desk.note_event(keeper, &self.strands, kept, before);
        answer
    }

    /// Lends the free job with the smallest number, or returns `None` if no job is free. A job is free if it is not
    /// out, not cancelled and has steps to do.
    ///
    /// # Errors
    ///
    /// `HistoryFull` or `Memory`.
    pub fn lease<R: Wait>(
        &self,
        rt: &R,
        alloc: Global,
        desk: &mut Desk<L>,
    ) -> Result<Option<Lease>, BookFault>
        ensures { MakesCallOn (LeaseIsFresh result) desk.old LeaseCall (lease_reply result) desk.new }
    {
        let mut guard = self.lock.lock(rt);
        let Locked { kept, keeper } = &mut *guard;
        let before = kept.history.len();
        let answer = kept.lease(alloc);
        desk.note_event(keeper, &self.strands, kept, before);
        answer
    }

    /// Orders a lease's next step, and returns the rule in force there.
    ///
    /// # Errors
    ///
    /// `NoSuchJob`, `Ended`, `StrangerLease`, `HistoryFull` or `Memory`.
    pub fn order<R: Wait>(
        &self,
        rt: &R,
        alloc: Global,
        desk: &mut Desk<L>,
        lease: &Lease,
    ) -> Result<Order, BookFault>
        ensures made { (same : Bool)
            × MakesCallOn (λ book. IsCorrectVerdict lease.now same book × OrderHasRuleInForce result book) desk.old
            (OrderCall (offered lease.now same)) (order_reply result) desk.new }
        ensures fits { IfOk result (λ order. FitsOrder lease.now order) }
    {
        let mut guard = self.lock.lock(rt);
        let Locked { kept, keeper } = &mut *guard;
        let before = kept.history.len();
        let answer = kept.order(alloc, lease);
        desk.note_event(keeper, &self.strands, kept, before);
        answer
    }

    /// Takes a lease back: the job's road and its steps done become those of the lease.
    ///
    /// # Errors
    ///
    /// `NoSuchJob`, `StrangerLease`, `HistoryFull` or `Memory`, with the lease.
    pub fn give_back<R: Wait>(
        &self,
        rt: &R,
        desk: &mut Desk<L>,
        lease: Lease,
    ) -> Result<(), (Lease, BookFault)>
        ensures made { (same : Bool)
            × MakesCallOn (IsCorrectVerdict lease same) desk.old
            (GiveBack (offered lease same)) (give_back_reply result) desk.new }
        ensures returned { IfErr result (λ returned. returned.0 ≡ lease) }
    {
        let mut guard = self.lock.lock(rt);
        let Locked { kept, keeper } = &mut *guard;
        let before = kept.history.len();
        let answer = kept.give_back(lease);
        desk.note_event(keeper, &self.strands, kept, before);
        answer
    }

    /// Ends the lease that is out for a job. The job keeps its rules and its steps done.
    ///
    /// # Errors
    ///
    /// `NoSuchJob`, `StrangerLease` if no lease is out, `HistoryFull` or `Memory`.
    pub fn revoke<R: Wait>(&self, rt: &R, desk: &mut Desk<L>, job: u32) -> Result<(), BookFault>
        ensures { MakesCall desk.old (Revoke job) (done_reply result) desk.new }
    {
        let mut guard = self.lock.lock(rt);
        let Locked { kept, keeper } = &mut *guard;
        let before = kept.history.len();
        let answer = kept.revoke(job);
        desk.note_event(keeper, &self.strands, kept, before);
        answer
    }

    /// Ends a job and its lease.
    ///
    /// # Errors
    ///
    /// `NoSuchJob`, `Ended`, `HistoryFull` or `Memory`.
    pub fn cancel<R: Wait>(&self, rt: &R, desk: &mut Desk<L>, job: u32) -> Result<(), BookFault>
        ensures { MakesCall desk.old (Cancel job) (done_reply result) desk.new }
    {
        let mut guard = self.lock.lock(rt);
        let Locked { kept, keeper } = &mut *guard;
        let before = kept.history.len();
        let answer = kept.cancel(job);
        desk.note_event(keeper, &self.strands, kept, before);
        answer
    }

    /// The state of a job after the steps that it has done. A cancelled job can be read as well.
    ///
    /// # Errors
    ///
    /// `NoSuchJob`, `HistoryFull` or `Memory`.
    pub fn read<R: Wait>(
        &self,
        rt: &R,
        alloc: Global,
        desk: &mut Desk<L>,
        job: u32,
    ) -> Result<Snapshot, BookFault>
        ensures { MakesCallOn (ReadShowsJob job result) desk.old (Read job) (read_reply result) desk.new }
    {
        let mut guard = self.lock.lock(rt);
        let Locked { kept, keeper } = &mut *guard;
        let before = kept.history.len();
        let answer = kept.read(alloc, job);
        desk.note_event(keeper, &self.strands, kept, before);
        answer
    }
}
