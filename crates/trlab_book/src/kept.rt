//! A book with its history: each call adds one event, or changes nothing.

ghost use Rattle.std.specs.Prelude.{◌≡◌, ◌↔◌, ◌<◌, ◌++◌, ◌∷◌, [], Bool, true, false, IsTrue, MatchBool};
ghost use Rattle.std.specs.Prelude.{IfOk, IfErr, OnOk, vec_len};
ghost use Rattle.std.specs.Bool.{OnTrue};
ghost use Rattle.std.specs.Vec.{vec_capacity};
ghost use Rattle.trlab_sequential_book.specs.Histories.{give_back_reply, done_reply, is_event, lease_reply};
ghost use Rattle.trlab_sequential_book.specs.Histories.{number_reply, order_reply, read_reply};
ghost use Rattle.trlab_sequential_book.specs.Comparison.{IsFreshIfLent, HasRuleInForce, RunsRoadOfItsJob, ShowsJob};
ghost use Rattle.trlab_sequential_book.specs.Comparison.{LeaseCall, OrderCall, offered};
ghost use Rattle.trlab_sequential_book.specs.Leases.{FitsOrder};
ghost use Rattle.trlab_sequential_book.specs.Machine.{has_full_history, empty_book};
ghost use Rattle.trlab_sequential_book.specs.Histories.{Replays, event};
ghost use Rattle.trlab_sequential_book.specs.declared.event.Call.TheVariants.{Cancel, GiveBack, Read};
ghost use Rattle.trlab_sequential_book.specs.declared.event.Call.TheVariants.{Replace, Revoke, Submit};
ghost use Rattle.trlab_sequential_book.specs.declared.event.Reply.TheVariants.{Refused};
ghost use Rattle.trlab_sequential_book.specs.declared.fault.BookFault.TheVariants.{HistoryFull};

use std::alloc::{AllocError, Global};
use trlab_rules::Rule;
use trlab_sequential_book::{
    Book, BookFault, Call, Event, Lease, Offered, Order, Reply, Seed, SharedRule, SharedSeed,
    Snapshot,
};

/// A book and its history, the list of all its events. Replaying the history on an empty book gives this book.
#[derive(Drop)]
pub struct Kept {
    pub(crate) book: Book,
    pub(crate) history: Vec<Event>,
    ghost replays: { ∥ Replays history.items book ∥₁ },
}

impl Kept {
    ghost use Rattle.trlab_book.specs.Events.{IsUnchanged, Records, RefusesIfFull};

    /// An empty book with an empty history.
    pub fn new(alloc: Global) -> Kept
        ensures { (result.history.items ≡ []) × (result.book ≡ empty_book) }
    {
        let book = Book::new(alloc);
        Kept {
            book,
            history: Vec::new(alloc),
        }
    }

    /// Makes room for one more event. It does not test whether the history is full, because the book does so in the
    /// call that follows.
    fn make_room(&mut self) -> Result<(), BookFault>
        ensures unchanged { IsUnchanged self.old self.new }
        ensures room { OnOk result (vec_len self.new.history < vec_capacity self.new.history) }
        ensures none { IfErr result (λ f. is_event (Refused f) ≡ false) }
        ensures full_history { IfErr result (λ f.
            (Refused f ≡ Refused HistoryFull) ↔ (has_full_history self.old.book ≡ true)) }
    {
        if self.history.reserve(1).is_err() {
            return Err(self.fault_without_memory());
        }
        Ok(())
    }

    /// The fault of a call that was not made because an allocation failed: `HistoryFull` if the history is full, and
    /// `Memory` otherwise.
    pub(crate) fn fault_without_memory(&self) -> BookFault
        ensures none { is_event (Refused result) ≡ false }
        ensures full_history { (Refused result ≡ Refused HistoryFull) ↔ (has_full_history self.now.book ≡ true) }
    {
        if self.book.has_full_history() {
            BookFault::HistoryFull
        } else {
            BookFault::Memory
        }
    }

    /// Adds a job. The history keeps `call`, which `submit_call` makes.
    pub(crate) fn submit(
        &mut self,
        alloc: Global,
        seed: SharedSeed,
        rule: SharedRule,
        steps: u32,
        call: Call,
    ) -> Result<u32, BookFault>
        requires { call ≡ Submit seed rule steps }
        ensures made { Records self.old (Submit seed rule steps) (number_reply result) self.new }
        ensures full_history { RefusesIfFull self.old (number_reply result) }
    {
        self.make_room()?;
        let answer = self.book.submit_shared(alloc, seed, rule, steps);
        let reply = reply_to_number(&answer);
        put_event(&mut self.history, call, reply);
        answer
    }

    /// Replaces the rule of a job. The history keeps `call`, which `replace_call` makes.
    pub(crate) fn replace(&mut self, job: u32, rule: Rule, call: Call) -> Result<u32, BookFault>
        requires { call ≡ Replace job rule }
        ensures made { Records self.old (Replace job rule) (number_reply result) self.new }
        ensures full_history { RefusesIfFull self.old (number_reply result) }
    {
        self.make_room()?;
        let answer = self.book.replace(job, rule);
        let reply = reply_to_number(&answer);
        put_event(&mut self.history, call, reply);
        answer
    }

    /// Lends the free job with the smallest number, or returns `None` if no job is free.
    ///
    /// # Errors
    ///
    /// Those of `Book::lease`; `Memory` also if the history cannot grow.
    pub fn lease(&mut self, alloc: Global) -> Result<Option<Lease>, BookFault>
        ensures made { Records self.old LeaseCall (lease_reply result) self.new }
        ensures lent { IfOk result (λ o. IsFreshIfLent self.old.book.jobs self.old.book.next o) }
        ensures full_history { RefusesIfFull self.old (lease_reply result) }
    {
        self.make_room()?;
        let answer = self.book.lease(alloc);
        let reply = reply_to_lease(&answer);
        put_event(&mut self.history, Call::Lease, reply);
        answer
    }

    /// Orders the next step of a lease. The order shares its rule with the sheet, so the allocator is not used.
    ///
    /// # Errors
    ///
    /// Those of `Book::order`; `Memory` also if the history cannot grow.
    pub fn order(&mut self, _: Global, lease: &Lease) -> Result<Order, BookFault>
        ensures made { (runs_its_road : Bool) → (IsTrue runs_its_road ↔ RunsRoadOfItsJob self.old.book.jobs lease.now)
            → Records self.old (OrderCall (offered lease.now runs_its_road)) (order_reply result) self.new }
        ensures rule { IfOk result (λ o. HasRuleInForce self.old.book.jobs o) }
        ensures fits { IfOk result (λ o. FitsOrder lease.now o) }
        ensures full_history { RefusesIfFull self.old (order_reply result) }
        ensures noted { (runs_its_road : Bool)
            × OnTrue (is_event (order_reply result))
            (IsTrue runs_its_road ↔ RunsRoadOfItsJob self.old.book.jobs lease.now)
            × Records self.old (OrderCall (offered lease.now runs_its_road)) (order_reply result) self.new }
    {
        self.make_room()?;
        let runs_its_road = self.book.lease_runs_its_road(lease);
        let call = Call::Order(offered(lease, runs_its_road));
        let answer = self.book.order_as(lease, runs_its_road);
        let reply = reply_to_order(&answer);
        put_event(&mut self.history, call, reply);
        answer
    }

    /// Takes a lease back: the job's road and its steps done become those of the lease.
    ///
    /// # Errors
    ///
    /// Those of `Book::give_back`, or `Memory` if the history cannot grow, with the lease.
    pub fn give_back(&mut self, lease: Lease) -> Result<(), (Lease, BookFault)>
        ensures made { (runs_its_road : Bool) → (IsTrue runs_its_road ↔ RunsRoadOfItsJob self.old.book.jobs lease)
            → Records self.old (GiveBack (offered lease runs_its_road)) (give_back_reply result) self.new }
        ensures returned { IfErr result (λ returned. returned.0 ≡ lease) }
        ensures full_history { RefusesIfFull self.old (give_back_reply result) }
        ensures noted { (runs_its_road : Bool)
            × OnTrue (is_event (give_back_reply result))
            (IsTrue runs_its_road ↔ RunsRoadOfItsJob self.old.book.jobs lease)
            × Records self.old (GiveBack (offered lease runs_its_road)) (give_back_reply result) self.new }
    {
        if let Err(fault) = self.make_room() {
            return Err((lease, fault));
        }
        let runs_its_road = self.book.lease_runs_its_road(&lease);
        let call = Call::GiveBack(offered(&lease, runs_its_road));
        let answer = self.book.give_back_as(lease, runs_its_road);
        let reply = reply_to_give_back(&answer);
        put_event(&mut self.history, call, reply);
        answer
    }

    /// Ends the lease of a job.
    ///
    /// # Errors
    ///
    /// Those of `Book::revoke`, or `Memory` if the history cannot grow.
    pub fn revoke(&mut self, job: u32) -> Result<(), BookFault>
        ensures made { Records self.old (Revoke job) (done_reply result) self.new }
        ensures full_history { RefusesIfFull self.old (done_reply result) }
    {
        self.make_room()?;
        let answer = self.book.revoke(job);
        let reply = reply_to_done(&answer);
        put_event(&mut self.history, Call::Revoke(job), reply);
        answer
    }

    /// Ends a job and its lease.
    ///
    /// # Errors
    ///
    /// Those of `Book::cancel`, or `Memory` if the history cannot grow.
    pub fn cancel(&mut self, job: u32) -> Result<(), BookFault>
        ensures made { Records self.old (Cancel job) (done_reply result) self.new }
        ensures full_history { RefusesIfFull self.old (done_reply result) }
    {
        self.make_room()?;
        let answer = self.book.cancel(job);
        let reply = reply_to_done(&answer);
        put_event(&mut self.history, Call::Cancel(job), reply);
        answer
    }

    /// The state of a job after the steps that it has done.
    ///
    /// # Errors
    ///
    /// Those of `Book::read`; `Memory` also if the history cannot grow.
    pub fn read(&mut self, alloc: Global, job: u32) -> Result<Snapshot, BookFault>
        ensures made { Records self.old (Read job) (read_reply result) self.new }
        ensures seen { IfOk result (λ s. ShowsJob self.old.book.jobs job s) }
        ensures full_history { RefusesIfFull self.old (read_reply result) }
    {
        self.make_room()?;
        let answer = self.book.read(alloc, job);
        let reply = reply_to_read(&answer);
        put_event(&mut self.history, Call::Read(job), reply);
        answer
    }
}

/// Appends a call and its reply to the history, unless the reply is `HistoryFull` or `Memory`.
fn put_event(history: &mut Vec<Event>, call: Call, reply: Reply)
    requires { vec_len history.old < vec_capacity history.old }
    ensures { MatchBool (is_event reply)
        (history.new.items ≡ history.old.items ++ event call reply ∷ [])
        (history.new.items ≡ history.old.items) }
{
    if is_event(reply) {
        history.push_reserved(Event { call, reply });
    }
}

/// Moves a seed and a rule into memory that can be shared.
pub(crate) fn boxed(
    alloc: Global,
    seed: Seed,
    rule: Rule,
) -> Result<(SharedSeed, SharedRule), AllocError>
    ensures seed { IfOk result (λ boxed. boxed.0 ≡ seed) }
    ensures rule { IfOk result (λ boxed. boxed.1 ≡ rule) }
{
    let seed = SharedSeed::new(alloc, seed)?;
    let rule = SharedRule::new(alloc, rule)?;
    Ok((seed, rule))
}

/// The `Submit` call for the history, which shares the seed and the rule with the job.
pub(crate) fn submit_call(
    seed: &SharedSeed,
    rule: &SharedRule,
    steps: u32,
) -> Result<Call, AllocError>
    ensures { IfOk result (λ call. call ≡ Submit seed.now rule.now steps) }
{
    let seed = seed.share()?;
    let rule = rule.share()?;
    Ok(Call::Submit(seed, rule, steps))
}

/// The `Replace` call for the history, with a copy of the rule.
pub(crate) fn replace_call(alloc: Global, job: u32, rule: &Rule) -> Result<Call, AllocError>
    ensures { IfOk result (λ call. call ≡ Replace job rule.now) }
{
    let copy = SharedRule::copy_of(alloc, rule)?;
    Ok(Call::Replace(job, copy))
}

/// The parts of a lease that the history records. `runs_its_road` is whether it runs its job's road.
fn offered(lease: &Lease, runs_its_road: bool) -> Offered
    ensures { result ≡ offered lease.now runs_its_road }
{
    Offered {
        job: lease.job(),
        number: lease.number(),
        base: lease.base_step(),
        step: lease.step(),
        same: runs_its_road,
    }
}

/// Whether a call with this reply is an event: every call is, unless it is refused as `HistoryFull` or `Memory`.
fn is_event(reply: Reply) -> bool
    ensures { result ≡ is_event reply }
{
    !matches!(
        reply,
        Reply::Refused(BookFault::Memory | BookFault::HistoryFull)
    )
}

fn reply_to_number(answer: &Result<u32, BookFault>) -> Reply
    ensures { result ≡ number_reply answer.now }
{
    match answer {
        Ok(number) => Reply::Number(*number),
        Err(fault) => Reply::Refused(*fault),
    }
}

fn reply_to_done(answer: &Result<(), BookFault>) -> Reply
    ensures { result ≡ done_reply answer.now }
{
    match answer {
        Ok(()) => Reply::Done,
        Err(fault) => Reply::Refused(*fault),
    }
}

fn reply_to_lease(answer: &Result<Option<Lease>, BookFault>) -> Reply
    ensures { result ≡ lease_reply answer.now }
{
    match answer {
        Ok(Some(lease)) => Reply::Leased {
            job: lease.job(),
            number: lease.number(),
            step: lease.step(),
            steps: lease.steps(),
        },
        Ok(None) => Reply::NoLease,
        Err(fault) => Reply::Refused(*fault),
    }
}

fn reply_to_order(answer: &Result<Order, BookFault>) -> Reply
    ensures { result ≡ order_reply answer.now }
{
    match answer {
        Ok(order) => Reply::Ordered {
            job: order.job(),
            number: order.lease(),
            step: order.step(),
            from: order.from(),
        },
        Err(fault) => Reply::Refused(*fault),
    }
}

fn reply_to_give_back(answer: &Result<(), (Lease, BookFault)>) -> Reply
    ensures { result ≡ give_back_reply answer.now }
{
    match answer {
        Ok(()) => Reply::Done,
        Err((_, fault)) => Reply::Refused(*fault),
    }
}

fn reply_to_read(answer: &Result<Snapshot, BookFault>) -> Reply
    ensures { result ≡ read_reply answer.now }
{
    match answer {
        Ok(seen) => Reply::Seen {
            step: seen.step(),
            entries: seen.sheet().len() as u32,
        },
        Err(fault) => Reply::Refused(*fault),
    }
}
