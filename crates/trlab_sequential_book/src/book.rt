//! The book of jobs of one thread.

ghost use Rattle.std.specs.Prelude.{◌≡◌, ◌↔◌, ◌+◌, ◌<◌, ◌≤◌, ℕ, Bool, true, false, IsTrue, IfOk, IfErr, IfSome, MatchBool, length, ltb, not, vec_len, vec_capacity};
ghost use Rattle.std.specs.List.{position};
ghost use Rattle.trlab_road.specs.Cells.{IsLegal};
ghost use Rattle.trlab_step.specs.Run.{IsRuleFor, suits};
ghost use Rattle.trlab_sequential_book.specs.Histories.{LeadsAs, RepliesAs, give_back_reply, done_reply, is_memory, lease_reply, number_reply, order_reply, read_reply};
ghost use Rattle.trlab_sequential_book.specs.Comparison.{IsFreshIfLent, HasRuleInForce, RunsRoadOfItsJob, ShowsJob, LeaseCall, OrderCall, offered};
ghost use Rattle.trlab_sequential_book.specs.Leases.{FitsOrder};
ghost use Rattle.trlab_sequential_book.specs.Machine.{after, cancel_outcome, give_back_outcome, is_free, has_full_history, on_job, order_outcome, read_outcome, replace_outcome, reply_of, revoke_outcome, empty_book, submit_outcome};
ghost use Rattle.trlab_sequential_book.specs.declared.event.Call.TheVariants.{Cancel, GiveBack, Read, Replace, Revoke, Submit};
ghost use Rattle.trlab_sequential_book.specs.declared.event.Reply.TheVariants.{Refused};
ghost use Rattle.trlab_sequential_book.specs.declared.fault.BookFault.TheVariants.{HistoryFull};

use crate::fault::BookFault;
use crate::job::JobRecord;
use crate::lease::Lease;
use crate::order::Order;
use crate::rule::SharedRule;
use crate::seed::{Seed, SharedSeed};
use crate::snapshot::Snapshot;
use std::alloc::Global;
use std::marker::Model;
use trlab_rules::Rule;
use trlab_step::suits;

/// The maximum number of jobs of a book.
pub const MAX_JOBS: usize = 256;

/// The maximum number of events of a book. After this number of events, a book refuses each call.
pub const MAX_EVENTS: u32 = 1000000;

/// A book of up to `MAX_JOBS` jobs, which are numbered from 0 and never removed.
///
/// Each call is an event, even if it is refused. Only a call refused as `HistoryFull` or `Memory` is not an event, and
/// changes nothing.
pub struct Book {
    /// The number of events that the book has had.
    count: u32,
    /// The number of the next lease.
    next: u32,
    jobs: Vec<JobRecord>,
}

// Not derived: a derived drop is proved again, field by field, wherever the value goes out of scope.
impl Drop for Book {
    fn drop(self) {
        let Book {
            count: _count,
            next: _next,
            jobs: _jobs,
        } = self;
    }
}

impl Model for Book {
    ghost use Rattle.std.specs.Prelude.{◌≤◌, vec_len};
    ghost use Rattle.trlab_sequential_book.specs.Machine.{BookState};
    ghost use Rattle.trlab_sequential_book.specs.declared.book.TheConstants.{MAX_EVENTS, MAX_JOBS};

    ghost Value = { BookState };

    ghost view = { λ book. record { count = book.count; next = book.next; jobs = book.jobs.items } };

    ghost invariant = { λ book. (book.count ≤ MAX_EVENTS) × (book.next ≤ book.count)
        × (vec_len book.jobs ≤ MAX_JOBS) };
}

impl Book {
    /// A book without jobs and events. It takes no memory.
    pub fn new(alloc: Global) -> Book
        ensures { result ≡ empty_book }
    {
        Book {
            count: 0,
            next: 0,
            jobs: Vec::new(alloc),
        }
    }

    /// Whether the book has had `MAX_EVENTS` events. It then refuses each call as `HistoryFull`.
    pub fn has_full_history(&self) -> bool
        ensures { result ≡ has_full_history self.now }
    {
        self.count >= MAX_EVENTS
    }

    /// Adds a job, which runs `steps` steps from the seed, under the rule until it is replaced. Returns the job's
    /// number.
    ///
    /// # Errors
    ///
    /// `HistoryFull`, `LanesMismatch`, `Full` or `Memory`; seed and rule are dropped.
    pub fn submit(
        &mut self,
        alloc: Global,
        seed: Seed,
        rule: Rule,
        steps: u32,
    ) -> Result<u32, BookFault>
        ensures reply { RepliesAs (is_memory result) (number_reply result) self.old (Submit seed rule steps) }
        ensures state { LeadsAs (is_memory result) self.old (Submit seed rule steps) self.new }
        ensures full_history { has_full_history self.old ≡ true → result ≡ Err HistoryFull }
    {
        if self.has_full_history() {
            return Err(BookFault::HistoryFull);
        }
        let seed = SharedSeed::new(alloc, seed)?;
        let rule = SharedRule::new(alloc, rule)?;
        self.add_job(alloc, seed, rule, steps)
    }

    /// `submit`, for a seed and a rule that have other owners, such as a history.
    ///
    /// # Errors
    ///
    /// Those of `submit`.
    pub fn submit_shared(
        &mut self,
        alloc: Global,
        seed: SharedSeed,
        rule: SharedRule,
        steps: u32,
    ) -> Result<u32, BookFault>
        ensures reply { RepliesAs (is_memory result) (number_reply result) self.old (Submit seed rule steps) }
        ensures state { LeadsAs (is_memory result) self.old (Submit seed rule steps) self.new }
        ensures full_history { has_full_history self.old ≡ true → result ≡ Err HistoryFull }
    {
        if self.has_full_history() {
            return Err(BookFault::HistoryFull);
        }
        self.add_job(alloc, seed, rule, steps)
    }

    /// Adds a job to a book whose history is not full.
    fn add_job(
        &mut self,
        alloc: Global,
        seed: SharedSeed,
        rule: SharedRule,
        steps: u32,
    ) -> Result<u32, BookFault>
        requires { has_full_history self.old ≡ false }
        ensures reply { RepliesAs (is_memory result) (number_reply result) self.old (Submit seed rule steps) }
        ensures state { LeadsAs (is_memory result) self.old (Submit seed rule steps) self.new }
    {
        let answer = submit_in(&mut self.jobs, alloc, seed, rule, steps);
        self.count = count_after(self.count, &answer);
        answer
    }

    /// Replaces a job's rule from the first step on that was never ordered. Returns this step.
    ///
    /// # Errors
    ///
    /// `HistoryFull`, `NoSuchJob`, `Ended`, `LanesMismatch`, `SheetFull` or `Memory`; the rule is dropped.
    pub fn replace(&mut self, job: u32, rule: Rule) -> Result<u32, BookFault>
        ensures reply { RepliesAs (is_memory result) (number_reply result) self.old (Replace job rule) }
        ensures state { LeadsAs (is_memory result) self.old (Replace job rule) self.new }
        ensures full_history { has_full_history self.old ≡ true → result ≡ Err HistoryFull }
    {
        if self.has_full_history() {
            return Err(BookFault::HistoryFull);
        }
        let answer = replace_in(&mut self.jobs, job, rule);
        self.count = count_after(self.count, &answer);
        answer
    }

    /// Lends the free job with the smallest number, or returns `None` if no job is free. A job is free if it is not
    /// out, not cancelled and has steps to do.
    ///
    /// # Errors
    ///
    /// `HistoryFull` or `Memory`.
    pub fn lease(&mut self, alloc: Global) -> Result<Option<Lease>, BookFault>
        ensures reply { RepliesAs (is_memory result) (lease_reply result) self.old LeaseCall }
        ensures state { LeadsAs (is_memory result) self.old LeaseCall self.new }
        ensures full_history { has_full_history self.old ≡ true → result ≡ Err HistoryFull }
        ensures lent { IfOk result (λ lent. IsFreshIfLent self.old.jobs self.old.next lent) }
    {
        if self.has_full_history() {
            return Err(BookFault::HistoryFull);
        }
        let Some(index) = free_in(&self.jobs) else {
            self.count += 1;
            return Ok(None);
        };
        let found = &mut self.jobs[index];
        let lease = found.lend(alloc, index as u32, self.next)?;
        self.next += 1;
        self.count += 1;
        Ok(Some(lease))
    }

    /// Whether a lease runs the road of its job: with the key and the road number of the job's seed, from the job's
    /// road after the steps done, under the rules in force. False if there is no such job.
    pub fn lease_runs_its_road(&self, lease: &Lease) -> bool
        ensures { IsTrue result ↔ RunsRoadOfItsJob self.now.jobs lease.now }
    {
        let Some(found) = self.jobs.get(lease.job() as usize) else {
            return false;
        };
        found.is_run_by(lease)
    }

    /// Orders a lease's next step, and returns the rule in force there. The order shares the rule with the job's sheet,
    /// so the allocator is not used.
    ///
    /// # Errors
    ///
    /// `HistoryFull`, `NoSuchJob`, `Ended`, `StrangerLease` or `Memory`.
    pub fn order(&mut self, _: Global, lease: &Lease) -> Result<Order, BookFault>
        ensures reply { (runs_its_road : Bool) → (IsTrue runs_its_road ↔ RunsRoadOfItsJob self.old.jobs lease.now)
            → RepliesAs (is_memory result) (order_reply result) self.old (OrderCall (offered lease.now runs_its_road)) }
        ensures state { (runs_its_road : Bool) → (IsTrue runs_its_road ↔ RunsRoadOfItsJob self.old.jobs lease.now)
            → LeadsAs (is_memory result) self.old (OrderCall (offered lease.now runs_its_road)) self.new }
        ensures full_history { has_full_history self.old ≡ true → result ≡ Err HistoryFull }
        ensures rule { IfOk result (λ order. HasRuleInForce self.old.jobs order) }
        ensures fits { IfOk result (λ order. FitsOrder lease.now order) }
    {
        let runs_its_road = self.lease_runs_its_road(lease);
        self.order_as(lease, runs_its_road)
    }

    /// `order`, if `lease_runs_its_road(lease)` is known already.
    ///
    /// # Errors
    ///
    /// Those of `order`.
    pub fn order_as(&mut self, lease: &Lease, runs_its_road: bool) -> Result<Order, BookFault>
        requires { IsTrue runs_its_road ↔ RunsRoadOfItsJob self.old.jobs lease.now }
        ensures reply { RepliesAs (is_memory result) (order_reply result) self.old
            (OrderCall (offered lease.now runs_its_road)) }
        ensures state { LeadsAs (is_memory result) self.old (OrderCall (offered lease.now runs_its_road)) self.new }
        ensures full_history { has_full_history self.old ≡ true → result ≡ Err HistoryFull }
        ensures rule { IfOk result (λ order. HasRuleInForce self.old.jobs order) }
        ensures fits { IfOk result (λ order. FitsOrder lease.now order) }
    {
        if self.has_full_history() {
            return Err(BookFault::HistoryFull);
        }
        let answer = order_in(&mut self.jobs, lease, runs_its_road);
        self.count = count_after(self.count, &answer);
        answer
    }

    /// Takes a lease back: the job's road and its steps done become those of the lease.
    ///
    /// # Errors
    ///
    /// `HistoryFull`, `NoSuchJob` or `StrangerLease`, with the lease.
    pub fn give_back(&mut self, lease: Lease) -> Result<(), (Lease, BookFault)>
        ensures reply { (runs_its_road : Bool) → (IsTrue runs_its_road ↔ RunsRoadOfItsJob self.old.jobs lease)
            → give_back_reply result ≡ reply_of self.old (GiveBack (offered lease runs_its_road)) }
        ensures state { (runs_its_road : Bool) → (IsTrue runs_its_road ↔ RunsRoadOfItsJob self.old.jobs lease)
            → self.new ≡ after self.old (GiveBack (offered lease runs_its_road)) }
        ensures returned { IfErr result (λ returned. returned.0 ≡ lease) }
    {
        let runs_its_road = self.lease_runs_its_road(&lease);
        self.give_back_as(lease, runs_its_road)
    }

    /// `give_back`, if `lease_runs_its_road(lease)` is known already.
    ///
    /// # Errors
    ///
    /// Those of `give_back`.
    pub fn give_back_as(
        &mut self,
        lease: Lease,
        runs_its_road: bool,
    ) -> Result<(), (Lease, BookFault)>
        requires { IsTrue runs_its_road ↔ RunsRoadOfItsJob self.old.jobs lease }
        ensures reply { give_back_reply result ≡ reply_of self.old (GiveBack (offered lease runs_its_road)) }
        ensures state { self.new ≡ after self.old (GiveBack (offered lease runs_its_road)) }
        ensures returned { IfErr result (λ returned. returned.0 ≡ lease) }
    {
        if self.has_full_history() {
            return Err((lease, BookFault::HistoryFull));
        }
        self.count += 1;
        give_back_in(&mut self.jobs, lease, runs_its_road)
    }

    /// Ends the lease that is out for a job. The job keeps its rules and its steps done.
    ///
    /// # Errors
    ///
    /// `HistoryFull`, `NoSuchJob`, or `StrangerLease` if no lease is out.
    pub fn revoke(&mut self, job: u32) -> Result<(), BookFault>
        ensures reply { done_reply result ≡ reply_of self.old (Revoke job) }
        ensures state { self.new ≡ after self.old (Revoke job) }
    {
        if self.has_full_history() {
            return Err(BookFault::HistoryFull);
        }
        self.count += 1;
        revoke_in(&mut self.jobs, job)
    }

    /// Ends a job and its lease.
    ///
    /// # Errors
    ///
    /// `HistoryFull`, `NoSuchJob` or `Ended`.
    pub fn cancel(&mut self, job: u32) -> Result<(), BookFault>
        ensures reply { done_reply result ≡ reply_of self.old (Cancel job) }
        ensures state { self.new ≡ after self.old (Cancel job) }
    {
        if self.has_full_history() {
            return Err(BookFault::HistoryFull);
        }
        self.count += 1;
        cancel_in(&mut self.jobs, job)
    }

    /// The state of a job after the steps that it has done. A cancelled job can be read as well.
    ///
    /// # Errors
    ///
    /// `HistoryFull`, `NoSuchJob` or `Memory`.
    pub fn read(&mut self, alloc: Global, job: u32) -> Result<Snapshot, BookFault>
        ensures reply { RepliesAs (is_memory result) (read_reply result) self.old (Read job) }
        ensures state { LeadsAs (is_memory result) self.old (Read job) self.new }
        ensures full_history { has_full_history self.old ≡ true → result ≡ Err HistoryFull }
        ensures seen { IfOk result (λ seen. ShowsJob self.old.jobs job seen) }
    {
        if self.has_full_history() {
            return Err(BookFault::HistoryFull);
        }
        let answer = read_in(&self.jobs, alloc, job);
        self.count = count_after(self.count, &answer);
        answer
    }
}

/// The number of events after a call with this answer; `count` is the number before the call.
fn count_after<T>(count: u32, answer: &Result<T, BookFault>) -> u32
    requires { count < MAX_EVENTS }
    ensures value { MatchBool (is_memory answer.now) (result ≡ count) (result ≡ count + 1) }
    ensures in_range { (count ≤ result) × (result ≤ MAX_EVENTS) }
{
    match answer {
        Err(BookFault::Memory) => count,
        _ => count + 1,
    }
}

// The calls as functions on the list of jobs. They do not count events.

fn submit_in(
    jobs: &mut Vec<JobRecord>,
    alloc: Global,
    seed: SharedSeed,
    rule: SharedRule,
    steps: u32,
) -> Result<u32, BookFault>
    requires { length jobs.old.items ≤ MAX_JOBS }
    ensures reply { MatchBool (is_memory result) (Unit {0})
        (number_reply result ≡ (submit_outcome jobs.old.items seed rule steps).reply) }
    ensures jobs { MatchBool (is_memory result) (jobs.new.items ≡ jobs.old.items)
        (jobs.new.items ≡ (submit_outcome jobs.old.items seed rule steps).jobs) }
    ensures at_most_max { length jobs.new.items ≤ MAX_JOBS }
{
    make_room(jobs, seed.get(), rule.get())?;
    let job = JobRecord::new(alloc, seed, rule, steps)?;
    let number = jobs.len() as u32;
    jobs.push_reserved(job);
    Ok(number)
}

/// Makes room for one more job, if there are fewer than `MAX_JOBS` and its rule suits its road.
fn make_room(jobs: &mut Vec<JobRecord>, seed: &Seed, rule: &Rule) -> Result<(), BookFault>
    ensures jobs { jobs.new.items ≡ jobs.old.items }
    ensures room { IfOk result (λ _. vec_len jobs.new < vec_capacity jobs.new) }
    ensures taken { IfOk result (λ _. (suits rule.now seed.now.road ≡ true) × (length jobs.old.items < MAX_JOBS)) }
    ensures rule { IfOk result (λ _. IsRuleFor (length seed.now.road.lanes) rule.now) }
    ensures refused { IfErr result (λ fault. MatchBool (is_memory result) (Unit {0})
        ((steps : ℕ) → submit_outcome jobs.old.items seed.now rule.now steps
        ≡ record { reply = Refused fault; jobs = jobs.old.items })) }
    ensures legal { IsLegal seed.now.road }
{
    if !suits(rule, &seed.road) {
        return Err(BookFault::LanesMismatch);
    }
    if has_all_jobs(jobs.len()) {
        return Err(BookFault::Full);
    }
    Ok(jobs.reserve(1)?)
}

/// Whether a book with this number of jobs is full.
fn has_all_jobs(jobs: usize) -> bool
    ensures { result ≡ not (ltb jobs MAX_JOBS) }
{
    jobs >= MAX_JOBS
}

fn replace_in(jobs: &mut Vec<JobRecord>, index: u32, rule: Rule) -> Result<u32, BookFault>
    ensures reply { MatchBool (is_memory result) (Unit {0})
        (number_reply result ≡ (on_job jobs.old.items index (replace_outcome rule)).reply) }
    ensures jobs { MatchBool (is_memory result) (jobs.new.items ≡ jobs.old.items)
        (jobs.new.items ≡ (on_job jobs.old.items index (replace_outcome rule)).jobs) }
    ensures len { length jobs.new.items ≡ length jobs.old.items }
{
    let Some(found) = jobs.get_mut(index as usize) else {
        return Err(BookFault::NoSuchJob);
    };
    found.replace(rule)
}

fn revoke_in(jobs: &mut Vec<JobRecord>, index: u32) -> Result<(), BookFault>
    ensures reply { done_reply result ≡ (on_job jobs.old.items index revoke_outcome).reply }
    ensures jobs { jobs.new.items ≡ (on_job jobs.old.items index revoke_outcome).jobs }
    ensures len { length jobs.new.items ≡ length jobs.old.items }
{
    let Some(found) = jobs.get_mut(index as usize) else {
        return Err(BookFault::NoSuchJob);
    };
    found.revoke()
}

fn cancel_in(jobs: &mut Vec<JobRecord>, index: u32) -> Result<(), BookFault>
    ensures reply { done_reply result ≡ (on_job jobs.old.items index cancel_outcome).reply }
    ensures jobs { jobs.new.items ≡ (on_job jobs.old.items index cancel_outcome).jobs }
    ensures len { length jobs.new.items ≡ length jobs.old.items }
{
    let Some(found) = jobs.get_mut(index as usize) else {
        return Err(BookFault::NoSuchJob);
    };
    found.cancel()
}

/// The smallest number of a free job.
fn free_in(jobs: &[JobRecord]) -> Option<usize>
    ensures place { result ≡ position is_free jobs.now }
    ensures in_range { IfSome result (λ index. index < length jobs.now) }
{
    jobs.iter().position(|job| job.is_free())
}

fn order_in(
    jobs: &mut Vec<JobRecord>,
    lease: &Lease,
    runs_its_road: bool,
) -> Result<Order, BookFault>
    requires { IsTrue runs_its_road → RunsRoadOfItsJob jobs.old.items lease.now }
    ensures reply { MatchBool (is_memory result) (Unit {0})
        (order_reply result
        ≡ (on_job jobs.old.items lease.now.job (order_outcome (offered lease.now runs_its_road))).reply) }
    ensures jobs { MatchBool (is_memory result) (jobs.new.items ≡ jobs.old.items)
        (jobs.new.items
        ≡ (on_job jobs.old.items lease.now.job (order_outcome (offered lease.now runs_its_road))).jobs) }
    ensures len { length jobs.new.items ≡ length jobs.old.items }
    ensures rule { IfOk result (λ order. HasRuleInForce jobs.old.items order) }
    ensures fits { IfOk result (λ order. FitsOrder lease.now order) }
{
    let Some(found) = jobs.get_mut(lease.job() as usize) else {
        return Err(BookFault::NoSuchJob);
    };
    found.order(lease, runs_its_road)
}

fn give_back_in(
    jobs: &mut Vec<JobRecord>,
    lease: Lease,
    runs_its_road: bool,
) -> Result<(), (Lease, BookFault)>
    requires { IsTrue runs_its_road → RunsRoadOfItsJob jobs.old.items lease }
    ensures reply { give_back_reply result
        ≡ (on_job jobs.old.items lease.job (give_back_outcome (offered lease runs_its_road))).reply }
    ensures jobs { jobs.new.items
        ≡ (on_job jobs.old.items lease.job (give_back_outcome (offered lease runs_its_road))).jobs }
    ensures len { length jobs.new.items ≡ length jobs.old.items }
    ensures returned { IfErr result (λ returned. returned.0 ≡ lease) }
{
    let Some(found) = jobs.get_mut(lease.job() as usize) else {
        return Err((lease, BookFault::NoSuchJob));
    };
    found.give_back(lease, runs_its_road)
}

fn read_in(jobs: &[JobRecord], alloc: Global, index: u32) -> Result<Snapshot, BookFault>
    ensures reply { MatchBool (is_memory result) (Unit {0})
        (read_reply result ≡ (on_job jobs.now index read_outcome).reply) }
    ensures seen { IfOk result (λ seen. ShowsJob jobs.now index seen) }
    ensures jobs { (on_job jobs.now index read_outcome).jobs ≡ jobs.now }
{
    let Some(found) = jobs.get(index as usize) else {
        return Err(BookFault::NoSuchJob);
    };
    Ok(found.read(alloc)?)
}
