//! The record of one job.

ghost use Rattle.std.specs.Prelude.{◌≡◌, ◌==◌, ◌||◌, true, false, IsTrue, IfOk, IfErr, OnErr, Some, length, ◌↔◌, MatchBool};
ghost use Rattle.trlab_road.specs.Cells.{IsLegal};
ghost use Rattle.trlab_step.specs.Run.{IsReachedByRun, IsRuleFor, in_force, suits};
ghost use Rattle.trlab_sequential_book.specs.Histories.{give_back_reply, done_reply, is_memory, number_reply, order_reply};
ghost use Rattle.trlab_sequential_book.specs.Comparison.{IsFresh, RunsRoadOfJob, IsSnapshotOf, offered, progress_of};
ghost use Rattle.trlab_sequential_book.specs.Leases.{FitsOrder};
ghost use Rattle.trlab_sequential_book.specs.Machine.{cancel_outcome, give_back_outcome, is_free, accepts_lease, lease_outcome, new_job, order_outcome, refusal, replace_outcome, revoke_outcome};

use crate::fault::BookFault;
use crate::lease::Lease;
use crate::order::Order;
use crate::rule::SharedRule;
use crate::seed::{SharedRoad, SharedSeed};
use crate::sheet::Sheet;
use crate::snapshot::Snapshot;
use std::alloc::{AllocError, Global};
use std::marker::Model;
use std::sync::Arc;
use trlab_rules::Rule;
use trlab_step::{StepRoom, StepTally, no_tally, suits, tally_sum};
use trlab_words::Key;

/// A job. Contracts do not see its road and its tally, which follow from the seed, the sheet and the steps done.
pub(crate) struct JobRecord {
    seed: SharedSeed,
    sheet: Sheet,
    steps: u32,
    /// The number of steps that were ever ordered.
    high: u32,
    /// The number of steps done.
    done: u32,
    cancelled: bool,
    /// The number of the lease that is out.
    out: Option<u32>,
    /// The road at the steps done.
    road: SharedRoad,
    tally: StepTally,
}

// Not derived: a derived drop is proved again, field by field, wherever the value goes out of scope.
impl Drop for JobRecord {
    fn drop(self) {
        let JobRecord {
            seed: _seed,
            sheet: _sheet,
            steps: _steps,
            high: _high,
            done: _done,
            cancelled: _cancelled,
            out: _out,
            road: _road,
            tally: _tally,
        } = self;
    }
}

impl Model for JobRecord {
    ghost use Rattle.trlab_sequential_book.specs.Comparison.{IsJob};
    ghost use Rattle.trlab_sequential_book.specs.Machine.{JobState};

    ghost Value = { JobState };

    ghost view = { λ job. record {
      seed = job.seed;
      sheet = job.sheet;
      steps = job.steps;
      high = job.high;
      done = job.done;
      cancelled = job.cancelled;
      out = job.out;
    } };

    ghost invariant = { λ job. IsJob
        (record {
          seed = job.seed;
          sheet = job.sheet;
          steps = job.steps;
          high = job.high;
          done = job.done;
          cancelled = job.cancelled;
          out = job.out;
        })
        job.road job.tally };
}

impl JobRecord {
    /// A new job at step 0. No step has been ordered, and no lease is out.
    pub fn new(
        alloc: Global,
        seed: SharedSeed,
        rule: SharedRule,
        steps: u32,
    ) -> Result<JobRecord, AllocError>
        requires legal { IsLegal seed.road }
        requires rule { IsRuleFor (length seed.road.lanes) rule }
        ensures { IfOk result (λ job. job ≡ new_job seed rule steps) }
    {
        let sheet = Sheet::new(alloc, rule)?;
        let road = SharedRoad::of_seed(seed.share()?);
        Ok(JobRecord {
            seed,
            sheet,
            steps,
            high: 0,
            done: 0,
            cancelled: false,
            out: None,
            road,
            tally: no_tally(),
        })
    }

    /// Replaces the rule from the first step on that was never ordered. Returns this step.
    pub fn replace(&mut self, rule: Rule) -> Result<u32, BookFault>
        ensures reply { MatchBool (is_memory result) (Unit {0})
            (number_reply result ≡ (replace_outcome rule self.old).reply) }
        ensures job { MatchBool (is_memory result) (self.new ≡ self.old)
            (self.new ≡ (replace_outcome rule self.old).job) }
    {
        self.check_rule(&rule)?;
        self.sheet.enter(self.high, rule)?;
        Ok(self.high)
    }

    /// Tests that the job is not cancelled and has steps that were never ordered, and that a rule suits its road.
    fn check_rule(&self, rule: &Rule) -> Result<(), BookFault>
        ensures ok { IfOk result (λ _. (self.now.cancelled || (self.now.high == self.now.steps) ≡ false)
            × (suits rule.now self.now.seed.road ≡ true)) }
        ensures rule { IfOk result (λ _. IsRuleFor (length self.now.seed.road.lanes) rule.now) }
        ensures err { IfErr result (λ fault. replace_outcome rule.now self.now ≡ refusal fault self.now) }
    {
        if self.cancelled || self.high == self.steps {
            return Err(BookFault::Ended);
        }
        if !suits(rule, &self.seed.get().road) {
            return Err(BookFault::LanesMismatch);
        }
        Ok(())
    }

    /// Ends the lease that is out.
    pub fn revoke(&mut self) -> Result<(), BookFault>
        ensures reply { done_reply result ≡ (revoke_outcome self.old).reply }
        ensures job { self.new ≡ (revoke_outcome self.old).job }
    {
        if self.out.is_none() {
            return Err(BookFault::StrangerLease);
        }
        self.out = None;
        Ok(())
    }

    /// Ends the job and its lease.
    pub fn cancel(&mut self) -> Result<(), BookFault>
        ensures reply { done_reply result ≡ (cancel_outcome self.old).reply }
        ensures job { self.new ≡ (cancel_outcome self.old).job }
    {
        if self.cancelled || self.done == self.steps {
            return Err(BookFault::Ended);
        }
        self.cancelled = true;
        self.out = None;
        Ok(())
    }

    /// Whether the job can be leased: no lease is out, it is not cancelled, and it has steps to do.
    pub fn is_free(&self) -> bool
        ensures { result ≡ is_free self.now }
    {
        self.out.is_none() && !self.cancelled && self.done < self.steps
    }

    /// Lends the job. `index` is the job's number, `number` the lease's.
    pub fn lend(&mut self, alloc: Global, index: u32, number: u32) -> Result<Lease, AllocError>
        ensures lease { IfOk result (λ lease. (lease.job ≡ index) × IsFresh self.old number lease) }
        ensures job { IfOk result (λ _. self.new ≡ (lease_outcome index number self.old).job) }
        ensures unchanged { OnErr result (self.new ≡ self.old) }
    {
        let copy = self.road.get().copy(alloc)?;
        let road = Arc::new(alloc, copy)?;
        let base_road = self.road.share()?;
        let seed = self.seed.get();
        self.out = Some(number);
        Ok(Lease {
            job: index,
            number,
            steps: self.steps,
            key: seed.key,
            road_number: seed.number,
            base_step: self.done,
            base_road,
            step: self.done,
            road,
            applied: Vec::new(alloc),
            is_steady: true,
            room: StepRoom::new(alloc),
        })
    }

    /// Whether a lease runs this job's road: with its key and road number, from its road, under the rules in force.
    pub fn is_run_by(&self, lease: &Lease) -> bool
        ensures { IsTrue result ↔ RunsRoadOfJob self.now lease.now }
    {
        // For the proof: the lease's step is a `u32`, so no step up to it overflows.
        let _end = lease.step();
        let seed = self.seed.get();
        if lease.road_number() != seed.number || !is_same_key(lease.key(), &seed.key) {
            return false;
        }
        if !lease.base_road().equals(self.road.get()) {
            return false;
        }
        self.sheet
            .are_in_force(lease.base_step(), lease.applied(), lease.is_steady())
    }

    /// Whether a lease is out for this job, and may be ordered or given back. It must run the job's road
    /// (`runs_its_road`), from the steps done, and at most up to the last ordered step.
    fn accepts_lease(&self, lease: &Lease, runs_its_road: bool) -> bool
        ensures { result ≡ accepts_lease (offered lease.now runs_its_road) self.now }
    {
        match self.out {
            Some(number) => {
                number == lease.number()
                    && lease.base_step() == self.done
                    && lease.step() <= self.high
                    && runs_its_road
            }
            None => false,
        }
    }

    /// Orders the next step of a lease.
    pub fn order(&mut self, lease: &Lease, runs_its_road: bool) -> Result<Order, BookFault>
        requires { IsTrue runs_its_road → RunsRoadOfJob self.old lease.now }
        ensures reply { MatchBool (is_memory result) (Unit {0})
            (order_reply result ≡ (order_outcome (offered lease.now runs_its_road) self.old).reply) }
        ensures job { MatchBool (is_memory result) (self.new ≡ self.old)
            (self.new ≡ (order_outcome (offered lease.now runs_its_road) self.old).job) }
        ensures fits { IfOk result (λ order. FitsOrder lease.now order) }
        ensures rule { IfOk result (λ order. in_force self.old.sheet order.step ≡ Some order.rule) }
    {
        let step = lease.step();
        if self.cancelled || step == self.steps {
            return Err(BookFault::Ended);
        }
        if !self.accepts_lease(lease, runs_its_road) {
            return Err(BookFault::StrangerLease);
        }
        let entry = self.sheet.entry_in_force(step);
        let from = entry.0;
        let rule = entry.1.share()?;
        self.high = self.high.max(step + 1);
        Ok(Order {
            job: lease.job(),
            lease: lease.number(),
            step,
            from,
            rule,
        })
    }

    /// The job's tally plus those of a lease's steps. Steps before the seed's `warm` are not counted.
    fn tally_with(&self, lease: &Lease) -> StepTally
        requires base { lease.now.base.step ≡ self.now.done }
        requires own { RunsRoadOfJob self.now lease.now }
        ensures { IsReachedByRun (progress_of self.now.seed self.now.sheet lease.now.step lease.now.road result) }
    {
        // For the proof: the lease's step is a `u32`, so no step up to it overflows.
        let _end = lease.step();
        let mut step = self.done;
        let mut sum = self.tally;
        let seed = self.seed.get();
        for ran in lease.applied() {
            if seed.warm <= step {
                sum = tally_sum(sum, ran.tally);
            }
            step += 1;
        }
        sum
    }

    /// Gives the job the road and the step of its lease.
    pub fn give_back(&mut self, lease: Lease, runs_its_road: bool) -> Result<(), (Lease, BookFault)>
        requires { IsTrue runs_its_road → RunsRoadOfJob self.old lease }
        ensures reply { give_back_reply result ≡ (give_back_outcome (offered lease runs_its_road) self.old).reply }
        ensures job { self.new ≡ (give_back_outcome (offered lease runs_its_road) self.old).job }
        ensures returned { IfErr result (λ returned. returned.0 ≡ lease) }
    {
        if !self.accepts_lease(&lease, runs_its_road) {
            return Err((lease, BookFault::StrangerLease));
        }
        self.tally = self.tally_with(&lease);
        self.done = lease.step();
        self.road.come_to(lease.into_road());
        self.out = None;
        Ok(())
    }

    /// The state of the job after the steps that it has done.
    pub fn read(&self, alloc: Global) -> Result<Snapshot, AllocError>
        ensures { IfOk result (λ seen. IsSnapshotOf self.now seen) }
    {
        let seed = self.seed.share()?;
        let sheet = self.sheet.copy(alloc)?;
        let road = self.road.share()?;
        Ok(Snapshot {
            seed,
            sheet,
            step: self.done,
            road,
            tally: self.tally,
        })
    }
}

/// Whether two keys are equal.
fn is_same_key(key: &Key, other: &Key) -> bool
    ensures { IsTrue result ↔ (key.now ≡ other.now) }
{
    key.0 == other.0
}
