//! Leases: jobs that are out. Their steps are run outside the book.

ghost use Rattle.std.specs.Prelude.{◌≡◌, ◌↔◌, ◌+◌, ◌<◌, ◌^◌, ◌++◌, ◌∷◌, [], IfOk, IsTrue, OnOk, OnErr, length};
ghost use Rattle.std.specs.Arc.{arc_value};
ghost use Rattle.trlab_step.specs.Answers.{dice_of};
ghost use Rattle.trlab_step.specs.Run.{IsRuleFor};
ghost use Rattle.trlab_step.specs.Next.{IsNext};
ghost use Rattle.trlab_step.specs.declared.tally.StepTally.{StepTally};
ghost use Rattle.trlab_sequential_book.specs.Leases.{FitsOrder, HasRun, IsLease, IsSteady, with_executed_step};
ghost use Rattle.trlab_sequential_book.specs.declared.lease.LeaseFault.TheVariants.{Memory, WrongOrder};

use crate::order::Order;
use crate::rule::SharedRule;
use crate::seed::SharedRoad;
use std::alloc::{AllocError, Global};
use std::marker::Model;
use std::sync::Arc;
use thiserror::Error;
use trlab_machine::Dice;
use trlab_road::Road;
use trlab_rules::Rule;
use trlab_step::{Executor, NoObserver, StepContext, StepRoom, StepTally, suits, take_step};
use trlab_words::Key;

/// Why a lease ran no step.
#[derive(Clone, Copy, Debug, PartialEq, Eq, Error)]
pub enum LeaseFault {
    /// The order is for another job, lease or step, or its rule has a change program and the road has one lane.
    #[error("the order is not for this lease")]
    WrongOrder,
    /// An allocation failed.
    #[error("out of memory")]
    Memory,
}

impl From<AllocError> for LeaseFault {
    ghost from_gives = { λ _ fault. fault ≡ Memory };

    fn from(_: AllocError) -> LeaseFault {
        LeaseFault::Memory
    }
}

/// A step that a lease has run: its rule, and the counts of this step.
pub struct ExecutedStep {
    pub rule: SharedRule,
    pub tally: StepTally,
}

// Not derived: a derived drop is proved again, field by field, wherever the value goes out of scope.
impl Drop for ExecutedStep {
    fn drop(self) {
        let ExecutedStep {
            rule: _rule,
            tally: _tally,
        } = self;
    }
}

/// The right to run a job's steps outside the book: the job's road when it went out, the steps run since then, and the
/// road after them.
#[derive(Drop)]
pub struct Lease {
    pub(crate) job: u32,
    pub(crate) number: u32,
    pub(crate) steps: u32,
    pub(crate) key: Key,
    pub(crate) road_number: u32,
    pub(crate) base_step: u32,
    pub(crate) base_road: SharedRoad,
    pub(crate) step: u32,
    /// Not shared until the job takes it over.
    pub(crate) road: Arc<Road, Global>,
    pub(crate) applied: Vec<ExecutedStep>,
    /// If true, all steps that were run had the same rule; if false, they may have had several.
    pub(crate) is_steady: bool,
    /// Memory that is reused by each step.
    pub(crate) room: StepRoom,
}

impl Model for Lease {
    ghost use Rattle.std.specs.Prelude.{IsTrue};
    ghost use Rattle.std.specs.Arc.{arc_value};
    ghost use Rattle.trlab_sequential_book.specs.Leases.{IsLease, IsSteady, LeaseState};

    ghost Value = { LeaseState };

    ghost view = { λ lease. record {
      job = lease.job;
      number = lease.number;
      steps = lease.steps;
      key = lease.key;
      road_number = lease.road_number;
      base = record { step = lease.base_step; road = lease.base_road };
      step = lease.step;
      road = arc_value lease.road;
      applied = lease.applied.items;
    } };

    ghost invariant = { λ lease. IsLease
        (record {
          job = lease.job;
          number = lease.number;
          steps = lease.steps;
          key = lease.key;
          road_number = lease.road_number;
          base = record { step = lease.base_step; road = lease.base_road };
          step = lease.step;
          road = arc_value lease.road;
          applied = lease.applied.items;
        })
        × (IsTrue lease.is_steady → IsSteady lease.applied.items) };
}

impl Lease {
    /// The number of the job.
    pub fn job(&self) -> u32
        ensures { result ≡ self.now.job }
    {
        self.job
    }

    /// The number of the lease, which counts all leases of the book from 0.
    pub fn number(&self) -> u32
        ensures { result ≡ self.now.number }
    {
        self.number
    }

    /// The number of steps of the job.
    pub fn steps(&self) -> u32
        ensures { result ≡ self.now.steps }
    {
        self.steps
    }

    /// The key of the road's random numbers.
    pub(crate) fn key(&self) -> &Key
        ensures { result.now ≡ self.now.key }
    {
        &self.key
    }

    /// The number of the road, which with the key determines its random numbers.
    pub(crate) fn road_number(&self) -> u32
        ensures { result ≡ self.now.road_number }
    {
        self.road_number
    }

    /// The step at which the lease went out.
    pub fn base_step(&self) -> u32
        ensures { result ≡ self.now.base.step }
    {
        self.base_step
    }

    /// The job's road when the lease went out.
    pub fn base_road(&self) -> &Road
        ensures { result.now ≡ self.now.base.road }
    {
        self.base_road.get()
    }

    /// The next step to run: `base_step` plus the number of steps that were run.
    pub fn step(&self) -> u32
        ensures value { result ≡ self.now.step }
        ensures lease { IsLease self.now }
    {
        self.step
    }

    /// The road before the next step.
    pub fn road(&self) -> &Road
        ensures value { result.now ≡ self.now.road }
        ensures lease { IsLease self.now }
    {
        &self.road
    }

    /// The steps that were run, in order.
    pub(crate) fn applied(&self) -> &[ExecutedStep]
        ensures value { result.now ≡ self.now.applied }
        ensures lease { IsLease self.now }
    {
        &self.applied
    }

    /// If true, all steps that were run had the same rule; if false, they may have had several.
    pub(crate) fn is_steady(&self) -> bool
        ensures { IsTrue result → IsSteady self.now.applied }
    {
        self.is_steady
    }

    /// Ends the lease, and returns the road before its next step.
    pub(crate) fn into_road(self) -> Arc<Road, Global>
        ensures { arc_value result ≡ self.road }
    {
        self.road
    }

    /// Runs the ordered step. The executor computes the answers of the cars; the result does not depend on it.
    ///
    /// # Errors
    ///
    /// `WrongOrder` if the order is for another job, lease or step, or its rule has a change program and the road has
    /// one lane; `Memory` if an allocation fails. Then nothing changes.
    pub fn advance<E: Executor>(
        &mut self,
        executor: &E,
        alloc: Global,
        order: &Order,
    ) -> Result<(), LeaseFault>
        requires ready { E.is_ready executor.now }
        ensures ok { OnOk result (HasRun self.old order.now self.new) }
        ensures unchanged { OnErr result (self.new ≡ self.old) }
        ensures wrong { (result ≡ Err WrongOrder) ↔ (FitsOrder self.old order.now → ⊥) }
    {
        if !self.fits(order) {
            return Err(LeaseFault::WrongOrder);
        }
        Ok(self.run(executor, alloc, &order.rule)?)
    }

    /// Whether an order is for this lease at its step, and its rule suits the road.
    fn fits(&self, order: &Order) -> bool
        ensures value { IsTrue result ↔ FitsOrder self.now order.now }
        ensures rule { IsTrue result → IsRuleFor (length self.now.road.lanes) order.now.rule }
    {
        order.job == self.job
            && order.lease == self.number
            && order.step == self.step
            && suits(order.rule.get(), &self.road)
    }

    /// Runs the lease's next step under a rule. If an allocation fails, nothing changes.
    fn run<E: Executor>(
        &mut self,
        executor: &E,
        alloc: Global,
        rule: &SharedRule,
    ) -> Result<(), AllocError>
        requires ready { E.is_ready executor.now }
        requires rule { IsRuleFor (length self.old.road.lanes) rule.now }
        requires step { self.old.step + 1 < 2 ^ 32 }
        ensures ok { OnOk result ((tally : StepTally)
            × IsNext rule.now (dice_of self.old.key.0 self.old.road_number self.old.step)
            self.old.road self.new.road tally
            × (self.new ≡ with_executed_step self.old rule.now tally self.new.road)) }
        ensures unchanged { OnErr result (self.new ≡ self.old) }
    {
        self.applied.reserve(1)?;
        let dice = Dice::new(&self.key, self.road_number, self.step);
        let shared = rule.share()?;
        let is_steady = is_still_steady(&self.applied, self.is_steady, rule);
        let rule = rule.get();
        let context = StepContext {
            executor,
            alloc,
            dice: &dice,
        };
        let tally = step_unshared(&context, &mut self.road, &mut self.room, rule)?;
        self.applied.push_reserved(ExecutedStep {
            rule: shared,
            tally,
        });
        self.is_steady = is_steady;
        self.step += 1;
        Ok(())
    }
}

/// Runs a step on a lease's road, which no one else shares; a shared road would be reported as a failed allocation.
fn step_unshared<E: Executor>(
    context: &StepContext<E>,
    road: &mut Arc<Road, Global>,
    room: &mut StepRoom,
    rule: &Rule,
) -> Result<StepTally, AllocError>
    requires ready { E.is_ready context.now.executor.now }
    requires rule { IsRuleFor (length (arc_value road.old).lanes) rule.now }
    ensures next { IfOk result (λ tally.
        IsNext rule.now context.now.dice.now (arc_value road.old) (arc_value road.new) tally) }
    ensures unchanged { OnErr result (arc_value road.new ≡ arc_value road.old) }
{
    match Arc::get_mut(road) {
        Some(road) => take_step(context, road, room, rule, &mut NoObserver),
        None => Err(AllocError),
    }
}

/// Whether all steps of a lease are known to have the same rule, once a step with `rule` is added to `applied`.
fn is_still_steady(applied: &[ExecutedStep], is_steady: bool, rule: &SharedRule) -> bool
    requires { IsTrue is_steady → IsSteady applied.now }
    ensures { IsTrue result → (tally : StepTally)
        → IsSteady (applied.now ++ record { rule = rule.now; tally = tally } ∷ []) }
{
    match applied.first() {
        Some(ran) => is_steady && ran.rule.equals(rule),
        None => true,
    }
}
