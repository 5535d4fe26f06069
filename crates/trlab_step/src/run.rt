//! Runs: a road advances step by step under a sheet of rules, and the tallies of its steps are added up.

ghost use Rattle.std.specs.Prelude.{◌≡◌, ◌+◌, ◌<◌, ◌^◌, OnOk, OnErr, length};
ghost use Rattle.trlab_step.specs.Run.{IsSheetFor, IsRoadAt, IsTallyAt, IsReachedByRun, IsOneStepOn, at_start};

use crate::sheet::RunSheet;
use crate::tally::{no_tally, tally_sum};
use crate::{Executor, NoObserver, StepContext, StepObserver, StepRoom, StepTally, take_step};
use std::alloc::{AllocError, Global};
use std::marker::Model;
use std::snapshot::Snapshot;
use trlab_machine::Dice;
use trlab_road::Road;
use trlab_words::Key;

/// A run of a road under a sheet of rules: the current step, the road at this step, and the sum of the tallies
/// so far.
pub struct Run {
    start: Snapshot<Road>,
    key: Key,
    number: u32,
    warm: u32,
    sheet: RunSheet,
    step: u32,
    road: Road,
    sum: StepTally,
    /// Memory that is reused by each step.
    room: StepRoom,
}

// Not derived: a derived drop is proved again, field by field, wherever the value goes out of scope.
impl Drop for Run {
    fn drop(self) {
        let Run {
            start: _start,
            key: _key,
            number: _number,
            warm: _warm,
            sheet: _sheet,
            step: _step,
            road: _road,
            sum: _sum,
            room: _room,
        } = self;
    }
}

impl Model for Run {
    ghost use Rattle.trlab_step.specs.Run.{IsReachedByRun, Progress};

    ghost Value = { Progress };

    ghost view = { λ run. record {
      seed = record { road = run.start.value; key = run.key.0; number = run.number; warm = run.warm };
      sheet = run.sheet;
      step = run.step;
      road = run.road;
      sum = run.sum;
    } };

    ghost invariant = { λ run. IsReachedByRun (record {
      seed = record { road = run.start.value; key = run.key.0; number = run.number; warm = run.warm };
      sheet = run.sheet;
      step = run.step;
      road = run.road;
      sum = run.sum;
    }) };
}

impl Run {
    /// A run of a road from step 0 on. The key and the number of the road determine its random words. The tallies of
    /// steps before `warm` are not counted.
    pub fn new(alloc: Global, key: Key, number: u32, warm: u32, road: Road, sheet: RunSheet) -> Run
        requires suits { IsSheetFor (length road.lanes) sheet }
        ensures { result ≡ at_start (record { road = road; key = key.0; number = number; warm = warm }) sheet }
    {
        Run {
            start: road.snapshot(),
            key,
            number,
            warm,
            sheet,
            step: 0,
            road,
            sum: no_tally(),
            room: StepRoom::new(alloc),
        }
    }

    /// The current step, counted from 0.
    pub fn step(&self) -> u32
        ensures value { result ≡ self.now.step }
        ensures underway { IsReachedByRun self.now }
    {
        self.step
    }

    /// The road at the current step.
    pub fn road(&self) -> &Road
        ensures value { result.now ≡ self.now.road }
        ensures run { IsRoadAt self.now.seed self.now.sheet self.now.step result.now }
    {
        &self.road
    }

    /// The sum of the tallies of the steps taken so far, except those before `warm`.
    pub fn tally(&self) -> StepTally
        ensures value { result ≡ self.now.sum }
        ensures run { IsTallyAt self.now.seed self.now.sheet self.now.step result }
    {
        self.sum
    }

    /// Takes one step; the executor computes the answers of the cars.
    ///
    /// # Errors
    ///
    /// If an allocation fails; then nothing changes.
    pub fn advance<E: Executor>(&mut self, executor: &E, alloc: Global) -> Result<(), AllocError>
        requires ready { E.is_ready executor.now }
        requires steps { self.old.step + 1 < 2 ^ 32 }
        ensures on { OnOk result (IsOneStepOn self.old self.new) }
        ensures unchanged { OnErr result (self.new ≡ self.old) }
    {
        self.advance_showing(executor, alloc, &mut NoObserver)
    }

    /// Takes one step, and shows an observer the road before it, while the answers of the cars are computed.
    ///
    /// # Errors
    ///
    /// If an allocation fails; then nothing changes, and the observer has seen the road.
    pub fn advance_showing<E: Executor, O: StepObserver>(
        &mut self,
        executor: &E,
        alloc: Global,
        observer: &mut O,
    ) -> Result<(), AllocError>
        requires ready { E.is_ready executor.now }
        requires steps { self.old.step + 1 < 2 ^ 32 }
        ensures on { OnOk result (IsOneStepOn self.old self.new) }
        ensures seen { O.observes observer.old self.old.road observer.new }
        ensures run { IsRoadAt self.old.seed self.old.sheet self.old.step self.old.road }
        ensures unchanged { OnErr result (self.new ≡ self.old) }
    {
        let dice = Dice::new(&self.key, self.number, self.step);
        let context = StepContext {
            executor,
            alloc,
            dice: &dice,
        };
        let rule = self.sheet.in_force(self.step);
        let tally = take_step(&context, &mut self.road, &mut self.room, rule, observer)?;
        self.sum = if self.warm <= self.step {
            tally_sum(self.sum, tally)
        } else {
            self.sum
        };
        self.step += 1;
        Ok(())
    }
}
