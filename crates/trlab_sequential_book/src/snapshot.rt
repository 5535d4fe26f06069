//! Snapshots: the results of reads.

ghost use Rattle.std.specs.Prelude.{◌≡◌, length};
ghost use Rattle.trlab_road.specs.Cells.{IsLegal};
ghost use Rattle.trlab_step.specs.Laws.{IsLegalLike};
ghost use Rattle.trlab_step.specs.Run.{IsSheetFor, IsRoadAt, IsTallyAt};
ghost use Rattle.trlab_sequential_book.specs.Comparison.{run_seed};

use crate::seed::{Seed, SharedRoad, SharedSeed};
use crate::sheet::Sheet;
use std::marker::Model;
use trlab_road::Road;
use trlab_step::StepTally;

/// The state of a job after the steps that it has done. Its type guarantees that the road and the tally are those of
/// one worker who runs the seed under the sheet.
pub struct Snapshot {
    pub(crate) seed: SharedSeed,
    pub(crate) sheet: Sheet,
    pub(crate) step: u32,
    pub(crate) road: SharedRoad,
    pub(crate) tally: StepTally,
}

// Not derived: a derived drop is proved again, field by field, wherever the value goes out of scope.
impl Drop for Snapshot {
    fn drop(self) {
        let Snapshot {
            seed: _seed,
            sheet: _sheet,
            step: _step,
            road: _road,
            tally: _tally,
        } = self;
    }
}

impl Model for Snapshot {
    ghost use Rattle.trlab_step.specs.Run.{IsReachedByRun, Progress};
    ghost use Rattle.trlab_sequential_book.specs.Comparison.{progress_of};

    ghost Value = { Progress };

    ghost view = { λ seen. progress_of seen.seed seen.sheet seen.step seen.road seen.tally };

    ghost invariant = { λ seen. IsReachedByRun (progress_of seen.seed seen.sheet seen.step seen.road seen.tally) };
}

impl Snapshot {
    /// The initial state of the job.
    pub fn seed(&self) -> &Seed
        ensures value { run_seed result.now ≡ self.now.seed }
        ensures legal { IsLegal result.now.road }
    {
        self.seed.get()
    }

    /// The rules of the job, including those of later steps.
    pub fn sheet(&self) -> &Sheet
        ensures value { result.now ≡ self.now.sheet }
        ensures rules { IsSheetFor (length self.now.seed.road.lanes) result.now }
    {
        &self.sheet
    }

    /// The number of steps done.
    pub fn step(&self) -> u32
        ensures { result ≡ self.now.step }
    {
        self.step
    }

    /// The road after these steps, with as many lanes and cars as at the start, and the same limit.
    pub fn road(&self) -> &Road
        ensures value { result.now ≡ self.now.road }
        ensures like { IsLegalLike self.now.seed.road result.now }
        ensures run { IsRoadAt self.now.seed self.now.sheet self.now.step result.now }
    {
        self.road.get()
    }

    /// The sums over the steps done, from the seed's `warm` on.
    pub fn tally(&self) -> StepTally
        ensures value { result ≡ self.now.sum }
        ensures run { IsTallyAt self.now.seed self.now.sheet self.now.step result }
    {
        self.tally
    }
}
