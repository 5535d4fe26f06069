//! The points of a sweep: the counts of a road that is run from its start, by a runner of the book or by the
//! caller.

ghost use Rattle.std.specs.Prelude.{◌≡◌, IfOk, IfSome, IsTrue, length};
ghost use Rattle.trlab_diagram.specs.Tables.{IsMeasured};
ghost use Rattle.trlab_road.specs.Cells.{IsLegal};
ghost use Rattle.trlab_road.specs.Spreading.{IsEvenlySpaced};
ghost use Rattle.trlab_step.specs.Run.{IsTallyAt, at_start};
ghost use Rattle.trlab_sequential_book.specs.Comparison.{run_seed};
ghost use Rattle.trlab_jobs.specs.Sweep.{all_steps};
ghost use Rattle.trlab_jobs.specs.Stored.{CanSpreadOn};
ghost use Rattle.trlab_campaign.specs.SweepOutput.{IsPoint, point_of, point_seed, sweep_sheet};

use std::alloc::{AllocError, Global};
use trlab_diagram::Point;
use trlab_jobs::Sweep;
use trlab_road::{Road, RoadFault};
use trlab_sequential_book::{Seed, Sheet, Snapshot};
use trlab_step::{Caller, Run, RunSheet, StepTally};

/// The road of a point at its start, with `cars` evenly spaced cars.
pub fn even_road(alloc: Global, sweep: &Sweep, cars: u32) -> Result<Road, AllocError>
    requires { CanSpreadOn sweep.now.setup.shape cars }
    ensures even { IfOk result (λ road. IsEvenlySpaced sweep.now.setup.shape.lanes
        sweep.now.setup.shape.length sweep.now.setup.shape.limit cars road) }
    ensures legal { IfOk result IsLegal }
{
    match Road::even(alloc, sweep.lanes, sweep.length, sweep.limit, cars) {
        Ok(road) => Ok(road),
        Err(RoadFault::Memory) => Err(AllocError),
        Err(_) => unreachable!(),
    }
}

/// The run of point `number`, at its start.
fn run_of_point(alloc: Global, sweep: &Sweep, number: u32, road: Road) -> Result<Run, AllocError>
    requires { length road.lanes ≡ sweep.now.setup.shape.lanes }
    ensures { IfOk result (λ run.
        run ≡ at_start (point_seed sweep.now.setup number road) (sweep_sheet sweep.now.setup)) }
{
    let rule = sweep.rule.copy(alloc)?;
    let sheet = RunSheet::new(rule, Vec::new(alloc));
    Ok(Run::new(alloc, sweep.key, number, sweep.warm, road, sheet))
}

/// Takes the first `steps` steps of a run, and returns its sum of tallies.
fn count_run(alloc: Global, run: &mut Run, steps: u32) -> Result<StepTally, AllocError>
    requires start { run.old.step ≡ 0 }
    ensures { IfOk result (λ tally. IsTallyAt run.old.seed run.old.sheet steps tally) }
{
    for _ in 0..steps {
        run.advance(&Caller, alloc)?;
    }
    Ok(run.tally())
}

/// Runs point `number` from its start, which is `road`, and returns its sum of tallies.
fn tally_of(alloc: Global, sweep: &Sweep, number: u32, road: Road) -> Result<StepTally, AllocError>
    requires { length road.lanes ≡ sweep.now.setup.shape.lanes }
    ensures { IfOk result (λ tally. IsTallyAt (point_seed sweep.now.setup number road)
        (sweep_sheet sweep.now.setup) (all_steps sweep.now.setup.span) tally) }
{
    let mut run = run_of_point(alloc, sweep, number, road)?;
    let tally = count_run(alloc, &mut run, sweep.warm + sweep.measure);
    drop(run);
    tally
}

/// The point of the diagram with `cars` cars and this sum of tallies.
fn point_of(sweep: &Sweep, cars: u32, tally: StepTally) -> Point
    requires { CanSpreadOn sweep.now.setup.shape cars }
    ensures point { result ≡ point_of sweep.now.setup cars tally }
    ensures measured { IsMeasured result }
{
    Point {
        cars: u64::from(cars),
        cells: u64::from(sweep.lanes) * u64::from(sweep.length),
        steps: u64::from(sweep.measure),
        distance: tally.distance,
        stopped: tally.stopped,
        changes: tally.changes,
    }
}

/// Runs point `number` from its start, which is `road`, in the calling thread.
pub fn run_point(
    alloc: Global,
    sweep: &Sweep,
    number: u32,
    cars: u32,
    road: Road,
) -> Result<Point, AllocError>
    requires spreads { CanSpreadOn sweep.now.setup.shape cars }
    requires even { IsEvenlySpaced sweep.now.setup.shape.lanes
        sweep.now.setup.shape.length sweep.now.setup.shape.limit cars road }
    ensures is { IfOk result (λ point. IsPoint sweep.now.setup number cars point) }
    ensures measured { IfOk result IsMeasured }
{
    let tally = tally_of(alloc, sweep, number, road)?;
    Ok(point_of(sweep, cars, tally))
}

/// Whether this is the seed of point `number`, which starts from `road`.
fn is_seed_of(sweep: &Sweep, number: u32, road: &Road, seed: &Seed) -> bool
    ensures { IsTrue result → run_seed seed.now ≡ point_seed sweep.now.setup number road.now }
{
    seed.number == number
        && seed.warm == sweep.warm
        && seed.key == sweep.key
        && seed.road.equals(road)
}

/// Whether a sheet has only the rule of the sweep, from step 0 on.
#[tactic(auto, using(crate::proofs::OneEntry::one_entry))]
fn is_sheet_of(sweep: &Sweep, sheet: &Sheet) -> bool
    ensures { IsTrue result → sheet.now ≡ sweep_sheet sweep.now.setup }
{
    if sheet.len() != 1 {
        return false;
    }
    let (from, rule) = sheet.entry(0);
    from == 0 && rule.equals(&sweep.rule)
}

/// The point `number`, which starts from `road`, from a snapshot of the book; `None` unless the snapshot shows this
/// point after its last step.
pub fn point_from_snapshot(
    sweep: &Sweep,
    number: u32,
    cars: u32,
    road: &Road,
    snapshot: &Snapshot,
) -> Option<Point>
    requires spreads { CanSpreadOn sweep.now.setup.shape cars }
    requires even { IsEvenlySpaced sweep.now.setup.shape.lanes
        sweep.now.setup.shape.length sweep.now.setup.shape.limit cars road.now }
    ensures is { IfSome result (λ point. IsPoint sweep.now.setup number cars point) }
    ensures measured { IfSome result IsMeasured }
{
    if snapshot.step() == sweep.warm + sweep.measure
        && is_sheet_of(sweep, snapshot.sheet())
        && is_seed_of(sweep, number, road, snapshot.seed())
    {
        Some(point_of(sweep, cars, snapshot.tally()))
    } else {
        None
    }
}
