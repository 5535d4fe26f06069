//! The roads of a sweep as jobs of a book, one batch after another. The caller runs the roads that the runners of the
//! book leave unfinished.

ghost use Rattle.std.specs.Prelude.{◌≡◌, ◌<◌, ◌≤◌, ◌-◌, All, IfOk, OnOk, get_or, length};
ghost use Rattle.trlab_bounds.specs.declared.runs.TheConstants.{MAX_RUNNERS, MAX_WORKERS};
ghost use Rattle.trlab_diagram.specs.Tables.{IsMeasured};
ghost use Rattle.trlab_book.specs.Desks.{part_count};
ghost use Rattle.trlab_campaign.specs.SweepOutput.{AreFirstPoints, ArePoints, AreSeeds, IsPoint, IsStart};
ghost use Rattle.trlab_strands.specs.Tokens.{name_of};

use crate::progress::ProgressObserver;
use crate::sweep::points::{even_road, point_from_snapshot, run_point};
use crate::sweep::work::WorkGate;
use std::alloc::{AllocError, Global};
use std::marker::Brand;
use std::sync::Wait;
use std::thread::Threads;
use trlab_book::{Desk, SharedBook, run_jobs};
use trlab_diagram::Point;
use trlab_jobs::Sweep;
use trlab_jobs::limits::MAX_CARS_IN_MEMORY;
use trlab_road::Road;
use trlab_segments::workers_for;
use trlab_sequential_book::{Event, Seed, SharedRule, SharedSeed};
use trlab_strands::{Blank, Ledger};

/// The points from `first` up to, but not including, `end` of a sweep, whose roads are in memory at the same time.
#[derive(Clone, Copy)]
struct Batch {
    first: u32,
    end: u32,
    /// Whether the last point has at least as many cars as the first.
    is_rising: bool,
}

/// The number after the last point of the batch that begins with the point `first`.
fn end_of_batch(sweep: &Sweep, first: usize) -> usize
    requires { first < length sweep.now.cars }
    ensures { (first < result) × (result ≤ length sweep.now.cars) }
{
    let mut cars = sweep.cars[first];
    for number in first + 1..sweep.cars.len() {
        cars = cars.saturating_add(sweep.cars[number]);
        if cars > MAX_CARS_IN_MEMORY {
            return number;
        }
    }
    sweep.cars.len()
}

impl Batch {
    /// The batch that begins with the point `first`.
    fn of(sweep: &Sweep, first: usize) -> Batch
        requires { first < length sweep.now.cars }
        ensures first { result.first ≡ first }
        ensures at_least_one_point { first < result.end }
        ensures end { result.end ≤ length sweep.now.cars }
    {
        let end = end_of_batch(sweep, first);
        let is_rising = sweep.cars[first] <= sweep.cars[end - 1];
        Batch {
            first: first as u32,
            end: end as u32,
            is_rising,
        }
    }

    /// The number of points.
    fn len(self) -> u32
        requires { self.first ≤ self.end }
        ensures { result ≡ self.end - self.first }
    {
        self.end - self.first
    }

    /// The largest number of cars of a road of the batch.
    fn most_cars(self, sweep: &Sweep) -> u32
        requires { self.end ≤ length sweep.now.cars }
    {
        let mut most = 0;
        for number in self.first..self.end {
            most = most.max(sweep.cars[number as usize]);
        }
        most
    }

    /// Maps the index of a point in the batch to the index of its job, and back. If the numbers of cars rise, the order
    /// is reversed: a runner that began the slowest road last would drive it while the others have nothing to do.
    fn place(self, index: u32) -> u32
        requires { index < self.end - self.first }
        ensures { result < self.end - self.first }
    {
        if self.is_rising {
            self.end - self.first - 1 - index
        } else {
            index
        }
    }
}

/// The runners of a sweep, each with its workers. The workers pass the gate of the sweep.
#[derive(Drop)]
pub struct Runners<'a, R, O> {
    pub rt: &'a R,
    pub alloc: Global,
    pub sweep: &'a Sweep,
    pub gate: &'a WorkGate<'a, O>,
    /// The number of runners.
    pub count: u32,
    /// The largest number of workers of each runner.
    pub workers: u32,
    ghost runner_count: { (0 < count) × (count ≤ MAX_RUNNERS) },
    ghost worker_count: { (0 < workers) × (workers ≤ MAX_WORKERS) },
    ghost same_points: { gate.now.count ≡ length sweep.now.cars },
}

impl<'a, R: Threads + Wait + Sync, O: ProgressObserver + Sync> Runners<'a, R, O> {
    /// The seed of the point `number`, with a new road.
    fn seed(&self, number: u32) -> Result<SharedSeed, AllocError>
        requires { number < length self.now.sweep.now.cars }
        ensures { IfOk result (λ seed. IsStart self.now.sweep.now number seed.road) }
    {
        let sweep = self.sweep;
        let road = even_road(self.alloc, sweep, sweep.cars[number as usize])?;
        let seed = Seed {
            road,
            key: sweep.key,
            number,
            warm: sweep.warm,
        };
        SharedSeed::new(self.alloc, seed)
    }

    /// The seeds of a batch, in the order of its points. Its jobs share them.
    fn seeds(&self, batch: Batch) -> Result<Vec<SharedSeed>, AllocError>
        requires in_order { batch.first ≤ batch.end }
        requires inside { batch.end ≤ length self.now.sweep.now.cars }
        ensures are { IfOk result (λ seeds. AreSeeds self.now.sweep.now batch.first seeds.items) }
        ensures count { IfOk result (λ seeds. length seeds.items ≡ batch.end - batch.first) }
    {
        let mut seeds = Vec::new(self.alloc);
        for number in batch.first..batch.end {
            let seed = self.seed(number)?;
            seeds.push(seed)?;
        }
        Ok(seeds)
    }

    /// Submits the seeds of a batch in the order of their jobs. If the book does not accept one, the remaining seeds
    /// have no job.
    fn submit<L: Ledger>(
        &self,
        book: &SharedBook<L>,
        desk: &mut Desk<L>,
        batch: Batch,
        seeds: &[SharedSeed],
    ) -> Result<(), AllocError>
        requires in_order { batch.first ≤ batch.end }
        requires count { length seeds.now ≡ batch.end - batch.first }
        ensures { part_count desk.new ≡ part_count desk.old }
    {
        let sweep = self.sweep;
        let rule = SharedRule::copy_of(self.alloc, &sweep.rule)?;
        let steps = sweep.warm + sweep.measure;
        for job in 0..batch.len() {
            let seed = seeds[batch.place(job) as usize].share()?;
            let rule = rule.share()?;
            let submitted = book.submit_shared(self.rt, self.alloc, desk, seed, rule, steps);
            if submitted.is_err() {
                return Ok(());
            }
        }
        Ok(())
    }

    /// The point `number`, which starts from `road`: from the book if its job has reached the last step, otherwise from
    /// a run by the caller.
    fn point<L: Ledger>(
        &self,
        book: &SharedBook<L>,
        desk: &mut Desk<L>,
        job: u32,
        number: u32,
        road: &Road,
    ) -> Result<Point, AllocError>
        requires inside { number < length self.now.sweep.now.cars }
        requires even { IsStart self.now.sweep.now number road.now }
        ensures is { IfOk result (λ point. IsPoint self.now.sweep.now.setup number
            (get_or self.now.sweep.now.cars number 0) point) }
        ensures measured { IfOk result IsMeasured }
    {
        let sweep = self.sweep;
        let cars = sweep.cars[number as usize];
        if let Ok(seen) = book.read(self.rt, self.alloc, desk, job)
            && let Some(point) = point_from_snapshot(sweep, number, cars, road, &seen)
        {
            return Ok(point);
        }
        run_point(self.alloc, sweep, number, cars, road.copy(self.alloc)?)
    }

    /// Adds the points of a batch, whose jobs were run.
    fn collect<L: Ledger>(
        &self,
        book: &SharedBook<L>,
        desk: &mut Desk<L>,
        batch: Batch,
        seeds: &[SharedSeed],
        points: &mut Vec<Point>,
    ) -> Result<(), AllocError>
        requires first { AreFirstPoints self.now.sweep.now points.old.items }
        requires next { length points.old.items ≡ batch.first }
        requires in_order { batch.first ≤ batch.end }
        requires inside { batch.end ≤ length self.now.sweep.now.cars }
        requires seeds { AreSeeds self.now.sweep.now batch.first seeds.now }
        requires one_each { length seeds.now ≡ batch.end - batch.first }
        ensures first { OnOk result (AreFirstPoints self.now.sweep.now points.new.items) }
        ensures count { OnOk result (length points.new.items ≡ batch.end) }
    {
        for number in batch.first..batch.end {
            let index = number - batch.first;
            let road = &seeds[index as usize].get().road;
            let point = self.point(book, desk, batch.place(index), number, road)?;
            points.push(point)?;
        }
        Ok(())
    }

    /// Runs the roads of the next batch as the jobs of a new book, and adds their points. Each runner has only as many
    /// workers as speed up the road with the most cars.
    fn add_batch<L: Ledger + Send + Sync>(
        &self,
        blank: Blank<Event>,
        points: &mut Vec<Point>,
    ) -> Result<(), AllocError>
        requires name { name_of blank ≡ L.name }
        requires first { AreFirstPoints self.now.sweep.now points.old.items }
        requires left { length points.old.items < length self.now.sweep.now.cars }
        ensures first { OnOk result (AreFirstPoints self.now.sweep.now points.new.items) }
        ensures more { OnOk result (length points.old.items < length points.new.items) }
    {
        let sweep = self.sweep;
        let batch = Batch::of(sweep, points.len());
        let cars = batch.most_cars(sweep);
        let workers = workers_for(self.rt, self.workers, cars, sweep.rule.draws());
        let (book, mut desk) = SharedBook::<L>::start(self.alloc, blank);
        let seeds = self.seeds(batch)?;
        self.submit(&book, &mut desk, batch, &seeds)?;
        let mut desk = match run_jobs(
            self.rt, self.alloc, &book, desk, self.count, workers, self.gate,
        ) {
            Ok(desk) => desk,
            Err((desk, _)) => desk,
        };
        self.collect(&book, &mut desk, batch, &seeds, points)
    }

    /// Computes the points of the sweep, batch by batch, and returns them in the order of the text.
    ///
    /// # Errors
    ///
    /// If an allocation fails.
    pub fn points(&self) -> Result<Vec<Point>, AllocError>
        ensures are { IfOk result (λ points. ArePoints self.now.sweep.now points.items) }
        ensures measured { IfOk result (λ points. All IsMeasured points.items) }
    {
        let sweep = self.sweep;
        let mut points = Vec::new(self.alloc);
        while points.len() < sweep.cars.len() {
            let blank = Blank::new(self.alloc)?;
            self.add_batch::<Brand>(blank, &mut points)?;
            self.gate.count_points(points.len());
        }
        Ok(points)
    }
}
