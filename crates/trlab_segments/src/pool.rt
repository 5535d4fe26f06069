//! The pool of a run: the calling thread, and the helpers that live as long as the run.

mod ask;
mod brief;
mod keyed_lock;
mod rendezvous;
mod results;
mod task;

ghost use Rattle.std.specs.Prelude.{◌≡◌, ◌/◌, ◌<◌, ◌≤◌, if◌then◌else◌, max};
ghost use Rattle.trlab_bounds.specs.declared.runs.TheConstants.{MAX_WORKERS};
ghost use Rattle.trlab_segments.specs.declared.pool.TheConstants.{CARS_PER_WORKER, DRAWING_CARS_PER_WORKER};

use crate::pool::rendezvous::{Rendezvous, SPINS_BEFORE_SLEEP, help_all};
use crate::segment::Gate;
use std::alloc::Global;
use std::sync::Wait;
use std::thread;
use std::thread::{Threads, join_mut};

/// The number of cars that keep a worker busy for longer than it takes to wake one, if no program draws random numbers.
pub const CARS_PER_WORKER: u32 = 2000;
/// The number of cars that keep a worker busy for longer than it takes to wake one, if a program draws random numbers.
/// These take most of the time per car.
pub const DRAWING_CARS_PER_WORKER: u32 = 500;

/// 1 to `MAX_WORKERS` workers and their gate. The calling thread is worker 0; the others are started once for a whole
/// run, and help with its phases.
#[derive(Drop)]
pub struct Pool<'a, R, G> {
    rt: &'a R,
    gate: &'a G,
    rendezvous: Rendezvous,
    workers: u32,
    ghost in_range: { (0 < workers) × (workers ≤ MAX_WORKERS) },
}

impl<'a, R: Threads + Wait + Sync, G: Gate + Sync> Pool<'a, R, G> {
    ghost use Rattle.trlab_segments.specs.Workers.{pool_workers};

    /// A pool of `workers` workers, each of which passes the gate before each segment. A single worker asks all cars
    /// at once, and passes no gate.
    pub fn new(rt: &'a R, workers: u32, gate: &'a G) -> Pool<'a, R, G>
        requires { (0 < workers) × (workers ≤ MAX_WORKERS) }
        ensures { pool_workers result ≡ workers }
    {
        Pool {
            rt,
            gate,
            rendezvous: Rendezvous::new(0),
            workers,
        }
    }

    /// Keeps only as many workers as save time on a road with `cars` cars (`workers_for`). The helpers stay awake for a
    /// while between two phases.
    pub fn with_workers_for(self, cars: u32, draws: bool) -> Pool<'a, R, G>
        ensures at_least_one { 0 < pool_workers result }
        ensures at_most_workers { pool_workers result ≤ pool_workers self.entry }
        ensures used { let share = if draws then DRAWING_CARS_PER_WORKER else CARS_PER_WORKER in
            pool_workers result ≤ max 1 (cars / share) }
    {
        Pool {
            rt: self.rt,
            gate: self.gate,
            rendezvous: Rendezvous::new(SPINS_BEFORE_SLEEP),
            workers: workers_for(self.rt, self.workers, cars, draws),
        }
    }

    /// Calls `drive`, which drives a run, while helpers wait for the run's phases. All helpers have ended when `run`
    /// returns, and a second call has no helpers. If no thread can be started, the run goes on without them.
    pub fn run<T, D: FnMut() -> T>(&self, alloc: Global, drive: &mut D) -> T
        requires { D.pre drive.old }
        ensures { D.step drive.old result drive.new }
    {
        if self.workers == 1 {
            return drive();
        }
        let rt = self.rt;
        let gate = self.gate;
        let rendezvous = &self.rendezvous;
        let helpers = self.workers - 1;
        let (_, driven) = join_mut(
            rt,
            &mut || help_all(rt, alloc, rendezvous, helpers, gate),
            &mut || -> T
                requires { D.pre drive.now }
                ensures { D.step drive.entry.now result drive.exit.now }
            {
                let driven = drive();
                rendezvous.close();
                driven
            },
        );
        driven
    }
}

/// The number of workers, of at most `workers`, that save time on a road with `cars` cars: at least one, but at most one
/// per processor and one per `CARS_PER_WORKER` cars (`DRAWING_CARS_PER_WORKER` if a program `draws` random numbers).
pub fn workers_for<R: Threads>(rt: &R, workers: u32, cars: u32, draws: bool) -> u32
    requires { 0 < workers }
    ensures at_least_one { 0 < result }
    ensures at_most_workers { result ≤ workers }
    ensures used { let share = if draws then DRAWING_CARS_PER_WORKER else CARS_PER_WORKER in
        result ≤ max 1 (cars / share) }
{
    let most = within_processors(rt, workers);
    let busy = (cars / cars_per_worker(draws)).max(1);
    busy.min(most)
}

/// The number of cars that keep a worker busy, if a program `draws` random numbers or if none does.
fn cars_per_worker(draws: bool) -> u32
    ensures at_least_one { 0 < result }
    ensures value { result ≡ (if draws then DRAWING_CARS_PER_WORKER else CARS_PER_WORKER) }
{
    if draws {
        DRAWING_CARS_PER_WORKER
    } else {
        CARS_PER_WORKER
    }
}

/// The number of workers, but at most one per processor; one if the number of processors is unknown.
fn within_processors<R: Threads>(rt: &R, workers: u32) -> u32
    requires { 0 < workers }
    ensures at_least_one { 0 < result }
    ensures at_most_workers { result ≤ workers }
{
    let processors = match thread::available_parallelism(rt) {
        Ok(count) => count.get(),
        Err(_) => 1,
    };
    if processors < workers as usize {
        processors as u32
    } else {
        workers
    }
}
