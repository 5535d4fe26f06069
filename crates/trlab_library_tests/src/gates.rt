//! Crews and pools at gates: the segments that they begin, and that the other workers do the remaining segments while
//! one worker is held.

ghost use Rattle.std.specs.Prelude.{◌<◌};
ghost use Rattle.trlab_bounds.specs.declared.runs.TheConstants.{MAX_WORKERS};

use crate::traffic::{Traffic, spread};
use crate::workers::{pool_as_one, sparing_pool_as_one};
use std::hint;
use std::sync::Wait;
use std::sync::atomic::{AtomicBool, AtomicU64, Ordering};
use std::thread::Threads;
use trlab_bounds::runs::MAX_WORKERS;
use trlab_segments::{CHANGE_PHASE, Gate, MOTION_PHASE, step_shared};
use trlab_words::Key;

/// The number of the road whose steps are taken.
const ROAD: u32 = 9;

/// Takes step 0 through a gate, with `cars` cars and a crew of `others` + 1 workers. Returns whether it succeeded.
fn go_through<G: Gate + Sync>(
    rt: &(impl AllocGlobal + Threads + Sync),
    cars: u32,
    others: u32,
    gate: &G,
) -> bool
    requires { others < MAX_WORKERS }
{
    let (alloc, key, step) = (rt.alloc(), Key([0; 32]), 0);
    match spread(alloc, 100, cars) {
        Some(Traffic { road, rule }) => {
            step_shared(rt, alloc, &road, &rule, &key, ROAD, step, others + 1, gate).is_ok()
        }
        None => false,
    }
}

/// A gate that records how often it is passed and, as bits, which segments of `ROAD` are begun in the lane change and
/// in the motion.
#[derive(Drop)]
struct Notes {
    calls: AtomicU64,
    crossed: AtomicU64,
    moved: AtomicU64,
}

impl Notes {
    /// A record without segments.
    fn new() -> Notes {
        Notes {
            calls: AtomicU64::new(0),
            crossed: AtomicU64::new(0),
            moved: AtomicU64::new(0),
        }
    }

    /// Whether the gate was passed `calls` times, and the segments of the set bits of `begun` were begun in each phase.
    fn has(&self, calls: u64, begun: u64) -> bool {
        self.calls.load(Ordering::SeqCst) == calls
            && self.crossed.load(Ordering::SeqCst) == begun
            && self.moved.load(Ordering::SeqCst) == begun
    }
}

impl Gate for Notes {
    fn pass(&self, number: u32, worker: u32, phase: u32, segment: u32) {
        if number != ROAD || worker >= MAX_WORKERS || phase > MOTION_PHASE || segment >= 64 {
            return;
        }
        let begun = if phase == CHANGE_PHASE {
            &self.crossed
        } else {
            &self.moved
        };
        begun.fetch_or(1 << segment, Ordering::SeqCst);
        self.calls.fetch_add(1, Ordering::SeqCst);
    }
}

/// Whether 16 workers pass the gate `calls` times in a step, and begin the segments of the set bits of `begun` in each
/// phase.
fn crew_begins(
    rt: &(impl AllocGlobal + Threads + Sync),
    cars: u32,
    calls: u64,
    begun: u64,
) -> bool {
    let notes = Notes::new();
    go_through(rt, cars, 15, &notes) && notes.has(calls, begun)
}

#[test]
fn sixteen_workers_begin_each_segment_once(rt: HostRuntime) {
    for (cars, calls, begun) in [(0, 0, 0), (1, 2, 0b1), (3, 6, 0b111)] {
        assert!(rt; crew_begins(&rt, cars, calls, begun), "{cars} cars");
    }
}

/// Whether a pool of `others` + 1 workers passes the gate `calls` times in three steps with 60 cars, and begins the
/// segments of the set bits of `begun` in each phase.
fn pool_begins(
    rt: &(impl AllocGlobal + Threads + Wait + Sync),
    others: u32,
    calls: u64,
    begun: u64,
) -> bool
    requires { others < MAX_WORKERS }
{
    let notes = Notes::new();
    pool_as_one(rt, others, &notes, 3) && notes.has(calls, begun)
}

/// Whether a pool with workers for 60 cars, too few for a second worker, never passes the gate.
fn spares_workers(rt: &(impl AllocGlobal + Threads + Wait + Sync)) -> bool {
    let notes = Notes::new();
    sparing_pool_as_one(rt, 60, &notes) && notes.has(0, 0)
}

// A pool of one worker does not pass the gate.
#[test]
fn a_pool_begins_each_segment_once(rt: HostRuntime) {
    let all = pool_begins(&rt, 15, 360, (1 << 60) - 1);
    assert!(rt; all && pool_begins(&rt, 0, 0, 0) && spares_workers(&rt));
}

/// The number of times that a held worker checks for the others before it gives up.
const TURNS: u32 = 100_000_000;

/// A gate that holds the first of a phase's eight segments until the other seven have come.
#[derive(Drop)]
struct HoldsFirst {
    came: AtomicU64,
    gave_up: AtomicBool,
}

impl HoldsFirst {
    /// A gate to which no segment has come.
    fn new() -> HoldsFirst {
        HoldsFirst {
            came: AtomicU64::new(0),
            gave_up: AtomicBool::new(false),
        }
    }

    /// Waits until `wanted` segments have come. Returns whether they came in time.
    fn waits_for(&self, wanted: u64) -> bool {
        for _ in 0..TURNS {
            if self.came.load(Ordering::SeqCst) >= wanted {
                return true;
            }
            hint::spin_loop();
        }
        false
    }

    /// Whether `came` segments have come, and no worker gave up waiting.
    fn saw(&self, came: u64) -> bool {
        self.came.load(Ordering::SeqCst) == came && !self.gave_up.load(Ordering::SeqCst)
    }
}

impl Gate for HoldsFirst {
    fn pass(&self, _number: u32, _worker: u32, _phase: u32, _segment: u32) {
        let before = self.came.fetch_add(1, Ordering::SeqCst);
        if before % 8 == 0 && !self.waits_for(before.saturating_add(8)) {
            self.gave_up.store(true, Ordering::SeqCst);
        }
    }
}

/// Whether one of two workers begins the other seven segments of each phase while the other worker is held.
fn goes_on(rt: &(impl AllocGlobal + Threads + Sync)) -> bool {
    let gate = HoldsFirst::new();
    go_through(rt, 8, 1, &gate) && gate.saw(16)
}

/// `goes_on` for a pool of two workers, in ten steps.
fn pool_goes_on(rt: &(impl AllocGlobal + Threads + Wait + Sync)) -> bool {
    let gate = HoldsFirst::new();
    pool_as_one(rt, 1, &gate, 10) && gate.saw(160)
}

#[test]
fn crews_and_pools_go_on_while_one_worker_is_held(rt: HostRuntime) {
    assert!(rt; goes_on(&rt) && pool_goes_on(&rt));
}
