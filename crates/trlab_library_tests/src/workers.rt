//! Steps by a crew or a pool give the same road and tally as a step by one thread, whichever threads help.

ghost use Rattle.std.specs.Prelude.{◌<◌};
ghost use Rattle.trlab_bounds.specs.declared.runs.TheConstants.{MAX_WORKERS};

use crate::traffic::{Traffic, led_to, spread};
use std::alloc::Global;
use std::sync::Wait;
use std::thread::Threads;
use trlab_bounds::runs::MAX_WORKERS;
use trlab_machine::Dice;
use trlab_road::Road;
use trlab_segments::{Gate, OpenGate, Pool, step_shared};
use trlab_step::{Caller, StepTally, step_road, step_road_by};
use trlab_words::Key;

/// The number of the road on which crews step.
const ROAD: u32 = 3;

/// The step that crews take.
const STEP: u32 = 5;

/// Whether step `STEP` of road `ROAD` leads to this road and this tally with each number of workers.
fn lead_to(
    rt: &(impl AllocGlobal + Threads + Sync),
    traffic: &Traffic,
    wanted: &Road,
    tally: StepTally,
) -> bool {
    let Traffic { road, rule } = traffic;
    let key = Key([7; 32]);
    for others in 0..MAX_WORKERS {
        let stepped = step_shared(
            rt,
            rt.alloc(),
            road,
            rule,
            &key,
            ROAD,
            STEP,
            others + 1,
            &OpenGate,
        );
        if !led_to(stepped, wanted, tally) {
            return false;
        }
    }
    true
}

/// Whether crews of each size take a step as one thread does.
fn crews_as_one(rt: &(impl AllocGlobal + Threads + Sync), traffic: &Traffic) -> bool {
    let Traffic { road, rule } = traffic;
    match step_road(rt.alloc(), road, rule, &Key([7; 32]), ROAD, STEP) {
        Ok((by_one, tally)) => lead_to(rt, traffic, &by_one, tally),
        Err(_) => false,
    }
}

/// Whether crews of each size step as one thread does, for cars evenly spaced on two lanes.
fn spread_as_one(rt: &(impl AllocGlobal + Threads + Sync), cars: u32) -> bool {
    match spread(rt.alloc(), 100, cars) {
        Some(traffic) => crews_as_one(rt, &traffic),
        None => false,
    }
}

#[test]
fn crews_of_each_size_lead_to_the_same_road(rt: HostRuntime) {
    for cars in [0, 1, 3, 60] {
        assert!(rt; spread_as_one(&rt, cars), "{cars} cars");
    }
}

/// Whether a pool takes steps 0 to `steps` - 1 of road 9 as one thread does, each from the same initial road.
fn leads_as_one<R: Wait, G: Gate>(
    pool: &Pool<R, G>,
    alloc: Global,
    traffic: &Traffic,
    steps: u32,
) -> bool {
    let Traffic { road, rule } = traffic;
    for step in 0..steps {
        let dice = Dice::new(&Key([7; 32]), 9, step);
        let Ok((wanted, tally)) = step_road_by(&Caller, alloc, road, rule, &dice) else {
            return false;
        };
        if !led_to(step_road_by(pool, alloc, road, rule, &dice), &wanted, tally) {
            return false;
        }
    }
    true
}

/// Whether a pool in a run steps as one thread does, for cars evenly spaced on two lanes.
fn runs_as_one<R: Threads + Wait + Sync, G: Gate + Sync>(
    pool: &Pool<R, G>,
    alloc: Global,
    cells: u32,
    cars: u32,
    steps: u32,
) -> bool {
    match spread(alloc, cells, cars) {
        Some(traffic) => pool.run(alloc, &mut || leads_as_one(pool, alloc, &traffic, steps)),
        None => false,
    }
}

/// Whether a pool of `others` + 1 workers steps as one thread does, with 60 cars and through a gate.
pub fn pool_as_one<G: Gate + Sync>(
    rt: &(impl AllocGlobal + Threads + Wait + Sync),
    others: u32,
    gate: &G,
    steps: u32,
) -> bool
    requires { others < MAX_WORKERS }
{
    let pool = Pool::new(rt, others + 1, gate);
    let (cells, cars) = (100, 60);
    runs_as_one(&pool, rt.alloc(), cells, cars, steps)
}

#[test]
fn pools_of_each_size_step_as_one_thread(rt: HostRuntime) {
    for others in 0..MAX_WORKERS {
        assert!(rt; pool_as_one(&rt, others, &OpenGate, 10), "{others} helpers");
    }
}

/// Whether a sparing pool of at most four workers steps as one thread does for twenty steps, through a gate.
pub fn sparing_pool_as_one<G: Gate + Sync>(
    rt: &(impl AllocGlobal + Threads + Wait + Sync),
    cars: u32,
    gate: &G,
) -> bool {
    let (workers, cells, steps, draws) = (4, 4000, 20, true);
    let pool = Pool::new(rt, workers, gate).with_workers_for(cars, draws);
    runs_as_one(&pool, rt.alloc(), cells, cars, steps)
}

// Helpers are awake for some of the forty phases and asleep for others. The cars are enough for four workers.
#[test]
fn helpers_that_stay_awake_step_as_one_thread(rt: HostRuntime) {
    assert!(rt; sparing_pool_as_one(&rt, 4000, &OpenGate));
}
