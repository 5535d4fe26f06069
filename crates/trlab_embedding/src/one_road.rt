//! A road that is driven step by step.

ghost use Rattle.std.specs.Prelude.{◌≡◌, IfSome};

use std::alloc::{AllocGlobal, Global};
use trlab_road::Road;
use trlab_rules::nasch;
use trlab_step::{Caller, Run, RunSheet};
use trlab_words::{Chance, Key};

const STEPS: u32 = 4;

/// The maximum speed of the cars, in cells per step.
const LIMIT: u32 = 5;

/// Two stopped cars on one lane of ten cells.
const LANES: [&[u8]; 1] = [b"0.0......."];

/// A run of the cars on `LANES`, which never brake at random.
fn new_run(alloc: Global) -> Option<Run>
    ensures { IfSome result (λ run. run.step ≡ 0) }
{
    let rule = nasch(alloc, Chance::new(0)?).ok()?;
    let road = Road::parse(alloc, LIMIT, &LANES).ok()?;
    let sheet = RunSheet::new(rule, Vec::new(alloc));
    let (key, number, warm) = (Key([0; 32]), 0, 0);
    Some(Run::new(alloc, key, number, warm, road, sheet))
}

/// Prints the picture of each lane of a road.
fn show<R: Print>(rt: &R, alloc: Global, road: &Road) -> Option<()> {
    for lane in 0..road.lanes() {
        let picture = road.picture(alloc, lane).ok()?;
        println!(rt; "{}", str::from_utf8(&picture).ok()?).ok()?;
    }
    Some(())
}

/// Takes `STEPS` steps of a run at step 0, and prints its road before the first and after each.
fn walk<R: Print>(rt: &R, alloc: Global, run: &mut Run) -> Option<()>
    requires { run.old.step ≡ 0 }
{
    show(rt, alloc, run.road())?;
    for step in 0..STEPS {
        run.advance(&Caller, alloc).ok()?;
        show(rt, alloc, run.road())?;
    }
    Some(())
}

/// Drives the cars for `STEPS` steps, and prints their road at each step. `None` if an allocation or printing fails.
pub fn drive<R: AllocGlobal + Print>(rt: &R) -> Option<()> {
    let alloc = rt.alloc();
    let mut run = new_run(alloc)?;
    walk(rt, alloc, &mut run)
}
