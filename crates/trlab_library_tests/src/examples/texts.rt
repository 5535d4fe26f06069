//! The examples of inputs and tables.

use std::alloc::Global;
use trlab_diagram::{Point, flow, points_text};
use trlab_jobs::read_job;
use trlab_texts::{Excerpt, LineName};

/// From `trlab_texts`: the number of a line `steps n`.
fn read_steps() -> Option<u32> {
    let line = b"steps 20";
    let steps = Excerpt::number_after(LineName::Steps, 0, 100, line).ok()?;
    Some(steps)
}

const JOB: &[u8] =
    b"road 1\nkey 0000000000000000000000000000000000000000000000000000000000000000\nlimit 5\n\
    lane 0.0.......\nrule nasch 0\nsteps 20\n";

/// From `trlab_jobs`: the number of steps and of cars of a job.
fn read(alloc: Global, text: &[u8]) -> Option<(u32, u32)> {
    let job = read_job(alloc, text).ok()?;
    let (steps, cars) = (job.steps, job.road.cars());
    Some((steps, cars))
}

const TABLE: &[u8] =
    b"cars,cells,steps,distance,stopped,changes,flow\n150,1000,100,60000,0,0,600000\n";

/// From `trlab_diagram`: the flow at a point, and whether a table is printed as `TABLE`.
fn measure(alloc: Global) -> Option<(u128, bool)> {
    let point = Point {
        cars: 150,
        cells: 1000,
        steps: 100,
        distance: 60_000,
        stopped: 0,
        changes: 0,
    };
    let flow = flow(&point);
    let table = points_text(alloc, &[point]).ok()?;
    Some((flow, table.as_slice() == TABLE))
}

#[test]
fn texts_are_read_and_written(rt: HostRuntime) {
    let alloc = rt.alloc();
    let read = read_steps() == Some(20) && read(alloc, JOB) == Some((20, 2));
    assert!(rt; read && measure(alloc) == Some((600_000, true)));
}
