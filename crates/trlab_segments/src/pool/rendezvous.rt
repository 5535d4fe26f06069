//! The rendezvous, at which helpers wait for the next phase, and find it.

ghost use Rattle.std.specs.Thread.{IsSync};

use crate::pool::task::TaskSlot;
use crate::segment::Gate;
use std::alloc::Global;
use std::hint;
use std::sync::Wait;
use std::sync::atomic::{AtomicBool, AtomicU64, Ordering};
use std::thread::{Threads, join};
use trlab_verify::{Change, Motion};

/// The number of times that a helper checks for the next phase before it sleeps. This takes slightly longer than the
/// calling thread's own work between two phases on a road of about 10,000 cars.
pub const SPINS_BEFORE_SLEEP: u32 = 30000;

/// After a helper has checked for a phase without success, the number of phases for which it sleeps without a check.
const NAPS: u32 = 32;

/// The open phase, at most one at a time, and a number that grows with each phase.
#[derive(Drop)]
pub struct Rendezvous {
    pub motions: TaskSlot<u8, Motion>,
    pub changes: TaskSlot<bool, Change>,
    phase_number: AtomicU64,
    closed: AtomicBool,
    /// The number of times that a helper checks for the next phase before it sleeps.
    spins: u32,
}

impl Rendezvous {
    /// A rendezvous with no phase. Each helper checks for the next one `spins` times before it sleeps.
    pub fn new(spins: u32) -> Rendezvous {
        Rendezvous {
            motions: TaskSlot::new(),
            changes: TaskSlot::new(),
            phase_number: AtomicU64::new(0),
            closed: AtomicBool::new(false),
            spins,
        }
    }

    /// Wakes all helpers, because a phase is open or the run has ended.
    pub fn wake(&self) {
        self.phase_number.fetch_add(1, Ordering::SeqCst);
        self.phase_number.wake_all();
    }

    /// Shuts down all helpers.
    pub fn close(&self) {
        self.closed.store(true, Ordering::SeqCst);
        self.wake();
    }

    /// Whether the run has ended.
    fn is_closed(&self) -> bool {
        self.closed.load(Ordering::SeqCst)
    }

    /// Sleeps until the phase number differs from `seen`, and returns it. The system compares the number before a
    /// thread sleeps, so no wake-up is missed.
    fn wait_for_phase<R: Wait>(&self, rt: &R, seen: u64) -> u64 {
        for _ in rt.forever() {
            let now = self.phase_number.load(Ordering::SeqCst);
            if now != seen {
                return now;
            }
            self.phase_number.park(rt, (seen & 0xffff_ffff) as u32);
        }
        unreachable!()
    }

    /// Checks the phase number up to `spins` times, and returns whether it differs from `seen`.
    fn has_phase_soon(&self, seen: u64) -> bool {
        for _ in 0..self.spins {
            if self.phase_number.load(Ordering::SeqCst) != seen {
                return true;
            }
            hint::spin_loop();
        }
        false
    }

    /// Checks for the next phase, unless the helper is to sleep at once for `naps` more phases. Returns the new value
    /// of `naps`.
    fn watch(&self, seen: u64, naps: u32) -> u32 {
        if naps > 0 {
            naps - 1
        } else if self.has_phase_soon(seen) {
            0
        } else {
            NAPS
        }
    }

    /// Helps with each phase until the rendezvous is closed.
    fn serve<R: Wait, G: Gate>(&self, rt: &R, alloc: Global, gate: &G) {
        let mut seen = 0;
        let mut naps = 0;
        for _ in rt.forever() {
            naps = self.watch(seen, naps);
            seen = self.wait_for_phase(rt, seen);
            if self.is_closed() {
                return;
            }
            if let Some(task) = self.motions.task(rt) {
                task.help(rt, alloc, gate);
            }
            if let Some(task) = self.changes.task(rt) {
                task.help(rt, alloc, gate);
            }
        }
    }
}

/// Runs `helpers` helpers of a rendezvous, each in its own thread, until the rendezvous is closed. Each helper starts
/// the next one, unless the run has ended by then.
pub fn help_all<R: Threads + Wait + Sync, G: Gate + Sync>(
    rt: &R,
    alloc: Global,
    rendezvous: &Rendezvous,
    helpers: u32,
    gate: &G,
) {
    if helpers == 0 || rendezvous.is_closed() {
        return;
    }
    let rest = helpers - 1;
    if rest == 0 {
        rendezvous.serve(rt, alloc, gate);
        return;
    }
    join(
        rt,
        move || -> ()
            requires { IsSync R.row × IsSync G.row }
        { help_all(rt, alloc, rendezvous, rest, gate) },
        move || rendezvous.serve(rt, alloc, gate),
    );
}
