//! A gate that holds a thread until another has come.

use std::hint;
use std::sync::atomic::{AtomicBool, Ordering};
use trlab_segments::Gate;

/// The number of times that a thread checks for another before it gives up.
const TURNS: u32 = 100_000_000;

/// Waits until `came` is set. Returns whether it was set in time.
pub fn waits_for(came: &AtomicBool) -> bool {
    for _ in 0..TURNS {
        if came.load(Ordering::SeqCst) {
            return true;
        }
        hint::spin_loop();
    }
    false
}

/// A gate that holds the segments of road 0 until one of road 1 has come, and the other way round.
#[derive(Drop)]
pub struct Meeting {
    first: AtomicBool,
    second: AtomicBool,
    gave_up: AtomicBool,
}

impl Meeting {
    /// A gate to which no segment has come.
    pub fn new() -> Meeting {
        Meeting {
            first: AtomicBool::new(false),
            second: AtomicBool::new(false),
            gave_up: AtomicBool::new(false),
        }
    }

    /// Whether no thread gave up waiting.
    pub fn took_place(&self) -> bool {
        !self.gave_up.load(Ordering::SeqCst)
    }
}

impl Gate for Meeting {
    fn pass(&self, number: u32, _worker: u32, _phase: u32, _segment: u32) {
        let (mine, other) = if number == 0 {
            (&self.first, &self.second)
        } else {
            (&self.second, &self.first)
        };
        mine.store(true, Ordering::SeqCst);
        if !waits_for(other) {
            self.gave_up.store(true, Ordering::SeqCst);
        }
    }
}
