//! trlab as a library: a road that is driven step by step, and a book of jobs that two threads share.
#![tactic(auto)]

mod one_road;
mod shared_book;

use crate::one_road::drive;
use crate::shared_book::share;
use std::marker::Brand;
use std::process::ExitCode;
use std::sync::Wait;
use std::thread::Threads;
use trlab_strands::Blank;

fn main(rt: HostRuntime) -> ExitCode {
    match show_both(&rt) {
        Some(()) => ExitCode::SUCCESS,
        None => ExitCode::FAILURE,
    }
}

/// Drives the road, and then runs the book. `None` if an allocation or printing fails.
fn show_both<R: AllocGlobal + Threads + Wait + Sync + Print>(rt: &R) -> Option<()> {
    drive(rt)?;
    let blank = Blank::new(rt.alloc()).ok()?;
    share::<Brand, _>(rt, blank)
}
