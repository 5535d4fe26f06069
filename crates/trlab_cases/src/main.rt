//! Makes the calls in its input, and prints the input with their answers.
//!
//! A line `WORDS | TEXT` begins a call, and a line `| TEXT` adds a line to its text. A line `?` is replaced by the
//! answer: `done` or `refused`, and the output. All other lines are comments. The calls are:
//!
//! - `motion` and `change` assemble the lines of a program, and print its bytes in hexadecimal, eight per line, and its
//!   canonical text, or `line N why K`;
//! - `code` decodes the bytes of a program, given in hexadecimal, and prints its kind and its canonical text, or the
//!   fault;
//! - `notes motion` and `notes change` assemble the lines of a program, check its notes as a table, and print them, one
//!   note per line;
//! - `road` reads a limit and the pictures of lanes, `even` a number of lanes, a length, a limit and a number of evenly
//!   spaced cars; both print the road, or the fault;
//! - `step` prints the first step of a job.
#![tactic(auto)]

mod calls;
mod programs;
mod report;
mod roads;
mod steps;

use crate::calls::PendingCall;
use std::io;

fn main(rt: HostRuntime) -> io::Result<()> {
    let text = io::read_to_string(rt.alloc(), rt.stdin())?;
    let mut call = PendingCall::new(rt.alloc());
    for line in text.lines() {
        call.take(&rt, line)?;
    }
    Ok(())
}
