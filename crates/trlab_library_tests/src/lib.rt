//! Tests by public calls, with values worked out by hand: faults of program text, tables of notes, probabilities, and
//! steps by a crew or a pool; the book of jobs; and the examples of the crates.
#![tactic(auto)]

#[cfg(test)]
mod book;
#[cfg(test)]
mod examples;
#[cfg(test)]
mod gates;
#[cfg(test)]
mod programs;
#[cfg(test)]
mod traffic;
#[cfg(test)]
mod workers;
