//! Tests of the book of jobs. At one desk: the answers of calls, jobs of one seed, a full history and a full lane. With
//! several threads: desks, runners, runners that gates hold, and the example of the guide to the book.

mod calls;
mod common;
mod desks;
mod example;
mod full;
mod gates;
mod runs;
mod shared;
