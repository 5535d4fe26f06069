//! The examples with which the crates begin their documentation, compiled and run. Each returns the values that its
//! comments state.

mod model;
mod programs;
mod running;
mod texts;
