//! Laws of traffic: properties of every step and every run of a road, stated over the definitions of
//! `trlab_step`.
//!
//! ```text
//! // The flow of every run is at most v_max / (v_max + 1): a proof that calls this law may use it.
//! run_keeps_below_peak();
//! ```
#![tactic(auto)]

pub mod laws;
