//! The threads of a program that measures: under names that tools show, and with the times that they take.
//!
//! - `starting.rt`: how a thread is started under a name; what all of them return
//! - `latencies.rt`: how many calls took how long
#![tactic(auto)]

pub mod latencies;
pub mod starting;

pub use latencies::Latencies;
pub use starting::{joined, named};
