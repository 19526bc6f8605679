//! Tests of the shell's edge: its options, its run and report, and the whole of it.
//!
//! The readers and writers that fail stand in `streams.rt`.

mod invocation;
mod options;
mod reports;
mod run;
mod streams;
