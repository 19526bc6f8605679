//! The shell: reads a script, runs it and writes what users were shown.
//!
//! - `invocation.rt`: `invoke`, the whole shell: from the words of the command line to the exit status
//! - `options.rt`, `limit.rt`: what the words of the command line ask for
//! - `run.rt`, `ending.rt`: a run, from a reader to a writer; how it ends, its status, the line on standard error
//! - `streams.rt`, `watched.rt`: reading a whole script, writing a whole text; a reader or writer that remembers
//!   whether it has failed, and whether it was flushed
//! - `program.rt`: the same over the real words and streams, for the program
#![tactic(auto)]

pub mod ending;
pub mod invocation;
pub mod limit;
pub mod options;
pub mod program;
pub mod run;
pub mod streams;
pub mod watched;

pub use ending::{End, report};
pub use invocation::invoke;
pub use watched::Watched;
