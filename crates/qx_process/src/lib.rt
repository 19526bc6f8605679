//! One process of a user: its threads, connections, side connections and server connections.
//!
//! - `process.rt`: `Process`, with the calls of the crate
//! - `threads.rt`, `thread.rt`: the threads of a process, and what is kept of them as it ends; one, with the room for its
//!   replies
//! - `connections.rt`, `servers.rt`: connections; server connections, and at which manager threads have side
//!   connections
#![tactic(auto)]

mod connections;
pub mod process;
mod servers;
pub mod thread;
mod threads;

pub use process::Process;
pub use thread::{Replied, ThreadCell};
