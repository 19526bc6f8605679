//! What a front of the Linux kernel keeps of one user between two requests: the nodes that the kernel was told, what it has open,
//! and the requests whose calls wait. No number of one user depends on another user.
//!
//! - `numbers.rt`: numbers as they leave to the kernel, of which each user has a share
//! - `handles.rt`: what is open
//! - `nodes.rt`: the nodes; `change.rt`: one node, and what becomes of it; `numbering.rt`: its number; `renaming.rt`: its name, as
//!   that goes or changes; `paths.rt`: its path
//! - `waits.rt`: which request waits for which thread; `threads.rt`: which thread a request may take
//! - `queue.rt`: requests that wait for a free thread; `items.rt`: one item out of many
//! - `laws.rt`: whose number one is; that a name has the number that was told; how many threads stay free
//!
//! What contracts see is in `Numbers.antt`, `Handles.antt`, `Nodes.antt`, `Waits.antt` and `Queue.antt`.
#![tactic(auto)]

pub mod change;
pub mod handles;
mod items;
pub mod laws;
pub mod nodes;
mod numbering;
pub mod numbers;
mod paths;
pub mod queue;
mod renaming;
pub mod threads;
pub mod waits;

pub use change::{Change, Node, TOP};
pub use handles::{Handle, Handles, Kind};
pub use nodes::Nodes;
pub use queue::{Queue, Queued};
pub use waits::{Wait, Waiting, Waits};
