//! Tests of the crates below the channel through their public calls, of what no script can tell: messages that were spelled
//! by hand, what is made with memory and what is refused without it, the blocks of a file, a thread's room for its replies,
//! the nodes of lines, and a manager that is not the machine's.
//!
//! - `made.rt`, `memory.rt`: things that take memory; each of their requests for it refused in turn
//! - `files.rt`: the blocks of a file's bytes
//! - `spellings.rt`: messages as bytes, with what they mean
//! - `rooms.rt`: a thread's room for its replies; the memory of bytes that are cut
//! - `nodes.rt`: a node of `Queues` that comes back
//! - `null.rt`: the null manager through `serve`
#![tactic(auto)]

#[cfg(test)]
mod files;
#[cfg(test)]
mod made;
#[cfg(test)]
mod memory;
#[cfg(test)]
mod nodes;
#[cfg(test)]
mod null;
#[cfg(test)]
mod rooms;
#[cfg(test)]
mod spellings;
