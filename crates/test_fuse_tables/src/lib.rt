//! Tests of `qx_fuse_tables` through its public calls, in the order in which a kernel asks.
//!
//! - `nodes.rt`: names that are told, forgotten, removed and renamed
//! - `waits.rt`: threads that requests take, and requests that have none
//! - `memory.rt`: what is refused memory changes nothing
#![tactic(auto)]

#[cfg(test)]
mod memory;
#[cfg(test)]
mod nodes;
#[cfg(test)]
mod waits;
