//! Tests of worker threads round one lock through their public calls.
//!
//! - `acts.rt`: what each thread of a test does, line by line, and by what the threads wait for each other
//! - `runs.rt`: a run of a server with a thread for each text, and what came of it; `servers.rt`: the two servers
//! - `rows.rt`: runs of both: calls that are served, servers that are stopped, what becomes of what a worker holds
//! - `memory.rt`: want of memory
//! - `service.rt`: a service that goes on in another one; clients that wait for pulses
#![tactic(auto)]

#[cfg(test)]
mod acts;
#[cfg(test)]
mod memory;
#[cfg(test)]
mod rows;
#[cfg(test)]
mod runs;
#[cfg(test)]
mod servers;
#[cfg(test)]
mod service;
