//! Tests of a traced world and of the shell through their public calls, and an example of a caller of a trace
//! (`docs/THREADS.md`).
//!
//! - `memory.rt`, `rows.rt`: steps whose memory is refused; their lines
//! - `reads.rt`: what a script does not ask a trace and a world for
//! - `calling.rt`, `asked.rt`: the example, a request that is taken from its call to its answer; its test
//! - `running.rt`: a world that runs on with a recorder
//! - `tied.rt`: the same at whose seats steps are taken
//! - `session.rt`: a live session of two users
//! - `shell.rt`: the shell's edge
#![tactic(auto)]

#[cfg(test)]
mod asked;
#[cfg(test)]
mod calling;
#[cfg(test)]
mod memory;
#[cfg(test)]
mod reads;
#[cfg(test)]
mod rows;
#[cfg(test)]
mod running;
#[cfg(test)]
mod session;
#[cfg(test)]
mod shell;
#[cfg(test)]
mod tied;
