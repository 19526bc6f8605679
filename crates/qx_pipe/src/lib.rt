//! One pipe or device of a user: its bytes, and the calls that wait to read and to write them.
//!
//! `pipe.rt` has a READ, a WRITE, an unblock and the freeing of a block, with cleaning and settling, over the pipe or the
//! device of an inode in `Shared`; where nobody waits, a READ and a WRITE are told their reply at once. What they do is told
//! in `Pipes.antt` of `qx_machine`, for whatever waits. `laws.rt` says that messages are answered in their order, that of a
//! pipe no byte is lost, doubled or moved, and that nobody waits who could be served, in the words of `Laws.antt`.
#![tactic(auto)]

pub mod laws;
pub mod pipe;
