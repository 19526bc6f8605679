//! The managers' lines, and the nodes that stand in them.
//!
//! - `queues.rt`: `Queues`, the table of nodes, the managers' lines over it and the list of answered nodes
//! - `marks.rt`: which lines have an item
//! - `waits.rt`: calls that wait, in lists by number, and their answers
//! - `calls.rt`: a call that waits in a pipe, with the room for its reply, in which what it writes is kept
//! - `leaving.rt`: which calls of a list are meant
//! - `nodes.rt`: which nodes are whose; in which line a thread's unblock pulse stands
//! - `waiting.rt`: what a node stands for, and what it carries: a call that waits, or the answer to one
//!
//! What contracts see is who has nodes, and not which: `Queues.antt`, and of the calls that wait `Waits.antt`,
//! `Calls.antt` and `Waiting.antt`. How nodes and lines stand in the table is the crate's own (`Kept.antt`,
//! `Nodes.antt`). In `proofs/`, `KeptLemmas.antt` has the invariant call by call; `LineLemmas.antt`, for the layers
//! above, what a line tells of a thread; `CallLemmas.antt`, `LeavingLemmas.antt`, `WaitLemmas.antt` and
//! `AbandonLemmas.antt` the lists in which calls wait; the others one node, or sets of those that have nodes.
#![tactic(auto)]

pub mod calls;
pub mod leaving;
pub(crate) mod marks;
pub mod nodes;
pub mod queues;
pub mod waiting;
pub mod waits;

pub use calls::PipeCall;
pub use leaving::Leaving;
pub use queues::Queues;
pub use waiting::Answered;
