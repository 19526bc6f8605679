//! Isolation, of every system of one shape: users, whose rows are whatever a behaviour says, share lines, priorities and
//! workers, and each step sets the rows of one user.
//!
//! - `specs/Rows.antt`, `Lines.antt`, `Judgements.antt`: rows under small numbers; priority lines; a judgement as one block
//! - `specs/System.antt`: a behaviour, which is the rows of one user at boot and four functions of these; the world, the step,
//!   its owner, a user's view, run, received and erase, over any behaviour
//! - `rows.rt`: the items of lines and workers, and what is stored of a step; `laws.rt`: the laws
//!
//! The machine of `qx_machine` is one such system. The proofs of the laws are those of `proofs/Runs.antt`, which stands on
//! `Steps.antt`, `Receives.antt`, `Performs.antt`, `Workers.antt`, `Views.antt`, `Changes.antt` and `Orders.antt`.
#![tactic(auto)]

pub mod laws;
pub mod rows;
pub mod tally;

pub use rows::{Entry, Held, OwnItem, Queued, Seen, ServerName};
