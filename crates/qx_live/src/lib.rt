//! A live session: lines come one after the other, each a client's step, and what each leads to is told at once.
//!
//! - `line.rt`: a line; `session.rt`: a session over a `World`, and what is left of a line for want of memory
//! - `waiting.rt`: how many items wait
//! - `laws.rt`: the laws of sessions
//!
//! Which steps a line leads to, and what is told, is said in `Live.antt`, and what is left of a line in `Sessions.antt`.
//! In `proofs/`, `Emptied.antt` has that serving comes to an end, by the weight of what waits (`Weights.antt`).
#![tactic(auto)]

pub mod laws;
pub mod line;
pub mod session;
pub mod waiting;

pub use line::LiveLine;
pub use session::{LineFault, Session};
