//! A trace under a server's lock: each step is stored, and noted at the seat where it was taken.
//!
//! - `storing.rt`: `Storing`, how a step is stored and noted, and the end
//! - `seat.rt`: `Seat`, a thread's place, with a `Note` of each step that it took
//! - `copies.rt`: copies of a step's outcome, for its note and for whoever took it
//! - `agreement.rt`: whether all that was noted stands in what was stored
//!
//! `Notes.antt` says how notes stand in what was stored.
#![tactic(auto)]

mod agreement;
mod copies;
pub mod seat;
pub mod storing;

pub use seat::{Note, Seat};
pub use storing::Storing;
