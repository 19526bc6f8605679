//! Resource managers: what one works on, the two tables of functions, and serving a message by them.
//!
//! - `state.rt`: the trait `State`, what a manager works on
//! - `functions.rt`: the traits `Connect` and `Io`, a manager's functions; `Done`, what a function came to;
//!   `no_function`, the one that is left out
//! - `serving.rt`: `serve`
//!
//! `Deeds.antt` says what a function that came to a `Done` did (`Did`), and when the memory for a later reply goes.
#![tactic(auto)]

mod functions;
mod serving;
mod state;

pub use functions::{Connect, Done, Io, no_function};
pub use serving::serve;
pub use state::State;
