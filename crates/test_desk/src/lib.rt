//! A small front over a desk, as anybody may write one, and its tests: processes of several users open pipes, and read and write
//! them. A read of an empty pipe waits, and its answer comes with a later request of the same user.
//!
//! - `asked.rt`: requests and answers; `replies.rt`: answers among what was written
//! - `own.rt`: what the front keeps of a user, and what it does for a request
//! - `laws.rt`: no user's answers depend on others
//! - `desks.rt`: tests
//!
//! `Asking.antt` says what the front does.
#![tactic(auto)]

pub mod asked;
#[cfg(test)]
mod desks;
pub mod laws;
pub mod own;
mod replies;

pub use asked::{Act, Asked, Told, Waiting, What};
pub use own::Own;
