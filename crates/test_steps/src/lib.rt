//! What the tests of the desk, of the world and of the threads share.
//!
//! - `script.rt`: steps, from lines of a script
//! - `same.rt`: two traces compared by all that can be seen of them
#![tactic(auto)]

pub mod same;
pub mod script;
