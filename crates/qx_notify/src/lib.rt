//! The armed events and the untaken pulses of all users, in lists over one table.
#![tactic(auto)]

pub mod all;
pub mod changes;
mod conditions;
mod lists;

pub use all::AllEvents;
pub use changes::{Change, Changes};
