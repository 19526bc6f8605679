//! The names, requests, steps and outcomes that every other crate speaks of.
//!
//! - `names.rt`: users, processes, threads, connections, priorities, managers with their numbers, workers, actors,
//!   items
//! - `request.rt`, `step.rt`, `outcome.rt`: requests; steps, and who takes one; answers and outcomes
//! - `no_memory.rt`, `out_of_range.rt`: that a growth was refused; that a setting was
//! - `limits.rt`: every limit, under the name by which definitions and code cite it
//! - `user_limits.rt`: the limits that a configuration may set for one user
//! - `config.rt`: a configuration, accepted or not
//! - `flags.rt`: the flags of an open; the conditions of a notification
//! - `fields.rt`: where a seek counts from; what a notification is to do, and the value of its pulse
//! - `cut.rt`: steps and outcomes, cut to what a recorder keeps of them
//! - `nodes.rt`: what a value has to tell to stand in a line
//!
//! `Bytes`, `MessageBytes` and `Errno` are those of `qx_base`, handed on.
#![tactic(auto)]

pub mod config;
pub mod cut;
pub mod fields;
pub mod flags;
pub mod limits;
pub mod names;
pub mod no_memory;
pub mod nodes;
pub mod out_of_range;
pub mod outcome;
pub mod request;
pub mod step;
pub mod user_limits;

pub use config::Config;
pub use cut::KEPT;
pub use fields::{NotifyAction, PulseValue, Whence};
pub use flags::{Conds, OFlags};
pub use limits::Limits;
pub use names::{Actor, Coid, Item, Manager, Prio, Proc, Thread, User, Worker};
pub use no_memory::NoMemory;
pub use nodes::Ranked;
pub use out_of_range::OutOfRange;
pub use outcome::{Answer, Outcome};
pub use qx_base::{Bytes, Errno, MessageBytes};
pub use qx_devices::Device;
pub use request::Request;
pub use step::Step;
pub use user_limits::{LimitName, UserLimits};
