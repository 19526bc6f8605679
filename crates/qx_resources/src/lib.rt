//! What the managers keep for users, and what messages do to it.
//!
//! - `resources.rt`: what is kept for one user, a store; boot, mounting, what a message is served with, which
//!   manager does what, and an unblock
//! - `ram.rt`, `pipe.rt`: the RAM manager and the pipe manager, each as its functions
//! - `blocks.rt`: what both do alike: status, listing, mode, notification, a dup, and what an open comes to
//! - `closing.rt`: how open control blocks go: at a close, and with a client that is gone
//! - `tables.rt`: the tables of all users: calls and events that wait, and mounts
//! - `conditions.rt`: which conditions hold of what is open, and the pulses that come of what changed of those of all blocks
//! - `watching.rt`: which pipe is watched while a message or an unblock pulse is done, and the pulses that come of it
//! - `state.rt`: the same resources, as the managers' tables of functions see them with what the user has in the tables of all
//! - `all.rt`: what is kept for all users; a row that is lent
//!
//! `State.antt` says how these and the user's pipes and events are the machine's resources (`told`), what all users share
//! once a function is done (`shared`), and how the two stand together (`HasUser`); `Watching.antt`, which events are due by
//! what was done to one pipe; `Disconnects.antt`, what becomes of the resources as a client is gone.
#![tactic(auto)]

pub mod all;
mod blocks;
mod closing;
mod conditions;
mod pipe;
mod ram;
pub mod resources;
pub mod state;
pub mod tables;
pub mod watching;

pub use all::AllResources;
pub use resources::{NewMount, Resources, context_of};
pub use tables::Tables;
pub use watching::Watched;
