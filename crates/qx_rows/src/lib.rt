//! Rows under small numbers, and the bytes of a reply with the room that is kept for them.
//!
//! - `places.rt`: tables of rows under small numbers; the lowest free number
//! - `growth.rt`: how such tables grow, and others
//! - `room.rt`: memory for a reply, there when a message is sent, which may keep a call's bytes until then; the bytes
//!   of a reply, with the room or without
//! - `reply.rt`: the bytes of a reply while a function writes them
#![tactic(auto)]

pub mod growth;
pub mod places;
mod reply;
pub mod room;

pub use reply::Reply;
pub use room::Room;
