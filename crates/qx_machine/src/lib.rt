//! The written machine: what the system does, as definitions, and the laws about them.
//!
//! The files of `specs/`, lowest first. `Rows.antt`, `Lines.antt`, `Judgements.antt` and `System.antt`, where to begin, are those of
//! `qx_isolation`.
//!
//! - `Attributes.antt`, `Inodes.antt`, `Names.antt`, `Listings.antt`, `Files.antt`, `Verdicts.antt`, `Pipes.antt`,
//!   `Waiting.antt`, `Resources.antt`: what the managers keep for a user
//! - `Events.antt`: the armed events and untaken pulses of a user; `Notification.antt`: which conditions hold of what is
//!   open, and what a notification does
//! - `Servers.antt`, `Processes.antt`: processes; `Parts.antt`: all rows of a user, and what a step changes in the lines
//! - `Calls.antt`, `Mounting.antt`, `Clients.antt`: the six steps of clients
//! - `Functions.antt`, `RamManager.antt`, `PipeManager.antt`, `Defaults.antt`, `Managers.antt`: what managers do
//! - `Performing.antt`: what bytes that a worker holds come to
//! - `Users.antt`: all that the machine knows of a user's rows: `boot_part`, `client`, `take`, `serve`, `settle_part`
//! - `Machine.antt`, `Runs.antt`: the system with these five
//! - `Wants.antt`: which steps may be refused for want of memory
//! - `Laws.antt`, `Examples.antt`: the words of the laws; a run that is worked out
//!
//! `rows.rt` has the types of the rows, `laws.rt` the laws, `examples.rt` the worked run. The laws of isolation are those of
//! `qx_isolation` for this system; the files of `proofs/` are a law's own, or of rows.
#![tactic(auto)]

pub mod examples;
pub mod laws;
pub mod rows;

pub use qx_isolation::{Entry, Held, OwnItem, Queued, Seen, ServerName};
pub use rows::{
    Access, Addressed, Attribute, Caller, Client, Conditions, Connection, Content, Context, Effect,
    Event, Kind, Manner, NewDup, NewOpen, Ocb, Opened, Over, Pulse, PulseWish, Sent,
    ServerConnection, Sides, State, Target, ThreadRow, WaitingCall, Wish,
};
