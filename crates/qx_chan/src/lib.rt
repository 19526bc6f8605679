//! The channel: the processes of all users, what waits: their messages in the managers' lines, and their
//! events; and their mounts.
//!
//! - `channel.rt`: `Channel`, with the calls of message passing, and a process that takes a pulse
//! - `serving.rt`: a received message served by its manager and answered, an unblock pulse performed, and the events that
//!   are due then
//! - `ending.rt`: a process that ends, what it has in lines and pipes, and how it is freed
//! - `mounting.rt`: where managers are attached, for all users
//! - `answers.rt`: the answers to calls that waited, as their threads get them
//! - `users.rt`: the processes of all users: a row that is lent, and what a call changes in it
//! - `call.rt`: the call that a thread waits for: where its message went, its number, and whether it was asked to
//!   unblock
//! - `servers.rt`: the disconnect nodes of a process, as what it has attached comes and goes
//!
//! What contracts see is `Channel.antt`, over `Users.antt` and `Calls.antt`, of a call that is judged and sent
//! `Sending.antt`, and of serving `Serving.antt` and `Answers.antt`. That rows, lines and nodes stand together is the
//! crate's own (`Kept.antt`), and no layer above speaks of a node.
//!
//! In `proofs/`, that they stand together still is in a file for each call: `StartLemmas.antt`, `SendLemmas.antt`,
//! `ReceiveLemmas.antt`, `AnswerLemmas.antt`, `AskLemmas.antt`, `GivenLemmas.antt`, `PrioLemmas.antt`, `EndLemmas.antt`; what a process
//! that takes a pulse leaves, in `TakePulseLemmas.antt`. That serving follows the machine: `MessageLemmas.antt`,
//! `OutcomeLemmas.antt`, `ServeLemmas.antt`, `ServedLemmas.antt`, `PulseLemmas.antt`, `SettledLemmas.antt` for the
//! events that are due then, and `PerformLemmas.antt` for all of a perform. The others stand below these: one row that
//! changes, the calls that wait, what is attached.
#![tactic(auto)]

mod answers;
mod call;
pub mod channel;
pub mod ending;
pub mod mounting;
mod servers;
pub mod serving;
mod users;

pub use channel::Channel;
