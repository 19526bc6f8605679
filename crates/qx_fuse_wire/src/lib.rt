//! Requests and replies of a file system that the Linux kernel mounts, as bytes: the FUSE protocol, 7.31 and up.
//!
//! - `body.rt`: `Header`, `Body` and `Meaning`, what a request says; `forgets.rt`: what a BATCH_FORGET forgets
//! - `fields.rt`: numbers and names at the front of bytes; `bodies.rt`: each kind of body; `reading.rt`: `meaning`
//! - `reply.rt`: `Reply`, what is answered; `errors.rt`: the numbers of errors
//! - `numbers.rt`: numbers as bytes; `writing.rt`: `put_reply`, `put_wake`; `names.rt`: what READDIR and READDIRPLUS list
//! - `init.rt`: what is agreed at INIT
//! - `laws.rt`: bytes mean a request exactly if they spell it
//!
//! A reader has to believe `Forms.antt`, what fields are as bytes; `Table.antt`, one line for each kind of request;
//! `Replies.antt`; `Init.antt`; and of `Laws.antt` `Spells`. `Meaning.antt` says the meaning of bytes as a function, and the law
//! that it is the table's. Layouts are those of <linux/fuse.h>, on a machine that stores the lowest byte of a number first.
#![tactic(auto)]

pub mod bodies;
pub mod body;
pub mod errors;
pub mod fields;
pub mod forgets;
pub mod init;
pub mod laws;
pub mod names;
pub mod numbers;
pub mod reading;
pub mod reply;
pub mod writing;

pub use body::{Body, Header, Meaning, Opened, Reads, Times};
pub use forgets::Forgets;
pub use reading::meaning;
