//! The RAM manager: what messages do to the bytes of a user's files.
//!
//! `files.rt` has its three functions over a store: `read`, `write` and `seek`; and `blocks`, how many blocks of a file are there.
#![tactic(auto)]

mod files;

pub use files::{blocks, read, seek, write};
