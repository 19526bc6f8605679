//! Messages as bytes: the table of messages, and writing and reading by it.
//!
//! - `message.rt`: `Message` and `Meaning`
//! - `borrowed.rt`, `rest.rt`, `rests.rt`: bytes that stand elsewhere; a path's rest, and the walk over its components; the
//!   rests of a rename's two paths
//! - `ranges.rt`: whether each value of a message is in its range
//! - `writing.rt`: `encode`, a message's one spelling
//! - `reading.rt`, `parsed.rt`: what bytes are cut into; `Parsed`, bytes together with what they mean
//! - `laws.rt`: one spelling, one message, known exactly, unknown exactly
//!
//! A reader has to believe `Rests.antt` and `Table.antt`: components, fields, one line a message, `Spells`,
//! `IsOfNoKind`. `Reading.antt` says the meaning of bytes as a function, for those who compute with it; the laws say
//! that it is the table's. Of the lemmas those of fields and rests come first, then two for each kind of message, then
//! the lists over all kinds.
#![tactic(auto)]

pub mod borrowed;
pub mod laws;
pub mod message;
pub mod parsed;
pub mod ranges;
mod reading;
pub mod rest;
pub mod rests;
pub mod writing;

pub use borrowed::BorrowedBytes;
pub use message::{Meaning, Message};
pub use parsed::{Parsed, meaning};
pub use ranges::in_ranges;
pub use rest::{Components, Rest};
pub use rests::Rests;
pub use writing::encode;
