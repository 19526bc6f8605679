//! A live session at a reader and a writer: each line is answered before the next one is read.
//!
//! - `line.rt`: what a line asks for
//! - `front.rt`: a front, and what it answers to a line
//! - `serve.rt`: all lines of a text and then of a reader, and how that ends
//! - `options.rt`: the words of the command line
//! - `program.rt`: the same over a file and the standard streams, for the program
//!
//! What answers a text is told in `Front.antt`.
#![tactic(auto)]

pub mod front;
pub mod line;
pub mod options;
pub mod program;
pub mod serve;

pub use front::Front;
pub use serve::{End, serve_all};
