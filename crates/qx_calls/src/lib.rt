//! Calls as lines of a script: each line described once, read and printed.
//!
//! A line is described once, in `Calls.antt`: its first word, the kinds of the words after it (a `Form`, of
//! `Forms.antt`), and what their values make. From that come its reading (`lines.rt`), its text (`text.rt`), what it
//! can say (`CanSay`), and the law that the text is read back, proved once for all lines.
#![tactic(auto)]

pub mod lines;
pub mod text;
