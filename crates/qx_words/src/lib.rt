//! The words of a script: how each is read, and how it is printed.
//!
//! A kind of word is described once, in `Kinds.antt`: what a word of it names, how it is read, how it is printed, which
//! values have a word. For each kind it is proved once that what is printed is one word and is read back, and that what
//! is read can be printed (`laws.rt`).
//!
//! - `words.rt`: lines and words of a text, and what one word says: a number, an offset, a name, a process, a thread,
//!   a mode, flags
//! - `fixed_words.rt`: a manager, where an offset counts from, what a notification is to do, conditions
//! - `hexadecimal.rt`: bytes
//! - `users.rt`: the users' names so far, and the user that a word names
//! - `text.rt`: the text of all of these
//!
//! What words name is `Words.antt`, how they are printed `WordText.antt`, the kinds of a few fixed words
//! `FixedWords.antt`. The files of `proofs/` with `Read` in their names prove that what is printed is read back; the
//! others have what the library says of digits, letters and words of a line.
#![tactic(auto)]

mod fixed_words;
mod hexadecimal;
pub mod laws;
pub mod text;
pub mod users;
pub mod words;

pub use users::Users;
