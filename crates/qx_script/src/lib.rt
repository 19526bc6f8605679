//! Scripts: the lines of the language, each described once, read and printed.
//!
//! - `command.rt`: a `Command`, what a line asks for
//! - `lines.rt`: what a line of each kind asks for; the lines are described in `Lines.antt`, as calls are in `qx_calls`
//! - `setting.rt`: what a line sets for a user
//! - `script.rt`, `reading.rt`: `parse`, a configuration with its commands, or the first bad line; a script line by
//!   line
//! - `text.rt`: each step as the line that takes it
//! - `laws.rt`: what `trace` prints of a step is read back as that step
//!
//! A script as a whole is told in `Script.antt`, the text of steps in `StepText.antt`, the script that takes them anew
//! in `Replay.antt`.
#![tactic(auto)]

pub mod command;
pub mod laws;
mod lines;
mod reading;
pub mod script;
pub mod setting;
pub mod text;

pub use command::Command;
pub use script::{Script, parse};
