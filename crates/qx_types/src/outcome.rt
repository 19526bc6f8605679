ghost use Rattle.std.specs.Prelude.{◌≡◌};

use crate::names::Item;
use qx_base::{Errno, MessageBytes};
use std::alloc::AllocError;

/// What a server answers to a message (C Library Reference: `MsgReply`, `MsgError`).
#[derive(Debug, Drop, PartialEq, Eq)]
pub enum Answer {
    /// The status and the bytes of the reply.
    Reply(u64, MessageBytes),
    Failed(Errno),
}

/// What a step gives to whoever takes it.
#[derive(Debug, Drop, PartialEq, Eq)]
pub enum Outcome {
    /// The number of the new process.
    Spawned(u8),
    /// The step was refused at once, and nothing changed.
    Refused(Errno),
    Done,
    /// The message stands in its manager's line, and the thread is blocked.
    Sent,
    /// The server's reply: its status and its bytes.
    Reply(u64, MessageBytes),
    /// The server's error.
    Failed(Errno),
    /// The code and the value of a pulse.
    Pulse(u8, u64),
    NoPulse,
    /// No such user, process, thread or worker, or not in the state that the step needs. Nothing changed.
    WrongState,
    /// The item that the worker took and now holds.
    Took(Item),
    /// The line was empty.
    Idle,
    /// The worker holds an item already.
    Busy,
    /// The item that the worker held is done.
    Handled,
    /// The worker holds nothing.
    Nothing,
}

// Written out and not derived, so that its contract says outright that the copy is equal.
impl Clone for Answer {
    ghost is_clone = { λ original copy. copy ≡ original };

    fn clone(&self) -> Result<Answer, AllocError> {
        Ok(match self {
            Answer::Reply(status, bytes) => Answer::Reply(*status, bytes.clone()?),
            Answer::Failed(error) => Answer::Failed(*error),
        })
    }
}

impl Clone for Outcome {
    ghost is_clone = { λ original copy. copy ≡ original };

    fn clone(&self) -> Result<Outcome, AllocError> {
        Ok(match self {
            Outcome::Spawned(num) => Outcome::Spawned(*num),
            Outcome::Refused(error) => Outcome::Refused(*error),
            Outcome::Done => Outcome::Done,
            Outcome::Sent => Outcome::Sent,
            Outcome::Reply(status, bytes) => Outcome::Reply(*status, bytes.clone()?),
            Outcome::Failed(error) => Outcome::Failed(*error),
            Outcome::Pulse(code, value) => Outcome::Pulse(*code, *value),
            Outcome::NoPulse => Outcome::NoPulse,
            Outcome::WrongState => Outcome::WrongState,
            Outcome::Took(item) => Outcome::Took(*item),
            Outcome::Idle => Outcome::Idle,
            Outcome::Busy => Outcome::Busy,
            Outcome::Handled => Outcome::Handled,
            Outcome::Nothing => Outcome::Nothing,
        })
    }
}
