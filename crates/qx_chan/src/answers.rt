//! The answers to calls that waited, on their way to the threads.

ghost use Rattle.std.specs.Prelude.{◌≡◌, []};
ghost use Rattle.qx_chan.specs.inner.Answers.{given_lines, given_users};
ghost use Rattle.qx_chan.specs.inner.Kept.{Answering, StandTogether};

use crate::users::Users;
use qx_shared::Shared;

/// Gives each thread whose call waited and was answered its answer, with the room for its replies, unless the answer took
/// that along; an unblock pulse of the call is in the line of the manager that was called no more (C Library Reference: `MsgReply`).
#[inline(always)]
pub fn give_answers(users: &mut Users, queues: &mut Shared)
    requires answering { Answering users.old queues.old }
    ensures users { users.new ≡ given_users users.old queues.old.answered }
    ensures queues { queues.new ≡ record queues.old { lines = given_lines users.old queues.old.lines queues.old.answered; answered = [] } }
    ensures kept { StandTogether users.new queues.new }
{
    if queues.has_answered() {
        give_all(users, queues);
    }
}

/// The same, where anyone was answered.
fn give_all(users: &mut Users, queues: &mut Shared)
    requires answering { Answering users.old queues.old }
    ensures users { users.new ≡ given_users users.old queues.old.answered }
    ensures queues { queues.new ≡ record queues.old { lines = given_lines users.old queues.old.lines queues.old.answered; answered = [] } }
    ensures kept { StandTogether users.new queues.new }
{
    while let Some(taken) = queues.take_answered() {
        let called = users.answer(taken.thread, taken.answer, taken.room);
        queues.reply(called, taken.thread, taken.call);
    }
}
