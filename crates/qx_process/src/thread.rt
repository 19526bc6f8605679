ghost use Rattle.std.specs.Prelude.{◌≡◌, ◌<◌, IfSome, IsOk, IsSome, IsTrue, MatchOption, OnOk, OnErr, Some, vec_capacity};
ghost use Rattle.std.specs.Option.{option_copied};
ghost use Rattle.qx_base.specs.Memory.{Leave};
ghost use Rattle.qx_types.specs.declared.limits.TheConstants.Limits.{CALLS};
ghost use Rattle.qx_types.specs.declared.outcome.Answer.TheVariants.{Failed, Reply as TheReply};
ghost use Rattle.qx_machine.specs.Calls.{is_ready};
ghost use Rattle.qx_machine.specs.Clients.{answer_in};
ghost use Rattle.qx_machine.specs.Performing.{called_in, taken_in};
ghost use Rattle.qx_machine.specs.Processes.{asked_thread, new_thread, queued_thread, received_in, served_thread, taken_thread, answered_thread, ready_thread, ranked_thread};
ghost use Rattle.qx_process.specs.Reads.{BringsRoom, IsPriority, has_own_room, is_blocked, queued_in, unanswered_in};
ghost use Rattle.qx_process.specs.inner.States.{state_of};

use qx_hint::assert_unchecked;
use qx_machine::{Effect, Sent};
use qx_rows::{Reply, Room};
use qx_types::{Answer, Errno, Manager, MessageBytes, Prio};
use std::alloc::{AllocError, Global};
use std::marker::Model;
use std::mem;

/// What a message is replied beside its bytes: its status, and what becomes of the connection that it came over.
#[derive(Clone, Copy)]
pub struct Replied {
    pub status: u64,
    pub effect: Effect,
}

/// How far the message of a blocked thread is.
#[derive(Clone, Copy, Debug, PartialEq, Eq)]
pub(crate) enum Stage {
    /// It stands in a line.
    Queued,
    /// It was received and is not served.
    Taken,
    /// It was served and is not answered.
    Waiting,
}

/// What a thread is doing. Its message stays where it is, however far it is.
#[derive(Drop)]
pub(crate) enum Doing {
    Ready,
    Sent(Stage, Sent),
    Answered(Answer),
}

/// A thread, with the room for its replies, which is here exactly if the thread's row has it and its message is not served
/// and unanswered.
#[derive(Drop)]
pub struct ThreadCell {
    doing: Doing,
    prio: Prio,
    calls: u64,
    has_room: bool,
    room: Option<Room>,
}

impl Model for ThreadCell {
    ghost use Rattle.std.specs.Prelude.{◌≡◌, IsTrue, is_some};
    ghost use Rattle.qx_machine.specs.declared.rows.ThreadRow.{ThreadRow};
    ghost use Rattle.qx_process.specs.Reads.{has_own_room, is_blocked, IsRanked};
    ghost use Rattle.qx_process.specs.inner.States.{row_of};

    ghost Value = { ThreadRow };

    ghost view = { λ c. row_of c.doing c.prio c.calls c.has_room };

    ghost invariant = { λ c. record {
      room : is_some c.room ≡ has_own_room (row_of c.doing c.prio c.calls c.has_room);
      blocked : IsTrue (is_blocked (row_of c.doing c.prio c.calls c.has_room).state) → IsTrue c.has_room;
      ranked : IsRanked (row_of c.doing c.prio c.calls c.has_room);
    } };
}

impl ThreadCell {
    /// A ready thread of a priority, which has made no call.
    pub fn new(prio: Prio) -> Self
        requires priority { IsPriority prio.0 }
        ensures row { result ≡ new_thread prio.0 }
    {
        ThreadCell {
            doing: Doing::Ready,
            prio,
            calls: 0,
            has_room: false,
            room: None,
        }
    }

    /// The thread's priority.
    pub fn prio(&self) -> Prio
        ensures priority { result ≡ self.now.prio }
        ensures in_range { IsPriority result.0 }
    {
        self.prio
    }

    /// How many calls the thread has made.
    pub fn calls(&self) -> u64
        ensures calls { result ≡ self.now.calls }
    {
        self.calls
    }

    /// Whether the thread waits for nothing, and has no answer to take.
    pub fn is_ready(&self) -> bool
        ensures ready { result ≡ is_ready self.now.state }
    {
        matches!(self.doing, Doing::Ready)
    }

    /// Whether the thread waits for an answer (System Architecture: the SEND-blocked and REPLY-blocked states).
    pub fn is_blocked(&self) -> bool
        ensures blocked { result ≡ is_blocked self.now.state }
    {
        matches!(self.doing, Doing::Sent(..))
    }

    /// The thread's message, if it stands in a line.
    pub fn queued(&self) -> Option<&Sent>
        ensures message { option_copied result ≡ queued_in self.now.state }
        ensures priority { IfSome result (λ sent. IsPriority sent.now.target.prio.0) }
    {
        match &self.doing {
            Doing::Sent(Stage::Queued, sent) => Some(sent),
            _ => None,
        }
    }

    /// The thread's message, if it was received and is not served.
    pub fn taken(&self) -> Option<&Sent>
        ensures message { option_copied result ≡ taken_in self.now.state }
        ensures priority { IfSome result (λ sent. IsPriority sent.now.target.prio.0) }
    {
        match &self.doing {
            Doing::Sent(Stage::Taken, sent) => Some(sent),
            _ => None,
        }
    }

    /// The thread's message, if it was received and is not answered.
    pub fn unanswered(&self) -> Option<&Sent>
        ensures message { option_copied result ≡ unanswered_in self.now.state }
        ensures priority { IfSome result (λ sent. IsPriority sent.now.target.prio.0) }
    {
        match &self.doing {
            Doing::Sent(Stage::Taken | Stage::Waiting, sent) => Some(sent),
            _ => None,
        }
    }

    /// The manager that the thread has called, if its message was received and is not answered; else it says nothing.
    #[inline(always)]
    pub fn called(&self) -> Manager
        ensures { result ≡ called_in self.now.state }
    {
        match &self.doing {
            Doing::Sent(Stage::Taken | Stage::Waiting, sent) => sent.target.manager,
            _ => Manager::Ram,
        }
    }

    /// The thread's answer, if it has one that it has not taken.
    pub fn answered(&self) -> Option<&Answer>
        ensures answer { option_copied result ≡ answer_in self.now.state }
    {
        match &self.doing {
            Doing::Answered(answer) => Some(answer),
            _ => None,
        }
    }

    /// The thread has sent a message, and is blocked until it is answered; the room for the reply is the one that is there,
    /// or is made (C Library Reference: `MsgSend`).
    pub fn send(&mut self, alloc: Global, sent: Sent) -> Result<(), AllocError>
        requires countable { self.old.calls < CALLS }
        requires priority { IsPriority sent.target.prio.0 }
        ensures ok { OnOk result (self.new ≡ queued_thread sent self.old) }
        ensures had_room { IsTrue (has_own_room self.old) → IsOk result }
        ensures err { OnErr result (self.new ≡ self.old) }
    {
        if self.room.is_none() {
            self.room = Some(Room::new(alloc)?);
        }
        if !matches!(self.doing, Doing::Ready) {
            self.doing = Doing::Ready;
        }
        // so the compiler needs no look at what goes
        assert_unchecked(matches!(self.doing, Doing::Ready));
        self.doing = Doing::Sent(Stage::Queued, sent);
        self.calls += 1;
        self.has_room = true;
        Ok(())
    }

    /// The thread's message is received (C Library Reference: `MsgReceive`).
    pub fn take(&mut self)
        ensures row { self.new ≡ taken_thread self.old }
    {
        if let Doing::Sent(stage, _) = &mut self.doing {
            if let Stage::Queued = *stage {
                *stage = Stage::Taken;
            }
        }
    }

    /// The thread's message, which was received, is asked to unblock it (C Library Reference: `ChannelCreate`,
    /// `_NTO_CHF_UNBLOCK`).
    pub fn ask_unblock(&mut self)
        ensures row { self.new ≡ asked_thread self.old }
    {
        if let Doing::Sent(Stage::Taken | Stage::Waiting, sent) = &mut self.doing {
            sent.is_asked = true;
        }
    }

    /// The thread's message, which was received, is served and left without a reply: its bytes go and leave their memory for
    /// others, and the room for the reply goes to the caller, since the answer is to bring one (Writing a Resource Manager: a
    /// client is REPLY-blocked until it is replied to).
    pub fn wait(&mut self, memory: &mut Vec<u8>) -> Room
        requires received { IsSome (taken_in self.old.state) }
        ensures row { self.new ≡ served_thread self.old }
        ensures memory { Leave (received_in self.old.state) (vec_capacity memory.old) (vec_capacity memory.new) }
    {
        let Some(room) = self.room.take() else {
            assert_unchecked(false);
            unreachable!();
        };
        let Doing::Sent(stage, sent) = &mut self.doing else {
            assert_unchecked(false);
            unreachable!();
        };
        *stage = Stage::Waiting;
        sent.bytes.take().into_memory(memory);
        room
    }

    /// The thread gets an answer, and with it the room for its replies, unless the answer took that along or it never went
    /// (C Library Reference: `MsgReply`, `MsgError`).
    #[inline(always)]
    pub fn answer(&mut self, answer: Answer, room: Option<Room>)
        requires room { BringsRoom answer room (Some self.old) }
        ensures row { self.new ≡ answered_thread answer self.old }
    {
        if let Doing::Sent(Stage::Waiting, _) = &self.doing {
            self.has_room = room.is_some();
            self.room = room;
        }
        self.doing = Doing::Answered(answer);
    }

    /// The thread, whose message was received, gets a reply. Few bytes leave it the room for its replies; with more that comes
    /// in the place of theirs. The message leaves its memory for others (C Library Reference: `MsgReply`).
    pub fn reply(&mut self, status: u64, reply: &mut Reply, memory: &mut Vec<u8>)
        requires received { IsSome (taken_in self.old.state) }
        ensures row { self.new ≡ answered_thread (TheReply status reply.old) self.old }
        ensures memory { Leave (received_in self.old.state) (vec_capacity memory.old) (vec_capacity memory.new) }
    {
        if reply.is_empty() {
            let none = MessageBytes::new(*memory.allocator());
            answered(&mut self.doing, Answer::Reply(status, none), memory);
            return;
        }
        if let Some(bytes) = reply.inline() {
            answered(&mut self.doing, Answer::Reply(status, bytes), memory);
            return;
        }
        let Some(room) = self.room.take() else {
            assert_unchecked(false);
            unreachable!();
        };
        self.has_room = false;
        let bytes = reply.take_many(room);
        answered(&mut self.doing, Answer::Reply(status, bytes), memory);
    }

    /// The thread, whose message was received, gets an error. The message leaves its memory for others (C Library Reference:
    /// `MsgError`).
    #[inline(always)]
    pub fn reply_error(&mut self, error: Errno, memory: &mut Vec<u8>)
        requires received { IsSome (taken_in self.old.state) }
        ensures row { self.new ≡ answered_thread (Failed error) self.old }
        ensures memory { Leave (received_in self.old.state) (vec_capacity memory.old) (vec_capacity memory.new) }
    {
        answered(&mut self.doing, Answer::Failed(error), memory);
    }

    /// The thread gets another priority (C Library Reference: `SchedSet`).
    pub fn set_prio(&mut self, prio: Prio)
        requires priority { IsPriority prio.0 }
        ensures row { self.new ≡ ranked_thread prio.0 self.old }
    {
        self.prio = prio;
    }

    /// The thread's answer, after which it is ready; none where it has none, and then nothing changes.
    pub fn take_answer(&mut self) -> Option<Answer>
        ensures answer { result ≡ answer_in self.old.state }
        ensures row { MatchOption result (self.new ≡ self.old) (λ _. self.new ≡ ready_thread self.old) }
    {
        let Doing::Answered(answer) = &mut self.doing else {
            return None;
        };
        // moved alone, and not with all that a thread may be doing; what stands in its place goes at once
        let taken = mem::replace(answer, Answer::Failed(Errno::EINTR));
        self.doing = Doing::Ready;
        Some(taken)
    }

    /// The bytes of the thread's message if that was received and is not served, and else none, as the thread goes with its
    /// answer and its room (C Library Reference: `_exit`).
    pub fn into_received(self, alloc: Global) -> MessageBytes
        ensures bytes { result ≡ received_in self.state }
    {
        let ThreadCell { doing, .. } = self;
        match doing {
            Doing::Sent(Stage::Taken, sent) => sent.bytes,
            _ => MessageBytes::inline(alloc, &[]),
        }
    }
}

/// An answer comes in the place of a message that was received, which leaves its memory for others.
#[inline(always)]
fn answered(doing: &mut Doing, answer: Answer, memory: &mut Vec<u8>)
    requires received { IsSome (taken_in (state_of doing.old)) }
    ensures answered { doing.new ≡ Doing.Answered answer }
    ensures memory { Leave (received_in (state_of doing.old)) (vec_capacity memory.old) (vec_capacity memory.new) }
{
    let Doing::Sent(_, sent) = mem::replace(doing, Doing::Answered(answer)) else {
        assert_unchecked(false);
        unreachable!();
    };
    sent.bytes.into_memory(memory);
}
