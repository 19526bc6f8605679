//! What the nodes of the table stand for and carry.

ghost use Rattle.std.specs.Prelude.{◌≡◌, ◌+◌, ◌≤◌, ◌++◌, [], IfSome, false, is_some, length, true};
ghost use Rattle.std.specs.Result.{ForOk};
ghost use Rattle.qx_machine.specs.Processes.{keeps_room};
ghost use Rattle.qx_types.specs.declared.limits.TheConstants.Limits.{BODY, TRANSFER};
ghost use Rattle.qx_types.specs.declared.outcome.Answer.TheVariants.{Reply};
ghost use Rattle.qx_queues.specs.Kept.{HasLoad};
ghost use Rattle.qx_queues.specs.Queues.{answer_to};
ghost use Rattle.qx_queues.specs.Waiting.{Answered as Given, ComesWithRoom, Waits, addressed_by, call_carried, carried, carrying, idle, waits_in};
ghost use Rattle.qx_queues.specs.inner.Waiting.{KeepsRoom, load_of, ranked, with_gone_call};
ghost use Rattle.qx_queues.specs.Waits.{handed, users_call};

use crate::calls::PipeCall;
use qx_machine::Queued;
use qx_rows::room::{Room, reply_bytes};
use qx_types::{Answer, Errno, MessageBytes, Prio, Ranked, Thread, User};
use std::marker::Model;
use std::mem;

/// An answer on its way to its thread: to which call it is, and the room for the thread's replies, unless the answer took
/// that along.
#[derive(Drop)]
pub struct Answered {
    pub thread: Thread,
    pub call: u64,
    pub answer: Answer,
    pub room: Option<Room>,
}

impl Answered {
    /// The answer to a user's call that waited, for which there is room.
    pub(crate) fn new(user: User, call: PipeCall, given: Result<(u64, &[u8]), Errno>) -> Self
        requires short { ForOk given (λ reply. length reply.1.now ≤ TRANSFER) }
        ensures answered { addressed_by result ≡ answer_to (users_call user.0 call) (handed given.entry) }
        ensures room { ComesWithRoom result }
    {
        let thread = call.thread(user);
        let number = call.number();
        let mut room = Some(call.into_room());
        let answer = match given {
            Ok((status, bytes)) => Answer::Reply(status, reply_bytes(&mut room, bytes)),
            Err(error) => Answer::Failed(error),
        };
        Answered {
            thread,
            call: number,
            answer,
            room,
        }
    }

    /// The reply to a user's call that waited, for which there is room, with bytes in two pieces.
    pub(crate) fn in_pieces(
        user: User,
        call: PipeCall,
        status: u64,
        first: &[u8],
        second: &[u8],
    ) -> Self
        requires short { length first.now + length second.now ≤ TRANSFER }
        ensures answered { addressed_by result ≡ answer_to (users_call user.0 call) (Reply status (first.now ++ second.now)) }
        ensures room { ComesWithRoom result }
    {
        let thread = call.thread(user);
        let number = call.number();
        let (answer, room) = reply_in_pieces(call.into_room(), status, first, second);
        Answered {
            thread,
            call: number,
            answer,
            room,
        }
    }

    /// The reply to a user's call that waited, with the bytes that stand in a buffer: more than a few go with the memory that
    /// they stand in. The call's room is left in its place, with no bytes.
    pub(crate) fn given(user: User, call: PipeCall, status: u64, given: &mut Room) -> Self
        ensures answered { addressed_by result ≡ answer_to (users_call user.0 call) (Reply status given.old) }
        ensures room { ComesWithRoom result }
        ensures left { given.new ≡ [] }
    {
        let thread = call.thread(user);
        let number = call.number();
        let mut room = call.into_room();
        mem::swap(&mut room, given);
        given.clear();
        let (answer, room) = reply_in_room(room, status);
        Answered {
            thread,
            call: number,
            answer,
            room,
        }
    }
}

/// A reply with bytes in two pieces, and the room for a thread's replies, unless the reply takes that along.
fn reply_in_pieces(
    mut room: Room,
    status: u64,
    first: &[u8],
    second: &[u8],
) -> (Answer, Option<Room>)
    requires fits { length first.now + length second.now ≤ BODY }
    ensures reply { result.0 ≡ Reply status (first.now ++ second.now) }
    ensures room { is_some result.1 ≡ keeps_room result.0 }
{
    room.set(first);
    room.push(second);
    reply_in_room(room, status)
}

/// A reply with the bytes that stand in a room, and that room, unless the reply takes it along.
fn reply_in_room(room: Room, status: u64) -> (Answer, Option<Room>)
    ensures reply { result.0 ≡ Reply status room }
    ensures room { is_some result.1 ≡ keeps_room result.0 }
{
    if room.as_slice().len() > MessageBytes::INLINE {
        return (Answer::Reply(status, room.into_bytes()), None);
    }
    let few = room.inline(room.as_slice());
    (Answer::Reply(status, few), Some(room))
}

/// What a node carries: nothing, a call that waits, or the answer to one.
#[derive(Drop)]
pub(crate) enum Slot {
    Empty,
    Waits(PipeCall),
    Answered(Answered),
}

impl Slot {
    /// The call that waits.
    pub(crate) fn into_call(self) -> PipeCall
        requires waits { HasLoad false (load_of self) }
        ensures call { load_of self ≡ Waits result }
    {
        match self {
            Slot::Waits(call) => call,
            _ => unreachable!(),
        }
    }

    /// The answer that was given.
    pub(crate) fn into_answered(self) -> Answered
        requires answered { HasLoad true (load_of self) }
        requires room { KeepsRoom self }
        ensures answer { load_of self ≡ Given (addressed_by result) }
        ensures room { ComesWithRoom result }
    {
        match self {
            Slot::Answered(answered) => answered,
            _ => unreachable!(),
        }
    }
}

/// An item as it stands in a line, with a priority from 1, and what its node carries; an answer there comes
/// with the room for its thread's replies, unless it takes that along.
#[derive(Drop)]
pub struct Waiting {
    queued: Queued,
    slot: Slot,
}

impl Model for Waiting {
    ghost use Rattle.std.specs.Prelude.{◌≤◌};
    ghost use Rattle.qx_queues.specs.Waiting as words;
    ghost use Rattle.qx_queues.specs.inner.Waiting as inner_words;

    ghost Value = { words.Waiting };

    ghost view = { λ w. record { queued = w.queued; load = inner_words.load_of w.slot } };

    ghost invariant = { λ w. (1 ≤ w.queued.prio.0) × inner_words.KeepsRoom w.slot };
}

impl Waiting {
    /// An item with its priority, whose node carries nothing.
    pub fn new(queued: Queued) -> Self
        requires lowest { 1 ≤ queued.prio.0 }
        ensures entry { result ≡ idle queued }
    {
        Waiting {
            queued,
            slot: Slot::Empty,
        }
    }

    /// The node stands for another item from now on, and carries nothing.
    pub(crate) fn stand_for(&mut self, queued: Queued)
        requires lowest { 1 ≤ queued.prio.0 }
        ensures entry { self.new ≡ idle queued }
    {
        self.queued = queued;
        // Most carry nothing already, and a whole slot is not written for that.
        if !matches!(&self.slot, Slot::Empty) {
            self.slot = Slot::Empty;
        }
    }

    /// The item has another priority from now on.
    pub(crate) fn set_prio(&mut self, prio: Prio)
        requires lowest { 1 ≤ prio.0 }
        ensures entry { self.new ≡ ranked prio self.old }
    {
        self.queued.prio = prio;
    }

    /// The item with its priority.
    pub fn queued(&self) -> Queued
        ensures entry { result ≡ self.now.queued }
    {
        self.queued
    }

    /// The node carries something else from now on.
    pub(crate) fn carry(&mut self, slot: Slot)
        requires room { KeepsRoom slot }
        ensures after { self.new ≡ carrying self.old.queued (load_of slot) }
    {
        self.slot = slot;
    }

    /// The node carries something else from now on; gives what it carried.
    pub(crate) fn replace(&mut self, slot: Slot) -> Slot
        requires room { KeepsRoom slot }
        ensures before { load_of result ≡ self.old.load }
        ensures room { KeepsRoom result }
        ensures after { self.new ≡ carrying self.old.queued (load_of slot) }
    {
        mem::replace(&mut self.slot, slot)
    }

    /// Over which open control block the call of a number waits with the node, if it does.
    pub fn waits(&self, number: u64) -> Option<u16>
        ensures waits { is_some result ≡ waits_in number self.now.load }
        ensures block { IfSome result (λ block. block ≡ (call_carried self.now).block) }
    {
        match &self.slot {
            Slot::Waits(call) if call.number() == number => Some(call.block()),
            _ => None,
        }
    }

    /// Whether a call waits with the node.
    pub fn has_call(&self) -> bool
        ensures waits { result ≡ is_some (carried self.now.load) }
    {
        matches!(&self.slot, Slot::Waits(_))
    }

    /// The call that waits with the node, if one does, is one of a process that has ended.
    pub(crate) fn abandon(&mut self)
        ensures gone { self.new ≡ with_gone_call self.old }
    {
        if let Slot::Waits(call) = &mut self.slot {
            call.abandon();
        }
    }

    /// The call that waits with the node.
    pub fn call(&self) -> &PipeCall
        requires waits { HasLoad false self.now.load }
        ensures call { result.now ≡ call_carried self.now }
    {
        match &self.slot {
            Slot::Waits(call) => call,
            _ => unreachable!(),
        }
    }
}

impl Ranked for Waiting {
    ghost use Rattle.qx_queues.specs.Waiting.{rank_of};

    ghost rank = { rank_of };

    fn prio(&self) -> Prio {
        self.queued.prio
    }
}
