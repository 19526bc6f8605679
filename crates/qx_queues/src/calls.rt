//! Calls that wait in pipes.

ghost use Rattle.std.specs.Prelude.{◌≡◌, ◌<◌, ◌≤◌, [], length, take, true};
ghost use Rattle.qx_machine.specs.Waiting.{is_call, waiting_call};
ghost use Rattle.qx_queues.specs.Calls.{wanted_by, written_by};
ghost use Rattle.qx_queues.specs.Queues.{caller};
ghost use Rattle.qx_types.specs.declared.limits.TheConstants.Limits.{TRANSFER};

use qx_machine::Opened;
use qx_rows::Room;
use qx_types::{Limits, Proc, Thread, User};
use std::marker::Model;

/// What a call does to its pipe.
#[derive(Drop)]
enum Work {
    /// It reads so many bytes.
    Read(u32),
    /// It writes what is kept in its room.
    Write,
}

/// A call that waits in a pipe (Writing a Resource Manager: a client to whom no reply is made yet), with the room for its
/// reply, in which what it writes is kept until then.
#[derive(Drop)]
pub struct PipeCall {
    process: u8,
    thread: u8,
    number: u64,
    block: u16,
    work: Work,
    room: Room,
    is_gone: bool,
}

impl Model for PipeCall {
    ghost use Rattle.qx_machine.specs.declared.rows.WaitingCall.{WaitingCall};

    ghost Value = { WaitingCall };

    ghost use Rattle.qx_queues.specs.Calls.{wanted_by, written_by};

    ghost view = { λ c. record { process = c.process; thread = c.thread; call = c.number; block = c.block; wanted = wanted_by c.work; bytes = written_by c.work c.room; is_gone = c.is_gone } };
}

impl PipeCall {
    /// A call that reads so many bytes (C Library Reference: `read`).
    pub fn reading(opened: Opened, wanted: u32, room: Room) -> Self
        ensures call { result ≡ waiting_call opened wanted [] }
    {
        PipeCall::new(opened, Work::Read(wanted), room)
    }

    /// A call that writes what is kept in its room, at most as many bytes as one write has (C Library Reference: `write`).
    pub fn writing(opened: Opened, room: Room) -> Self
        ensures call { result ≡ waiting_call opened 0 (take TRANSFER room) }
    {
        PipeCall::new(opened, Work::Write, room)
    }

    fn new(opened: Opened, work: Work, room: Room) -> Self
        ensures call { result ≡ waiting_call opened (wanted_by work) (written_by work room) }
    {
        PipeCall {
            process: opened.process,
            thread: opened.thread,
            number: opened.call,
            block: opened.number,
            work,
            room,
            is_gone: false,
        }
    }

    /// Which thread of a user it is of.
    pub fn thread(&self, user: User) -> Thread
        ensures thread { result ≡ caller (record { user = user.0; call = self.now }) }
    {
        Thread {
            proc: Proc {
                user,
                num: self.process,
            },
            tid: self.thread,
        }
    }

    /// Which call of its thread it is.
    pub fn number(&self) -> u64
        ensures number { result ≡ self.now.call }
    {
        self.number
    }

    /// Whether it is that call of that thread of a process.
    pub fn is(&self, process: u8, thread: u8, number: u64) -> bool
        ensures is { result ≡ is_call process thread number self.now }
    {
        self.process == process && self.thread == thread && self.number == number
    }

    /// The number of the open control block that it works on.
    pub fn block(&self) -> u16
        ensures block { result ≡ self.now.block }
    {
        self.block
    }

    /// How many bytes it reads.
    pub fn wanted(&self) -> u32
        ensures wanted { result ≡ self.now.wanted }
    {
        match self.work {
            Work::Read(wanted) => wanted,
            Work::Write => 0,
        }
    }

    /// The bytes that it writes.
    pub fn bytes(&self) -> &[u8]
        ensures bytes { result.now ≡ self.now.bytes }
        ensures few { length result.now ≤ TRANSFER }
    {
        match self.work {
            Work::Read(_) => &[],
            Work::Write => self.room.first(Limits::TRANSFER as u32),
        }
    }

    /// Whether its process has ended.
    pub fn is_gone(&self) -> bool
        ensures gone { result ≡ self.now.is_gone }
    {
        self.is_gone
    }

    /// Its process has ended.
    pub(crate) fn abandon(&mut self)
        ensures gone { self.new ≡ record self.old { is_gone = true } }
    {
        self.is_gone = true;
    }

    /// The room for its reply, as it waits no more, with the bytes that it writes in it still.
    pub fn into_room(self) -> Room
        ensures bytes { 0 < length self.bytes → take TRANSFER result ≡ self.bytes }
    {
        let PipeCall { room, .. } = self;
        room
    }
}
