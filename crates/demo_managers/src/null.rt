ghost use Rattle.demo_managers.specs.Null.{null_connect, null_io};

use crate::kept::{Kept, Told};
use qx_machine::{Conditions, Effect, Event, NewDup, NewOpen, Ocb, Opened, PulseWish, Wish};
use qx_notify::AllEvents;
use qx_resmgr::{Connect, Done, Io, no_function};
use qx_rows::{Reply, Room};
use qx_types::{Errno, Limits, NotifyAction, Whence};
use qx_wire::Rest;
use std::alloc::AllocError;

/// The null manager.
pub struct Null;

impl Connect<Kept, AllEvents, Told> for Null {
    ghost connect = { λ _. null_connect };

    fn open(
        &self,
        state: &mut Kept,
        _waits: &mut AllEvents,
        over: Result<NewOpen, Errno>,
        rest: &Rest<'_>,
        wish: Wish,
    ) -> Result<Result<Done, Errno>, AllocError> {
        let over = match over {
            Ok(over) => over,
            Err(error) => return Ok(Err(error)),
        };
        if rest.components().next().is_some() {
            return Ok(Err(Errno::ENOENT));
        }
        let number = match state.blocks.free_number() {
            Ok(number) => number,
            Err(error) => return Ok(Err(error)),
        };
        let block = Ocb {
            inode: over.root,
            flags: wish.flags,
            offset: 0,
            uses: 1,
            client: over.client,
        };
        state.blocks.put(number, block)?;
        Ok(Ok(Done::Reply {
            status: over.coid.0 as u64,
            effect: Effect::Opens {
                coid: over.coid,
                block: number,
            },
        }))
    }

    fn stat(
        &self,
        _state: &mut Kept,
        _waits: &mut AllEvents,
        _root: Result<u32, Errno>,
        _rest: &Rest<'_>,
        _moment: u64,
        _reply: &mut Reply,
    ) -> Result<Done, Errno> {
        no_function()
    }

    fn unlink(
        &self,
        _state: &mut Kept,
        _waits: &mut AllEvents,
        _root: Result<u32, Errno>,
        _rest: &Rest<'_>,
        _moment: u64,
    ) -> Result<Done, Errno> {
        no_function()
    }

    fn rename(
        &self,
        _state: &mut Kept,
        _waits: &mut AllEvents,
        _root: Result<u32, Errno>,
        _from: &Rest<'_>,
        _to: &Rest<'_>,
        _moment: u64,
    ) -> Result<Done, Errno> {
        no_function()
    }

    fn mknod(
        &self,
        _state: &mut Kept,
        _waits: &mut AllEvents,
        _root: Result<u32, Errno>,
        _mode: u16,
        _rest: &Rest<'_>,
        _moment: u64,
    ) -> Result<Result<Done, Errno>, AllocError> {
        Ok(no_function())
    }
}

impl Io<Kept, AllEvents, Told> for Null {
    ghost use Rattle.demo_managers.specs.Null.{MayArm, got_events};

    ghost io = { λ _. null_io };

    ghost wants = { λ _ opened bytes. got_events };

    ghost ready = { MayArm };

    fn read(
        &self,
        _state: &mut Kept,
        _waits: &mut AllEvents,
        opened: Result<Opened, Errno>,
        _count: u32,
        _reply: &mut Reply,
        _room: &mut Option<Room>,
    ) -> Result<Done, Errno> {
        opened?;
        Ok(Done::keeps(0))
    }

    fn write(
        &self,
        _state: &mut Kept,
        _waits: &mut AllEvents,
        opened: Result<Opened, Errno>,
        bytes: &[u8],
        _room: &mut Option<Room>,
    ) -> Result<Result<Done, Errno>, AllocError> {
        Ok(opened.map(|_| Done::keeps(bytes.len() as u64)))
    }

    fn close(
        &self,
        state: &mut Kept,
        waits: &mut AllEvents,
        opened: Result<Opened, Errno>,
    ) -> Result<Done, Errno> {
        let opened = opened?;
        state.blocks.free(opened.number);
        waits.disarm(state.user, opened.number);
        Ok(Done::Reply {
            status: 0,
            effect: Effect::Closes(opened.coid),
        })
    }

    fn dup(
        &self,
        _state: &mut Kept,
        _waits: &mut AllEvents,
        _dup: Result<NewDup, Errno>,
    ) -> Result<Done, Errno> {
        no_function()
    }

    fn lseek(
        &self,
        _state: &mut Kept,
        _waits: &mut AllEvents,
        _opened: Result<Opened, Errno>,
        _whence: Whence,
        _offset: i64,
    ) -> Result<Done, Errno> {
        no_function()
    }

    fn fstat(
        &self,
        _state: &mut Kept,
        _waits: &mut AllEvents,
        _opened: Result<Opened, Errno>,
        _reply: &mut Reply,
    ) -> Result<Done, Errno> {
        no_function()
    }

    fn list(
        &self,
        _state: &mut Kept,
        _waits: &mut AllEvents,
        _opened: Result<Opened, Errno>,
        _after: &[u8],
        _reply: &mut Reply,
    ) -> Result<Done, Errno> {
        no_function()
    }

    fn chmod(
        &self,
        _state: &mut Kept,
        _waits: &mut AllEvents,
        _opened: Result<Opened, Errno>,
        _mode: u16,
    ) -> Result<Done, Errno> {
        no_function()
    }

    fn notify(
        &self,
        state: &mut Kept,
        waits: &mut AllEvents,
        opened: Result<Opened, Errno>,
        action: NotifyAction,
        wish: PulseWish,
    ) -> Result<Result<Done, Errno>, AllocError> {
        let opened = match opened {
            Ok(opened) => opened,
            Err(error) => return Ok(Err(error)),
        };
        if !state.blocks.has(opened.number) {
            return Ok(Err(Errno::EBADF));
        }
        let event = Event {
            process: opened.process,
            block: opened.number,
            conditions: wish.conditions,
            code: wish.code,
            value: wish.value,
        };
        let holding = Conditions {
            input: true,
            output: true,
        };
        let given = waits.notify(Limits::EVENTS, state.user, action, event, holding)?;
        Ok(given.map(Done::keeps))
    }
}
