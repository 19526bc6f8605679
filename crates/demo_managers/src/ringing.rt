ghost use Rattle.demo_managers.specs.Bell.{bell_connect, bell_io};

use crate::bell::{Bell, Bells};
use qx_machine::{Effect, NewDup, NewOpen, Ocb, Opened, PulseWish, Wish};
use qx_queues::{Leaving, PipeCall};
use qx_resmgr::{Connect, Done, Io, no_function};
use qx_rows::{Reply, Room};
use qx_shared::{Shared, Side};
use qx_types::{Errno, NotifyAction, Whence};
use qx_wire::Rest;
use std::alloc::AllocError;

/// The manager of a bell.
pub struct Ringing;

impl Connect<Bell, Shared, Bells> for Ringing {
    ghost connect = { λ _. bell_connect };

    fn open(
        &self,
        state: &mut Bell,
        _waits: &mut Shared,
        over: Result<NewOpen, Errno>,
        rest: &Rest<'_>,
        wish: Wish,
    ) -> Result<Result<Done, Errno>, AllocError> {
        let over = match over {
            Ok(over) => over,
            Err(error) => return Ok(Err(error)),
        };
        if rest.components().next().is_some() {
            return Ok(Err(Errno::ENOENT));
        }
        let number = match state.blocks.free_number() {
            Ok(number) => number,
            Err(error) => return Ok(Err(error)),
        };
        let block = Ocb {
            inode: over.root,
            flags: wish.flags,
            offset: 0,
            uses: 1,
            client: over.client,
        };
        state.blocks.put(number, block)?;
        Ok(Ok(Done::Reply {
            status: over.coid.0 as u64,
            effect: Effect::Opens {
                coid: over.coid,
                block: number,
            },
        }))
    }

    fn stat(
        &self,
        _state: &mut Bell,
        _waits: &mut Shared,
        _root: Result<u32, Errno>,
        _rest: &Rest<'_>,
        _moment: u64,
        _reply: &mut Reply,
    ) -> Result<Done, Errno> {
        no_function()
    }

    fn unlink(
        &self,
        _state: &mut Bell,
        _waits: &mut Shared,
        _root: Result<u32, Errno>,
        _rest: &Rest<'_>,
        _moment: u64,
    ) -> Result<Done, Errno> {
        no_function()
    }

    fn rename(
        &self,
        _state: &mut Bell,
        _waits: &mut Shared,
        _root: Result<u32, Errno>,
        _from: &Rest<'_>,
        _to: &Rest<'_>,
        _moment: u64,
    ) -> Result<Done, Errno> {
        no_function()
    }

    fn mknod(
        &self,
        _state: &mut Bell,
        _waits: &mut Shared,
        _root: Result<u32, Errno>,
        _mode: u16,
        _rest: &Rest<'_>,
        _moment: u64,
    ) -> Result<Result<Done, Errno>, AllocError> {
        Ok(no_function())
    }
}

impl Io<Bell, Shared, Bells> for Ringing {
    ghost use Rattle.demo_managers.specs.Bell.{CanWork};

    ghost io = { λ _. bell_io };

    ghost ready = { CanWork };

    fn read(
        &self,
        state: &mut Bell,
        waits: &mut Shared,
        opened: Result<Opened, Errno>,
        count: u32,
        _reply: &mut Reply,
        room: &mut Option<Room>,
    ) -> Result<Done, Errno> {
        let opened = opened?;
        if opened.is_asked {
            return Err(Errno::EINTR);
        }
        let Some(room) = room.take() else {
            unreachable!()
        };
        let call = PipeCall::reading(opened, count, room);
        waits.wait(state.user, state.inode, Side::Reading, call);
        Ok(Done::NoReply)
    }

    fn write(
        &self,
        state: &mut Bell,
        waits: &mut Shared,
        opened: Result<Opened, Errno>,
        bytes: &[u8],
        _room: &mut Option<Room>,
    ) -> Result<Result<Done, Errno>, AllocError> {
        if let Err(error) = opened {
            return Ok(Err(error));
        }
        waits.dismiss(
            state.user,
            state.inode,
            Side::Reading,
            Leaving::All,
            Ok((0, &[])),
        );
        Ok(Ok(Done::keeps(bytes.len() as u64)))
    }

    fn close(
        &self,
        state: &mut Bell,
        waits: &mut Shared,
        opened: Result<Opened, Errno>,
    ) -> Result<Done, Errno> {
        let opened = opened?;
        state.blocks.free(opened.number);
        waits.dismiss(
            state.user,
            state.inode,
            Side::Reading,
            Leaving::Block(opened.number),
            Err(Errno::EBADF),
        );
        Ok(Done::Reply {
            status: 0,
            effect: Effect::Closes(opened.coid),
        })
    }

    fn dup(
        &self,
        _state: &mut Bell,
        _waits: &mut Shared,
        _dup: Result<NewDup, Errno>,
    ) -> Result<Done, Errno> {
        no_function()
    }

    fn lseek(
        &self,
        _state: &mut Bell,
        _waits: &mut Shared,
        _opened: Result<Opened, Errno>,
        _whence: Whence,
        _offset: i64,
    ) -> Result<Done, Errno> {
        no_function()
    }

    fn fstat(
        &self,
        _state: &mut Bell,
        _waits: &mut Shared,
        _opened: Result<Opened, Errno>,
        _reply: &mut Reply,
    ) -> Result<Done, Errno> {
        no_function()
    }

    fn list(
        &self,
        _state: &mut Bell,
        _waits: &mut Shared,
        _opened: Result<Opened, Errno>,
        _after: &[u8],
        _reply: &mut Reply,
    ) -> Result<Done, Errno> {
        no_function()
    }

    fn chmod(
        &self,
        _state: &mut Bell,
        _waits: &mut Shared,
        _opened: Result<Opened, Errno>,
        _mode: u16,
    ) -> Result<Done, Errno> {
        no_function()
    }

    fn notify(
        &self,
        _state: &mut Bell,
        _waits: &mut Shared,
        _opened: Result<Opened, Errno>,
        _action: NotifyAction,
        _wish: PulseWish,
    ) -> Result<Result<Done, Errno>, AllocError> {
        Ok(no_function())
    }
}
