ghost use Rattle.std.specs.Prelude.{◌≡◌};
ghost use Rattle.qx_machine.specs.Managers.{pipe_connect, pipe_io};
ghost use Rattle.qx_machine.specs.Wants.{difference_wants_memory};
ghost use Rattle.qx_pipes.specs.Pipes.{kind_with};
ghost use Rattle.qx_resources.specs.Told.{done_at_once, manager_with};

use crate::resources::Resources;
use crate::state::Told;
use crate::tables::Tables;
use crate::{blocks, closing};
use qx_machine::{NewDup, NewOpen, Opened, PulseWish, Wish};
use qx_resmgr::{Connect, Done, Io, no_function};
use qx_rows::{Reply, Room};
use qx_types::{Device, Errno, Manager, NotifyAction, Whence};
use qx_wire::Rest;
use std::alloc::AllocError;

/// The pipe manager, or a device's.
#[derive(Drop)]
pub struct Pipe {
    pub device: Option<Device>,
}

impl Pipe {
    /// Which manager it is.
    fn manager(&self) -> Manager
        ensures { result ≡ manager_with self.now.device }
    {
        match self.device {
            None => Manager::Pipe,
            Some(device) => Manager::Device(device),
        }
    }
}

impl Connect<Resources, Tables, Told> for Pipe {
    ghost connect = { λ manager. pipe_connect (kind_with manager.device) };

    fn open(
        &self,
        state: &mut Resources,
        tables: &mut Tables,
        over: Result<NewOpen, Errno>,
        rest: &Rest<'_>,
        wish: Wish,
    ) -> Result<Result<Done, Errno>, AllocError> {
        let over = match over {
            Ok(over) => over,
            Err(error) => return Ok(Err(error)),
        };
        let (shared, store) = (&mut tables.shared, &mut state.store);
        let opened = qx_pipes::open(shared, store, self.device, over, rest, wish)?;
        Ok(opened.map(|block| blocks::opened(over.coid, block)))
    }

    fn stat(
        &self,
        state: &mut Resources,
        _tables: &mut Tables,
        root: Result<u32, Errno>,
        rest: &Rest<'_>,
        _moment: u64,
        reply: &mut Reply,
    ) -> Result<Done, Errno> {
        blocks::stat(state, root, rest, reply)
    }

    fn unlink(
        &self,
        state: &mut Resources,
        tables: &mut Tables,
        root: Result<u32, Errno>,
        rest: &Rest<'_>,
        moment: u64,
    ) -> Result<Done, Errno> {
        let (shared, store) = (&mut tables.shared, &mut state.store);
        let unlinked = qx_pipes::unlink(shared, store, self.device, root?, rest, moment);
        unlinked.map(|_| Done::keeps(0))
    }

    fn rename(
        &self,
        _state: &mut Resources,
        _tables: &mut Tables,
        _root: Result<u32, Errno>,
        _from: &Rest<'_>,
        _to: &Rest<'_>,
        _moment: u64,
    ) -> Result<Done, Errno> {
        no_function()
    }

    fn mknod(
        &self,
        _state: &mut Resources,
        _tables: &mut Tables,
        _root: Result<u32, Errno>,
        _mode: u16,
        _rest: &Rest<'_>,
        _moment: u64,
    ) -> Result<Result<Done, Errno>, AllocError> {
        Ok(no_function())
    }
}

impl Io<Resources, Tables, Told> for Pipe {
    ghost use Rattle.qx_resources.specs.inner.State.{IsCallerReceived};

    ghost io = { λ manager. pipe_io (kind_with manager.device) };

    ghost wants = { λ manager. difference_wants_memory (manager_with manager.device) };

    ghost ready = { IsCallerReceived };

    fn read(
        &self,
        state: &mut Resources,
        tables: &mut Tables,
        opened: Result<Opened, Errno>,
        count: u32,
        reply: &mut Reply,
        room: &mut Option<Room>,
    ) -> Result<Done, Errno> {
        let (shared, store) = (&mut tables.shared, &mut state.store);
        qx_pipes::read(shared, store, opened?, count, reply, room).map(done_at_once)
    }

    fn write(
        &self,
        state: &mut Resources,
        tables: &mut Tables,
        opened: Result<Opened, Errno>,
        bytes: &[u8],
        room: &mut Option<Room>,
    ) -> Result<Result<Done, Errno>, AllocError> {
        let opened = match opened {
            Ok(opened) => opened,
            Err(error) => return Ok(Err(error)),
        };
        let (shared, store) = (&mut tables.shared, &mut state.store);
        Ok(qx_pipes::write(shared, store, opened, bytes, room).map(done_at_once))
    }

    fn close(
        &self,
        state: &mut Resources,
        tables: &mut Tables,
        opened: Result<Opened, Errno>,
    ) -> Result<Done, Errno> {
        closing::close(state, tables, self.manager(), opened)
    }

    fn dup(
        &self,
        state: &mut Resources,
        _tables: &mut Tables,
        dup: Result<NewDup, Errno>,
    ) -> Result<Done, Errno> {
        blocks::dup(state, dup)
    }

    fn lseek(
        &self,
        state: &mut Resources,
        _tables: &mut Tables,
        opened: Result<Opened, Errno>,
        _whence: Whence,
        _offset: i64,
    ) -> Result<Done, Errno> {
        Err(qx_pipes::seek(&state.store, opened?))
    }

    fn fstat(
        &self,
        state: &mut Resources,
        _tables: &mut Tables,
        opened: Result<Opened, Errno>,
        reply: &mut Reply,
    ) -> Result<Done, Errno> {
        blocks::fstat(state, opened, reply)
    }

    fn list(
        &self,
        state: &mut Resources,
        _tables: &mut Tables,
        opened: Result<Opened, Errno>,
        after: &[u8],
        reply: &mut Reply,
    ) -> Result<Done, Errno> {
        blocks::list(state, opened, after, reply)
    }

    fn chmod(
        &self,
        state: &mut Resources,
        _tables: &mut Tables,
        opened: Result<Opened, Errno>,
        mode: u16,
    ) -> Result<Done, Errno> {
        blocks::chmod(state, opened, mode)
    }

    fn notify(
        &self,
        state: &mut Resources,
        tables: &mut Tables,
        opened: Result<Opened, Errno>,
        action: NotifyAction,
        wish: PulseWish,
    ) -> Result<Result<Done, Errno>, AllocError> {
        blocks::notify(state, tables, opened, action, wish)
    }
}

/// What a message came to that is told this status at once, or is left without a reply.
fn done_at_once(status: Option<u64>) -> Done
    ensures { result ≡ done_at_once status }
{
    match status {
        Some(status) => Done::keeps(status),
        None => Done::NoReply,
    }
}
