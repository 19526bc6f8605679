ghost use Rattle.qx_machine.specs.Managers.{ram_connect, ram_io};
ghost use Rattle.qx_machine.specs.Wants.{difference_wants_memory};
ghost use Rattle.qx_types.specs.declared.names.Manager.TheVariants as manager;

use crate::resources::Resources;
use crate::state::Told;
use crate::tables::Tables;
use crate::{blocks, closing};
use qx_machine::{Kind, NewDup, NewOpen, Opened, PulseWish, Wish};
use qx_resmgr::{Connect, Done, Io};
use qx_rows::{Reply, Room};
use qx_types::{Errno, Manager, NotifyAction, Whence};
use qx_wire::Rest;
use std::alloc::AllocError;

/// The RAM manager.
pub struct Ram;

impl Connect<Resources, Tables, Told> for Ram {
    ghost connect = { λ _. ram_connect };

    fn open(
        &self,
        state: &mut Resources,
        _tables: &mut Tables,
        over: Result<NewOpen, Errno>,
        rest: &Rest<'_>,
        wish: Wish,
    ) -> Result<Result<Done, Errno>, AllocError> {
        let over = match over {
            Ok(over) => over,
            Err(error) => return Ok(Err(error)),
        };
        let lookup = match state.store.lookup(over.root, rest, wish.flags) {
            Ok(lookup) => lookup,
            Err(error) => return Ok(Err(error)),
        };
        let opening = state.store.open(Kind::File, over.client, lookup, wish)?;
        Ok(Ok(blocks::opened(over.coid, opening.number)))
    }

    fn stat(
        &self,
        state: &mut Resources,
        _tables: &mut Tables,
        root: Result<u32, Errno>,
        rest: &Rest<'_>,
        _moment: u64,
        reply: &mut Reply,
    ) -> Result<Done, Errno> {
        blocks::stat(state, root, rest, reply)
    }

    fn unlink(
        &self,
        state: &mut Resources,
        _tables: &mut Tables,
        root: Result<u32, Errno>,
        rest: &Rest<'_>,
        moment: u64,
    ) -> Result<Done, Errno> {
        let unlinked = state.store.unlink(Kind::File, root?, rest, moment);
        unlinked.map(|_| Done::keeps(0))
    }

    #[inline(never)]
    fn rename(
        &self,
        state: &mut Resources,
        _tables: &mut Tables,
        root: Result<u32, Errno>,
        from: &Rest<'_>,
        to: &Rest<'_>,
        moment: u64,
    ) -> Result<Done, Errno> {
        let renamed = state.store.rename(root?, from, to, moment);
        renamed.map(|_| Done::keeps(0))
    }

    fn mknod(
        &self,
        state: &mut Resources,
        _tables: &mut Tables,
        root: Result<u32, Errno>,
        mode: u16,
        rest: &Rest<'_>,
        moment: u64,
    ) -> Result<Result<Done, Errno>, AllocError> {
        let root = match root {
            Ok(root) => root,
            Err(error) => return Ok(Err(error)),
        };
        let made = state.store.mkdir(root, rest, mode, moment)?;
        Ok(made.map(|_| Done::keeps(0)))
    }
}

impl Io<Resources, Tables, Told> for Ram {
    ghost use Rattle.qx_resources.specs.inner.State.{IsCallerReceived};

    ghost io = { λ _. ram_io };

    ghost wants = { λ _. difference_wants_memory manager.Ram };

    ghost ready = { IsCallerReceived };

    fn read(
        &self,
        state: &mut Resources,
        _tables: &mut Tables,
        opened: Result<Opened, Errno>,
        count: u32,
        reply: &mut Reply,
        _room: &mut Option<Room>,
    ) -> Result<Done, Errno> {
        qx_ram::read(&mut state.store, opened?, count, reply).map(Done::keeps)
    }

    fn write(
        &self,
        state: &mut Resources,
        _tables: &mut Tables,
        opened: Result<Opened, Errno>,
        bytes: &[u8],
        _room: &mut Option<Room>,
    ) -> Result<Result<Done, Errno>, AllocError> {
        let opened = match opened {
            Ok(opened) => opened,
            Err(error) => return Ok(Err(error)),
        };
        let written = qx_ram::write(&mut state.store, opened, bytes)?;
        Ok(written.map(Done::keeps))
    }

    fn close(
        &self,
        state: &mut Resources,
        tables: &mut Tables,
        opened: Result<Opened, Errno>,
    ) -> Result<Done, Errno> {
        closing::close(state, tables, Manager::Ram, opened)
    }

    fn dup(
        &self,
        state: &mut Resources,
        _tables: &mut Tables,
        dup: Result<NewDup, Errno>,
    ) -> Result<Done, Errno> {
        blocks::dup(state, dup)
    }

    fn lseek(
        &self,
        state: &mut Resources,
        _tables: &mut Tables,
        opened: Result<Opened, Errno>,
        whence: Whence,
        offset: i64,
    ) -> Result<Done, Errno> {
        qx_ram::seek(&mut state.store, opened?, whence, offset).map(Done::keeps)
    }

    fn fstat(
        &self,
        state: &mut Resources,
        _tables: &mut Tables,
        opened: Result<Opened, Errno>,
        reply: &mut Reply,
    ) -> Result<Done, Errno> {
        blocks::fstat(state, opened, reply)
    }

    fn list(
        &self,
        state: &mut Resources,
        _tables: &mut Tables,
        opened: Result<Opened, Errno>,
        after: &[u8],
        reply: &mut Reply,
    ) -> Result<Done, Errno> {
        blocks::list(state, opened, after, reply)
    }

    fn chmod(
        &self,
        state: &mut Resources,
        _tables: &mut Tables,
        opened: Result<Opened, Errno>,
        mode: u16,
    ) -> Result<Done, Errno> {
        blocks::chmod(state, opened, mode)
    }

    fn notify(
        &self,
        state: &mut Resources,
        tables: &mut Tables,
        opened: Result<Opened, Errno>,
        action: NotifyAction,
        wish: PulseWish,
    ) -> Result<Result<Done, Errno>, AllocError> {
        blocks::notify(state, tables, opened, action, wish)
    }
}
