//! What messages over an open control block do.

ghost use Rattle.std.specs.Prelude.{◌≡◌, ◌<◌, ◌≤◌, [], ℤ, IsSome, MatchOption, MatchResult, None, Err, if◌then◌else◌, is_ok, length, position};
ghost use Rattle.qx_iofunc.specs.Sizes.{sized};
ghost use Rattle.qx_iofunc.specs.Store.{with_stored};
ghost use Rattle.qx_machine.specs.Defaults as defaults;
ghost use Rattle.qx_machine.specs.Inodes.{has};
ghost use Rattle.qx_machine.specs.PipeManager as machine;
ghost use Rattle.qx_machine.specs.Resources.{Resources};
ghost use Rattle.qx_isolation.specs.Rows.{with_row};
ghost use Rattle.qx_machine.specs.Waiting.{caller_in, holds, is_call, is_written};
ghost use Rattle.qx_pipes.specs.Pipes.{Follows, done_of, kind_with, seen};
ghost use Rattle.qx_pipes.specs.Told.{bytes_told, status_told};
ghost use Rattle.qx_shared.specs.Shared.{IsReceived, pipe_at, pipes_of, callers_thread, with_row_at};
ghost use Rattle.qx_types.specs.declared.flags.TheConstants.OFlags.{NONBLOCK};
ghost use Rattle.qx_types.specs.declared.limits.TheConstants.Limits.{TRANSFER};
ghost use Rattle.qx_types.specs.declared.fields.Whence.{Whence as AnyWhence};
ghost use Rattle.qx_types.specs.declared.outcome.Answer.TheVariants.{Reply as TheReply};

use crate::kinds::kind_of;
use bitflags::Flags;
use qx_attr::Inodes;
use qx_iofunc::Store;
use qx_machine::{Kind, Manner, Ocb, Opened};
use qx_queues::PipeCall;
use qx_rows::{Reply, Room};
use qx_shared::Shared;
use qx_types::{Device, Errno, Limits, OFlags, Thread, User};

/// A READ of a call whose message was received. Where nobody waits in the pipe and it is answered with a reply, it is told
/// that at once: the status, with the bytes in the reply; the room is left then. Else it is left without a reply: it waits
/// with the room for its reply, or is answered, and so are others that can be then (C Library Reference: `read`). EBADF
/// without a block for reading, EISDIR on the mount's root; the room is left then.
pub fn read(
    shared: &mut Shared,
    store: &mut Store,
    opened: Opened,
    wanted: u32,
    reply: &mut Reply,
    room: &mut Option<Room>,
) -> Result<Option<u64>, Errno>
    requires user { store.old.stored.user < length shared.old.pipes }
    requires received { IsReceived shared.old (callers_thread store.old.stored.user (caller_in opened)) }
    requires empty { reply.old ≡ [] }
    requires room { IsSome room.old }
    ensures user { store.new.stored.user ≡ store.old.stored.user }
    ensures done { (r : Resources) → result ≡ status_told (machine.read_pipe (seen r store.old.stored shared.old) opened wanted) }
    ensures left { (r : Resources) → Follows store.old.stored shared.old store.new.stored shared.new r (machine.read_pipe (seen r store.old.stored shared.old) opened wanted) }
    ensures bytes { (r : Resources) → reply.new ≡ bytes_told (machine.read_pipe (seen r store.old.stored shared.old) opened wanted) }
    ensures room { MatchResult result (λ status. MatchOption status (room.new ≡ None) (λ told. room.new ≡ room.old)) (λ error. room.new ≡ room.old) }
{
    let block = store.inodes().block_for(opened.number, OFlags::READ)?;
    let user = store.user();
    if !shared.has_pipe(user, block.inode) {
        return Err(Errno::EISDIR);
    }
    let inode = block.inode;
    let sides = store.inodes().sides(inode);
    let manner = manner(sides.for_writing, &block, opened.is_asked);
    if let Some(told) = qx_pipe::pipe::read_alone(shared, user, inode, wanted, manner, reply) {
        store.set_size(inode, told.size as u64, false, opened.moment);
        return Ok(Some(told.status));
    }
    let Some(own_room) = room.take() else {
        unreachable!();
    };
    let call = PipeCall::reading(opened, wanted, own_room);
    let filled = qx_pipe::pipe::read(shared, user, inode, call, manner);
    set_size(shared, store, inode, filled, opened.moment);
    Ok(None)
}

/// A WRITE of a call whose message was received. Where nobody waits in the pipe and it is answered with a reply, it is told
/// that at once: the status, with no bytes; the room is left then. Else it is left without a reply: it waits with the room
/// for its reply, in which a copy of the bytes is kept then, or is answered, and so are others that can be then (C Library
/// Reference: `write`). EBADF without a block for writing; the room is left then.
pub fn write(
    shared: &mut Shared,
    store: &mut Store,
    opened: Opened,
    bytes: &[u8],
    room: &mut Option<Room>,
) -> Result<Option<u64>, Errno>
    requires user { store.old.stored.user < length shared.old.pipes }
    requires received { IsReceived shared.old (callers_thread store.old.stored.user (caller_in opened)) }
    requires fits { length bytes.now ≤ TRANSFER }
    requires room { IsSome room.old }
    ensures user { store.new.stored.user ≡ store.old.stored.user }
    ensures done { (r : Resources) → result ≡ status_told (machine.write_pipe (seen r store.old.stored shared.old) opened bytes.now) }
    ensures left { (r : Resources) → Follows store.old.stored shared.old store.new.stored shared.new r (machine.write_pipe (seen r store.old.stored shared.old) opened bytes.now) }
    ensures bytes { (r : Resources) → bytes_told (machine.write_pipe (seen r store.old.stored shared.old) opened bytes.now) ≡ [] }
    ensures room { MatchResult result (λ status. MatchOption status (room.new ≡ None) (λ told. room.new ≡ room.old)) (λ error. room.new ≡ room.old) }
{
    let block = store.inodes().block_for(opened.number, OFlags::WRITE)?;
    let user = store.user();
    if !shared.has_pipe(user, block.inode) {
        return Err(Errno::EBADF);
    }
    let inode = block.inode;
    let sides = store.inodes().sides(inode);
    let manner = manner(sides.for_reading, &block, opened.is_asked);
    if let Some(told) = qx_pipe::pipe::write_alone(shared, user, inode, bytes, manner) {
        let filled = is_filled(bytes, told.status);
        store.set_size(inode, told.size as u64, filled, opened.moment);
        return Ok(Some(told.status));
    }
    let Some(own_room) = room.take() else {
        unreachable!();
    };
    let filled = qx_pipe::pipe::write(shared, user, inode, opened, bytes, own_room, manner);
    set_size(shared, store, inode, filled, opened.moment);
    Ok(None)
}

/// A pipe has no offset: ESPIPE; on the mount's root EINVAL (C Library Reference: `lseek`).
pub fn seek(store: &Store, opened: Opened) -> Errno
    ensures refused { (r : Resources) (whence : AnyWhence) (by : ℤ) → machine.seek_pipe (with_stored r store.now.stored) opened whence by ≡ Err result }
{
    let Some(block) = store.inodes().block(opened.number) else {
        return Errno::EBADF;
    };
    match store.inodes().attr(block.inode) {
        None => Errno::EBADF,
        Some(attr) if attr.attribute.kind == Kind::Directory => Errno::EINVAL,
        Some(_) => Errno::ESPIPE,
    }
}

/// Takes an open control block of a user away (C Library Reference: `close`): the calls that wait over it are answered, and
/// those whom that concerns; what was open with it goes, with its pipe, where nothing names that and nothing else has it
/// open. EBADF without a block of the manager's own kind of inode or of a directory.
pub fn close(
    shared: &mut Shared,
    store: &mut Store,
    device: Option<Device>,
    number: u16,
    moment: u64,
) -> Result<(), Errno>
    requires user { store.old.stored.user < length shared.old.pipes }
    ensures user { store.new.stored.user ≡ store.old.stored.user }
    ensures done { (r : Resources) → result ≡ done_of (defaults.free_block (kind_with device) (seen r store.old.stored shared.old) number moment) }
    ensures left { (r : Resources) → Follows store.old.stored shared.old store.new.stored shared.new r (defaults.free_block (kind_with device) (seen r store.old.stored shared.old) number moment) }
{
    let user = store.user();
    let closed = store.close(kind_of(device), number)?;
    if shared.has_pipe(user, closed.inode) {
        let sides = store.inodes().sides(closed.inode);
        let filled = qx_pipe::pipe::release(shared, user, closed.inode, number, sides);
        set_size(shared, store, closed.inode, filled, moment);
        remove(shared, user, closed.inode, closed.is_gone);
    }
    Ok(())
}

/// A thread's call is asked to unblock: if it waits in a pipe, it is answered EINTR, unless it is served as the pipe is
/// cleaned before, and others may be served then (Writing a Resource Manager: the unblock pulse). Tells whether it waited.
/// Where it waits over its open control block's pipe, no other pipe is looked at.
pub fn cancel(
    shared: &mut Shared,
    store: &mut Store,
    thread: Thread,
    call: u64,
    moment: u64,
) -> bool
    requires own { store.old.stored.user ≡ thread.proc.user.0 }
    requires user { store.old.stored.user < length shared.old.pipes }
    ensures user { store.new.stored.user ≡ store.old.stored.user }
    ensures waited { (r : Resources) → result ≡ is_ok (machine.cancel_call (seen r store.old.stored shared.old) thread.proc.num thread.tid call moment) }
    ensures left { (r : Resources) → Follows store.old.stored shared.old store.new.stored shared.new r (machine.cancel_call (seen r store.old.stored shared.old) thread.proc.num thread.tid call moment) }
{
    let user = thread.proc.user;
    let Some(inode) = holder(shared, store.inodes(), thread, call) else {
        return false;
    };
    let filled = qx_pipe::pipe::cancel(shared, user, inode, thread.proc.num, thread.tid, call);
    set_size(shared, store, inode, filled, moment);
    true
}

/// The inode of the pipe in which a call of a thread waits; that which its block has open is looked at before all others.
pub fn holder(shared: &Shared, inodes: &Inodes, thread: Thread, call: u64) -> Option<u32>
    ensures { result ≡ position (holds (is_call thread.proc.num thread.tid call)) (pipes_of shared.now thread.proc.user.0) }
{
    let number = shared.waits(thread, call)?;
    if let Some(block) = inodes.block(number) {
        if shared.is_waiting(thread, call, block.inode) {
            return Some(block.inode);
        }
    }
    'pipes: for inode in 0..=Limits::INODES as u32 {
        if shared.is_waiting(thread, call, inode) {
            return Some(inode);
        }
    }
    None
}

// Whether bytes went in by a WRITE of these that is replied so.
fn is_filled(bytes: &[u8], status: u64) -> bool
    ensures { result ≡ is_written bytes.now (TheReply status []) }
{
    !bytes.is_empty() && status != 0
}

// Takes away the pipe of an inode that is gone, if one stands there.
pub(crate) fn remove(shared: &mut Shared, user: User, inode: u32, is_gone: bool)
    ensures { shared.new ≡ (if is_gone then with_row_at shared.old user.0 inode None else shared.old) }
{
    if !is_gone {
        return;
    }
    if shared.has_pipe(user, inode) {
        shared.remove_pipe(user, inode);
    }
}

// How a message over a block is done.
fn manner(has_other_side: bool, block: &Ocb, is_asked: bool) -> Manner
    ensures { result ≡ record { has_other_side = has_other_side; is_nonblock = has block.now.flags NONBLOCK; is_asked = is_asked } }
{
    Manner {
        has_other_side,
        is_nonblock: block.flags.contains(OFlags::NONBLOCK),
        is_asked,
    }
}

// Gives a pipe's inode the size of the pipe, and where bytes went in the times of that.
fn set_size(shared: &Shared, store: &mut Store, inode: u32, filled: bool, moment: u64)
    ensures { store.new ≡ record store.old { stored = record store.old.stored { inodes = record store.old.stored.inodes { attributes = with_row store.old.stored.inodes.attributes inode (sized (length (pipe_at shared.now store.old.stored.user inode).bytes) filled moment) } } } }
{
    let size = shared.pipe_len(store.user(), inode) as u64;
    store.set_size(inode, size, filled, moment);
}
