ghost use Rattle.std.specs.Prelude.{◌≡◌, [], IfOk, IsTrue, IsSome, OnErr};
ghost use Rattle.qx_wire.specs.Table.{in_ranges};
ghost use Rattle.qx_machine.specs.Functions as functions;
ghost use Rattle.qx_machine.specs.Functions.{message_deed};
ghost use Rattle.qx_machine.specs.Wants.{deed_wants_memory};
ghost use Rattle.qx_resmgr.specs.Deeds.{Did, HasRoomAfter};

use crate::functions::{Connect, Done, Io};
use crate::state::State;
use qx_machine::{Context, NewDup, NewOpen, Over, PulseWish, Target, Wish};
use qx_rows::{Reply, Room};
use qx_types::Errno;
use qx_wire::Message;
use std::alloc::AllocError;

/// Does what a message asks a manager for, by the function for it in one of the manager's two tables (Writing a Resource
/// Manager: `resmgr_handler`). ENOSYS where there is none; EINVAL where an open or a dup didn't come over a new
/// connection, or another message to a path not over a side connection; the error of the context's `opened`, for a dup
/// and a message over what is open; then the function's own errors. An error changes nothing. The bytes of the reply are
/// then in `reply`, none after an error; a message that is left without one took `room` along, and else that is as it
/// was. Only an open, a mknod and, of some managers, a write or a notification may want memory, and only where they would
/// be done.
pub fn serve<M: Connect<S, W, T> + Io<S, W, T>, S: State<W, T>, W, T>(
    manager: &M,
    state: &mut S,
    waits: &mut W,
    context: Context,
    message: Message<'_>,
    reply: &mut Reply,
    room: &mut Option<Room>,
) -> Result<Result<Done, Errno>, AllocError>
    requires fits { S.fits state.old waits.old }
    requires ready { IfOk context.opened (λ o. M.ready state.old waits.old o) }
    requires room { IsSome room.old }
    requires ranges { IsTrue (in_ranges message) }
    requires empty { reply.old ≡ [] }
    ensures did { IfOk result (λ given. Did S.State state.old waits.old state.new waits.new reply.new given (message_deed (M.connect manager.now) (M.io manager.now) (S.told state.old waits.old) context message.entry)) }
    ensures room { IfOk result (λ given. HasRoomAfter room.old room.new given) }
    ensures err { OnErr result ((state.new ≡ state.old) × (waits.new ≡ waits.old) × (room.new ≡ room.old)) }
    ensures wanted { OnErr result (IsTrue (deed_wants_memory (M.wants manager.now context.opened) (S.told state.old waits.old) message.entry (message_deed (M.connect manager.now) (M.io manager.now) (S.told state.old waits.old) context message.entry))) }
{
    let Context {
        target,
        opened,
        moment,
        ..
    } = context;
    let given = match message {
        Message::Open { flags, mode, rest } => {
            let wish = Wish {
                flags,
                mode,
                moment,
            };
            return manager.open(state, waits, new_open(context), &rest, wish);
        }
        Message::Mknod { mode, rest } => {
            return manager.mknod(state, waits, side_root(target), mode, &rest, moment);
        }
        Message::Write { bytes } => {
            return manager.write(state, waits, opened, bytes.as_slice(), room);
        }
        Message::Notify {
            action,
            conditions,
            code,
            value,
        } => {
            let wish = PulseWish {
                conditions,
                code,
                value,
            };
            return manager.notify(state, waits, opened, action, wish);
        }
        Message::Stat { rest } => manager.stat(
            state,
            waits,
            side_root(target),
            &rest,
            moment,
            reply,
        ),
        Message::Unlink { rest } => manager.unlink(state, waits, side_root(target), &rest, moment),
        Message::Rename { rests } => {
            let (from, to) = (rests.from(), rests.to());
            manager.rename(state, waits, side_root(target), &from, &to, moment)
        }
        Message::Read { count } => manager.read(state, waits, opened, count, reply, room),
        Message::Close => manager.close(state, waits, opened),
        Message::Dup { .. } => manager.dup(state, waits, new_dup(context)),
        Message::Lseek { whence, offset } => manager.lseek(state, waits, opened, whence, offset),
        Message::Fstat => manager.fstat(state, waits, opened, reply),
        Message::List { after } => manager.list(state, waits, opened, after.as_slice(), reply),
        Message::Chmod { mode } => manager.chmod(state, waits, opened, mode),
    };
    Ok(given)
}

/// What an open is given.
fn new_open(context: Context) -> Result<NewOpen, Errno>
    ensures { result ≡ functions.new_open context }
{
    let (Over::New(coid), Some(root)) = (context.target.over, context.target.root) else {
        return Err(Errno::EINVAL);
    };
    Ok(NewOpen {
        coid,
        client: context.client,
        root,
    })
}

/// What a dup is given.
fn new_dup(context: Context) -> Result<NewDup, Errno>
    ensures { result ≡ functions.new_dup context }
{
    let Over::New(coid) = context.target.over else {
        return Err(Errno::EINVAL);
    };
    let old = context.opened?;
    Ok(NewDup { coid, old })
}

/// The root of the mount of what else is sent to a path.
fn side_root(target: Target) -> Result<u32, Errno>
    ensures { result ≡ functions.side_root target }
{
    let (Over::Side, Some(root)) = (target.over, target.root) else {
        return Err(Errno::EINVAL);
    };
    Ok(root)
}
