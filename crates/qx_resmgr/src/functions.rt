ghost use Rattle.std.specs.Prelude.{◌≡◌, ◌≤◌, ℕ, Bool, List, Result, false, true, [], Err, IfOk, IsOk, IsSome, IsTrue, OnErr, length};
ghost use Rattle.qx_types.specs.declared.limits.TheConstants.Limits.{TRANSFER};
ghost use Rattle.qx_base.specs.declared.errno.Errno.{Errno};
ghost use Rattle.qx_base.specs.declared.errno.Errno.TheVariants.{ENOSYS};
ghost use Rattle.qx_wire.specs.Rests.{is_rest};
ghost use Rattle.qx_machine.specs.declared.rows.Effect.TheVariants.{Keeps};
ghost use Rattle.qx_machine.specs.declared.rows.Opened.{Opened};
ghost use Rattle.qx_machine.specs.Functions.{ConnectFunctions, IoFunctions, function_deed, no_connect, no_io};
ghost use Rattle.qx_machine.specs.Wants.{is_done_so};
ghost use Rattle.qx_resmgr.specs.Deeds.{Did, HasRoomAfter, IsReplied};

use crate::state::State;
use qx_machine::{Effect, NewDup, NewOpen, Opened, PulseWish, Wish};
use qx_rows::{Reply, Room};
use qx_types::{Errno, NotifyAction, Whence};
use qx_wire::Rest;
use std::alloc::AllocError;

/// What a message came to.
#[derive(Clone, Copy, Debug, PartialEq, Eq)]
pub enum Done {
    /// The status of its reply, and what becomes of its connection.
    Reply { status: u64, effect: Effect },
    /// It is left without a reply, and answered later (Writing a Resource Manager: `_RESMGR_NOREPLY`).
    NoReply,
}

impl Done {
    /// What leaves the connection as it is.
    pub fn keeps(status: u64) -> Done
        ensures done { result ≡ Done.Reply status Keeps }
    {
        Done::Reply {
            status,
            effect: Effect::Keeps,
        }
    }
}

/// A manager's functions for messages to a path (Writing a Resource Manager: `resmgr_connect_funcs_t`), which work on what it
/// keeps for a user and on what all users share. Managers of one type are told apart by their values. A function is given
/// what its message came over, or the error if that is not what the message needs, and the moment; one whose reply may have
/// bytes puts them into `reply`. It always replies. An error leaves all as it was, and no bytes. Where memory is short, all
/// is as it was too, and the message would have been done.
pub trait Connect<S: State<W, T>, W, T> {
    /// What they mean. A function that is left out is `no_function()`.
    ghost connect: { Self → ConnectFunctions T } = { λ _. no_connect };

    /// Opens what a path leads to. It may want memory.
    fn open(
        &self,
        state: &mut S,
        waits: &mut W,
        over: Result<NewOpen, Errno>,
        rest: &Rest<'_>,
        wish: Wish,
    ) -> Result<Result<Done, Errno>, AllocError>
        requires fits { S.fits state.old waits.old }
        ensures did { IfOk result (λ given. Did S.State state.old waits.old state.new waits.new [] given (function_deed (connect self.now).«open» over (λ f over. f (S.told state.old waits.old) over rest.now wish))) }
        ensures replied { IfOk result IsReplied }
        ensures err { OnErr result ((state.new ≡ state.old) × (waits.new ≡ waits.old)) }
        ensures wanted { OnErr result (IsOk (function_deed (connect self.now).«open» over (λ f over. f (S.told state.old waits.old) over rest.now wish))) };

    /// Tells the status of what a path leads to.
    fn stat(
        &self,
        state: &mut S,
        waits: &mut W,
        root: Result<u32, Errno>,
        rest: &Rest<'_>,
        moment: u64,
        reply: &mut Reply,
    ) -> Result<Done, Errno>
        requires fits { S.fits state.old waits.old }
        requires empty { reply.old ≡ [] }
        ensures did { Did S.State state.old waits.old state.new waits.new reply.new result (function_deed (connect self.now).stat root (λ f root. f (S.told state.old waits.old) root rest.now moment)) }
        ensures replied { IsReplied result };

    /// Removes what a path leads to.
    fn unlink(
        &self,
        state: &mut S,
        waits: &mut W,
        root: Result<u32, Errno>,
        rest: &Rest<'_>,
        moment: u64,
    ) -> Result<Done, Errno>
        requires fits { S.fits state.old waits.old }
        ensures did { Did S.State state.old waits.old state.new waits.new [] result (function_deed (connect self.now).unlink root (λ f root. f (S.told state.old waits.old) root rest.now moment)) }
        ensures replied { IsReplied result };

    /// Gives what a path leads to another one, in the same mount.
    fn rename(
        &self,
        state: &mut S,
        waits: &mut W,
        root: Result<u32, Errno>,
        from: &Rest<'_>,
        to: &Rest<'_>,
        moment: u64,
    ) -> Result<Done, Errno>
        requires fits { S.fits state.old waits.old }
        requires good { is_rest to.now ≡ true }
        ensures did { Did S.State state.old waits.old state.new waits.new [] result (function_deed (connect self.now).rename root (λ f root. f (S.told state.old waits.old) root from.now to.now moment)) }
        ensures replied { IsReplied result };

    /// Makes a directory. It may want memory.
    fn mknod(
        &self,
        state: &mut S,
        waits: &mut W,
        root: Result<u32, Errno>,
        mode: u16,
        rest: &Rest<'_>,
        moment: u64,
    ) -> Result<Result<Done, Errno>, AllocError>
        requires fits { S.fits state.old waits.old }
        ensures did { IfOk result (λ given. Did S.State state.old waits.old state.new waits.new [] given (function_deed (connect self.now).mknod root (λ f root. f (S.told state.old waits.old) root mode rest.now moment))) }
        ensures replied { IfOk result IsReplied }
        ensures err { OnErr result ((state.new ≡ state.old) × (waits.new ≡ waits.old)) }
        ensures wanted { OnErr result (IsOk (function_deed (connect self.now).mknod root (λ f root. f (S.told state.old waits.old) root mode rest.now moment))) };
}

/// A manager's functions for messages over what is open (Writing a Resource Manager: `resmgr_io_funcs_t`), which work on
/// what it keeps for a user and on what all users share. A function is given what is open, with the moment, or the error
/// if nothing is, a dup the connection that its call made too; one whose reply may have bytes puts them into `reply`. A
/// read or a write may leave its message without a reply, and then takes `room`, memory for a reply that comes later;
/// else it leaves that as it was. The others always reply. An error leaves all as it was, and no bytes. Where memory is
/// short, all is as it was too, and the message would have been done.
pub trait Io<S: State<W, T>, W, T> {
    /// What they mean. A function that is left out is `no_function()`.
    ghost io: { Self → IoFunctions T } = { λ _. no_io };

    /// Which writes and notifications may want memory: by what is open, by the bytes that are written, none by a notification,
    /// and by the difference that they make to what the functions work on. Most managers' want none.
    ghost wants: { Self → Result Opened Errno → List ℕ → T → T → Bool } = { λ _ _ _ _ _. false };

    /// What a read, a write or a notification needs of the thread whose message it is. Most managers ask nothing.
    ghost ready: { S → W → Opened → Type 0 } = { λ _ _ _. Unit {0} };

    /// Reads at most `count` bytes.
    fn read(
        &self,
        state: &mut S,
        waits: &mut W,
        opened: Result<Opened, Errno>,
        count: u32,
        reply: &mut Reply,
        room: &mut Option<Room>,
    ) -> Result<Done, Errno>
        requires fits { S.fits state.old waits.old }
        requires ready { IfOk opened (λ o. ready state.old waits.old o) }
        requires room { IsSome room.old }
        requires empty { reply.old ≡ [] }
        requires count { count ≤ TRANSFER }
        ensures did { Did S.State state.old waits.old state.new waits.new reply.new result (function_deed (io self.now).read opened (λ f o. f (S.told state.old waits.old) o count)) }
        ensures room { HasRoomAfter room.old room.new result };

    /// Writes bytes.
    fn write(
        &self,
        state: &mut S,
        waits: &mut W,
        opened: Result<Opened, Errno>,
        bytes: &[u8],
        room: &mut Option<Room>,
    ) -> Result<Result<Done, Errno>, AllocError>
        requires fits { S.fits state.old waits.old }
        requires ready { IfOk opened (λ o. ready state.old waits.old o) }
        requires room { IsSome room.old }
        requires count { length bytes.now ≤ TRANSFER }
        ensures did { IfOk result (λ given. Did S.State state.old waits.old state.new waits.new [] given (function_deed (io self.now).write opened (λ f o. f (S.told state.old waits.old) o bytes.now))) }
        ensures room { IfOk result (λ given. HasRoomAfter room.old room.new given) }
        ensures err { OnErr result ((state.new ≡ state.old) × (waits.new ≡ waits.old) × (room.new ≡ room.old)) }
        ensures wanted { OnErr result (IsTrue (is_done_so (wants self.now opened bytes.now) (S.told state.old waits.old) (function_deed (io self.now).write opened (λ f o. f (S.told state.old waits.old) o bytes.now)))) };

    /// Takes a connection away, and its block with it where no other connection has that (Writing a Resource Manager:
    /// `iofunc_close_dup`).
    fn close(
        &self,
        state: &mut S,
        waits: &mut W,
        opened: Result<Opened, Errno>,
    ) -> Result<Done, Errno>
        requires fits { S.fits state.old waits.old }
        ensures did { Did S.State state.old waits.old state.new waits.new [] result (function_deed (io self.now).close opened (λ f o. f (S.told state.old waits.old) o)) }
        ensures replied { IsReplied result };

    /// Gives a connection that its call made the block of another (Writing a Resource Manager: `io_dup`).
    fn dup(&self, state: &mut S, waits: &mut W, dup: Result<NewDup, Errno>) -> Result<Done, Errno>
        requires fits { S.fits state.old waits.old }
        ensures did { Did S.State state.old waits.old state.new waits.new [] result (function_deed (io self.now).dup dup (λ f dup. f (S.told state.old waits.old) dup)) }
        ensures replied { IsReplied result };

    /// Sets the offset, in bytes.
    fn lseek(
        &self,
        state: &mut S,
        waits: &mut W,
        opened: Result<Opened, Errno>,
        whence: Whence,
        offset: i64,
    ) -> Result<Done, Errno>
        requires fits { S.fits state.old waits.old }
        ensures did { Did S.State state.old waits.old state.new waits.new [] result (function_deed (io self.now).lseek opened (λ f o. f (S.told state.old waits.old) o whence offset)) }
        ensures replied { IsReplied result };

    /// Tells the status of what is open.
    fn fstat(
        &self,
        state: &mut S,
        waits: &mut W,
        opened: Result<Opened, Errno>,
        reply: &mut Reply,
    ) -> Result<Done, Errno>
        requires fits { S.fits state.old waits.old }
        requires empty { reply.old ≡ [] }
        ensures did { Did S.State state.old waits.old state.new waits.new reply.new result (function_deed (io self.now).fstat opened (λ f o. f (S.told state.old waits.old) o)) }
        ensures replied { IsReplied result };

    /// Tells the names of a directory behind the name `after`, or the first ones if that is empty.
    fn list(
        &self,
        state: &mut S,
        waits: &mut W,
        opened: Result<Opened, Errno>,
        after: &[u8],
        reply: &mut Reply,
    ) -> Result<Done, Errno>
        requires fits { S.fits state.old waits.old }
        requires empty { reply.old ≡ [] }
        ensures did { Did S.State state.old waits.old state.new waits.new reply.new result (function_deed (io self.now).list opened (λ f o. f (S.told state.old waits.old) o after.now)) }
        ensures replied { IsReplied result };

    /// Sets the permission bits.
    fn chmod(
        &self,
        state: &mut S,
        waits: &mut W,
        opened: Result<Opened, Errno>,
        mode: u16,
    ) -> Result<Done, Errno>
        requires fits { S.fits state.old waits.old }
        ensures did { Did S.State state.old waits.old state.new waits.new [] result (function_deed (io self.now).chmod opened (λ f o. f (S.told state.old waits.old) o mode)) }
        ensures replied { IsReplied result };

    /// Tells which conditions hold of what is open, and arms an event or takes away what its block had armed (`io_notify`).
    fn notify(
        &self,
        state: &mut S,
        waits: &mut W,
        opened: Result<Opened, Errno>,
        action: NotifyAction,
        wish: PulseWish,
    ) -> Result<Result<Done, Errno>, AllocError>
        requires fits { S.fits state.old waits.old }
        requires ready { IfOk opened (λ o. ready state.old waits.old o) }
        ensures did { IfOk result (λ given. Did S.State state.old waits.old state.new waits.new [] given (function_deed (io self.now).notify opened (λ f o. f (S.told state.old waits.old) o action wish))) }
        ensures replied { IfOk result IsReplied }
        ensures err { OnErr result ((state.new ≡ state.old) × (waits.new ≡ waits.old)) }
        ensures wanted { OnErr result (IsTrue (is_done_so (wants self.now opened []) (S.told state.old waits.old) (function_deed (io self.now).notify opened (λ f o. f (S.told state.old waits.old) o action wish)))) };
}

/// The answer of a function that a manager leaves out: ENOSYS.
pub fn no_function() -> Result<Done, Errno>
    ensures { result ≡ Err ENOSYS }
{
    Err(Errno::ENOSYS)
}
