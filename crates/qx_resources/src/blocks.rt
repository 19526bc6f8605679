//! What both managers do alike with what is open, and with what a path leads to.

ghost use Rattle.std.specs.Prelude.{◌≡◌, ℕ, [], IfOk, IsTrue, OnErr};
ghost use Rattle.qx_iofunc.specs.Given as given;
ghost use Rattle.qx_machine.specs.Functions.{function_deed};
ghost use Rattle.qx_machine.specs.Managers.{ram_connect, ram_io};
ghost use Rattle.qx_machine.specs.Resources as machine;
ghost use Rattle.qx_machine.specs.Wants.{got_events, is_done_so};
ghost use Rattle.qx_machine.specs.declared.rows.Effect.TheVariants.{Opens};
ghost use Rattle.qx_resmgr.specs.Deeds.{Did, IsReplied};
ghost use Rattle.qx_resources.specs.State as kept;
ghost use Rattle.qx_resources.specs.State.{HasUser};
ghost use Rattle.qx_resources.specs.inner.State.{IsCallerReceived};
ghost use Rattle.qx_resources.specs.declared.tables.Tables.{Tables as AllTables};

use crate::resources::Resources;
use crate::tables::Tables;
use qx_attr::Status;
use qx_machine::{Effect, Event, NewDup, Opened, PulseWish};
use qx_resmgr::Done;
use qx_rows::Reply;
use qx_types::{Coid, Errno, LimitName, NotifyAction};
use qx_wire::Rest;
use std::alloc::AllocError;

/// What an open came to: its connection has the block (C Library Reference: `open`).
pub fn opened(coid: Coid, block: u16) -> Done
    ensures { result ≡ Done.Reply coid.0 (Opens coid block) }
{
    Done::Reply {
        status: coid.0 as u64,
        effect: Effect::Opens { coid, block },
    }
}

/// Gives a new connection what an old one has open (C Library Reference: `dup`).
pub fn dup(state: &mut Resources, dup: Result<NewDup, Errno>) -> Result<Done, Errno>
    ensures did { (tables : AllTables) → Did kept.state state.old tables state.new tables [] result (function_deed ram_io.dup dup (λ f dup. f (kept.told state.old tables) dup)) }
    ensures replied { IsReplied result }
{
    let NewDup { coid, old } = dup?;
    state.store.dup(old.number)?;
    Ok(opened(coid, old.number))
}

/// Puts the bytes of a status into a reply, whose own status is 0.
fn tell(status: Result<Status, Errno>, reply: &mut Reply) -> Result<u64, Errno>
    requires empty { reply.old ≡ [] }
    ensures told { (r : machine.Resources) → given.number_replied reply.new r result ≡ given.status_told r status }
    ensures kept { OnErr result (reply.new ≡ []) }
{
    reply.push(status?.as_slice());
    Ok(0)
}

/// Tells the status of what a path leads to (C Library Reference: `stat`).
pub fn stat(
    state: &Resources,
    root: Result<u32, Errno>,
    rest: &Rest<'_>,
    reply: &mut Reply,
) -> Result<Done, Errno>
    requires empty { reply.old ≡ [] }
    ensures did { (tables : AllTables) (moment : ℕ) → Did kept.state state.now tables state.now tables reply.new result (function_deed ram_connect.stat root (λ f root. f (kept.told state.now tables) root rest.now moment)) }
    ensures replied { IsReplied result }
{
    tell(state.store.stat(root?, rest), reply).map(Done::keeps)
}

/// Tells the status of what is open (C Library Reference: `fstat`).
#[inline(always)]
pub fn fstat(
    state: &Resources,
    opened: Result<Opened, Errno>,
    reply: &mut Reply,
) -> Result<Done, Errno>
    requires empty { reply.old ≡ [] }
    ensures did { (tables : AllTables) → Did kept.state state.now tables state.now tables reply.new result (function_deed ram_io.fstat opened (λ f o. f (kept.told state.now tables) o)) }
    ensures replied { IsReplied result }
{
    tell(state.store.fstat(opened?), reply).map(Done::keeps)
}

/// Tells the names of a directory that is open, behind one (C Library Reference: `readdir`).
pub fn list(
    state: &Resources,
    opened: Result<Opened, Errno>,
    after: &[u8],
    reply: &mut Reply,
) -> Result<Done, Errno>
    requires empty { reply.old ≡ [] }
    ensures did { (tables : AllTables) → Did kept.state state.now tables state.now tables reply.new result (function_deed ram_io.list opened (λ f o. f (kept.told state.now tables) o after.now)) }
    ensures replied { IsReplied result }
{
    state.store.list(opened?, after, reply).map(Done::keeps)
}

/// Sets the mode of what is open (C Library Reference: `fchmod`).
pub fn chmod(state: &mut Resources, opened: Result<Opened, Errno>, mode: u16) -> Result<Done, Errno>
    ensures did { (tables : AllTables) → Did kept.state state.old tables state.new tables [] result (function_deed ram_io.chmod opened (λ f o. f (kept.told state.old tables) o mode)) }
    ensures replied { IsReplied result }
{
    state.store.chmod(opened?, mode).map(|_| Done::keeps(0))
}

/// Tells which wanted conditions hold of what is open, and arms an event or takes away what its block had armed (C Library
/// Reference: `ionotify`; `iofunc_notify`).
pub fn notify(
    state: &Resources,
    tables: &mut Tables,
    opened: Result<Opened, Errno>,
    action: NotifyAction,
    wish: PulseWish,
) -> Result<Result<Done, Errno>, AllocError>
    requires fits { HasUser state.now tables.old }
    requires ready { IfOk opened (λ o. IsCallerReceived state.now tables.old o) }
    ensures did { IfOk result (λ given. Did kept.state state.now tables.old state.now tables.new [] given (function_deed ram_io.notify opened (λ f o. f (kept.told state.now tables.old) o action wish))) }
    ensures replied { IfOk result IsReplied }
    ensures err { OnErr result (tables.new ≡ tables.old) }
    ensures wanted { OnErr result (IsTrue (is_done_so got_events (kept.told state.now tables.old) (function_deed ram_io.notify opened (λ f o. f (kept.told state.now tables.old) o action wish)))) }
{
    let opened = match opened {
        Ok(opened) => opened,
        Err(error) => return Ok(Err(error)),
    };
    let Some(block) = state.store.inodes().block(opened.number) else {
        return Ok(Err(Errno::EBADF));
    };
    let holding = state.conditions(tables, block.inode);
    let event = Event {
        process: opened.process,
        block: opened.number,
        conditions: wish.conditions,
        code: wish.code,
        value: wish.value,
    };
    let most = state.store.limits().get(LimitName::Events);
    let told = tables
        .events
        .notify(most, state.store.user(), action, event, holding)?;
    Ok(told.map(Done::keeps))
}
