//! How open control blocks go: as the last connection that has one is closed, and with a client that is gone.

ghost use Rattle.std.specs.Prelude.{◌≡◌, [], Some};
ghost use Rattle.qx_machine.specs.Defaults as defaults;
ghost use Rattle.qx_machine.specs.Functions.{function_deed};
ghost use Rattle.qx_machine.specs.Managers as managers;
ghost use Rattle.qx_machine.specs.Managers.{own_kind};
ghost use Rattle.qx_machine.specs.Settling.{is_living};
ghost use Rattle.qx_machine.specs.declared.rows.Effect.TheVariants.{Closes};
ghost use Rattle.qx_resmgr.specs.Deeds.{Did, IsReplied};
ghost use Rattle.qx_resources.specs.Disconnects.{disconnected};
ghost use Rattle.qx_resources.specs.State as kept;
ghost use Rattle.qx_resources.specs.State.{HasUser};
ghost use Rattle.qx_resources.specs.inner.State.{AreLeft, Came};

use crate::resources::Resources;
use crate::tables::Tables;
use qx_clients::Processes;
use qx_machine::{Client, Effect, Kind, Opened};
use qx_resmgr::Done;
use qx_types::{Coid, Errno, Manager};

/// Takes a connection away, and with the last one that has it what was open (C Library Reference: `close`; Writing a Resource
/// Manager: `iofunc_close_dup`).
pub fn close(
    state: &mut Resources,
    tables: &mut Tables,
    manager: Manager,
    opened: Result<Opened, Errno>,
) -> Result<Done, Errno>
    requires fits { HasUser state.old tables.old }
    ensures did { Did kept.state state.old tables.old state.new tables.new [] result (function_deed (Some (defaults.close_dup (own_kind manager))) opened (λ f o. f (kept.told state.old tables.old) o)) }
    ensures replied { IsReplied result }
{
    let opened = opened?;
    if state.store.close_dup(opened.number) {
        return Ok(closed(opened.coid));
    }
    close_ocb(state, tables, manager, opened.number, opened.moment)?;
    Ok(closed(opened.coid))
}

/// That a connection goes.
fn closed(coid: Coid) -> Done
    ensures { result ≡ Done.Reply 0 (Closes coid) }
{
    Done::Reply {
        status: 0,
        effect: Effect::Closes(coid),
    }
}

/// Takes an open control block of a manager away, with the event that it had armed (Writing a Resource Manager:
/// `iofunc_close_ocb`, `iofunc_notify_remove`). EBADF without a block of the manager's own kind of inode.
fn close_ocb(
    state: &mut Resources,
    tables: &mut Tables,
    manager: Manager,
    number: u16,
    moment: u64,
) -> Result<(), Errno>
    requires fits { HasUser state.old tables.old }
    ensures { Came state.old tables.old state.new tables.new result (defaults.close_ocb (own_kind manager) (kept.told state.old tables.old) number moment) }
{
    free_block(state, tables, manager, number, moment)?;
    tables.events.disarm(state.store.user(), number);
    Ok(())
}

/// Takes an open control block of a manager away, and its event stays (C Library Reference: `close`).
fn free_block(
    state: &mut Resources,
    tables: &mut Tables,
    manager: Manager,
    number: u16,
    moment: u64,
) -> Result<(), Errno>
    requires fits { HasUser state.old tables.old }
    ensures came { Came state.old tables.old state.new tables.new result (defaults.free_block (own_kind manager) (kept.told state.old tables.old) number moment) }
    ensures events { tables.new.events ≡ tables.old.events }
{
    let device = match manager {
        Manager::Ram => return state.store.close(Kind::File, number).map(|_| ()),
        Manager::Pipe => None,
        Manager::Device(device) => Some(device),
    };
    qx_pipes::close(&mut tables.shared, &mut state.store, device, number, moment)
}

/// With a client go the open control blocks that it still has, in order of making, but for those of another manager's kind of
/// inode.
fn close_client(state: &mut Resources, tables: &mut Tables, client: Client, moment: u64)
    requires fits { HasUser state.old tables.old }
    ensures { AreLeft state.old tables.old state.new tables.new (managers.close_client (kept.told state.old tables.old) client moment) }
{
    // So many of them stay.
    let mut kept = 0;
    'numbers: while let Some(number) = state.store.inodes().of_client(client, kept) {
        if close_ocb(state, tables, client.server.manager, number, moment).is_err() {
            kept += 1;
        }
    }
}

impl Resources {
    /// With a client that is gone go the open control blocks that it still has, in order of making, as its disconnect pulse is
    /// performed, and events that are due by that give their pulses (Writing a Resource Manager: a client that terminates;
    /// C Library Reference: `iofunc_notify_trigger`).
    pub fn disconnect(
        &mut self,
        all: &mut Tables,
        processes: &Processes,
        client: Client,
        moment: u64,
    )
        requires fits { HasUser self.old all.old }
        ensures user { self.new.user ≡ self.old.user }
        ensures state { kept.told self.new all.new ≡ (disconnected (is_living processes.now) (kept.told self.old all.old) client moment).state }
        ensures shared { all.new ≡ (let deed = disconnected (is_living processes.now) (kept.told self.old all.old) client moment in kept.shared self.old all.old deed.state deed.answers) }
    {
        if !all.events.has_armed(self.store.user()) {
            close_client(self, all, client, moment);
            return;
        }
        let before = self.all_conditions(all);
        close_client(self, all, client, moment);
        self.trigger_all(all, processes, before);
    }
}
