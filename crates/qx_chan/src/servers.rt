//! The disconnect nodes of server connections, which come with what a process attaches, and go into lines as pulses.

ghost use Rattle.std.specs.Prelude.{◌≡◌, ◌≤◌, IfSome, IsFalse, IsOk, IsTrue, OnOk, OnErr, Some};
ghost use Rattle.std.specs.List.{flat_map};
ghost use Rattle.std.specs.Option.{option_to_list};
ghost use Rattle.qx_types.specs.Configuration.{limits_of};
ghost use Rattle.qx_types.specs.Managers.{manager_number};
ghost use Rattle.qx_process.specs.Reads.{used_servers};
ghost use Rattle.qx_shared.specs.Shared.{HasThread, has_disconnect_node};
ghost use Rattle.qx_chan.specs.inner.Ending.{AllHaveNodes};
ghost use Rattle.qx_chan.specs.inner.Kept.{with_attached, with_lost, with_room};
ghost use Rattle.qx_chan.specs.Nodes.{attaches};

use qx_machine::{Over, ServerName, Target};
use qx_process::Process;
use qx_shared::Shared;
use qx_types::{Config, Manager, Proc};
use std::alloc::AllocError;

/// Makes room for the disconnect node of what a message goes over.
pub fn reserve(queues: &mut Shared, over: Over) -> Result<(), AllocError>
    ensures ok { OnOk result (queues.new ≡ with_room over queues.old) }
    ensures sure { IsFalse (attaches over) → IsOk result }
    ensures err { OnErr result (queues.new ≡ queues.old) }
{
    if let Over::Existing(_) = over {
        return Ok(());
    }
    queues.reserve(1)
}

/// A process has the disconnect node of the server connection that is in use, once its call has attached what the message goes
/// over. There is room for one.
pub fn attach(queues: &mut Shared, process: &Process, proc: Proc, target: Target)
    requires started { HasThread queues.old proc }
    requires room { IsTrue (attaches target.over) → 1 ≤ queues.old.room }
    ensures attached { queues.new ≡ with_attached proc (Some process.now) target queues.old }
{
    if let Over::Existing(_) = target.over {
        return;
    }
    if !process.is_served(target.manager) {
        return;
    }
    match queues.add_server(proc, target.manager) {
        Ok(()) => {}
        Err(_) => unreachable!(),
    }
}

/// The disconnect pulses of a process that ends, one for each server connection that it uses, go into their managers' lines.
pub fn disconnect_all(queues: &mut Shared, config: &Config, proc: Proc, process: &Process)
    requires there { AllHaveNodes queues.old proc (used_servers process.now) }
    ensures disconnected { queues.new ≡ with_lost (limits_of config.now proc.user.0).disconnect proc (flat_map option_to_list (used_servers process.now)) queues.old }
{
    for number in 0..Manager::count() {
        if let Some(manager) = Manager::of_number(number) {
            disconnect(queues, config, proc, process.used_server(manager));
        }
    }
}

/// The disconnect pulse of a process that has lost a server connection goes into its manager's line, with the priority that
/// is configured for the user (Writing a Resource Manager: `_PULSE_CODE_DISCONNECT`).
#[inline(always)]
pub fn disconnect(queues: &mut Shared, config: &Config, proc: Proc, lost: Option<ServerName>)
    requires there { IfSome lost (λ server. IsTrue (has_disconnect_node queues.old proc (manager_number server.manager))) }
    ensures disconnected { queues.new ≡ with_lost (limits_of config.now proc.user.0).disconnect proc (option_to_list lost) queues.old }
{
    if let Some(server) = lost {
        queues.disconnect(proc, server, config.disconnect_prio(proc.user));
    }
}
