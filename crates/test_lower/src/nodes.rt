//! A node of queues that is given back, and made again with no memory.

ghost use Rattle.std.specs.Prelude.{◌<◌, IfOk, OnOk};
ghost use Rattle.qx_queues.specs.Queues.{HasThreadNodes};

use qx_machine::ServerName;
use qx_queues::Queues;
use qx_types::{Manager, Prio, Proc, Thread, User};
use std::alloc::{AllocError, Global};
use test_all_memory::take_all_memory;

/// The queues of one user, with the nodes of the first thread of the user's first process.
fn with_thread(alloc: Global, thread: Thread) -> Result<Queues, AllocError>
    requires user { thread.proc.user.0 < 2 }
    requires process { thread.proc.num < 17 }
    requires thread { thread.tid < 5 }
    ensures { IfOk result (λ queues. HasThreadNodes queues thread.proc) }
{
    let mut queues = Queues::new(alloc, 1)?;
    queues.reserve(1)?;
    queues.add(thread, Prio(10));
    Ok(queues)
}

/// A process gets its disconnect node at a manager, which goes into the manager's line as its pulse, and is given back as that is
/// received.
fn take_and_give_back(queues: &mut Queues, proc: Proc) -> Result<(), AllocError>
    requires { HasThreadNodes queues.old proc }
    ensures { OnOk result (HasThreadNodes queues.new proc) }
{
    queues.add_server(proc, Manager::Ram)?;
    let server = ServerName {
        manager: Manager::Ram,
        number: 1,
    };
    queues.disconnect(proc, server, Prio(20));
    queues.receive(Manager::Ram);
    Ok(())
}

/// With all memory taken, whether a byte is refused while a process gets its disconnect node.
fn takes_without_memory(alloc: Global, queues: &mut Queues, proc: Proc) -> Result<bool, AllocError>
    requires { HasThreadNodes queues.old proc }
{
    let pieces = take_all_memory(alloc)?;
    let taken = queues.add_server(proc, Manager::Ram).is_ok();
    let byte: Result<Vec<u8>, AllocError> = Vec::with_capacity(alloc, 1);
    drop(pieces);
    Ok(taken && byte.is_err())
}

#[test]
fn a_disconnect_node_comes_back(rt: HostRuntime) -> Result<(), AllocError> {
    let proc = Proc {
        user: User(1),
        num: 1,
    };
    let mut queues = with_thread(rt.alloc(), Thread { proc, tid: 1 })?;
    take_and_give_back(&mut queues, proc)?;
    assert!(rt; takes_without_memory(rt.alloc(), &mut queues, proc)?);
    Ok(())
}
