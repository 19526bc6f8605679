//! The bed on trial: several threads of it flood the ward.

use crate::caller::{Caller, Fault, path_of};
use crate::commands::bytes_of;
use crate::plan::TRIAL_PRIORITY;
use crate::ward::{Stage, Ward, pumps};
use qx_devices::pump::Command;
use qx_pool::{CallEnd, UnderLock};
use qx_types::{Bytes, Coid, Manager, OFlags, Outcome, Prio, Proc, Request, Step, User};
use std::alloc::{AllocError, Global};
use std::sync::Wait;
use std::sync::atomic::Ordering;
use std::thread;

/// How many threads flood.
pub const FLOODERS: u8 = 4;

/// A thread interrupts so many calls, makes so many others, ends its process and starts anew.
const CALLS: u32 = 64;

/// How often a thread looks for the answer of a call that it interrupted.
const LOOKS: u32 = 1_000;

/// What is left of a thread's process.
#[derive(Clone, Copy, PartialEq, Eq)]
enum Found {
    There,
    Gone,
}

/// Floods while that is the stage, and waits before it.
pub fn flood<'s, S: UnderLock, R: Wait>(
    rt: &R,
    alloc: Global,
    ward: &'s Ward<S>,
    caller: Caller<'s, S>,
) -> (Caller<'s, S>, Result<(), Fault>) {
    let mut caller = caller;
    let mut lives: u32 = 0;
    ward.wait_for_flood(rt);
    for _ in rt.forever() {
        if ward.stage() == Stage::Over {
            return (caller, Ok(()));
        }
        lives = lives.wrapping_add(1);
        match start(rt, &mut caller, lives) {
            Ok(Some(num)) => caller = caller.of(num),
            Ok(None) => {
                thread::yield_now();
                continue;
            }
            Err(fault) => return (caller, Err(fault)),
        }
        if let Err(fault) = live(rt, alloc, ward, &mut caller) {
            return (caller, Err(fault));
        }
    }
    unreachable!()
}

/// Starts a process with the highest priority that the bed may have. Where there can be no further one, one of the bed's ends, most
/// often another thread's.
fn start<S: UnderLock, R: Wait>(
    rt: &R,
    caller: &mut Caller<'_, S>,
    lives: u32,
) -> Result<Option<u8>, Fault> {
    let user = caller.thread().proc.user;
    let spawn = Step::Spawn {
        user,
        threads: 1,
        prio: TRIAL_PRIORITY,
    };
    if let Outcome::Spawned(num) = caller.step(rt, spawn)? {
        return Ok(Some(num));
    }
    let num = (lives % 4) as u8 + 1;
    caller.step(
        rt,
        Step::Exit {
            proc: Proc { user, num },
        },
    )?;
    Ok(None)
}

/// Attaches, interrupts, opens and calls what it can, and ends its process.
fn live<S: UnderLock, R: Wait>(
    rt: &R,
    alloc: Global,
    ward: &Ward<S>,
    caller: &mut Caller<'_, S>,
) -> Result<(), Fault> {
    let thread = caller.thread();
    let user = thread.proc.user;
    for (word, manager) in [
        ("pumps", pumps()?),
        ("pipes", Manager::Pipe),
        ("more", Manager::Pipe),
    ] {
        let path = path_of(alloc, user, word)?;
        let mount = Step::Mount {
            thread,
            path,
            manager,
        };
        caller.step(rt, mount)?;
    }
    // more than its ceiling, which is refused
    caller.step(
        rt,
        Step::SetPrio {
            thread,
            prio: Prio(TRIAL_PRIORITY.0 + 1),
        },
    )?;
    for turn in 0..CALLS {
        if ward.stage() == Stage::Over {
            break;
        }
        let path = path_of(alloc, user, PLACES[(turn % 3) as usize])?;
        if interrupted(rt, ward, caller, Request::StatPath { path })? == Found::Gone {
            return Ok(());
        }
    }
    for word in ["pumps/1", "pipes/1", "log"] {
        let open = open_of(path_of(alloc, user, word)?);
        if call(rt, caller, open)? == Found::Gone {
            return Ok(());
        }
    }
    for turn in 0..CALLS {
        if ward.stage() == Stage::Over {
            break;
        }
        let request = next_request(alloc, user, turn)?;
        if call(rt, caller, request)? == Found::Gone {
            return Ok(());
        }
    }
    caller.step(rt, Step::Exit { proc: thread.proc })?;
    Ok(())
}

/// Makes a call, whatever its answer is.
fn call<S: UnderLock, R: Wait>(
    rt: &R,
    caller: &mut Caller<'_, S>,
    request: Request,
) -> Result<Found, Fault> {
    match caller.call(rt, request) {
        CallEnd::NoMemory => Err(Fault::NoMemory),
        CallEnd::Stopped(_) => Err(Fault::Stopped),
        CallEnd::WrongState => Ok(Found::Gone),
        CallEnd::Reply(..) | CallEnd::Failed(_) | CallEnd::Refused(_) => Ok(Found::There),
    }
}

/// Makes a call, interrupts it, and takes its answer. As nothing else of the process is attached to the manager, a disconnect pulse
/// goes there. Where no answer comes, the process is given up.
fn interrupted<S: UnderLock, R: Wait>(
    rt: &R,
    ward: &Ward<S>,
    caller: &mut Caller<'_, S>,
    request: Request,
) -> Result<Found, Fault> {
    let calling = caller.thread();
    let call = Step::Call {
        thread: calling,
        request,
    };
    ward.flood.fetch_add(1, Ordering::SeqCst);
    match caller.step(rt, call)? {
        Outcome::Sent => {}
        Outcome::Refused(_) => return Ok(Found::There),
        _ => return Ok(Found::Gone),
    }
    caller.step(rt, Step::Interrupt { thread: calling })?;
    for _ in 0..LOOKS {
        if caller.step(rt, Step::TakeReply { thread: calling })? != Outcome::WrongState {
            return Ok(Found::There);
        }
        thread::yield_now();
    }
    Ok(Found::Gone)
}

/// An open of what is made where it is not there. No call over it waits.
fn open_of(path: Bytes) -> Request {
    Request::OpenPath {
        path,
        flags: OFlags::READ | OFlags::WRITE | OFlags::CREAT | OFlags::NONBLOCK,
        mode: 0o600,
    }
}

/// One of the calls of the flood, of a process that has opened its pump, its pipe and its log as connections 3 to 5.
fn next_request(alloc: Global, user: User, turn: u32) -> Result<Request, AllocError> {
    let (pump, pipe, log) = (Coid(3), Coid(4), Coid(5));
    Ok(match turn % 16 {
        // commands that the pump's state does not allow, or that are none
        0 => write(pump, bytes_of(alloc, Command::Start)?),
        1 => write(pump, bytes_of(alloc, Command::Silence)?),
        2 => write(pump, Bytes::from_slice(alloc, &[(turn % 256) as u8, 9, 9])?),
        3 => write(pump, many(alloc)?),
        4 => write(pump, bytes_of(alloc, Command::Tick)?),
        5 => Request::Read {
            coid: pump,
            count: 4_096,
        },
        // a pipe and a log that are full
        6 | 7 => write(pipe, many(alloc)?),
        8 => Request::Read {
            coid: pipe,
            count: 100,
        },
        9 | 10 => write(log, many(alloc)?),
        // another bed's pump, more names than it may have, and connections that are not there
        11 => open_of(path_of(alloc, User(user.0.saturating_sub(1)), "pumps/1")?),
        12 => open_of(path_of(alloc, user, NAMES[(turn / 16 % 4) as usize])?),
        13 => Request::Close {
            coid: Coid((turn % 256) as u8),
        },
        // bytes that are no message, and such as are
        14 => Request::Raw {
            coid: pump,
            bytes: many(alloc)?,
        },
        _ => Request::Raw {
            coid: log,
            bytes: Bytes::from_slice(alloc, &[(turn / 16 % 256) as u8, 1, 0, 0, 1, 0, 0, 0, 9])?,
        },
    })
}

/// What lies below the bed's top, at each of its managers.
const PLACES: [&str; 3] = ["pumps", "pipes", "log"];

/// More names.
const NAMES: [&str; 4] = ["pumps/2", "pipes/2", "log/2", "log2"];

fn write(coid: Coid, bytes: Bytes) -> Request {
    Request::Write { coid, bytes }
}

/// As many bytes as a write may have.
fn many(alloc: Global) -> Result<Bytes, AllocError> {
    Ok(Bytes::from_vec(vec![in alloc; 9; 4_096]?))
}
