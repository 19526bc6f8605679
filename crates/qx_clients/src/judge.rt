//! How a call of a thread is judged, by the mounts and the processes of its user.

ghost use Rattle.std.specs.Prelude.{◌≡◌, ◌<◌, ◌≤◌, IsTrue, IfOk, None, Some, if◌then◌else◌, option_map, true};
ghost use Rattle.qx_types.specs.declared.limits.TheConstants.Limits.{CONNECTIONS, LAST_CONNECTION};
ghost use Rattle.qx_wire.specs.Rests.{is_rest};
ghost use Rattle.qx_paths.specs.Mounts.{mounts_of};
ghost use Rattle.qx_machine.specs.declared.rows.State.TheVariants.{Ready};
ghost use Rattle.qx_machine.specs.Calls as calls;
ghost use Rattle.qx_machine.specs.declared.rows.Content.TheVariants.{Spelled};
ghost use Rattle.qx_wire.specs.declared.message.Message.TheVariants as msg;
ghost use Rattle.qx_machine.specs.Calls.{Connects, ConnectsBoth, Opens, can_send, content_of};
ghost use Rattle.qx_machine.specs.Clients as clients;
ghost use Rattle.qx_isolation.specs.Judgements.{or_refused};
ghost use Rattle.qx_machine.specs.Parts.{thread_of};
ghost use Rattle.qx_isolation.specs.Rows.{row_at};
ghost use Rattle.qx_process.specs.Reads.{CanCall, CanGo, IsPriority, is_served};
ghost use Rattle.qx_clients.specs.Calls.{CanAttachAt};
ghost use Rattle.qx_clients.specs.Targets.{HasRest};
ghost use Rattle.qx_clients.specs.inner.Targets.{IsConnection};

use crate::content::is_in_ranges;
use crate::processes::Processes;
use crate::refusal::Refusal;
use qx_machine::{Addressed, Connection, Over, Target};
use qx_paths::{Mounts, Path, Resolved, read_path};
use qx_process::{Process, ThreadCell};
use qx_types::{Coid, Config, Errno, LimitName, Limits, Prio, Request, Thread, User};

/// Where a call of a thread goes, by the mounts and the processes of its user, or the outcome of one that sends nothing:
/// `WrongState` where the thread is not there or not ready; then EINVAL for fields out of their ranges, EAGAIN where the
/// thread's calls are used up; for a path, the errors of `read_path`, then those of `Mounts::resolve`, and for a second path
/// the same, then EXDEV where it leads to another mount; for a connection,
/// EBADF where it is not there; EMFILE where no connection is free for a new one; EAGAIN where the user has all its server
/// connections at the manager. What is judged so can be sent, and what it goes over can be attached.
pub fn target_by<'a>(
    config: &Config,
    mounts: &Mounts,
    processes: &Processes,
    thread: Thread,
    request: &'a Request,
) -> Result<Addressed<'a>, Refusal>
    ensures ready { IfOk result (λ _. option_map (λ row. row.state) (thread_of thread.tid (row_at processes.now thread.proc.num)) ≡ Some Ready) }
    ensures countable { IfOk result (λ _. CanCall (thread_of thread.tid (row_at processes.now thread.proc.num))) }
    ensures goes { IfOk result (λ addressed. CanGo addressed.target) }
    ensures sendable { IfOk result (λ addressed. IsTrue (can_send (content_of request.now addressed.rest addressed.to))) }
    ensures rest { IfOk result (λ addressed. HasRest addressed.target.over addressed.rest addressed.to) }
    ensures place { IfOk result (λ addressed. CanAttachAt (row_at processes.now thread.proc.num) addressed.target) }
    ensures target { result ≡ clients.target_by config.now thread.proc.user.0 (mounts_of mounts.now thread.proc.user.0) processes.now thread request.now }
{
    let Some(process) = processes.process(thread.proc.num) else {
        return Err(Refusal::wrong_state());
    };
    let Some(cell) = process.thread(thread.tid) else {
        return Err(Refusal::wrong_state());
    };
    may_call(cell, request)?;
    let prio = cell.prio();
    match request {
        Request::OpenPath { path, .. }
        | Request::StatPath { path }
        | Request::Unlink { path }
        | Request::Mkdir { path, .. } => {
            let is_opened = matches!(request, Request::OpenPath { .. });
            let path = path.as_slice();
            Ok(by_path(
                config, mounts, processes, process, thread, path, is_opened, prio,
            )?)
        }
        Request::Rename { from, to } => {
            let (from, to) = (from.as_slice(), to.as_slice());
            Ok(by_paths(config, mounts, processes, process, thread, from, to, prio)?)
        }
        Request::Dup { coid } => {
            let connection = connection_at(process, *coid)?;
            let limits = config.limits(thread.proc.user);
            let other = Coid(free_connection(limits.get(LimitName::Connections), process)?);
            Ok(to_connection(connection, Over::New(other), prio))
        }
        Request::Read { coid, .. }
        | Request::Write { coid, .. }
        | Request::Close { coid }
        | Request::Seek { coid, .. }
        | Request::Fstat { coid }
        | Request::List { coid, .. }
        | Request::Chmod { coid, .. }
        | Request::Notify { coid, .. }
        | Request::Notify64 { coid, .. }
        | Request::Raw { coid, .. } => {
            let connection = connection_at(process, *coid)?;
            Ok(to_connection(connection, Over::Existing(*coid), prio))
        }
    }
}

/// A message of a thread to where a path leads: over a new connection where the path is opened, and else over a side
/// connection. A function of its own, so that no other call clears places for it.
#[inline(never)]
fn by_path<'a>(
    config: &Config,
    mounts: &Mounts,
    processes: &Processes,
    process: &Process,
    thread: Thread,
    path: &'a [u8],
    is_opened: bool,
    prio: Prio,
) -> Result<Addressed<'a>, Refusal>
    requires there { Some process.now ≡ row_at processes.now thread.proc.num }
    requires priority { IsPriority prio.0 }
    ensures goes { IfOk result (λ addressed. CanGo addressed.target) }
    ensures good { IfOk result (λ addressed. is_rest addressed.rest ≡ true) }
    ensures rest { IfOk result (λ addressed. HasRest addressed.target.over addressed.rest addressed.to) }
    ensures place { IfOk result (λ addressed. CanAttachAt (row_at processes.now thread.proc.num) addressed.target) }
    ensures target { result ≡ calls.target_at config.now thread.proc.user.0 (mounts_of mounts.now thread.proc.user.0) processes.now process.now prio (if is_opened then Opens path.now else Connects path.now) }
{
    let place = place_of(config, thread.proc.user, mounts, path)?;
    let limits = config.limits(thread.proc.user);
    let over = if is_opened {
        Over::New(Coid(free_connection(limits.get(LimitName::Connections), process)?))
    } else {
        Over::Side
    };
    let servers = limits.get(LimitName::Servers);
    let none = Path::empty();
    Ok(to_place(servers, processes, process, place, none, over, prio)?)
}

/// A message of a thread to where two paths lead, which have to lead to one mount, over a side connection.
#[inline(never)]
fn by_paths<'a>(
    config: &Config,
    mounts: &Mounts,
    processes: &Processes,
    process: &Process,
    thread: Thread,
    path: &'a [u8],
    to: &'a [u8],
    prio: Prio,
) -> Result<Addressed<'a>, Refusal>
    requires there { Some process.now ≡ row_at processes.now thread.proc.num }
    requires priority { IsPriority prio.0 }
    ensures goes { IfOk result (λ addressed. CanGo addressed.target) }
    ensures sendable { IfOk result (λ addressed. IsTrue (can_send (Spelled (msg.Rename (addressed.rest, addressed.to))))) }
    ensures rest { IfOk result (λ addressed. HasRest addressed.target.over addressed.rest addressed.to) }
    ensures place { IfOk result (λ addressed. CanAttachAt (row_at processes.now thread.proc.num) addressed.target) }
    ensures target { result ≡ calls.target_at config.now thread.proc.user.0 (mounts_of mounts.now thread.proc.user.0) processes.now process.now prio (ConnectsBoth path.now to.now) }
{
    let place = place_of(config, thread.proc.user, mounts, path)?;
    let other = place_of(config, thread.proc.user, mounts, to)?;
    if place.root != other.root {
        return Err(Refusal::refused(Errno::EXDEV));
    }
    let servers = config.limits(thread.proc.user).get(LimitName::Servers);
    let (to, over) = (other.rest, Over::Side);
    Ok(to_place(servers, processes, process, place, to, over, prio)?)
}

/// Whether a thread may make a call with these fields.
fn may_call(thread: &ThreadCell, request: &Request) -> Result<(), Refusal>
    ensures { result ≡ calls.may_call thread.now request.now }
{
    if !thread.is_ready() {
        return Err(Refusal::wrong_state());
    }
    if !is_in_ranges(request) {
        return Err(Refusal::refused(Errno::EINVAL));
    }
    if thread.calls() >= Limits::CALLS {
        return Err(Refusal::refused(Errno::EAGAIN));
    }
    Ok(())
}

/// Where a path leads a user.
fn place_of<'a>(
    config: &Config,
    user: User,
    mounts: &Mounts,
    path: &'a [u8],
) -> Result<Resolved<'a>, Refusal>
    ensures rest { IfOk result (λ place. is_rest place.rest ≡ true) }
    ensures place { result ≡ or_refused (calls.place_of config.now user.0 (mounts_of mounts.now user.0) path.now) }
{
    let path = read_path(path).map_err(Refusal::refused)?;
    let place = mounts
        .resolve(config, user, &path)
        .map_err(Refusal::refused)?;
    place.rest.know();
    Ok(place)
}

/// A message to where a path leads, of a user who may have so many server connections at a manager, with what another path
/// has behind the same mount, or nothing.
fn to_place<'a>(
    servers: usize,
    processes: &Processes,
    process: &Process,
    place: Resolved<'a>,
    to: Path<'a>,
    over: Over,
    prio: Prio,
) -> Result<Addressed<'a>, Refusal>
    ensures { result ≡ calls.to_place servers processes.now process.now place.entry to.entry over prio }
{
    if !processes.can_serve(servers, process, place.manager) {
        return Err(Refusal::refused(Errno::EAGAIN));
    }
    Ok(Addressed {
        target: Target {
            manager: place.manager,
            root: Some(place.root),
            over,
            prio,
        },
        rest: place.rest,
        to,
    })
}

/// A message to what a connection has open.
fn to_connection<'a>(connection: Connection, over: Over, prio: Prio) -> Addressed<'a>
    ensures { result ≡ calls.to_connection connection over prio }
{
    Addressed {
        target: Target {
            manager: connection.manager,
            root: None,
            over,
            prio,
        },
        rest: Path::empty(),
        to: Path::empty(),
    }
}

/// A connection that is there, which has a number from 3 to 66.
fn connection_at(process: &Process, coid: Coid) -> Result<Connection, Refusal>
    ensures number { IfOk result (λ _. IsConnection coid.0) }
    ensures served { IfOk result (λ connection. is_served connection.manager process.now ≡ true) }
    ensures connection { result ≡ calls.connection_at coid.0 process.now }
{
    let number = usize::from(coid.0);
    if number < Limits::FIRST_CONNECTION || number > Limits::LAST_CONNECTION {
        return Err(Refusal::refused(Errno::EBADF));
    }
    match process.conn_of(coid) {
        Some(connection) => Ok(*connection),
        None => Err(Refusal::refused(Errno::EBADF)),
    }
}

/// The number of a connection that is free, of a process that may have so many.
fn free_connection(most: usize, process: &Process) -> Result<u8, Refusal>
    requires few { most ≤ CONNECTIONS }
    ensures number { IfOk result (λ coid. coid ≤ LAST_CONNECTION) }
    ensures unused { IfOk result (λ coid. row_at process.now.connections coid ≡ None) }
    ensures free { result ≡ calls.free_connection most process.now }
{
    let number = process.free_connection();
    if number >= Limits::FIRST_CONNECTION + most {
        return Err(Refusal::refused(Errno::EMFILE));
    }
    Ok(number as u8)
}
