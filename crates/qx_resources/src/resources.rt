//! What the managers keep for a user, and what messages do to it.

ghost use Rattle.std.specs.Prelude.{◌≡◌, ◌≤◌, Ok, is_ok, IsSome, IsTrue, IfNone, IfOk, IfSome, OnErr, OnOk};
ghost use Rattle.qx_machine.specs.Inodes.{inode_number};
ghost use Rattle.qx_machine.specs.Mounting as mounting;
ghost use Rattle.qx_machine.specs.Performing as performing;
ghost use Rattle.qx_machine.specs.Performing.{deed_of};
ghost use Rattle.qx_machine.specs.PipeManager.{cancel_call};
ghost use Rattle.qx_machine.specs.Users.{boot_part};
ghost use Rattle.qx_machine.specs.Wants.{bytes_want_memory};
ghost use Rattle.qx_resmgr.specs.Deeds.{Did, HasRoomAfter};
ghost use Rattle.qx_paths.specs.Mounts.{mounts_of};
ghost use Rattle.qx_resources.specs.Boot.{kept_of};
ghost use Rattle.qx_resources.specs.Mounts.{IsNextMount, with_new_root};
ghost use Rattle.qx_resources.specs.Ranges.{IsInRanges};
ghost use Rattle.qx_resources.specs.State.{HasUser, state, told};
ghost use Rattle.qx_resources.specs.Told.{manager_with};
ghost use Rattle.qx_resources.specs.inner.State.{IsCallerReceived};
ghost use Rattle.qx_resources.specs.declared.tables.Tables.{Tables as AllTables};
ghost use Rattle.qx_shared.specs.Shared.{shared_after, state_after};
ghost use Rattle.qx_types.specs.declared.limits.TheConstants.Limits.{MOUNTS};
ghost use Rattle.qx_types.specs.declared.names.Manager.TheVariants as managers;

use crate::pipe::Pipe;
use crate::ram::Ram;
use crate::state::Told;
use crate::tables::Tables;
use qx_iofunc::Store;
use qx_machine::{Caller, Context, Opened, Over, Target};
use qx_paths::{Mounts, Path, read_path};
use qx_process::Process;
use qx_resmgr::{Done, serve};
use qx_rows::{Reply, Room};
use qx_types::{Coid, Config, Errno, LimitName, Manager, NoMemory, Thread, User};
use qx_wire::{Meaning, Message};
use std::alloc::{AllocError, Global};
use std::marker::Model;

/// What the managers keep for a user: what is under names and numbers where they are attached. Where that is, the pipes and the
/// events stand in tables of all users.
#[derive(Drop)]
pub struct Resources {
    pub(crate) store: Store,
}

impl Model for Resources {
    ghost use Rattle.std.specs.Coded.{codes};
    ghost use Rattle.qx_names.specs.Paths.{names_code};
    ghost use Rattle.qx_resources.specs.State.{Kept};

    ghost Value = { Kept };

    ghost coded = { Prim.hlevel (codes, names_code) };

    ghost view = { λ r. record { user = r.store.stored.user; inodes = r.store.stored.inodes; names = r.store.stored.names; files = r.store.stored.files; limits = r.store.stored.limits } };
}

/// A mount that is judged and not made yet: its path, its manager, and the inode that its root will have.
#[derive(Drop)]
pub struct NewMount<'a> {
    pub path: Path<'a>,
    pub manager: Manager,
    pub root: u32,
}

impl<'a> Model for NewMount<'a> {
    ghost use Rattle.qx_paths.specs.Prefixes.{MountPoint};

    ghost Value = { MountPoint };

    ghost view = { λ m. record { prefix = m.path; manager = m.manager; root = m.root } };
}

impl Resources {
    /// A user's resources at boot.
    pub fn boot(alloc: Global, config: &Config, user: User) -> Result<Self, NoMemory>
        ensures { IfOk result (λ resources. resources ≡ kept_of (boot_part config.now user.0).resources) }
    {
        Ok(Resources {
            store: Store::boot(alloc, config.limits(user), user)?,
        })
    }

    /// A manager's mount at a path of the user of that name, beside the mounts of all users, with the lowest free inode for its
    /// root (C Library Reference: `resmgr_attach`). The errors of `read_path`; EACCES for a path that is neither the name nor
    /// below it, whoever has its first name; EEXIST where a mount is; ENOSPC where the user has as many mounts or inodes as may be.
    pub fn new_mount<'a>(
        &self,
        mounts: &Mounts,
        name: &[u8],
        path: &'a [u8],
        manager: Manager,
    ) -> Result<NewMount<'a>, Errno>
        ensures can { IfOk result (λ mount. IsNextMount (mounts_of mounts.now self.now.user) self.now mount) }
        ensures mount { (all : AllTables) → all.mounts ≡ mounts.now → result ≡ mounting.new_mount name.now path.now manager (told self.now all) }
    {
        let path = read_path(path)?;
        if !path.is_under(name) {
            return Err(Errno::EACCES);
        }
        if let Some(errno) = mounts.fault(self.most_mounts(), self.store.user(), &path) {
            return Err(errno);
        }
        let root = self.store.inodes().inode_number()?;
        Ok(NewMount {
            path,
            manager,
            root,
        })
    }

    /// How many mounts the user may have.
    pub fn most_mounts(&self) -> usize
        ensures most { result ≡ self.now.limits.mounts }
        ensures few { result ≤ MOUNTS }
    {
        self.store.limits().get(LimitName::Mounts)
    }

    /// Makes the root of a mount that is judged.
    pub fn add_root(&mut self, root: u32) -> Result<(), AllocError>
        requires next { inode_number self.old.inodes ≡ Ok root }
        ensures ok { OnOk result (self.new ≡ with_new_root root self.old) }
        ensures err { OnErr result (self.new ≡ self.old) }
    {
        self.store.add_root(root)
    }

    /// Does what bytes that were sent to a manager ask it for, by what they mean; the bytes of the reply are then in `reply`,
    /// none after an error, and a call that waits took `room` along. A call on a pipe in which nobody waits is replied to, if
    /// it is answered at once with a reply. Only an open, a mknod, a write to a block of a file that has no byte but
    /// zero and a notification that arms may want memory, and only where they would be done.
    pub fn perform(
        &mut self,
        all: &mut Tables,
        context: Context,
        meaning: Meaning<'_>,
        reply: &mut Reply,
        room: &mut Option<Room>,
    ) -> Result<Result<Done, Errno>, AllocError>
        requires ranges { IsInRanges meaning }
        requires fits { HasUser self.old all.old }
        requires received { IfOk context.opened (λ o. IsCallerReceived self.old all.old o) }
        requires room { IsSome room.old }
        ensures did { IfOk result (λ given. Did state self.old all.old self.new all.new reply.new given (deed_of (told self.old all.old) context meaning.entry)) }
        ensures room { IfOk result (λ given. HasRoomAfter room.old room.new given) }
        ensures err { OnErr result ((self.new ≡ self.old) × (all.new ≡ all.old) × (room.new ≡ room.old)) }
        ensures wanted { OnErr result (IsTrue (bytes_want_memory (told self.old all.old) context meaning.entry)) }
    {
        reply.clear();
        let message = match meaning {
            Meaning::Known(message) => message,
            Meaning::Unknown => return Ok(Err(Errno::ENOSYS)),
            Meaning::Malformed => return Ok(Err(Errno::EINVAL)),
        };
        let Some(manager) = pipe_manager(context.target.manager) else {
            return serve::<Ram, Resources, Tables, Told>(
                &Ram, self, all, context, message, reply, room,
            );
        };
        serve::<Pipe, Resources, Tables, Told>(&manager, self, all, context, message, reply, room)
    }

    /// A thread's call is asked to unblock: if it waits in a pipe, it is answered EINTR, unless it is served as the pipe is
    /// cleaned before, and others may be served then (Writing a Resource Manager: the unblock pulse). Tells whether it waited.
    pub fn cancel(&mut self, all: &mut Tables, thread: Thread, call: u64, moment: u64) -> bool
        requires user { self.old.user ≡ thread.proc.user.0 }
        requires fits { HasUser self.old all.old }
        ensures user { self.new.user ≡ self.old.user }
        ensures waited { result ≡ is_ok (cancel_call (told self.old all.old) thread.proc.num thread.tid call moment) }
        ensures state { told self.new all.new ≡ state_after (told self.old all.old) (cancel_call (told self.old all.old) thread.proc.num thread.tid call moment) }
        ensures shared { all.new ≡ record all.old { shared = shared_after all.old.shared self.old.user (cancel_call (told self.old all.old) thread.proc.num thread.tid call moment) } }
    {
        qx_pipes::cancel(&mut all.shared, &mut self.store, thread, call, moment)
    }
}

/// The manager of pipes, or of a device's rows, that a message goes to, where it isn't that of files.
fn pipe_manager(manager: Manager) -> Option<Pipe>
    ensures ram { IfNone result (manager ≡ managers.Ram) }
    ensures with { IfSome result (λ pipe. manager ≡ manager_with pipe.device) }
{
    match manager {
        Manager::Ram => None,
        Manager::Pipe => Some(Pipe { device: None }),
        Manager::Device(device) => Some(Pipe {
            device: Some(device),
        }),
    }
}

/// What a message of a process is served with at a moment, by what it means (Writing a Resource Manager:
/// `resmgr_context_t`).
pub fn context_of(
    process: &Process,
    caller: Caller,
    target: Target,
    moment: u64,
    meaning: &Meaning<'_>,
) -> Context
    ensures context { result ≡ performing.context_of process.now caller target moment meaning.now }
{
    Context {
        target,
        client: process.client(caller.process, target.manager),
        opened: opened_by(process, caller, target, moment, dup_of(meaning)),
        moment,
    }
}

/// The connection that a dup names, the old one.
fn dup_of(meaning: &Meaning<'_>) -> Option<Coid>
    ensures { result ≡ performing.dup_of meaning.now }
{
    match meaning {
        Meaning::Known(Message::Dup { old }) => Some(*old),
        _ => None,
    }
}

/// What the connection of a message has open: that which it came over, or of a dup the old one.
fn opened_by(
    process: &Process,
    caller: Caller,
    target: Target,
    moment: u64,
    old: Option<Coid>,
) -> Result<Opened, Errno>
    ensures { result ≡ performing.opened_by process.now caller target moment old }
{
    let coid = match (old, target.over) {
        (Some(coid), _) | (None, Over::Existing(coid)) => coid,
        _ => return Err(Errno::EINVAL),
    };
    let Some(connection) = process.conn_of(coid) else {
        return Err(Errno::EBADF);
    };
    if connection.manager != target.manager {
        return Err(Errno::EBADF);
    }
    match connection.block {
        Some(number) => Ok(Opened {
            process: caller.process,
            thread: caller.thread,
            coid,
            is_asked: caller.is_asked,
            number,
            call: caller.call,
            moment,
        }),
        None => Err(Errno::EBADF),
    }
}
