//! The managers' lines, the nodes of all users' threads and server connections, and the pipes of all users, in which calls
//! wait.

ghost use Rattle.std.specs.Prelude.{◌≡◌, ℕ, ◌+◌, ◌-◌, ◌*◌, ◌<◌, ◌≤◌, [], false, option_map, length, drop, slice_get, is_some, max, IfOk, IsOk, OnOk, OnErr, IfSome, IsTrue, None, Some, Ok, find, nat_lt};
ghost use Rattle.qx_types.specs.Managers.{manager_number, managers};
ghost use Rattle.qx_types.specs.declared.limits.TheConstants.Limits.{PROCESSES, THREADS};
ghost use Rattle.qx_isolation.specs.Lines.{into};
ghost use Rattle.qx_machine.specs.Machine as machine;
ghost use Rattle.qx_machine.specs.Settling as settling;
ghost use Rattle.qx_isolation.specs.declared.rows.OwnItem.TheVariants as item;
ghost use Rattle.qx_queues.specs.Queues.{IsGone, message_of, stands, unblock_call, unblock_of};
ghost use Rattle.qx_queues.specs.Waiting.{ComesWithRoom, addressed_by};
ghost use Rattle.qx_shared.specs.Shared.{HasNoCall, HasThread, has_disconnect_node, has_thread, nothing_shared, pipes_of, shared_line, with_shared_disconnect, with_shared_process, with_shared_server, with_shared_line, without_first_shared, without_shared_process};

use crate::row::UserPipes;
use qx_machine::{Queued, ServerName};
use qx_queues::{Answered, Queues};
use qx_rows::Room;
use qx_types::{Limits, Manager, Prio, Proc, Thread};
use std::alloc::{AllocError, Global};
use std::marker::Model;

/// The managers' lines, the nodes of all users' threads and server connections, and the pipes of all users, in which calls
/// wait.
#[derive(Drop)]
pub struct Shared {
    pub(crate) queues: Queues,
    pub(crate) pipes: Vec<UserPipes>,
    /// Into which a device's bytes are read.
    pub(crate) spare: Room,
}

impl Model for Shared {
    ghost use Rattle.qx_shared.specs.inner.Own.{AreAllPipes, shown_shared};
    ghost use Rattle.qx_shared.specs.Shared as words;

    ghost Value = { words.Shared };

    ghost coded = { words.shared_code };

    ghost view = { λ c. shown_shared c.queues c.pipes.items };

    ghost invariant = { λ c. AreAllPipes c.queues c.pipes.items };
}

impl Shared {
    /// Empty lines, no nodes, and no pipes of the users from 1 to this many.
    pub fn new(alloc: Global, users: usize) -> Result<Self, AllocError>
        requires few { users < 256 }
        ensures empty { IfOk result (λ shared. shared ≡ nothing_shared users) }
    {
        let spare = Room::new(alloc)?;
        let queues = Queues::new(alloc, users)?;
        let mut pipes = Vec::new(alloc);
        'users: for _ in 0..users + 1 {
            let none = UserPipes::new(alloc)?;
            pipes.push(none)?;
        }
        Ok(Shared {
            queues,
            pipes,
            spare,
        })
    }

    /// Puts a thread's message, which stands in no line, into a line (C Library Reference: `MsgSend`).
    pub fn send(&mut self, manager: Manager, thread: Thread, prio: Prio)
        requires own { IsTrue (has_thread self.old thread) }
        requires idle { (number : ℕ) → stands (shared_line self.old number) thread ≡ false }
        requires no_call { HasNoCall self.old thread }
        requires lowest { 1 ≤ prio.0 }
        ensures sent { self.new ≡ with_shared_line self.old (manager_number manager) (λ line. into machine.rank line (message_of thread prio.0)) }
    {
        self.queues.send(manager, thread, prio);
    }

    /// Takes the first item of a line, a message or a pulse (C Library Reference: `MsgReceive`); the node of a disconnect pulse
    /// is given back, and room is kept for it.
    pub fn receive(&mut self, manager: Manager) -> Option<Queued>
        ensures first { result ≡ slice_get (shared_line self.old (manager_number manager)) 0 }
        ensures rest { self.new ≡ without_first_shared self.old (manager_number manager) }
        ensures gone { IfSome result (λ first. IsGone first (drop 1 (shared_line self.old (manager_number manager)))) }
    {
        self.queues.receive(manager)
    }

    /// Puts the pulse that asks to unblock a thread from a call, where none of the thread stands in a line (C Library
    /// Reference: `ChannelCreate`, `_NTO_CHF_UNBLOCK`).
    pub fn ask_unblock(&mut self, manager: Manager, thread: Thread, call: u64, prio: Prio)
        requires own { IsTrue (has_thread self.old thread) }
        requires idle { (number : ℕ) → unblock_call (shared_line self.old number) thread ≡ None }
        requires lowest { 1 ≤ prio.0 }
        ensures asked { self.new ≡ with_shared_line self.old (manager_number manager) (λ line. into machine.rank line (unblock_of thread call prio.0)) }
    {
        self.queues.ask_unblock(manager, thread, call, prio);
    }

    /// Takes a thread's message out of the line that it stands in, as a call ends early (C Library Reference: `MsgSend`,
    /// `EINTR`).
    pub fn withdraw(&mut self, manager: Manager, thread: Thread)
        requires stands { IsTrue (stands (shared_line self.old (manager_number manager)) thread) }
        ensures withdrawn { self.new ≡ with_shared_line self.old (manager_number manager) (machine.line_without thread.proc.user.0 (item.Message thread.proc.num thread.tid)) }
        ensures gone { stands (machine.line_without thread.proc.user.0 (item.Message thread.proc.num thread.tid) (shared_line self.old (manager_number manager))) thread ≡ false }
    {
        self.queues.withdraw(manager, thread);
    }

    /// Takes the pulse that asks to unblock a thread from a call out of the line, if it stands there, as the call is
    /// answered (C Library Reference: `MsgReply`).
    #[inline(always)]
    pub fn reply(&mut self, manager: Manager, thread: Thread, call: u64)
        ensures replied { self.new ≡ with_shared_line self.old (manager_number manager) (machine.line_without thread.proc.user.0 (item.Unblock thread.proc.num thread.tid call)) }
        ensures gone { unblock_call (shared_line self.old (manager_number manager)) thread ≡ Some call → unblock_call (machine.line_without thread.proc.user.0 (item.Unblock thread.proc.num thread.tid call) (shared_line self.old (manager_number manager))) thread ≡ None }
    {
        self.queues.reply(manager, thread, call);
    }

    /// Whether anyone was answered.
    pub fn has_answered(&self) -> bool
        ensures answered { result ≡ is_some (slice_get self.now.answered 0) }
    {
        self.queues.has_answered()
    }

    /// Takes out the first of those who were answered, with the answer, and with the room for the thread's replies, unless the
    /// answer took that along.
    pub fn take_answered(&mut self) -> Option<Answered>
        ensures first { option_map addressed_by result ≡ slice_get self.old.answered 0 }
        ensures room { IfSome result ComesWithRoom }
        ensures rest { self.new ≡ record self.old { answered = drop 1 self.old.answered } }
        ensures gone { IfSome result (λ taken. HasNoCall self.new taken.thread) }
    {
        self.queues.take_answered()
    }

    /// The first item of a line.
    pub fn first(&self, manager: Manager) -> Option<Queued>
        ensures first { result ≡ slice_get (shared_line self.now (manager_number manager)) 0 }
    {
        self.queues.first(manager)
    }

    /// How many items stand in a line.
    pub fn len(&self, manager: Manager) -> usize
        ensures count { result ≡ length (shared_line self.now (manager_number manager)) }
    {
        self.queues.len(manager)
    }

    /// The first manager, by number and from one on, in whose line an item stands.
    pub fn next_from(&self, number: usize) -> Option<Manager>
        ensures { result ≡ find (λ manager. nat_lt 0 (length (shared_line self.now (manager_number manager)))) (drop number managers) }
    {
        self.queues.next_from(number)
    }

    /// Makes room for the nodes of so many threads.
    pub fn reserve(&mut self, threads: u8) -> Result<(), AllocError>
        ensures ok { OnOk result (self.new ≡ record self.old { room = max self.old.room (2 * threads) }) }
        ensures had_room { 2 * threads ≤ self.old.room → IsOk result }
        ensures err { OnErr result (self.new ≡ self.old) }
    {
        self.queues.reserve(threads)
    }

    /// Makes the nodes of a process' threads, for which there is room, and none of which has any.
    pub fn add_process(&mut self, proc: Proc, threads: u8, prio: Prio)
        requires fresh { (thread : ℕ) → has_thread self.old (record { proc = proc; tid = thread }) ≡ false }
        requires user { proc.user.0 < length self.old.pipes }
        requires process { proc.num ≤ PROCESSES }
        requires threads { threads ≤ THREADS }
        requires lowest { 1 ≤ prio.0 }
        requires room { 2 * threads ≤ self.old.room }
        ensures added { self.new ≡ with_shared_process self.old proc threads }
    {
        self.queues.add_process(proc, threads, prio);
    }

    /// The nodes of a process' threads are given back, none of which stands in a line or carries a call or an answer, and room is
    /// kept for them.
    pub fn remove_process(&mut self, proc: Proc)
        requires idle { (thread number : ℕ) → stands (shared_line self.old number) (record { proc = proc; tid = thread }) ≡ false }
        requires unasked { (thread number : ℕ) → unblock_call (shared_line self.old number) (record { proc = proc; tid = thread }) ≡ None }
        requires no_call { settling.has_waiting (pipes_of self.old proc.user.0) proc.num ≡ false }
        requires no_answer { self.old.answered ≡ [] }
        ensures removed { self.new ≡ without_shared_process self.old proc }
        ensures gone { (thread : ℕ) → has_thread self.new (record { proc = proc; tid = thread }) ≡ false }
    {
        self.queues.remove_process(proc);
    }

    /// A process has a disconnect node at a manager from now on: the one that it had, or a new one.
    pub fn add_server(&mut self, proc: Proc, manager: Manager) -> Result<(), AllocError>
        requires started { HasThread self.old proc }
        ensures ok { OnOk result (self.new ≡ with_shared_server self.old proc (manager_number manager)) }
        ensures had_node { IsTrue (has_disconnect_node self.old proc (manager_number manager)) → IsOk result }
        ensures had_room { 1 ≤ self.old.room → IsOk result }
        ensures err { OnErr result (self.new ≡ self.old) }
    {
        self.queues.add_server(proc, manager)
    }

    /// A process has lost a server connection: its disconnect node at that manager goes into the manager's line as the pulse
    /// that tells so (Writing a Resource Manager: `_PULSE_CODE_DISCONNECT`), with a priority.
    pub fn disconnect(&mut self, proc: Proc, server: ServerName, prio: Prio)
        requires there { IsTrue (has_disconnect_node self.old proc (manager_number server.manager)) }
        requires lowest { 1 ≤ prio.0 }
        ensures disconnected { self.new ≡ with_shared_disconnect self.old proc server prio.0 }
    {
        self.queues.disconnect(proc, server, prio);
    }
}
