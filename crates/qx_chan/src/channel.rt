//! The processes of all users, and what waits: their messages in the managers' lines, and their events. Each call is that
//! of message passing: what stands beside a thread's message, the room for its reply, and its place in a line change
//! together.

ghost use Rattle.std.specs.Prelude.{◌≡◌, ◌*◌, ◌≤◌, ℕ, Ok, false, length, max, slice_get, IfOk, IfSome, IsErr, IsOk, IsTrue, OnOk, OnErr, drop, find, nat_lt, vec_capacity};
ghost use Rattle.std.specs.Option.{option_copied};
ghost use Rattle.qx_types.specs.Configuration.{limits_of};
ghost use Rattle.qx_types.specs.Managers.{managers};
ghost use Rattle.qx_machine.specs.Events.{first_pulse};
ghost use Rattle.qx_machine.specs.Parts.{thread_of};
ghost use Rattle.qx_machine.specs.Processes.{living, with_queued};
ghost use Rattle.qx_isolation.specs.Rows.{row_at, with_row};
ghost use Rattle.qx_process.specs.Reads.{CanCall, CanGo, IsPriority, has_own_room};
ghost use Rattle.qx_clients.specs.Calls.{CanAttachAt, spawn_outcome};
ghost use Rattle.qx_queues.specs.Queues.{stands};
ghost use Rattle.qx_shared.specs.Shared.{HasNoCall, has_thread, shared_line};
ghost use Rattle.qx_chan.specs.Calls.{queued_call, unasked_call};
ghost use Rattle.qx_machine.specs.Reads.{answer_of};
ghost use Rattle.qx_chan.specs.Channel.{IsExisting, after_asking, after_interrupt, after_pulse, after_ranking, after_receive, after_spawn, after_taking, after_withdrawing, channel_events, channel_line, boot_channel, interrupt_outcome, is_no_pulse, pulse_outcome};
ghost use Rattle.qx_chan.specs.Nodes.{room_for};
ghost use Rattle.qx_chan.specs.Sending.{HasMemory, after_call, call_target, kept_after, told_of};
ghost use Rattle.qx_chan.specs.Users.{UsesAt, prio_outcome_in, process_of, spawn_number_in, thread_row};
ghost use Rattle.qx_chan.specs.inner.Kept.{with_sent};

use crate::call::{self, Call};
use crate::servers;
use crate::users::Users;
use qx_clients::{Processes, Refusal, encoded, target_by};
use qx_machine::{OwnItem, Queued, Sent};
use qx_process::{Process, ThreadCell};
use qx_resources::Tables;
use qx_rows::Room;
use qx_shared::Shared;
use qx_types::{
    Answer, Config, Errno, Manager, NoMemory, Outcome, Prio, Proc, Request, Thread, User,
    UserLimits,
};
use std::alloc::{AllocError, Global};
use std::marker::Model;

/// The processes of all users, with what their threads send and are answered, the managers' lines in which the messages
/// wait, and the events.
#[derive(Drop)]
pub struct Channel {
    pub(crate) users: Users,
    pub(crate) tables: Tables,
    /// Room for a reply, which a call that is left without one takes along; the room of its thread comes here then.
    pub(crate) spare: Option<Room>,
}

impl Model for Channel {
    ghost use Rattle.std.specs.Coded.{codes};
    ghost use Rattle.qx_chan.specs.Channel as words;
    ghost use Rattle.qx_chan.specs.inner.Kept.{AllStandTogether};

    ghost Value = { words.Channel };

    ghost coded = { Prim.hlevel codes };

    ghost view = { λ c. record { users = c.users; lines = c.tables.shared.lines; pipes = c.tables.shared.pipes; events = c.tables.events.events; mounts = c.tables.mounts; room = c.tables.shared.room } };

    ghost invariant = { λ c. AllStandTogether c.users c.tables c.spare };
}

impl Channel {
    /// At boot: the users of a configuration with no process, empty lines, no events, and of mounts each user's top.
    pub fn boot(alloc: Global, config: &Config) -> Result<Self, NoMemory>
        ensures boot { IfOk result (λ channel. channel ≡ boot_channel config.now) }
    {
        let tables = Tables::boot(alloc, config)?;
        let users = Users::new(alloc, config.user_count())?;
        let spare = Some(Room::new(alloc)?);
        Ok(Channel {
            users,
            tables,
            spare,
        })
    }

    /// The processes of a user; none where the user is not there.
    pub fn processes(&self, user: User) -> Option<&Processes>
        ensures row { option_copied result ≡ row_at self.now.users user.0 }
    {
        self.users.processes(user)
    }

    /// A process; none where it is not there.
    pub fn process(&self, proc: Proc) -> Option<&Process>
        ensures row { option_copied result ≡ process_of self.now.users proc }
    {
        self.users.process(proc)
    }

    /// A thread; none where it is not there.
    pub fn thread(&self, thread: Thread) -> Option<&ThreadCell>
        ensures row { option_copied result ≡ thread_row self.now.users thread }
    {
        self.users.thread(thread)
    }

    /// The first item of a manager's line; none where it is empty.
    pub fn first(&self, manager: Manager) -> Option<Queued>
        ensures first { result ≡ slice_get (channel_line self.now manager) 0 }
    {
        self.tables.shared.first(manager)
    }

    /// How many items stand in a manager's line.
    pub fn len(&self, manager: Manager) -> usize
        ensures count { result ≡ length (channel_line self.now manager) }
    {
        self.tables.shared.len(manager)
    }

    /// The first manager, by number and from one on, in whose line an item stands.
    pub fn next_from(&self, number: usize) -> Option<Manager>
        ensures { result ≡ find (λ manager. nat_lt 0 (length (channel_line self.now manager))) (drop number managers) }
    {
        self.tables.shared.next_from(number)
    }

    /// Starts a process of a user with these limits, of 1 to 4 ready threads of a priority from 1 to the ceiling, under the
    /// lowest free number (C Library Reference: `spawn`). `WrongState` for a user who is not there; EINVAL for other numbers;
    /// EPERM for a priority above the ceiling; EAGAIN where the user has as many processes as may be. A spawn that is refused
    /// wants no memory.
    pub fn spawn(
        &mut self,
        alloc: Global,
        limits: &UserLimits,
        user: User,
        threads: u8,
        prio: Prio,
    ) -> Result<Outcome, AllocError>
        ensures outcome { IfOk result (λ outcome. outcome ≡ spawn_outcome (spawn_number_in limits.now threads prio.0 (row_at self.old.users user.0))) }
        ensures ok { OnOk result (self.new ≡ after_spawn limits.now self.old user.0 threads prio.0) }
        ensures sure { IsErr (spawn_number_in limits.now threads prio.0 (row_at self.old.users user.0)) → IsOk result }
        ensures err { OnErr result (self.new ≡ record self.old { room = self.new.room }) }
        ensures spare { self.new.room ≤ max self.old.room (2 * threads) }
    {
        limits.know();
        match self.spawn_number(limits, user, threads, prio) {
            Ok(num) => {
                let proc = Proc { user, num };
                self.tables.shared.reserve(threads)?;
                self.users.start(alloc, proc, threads, prio)?;
                self.tables.shared.add_process(proc, threads, prio);
                Ok(Outcome::Spawned(num))
            }
            Err(outcome) => Ok(outcome),
        }
    }

    /// The number of a process that would start now, or how the spawn is refused.
    fn spawn_number(
        &self,
        limits: &UserLimits,
        user: User,
        threads: u8,
        prio: Prio,
    ) -> Result<u8, Outcome>
        ensures number { result ≡ spawn_number_in limits.now threads prio.0 (row_at self.now.users user.0) }
    {
        match self.users.processes(user) {
            Some(processes) => processes.spawn_number(limits, threads, prio),
            None => Err(Outcome::WrongState),
        }
    }

    /// A thread's request goes as a message into its manager's line with the thread's priority, and the thread is blocked, with
    /// room for the reply; what the message goes over is attached (C Library Reference: `MsgSend`). `WrongState` where the
    /// thread is not there or not ready; then EINVAL for fields out of their ranges, EAGAIN where the thread's calls are used
    /// up; for a path, the errors of `read_path`, EACCES and ENOENT by whose name is its first; for a connection, EBADF where it
    /// is not there; EMFILE where no connection is free for a new one; EAGAIN where the user has all its server connections at
    /// the manager. A call that is refused wants no memory, nor does one over a connection that is there, of a thread that has
    /// room for the reply, with a message of few bytes or one that fits into the memory that is kept; more than a few take that
    /// along.
    #[inline(always)]
    pub fn call(
        &mut self,
        alloc: Global,
        config: &Config,
        thread: Thread,
        request: &Request,
        memory: &mut Vec<u8>,
    ) -> Result<Result<(), Refusal>, NoMemory>
        ensures outcome { IfOk result (λ told. told ≡ told_of (call_target config.now self.old thread request.now)) }
        ensures ok { OnOk result (self.new ≡ after_call self.old thread request.now (call_target config.now self.old thread request.now)) }
        ensures sure { IsErr (call_target config.now self.old thread request.now) → IsOk result }
        ensures had_room { IfOk (call_target config.now self.old thread request.now) (HasMemory (vec_capacity memory.old) (thread_row self.old.users thread) request.now) → IsOk result }
        ensures kept { OnOk result (vec_capacity memory.new ≡ kept_after request.now (call_target config.now self.old thread request.now) (vec_capacity memory.old)) }
        ensures err { OnErr result (self.new ≡ record self.old { room = self.new.room }) }
        ensures spare { OnErr result (IfOk (call_target config.now self.old thread request.now) (λ addressed. self.new.room ≤ room_for addressed.target.over self.old.room)) }
    {
        let Some(processes) = self.users.processes_mut(thread.proc.user) else {
            return Ok(Err(Refusal::wrong_state()));
        };
        let addressed = match target_by(config, &self.tables.mounts, processes, thread, request) {
            Ok(addressed) => addressed,
            Err(refusal) => return Ok(Err(refusal)),
        };
        let sent = Sent {
            target: addressed.target,
            is_asked: false,
            bytes: encoded(memory, request, &addressed.rest, &addressed.to)?,
        };
        send_on(processes, &mut self.tables.shared, alloc, thread, sent)?;
        Ok(Ok(()))
    }

    /// Takes the first item of a manager's line; the thread whose message it is waits for its answer (C Library Reference:
    /// `MsgReceive`). None where the line is empty.
    pub fn receive(&mut self, manager: Manager) -> Option<Queued>
        ensures first { result ≡ slice_get (channel_line self.old manager) 0 }
        ensures rest { self.new ≡ after_receive self.old manager }
    {
        let first = self.tables.shared.receive(manager)?;
        match first.item {
            OwnItem::Message { process, thread } => self.users.take(Thread {
                proc: Proc {
                    user: first.user,
                    num: process,
                },
                tid: thread,
            }),
            OwnItem::Unblock { .. } | OwnItem::Disconnect { .. } => {}
        }
        Some(first)
    }

    /// Asks to unblock a thread (System Architecture: the unblock pulse; C Library Reference: `MsgSend`, EINTR): a message that
    /// stands in a line is taken out of that, and one that was received, or whose call waits, is asked for by a pulse, once a
    /// call. `WrongState` where the thread is not there; nothing happens where it waits for nothing.
    pub fn interrupt(&mut self, config: &Config, thread: Thread) -> Outcome
        ensures outcome { result ≡ interrupt_outcome (thread_row self.old.users thread) }
        ensures interrupted { self.new ≡ after_interrupt (limits_of config.now thread.proc.user.0).disconnect self.old thread }
    {
        let Some(cell) = self.users.thread(thread) else {
            return Outcome::WrongState;
        };
        if let Some(call) = call::queued(cell) {
            self.withdraw(config, thread, call);
        } else if let Some(call) = call::unasked(cell) {
            self.ask_unblock(thread, call);
        }
        Outcome::Done
    }

    /// Asks to unblock a thread whose message was received or whose call waits, by the call: the message is marked, and a pulse
    /// goes into its line with its priority (C Library Reference: `ChannelCreate`, `_NTO_CHF_UNBLOCK`).
    fn ask_unblock(&mut self, thread: Thread, call: Call)
        requires unasked { Some call ≡ unasked_call (thread_row self.old.users thread) }
        requires priority { IsPriority call.target.prio.0 }
        ensures asked { self.new ≡ after_asking self.old thread }
    {
        let target = call.target;
        self.tables
            .shared
            .ask_unblock(target.manager, thread, call.number, target.prio);
        self.users.ask_unblock(thread);
    }

    /// Takes a thread's message out of the line that it stands in, by the call: the thread is answered EINTR, and what its call
    /// attached goes, with the disconnect pulse of a process that has lost its last connection by that (C Library Reference:
    /// `MsgSend`, EINTR).
    fn withdraw(&mut self, config: &Config, thread: Thread, call: Call)
        requires queued { Some call ≡ queued_call (thread_row self.old.users thread) }
        ensures withdrawn { self.new ≡ after_withdrawing (limits_of config.now thread.proc.user.0).disconnect self.old thread }
    {
        self.tables.shared.withdraw(call.target.manager, thread);
        let lost = self
            .users
            .fail(thread, call.target.over, Errno::EINTR, None);
        servers::disconnect(&mut self.tables.shared, config, thread.proc, lost);
    }

    /// A thread takes its answer and is ready (C Library Reference: what `MsgSend` returns). None where it is not there or
    /// has none, and then nothing changes.
    pub fn take_reply(&mut self, thread: Thread) -> Option<Answer>
        ensures answer { result ≡ answer_of (thread_row self.old.users thread) }
        ensures taken { self.new ≡ after_taking self.old thread }
    {
        let Some(cell) = self.users.thread_mut(thread) else {
            return None;
        };
        cell.take_answer()
    }

    /// A process takes its first untaken pulse, which is gone then (C Library Reference: `MsgReceivePulse`). `WrongState` where
    /// the process is not there or has ended, then `NoPulse` where it has none.
    pub fn take_pulse(&mut self, proc: Proc) -> Outcome
        ensures outcome { result ≡ pulse_outcome (living (process_of self.old.users proc)) (first_pulse proc.num (channel_events self.old proc.user.0)) }
        ensures taken { self.new ≡ after_pulse self.old proc }
    {
        let Some(_) = self.users.living(proc) else {
            return Outcome::WrongState;
        };
        match self.tables.events.take_pulse(proc) {
            Some(pulse) => Outcome::Pulse(pulse.code, pulse.value),
            None => Outcome::NoPulse,
        }
    }

    /// Whether a process that takes a pulse is told that it has none: it is there, and has not ended.
    pub fn lacks_pulse(&self, proc: Proc) -> bool
        ensures { result ≡ is_no_pulse (pulse_outcome (living (process_of self.now.users proc)) (first_pulse proc.num (channel_events self.now proc.user.0))) }
    {
        match self.users.living(proc) {
            Some(_) => !self.tables.events.has_pulse(proc),
            None => false,
        }
    }

    /// A thread of a user with this ceiling gets another priority, from 1 to the ceiling; a message that it sent keeps its own
    /// (C Library Reference: `SchedSet`). `WrongState` where the thread is not there, then EINVAL for 0, then EPERM for one
    /// above the ceiling.
    pub fn set_prio(&mut self, ceiling: Prio, thread: Thread, prio: Prio) -> Outcome
        ensures outcome { result ≡ prio_outcome_in ceiling.0 thread.proc.num thread.tid prio.0 (row_at self.old.users thread.proc.user.0) }
        ensures ranked { self.new ≡ after_ranking ceiling.0 self.old thread prio.0 }
    {
        let Some(processes) = self.users.processes_mut(thread.proc.user) else {
            return Outcome::WrongState;
        };
        processes.set_prio(ceiling, thread.proc.num, thread.tid, prio)
    }
}

/// A message of a thread goes out, on the processes of its user: there is room for the disconnect node of what it goes over
/// first, then the thread is queued and what the message goes over is attached, and then the message stands in its manager's
/// line, and the process has its disconnect node.
fn send_on(
    processes: &mut Processes,
    shared: &mut Shared,
    alloc: Global,
    thread: Thread,
    sent: Sent,
) -> Result<(), AllocError>
    requires call { CanCall (thread_of thread.tid (row_at processes.old thread.proc.num)) }
    requires target { CanGo sent.target }
    requires place { CanAttachAt (row_at processes.old thread.proc.num) sent.target }
    requires own { IsTrue (has_thread shared.old thread) }
    requires idle { (number : ℕ) → stands (shared_line shared.old number) thread ≡ false }
    requires no_call { HasNoCall shared.old thread }
    ensures ok { OnOk result (processes.new ≡ with_row processes.old thread.proc.num (with_queued thread.tid sent)) }
    ensures uses { OnOk result (UsesAt sent.target (row_at processes.old thread.proc.num) (row_at processes.new thread.proc.num)) }
    ensures sent { OnOk result (shared.new ≡ with_sent thread sent (row_at processes.new thread.proc.num) shared.old) }
    ensures had_room { IsExisting sent.target.over → IfSome (thread_of thread.tid (row_at processes.old thread.proc.num)) (λ row. IsTrue (has_own_room row)) → IsOk result }
    ensures err { OnErr result (processes.new ≡ processes.old) }
    ensures unsent { OnErr result (shared.new ≡ record shared.old { room = shared.new.room }) }
    ensures spare { OnErr result (shared.new.room ≤ room_for sent.target.over shared.old.room) }
{
    let target = sent.target;
    servers::reserve(shared, target.over)?;
    let process = processes.process_there(thread.proc.num);
    process.send(alloc, thread.tid, sent)?;
    shared.send(target.manager, thread, target.prio);
    servers::attach(shared, process, thread.proc, target);
    Ok(())
}
