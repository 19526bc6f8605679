//! The rows of all users, the managers' lines and what each worker holds, with one call for each step.

ghost use Rattle.std.specs.Prelude.{◌≡◌, ◌∷◌, ◌↔◌, ◌≢◌, None, Some, Ok, Err, IfOk, IsErr, IsOk, IsTrue, IsFalse, OnOk, OnErr, IsErrOf, drop, find, length, is_some, option_map, replicate, slice_get, slice_set, MatchOption};
ghost use Rattle.std.specs.Option.{option_copied};
ghost use Rattle.qx_types.specs.Managers.{managers};
ghost use Rattle.qx_types.specs.declared.outcome.Outcome.TheVariants as outcome;
ghost use Rattle.qx_machine.specs.Laws.{IsSettled, is_refusal};
ghost use Rattle.qx_machine.specs.Machine as machine;
ghost use Rattle.qx_isolation.specs.Rows.{row_at};
ghost use Rattle.qx_machine.specs.Wants.{wants_memory};
ghost use Rattle.qx_process.specs.Reads.{is_thread_blocked};
ghost use Rattle.qx_chan.specs.Channel.{is_no_pulse};
ghost use Rattle.qx_chan.specs.Sending.{HasMemory};
ghost use Rattle.qx_steps.specs.Places.{process_places, thread_places};
ghost use Rattle.qx_steps.specs.Held.{bytes_of_work, held_work, received_bytes, work_now, IsReadFor, IsStale};
ghost use Rattle.qx_machine.specs.Reads.{answer_of, has_item, is_thread_answered, next_manager, process_among_parts, row_among_parts};
ghost use Rattle.qx_steps.specs.Reached.{IsReached};
ghost use Rattle.qx_steps.specs.inner.Reads.{is_thread_ready};
ghost use Rattle.qx_steps.specs.inner.Steps.{after_mount, mount_in, CanMount, IsMounting};
ghost use Rattle.qx_steps.specs.Steps.{target_in};

use crate::performing::{free_one, free_owner, named_thread, perform};
use crate::work::{PerformFault, Work, WorkRef};
use qx_chan::Channel;
use qx_hint::assert_unchecked;
use qx_machine::{Held, OwnItem, Queued};
use qx_resources::{AllResources, NewMount};
use qx_rows::{Reply, places};
use qx_types::{
    Answer, Bytes, Config, Item, Manager, MessageBytes, NoMemory, Outcome, Prio, Proc, Request,
    Step, Thread, User, Worker,
};
use qx_wire::Parsed;
use std::alloc::{AllocError, Global};
use std::marker::Model;

/// The rows of all users, the managers' lines and what each worker holds.
pub struct World {
    alloc: Global,
    config: Config,
    channel: Channel,
    resources: AllResources,
    hands: Vec<Option<Held>>,
    /// The bytes of the reply to the message that is being done.
    reply: Reply,
    /// Memory that the bytes of a message left, for the next one of more than a few.
    memory: Vec<u8>,
}

/// As it would be derived; but what drops a world at an exit is proved with one call there.
impl Drop for World {
    fn drop(self) {
        let World {
            alloc: _,
            config: _,
            channel: _,
            resources: _,
            hands: _,
            reply: _,
            memory: _,
        } = self;
    }
}

impl Model for World {
    ghost use Rattle.std.specs.Coded.{codes};
    ghost use Rattle.qx_names.specs.Paths.{names_code};
    ghost use Rattle.qx_machine.specs.Machine as machine;
    ghost use Rattle.qx_steps.specs.inner.Parts.{world_of, IsSound};

    ghost Value = { machine.World };

    ghost coded = { Prim.hlevel (codes, names_code) };

    ghost view = { λ w. world_of w.config w.channel w.resources w.hands.items };

    ghost invariant = { λ w. IsSound w.config w.channel w.resources w.hands.items };
}

impl World {
    /// The system at boot: each user has the top, which is empty, the lines are empty and the workers idle.
    pub fn new(alloc: Global, config: Config) -> Result<Self, NoMemory>
        ensures { IfOk result (λ world. world ≡ machine.boot config) }
    {
        let channel = Channel::boot(alloc, &config)?;
        let resources = AllResources::boot(alloc, &config)?;
        let hands = empty_hands(alloc, config.workers())?;
        let reply = Reply::new(alloc)?;
        Ok(World {
            alloc,
            config,
            channel,
            resources,
            hands,
            reply,
            memory: Vec::new(alloc),
        })
    }

    /// Takes a step of any kind; a perform does what the worker holds. A call of its own: where it is compiled in place, a step that
    /// is stored is taken to pieces first.
    #[inline(never)]
    pub fn step(&mut self, step: &Step) -> Result<Outcome, NoMemory>
        ensures outcome { IfOk result (λ outcome. outcome ≡ (machine.step self.old step.now).outcome) }
        ensures world { OnOk result (self.new ≡ (machine.step self.old step.now).world) }
        ensures err { OnErr result (self.new ≡ self.old) }
        ensures sure { IsFalse (wants_memory self.old step.now) → IsOk result }
    {
        match step {
            Step::Spawn {
                user,
                threads,
                prio,
            } => Ok(self.spawn(*user, *threads, *prio)?),
            Step::Exit { proc } => Ok(self.exit(*proc)),
            Step::Call { thread, request } => self.call(*thread, request),
            Step::TakeReply { thread } => Ok(self.take_reply(*thread)),
            Step::TakePulse { proc } => Ok(self.take_pulse(*proc)),
            Step::SetPrio { thread, prio } => Ok(self.set_prio(*thread, *prio)),
            Step::Interrupt { thread } => Ok(self.interrupt(*thread)),
            Step::Mount {
                thread,
                path,
                manager,
            } => self.mount(*thread, path, *manager),
            Step::Receive { worker, manager } => Ok(self.receive(*worker, *manager)),
            Step::Perform { worker, moment } => self.perform_held(*worker, *moment),
        }
    }

    /// Starts a process of 1 to 4 ready threads of a priority from 1 to the user's ceiling (System Architecture: processes and
    /// threads). `WrongState` for a user who is not configured; EINVAL for other numbers; EPERM for a priority above the
    /// ceiling; EAGAIN where the user has as many processes as may be. A spawn that is refused wants no memory.
    pub fn spawn(&mut self, user: User, threads: u8, prio: Prio) -> Result<Outcome, AllocError>
        ensures outcome { IfOk result (λ outcome. outcome ≡ (machine.step self.old (Step.Spawn user threads prio)).outcome) }
        ensures world { OnOk result (self.new ≡ (machine.step self.old (Step.Spawn user threads prio)).world) }
        ensures sure { IsTrue (is_refusal (machine.step self.old (Step.Spawn user threads prio)).outcome) → IsOk result }
        ensures err { OnErr result (self.new ≡ self.old) }
    {
        let limits = self.config.limits(user);
        self.channel.spawn(self.alloc, &limits, user, threads, prio)
    }

    /// A process ends (C Library Reference: `_exit`; System Architecture: a client that dies): its threads and connections go,
    /// with the answers that were not taken, its untaken pulses, and what it has in lines. Each manager that it used gets a
    /// disconnect pulse, with which the open control blocks of the process go that are there still. A message that a worker
    /// holds is lent until the worker comes back with it, and is done with then; a call that waits in a pipe leaves that as
    /// its pipe is worked on. The number is free once nothing of this is left. `WrongState` where the process is not there or
    /// has ended.
    pub fn exit(&mut self, proc: Proc) -> Outcome
        ensures outcome { result ≡ (machine.step self.old (Step.Exit proc)).outcome }
        ensures world { self.new ≡ (machine.step self.old (Step.Exit proc)).world }
    {
        let outcome = self.channel.exit(self.alloc, &self.config, proc);
        free_one(&mut self.channel, self.hands.as_slice(), proc);
        outcome
    }

    /// A thread takes its answer and is ready (C Library Reference: what `MsgSend` returns). `WrongState` where the thread
    /// is not there or has none.
    pub fn take_reply(&mut self, thread: Thread) -> Outcome
        ensures outcome { result ≡ (machine.step self.old (Step.TakeReply thread)).outcome }
        ensures world { self.new ≡ (machine.step self.old (Step.TakeReply thread)).world }
    {
        let Some(answer) = self.channel.take_reply(thread) else {
            return Outcome::WrongState;
        };
        // an error leaves first: what two ways give in one place is moved once more where they meet
        if let Answer::Failed(error) = &answer {
            return Outcome::Failed(*error);
        }
        let Answer::Reply(status, bytes) = answer else {
            unreachable!();
        };
        Outcome::Reply(status, bytes)
    }

    /// A process takes its first pulse, which is gone then (System Architecture: pulses; C Library Reference:
    /// `MsgReceivePulse`). `WrongState` where the process is not there, then `NoPulse` where it has none.
    pub fn take_pulse(&mut self, proc: Proc) -> Outcome
        ensures outcome { result ≡ (machine.step self.old (Step.TakePulse proc)).outcome }
        ensures world { self.new ≡ (machine.step self.old (Step.TakePulse proc)).world }
    {
        self.channel.take_pulse(proc)
    }

    /// A thread gets another priority, from 1 to its user's ceiling; a message that it sent keeps the one that it was sent
    /// with (C Library Reference: `SchedSet`). `WrongState` where the thread is not there, then EINVAL for 0, then EPERM for
    /// one above the ceiling.
    pub fn set_prio(&mut self, thread: Thread, prio: Prio) -> Outcome
        ensures outcome { result ≡ (machine.step self.old (Step.SetPrio thread prio)).outcome }
        ensures world { self.new ≡ (machine.step self.old (Step.SetPrio thread prio)).world }
    {
        let limits = self.config.limits(thread.proc.user);
        self.channel.set_prio(limits.ceiling(), thread, prio)
    }

    /// Asks to unblock a thread (System Architecture: the unblock pulse; C Library Reference: `MsgSend`, EINTR). A thread
    /// whose message stands in a line is answered EINTR, and the message goes, with what its call attached; a process that
    /// has lost a server connection by that gives its manager a disconnect pulse. One whose message was received, or whose
    /// call waits in a pipe, stays blocked, and its manager gets an unblock pulse, once a call. `WrongState` where the
    /// thread is not there; nothing happens where it waits for nothing.
    pub fn interrupt(&mut self, thread: Thread) -> Outcome
        ensures outcome { result ≡ (machine.step self.old (Step.Interrupt thread)).outcome }
        ensures world { self.new ≡ (machine.step self.old (Step.Interrupt thread)).world }
    {
        self.channel.interrupt(&self.config, thread)
    }

    /// A client's request goes as a message into its manager's line, and the thread is blocked (C Library Reference:
    /// `MsgSend`). `WrongState` where the thread is not there or not ready; then EINVAL for fields out of their ranges,
    /// EAGAIN where the thread's calls are used up; for a path, the errors of `read_path`, EACCES and ENOENT by whose
    /// name is its first; for a connection, EBADF where it is not there; EMFILE where no connection is free for a new one;
    /// EAGAIN where the user has all its server connections at the manager. A call that is refused wants no memory, nor does
    /// one over a connection that is there, with a message of few bytes, of a thread that has room for the reply.
    pub fn call(&mut self, thread: Thread, request: &Request) -> Result<Outcome, NoMemory>
        ensures outcome { IfOk result (λ outcome. outcome ≡ (machine.step self.old (Step.Call thread request.now)).outcome) }
        ensures world { OnOk result (self.new ≡ (machine.step self.old (Step.Call thread request.now)).world) }
        ensures sure { IsTrue (is_refusal (machine.step self.old (Step.Call thread request.now)).outcome) → IsOk result }
        ensures had_room { IfOk (target_in self.old thread request.now) (HasMemory 0 (row_among_parts self.old.parts thread) request.now) → IsOk result }
        ensures err { OnErr result (self.new ≡ self.old) }
    {
        let called = self.channel.call(
            self.alloc,
            &self.config,
            thread,
            request,
            &mut self.memory,
        )?;
        // refusals leave first: what two ways give in one place is moved once more where they meet
        if let Err(refusal) = called {
            return Ok(refusal.outcome());
        }
        sent_outcome()
    }

    /// A manager is attached at a path of the thread's user, with a root of its own (C Library Reference:
    /// `resmgr_attach`). `WrongState` where the thread is not there or not ready; then the errors of `read_path`, EACCES
    /// outside of the user's top, whoever has the path's first name, EEXIST where a mount is, and ENOSPC where the user has
    /// as many mounts or inodes as may be. A mount that is refused wants no memory.
    pub fn mount(
        &mut self,
        thread: Thread,
        path: &Bytes,
        manager: Manager,
    ) -> Result<Outcome, NoMemory>
        ensures outcome { IfOk result (λ outcome. outcome ≡ (machine.step self.old (Step.Mount thread path.now manager)).outcome) }
        ensures world { OnOk result (self.new ≡ (machine.step self.old (Step.Mount thread path.now manager)).world) }
        ensures sure { IsTrue (is_refusal (machine.step self.old (Step.Mount thread path.now manager)).outcome) → IsOk result }
        ensures err { OnErr result (self.new ≡ self.old) }
    {
        match self.judge_mount(thread, path, manager) {
            Ok(mount) => {
                self.attach(thread.proc.user, &mount)?;
                Ok(Outcome::Done)
            }
            Err(outcome) => Ok(outcome),
        }
    }

    /// What a thread mounts, or the outcome of a step that mounts nothing.
    fn judge_mount<'a>(
        &self,
        thread: Thread,
        path: &'a Bytes,
        manager: Manager,
    ) -> Result<NewMount<'a>, Outcome>
        ensures can { IfOk result (λ mount. CanMount (row_at self.now.parts thread.proc.user.0) mount) }
        ensures mount { result ≡ mount_in self.now thread path.now manager }
        ensures settled { IsSettled self.now }
    {
        let user = thread.proc.user;
        let Some(resources) = self.resources.user(user) else {
            return Err(Outcome::WrongState);
        };
        if !self.is_ready(thread) {
            return Err(Outcome::WrongState);
        }
        let (mounts, name) = (self.channel.mounts(), self.config.name_bytes(user));
        resources
            .new_mount(mounts, name, path.as_slice(), manager)
            .map_err(Outcome::Refused)
    }

    /// Whether a thread is there and ready.
    fn is_ready(&self, thread: Thread) -> bool
        ensures { result ≡ is_thread_ready (row_among_parts self.now.parts thread) }
    {
        match self.channel.thread(thread) {
            Some(cell) => cell.is_ready(),
            None => false,
        }
    }

    /// A manager is attached for a user.
    fn attach(&mut self, user: User, mount: &NewMount<'_>) -> Result<(), NoMemory>
        requires can { CanMount (row_at self.old.parts user.0) mount.now }
        requires mounting { IsMounting self.old user.0 mount.now }
        ensures ok { OnOk result (self.new ≡ after_mount self.old user.0 mount.now) }
        ensures err { OnErr result (self.new ≡ self.old) }
    {
        let Some(resources) = self.resources.user_mut(user) else {
            return Ok(());
        };
        self.channel.mount(self.alloc, user, resources, mount)?;
        Ok(())
    }

    /// Whether a worker is configured.
    fn is_worker(&self, worker: Worker) -> bool
        ensures { result ≡ machine.is_worker self.now.config worker.0 }
    {
        1 <= worker.0 && worker.0 <= self.config.workers()
    }

    /// What a worker holds.
    fn hand(&self, worker: Worker) -> Option<Held>
        ensures { result ≡ row_at self.now.hands worker.0 }
    {
        places::row(self.hands.as_slice(), worker.0 as usize).copied()
    }

    /// A worker takes the first item of a line (C Library Reference: `MsgReceive`). `WrongState` where there is no such
    /// worker, `Busy` where it holds an item, `Idle` on an empty line.
    #[tactic(auto, using(crate::proofs::WorkerLemmas::receive_steps))]
    pub fn receive(&mut self, worker: Worker, manager: Manager) -> Outcome
        ensures outcome { result ≡ (machine.step self.old (Step.Receive worker manager)).outcome }
        ensures world { self.new ≡ (machine.step self.old (Step.Receive worker manager)).world }
    {
        if !self.is_worker(worker) {
            return Outcome::WrongState;
        }
        if self.hand(worker).is_some() {
            return Outcome::Busy;
        }
        let Some(first) = self.channel.receive(manager) else {
            return Outcome::Idle;
        };
        hold_in(&mut self.hands, worker, first);
        Outcome::Took(shown_item(first.user, first.item))
    }

    /// A worker does what it holds (C Library Reference: `MsgReply`, `MsgError`), at a moment that becomes the times of
    /// what it changes; the user's events that are due by that give their pulses. With a disconnect pulse goes the server
    /// connection that it was made for, and what is open over that still (Writing a Resource Manager:
    /// `_PULSE_CODE_DISCONNECT`). A message whose process has ended does nothing. `WrongState` where there is no such worker,
    /// `Nothing` where it holds nothing. Only an open, a mkdir, a write to a block of a file that has no byte but zero and a
    /// notification that leaves more events may want memory; one that is answered an error wants none.
    #[tactic(auto, using(crate::proofs::WorkerLemmas::perform_steps))]
    pub fn perform_held(&mut self, worker: Worker, moment: u64) -> Result<Outcome, NoMemory>
        ensures outcome { IfOk result (λ outcome. outcome ≡ (machine.step self.old (Step.Perform worker moment)).outcome) }
        ensures world { OnOk result (self.new ≡ (machine.step self.old (Step.Perform worker moment)).world) }
        ensures err { OnErr result (self.new ≡ self.old) }
        ensures sure { IsFalse (wants_memory self.old (Step.Perform worker moment)) → IsOk result }
    {
        let Some(held) = self.item_to_do(worker) else {
            return Ok(self.nothing_to_do(worker));
        };
        self.perform_item(worker, held, None, moment)?;
        handled_outcome()
    }

    /// Does what `perform_held` does, if what the worker holds is the work at hand, else answers `Stale`. For a worker that
    /// read its item before and comes back with it; its bytes are not read again.
    #[tactic(auto, using(crate::proofs::WorkerLemmas::perform_steps))]
    pub fn perform(
        &mut self,
        worker: Worker,
        work: &Work,
        moment: u64,
    ) -> Result<Outcome, PerformFault>
        ensures outcome { IfOk result (λ outcome. outcome ≡ (machine.step self.old (Step.Perform worker moment)).outcome) }
        ensures world { OnOk result (self.new ≡ (machine.step self.old (Step.Perform worker moment)).world) }
        ensures err { OnErr result (self.new ≡ self.old) }
        ensures stale { IsErrOf result PerformFault.Stale ↔ IsStale (held_work self.old worker.0) work.now }
        ensures sure { IsFalse (wants_memory self.old (Step.Perform worker moment)) → result ≢ Err PerformFault.NoMemory }
    {
        if self.is_stale(worker, work) {
            return Err(PerformFault::Stale);
        }
        let Some(held) = self.item_to_do(worker) else {
            return Ok(self.nothing_to_do(worker));
        };
        self.perform_item(worker, held, work.message(), moment)?;
        Ok(Outcome::Handled)
    }

    /// The item that a worker does, which it holds.
    fn item_to_do(&self, worker: Worker) -> Option<Held>
        ensures { MatchOption result (IsErr (machine.item_to_do self.now worker.0)) (λ held. machine.item_to_do self.now worker.0 ≡ Ok held) }
    {
        if !self.is_worker(worker) {
            return None;
        }
        self.hand(worker)
    }

    /// What a worker is told that does no item.
    fn nothing_to_do(&self, worker: Worker) -> Outcome
        requires nothing { IsErr (machine.item_to_do self.now worker.0) }
        ensures outcome { machine.item_to_do self.now worker.0 ≡ Err result }
    {
        if self.is_worker(worker) {
            Outcome::Nothing
        } else {
            Outcome::WrongState
        }
    }

    /// Does the item that a worker holds; if that is a message, it may have been read before.
    fn perform_item(
        &mut self,
        worker: Worker,
        held: Held,
        read: Option<&Parsed>,
        moment: u64,
    ) -> Result<(), NoMemory>
        requires held { machine.item_to_do self.old worker.0 ≡ Ok held }
        requires read { IsReadFor (option_copied read) (held_work self.old worker.0) }
        ensures outcome { OnOk result ((machine.step self.old (Step.Perform worker moment)).outcome ≡ outcome.Handled) }
        ensures world { OnOk result (self.new ≡ (machine.step self.old (Step.Perform worker moment)).world) }
        ensures err { OnErr result (self.new ≡ self.old) }
        ensures sure { IsFalse (wants_memory self.old (Step.Perform worker moment)) → IsOk result }
    {
        let may_have_ended = perform(
            &mut self.channel,
            &self.config,
            &mut self.resources,
            held,
            read,
            moment,
            &mut self.reply,
            &mut self.memory,
        )?;
        let place = worker.0 as usize;
        assert_unchecked(place < self.hands.len());
        places::free(&mut self.hands, place);
        free_owner(
            &mut self.channel,
            self.hands.as_slice(),
            held,
            may_have_ended,
        );
        Ok(())
    }

    /// Whether something is held that the work is not.
    pub fn is_stale(&self, worker: Worker, work: &Work) -> bool
        ensures stale { IsTrue result ↔ IsStale (held_work self.now worker.0) work.now }
        ensures fresh { IsFalse result → IsReadFor (bytes_of_work work.now) (held_work self.now worker.0) }
    {
        match self.held(worker) {
            Some(held) => !is_same_work(held, work),
            None => false,
        }
    }

    /// What a worker holds: the bytes of a message, or a pulse. None where there is no such worker or it holds nothing.
    pub fn held(&self, worker: Worker) -> Option<WorkRef<'_>>
        ensures { option_map work_now result ≡ held_work self.now worker.0 }
    {
        let held = self.item_to_do(worker)?;
        let OwnItem::Message { process, thread } = held.item else {
            return Some(WorkRef::Pulse);
        };
        let bytes = self.received(named_thread(held.user, process, thread))?;
        Some(WorkRef::Message(bytes))
    }

    /// The bytes of a thread's message that was received and is not served, though its process may have ended.
    fn received(&self, thread: Thread) -> Option<&MessageBytes>
        ensures { option_copied result ≡ received_bytes thread.tid (process_among_parts self.now.parts thread.proc) }
    {
        let process = self.channel.process(thread.proc)?;
        let Some(cell) = process.thread(thread.tid) else {
            return process.held(thread.tid);
        };
        match cell.taken() {
            Some(sent) => Some(&sent.bytes),
            None => process.held(thread.tid),
        }
    }

    /// Whether a worker holds an item. False where there is no such worker.
    pub fn holds(&self, worker: Worker) -> bool
        ensures { result ≡ is_some (row_at self.now.hands worker.0) }
    {
        self.hand(worker).is_some()
    }

    /// The answer that a thread has and has not yet taken. None for a thread that is not there.
    pub fn answer(&self, thread: Thread) -> Option<&Answer>
        ensures { option_copied result ≡ answer_of (row_among_parts self.now.parts thread) }
    {
        self.channel.thread(thread)?.answered()
    }

    /// Whether a thread has an answer that it has not yet taken. False for a thread that is not there.
    pub fn answered(&self, thread: Thread) -> bool
        ensures { result ≡ is_thread_answered (row_among_parts self.now.parts thread) }
    {
        self.answer(thread).is_some()
    }

    /// Whether a thread waits for an answer: its message stands in a line, or was received, or its call waits in a pipe.
    /// False for a thread that is not there.
    pub fn blocked(&self, thread: Thread) -> bool
        ensures { result ≡ is_thread_blocked (row_among_parts self.now.parts thread) }
    {
        match self.channel.thread(thread) {
            Some(cell) => cell.is_blocked(),
            None => false,
        }
    }

    /// How many numbers of a user's processes have a place, the 0 among them, which no process has: the number of each process
    /// is below. 0 where the user is not there.
    pub fn process_places(&self, user: User) -> u8
        ensures { result ≡ process_places (row_at self.now.parts user.0) }
    {
        match self.channel.processes(user) {
            Some(processes) => processes.places(),
            None => 0,
        }
    }

    /// How many numbers of a process' threads have a place, the 0 among them, which no thread has: the number of each thread is
    /// below. 0 where the process is not there, or has ended.
    pub fn thread_places(&self, proc: Proc) -> u8
        ensures { result ≡ thread_places (process_among_parts self.now.parts proc) }
    {
        match self.channel.process(proc) {
            Some(process) => process.places(),
            None => 0,
        }
    }

    /// Whether a process that takes a pulse now is told that it has none (C Library Reference: `MsgReceivePulse`).
    pub fn lacks_pulse(&self, proc: Proc) -> bool
        ensures { result ≡ is_no_pulse (machine.step self.now (Step.TakePulse proc)).outcome }
    {
        self.channel.lacks_pulse(proc)
    }

    /// How many items stand in a manager's line.
    pub fn waiting(&self, manager: Manager) -> usize
        ensures { result ≡ length (machine.line_of self.now manager) }
    {
        self.channel.len(manager)
    }

    /// The priority of the first item of a manager's line; none where the line is empty.
    pub fn first_prio(&self, manager: Manager) -> Option<Prio>
        ensures { result ≡ option_map (λ first. first.prio) (slice_get (machine.line_of self.now manager) 0) }
    {
        Some(self.channel.first(manager)?.prio)
    }

    /// The manager whose line a worker serves next: the first one, by number, in whose line an item stands; none where all
    /// lines are empty.
    pub fn next_manager(&self) -> Option<Manager>
        ensures { result ≡ next_manager self.now }
    {
        self.next_from(0)
    }

    /// The first manager, by number and from one on, in whose line an item stands. Managers with empty lines cost nothing.
    pub fn next_from(&self, number: usize) -> Option<Manager>
        ensures { result ≡ find (has_item self.now) (drop number managers) }
    {
        self.channel.next_from(number)
    }

    /// Tells that some steps lead to the world from boot.
    #[inline(always)]
    pub fn know_reached(&self)
        ensures { IsReached self.now }
    {
        let _config = &self.config;
    }

    /// The configuration.
    pub fn config(&self) -> &Config
        ensures { result.now ≡ self.now.config }
    {
        &self.config
    }

    /// The user by or for whom a step would be taken now: the client's; that of the item that a worker would take or
    /// do; else nobody.
    #[tactic(auto, unfolding(qx_machine::specs::Machine::owner))]
    pub fn owner(&self, step: &Step) -> Option<User>
        ensures { option_map (λ user. user.0) result ≡ machine.owner self.now step.now }
    {
        match step.actor() {
            Some(actor) => Some(actor.user()),
            None => self.server_owner(step),
        }
    }

    /// The user for whom a worker would take a step.
    fn server_owner(&self, step: &Step) -> Option<User>
        ensures { option_map (λ user. user.0) result ≡ machine.server_owner self.now step.now }
    {
        match step {
            Step::Receive { worker, manager } => self.receive_owner(*worker, *manager),
            Step::Perform { worker, .. } => self.perform_owner(*worker),
            _ => None,
        }
    }

    /// The user of the item that a worker would take.
    fn receive_owner(&self, worker: Worker, manager: Manager) -> Option<User>
        ensures { option_map (λ user. user.0) result ≡ machine.user_of_item (machine.item_to_take self.now worker.0 manager) }
    {
        if !self.is_worker(worker) || self.hand(worker).is_some() {
            return None;
        }
        Some(self.channel.first(manager)?.user)
    }

    /// The user of the item that a worker would do.
    fn perform_owner(&self, worker: Worker) -> Option<User>
        ensures { option_map (λ user. user.0) result ≡ machine.user_of_item (machine.item_to_do self.now worker.0) }
    {
        Some(self.item_to_do(worker)?.user)
    }
}

/// A hand for each worker, all of them empty.
fn empty_hands(alloc: Global, workers: u8) -> Result<Vec<Option<Held>>, AllocError>
    ensures { IfOk result (λ hands. hands.items ≡ None ∷ replicate workers None) }
{
    let mut hands = places::empty(alloc)?;
    for _ in 0..workers {
        hands.push(None)?;
    }
    Ok(hands)
}

/// An item goes into a worker's hand.
fn hold_in(hands: &mut Vec<Option<Held>>, worker: Worker, first: Queued)
    ensures { hands.new.items ≡ slice_set hands.old.items worker.0 (Some (record { user = first.user; item = first.item })) }
{
    let held = Held {
        user: first.user,
        item: first.item,
    };
    places::set(hands, worker.0 as usize, held);
}

// Functions of their own for these two: where a large function makes a large value of few bytes, the compiler clears a place
// for all of it at the function's beginning.

/// What a thread is told whose message was sent.
fn sent_outcome() -> Result<Outcome, NoMemory>
    ensures { result ≡ Ok outcome.Sent }
{
    Ok(Outcome::Sent)
}

/// What a worker is told that did its item.
fn handled_outcome() -> Result<Outcome, NoMemory>
    ensures { result ≡ Ok outcome.Handled }
{
    Ok(Outcome::Handled)
}

/// An item as it is shown.
fn shown_item(user: User, item: OwnItem) -> Item
    ensures { result ≡ machine.shown_item user.0 item }
{
    match item {
        OwnItem::Message { process, thread } => Item::Message(named_thread(user, process, thread)),
        OwnItem::Unblock {
            process,
            thread,
            ..
        } => Item::Unblock(named_thread(user, process, thread)),
        OwnItem::Disconnect { process, .. } => Item::Disconnect(Proc { user, num: process }),
    }
}

/// Whether the work is what is lent.
fn is_same_work(held: WorkRef<'_>, work: &Work) -> bool
    ensures { IsTrue result ↔ (work_now held.entry ≡ work.now) }
{
    match (held, work) {
        (WorkRef::Message(bytes), Work::Message(given)) => bytes == given.bytes(),
        (WorkRef::Pulse, Work::Pulse) => true,
        (WorkRef::Message(_), Work::Pulse) | (WorkRef::Pulse, Work::Message(_)) => false,
    }
}
