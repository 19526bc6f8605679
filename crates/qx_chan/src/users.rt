//! The processes of all users, from 1: a place for each number.

ghost use Rattle.std.specs.Prelude.{◌≡◌, ◌≤◌, IfOk, IsSome, OnOk, OnErr, OnSome, None, Some, slice_set};
ghost use Rattle.std.specs.Option.{option_copied, option_copied_mut};
ghost use Rattle.std.specs.Borrow.{sem};
ghost use Rattle.qx_types.specs.declared.limits.TheConstants.Limits.{PROCESSES, THREADS};
ghost use Rattle.qx_types.specs.declared.outcome.Answer.TheVariants.{Failed};
ghost use Rattle.qx_machine.specs.Performing.{called_by};
ghost use Rattle.qx_machine.specs.Processes.{answered_thread, asked_thread, ended, living, new_process, taken_thread, without_server};
ghost use Rattle.qx_isolation.specs.Rows.{put_row, row_at, with_row};
ghost use Rattle.qx_process.specs.Reads.{BringsRoom, IsPriority};
ghost use Rattle.qx_clients.specs.Calls.{EndsAt, LosesAt};
ghost use Rattle.qx_chan.specs.Channel.{failed};
ghost use Rattle.qx_chan.specs.inner.Users.{HasPlace};
ghost use Rattle.qx_chan.specs.Users.{no_processes, process_of, thread_row, with_process_of, with_thread_row};

use qx_clients::Processes;
use qx_hint::as_mut_unchecked;
use qx_machine::{Over, ServerName};
use qx_process::{Process, ThreadCell};
use qx_rows::{Room, places};
use qx_types::{Answer, Errno, Manager, Prio, Proc, Thread, User, UserLimits};
use std::alloc::{AllocError, Global};
use std::marker::Model;

/// The processes of all users.
#[derive(Drop)]
pub struct Users {
    rows: Vec<Option<Processes>>,
}

impl Model for Users {
    ghost use Rattle.std.specs.Prelude.{List, Option};
    ghost use Rattle.qx_machine.specs.Processes as machine;

    ghost Value = { List (Option (List (Option machine.Process))) };

    ghost view = { λ u. u.rows.items };
}

impl Users {
    ghost use Rattle.qx_chan.specs.inner.Lends.{lends_process_of, lends_process_there, lends_processes, lends_processes_there, lends_thread_row, lends_thread_there};

    /// Users from 1 to this many, with no process.
    pub fn new(alloc: Global, users: usize) -> Result<Self, AllocError>
        ensures none { IfOk result (λ column. column ≡ no_processes users) }
    {
        let mut rows = places::empty(alloc)?;
        for _ in 0..users {
            rows.push(Some(Processes::new(alloc)?))?;
        }
        Ok(Users { rows })
    }

    /// The processes of a user.
    pub fn processes(&self, user: User) -> Option<&Processes>
        ensures row { option_copied result ≡ row_at self.now user.0 }
    {
        places::row(self.rows.as_slice(), user.0 as usize)
    }

    /// The processes of a user, for writing.
    pub fn processes_mut(&mut self, user: User) -> Option<&mut Processes>
        ensures* writes_back { sem 𝓛 (lends_processes self.entry user.0 result) }
        ensures row { option_copied_mut result ≡ row_at self.old user.0 }
    {
        self.rows.get_mut(user.0 as usize)?.as_mut()
    }

    /// A process.
    pub fn process(&self, proc: Proc) -> Option<&Process>
        ensures row { option_copied result ≡ process_of self.now proc }
        ensures within { OnSome result (proc.num ≤ PROCESSES) }
    {
        self.processes(proc.user)?.process(proc.num)
    }

    /// A process that has not ended.
    pub fn living(&self, proc: Proc) -> Option<&Process>
        ensures row { option_copied result ≡ living (process_of self.now proc) }
        ensures within { OnSome result (proc.num ≤ PROCESSES) }
    {
        self.processes(proc.user)?.living(proc.num)
    }

    /// A process, for writing.
    pub fn process_mut(&mut self, proc: Proc) -> Option<&mut Process>
        ensures* writes_back { sem 𝓛 (lends_process_of self.entry proc result) }
        ensures row { option_copied_mut result ≡ process_of self.old proc }
    {
        self.processes_mut(proc.user)?.process_mut(proc.num)
    }

    /// A thread; none where it is not there.
    pub fn thread(&self, thread: Thread) -> Option<&ThreadCell>
        ensures row { option_copied result ≡ thread_row self.now thread }
    {
        self.process(thread.proc)?.thread(thread.tid)
    }

    /// A thread, for writing.
    pub fn thread_mut(&mut self, thread: Thread) -> Option<&mut ThreadCell>
        ensures* writes_back { sem 𝓛 (lends_thread_row self.entry thread result) }
        ensures row { option_copied_mut result ≡ thread_row self.old thread }
    {
        self.processes_mut(thread.proc.user)?
            .thread_mut(thread.proc.num, thread.tid)
    }

    /// The processes of a user that is there, for writing.
    fn processes_there(&mut self, user: User) -> &mut Processes
        requires there { IsSome (row_at self.old user.0) }
        ensures* writes_back { sem 𝓛 (lends_processes_there self.entry user.0 result) }
        ensures row { row_at self.old user.0 ≡ Some result.now }
    {
        as_mut_unchecked(&mut self.rows[user.0 as usize])
    }

    /// A process that is there, for writing.
    fn process_there(&mut self, proc: Proc) -> &mut Process
        requires there { IsSome (process_of self.old proc) }
        ensures* writes_back { sem 𝓛 (lends_process_there self.entry proc result) }
        ensures row { process_of self.old proc ≡ Some result.now }
    {
        self.processes_there(proc.user).process_there(proc.num)
    }

    /// A thread that is there, for writing.
    fn thread_there(&mut self, thread: Thread) -> &mut ThreadCell
        requires there { IsSome (thread_row self.old thread) }
        ensures* writes_back { sem 𝓛 (lends_thread_there self.entry thread result) }
        ensures row { thread_row self.old thread ≡ Some result.now }
    {
        self.process_there(thread.proc).thread_there(thread.tid)
    }

    /// Starts a process under a number.
    #[tactic(auto, using(crate::proofs::ProcessLemmas::lends))]
    pub fn start(
        &mut self,
        alloc: Global,
        proc: Proc,
        threads: u8,
        prio: Prio,
    ) -> Result<(), AllocError>
        requires few { proc.num ≤ PROCESSES }
        requires threads { threads ≤ THREADS }
        requires priority { IsPriority prio.0 }
        ensures ok { OnOk result (self.new ≡ with_row self.old proc.user.0 (λ processes. put_row processes proc.num (new_process threads prio.0))) }
        ensures places { HasPlace (row_at self.old proc.user.0) }
        ensures err { OnErr result (self.new ≡ self.old) }
    {
        if let Some(processes) = self.processes_mut(proc.user) {
            processes.start(alloc, proc.num, threads, prio)?;
        }
        Ok(())
    }

    /// A thread's message is received.
    #[tactic(auto, using(crate::proofs::ProcessLemmas::lends))]
    pub fn take(&mut self, thread: Thread)
        requires there { IsSome (thread_row self.old thread) }
        ensures taken { self.new ≡ with_thread_row self.old thread taken_thread }
    {
        self.thread_there(thread).take()
    }

    /// A thread's message, which was received, is asked to unblock it.
    #[tactic(auto, using(crate::proofs::ProcessLemmas::lends))]
    pub fn ask_unblock(&mut self, thread: Thread)
        requires there { IsSome (thread_row self.old thread) }
        ensures asked { self.new ≡ with_thread_row self.old thread asked_thread }
    {
        self.thread_there(thread).ask_unblock()
    }

    /// A thread whose call waited gets the answer, with the room for its replies, unless the answer took that along. Gives the
    /// manager that it had called.
    #[tactic(auto, using(crate::proofs::ProcessLemmas::lends))]
    pub fn answer(&mut self, thread: Thread, answer: Answer, room: Option<Room>) -> Manager
        requires there { IsSome (thread_row self.old thread) }
        requires room { BringsRoom answer room (thread_row self.old thread) }
        ensures called { result ≡ called_by (thread_row self.old thread) }
        ensures answered { self.new ≡ with_thread_row self.old thread (answered_thread answer) }
    {
        let cell = self.thread_there(thread);
        let called = cell.called();
        cell.answer(answer, room);
        called
    }

    /// A thread gets an error, which gives back what its call attached, with the room for its replies where that had gone.
    /// Gives the server connection that its process has lost with that.
    #[tactic(auto, using(crate::proofs::ProcessLemmas::lends))]
    #[inline(always)]
    pub fn fail(
        &mut self,
        thread: Thread,
        over: Over,
        error: Errno,
        room: Option<Room>,
    ) -> Option<ServerName>
        requires room { BringsRoom (Failed error) room (thread_row self.old thread) }
        ensures failed { self.new ≡ with_process_of self.old thread.proc (failed thread.tid error over) }
        ensures lost { LosesAt result (process_of self.old thread.proc) (process_of self.new thread.proc) }
    {
        self.process_mut(thread.proc)?
            .fail(thread.tid, over, error, room)
    }

    /// A process ends, and loses the server connections that it used.
    #[tactic(auto, using(crate::proofs::ProcessLemmas::lends))]
    pub fn end(&mut self, alloc: Global, proc: Proc)
        ensures ended { self.new ≡ with_process_of self.old proc ended }
        ensures lost { EndsAt (process_of self.old proc) (process_of self.new proc) }
    {
        if let Some(process) = self.process_mut(proc) {
            process.end(alloc);
        }
    }

    /// A process goes, and its number is free.
    #[tactic(auto, using(crate::proofs::ProcessLemmas::lends))]
    pub fn free_ended(&mut self, proc: Proc)
        ensures freed { self.new ≡ with_row self.old proc.user.0 (λ processes. slice_set processes proc.num None) }
    {
        if let Some(processes) = self.processes_mut(proc.user) {
            processes.free_ended(proc.num);
        }
    }

    /// A server connection of a process that was left goes.
    #[tactic(auto, using(crate::proofs::ProcessLemmas::lends))]
    pub fn free_server(&mut self, proc: Proc, server: ServerName)
        ensures freed { self.new ≡ with_process_of self.old proc (without_server server) }
    {
        if let Some(process) = self.process_mut(proc) {
            process.free_server(server);
        }
    }
}
