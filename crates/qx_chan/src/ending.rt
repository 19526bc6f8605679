//! A process that ends, what it has in lines and pipes, and how it is freed.

ghost use Rattle.std.specs.Prelude.{◌≡◌, ◌≤◌, ℕ, length};
ghost use Rattle.std.specs.Option.{option_copied};
ghost use Rattle.qx_types.specs.Configuration.{limits_of};
ghost use Rattle.qx_types.specs.Managers.{manager_count};
ghost use Rattle.qx_machine.specs.Processes.{living};
ghost use Rattle.qx_chan.specs.Channel.{after_exit, after_freeing, exit_outcome};
ghost use Rattle.qx_clients.specs.Calls.{has_ended_in};
ghost use Rattle.qx_chan.specs.Users.{process_of, thread_row};
ghost use Rattle.qx_chan.specs.inner.Ending.{Drops, DropsBelow, StandsFor};

use crate::channel::Channel;
use crate::servers;
use crate::users::Users;
use qx_process::ThreadCell;
use qx_shared::Shared;
use qx_types::{Config, Outcome, Proc, Thread};
use std::alloc::Global;

impl Channel {
    /// A process ends (C Library Reference: `_exit`; System Architecture: a client that dies): the messages of its threads
    /// that stand in lines go, and the pulses that ask to unblock them; its answers, its untaken pulses and its connections go.
    /// Each server connection that it used gives its manager a disconnect pulse. Its calls that wait in pipes stay there until
    /// these are worked on, and what workers hold of it stays lent. `WrongState` where it is not there or has ended.
    pub fn exit(&mut self, alloc: Global, config: &Config, proc: Proc) -> Outcome
        ensures outcome { result ≡ exit_outcome (living (process_of self.old.users proc)) }
        ensures ended { self.new ≡ after_exit (limits_of config.now proc.user.0).disconnect self.old proc }
    {
        let Some(process) = self.users.living(proc) else {
            return Outcome::WrongState;
        };
        let queues = &mut self.tables.shared;
        drop_all_items(queues, &self.users, proc, process.places());
        queues.abandon(proc);
        servers::disconnect_all(queues, config, proc, process);
        self.tables.events.clear(proc);
        self.users.end(alloc, proc);
        Outcome::Done
    }

    /// Whether a process is there and has ended.
    pub fn has_ended(&self, proc: Proc) -> bool
        ensures { result ≡ has_ended_in (process_of self.now.users proc) }
    {
        match self.users.process(proc) {
            Some(process) => process.has_ended(),
            None => false,
        }
    }

    /// A process that has ended is freed, with its number and the nodes of its threads, once it has no server connection and no
    /// call of it waits; else nothing happens. That no worker holds an item of it is the caller's to see.
    pub fn free_ended(&mut self, proc: Proc)
        ensures freed { self.new ≡ record (after_freeing self.old proc) { room = self.new.room } }
        ensures room { self.old.room ≤ self.new.room }
    {
        let Some(process) = self.users.process(proc) else {
            return;
        };
        if !process.has_ended() || process.has_server() || self.tables.shared.has_waiting(proc) {
            return;
        }
        self.tables.shared.remove_process(proc);
        self.users.free_ended(proc);
    }
}

/// What a thread has in a line leaves it: its message, or the pulse that asks to unblock it.
fn drop_items(queues: &mut Shared, thread: Thread, cell: Option<&ThreadCell>)
    requires stands { StandsFor queues.old thread (option_copied cell) }
    requires managers { length queues.old.lines ≡ manager_count }
    ensures dropped { Drops queues.old queues.new thread (option_copied cell.entry) }
{
    let Some(cell) = cell else {
        return;
    };
    if let Some(sent) = cell.queued() {
        queues.withdraw(sent.target.manager, thread);
    } else if let Some(sent) = cell.unanswered() {
        queues.reply(sent.target.manager, thread, cell.calls());
    }
}

/// What the threads of a process have in lines leaves them, those that have the first so many places.
fn drop_all_items(queues: &mut Shared, users: &Users, proc: Proc, places: u8)
    requires stands { (tid : ℕ) → StandsFor queues.old (record { proc = proc; tid = tid }) (thread_row users.now (record { proc = proc; tid = tid })) }
    requires managers { length queues.old.lines ≡ manager_count }
    ensures dropped { DropsBelow users.now queues.old queues.new proc places }
{
    for tid in 0..places {
        let thread = Thread { proc, tid };
        drop_items(queues, thread, users.thread(thread));
    }
}
