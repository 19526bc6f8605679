//! The nodes of all threads and of all server connections: made with them, so that a message and a pulse take none.

ghost use Rattle.std.specs.Prelude.{◌≡◌, ◌≢◌, ◌<◌, ◌≤◌, ◌+◌, ℕ, None, length, is_some, option_map, IfOk, IfSome, IsSome, IsTrue, Some};
ghost use Rattle.qx_types.specs.Managers.{manager_number};
ghost use Rattle.qx_types.specs.declared.limits.TheConstants.Limits.{PROCESSES, THREADS};
ghost use Rattle.qx_types.specs.declared.names.TheConstants.Manager.{MOST};
ghost use Rattle.qx_isolation.specs.Rows.{row_at};
ghost use Rattle.qx_queues.specs.Nodes.{Asked, disconnect_at, no_nodes, no_process, nodes_of_thread, process_at, process_nodes_in, servers_with, threads_with, user_with, with_disconnect_at, with_nodes_at};

use qx_rows::places;
use qx_types::{Limits, Manager, Proc, Thread};
use std::alloc::{AllocError, Global};
use std::marker::Model;

/// A thread's nodes: that of its messages, and that of the pulses that ask to unblock it, of which one stands in a line
/// at most: that of the manager that is asked.
#[derive(Clone, Copy, Debug, PartialEq, Eq)]
pub struct ThreadNodes {
    pub message: usize,
    pub unblock: usize,
    pub asked: Option<Manager>,
}

/// The nodes of a process: those of its threads, by number, and those of its server connections.
#[derive(Clone, Copy, Debug, PartialEq, Eq)]
pub struct ProcessNodes {
    threads: [Option<ThreadNodes>; Limits::THREADS as usize + 1],
    servers: [Option<usize>; Manager::MOST],
}

impl ProcessNodes {
    const NONE: ProcessNodes = ProcessNodes {
        threads: [None; Limits::THREADS as usize + 1],
        servers: [None; Manager::MOST],
    };

    fn set(&mut self, thread: u8, own: Option<ThreadNodes>)
        requires thread { thread ≤ THREADS }
        ensures set { self.new ≡ threads_with self.old thread own }
        ensures there { row_at self.new.threads thread ≡ own }
    {
        self.threads[thread as usize] = own;
    }

    fn disconnect(&self, manager: usize) -> Option<usize>
        requires manager { manager < MOST }
        ensures node { result ≡ row_at self.now.servers manager }
    {
        self.servers[manager]
    }

    fn set_disconnect(&mut self, manager: usize, node: Option<usize>)
        requires manager { manager < MOST }
        ensures set { self.new ≡ servers_with self.old manager node }
        ensures there { row_at self.new.servers manager ≡ node }
    {
        self.servers[manager] = node;
    }
}

/// The nodes of a user, by process.
#[derive(Clone, Copy, Debug, PartialEq, Eq)]
pub struct UserNodes {
    processes: [ProcessNodes; Limits::PROCESSES + 1],
}

impl UserNodes {
    const NONE: UserNodes = UserNodes {
        processes: [ProcessNodes::NONE; Limits::PROCESSES + 1],
    };

    fn set(&mut self, process: u8, thread: u8, own: Option<ThreadNodes>)
        requires process { process ≤ PROCESSES }
        requires thread { thread ≤ THREADS }
        ensures set { self.new ≡ user_with self.old process (threads_with (process_nodes_in self.old process) thread own) }
        ensures there { row_at (process_nodes_in self.new process).threads thread ≡ own }
    {
        self.processes[process as usize].set(thread, own);
    }

    fn set_disconnect(&mut self, process: u8, manager: usize, node: Option<usize>)
        requires manager { manager < MOST }
        ensures set { self.new ≡ user_with self.old process (servers_with (process_nodes_in self.old process) manager node) }
        ensures there { process_nodes_in self.old process ≢ no_process → row_at (process_nodes_in self.new process).servers manager ≡ node }
    {
        let place = process as usize;
        if place < self.processes.len() {
            self.processes[place].set_disconnect(manager, node);
        }
    }
}

/// The nodes of all threads and of all server connections, by user and process.
#[derive(Drop)]
pub struct Nodes {
    users: Vec<UserNodes>,
}

impl Model for Nodes {
    ghost use Rattle.std.specs.Prelude.{List};
    ghost use Rattle.qx_queues.specs.declared.nodes.UserNodes.{UserNodes};

    ghost Value = { List UserNodes };

    ghost view = { λ n. n.users.items };
}

impl Nodes {
    /// No nodes for users from 1 to this many.
    pub fn new(alloc: Global, users: usize) -> Result<Self, AllocError>
        requires few { users < 256 }
        ensures none { IfOk result (λ nodes. nodes ≡ no_nodes users) }
    {
        let mut places = Vec::new(alloc);
        for _ in 0..users + 1 {
            places.push(UserNodes::NONE)?;
        }
        Ok(Nodes { users: places })
    }

    /// A thread's nodes.
    pub fn at(&self, thread: Thread) -> Option<ThreadNodes>
        ensures own { result ≡ nodes_of_thread self.now thread }
        ensures place { IfSome result (λ own. (thread.proc.user.0 < length self.now) × (thread.proc.num ≤ PROCESSES) × (thread.tid ≤ THREADS)) }
    {
        let of_user = self.users.get(thread.proc.user.0 as usize)?;
        let of_process = of_user.processes.get(thread.proc.num as usize)?;
        *of_process.threads.get(thread.tid as usize)?
    }

    /// The nodes of a thread that has some.
    pub fn there(&self, thread: Thread) -> &ThreadNodes
        requires there { IsSome (nodes_of_thread self.now thread) }
        ensures own { nodes_of_thread self.now thread ≡ Some result.now }
    {
        let _known = self.at(thread);
        let of_user = &self.users[thread.proc.user.0 as usize];
        let of_process = &of_user.processes[thread.proc.num as usize];
        places::there(&of_process.threads, thread.tid as usize)
    }

    /// The nodes of a process' threads, by number.
    pub fn threads(&self, proc: Proc) -> &[Option<ThreadNodes>]
        ensures own { (number : ℕ) → row_at result.now number ≡ row_at (process_at self.now proc).threads number }
        ensures few { length result.now ≤ THREADS + 1 }
    {
        let Some(of_user) = self.users.get(proc.user.0 as usize) else {
            return &[];
        };
        match of_user.processes.get(proc.num as usize) {
            Some(of_process) => &of_process.threads,
            None => &[],
        }
    }

    /// Tells which numbers threads of a process have that have nodes.
    pub fn know(&self, proc: Proc)
        ensures few { (thread : ℕ) → THREADS < thread → nodes_of_thread self.now (record { proc = proc; tid = thread }) ≡ None }
    {
        let _threads = self.threads(proc);
    }

    /// A thread has these nodes from now on, or none.
    pub fn set(&mut self, thread: Thread, own: Option<ThreadNodes>)
        requires user { thread.proc.user.0 < length self.old }
        requires process { thread.proc.num ≤ PROCESSES }
        requires thread { thread.tid ≤ THREADS }
        ensures set { self.new ≡ with_nodes_at self.old thread own }
        ensures there { nodes_of_thread self.new thread ≡ own }
    {
        self.users[thread.proc.user.0 as usize].set(thread.proc.num, thread.tid, own);
    }

    /// A thread's unblock pulse stands in a manager's line from now on, or in none.
    pub fn set_asked(&mut self, thread: Thread, asked: Option<Manager>)
        requires there { IsTrue (is_some (nodes_of_thread self.old thread)) }
        ensures asked { Asked self.old self.new thread (option_map manager_number asked) }
    {
        let Some(own) = self.at(thread) else {
            unreachable!();
        };
        self.set(thread, Some(ThreadNodes { asked, ..own }));
    }

    /// The disconnect node of a process' server connection at a manager of this number, until it goes into the line there.
    pub fn disconnect(&self, proc: Proc, manager: usize) -> Option<usize>
        requires manager { manager < MOST }
        ensures node { result ≡ disconnect_at self.now proc manager }
    {
        let of_user = self.users.get(proc.user.0 as usize)?;
        of_user
            .processes
            .get(proc.num as usize)?
            .disconnect(manager)
    }

    /// A process has another disconnect node at a manager of this number from now on, or none.
    pub fn set_disconnect(&mut self, proc: Proc, manager: usize, node: Option<usize>)
        requires manager { manager < MOST }
        ensures set { self.new ≡ with_disconnect_at self.old proc manager node }
        ensures there { process_at self.old proc ≢ no_process → disconnect_at self.new proc manager ≡ node }
    {
        let place = proc.user.0 as usize;
        if place < self.users.len() {
            self.users[place].set_disconnect(proc.num, manager, node);
        }
    }
}
