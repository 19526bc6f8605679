ghost use Rattle.std.specs.Prelude.{◌≡◌};
ghost use Rattle.qx_types.specs.Step.{actor_of, is_client_step};

use crate::names::{Actor, Manager, Prio, Proc, Thread, User, Worker};
use crate::request::Request;
use qx_base::Bytes;
use std::alloc::AllocError;

/// One step of the system, taken by a client or by a worker.
#[derive(Debug, PartialEq, Eq)]
pub enum Step {
    /// Starts a process of so many threads, each of that priority.
    Spawn {
        user: User,
        threads: u8,
        prio: Prio,
    },
    /// Ends a process (C Library Reference: `_exit`).
    Exit {
        proc: Proc,
    },
    /// Sends a request as a message and blocks the thread (C Library Reference: `MsgSend`).
    Call {
        thread: Thread,
        request: Request,
    },
    /// Takes the answer that unblocks the thread.
    TakeReply {
        thread: Thread,
    },
    /// Takes the first pulse of a process (C Library Reference: `MsgReceivePulse`).
    TakePulse {
        proc: Proc,
    },
    /// Gives a thread another priority; a message that it sent keeps the one that it was sent with (C Library
    /// Reference: `SchedSet`).
    SetPrio {
        thread: Thread,
        prio: Prio,
    },
    /// Asks to unblock a thread from its call (System Architecture: the pulse that asks a server to unblock a client;
    /// C Library Reference: `MsgSend`, EINTR).
    Interrupt {
        thread: Thread,
    },
    /// Attaches a manager at a path under the user's own name (C Library Reference: `resmgr_attach`; that a client does
    /// it for its own user alone is this profile).
    Mount {
        thread: Thread,
        path: Bytes,
        manager: Manager,
    },
    /// Takes the first item of a manager's line (C Library Reference: `MsgReceive`).
    Receive {
        worker: Worker,
        manager: Manager,
    },
    /// Does what the worker holds, at a moment that becomes the times of what it changes.
    Perform {
        worker: Worker,
        moment: u64,
    },
}

/// As it would be derived; but what drops a step is proved with one call at each exit, and not with a case for each kind.
impl Drop for Step {
    fn drop(self) {
        match self {
            Step::Spawn {
                user: _,
                threads: _,
                prio: _,
            }
            | Step::Exit { proc: _ }
            | Step::Call {
                thread: _,
                request: _,
            }
            | Step::TakeReply { thread: _ }
            | Step::TakePulse { proc: _ }
            | Step::SetPrio { thread: _, prio: _ }
            | Step::Interrupt { thread: _ }
            | Step::Mount {
                thread: _,
                path: _,
                manager: _,
            }
            | Step::Receive {
                worker: _,
                manager: _,
            }
            | Step::Perform {
                worker: _,
                moment: _,
            } => {}
        }
    }
}

impl Step {
    /// Who takes a client's step; nobody where a worker takes it.
    pub fn actor(&self) -> Option<Actor>
        ensures { result ≡ actor_of self.now }
    {
        match self {
            Step::Spawn { user, .. } => Some(Actor::OfUser(*user)),
            Step::Exit { proc } | Step::TakePulse { proc } => Some(Actor::OfProc(*proc)),
            Step::Call { thread, .. }
            | Step::TakeReply { thread }
            | Step::SetPrio { thread, .. }
            | Step::Interrupt { thread }
            | Step::Mount { thread, .. } => Some(Actor::OfThread(*thread)),
            Step::Receive { .. } | Step::Perform { .. } => None,
        }
    }

    /// Whether a client takes the step, and not a worker.
    pub fn is_client(&self) -> bool
        ensures { result ≡ is_client_step self.now }
    {
        self.actor().is_some()
    }
}

// Written out and not derived, so that its contract says outright that the copy is equal.
impl Clone for Step {
    ghost is_clone = { λ original copy. copy ≡ original };

    fn clone(&self) -> Result<Step, AllocError> {
        Ok(match self {
            Step::Spawn {
                user,
                threads,
                prio,
            } => Step::Spawn {
                user: *user,
                threads: *threads,
                prio: *prio,
            },
            Step::Exit { proc } => Step::Exit { proc: *proc },
            Step::Call { thread, request } => Step::Call {
                thread: *thread,
                request: request.clone()?,
            },
            Step::TakeReply { thread } => Step::TakeReply { thread: *thread },
            Step::TakePulse { proc } => Step::TakePulse { proc: *proc },
            Step::SetPrio { thread, prio } => Step::SetPrio {
                thread: *thread,
                prio: *prio,
            },
            Step::Interrupt { thread } => Step::Interrupt { thread: *thread },
            Step::Mount {
                thread,
                path,
                manager,
            } => Step::Mount {
                thread: *thread,
                path: path.clone()?,
                manager: *manager,
            },
            Step::Receive { worker, manager } => Step::Receive {
                worker: *worker,
                manager: *manager,
            },
            Step::Perform { worker, moment } => Step::Perform {
                worker: *worker,
                moment: *moment,
            },
        })
    }
}
