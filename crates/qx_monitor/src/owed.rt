//! What a thread owes that took a step under the lock, or began to wait there. What is neither `Copy` nor `Drop` here can't be let
//! fall: only what does it takes it. And what is told of a server that was stopped.

ghost use Rattle.std.specs.Prelude.{◌≡◌};

use crate::waits::{Looks, ThreadSet, Woken};

/// Clients to wake, whose threads have what they wait for: an answer, and a pulse of their process. `wake_clients` takes it.
pub struct Released {
    pub(crate) answered: ThreadSet,
    pub(crate) pulsed: ThreadSet,
}

/// Which worker is to be woken as the lock is let go. `wake_worker` takes it.
pub struct Wake {
    pub(crate) who: Woken,
}

/// A wait that began under the lock. `lock_for` takes it.
pub struct Begun {
    pub(crate) looks: Looks,
    /// None where what is awaited was there, or the server was stopped; else how many notifications there were.
    pub(crate) seen: Option<u64>,
}

/// A worker wants memory. `stop_for` takes it, which stops the server.
pub struct Short(());

impl Short {
    pub(crate) fn new() -> Short {
        Short(())
    }

    pub(crate) fn end(self) {
        let Short(_) = self;
    }
}

/// A server was stopped, as `Locked::stopped` saw it.
#[derive(Clone, Copy, Debug, PartialEq, Eq)]
pub struct WasStopped(());

impl WasStopped {
    /// Told of a server that was stopped.
    pub(crate) fn seen() -> WasStopped {
        WasStopped(())
    }
}
