//! A server: a monitor over a world, and how many seats were made there; and a look at what lies under its lock.

ghost use Rattle.std.specs.Prelude.{◌≡◌};
ghost use Rattle.std.specs.Sync.Mutex.{mutex_guard_value};

use qx_monitor::{Bells, Locked, Monitor};
use qx_world::UnderLock;
use std::marker::Model;
use std::sync::{MutexGuard, Wait};

/// A world under a lock, to which workers and clients come.
#[derive(Drop)]
pub struct ServerOf<S: UnderLock> {
    pub(crate) monitor: Monitor<S>,
    /// How many seats were made; 0 where they are not counted.
    pub(crate) made: usize,
}

/// What lies under a server's lock, lent for reading. The lock is held until this goes, so what is read meanwhile is of one moment;
/// a thread that calls or serves before that waits for itself.
#[derive(Drop)]
pub struct Look<'a, S: UnderLock> {
    guard: MutexGuard<'a, Locked<S>>,
}

/// Contracts see how many seats were made, where they are counted.
impl<S: UnderLock> Model for ServerOf<S> {
    ghost use Rattle.std.specs.Prelude.{◌≡◌, ℕ};

    ghost Value = { ℕ };

    ghost view = { λ s. s.made };

    ghost invariant = { λ s. s.made ≡ S.seats };
}

impl<S: UnderLock> ServerOf<S> {
    /// A server of what lies under its lock then, and so many seats.
    pub(crate) fn over(under: S, bells: Bells, made: usize) -> ServerOf<S>
        requires { made ≡ S.seats }
        ensures { result ≡ made }
    {
        let monitor = Monitor::new(under, bells);
        ServerOf { monitor, made }
    }

    /// What lay under the lock, once all threads have left.
    pub fn into_under(self) -> S {
        let ServerOf { monitor, made: _ } = self;
        monitor.into_under()
    }

    /// Takes the lock, to read what lies under it.
    pub fn look(&self, rt: &impl Wait) -> Look<'_, S> {
        let guard = self.monitor.lock(rt);
        Look { guard }
    }

    /// Ends the service: loops end once all lines are empty, clients that wait are answered `Stopped`, their calls standing
    /// where they stand, and so are later calls.
    pub fn stop(&self, rt: &impl Wait) {
        self.monitor.stop(rt);
    }
}

impl<S: UnderLock> Look<'_, S> {
    /// What lies under the lock.
    pub fn under(&self) -> &S
        ensures { result.now ≡ (mutex_guard_value self.now.guard).under }
    {
        self.guard.under()
    }
}
