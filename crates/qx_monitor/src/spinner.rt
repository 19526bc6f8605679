//! How a thread that waits spins before it sleeps.

use std::hint::spin_loop;
use std::sync::Condvar;

/// How often a thread looks whether it was notified: some 120 microseconds. That is longer than it takes to wake another thread, so
/// that two threads that both came to sleep find back to spinning, and longer than the kernel most often keeps a processor from one.
const LOOKS: u32 = 16_000;

/// After so many spins in vain, one after another, a thread sleeps at once.
const VAIN: u32 = 4;

/// From then on it spins once in so many waits.
const TRIAL: u32 = 64;

/// So often a thread asks for a lock before it sleeps, some 8 microseconds long.
pub(crate) const LOCK_TRIES: u32 = 64;

/// How a spin ended.
#[derive(Clone, Copy, Debug, PartialEq, Eq)]
pub(crate) enum SpinEnd {
    /// The thread was notified.
    Told,
    /// It was not, for as long as it looked.
    InVain,
    /// It did not look, as that hardly pays.
    Skipped,
}

/// Whether a thread spins before it sleeps. Where what it waits for comes within the spin, as by a thread on another
/// processor, neither has to ask the kernel; where it doesn't, as on one processor, or where another thread takes it first,
/// the time is lost. So it spins as long as that pays.
#[derive(Debug, Drop)]
pub struct Spinner {
    /// How many waits there were since a spin paid.
    vain: u32,
}

impl Spinner {
    /// Spins at its first wait.
    pub fn new() -> Spinner {
        Spinner { vain: 0 }
    }

    /// Waits for more notifications than were seen, for a while, or not at all where that hardly pays.
    pub(crate) fn spin(&mut self, watched: &Condvar, seen: u64) -> SpinEnd {
        let may_pay = self.vain < VAIN || self.vain.is_multiple_of(TRIAL);
        self.vain = self.vain.wrapping_add(1);
        if !may_pay {
            return SpinEnd::Skipped;
        }
        for _ in 0..LOOKS {
            if watched.notifications() != seen {
                return SpinEnd::Told;
            }
            spin_loop();
        }
        SpinEnd::InVain
    }

    /// What the thread waited for is there after its spin.
    pub(crate) fn paid(&mut self) {
        self.vain = 0;
    }
}

/// Waits for some tenth of a microsecond.
pub(crate) fn pause() {
    for _ in 0..16 {
        spin_loop();
    }
}
