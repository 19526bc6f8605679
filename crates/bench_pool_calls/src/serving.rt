//! What workers do between a receive and its perform, and what tells them the moment.

use qx_pool::{Clock, Gate};
use qx_types::{Item, Worker};
use std::sync::Wait;
use std::sync::atomic::{AtomicU64, Ordering};
use std::thread;

/// Lets another thread run at one in 16 of the items that pass; or at none, so that the kernel is not entered.
#[derive(Drop)]
pub struct Yielding {
    passed: AtomicU64,
    yields: bool,
}

impl Yielding {
    pub fn new(yields: bool) -> Yielding {
        Yielding {
            passed: AtomicU64::new(0),
            yields,
        }
    }
}

impl Gate for Yielding {
    fn between(&self, _rt: &impl Wait, _worker: Worker, _item: Item) {
        if self.yields && self.passed.fetch_add(1, Ordering::SeqCst) % 16 == 0 {
            thread::yield_now();
        }
    }
}

/// Counts the moments.
#[derive(Drop)]
pub struct Counting(pub AtomicU64);

impl Clock for Counting {
    fn moment(&self) -> u64 {
        self.0.fetch_add(1, Ordering::SeqCst)
    }
}
