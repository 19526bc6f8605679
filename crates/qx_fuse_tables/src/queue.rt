//! The requests of one user that wait for a free thread.
ghost use Rattle.std.specs.Prelude.{◌≡◌, [], IfOk, OnErr, OnOk, length, nat_lt};
ghost use Rattle.qx_fuse_tables.specs.Queue.{is_ready, place_of, put, ready_place};
ghost use Rattle.qx_fuse_tables.specs.Waits.{item_at, without_at};

use crate::items::take_at;
use crate::threads::thread_for;
use crate::waits::{Wait, Waits};
use qx_types::Bytes;
use std::alloc::{AllocError, Global};
use std::marker::Model;

/// A request that has no thread yet: the process over whose connection it goes, for what it may wait, and its bytes, which are read
/// again when it is taken up.
#[derive(Debug, Drop)]
pub struct Queued {
    pub unique: u64,
    pub process: u8,
    pub wait: Wait,
    pub bytes: Bytes,
}

/// The requests of one user that have no thread yet, in the order in which they came.
#[derive(Drop)]
pub struct Queue {
    queued: Vec<Queued>,
}

impl Model for Queue {
    ghost use Rattle.qx_fuse_tables.specs.Queue.{QueuedList};

    ghost Value = { QueuedList };

    ghost view = { λ queue. queue.queued.items };
}

/// Whether there is a thread for a request.
fn is_ready(tids: &[u8], writers: u8, waits: &Waits, one: &Queued) -> bool
    ensures { result ≡ is_ready tids.now writers waits.now one.now }
{
    thread_for(tids, writers, waits, one.process, one.wait).is_some()
}

impl Queue {
    /// None, for which no memory is taken.
    pub fn new(alloc: Global) -> Queue
        ensures none { result ≡ [] }
    {
        Queue {
            queued: Vec::new(alloc),
        }
    }

    /// Puts a request behind the others, unless there are as many as there may be; whether it was put.
    pub fn put(&mut self, most: usize, one: Queued) -> Result<bool, AllocError>
        ensures is_put { IfOk result (λ is_put. is_put ≡ nat_lt (length self.old) most) }
        ensures ok { OnOk result (self.new ≡ put self.old most one) }
        ensures err { OnErr result (self.new ≡ self.old) }
    {
        if self.queued.len() < most {
            self.queued.push(one)?;
            Ok(true)
        } else {
            Ok(false)
        }
    }

    fn ready_place(&self, tids: &[u8], writers: u8, waits: &Waits) -> Option<usize>
        ensures place { result ≡ ready_place self.now tids.now writers waits.now }
    {
        self.queued
            .iter()
            .position(|one| is_ready(tids, writers, waits, one))
    }

    /// Takes the first request out for which there is a thread.
    pub fn take_ready(&mut self, tids: &[u8], writers: u8, waits: &Waits) -> Option<Queued>
        ensures first { result ≡ item_at self.old (ready_place self.old tids.now writers waits.now) }
        ensures rest { self.new ≡ without_at self.old (ready_place self.old tids.now writers waits.now) }
    {
        let place = self.ready_place(tids, writers, waits);
        take_at(&mut self.queued, place)
    }

    fn place_of(&self, unique: u64) -> Option<usize>
        ensures place { result ≡ place_of self.now unique }
    {
        self.queued.iter().position(|one| one.unique == unique)
    }

    /// Takes a request out by its number, as one that was interrupted: the first of that number.
    pub fn take(&mut self, unique: u64) -> Option<Queued>
        ensures one { result ≡ item_at self.old (place_of self.old unique) }
        ensures rest { self.new ≡ without_at self.old (place_of self.old unique) }
    {
        let place = self.place_of(unique);
        take_at(&mut self.queued, place)
    }
}
