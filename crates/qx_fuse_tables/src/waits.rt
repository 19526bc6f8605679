//! Which request of a user waits for the call of which thread.
ghost use Rattle.std.specs.Prelude.{◌≡◌, ◌++◌, ◌∷◌, [], OnErr, OnOk};
ghost use Rattle.qx_fuse_tables.specs.Waits.{is_busy, is_of, item_at, of_request, of_thread, place_of, without_at};

use crate::items::take_at;
use std::alloc::{AllocError, Global};
use std::marker::Model;

/// For what a request may wait.
#[derive(Clone, Copy, Debug, PartialEq, Eq)]
pub enum Wait {
    /// Until there is something to read.
    Read,
    /// Until there is room to write.
    Write,
    /// For nothing: a release, a status, a name.
    Never,
}

/// A request whose call has no answer yet, and the thread of the call: its process, and its number there.
#[derive(Clone, Copy, Debug)]
pub struct Waiting {
    pub unique: u64,
    pub process: u8,
    pub tid: u8,
    pub wait: Wait,
}

/// The requests of one user whose calls have no answer yet, in the order in which they came.
#[derive(Drop)]
pub struct Waits {
    waiting: Vec<Waiting>,
}

impl Model for Waits {
    ghost use Rattle.qx_fuse_tables.specs.Waits.{WaitingList};

    ghost Value = { WaitingList };

    ghost view = { λ waits. waits.waiting.items };
}

/// Whether it is the call of that thread.
fn is_of(process: u8, tid: u8, one: &Waiting) -> bool
    ensures { result ≡ is_of process tid one.now }
{
    one.process == process && one.tid == tid
}

impl Waits {
    /// None, for which no memory is taken.
    pub fn new(alloc: Global) -> Waits
        ensures none { result ≡ [] }
    {
        Waits {
            waiting: Vec::new(alloc),
        }
    }

    /// A request waits from now on. It may be put before its message is sent, so that there is a place for it, and taken out where it
    /// is answered at once.
    pub fn put(&mut self, one: Waiting) -> Result<(), AllocError>
        ensures ok { OnOk result (self.new ≡ self.old ++ one ∷ []) }
        ensures err { OnErr result (self.new ≡ self.old) }
    {
        self.waiting.push(one)?;
        Ok(())
    }

    /// What waits under the number of a request.
    pub fn of_request(&self, unique: u64) -> Option<Waiting>
        ensures waiting { result ≡ of_request self.now unique }
    {
        self.waiting
            .iter()
            .copied()
            .find(|one| one.unique == unique)
    }

    /// What waits for the call of a thread.
    pub fn of_thread(&self, process: u8, tid: u8) -> Option<Waiting>
        ensures waiting { result ≡ of_thread self.now process tid }
    {
        self.waiting
            .iter()
            .copied()
            .find(|one| is_of(process, tid, one))
    }

    /// Whether a request waits for the call of a thread.
    pub fn is_busy(&self, process: u8, tid: u8) -> bool
        ensures busy { result ≡ is_busy self.now process tid }
    {
        self.waiting.iter().any(|one| is_of(process, tid, one))
    }

    fn place_of(&self, unique: u64) -> Option<usize>
        ensures place { result ≡ place_of self.now unique }
    {
        self.waiting.iter().position(|one| one.unique == unique)
    }

    /// A request waits no more: the first of that number.
    pub fn take(&mut self, unique: u64) -> Option<Waiting>
        ensures waiting { result ≡ item_at self.old (place_of self.old unique) }
        ensures rest { self.new ≡ without_at self.old (place_of self.old unique) }
    {
        let place = self.place_of(unique);
        take_at(&mut self.waiting, place)
    }
}
