//! What threads wait for.

ghost use Rattle.std.specs.Prelude.{◌≡◌, ◌≢◌, ◌<◌, ◌==◌, ◌&&◌, true, false, not, IfSome, IfNone, IsSome};
ghost use Rattle.qx_types.specs.declared.names.Thread.{Thread};
ghost use Rattle.qx_monitor.specs.Waits.{IsPossible, IsUser, is_awaited, is_in, number_of, place_of};
ghost use Rattle.qx_monitor.specs.declared.waits.TheConstants.{EACH, THREADS};

use qx_types::{Limits, Proc, Thread, User};

/// How many threads a user can have.
const EACH: usize = Limits::PROCESSES * Limits::THREADS as usize;

/// How many threads all users can have.
pub(crate) const THREADS: usize = Limits::USERS * EACH;

/// What a worker or a client waits for.
#[derive(Clone, Copy, Debug, PartialEq, Eq)]
pub enum Awaited {
    /// An item in any line.
    Item,
    /// What comes to a thread.
    OfThread(Coming, Thread),
}

/// What a client waits for.
#[derive(Clone, Copy, Debug, PartialEq, Eq)]
pub enum Coming {
    /// That the thread waits for no answer.
    Answer,
    /// That its process has a pulse, or is there no longer. The process' first thread stands for all of them.
    Pulse,
}

/// A thread looks for what it waits for, without the lock; workers that look for an item are counted. It can't be let fall: `found`
/// of `Locked` takes it once the thread has the lock again, so each that is counted is counted off.
pub(crate) struct Looks {
    pub(crate) awaited: Awaited,
}

/// Which worker is woken as the lock is let go.
#[derive(Clone, Copy, Debug, PartialEq, Eq)]
pub(crate) enum Woken {
    /// None, as no item stands in a line.
    Nobody,
    /// One that looks for an item, and doesn't sleep.
    Looking,
    /// One that sleeps, as none looks.
    Sleeping,
}

/// Some threads of one user. It can't be let fall: `end` takes it once it is empty.
pub struct ThreadSet {
    user: User,
    /// For each thread the bit of its number.
    bits: u64,
}

/// A thread that left a set, and whose bell is to be rung. It can't be let fall: `Bells::ring` takes it.
pub(crate) struct Due {
    pub(crate) thread: Thread,
}

/// The threads for which clients wait, of each user.
#[derive(Drop)]
pub(crate) struct Waits {
    /// Under each number that a user can have the bits of the user's threads.
    words: [u64; 256],
}

/// The number of a thread among those that its user can have, from 0.
fn number_of(thread: Thread) -> usize
    ensures number { result ≡ number_of thread }
    ensures few { result < EACH }
{
    let process = usize::from(thread.proc.num.saturating_sub(1)) % Limits::PROCESSES;
    let thread = usize::from(thread.tid.saturating_sub(1) % Limits::THREADS);
    process * usize::from(Limits::THREADS) + thread
}

/// The user's thread of that number.
fn thread_of(user: User, number: usize) -> Thread
    requires { number < EACH }
    ensures user { result.proc.user ≡ user }
    ensures possible { IsPossible result }
    ensures number { number_of result ≡ number }
    ensures only { (thread : Thread) → IsPossible thread → thread.proc.user ≡ user → number_of thread ≡ number → thread ≡ result }
{
    let threads = usize::from(Limits::THREADS);
    Thread {
        proc: Proc {
            user,
            num: (number / threads) as u8 + 1,
        },
        tid: (number % threads) as u8 + 1,
    }
}

/// The number of a thread among those that all users can have, from 0. Two threads have two numbers.
pub(crate) fn place_of(thread: Thread) -> usize
    ensures place { result ≡ place_of thread }
    ensures few { result < THREADS }
    ensures only { (other : Thread) → IsUser thread.proc.user → IsUser other.proc.user → IsPossible thread → IsPossible other → place_of other ≡ result → other ≡ thread }
{
    let user = usize::from(thread.proc.user.0.saturating_sub(1)) % Limits::USERS;
    user * EACH + number_of(thread)
}

impl ThreadSet {
    /// None of the user's threads.
    pub(crate) fn new(user: User) -> ThreadSet
        ensures user { result.user ≡ user }
        ensures none { (thread : Thread) → is_in result thread ≡ false }
    {
        ThreadSet { user, bits: 0 }
    }

    /// Whose threads they are.
    pub(crate) fn user(&self) -> User
        ensures { result ≡ self.now.user }
    {
        self.user
    }

    /// A thread of the user joins the set.
    pub(crate) fn insert(&mut self, thread: Thread)
        requires user { thread.proc.user ≡ self.old.user }
        requires possible { IsPossible thread }
        ensures user { self.new.user ≡ self.old.user }
        ensures joined { is_in self.new thread ≡ true }
        ensures others { (other : Thread) → IsPossible other → other ≢ thread → is_in self.new other ≡ is_in self.old other }
    {
        self.bits |= 1 << number_of(thread);
    }

    /// A thread leaves the set, if there is one.
    pub(crate) fn pop(&mut self) -> Option<Thread>
        ensures user { self.new.user ≡ self.old.user }
        ensures of_user { IfSome result (λ thread. thread.proc.user ≡ self.old.user) }
        ensures possible { IfSome result IsPossible }
        ensures was_in { IfSome result (λ thread. is_in self.old thread ≡ true) }
        ensures left { IfSome result (λ thread. is_in self.new thread ≡ false) }
        ensures others { IfSome result (λ thread. (other : Thread) → IsPossible other → other ≢ thread → is_in self.new other ≡ is_in self.old other) }
        ensures none { IfNone result ((thread : Thread) → is_in self.old thread ≡ false) }
        ensures same { IfNone result (self.new ≡ self.old) }
        ensures ended { IfNone result (self.new.bits ≡ 0) }
        ensures fewer { IsSome result → self.new.bits < self.old.bits }
    {
        if self.bits == 0 {
            return None;
        }
        let number = self.bits.trailing_zeros() as usize;
        self.bits &= !(1 << number);
        Some(thread_of(self.user, number))
    }

    /// The same, of a thread whose bell is to be rung.
    pub(crate) fn due(&mut self) -> Option<Due>
        ensures was_in { IfSome result (λ due. is_in self.old due.thread ≡ true) }
        ensures left { IfSome result (λ due. is_in self.new due.thread ≡ false) }
        ensures others { IfSome result (λ due. (other : Thread) → IsPossible other → other ≢ due.thread → is_in self.new other ≡ is_in self.old other) }
        ensures ended { IfNone result (self.new.bits ≡ 0) }
        ensures fewer { IsSome result → self.new.bits < self.old.bits }
    {
        match self.pop() {
            Some(thread) => Some(Due { thread }),
            None => None,
        }
    }

    /// All threads have left.
    pub(crate) fn end(self)
        requires { self.bits ≡ 0 }
    {
        let ThreadSet { user: _, bits: _ } = self;
    }
}

impl Waits {
    /// No client waits.
    pub(crate) fn new() -> Waits
        ensures { (thread : Thread) → is_awaited result thread ≡ false }
    {
        Waits { words: [0; 256] }
    }

    /// A client waits for a thread.
    pub(crate) fn insert(&mut self, thread: Thread)
        ensures waits { is_awaited self.new thread ≡ true }
        ensures others { (other : Thread) → is_awaited self.old other ≡ true → is_awaited self.new other ≡ true }
    {
        self.words[usize::from(thread.proc.user.0)] |= 1 << number_of(thread);
    }

    /// The threads of a user for which clients wait.
    pub(crate) fn of(&self, user: User) -> ThreadSet
        ensures user { result.user ≡ user }
        ensures threads { (thread : Thread) → is_in result thread ≡ ((thread.proc.user.0 == user.0) && is_awaited self.now thread) }
    {
        let bits = self.words[usize::from(user.0)];
        ThreadSet { user, bits }
    }

    /// Clients wait for these threads no longer.
    pub(crate) fn remove(&mut self, threads: &ThreadSet)
        ensures { (thread : Thread) → is_awaited self.new thread ≡ (is_awaited self.old thread && not (is_in threads.now thread)) }
    {
        self.words[usize::from(threads.user.0)] &= !threads.bits;
    }
}
