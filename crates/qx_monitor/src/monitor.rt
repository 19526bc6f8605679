//! One lock, and where threads sleep.

ghost use Rattle.std.specs.Prelude.{◌≡◌, ◌≢◌, ◌&&◌, ◌⊎◌, None, Some, false, is_ok, is_some, true, not, IfErr, IfOk, MatchBool, OnErr, vec_capacity};
ghost use Rattle.std.specs.Sync.Mutex.{mutex_guard_value};
ghost use Rattle.qx_types.specs.declared.names.Thread.{Thread};
ghost use Rattle.qx_types.specs.declared.outcome.Outcome.{Outcome};
ghost use Rattle.qx_types.specs.declared.step.Step.{Step};
ghost use Rattle.qx_machine.specs.Machine as machine;
ghost use Rattle.qx_world.specs.Seats.{Works, world_then};
ghost use Rattle.qx_world.specs.Steps.{held_work, IsStale};
ghost use Rattle.qx_monitor.specs.Awaits.{is_to_come, is_to_come_of, looking_more, woken};
ghost use Rattle.qx_monitor.specs.Owed.{AreReleased, HasRoom, IfHandled, IfSent, IfShort, IfTook, IfUnsent, copied, kept_by, next_item};
ghost use Rattle.qx_monitor.specs.Waits.{is_awaited};
ghost use Rattle.qx_monitor.specs.declared.locked.Received.{Received};
ghost use Rattle.qx_monitor.specs.declared.monitor.Called.{Called};
ghost use Rattle.qx_monitor.specs.declared.monitor.Performed.{Performed};
ghost use Rattle.qx_monitor.specs.declared.waits.Awaited.{Awaited};
ghost use Rattle.qx_monitor.specs.declared.waits.Coming.{Coming};

use crate::locked::{Locked, Received};
use crate::owed::{Begun, Released, Short, Wake};
use crate::spinner::{LOCK_TRIES, SpinEnd, Spinner, pause};
use crate::waits::{Awaited, Coming, Due, Looks, THREADS, ThreadSet, Woken, place_of};
use qx_types::{Outcome, Request, Step, Thread, Worker};
use qx_world::{PerformFault, UnderLock, Unstored, Work};
use std::alloc::{AllocError, Global};
use std::marker::Model;
use std::sync::{Condvar, Mutex, MutexGuard, Wait};

/// A lock, and where threads wait for what comes to what lies under it.
#[derive(Drop)]
pub struct Monitor<S: UnderLock> {
    locked: Mutex<Locked<S>>,
    /// Where workers sleep until an item stands in a line.
    items: Condvar,
    /// What workers watch who look for an item before they sleep. No thread sleeps there.
    looks: Condvar,
    /// Where clients sleep until what they wait for came.
    bells: Bells,
}

/// How a call began.
pub enum Called {
    /// The message was sent, and the thread waits for its answer.
    Sent(Begun, Wake),
    /// It was not, with this outcome.
    Unsent(Outcome),
    NoMemory,
}

/// What came of a worker's perform.
pub enum Performed {
    /// It is done, and the worker begins to wait for an item.
    Handled(Begun),
    /// The worker holds nothing, or something else.
    Ended,
    Short(Short),
}

/// A place to sleep for each thread that all users can have.
#[derive(Drop)]
pub struct Bells {
    each: Vec<Condvar>,
}

/// Contracts see nothing of it.
impl Model for Bells {
    ghost use Rattle.std.specs.Prelude.{◌≡◌, ⊤, vec_len};
    ghost use Rattle.qx_monitor.specs.declared.waits.TheConstants.{THREADS};

    ghost Value = { ⊤ };

    ghost view = { λ _. tt };

    ghost invariant = { λ b. vec_len b.each ≡ THREADS };
}

impl Bells {
    /// All of them, at which no thread sleeps. Memory for them is the one thing that a server wants beside what lies under its lock.
    pub fn new(alloc: Global) -> Result<Bells, AllocError> {
        let mut each = Vec::new(alloc);
        'making: for _number in 0..THREADS {
            each.push(Condvar::new())?;
        }
        Ok(Bells { each })
    }

    /// Wakes who sleeps at the bell of a thread.
    fn ring(&self, due: Due) {
        let Due { thread } = due;
        self.each[place_of(thread)].notify_all();
    }
}

impl<S: UnderLock> Monitor<S> {
    /// A monitor of what lies under its lock then.
    pub fn new(under: S, bells: Bells) -> Monitor<S> {
        Monitor {
            locked: Mutex::new(Locked::new(under)),
            items: Condvar::new(),
            looks: Condvar::new(),
            bells,
        }
    }

    /// What lay under the lock.
    pub fn into_under(self) -> S {
        let Monitor {
            locked,
            items: _,
            looks: _,
            bells: _,
        } = self;
        locked.into_inner().into_under()
    }

    /// From now on threads wait for nothing that isn't there, and who waits is woken.
    pub fn stop(&self, rt: &impl Wait) {
        let mut guard = self.lock(rt);
        guard.stop();
        drop(guard);
        self.items.notify_all();
        self.looks.notify_all();
        for bell in &self.bells.each {
            bell.notify_all();
        }
    }

    /// Takes the lock. Where another thread has it, it is asked for anew for a while before the thread sleeps.
    pub fn lock(&self, rt: &impl Wait) -> MutexGuard<'_, Locked<S>> {
        for _ in 0..LOCK_TRIES {
            if let Some(guard) = self.locked.try_lock() {
                return guard;
            }
            pause();
        }
        self.locked.lock(rt)
    }

    /// A worker wants memory: the same.
    pub fn stop_for(&self, rt: &impl Wait, short: Short) {
        short.end();
        self.stop(rt);
    }

    /// A thread begins to wait for this, under the lock.
    pub fn begin(&self, locked: &mut Locked<S>, awaited: Awaited) -> Begun
        ensures awaited { result.looks.awaited ≡ awaited }
        ensures there { result.seen ≡ None → (not locked.old.is_stopped && is_to_come (S.world_of locked.old.under) awaited) ≡ false }
        ensures answer { (thread : Thread) → awaited ≡ Awaited.OfThread Coming.Answer thread → is_some result.seen ≡ true → is_awaited locked.new.answers thread ≡ true }
        ensures pulse { (thread : Thread) → awaited ≡ Awaited.OfThread Coming.Pulse thread → is_some result.seen ≡ true → is_awaited locked.new.pulses thread ≡ true }
        ensures looking { locked.new.looking ≡ looking_more awaited locked.old.looking }
        ensures under { locked.new.under ≡ locked.old.under }
    {
        let looks = locked.looks(awaited);
        let seen = if locked.waits_for(awaited) {
            Some(self.watched(awaited).notifications())
        } else {
            None
        };
        Begun { looks, seen }
    }

    /// Takes the lock once what is awaited came, or the server was stopped. A thread that began to wait spins until then, and sleeps
    /// where that was in vain. One that comes too late for what was there, or for what it was told of, spins once more. A client
    /// that spun in vain wakes a worker for an item that is overdue.
    pub fn lock_for<R: Wait>(
        &self,
        rt: &R,
        spinner: &mut Spinner,
        begun: Begun,
    ) -> MutexGuard<'_, Locked<S>>
        ensures { (not (mutex_guard_value result).is_stopped && is_to_come (S.world_of (mutex_guard_value result).under) begun.looks.awaited) ≡ false }
    {
        let Begun { looks, seen } = begun;
        let awaited = looks.awaited;
        let (mut guard, mut missed) = self.spin(rt, spinner, looks, seen);
        if let Some(SpinEnd::Told) = missed {
            let Begun { looks, seen } = self.begin(&mut guard, awaited);
            drop(guard);
            (guard, missed) = self.spin(rt, spinner, looks, seen);
        }
        if let Some(SpinEnd::InVain) = missed {
            let who = guard.overdue();
            self.wake_worker(Wake { who });
        }
        let bell = self.bell(awaited);
        'sleeping: for _ in rt.forever() {
            if !guard.waits_for(awaited) {
                return guard;
            }
            guard = bell.wait(rt, guard);
        }
        guard
    }

    /// A client's thread begins to wait: takes the lock once that came to it, or the server was stopped.
    pub fn lock_for_thread<R: Wait>(
        &self,
        rt: &R,
        spinner: &mut Spinner,
        coming: Coming,
        thread: Thread,
    ) -> MutexGuard<'_, Locked<S>>
        ensures { (not (mutex_guard_value result).is_stopped && is_to_come_of (S.world_of (mutex_guard_value result).under) coming thread) ≡ false }
    {
        let mut guard = self.lock(rt);
        if !guard.waits_for(Awaited::OfThread(coming, thread)) {
            return guard;
        }
        let begun = self.begin(&mut guard, Awaited::OfThread(coming, thread));
        drop(guard);
        self.lock_for(rt, spinner, begun)
    }

    /// Spins, and takes the lock. None where what the thread waits for is there; else how the spin ended. One that was told, or found
    /// it there before, came too late.
    fn spin<R: Wait>(
        &self,
        rt: &R,
        spinner: &mut Spinner,
        looks: Looks,
        seen: Option<u64>,
    ) -> (MutexGuard<'_, Locked<S>>, Option<SpinEnd>) {
        let awaited = looks.awaited;
        let end = match seen {
            None => SpinEnd::Told,
            Some(seen) => spinner.spin(self.watched(awaited), seen),
        };
        let mut guard = self.lock(rt);
        guard.found(looks);
        if guard.waits_for(awaited) {
            return (guard, Some(end));
        }
        if let (Some(_), SpinEnd::Told) = (seen, end) {
            spinner.paid();
        }
        (guard, None)
    }

    /// A thread calls, or the step comes back. Of a call that was sent, a worker is woken, and the thread begins to wait for its
    /// answer.
    pub fn call(
        &self,
        locked: &mut Locked<S>,
        seat: &mut S::Seat,
        thread: Thread,
        request: Request,
    ) -> Called
        ensures sent { IfSent result (λ begun wake. S.adds seat.old seat.new (Step.Call thread request) Outcome.Sent) }
        ensures awaits { IfSent result (λ begun wake. begun.looks.awaited ≡ Awaited.OfThread Coming.Answer thread) }
        ensures wakes { IfSent result (λ begun wake. wake.who ≡ woken (S.world_of locked.new.under) locked.old.looking) }
        ensures unsent { IfUnsent result (λ outcome. outcome ≢ Outcome.Sent) }
        ensures told { IfUnsent result (λ outcome. outcome ≡ (machine.step (S.world_of locked.old.under) (Step.Call thread request)).outcome) }
        ensures ended { IfUnsent result (λ outcome. S.adds seat.old seat.new (Step.Call thread request) outcome) }
        ensures kept { result ≡ Called.NoMemory → S.keeps seat.old seat.new }
    {
        match locked.under.take(seat, Step::Call { thread, request }) {
            Ok(outcome) => {
                if !is_sent(&outcome) {
                    return Called::Unsent(outcome);
                }
                let wake = self.woken(locked);
                let begun = self.begin(locked, Awaited::OfThread(Coming::Answer, thread));
                Called::Sent(begun, wake)
            }
            Err(_) => Called::NoMemory,
        }
    }

    /// A step is taken, or comes back; with which clients of the user to wake whose step it is, and which worker.
    pub fn take(
        &self,
        locked: &mut Locked<S>,
        seat: &mut S::Seat,
        step: Step,
    ) -> (Result<Outcome, Unstored>, Option<Released>, Wake)
        ensures seat { IfOk result.0 (λ outcome. S.adds seat.old seat.new step outcome) }
        ensures kept { OnErr result.0 (S.keeps seat.old seat.new) }
        ensures handed_back { IfErr result.0 (λ unstored. unstored.step ≡ step) }
        ensures world { S.world_of locked.new.under ≡ world_then (S.world_of locked.old.under) step (is_ok result.0) }
        ensures released { AreReleased (S.world_of locked.new.under) (machine.owner (S.world_of locked.old.under) step) locked.old.answers locked.old.pulses result.1 }
        ensures wakes { result.2.who ≡ woken (S.world_of locked.new.under) locked.old.looking }
    {
        let user = locked.world().owner(&step);
        let result = locked.under.take(seat, step);
        let released = locked.released_of(user);
        let wake = self.woken(locked);
        (result, released, wake)
    }

    /// Memory for a worker's copies of what it receives, none yet.
    pub fn memory(&self) -> Vec<u8> {
        Vec::new(*self.bells.each.allocator())
    }

    /// A worker receives the first item of the line that is next, copied into its memory; with which worker to wake, where another
    /// item stands in a line. A copy that fits into that memory is not refused.
    pub fn receive(
        &self,
        locked: &mut Locked<S>,
        seat: &mut S::Seat,
        worker: Worker,
        memory: &mut Vec<u8>,
    ) -> (Received, Wake)
        ensures seat { Works S.adds S.keeps worker.0 seat.old seat.new }
        ensures took { IfTook result.0 (λ item held. next_item (S.world_of locked.old.under) worker (S.next_of locked.old.under) ≡ Some item) }
        ensures copy { IfTook result.0 (λ item held. held_work (S.world_of locked.new.under) worker.0 ≡ Some (copied held)) }
        ensures ended { result.0 ≡ Received.Ended → (next_item (S.world_of locked.old.under) worker (S.next_of locked.old.under) ≡ None) ⊎ (held_work (S.world_of locked.new.under) worker.0 ≡ None) }
        ensures short { IfShort result.0 ((S.world_of locked.new.under ≡ S.world_of locked.old.under) ⊎ (HasRoom (held_work (S.world_of locked.new.under) worker.0) (vec_capacity memory.old) → ⊥)) }
        ensures memory { IfTook result.0 (λ item held. vec_capacity memory.new ≡ kept_by (Some (copied held)) (vec_capacity memory.old)) }
        ensures wakes { result.1.who ≡ woken (S.world_of locked.new.under) locked.old.looking }
    {
        let received = locked.receive(seat, worker, memory);
        let wake = self.woken(locked);
        (received, wake)
    }

    /// A worker does what it holds, if that is the work at hand; with which clients of the user to wake for whom that is. It begins
    /// to wait for an item then.
    pub fn perform(
        &self,
        locked: &mut Locked<S>,
        seat: &mut S::Seat,
        worker: Worker,
        work: &Work,
        moment: u64,
    ) -> (Performed, Option<Released>)
        ensures seat { Works S.adds S.keeps worker.0 seat.old seat.new }
        ensures handled { IfHandled result.0 (λ begun. (machine.step (S.world_of locked.old.under) (Step.Perform worker moment)).outcome ≡ Outcome.Handled) }
        ensures awaits { IfHandled result.0 (λ begun. begun.looks.awaited ≡ Awaited.Item) }
        ensures ended { result.0 ≡ Performed.Ended → ((machine.step (S.world_of locked.old.under) (Step.Perform worker moment)).outcome ≢ Outcome.Handled) ⊎ IsStale (held_work (S.world_of locked.old.under) worker.0) work.now }
        ensures released { AreReleased (S.world_of locked.new.under) (machine.owner (S.world_of locked.old.under) (Step.Perform worker moment)) locked.old.answers locked.old.pulses result.1 }
    {
        let user = locked.world().owner(&Step::Perform { worker, moment });
        let done = locked.under.perform(seat, worker, work, moment);
        let released = locked.released_of(user);
        match done {
            Ok(outcome) => {
                if !is_handled(&outcome) {
                    return (Performed::Ended, released);
                }
                let begun = self.begin(locked, Awaited::Item);
                (Performed::Handled(begun), released)
            }
            Err(PerformFault::Stale) => (Performed::Ended, released),
            Err(PerformFault::NoMemory) => (Performed::Short(Short::new()), released),
        }
    }

    /// Which worker is woken as the lock is let go. One that looks for an item is told so under the lock: told later it might have
    /// begun to look for the next one.
    fn woken(&self, locked: &Locked<S>) -> Wake
        ensures { result.who ≡ woken (S.world_of locked.now.under) locked.now.looking }
    {
        let who = locked.woken();
        if let Woken::Looking = who {
            self.looks.notify_one();
        }
        Wake { who }
    }

    /// Wakes a worker that sleeps, where one is to be woken.
    pub fn wake_worker(&self, wake: Wake) {
        let Wake { who } = wake;
        if let Woken::Sleeping = who {
            self.items.notify_one();
        }
    }

    /// Wakes the clients that wait for these threads, if there are any.
    pub fn wake_clients(&self, released: Option<Released>) {
        match released {
            Some(Released { answered, pulsed }) => {
                self.ring(answered);
                self.ring(pulsed);
            }
            None => {}
        }
    }

    /// Wakes who sleeps at the bells of these threads.
    fn ring(&self, mut threads: ThreadSet) {
        'waking: while let Some(due) = threads.due() {
            self.bells.ring(due);
        }
        threads.end();
    }

    /// What a thread watches that spins for this.
    fn watched(&self, awaited: Awaited) -> &Condvar {
        match awaited {
            Awaited::Item => &self.looks,
            Awaited::OfThread(_, _) => self.bell(awaited),
        }
    }

    /// Where threads sleep that wait for this.
    fn bell(&self, awaited: Awaited) -> &Condvar {
        match awaited {
            Awaited::Item => &self.items,
            Awaited::OfThread(_, thread) => &self.bells.each[place_of(thread)],
        }
    }
}

/// Whether a call's message was sent.
fn is_sent(outcome: &Outcome) -> bool
    ensures { MatchBool result (outcome.now ≡ Outcome.Sent) (outcome.now ≢ Outcome.Sent) }
{
    matches!(outcome, Outcome::Sent)
}

/// Whether an item was done.
fn is_handled(outcome: &Outcome) -> bool
    ensures { MatchBool result (outcome.now ≡ Outcome.Handled) (outcome.now ≢ Outcome.Handled) }
{
    matches!(outcome, Outcome::Handled)
}
