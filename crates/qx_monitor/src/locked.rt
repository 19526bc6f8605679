//! What lies under the lock, and who waits for what.

ghost use Rattle.std.specs.Prelude.{◌≡◌, ◌==◌, ◌&&◌, ◌⊎◌, None, Some, true, false, not, IfOk, IsOk, OnErr, OnOk, is_some, nat_le, option_map, vec_capacity};
ghost use Rattle.qx_types.specs.declared.names.Thread.{Thread};
ghost use Rattle.qx_monitor.specs.Awaits.{is_to_come, is_to_come_of, looking_less, looking_more, overdue, woken};
ghost use Rattle.qx_monitor.specs.Owed.{AreReleased, Came, HasRoom, IfShort, IfTook, copied, item_taken, kept_by, next_item};
ghost use Rattle.qx_types.specs.declared.step.Step.{Step};
ghost use Rattle.qx_machine.specs.Machine as machine;
ghost use Rattle.qx_world.specs.Seats.{Works};
ghost use Rattle.qx_world.specs.Steps.{held_work};
ghost use Rattle.qx_monitor.specs.Waits.{IsPossible, is_awaited, is_in};
ghost use Rattle.qx_monitor.specs.declared.locked.Received.{Received};
ghost use Rattle.qx_monitor.specs.declared.waits.Awaited.{Awaited};
ghost use Rattle.qx_monitor.specs.declared.waits.Coming.{Coming};

use crate::owed::{Released, Short, WasStopped};
use crate::waits::{Awaited, Coming, Looks, ThreadSet, Waits, Woken};
use qx_types::{Item, MessageBytes, Outcome, Proc, Step, Thread, User, Worker};
use qx_world::{UnderLock, Unstored, WorkRef, World};

/// A world in which threads take steps, and what they wait for. A step that others may wait for is taken by a function here or of
/// `Monitor` that gives whom to wake.
#[derive(Drop)]
pub struct Locked<S> {
    pub(crate) under: S,
    /// The threads for whose answers clients wait.
    answers: Waits,
    /// The first threads of the processes for whose pulses clients wait.
    pulses: Waits,
    /// How many workers look for an item without the lock. Each looks under it once more before it sleeps.
    looking: u32,
    is_stopped: bool,
}

/// What a worker holds, copied: the bytes of a message, or a pulse.
#[derive(Debug, Drop)]
pub enum HeldCopy {
    Message(MessageBytes),
    Pulse,
}

/// What came of a worker's receive.
pub enum Received {
    /// The item that it took, and what it holds then, copied.
    Took(Item, HeldCopy),
    /// All lines are empty; or the worker is none, or holds an item already.
    Ended,
    /// The step, or the copy of what was received, wants memory.
    Short(Short),
}

impl<S: UnderLock> Locked<S> {
    /// Nobody waits, and the server was not stopped.
    pub(crate) fn new(under: S) -> Self
        ensures under { result.under ≡ under }
        ensures answers { (thread : Thread) → is_awaited result.answers thread ≡ false }
        ensures pulses { (thread : Thread) → is_awaited result.pulses thread ≡ false }
        ensures looking { result.looking ≡ 0 }
        ensures stopped { result.is_stopped ≡ false }
    {
        Locked {
            under,
            answers: Waits::new(),
            pulses: Waits::new(),
            looking: 0,
            is_stopped: false,
        }
    }

    /// A worker receives the first item of the line that is next, and what it holds then is copied into the memory that is there.
    pub(crate) fn receive(
        &mut self,
        seat: &mut S::Seat,
        worker: Worker,
        memory: &mut Vec<u8>,
    ) -> Received
        ensures seat { Works S.adds S.keeps worker.0 seat.old seat.new }
        ensures took { IfTook result (λ item held. next_item (S.world_of self.old.under) worker (S.next_of self.old.under) ≡ Some item) }
        ensures copy { IfTook result (λ item held. held_work (S.world_of self.new.under) worker.0 ≡ Some (copied held)) }
        ensures ended { result ≡ Received.Ended → (next_item (S.world_of self.old.under) worker (S.next_of self.old.under) ≡ None) ⊎ (held_work (S.world_of self.new.under) worker.0 ≡ None) }
        ensures short { IfShort result ((S.world_of self.new.under ≡ S.world_of self.old.under) ⊎ (HasRoom (held_work (S.world_of self.new.under) worker.0) (vec_capacity memory.old) → ⊥)) }
        ensures memory { IfTook result (λ item held. vec_capacity memory.new ≡ kept_by (Some (copied held)) (vec_capacity memory.old)) }
        ensures looking { self.new.looking ≡ self.old.looking }
    {
        let Some(manager) = self.under.next_manager() else {
            return Received::Ended;
        };
        match self.under.take(seat, Step::Receive { worker, manager }) {
            Ok(outcome) => {
                let Some(item) = item_taken(&outcome) else {
                    return Received::Ended;
                };
                match self.held(worker, memory) {
                    Ok(Some(held)) => Received::Took(item, held),
                    Ok(None) => Received::Ended,
                    Err(short) => Received::Short(short),
                }
            }
            Err(_) => Received::Short(Short::new()),
        }
    }

    /// A thread takes its answer, or the step comes back. No other thread waits for that.
    pub fn take_reply(&mut self, seat: &mut S::Seat, thread: Thread) -> Result<Outcome, Unstored>
        ensures told { IfOk result (λ outcome. outcome ≡ (machine.step (S.world_of self.old.under) (Step.TakeReply thread)).outcome) }
        ensures seat { IfOk result (λ outcome. S.adds seat.old seat.new (Step.TakeReply thread) outcome) }
        ensures kept { OnErr result (S.keeps seat.old seat.new) }
    {
        self.under.take(seat, Step::TakeReply { thread })
    }

    /// A process takes its first pulse, or the step comes back. No other thread waits for that.
    pub fn take_pulse(&mut self, seat: &mut S::Seat, proc: Proc) -> Result<Outcome, Unstored>
        ensures told { IfOk result (λ outcome. outcome ≡ (machine.step (S.world_of self.old.under) (Step.TakePulse proc)).outcome) }
        ensures seat { IfOk result (λ outcome. S.adds seat.old seat.new (Step.TakePulse proc) outcome) }
        ensures kept { OnErr result (S.keeps seat.old seat.new) }
    {
        self.under.take(seat, Step::TakePulse { proc })
    }

    /// Whether there is such a worker.
    pub fn is_worker(&self, worker: Worker) -> bool
        ensures { result ≡ (nat_le 1 worker.0 && nat_le worker.0 (S.world_of self.now.under).config.workers) }
    {
        1 <= worker.0 && worker.0 <= self.world().config().workers()
    }

    /// A copy of what a worker holds, if it holds anything, in the memory that is there. More is taken only for a message that
    /// does not fit into it.
    pub fn held(&self, worker: Worker, memory: &mut Vec<u8>) -> Result<Option<HeldCopy>, Short>
        ensures held { IfOk result (λ held. option_map copied held ≡ held_work (S.world_of self.now.under) worker.0) }
        ensures sure { HasRoom (held_work (S.world_of self.now.under) worker.0) (vec_capacity memory.old) → IsOk result }
        ensures memory { OnOk result (vec_capacity memory.new ≡ kept_by (held_work (S.world_of self.now.under) worker.0) (vec_capacity memory.old)) }
    {
        match self.world().held(worker) {
            Some(WorkRef::Message(bytes)) => {
                match MessageBytes::joined(memory, bytes.as_slice(), &[], &[]) {
                    Ok(bytes) => Ok(Some(HeldCopy::Message(bytes))),
                    Err(_) => Err(Short::new()),
                }
            }
            Some(WorkRef::Pulse) => Ok(Some(HeldCopy::Pulse)),
            None => Ok(None),
        }
    }

    /// A thread begins to look for what it waits for. A worker counts as one that looks for an item until it has the lock again.
    pub(crate) fn looks(&mut self, awaited: Awaited) -> Looks
        ensures awaited { result.awaited ≡ awaited }
        ensures looking { self.new.looking ≡ looking_more awaited self.old.looking }
        ensures under { self.new.under ≡ self.old.under }
        ensures answers { self.new.answers ≡ self.old.answers }
        ensures pulses { self.new.pulses ≡ self.old.pulses }
        ensures stopped { self.new.is_stopped ≡ self.old.is_stopped }
    {
        if let Awaited::Item = awaited {
            self.looking = self.looking.saturating_add(1);
        }
        Looks { awaited }
    }

    /// A thread that looked has the lock again, whatever it finds.
    pub(crate) fn found(&mut self, looks: Looks)
        ensures looking { self.new.looking ≡ looking_less looks.awaited self.old.looking }
        ensures under { self.new.under ≡ self.old.under }
        ensures answers { self.new.answers ≡ self.old.answers }
        ensures pulses { self.new.pulses ≡ self.old.pulses }
        ensures stopped { self.new.is_stopped ≡ self.old.is_stopped }
    {
        let Looks { awaited } = looks;
        if let Awaited::Item = awaited {
            self.looking = self.looking.saturating_sub(1);
        }
    }

    /// Whether what is awaited has yet to come, unless the server was stopped. If it is of a thread, it is marked that a client
    /// waits for it.
    pub(crate) fn waits_for(&mut self, awaited: Awaited) -> bool
        ensures told { result ≡ (not self.old.is_stopped && is_to_come (S.world_of self.old.under) awaited) }
        ensures still { result ≡ (not self.new.is_stopped && is_to_come (S.world_of self.new.under) awaited) }
        ensures looking { self.new.looking ≡ self.old.looking }
        ensures answer { (thread : Thread) → awaited ≡ Awaited.OfThread Coming.Answer thread → result ≡ true → is_awaited self.new.answers thread ≡ true }
        ensures pulse { (thread : Thread) → awaited ≡ Awaited.OfThread Coming.Pulse thread → result ≡ true → is_awaited self.new.pulses thread ≡ true }
        ensures other_answers { (thread : Thread) → is_awaited self.old.answers thread ≡ true → is_awaited self.new.answers thread ≡ true }
        ensures other_pulses { (thread : Thread) → is_awaited self.old.pulses thread ≡ true → is_awaited self.new.pulses thread ≡ true }
        ensures under { self.new.under ≡ self.old.under }
        ensures stopped { self.new.is_stopped ≡ self.old.is_stopped }
    {
        if self.is_stopped || !self.is_to_come(awaited) {
            return false;
        }
        match awaited {
            Awaited::Item => {}
            Awaited::OfThread(Coming::Answer, thread) => self.answers.insert(thread),
            Awaited::OfThread(Coming::Pulse, thread) => self.pulses.insert(thread),
        }
        true
    }

    /// Whether what is awaited has yet to come.
    fn is_to_come(&self, awaited: Awaited) -> bool
        ensures { result ≡ is_to_come (S.world_of self.now.under) awaited }
    {
        match awaited {
            Awaited::Item => self.world().next_manager().is_none(),
            Awaited::OfThread(Coming::Answer, thread) => self.world().blocked(thread),
            Awaited::OfThread(Coming::Pulse, thread) => self.world().lacks_pulse(thread.proc),
        }
    }

    /// Which worker is woken as the lock is let go: one if an item stands in a line, and one that sleeps only if none looks.
    pub(crate) fn woken(&self) -> Woken
        ensures { result ≡ woken (S.world_of self.now.under) self.now.looking }
    {
        if self.is_to_come(Awaited::Item) {
            Woken::Nobody
        } else if self.looking == 0 {
            Woken::Sleeping
        } else {
            Woken::Looking
        }
    }

    /// Which worker is woken by a client that spun in vain: one that sleeps, where an item stands still that was left to one that
    /// looks. The kernel may have taken the processor from that one.
    pub(crate) fn overdue(&self) -> Woken
        ensures { result ≡ overdue (S.world_of self.now.under) self.now.looking }
    {
        match self.woken() {
            Woken::Looking => Woken::Sleeping,
            Woken::Nobody | Woken::Sleeping => Woken::Nobody,
        }
    }

    /// The threads of a user that clients wait for and of which that came: an answer, and a pulse of their process. Clients
    /// wait for them no longer.
    fn released(&mut self, user: User) -> Released
        ensures answered { Came (S.world_of self.old.under) Coming.Answer user.0 self.old.answers result.answered }
        ensures pulsed { Came (S.world_of self.old.under) Coming.Pulse user.0 self.old.pulses result.pulsed }
        ensures answers { (thread : Thread) → is_awaited self.new.answers thread ≡ (is_awaited self.old.answers thread && not (is_in result.answered thread)) }
        ensures pulses { (thread : Thread) → is_awaited self.new.pulses thread ≡ (is_awaited self.old.pulses thread && not (is_in result.pulsed thread)) }
        ensures under { self.new.under ≡ self.old.under }
        ensures looking { self.new.looking ≡ self.old.looking }
        ensures stopped { self.new.is_stopped ≡ self.old.is_stopped }
    {
        let answered = self.came(Coming::Answer, self.answers.of(user));
        let pulsed = self.came(Coming::Pulse, self.pulses.of(user));
        self.answers.remove(&answered);
        self.pulses.remove(&pulsed);
        Released { answered, pulsed }
    }

    /// The same, of the user by or for whom a step was taken, if there was one.
    pub(crate) fn released_of(&mut self, user: Option<User>) -> Option<Released>
        ensures released { AreReleased (S.world_of self.old.under) (option_map (λ user. user.0) user) self.old.answers self.old.pulses result }
        ensures under { self.new.under ≡ self.old.under }
        ensures looking { self.new.looking ≡ self.old.looking }
        ensures stopped { self.new.is_stopped ≡ self.old.is_stopped }
    {
        match user {
            Some(user) => Some(self.released(user)),
            None => None,
        }
    }

    /// Those of a user's threads of which it came.
    fn came(&self, what: Coming, mut waiting: ThreadSet) -> ThreadSet
        ensures { (thread : Thread) → IsPossible thread → is_in result thread ≡ (is_in waiting thread && not (is_to_come_of (S.world_of self.now.under) what thread)) }
    {
        let mut came = ThreadSet::new(waiting.user());
        'looking: while let Some(thread) = waiting.pop() {
            if !self.is_to_come(Awaited::OfThread(what, thread)) {
                came.insert(thread);
            }
        }
        waiting.end();
        came
    }

    /// From now on loops end once all lines are empty, and clients wait no longer.
    pub(crate) fn stop(&mut self)
        ensures stopped { self.new.is_stopped ≡ true }
        ensures answers { self.new.answers ≡ self.old.answers }
        ensures pulses { self.new.pulses ≡ self.old.pulses }
        ensures looking { self.new.looking ≡ self.old.looking }
        ensures under { self.new.under ≡ self.old.under }
    {
        self.is_stopped = true;
    }

    /// Whether the server was stopped. Nothing else tells of that.
    pub fn stopped(&self) -> Option<WasStopped>
        ensures { is_some result ≡ self.now.is_stopped }
    {
        if self.is_stopped {
            Some(WasStopped::seen())
        } else {
            None
        }
    }

    /// What lies under the lock, for reading.
    pub fn under(&self) -> &S
        ensures { result.now ≡ self.now.under }
    {
        &self.under
    }

    /// The world that the steps came to.
    pub fn world(&self) -> &World
        ensures { result.now ≡ S.world_of self.now.under }
    {
        self.under.world()
    }

    /// What lay under the lock.
    pub(crate) fn into_under(self) -> S
        ensures { result ≡ self.under }
    {
        let Locked {
            under,
            answers: _,
            pulses: _,
            looking: _,
            is_stopped: _,
        } = self;
        under
    }
}

/// The item that a worker took, if it took one.
fn item_taken(outcome: &Outcome) -> Option<Item>
    ensures { result ≡ item_taken outcome.now }
{
    match outcome {
        Outcome::Took(item) => Some(*item),
        _ => None,
    }
}
