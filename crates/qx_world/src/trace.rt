//! A world with the steps that it took from boot, each with its outcome.

ghost use Rattle.std.specs.Prelude.{◌≡◌, ◌≢◌, ◌≤◌, ◌<◌, ◌++◌, ◌∷◌, [], List, length, IfOk, IfErr, OnOk, IsOk, IsErrOf, ◌↔◌, IsFalse, map, option_map, None, slice_index_or, is_ok, Err};
ghost use Rattle.std.specs.Option.{option_to_list};
ghost use Rattle.std.specs.Borrow.{sem};
ghost use Rattle.qx_types.specs.declared.step.Step.{Step};
ghost use Rattle.qx_isolation.specs.declared.rows.Entry.{Entry};
ghost use Rattle.qx_machine.specs.Machine as machine;
ghost use Rattle.qx_machine.specs.Runs as runs;
ghost use Rattle.qx_machine.specs.Runs.{run, received, erase};
ghost use Rattle.qx_machine.specs.Wants.{wants_memory};
ghost use Rattle.qx_types.specs.Step.{actor_of};
ghost use Rattle.qx_steps.specs.declared.work.PerformFault.{PerformFault};
ghost use Rattle.qx_steps.specs.Held.{held_work, IsStale};
ghost use Rattle.qx_world.specs.Trace.{IsAfter, IsLast, run_of, outcome_now, owners_from};

use qx_machine::{Entry, Seen, laws};
use qx_steps::{PerformFault, Work, World};
use qx_types::{Config, NoMemory, Outcome, Step, User, Worker};
use std::alloc::{AllocError, Global};
use std::marker::Model;
use thiserror::Error;

/// A step that was not stored, for want of memory. Nothing changed.
#[derive(Debug, Drop, Error)]
#[error("out of memory")]
pub struct Unstored {
    pub step: Step,
}

/// A world with the steps that it took from boot, each with its outcome.
pub struct Traced {
    alloc: Global,
    world: World,
    entries: Vec<Entry>,
    /// By or for whom each step was taken.
    owners: Vec<Option<User>>,
}

/// As it would be derived; but what drops a trace at an exit is proved with one call there.
impl Drop for Traced {
    fn drop(self) {
        let Traced {
            alloc: _,
            world: _,
            entries: _,
            owners: _,
        } = self;
    }
}

impl Model for Traced {
    ghost use Rattle.std.specs.Prelude.{◌-◌, min, vec_len, vec_capacity};
    ghost use Rattle.qx_world.specs.Trace.{Trace};
    ghost use Rattle.qx_world.specs.inner.Trace.{IsRun, steps_of};

    ghost Value = { Trace };

    ghost view = { λ t. record { config = t.world.config; steps = steps_of t.entries.items; room = min (vec_capacity t.entries - vec_len t.entries) (vec_capacity t.owners - vec_len t.owners) } };

    ghost invariant = { λ t. IsRun t.world t.entries.items t.owners.items };
}

impl Traced {
    ghost use Rattle.qx_world.specs.Lending.{Ends};

    /// A world at boot, which took no steps.
    pub fn new(alloc: Global, config: Config) -> Result<Self, NoMemory>
        ensures config { IfOk result (λ traced. traced.config ≡ config) }
        ensures steps { IfOk result (λ traced. traced.steps ≡ []) }
    {
        Ok(Traced {
            alloc,
            world: World::new(alloc, config)?,
            entries: Vec::new(alloc),
            owners: Vec::new(alloc),
        })
    }

    /// The configuration.
    pub fn config(&self) -> &Config
        ensures { result.now ≡ self.now.config }
    {
        self.world.config()
    }

    /// The world that the steps came to.
    pub fn world(&self) -> &World
        ensures { result.now ≡ (run_of self.now).world }
    {
        &self.world
    }

    /// Each step with its outcome.
    pub fn entries(&self) -> &[Entry]
        ensures { result.now ≡ (run_of self.now).entries }
    {
        &self.entries
    }

    /// By or for whom each step was taken.
    pub fn owners(&self) -> &[Option<User>]
        ensures { map (option_map (λ user. user.0)) result.now ≡ owners_from (machine.boot self.now.config) self.now.steps }
    {
        &self.owners
    }

    /// Makes room for more steps: each of the next ones is stored for sure, as far as it wants no memory itself. None is
    /// wanted by an exit, by the taking of an answer or a pulse, by another priority, an interrupt or a receive, nor by the
    /// performing of a pulse, a disconnect pulse among them, or of a message that makes nothing new.
    pub fn reserve(&mut self, count: usize) -> Result<(), NoMemory>
        ensures config { self.new.config ≡ self.old.config }
        ensures steps { self.new.steps ≡ self.old.steps }
        ensures room { OnOk result (count ≤ self.new.room) }
        ensures kept { self.old.room ≤ self.new.room }
        ensures enough { count ≤ self.old.room → IsOk result }
    {
        self.entries.try_reserve(count)?;
        self.owners.try_reserve(count)?;
        Ok(())
    }

    /// Takes a step and stores it with its outcome, or hands it back.
    #[inline(always)]
    pub fn store(&mut self, step: Step) -> Result<(), Unstored>
        ensures after { IsAfter self.old step (is_ok result) self.new }
        ensures handed_back { IfErr result (λ unstored. unstored.step ≡ step) }
        ensures sure { 0 < self.old.room → IsFalse (wants_memory (run_of self.old).world step) → IsOk result }
    {
        if self.reserve(1).is_err() {
            return Err(Unstored { step });
        }
        let owner = self.world.owner(&step);
        let Ok(outcome) = self.world.step(&step) else {
            return Err(Unstored { step });
        };
        self.entries.push_reserved(Entry { step, outcome });
        self.owners.push_reserved(owner);
        Ok(())
    }

    /// The outcome of the last step.
    pub fn last(&self) -> &Outcome
        requires { self.now.steps ≢ [] }
        ensures { IsLast self.now result.now }
    {
        last_outcome(self.entries.as_slice())
    }

    /// Takes a step, stores it with its outcome, and lends the outcome; or hands the step back.
    pub fn step(&mut self, step: Step) -> Result<&Outcome, Unstored>
        ensures* after { sem 𝓛 (Ends self.entry (IsAfter self.old step (is_ok result))) }
        ensures outcome { IfOk result (λ outcome. outcome.now ≡ outcome_now self.old step) }
        ensures handed_back { IfErr result (λ unstored. unstored.step ≡ step) }
        ensures sure { 0 < self.old.room → IsFalse (wants_memory (run_of self.old).world step) → IsOk result }
    {
        let stored = self.store(step);
        let run = self.rest();
        told(stored, run)
    }

    /// Hands the loan on, for reading.
    fn rest(&mut self) -> &Traced
        ensures* after { sem 𝓛 (Ends self.entry (λ trace. trace ≡ self.old)) }
        ensures same { result.now ≡ self.old }
    {
        self
    }

    /// A worker does what it holds, if that is the work at hand, and the step is stored with its outcome. A message is not
    /// read again. `Stale` comes where something else is held.
    pub fn store_work(
        &mut self,
        worker: Worker,
        work: &Work,
        moment: u64,
    ) -> Result<(), PerformFault>
        ensures after { IsAfter self.old (Step.Perform worker moment) (is_ok result) self.new }
        ensures stale { IsErrOf result PerformFault.Stale ↔ IsStale (held_work (run_of self.old).world worker.0) work.now }
        ensures sure { 0 < self.old.room → IsFalse (wants_memory (run_of self.old).world (Step.Perform worker moment)) → result ≢ Err PerformFault.NoMemory }
    {
        if self.reserve(1).is_err() {
            return Err(if self.world.is_stale(worker, work) {
                PerformFault::Stale
            } else {
                PerformFault::NoMemory
            });
        }
        let step = Step::Perform { worker, moment };
        let owner = self.world.owner(&step);
        let outcome = self.world.perform(worker, work, moment)?;
        let entry = Entry { step, outcome };
        self.entries.push_reserved(entry);
        self.owners.push_reserved(owner);
        Ok(())
    }

    /// Does what `store_work` does, and lends the outcome.
    pub fn perform(
        &mut self,
        worker: Worker,
        work: &Work,
        moment: u64,
    ) -> Result<&Outcome, PerformFault>
        ensures* after { sem 𝓛 (Ends self.entry (IsAfter self.old (Step.Perform worker moment) (is_ok result))) }
        ensures outcome { IfOk result (λ outcome. outcome.now ≡ outcome_now self.old (Step.Perform worker moment)) }
        ensures stale { IsErrOf result PerformFault.Stale ↔ IsStale (held_work (run_of self.old).world worker.0) work.now }
        ensures sure { 0 < self.old.room → IsFalse (wants_memory (run_of self.old).world (Step.Perform worker moment)) → result ≢ Err PerformFault.NoMemory }
    {
        self.store_work(worker, work, moment)?;
        Ok(last_outcome(self.entries.as_slice()))
    }

    /// What a user's processes received, from what was stored: actor and outcome of each client step of the user, in
    /// order. They would receive the same in the run without the steps that were not taken by or for that user.
    pub fn transcript(&self, user: User) -> Result<Vec<Seen>, NoMemory>
        ensures received { IfOk result (λ seen. seen.items ≡ received user.0 (run self.now.config self.now.steps).entries) }
        ensures isolated { IfOk result (λ seen. seen.items ≡ received user.0 (run self.now.config (erase user.0 self.now.config self.now.steps)).entries) }
    {
        laws::isolation();
        Ok(transcript_of(self.alloc, self.entries.as_slice(), user)?)
    }

    /// The run anew of the steps that were taken by or for a user.
    pub fn erased(&self, user: User) -> Result<Traced, NoMemory>
        ensures config { IfOk result (λ erased. erased.config ≡ self.now.config) }
        ensures steps { IfOk result (λ erased. erased.steps ≡ erase user.0 self.now.config self.now.steps) }
    {
        let mut erased = Traced::new(self.alloc, self.world.config().clone()?)?;
        for (place, entry) in self.entries.iter().enumerate() {
            if self.is_owned(place, user) {
                erased.store_copy(&entry.step)?;
            }
        }
        Ok(erased)
    }

    /// Whether the step at a place was taken by or for a user.
    fn is_owned(&self, place: usize, user: User) -> bool
        requires { place < length self.now.steps }
        ensures { result ≡ runs.is_owner user.0 (slice_index_or (owners_from (machine.boot self.now.config) self.now.steps) place None) }
    {
        is_owner(self.owners.as_slice()[place], user)
    }

    /// Takes a copy of a step and stores it.
    fn store_copy(&mut self, step: &Step) -> Result<(), NoMemory>
        ensures config { self.new.config ≡ self.old.config }
        ensures steps { OnOk result (self.new.steps ≡ self.old.steps ++ step.now ∷ []) }
    {
        let copy = step.clone()?;
        if self.store(copy).is_err() {
            return Err(NoMemory);
        }
        Ok(())
    }
}

/// The outcome of the last step, if it was stored.
fn told(stored: Result<(), Unstored>, run: &Traced) -> Result<&Outcome, Unstored>
    requires { OnOk stored (run.now.steps ≢ []) }
    ensures same { is_ok result ≡ is_ok stored }
    ensures outcome { IfOk result (λ outcome. IsLast run.now outcome.now) }
    ensures handed_back { IfErr result (λ unstored. stored ≡ Err unstored) }
{
    match stored {
        Ok(()) => Ok(run.last()),
        Err(unstored) => Err(unstored),
    }
}

/// The outcome of the last entry.
fn last_outcome(entries: &[Entry]) -> &Outcome
    requires { entries.now ≢ [] }
    ensures { (earlier : List Entry) (entry : Entry) → entries.now ≡ earlier ++ entry ∷ [] → result.now ≡ entry.outcome }
{
    &entries[entries.len() - 1].outcome
}

/// Whether there is an owner, and it is the user.
fn is_owner(owner: Option<User>, user: User) -> bool
    ensures { result ≡ runs.is_owner user.0 (option_map (λ user. user.0) owner) }
{
    match owner {
        Some(owner) => owner == user,
        None => false,
    }
}

/// What a step gave to a user's processes, if it is a client step of that user.
fn seen_by(entry: &Entry, user: User) -> Result<Option<Seen>, AllocError>
    ensures { IfOk result (λ seen. option_to_list seen ≡ runs.seen_by user.0 entry.now.outcome (actor_of entry.now.step)) }
{
    match entry.step.actor() {
        Some(actor) if actor.user() == user => Ok(Some(Seen {
            actor,
            outcome: entry.outcome.clone()?,
        })),
        _ => Ok(None),
    }
}

/// What the entries gave to a user's processes.
fn transcript_of(alloc: Global, entries: &[Entry], user: User) -> Result<Vec<Seen>, AllocError>
    ensures { IfOk result (λ transcript. transcript.items ≡ received user.0 entries.now) }
{
    let mut transcript = Vec::new(alloc);
    for entry in entries {
        if let Some(seen) = seen_by(entry, user)? {
            transcript.push(seen)?;
        }
    }
    Ok(transcript)
}
