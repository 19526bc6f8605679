//! A world that runs on with no list of its steps, and a recorder of the last ones.

ghost use Rattle.std.specs.Prelude.{◌≡◌, ◌≢◌, ◌-◌, ◌++◌, ◌∷◌, ◌↔◌, [], List, Err, IfErr, IfOk, IsErrOf, IsFalse, IsOk, OnErr, OnOk, drop, find, get_or, is_some, max, take, vec_capacity, vec_len};
ghost use Rattle.circular_buffer.specs.Buffer.{buffer, keep_last};
ghost use Rattle.qx_types.specs.Managers.{managers};
ghost use Rattle.qx_types.specs.declared.step.Step.{Step};
ghost use Rattle.qx_machine.specs.Machine as machine;
ghost use Rattle.qx_machine.specs.Reads as reads;
ghost use Rattle.qx_machine.specs.Wants.{wants_memory};
ghost use Rattle.qx_world.specs.Steps.{held_work, IsStale, PerformFault};
ghost use Rattle.qx_types.specs.Cut.{bytes_of_outcome, bytes_of_step, cut_outcome, cut_step};
ghost use Rattle.qx_running.specs.Running.{begun, greatest_urgency, is_as_urgent, next, next_manager, oldest, turn_by, urgency, with_turn, CameBy, IsOfRun};

use circular_buffer::HeapCircularBuffer;
use qx_machine::Entry;
use qx_types::cut::{bytes_of_outcome, bytes_of_step, cut_outcome, cut_step};
use qx_types::{Limits, Manager, Outcome, Step, User, Worker};
use qx_world::{PerformFault, Unstored, Work, World};
use std::alloc::{AllocError, Global};
use std::marker::Model;

/// How many urgencies a line may have: none, or one more than the priority of its first item.
const URGENCIES: usize = Limits::PRIORITY as usize + 2;

/// The most steps that are read at once (this profile).
pub const PIECE: usize = 64;

/// A step that was taken, as the recorder keeps it (this profile).
#[derive(Debug, Drop)]
pub struct Recorded {
    /// By or for whom it was taken.
    pub owner: Option<User>,
    /// The step and its outcome, each of their byte strings cut to the first `KEPT` bytes.
    pub entry: Entry,
    /// How many bytes the step had.
    pub step_bytes: usize,
    /// How many bytes the outcome had.
    pub outcome_bytes: usize,
}

// Written out and not derived, so that its contract says outright that the copy is equal.
impl Clone for Recorded {
    ghost is_clone = { λ original copy. copy ≡ original };

    fn clone(&self) -> Result<Recorded, AllocError> {
        let entry = Entry {
            step: self.entry.step.clone()?,
            outcome: self.entry.outcome.clone()?,
        };
        Ok(Recorded {
            owner: self.owner,
            entry,
            step_bytes: self.step_bytes,
            outcome_bytes: self.outcome_bytes,
        })
    }
}

/// Recorded steps that were taken one after the other, oldest first.
#[derive(Debug, Drop)]
pub struct Piece {
    /// The number of the first one; the first step of a run has number 1.
    pub first: u64,
    pub steps: Vec<Recorded>,
}

/// A world that runs on with no list of its steps. A recorder keeps the last ones in memory that is made at the start, so a
/// step wants no memory to be kept.
pub struct Running {
    alloc: Global,
    world: World,
    recorder: HeapCircularBuffer<Recorded>,
    /// How many steps were taken since the run began; it stays at the greatest number.
    taken: u64,
    /// For each urgency of a line the number of the manager whose turn it is among those of that urgency.
    turns: [u8; URGENCIES],
}

/// As it would be derived; but what drops a run at an exit is proved with one call there.
impl Drop for Running {
    fn drop(self) {
        let Running {
            alloc: _,
            world: _,
            recorder: _,
            taken: _,
            turns: _,
        } = self;
    }
}

impl Model for Running {
    ghost use Rattle.std.specs.Coded.{codes};
    ghost use Rattle.qx_names.specs.Paths.{names_code};
    ghost use Rattle.qx_running.specs.Running.{Now, IsOfRun};
    ghost use Rattle.qx_running.specs.inner.Running.{now_of};

    ghost Value = { Now };

    ghost coded = { Prim.hlevel (codes, names_code) };

    ghost view = { λ r. now_of r.world r.recorder r.taken r.turns };

    ghost invariant = { λ r. IsOfRun (now_of r.world r.recorder r.taken r.turns) };
}

impl Running {
    /// Begins a run in a world, with room for so many steps in the recorder; 0 is as good a room as another. The world comes back
    /// where memory is short.
    pub fn new(alloc: Global, world: World, room: usize) -> Result<Running, World>
        ensures begun { IfOk result (λ running. running ≡ begun world room) }
        ensures back { IfErr result (λ back. back ≡ world) }
    {
        let Ok(recorder) = HeapCircularBuffer::with_capacity(alloc, room) else {
            return Err(world);
        };
        world.know_reached();
        Ok(Running {
            alloc,
            world,
            recorder,
            taken: 0,
            turns: [0; URGENCIES],
        })
    }

    /// Takes a step and records it, or hands it back where the step itself lacks memory; nothing changed then.
    pub fn take(&mut self, step: Step) -> Result<Outcome, Unstored>
        ensures told { IfOk result (λ outcome. outcome ≡ (machine.step self.old.world step).outcome) }
        ensures next { OnOk result (self.new ≡ next self.old step) }
        ensures err { OnErr result (self.new ≡ self.old) }
        ensures handed_back { IfErr result (λ unstored. unstored.step ≡ step) }
        ensures steps { OnOk result ((before since : List Step) → CameBy before since self.old → CameBy before (since ++ step ∷ []) self.new) }
        ensures sure { IsFalse (wants_memory self.old.world step) → IsOk result }
    {
        let owner = self.world.owner(&step);
        let turn = turn_by(&self.world, &step);
        let Ok(outcome) = self.world.step(&step) else {
            return Err(Unstored { step });
        };
        set_turn(&mut self.turns, turn, &outcome);
        self.taken = self.taken.saturating_add(1);
        record(self.alloc, &mut self.recorder, owner, step, &outcome);
        Ok(outcome)
    }

    /// A worker does what it holds, if that is the work at hand, and the step is recorded. A message is not read again. `Stale`
    /// comes where something else is held, `NoMemory` where the step itself lacks memory; nothing changed then.
    pub fn perform(
        &mut self,
        worker: Worker,
        work: &Work,
        moment: u64,
    ) -> Result<Outcome, PerformFault>
        ensures told { IfOk result (λ outcome. outcome ≡ (machine.step self.old.world (Step.Perform worker moment)).outcome) }
        ensures next { OnOk result (self.new ≡ next self.old (Step.Perform worker moment)) }
        ensures err { OnErr result (self.new ≡ self.old) }
        ensures stale { IsErrOf result PerformFault.Stale ↔ IsStale (held_work self.old.world worker.0) work.now }
        ensures steps { OnOk result ((before since : List Step) → CameBy before since self.old → CameBy before (since ++ Step.Perform worker moment ∷ []) self.new) }
        ensures sure { IsFalse (wants_memory self.old.world (Step.Perform worker moment)) → result ≢ Err PerformFault.NoMemory }
    {
        let step = Step::Perform { worker, moment };
        let owner = self.world.owner(&step);
        let outcome = self.world.perform(worker, work, moment)?;
        self.taken = self.taken.saturating_add(1);
        record(self.alloc, &mut self.recorder, owner, step, &outcome);
        Ok(outcome)
    }

    /// The world.
    pub fn world(&self) -> &World
        ensures world { result.now ≡ self.now.world }
        ensures run { IsOfRun self.now }
    {
        &self.world
    }

    /// The manager whose line a worker serves next: that in which the first item has the highest priority, and of several such
    /// the one whose turn it is: the first one by number, from behind that on from which an item was taken last of lines that
    /// were as urgent, and then from the first manager on; none where all lines are empty (this profile).
    pub fn next_manager(&self) -> Option<Manager>
        ensures next { result ≡ next_manager self.now.world self.now.turns }
        ensures some { is_some result ≡ is_some (reads.next_manager self.now.world) }
    {
        let most = self.greatest_urgency();
        match self.first_urgent(self.turn(most), most) {
            Some(manager) => Some(manager),
            None => self.first_urgent(0, most),
        }
    }

    /// The number of the manager whose turn it is among those of an urgency.
    fn turn(&self, urgency: u16) -> usize
        ensures { result ≡ get_or self.now.turns urgency 0 }
    {
        match self.turns.get(urgency as usize) {
            Some(turn) => *turn as usize,
            None => 0,
        }
    }

    /// How urgent the most urgent line is.
    fn greatest_urgency(&self) -> u16
        ensures { result ≡ greatest_urgency self.now.world managers }
    {
        let mut most = 0u16;
        let mut number = 0;
        'managers: for _ in 0..Manager::count() {
            let Some(manager) = self.world.next_from(number) else {
                return most;
            };
            most = most.max(urgency(&self.world, manager));
            number = manager.number() + 1;
        }
        most
    }

    /// The first manager, by number and from one on, whose line is so urgent.
    fn first_urgent(&self, from: usize, most: u16) -> Option<Manager>
        ensures { result ≡ find (is_as_urgent self.now.world most) (drop from managers) }
    {
        let mut number = from;
        'managers: for _ in 0..Manager::count() {
            let manager = self.world.next_from(number)?;
            if is_urgent(&self.world, manager, most) {
                return Some(manager);
            }
            number = manager.number() + 1;
        }
        None
    }

    /// Copies of recorded steps, at most `PIECE`, from that of a number on, or from the oldest one where that is no more there.
    /// Numbers count the steps since the run began, from 1, so one above that asked for shows a gap.
    pub fn recent(&self, from: u64) -> Result<Piece, AllocError>
        ensures run { IsOfRun self.now }
        ensures first { IfOk result (λ piece. piece.first ≡ max from (oldest self.now)) }
        ensures steps { IfOk result (λ piece. piece.steps.items ≡ take PIECE (drop (piece.first - oldest self.now) self.now.last)) }
        ensures capacity { IfOk result (λ piece. vec_capacity piece.steps ≡ vec_len piece.steps) }
    {
        let before = self.taken.saturating_sub(self.recorder.len() as u64);
        let oldest = before.saturating_add(1);
        let first = from.max(oldest);
        let steps = self.copies((first - oldest) as usize)?;
        Ok(Piece { first, steps })
    }

    /// Copies of the recorded steps behind the first ones, at most `PIECE`, in memory for just so many.
    fn copies(&self, skipped: usize) -> Result<Vec<Recorded>, AllocError>
        ensures steps { IfOk result (λ steps. steps.items ≡ take PIECE (drop skipped self.now.last)) }
        ensures capacity { IfOk result (λ steps. vec_capacity steps ≡ vec_len steps) }
    {
        let count = PIECE.min(self.recorder.len().saturating_sub(skipped));
        let mut steps = Vec::with_capacity(self.alloc, count)?;
        for number in 0..count {
            if let Some(recorded) = self.recorder.get(skipped + number) {
                steps.push_reserved(recorded.clone()?);
            }
        }
        Ok(steps)
    }

    /// How many steps were taken since the run began, or the greatest number where these are more.
    pub fn taken(&self) -> u64
        ensures { result ≡ self.now.taken }
    {
        self.taken
    }

    /// Ends the run: the world.
    pub fn into_world(self) -> World
        ensures { result ≡ self.world }
    {
        let Running {
            alloc: _,
            world,
            recorder: _,
            taken: _,
            turns: _,
        } = self;
        world
    }
}

/// Records a step that was taken. What falls out of the recorder goes.
fn record(
    alloc: Global,
    recorder: &mut HeapCircularBuffer<Recorded>,
    owner: Option<User>,
    step: Step,
    outcome: &Outcome,
)
    ensures { recorder.new ≡ buffer (keep_last recorder.old.capacity (recorder.old.items ++ record { owner = owner; entry = record { step = cut_step step; outcome = cut_outcome outcome.now }; step_bytes = bytes_of_step step; outcome_bytes = bytes_of_outcome outcome.now } ∷ [])) recorder.old.capacity }
{
    let recorded = Recorded {
        owner,
        step_bytes: bytes_of_step(&step),
        outcome_bytes: bytes_of_outcome(outcome),
        entry: Entry {
            step: cut_step(step),
            outcome: cut_outcome(alloc, outcome),
        },
    };
    let _gone = recorder.push_back(recorded);
}

/// How urgent the line of a manager is: one more than the priority of its first item, and 0 where it is empty.
fn urgency(world: &World, manager: Manager) -> u16
    ensures { result ≡ urgency world.now manager }
{
    match world.first_prio(manager) {
        Some(prio) => prio.0 as u16 + 1,
        None => 0,
    }
}

/// Whether an item waits for a manager, and its line is as urgent as that.
fn is_urgent(world: &World, manager: Manager, most: u16) -> bool
    ensures { result ≡ is_as_urgent world.now most manager }
{
    most > 0 && urgency(world, manager) == most
}

/// Whose turn a receive makes it that takes an item, and among the managers of which urgency; none where it is no receive.
fn turn_by(world: &World, step: &Step) -> Option<(usize, u8)>
    ensures { result ≡ turn_by world.now step.now }
{
    match step {
        Step::Receive { manager, .. } => {
            Some((
                urgency(world, *manager) as usize,
                manager.number() as u8 + 1,
            ))
        }
        _ => None,
    }
}

/// A step that took an item makes it this manager's turn among those of an urgency.
fn set_turn(turns: &mut [u8; URGENCIES], by: Option<(usize, u8)>, outcome: &Outcome)
    ensures { turns.new ≡ with_turn turns.old by outcome.now }
{
    let Some((urgency, turn)) = by else {
        return;
    };
    if let Outcome::Took(_) = outcome {
        if urgency < URGENCIES {
            turns[urgency] = turn;
        }
    }
}
