//! A run at whose seats steps are taken.

ghost use Rattle.std.specs.Prelude.{◌≡◌, ◌-◌, ◌++◌, ◌∷◌, [], All, IfErr, IfOk, IsErrOf, OnErr, OnOk, drop, is_some, map, max, take, true};
ghost use Rattle.std.specs.List.{range_with_len};
ghost use Rattle.qx_types.specs.declared.step.Step.{Step};
ghost use Rattle.qx_machine.specs.Machine as machine;
ghost use Rattle.qx_machine.specs.Reads as reads;
ghost use Rattle.qx_world.specs.Steps.{held_work, IsStale, PerformFault};
ghost use Rattle.qx_running.specs.Running.{begun, next_manager, oldest};
ghost use Rattle.qx_tied.specs.Tied.{done_at, entry, own_from};
ghost use Rattle.qx_tied.specs.Run.{IsRunFrom, next};

use crate::event::{Event, Tagged};
use crate::front::{Front, Opened};
use crate::seat::{OfRun, Seat};
use crate::ties::Ties;
use crossbeam_utils::CachePadded;
use qx_running::{PIECE, Piece, Running};
use qx_types::{Manager, Outcome, Step, Worker};
use qx_world::{PerformFault, Unstored, Work, World};
use std::alloc::{AllocError, Global};
use std::marker::Model;

/// A world that runs on with no list of its steps, as a `Running` does, and that knows in proofs alone at which seat each was taken.
#[derive(Drop)]
pub struct Tied<J: OfRun> {
    running: Running,
    ties: Ties<J>,
}

impl<J: OfRun> Model for Tied<J> {
    ghost use Rattle.std.specs.Coded.{codes};
    ghost use Rattle.qx_names.specs.Paths.{names_code};
    ghost use Rattle.qx_tied.specs.Tied.{taken};
    ghost use Rattle.qx_tied.specs.Run.{IsRunFrom, TiedRun};

    ghost Value = { TiedRun };

    ghost coded = { Prim.hlevel (codes, names_code) };

    ghost view = { λ t. record { run = t.running; steps = taken t.ties.events; seats = t.ties.seats } };

    ghost invariant = { λ t. IsRunFrom J.began (record { run = t.running; steps = taken t.ties.events; seats = t.ties.seats }) };
}

impl<J: OfRun> Tied<J> {
    /// Takes a step at a seat, or hands it back with nothing done: where the step itself lacks memory; and where the seat is not as
    /// its last step left it, or 2^61 steps were tried, of which neither comes at the run's own seats.
    pub fn take(&mut self, seat: &mut Seat<J>, step: Step) -> Result<Outcome, Unstored>
        ensures told { IfOk result (λ outcome. outcome ≡ (machine.step self.old.run.world step).outcome) }
        ensures next { OnOk result (self.new ≡ next self.old seat.old.seat step) }
        ensures done { IfOk result (λ outcome. done_at J.began seat.new ≡ done_at J.began seat.old ++ entry step outcome ∷ []) }
        ensures number { seat.new.seat ≡ seat.old.seat }
        ensures err { OnErr result (self.new ≡ self.old) }
        ensures kept { OnErr result (done_at J.began seat.new ≡ done_at J.began seat.old) }
        ensures handed_back { IfErr result (λ unstored. unstored.step ≡ step) }
    {
        let tagged = Tagged {
            seat: seat.number,
            step,
        };
        let front = self.ties.tried(seat, &tagged);
        let Tagged { seat: _, step } = tagged;
        let Some(front) = front else {
            return Err(Unstored { step });
        };
        match self.running.take(step) {
            Ok(outcome) => {
                self.ties.keep(seat, front, 1);
                Ok(outcome)
            }
            Err(unstored) => {
                self.ties.came_back(seat, front);
                Err(unstored)
            }
        }
    }

    /// A worker does what it holds, if that is the work at hand, and the step is taken at its seat. `Stale` comes where something
    /// else is held, `NoMemory` where `take` hands a step back; nothing was done then.
    pub fn perform(
        &mut self,
        seat: &mut Seat<J>,
        worker: Worker,
        work: &Work,
        moment: u64,
    ) -> Result<Outcome, PerformFault>
        ensures told { IfOk result (λ outcome. outcome ≡ (machine.step self.old.run.world (Step.Perform worker moment)).outcome) }
        ensures next { OnOk result (self.new ≡ next self.old seat.old.seat (Step.Perform worker moment)) }
        ensures done { IfOk result (λ outcome. done_at J.began seat.new ≡ done_at J.began seat.old ++ entry (Step.Perform worker moment) outcome ∷ []) }
        ensures number { seat.new.seat ≡ seat.old.seat }
        ensures err { OnErr result (self.new ≡ self.old) }
        ensures kept { OnErr result (done_at J.began seat.new ≡ done_at J.began seat.old) }
        ensures stale { IsErrOf result PerformFault.Stale → IsStale (held_work self.old.run.world worker.0) work.now }
    {
        let tagged = Tagged {
            seat: seat.number,
            step: Step::Perform { worker, moment },
        };
        let Some(front) = self.ties.tried(seat, &tagged) else {
            return Err(PerformFault::NoMemory);
        };
        match self.running.perform(worker, work, moment) {
            Ok(outcome) => {
                self.ties.keep(seat, front, 1);
                Ok(outcome)
            }
            Err(fault) => {
                self.ties.came_back(seat, front);
                Err(fault)
            }
        }
    }

    /// Whether the seat knows all that was done there. Then that is all of the run's own entries of the seat.
    pub fn holds(&self, seat: &Seat<J>) -> bool
        ensures run { IsRunFrom J.began self.now }
        ensures holds { result ≡ true → own_from seat.now.seat J.began self.now.steps ≡ done_at J.began seat.now }
    {
        self.ties.are_known(seat)
    }

    /// The world.
    pub fn world(&self) -> &World
        ensures world { result.now ≡ self.now.run.world }
        ensures run { IsRunFrom J.began self.now }
    {
        self.running.world()
    }

    /// The manager whose line a worker serves next, as `Running` tells it.
    pub fn next_manager(&self) -> Option<Manager>
        ensures next { result ≡ next_manager self.now.run.world self.now.run.turns }
        ensures some { is_some result ≡ is_some (reads.next_manager self.now.run.world) }
    {
        self.running.next_manager()
    }

    /// Copies of recorded steps, as `Running` gives them.
    pub fn recent(&self, from: u64) -> Result<Piece, AllocError>
        ensures run { IsRunFrom J.began self.now }
        ensures first { IfOk result (λ piece. piece.first ≡ max from (oldest self.now.run)) }
        ensures steps { IfOk result (λ piece. piece.steps.items ≡ take PIECE (drop (piece.first - oldest self.now.run) self.now.run.last)) }
    {
        self.running.recent(from)
    }

    /// Ends the run: the world.
    pub fn into_world(self) -> World
        ensures { result ≡ self.run.world }
    {
        let Tied { running, ties: _ } = self;
        running.into_world()
    }

    /// Begins a run in a world, with room for so many steps in the recorder, and its seats. The world comes back where memory is
    /// short.
    pub fn new(
        alloc: Global,
        opened: Opened<Event>,
        world: World,
        room: usize,
        seats: usize,
    ) -> Result<(Tied<J>, Vec<Seat<J>>), World>
        requires list { opened.seen.book ≡ J.book }
        requires began { world ≡ J.began }
        ensures run { IfOk result (λ r. r.0 ≡ record { run = begun world room; steps = []; seats = seats }) }
        ensures numbers { IfOk result (λ r. map (λ s. s.seat) r.1.items ≡ range_with_len 0 seats) }
        ensures none { IfOk result (λ r. All (λ s. s.events ≡ []) r.1.items) }
        ensures back { IfErr result (λ back. back ≡ world) }
    {
        world.know_reached();
        let (head, front) = opened.named::<J>();
        let Ok(made) = seats_of(alloc, &front, seats) else {
            return Err(world);
        };
        let Ok(counts) = Vec::from_elem(alloc, CachePadded::new(0u64), seats) else {
            return Err(world);
        };
        let running = Running::new(alloc, world, room)?;
        let ties = Ties {
            counts,
            head,
            front,
        };
        Ok((Tied { running, ties }, made))
    }
}

/// So many seats, which know of an empty list.
fn seats_of<J: OfRun>(
    alloc: Global,
    front: &Front<Event, J>,
    count: usize,
) -> Result<Vec<Seat<J>>, AllocError>
    requires { front.now ≡ [] }
    ensures numbers { IfOk result (λ made. map (λ s. s.seat) made.items ≡ range_with_len 0 count) }
    ensures none { IfOk result (λ made. All (λ s. s.events ≡ []) made.items) }
{
    let mut made = Vec::new(alloc);
    'making: for number in 0..count {
        made.push(Seat {
            number,
            count: 0,
            front: front.again(),
        })?;
    }
    Ok(made)
}
