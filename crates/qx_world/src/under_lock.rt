//! What lies under a server's lock.

ghost use Rattle.std.specs.Prelude.{◌≡◌, IfErr, IfOk, IsErrOf, OnErr, is_ok, is_some};
ghost use Rattle.qx_types.specs.declared.step.Step.{Step};
ghost use Rattle.qx_machine.specs.Machine as machine;
ghost use Rattle.qx_machine.specs.Reads.{next_manager};
ghost use Rattle.qx_steps.specs.Held.{held_work, IsStale};
ghost use Rattle.qx_steps.specs.declared.work.PerformFault.{PerformFault};
ghost use Rattle.qx_world.specs.Seats.{world_then};

use crate::trace::Unstored;
use qx_steps::{PerformFault, Work, World};
use qx_types::{Manager, Outcome, Step, Worker};

/// A world in which threads take steps, each thread at a seat.
pub trait UnderLock: Drop {
    ghost use Rattle.std.specs.Prelude.{ℕ, Option};
    ghost use Rattle.qx_types.specs.declared.names.Manager.{Manager};
    ghost use Rattle.qx_types.specs.declared.outcome.Outcome.{Outcome};
    ghost use Rattle.qx_types.specs.declared.step.Step.{Step};
    ghost use Rattle.qx_machine.specs.Machine.{World};

    /// A thread's place.
    type Seat: Drop;

    /// The world.
    ghost world_of: { Self → World };

    /// The manager whose line a worker serves next.
    ghost next_of: { Self → Option Manager };

    /// What a step that was taken does at a seat, with its outcome.
    ghost adds: { Self.Seat → Self.Seat → Step → Outcome → Type 0 };

    /// What one does that was not taken.
    ghost keeps: { Self.Seat → Self.Seat → Type 0 };

    /// How many seats there are; 0 where they are not counted.
    ghost seats: { ℕ };

    /// A step is taken at a seat; or it comes back, and the world is as it was.
    fn take(&mut self, seat: &mut Self::Seat, step: Step) -> Result<Outcome, Unstored>
        ensures told { IfOk result (λ outcome. outcome ≡ (machine.step (world_of self.old) step).outcome) }
        ensures world { world_of self.new ≡ world_then (world_of self.old) step (is_ok result) }
        ensures seat { IfOk result (λ outcome. adds seat.old seat.new step outcome) }
        ensures kept { OnErr result (keeps seat.old seat.new) }
        ensures handed_back { IfErr result (λ unstored. unstored.step ≡ step) };

    /// A worker does what it holds, if that is the work at hand.
    fn perform(
        &mut self,
        seat: &mut Self::Seat,
        worker: Worker,
        work: &Work,
        moment: u64,
    ) -> Result<Outcome, PerformFault>
        ensures told { IfOk result (λ outcome. outcome ≡ (machine.step (world_of self.old) (Step.Perform worker moment)).outcome) }
        ensures world { world_of self.new ≡ world_then (world_of self.old) (Step.Perform worker moment) (is_ok result) }
        ensures seat { IfOk result (λ outcome. adds seat.old seat.new (Step.Perform worker moment) outcome) }
        ensures kept { OnErr result (keeps seat.old seat.new) }
        ensures stale { IsErrOf result PerformFault.Stale → IsStale (held_work (world_of self.old) worker.0) work.now };

    /// The manager whose line a worker serves next; none where all lines are empty.
    fn next_manager(&self) -> Option<Manager>
        ensures next { result ≡ next_of self.now }
        ensures some { is_some result ≡ is_some (next_manager (world_of self.now)) };

    /// The world, for reading.
    fn world(&self) -> &World
        ensures { result.now ≡ world_of self.now };
}
