//! A run at whose seats steps are taken, under a server's lock.

use crate::seat::{OfRun, Seat};
use crate::tied::Tied;
use qx_types::{Manager, Outcome, Step, Worker};
use qx_world::{PerformFault, UnderLock, Unstored, Work, World};

impl<J: OfRun> UnderLock for Tied<J> {
    ghost use Rattle.qx_running.specs.Running.{next_manager};
    ghost use Rattle.qx_tied.specs.Tied.{AddsEntry, AddsNone};

    type Seat = Seat<J>;

    ghost world_of = { λ tied. tied.run.world };

    ghost next_of = { λ tied. next_manager tied.run.world tied.run.turns };

    ghost adds = { λ old new step outcome. AddsEntry J.began old new step outcome };

    ghost keeps = { λ old new. AddsNone J.began old new };

    ghost seats = { 0 };

    fn take(&mut self, seat: &mut Seat<J>, step: Step) -> Result<Outcome, Unstored> {
        Tied::take(self, seat, step)
    }

    fn perform(
        &mut self,
        seat: &mut Seat<J>,
        worker: Worker,
        work: &Work,
        moment: u64,
    ) -> Result<Outcome, PerformFault> {
        Tied::perform(self, seat, worker, work, moment)
    }

    fn next_manager(&self) -> Option<Manager> {
        Tied::next_manager(self)
    }

    fn world(&self) -> &World {
        Tied::world(self)
    }
}
