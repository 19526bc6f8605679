//! A run under a server's lock. Its seats keep nothing, and are not counted.

ghost use Rattle.std.specs.Prelude.{◌≡◌};

use crate::running::Running;
use qx_types::{Manager, Outcome, Step, Worker};
use qx_world::{PerformFault, UnderLock, Unstored, Work, World};

impl UnderLock for Running {
    ghost use Rattle.qx_running.specs.Running.{next_manager};
    ghost use Rattle.qx_running.specs.Told.{IsTold};

    type Seat = ();

    ghost world_of = { λ running. running.world };

    ghost next_of = { λ running. next_manager running.world running.turns };

    ghost adds = { λ old new step outcome. IsTold step outcome };

    ghost keeps = { λ old new. new ≡ old };

    ghost seats = { 0 };

    fn take(&mut self, _seat: &mut (), step: Step) -> Result<Outcome, Unstored> {
        Running::world(self).know_reached();
        Running::take(self, step)
    }

    fn perform(
        &mut self,
        _seat: &mut (),
        worker: Worker,
        work: &Work,
        moment: u64,
    ) -> Result<Outcome, PerformFault> {
        Running::world(self).know_reached();
        Running::perform(self, worker, work, moment)
    }

    fn next_manager(&self) -> Option<Manager> {
        Running::next_manager(self)
    }

    fn world(&self) -> &World {
        Running::world(self)
    }
}
