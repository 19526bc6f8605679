//! A service whose seats know what was done there: the run's own entries of the seat, with no notes.

ghost use Rattle.std.specs.Prelude.{◌≡◌, [], All, IfErr, IfOk, map};
ghost use Rattle.std.specs.List.{range_with_len};

use crate::client::ClientOf;
use crate::server::ServerOf;
use qx_monitor::Bells;
use qx_tied::{Event, OfRun, Opened, Seat, Tied};
use qx_world::World;
use std::alloc::Global;

/// A service of one run, at whose seats workers and clients take their steps. Its `look` lends the `Tied`, and `into_under` gives it:
/// its `holds` tells of a seat whether it knows all that was done there, and its `recent` gives copies of the last steps.
pub type TiedService<J> = ServerOf<Tied<J>>;

/// A thread of a process, at a seat of such a service.
pub type TiedClient<J> = ClientOf<Tied<J>>;

impl<J: OfRun> TiedService<J> {
    /// A service of a world, with room for so many steps in its flight recorder, and so many seats. The world comes back where
    /// memory is short.
    pub fn new(
        alloc: Global,
        opened: Opened<Event>,
        world: World,
        room: usize,
        seats: usize,
    ) -> Result<(TiedService<J>, Vec<Seat<J>>), World>
        requires list { opened.seen.book ≡ J.book }
        requires began { world ≡ J.began }
        ensures numbers { IfOk result (λ r. map (λ s. s.seat) r.1.items ≡ range_with_len 0 seats) }
        ensures none { IfOk result (λ r. All (λ s. s.events ≡ []) r.1.items) }
        ensures back { IfErr result (λ back. back ≡ world) }
    {
        let Ok(bells) = Bells::new(alloc) else {
            return Err(world);
        };
        let (tied, seats) = Tied::new(alloc, opened, world, room, seats)?;
        Ok((ServerOf::over(tied, bells, 0), seats))
    }
}
