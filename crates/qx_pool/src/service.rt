//! The server that runs on with no stored steps: a world with its flight recorder lies under its lock, and seats are not counted.

ghost use Rattle.std.specs.Prelude.{◌≡◌, IfErr};

use crate::client::ClientOf;
use crate::server::ServerOf;
use qx_monitor::Bells;
use qx_running::Running;
use qx_world::World;
use std::alloc::Global;

/// A world under a lock, to which workers and clients come. It runs for as long as is wanted: nothing grows with its steps. Its
/// `look` lends the `Running`, whose `recent` gives copies of the last steps.
pub type Service = ServerOf<Running>;

/// A thread of a process, at a service.
pub type ServiceClient = ClientOf<Running>;

impl Service {
    /// A server of a world, with room for so many steps in its flight recorder. The world comes back where memory is short.
    pub fn new(alloc: Global, world: World, room: usize) -> Result<Service, World>
        ensures { IfErr result (λ back. back ≡ world) }
    {
        let Ok(bells) = Bells::new(alloc) else {
            return Err(world);
        };
        let running = Running::new(alloc, world, room)?;
        Ok(ServerOf::over(running, bells, 0))
    }

    /// The world, once all threads have left. A server that is made of it goes on with what workers hold.
    pub fn into_world(self) -> World {
        self.into_under().into_world()
    }
}
