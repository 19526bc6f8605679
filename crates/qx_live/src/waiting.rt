//! How many items wait.

ghost use Rattle.std.specs.Prelude.{◌≡◌, ◌<◌, ◌^◌};
ghost use Rattle.qx_live.specs.Chosen.{items_waiting};

use qx_types::Manager;
use qx_world::World;

/// How many items wait in all lines.
pub fn waiting(world: &World) -> u128
    ensures number { result ≡ items_waiting world.now }
    ensures few { result < 2 ^ 127 }
{
    world.know_reached();
    let mut waiting = 0;
    let mut number = 0;
    'lines: for _ in 0..Manager::count() {
        let Some(manager) = world.next_from(number) else {
            return waiting;
        };
        waiting += world.waiting(manager) as u128;
        number = manager.number() + 1;
    }
    waiting
}
