//! What all users share, as the managers' functions work on it.

ghost use Rattle.std.specs.Prelude.{◌≡◌, IfOk};
ghost use Rattle.qx_resources.specs.State.{boot_tables};

use qx_notify::AllEvents;
use qx_paths::Mounts;
use qx_shared::Shared;
use qx_types::{Config, NoMemory};
use std::alloc::Global;

/// The root of a user's top.
const TOP_INODE: u32 = 1;

/// The tables of all users: the calls that wait, in the managers' lines and in pipes; the events, armed or due; and where
/// managers are attached.
#[derive(Drop)]
pub struct Tables {
    pub shared: Shared,
    pub events: AllEvents,
    pub mounts: Mounts,
}

impl Tables {
    /// Of the users of a configuration at boot: nothing waits, and each has the top.
    pub fn boot(alloc: Global, config: &Config) -> Result<Self, NoMemory>
        ensures boot { IfOk result (λ tables. tables ≡ boot_tables config.now) }
    {
        let shared = Shared::new(alloc, config.user_count())?;
        let events = AllEvents::new(alloc, config.user_count())?;
        let mounts = Mounts::boot(alloc, config, TOP_INODE)?;
        Ok(Tables {
            shared,
            events,
            mounts,
        })
    }
}
