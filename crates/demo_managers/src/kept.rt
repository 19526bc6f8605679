ghost use Rattle.std.specs.Prelude.{◌≡◌, IfOk};
ghost use Rattle.demo_managers.specs.Null as null;

use crate::blocks::Blocks;
use qx_notify::AllEvents;
use qx_resmgr::State;
use qx_types::{NoMemory, User};
use std::alloc::Global;
use std::marker::Model;

/// What the manager keeps for a user.
#[derive(Drop)]
pub struct Kept {
    pub user: User,
    pub blocks: Blocks,
}

impl Model for Kept {
    ghost use Rattle.demo_managers.specs.Null as null;

    ghost Value = { null.Kept };

    ghost view = { λ k. record { user = k.user.0; blocks = k.blocks } };
}

/// What the manager's tables work on: the blocks, and the user's events. It stands in contracts alone.
pub struct Told;

impl Model for Told {
    ghost use Rattle.std.specs.Prelude.{[]};
    ghost use Rattle.qx_machine.specs.Events.{no_events};
    ghost use Rattle.demo_managers.specs.Null as null;

    ghost Value = { null.Told };

    ghost view = { λ _. record { blocks = []; events = no_events } };
}

impl State<AllEvents, Told> for Kept {
    ghost told = { null.told };

    ghost shared = { null.shared };

    ghost fits = { null.HasUser };

    ghost same = { null.SameUser };
}

impl Kept {
    /// Nothing is open.
    pub fn new(alloc: Global, user: User) -> Result<Self, NoMemory>
        ensures none { IfOk result (λ kept. kept ≡ null.nothing_kept user.0) }
    {
        Ok(Kept {
            user,
            blocks: Blocks::new(alloc)?,
        })
    }
}
