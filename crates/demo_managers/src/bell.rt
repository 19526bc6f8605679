ghost use Rattle.std.specs.Prelude.{◌≡◌, ◌<◌, ◌≤◌, [], IfOk, None, OnErr, OnOk, Some, length};
ghost use Rattle.qx_machine.specs.Pipes.{pipe_of};
ghost use Rattle.qx_isolation.specs.Rows.{row_at};
ghost use Rattle.qx_shared.specs.Shared.{pipes_of, with_row_at};
ghost use Rattle.qx_types.specs.declared.limits.TheConstants.Limits.{INODES};
ghost use Rattle.demo_managers.specs.Null.{opened_at};
ghost use Rattle.demo_managers.specs.Bell as bell;

use crate::blocks::Blocks;
use qx_machine::{Caller, Opened};
use qx_resmgr::State;
use qx_shared::Shared;
use qx_types::{Coid, Errno, NoMemory, User};
use std::alloc::Global;
use std::marker::Model;

/// What the manager keeps for a user: its open control blocks, and the inode of the user in whose pipe its calls wait.
#[derive(Drop)]
pub struct Bell {
    pub(crate) user: User,
    pub(crate) inode: u32,
    pub(crate) blocks: Blocks,
}

impl Model for Bell {
    ghost use Rattle.demo_managers.specs.Bell as bell;

    ghost Value = { bell.KeptBells };

    ghost view = { λ b. record { user = b.user.0; inode = b.inode; blocks = b.blocks } };
}

/// What the manager's functions work on: the blocks, and who waits. It stands in contracts alone.
pub struct Bells;

impl Model for Bells {
    ghost use Rattle.std.specs.Prelude.{[], None};
    ghost use Rattle.qx_machine.specs.Pipes.{pipe_of};
    ghost use Rattle.demo_managers.specs.Bell as bell;

    ghost Value = { bell.Bells };

    ghost view = { λ _. record { blocks = []; place = pipe_of None [] [] [] } };
}

impl State<Shared, Bells> for Bell {
    ghost told = { bell.bells_told };

    ghost shared = { bell.bells_shared };

    ghost fits = { bell.HasOwnPlace };

    ghost same = { bell.SamePlace };
}

impl Bell {
    /// Nothing is open, and nobody waits. The inode is one that has no pipe: in what all users share its calls wait as in a
    /// pipe that they read.
    pub fn new(alloc: Global, shared: &mut Shared, user: User, inode: u32) -> Result<Self, NoMemory>
        requires user { user.0 < length shared.old.pipes }
        requires inode { inode ≤ INODES }
        requires none { row_at (pipes_of shared.old user.0) inode ≡ None }
        ensures bell { IfOk result (λ b. b ≡ bell.new_bell user.0 inode) }
        ensures place { OnOk result (shared.new ≡ with_row_at shared.old user.0 inode (Some (pipe_of None [] [] []))) }
        ensures fits { IfOk result (λ b. bell.HasOwnPlace b shared.new) }
        ensures err { OnErr result (shared.new ≡ shared.old) }
    {
        let blocks = Blocks::new(alloc)?;
        shared.add_pipe(user, inode, None)?;
        // Tells that each inode has a place for its pipe.
        let _is_there = shared.has_pipe(user, inode);
        Ok(Bell {
            user,
            inode,
            blocks,
        })
    }

    /// What a caller's connection with a block of that number has open; EBADF where there is no such block.
    pub fn opened(
        &self,
        caller: Caller,
        coid: Coid,
        number: u16,
        moment: u64,
    ) -> Result<Opened, Errno>
        ensures opened { result ≡ opened_at self.now.blocks caller coid number moment }
    {
        self.blocks.opened(caller, coid, number, moment)
    }
}
