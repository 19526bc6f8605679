//! Which conditions hold of what a user has open, and the pulses that come of what changed of those of all blocks.

ghost use Rattle.std.specs.Prelude.{◌≡◌, ℕ};
ghost use Rattle.qx_machine.specs.Events.{triggered};
ghost use Rattle.qx_machine.specs.Notification as machine;
ghost use Rattle.qx_machine.specs.Settling.{is_living};
ghost use Rattle.qx_notify.specs.Events.{events_of, with_events};
ghost use Rattle.qx_resources.specs.State.{HasUser, told};
ghost use Rattle.qx_resources.specs.Watching.{pipe_conditions};
ghost use Rattle.qx_resources.specs.inner.Conditions.{conditions_in};

use crate::resources::Resources;
use crate::tables::Tables;
use qx_clients::Processes;
use qx_machine::Conditions;
use qx_notify::{Change, Changes};
use qx_types::Limits;

/// Both conditions hold of a file and of a directory, always.
pub(crate) const BOTH: Conditions = Conditions {
    input: true,
    output: true,
};

/// A place for the number of each open control block.
const PLACES: usize = Limits::BLOCKS + 1;

impl Resources {
    /// Which conditions hold of what is open under an inode (C Library Reference: `ionotify`): of a pipe and of a device what a
    /// read and a write would not wait for, and of all else both.
    pub(crate) fn conditions(&self, tables: &Tables, inode: u32) -> Conditions
        ensures { result ≡ pipe_conditions (told self.now tables.now) inode }
    {
        let user = self.store.user();
        if !tables.shared.has_pipe(user, inode) {
            return BOTH;
        }
        let sides = self.store.inodes().sides(inode);
        tables.shared.conditions(user, inode, sides)
    }

    /// Which conditions hold of what an open control block has open.
    fn block_conditions(&self, tables: &Tables, number: u16) -> Conditions
        ensures { result ≡ machine.block_conditions (told self.now tables.now) number }
    {
        match self.store.inodes().block(number) {
            Some(block) => self.conditions(tables, block.inode),
            None => BOTH,
        }
    }

    /// Which conditions hold of each open control block, under its number.
    pub(crate) fn all_conditions(&self, tables: &Tables) -> [Conditions; PLACES]
        ensures { (number : ℕ) → conditions_in result number ≡ machine.block_conditions (told self.now tables.now) number }
    {
        self.store.inodes().numbered();
        let mut all = [BOTH; PLACES];
        for number in 0..PLACES {
            all[number] = self.block_conditions(tables, number as u16);
        }
        all
    }

    /// Events that are due by what was done since these conditions held of all blocks give their pulses (C Library Reference:
    /// `iofunc_notify_trigger`).
    pub(crate) fn trigger_all(
        &self,
        tables: &mut Tables,
        processes: &Processes,
        before: [Conditions; PLACES],
    )
        requires fits { HasUser self.now tables.old }
        ensures { tables.new ≡ record tables.old { events = with_events tables.old.events self.now.user (triggered (is_living processes.now) (conditions_in before) (machine.block_conditions (told self.now tables.old)) (events_of tables.old.events self.now.user)) } }
    {
        let after = self.all_conditions(tables);
        let changes = BlockChanges {
            processes,
            before,
            after,
        };
        tables.events.trigger(self.store.user(), &changes);
    }
}

/// What changed of the conditions of all open control blocks.
#[derive(Drop)]
struct BlockChanges<'a> {
    processes: &'a Processes,
    before: [Conditions; PLACES],
    after: [Conditions; PLACES],
}

impl<'a> Changes for BlockChanges<'a> {
    ghost use Rattle.qx_machine.specs.Settling.{is_living};
    ghost use Rattle.qx_resources.specs.inner.Conditions.{conditions_in};

    ghost before = { λ c number. conditions_in c.before number };

    ghost after = { λ c number. conditions_in c.after number };

    ghost lives = { λ c process. is_living c.processes.now process };

    fn of(&self, block: u16) -> Change {
        Change {
            before: at(&self.before, block),
            after: at(&self.after, block),
        }
    }

    fn lives(&self, process: u8) -> bool {
        self.processes.living(process).is_some()
    }
}

/// The conditions of the block of a number among those of all; both where it has no place there.
fn at(all: &[Conditions], number: u16) -> Conditions
    ensures { result ≡ conditions_in all.now number }
{
    all.get(number as usize).copied().unwrap_or(BOTH)
}
