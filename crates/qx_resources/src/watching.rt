//! The pipe that is watched while a message or an unblock pulse is done, and the pulses that come of it.

ghost use Rattle.std.specs.Prelude.{◌≡◌, ◌==◌, ℕ, Some, IsSome};
ghost use Rattle.qx_isolation.specs.Rows.{row_at};
ghost use Rattle.qx_machine.specs.Settling.{is_living};
ghost use Rattle.qx_machine.specs.declared.rows.Ocb as machine;
ghost use Rattle.qx_notify.specs.Events.{with_events};
ghost use Rattle.qx_resources.specs.State.{HasUser, told};
ghost use Rattle.qx_resources.specs.Watching.{watch, watched_call, watched_over, watched_settled};

use crate::conditions::BOTH;
use crate::resources::Resources;
use crate::tables::Tables;
use qx_attr::Inodes;
use qx_clients::Processes;
use qx_machine::{Conditions, Opened};
use qx_notify::{Change, Changes};
use qx_types::{Errno, Thread};
use qx_wire::{Meaning, Message};

/// A pipe that is watched: its inode, and which conditions held of it before it is worked on.
#[derive(Clone, Copy, Debug, PartialEq, Eq)]
pub struct Watched {
    pub inode: u32,
    pub before: Conditions,
}

impl Resources {
    /// The pipe that a message over what is open works on, if any event of the user is armed: a read, a write and a close
    /// work on one. What is open is there.
    pub fn watch_message(
        &self,
        tables: &Tables,
        meaning: &Meaning<'_>,
        opened: Result<Opened, Errno>,
    ) -> Option<Watched>
        requires fits { HasUser self.now tables.now }
        ensures watched { result ≡ watched_over (told self.now tables.now) meaning.now opened }
        ensures there { (number : ℕ) (block : machine.Ocb) → row_at self.now.inodes.blocks number ≡ Some block → IsSome (row_at self.now.inodes.attributes block.inode) }
    {
        let inodes = self.store.inodes();
        inodes.opened();
        if !tables.events.has_armed(self.store.user()) {
            return None;
        }
        match meaning {
            Meaning::Known(Message::Read { .. } | Message::Write { .. } | Message::Close) => {}
            _ => return None,
        }
        let block = inodes.block(opened.ok()?.number)?;
        self.watch(tables, block.inode)
    }

    /// The pipe in which a call of a thread waits, if any event of the user is armed: an unblock pulse works on it.
    pub fn watch_call(&self, tables: &Tables, thread: Thread, call: u64) -> Option<Watched>
        requires own { self.now.user ≡ thread.proc.user.0 }
        requires fits { HasUser self.now tables.now }
        ensures watched { result ≡ watched_call (told self.now tables.now) thread.proc.num thread.tid call }
    {
        if !tables.events.has_armed(thread.proc.user) {
            return None;
        }
        let inode = qx_pipes::holder(&tables.shared, self.store.inodes(), thread, call)?;
        self.watch(tables, inode)
    }

    /// The pipe of an inode, if it is one and any event of the user is armed.
    fn watch(&self, tables: &Tables, inode: u32) -> Option<Watched>
        requires fits { HasUser self.now tables.now }
        ensures watched { result ≡ watch (told self.now tables.now) inode }
    {
        let user = self.store.user();
        if !tables.events.has_armed(user) || !tables.shared.has_pipe(user, inode) {
            return None;
        }
        Some(Watched {
            inode,
            before: self.conditions(tables, inode),
        })
    }

    /// Events that are due by what was done to a watched pipe give their pulses (C Library Reference:
    /// `iofunc_notify_trigger`). Where nothing is watched none is due.
    #[inline(always)]
    pub fn trigger(&self, tables: &mut Tables, processes: &Processes, watched: Option<Watched>)
        requires fits { HasUser self.now tables.old }
        ensures triggered { tables.new ≡ record tables.old { events = with_events tables.old.events self.now.user (watched_settled (is_living processes.now) watched (told self.now tables.old)) } }
    {
        let Some(watched) = watched else {
            return;
        };
        let after = self.conditions(tables, watched.inode);
        let changes = PipeChanges {
            processes,
            inodes: self.store.inodes(),
            inode: watched.inode,
            change: Change {
                before: watched.before,
                after,
            },
        };
        tables.events.trigger(self.store.user(), &changes);
    }
}

/// What changed of the conditions of one pipe.
#[derive(Clone, Copy)]
struct PipeChanges<'a> {
    processes: &'a Processes,
    inodes: &'a Inodes,
    inode: u32,
    change: Change,
}

impl<'a> Changes for PipeChanges<'a> {
    ghost use Rattle.qx_isolation.specs.Rows.{row_at};
    ghost use Rattle.qx_machine.specs.Settling.{is_living};
    ghost use Rattle.qx_resources.specs.Watching.{told_of};

    ghost before = { λ c number. told_of (row_at c.inodes.now.inodes.blocks number) c.inode c.change.before };

    ghost after = { λ c number. told_of (row_at c.inodes.now.inodes.blocks number) c.inode c.change.after };

    ghost lives = { λ c process. is_living c.processes.now process };

    fn of(&self, block: u16) -> Change {
        match self.inodes.block(block) {
            Some(row) if row.inode == self.inode => self.change,
            _ => Change {
                before: BOTH,
                after: BOTH,
            },
        }
    }

    fn lives(&self, process: u8) -> bool {
        self.processes.living(process).is_some()
    }
}
