//! Steps that are taken for a user at a session.

ghost use Rattle.std.specs.Prelude.{◌≡◌, [], OnOk};
ghost use Rattle.qx_machine.specs.Machine.{World};
ghost use Rattle.qx_live.specs.Sessions.{caught_up};
ghost use Rattle.qx_desk.specs.Desks.{by_of, world_of, written_of, Comes, Leads};
ghost use Rattle.qx_desk.specs.Programs.{take};

use qx_isolation::Seen;
use qx_live::{LiveLine, Session};
use qx_types::{NoMemory, Step, User};

/// Who takes steps, and when.
#[derive(Clone, Copy, Debug, PartialEq, Eq)]
pub struct By {
    pub user: User,
    pub moment: u64,
}

/// Takes steps at a session, all for one user and at one moment. Whoever is lent this can take no step of another user, and sees
/// of the session only what is written at these steps.
#[derive(Drop)]
pub struct Taking {
    session: Session,
    by: By,
}

impl Taking {
    /// For nobody yet.
    pub(crate) fn new(session: Session) -> Taking
        ensures { result.session ≡ session }
    {
        let by = By {
            user: User(0),
            moment: 0,
        };
        Taking { session, by }
    }

    /// For whom, and when.
    pub fn by(&self) -> By
        ensures { result ≡ by_of self.now }
    {
        self.by
    }

    /// What was written at the last step.
    pub fn written(&self) -> &[Seen]
        ensures { result.now ≡ written_of self.now }
    {
        &self.session.written
    }

    /// Begins an input of somebody.
    pub(crate) fn begin(&mut self, by: By) -> Result<(), NoMemory>
        ensures same { world_of self.new ≡ world_of self.old }
        ensures by { OnOk result (by_of self.new ≡ by) }
    {
        self.clear()?;
        self.by = by;
        Ok(())
    }

    /// What is due of the last line is made up, and nothing stands written then.
    fn clear(&mut self) -> Result<(), NoMemory>
        ensures same { world_of self.new ≡ world_of self.old }
        ensures cleared { OnOk result (caught_up self.new.session ≡ record { world = world_of self.old; written = [] }) }
        ensures none_written { OnOk result (written_of self.new ≡ []) }
        ensures by { by_of self.new ≡ by_of self.old }
    {
        self.session.catch_up()?;
        self.session.written.clear();
        Ok(())
    }

    /// Takes a step if it is one of the user's, and nothing is written then if not. Where memory is short the step may have been
    /// taken, and what is written at it is lost.
    pub fn take(&mut self, step: Step) -> Result<(), NoMemory>
        ensures taken { OnOk result (Comes (by_of self.old) (world_of self.old) (take step) (world_of self.new) (written_of self.new)) }
        ensures leads { (start : World) → Leads (by_of self.old) start (world_of self.old) → Leads (by_of self.old) start (world_of self.new) }
        ensures by { by_of self.new ≡ by_of self.old }
    {
        self.clear()?;
        let moment = self.by.moment;
        let line = LiveLine { moment, step };
        let Some(actor) = line.step.actor() else {
            return Ok(());
        };
        if actor.user() != self.by.user {
            return Ok(());
        }
        match self.session.line(&line) {
            Ok(()) => Ok(()),
            Err(_fault) => Err(NoMemory),
        }
    }
}
