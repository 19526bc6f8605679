//! What the front keeps of one user, and what it does for a request.

ghost use Rattle.std.specs.Prelude.{◌≡◌, IfOk, OnErr};
ghost use Rattle.qx_machine.specs.Machine.{World};
ghost use Rattle.qx_desk.specs.Desks.{by_of, world_of, Comes, Leads};
ghost use Rattle.test_desk.specs.Asking.{asking, at_once, came, join, one_step, thread_of};

use crate::asked::{Asked, Told, Waiting, What};
use crate::replies::{spawned, tell_late};
use qx_desk::{Front, Taking};
use qx_isolation::Seen;
use qx_types::{Bytes, Config, Manager, NoMemory, Outcome, Prio, Proc, Step, Thread, User};
use std::alloc::Global;
use std::marker::Model;

/// The requests of a user that have no answer yet.
#[derive(Drop)]
pub struct Own {
    waiting: Vec<Waiting>,
}

impl Model for Own {
    ghost use Rattle.test_desk.specs.Asking.{State};

    ghost Value = { State };

    ghost view = { λ own. own.waiting.items };
}

/// The thread of a process.
fn thread_of(user: User, process: u8) -> Thread
    ensures { result ≡ thread_of user.0 process }
{
    let proc = Proc { user, num: process };
    Thread { proc, tid: 1 }
}

impl Own {
    /// A message that was sent has no answer yet; any other outcome is one.
    fn at_once(
        &mut self,
        alloc: Global,
        one: Waiting,
        outcome: &Outcome,
    ) -> Result<Vec<Told>, NoMemory>
        ensures { IfOk result (λ told. at_once self.old one outcome.now ≡ record { state = self.new; outputs = told.items }) }
    {
        let mut told = Vec::new(alloc);
        if matches!(outcome, Outcome::Sent) {
            self.waiting.push(one)?;
            return Ok(told);
        }
        let Waiting { number, process } = one;
        let outcome = outcome.clone()?;
        told.push(Told {
            number,
            process,
            outcome,
        })?;
        Ok(told)
    }

    /// The answers that come of a step, by what was written at it.
    fn came(&mut self, alloc: Global, one: Waiting, seen: &[Seen]) -> Result<Vec<Told>, NoMemory>
        ensures { IfOk result (λ told. came self.old one seen.now ≡ record { state = self.new; outputs = told.items }) }
    {
        let Some((first, rest)) = seen.split_first() else {
            return Ok(Vec::new(alloc));
        };
        let mut told = self.at_once(alloc, one, &first.outcome)?;
        self.waiting = tell_late(alloc, &mut told, self.waiting.as_slice(), rest)?;
        Ok(told)
    }

    /// A request of one step.
    #[tactic(auto, unfolding(crate::specs::Asking::one_step))]
    fn one_step(
        &mut self,
        alloc: Global,
        taking: &mut Taking,
        one: Waiting,
        step: Step,
    ) -> Result<Vec<Told>, NoMemory>
        ensures answers { IfOk result (λ told. Comes (by_of taking.old) (world_of taking.old) (one_step self.old one step) (world_of taking.new) (record { state = self.new; outputs = told.items })) }
        ensures leads { (start : World) → Leads (by_of taking.old) start (world_of taking.old) → Leads (by_of taking.old) start (world_of taking.new) }
    {
        taking.take(step)?;
        self.came(alloc, one, taking.written())
    }

    /// A process is started, and attaches the pipe manager.
    #[tactic(auto, unfolding(crate::specs::Asking::join))]
    fn join(
        &mut self,
        alloc: Global,
        taking: &mut Taking,
        number: u64,
        path: &Bytes,
    ) -> Result<Vec<Told>, NoMemory>
        ensures answers { IfOk result (λ told. Comes (by_of taking.old) (world_of taking.old) (join (by_of taking.old).user.0 self.old number path.now) (world_of taking.new) (record { state = self.new; outputs = told.items })) }
        ensures leads { (start : World) → Leads (by_of taking.old) start (world_of taking.old) → Leads (by_of taking.old) start (world_of taking.new) }
    {
        let user = taking.by().user;
        taking.take(Step::Spawn {
            user,
            threads: 1,
            prio: Prio(10),
        })?;
        let Some(process) = spawned(taking.written()) else {
            return self.came(alloc, Waiting { number, process: 0 }, taking.written());
        };
        let step = Step::Mount {
            thread: thread_of(user, process),
            path: path.clone()?,
            manager: Manager::Pipe,
        };
        self.one_step(alloc, taking, Waiting { number, process }, step)
    }
}

impl Front for Own {
    type Input = Asked;

    type Output = Told;

    ghost front = { asking };

    fn begin(alloc: Global, _config: &Config, _user: User) -> Result<Self, NoMemory> {
        Ok(Own {
            waiting: Vec::new(alloc),
        })
    }

    fn on(
        &mut self,
        alloc: Global,
        taking: &mut Taking,
        input: &Asked,
    ) -> Result<Vec<Told>, NoMemory> {
        let number = input.number;
        match &input.what {
            What::Join { path } => self.join(alloc, taking, number, path),
            What::Act { process, act } => {
                let process = *process;
                let step = act.step(thread_of(taking.by().user, process))?;
                self.one_step(alloc, taking, Waiting { number, process }, step)
            }
        }
    }
}
