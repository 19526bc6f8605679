//! A live session: a world, what was written of it, and what is due of a line that came to want memory.

ghost use Rattle.std.specs.Prelude.{◌≡◌, ◌⊎◌, ◌+◌, ◌<◌, ◌≤◌, if◌then◌else◌, [], Some, None, IfNone, IfOk, IfSome, IsErrOf, IsFalse, IsOk, IsTrue, OnErr, OnOk, OnSome, true};
ghost use Rattle.qx_types.specs.declared.limits.TheConstants.Limits.{PROCESSES, THREADS};
ghost use Rattle.qx_types.specs.declared.step.Step.TheVariants.{Perform, Receive, TakePulse};
ghost use Rattle.qx_machine.specs.Wants.{wants_memory};
ghost use Rattle.qx_live.specs.Chosen.{first_worker};
ghost use Rattle.qx_live.specs.Live as live;
ghost use Rattle.qx_live.specs.Live.{after_line, after_step, after_steps, begun, has_pulse, pulse_steps, reply_steps};
ghost use Rattle.qx_live.specs.Sessions.{caught_up, due_of, processes_behind, room_of, served, session_of, threads_from, told_from, IsShort};
ghost use Rattle.qx_live.specs.declared.session.LineFault.{LineFault};

use crate::line::LiveLine;
use crate::waiting::waiting;
use qx_isolation::Seen;
use qx_types::{Actor, Config, Limits, Manager, NoMemory, Outcome, Proc, Thread, User, Worker};
use qx_world::World;
use std::alloc::Global;
use thiserror::Error;

/// The worker that serves.
const FIRST: Worker = Worker(1);

/// What is left to do of a line whose own step was taken.
#[derive(Clone, Copy, Debug, PartialEq, Eq)]
pub enum Due {
    /// At most so many rounds of serving, and then all that the user is told.
    Serving { user: User, moment: u64, left: u128 },
    /// What worker 1 holds, then at most so many rounds, and then all that the user is told.
    Performing { user: User, moment: u64, left: u128 },
    /// What the user is told from this thread of this process on.
    Telling { user: User, process: u8, thread: u8 },
}

/// Why a line was not played to its end. Memory was short.
#[derive(Clone, Copy, Debug, PartialEq, Eq, Error)]
pub enum LineFault {
    /// The line's step was not taken.
    #[error("out of memory: the line was not taken")]
    Refused,
    /// The line's step was taken. What of the line is not done yet is made up before the next line is taken.
    #[error("out of memory: the line is not done yet")]
    Late,
}

/// A world, and what was written so far.
#[derive(Drop)]
pub struct Session {
    world: World,
    pub written: Vec<Seen>,
    due: Option<Due>,
}

impl Session {
    /// A session over the world at boot.
    pub fn new(alloc: Global, config: Config) -> Result<Self, NoMemory>
        ensures begun { IfOk result (λ session. session_of session ≡ begun config) }
        ensures none_due { IfOk result (λ session. due_of session ≡ None) }
    {
        Ok(Session {
            world: World::new(alloc, config)?,
            written: Vec::new(alloc),
            due: None,
        })
    }

    /// The world, to be read.
    pub fn world(&self) -> &World
        ensures { result.now ≡ (session_of self.now).world }
    {
        &self.world
    }

    /// Makes room for the next outcomes that are written: no step is refused or late for them. What a step wants itself is not
    /// reserved: a spawn, a call and a mount want memory where they are not refused, and so does the performing of a message
    /// that makes something new.
    pub fn reserve(&mut self, count: usize) -> Result<(), NoMemory>
        ensures same { session_of self.new ≡ session_of self.old }
        ensures due { due_of self.new ≡ due_of self.old }
        ensures room { OnOk result (count ≤ room_of self.new) }
        ensures kept { room_of self.old ≤ room_of self.new }
        ensures enough { count ≤ room_of self.old → IsOk result }
    {
        self.written.try_reserve(count)?;
        Ok(())
    }

    /// A line: what is left of the line before is made up, the line's step is taken, what waits is served, and the user is
    /// told what came of it. Where memory is short, either the line was not taken, or what is left of it is made up later;
    /// with that, what is written is what would have been written.
    pub fn line(&mut self, line: &LiveLine) -> Result<(), LineFault>
        ensures done { OnOk result (session_of self.new ≡ after_line (caught_up self.old) line.now) }
        ensures none_due { OnOk result (due_of self.new ≡ None) }
        ensures late { IsErrOf result LineFault.Late → caught_up self.new ≡ after_line (caught_up self.old) line.now }
        ensures late_as_short { IsErrOf result LineFault.Late → IsShort self.new }
        ensures refused { IsErrOf result LineFault.Refused → caught_up self.new ≡ caught_up self.old }
        ensures refused_as_short { IsErrOf result LineFault.Refused → IsShort self.new ⊎ (wants_memory (session_of self.new).world line.now.step ≡ true) }
    {
        if self.catch_up().is_err() {
            return Err(LineFault::Refused);
        }
        if self.begin(line).is_err() {
            return Err(LineFault::Refused);
        }
        if self.catch_up().is_err() {
            return Err(LineFault::Late);
        }
        Ok(())
    }

    /// Makes up what is left of the last line. Where memory is still short, some of it may be done.
    pub fn catch_up(&mut self) -> Result<(), NoMemory>
        ensures same { caught_up self.new ≡ caught_up self.old }
        ensures none_due { OnOk result (due_of self.new ≡ None) }
        ensures short { OnErr result (IsShort self.new) }
    {
        let Some(due) = self.due else {
            return Ok(());
        };
        match due {
            Due::Serving { user, moment, left } => self.serve(user, moment, left),
            Due::Performing { user, moment, left } => {
                self.perform(moment)?;
                self.serve(user, moment, left)
            }
            Due::Telling {
                user,
                process,
                thread,
            } => self.tell(user, process, thread),
        }
    }

    /// Takes the step of a line, and owes what it leads to.
    #[tactic(auto, unfolding(crate::specs::Live::line_steps))]
    fn begin(&mut self, line: &LiveLine) -> Result<(), NoMemory>
        requires { due_of self.old ≡ None }
        ensures taken { OnOk result (caught_up self.new ≡ after_line (session_of self.old) line.now) }
        ensures err { OnErr result (caught_up self.new ≡ session_of self.old) }
        ensures short { OnErr result (IsShort self.new ⊎ (wants_memory (session_of self.new).world line.now.step ≡ true)) }
    {
        let Some(actor) = line.step.actor() else {
            return Ok(());
        };
        self.written.try_reserve(1)?;
        let outcome = self.world.step(&line.step)?;
        self.written.push_reserved(Seen { actor, outcome });
        self.due = Some(Due::Serving {
            user: actor.user(),
            moment: line.moment,
            left: 2 * waiting(&self.world),
        });
        Ok(())
    }

    /// The first worker serves what waits, so many rounds at most, and the user is told what came of it.
    fn serve(&mut self, user: User, moment: u64, left: u128) -> Result<(), NoMemory>
        ensures same { caught_up self.new ≡ served user.0 moment left (session_of self.old) }
        ensures none_due { OnOk result (due_of self.new ≡ None) }
        ensures short { OnErr result (IsShort self.new) }
    {
        let mut rounds = left;
        'rounds: while rounds > 0 {
            let Some(manager) = self.world.next_manager() else {
                return self.tell(user, 1, 1);
            };
            self.receive(manager);
            rounds -= 1;
            let Ok(()) = self.perform(moment) else {
                let left = rounds;
                self.due = Some(Due::Performing { user, moment, left });
                return Err(NoMemory);
            };
        }
        self.tell(user, 1, 1)
    }

    /// The first worker takes the first item of a line.
    fn receive(&mut self, manager: Manager)
        ensures taken { session_of self.new ≡ after_step (session_of self.old) (Receive first_worker manager) }
    {
        let _outcome = self.world.receive(FIRST, manager);
    }

    /// The first worker does what it holds.
    fn perform(&mut self, moment: u64) -> Result<(), NoMemory>
        ensures done { OnOk result (session_of self.new ≡ after_step (session_of self.old) (Perform first_worker moment)) }
        ensures err { OnErr result (session_of self.new ≡ session_of self.old) }
        ensures due { due_of self.new ≡ due_of self.old }
        ensures wants { OnErr result (wants_memory (session_of self.new).world (Perform first_worker moment) ≡ true) }
    {
        let _outcome = self.world.perform_held(FIRST, moment)?;
        Ok(())
    }

    /// A user is told what there is from a thread of a process on.
    fn tell(&mut self, user: User, process: u8, thread: u8) -> Result<(), NoMemory>
        ensures same { caught_up self.new ≡ after_steps (session_of self.old) (told_from user.0 process thread (session_of self.old).world) }
        ensures none_due { OnOk result (due_of self.new ≡ None) }
        ensures full { OnErr result (room_of self.new ≡ 0) }
    {
        self.tell_process(user, process, thread)?;
        let mut last = process;
        'processes: while let Some(next) = self.process_behind(user, last) {
            self.tell_process(user, next, 1)?;
            last = next;
        }
        self.due = None;
        Ok(())
    }

    /// The threads of a process take their answers, from one on, and then the process its pulses. Where there is no room, what
    /// the user is not told yet is due.
    fn tell_process(&mut self, user: User, process: u8, thread: u8) -> Result<(), NoMemory>
        ensures told { OnOk result (after_steps (session_of self.new) (processes_behind user.0 process (session_of self.new).world) ≡ after_steps (session_of self.old) (told_from user.0 process thread (session_of self.old).world)) }
        ensures late { OnErr result (caught_up self.new ≡ after_steps (session_of self.old) (told_from user.0 process thread (session_of self.old).world)) }
        ensures full { OnErr result (room_of self.new ≡ 0) }
    {
        let proc = Proc { user, num: process };
        let mut tid = thread;
        'threads: while self.has_thread_from(proc, tid) {
            let Ok(()) = self.tell_thread(Thread { proc, tid }) else {
                self.due = Some(Due::Telling {
                    user,
                    process,
                    thread: tid,
                });
                return Err(NoMemory);
            };
            tid += 1;
        }
        let Ok(()) = self.tell_pulses(proc) else {
            self.due = Some(Due::Telling {
                user,
                process,
                thread: Limits::THREADS + 1,
            });
            return Err(NoMemory);
        };
        Ok(())
    }

    /// Whether a process may have a thread from a number on.
    fn has_thread_from(&self, proc: Proc, thread: u8) -> bool
        ensures few { IsTrue result → thread ≤ THREADS }
        ensures none { IsFalse result → threads_from proc.user.0 proc.num thread (session_of self.now).world ≡ [] }
    {
        if thread > Limits::THREADS {
            return false;
        }
        thread < self.world.thread_places(proc)
    }

    /// The number behind a process', if the user may have a process there or behind it.
    fn process_behind(&self, user: User, process: u8) -> Option<u8>
        ensures next { IfSome result (λ next. next ≡ process + 1) }
        ensures few { OnSome result (process < PROCESSES) }
        ensures none { IfNone result (processes_behind user.0 process (session_of self.now).world ≡ []) }
    {
        if process as usize >= Limits::PROCESSES {
            return None;
        }
        if process + 1 >= self.world.process_places(user) {
            return None;
        }
        Some(process + 1)
    }

    /// A thread takes its answer, if it has one.
    #[tactic(auto, unfolding(crate::specs::Live::reply_steps))]
    fn tell_thread(&mut self, thread: Thread) -> Result<(), NoMemory>
        ensures told { OnOk result (session_of self.new ≡ after_steps (session_of self.old) (reply_steps thread.proc.user.0 thread.proc.num thread.tid (session_of self.old).world)) }
        ensures err { OnErr result (session_of self.new ≡ session_of self.old) }
        ensures due { due_of self.new ≡ due_of self.old }
        ensures full { OnErr result (room_of self.new ≡ 0) }
    {
        if !self.world.answered(thread) {
            return Ok(());
        }
        self.written.try_reserve(1)?;
        let outcome = self.world.take_reply(thread);
        let actor = Actor::OfThread(thread);
        self.written.push_reserved(Seen { actor, outcome });
        Ok(())
    }

    /// A process takes its pulses.
    #[tactic(auto, unfolding(crate::specs::Live::pulse_steps))]
    fn tell_pulses(&mut self, proc: Proc) -> Result<(), NoMemory>
        ensures told { OnOk result (session_of self.new ≡ after_steps (session_of self.old) (pulse_steps proc.user.0 proc.num (session_of self.old).world)) }
        ensures err { OnErr result (after_steps (session_of self.new) (pulse_steps proc.user.0 proc.num (session_of self.new).world) ≡ after_steps (session_of self.old) (pulse_steps proc.user.0 proc.num (session_of self.old).world)) }
        ensures due { due_of self.new ≡ due_of self.old }
        ensures full { OnErr result (room_of self.new ≡ 0) }
    {
        'pulses: while self.tell_pulse(proc)? {}
        Ok(())
    }

    /// A process takes its first pulse, if it has one.
    fn tell_pulse(&mut self, proc: Proc) -> Result<bool, NoMemory>
        ensures some { IfOk result (λ some. some ≡ has_pulse (session_of self.old).world proc) }
        ensures taken { IfOk result (λ some. session_of self.new ≡ (if some then after_step (session_of self.old) (TakePulse proc) else session_of self.old)) }
        ensures err { OnErr result (session_of self.new ≡ session_of self.old) }
        ensures due { due_of self.new ≡ due_of self.old }
        ensures full { OnErr result (room_of self.new ≡ 0) }
    {
        self.world.know_reached();
        if self.world.lacks_pulse(proc) {
            return Ok(false);
        }
        self.written.try_reserve(1)?;
        let outcome = self.world.take_pulse(proc);
        if !is_pulse(&outcome) {
            return Ok(false);
        }
        let actor = Actor::OfProc(proc);
        self.written.push_reserved(Seen { actor, outcome });
        Ok(true)
    }
}

/// Whether a process was given a pulse.
fn is_pulse(outcome: &Outcome) -> bool
    ensures { result ≡ live.is_pulse outcome.now }
{
    matches!(outcome, Outcome::Pulse(..))
}
