//! The trace of a session, from its lines: all of them are taken anew.

ghost use Rattle.std.specs.Prelude.{◌≡◌, ◌++◌, None, IfOk, OnOk, drop};
ghost use Rattle.qx_machine.specs.Machine.{boot};
ghost use Rattle.qx_live.specs.Live.{line_steps, live_steps};
ghost use Rattle.qx_live.specs.Sessions.{due_of, session_of};
ghost use Rattle.qx_play.specs.Play.{session_trace, world_played};
ghost use Rattle.qx_play.specs.inner.Taken.{taken_steps, taking};

use crate::play::{serve_waiting, store};
use crate::text::push_trace;
use qx_isolation::Seen;
use qx_live::{LiveLine, Session};
use qx_types::{Actor, Config, NoMemory, Step};
use qx_world::Traced;
use std::alloc::Global;

/// What `trace` prints behind the lines of a session.
pub fn push_session(
    alloc: Global,
    text: &mut Vec<u8>,
    config: Config,
    lines: &[LiveLine],
) -> Result<(), NoMemory>
    ensures ok { OnOk result (text.new.items ≡ text.old.items ++ session_trace config lines.now) }
{
    let traced = play_session(alloc, config, lines)?;
    push_trace(text, traced.config(), traced.entries())
}

/// Takes all steps that the lines of a session lead to.
fn play_session(alloc: Global, config: Config, lines: &[LiveLine]) -> Result<Traced, NoMemory>
    ensures config { IfOk result (λ traced. traced.config ≡ config) }
    ensures steps { IfOk result (λ traced. traced.steps ≡ live_steps (boot config) lines.now) }
{
    let mut session = Session::new(alloc, config.clone()?)?;
    let mut traced = Traced::new(alloc, config)?;
    'lines: for line in lines {
        take_line(&mut traced, &mut session, line)?;
    }
    Ok(traced)
}

/// Takes the steps of a line. A session at the same world takes the line too: what it writes tells who takes what at the end.
fn take_line(traced: &mut Traced, session: &mut Session, line: &LiveLine) -> Result<(), NoMemory>
    requires none_due { due_of session.old ≡ None }
    requires same { (session_of session.old).world ≡ world_played traced.old.config traced.old.steps }
    ensures config { traced.new.config ≡ traced.old.config }
    ensures steps { OnOk result (traced.new.steps ≡ traced.old.steps ++ line_steps (world_played traced.old.config traced.old.steps) line.now) }
    ensures none_due { OnOk result (due_of session.new ≡ None) }
    ensures same { OnOk result ((session_of session.new).world ≡ world_played traced.new.config traced.new.steps) }
{
    let Some(_actor) = line.step.actor() else {
        return Ok(());
    };
    session.written.clear();
    match session.line(line) {
        Ok(()) => {}
        Err(_) => return Err(NoMemory),
    }
    store(traced, line.step.clone()?)?;
    serve_waiting(traced, line.moment)?;
    take_behind_first(traced, &session.written)?;
    Ok(())
}

/// Who is told something behind the first takes it.
fn take_behind_first(traced: &mut Traced, written: &[Seen]) -> Result<(), NoMemory>
    ensures config { traced.new.config ≡ traced.old.config }
    ensures steps { OnOk result (traced.new.steps ≡ traced.old.steps ++ taken_steps (drop 1 written.now)) }
{
    match written {
        [_, told @ ..] => take_told(traced, told),
        [] => Ok(()),
    }
}

/// Each takes what it is told.
fn take_told(traced: &mut Traced, told: &[Seen]) -> Result<(), NoMemory>
    ensures config { traced.new.config ≡ traced.old.config }
    ensures steps { OnOk result (traced.new.steps ≡ traced.old.steps ++ taken_steps told.now) }
{
    'told: for seen in told {
        take(traced, seen.actor)?;
    }
    Ok(())
}

/// A thread takes its answer, or a process a pulse.
fn take(traced: &mut Traced, actor: Actor) -> Result<(), NoMemory>
    ensures config { traced.new.config ≡ traced.old.config }
    ensures steps { OnOk result (traced.new.steps ≡ traced.old.steps ++ taking actor) }
{
    match actor {
        Actor::OfUser(_) => Ok(()),
        Actor::OfProc(proc) => store(traced, Step::TakePulse { proc }),
        Actor::OfThread(thread) => store(traced, Step::TakeReply { thread }),
    }
}
