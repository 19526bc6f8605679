//! A script's rounds, so many times, as the lines of a session.

use crate::script::answers;
use qx_live::{LineFault, LiveLine, Session};
use qx_script::{Command, Script, parse};
use qx_types::{NoMemory, Step};
use std::alloc::Global;

/// Plays the calls and steps of a script's rounds as a session's lines, and tells how many replies and new processes came of
/// them, or nothing where a line is bad. What stands before the first `show` is played once. After each line what was written
/// is let go, as who serves clients does.
pub fn play_session(alloc: Global, text: &[u8], rounds: u32) -> Result<Option<u64>, NoMemory> {
    let Script::Good(config, commands) = parse(alloc, text)? else {
        return Ok(None);
    };
    let mut lines = Vec::new(alloc);
    for command in commands {
        lines.push(line_of(command))?;
    }
    let place = lines.iter().position(is_no_line).unwrap_or(0);
    let (before, round) = lines.split_at(place);
    let mut session = Session::new(alloc, config)?;
    play(&mut session, before)?;
    let mut answers: u64 = 0;
    for _ in 0..rounds {
        answers = answers.saturating_add(play(&mut session, round)?);
    }
    Ok(Some(answers))
}

/// The line that a command is, if it is one.
fn line_of(command: Command) -> Option<LiveLine> {
    match command {
        Command::Take(step) => Some(LiveLine { moment: 5, step }),
        Command::Do(moment, thread, request) => Some(LiveLine {
            moment,
            step: Step::Call { thread, request },
        }),
        _ => None,
    }
}

fn is_no_line(line: &Option<LiveLine>) -> bool {
    line.is_none()
}

/// Plays lines one after the other. Tells how many replies and new processes came of them.
fn play(session: &mut Session, lines: &[Option<LiveLine>]) -> Result<u64, NoMemory> {
    let mut count: u64 = 0;
    for line in lines.iter().flatten() {
        session.line(line).map_err(|_fault: LineFault| NoMemory)?;
        for seen in &session.written {
            count = count.saturating_add(answers(&seen.outcome));
        }
        session.written.clear();
    }
    Ok(count)
}
