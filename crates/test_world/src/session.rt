//! A live session: what two users are told, and one of them alone, and where memory is short.

use qx_isolation::Seen;
use qx_live::{LineFault, LiveLine, Session};
use qx_play::text::{push_actor, push_outcome};
use qx_types::NoMemory;
use std::alloc::Global;
use test_all_memory::{at_last, take_all_memory};
use test_steps::script::{LinesFault, config, steps};

/// A line of ann whose answer comes with a later one, one that gives a pulse, and bob's lines between.
const BOTH: &str = "\
    spawn ann 2 10\n\
    spawn bob 2 20\n\
    mount ann.1.1 /ann/p pipe\n\
    mount bob.1.1 /bob/p pipe\n\
    open ann.1.1 /ann/p/q rwc 600\n\
    open bob.1.1 /bob/p/q rwc 600\n\
    read ann.1.2 3 16\n\
    read bob.1.2 3 16\n\
    notify bob.1.1 3 pollarm i 1 7\n\
    write ann.1.1 3 6162\n\
    exit bob.1\n\
    notify ann.1.1 3 tranarm i 1 7\n\
    write ann.1.2 3 63\n\
    interrupt ann.1.1\n\
    pulse ann.1\n";

/// Ann's lines of these.
const ALONE: &str = "\
    spawn ann 2 10\n\
    mount ann.1.1 /ann/p pipe\n\
    open ann.1.1 /ann/p/q rwc 600\n\
    read ann.1.2 3 16\n\
    write ann.1.1 3 6162\n\
    notify ann.1.1 3 tranarm i 1 7\n\
    write ann.1.2 3 63\n\
    interrupt ann.1.1\n\
    pulse ann.1\n";

/// What ann is told.
const ANN: &str = "\
    ann spawned 1\n\
    ann.1.1 done\n\
    ann.1.1 sent\nann.1.1 reply 3 -\n\
    ann.1.2 sent\n\
    ann.1.1 sent\nann.1.1 reply 2 -\nann.1.2 reply 2 6162\n\
    ann.1.1 sent\nann.1.1 reply 0 -\n\
    ann.1.2 sent\nann.1.2 reply 1 -\nann.1 pulse 1 268435463\n\
    ann.1.1 done\n\
    ann.1 nopulse\n";

/// Lines, each at the moment 5.
fn live_lines(alloc: Global, lines: &str) -> Result<Vec<LiveLine>, LinesFault> {
    let mut live = Vec::new(alloc);
    for step in steps(alloc, lines)? {
        live.push(LiveLine { moment: 5, step })?;
    }
    Ok(live)
}

/// What was written for a user of this name.
fn text_for(alloc: Global, session: &Session, name: &str) -> Result<Vec<u8>, NoMemory> {
    let mut text = Vec::new(alloc);
    for seen in &session.written {
        let mut line = Vec::new(alloc);
        push_seen(&mut line, session, seen)?;
        if line.as_slice().starts_with(name.as_bytes()) {
            text.extend_from_slice(line.as_slice())?;
        }
    }
    Ok(text)
}

fn push_seen(text: &mut Vec<u8>, session: &Session, seen: &Seen) -> Result<(), NoMemory> {
    let config = session.world().config();
    push_actor(text, config, seen.actor)?;
    text.push(b' ')?;
    push_outcome(text, config, &seen.outcome)?;
    text.push(b'\n')?;
    Ok(())
}

/// A session of lines.
fn played(alloc: Global, lines: &str) -> Result<Session, LinesFault> {
    let mut session = Session::new(alloc, config(alloc)?)?;
    for line in &live_lines(alloc, lines)? {
        if session.line(line).is_err() {
            return Err(LinesFault::NoMemory);
        }
    }
    Ok(session)
}

#[test]
fn ann_is_told_the_same_alone(rt: HostRuntime) -> Result<(), LinesFault> {
    let alloc = rt.alloc();
    for lines in [BOTH, ALONE] {
        let session = played(alloc, lines)?;
        assert!(rt; text_for(alloc, &session, "ann")?.as_slice() == ANN.as_bytes());
    }
    Ok(())
}

/// A line at last: until it is done more and more memory is given. Whether it was late.
fn play_at_last(alloc: Global, session: &mut Session, line: &LiveLine) -> Option<bool> {
    let pieces = take_all_memory(alloc).ok()?;
    let mut is_late = false;
    let ((), _) = at_last(pieces, || {
        if is_late {
            return session.catch_up().ok();
        }
        match session.line(line) {
            Ok(()) => Some(()),
            Err(LineFault::Refused) => None,
            Err(LineFault::Late) => {
                is_late = true;
                None
            }
        }
    })?;
    Some(is_late)
}

#[test]
fn what_memory_was_short_for_is_made_up(rt: HostRuntime) -> Result<(), LinesFault> {
    let alloc = rt.alloc();
    let mut session = Session::new(alloc, config(alloc)?)?;
    let mut was_late = false;
    for line in &live_lines(alloc, BOTH)? {
        let is_late = play_at_last(alloc, &mut session, line);
        assert!(rt; is_late.is_some());
        was_late = was_late || is_late == Some(true);
    }
    assert!(rt; was_late);
    let untroubled = played(alloc, BOTH)?;
    assert!(rt; session.written.as_slice() == untroubled.written.as_slice());
    Ok(())
}

#[test]
fn with_room_only_what_a_step_wants_is_short(rt: HostRuntime) -> Result<(), LinesFault> {
    let alloc = rt.alloc();
    let mut session = played(alloc, "spawn ann 2 10\n")?;
    let lines = live_lines(alloc, "prio ann.1.1 9\nspawn ann 1 9\nexit ann.1\n")?;
    session.reserve(2)?;
    let _pieces = take_all_memory(alloc)?;
    for (line, end) in lines.iter().zip([Ok(()), Err(LineFault::Refused), Ok(())]) {
        assert!(rt; session.line(line) == end);
    }
    Ok(())
}
