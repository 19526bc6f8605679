//! A world that runs on with a recorder, beside a trace of the same steps.

use qx_machine::Entry;
use qx_running::{Recorded, Running};
use qx_types::{Bytes, Coid, Device, Manager, NoMemory, Proc, Request, Step, Thread, User, Worker};
use qx_world::World;
use std::alloc::Global;
use std::process::Abort;
use test_steps::script::{LinesFault, config, ran, steps};

/// A process opens its user's top twice.
const OPENED: &str = "\
    spawn ann 1 10\n\
    open ann.1.1 /ann r 000\n\
    receive 1 ram\n\
    perform 1 5\n\
    reply ann.1.1\n\
    open ann.1.1 /ann r 000\n\
    receive 1 ram\n\
    perform 1 6\n\
    reply ann.1.1\n";

/// In three lines an item of one priority.
const THREE_LINES: &str = "\
    spawn ann 4 10\n\
    mount ann.1.1 /ann/p pipe\n\
    mount ann.1.1 /ann/l latch\n\
    open ann.1.1 /ann r 000\n\
    open ann.1.2 /ann/p/f rwc 600\n\
    open ann.1.3 /ann/l r 000\n";

/// An item of a higher priority stands in the first line.
const HIGHER: &str = "\
    spawn bob 1 20\n\
    open bob.1.1 /bob r 000\n";

/// Takes the steps of lines.
fn run(alloc: Global, running: &mut Running, lines: &str) -> Result<(), LinesFault> {
    for step in steps(alloc, lines)? {
        if running.take(step).is_err() {
            return Err(LinesFault::NoMemory);
        }
    }
    Ok(())
}

/// A run from boot of the steps of lines, with room for so many in the recorder.
fn ran_on(alloc: Global, room: usize, lines: &str) -> Result<Running, LinesFault> {
    let world = World::new(alloc, config(alloc)?)?;
    let Ok(mut running) = Running::new(alloc, world, room) else {
        return Err(LinesFault::NoMemory);
    };
    run(alloc, &mut running, lines)?;
    Ok(running)
}

/// Whether these are the entries behind the first ones.
fn are_last(recorded: &[Recorded], entries: &[Entry], skipped: usize) -> bool {
    for (place, recorded) in recorded.iter().enumerate() {
        match entries.get(skipped.saturating_add(place)) {
            Some(entry) if recorded.entry == *entry => {}
            _ => return false,
        }
    }
    skipped.saturating_add(recorded.len()) == entries.len()
}

/// A recorder of so many keeps the last of the entries that a trace stores.
fn keeps_last(rt: &impl Abort, alloc: Global, room: usize) -> Result<(), LinesFault> {
    let traced = ran(alloc, OPENED)?;
    let running = ran_on(alloc, room, OPENED)?;
    let count = traced.entries().len();
    let skipped = count.saturating_sub(room);
    let piece = running.recent(0)?;
    assert!(rt; running.taken() == count as u64);
    assert!(rt; piece.first == skipped as u64 + 1);
    assert!(rt; are_last(&piece.steps, traced.entries(), skipped));
    Ok(())
}

#[test]
fn keeps_the_last_steps(rt: HostRuntime) -> Result<(), LinesFault> {
    keeps_last(&rt, rt.alloc(), 0)?;
    keeps_last(&rt, rt.alloc(), 1)?;
    keeps_last(&rt, rt.alloc(), 5)?;
    keeps_last(&rt, rt.alloc(), 100)
}

/// A write of 100 bytes over the first connection of the first process.
fn long_write(alloc: Global) -> Result<Step, NoMemory> {
    let mut bytes = Vec::new(alloc);
    for _ in 0..100 {
        bytes.push(7u8)?;
    }
    let proc = Proc {
        user: User(1),
        num: 1,
    };
    Ok(Step::Call {
        thread: Thread { proc, tid: 1 },
        request: Request::Write {
            coid: Coid(3),
            bytes: Bytes::from_vec(bytes),
        },
    })
}

#[test]
fn counts_what_was_cut(rt: HostRuntime) -> Result<(), LinesFault> {
    let alloc = rt.alloc();
    let mut running = ran_on(alloc, 5, "spawn ann 1 10\n")?;
    if running.take(long_write(alloc)?).is_err() {
        return Err(LinesFault::NoMemory);
    }
    let piece = running.recent(2)?;
    assert!(rt; piece.steps.len() == 1);
    assert!(rt; piece.steps[0].step_bytes == 100);
    assert!(rt; piece.steps[0].owner == Some(User(1)));
    match &piece.steps[0].entry.step {
        Step::Call {
            request: Request::Write { bytes, .. },
            ..
        } => assert!(rt; bytes.len() == 40),
        _ => panic!(rt; "another step"),
    }
    Ok(())
}

/// The manager of latches.
fn latches() -> Option<Manager> {
    Some(Manager::Device(Device::of_word(b"latch")?))
}

#[test]
fn serves_lines_in_turn(rt: HostRuntime) -> Result<(), LinesFault> {
    let alloc = rt.alloc();
    let mut running = ran_on(alloc, 0, THREE_LINES)?;
    assert!(rt; running.next_manager() == Some(Manager::Ram));
    run(
        alloc,
        &mut running,
        "receive 1 ram\nperform 1 5\nreply ann.1.1\nopen ann.1.1 /ann r 000\n",
    )?;
    assert!(rt; running.next_manager() == Some(Manager::Pipe));
    run(alloc, &mut running, "receive 1 pipe\nperform 1 6\n")?;
    assert!(rt; running.next_manager() == latches());
    run(alloc, &mut running, HIGHER)?;
    assert!(rt; running.next_manager() == Some(Manager::Ram));
    Ok(())
}

/// Connections at three managers, one for each thread; the third has a higher priority.
const THREE_CONNECTIONS: &str = "\
    spawn ann 3 10\n\
    prio ann.1.3 20\n\
    mount ann.1.1 /ann/p pipe\n\
    mount ann.1.1 /ann/l latch\n\
    open ann.1.1 /ann r 000\n\
    receive 1 ram\n\
    perform 1 5\n\
    reply ann.1.1\n\
    open ann.1.2 /ann/p/f rwc 600\n\
    receive 1 pipe\n\
    perform 1 5\n\
    reply ann.1.2\n\
    open ann.1.3 /ann/l/g rwc 600\n\
    receive 1 latch\n\
    perform 1 5\n\
    reply ann.1.3\n";

/// A thread of ann's first process asks for the attributes behind a connection.
fn asks(running: &mut Running, tid: u8, coid: u8) -> Result<(), LinesFault> {
    let thread = thread_of_ann(tid);
    let request = Request::Fstat { coid: Coid(coid) };
    take(running, Step::Call { thread, request })
}

/// The manager that is next is served by worker 1, and the thread takes its answer.
fn serves_next(running: &mut Running, tid: u8) -> Result<Option<Manager>, LinesFault> {
    let Some(manager) = running.next_manager() else {
        return Ok(None);
    };
    let (worker, moment) = (Worker(1), 6);
    take(running, Step::Receive { worker, manager })?;
    take(running, Step::Perform { worker, moment })?;
    take(
        running,
        Step::TakeReply {
            thread: thread_of_ann(tid),
        },
    )?;
    Ok(Some(manager))
}

fn thread_of_ann(tid: u8) -> Thread {
    let proc = Proc {
        user: User(1),
        num: 1,
    };
    Thread { proc, tid }
}

fn take(running: &mut Running, step: Step) -> Result<(), LinesFault> {
    match running.take(step) {
        Ok(_) => Ok(()),
        Err(_) => Err(LinesFault::NoMemory),
    }
}

/// Two lines of one priority are served in turn, though before each an item of a higher priority is, which comes behind both by
/// number: their turn does not move by it.
#[test]
fn equals_take_turns_behind_a_flood(rt: HostRuntime) -> Result<(), LinesFault> {
    let mut running = ran_on(rt.alloc(), 0, THREE_CONNECTIONS)?;
    asks(&mut running, 1, 3)?;
    asks(&mut running, 2, 4)?;
    for _ in 0..50_000u32 {
        for (tid, coid, manager) in [(1, 3, Manager::Ram), (2, 4, Manager::Pipe)] {
            asks(&mut running, 3, 5)?;
            assert!(rt; serves_next(&mut running, 3)? == latches());
            assert!(rt; serves_next(&mut running, tid)? == Some(manager));
            asks(&mut running, tid, coid)?;
        }
    }
    Ok(())
}
