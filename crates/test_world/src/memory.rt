//! Refused memory: as long as a step is refused it comes back and nothing has changed; then that very step is taken.

use crate::reads::{RECEIVE, held};
use crate::rows::ROWS;
use qx_machine::Entry;
use qx_types::{NoMemory, Outcome, Step, User};
use qx_world::{Traced, Work};
use std::alloc::{AllocError, Global};
use std::process::Abort;
use test_all_memory::{at_last, take_all_memory};
use test_steps::same::{is_same, is_same_so_far};
use test_steps::script::{LinesFault, booted, ran, steps, store, store_all};

/// How the steps of a run are refused memory.
#[derive(Clone, Copy, PartialEq, Eq)]
enum Way {
    /// All of it is taken.
    All,
    /// The same, and a perform is handed the work, which was read before.
    AllOfWork,
    /// By `rt try --test --fail-alloc N`, once in a run.
    Once,
}

/// Takes a step, or hands it back.
fn attempt(traced: &mut Traced, step: Step, work: Option<&Work>) -> Result<(), Step> {
    match (&step, work) {
        (&Step::Perform { worker, moment }, Some(work)) => {
            match traced.perform(worker, work, moment) {
                Ok(_) => Ok(()),
                Err(_) => Err(step),
            }
        }
        _ => match traced.step(step) {
            Ok(_) => Ok(()),
            Err(unstored) => Err(unstored.step),
        },
    }
}

/// Takes a step at last. Whether it was refused at first; none where it was not taken, or something was not as in a run
/// without it while it was refused.
fn take_at_last(
    pieces: Vec<Vec<u8>>,
    traced: &mut Traced,
    before: &Traced,
    step: Step,
    work: Option<&Work>,
) -> Option<bool> {
    let mut next = Some(step);
    let mut is_same = true;
    let ((), is_refused) = at_last(pieces, || match attempt(traced, next.take()?, work) {
        Ok(()) => Some(()),
        Err(step) => {
            next = Some(step);
            is_same = is_same && is_same_so_far(traced, before);
            None
        }
    })?;
    is_same.then_some(is_refused)
}

/// What a perform is handed.
fn handed(way: Way, traced: &Traced, step: &Step) -> Result<Option<Work>, NoMemory> {
    match step {
        Step::Perform { worker, .. } if way == Way::AllOfWork => held(traced.world(), *worker),
        _ => Ok(None),
    }
}

/// Of a piece of memory that is kept over many steps.
const LARGE: usize = 1 << 26;

/// Takes all memory but small pieces, so that to take all that is left is quick.
fn take_most_memory(alloc: Global) -> Result<Vec<Vec<u8>>, AllocError> {
    let mut pieces = take_all_memory(alloc)?;
    for _ in 0..pieces.len() {
        if !pieces.last().is_some_and(|piece| piece.capacity() < LARGE) {
            break;
        }
        pieces.pop();
    }
    Ok(pieces)
}

/// The memory that is taken as a step is tried.
fn taken(alloc: Global, way: Way) -> Result<Vec<Vec<u8>>, AllocError> {
    match way {
        Way::All | Way::AllOfWork => take_all_memory(alloc),
        Way::Once => Ok(Vec::new(alloc)),
    }
}

/// Whether a step came to an error, or to nothing at all.
fn is_failure(entry: &Entry) -> bool {
    matches!(
        entry.outcome,
        Outcome::Refused(_)
            | Outcome::Failed(_)
            | Outcome::WrongState
            | Outcome::NoPulse
            | Outcome::Idle
            | Outcome::Busy
            | Outcome::Nothing
    )
}

/// Takes the step of a line, for which there is room in the trace. It is refused at first and it fails where the line says so,
/// and after a refusal all is as in a run without trouble.
fn take_line(
    rt: &impl Abort,
    alloc: Global,
    way: Way,
    traced: &mut Traced,
    untroubled: &mut Traced,
    line: &str,
    step: &Step,
) -> Result<(), NoMemory> {
    let (copy, work) = (step.clone()?, handed(way, traced, step)?);
    traced.reserve(1)?;
    let pieces = taken(alloc, way)?;
    let is_refused = take_at_last(pieces, traced, untroubled, copy, work.as_ref());
    let wants = line.starts_with("! ");
    let is_as_marked = is_refused == Some(wants) || way == Way::Once && is_refused == Some(false);
    assert!(rt; is_as_marked, "at {line}");
    store(untroubled, step)?;
    assert!(rt; is_refused == Some(false) || is_same(traced, untroubled)?);
    let is_failed = traced.entries().last().map(is_failure);
    assert!(rt; is_failed == Some(line.starts_with("? ")), "at {line}");
    Ok(())
}

/// Takes the steps of lines, each at last. Then all is as in a run without trouble.
fn take_lines(
    rt: &impl Abort,
    alloc: Global,
    way: Way,
    before: &str,
    lines: &str,
) -> Result<(), LinesFault> {
    let steps = steps(alloc, lines)?;
    let mut traced = ran(alloc, before)?;
    let mut untroubled = ran(alloc, before)?;
    for (line, step) in lines.lines().zip(steps.iter()) {
        take_line(rt, alloc, way, &mut traced, &mut untroubled, line, step)?;
    }
    assert!(rt; is_same(&traced, &untroubled)?);
    Ok(())
}

fn take_rows(rt: &impl Abort, alloc: Global, way: Way) -> Result<(), LinesFault> {
    for (before, all) in ROWS {
        for lines in all {
            take_lines(rt, alloc, way, before, lines)?;
        }
    }
    Ok(())
}

/// Takes the steps of all rows where there is little memory.
fn take_rows_without_memory(rt: &impl Abort, alloc: Global, way: Way) -> Result<(), LinesFault> {
    let pieces = take_most_memory(alloc)?;
    take_rows(rt, alloc, way)?;
    drop(pieces);
    Ok(())
}

#[test]
fn steps_are_taken_at_last(rt: HostRuntime) -> Result<(), LinesFault> {
    take_rows_without_memory(&rt, rt.alloc(), Way::All)
}

#[test]
fn work_is_performed_at_last(rt: HostRuntime) -> Result<(), LinesFault> {
    take_rows_without_memory(&rt, rt.alloc(), Way::AllOfWork)
}

#[test]
fn each_request_of_a_step_is_refused(rt: HostRuntime) -> Result<(), LinesFault> {
    take_rows(&rt, rt.alloc(), Way::Once)
}

/// What a user received and the run of the user's own steps are refused at first, and then as they should be.
fn is_read_at_last(alloc: Global, traced: &Traced, user: User) -> Result<bool, NoMemory> {
    let received = traced.erased(user)?.transcript(user)?;
    let seen = at_last(take_all_memory(alloc)?, || traced.transcript(user).ok());
    let alone = at_last(take_all_memory(alloc)?, || traced.erased(user).ok());
    Ok(match (seen, alone) {
        (Some((seen, true)), Some((alone, true))) => {
            seen == received && alone.transcript(user)? == received
        }
        _ => false,
    })
}

#[test]
fn a_trace_is_read_at_last(rt: HostRuntime) -> Result<(), LinesFault> {
    let alloc = rt.alloc();
    let traced = ran(alloc, "spawn ann 1 10\nspawn bob 1 10\n")?;
    assert!(rt; is_read_at_last(alloc, &traced, User(1))?);
    assert!(rt; is_read_at_last(alloc, &traced, User(2))?);
    Ok(())
}

/// The first step, for which a trace has no room.
#[test]
fn a_step_without_room_comes_back(rt: HostRuntime) -> Result<(), LinesFault> {
    let alloc = rt.alloc();
    let (mut traced, untroubled) = (booted(alloc)?, booted(alloc)?);
    let pieces = take_all_memory(alloc)?;
    assert!(rt; take_at_last(pieces, &mut traced, &untroubled, RECEIVE, None) == Some(true));
    Ok(())
}

fn is_byte_refused(alloc: Global) -> bool {
    let byte: Result<Vec<u8>, AllocError> = Vec::with_capacity(alloc, 1);
    byte.is_err()
}

/// Three interrupts: of a thread whose message waits, of one that is answered, and of one that is not there.
const INTERRUPTS: &str = "interrupt ann.1.1\ninterrupt ann.1.1\ninterrupt bob.1.1\n";

#[test]
fn three_interrupts_in_reserved_room(rt: HostRuntime) -> Result<(), LinesFault> {
    let alloc = rt.alloc();
    let mut traced = ran(alloc, "spawn ann 1 10\nopen ann.1.1 /ann r 000\n")?;
    let steps = steps(alloc, INTERRUPTS)?;
    traced.reserve(3)?;
    let pieces = take_all_memory(alloc)?;
    let stored = is_byte_refused(alloc) && store_all(&mut traced, &steps).is_ok();
    drop(pieces);
    assert!(rt; stored && traced.entries().len() == 5);
    Ok(())
}
