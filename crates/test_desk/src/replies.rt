//! Answers among what was written.

ghost use Rattle.std.specs.Prelude.{◌≡◌, ◌++◌, IfOk, OnOk};
ghost use Rattle.test_desk.specs.Asking.{answer_for, is_answer, is_of, late, spawned, still};

use crate::asked::{Told, Waiting};
use qx_isolation::Seen;
use qx_types::{Actor, NoMemory, Outcome};
use std::alloc::Global;

/// Whether it is a thread of the process.
fn is_of(process: u8, actor: Actor) -> bool
    ensures { result ≡ is_of process actor }
{
    match actor {
        Actor::OfThread(thread) => thread.proc.num == process,
        _ => false,
    }
}

fn is_answer(outcome: &Outcome) -> bool
    ensures { result ≡ is_answer outcome.now }
{
    matches!(outcome, Outcome::Reply(..) | Outcome::Failed(_))
}

/// The first answer that the process took.
fn answer_for(process: u8, seen: &[Seen]) -> Result<Option<Outcome>, NoMemory>
    ensures { IfOk result (λ answer. answer ≡ answer_for process seen.now) }
{
    'seen: for one in seen {
        if is_of(process, one.actor) && is_answer(&one.outcome) {
            return Ok(Some(one.outcome.clone()?));
        }
    }
    Ok(None)
}

/// Answers requests that waited, and returns those that still wait.
pub fn tell_late(
    alloc: Global,
    told: &mut Vec<Told>,
    waiting: &[Waiting],
    seen: &[Seen],
) -> Result<Vec<Waiting>, NoMemory>
    ensures left { IfOk result (λ left. left.items ≡ still seen.now waiting.now) }
    ensures told { OnOk result (told.new.items ≡ told.old.items ++ late seen.now waiting.now) }
{
    let mut left = Vec::new(alloc);
    'waiting: for one in waiting {
        let Waiting { number, process } = *one;
        match answer_for(process, seen)? {
            Some(outcome) => told.push(Told {
                number,
                process,
                outcome,
            })?,
            None => left.push(*one)?,
        }
    }
    Ok(left)
}

/// The process that was started.
pub fn spawned(seen: &[Seen]) -> Option<u8>
    ensures { result ≡ spawned seen.now }
{
    match seen.first()?.outcome {
        Outcome::Spawned(process) => Some(process),
        _ => None,
    }
}
