//! The text of outcomes, of what a user was shown, and of a trace.

ghost use Rattle.std.specs.Prelude.{◌≡◌, ◌++◌, OnOk, codes, decimal};
ghost use Rattle.qx_types.specs.Step.{actor_of};
ghost use Rattle.qx_machine.specs.Runs.{received, seen_by};
ghost use Rattle.qx_play.specs.Printed.{actor_text, entry_text, item_text, outcome_text, seen_text, trace_text, transcript_text};
ghost use Rattle.qx_words.specs.WordText.{bytes_text};

use qx_machine::Entry;
use qx_script::text::push_step;
use qx_types::{Actor, Config, Item, NoMemory, Outcome, User};
use qx_words::text::{push_bytes, push_number, push_process, push_thread, push_user};

/// The lines of what the steps gave to a user.
pub fn push_transcript(
    text: &mut Vec<u8>,
    config: &Config,
    entries: &[Entry],
    user: User,
) -> Result<(), NoMemory>
    ensures ok { OnOk result (text.new.items ≡ text.old.items ++ transcript_text config.now (received user.0 entries.now)) }
{
    'lines: for entry in entries {
        push_seen_by(text, config, entry, user)?;
    }
    Ok(())
}

/// The lines of all steps, numbered from 1.
pub fn push_trace(text: &mut Vec<u8>, config: &Config, entries: &[Entry]) -> Result<(), NoMemory>
    ensures ok { OnOk result (text.new.items ≡ text.old.items ++ trace_text config.now entries.now) }
{
    'lines: for (index, entry) in entries.iter().enumerate() {
        push_entry(text, config, index as u64 + 1, entry)?;
    }
    Ok(())
}

/// One line: the step's number, the step, and what came of it.
#[tactic(auto, unfolding(crate::specs::Printed::entry_text))]
fn push_entry(
    text: &mut Vec<u8>,
    config: &Config,
    number: u64,
    entry: &Entry,
) -> Result<(), NoMemory>
    ensures ok { OnOk result (text.new.items ≡ text.old.items ++ entry_text config.now number entry.now) }
{
    push_number(text, number)?;
    text.push(b' ')?;
    push_step(text, config, &entry.step)?;
    text.extend_from_slice(b" -> ")?;
    push_outcome(text, config, &entry.outcome)?;
    text.push(b'\n')?;
    Ok(())
}

/// The line of a step, if it is a client step of the user.
fn push_seen_by(
    text: &mut Vec<u8>,
    config: &Config,
    entry: &Entry,
    user: User,
) -> Result<(), NoMemory>
    ensures ok { OnOk result (text.new.items ≡ text.old.items ++ transcript_text config.now (seen_by user.0 entry.now.outcome (actor_of entry.now.step))) }
{
    match entry.step.actor() {
        Some(actor) if actor.user() == user => { push_seen(text, config, actor, &entry.outcome) }
        _ => Ok(()),
    }
}

/// One line: who, and what came of it.
#[tactic(auto, unfolding(crate::specs::Printed::seen_text))]
pub fn push_seen(
    text: &mut Vec<u8>,
    config: &Config,
    actor: Actor,
    outcome: &Outcome,
) -> Result<(), NoMemory>
    ensures ok { OnOk result (text.new.items ≡ text.old.items ++ seen_text config.now (record { actor = actor; outcome = outcome.now })) }
{
    push_actor(text, config, actor)?;
    text.push(b' ')?;
    push_outcome(text, config, outcome)?;
    text.push(b'\n')?;
    Ok(())
}

/// A user, a process or a thread.
#[tactic(auto, unfolding(crate::specs::Printed::actor_text))]
pub fn push_actor(text: &mut Vec<u8>, config: &Config, actor: Actor) -> Result<(), NoMemory>
    ensures ok { OnOk result (text.new.items ≡ text.old.items ++ actor_text config.now actor) }
{
    match actor {
        Actor::OfUser(user) => push_user(text, config, user),
        Actor::OfProc(process) => push_process(text, config, process),
        Actor::OfThread(thread) => push_thread(text, config, thread),
    }
}

#[tactic(auto, unfolding(crate::specs::Printed::item_text))]
fn push_item(text: &mut Vec<u8>, config: &Config, item: Item) -> Result<(), NoMemory>
    ensures ok { OnOk result (text.new.items ≡ text.old.items ++ item_text config.now item) }
{
    match item {
        Item::Message(thread) => {
            push_thread(text, config, thread)?;
            Ok(text.extend_from_slice(b" message")?)
        }
        Item::Unblock(thread) => {
            push_thread(text, config, thread)?;
            Ok(text.extend_from_slice(b" unblock")?)
        }
        Item::Disconnect(process) => {
            push_process(text, config, process)?;
            Ok(text.extend_from_slice(b" disconnect")?)
        }
    }
}

/// What came of a step.
#[inline(always)]
#[tactic(auto, unfolding(crate::specs::Printed::outcome_text))]
pub fn push_outcome(text: &mut Vec<u8>, config: &Config, outcome: &Outcome) -> Result<(), NoMemory>
    ensures ok { OnOk result (text.new.items ≡ text.old.items ++ outcome_text config.now outcome.now) }
{
    match outcome {
        Outcome::Spawned(number) => {
            text.extend_from_slice(b"spawned ")?;
            push_number(text, *number as u64)
        }
        Outcome::Refused(error) => {
            text.extend_from_slice(b"refused ")?;
            Ok(text.extend_from_slice(error.name().as_bytes())?)
        }
        Outcome::Done => Ok(text.extend_from_slice(b"done")?),
        Outcome::Sent => Ok(text.extend_from_slice(b"sent")?),
        Outcome::Reply(status, bytes) => push_reply(text, *status, bytes.as_slice()),
        Outcome::Failed(error) => {
            text.extend_from_slice(b"error ")?;
            Ok(text.extend_from_slice(error.name().as_bytes())?)
        }
        Outcome::Pulse(code, value) => push_pulse(text, *code, *value),
        Outcome::NoPulse => Ok(text.extend_from_slice(b"nopulse")?),
        Outcome::WrongState => Ok(text.extend_from_slice(b"wrongstate")?),
        Outcome::Took(item) => {
            text.extend_from_slice(b"took ")?;
            push_item(text, config, *item)
        }
        Outcome::Idle => Ok(text.extend_from_slice(b"idle")?),
        Outcome::Busy => Ok(text.extend_from_slice(b"busy")?),
        Outcome::Handled => Ok(text.extend_from_slice(b"handled")?),
        Outcome::Nothing => Ok(text.extend_from_slice(b"nothing")?),
    }
}

#[inline(always)]
fn push_reply(text: &mut Vec<u8>, status: u64, bytes: &[u8]) -> Result<(), NoMemory>
    ensures ok { OnOk result (text.new.items ≡ text.old.items ++ (codes "reply " ++ decimal status ++ codes " " ++ bytes_text bytes.now)) }
{
    text.extend_from_slice(b"reply ")?;
    push_number(text, status)?;
    text.push(b' ')?;
    push_bytes(text, bytes)
}

fn push_pulse(text: &mut Vec<u8>, code: u8, value: u64) -> Result<(), NoMemory>
    ensures ok { OnOk result (text.new.items ≡ text.old.items ++ (codes "pulse " ++ decimal code ++ codes " " ++ decimal value)) }
{
    text.extend_from_slice(b"pulse ")?;
    push_number(text, code as u64)?;
    text.push(b' ')?;
    push_number(text, value)
}
