//! What the lines of a script do: the steps that they take and the text that they print.

ghost use Rattle.std.specs.Prelude.{◌≡◌, ◌≤◌, ◌++◌, ◌∷◌, [], ℕ, List, IfOk, OnOk};
ghost use Rattle.qx_types.specs.Configuration.{Configuration};
ghost use Rattle.qx_types.specs.declared.step.Step.{Step};
ghost use Rattle.qx_machine.specs.Runs.{erase, received, run};
ghost use Rattle.qx_live.specs.Chosen.{items_waiting};
ghost use Rattle.qx_play.specs.Play as play;
ghost use Rattle.qx_play.specs.Play.{all_served, called, hand_emptied, played, played_line, with_reply_taken, with_lines_served, shown, world_played};
ghost use Rattle.qx_play.specs.Printed.{transcript_text};

use crate::text;
use qx_live::waiting::waiting;
use qx_script::Command;
use qx_types::{Config, NoMemory, Outcome, Request, Step, Thread, User, Worker};
use qx_world::Traced;
use std::alloc::Global;

/// The worker that serves.
const FIRST: Worker = Worker(1);

/// After `serve` no item waits in a line, whatever steps were taken before.
pub fn none_waits_once_served()
    ensures none_waits { (config : Configuration) (moment : ℕ) (steps : List Step) → 1 ≤ config.workers → items_waiting (world_played config (with_lines_served config moment steps)) ≡ 0 }
{}

/// Runs the lines of a script, and gives the text that they print.
#[tactic(auto, unfolding(crate::specs::Play::shown))]
pub fn play(alloc: Global, config: Config, commands: Vec<Command>) -> Result<Vec<u8>, NoMemory>
    ensures text { IfOk result (λ text. text.items ≡ shown config commands.items) }
{
    let (_traced, text) = play_traced(alloc, config, commands)?;
    Ok(text)
}

/// Runs the lines of a script, and gives the run that they come to, and the text that they print.
pub fn play_traced(
    alloc: Global,
    config: Config,
    commands: Vec<Command>,
) -> Result<(Traced, Vec<u8>), NoMemory>
    ensures config { IfOk result (λ r. r.0.config ≡ config) }
    ensures steps { IfOk result (λ r. r.0.steps ≡ (played config commands.items).steps) }
    ensures text { IfOk result (λ r. r.1.items ≡ (played config commands.items).text) }
{
    let mut traced = Traced::new(alloc, config)?;
    let mut text = Vec::new(alloc);
    let mut lines = commands.into_iter();
    'lines: while let Some(command) = lines.next() {
        play_line(&mut traced, &mut text, command)?;
    }
    Ok((traced, text))
}

/// Runs one line.
fn play_line(traced: &mut Traced, text: &mut Vec<u8>, command: Command) -> Result<(), NoMemory>
    ensures config { traced.new.config ≡ traced.old.config }
    ensures steps { OnOk result (traced.new.steps ≡ (played_line traced.old.config (record { steps = traced.old.steps; text = text.old.items }) command).steps) }
    ensures text { OnOk result (text.new.items ≡ (played_line traced.old.config (record { steps = traced.old.steps; text = text.old.items }) command).text) }
{
    match command {
        Command::Take(step) => store(traced, step),
        Command::Serve(moment) => serve(traced, moment),
        Command::Do(moment, thread, request) => call(traced, moment, thread, request),
        Command::Show(user) => {
            text::push_transcript(text, traced.config(), traced.entries(), user)
        }
        Command::Erased(user) => push_erased(text, traced, user),
        Command::Trace => text::push_trace(text, traced.config(), traced.entries()),
    }
}

/// Runs the steps anew that were taken by or for a user, and gives the text of what the user receives.
fn push_erased(text: &mut Vec<u8>, traced: &Traced, user: User) -> Result<(), NoMemory>
    ensures text { OnOk result (text.new.items ≡ text.old.items ++ transcript_text traced.now.config (received user.0 (run traced.now.config (erase user.0 traced.now.config traced.now.steps)).entries)) }
{
    let erased = traced.erased(user)?;
    text::push_transcript(text, erased.config(), erased.entries(), user)
}

/// Takes a step.
pub(crate) fn store(traced: &mut Traced, step: Step) -> Result<(), NoMemory>
    ensures config { traced.new.config ≡ traced.old.config }
    ensures steps { OnOk result (traced.new.steps ≡ traced.old.steps ++ step ∷ []) }
{
    match traced.store(step) {
        Ok(()) => Ok(()),
        Err(_) => Err(NoMemory),
    }
}

/// A call; where it is sent, all that waits is served, and its reply is taken.
#[tactic(auto, unfolding(crate::specs::Play::called))]
fn call(traced: &mut Traced, moment: u64, thread: Thread, request: Request) -> Result<(), NoMemory>
    ensures config { traced.new.config ≡ traced.old.config }
    ensures steps { OnOk result (traced.new.steps ≡ called traced.old.config moment thread (Step.Call thread request) traced.old.steps) }
{
    store(traced, Step::Call { thread, request })?;
    if !is_sent(traced.last()) {
        return Ok(());
    }
    serve(traced, moment)?;
    take_reply(traced, thread)
}

/// Whether a call went into its line.
fn is_sent(outcome: &Outcome) -> bool
    ensures { result ≡ play.is_sent outcome.now }
{
    matches!(outcome, Outcome::Sent)
}

/// Takes a thread's answer, if it has one.
#[tactic(auto, unfolding(crate::specs::Play::with_reply_taken))]
fn take_reply(traced: &mut Traced, thread: Thread) -> Result<(), NoMemory>
    ensures config { traced.new.config ≡ traced.old.config }
    ensures steps { OnOk result (traced.new.steps ≡ with_reply_taken traced.old.config thread traced.old.steps) }
{
    if traced.world().answered(thread) {
        store(traced, Step::TakeReply { thread })?;
    }
    Ok(())
}

/// The first worker does what it holds, and then all that waits.
#[tactic(auto, unfolding(crate::specs::Play::with_lines_served))]
fn serve(traced: &mut Traced, moment: u64) -> Result<(), NoMemory>
    ensures config { traced.new.config ≡ traced.old.config }
    ensures steps { OnOk result (traced.new.steps ≡ with_lines_served traced.old.config moment traced.old.steps) }
{
    empty_hand(traced, moment)?;
    serve_waiting(traced, moment)
}

/// The first worker does what it holds.
#[tactic(auto, unfolding(crate::specs::Play::hand_emptied))]
fn empty_hand(traced: &mut Traced, moment: u64) -> Result<(), NoMemory>
    ensures config { traced.new.config ≡ traced.old.config }
    ensures steps { OnOk result (traced.new.steps ≡ hand_emptied traced.old.config moment traced.old.steps) }
{
    if traced.world().holds(FIRST) {
        let worker = FIRST;
        store(traced, Step::Perform { worker, moment })?;
    }
    Ok(())
}

/// The first worker takes and does all that waits, and what that puts into lines.
#[tactic(auto, unfolding(crate::specs::Play::all_served, qx_live::specs::Chosen::served_steps))]
pub(crate) fn serve_waiting(traced: &mut Traced, moment: u64) -> Result<(), NoMemory>
    ensures config { traced.new.config ≡ traced.old.config }
    ensures steps { OnOk result (traced.new.steps ≡ all_served traced.old.config moment traced.old.steps) }
{
    let most = 2 * waiting(traced.world());
    'rounds: for _ in 0..most {
        let Some(manager) = traced.world().next_manager() else {
            return Ok(());
        };
        let worker = FIRST;
        store(traced, Step::Receive { worker, manager })?;
        store(traced, Step::Perform { worker, moment })?;
    }
    Ok(())
}
