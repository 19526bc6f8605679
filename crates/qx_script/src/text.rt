//! Steps, each as the line of a script that takes it.

ghost use Rattle.std.specs.Prelude.{◌≡◌, ◌++◌, OnOk};
ghost use Rattle.qx_types.specs.Configuration.{Configuration};
ghost use Rattle.qx_types.specs.declared.request.Request.{Request};
ghost use Rattle.qx_types.specs.declared.step.Step.{Step};
ghost use Rattle.qx_script.specs.StepText.{step_text};

use qx_calls::text::{push_at_path, push_call, push_next_number};
use qx_types::{Bytes, Config, Manager, NoMemory, Prio, Proc, Request, Step, Thread, User, Worker};
use qx_words::text::{push_manager, push_process, push_thread, push_user};

/// The line that takes a step.
pub fn push_step(text: &mut Vec<u8>, config: &Config, step: &Step) -> Result<(), NoMemory>
    ensures ok { OnOk result (text.new.items ≡ text.old.items ++ step_text config.now step.now) }
{
    match step {
        Step::Spawn {
            user,
            threads,
            prio,
        } => push_spawn(text, config, *user, *threads, *prio),
        Step::Exit { proc } => push_exit(text, config, *proc),
        Step::Call { thread, request } => push_call_step(text, config, *thread, request),
        Step::TakeReply { thread } => push_reply(text, config, *thread),
        Step::TakePulse { proc } => push_pulse(text, config, *proc),
        Step::SetPrio { thread, prio } => push_prio(text, config, *thread, *prio),
        Step::Interrupt { thread } => push_interrupt(text, config, *thread),
        Step::Mount {
            thread,
            path,
            manager,
        } => push_mount(text, config, *thread, path, *manager),
        Step::Receive { worker, manager } => push_receive(text, *worker, *manager),
        Step::Perform { worker, moment } => push_perform(text, *worker, *moment),
    }
}

#[tactic(auto, unfolding(crate::specs::StepText::step_text))]
fn push_spawn(
    text: &mut Vec<u8>,
    config: &Config,
    user: User,
    threads: u8,
    prio: Prio,
) -> Result<(), NoMemory>
    ensures ok { OnOk result (text.new.items ≡ text.old.items ++ step_text config.now (Step.Spawn user threads prio)) }
{
    text.extend_from_slice(b"spawn ")?;
    push_user(text, config, user)?;
    push_next_number(text, threads as u64)?;
    push_next_number(text, prio.0 as u64)
}

#[tactic(auto, unfolding(crate::specs::StepText::step_text))]
fn push_exit(text: &mut Vec<u8>, config: &Config, process: Proc) -> Result<(), NoMemory>
    ensures ok { OnOk result (text.new.items ≡ text.old.items ++ step_text config.now (Step.Exit process)) }
{
    text.extend_from_slice(b"exit ")?;
    push_process(text, config, process)
}

#[tactic(auto, unfolding(crate::specs::StepText::step_text, qx_calls::specs::Calls::call_text))]
fn push_call_step(
    text: &mut Vec<u8>,
    config: &Config,
    thread: Thread,
    request: &Request,
) -> Result<(), NoMemory>
    ensures ok { OnOk result (text.new.items ≡ text.old.items ++ step_text config.now (Step.Call thread request.now)) }
{
    push_call(text, config, thread, request)
}

#[tactic(auto, unfolding(crate::specs::StepText::step_text))]
fn push_reply(text: &mut Vec<u8>, config: &Config, thread: Thread) -> Result<(), NoMemory>
    ensures ok { OnOk result (text.new.items ≡ text.old.items ++ step_text config.now (Step.TakeReply thread)) }
{
    text.extend_from_slice(b"reply ")?;
    push_thread(text, config, thread)
}

#[tactic(auto, unfolding(crate::specs::StepText::step_text))]
fn push_pulse(text: &mut Vec<u8>, config: &Config, process: Proc) -> Result<(), NoMemory>
    ensures ok { OnOk result (text.new.items ≡ text.old.items ++ step_text config.now (Step.TakePulse process)) }
{
    text.extend_from_slice(b"pulse ")?;
    push_process(text, config, process)
}

#[tactic(auto, unfolding(crate::specs::StepText::step_text))]
fn push_prio(
    text: &mut Vec<u8>,
    config: &Config,
    thread: Thread,
    prio: Prio,
) -> Result<(), NoMemory>
    ensures ok { OnOk result (text.new.items ≡ text.old.items ++ step_text config.now (Step.SetPrio thread prio)) }
{
    text.extend_from_slice(b"prio ")?;
    push_thread(text, config, thread)?;
    push_next_number(text, prio.0 as u64)
}

#[tactic(auto, unfolding(crate::specs::StepText::step_text))]
fn push_interrupt(text: &mut Vec<u8>, config: &Config, thread: Thread) -> Result<(), NoMemory>
    ensures ok { OnOk result (text.new.items ≡ text.old.items ++ step_text config.now (Step.Interrupt thread)) }
{
    text.extend_from_slice(b"interrupt ")?;
    push_thread(text, config, thread)
}

#[tactic(auto, unfolding(crate::specs::StepText::step_text))]
fn push_mount(
    text: &mut Vec<u8>,
    config: &Config,
    thread: Thread,
    path: &Bytes,
    manager: Manager,
) -> Result<(), NoMemory>
    ensures ok { OnOk result (text.new.items ≡ text.old.items ++ step_text config.now (Step.Mount thread path.now manager)) }
{
    push_at_path(text, config, b"mount", thread, path)?;
    text.push(b' ')?;
    push_manager(text, manager)
}

#[tactic(auto, unfolding(crate::specs::StepText::step_text))]
fn push_receive(text: &mut Vec<u8>, worker: Worker, manager: Manager) -> Result<(), NoMemory>
    ensures ok { (config : Configuration) → OnOk result (text.new.items ≡ text.old.items ++ step_text config (Step.Receive worker manager)) }
{
    text.extend_from_slice(b"receive")?;
    push_next_number(text, worker.0 as u64)?;
    text.push(b' ')?;
    push_manager(text, manager)
}

#[tactic(auto, unfolding(crate::specs::StepText::step_text))]
fn push_perform(text: &mut Vec<u8>, worker: Worker, moment: u64) -> Result<(), NoMemory>
    ensures ok { (config : Configuration) → OnOk result (text.new.items ≡ text.old.items ++ step_text config (Step.Perform worker moment)) }
{
    text.extend_from_slice(b"perform")?;
    push_next_number(text, worker.0 as u64)?;
    push_next_number(text, moment)
}
