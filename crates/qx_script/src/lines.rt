ghost use Rattle.std.specs.Prelude.{◌≡◌, ◌≤◌, ℕ, IfOk, IfSome, List, length, map, option_map, true};
ghost use Rattle.qx_types.specs.Configuration.{is_user_name};
ghost use Rattle.qx_calls.specs.Forms.{◌then◌, end, read_form, read_words};
ghost use Rattle.qx_script.specs.Lines.{ceiling_line, command_of, disconnect_line, do_of, erased_line, exit_line, interrupt_line, limit_line, mount_line, perform_line, prio_line, line_of_receive, pulse_line, reply_line, serve_line, show_line, spawn_line, step_in_line, trace_line, user_line, workers_line};
ghost use Rattle.qx_words.specs.Kinds.{AByte, AProcess, AThread, AUser};

use crate::command::Command;
use crate::setting::{Setting, SettingName};
use qx_calls::lines::call;
use qx_types::{Bytes, NoMemory, Prio, Proc, Step, Thread, Worker};
use qx_words::Users;
use qx_words::words::{byte, four_byte_number, limit_name, manager, moment, name, process, thread};
use std::alloc::Global;

/// `user NAME`
pub fn user<'a>(words: &[&'a [u8]]) -> Option<&'a [u8]>
    ensures name { (users : List (List ℕ)) → option_map (λ name. name.now) result ≡ read_form user_line users (map (λ word. word.now) words.now) }
    ensures good { IfSome result (λ name. is_user_name name.now ≡ true) }
{
    let [word] = words else {
        return None;
    };
    name(*word)
}

/// `USER PRIORITY`, a setting of this name.
fn priority_of(users: &Users, name: SettingName, words: &[&[u8]]) -> Option<Setting>
    ensures setting { result ≡ read_words (AUser then AByte then end) (λ user prio. record { user = user; name = name; value = prio }) users.now (map (λ word. word.now) words.now) }
    ensures within { IfSome result (λ setting. (1 ≤ setting.user.0) × (setting.user.0 ≤ length users.now)) }
{
    let [user, prio] = words else {
        return None;
    };
    let user = users.find(*user)?;
    let prio = byte(*prio)?;
    Some(Setting {
        user,
        name,
        value: u32::from(prio),
    })
}

/// `ceiling USER PRIORITY`
pub fn ceiling(users: &Users, words: &[&[u8]]) -> Option<Setting>
    ensures setting { result ≡ read_form ceiling_line users.now (map (λ word. word.now) words.now) }
    ensures within { IfSome result (λ setting. (1 ≤ setting.user.0) × (setting.user.0 ≤ length users.now)) }
{
    priority_of(users, SettingName::Ceiling, words)
}

/// `disconnect USER PRIORITY`
pub fn disconnect(users: &Users, words: &[&[u8]]) -> Option<Setting>
    ensures setting { result ≡ read_form disconnect_line users.now (map (λ word. word.now) words.now) }
    ensures within { IfSome result (λ setting. (1 ≤ setting.user.0) × (setting.user.0 ≤ length users.now)) }
{
    priority_of(users, SettingName::Disconnect, words)
}

/// `limit USER NAME NUMBER`
pub fn limit(users: &Users, words: &[&[u8]]) -> Option<Setting>
    ensures setting { result ≡ read_form limit_line users.now (map (λ word. word.now) words.now) }
    ensures within { IfSome result (λ setting. (1 ≤ setting.user.0) × (setting.user.0 ≤ length users.now)) }
{
    let [user, name, number] = words else {
        return None;
    };
    let user = users.find(*user)?;
    let name = limit_name(*name)?;
    let value = four_byte_number(*number)?;
    Some(Setting {
        user,
        name: SettingName::Limit(name),
        value,
    })
}

/// `workers NUMBER`
pub fn workers(words: &[&[u8]]) -> Option<u8>
    ensures number { (users : List (List ℕ)) → result ≡ read_form workers_line users (map (λ word. word.now) words.now) }
{
    let [word] = words else {
        return None;
    };
    byte(*word)
}

/// `PROCESS`
fn process_alone(users: &Users, words: &[&[u8]]) -> Option<Proc>
    ensures found { result ≡ read_words (AProcess then end) (λ process. process) users.now (map (λ word. word.now) words.now) }
{
    let [word] = words else {
        return None;
    };
    process(users, *word)
}

/// `THREAD`
fn thread_alone(users: &Users, words: &[&[u8]]) -> Option<Thread>
    ensures found { result ≡ read_words (AThread then end) (λ thread. thread) users.now (map (λ word. word.now) words.now) }
{
    let [word] = words else {
        return None;
    };
    thread(users, *word)
}

/// `spawn USER THREADS PRIORITY`
fn spawn(users: &Users, words: &[&[u8]]) -> Option<Step>
    ensures step { result ≡ read_form spawn_line users.now (map (λ word. word.now) words.now) }
{
    let [user, threads, prio] = words else {
        return None;
    };
    let user = users.find(*user)?;
    let threads = byte(*threads)?;
    let prio = byte(*prio)?;
    Some(Step::Spawn {
        user,
        threads,
        prio: Prio(prio),
    })
}

/// `exit PROCESS`
fn exit(users: &Users, words: &[&[u8]]) -> Option<Step>
    ensures step { result ≡ read_form exit_line users.now (map (λ word. word.now) words.now) }
{
    let proc = process_alone(users, words)?;
    Some(Step::Exit { proc })
}

/// `reply THREAD`
fn reply(users: &Users, words: &[&[u8]]) -> Option<Step>
    ensures step { result ≡ read_form reply_line users.now (map (λ word. word.now) words.now) }
{
    let thread = thread_alone(users, words)?;
    Some(Step::TakeReply { thread })
}

/// `pulse PROCESS`
fn pulse(users: &Users, words: &[&[u8]]) -> Option<Step>
    ensures step { result ≡ read_form pulse_line users.now (map (λ word. word.now) words.now) }
{
    let proc = process_alone(users, words)?;
    Some(Step::TakePulse { proc })
}

/// `prio THREAD PRIORITY`
fn prio(users: &Users, words: &[&[u8]]) -> Option<Step>
    ensures step { result ≡ read_form prio_line users.now (map (λ word. word.now) words.now) }
{
    let [thread_word, prio] = words else {
        return None;
    };
    let thread = thread(users, *thread_word)?;
    let prio = Prio(byte(*prio)?);
    Some(Step::SetPrio { thread, prio })
}

/// `interrupt THREAD`
fn interrupt(users: &Users, words: &[&[u8]]) -> Option<Step>
    ensures step { result ≡ read_form interrupt_line users.now (map (λ word. word.now) words.now) }
{
    let thread = thread_alone(users, words)?;
    Some(Step::Interrupt { thread })
}

/// `mount THREAD PATH ram|pipe`
fn mount(alloc: Global, users: &Users, words: &[&[u8]]) -> Result<Option<Step>, NoMemory>
    ensures step { IfOk result (λ step. step ≡ read_form mount_line users.now (map (λ word. word.now) words.now)) }
{
    let [thread_word, path, manager_word] = words else {
        return Ok(None);
    };
    let Some(thread) = thread(users, *thread_word) else {
        return Ok(None);
    };
    let Some(manager) = manager(*manager_word) else {
        return Ok(None);
    };
    let path = Bytes::from_slice(alloc, *path)?;
    Ok(Some(Step::Mount {
        thread,
        path,
        manager,
    }))
}

/// `receive WORKER ram|pipe`
fn receive(words: &[&[u8]]) -> Option<Step>
    ensures step { (users : List (List ℕ)) → result ≡ read_form line_of_receive users (map (λ word. word.now) words.now) }
{
    let [worker, manager_word] = words else {
        return None;
    };
    let worker = Worker(byte(*worker)?);
    let manager = manager(*manager_word)?;
    Some(Step::Receive { worker, manager })
}

/// `perform WORKER MOMENT`
fn perform(words: &[&[u8]]) -> Option<Step>
    ensures step { (users : List (List ℕ)) → result ≡ read_form perform_line users (map (λ word. word.now) words.now) }
{
    let [worker, moment_word] = words else {
        return None;
    };
    let worker = Worker(byte(*worker)?);
    let moment = moment(*moment_word)?;
    Some(Step::Perform { worker, moment })
}

/// A step, by its first word.
#[tactic(auto, unfolding(crate::specs::Lines::step_in_line))]
fn step(
    alloc: Global,
    users: &Users,
    name: &[u8],
    words: &[&[u8]],
) -> Result<Option<Step>, NoMemory>
    ensures step { IfOk result (λ step. step ≡ step_in_line users.now name.now (map (λ word. word.now) words.now)) }
{
    if name == b"spawn".as_slice() {
        Ok(spawn(users, words))
    } else if name == b"exit".as_slice() {
        Ok(exit(users, words))
    } else if name == b"reply".as_slice() {
        Ok(reply(users, words))
    } else if name == b"pulse".as_slice() {
        Ok(pulse(users, words))
    } else if name == b"prio".as_slice() {
        Ok(prio(users, words))
    } else if name == b"interrupt".as_slice() {
        Ok(interrupt(users, words))
    } else if name == b"mount".as_slice() {
        mount(alloc, users, words)
    } else if name == b"receive".as_slice() {
        Ok(receive(words))
    } else if name == b"perform".as_slice() {
        Ok(perform(words))
    } else {
        match call(alloc, users, name, words)? {
            Some((thread, request)) => Ok(Some(Step::Call { thread, request })),
            None => Ok(None),
        }
    }
}

/// `serve MOMENT`
fn serve(words: &[&[u8]]) -> Option<Command>
    ensures command { (users : List (List ℕ)) → result ≡ read_form serve_line users (map (λ word. word.now) words.now) }
{
    let [word] = words else {
        return None;
    };
    let moment = moment(*word)?;
    Some(Command::Serve(moment))
}

/// `do MOMENT CALL`
#[tactic(auto, unfolding(crate::specs::Lines::do_of))]
fn do_call(alloc: Global, users: &Users, words: &[&[u8]]) -> Result<Option<Command>, NoMemory>
    ensures command { IfOk result (λ command. command ≡ do_of users.now (map (λ word. word.now) words.now)) }
{
    let [moment_word, name, rest @ ..] = words else {
        return Ok(None);
    };
    let Some(moment) = moment(*moment_word) else {
        return Ok(None);
    };
    match call(alloc, users, *name, rest)? {
        Some((thread, request)) => Ok(Some(Command::Do(moment, thread, request))),
        None => Ok(None),
    }
}

/// `show USER`
fn show(users: &Users, words: &[&[u8]]) -> Option<Command>
    ensures command { result ≡ read_form show_line users.now (map (λ word. word.now) words.now) }
{
    let [word] = words else {
        return None;
    };
    let user = users.find(*word)?;
    Some(Command::Show(user))
}

/// `erased USER`
fn erased(users: &Users, words: &[&[u8]]) -> Option<Command>
    ensures command { result ≡ read_form erased_line users.now (map (λ word. word.now) words.now) }
{
    let [word] = words else {
        return None;
    };
    let user = users.find(*word)?;
    Some(Command::Erased(user))
}

/// `trace`, whoever the users are.
fn trace(users: &Users, words: &[&[u8]]) -> Option<Command>
    ensures command { result ≡ read_form trace_line users.now (map (λ word. word.now) words.now) }
{
    if !words.is_empty() {
        return None;
    }
    Some(Command::Trace)
}

/// A line that takes steps or prints, by its first word.
#[tactic(auto, unfolding(crate::specs::Lines::command_of))]
pub fn command(
    alloc: Global,
    users: &Users,
    name: &[u8],
    words: &[&[u8]],
) -> Result<Option<Command>, NoMemory>
    ensures command { IfOk result (λ command. command ≡ command_of users.now name.now (map (λ word. word.now) words.now)) }
{
    if name == b"do".as_slice() {
        do_call(alloc, users, words)
    } else if name == b"serve".as_slice() {
        Ok(serve(words))
    } else if name == b"show".as_slice() {
        Ok(show(users, words))
    } else if name == b"erased".as_slice() {
        Ok(erased(users, words))
    } else if name == b"trace".as_slice() {
        Ok(trace(users, words))
    } else {
        match step(alloc, users, name, words)? {
            Some(step) => Ok(Some(Command::Take(step))),
            None => Ok(None),
        }
    }
}
