//! A script's rounds, so many times, in a world that stores no steps.

use qx_script::{Command, Script, parse};
use qx_types::{Manager, NoMemory, Outcome, Request, Step, Thread, Worker};
use qx_world::World;
use std::alloc::Global;

/// The worker that serves.
const FIRST: Worker = Worker(1);

/// Plays a script's rounds, and tells how many replies and new processes came of them, or nothing where a line is bad. The
/// lines before the first `show` are played once, and those from it on in each round. Where none are before it, or there
/// is no `show`, each round begins with a new world.
pub fn play_script(alloc: Global, text: &[u8], rounds: u32) -> Result<Option<u64>, NoMemory> {
    let Script::Good(config, lines) = parse(alloc, text)? else {
        return Ok(None);
    };
    let place = lines.iter().position(is_show).unwrap_or(0);
    let (before, round) = lines.split_at(place);
    let mut world = World::new(alloc, config)?;
    Ok(Some(play_rounds(alloc, &mut world, before, round, rounds)?))
}

fn is_show(line: &Command) -> bool {
    matches!(line, Command::Show(_))
}

fn play_rounds(
    alloc: Global,
    world: &mut World,
    before: &[Command],
    round: &[Command],
    rounds: u32,
) -> Result<u64, NoMemory> {
    play(world, before)?;
    let mut answers: u64 = 0;
    for _ in 0..rounds {
        if before.is_empty() {
            *world = World::new(alloc, world.config().clone()?)?;
        }
        answers = answers.saturating_add(play(world, round)?);
    }
    Ok(answers)
}

/// Plays lines one after the other. Tells how many replies and new processes came of them.
fn play(world: &mut World, lines: &[Command]) -> Result<u64, NoMemory> {
    let mut answers: u64 = 0;
    for line in lines {
        answers = answers.saturating_add(play_line(world, line)?);
    }
    Ok(answers)
}

fn play_line(world: &mut World, line: &Command) -> Result<u64, NoMemory> {
    match line {
        Command::Take(step) => Ok(answers(&take(world, step)?)),
        Command::Serve(moment) => {
            serve(world, *moment)?;
            Ok(0)
        }
        Command::Do(moment, thread, request) => call(world, *moment, *thread, request),
        Command::Show(_) | Command::Erased(_) | Command::Trace => Ok(0),
    }
}

/// How many replies or new processes that is, none or one.
pub fn answers(outcome: &Outcome) -> u64 {
    match outcome {
        Outcome::Reply(..) | Outcome::Spawned(_) => 1,
        _ => 0,
    }
}

/// What `World::step` does, compiled in place, so that what is counted are the calls themselves.
fn take(world: &mut World, step: &Step) -> Result<Outcome, NoMemory> {
    match step {
        Step::Spawn {
            user,
            threads,
            prio,
        } => Ok(world.spawn(*user, *threads, *prio)?),
        Step::Exit { proc } => Ok(world.exit(*proc)),
        Step::Call { thread, request } => world.call(*thread, request),
        Step::TakeReply { thread } => Ok(world.take_reply(*thread)),
        Step::TakePulse { proc } => Ok(world.take_pulse(*proc)),
        Step::SetPrio { thread, prio } => Ok(world.set_prio(*thread, *prio)),
        Step::Interrupt { thread } => Ok(world.interrupt(*thread)),
        Step::Mount {
            thread,
            path,
            manager,
        } => world.mount(*thread, path, *manager),
        Step::Receive { worker, manager } => Ok(world.receive(*worker, *manager)),
        Step::Perform { worker, moment } => world.perform_held(*worker, *moment),
    }
}

/// A call; where it is sent, all that waits is served, and its answer is taken if there is one.
fn call(
    world: &mut World,
    moment: u64,
    thread: Thread,
    request: &Request,
) -> Result<u64, NoMemory> {
    let Outcome::Sent = world.call(thread, request)? else {
        return Ok(0);
    };
    serve(world, moment)?;
    if !world.answered(thread) {
        return Ok(0);
    }
    Ok(answers(&world.take_reply(thread)))
}

/// The first worker does what it holds, and then all that waits, for one manager after the other.
fn serve(world: &mut World, moment: u64) -> Result<(), NoMemory> {
    if world.holds(FIRST) {
        let _ = world.perform_held(FIRST, moment)?;
    }
    let mut number = 0;
    for _ in 0..Manager::count() {
        let Some(manager) = world.next_from(number) else {
            break;
        };
        serve_line(world, manager, moment)?;
        number = manager.number() + 1;
    }
    Ok(())
}

/// Serves a line until nothing waits there. A message that is performed puts one pulse there at most, and a pulse none.
fn serve_line(world: &mut World, manager: Manager, moment: u64) -> Result<(), NoMemory> {
    for _ in 0..world.waiting(manager).saturating_mul(2) {
        if world.waiting(manager) == 0 {
            break;
        }
        let _ = world.receive(FIRST, manager);
        let _ = world.perform_held(FIRST, moment)?;
    }
    Ok(())
}
