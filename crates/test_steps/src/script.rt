//! Steps, read from lines of a script.

use qx_script::{Command, Script, parse};
use qx_types::{Config, NoMemory, Step};
use qx_world::Traced;
use std::alloc::{AllocError, AllocFailed, Global};

/// Two users, ann and bob, and two workers.
const USERS: &str = "user ann\nuser bob\nworkers 2\n";

/// Why lines give no steps, or not all of those were taken.
#[derive(Clone, Copy, Debug, PartialEq, Eq)]
pub enum LinesFault {
    /// This line is bad, counted from the first user's.
    Bad(u64),
    /// A line does not take one step.
    NotOneStep,
    NoMemory,
}

impl From<NoMemory> for LinesFault {
    fn from(_error: NoMemory) -> LinesFault {
        LinesFault::NoMemory
    }
}

impl From<AllocError> for LinesFault {
    fn from(_error: AllocError) -> LinesFault {
        LinesFault::NoMemory
    }
}

impl<T: Drop> From<AllocFailed<T>> for LinesFault {
    fn from(_error: AllocFailed<T>) -> LinesFault {
        LinesFault::NoMemory
    }
}

/// The users' lines and these, without their marks, read.
fn read(alloc: Global, lines: &str) -> Result<(Config, Vec<Command>), LinesFault> {
    let mut text = Vec::new(alloc);
    text.extend_from_slice(USERS.as_bytes())?;
    for byte in lines.as_bytes() {
        if !matches!(byte, b'!' | b'?') {
            text.push(*byte)?;
        }
    }
    match parse(alloc, &text)? {
        Script::Good(config, commands) => Ok((config, commands)),
        Script::Bad(line) => Err(LinesFault::Bad(line)),
    }
}

/// Two users, ann and bob, and two workers.
pub fn config(alloc: Global) -> Result<Config, LinesFault> {
    let (config, _) = read(alloc, "")?;
    Ok(config)
}

/// The steps of lines of which each takes one.
pub fn steps(alloc: Global, lines: &str) -> Result<Vec<Step>, LinesFault> {
    let (_, commands) = read(alloc, lines)?;
    let mut steps = Vec::new(alloc);
    for command in commands {
        match command {
            Command::Take(step) => steps.push(step)?,
            _ => return Err(LinesFault::NotOneStep),
        }
    }
    Ok(steps)
}

/// A trace at boot.
pub fn booted(alloc: Global) -> Result<Traced, LinesFault> {
    Ok(Traced::new(alloc, config(alloc)?)?)
}

/// A trace that took the steps of lines.
pub fn ran(alloc: Global, lines: &str) -> Result<Traced, LinesFault> {
    let mut traced = booted(alloc)?;
    run(alloc, &mut traced, lines)?;
    Ok(traced)
}

/// Takes the steps of lines.
pub fn run(alloc: Global, traced: &mut Traced, lines: &str) -> Result<(), LinesFault> {
    let steps = steps(alloc, lines)?;
    Ok(store_all(traced, &steps)?)
}

/// Takes a copy of each step. That of one with no path wants no memory.
pub fn store_all(traced: &mut Traced, steps: &[Step]) -> Result<(), NoMemory> {
    for step in steps {
        store(traced, step)?;
    }
    Ok(())
}

/// Takes a copy of a step.
pub fn store(traced: &mut Traced, step: &Step) -> Result<(), NoMemory> {
    match traced.store(step.clone()?) {
        Ok(()) => Ok(()),
        Err(_) => Err(NoMemory),
    }
}
