//! What each thread of a test does, line by line, and by what the threads wait for each other.

use qx_pool::{Clock, Gate};
use qx_script::{Command, Script, parse};
use qx_types::{Item, NoMemory, Request, Step, Thread, Worker};
use std::alloc::Global;
use std::process::Abort;
use std::sync::Wait;
use std::sync::atomic::{AtomicU64, Ordering};
use std::time::Duration;

/// What a line asks for.
#[derive(Debug, Drop)]
pub(crate) enum Act {
    /// A line of a script, a call: makes it, and waits for its answer.
    Call(Thread, Request),
    /// Another line of a script: takes that step of a client.
    Take(Step),
    /// `until LINE`: takes that step again and again, until it is `WrongState`.
    Until(Step),
    /// `work 1`: works as that worker, until the loop ends.
    Work(Worker),
    /// `await 2`: waits until so many signals were raised.
    Await(u64),
    /// `raise`: raises a signal.
    Raise,
    /// `stop`: stops the server.
    Stop,
}

/// The step of a line of a script that begins with the users' lines.
fn step(rt: &impl Abort, alloc: Global, users: &str, line: &str) -> Result<Step, NoMemory> {
    let text = format!(in alloc; "{users}{line}")?;
    if let Script::Good(_, mut commands) = parse(alloc, text.as_bytes())? {
        if let Some(Command::Take(step)) = commands.pop() {
            return Ok(step);
        }
    }
    panic!(rt; "{line} is not one step")
}

/// What a line asks for.
pub(crate) fn read(
    rt: &impl Abort,
    alloc: Global,
    users: &str,
    line: &str,
) -> Result<Act, NoMemory> {
    Ok(match line.split_once(' ') {
        None if line == "raise" => Act::Raise,
        None => Act::Stop,
        Some(("await", count)) => Act::Await(count.parse().expect(rt, "a number")),
        Some(("work", number)) => Act::Work(Worker(number.parse().expect(rt, "a number"))),
        Some(("until", line)) => Act::Until(step(rt, alloc, users, line)?),
        _ => match step(rt, alloc, users, line)? {
            Step::Call {
                thread,
                ref request,
            } => Act::Call(thread, request.clone()?),
            step => Act::Take(step),
        },
    })
}

/// How often a thread looks, a millisecond apart, before it has waited in vain.
const TURNS: u32 = 10_000;

/// More signals than are raised, where one failed.
const FAILED: u64 = 1 << 32;

/// How many signals were raised.
#[derive(Drop)]
pub(crate) struct Signals {
    pub(crate) raised: AtomicU64,
    /// Which item a worker holds between its receiving, which is a signal, and its performing, until how many signals.
    pub(crate) held: Option<(Item, u64)>,
}

impl Signals {
    pub(crate) fn raise(&self) {
        self.raised.fetch_add(1, Ordering::SeqCst);
    }

    /// Something is not as it has to be. Nobody waits any more.
    pub(crate) fn fail(&self) {
        self.raised.fetch_add(FAILED, Ordering::SeqCst);
    }

    pub(crate) fn have_failed(&self) -> bool {
        self.raised.load(Ordering::SeqCst) >= FAILED
    }

    /// Waits until something is so.
    pub(crate) fn wait_until<F: FnMut() -> bool>(&self, rt: &impl Wait, mut is_so: F)
        requires { F.IsAlwaysCallable is_so }
    {
        for _ in 0..TURNS {
            if is_so() {
                return;
            }
            AtomicU64::new(0).park_timeout(rt, 0, Duration::from_millis(1));
        }
        self.fail();
    }

    /// Waits until so many signals were raised.
    pub(crate) fn wait_for(&self, rt: &impl Wait, count: u64) {
        self.wait_until(rt, || self.raised.load(Ordering::SeqCst) >= count);
    }
}

impl Gate for Signals {
    fn between(&self, rt: &impl Wait, _worker: Worker, item: Item) {
        if let Some((held, count)) = self.held {
            if item == held {
                self.raise();
                self.wait_for(rt, count);
            }
        }
    }
}

impl Clock for Signals {
    fn moment(&self) -> u64 {
        6
    }
}
