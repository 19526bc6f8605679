//! Rounds of two threads and a lock, and of a world and no lock, to compare a call with.

use anyhow::{bail, ensure};
use qx_running::Running;
use qx_types::{
    Bytes, Coid, Config, Manager, OFlags, Outcome, Prio, Proc, Request, Step, Thread, User, Worker,
};
use qx_world::World;
use std::alloc::{AllocError, Global};
use std::sync::{Condvar, Mutex, Wait};
use std::thread;
use std::thread::Threads;
use std::time::{Clock, Instant};

/// Where two threads meet: a lock, and for each a place to sleep until it is asked or answered.
#[derive(Drop)]
struct Meeting {
    is_asked: Mutex<bool>,
    asked: Condvar,
    answered: Condvar,
}

/// One thread asks and waits until it is answered, so many times, and another answers. The nanoseconds that all rounds take.
pub fn time_two<R: Threads + Wait + Clock + Sync>(rt: &R, rounds: u32) -> anyhow::Result<u128> {
    let meeting = Meeting {
        is_asked: Mutex::new(false),
        asked: Condvar::new(),
        answered: Condvar::new(),
    };
    let start = Instant::now(rt)?;
    meeting.hold(rt, rounds)?;
    Ok(start.elapsed(rt)?.as_nanos())
}

impl Meeting {
    /// Asks, while another thread answers.
    fn hold<R: Threads + Wait + Sync>(&self, rt: &R, rounds: u32) -> Result<(), AllocError> {
        thread::scope(thread::scope_env(), rt, |scope| -> Result<(), AllocError> {
            let _answering = scope.spawn(move || self.answer(rt, rounds))?;
            self.ask(rt, rounds);
            Ok(())
        })
    }

    fn ask<R: Wait>(&self, rt: &R, rounds: u32) {
        let mut guard = self.is_asked.lock(rt);
        for _ in 0..rounds {
            *guard = true;
            drop(guard);
            self.asked.notify_one();
            guard = self
                .answered
                .wait_while(rt, self.is_asked.lock(rt), |is_asked| *is_asked);
        }
    }

    fn answer<R: Wait>(&self, rt: &R, rounds: u32) {
        for _ in 0..rounds {
            let mut guard = self
                .asked
                .wait_while(rt, self.is_asked.lock(rt), |is_asked| !*is_asked);
            *guard = false;
            drop(guard);
            self.answered.notify_one();
        }
    }
}

/// A call for its status of one client and one worker, from the call to the taking of its answer, so many times, as under a service's
/// lock but with no other thread. The nanoseconds that all rounds take.
pub fn time_world<R: Clock>(
    rt: &R,
    alloc: Global,
    config: Config,
    rounds: u32,
) -> anyhow::Result<u128> {
    let Ok(world) = World::new(alloc, config) else {
        bail!("out of memory");
    };
    let Ok(mut running) = Running::new(alloc, world, 0) else {
        bail!("out of memory");
    };
    let proc = Proc {
        user: User(1),
        num: 1,
    };
    let thread = Thread { proc, tid: 1 };
    let spawn = Step::Spawn {
        user: proc.user,
        threads: 1,
        prio: Prio(1),
    };
    take(&mut running, spawn)?;
    let top = Request::OpenPath {
        flags: OFlags::READ,
        mode: 0,
        path: Bytes::from_slice(alloc, b"/user1")?,
    };
    round(&mut running, thread, top)?;
    let start = Instant::now(rt)?;
    for _ in 0..rounds {
        round(&mut running, thread, Request::Fstat { coid: Coid(3) })?;
    }
    Ok(start.elapsed(rt)?.as_nanos())
}

/// A call, and the steps that serve it.
fn round(running: &mut Running, thread: Thread, request: Request) -> anyhow::Result<()> {
    let (worker, manager, moment) = (Worker(1), Manager::Ram, 6);
    take(running, Step::Call { thread, request })?;
    take(running, Step::Receive { worker, manager })?;
    take(running, Step::Perform { worker, moment })?;
    let end = take(running, Step::TakeReply { thread })?;
    ensure!(matches!(end, Outcome::Reply(..)), "a call failed");
    Ok(())
}

fn take(running: &mut Running, step: Step) -> anyhow::Result<Outcome> {
    match running.take(step) {
        Ok(outcome) => Ok(outcome),
        Err(_) => bail!("out of memory"),
    }
}
