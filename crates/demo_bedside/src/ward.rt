//! What the threads of a ward share.

use crate::caller::{Caller, Fault, path_of};
use crate::figures::Figures;
use crate::plan::{DRIVER_PRIORITY, Length, NURSE_PRIORITY, Plan};
use bench_threads::Latencies;
use qx_pool::{Clock, Gate, ServerOf, UnderLock};
use qx_types::{Device, Item, Manager, Outcome, Proc, Step, Thread, User, Worker};
use std::alloc::{AllocError, Global};
use std::mem;
use std::sync::atomic::{AtomicU64, Ordering};
use std::sync::{Mutex, Wait};
use std::time::{Clock as SystemClock, Duration, Instant};

/// The processes of a well-behaved bed, by their numbers.
pub const DRIVER: u8 = 1;

pub const NURSE: u8 = 2;

/// What goes on in a ward.
#[derive(Clone, Copy, Debug, PartialEq, Eq)]
pub enum Stage {
    /// The bed on trial does nothing.
    Quiet,
    /// It floods.
    Flooded,
    /// The run ends: each nurse leaves once an alarm was silenced.
    Over,
}

/// A well-behaved bed.
#[derive(Drop)]
pub struct Bed {
    pub user: User,
    /// When the driver wrote the tick that raised the last alarm, in nanoseconds since the ward's start.
    pub raised: AtomicU64,
    /// 1 once the nurse has left.
    pub left: AtomicU64,
}

/// What all threads share.
#[derive(Drop)]
pub struct Ward<S: UnderLock> {
    pub server: ServerOf<S>,
    pub plan: Plan,
    pub beds: Vec<Bed>,
    pub serving: Serving,
    /// 0 to 2, as the stages follow each other.
    stage: AtomicU64,
    start: Instant,
    /// How many alarms were silenced.
    silenced: AtomicU64,
    /// Since the figures were taken last: calls of the well-behaved beds, calls of the bed on trial, and the times from a tick to the
    /// silence.
    pub calls: AtomicU64,
    pub flood: AtomicU64,
    answers: Mutex<Latencies>,
}

/// A thread of a process of a user.
pub fn thread(user: User, num: u8) -> Thread {
    Thread {
        proc: Proc { user, num },
        tid: 1,
    }
}

/// The manager of pumps.
pub fn pumps() -> Result<Manager, Fault> {
    match Device::of_word(b"pump") {
        Some(pump) => Ok(Manager::Device(pump)),
        None => Err(Fault::Unexpected),
    }
}

/// Starts the processes of a bed, and attaches its pump.
fn boot_bed<S: UnderLock, R: Wait>(
    rt: &R,
    alloc: Global,
    caller: &mut Caller<'_, S>,
    user: User,
) -> Result<(), Fault> {
    for (num, prio) in [(DRIVER, DRIVER_PRIORITY), (NURSE, NURSE_PRIORITY)] {
        let spawn = Step::Spawn {
            user,
            threads: 1,
            prio,
        };
        if caller.step(rt, spawn)? != Outcome::Spawned(num) {
            return Err(Fault::Unexpected);
        }
    }
    let mount = Step::Mount {
        thread: thread(user, DRIVER),
        path: path_of(alloc, user, "pumps")?,
        manager: pumps()?,
    };
    match caller.step(rt, mount)? {
        Outcome::Done => Ok(()),
        _ => Err(Fault::Unexpected),
    }
}

/// Workers wait for nothing between a receive and its perform, and moments are counted.
#[derive(Drop)]
pub struct Serving(AtomicU64);

impl Gate for Serving {
    fn between(&self, _rt: &impl Wait, _worker: Worker, _item: Item) {}
}

impl Clock for Serving {
    fn moment(&self) -> u64 {
        self.0.fetch_add(1, Ordering::SeqCst)
    }
}

impl<S: UnderLock> Ward<S> {
    pub fn new(
        alloc: Global,
        server: ServerOf<S>,
        plan: Plan,
        start: Instant,
    ) -> Result<Ward<S>, AllocError> {
        let mut beds = Vec::new(alloc);
        for number in 1..plan.beds {
            beds.push(Bed {
                user: User(number),
                raised: AtomicU64::new(0),
                left: AtomicU64::new(0),
            })?;
        }
        Ok(Ward {
            server,
            plan,
            beds,
            serving: Serving(AtomicU64::new(1)),
            stage: AtomicU64::new(0),
            start,
            silenced: AtomicU64::new(0),
            calls: AtomicU64::new(0),
            flood: AtomicU64::new(0),
            answers: Mutex::new(Latencies::new()),
        })
    }

    /// Starts the processes of each well-behaved bed, its driver's and its nurse's, and attaches its pump.
    pub fn boot<R: Wait>(
        &self,
        rt: &R,
        alloc: Global,
        seat: S::Seat,
    ) -> (S::Seat, Result<(), Fault>) {
        let mut caller = Caller::new(alloc, self, &self.calls, seat, User(1), DRIVER);
        let mut booted = Ok(());
        for bed in &self.beds {
            if booted.is_ok() {
                booted = boot_bed(rt, alloc, &mut caller, bed.user);
            }
        }
        (caller.into_seat(), booted)
    }

    /// What goes on.
    pub fn stage(&self) -> Stage {
        match self.stage.load(Ordering::SeqCst) {
            0 => Stage::Quiet,
            1 => Stage::Flooded,
            _ => Stage::Over,
        }
    }

    /// The bed on trial begins to flood, unless all is over.
    pub fn begin_flood(&self) {
        let _was = self
            .stage
            .compare_exchange(0, 1, Ordering::SeqCst, Ordering::SeqCst);
        self.stage.wake_all();
    }

    /// The run ends.
    pub fn end(&self) {
        self.stage.store(2, Ordering::SeqCst);
        self.stage.wake_all();
    }

    /// Waits while the bed on trial does nothing.
    pub fn wait_for_flood<R: Wait>(&self, rt: &R) {
        for _ in rt.forever() {
            if self.stage() != Stage::Quiet {
                break;
            }
            self.stage.park_timeout(rt, 0, Duration::from_millis(10));
        }
    }

    /// Ends all, as a thread can't go on.
    pub fn give_up(&self, rt: &impl Wait) {
        self.end();
        self.server.stop(rt);
    }

    /// Nanoseconds since the ward's start.
    pub fn nanos(&self, rt: &impl SystemClock) -> Result<u64, Fault> {
        match self.start.elapsed(rt) {
            Ok(time) => Ok(time.as_nanos().min(u128::from(u64::MAX)) as u64),
            Err(_) => Err(Fault::Clock),
        }
    }

    /// The alarm of a bed was silenced now.
    pub fn add_answer<R: Wait + SystemClock>(&self, rt: &R, bed: &Bed) -> Result<(), Fault> {
        let nanos = self
            .nanos(rt)?
            .saturating_sub(bed.raised.load(Ordering::SeqCst));
        self.answers.lock(rt).add(u128::from(nanos));
        self.silenced.fetch_add(1, Ordering::SeqCst);
        Ok(())
    }

    /// How many alarms were silenced.
    pub fn silenced(&self) -> u64 {
        self.silenced.load(Ordering::SeqCst)
    }

    /// Whether a nurse who has silenced so many alarms goes on.
    pub fn goes_on<R: Wait>(&self, rt: &R, silenced: u64) -> bool {
        if let Length::Counted { alarms, .. } = self.plan.length {
            if silenced == alarms {
                self.wait_for_flood(rt);
            }
            if silenced >= alarms.saturating_mul(2) {
                return false;
            }
        }
        self.stage() != Stage::Over
    }

    /// What came since this was asked last.
    pub fn take_figures<R: Wait>(&self, rt: &R, nanos: u64) -> Figures {
        let mut answers = self.answers.lock(rt);
        Figures {
            nanos,
            calls: self.calls.swap(0, Ordering::SeqCst),
            flood: self.flood.swap(0, Ordering::SeqCst),
            answers: mem::replace(&mut *answers, Latencies::new()),
        }
    }
}
