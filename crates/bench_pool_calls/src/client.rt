//! What a client does, and what the driver does.

ghost use Rattle.std.specs.Prelude.{◌≡◌, true};
ghost use Rattle.qx_types.specs.Step.{is_client_step};

use crate::answers::Told;
use crate::calls::{next_request, next_step, path_of};
use crate::dice::Dice;
use bench_threads::Latencies;
use qx_pool::{CallEnd, ClientOf, ServerOf, StepFault, UnderLock};
use qx_types::{Coid, Manager, NoMemory, OFlags, Outcome, Prio, Proc, Request, Step, Thread, User};
use std::alloc::Global;
use std::sync::Wait;
use std::sync::atomic::{AtomicU64, Ordering};
use std::thread;
use std::time::{Clock, Duration, Instant};

/// Which calls a client makes.
#[derive(Clone, Copy)]
pub enum Calls {
    /// Pseudo-random ones, with steps of other kinds between them.
    Any { seed: u64 },
    /// An open of the user's top, and then that it be told its status; each call is timed, or they are all together.
    Status { each: bool },
}

/// What a client is to do: which of all clients it is, its user, who has so many, and the number and kind of its calls.
#[derive(Clone, Copy)]
pub struct Part {
    pub number: u16,
    pub user: User,
    pub clients: u8,
    pub calls: u32,
    pub kind: Calls,
}

/// A client at the end: its seat, what it was told, how many calls it made, how many nanoseconds they took, and each of them.
#[derive(Drop)]
pub struct Played<S: UnderLock> {
    pub seat: S::Seat,
    pub told: Told,
    pub calls: u32,
    pub nanos: u128,
    pub times: Latencies,
}

/// What a client knows.
#[derive(Drop)]
struct Player<'s, S: UnderLock> {
    alloc: Global,
    server: &'s ServerOf<S>,
    part: Part,
    /// The first thread of the process that it started last, which may have ended meanwhile.
    thread: Thread,
    /// The connection that it was given last.
    last: Coid,
    dice: Dice,
    told: Told,
    calls: u32,
    times: Latencies,
}

/// The first thread of a process.
fn first_thread(user: User, num: u8) -> Thread {
    Thread {
        proc: Proc { user, num },
        tid: 1,
    }
}

/// Makes the calls of a part. Where a call finds no process, or its thread not ready, the client starts a process anew, and
/// calls as that one's thread. It makes fewer calls only where memory is short or the server was stopped.
pub fn play<S: UnderLock, R: Wait + Clock>(
    rt: &R,
    alloc: Global,
    server: &ServerOf<S>,
    seat: S::Seat,
    part: Part,
) -> Played<S> {
    let start = Instant::now(rt);
    let seed = match part.kind {
        Calls::Any { seed } => seed,
        Calls::Status { .. } => 0,
    };
    let mut player = Player {
        alloc,
        server,
        part,
        thread: first_thread(part.user, 1),
        last: Coid(3),
        dice: Dice::new(seed),
        told: Told::new(),
        calls: 0,
        times: Latencies::new(),
    };
    let mut client = ClientOf::<S>::new(seat, player.thread);
    let mut is_there = false;
    for _ in 0..part.calls {
        if !is_there {
            if player.start(rt, &mut client).is_err() {
                break;
            }
            client = ClientOf::<S>::new(client.into_seat(), player.thread);
        }
        match player.turn(rt, &mut client) {
            Ok(found) => is_there = found,
            Err(_) => break,
        }
    }
    Played {
        seat: client.into_seat(),
        told: player.told,
        calls: player.calls,
        nanos: start.map_or(0, |start| nanos_since(rt, start)),
        times: player.times,
    }
}

/// The nanoseconds since then; 0 where the clock fails.
fn nanos_since(rt: &impl Clock, start: Instant) -> u128 {
    match start.elapsed(rt) {
        Ok(time) => time.as_nanos(),
        Err(_) => 0,
    }
}

impl<S: UnderLock> Player<'_, S> {
    /// Starts a process, and mounts the pipe manager, if the user has not. Where there can be no further process, others run.
    fn start<R: Wait>(&mut self, rt: &R, client: &mut ClientOf<S>) -> Result<(), NoMemory> {
        let user = self.part.user;
        let spawn = Step::Spawn {
            user,
            threads: 1 + self.dice.below(4),
            prio: Prio(1 + self.dice.below(63)),
        };
        let Outcome::Spawned(num) = self.take(rt, client, spawn)? else {
            thread::yield_now();
            return Ok(());
        };
        self.thread = first_thread(user, num);
        let mount = Step::Mount {
            thread: self.thread,
            path: path_of(self.alloc, user, "/p")?,
            manager: Manager::Pipe,
        };
        self.take(rt, client, mount)?;
        Ok(())
    }

    /// Makes a call, and takes another step before it now and then. Whether the call found its process, and its thread ready.
    fn turn<R: Wait + Clock>(
        &mut self,
        rt: &R,
        client: &mut ClientOf<S>,
    ) -> Result<bool, NoMemory> {
        let request = match self.part.kind {
            Calls::Any { .. } => {
                self.step(rt, client)?;
                next_request(self.alloc, &mut self.dice, self.part.user, self.last)?
            }
            Calls::Status { .. } if self.calls == 0 => Request::OpenPath {
                path: path_of(self.alloc, self.part.user, "")?,
                flags: OFlags::READ,
                mode: 0,
            },
            Calls::Status { .. } => Request::Fstat { coid: self.last },
        };
        let attaches = matches!(request, Request::OpenPath { .. } | Request::Dup { .. });
        let start = match self.part.kind {
            Calls::Status { each: true } => Instant::now(rt).ok(),
            _ => None,
        };
        let end = client.call(rt, self.server, request);
        if let Some(start) = start {
            self.times.add(nanos_since(rt, start));
        }
        if matches!(end, CallEnd::Stopped(_) | CallEnd::NoMemory) {
            return Err(NoMemory);
        }
        self.told.end(&end);
        self.calls = self.calls.saturating_add(1);
        if end == CallEnd::WrongState {
            return Ok(false);
        }
        if let CallEnd::Reply(coid, _) = end {
            if attaches {
                self.last = Coid(coid.min(66) as u8);
            }
        }
        Ok(true)
    }

    /// Takes another step now and then.
    fn step<R: Wait>(&mut self, rt: &R, client: &mut ClientOf<S>) -> Result<(), NoMemory> {
        if self.dice.one_in(8) {
            let clients = self.part.clients;
            let step = next_step(self.alloc, &mut self.dice, self.thread, clients)?;
            self.take(rt, client, step)?;
        }
        Ok(())
    }

    /// Takes a step beside calls, and keeps what it gave.
    fn take<R: Wait>(
        &mut self,
        rt: &R,
        client: &mut ClientOf<S>,
        step: Step,
    ) -> Result<Outcome, NoMemory>
        requires { is_client_step step ≡ true }
    {
        let Ok(outcome) = client.step(rt, self.server, step) else {
            return Err(NoMemory);
        };
        self.told.outcome(&outcome);
        Ok(outcome)
    }
}

/// Interrupts the first threads of all processes of these users, over and over, so that no call waits for ever: in each
/// millisecond those of one number. It ends once all is over or the server was stopped, or stops the server where memory is short.
pub fn drive<S: UnderLock, R: Wait>(
    rt: &R,
    server: &ServerOf<S>,
    seat: S::Seat,
    users: u8,
    over: &AtomicU64,
) -> S::Seat {
    let mut client = ClientOf::<S>::new(seat, first_thread(User(1), 1));
    let mut num: u8 = 0;
    for _ in rt.forever() {
        over.park_timeout(rt, 0, Duration::from_millis(1));
        if over.load(Ordering::SeqCst) != 0 {
            break;
        }
        num = num % 16 + 1;
        for user in 1..=users {
            let thread = first_thread(User(user), num);
            match client.step(rt, server, Step::Interrupt { thread }) {
                Ok(_) => {}
                Err(StepFault::Stopped(..)) => return client.into_seat(),
                Err(StepFault::NoMemory(_)) => {
                    server.stop(rt);
                    return client.into_seat();
                }
            }
        }
    }
    client.into_seat()
}
