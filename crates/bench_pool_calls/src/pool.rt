//! A server and its threads, from their start to their end.

ghost use Rattle.std.specs.Prelude.{◌≡◌, ◌+◌};

use crate::answers::Told;
use crate::client::{Part, Played, drive, play};
use crate::serving::{Counting, Yielding};
use anyhow::{Context, bail, ensure};
use bench_threads::{Latencies, joined, named};
use qx_pool::{
    Event, FinishFault, OfRun, Opened, Server, ServerOf, Service, TiedService, UnderLock, finish,
    worker_loop,
};
use qx_types::{Config, Worker};
use qx_world::{Traced, World};
use std::alloc::Global;
use std::marker::Brand;
use std::sync::Wait;
use std::sync::atomic::{AtomicU64, Ordering};
use std::sync::ledger::{Blank, Ledger};
use std::thread;
use std::thread::{JoinHandle, Scope, Threads};
use std::time::Clock;

/// What a run came to, how many calls were made, the nanoseconds that the slowest client took for its own, and how long calls
/// took.
#[derive(Drop)]
pub struct Run<E: Drop> {
    pub end: E,
    pub calls: u64,
    pub nanos: u128,
    pub times: Latencies,
}

/// What all threads share.
#[derive(Drop)]
struct Pool<S: UnderLock> {
    server: ServerOf<S>,
    workers: u8,
    /// Of so many users the calls are interrupted. With none calls are timed, and workers let no other thread run.
    interrupted: u8,
    gate: Yielding,
    clock: Counting,
    /// 1 once all clients are done.
    over: AtomicU64,
}

/// The threads that were started: the workers and the driver, and the clients.
#[derive(Drop)]
struct Crew<S: UnderLock> {
    servants: Vec<JoinHandle<S::Seat>>,
    clients: Vec<JoinHandle<Played<S>>>,
}

/// Runs a server whose steps are stored, with a thread for each worker, one for the driver and one for each client's part, until
/// all clients are done. It comes to the trace.
pub fn run_pool<R: Threads + Wait + Clock + Sync>(
    rt: &R,
    alloc: Global,
    config: Config,
    interrupted: u8,
    parts: &[Part],
) -> anyhow::Result<Run<Traced>> {
    // the driver's seat is a client's too
    let clients = parts.len() + 1;
    let seats = Blank::new(u64::from(config.workers()) + clients as u64);
    run_branded::<Brand, R>(rt, alloc, seats, config, clients, interrupted, parts)
}

/// The same, with a ledger that has as many parts as there are seats.
fn run_branded<L: Ledger + Send + Sync, R: Threads + Wait + Clock + Sync>(
    rt: &R,
    alloc: Global,
    blank: Blank,
    config: Config,
    clients: usize,
    interrupted: u8,
    parts: &[Part],
) -> anyhow::Result<Run<Traced>>
    requires name { blank.name ≡ L.name }
    requires parts { blank.parts ≡ L.parts }
    requires seats { blank.parts ≡ config.workers + clients }
{
    let workers = config.workers();
    let Ok((server, seats)) = Server::<L>::new(alloc, blank, config, clients) else {
        bail!("out of memory");
    };
    let pool = Pool::new(server, workers, interrupted);
    let (mut seats, played) = run_threads(rt, alloc, &pool, seats, parts)?;
    let mut all = Run::new(());
    for played in played {
        all.add(&played);
        let Played { seat, told, .. } = played;
        ensure!(
            told == Told::by_notes(seat.notes()),
            "a client was told something else than its notes say"
        );
        seats.push(seat)?;
    }
    let Pool { server, .. } = pool;
    match finish(server, seats) {
        Ok(traced) => Ok(all.with(traced)),
        Err(FinishFault::Missing(..)) => bail!("a seat did not come back"),
        Err(FinishFault::Disagrees(..)) => bail!("what was noted is not what was stored"),
    }
}

/// Runs a service the same way, with room for so many steps in its flight recorder. It comes to how many of these are there at the
/// end, one behind the other.
pub fn run_service<R: Threads + Wait + Clock + Sync>(
    rt: &R,
    alloc: Global,
    config: Config,
    interrupted: u8,
    parts: &[Part],
    room: usize,
) -> anyhow::Result<Run<usize>> {
    let workers = config.workers();
    let Ok(world) = World::new(alloc, config) else {
        bail!("out of memory");
    };
    let Ok(service) = Service::new(alloc, world, room) else {
        bail!("out of memory");
    };
    let mut seats = Vec::new(alloc);
    for _ in 0..usize::from(workers).saturating_add(parts.len() + 1) {
        seats.push(())?;
    }
    let pool = Pool::new(service, workers, interrupted);
    let (_seats, played) = run_threads(rt, alloc, &pool, seats, parts)?;
    let mut all = Run::new(());
    for played in &played {
        all.add(played);
    }
    let mut recorded: usize = 0;
    let mut next: u64 = 0;
    for _ in rt.forever() {
        let piece = pool.server.look(rt).under().recent(next)?;
        if piece.steps.is_empty() {
            break;
        }
        ensure!(next == 0 || piece.first == next, "a step is not recorded");
        recorded = recorded.saturating_add(piece.steps.len());
        next = piece.first.saturating_add(piece.steps.len() as u64);
    }
    Ok(all.with(recorded))
}

/// Runs a service at whose seats it is known what was done there, with room for so many steps in its flight recorder. It comes to
/// how many seats know all of that at the end.
pub fn run_tied<R: Threads + Wait + Clock + Sync>(
    rt: &R,
    alloc: Global,
    config: Config,
    interrupted: u8,
    parts: &[Part],
    room: usize,
) -> anyhow::Result<Run<usize>> {
    let workers = config.workers();
    let Ok(world) = World::new(alloc, config) else {
        bail!("out of memory");
    };
    let opened = Opened::new();
    run_at_seats::<Brand, R>(rt, alloc, opened, world, workers, interrupted, parts, room)
}

/// The same, of a run whose list is a new one.
fn run_at_seats<J: OfRun + Send + Sync, R: Threads + Wait + Clock + Sync>(
    rt: &R,
    alloc: Global,
    opened: Opened<Event>,
    world: World,
    workers: u8,
    interrupted: u8,
    parts: &[Part],
    room: usize,
) -> anyhow::Result<Run<usize>>
    requires list { opened.seen.book ≡ J.book }
    requires began { world ≡ J.began }
{
    let count = usize::from(workers).saturating_add(parts.len() + 1);
    let Ok((service, seats)) = TiedService::<J>::new(alloc, opened, world, room, count) else {
        bail!("out of memory");
    };
    let pool = Pool::new(service, workers, interrupted);
    let (mut seats, played) = run_threads(rt, alloc, &pool, seats, parts)?;
    let mut all = Run::new(());
    for played in played {
        all.add(&played);
        let Played { seat, .. } = played;
        seats.push(seat)?;
    }
    let mut known: usize = 0;
    let Pool { server, .. } = pool;
    let tied = server.into_under();
    for seat in &seats {
        known = known.saturating_add(usize::from(tied.holds(seat)));
    }
    let piece = tied.recent(0)?;
    ensure!(room == 0 || !piece.steps.is_empty(), "no step is recorded");
    let world = tied.into_world();
    ensure!(world.next_manager().is_none(), "an item stands in a line");
    Ok(all.with(known))
}

impl<E: Drop> Run<E> {
    /// No call was made.
    fn new(end: E) -> Run<E> {
        Run {
            end,
            calls: 0,
            nanos: 0,
            times: Latencies::new(),
        }
    }

    /// A client's calls were made too.
    fn add<S: UnderLock>(&mut self, played: &Played<S>) {
        self.calls = self.calls.saturating_add(u64::from(played.calls));
        self.nanos = self.nanos.max(played.nanos);
        self.times.merge(&played.times);
    }

    /// How many calls a second were answered.
    pub fn rate(&self) -> u128 {
        u128::from(self.calls) * 1_000_000_000 / self.nanos.max(1)
    }

    /// The same, that came to this.
    fn with<F: Drop>(self, end: F) -> Run<F> {
        let Run {
            end: _,
            calls,
            nanos,
            times,
        } = self;
        Run {
            end,
            calls,
            nanos,
            times,
        }
    }
}

impl<S: UnderLock> Pool<S> {
    fn new(server: ServerOf<S>, workers: u8, interrupted: u8) -> Pool<S> {
        Pool {
            server,
            workers,
            interrupted,
            gate: Yielding::new(interrupted > 0),
            clock: Counting(AtomicU64::new(1)),
            over: AtomicU64::new(0),
        }
    }
}

/// Runs all threads. A scope lets them borrow the pool.
fn run_threads<S: UnderLock + Send, R: Threads + Wait + Clock + Sync>(
    rt: &R,
    alloc: Global,
    pool: &Pool<S>,
    seats: Vec<S::Seat>,
    parts: &[Part],
) -> anyhow::Result<(Vec<S::Seat>, Vec<Played<S>>)>
where
    S::Seat: Send,
{
    thread::scope(thread::scope_env(), rt, |scope| {
        Crew::run(rt, alloc, scope, pool, seats, parts)
    })
}

impl<S: UnderLock + Send> Crew<S>
where
    S::Seat: Send,
{
    /// Starts all threads, waits for the clients, stops the server, and waits for the others.
    fn run<'s, E, R: Threads + Wait + Clock + Sync>(
        rt: &'s R,
        alloc: Global,
        scope: &Scope<'s, E>,
        pool: &'s Pool<S>,
        seats: Vec<S::Seat>,
        parts: &[Part],
    ) -> anyhow::Result<(Vec<S::Seat>, Vec<Played<S>>)> {
        let mut crew = Crew {
            servants: Vec::new(alloc),
            clients: Vec::new(alloc),
        };
        let started = crew.start(rt, alloc, scope, pool, seats, parts);
        let Crew { servants, clients } = crew;
        let played = joined(rt, alloc, clients);
        pool.over.store(1, Ordering::SeqCst);
        pool.server.stop(rt);
        let seats = joined(rt, alloc, servants);
        started?;
        Ok((seats?, played?))
    }

    /// Starts the workers and the driver, and then the clients, so that each call that is made is served.
    fn start<'s, E, R: Threads + Wait + Clock + Sync>(
        &mut self,
        rt: &'s R,
        alloc: Global,
        scope: &Scope<'s, E>,
        pool: &'s Pool<S>,
        seats: Vec<S::Seat>,
        parts: &[Part],
    ) -> anyhow::Result<()> {
        let server = &pool.server;
        let mut seats = seats.into_iter();
        for number in 1..=pool.workers {
            let (gate, clock) = (&pool.gate, &pool.clock);
            let seat = seats.next().context("too few seats")?;
            let work = move || worker_loop(rt, server, seat, Worker(number), gate, clock);
            let worker = named(alloc, "worker", number.into())?.spawn_scoped(scope, work)?;
            self.servants.push(worker)?;
        }
        let seat = seats.next().context("too few seats")?;
        let drive = move || drive(rt, server, seat, pool.interrupted, &pool.over);
        let driver = named(alloc, "driver", 1)?.spawn_scoped(scope, drive)?;
        self.servants.push(driver)?;
        for part in parts {
            let part = *part;
            let seat = seats.next().context("too few seats")?;
            let play = move || play(rt, alloc, server, seat, part);
            let client = named(alloc, "client", part.number)?.spawn_scoped(scope, play)?;
            self.clients.push(client)?;
        }
        Ok(())
    }
}
