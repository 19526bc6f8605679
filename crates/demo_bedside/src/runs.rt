//! A run of a ward, over a pool and over a service.

ghost use Rattle.std.specs.Prelude.{◌≡◌, ◌+◌};

use crate::caller::Fault;
use crate::crew::{Left, run_threads};
use crate::figures::Halves;
use crate::plan::Plan;
use crate::ward::Ward;
use anyhow::{Context, bail};
use qx_pool::{FinishFault, Server, ServerOf, Service, UnderLock, finish};
use qx_types::Config;
use qx_world::{Traced, World};
use std::alloc::Global;
use std::marker::Brand;
use std::sync::Wait;
use std::sync::ledger::{Blank, Ledger};
use std::thread::Threads;
use std::time::{Clock, Instant};

/// What a run came to: its figures, and how many alarms each well-behaved bed's nurse silenced.
#[derive(Drop)]
pub struct Run<E: Drop> {
    pub end: E,
    pub halves: Halves,
    pub silenced: Vec<u64>,
}

/// Runs a ward over a server whose steps are stored. It comes to the trace.
pub fn run_pool<R: Threads + Wait + Clock + Print + Sync>(
    rt: &R,
    alloc: Global,
    plan: Plan,
) -> anyhow::Result<Run<Traced>> {
    let config = plan.config(alloc)?;
    let callers = plan.callers();
    let seats = Blank::new(u64::from(config.workers()) + callers as u64);
    run_branded::<Brand, R>(rt, alloc, seats, config, callers, plan)
}

/// The same, with a ledger that has as many parts as there are seats.
fn run_branded<L: Ledger + Send + Sync, R: Threads + Wait + Clock + Print + Sync>(
    rt: &R,
    alloc: Global,
    blank: Blank,
    config: Config,
    callers: usize,
    plan: Plan,
) -> anyhow::Result<Run<Traced>>
    requires name { blank.name ≡ L.name }
    requires parts { blank.parts ≡ L.parts }
    requires seats { blank.parts ≡ config.workers + callers }
{
    let Ok((server, seats)) = Server::<L>::new(alloc, blank, config, callers) else {
        bail!("out of memory");
    };
    let (server, seats, run) = run_server(rt, alloc, server, seats, plan)?;
    match finish(server, seats) {
        Ok(traced) => Ok(run.with(traced)),
        Err(FinishFault::Missing(..)) => bail!("a seat did not come back"),
        Err(FinishFault::Disagrees(..)) => bail!("what was noted is not what was stored"),
    }
}

/// Runs a ward over a service, of whose steps none is recorded.
pub fn run_service<R: Threads + Wait + Clock + Print + Sync>(
    rt: &R,
    alloc: Global,
    plan: Plan,
) -> anyhow::Result<Run<()>> {
    let config = plan.config(alloc)?;
    let workers = config.workers();
    let Ok(world) = World::new(alloc, config) else {
        bail!("out of memory");
    };
    let Ok(service) = Service::new(alloc, world, 0) else {
        bail!("out of memory");
    };
    let mut seats = Vec::new(alloc);
    for _ in 0..usize::from(workers).saturating_add(plan.callers()) {
        seats.push(())?;
    }
    let (_service, _seats, run) = run_server(rt, alloc, service, seats, plan)?;
    Ok(run)
}

impl<E: Drop> Run<E> {
    /// The same, that came to this.
    fn with<F: Drop>(self, end: F) -> Run<F> {
        let Run {
            end: _,
            halves,
            silenced,
        } = self;
        Run {
            end,
            halves,
            silenced,
        }
    }
}

/// Runs a ward over a server of either kind, and gives it back with all its seats.
fn run_server<S: UnderLock + Send, R: Threads + Wait + Clock + Print + Sync>(
    rt: &R,
    alloc: Global,
    server: ServerOf<S>,
    seats: Vec<S::Seat>,
    plan: Plan,
) -> anyhow::Result<(ServerOf<S>, Vec<S::Seat>, Run<()>)>
where
    S::Seat: Send,
{
    let ward = Ward::new(alloc, server, plan, Instant::now(rt)?)?;
    let mut seats = seats;
    let seat = seats.pop().context("too few seats")?;
    let (seat, booted) = ward.boot(rt, alloc, seat);
    booted?;
    seats.push(seat)?;
    let (mut seats, left, halves) = run_threads(rt, alloc, &ward, seats)?;
    let mut silenced = Vec::new(alloc);
    let mut went = Ok(());
    for left in left {
        let Left {
            seat,
            went: end,
            silenced: count,
        } = left;
        seats.push(seat)?;
        if let Some(count) = count {
            silenced.push(count)?;
        }
        // what a thread gave up for tells more than that others were stopped
        if went.is_ok() || (went == Err(Fault::Stopped) && end.is_err()) {
            went = end;
        }
    }
    went?;
    let Ward { server, .. } = ward;
    let run = Run {
        end: (),
        halves,
        silenced,
    };
    Ok((server, seats, run))
}
