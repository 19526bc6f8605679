//! A ward's threads, from their start to their end.

use crate::caller::{Caller, Fault};
use crate::driver::drive;
use crate::figures::{Halves, lead};
use crate::flood::{FLOODERS, flood};
use crate::nurse::watch;
use crate::ward::{Bed, DRIVER, NURSE, Ward};
use anyhow::Context;
use bench_threads::{joined, named};
use qx_pool::{UnderLock, worker_loop};
use qx_types::Worker;
use std::alloc::Global;
use std::sync::Wait;
use std::sync::atomic::Ordering;
use std::thread;
use std::thread::{JoinHandle, Scope, Threads};
use std::time::Clock;

/// A thread of a bed at its end: its seat, how it went, and, of a nurse, how many alarms it silenced.
#[derive(Drop)]
pub struct Left<S: UnderLock> {
    pub seat: S::Seat,
    pub went: Result<(), Fault>,
    pub silenced: Option<u64>,
}

/// The threads that were started: workers, and those of beds.
#[derive(Drop)]
struct Crew<S: UnderLock> {
    workers: Vec<JoinHandle<S::Seat>>,
    callers: Vec<JoinHandle<Left<S>>>,
}

/// Runs all threads. A scope lets them borrow the ward.
pub fn run_threads<S: UnderLock + Send, R: Threads + Wait + Clock + Print + Sync>(
    rt: &R,
    alloc: Global,
    ward: &Ward<S>,
    seats: Vec<S::Seat>,
) -> anyhow::Result<(Vec<S::Seat>, Vec<Left<S>>, Halves)>
where
    S::Seat: Send,
{
    thread::scope(thread::scope_env(), rt, |scope| {
        Crew::run(rt, alloc, scope, ward, seats)
    })
}

impl<S: UnderLock + Send> Crew<S>
where
    S::Seat: Send,
{
    /// Starts all threads, leads the run, waits for the threads of beds, stops the server, and waits for the workers.
    fn run<'s, E, R: Threads + Wait + Clock + Print + Sync>(
        rt: &'s R,
        alloc: Global,
        scope: &Scope<'s, E>,
        ward: &'s Ward<S>,
        seats: Vec<S::Seat>,
    ) -> anyhow::Result<(Vec<S::Seat>, Vec<Left<S>>, Halves)> {
        let mut crew = Crew {
            workers: Vec::new(alloc),
            callers: Vec::new(alloc),
        };
        let started = crew.start(rt, alloc, scope, ward, seats);
        if started.is_err() {
            ward.give_up(rt);
        }
        let Crew { workers, callers } = crew;
        let halves = lead(rt, ward);
        ward.end();
        let left = joined(rt, alloc, callers);
        ward.server.stop(rt);
        let seats = joined(rt, alloc, workers);
        started?;
        Ok((seats?, left?, halves?))
    }

    /// Starts the workers, and then the threads of beds, so that each call that is made is served.
    fn start<'s, E, R: Threads + Wait + Clock + Sync>(
        &mut self,
        rt: &'s R,
        alloc: Global,
        scope: &Scope<'s, E>,
        ward: &'s Ward<S>,
        seats: Vec<S::Seat>,
    ) -> anyhow::Result<()> {
        let mut seats = seats.into_iter();
        for number in 1..=ward.plan.workers {
            let (server, serving) = (&ward.server, &ward.serving);
            let seat = seats.next().context("too few seats")?;
            let work = move || worker_loop(rt, server, seat, Worker(number), serving, serving);
            let worker = named(alloc, "worker", number.into())?.spawn_scoped(scope, work)?;
            self.workers.push(worker)?;
        }
        for bed in &ward.beds {
            let seat = seats.next().context("too few seats")?;
            let drive = move || drive_bed(rt, alloc, ward, bed, seat);
            let driver = named(alloc, "driver", bed.user.0.into())?.spawn_scoped(scope, drive)?;
            self.callers.push(driver)?;
            let seat = seats.next().context("too few seats")?;
            let watch = move || watch_bed(rt, alloc, ward, bed, seat);
            let nurse = named(alloc, "nurse", bed.user.0.into())?.spawn_scoped(scope, watch)?;
            self.callers.push(nurse)?;
        }
        for number in 1..=FLOODERS {
            let seat = seats.next().context("too few seats")?;
            let flood = move || flood_ward(rt, alloc, ward, seat);
            let flooder = named(alloc, "flood", number.into())?.spawn_scoped(scope, flood)?;
            self.callers.push(flooder)?;
        }
        Ok(())
    }
}

/// What a bed's driver does.
fn drive_bed<S: UnderLock, R: Wait + Clock>(
    rt: &R,
    alloc: Global,
    ward: &Ward<S>,
    bed: &Bed,
    seat: S::Seat,
) -> Left<S> {
    let mut caller = Caller::new(alloc, ward, &ward.calls, seat, bed.user, DRIVER);
    let went = drive(rt, ward, bed, &mut caller);
    Left::of(rt, ward, caller, went, None)
}

/// What a bed's nurse does.
fn watch_bed<S: UnderLock, R: Wait + Clock>(
    rt: &R,
    alloc: Global,
    ward: &Ward<S>,
    bed: &Bed,
    seat: S::Seat,
) -> Left<S> {
    let mut caller = Caller::new(alloc, ward, &ward.calls, seat, bed.user, NURSE);
    let mut silenced = 0;
    let went = watch(rt, ward, bed, &mut caller, &mut silenced);
    bed.left.store(1, Ordering::SeqCst);
    Left::of(rt, ward, caller, went, Some(silenced))
}

/// What a thread of the bed on trial does.
fn flood_ward<S: UnderLock, R: Wait + Clock>(
    rt: &R,
    alloc: Global,
    ward: &Ward<S>,
    seat: S::Seat,
) -> Left<S> {
    let caller = Caller::new(alloc, ward, &ward.flood, seat, ward.plan.trial(), 1);
    let (caller, went) = flood(rt, alloc, ward, caller);
    Left::of(rt, ward, caller, went, None)
}

impl<S: UnderLock> Left<S> {
    /// A thread leaves. Where it can't go on, all others end.
    fn of<R: Wait>(
        rt: &R,
        ward: &Ward<S>,
        caller: Caller<'_, S>,
        went: Result<(), Fault>,
        silenced: Option<u64>,
    ) -> Left<S> {
        if went.is_err() {
            ward.give_up(rt);
        }
        Left {
            seat: caller.into_seat(),
            went,
            silenced,
        }
    }
}
