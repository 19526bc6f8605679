//! Clients of several users, each on a thread of its own, call a pool of workers: pseudo-random calls of all kinds. Then they call
//! a service the same way, and one at whose seats it is known what was done there.
//!
//! The words are the workers (1 to 8), the clients, the calls of all of them together, a seed, and, if there are not to be as
//! many as clients or 16, the users, of whom each has at most 16 clients. With no words a small run is made, which the gate
//! compares. One thread more, the driver, interrupts the calls of all, so that none waits for ever.
//!
//! Or these words stand behind `service` or `tied`, and one of the services alone is called. Or the words are `rounds` and their
//! number: so many rounds of two threads and a lock are timed, and as many of a world and no lock, and then as many calls of each of
//! 1 to 8 clients, on 1, 2 and 4 workers, of a pool and of both services, over and over; and each of the calls of 8 clients on 4
//! workers.
//!
//! - `pool.rt`: the server, and its threads from their start to their end
//! - `client.rt`: what a client does, and what the driver does
//! - `calls.rt`: which calls and other steps are chosen
//! - `dice.rt`: the pseudo-random numbers that choose them
//! - `answers.rt`: what a client was told, and what its notes say that it was told
//! - `serving.rt`: the workers' gate and their clock
//! - `rounds.rt`: rounds of two threads and a lock, and of a world and no lock
//! - `cells.rt`: how many calls a second are answered
//!
//! What is printed with no words does not hang on which thread comes first. The program ends with status 1 where the trace is
//! not what all seats noted, where a client was told something else than its notes say, and where a user received something
//! else than in the trace of the steps that were taken by or for that user alone.
#![tactic(auto)]

mod answers;
mod calls;
mod cells;
mod client;
mod dice;
mod pool;
mod rounds;
mod serving;

use anyhow::{bail, ensure};
use cells::time_cells;
use client::{Calls, Part};
use pool::{Run, run_pool, run_service, run_tied};
use qx_types::{Bytes, Config, User};
use qx_world::Traced;
use std::alloc::{AllocError, Global};
use std::env;
use std::sync::Wait;
use std::thread::Threads;
use std::time::Clock;

/// How large a run is.
#[derive(Clone, Copy)]
struct Plan {
    workers: u8,
    users: u8,
    clients: u16,
    calls: u32,
    kind: Calls,
}

/// What is run with no words.
const SMALL: Plan = Plan {
    workers: 2,
    users: 2,
    clients: 4,
    calls: 400,
    kind: Calls::Any { seed: 1 },
};

/// So many of a service's last steps are recorded.
const RECORDED: usize = 100;

fn main(rt: HostRuntime) -> anyhow::Result<()> {
    let words: Vec<String> = env::args(&rt)?.collect(rt.alloc())?;
    match words.as_slice() {
        [_] => {
            tell(&rt, &SMALL, &pool_of(&rt, rt.alloc(), &SMALL)?)?;
            tell_service(&rt, &SMALL, &service_of(&rt, rt.alloc(), &SMALL)?)?;
            tell_tied(&rt, &SMALL, &tied_of(&rt, rt.alloc(), &SMALL)?)
        }
        [_, word, rounds] => {
            ensure!(
                word.as_str() == "rounds",
                "two words are `rounds` and a number"
            );
            time_rounds(&rt, rt.alloc(), rounds.parse()?)
        }
        [_, word, given @ ..] if word.as_str() == "service" => {
            let plan = plan_of(given)?;
            let run = service_of(&rt, rt.alloc(), &plan)?;
            tell_service(&rt, &plan, &run)?;
            tell_rate(&rt, &run)
        }
        [_, word, given @ ..] if word.as_str() == "tied" => {
            let plan = plan_of(given)?;
            let run = tied_of(&rt, rt.alloc(), &plan)?;
            tell_tied(&rt, &plan, &run)?;
            tell_rate(&rt, &run)
        }
        [_, given @ ..] => {
            let plan = plan_of(given)?;
            let run = pool_of(&rt, rt.alloc(), &plan)?;
            tell(&rt, &plan, &run)?;
            println!(rt; "{} steps", run.end.entries().len())?;
            tell_rate(&rt, &run)
        }
        [] => bail!("no words"),
    }
}

/// Runs a pool as it is planned.
fn pool_of<R: Threads + Wait + Clock + Sync>(
    rt: &R,
    alloc: Global,
    plan: &Plan,
) -> anyhow::Result<Run<Traced>> {
    let (config, parts) = (config_of(alloc, plan)?, parts_of(alloc, plan)?);
    run_pool(rt, alloc, config, plan.interrupted(), &parts)
}

/// Runs a service as it is planned.
fn service_of<R: Threads + Wait + Clock + Sync>(
    rt: &R,
    alloc: Global,
    plan: &Plan,
) -> anyhow::Result<Run<usize>> {
    let (config, parts) = (config_of(alloc, plan)?, parts_of(alloc, plan)?);
    run_service(rt, alloc, config, plan.interrupted(), &parts, RECORDED)
}

/// Runs a service with known seats as it is planned.
fn tied_of<R: Threads + Wait + Clock + Sync>(
    rt: &R,
    alloc: Global,
    plan: &Plan,
) -> anyhow::Result<Run<usize>> {
    let (config, parts) = (config_of(alloc, plan)?, parts_of(alloc, plan)?);
    run_tied(rt, alloc, config, plan.interrupted(), &parts, RECORDED)
}

impl Plan {
    /// Of how many users the calls are interrupted.
    fn interrupted(&self) -> u8 {
        match self.kind {
            Calls::Any { .. } => self.users,
            Calls::Status { .. } => 0,
        }
    }

    /// So many calls for its status of each of so many clients.
    fn of_status(workers: u8, clients: u8, calls: u32, each: bool) -> Plan {
        Plan {
            workers,
            users: clients,
            clients: u16::from(clients),
            calls: calls.saturating_mul(u32::from(clients)),
            kind: Calls::Status { each },
        }
    }
}

/// Prints how long a run took.
fn tell_rate<E: Drop>(rt: &HostRuntime, run: &Run<E>) -> anyhow::Result<()> {
    let (milliseconds, rate) = (run.nanos / 1_000_000, run.rate());
    println!(rt; "{milliseconds} milliseconds, {rate} calls a second")?;
    Ok(())
}

/// Prints how long a round of two threads and a lock takes, one of a world and no lock, and how many calls a second are answered of
/// so many clients by so many workers; and within what time calls are.
fn time_rounds<R: Threads + Wait + Clock + Print + Sync>(
    rt: &R,
    alloc: Global,
    calls: u32,
) -> anyhow::Result<()> {
    let most = u128::from(calls.max(1));
    let round = rounds::time_two(rt, calls)? / most;
    println!(rt; "two threads and a lock: {round} nanoseconds a round")?;
    let plan = Plan::of_status(1, 1, calls, false);
    let round = rounds::time_world(rt, alloc, config_of(alloc, &plan)?, calls)? / most;
    println!(rt; "a world and no lock: {round} nanoseconds a round")?;
    time_cells(rt, alloc, calls)?;
    let times = service_of(rt, alloc, &Plan::of_status(4, 8, calls, true))?.times;
    println!(rt;
        "8 clients, 4 workers, a service: half within {} nanoseconds, 99 in 100 within {}, 999 in 1000 within {}",
        times.within(500),
        times.within(990),
        times.within(999)
    )?;
    Ok(())
}

/// The run that the words ask for.
fn plan_of(words: &[String]) -> anyhow::Result<Plan> {
    let (workers, clients, calls, seed, users) = match words {
        [workers, clients, calls, seed] => (workers, clients, calls, seed, None),
        [workers, clients, calls, seed, users] => (workers, clients, calls, seed, Some(users)),
        _ => bail!("give the workers, the clients, the calls, a seed and, if you like, the users"),
    };
    let clients: u16 = clients.parse()?;
    let users = match users {
        Some(users) => users.parse()?,
        None => clients.min(16) as u8,
    };
    let most = u16::from(users).saturating_mul(16);
    ensure!(
        (u16::from(users)..=most).contains(&clients),
        "each user has 1 to 16 clients"
    );
    Ok(Plan {
        workers: workers.parse()?,
        users,
        clients,
        calls: calls.parse()?,
        kind: Calls::Any {
            seed: seed.parse()?,
        },
    })
}

/// So many workers and users, of whom the first has the name `user1`.
fn config_of(alloc: Global, plan: &Plan) -> anyhow::Result<Config> {
    let mut names = Vec::new(alloc);
    for number in 1..=plan.users {
        let name = format!(in alloc; "user{number}")?;
        names.push(Bytes::from_slice(alloc, name.as_bytes())?)?;
    }
    match Config::new(names, plan.workers) {
        Some(config) => Ok(config),
        None => bail!("so many workers or users there can't be"),
    }
}

/// The clients, dealt over the users in turn, and the calls over the clients.
fn parts_of(alloc: Global, plan: &Plan) -> Result<Vec<Part>, AllocError> {
    let (users, clients) = (u16::from(plan.users.max(1)), u32::from(plan.clients.max(1)));
    let (each, more) = (plan.calls / clients, plan.calls % clients);
    let mut parts = Vec::new(alloc);
    for number in 0..plan.clients {
        let place = number % users;
        let others = (plan.clients / users).saturating_add(u16::from(place < plan.clients % users));
        parts.push(Part {
            number: number + 1,
            user: User(place as u8 + 1),
            clients: others.min(16) as u8,
            calls: each.saturating_add(u32::from(u32::from(number) < more)),
            kind: match plan.kind {
                Calls::Any { seed } => Calls::Any {
                    seed: seed.wrapping_add(u64::from(number) << 32),
                },
                Calls::Status { each } => Calls::Status { each },
            },
        })?;
    }
    Ok(parts)
}

/// How many calls were made, which are all that were planned.
fn made<E: Drop>(plan: &Plan, run: &Run<E>) -> anyhow::Result<u64> {
    let calls = run.calls;
    ensure!(
        calls == u64::from(plan.calls),
        "only {calls} calls were made"
    );
    Ok(calls)
}

/// Prints what is the same whichever thread came first, once it is known to be so.
fn tell(rt: &HostRuntime, plan: &Plan, run: &Run<Traced>) -> anyhow::Result<()> {
    let (traced, calls) = (&run.end, made(plan, run)?);
    let Plan {
        workers,
        users,
        clients,
        ..
    } = *plan;
    println!(rt; "{workers} workers, {clients} clients of {users} users, and a driver")?;
    println!(rt; "{calls} calls were made")?;
    println!(rt; "all that was noted stands in the trace, and nothing else does")?;
    println!(rt; "{clients} clients were told what their notes say")?;
    for number in 1..=users {
        compare_user(traced, User(number))?;
    }
    println!(rt; "{users} users received what they receive in the traces of their own steps")?;
    Ok(())
}

/// Prints the same of a service.
fn tell_service(rt: &HostRuntime, plan: &Plan, run: &Run<usize>) -> anyhow::Result<()> {
    let (calls, recorded) = (made(plan, run)?, run.end);
    println!(rt; "{calls} calls of a service were made")?;
    println!(rt; "its last {recorded} steps are recorded")?;
    Ok(())
}

/// Prints the same of a service with known seats: those of the workers, the driver and the clients.
fn tell_tied(rt: &HostRuntime, plan: &Plan, run: &Run<usize>) -> anyhow::Result<()> {
    let (calls, known) = (made(plan, run)?, run.end);
    let seats = usize::from(plan.workers) + 1 + usize::from(plan.clients);
    ensure!(known == seats, "only {known} of {seats} seats know it");
    println!(rt; "{calls} calls of a service with known seats were made")?;
    println!(rt; "each of its {seats} seats knows what was done there")?;
    Ok(())
}

/// It is an error where a user receives something else in the trace of its own steps.
fn compare_user(traced: &Traced, user: User) -> anyhow::Result<()> {
    let Ok(erased) = traced.erased(user) else {
        bail!("out of memory");
    };
    let (Ok(whole), Ok(own)) = (traced.transcript(user), erased.transcript(user)) else {
        bail!("out of memory");
    };
    ensure!(
        !whole.is_empty() && whole == own,
        "{user:?} received something else in the trace of its own steps, or nothing"
    );
    Ok(())
}
