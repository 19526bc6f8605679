//! A ward of beds: each has a syringe pump, a driver that ticks it by the clock, and a nurse who sets its rate, sleeps until its
//! alarm, and silences it. One bed is on trial, and misbehaves: it floods its own pump, pipes and files at its ceiling, interrupts its
//! calls, ends, starts anew, and sends hostile bytes. Half of a run is without its flood.
//!
//! The words are `service` or `pool`, the seconds that each half takes, and, if there are not to be 8, the beds, of which the last is
//! on trial (2 to 16), and, if not 2, the workers (1 to 8), and, if not 10, the milliseconds from tick to tick, and, if those of a bed
//! are not to have the bed's ceiling, the priority of all disconnect pulses (1 to 255, or 0 for the ceilings). A service runs for as
//! long as is asked, months too; a pool stores each step, and at the end each well-behaved bed's transcript is compared with that of
//! its erased run. Each second, and for each half at the end, a line tells calls a second, alarms, and the time from the tick that
//! raises one to the nurse's answer, of the well-behaved beds, and the calls a second of the bed on trial.
//!
//! With no words a small run is made over both, which the gate compares: nothing is printed of clock or schedule.
//!
//! - `plan.rt`: the ward's configuration, with limits and priorities; how long a run is
//! - `ward.rt`: what all threads share
//! - `runs.rt`: a run, over a pool and over a service
//! - `crew.rt`: the threads, from their start to their end
//! - `caller.rt`: a thread of a bed's process, and what it asks of a pump
//! - `commands.rt`: what is written to a pump, as bytes
//! - `driver.rt`, `nurse.rt`, `flood.rt`: what the threads of beds do
//! - `figures.rt`: what is measured, and printed second by second
//! - `received.rt`: what a bed received, in the run and in its erased run
#![tactic(auto)]

mod caller;
mod commands;
mod crew;
mod driver;
mod figures;
mod flood;
mod nurse;
mod plan;
mod received;
mod runs;
mod ward;

use anyhow::ensure;
use figures::print_head;
use plan::{Length, Plan};
use qx_types::{Prio, User};
use qx_world::Traced;
use received::compare;
use runs::{Run, run_pool, run_service};
use std::env;
use std::process::ExitCode;
use std::time::Duration;

/// What is run with no words.
const SMALL: Plan = Plan {
    beds: 3,
    workers: 2,
    period: Duration::ZERO,
    disconnect: None,
    length: Length::Counted {
        alarms: 3,
        calls: 400,
    },
};

/// What the words ask for.
enum Words {
    Small,
    Service(Plan),
    Pool(Plan),
    /// They are refused.
    Bad,
}

fn main(rt: HostRuntime) -> anyhow::Result<ExitCode> {
    let words: Vec<String> = env::args(&rt)?.collect(rt.alloc())?;
    match words_of(&words) {
        Words::Small => {
            let pool = run_pool(&rt, rt.alloc(), SMALL)?;
            println!(rt; "a pool")?;
            tell(&rt, &SMALL, &pool)?;
            tell_received(&rt, &SMALL, &pool.end)?;
            let service = run_service(&rt, rt.alloc(), SMALL)?;
            println!(rt; "a service")?;
            tell(&rt, &SMALL, &service)?;
        }
        Words::Service(plan) => {
            let run = run_service(&rt, rt.alloc(), plan)?;
            tell_halves(&rt, &plan, &run)?;
        }
        Words::Pool(plan) => {
            let run = run_pool(&rt, rt.alloc(), plan)?;
            tell_halves(&rt, &plan, &run)?;
            tell_received(&rt, &plan, &run.end)?;
        }
        Words::Bad => {
            eprintln!(rt;
                "bedside: words: service|pool SECONDS [BEDS [WORKERS [MILLISECONDS [PRIORITY]]]], with 1 second or more, 2 to 16 beds, 1 to 8 workers and a priority of disconnect pulses of at most 255"
            )?;
            return Ok(ExitCode::from(2));
        }
    }
    Ok(ExitCode::SUCCESS)
}

/// What the words ask for.
fn words_of(words: &[String]) -> Words {
    match words {
        [] | [_] => Words::Small,
        [_, word, given @ ..] => match (word.as_str(), plan_of(given)) {
            ("service", Some(plan)) => Words::Service(plan),
            ("pool", Some(plan)) => Words::Pool(plan),
            _ => Words::Bad,
        },
    }
}

/// A run that is timed, by the numbers that are given.
fn plan_of(given: &[String]) -> Option<Plan> {
    let seconds = number_of(given, 0, None)?;
    let beds = number_of(given, 1, Some(8))?;
    let workers = number_of(given, 2, Some(2))?;
    let period = number_of(given, 3, Some(10))?;
    let prio = number_of(given, 4, Some(0))?;
    let are_good = seconds >= 1
        && (2..=16).contains(&beds)
        && (1..=8).contains(&workers)
        && prio <= 255;
    if !are_good || given.len() > 5 {
        return None;
    }
    Some(Plan {
        beds: beds.min(16) as u8,
        workers: workers.min(8) as u8,
        period: Duration::from_millis(period),
        disconnect: (prio > 0).then_some(Prio(prio.min(255) as u8)),
        length: Length::Timed { seconds },
    })
}

/// The number at a place among the words, or what it is where none is there.
fn number_of(given: &[String], place: usize, missing: Option<u64>) -> Option<u64> {
    match given.get(place) {
        Some(word) => word.parse().ok(),
        None => missing,
    }
}

/// Prints what does not hang on clock or schedule, once it is known to be so.
fn tell<E: Drop>(rt: &HostRuntime, plan: &Plan, run: &Run<E>) -> anyhow::Result<()> {
    for (number, silenced) in (1..plan.beds).zip(run.silenced.iter()) {
        let name = Plan::name(User(number));
        println!(rt; "{name}: {silenced} alarms, each silenced, half of them beside the flood")?;
    }
    let Length::Counted { calls, .. } = plan.length else {
        return Ok(());
    };
    let flood = run.halves.flooded.flood;
    ensure!(
        run.halves.quiet.flood == 0 && flood >= calls,
        "the bed on trial made {flood} calls"
    );
    println!(rt;
        "{}: on trial, {calls} calls and more",
        Plan::name(plan.trial())
    )?;
    Ok(())
}

/// Prints what each half came to.
fn tell_halves<E: Drop>(rt: &HostRuntime, plan: &Plan, run: &Run<E>) -> anyhow::Result<()> {
    let Length::Timed { seconds } = plan.length else {
        return Ok(());
    };
    println!(rt; "all seconds of each half:")?;
    print_head(rt)?;
    run.halves.quiet.print(rt, seconds, "no")?;
    run.halves.flooded.print(rt, seconds, "yes")?;
    Ok(())
}

/// Prints that each well-behaved bed received what it receives in its erased run, once it is known.
fn tell_received(rt: &HostRuntime, plan: &Plan, traced: &Traced) -> anyhow::Result<()> {
    for number in 1..plan.beds {
        let user = User(number);
        compare(rt.alloc(), traced, user)?;
        println!(rt;
            "{}: its transcript is that of its erased run",
            Plan::name(user)
        )?;
    }
    Ok(())
}
