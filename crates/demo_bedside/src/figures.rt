//! What a ward did in some time, how it is measured second by second, and how it is printed.

use crate::driver::sleep_until;
use crate::plan::Length;
use crate::ward::{Stage, Ward};
use bench_threads::Latencies;
use qx_pool::UnderLock;
use std::sync::Wait;
use std::sync::atomic::Ordering;
use std::time::{Clock, Duration};
use std::{io, thread};

/// What a ward did in so many nanoseconds.
#[derive(Clone, Copy, Drop)]
pub struct Figures {
    pub nanos: u64,
    /// Calls of the well-behaved beds.
    pub calls: u64,
    /// Calls of the bed on trial.
    pub flood: u64,
    /// The times from a tick that raised an alarm to the nurse's answer.
    pub answers: Latencies,
}

/// Both halves of a run: without the flood, and with it.
#[derive(Clone, Copy, Drop)]
pub struct Halves {
    pub quiet: Figures,
    pub flooded: Figures,
}

impl Figures {
    fn new() -> Figures {
        Figures {
            nanos: 0,
            calls: 0,
            flood: 0,
            answers: Latencies::new(),
        }
    }

    fn add(&mut self, more: &Figures) {
        self.nanos = self.nanos.saturating_add(more.nanos);
        self.calls = self.calls.saturating_add(more.calls);
        self.flood = self.flood.saturating_add(more.flood);
        self.answers.merge(&more.answers);
    }

    /// So many calls, as calls a second.
    fn a_second(&self, calls: u64) -> u128 {
        u128::from(calls) * 1_000_000_000 / u128::from(self.nanos.max(1))
    }

    /// Prints them as a line: after so many seconds, with the flood or without it.
    pub fn print<R: Print>(&self, rt: &R, seconds: u64, flood: &str) -> io::Result<()> {
        println!(rt;
            "{seconds:>7} {flood:<5} {:>9} {:>7} {:>9} {:>9} {:>9} {:>9}",
            self.a_second(self.calls),
            self.answers.count(),
            self.answers.within(500) / 1_000,
            self.answers.within(990) / 1_000,
            self.answers.longest() / 1_000,
            self.a_second(self.flood)
        )
    }
}

/// Prints what stands above such lines.
pub fn print_head<R: Print>(rt: &R) -> io::Result<()> {
    println!(rt; "from a tick to the nurse's answer: microseconds")?;
    println!(rt; "seconds flood   calls/s  alarms      half 99 in 100     worst   flood/s")
}

/// Leads the stages of a run, and measures both halves. Of one that is timed each second is printed.
pub fn lead<S: UnderLock, R: Wait + Clock + Print>(
    rt: &R,
    ward: &Ward<S>,
) -> anyhow::Result<Halves> {
    if let Length::Timed { .. } = ward.plan.length {
        print_head(rt)?;
    }
    let quiet = lead_half(rt, ward, Stage::Quiet)?;
    ward.begin_flood();
    let flooded = lead_half(rt, ward, Stage::Flooded)?;
    Ok(Halves { quiet, flooded })
}

/// Waits for the end of a half.
fn lead_half<S: UnderLock, R: Wait + Clock + Print>(
    rt: &R,
    ward: &Ward<S>,
    stage: Stage,
) -> anyhow::Result<Figures> {
    match (ward.plan.length, stage) {
        (Length::Timed { seconds }, _) => time_half(rt, ward, stage, seconds),
        (Length::Counted { alarms, .. }, Stage::Quiet) => count_half(rt, ward, stage, alarms, 0),
        (Length::Counted { alarms, calls }, _) => {
            count_half(rt, ward, stage, alarms.saturating_mul(2), calls)
        }
    }
}

/// Waits for so many alarms of each bed since the run began, and for so many calls of the bed on trial in this half.
fn count_half<S: UnderLock, R: Wait + Clock>(
    rt: &R,
    ward: &Ward<S>,
    stage: Stage,
    alarms: u64,
    calls: u64,
) -> anyhow::Result<Figures> {
    let start = ward.nanos(rt)?;
    let alarms = alarms.saturating_mul(ward.beds.len() as u64);
    for _ in rt.forever() {
        let is_done = ward.silenced() >= alarms && ward.flood.load(Ordering::SeqCst) >= calls;
        if is_done || ward.stage() != stage {
            break;
        }
        thread::sleep(rt, Duration::from_millis(1));
    }
    let nanos = ward.nanos(rt)?.saturating_sub(start);
    Ok(ward.take_figures(rt, nanos))
}

/// Waits for so many seconds, and prints each. It ends before them where a thread gives up.
fn time_half<S: UnderLock, R: Wait + Clock + Print>(
    rt: &R,
    ward: &Ward<S>,
    stage: Stage,
    seconds: u64,
) -> anyhow::Result<Figures> {
    let mut all = Figures::new();
    let start = ward.nanos(rt)?;
    let mut last = start;
    for second in 1..=seconds {
        let until = start.saturating_add(second.saturating_mul(1_000_000_000));
        sleep_until(rt, ward, until)?;
        if ward.stage() != stage {
            break;
        }
        let now = ward.nanos(rt)?;
        let figures = ward.take_figures(rt, now.saturating_sub(last));
        let flood = if stage == Stage::Quiet { "no" } else { "yes" };
        figures.print(rt, second, flood)?;
        all.add(&figures);
        last = now;
    }
    Ok(all)
}
