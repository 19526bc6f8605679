//! How a ward is set up: its beds, what each of them may do and hold, and how long a run is.

ghost use Rattle.std.specs.Prelude.{◌≤◌};

use crate::flood::FLOODERS;
use anyhow::bail;
use qx_types::{Bytes, Config, LimitName, Prio, User};
use std::alloc::Global;
use std::time::Duration;

/// The names of beds. Of those that there are the last is on trial, and misbehaves.
const NAMES: [&str; 16] = [
    "ann", "bob", "cal", "dot", "eve", "fay", "gus", "hal", "ida", "jon", "kay", "leo", "mia",
    "ned", "oda", "pam",
];

/// What a bed's nurse calls with, what its driver does, and what a bed on trial can't go above. So a nurse's call goes before all
/// others, and whatever is sent from a bed on trial behind them, if a bed's disconnect pulses have the bed's ceiling.
pub const NURSE_PRIORITY: Prio = Prio(100);

pub const DRIVER_PRIORITY: Prio = Prio(90);

pub const TRIAL_PRIORITY: Prio = Prio(20);

/// What each bed may hold: the processes of a driver, of a nurse and of two more; a pump, a pipe and a small log.
const LIMITS: [(LimitName, usize); 9] = [
    (LimitName::Processes, 4),
    (LimitName::Connections, 8),
    (LimitName::Servers, 16),
    (LimitName::Blocks, 32),
    (LimitName::Inodes, 16),
    (LimitName::File, 4_096),
    (LimitName::Bytes, 16_384),
    (LimitName::Mounts, 3),
    (LimitName::Events, 8),
];

/// How a run is made.
#[derive(Clone, Copy)]
pub struct Plan {
    /// How many beds there are, 2 to 16.
    pub beds: u8,
    pub workers: u8,
    /// The time from one tick of a pump to the next; where it is zero, a tick follows the other at once.
    pub period: Duration,
    /// The priority of all disconnect pulses. Without it those of a bed have the bed's ceiling.
    pub disconnect: Option<Prio>,
    pub length: Length,
}

/// How long a run is. Half of it is without the flood, and half with it.
#[derive(Clone, Copy)]
pub enum Length {
    /// Until each bed's nurse has silenced so many alarms in each half, and the bed on trial has made so many calls.
    Counted { alarms: u64, calls: u64 },
    /// So many seconds in each half.
    Timed { seconds: u64 },
}

impl Plan {
    /// The bed that misbehaves.
    pub fn trial(&self) -> User {
        User(self.beds)
    }

    /// How many threads call: two of each well-behaved bed, and those that flood.
    pub fn callers(&self) -> usize
        ensures { result ≤ 600 }
    {
        usize::from(self.beds.saturating_sub(1)) * 2 + usize::from(FLOODERS)
    }

    /// The name of a bed.
    pub fn name(user: User) -> &'static str {
        NAMES[usize::from(user.0.saturating_sub(1) % 16)]
    }

    /// The configuration: the beds by name, each with the limits of a bed, with the ceiling that its calls need, and with the
    /// priority of its disconnect pulses.
    pub fn config(&self, alloc: Global) -> anyhow::Result<Config> {
        let mut names = Vec::new(alloc);
        for number in 1..=self.beds {
            names.push(Bytes::from_slice(alloc, Plan::name(User(number)).as_bytes())?)?;
        }
        let Some(mut config) = Config::new(names, self.workers) else {
            bail!("so many workers or beds there can't be");
        };
        for number in 1..=self.beds {
            let user = User(number);
            let ceiling = if user == self.trial() {
                TRIAL_PRIORITY
            } else {
                NURSE_PRIORITY
            };
            let disconnect = self.disconnect.unwrap_or(ceiling);
            let mut is_set = config.set_ceiling(user, ceiling).is_ok();
            is_set &= config.set_disconnect_prio(user, disconnect).is_ok();
            for (name, most) in LIMITS {
                is_set &= config.set_limit(user, name, most).is_ok();
            }
            if !is_set {
                bail!("so high a limit there can't be");
            }
        }
        Ok(config)
    }
}
