//! A bed's nurse: sets the pump's rate, sleeps until an alarm's pulse, and silences the alarm.

use crate::caller::{Caller, Fault};
use crate::ward::{Bed, Ward};
use qx_devices::pump::{Command, Doing, Pump};
use qx_pool::UnderLock;
use std::sync::Wait;
use std::time::Clock;

/// The rates that a nurse sets, one after the other, in microlitres a tick.
const RATES: [u16; 3] = [5, 10, 20];

/// What a pump is filled with, in microlitres: more than a tick gives.
const VOLUME: u16 = 100;

/// Watches a bed until the run is over, and counts the alarms that were silenced.
pub fn watch<S: UnderLock, R: Wait + Clock>(
    rt: &R,
    ward: &Ward<S>,
    bed: &Bed,
    caller: &mut Caller<'_, S>,
    silenced: &mut u64,
) -> Result<(), Fault> {
    let coid = caller.open_pump(rt)?;
    for _ in rt.forever() {
        let rate = RATES[(*silenced % 3) as usize];
        caller.command(rt, coid, Command::SetRate(rate))?;
        caller.command(rt, coid, Command::Fill(VOLUME))?;
        caller.arm(rt, coid)?;
        caller.command(rt, coid, Command::Start)?;
        caller.wait_for_alarm(rt)?;
        caller.command(rt, coid, Command::Silence)?;
        ward.add_answer(rt, bed)?;
        *silenced = silenced.saturating_add(1);
        let empty = Pump {
            rate,
            left: 0,
            doing: Doing::Stopped,
        };
        if caller.read(rt, coid)? != empty {
            return Err(Fault::Unexpected);
        }
        if !ward.goes_on(rt, *silenced) {
            break;
        }
    }
    Ok(())
}
