//! A bed's driver: it ticks the pump by the clock.

use crate::caller::{Caller, Fault};
use crate::ward::{Bed, Ward};
use qx_devices::pump::{Command, Doing};
use qx_pool::UnderLock;
use std::sync::Wait;
use std::sync::atomic::Ordering;
use std::thread;
use std::time::{Clock, Duration};

/// Ticks a bed's pump until its nurse has left. Before a tick that will raise an alarm it is told when that was: it will where the
/// pump runs and has no more left than one tick gives. A pump that runs only the driver changes, and one that a nurse starts is
/// filled with more than a tick gives, so no other tick raises one.
pub fn drive<S: UnderLock, R: Wait + Clock>(
    rt: &R,
    ward: &Ward<S>,
    bed: &Bed,
    caller: &mut Caller<'_, S>,
) -> Result<(), Fault> {
    let coid = caller.open_pump(rt)?;
    let period = ward.plan.period.as_nanos().min(u128::from(u64::MAX)) as u64;
    let mut next = ward.nanos(rt)?;
    for _ in rt.forever() {
        if bed.left.load(Ordering::SeqCst) != 0 {
            break;
        }
        let pump = caller.read(rt, coid)?;
        let now = ward.nanos(rt)?;
        if pump.doing == Doing::Running && pump.left <= pump.rate {
            bed.raised.store(now, Ordering::SeqCst);
        }
        caller.command(rt, coid, Command::Tick)?;
        next = next.saturating_add(period).max(now);
        sleep_until(rt, ward, next)?;
    }
    Ok(())
}

/// Sleeps until so many nanoseconds have gone since the ward's start.
pub fn sleep_until<S: UnderLock>(rt: &impl Clock, ward: &Ward<S>, nanos: u64) -> Result<(), Fault> {
    let rest = nanos.saturating_sub(ward.nanos(rt)?);
    if rest > 0 {
        thread::sleep(rt, Duration::from_nanos(rest));
    }
    Ok(())
}
