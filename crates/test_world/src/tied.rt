//! A run whose steps are taken at seats.

ghost use Rattle.std.specs.Prelude.{◌≡◌};

use qx_tied::{Event, OfRun, Opened, Seat, Tied};
use qx_types::Step;
use qx_world::World;
use std::alloc::Global;
use std::marker::Brand;
use std::process::Abort;
use test_all_memory::{at_last, take_all_memory};
use test_steps::script::{LinesFault, config, steps};

/// A process opens its user's top, and closes it.
const OPENED: &str = "\
    spawn ann 1 10\n\
    open ann.1.1 /ann r 000\n\
    receive 1 ram\n\
    perform 1 5\n\
    reply ann.1.1\n\
    close ann.1.1 3\n\
    receive 1 ram\n\
    perform 1 6\n\
    reply ann.1.1\n";

/// Takes a step at a seat once there is memory. Whether it came back at first, as it was.
fn take_at_last<J: OfRun>(
    tied: &mut Tied<J>,
    seat: &mut Seat<J>,
    pieces: Vec<Vec<u8>>,
    step: Step,
) -> Option<bool> {
    let mut next = Some(step);
    let ((), is_refused) = at_last(pieces, || match tied.take(seat, next.take()?) {
        Ok(_) => Some(()),
        Err(unstored) => {
            next = Some(unstored.step);
            None
        }
    })?;
    Some(is_refused)
}

/// The steps of a client are taken at its seat, and those of a worker at another. Each seat holds what was done there, whether or
/// not a step came back before.
fn take_at_two<J: OfRun>(
    rt: &impl Abort,
    alloc: Global,
    opened: Opened<Event>,
    world: World,
) -> Result<u64, LinesFault>
    requires list { opened.seen.book ≡ J.book }
    requires began { world ≡ J.began }
{
    let Ok((mut tied, mut seats)) = Tied::<J>::new(alloc, opened, world, 100, 2) else {
        return Err(LinesFault::NoMemory);
    };
    let (Some(mut worker), Some(mut client)) = (seats.pop(), seats.pop()) else {
        panic!(rt; "two seats");
    };
    let mut refused = 0u64;
    for step in steps(alloc, OPENED)? {
        let pieces = take_all_memory(alloc)?;
        let is_refused = if step.is_client() {
            take_at_last(&mut tied, &mut client, pieces, step)
        } else {
            take_at_last(&mut tied, &mut worker, pieces, step)
        };
        match is_refused {
            Some(is_refused) => refused = refused.saturating_add(u64::from(is_refused)),
            None => panic!(rt; "a step is not taken"),
        }
        assert!(rt; tied.holds(&client) && tied.holds(&worker));
    }
    assert!(rt; tied.recent(0)?.steps.len() == 9);
    Ok(refused)
}

#[test]
fn seats_hold_what_was_done_there(rt: HostRuntime) -> Result<(), LinesFault> {
    let alloc = rt.alloc();
    let world = World::new(alloc, config(alloc)?)?;
    let refused = take_at_two::<Brand>(&rt, alloc, Opened::new(), world)?;
    assert!(rt; refused > 0);
    Ok(())
}
