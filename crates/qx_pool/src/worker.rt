//! The loop of a worker.

ghost use Rattle.std.specs.Prelude.{◌≡◌, Some, IfSome, vec_capacity};
ghost use Rattle.qx_monitor.specs.Owed.{LeavesRoom, copied, kept_by};
ghost use Rattle.qx_world.specs.Seats.{Works};

use crate::server::ServerOf;
use qx_monitor::{Awaited, Begun, HeldCopy, Monitor, Performed, Received, Spinner};
use qx_types::{Item, Worker};
use qx_wire::Parsed;
use qx_world::{UnderLock, Work};
use std::sync::Wait;

/// What a worker does between the receiving of an item and its performing. It holds no lock then.
pub trait Gate {
    fn between(&self, rt: &impl Wait, worker: Worker, item: Item);
}

/// What tells the moment of a perform.
pub trait Clock {
    fn moment(&self) -> u64;
}

/// A worker receives items and performs them until the server is stopped and all lines are empty, and gives its seat back. Which line
/// it serves is told by what lies under the lock; it begins with what it holds. A loop whose worker is no worker of the server, or
/// holds what another loop took, ends at once; one that wants memory stops the server, and what it holds it holds.
pub fn worker_loop<S: UnderLock, G: Gate, C: Clock, R: Wait>(
    rt: &R,
    server: &ServerOf<S>,
    seat: S::Seat,
    worker: Worker,
    gate: &G,
    clock: &C,
) -> S::Seat
    ensures { Works S.adds S.keeps worker.0 seat result }
{
    let mut seat = seat;
    let monitor = &server.monitor;
    let mut spinner = Spinner::new();
    let mut memory = monitor.memory();
    let Some(mut begun) = resume(rt, monitor, &mut seat, worker, &mut memory, clock) else {
        return seat;
    };
    'working: for _ in rt.forever() {
        let received = receive(
            rt,
            monitor,
            &mut seat,
            worker,
            &mut memory,
            &mut spinner,
            begun,
        );
        let Some((item, held)) = received else {
            return seat;
        };
        let work = decoded(held);
        gate.between(rt, worker, item);
        let Some(next) = perform(rt, monitor, &mut seat, worker, &mut memory, work, clock) else {
            return seat;
        };
        begun = next;
    }
    drop(monitor.lock_for(rt, &mut spinner, begun));
    seat
}

/// Performs what the worker holds, if anything, and begins to wait for an item. None where the loop ends, as one does whose worker
/// is none.
fn resume<S: UnderLock, C: Clock, R: Wait>(
    rt: &R,
    monitor: &Monitor<S>,
    seat: &mut S::Seat,
    worker: Worker,
    memory: &mut Vec<u8>,
    clock: &C,
) -> Option<Begun>
    ensures { Works S.adds S.keeps worker.0 seat.old seat.new }
{
    let mut guard = monitor.lock(rt);
    if !guard.is_worker(worker) {
        return None;
    }
    match guard.held(worker, memory) {
        Ok(Some(held)) => {
            drop(guard);
            perform(rt, monitor, seat, worker, memory, decoded(held), clock)
        }
        Ok(None) => Some(monitor.begin(&mut guard, Awaited::Item)),
        Err(short) => {
            drop(guard);
            monitor.stop_for(rt, short);
            None
        }
    }
}

/// Waits for an item, takes it, and copies it; where another one stands in a line, one more worker is woken. None where the
/// loop ends.
fn receive<S: UnderLock, R: Wait>(
    rt: &R,
    monitor: &Monitor<S>,
    seat: &mut S::Seat,
    worker: Worker,
    memory: &mut Vec<u8>,
    spinner: &mut Spinner,
    begun: Begun,
) -> Option<(Item, HeldCopy)>
    ensures seat { Works S.adds S.keeps worker.0 seat.old seat.new }
    ensures memory { IfSome result (λ taken. vec_capacity memory.new ≡ kept_by (Some (copied taken.1)) (vec_capacity memory.old)) }
{
    let mut guard = monitor.lock_for(rt, spinner, begun);
    let (received, wake) = monitor.receive(&mut guard, seat, worker, memory);
    drop(guard);
    monitor.wake_worker(wake);
    match received {
        Received::Took(item, held) => Some((item, held)),
        Received::Ended => None,
        Received::Short(short) => {
            monitor.stop_for(rt, short);
            None
        }
    }
}

/// Performs what the worker holds, wakes who was answered by that, and begins to wait for an item. None where the loop ends. The copy
/// of a message leaves its memory for the next one, so that a message of as many bytes needs none.
fn perform<S: UnderLock, C: Clock, R: Wait>(
    rt: &R,
    monitor: &Monitor<S>,
    seat: &mut S::Seat,
    worker: Worker,
    memory: &mut Vec<u8>,
    work: Work,
    clock: &C,
) -> Option<Begun>
    ensures seat { Works S.adds S.keeps worker.0 seat.old seat.new }
    ensures memory { LeavesRoom work (vec_capacity memory.old) (vec_capacity memory.new) }
{
    let moment = clock.moment();
    let mut guard = monitor.lock(rt);
    let (performed, released) = monitor.perform(&mut guard, seat, worker, &work, moment);
    drop(guard);
    monitor.wake_clients(released);
    if let Work::Message(message) = work {
        message.into_bytes().into_memory(memory);
    }
    match performed {
        Performed::Handled(begun) => Some(begun),
        Performed::Ended => None,
        Performed::Short(short) => {
            monitor.stop_for(rt, short);
            None
        }
    }
}

/// What the copy means.
fn decoded(held: HeldCopy) -> Work
    ensures { result ≡ copied held }
{
    match held {
        HeldCopy::Message(bytes) => Work::Message(Parsed::read(bytes)),
        HeldCopy::Pulse => Work::Pulse,
    }
}
