//! The threads of a process, from 1: a place for each number.

ghost use Rattle.std.specs.Prelude.{◌≡◌, ◌≤◌, [], ◌∷◌, Some, None, map, replicate};
ghost use Rattle.qx_types.specs.declared.limits.TheConstants.Limits.{THREADS};
ghost use Rattle.qx_machine.specs.Processes.{new_thread, received_by};
ghost use Rattle.qx_process.specs.Reads.{IsPriority};

use crate::thread::ThreadCell;
use arrayvec::ArrayVec;
use qx_types::{Limits, MessageBytes, Prio};
use std::alloc::Global;

/// A place for each number up to the last.
pub const PLACES: usize = Limits::THREADS as usize + 1;

/// Place 0 is no thread's.
pub type Threads = ArrayVec<Option<ThreadCell>, PLACES>;

/// Of each thread that a process had, the bytes of its message if that was received and is not served, and else none.
pub type Held = ArrayVec<Option<MessageBytes>, PLACES>;

/// So many ready threads.
pub fn new_threads(count: u8, prio: Prio) -> Threads
    requires count { count ≤ THREADS }
    requires priority { IsPriority prio.0 }
    ensures threads { result.items ≡ None ∷ replicate count (Some (new_thread prio.0)) }
{
    let mut threads = ArrayVec::new();
    threads.push(None);
    for _ in 0..count {
        threads.push(Some(ThreadCell::new(prio)));
    }
    threads
}

/// All threads go, and what workers hold of them is kept.
pub fn end(threads: &mut Threads, held: &mut Held, alloc: Global)
    ensures held { held.new.items ≡ map received_by threads.old.items }
    ensures gone { threads.new.items ≡ [] }
{
    held.clear();
    for number in 0..threads.len() {
        held.push(received(&mut threads[number], alloc));
    }
    threads.clear();
}

/// A thread goes from its place, and what a worker holds of it is handed out.
fn received(place: &mut Option<ThreadCell>, alloc: Global) -> Option<MessageBytes>
    ensures received { result ≡ received_by place.old }
{
    let cell = place.take()?;
    Some(cell.into_received(alloc))
}
