//! Whether two traces are the same, as far as can be seen of them.

use qx_types::{Manager, NoMemory, Proc, Thread, User, Worker};
use qx_world::{Traced, WorkRef, World};

/// The first thread of a user's first process.
pub fn first_thread(user: User) -> Thread {
    let proc = Proc { user, num: 1 };
    Thread { proc, tid: 1 }
}

/// Whether as many steps are stored, and what each worker holds, which threads are answered and blocked, and how many items
/// wait in each line are the same. To look wants no memory.
pub fn is_same_so_far(one: &Traced, other: &Traced) -> bool {
    one.entries().len() == other.entries().len() && is_same_world(one.world(), other.world())
}

/// Whether that, the stored steps with their outcomes, and each user's transcript are the same.
pub fn is_same(one: &Traced, other: &Traced) -> Result<bool, NoMemory> {
    Ok(
        one.entries() == other.entries()
            && is_same_world(one.world(), other.world())
            && has_same_transcript(one, other, User(1))?
            && has_same_transcript(one, other, User(2))?,
    )
}

/// Whether what each worker holds, which threads are answered and blocked, and how many items wait in each line are the same.
pub fn is_same_world(one: &World, other: &World) -> bool {
    has_same_worker(one, other, Worker(1))
        && has_same_worker(one, other, Worker(2))
        && (0..128).all(|number| has_same_thread(one, other, thread(number)))
        && has_same_lines(one, other)
}

/// Whether as many items wait in each line.
fn has_same_lines(one: &World, other: &World) -> bool {
    for number in 0..Manager::count() {
        if let Some(manager) = Manager::of_number(number) {
            if one.waiting(manager) != other.waiting(manager) {
                return false;
            }
        }
    }
    true
}

fn has_same_worker(one: &World, other: &World, worker: Worker) -> bool {
    one.holds(worker) == other.holds(worker) && is_same_held(one.held(worker), other.held(worker))
}

/// Whether two workers hold messages of the same bytes, or a pulse each, or nothing.
fn is_same_held(one: Option<WorkRef<'_>>, other: Option<WorkRef<'_>>) -> bool {
    match (one, other) {
        (Some(WorkRef::Message(bytes)), Some(WorkRef::Message(other))) => bytes == other,
        (Some(WorkRef::Pulse), Some(WorkRef::Pulse)) | (None, None) => true,
        _ => false,
    }
}

/// Of two users the threads that may be, by number.
fn thread(number: u8) -> Thread {
    let proc = Proc {
        user: User(1 + number / 64),
        num: 1 + number / 4 % 16,
    };
    let tid = 1 + number % 4;
    Thread { proc, tid }
}

/// Whether a thread is answered and blocked in both or in neither.
fn has_same_thread(one: &World, other: &World, thread: Thread) -> bool {
    one.answered(thread) == other.answered(thread) && one.blocked(thread) == other.blocked(thread)
}

/// Whether a user's processes received the same.
fn has_same_transcript(one: &Traced, other: &Traced, user: User) -> Result<bool, NoMemory> {
    Ok(one.transcript(user)? == other.transcript(user)?)
}
