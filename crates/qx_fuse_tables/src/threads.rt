//! Which thread a request may take, and of which process. Each process of a user has the same threads, `tids`, and so many of them are
//! kept for `writers`.
ghost use Rattle.std.specs.Prelude.{◌≡◌};
ghost use Rattle.qx_fuse_tables.specs.Waits.{first_free, free_count, is_free, kept, process_for, thread_for};

use crate::waits::{Wait, Waits};

/// How many threads of its process stay free when a request takes one.
fn kept(wait: Wait, writers: u8) -> usize
    ensures { result ≡ kept wait writers }
{
    match wait {
        Wait::Read => usize::from(writers) + 1,
        Wait::Write => 1,
        Wait::Never => 0,
    }
}

/// Whether no request waits for the call of a thread.
fn is_free(waits: &Waits, process: u8, tid: u8) -> bool
    ensures { result ≡ is_free waits.now process tid }
{
    !waits.is_busy(process, tid)
}

/// How many threads of a process are free.
fn free_count(tids: &[u8], waits: &Waits, process: u8) -> usize
    ensures count { result ≡ free_count tids.now waits.now process }
{
    tids.iter()
        .filter(|tid| is_free(waits, process, **tid))
        .count()
}

/// The first free thread of a process.
fn first_free(tids: &[u8], waits: &Waits, process: u8) -> Option<u8>
    ensures tid { result ≡ first_free tids.now waits.now process }
{
    tids.iter()
        .copied()
        .find(|tid| is_free(waits, process, *tid))
}

/// The thread of a process that a request takes. A read takes one only if `writers` threads and one more stay free, and a write only
/// if one does. So a write finds a thread while as many reads wait as may, and a release or a status while both do.
pub fn thread_for(tids: &[u8], writers: u8, waits: &Waits, process: u8, wait: Wait) -> Option<u8>
    ensures tid { result ≡ thread_for tids.now writers waits.now process wait }
{
    if kept(wait, writers) < free_count(tids, waits, process) {
        first_free(tids, waits, process)
    } else {
        None
    }
}

/// The first of some processes that has a thread for a request.
pub fn process_for(
    processes: &[u8],
    tids: &[u8],
    writers: u8,
    waits: &Waits,
    wait: Wait,
) -> Option<u8>
    ensures process { result ≡ process_for processes.now tids.now writers waits.now wait }
{
    processes.iter().copied().find(|process| thread_for(
        tids, writers, waits, *process, wait,
    ).is_some())
}
