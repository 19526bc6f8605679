//! Threads that requests take, and requests that have none.

use qx_fuse_tables::threads::{process_for, thread_for};
use qx_fuse_tables::{Queue, Queued, Wait, Waiting, Waits};
use qx_types::{Bytes, NoMemory};
use std::alloc::Global;

const TIDS: &[u8] = &[1, 2, 3, 4];

/// Gives a request the thread of a process that it may take, and tells which.
fn taken(waits: &mut Waits, unique: u64, process: u8, wait: Wait) -> Result<Option<u8>, NoMemory> {
    let Some(tid) = thread_for(TIDS, 1, &*waits, process, wait) else {
        return Ok(None);
    };
    waits.put(Waiting {
        unique,
        process,
        tid,
        wait,
    })?;
    Ok(Some(tid))
}

fn queued(alloc: Global, unique: u64, process: u8, wait: Wait) -> Queued {
    Queued {
        unique,
        process,
        wait,
        bytes: Bytes::new(alloc),
    }
}

#[test]
fn threads_are_kept_for_writes_and_for_the_rest(rt: HostRuntime) -> Result<(), NoMemory> {
    let mut waits = Waits::new(rt.alloc());
    assert!(rt; taken(&mut waits, 10, 1, Wait::Read)? == Some(1));
    assert!(rt; taken(&mut waits, 11, 1, Wait::Read)? == Some(2));
    assert!(rt; taken(&mut waits, 12, 1, Wait::Read)? == None);
    assert!(rt; taken(&mut waits, 13, 1, Wait::Write)? == Some(3));
    assert!(rt; taken(&mut waits, 14, 1, Wait::Write)? == None);
    assert!(rt; thread_for(TIDS, 1, &waits, 1, Wait::Never) == Some(4));
    assert!(rt; process_for(&[1, 2], TIDS, 1, &waits, Wait::Read) == Some(2));
    assert!(rt; process_for(&[1], TIDS, 1, &waits, Wait::Write) == None);
    assert!(rt; waits.of_thread(1, 3).is_some_and(|one| one.unique == 13));
    assert!(rt; waits.of_request(11).is_some_and(|one| one.tid == 2));
    assert!(rt; waits.take(10).is_some_and(|one| one.tid == 1));
    assert!(rt; waits.take(10).is_none() && waits.of_thread(1, 1).is_none());
    assert!(rt; taken(&mut waits, 15, 1, Wait::Read)? == None);
    assert!(rt; waits.take(13).is_some());
    assert!(rt; taken(&mut waits, 15, 1, Wait::Read)? == Some(1));
    Ok(())
}

#[test]
fn the_first_that_has_a_thread_is_taken_up(rt: HostRuntime) -> Result<(), NoMemory> {
    let alloc = rt.alloc();
    let mut waits = Waits::new(alloc);
    let mut queue = Queue::new(alloc);
    for unique in [10, 11] {
        assert!(rt; taken(&mut waits, unique, 1, Wait::Read)?.is_some());
    }
    assert!(rt; queue.put(3, queued(alloc, 20, 1, Wait::Read))?);
    assert!(rt; queue.put(3, queued(alloc, 21, 1, Wait::Read))?);
    assert!(rt; queue.put(3, queued(alloc, 22, 2, Wait::Read))?);
    assert!(rt; !queue.put(3, queued(alloc, 23, 2, Wait::Never))?);
    assert!(rt;
        queue
            .take_ready(TIDS, 1, &waits)
            .is_some_and(|one| one.unique == 22)
    );
    assert!(rt; queue.take_ready(TIDS, 1, &waits).is_none());
    assert!(rt; queue.take(20).is_some_and(|one| one.unique == 20));
    assert!(rt; queue.take(20).is_none());
    assert!(rt; waits.take(11).is_some());
    assert!(rt;
        queue
            .take_ready(TIDS, 1, &waits)
            .is_some_and(|one| one.unique == 21)
    );
    assert!(rt; queue.take_ready(TIDS, 1, &waits).is_none());
    Ok(())
}
