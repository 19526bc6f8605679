//! The threads of a program: how one is started that tools show under a name, and what all of them return.
ghost use Rattle.std.specs.Prelude.{◌≡◌, IfOk, vec_len};

use std::alloc::{AllocError, Global};
use std::thread::{Builder, JoinHandle, Threads};

/// How a thread is started that tools show under this name.
pub fn named(alloc: Global, kind: &str, number: u16) -> Result<Builder, AllocError> {
    Ok(Builder::new().name(format!(in alloc; "{kind} {number}")?))
}

/// Waits for threads, and gives what they return.
pub fn joined<T: Send + Drop, R: Threads>(
    rt: &R,
    alloc: Global,
    threads: Vec<JoinHandle<T>>,
) -> Result<Vec<T>, AllocError>
    ensures { IfOk result (λ results. vec_len results ≡ vec_len threads) }
{
    let mut results = Vec::new(alloc);
    for thread in threads {
        results.push(thread.join(rt))?;
    }
    Ok(results)
}
