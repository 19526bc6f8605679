//! Takes all memory that can be had, for tests of what needs none, and of what is had at last.
//!
//! While what `take_all_memory` gave is kept, each request for memory fails.
#![tactic(auto)]

use std::alloc::{AllocError, Global};

/// More pieces than fill an address space, where one may be as large as the machine's memory.
const PIECES: usize = 1 << 16;

/// More than there are pieces of memory in what is given.
const MORE: u32 = 1 << 20;

/// Takes all memory, in ever smaller pieces, until not one byte is given: while these are kept, each request is refused.
/// Nothing is written to it. Under the checks of `rt try` small pieces never come to an end, and this is an error.
pub fn take_all_memory(alloc: Global) -> Result<Vec<Vec<u8>>, AllocError> {
    let mut pieces = Vec::with_capacity(alloc, PIECES)?;
    let mut size = 1 << 46;
    for _ in 0..36 {
        take_pieces(alloc, &mut pieces, size)?;
        size /= 2;
    }
    for less in 0..256 {
        take_pieces(alloc, &mut pieces, 2048 - 8 * less)?;
    }
    Ok(pieces)
}

/// Takes pieces of a size until one is refused.
fn take_pieces(alloc: Global, pieces: &mut Vec<Vec<u8>>, size: usize) -> Result<(), AllocError> {
    for _ in 0..PIECES {
        match Vec::with_capacity(alloc, size) {
            Ok(piece) => pieces.push(piece)?,
            Err(_) => break,
        }
    }
    Ok(())
}

/// Asks while these pieces of memory are kept, and again with one of them less at each time, the smallest first, until
/// something is given; and whether it was refused at first.
pub fn at_last<T: Drop, F: FnMut() -> Option<T>>(
    mut pieces: Vec<Vec<u8>>,
    mut ask: F,
) -> Option<(T, bool)>
    requires { F.IsAlwaysCallable ask }
{
    let mut is_refused = false;
    for _ in 0..MORE {
        if let Some(given) = ask() {
            return Some((given, is_refused));
        }
        is_refused = true;
        pieces.pop();
    }
    None
}
