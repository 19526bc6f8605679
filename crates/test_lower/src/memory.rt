//! Things that are made, with memory and while each request for it is refused in turn.

use crate::made::{THINGS, Thing, is_made};
use std::alloc::{AllocError, Global};
use std::test::Fail;
use test_all_memory::{at_last, take_all_memory};

#[test]
fn all_is_made_with_memory(rt: HostRuntime) -> Result<(), Fail> {
    for thing in THINGS {
        assert!(rt; is_made(rt.alloc(), *thing) == Ok(true), "{thing:?}");
    }
    Ok(())
}

/// Whether a thing is refused at first, with all memory taken, and is as it should be once it is made.
fn is_made_at_last(alloc: Global, thing: Thing) -> Result<bool, AllocError> {
    let made = at_last(take_all_memory(alloc)?, || is_made(alloc, thing).ok());
    Ok(made == Some((true, true)))
}

#[test]
fn each_request_is_refused_in_turn(rt: HostRuntime) -> Result<(), Fail> {
    for thing in THINGS {
        assert!(rt; is_made_at_last(rt.alloc(), *thing)?, "{thing:?}");
    }
    Ok(())
}
