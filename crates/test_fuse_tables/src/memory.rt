//! What is refused memory changes nothing.

use qx_fuse_tables::{Handles, Kind, Nodes, TOP};
use qx_types::NoMemory;
use std::alloc::Global;
use test_all_memory::take_all_memory;

const NAMES: [&str; 6] = ["a", "bb", "ccc", "dddd", "eeeee", "ffffff"];

/// Whether a name is refused while all memory is taken.
fn is_refused(alloc: Global, nodes: &mut Nodes, name: &str) -> Result<bool, NoMemory> {
    let _pieces = take_all_memory(alloc)?;
    let handles = Handles::new(alloc);
    let found = nodes.look_up(alloc, &handles, TOP, name.as_bytes(), Kind::File);
    Ok(found.is_err())
}

#[test]
fn a_name_that_was_refused_has_no_number(rt: HostRuntime) -> Result<(), NoMemory> {
    let alloc = rt.alloc();
    let mut nodes = Nodes::new(alloc)?;
    let handles = Handles::new(alloc);
    let mut next = 2u64;
    for name in NAMES {
        assert!(rt; is_refused(alloc, &mut nodes, name)?);
        assert!(rt; nodes.get(next).is_none());
        let number = nodes.look_up(alloc, &handles, TOP, name.as_bytes(), Kind::File)?;
        assert!(rt; number == next);
        next = next.wrapping_add(1);
    }
    Ok(())
}
