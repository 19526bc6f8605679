//! Names that are told, forgotten, removed and renamed.

use qx_fuse_tables::{Handle, Handles, Kind, Nodes, TOP};
use qx_types::{Coid, NoMemory};
use std::alloc::Global;

const FILE: Kind = Kind::File;

/// A handle to a node.
fn handle_to(node: u64) -> Handle {
    Handle {
        process: 1,
        coid: Coid(3),
        node,
        kind: FILE,
        flags: 0,
    }
}

/// Whether a node has that path, below `/ann`; no path if none is given.
fn has_path(
    alloc: Global,
    nodes: &Nodes,
    number: u64,
    path: Option<&str>,
) -> Result<bool, NoMemory> {
    let found = nodes.path_of(alloc, b"/ann", number)?;
    Ok(match (&found, path) {
        (Some(found), Some(path)) => found.as_slice() == path.as_bytes(),
        (None, None) => true,
        _ => false,
    })
}

/// The number of a name, told once more, where nothing is open.
fn told(alloc: Global, nodes: &mut Nodes, directory: u64, name: &str) -> Result<u64, NoMemory> {
    let handles = Handles::new(alloc);
    let number = nodes.look_up(alloc, &handles, directory, name.as_bytes(), FILE)?;
    Ok(number)
}

/// `a` has 2, `a/b` 3 and `a/b/c` 4.
fn three(alloc: Global) -> Result<Nodes, NoMemory> {
    let mut nodes = Nodes::new(alloc)?;
    told(alloc, &mut nodes, TOP, "a")?;
    told(alloc, &mut nodes, 2, "b")?;
    told(alloc, &mut nodes, 3, "c")?;
    Ok(nodes)
}

#[test]
fn a_name_keeps_its_number(rt: HostRuntime) -> Result<(), NoMemory> {
    let alloc = rt.alloc();
    let mut nodes = three(alloc)?;
    assert!(rt; told(alloc, &mut nodes, 3, "c")? == 4);
    assert!(rt; told(alloc, &mut nodes, 3, "d")? == 5);
    assert!(rt; has_path(alloc, &nodes, TOP, Some("/ann"))?);
    assert!(rt; has_path(alloc, &nodes, 4, Some("/ann/a/b/c"))?);
    assert!(rt; has_path(alloc, &nodes, 9, None)?);
    let path = nodes.path_in(alloc, b"/ann", 3, b"new")?;
    assert!(rt; path.is_some_and(|path| path.as_slice() == "/ann/a/b/new".as_bytes()));
    Ok(())
}

#[test]
fn what_lies_below_follows_a_rename(rt: HostRuntime) -> Result<(), NoMemory> {
    let alloc = rt.alloc();
    let mut nodes = three(alloc)?;
    assert!(rt; told(alloc, &mut nodes, TOP, "x")? == 5);
    nodes.renamed(alloc, TOP, b"a", TOP, b"x")?;
    assert!(rt; has_path(alloc, &nodes, 4, Some("/ann/x/b/c"))?);
    assert!(rt; has_path(alloc, &nodes, 5, None)?);
    nodes.renamed(alloc, 3, b"c", TOP, b"a")?;
    assert!(rt; has_path(alloc, &nodes, 4, Some("/ann/a"))?);
    assert!(rt; told(alloc, &mut nodes, 3, "c")? == 6);
    nodes.renamed(alloc, TOP, b"a", TOP, b"a")?;
    assert!(rt; has_path(alloc, &nodes, 4, Some("/ann/a"))?);
    Ok(())
}

#[test]
fn a_removed_name_has_no_path_and_keeps_its_number(rt: HostRuntime) -> Result<(), NoMemory> {
    let alloc = rt.alloc();
    let mut nodes = three(alloc)?;
    nodes.removed(3, b"c");
    assert!(rt; has_path(alloc, &nodes, 4, None)?);
    assert!(rt; told(alloc, &mut nodes, 3, "c")? == 5);
    assert!(rt; has_path(alloc, &nodes, 5, Some("/ann/a/b/c"))?);
    nodes.removed(2, b"b");
    assert!(rt; has_path(alloc, &nodes, 5, None)?);
    Ok(())
}

#[test]
fn a_number_is_used_again_once_nothing_needs_it(rt: HostRuntime) -> Result<(), NoMemory> {
    let alloc = rt.alloc();
    let mut nodes = three(alloc)?;
    nodes.forget(3, 9);
    nodes.forget(2, 1);
    assert!(rt; told(alloc, &mut nodes, TOP, "d")? == 5);
    nodes.forget(4, 1);
    let mut handles = Handles::new(alloc);
    let number = handles.put(handle_to(4))?;
    assert!(rt; nodes.look_up(alloc, &handles, TOP, b"e", FILE)? == 6);
    assert!(rt; handles.take(number).is_some());
    assert!(rt; nodes.look_up(alloc, &handles, TOP, b"f", FILE)? == 4);
    assert!(rt; nodes.look_up(alloc, &handles, TOP, b"g", FILE)? == 3);
    assert!(rt; nodes.look_up(alloc, &handles, TOP, b"h", FILE)? == 2);
    assert!(rt; has_path(alloc, &nodes, 2, Some("/ann/h"))?);
    Ok(())
}

#[test]
fn a_handle_has_the_lowest_free_number(rt: HostRuntime) -> Result<(), NoMemory> {
    let alloc = rt.alloc();
    let mut handles = Handles::new(alloc);
    assert!(rt; handles.put(handle_to(7))? == 0);
    assert!(rt; handles.put(handle_to(8))? == 1);
    assert!(rt; handles.put(handle_to(7))? == 2);
    assert!(rt; handles.take(0).is_some_and(|handle| handle.node == 7));
    assert!(rt; handles.take(0).is_none());
    assert!(rt; handles.first_to(7).is_some() && handles.is_open(8));
    handles.set(2, handle_to(9));
    assert!(rt; handles.first_to(7).is_none() && !handles.is_open(7));
    assert!(rt; handles.put(handle_to(7))? == 0);
    assert!(rt; handles.get(1).is_some_and(|handle| handle.node == 8));
    assert!(rt; handles.get(4_294_967_296).is_none());
    Ok(())
}
