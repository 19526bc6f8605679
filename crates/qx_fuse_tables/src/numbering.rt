//! Numbers of names that the kernel is told, and numbers that are free.
ghost use Rattle.std.specs.Prelude.{◌≡◌, IfOk, OnErr, OnOk};
ghost use Rattle.qx_isolation.specs.Rows.{put_row};
ghost use Rattle.qx_fuse_tables.specs.Nodes.{free_number, has_names, is_called, is_idle, is_in, looked_up, new_node, number_for, number_of};

use crate::change::{Change, Node, change_row};
use crate::handles::{Handles, Kind};
use qx_rows::places;
use qx_types::Bytes;
use std::alloc::{AllocError, Global};

/// The first number of a node, behind that of the user's top directory.
pub(crate) const FIRST: usize = 2;

/// Whether it has a name in that directory.
fn is_in(directory: u64, place: &Option<Node>) -> bool
    ensures { result ≡ is_in directory place.now }
{
    match place {
        Some(node) => node.is_named && node.directory == directory,
        None => false,
    }
}

/// Whether it has that name there.
fn is_called(directory: u64, name: &[u8], place: &Option<Node>) -> bool
    ensures { result ≡ is_called directory name.now place.now }
{
    match place {
        Some(node) => {
            node.is_named && node.directory == directory && node.name.as_slice() == name
        }
        None => false,
    }
}

/// The number of a name in a directory.
pub(crate) fn number_of(places: &[Option<Node>], directory: u64, name: &[u8]) -> Option<usize>
    ensures number { result ≡ number_of places.now directory name.now }
{
    places
        .iter()
        .position(|place| is_called(directory, name, place))
}

/// Whether some name stands in a directory.
fn has_names(places: &[Option<Node>], directory: u64) -> bool
    ensures names { result ≡ has_names places.now directory }
{
    places.iter().any(|place| is_in(directory, place))
}

/// Whether nothing needs what stands under a number.
fn is_idle(places: &[Option<Node>], handles: &Handles, number: usize) -> bool
    ensures idle { result ≡ is_idle places.now handles.now number }
{
    match places::row(places, number) {
        Some(node) => {
            node.lookups == 0
                && !handles.is_open(number as u64)
                && !has_names(places, number as u64)
        }
        None => true,
    }
}

/// The lowest number under which nothing stands that is needed.
#[tactic(auto, using(crate::proofs::NodeLemmas::first_idle_more, crate::proofs::NodeLemmas::first_idle_here, crate::proofs::NodeLemmas::first_idle_end))]
fn free_number(places: &[Option<Node>], handles: &Handles) -> usize
    ensures number { result ≡ free_number places.now handles.now }
{
    for number in FIRST..places.len() {
        if is_idle(places, handles, number) {
            return number;
        }
    }
    places.len().max(FIRST)
}

/// Puts a name that the kernel was not told yet, told once.
fn add(
    places: &mut Vec<Option<Node>>,
    alloc: Global,
    handles: &Handles,
    directory: u64,
    name: &[u8],
    kind: Kind,
) -> Result<usize, AllocError>
    ensures number { IfOk result (λ number. number ≡ free_number places.old.items handles.now) }
    ensures ok { OnOk result (places.new.items ≡ put_row places.old.items (free_number places.old.items handles.now) (new_node directory name.now kind)) }
    ensures err { OnErr result (places.new.items ≡ places.old.items) }
{
    let bytes = Bytes::from_slice(alloc, name)?;
    let node = Node {
        directory,
        name: bytes,
        is_named: true,
        kind,
        lookups: 1,
    };
    let number = free_number(places.as_slice(), handles);
    places::put(places, number, node)?;
    Ok(number)
}

/// The number of a name of which the kernel is told.
pub(crate) fn tell(
    places: &mut Vec<Option<Node>>,
    alloc: Global,
    handles: &Handles,
    directory: u64,
    name: &[u8],
    kind: Kind,
) -> Result<usize, AllocError>
    ensures number { IfOk result (λ number. number ≡ number_for places.old.items handles.now directory name.now) }
    ensures ok { OnOk result (places.new.items ≡ looked_up places.old.items handles.now directory name.now kind) }
    ensures err { OnErr result (places.new.items ≡ places.old.items) }
{
    match number_of(places.as_slice(), directory, name) {
        Some(number) => {
            change_row(places, number, Change::Told { kind });
            Ok(number)
        }
        None => add(places, alloc, handles, directory, name, kind),
    }
}
