//! Names that go, and names that become others.
ghost use Rattle.std.specs.Prelude.{◌≡◌, OnErr, OnOk};
ghost use Rattle.qx_fuse_tables.specs.Nodes.{moved, removed, renamed};

use crate::change::{Change, Node, change_at};
use crate::numbering::number_of;
use qx_types::Bytes;
use std::alloc::{AllocError, Global};

/// What has a name loses it.
pub(crate) fn remove(places: &mut Vec<Option<Node>>, directory: u64, name: &[u8])
    ensures { places.new.items ≡ removed places.old.items directory name.now }
{
    let number = number_of(places.as_slice(), directory, name);
    change_at(places, number, Change::Unnamed);
}

/// What has a name gets another one.
fn go_to(places: &mut Vec<Option<Node>>, directory: u64, name: &[u8], to: u64, other: Bytes)
    ensures { places.new.items ≡ moved places.old.items directory name.now to other }
{
    let number = number_of(places.as_slice(), directory, name);
    let change = Change::Moved {
        directory: to,
        name: other,
    };
    change_at(places, number, change);
}

/// A name becomes another one, which what had it before loses.
pub(crate) fn rename(
    places: &mut Vec<Option<Node>>,
    alloc: Global,
    directory: u64,
    name: &[u8],
    to: u64,
    other: &[u8],
) -> Result<(), AllocError>
    ensures ok { OnOk result (places.new.items ≡ renamed places.old.items directory name.now to other.now) }
    ensures err { OnErr result (places.new.items ≡ places.old.items) }
{
    if directory == to && name == other {
        return Ok(());
    }
    let copy = Bytes::from_slice(alloc, other)?;
    remove(places, to, other);
    go_to(places, directory, name, to, copy);
    Ok(())
}
