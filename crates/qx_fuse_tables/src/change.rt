//! A node, and what becomes of one.
ghost use Rattle.std.specs.Prelude.{◌≡◌, option_map};
ghost use Rattle.qx_isolation.specs.Rows.{with_row};
ghost use Rattle.qx_fuse_tables.specs.Nodes.{changed, changed_at};

use crate::handles::Kind;
use qx_types::Bytes;

/// The number of a user's top directory, of which no node is kept.
pub const TOP: u64 = 1;

/// A name that the kernel was told: the node of its directory, and its bytes. Where the name was removed, they are those that it had.
#[derive(Debug, Drop)]
pub struct Node {
    pub directory: u64,
    pub name: Bytes,
    pub is_named: bool,
    pub kind: Kind,
    /// How many times the kernel was told of it, less those that it forgot.
    pub lookups: u64,
}

/// What becomes of a node.
#[derive(Debug, Drop)]
pub enum Change {
    /// The kernel is told of it once more.
    Told { kind: Kind },
    /// So many times are forgotten, or all where there are fewer.
    Forgotten { lookups: u64 },
    /// It has no name any more.
    Unnamed,
    /// It has another name, in that directory.
    Moved { directory: u64, name: Bytes },
}

/// Changes a node.
fn change_node(node: &mut Node, change: Change)
    ensures { node.new ≡ changed change node.old }
{
    match change {
        Change::Told { kind } => {
            node.lookups = node.lookups.saturating_add(1);
            node.kind = kind;
        }
        Change::Forgotten { lookups } => node.lookups = node.lookups.saturating_sub(lookups),
        Change::Unnamed => node.is_named = false,
        Change::Moved { directory, name } => {
            node.directory = directory;
            node.name = name;
        }
    }
}

/// Changes what stands at a place, if there is something.
fn change_place(place: &mut Option<Node>, change: Change)
    ensures { place.new ≡ option_map (changed change) place.old }
{
    if let Some(node) = place {
        change_node(node, change);
    }
}

/// Changes the node of a number, if there is one.
pub(crate) fn change_row(places: &mut Vec<Option<Node>>, number: usize, change: Change)
    ensures { places.new.items ≡ with_row places.old.items number (changed change) }
{
    if number < places.len() {
        change_place(&mut places[number], change);
    }
}

/// The same, if a number is given.
pub(crate) fn change_at(places: &mut Vec<Option<Node>>, number: Option<usize>, change: Change)
    ensures { places.new.items ≡ changed_at places.old.items change number }
{
    if let Some(number) = number {
        change_row(places, number, change);
    }
}
