//! The place of a name of a directory among the entries of all directories.

ghost use Rattle.std.specs.Prelude.{◌≡◌, ℕ, Some, slice_get, map as mapped};
ghost use Rattle.std.specs.Ordering.{is_lt};
ghost use Rattle.qx_lists.specs.Table.{ContainsNode};
ghost use Rattle.qx_names.specs.inner.Children.{IsRising, count_to, entry_of};
ghost use Rattle.qx_names.specs.inner.Folders.{place_cmp};

use crate::entry::Entry;
use qx_lists::Table;

/// How many nodes of an index stand before the first whose place is behind this one. A search by halving.
pub(crate) fn place_behind(
    table: &Table<Entry>,
    index: &[usize],
    directory: u32,
    name: &[u8],
) -> usize
    requires there { (k node : ℕ) → slice_get index.now k ≡ Some node → ContainsNode table.now node }
    requires rising { IsRising (mapped (entry_of table.now) index.now) }
    ensures { result ≡ count_to (directory, name.now) (mapped (entry_of table.now) index.now) }
{
    let mut low = 0;
    let mut high = index.len();
    'halves: while low < high {
        let middle = low + (high - low) / 2;
        if is_before(directory, name, table.value(index[middle])) {
            high = middle;
        } else {
            low = middle + 1;
        }
    }
    low
}

/// Whether a name of a directory stands before an entry.
fn is_before(directory: u32, name: &[u8], entry: &Entry) -> bool
    ensures { result ≡ is_lt (place_cmp (directory, name.now) entry.now.0) }
{
    let other = entry.directory();
    if directory == other {
        name < entry.name()
    } else {
        directory < other
    }
}
