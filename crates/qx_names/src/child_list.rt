//! The entries of all directories of a user, one directory's behind another's, in a list of a table that the caller lends.

ghost use Rattle.std.specs.Prelude.{◌≡◌, ◌==◌, ◌*◌, ◌≤◌, ℕ, [], None, Some, IfNone, IfSome, OnErr, OnOk, insert, length, map as mapped, max, slice_get};
ghost use Rattle.std.specs.FinMap as map;
ghost use Rattle.std.specs.FinMap.Entries.{find};
ghost use Rattle.qx_lists.specs.Table.{IsFree, with_nodes};
ghost use Rattle.qx_machine.specs.Names.{is_empty, names_behind, fitting, listing};
ghost use Rattle.qx_names.specs.inner.Children.{Keeps, Turns, entries_of, folder_of, no_children};
ghost use Rattle.qx_names.specs.inner.Folders.{names_of, place_cmp};
ghost use Rattle.qx_types.specs.declared.limits.TheConstants.Limits.{COMPONENT, TRANSFER};

use crate::entry::Entry;
use crate::search::place_behind;
use qx_lists::Table;
use qx_rows::{Reply, growth};
use qx_types::Limits;
use std::alloc::{AllocError, Global};
use std::marker::Model;

/// The entries of all directories: a list of the table, by directory and then in the order of the names' bytes, and beside it
/// an index, which has the list's nodes in the list's order. By the index a name is found, by the list the next one. An entry
/// that goes to another directory stays one of them, so that takes no memory. The index has memory for at most twice as many
/// entries as there ever were, and none where there is no entry.
#[derive(Drop)]
pub(crate) struct ChildList {
    // None where there is no entry.
    list: Option<usize>,
    index: Vec<usize>,
}

impl Model for ChildList {
    ghost use Rattle.std.specs.Prelude.{◌≡◌, length, vec_capacity};
    ghost use Rattle.qx_names.specs.inner.Children.{Children, children_code};

    ghost Value = { Children };

    ghost coded = { children_code };

    ghost view = { λ c. record { list = c.list; nodes = c.index.items; capacity = vec_capacity c.index } };

    ghost invariant = { λ c. length c.index.items ≡ 0 → vec_capacity c.index ≡ 0 };
}

impl ChildList {
    /// No entries, which take no memory.
    pub(crate) fn new(alloc: Global) -> Self
        ensures none { result ≡ no_children }
    {
        ChildList {
            list: None,
            index: Vec::new(alloc),
        }
    }

    /// Whether a directory has no entries.
    pub(crate) fn is_empty(&self, table: &Table<Entry>, directory: u32) -> bool
        requires keeps { Keeps table.now self.now }
        ensures { result ≡ is_empty (names_of directory (entries_of table.now self.now)) }
    {
        let None = self.position(table, directory, &[]) else {
            return false;
        };
        table.know();
        let place = place_behind(table, &self.index, directory, &[]);
        let Some(node) = node_at(&self.index, place) else {
            return true;
        };
        table.value(node).directory() != directory
    }

    /// What a name names in a directory.
    pub(crate) fn get(&self, table: &Table<Entry>, directory: u32, name: &[u8]) -> Option<u32>
        requires keeps { Keeps table.now self.now }
        ensures entry { result ≡ find place_cmp (directory, name.now) (entries_of table.now self.now) }
    {
        table.know();
        let place = self.position(table, directory, name)?;
        Some(table.value(self.index[place]).inode())
    }

    /// The place of a name's entry.
    fn position(&self, table: &Table<Entry>, directory: u32, name: &[u8]) -> Option<usize>
        requires keeps { Keeps table.now self.now }
        ensures found { IfSome result (λ place. (inode : ℕ) × (slice_get (entries_of table.now self.now) place ≡ Some ((directory, name.now), inode))) }
        ensures missing { IfNone result (find place_cmp (directory, name.now) (entries_of table.now self.now) ≡ None) }
    {
        table.know();
        let behind = place_behind(table, &self.index, directory, name);
        if behind == 0 {
            return None;
        }
        if table.value(self.index[behind - 1]).is_at(directory, name) {
            Some(behind - 1)
        } else {
            None
        }
    }

    /// Puts an entry in whose place is new. Where memory is short, nothing changes.
    pub(crate) fn insert(
        &mut self,
        table: &mut Table<Entry>,
        directory: u32,
        name: &[u8],
        inode: u32,
    ) -> Result<(), AllocError>
        requires keeps { Keeps table.old self.old }
        requires new { find place_cmp (directory, name.now) (entries_of table.old self.old) ≡ None }
        ensures turns { Turns table.old table.new self.old self.new }
        ensures ok { OnOk result (folder_of table.new self.new ≡ map.insert (folder_of table.old self.old) (directory, name.now) inode) }
        ensures err { OnErr result (folder_of table.new self.new ≡ folder_of table.old self.old) }
        ensures capacity { self.new.capacity ≤ max self.old.capacity (2 * length self.new.nodes) }
    {
        let Some(list) = self.list else {
            return self.insert_first(table, directory, name, inode);
        };
        table.know();
        let place = place_behind(table, &self.index, directory, name);
        let entry = Entry::new(directory, name, inode)?;
        growth::reserve(&mut self.index, 1)?;
        table.reserve(1)?;
        let node = table.new_node(entry)?;
        link_at(table, list, &self.index, place, node);
        self.index.insert(place, node)?;
        Ok(())
    }

    /// Puts an entry in where there is none, which makes the list.
    fn insert_first(
        &mut self,
        table: &mut Table<Entry>,
        directory: u32,
        name: &[u8],
        inode: u32,
    ) -> Result<(), AllocError>
        requires keeps { Keeps table.old self.old }
        requires none { self.old.list ≡ None }
        ensures turns { Turns table.old table.new self.old self.new }
        ensures ok { OnOk result (folder_of table.new self.new ≡ map.insert (folder_of table.old self.old) (directory, name.now) inode) }
        ensures err { OnErr result (folder_of table.new self.new ≡ folder_of table.old self.old) }
        ensures capacity { self.new.capacity ≤ max self.old.capacity (2 * length self.new.nodes) }
    {
        table.know();
        let entry = Entry::new(directory, name, inode)?;
        let mut index = Vec::with_capacity(*self.index.allocator(), 1)?;
        table.reserve(1)?;
        let list = table.add_list()?;
        let node = table.new_node(entry)?;
        qx_uncounted::push_back(table, list, node);
        index.push_reserved(node);
        *self = ChildList {
            list: Some(list),
            index,
        };
        Ok(())
    }

    /// Takes an entry out, and gives back the list with the last one.
    pub(crate) fn remove(&mut self, table: &mut Table<Entry>, directory: u32, name: &[u8])
        requires keeps { Keeps table.old self.old }
        ensures turns { Turns table.old table.new self.old self.new }
        ensures removed { folder_of table.new self.new ≡ map.remove (folder_of table.old self.old) (directory, name.now) }
        ensures capacity { self.new.capacity ≤ self.old.capacity }
    {
        let Some(list) = self.list else {
            return;
        };
        let Some(place) = self.position(table, directory, name) else {
            return;
        };
        table.know();
        let node = self.index.remove(place);
        qx_uncounted::unlink(table, list, node);
        table.free_node(node);
        if self.index.is_empty() {
            table.free_list(list);
            *self = ChildList::new(*self.index.allocator());
        }
    }

    /// An entry goes to another place, which is new. Takes no memory: the node that it has goes there.
    pub(crate) fn rename(
        &mut self,
        table: &mut Table<Entry>,
        directory: u32,
        name: &[u8],
        target: u32,
        next: &[u8],
    )
        requires keeps { Keeps table.old self.old }
        requires new { find place_cmp (target, next.now) (entries_of table.old self.old) ≡ None }
        requires short { length next.now ≤ COMPONENT }
        ensures turns { Turns table.old table.new self.old self.new }
        ensures renamed { (inode : ℕ) → find place_cmp (directory, name.now) (entries_of table.old self.old) ≡ Some inode → folder_of table.new self.new ≡ map.insert (map.remove (folder_of table.old self.old) (directory, name.now)) (target, next.now) inode }
        ensures missing { find place_cmp (directory, name.now) (entries_of table.old self.old) ≡ None → folder_of table.new self.new ≡ folder_of table.old self.old }
        ensures capacity { self.new.capacity ≤ self.old.capacity }
    {
        let Some(list) = self.list else {
            return;
        };
        let Some(place) = self.position(table, directory, name) else {
            return;
        };
        table.know();
        let node = self.index.remove(place);
        qx_uncounted::unlink(table, list, node);
        table.value_mut(node).go_to(target, next);
        table.know();
        let place = place_behind(table, &self.index, target, next);
        link_at(table, list, &self.index, place, node);
        let _room = self.index.insert(place, node);
    }

    /// Writes the names of a directory behind one, each followed by a zero byte, as many whole ones as fit a
    /// transfer, and tells how many.
    pub(crate) fn list(
        &self,
        table: &Table<Entry>,
        directory: u32,
        after: &[u8],
        reply: &mut Reply,
    ) -> u64
        requires keeps { Keeps table.now self.now }
        requires empty { reply.old ≡ [] }
        ensures names { reply.new ≡ listing (fitting TRANSFER (names_behind after.now (names_of directory (entries_of table.now self.now)))) }
        ensures count { result ≡ length (fitting TRANSFER (names_behind after.now (names_of directory (entries_of table.now self.now)))) }
    {
        let Some(list) = self.list else {
            return 0;
        };
        table.know();
        let place = place_behind(table, &self.index, directory, after);
        let mut next = node_at(&self.index, place);
        let mut room = Limits::TRANSFER;
        let mut count = 0;
        'nodes: while let Some(node) = next {
            let entry = table.value(node);
            if entry.directory() != directory {
                return count;
            }
            let name = entry.name();
            if name.len() + 1 > room {
                return count;
            }
            reply.push(name);
            reply.push(&[0]);
            room -= name.len() + 1;
            count += 1;
            next = qx_uncounted::next(table, list, node);
        }
        count
    }
}

/// The node of a place.
fn node_at(index: &[usize], place: usize) -> Option<usize>
    ensures { result ≡ slice_get index.now place }
{
    index.get(place).copied()
}

/// Puts a free node into a list, whose nodes the index has, so that it stands at a place.
fn link_at(table: &mut Table<Entry>, list: usize, index: &[usize], place: usize, node: usize)
    requires list { map.get table.old.lists list ≡ Some index.now }
    requires place { place ≤ length index.now }
    requires free { IsFree table.old node }
    ensures { table.new ≡ with_nodes table.old list (insert index.now place node) }
{
    table.know();
    match node_at(index, place) {
        Some(next) => qx_uncounted::insert_before(table, list, next, node),
        None => qx_uncounted::push_back(table, list, node),
    }
}
