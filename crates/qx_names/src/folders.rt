//! The entries of all directories of a user.

ghost use Rattle.std.specs.Prelude.{◌≡◌, ◌≤◌, [], None, Some, OnErr, OnOk, length, ℕ};
ghost use Rattle.std.specs.FinMap as map;
ghost use Rattle.qx_machine.specs.Names.{names_behind, fitting, is_empty, listing};
ghost use Rattle.qx_names.specs.inner.Folders.{Changes, Moves, entry_at, names_of};
ghost use Rattle.qx_types.specs.declared.limits.TheConstants.Limits.{COMPONENT, TRANSFER};

use crate::child_list::ChildList;
use crate::entry::Entry;
use qx_lists::Table;
use qx_rows::Reply;
use std::alloc::{AllocError, Global};
use std::marker::Model;

/// The entries of all directories, in one list of a table of nodes.
#[derive(Drop)]
pub struct Folders {
    table: Table<Entry>,
    children: ChildList,
}

impl Model for Folders {
    ghost use Rattle.qx_names.specs.inner.Children.{KeepsAll, folder_of};
    ghost use Rattle.qx_names.specs.inner.Folders.{Entries, entries_code};

    ghost Value = { Entries };

    ghost coded = { entries_code };

    ghost view = { λ f. folder_of f.table f.children };

    ghost invariant = { λ f. KeepsAll f.table f.children };
}

impl Folders {
    /// No entries, which take no memory.
    pub fn new(alloc: Global) -> Self
        ensures none { result ≡ map.empty }
    {
        Folders {
            table: Table::new(alloc),
            children: ChildList::new(alloc),
        }
    }

    /// What a name names in a directory.
    pub fn entry(&self, directory: u32, name: &[u8]) -> Option<u32>
        ensures entry { result ≡ entry_at self.now directory name.now }
    {
        self.children.get(&self.table, directory, name)
    }

    /// Whether a directory has no entries.
    pub fn is_empty(&self, directory: u32) -> bool
        ensures empty { result ≡ is_empty (names_of directory (map.entries self.now)) }
    {
        self.children.is_empty(&self.table, directory)
    }

    /// Writes the names in a directory behind one, each followed by a zero byte, as many whole ones as fit a transfer, and
    /// tells how many.
    pub fn list(&self, directory: u32, after: &[u8], reply: &mut Reply) -> u64
        requires empty { reply.old ≡ [] }
        ensures names { reply.new ≡ listing (fitting TRANSFER (names_behind after.now (names_of directory (map.entries self.now)))) }
        ensures count { result ≡ length (fitting TRANSFER (names_behind after.now (names_of directory (map.entries self.now)))) }
    {
        self.children.list(&self.table, directory, after, reply)
    }

    /// Puts an entry whose name is new into a directory. Where memory is short, no entry changes.
    pub fn put(&mut self, directory: u32, name: &[u8], inode: u32) -> Result<(), AllocError>
        requires new { entry_at self.old directory name.now ≡ None }
        ensures ok { OnOk result (self.new ≡ map.insert self.old (directory, name.now) inode) }
        ensures err { OnErr result (self.new ≡ self.old) }
    {
        self.children
            .insert(&mut self.table, directory, name, inode)?;
        Ok(())
    }

    /// Takes an entry out of a directory.
    pub fn take(&mut self, directory: u32, name: &[u8])
        ensures taken { self.new ≡ map.remove self.old (directory, name.now) }
    {
        self.children.remove(&mut self.table, directory, name);
    }

    /// An entry goes to another place, which is new. Takes no memory.
    pub fn rename(&mut self, directory: u32, name: &[u8], target: u32, next: &[u8])
        requires new { entry_at self.old target next.now ≡ None }
        requires short { length next.now ≤ COMPONENT }
        ensures renamed { (inode : ℕ) → entry_at self.old directory name.now ≡ Some inode → self.new ≡ map.insert (map.remove self.old (directory, name.now)) (target, next.now) inode }
        ensures missing { entry_at self.old directory name.now ≡ None → self.new ≡ self.old }
    {
        self.children
            .rename(&mut self.table, directory, name, target, next);
    }
}
