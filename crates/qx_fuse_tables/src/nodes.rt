//! The nodes of one user.
ghost use Rattle.std.specs.Prelude.{◌≡◌, IfOk, None, OnErr, OnOk, replicate};
ghost use Rattle.std.specs.Option.{option_copied};
ghost use Rattle.qx_isolation.specs.Rows.{row_at, with_row};
ghost use Rattle.qx_fuse_tables.specs.declared.change.Change.TheVariants.{Forgotten};
ghost use Rattle.qx_fuse_tables.specs.Nodes.{changed, looked_up, number_for, path_in, path_of, removed, renamed};

use crate::change::{Change, Node, change_row};
use crate::handles::{Handles, Kind};
use crate::numbering::{FIRST, tell};
use crate::paths::{path_from, with_name};
use crate::renaming::{remove, rename};
use qx_rows::places;
use qx_types::{Bytes, Limits};
use std::alloc::{AllocError, Global};
use std::marker::Model;

/// How many names a path may have: each takes two bytes or more.
const NAMES: usize = Limits::PATH / 2;

/// The nodes of one user, each under a number from 2. Where a node stands that nothing needs, its number is used again for the next
/// one: the kernel has forgotten it, it isn't open, and no name stands in it. A path is found by walking up, so what lies below a
/// directory follows it when that is renamed.
#[derive(Drop)]
pub struct Nodes {
    places: Vec<Option<Node>>,
}

impl Model for Nodes {
    ghost use Rattle.qx_fuse_tables.specs.Nodes.{NodeRows};

    ghost Value = { NodeRows };

    ghost view = { λ nodes. nodes.places.items };
}

impl Nodes {
    /// None. Places 0 and 1 are no node's.
    pub fn new(alloc: Global) -> Result<Nodes, AllocError>
        ensures none { IfOk result (λ nodes. nodes ≡ replicate 2 None) }
    {
        Ok(Nodes {
            places: places::free_places(alloc, FIRST)?,
        })
    }

    /// The node of a number.
    pub fn get(&self, number: u64) -> Option<&Node>
        ensures node { option_copied result ≡ row_at self.now number }
    {
        places::row(self.places.as_slice(), number as usize)
    }

    /// The number of a name in a directory, of which the kernel is told: a name that it knows has its number, and another one gets
    /// the lowest number that is free for it. It is asked once the name was found, so it is at most 64 bytes long.
    pub fn look_up(
        &mut self,
        alloc: Global,
        handles: &Handles,
        directory: u64,
        name: &[u8],
        kind: Kind,
    ) -> Result<u64, AllocError>
        ensures number { IfOk result (λ number. number ≡ number_for self.old handles.now directory name.now) }
        ensures ok { OnOk result (self.new ≡ looked_up self.old handles.now directory name.now kind) }
        ensures err { OnErr result (self.new ≡ self.old) }
    {
        let number = tell(&mut self.places, alloc, handles, directory, name, kind)?;
        Ok(number as u64)
    }

    /// The kernel forgets so many look-ups of a node, or all where there are fewer.
    pub fn forget(&mut self, number: u64, lookups: u64)
        ensures forgotten { self.new ≡ with_row self.old number (changed (Forgotten lookups)) }
    {
        let change = Change::Forgotten { lookups };
        change_row(&mut self.places, number as usize, change);
    }

    /// A name was removed. What had it is kept as long as the kernel needs it.
    pub fn removed(&mut self, directory: u64, name: &[u8])
        ensures removed { self.new ≡ removed self.old directory name.now }
    {
        remove(&mut self.places, directory, name);
    }

    /// A name became another one, in the same directory or another. What had that name before loses it.
    pub fn renamed(
        &mut self,
        alloc: Global,
        directory: u64,
        name: &[u8],
        to: u64,
        other: &[u8],
    ) -> Result<(), AllocError>
        ensures ok { OnOk result (self.new ≡ renamed self.old directory name.now to other.now) }
        ensures err { OnErr result (self.new ≡ self.old) }
    {
        rename(&mut self.places, alloc, directory, name, to, other)?;
        Ok(())
    }

    /// The path of a node, behind that of the user's top directory; none of one whose name was removed, or that of a directory above
    /// it.
    pub fn path_of(
        &self,
        alloc: Global,
        top: &[u8],
        number: u64,
    ) -> Result<Option<Bytes>, AllocError>
        ensures path { IfOk result (λ path. path ≡ path_of self.now top.now number) }
    {
        match path_from(self.places.as_slice(), alloc, top, number, NAMES)? {
            Some(path) => Ok(Some(Bytes::from_vec(path))),
            None => Ok(None),
        }
    }

    /// The path of a name in a directory.
    pub fn path_in(
        &self,
        alloc: Global,
        top: &[u8],
        directory: u64,
        name: &[u8],
    ) -> Result<Option<Bytes>, AllocError>
        ensures path { IfOk result (λ path. path ≡ path_in self.now top.now directory name.now) }
    {
        match path_from(self.places.as_slice(), alloc, top, directory, NAMES)? {
            Some(path) => {
                let path = with_name(path, name)?;
                Ok(Some(Bytes::from_vec(path)))
            }
            None => Ok(None),
        }
    }
}
