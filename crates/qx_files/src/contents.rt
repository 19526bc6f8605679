ghost use Rattle.std.specs.Prelude.{◌≡◌, ◌+◌, None, Some, IfOk, replicate, slice_set};
ghost use Rattle.std.specs.Option.{option_copied, option_copied_mut};
ghost use Rattle.std.specs.Borrow.{sem};
ghost use Rattle.qx_files.specs.Blocks.{nothing};
ghost use Rattle.qx_isolation.specs.Rows.{row_at};
ghost use Rattle.qx_types.specs.declared.limits.TheConstants.Limits.{INODES};
ghost use Rattle.qx_files.specs.inner.Lends.{lends_bytes};

use crate::data::Data;
use qx_rows::places;
use qx_types::Limits;
use std::alloc::{AllocError, Global};
use std::marker::Model;

/// The bytes of files, each under the number of its inode.
#[derive(Drop)]
pub struct Contents {
    places: Vec<Option<Data>>,
}

impl Model for Contents {
    ghost use Rattle.std.specs.Prelude.{List, Option};
    ghost use Rattle.qx_files.specs.Blocks.{Held};

    ghost Value = { List (Option Held) };

    ghost view = { λ c. c.places.items };
}

impl Contents {
    /// A place for each inode, and no bytes.
    pub fn new(alloc: Global) -> Result<Self, AllocError>
        ensures none { IfOk result (λ contents. contents ≡ replicate (INODES + 1) None) }
    {
        Ok(Contents {
            places: places::free_places(alloc, Limits::INODES + 1)?,
        })
    }

    /// The bytes of a file.
    pub fn get(&self, inode: u32) -> Option<&Data>
        ensures bytes { option_copied result ≡ row_at self.now inode }
    {
        places::row(self.places.as_slice(), inode as usize)
    }

    /// Puts a file with no bytes under a number.
    pub fn put(&mut self, inode: u32)
        ensures put { self.new ≡ slice_set self.old inode (Some nothing) }
    {
        let data = Data::new(*self.places.allocator());
        places::set(&mut self.places, inode as usize, data);
    }

    /// The bytes of a file, for writing.
    pub fn get_mut(&mut self, inode: u32) -> Option<&mut Data>
        ensures* writes_back { sem 𝓛 (lends_bytes self.entry inode result) }
        ensures bytes { option_copied_mut result ≡ row_at self.old inode }
    {
        self.places.get_mut(inode as usize)?.as_mut()
    }

    /// Takes the bytes of a file away.
    pub fn remove(&mut self, inode: u32)
        ensures removed { self.new ≡ slice_set self.old inode None }
    {
        places::free(&mut self.places, inode as usize);
    }
}
