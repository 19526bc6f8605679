ghost use Rattle.std.specs.Prelude.{◌≡◌, ◌+◌, ◌<◌, ◌≤◌, None, IfOk, IsSome, IsSomeAnd, OnOk, OnErr, length, option_map};
ghost use Rattle.std.specs.Option.{option_copied};
ghost use Rattle.qx_files.specs.Blocks.{Held, LacksBlock, after_write, blocks_for, count_of};
ghost use Rattle.qx_files.specs.Files as kept;
ghost use Rattle.qx_files.specs.Files.{FileLacksBlock, blocks_pasted, pasted, with_nothing};
ghost use Rattle.qx_files.specs.inner.Kept.{files_of};
ghost use Rattle.qx_machine.specs.Files.{size_of, total_size};
ghost use Rattle.qx_isolation.specs.Rows.{row_at, with_row};
ghost use Rattle.qx_types.specs.declared.limits.TheConstants.Limits.{FILE, FILES};

use crate::contents::Contents;
use crate::data::Data;
use std::alloc::{AllocError, Global};
use std::marker::Model;

/// The bytes of one user's files, with the sum of their sizes, which is at most 1,048,576.
#[derive(Drop)]
pub struct Files {
    contents: Contents,
    // The sum of the sizes.
    total: usize,
}

impl Model for Files {
    ghost use Rattle.std.specs.Prelude.{◌≡◌, ◌≤◌};
    ghost use Rattle.std.specs.List.{sum_by};
    ghost use Rattle.qx_files.specs.Files as kept;
    ghost use Rattle.qx_files.specs.inner.Kept.{files_of, kept_of};
    ghost use Rattle.qx_machine.specs.Files.{size_of};
    ghost use Rattle.qx_types.specs.declared.limits.TheConstants.Limits.{FILES};

    ghost Value = { kept.Kept };

    ghost view = { λ f. kept_of f.contents };

    ghost invariant = { λ f. record {
      summed : f.total ≡ sum_by size_of (files_of f.contents);
      few : f.total ≤ FILES;
    } };
}

impl Files {
    /// None.
    pub fn new(alloc: Global) -> Result<Self, AllocError>
        ensures none { IfOk result (λ files. files ≡ kept.none_kept) }
    {
        Ok(Files {
            contents: Contents::new(alloc)?,
            total: 0,
        })
    }

    /// The bytes of a file.
    pub fn get(&self, inode: u32) -> Option<&Data>
        ensures bytes { option_map (λ (held : Held). held.bytes) (option_copied result) ≡ row_at self.now.files inode }
    {
        self.contents.get(inode)
    }

    /// The sum of the sizes of all files.
    pub fn total(&self) -> usize
        ensures sum { result ≡ total_size self.now.files }
        ensures few { result ≤ FILES }
    {
        self.total
    }

    /// Puts a file with no bytes under the number of an inode that has none.
    pub fn add(&mut self, inode: u32)
        requires free { row_at self.old.files inode ≡ None }
        ensures made { self.new ≡ with_nothing inode self.old }
    {
        self.contents.put(inode);
    }

    /// How many blocks of a file are there: no more than its bytes need, and none where no file is.
    pub fn blocks(&self, inode: u32) -> usize
        ensures count { result ≡ count_of (row_at self.now.blocks inode) }
        ensures few { result ≤ blocks_for (size_of (row_at self.now.files inode)) }
    {
        match self.contents.get(inode) {
            Some(data) => data.blocks(),
            None => 0,
        }
    }

    /// Takes the bytes of a file, with their memory.
    pub fn clear(&mut self, inode: u32)
        requires file { IsSome (row_at self.old.files inode) }
        ensures empty { self.new ≡ with_nothing inode self.old }
    {
        if let Some(data) = self.contents.get_mut(inode) {
            self.total -= data.len();
            data.clear();
        }
    }

    /// Takes a file away, if one is there.
    pub fn remove(&mut self, inode: u32)
        ensures { self.new ≡ kept.without inode self.old }
    {
        if let Some(data) = self.contents.get(inode) {
            self.total -= data.len();
            self.contents.remove(inode);
        }
    }

    /// Puts bytes into a file at an offset, with zero bytes in a gap before them, and gives its size then. The blocks in
    /// which they stand are made first, and where memory is short nothing changes: it is wanted only where one of these
    /// isn't there, which reads as zero bytes then.
    pub fn write(&mut self, inode: u32, offset: usize, new: &[u8]) -> Result<usize, AllocError>
        requires within { offset + length new.now ≤ FILE }
        requires few { total_size (pasted self.old.files inode offset new.now) ≤ FILES }
        ensures size { IfOk result (λ size. size ≡ size_of (row_at self.new.files inode)) }
        ensures ok { OnOk result (self.new ≡ record { files = pasted self.old.files inode offset new.now; blocks = blocks_pasted self.old.blocks inode offset (length new.now) }) }
        ensures err { OnErr result (self.new ≡ self.old) }
        ensures lacks { OnErr result (FileLacksBlock self.old inode offset (length new.now)) }
    {
        let (before, after) = paste(&mut self.contents, inode, offset, new)?;
        self.total = self.total - before + after;
        Ok(after)
    }
}

/// Puts bytes into a file, and gives its sizes before and after.
fn paste(
    contents: &mut Contents,
    inode: u32,
    offset: usize,
    new: &[u8],
) -> Result<(usize, usize), AllocError>
    requires within { offset + length new.now ≤ FILE }
    ensures before { IfOk result (λ sizes. sizes.0 ≡ size_of (row_at (files_of contents.old) inode)) }
    ensures after { IfOk result (λ sizes. sizes.1 ≡ size_of (row_at (files_of contents.new) inode)) }
    ensures ok { OnOk result (contents.new ≡ with_row contents.old inode (λ held. after_write held offset new.now)) }
    ensures err { OnErr result (contents.new ≡ contents.old) }
    ensures lacks { OnErr result (IsSomeAnd (row_at contents.old inode) (λ held. LacksBlock held offset (length new.now))) }
{
    let Some(data) = contents.get_mut(inode) else {
        return Ok((0, 0));
    };
    let before = data.len();
    data.write(offset, new)?;
    Ok((before, data.len()))
}
