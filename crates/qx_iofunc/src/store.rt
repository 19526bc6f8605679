ghost use Rattle.std.specs.Prelude.{◌≡◌, ◌+◌, ◌-◌, ◌<◌, ◌≤◌, ℕ, List, Ok, Some, IfOk, OnOk, OnErr, length, max};
ghost use Rattle.qx_files.specs.Files.{FileLacksBlock, blocks_pasted, pasted};
ghost use Rattle.qx_iofunc.specs.Sizes.{sized};
ghost use Rattle.qx_iofunc.specs.Store.{boot_store, with_mount_root, with_stored};
ghost use Rattle.qx_machine.specs.Files.{put, total_size};
ghost use Rattle.qx_machine.specs.Inodes.{inode_number, with_offset};
ghost use Rattle.qx_machine.specs.Names as names;
ghost use Rattle.qx_machine.specs.RamManager.{with_bytes};
ghost use Rattle.qx_machine.specs.Resources.{Resources};
ghost use Rattle.qx_isolation.specs.Rows.{row_at, with_row};
ghost use Rattle.qx_types.specs.declared.limits.TheConstants.Limits.{FILE, FILES};

use crate::entries::root_attribute;
use crate::tables::Tables;
use qx_attr::Inodes;
use qx_files::Files;
use qx_machine::{Attribute, Kind};
use qx_names::Names;
use qx_types::{LimitName, User, UserLimits};
use std::alloc::{AllocError, Global};
use std::marker::Model;

/// The number of the root of a user's top.
const TOP_INODE: u32 = 1;

/// What a user has under names and numbers, at all managers: inodes and open control blocks, the names in all mounts, and the
/// bytes of files. Each path leads to an inode that is there, each inode is named or open, and a file has as many bytes as
/// its size says.
#[derive(Drop)]
pub struct Store {
    pub(crate) tables: Tables,
}

impl Model for Store {
    ghost use Rattle.std.specs.Coded.{codes};
    ghost use Rattle.qx_iofunc.specs.Fits.{Fits};
    ghost use Rattle.qx_iofunc.specs.Store as store;
    ghost use Rattle.qx_names.specs.Paths.{names_code};

    ghost Value = { store.Store };

    ghost coded = { Prim.hlevel (codes, names_code) };

    ghost view = { λ s. s.tables };

    ghost invariant = { λ s. Fits s.tables.stored.inodes s.tables.stored.names s.tables.stored.files };
}

impl Store {
    /// The store at boot of a user with these limits: the root of the user's top.
    pub fn boot(alloc: Global, limits: UserLimits, user: User) -> Result<Self, AllocError>
        ensures boot { IfOk result (λ store. store.stored ≡ boot_store limits user.0) }
    {
        limits.know();
        let most_inodes = limits.get(LimitName::Inodes);
        let mut inodes = Inodes::new(most_inodes, limits.get(LimitName::Blocks), alloc)?;
        inodes.reserve(1)?;
        inodes.add_inode(TOP_INODE, root_attribute(user));
        let mut names = Names::new(alloc);
        names.add_root(TOP_INODE)?;
        let files = Files::new(alloc)?;
        Ok(Store {
            tables: Tables {
                user,
                inodes,
                names,
                files,
                limits,
            },
        })
    }

    /// Whose it is.
    pub fn user(&self) -> User
        ensures { result.0 ≡ self.now.stored.user }
    {
        self.tables.user
    }

    /// What the user may hold.
    pub fn limits(&self) -> UserLimits
        ensures limits { result ≡ self.now.stored.limits }
    {
        self.tables.limits
    }

    /// The inodes and open control blocks.
    pub fn inodes(&self) -> &Inodes
        ensures { result.now.inodes ≡ self.now.stored.inodes }
    {
        &self.tables.inodes
    }

    /// The bytes of files.
    pub fn files(&self) -> &Files
        ensures { result.now ≡ record { files = self.now.stored.files; blocks = self.now.blocks } }
    {
        &self.tables.files
    }

    /// Makes the root of a mount, with the number of the next inode. Where memory is short, nothing changes.
    pub fn add_root(&mut self, root: u32) -> Result<(), AllocError>
        requires next { inode_number self.old.stored.inodes ≡ Ok root }
        ensures ok { OnOk result (self.new.stored ≡ with_mount_root root self.old.stored) }
        ensures err { OnErr result (self.new.stored ≡ self.old.stored) }
        ensures room { OnOk result (self.new.room ≡ self.old.room - 1) }
        ensures spare { self.new.room ≤ max self.old.room 1 }
    {
        self.tables.inodes.reserve(1)?;
        self.tables.names.add_root(root)?;
        self.tables
            .inodes
            .add_inode(root, root_attribute(self.tables.user));
        Ok(())
    }

    /// Moves an open control block to another offset, if it is there.
    #[inline(always)]
    pub fn set_offset(&mut self, number: u16, offset: u64)
        ensures moved { self.new ≡ record self.old { stored = record self.old.stored { inodes = with_offset self.old.stored.inodes number offset } } }
    {
        self.tables.inodes.set_offset(number, offset);
    }

    /// Gives an inode in which calls may wait another size, and where bytes went in the times of that.
    pub fn set_size(&mut self, inode: u32, size: u64, filled: bool, moment: u64)
        ensures sized { self.new ≡ record self.old { stored = record self.old.stored { inodes = record self.old.stored.inodes { attributes = with_row self.old.stored.inodes.attributes inode (sized size filled moment) } } } }
    {
        let Some(attr) = self.tables.inodes.attr(inode) else {
            return;
        };
        if !has_calls(attr.attribute.kind) {
            return;
        }
        let mut attribute = Attribute {
            size,
            ..attr.attribute
        };
        if filled {
            attribute.mtime = moment;
            attribute.ctime = moment;
        }
        self.tables.inodes.set_attribute(inode, attribute);
    }

    /// Puts bytes into a file at an offset, with zero bytes in a gap before them, and sets its times. Nothing changes where
    /// memory is short; it is wanted only where one of the bytes stands in a block that isn't there.
    pub fn write(
        &mut self,
        inode: u32,
        offset: usize,
        new: &[u8],
        moment: u64,
    ) -> Result<(), AllocError>
        requires within { offset + length new.now ≤ FILE }
        requires few { total_size (pasted self.old.stored.files inode offset new.now) ≤ FILES }
        ensures user { self.new.stored.user ≡ self.old.stored.user }
        ensures ok { OnOk result ((r : Resources) (bytes : List ℕ) → row_at self.old.stored.files inode ≡ Some bytes → with_stored r self.new.stored ≡ with_bytes inode moment (put bytes offset new.now) (with_stored r self.old.stored)) }
        ensures err { OnErr result (self.new ≡ self.old) }
        ensures blocks { OnOk result (self.new.blocks ≡ blocks_pasted self.old.blocks inode offset (length new.now)) }
        ensures lacks { OnErr result (FileLacksBlock (record { files = self.old.stored.files; blocks = self.old.blocks }) inode offset (length new.now)) }
    {
        let size = self.tables.files.write(inode, offset, new)?;
        self.tables.resize(inode, size as u64, moment);
        Ok(())
    }
}

/// Whether calls may wait in an inode of this kind.
fn has_calls(kind: Kind) -> bool
    ensures { result ≡ names.has_calls kind }
{
    matches!(kind, Kind::Pipe | Kind::Device(_))
}
