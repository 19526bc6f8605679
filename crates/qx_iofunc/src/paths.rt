//! Other messages to a path.

ghost use Rattle.std.specs.Prelude.{◌≡◌, ◌-◌, ◌≤◌, ℕ, IfOk, IsOk, OnOk, OnErr, max};
ghost use Rattle.qx_iofunc.specs.Given as given;
ghost use Rattle.qx_iofunc.specs.Store.{files_left, with_stored};
ghost use Rattle.qx_machine.specs.Defaults as machine;
ghost use Rattle.qx_machine.specs.Resources.{Resources};

use crate::entries::{changed, is_own, may_make_directory, writable};
use crate::store::Store;
use qx_attr::Status;
use qx_machine::Kind;
use qx_types::Errno;
use qx_wire::Rest;
use std::alloc::AllocError;

impl Store {
    /// The status of what a path leads to (C Library Reference: `stat`; Writing a Resource Manager: `iofunc_stat`). The
    /// errors of a walk; ENOENT where nothing is there.
    pub fn stat(&self, root: u32, rest: &Rest<'_>) -> Result<Status, Errno>
        ensures status { (r : Resources) (moment : ℕ) → given.status_told (with_stored r self.now.stored) result ≡ machine.stat_path (with_stored r self.now.stored) root rest.now moment }
    {
        let inode = self
            .tables
            .names
            .inode_at(&self.tables.inodes, self.tables.user, root, rest)?;
        self.tables.inodes.stat_of(inode).ok_or(Errno::ENOENT)
    }

    /// Makes a directory (C Library Reference: `mkdir`). The errors of a walk; EEXIST where something is there, a mount's
    /// root too; EACCES by its directory's mode; ENOSPC. Where an error comes or memory is short, nothing changes; memory is
    /// wanted only where no error comes.
    pub fn mkdir(
        &mut self,
        root: u32,
        rest: &Rest<'_>,
        mode: u16,
        moment: u64,
    ) -> Result<Result<(), Errno>, AllocError>
        ensures user { self.new.stored.user ≡ self.old.stored.user }
        ensures made { IfOk result (λ d. (r : Resources) → given.done (with_stored r self.new.stored) d ≡ machine.make_directory (with_stored r self.old.stored) root mode rest.now moment) }
        ensures kept { IfOk result (λ d. OnErr d (self.new ≡ self.old)) }
        ensures err { OnErr result (self.new.stored ≡ self.old.stored) }
        ensures wanted { OnErr result ((r : Resources) → IsOk (machine.make_directory (with_stored r self.old.stored) root mode rest.now moment)) }
        ensures room { IfOk result (λ d. OnOk d (self.new.room ≡ self.old.room - 1)) }
        ensures spare { self.new.room ≤ max self.old.room 1 }
    {
        let at = match self.tables.names.spot(
            &self.tables.inodes,
            self.tables.user,
            root,
            rest,
            Errno::EEXIST,
        ) {
            Ok(at) => at,
            Err(error) => return Ok(Err(error)),
        };
        let new = match may_make_directory(&self.tables.inodes, self.tables.user, &at) {
            Ok(new) => new,
            Err(error) => return Ok(Err(error)),
        };
        self.tables.inodes.reserve(1)?;
        self.tables.make(at, new, Kind::Directory, mode, moment)?;
        Ok(Ok(()))
    }

    /// Takes the name of an empty directory or of an inode of the manager's own kind, and what it named, unless that is
    /// open; tells which inode went (C Library Reference: `unlink`; that it takes an empty directory is this profile). EBUSY
    /// for a mount's root; then the errors of a walk; ENOENT where nothing is there; EACCES by its directory's mode;
    /// ENOTEMPTY; ENOENT for another kind.
    pub fn unlink(
        &mut self,
        own: Kind,
        root: u32,
        rest: &Rest<'_>,
        moment: u64,
    ) -> Result<Option<u32>, Errno>
        ensures user { self.new.stored.user ≡ self.old.stored.user }
        ensures room { self.new.room ≡ self.old.room }
        ensures blocks { IfOk result (λ gone. self.new.blocks ≡ files_left own gone self.old.blocks) }
        ensures unlinked { (r : Resources) → given.unlink_given own (with_stored r self.new.stored) result ≡ machine.unlink_path own (with_stored r self.old.stored) root rest.now moment }
        ensures kept { OnErr result (self.new ≡ self.old) }
    {
        let at = self.tables.names.spot(
            &self.tables.inodes,
            self.tables.user,
            root,
            rest,
            Errno::EBUSY,
        )?;
        let Some(inode) = at.inode else {
            return Err(Errno::ENOENT);
        };
        let parent = writable(&self.tables.inodes, self.tables.user, at.parent)?;
        if !self.tables.names.is_empty(inode) {
            return Err(Errno::ENOTEMPTY);
        }
        let Some(attr) = self.tables.inodes.attr(inode) else {
            return Err(Errno::ENOENT);
        };
        let attribute = attr.attribute;
        if !is_own(own, attribute.kind) {
            return Err(Errno::ENOENT);
        }
        self.tables
            .inodes
            .set_attribute(at.parent, changed(moment, parent));
        let is_gone = self.tables.take_name(own, at, inode, attribute, moment);
        Ok(is_gone.then_some(inode))
    }
}
