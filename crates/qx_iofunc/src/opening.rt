//! An open of a path, in two phases: a manager makes between them what it needs, while everything is as it was.

ghost use Rattle.std.specs.Prelude.{◌≡◌, ◌-◌, ◌≤◌, ℕ, None, Ok, IfOk, OnOk, OnErr, max};
ghost use Rattle.std.specs.FinMap.{get};
ghost use Rattle.qx_iofunc.specs.Given as given;
ghost use Rattle.qx_iofunc.specs.Lookups.{IsAllowed, open_looked_up, needed, open_found};
ghost use Rattle.qx_iofunc.specs.Makes.{may_make, may_open};
ghost use Rattle.qx_iofunc.specs.Store.{with_stored};
ghost use Rattle.qx_machine.specs.Defaults as machine;
ghost use Rattle.qx_machine.specs.Names.{under};
ghost use Rattle.qx_machine.specs.Resources.{Resources};
ghost use Rattle.qx_machine.specs.declared.rows.Client.{Client as AnyClient};
ghost use Rattle.qx_machine.specs.declared.rows.Kind.{Kind as AnyKind};
ghost use Rattle.qx_machine.specs.declared.rows.NewOpen.{NewOpen as AnyOpen};
ghost use Rattle.qx_names.specs.Paths.{HasPath, path_of};
ghost use Rattle.qx_names.specs.Spots.{spot_of};
ghost use Rattle.qx_types.specs.declared.names.Coid.{Coid as AnyCoid};

use crate::entries::{may_make, may_open};
use crate::found::{Lookup, New, Opening};
use crate::store::Store;
use bitflags::Flags;
use qx_machine::{Client, Kind, Wish};
use qx_names::Spot;
use qx_types::{Errno, OFlags};
use qx_wire::Rest;
use std::alloc::AllocError;

impl Store {
    /// Judges an open of a path, and tells what it opens (C Library Reference: `open`; Writing a Resource Manager:
    /// `iofunc_open`). The errors of a walk; of what is there EEXIST for CREAT with EXCL, EISDIR for a directory with WRITE,
    /// EACCES by its mode, ENFILE; of what is missing ENOENT without CREAT, EACCES by its directory's mode, ENFILE, ENOSPC.
    pub fn lookup<'a>(&self, root: u32, rest: &Rest<'a>, flags: OFlags) -> Result<Lookup<'a>, Errno>
        ensures opens { (r : Resources) (coid : AnyCoid) (client : AnyClient) (own : AnyKind) (mode moment : ℕ) → machine.open_path own (with_stored r self.now.stored) (record { coid = coid; client = client; root = root }) rest.now (record { flags = flags; mode = mode; moment = moment }) ≡ open_looked_up own (with_stored r self.now.stored) (record { coid = coid; client = client; root = root }) result (record { flags = flags; mode = mode; moment = moment }) }
        ensures allowed { IfOk result (IsAllowed self.now.stored flags) }
    {
        if rest.components().next().is_none() {
            return self.found(root, flags);
        }
        let at = self.tables.names.spot(
            &self.tables.inodes,
            self.tables.user,
            root,
            rest,
            Errno::ENOENT,
        )?;
        match at.inode {
            Some(inode) => self.found(inode, flags),
            None => {
                let (new, block) = may_make(
                    &self.tables.inodes,
                    self.tables.user,
                    at.parent,
                    flags,
                )?;
                Ok(Lookup::Missing { at, new, block })
            }
        }
    }

    // What is there, where it may be opened so.
    fn found<'a>(&self, inode: u32, flags: OFlags) -> Result<Lookup<'a>, Errno>
        ensures opens { (r : Resources) (over : AnyOpen) (own : AnyKind) (mode moment : ℕ) → machine.open_existing (with_stored r self.now.stored) over inode (record { flags = flags; mode = mode; moment = moment }) ≡ open_looked_up own (with_stored r self.now.stored) over result (record { flags = flags; mode = mode; moment = moment }) }
        ensures allowed { IfOk result (IsAllowed self.now.stored flags) }
    {
        let block = may_open(&self.tables.inodes, self.tables.user, inode, flags)?;
        Ok(Lookup::Found { inode, block })
    }

    /// Opens for a client what a lookup found, or makes what is missing, of the manager's own kind, and opens it; an open for
    /// writing with TRUNC makes a file empty. What is in an inode that is made elsewhere, a pipe or a device, is the caller's to make.
    /// Where memory is short, nothing changes.
    pub fn open(
        &mut self,
        own: Kind,
        client: Client,
        lookup: Lookup<'_>,
        wish: Wish,
    ) -> Result<Opening, AllocError>
        requires allowed { IsAllowed self.old.stored wish.flags lookup }
        ensures user { self.new.stored.user ≡ self.old.stored.user }
        ensures opened { IfOk result (λ o. (r : Resources) (coid : AnyCoid) (root : ℕ) → open_found own (with_stored r self.old.stored) (record { coid = coid; client = client; root = root }) lookup.entry wish ≡ Ok (given.open_given coid own o (with_stored r self.new.stored))) }
        ensures err { OnErr result (self.new.stored ≡ self.old.stored) }
        ensures room { OnOk result (self.new.room ≡ self.old.room - needed lookup.entry) }
        ensures spare { self.new.room ≤ max self.old.room (needed lookup.entry) }
    {
        match lookup {
            Lookup::Found { inode, block } => self.open_existing(client, inode, block, wish),
            Lookup::Missing { at, new, block } => {
                self.open_missing(own, client, at, new, block, wish)
            }
        }
    }

    // Opens what is there.
    fn open_existing(
        &mut self,
        client: Client,
        inode: u32,
        block: u16,
        wish: Wish,
    ) -> Result<Opening, AllocError>
        requires judged { may_open self.old.stored.inodes self.old.stored.user inode wish.flags ≡ Ok block }
        ensures user { self.new.stored.user ≡ self.old.stored.user }
        ensures opened { IfOk result (λ o. (r : Resources) (coid : AnyCoid) (root : ℕ) (own : AnyKind) → machine.open_existing (with_stored r self.old.stored) (record { coid = coid; client = client; root = root }) inode wish ≡ Ok (given.open_given coid own o (with_stored r self.new.stored))) }
        ensures err { OnErr result (self.new.stored ≡ self.old.stored) }
        ensures room { OnOk result (self.new.room ≡ self.old.room - 1) }
        ensures spare { self.new.room ≤ max self.old.room 1 }
    {
        self.tables.inodes.reserve(1)?;
        if wish.flags.contains(OFlags::TRUNC) && wish.flags.contains(OFlags::WRITE) {
            self.tables.truncate(inode, wish.moment);
        }
        self.tables
            .inodes
            .add_block(block, inode, wish.flags, client);
        Ok(Opening {
            number: block,
            inode,
            is_new: false,
        })
    }

    // Makes what is missing, and opens it.
    fn open_missing(
        &mut self,
        own: Kind,
        client: Client,
        at: Spot<'_>,
        new: New,
        block: u16,
        wish: Wish,
    ) -> Result<Opening, AllocError>
        requires parent { HasPath self.old.stored.names at.parent }
        requires missing { get self.old.stored.names (under (path_of self.old.stored.names at.parent) at.name.now) ≡ None }
        requires judged { may_make self.old.stored.inodes self.old.stored.user at.parent wish.flags ≡ Ok (new, block) }
        ensures user { self.new.stored.user ≡ self.old.stored.user }
        ensures opened { IfOk result (λ o. (r : Resources) (coid : AnyCoid) (root : ℕ) → machine.open_missing own (with_stored r self.old.stored) (record { coid = coid; client = client; root = root }) (spot_of self.old.stored.names at.entry) wish ≡ Ok (given.open_given coid own o (with_stored r self.new.stored))) }
        ensures err { OnErr result (self.new.stored ≡ self.old.stored) }
        ensures room { OnOk result (self.new.room ≡ self.old.room - 2) }
        ensures spare { self.new.room ≤ max self.old.room 2 }
    {
        self.tables.inodes.reserve(2)?;
        self.tables.make(at, new, own, wish.mode, wish.moment)?;
        self.tables
            .inodes
            .add_block(block, new.inode, wish.flags, client);
        Ok(Opening {
            number: block,
            inode: new.inode,
            is_new: true,
        })
    }
}
