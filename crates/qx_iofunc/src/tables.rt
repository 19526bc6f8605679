ghost use Rattle.std.specs.Prelude.{◌≡◌, ◌≢◌, ◌-◌, ◌<◌, ℕ, [], None, Some, Ok, Option, IsSome, OnOk, OnErr, false, if◌then◌else◌};
ghost use Rattle.std.specs.FinMap.{get, remove};
ghost use Rattle.qx_iofunc.specs.Store.{blocks_gone, files_left, unused_gone};
ghost use Rattle.qx_iofunc.specs.Fits.{Fits};
ghost use Rattle.qx_iofunc.specs.inner.Store.{CanMove, IsReplaceable, blocks_truncated, files_with, name_free, name_taken, with_made, with_resized, with_truncated};
ghost use Rattle.qx_machine.specs.Defaults as machine;
ghost use Rattle.qx_machine.specs.declared.rows.Kind.TheVariants.{File};
ghost use Rattle.qx_machine.specs.Inodes.{inode_number, is_unused, with_attribute};
ghost use Rattle.qx_machine.specs.Names.{is_same_key, names_in, under};
ghost use Rattle.qx_isolation.specs.Rows.{row_at};
ghost use Rattle.qx_names.specs.Paths.{HasPath, HasNoPath, path_of};
ghost use Rattle.qx_names.specs.Spots.{spot_of};

use crate::entries::{changed, new_attribute, unnamed};
use crate::found::New;
use qx_attr::Inodes;
use qx_files::Files;
use qx_machine::{Attribute, Kind};
use qx_names::{Names, Spot};
use qx_types::{User, UserLimits};
use std::alloc::AllocError;
use std::marker::Model;

/// The tables of a store, in which a message's steps change one after the other; between them they need not stand together.
#[derive(Drop)]
pub struct Tables {
    pub user: User,
    pub inodes: Inodes,
    pub names: Names,
    pub files: Files,
    pub limits: UserLimits,
}

impl Model for Tables {
    ghost use Rattle.std.specs.Coded.{codes};
    ghost use Rattle.qx_iofunc.specs.Store as store;
    ghost use Rattle.qx_names.specs.Paths.{names_code};

    ghost Value = { store.Store };

    ghost coded = { Prim.hlevel (codes, names_code) };

    ghost view = { λ t. record {
      stored = record { user = t.user.0; inodes = t.inodes.inodes; names = t.names; files = t.files.files; limits = t.limits };
      blocks = t.files.blocks;
      room = t.inodes.room;
    } };
}

impl Tables {
    /// Makes an inode, for which there is room, with nothing in it, and a name for it in a directory. Where memory is short,
    /// nothing changes.
    pub fn make(
        &mut self,
        at: Spot<'_>,
        new: New,
        kind: Kind,
        mode: u16,
        moment: u64,
    ) -> Result<(), AllocError>
        requires room { 0 < self.old.room }
        requires next { inode_number self.old.stored.inodes ≡ Ok new.inode }
        requires parent { IsSome (row_at self.old.stored.inodes.attributes at.parent) }
        requires directory { HasPath self.old.stored.names at.parent }
        requires missing { get self.old.stored.names (under (path_of self.old.stored.names at.parent) at.name.now) ≡ None }
        requires unnamed { HasNoPath self.old.stored.names new.inode }
        requires empty { row_at self.old.stored.files new.inode ≡ None }
        ensures ok { OnOk result (self.new ≡ record { stored = with_made (spot_of self.old.stored.names at.entry) new.inode new.parent kind mode moment self.old.stored; blocks = files_with kind new.inode self.old.blocks; room = self.old.room - 1 }) }
        ensures err { OnErr result (self.new ≡ self.old) }
    {
        self.inodes.numbered();
        self.names.insert(at.parent, at.name, new.inode)?;
        self.inodes
            .add_inode(new.inode, new_attribute(kind, mode, self.user, moment));
        self.inodes
            .set_attribute(at.parent, changed(moment, new.parent));
        if kind == Kind::File {
            self.files.add(new.inode);
        }
        Ok(())
    }

    /// An inode loses its name and, unless it is open, goes; tells whether it went.
    pub fn take_name(
        &mut self,
        own: Kind,
        at: Spot<'_>,
        inode: u32,
        attribute: Attribute,
        moment: u64,
    ) -> bool
        requires there { IsSome (row_at self.old.stored.inodes.attributes inode) }
        requires directory { HasPath self.old.stored.names at.parent }
        requires named { get self.old.stored.names (under (path_of self.old.stored.names at.parent) at.name.now) ≡ Some inode }
        requires empty { names_in self.old.stored.names inode ≡ [] }
        ensures gone { result ≡ is_unused (with_attribute self.old.stored.inodes inode (machine.unnamed moment attribute)) inode (row_at (with_attribute self.old.stored.inodes inode (machine.unnamed moment attribute)).attributes inode) }
        ensures taken { self.new.stored ≡ name_taken own (under (path_of self.old.stored.names at.entry.parent) at.entry.name.now) inode attribute moment self.old.stored }
        ensures room { self.new.room ≡ self.old.room }
        ensures blocks { self.new.blocks ≡ files_left own (if result then Some inode else None) self.old.blocks }
        ensures unnamed { HasNoPath (remove self.old.stored.names (under (path_of self.old.stored.names at.entry.parent) at.entry.name.now)) inode }
        ensures others { (other : ℕ) → HasPath self.old.stored.names other → path_of self.old.stored.names other ≢ under (path_of self.old.stored.names at.entry.parent) at.entry.name.now → HasPath (remove self.old.stored.names (under (path_of self.old.stored.names at.entry.parent) at.entry.name.now)) other × (path_of (remove self.old.stored.names (under (path_of self.old.stored.names at.entry.parent) at.entry.name.now)) other ≡ path_of self.old.stored.names other) }
    {
        self.inodes.set_attribute(inode, unnamed(moment, attribute));
        self.names.remove(at.parent, at.name);
        self.free(own, inode)
    }

    /// What has the second name already, a file or an empty directory, if anything has it, loses it as by `take_name`, so that
    /// the inode that has the first name can get the second.
    pub fn free_name(&mut self, old: &Spot<'_>, inode: u32, new: Spot<'_>, moment: u64)
        requires directory { HasPath self.old.stored.names old.now.parent }
        requires there { get self.old.stored.names (spot_of self.old.stored.names old.now).key ≡ Some inode }
        requires target { HasPath self.old.stored.names new.parent }
        requires leads { new.inode ≡ get self.old.stored.names (under (path_of self.old.stored.names new.parent) new.name.now) }
        requires differ { is_same_key (spot_of self.old.stored.names old.now).key (under (path_of self.old.stored.names new.parent) new.name.now) ≡ false }
        requires replaceable { IsReplaceable self.old.stored.inodes self.old.stored.names new.inode }
        ensures freed { self.new.stored ≡ name_free (under (path_of self.old.stored.names new.entry.parent) new.entry.name.now) new.entry.inode moment self.old.stored }
        ensures room { self.new.room ≡ self.old.room }
        ensures blocks { (gone : Option ℕ) × (self.new.blocks ≡ files_left File gone self.old.blocks) }
        ensures moves { CanMove self.old.stored.names self.new.stored.names old.now inode new.entry }
        ensures fits { Fits self.old.stored.inodes self.old.stored.names self.old.stored.files → Fits self.new.stored.inodes self.new.stored.names self.new.stored.files }
    {
        let Some(there) = new.inode else {
            return;
        };
        let Some(attr) = self.inodes.attr(there) else {
            return;
        };
        let attribute = attr.attribute;
        self.take_name(Kind::File, new, there, attribute, moment);
    }

    /// Frees an inode that nothing names and nothing has open, with the bytes of a file where a manager keeps such in its
    /// inodes, and tells whether that is so.
    pub fn free(&mut self, own: Kind, inode: u32) -> bool
        ensures gone { result ≡ is_unused self.old.stored.inodes inode (row_at self.old.stored.inodes.attributes inode) }
        ensures freed { self.new ≡ record self.old { stored = unused_gone own inode self.old.stored; blocks = blocks_gone own inode self.old.stored self.old.blocks } }
    {
        let is_unused = self.inodes.free_inode(inode);
        if is_unused && own == Kind::File {
            self.files.remove(inode);
        }
        is_unused
    }

    /// Makes a file empty and sets its times, if it is one (C Library Reference: `open`, `O_TRUNC`).
    pub fn truncate(&mut self, inode: u32, moment: u64)
        ensures { self.new ≡ record self.old { stored = with_truncated inode moment self.old.stored; blocks = blocks_truncated inode self.old.stored self.old.blocks } }
    {
        if self.files.get(inode).is_some() {
            self.files.clear(inode);
            self.resize(inode, 0, moment);
        }
    }

    /// Gives an inode another size, and the times of that, if it is there.
    pub fn resize(&mut self, inode: u32, size: u64, moment: u64)
        ensures { self.new ≡ record self.old { stored = with_resized inode size moment self.old.stored } }
    {
        if let Some(attr) = self.inodes.attr(inode) {
            let attribute = Attribute {
                size,
                mtime: moment,
                ctime: moment,
                ..attr.attribute
            };
            self.inodes.set_attribute(inode, attribute);
        }
    }
}
