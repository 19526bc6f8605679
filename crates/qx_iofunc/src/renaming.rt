//! Another name.

ghost use Rattle.std.specs.Prelude.{◌≡◌, ℕ, true, Ok, Option, Some, OnErr};
ghost use Rattle.std.specs.FinMap.{get};
ghost use Rattle.qx_iofunc.specs.Given as given;
ghost use Rattle.qx_iofunc.specs.Store.{files_left, with_stored};
ghost use Rattle.qx_machine.specs.Defaults as machine;
ghost use Rattle.qx_machine.specs.Inodes.{Inodes};
ghost use Rattle.qx_machine.specs.Names as of_names;
ghost use Rattle.qx_machine.specs.Resources.{Resources};
ghost use Rattle.qx_machine.specs.declared.rows.Kind.TheVariants.{File};
ghost use Rattle.qx_names.specs.Paths.{HasPath};
ghost use Rattle.qx_names.specs.Spots.{spot_of};
ghost use Rattle.qx_wire.specs.Rests.{is_rest};
ghost use Rattle.qx_base.specs.declared.errno.Errno.{Errno as Errors};

use crate::entries::{changed, is_root, may_replace, writable};
use crate::store::Store;
use qx_machine::Kind;
use qx_names::{Names, Spot};
use qx_types::Errno;
use qx_wire::Rest;

impl Store {
    /// Gives a file or a directory another path of the same mount, with all that is below it (C Library Reference:
    /// `rename`). EBUSY where one of the two paths is that of the mount's root; then the errors of a walk along the first,
    /// ENOENT where nothing is there, and those of a walk along the second; EACCES by the mode of the first one's directory,
    /// then of the second's. Where both are one name, nothing changes. EINVAL where the second is below the first; where it
    /// leads to something, ENOTDIR, EISDIR or ENOTEMPTY, or that loses its name as by an unlink. It takes no memory.
    pub fn rename(
        &mut self,
        root: u32,
        from: &Rest<'_>,
        to: &Rest<'_>,
        moment: u64,
    ) -> Result<(), Errno>
        requires good { is_rest to.now ≡ true }
        ensures user { self.new.stored.user ≡ self.old.stored.user }
        ensures renamed { (r : Resources) → given.done (with_stored r self.new.stored) result ≡ machine.rename_path File (with_stored r self.old.stored) root from.now to.now moment }
        ensures room { self.new.room ≡ self.old.room }
        ensures blocks { (gone : Option ℕ) × (self.new.blocks ≡ files_left File gone self.old.blocks) }
        ensures kept { OnErr result (self.new ≡ self.old) }
    {
        if is_root(from) || is_root(to) {
            return Err(Errno::EBUSY);
        }
        let (user, inodes, names) = (self.tables.user, &self.tables.inodes, &self.tables.names);
        let old = names.spot(inodes, user, root, from, Errno::EBUSY)?;
        let Some(inode) = old.inode else {
            return Err(Errno::ENOENT);
        };
        let new = names.spot(inodes, user, root, to, Errno::EBUSY)?;
        let parent = writable(inodes, user, old.parent)?;
        let other = writable(inodes, user, new.parent)?;
        if is_same(names, &old, &new) {
            return Ok(());
        }
        let Some(attr) = inodes.attr(inode) else {
            return Err(Errno::ENOENT);
        };
        if is_below(names, root, to, &old, &new, inode) {
            return Err(Errno::EINVAL);
        }
        may_replace(inodes, names, Kind::File, attr.attribute.kind, new.inode)?;
        self.tables
            .inodes
            .set_attribute(old.parent, changed(moment, parent));
        self.tables
            .inodes
            .set_attribute(new.parent, changed(moment, other));
        self.tables.free_name(&old, inode, new, moment);
        self.tables
            .names
            .rename(old.parent, old.name, new.parent, new.name);
        Ok(())
    }
}

/// Whether two spots are one.
fn is_same(names: &Names, one: &Spot<'_>, two: &Spot<'_>) -> bool
    requires one { HasPath names.now one.now.parent }
    requires two { HasPath names.now two.now.parent }
    ensures { result ≡ of_names.is_same_key (spot_of names.now one.now).key (spot_of names.now two.now).key }
{
    one.parent == two.parent && one.name == two.name
}

/// Whether the second spot, to which a path leads, is below the first, where an inode is.
fn is_below(
    names: &Names,
    root: u32,
    to: &Rest<'_>,
    old: &Spot<'_>,
    new: &Spot<'_>,
    inode: u32,
) -> bool
    requires there { get names.now (spot_of names.now old.now).key ≡ Some inode }
    requires leads { (inodes : Inodes) × (user : ℕ) × (error : Errors) × (of_names.spot inodes names.now user root to.now error ≡ Ok (spot_of names.now new.now)) }
    ensures { result ≡ of_names.is_below (spot_of names.now old.now).key (spot_of names.now new.now).key.0 (spot_of names.now new.now).key.1 }
{
    names.named_once();
    names.is_below(root, to, inode)
}
