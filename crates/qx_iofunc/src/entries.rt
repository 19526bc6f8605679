//! What may be opened and made, and how attributes change with the entries of a directory.

ghost use Rattle.std.specs.Prelude.{◌≡◌, ◌==◌, length};
ghost use Rattle.qx_iofunc.specs.Makes.{may_make, may_open};
ghost use Rattle.qx_iofunc.specs.inner.Makes.{may_make_directory, may_replace};
ghost use Rattle.qx_machine.specs.Inodes as of_inodes;
ghost use Rattle.qx_machine.specs.Attributes as attributes;
ghost use Rattle.qx_machine.specs.Defaults as machine;

use crate::found::New;
use bitflags::Flags;
use qx_attr::{Inodes, check_access};
use qx_machine::{Access, Attribute, Kind};
use qx_names::{Names, Spot};
use qx_types::{Errno, OFlags, User};
use qx_wire::Rest;

/// Whether an inode of that kind is one of a manager with directories and inodes of its own kind.
pub fn is_own(own: Kind, kind: Kind) -> bool
    ensures { result ≡ machine.is_own own kind }
{
    kind == Kind::Directory || kind == own
}

/// The number of an open control block of what is there, where that may be opened so.
pub fn may_open(inodes: &Inodes, user: User, inode: u32, flags: OFlags) -> Result<u16, Errno>
    ensures may { result ≡ may_open inodes.now.inodes user.0 inode flags }
{
    let Some(attr) = inodes.attr(inode) else {
        return Err(Errno::ENOENT);
    };
    let attribute = attr.attribute;
    if flags.contains(OFlags::CREAT) && flags.contains(OFlags::EXCL) {
        return Err(Errno::EEXIST);
    }
    if attribute.kind == Kind::Directory && flags.contains(OFlags::WRITE) {
        return Err(Errno::EISDIR);
    }
    if flags.contains(OFlags::READ) {
        check_access(&attribute, user, Access::Read)?;
    }
    if flags.contains(OFlags::WRITE) {
        check_access(&attribute, user, Access::Write)?;
    }
    inodes.block_number()
}

/// What is to be made, where that may be made and opened so in a directory, and the number of its open control block.
pub fn may_make(
    inodes: &Inodes,
    user: User,
    directory: u32,
    flags: OFlags,
) -> Result<(New, u16), Errno>
    ensures may { result ≡ may_make inodes.now.inodes user.0 directory flags }
{
    if !flags.contains(OFlags::CREAT) {
        return Err(Errno::ENOENT);
    }
    let parent = writable(inodes, user, directory)?;
    let block = inodes.block_number()?;
    let new = New {
        inode: inodes.inode_number()?,
        parent,
    };
    Ok((new, block))
}

/// What a directory will be, where one may be made.
pub fn may_make_directory(inodes: &Inodes, user: User, at: &Spot<'_>) -> Result<New, Errno>
    ensures may { result ≡ may_make_directory inodes.now.inodes user.0 at.now.parent at.now.inode }
{
    if at.inode.is_some() {
        return Err(Errno::EEXIST);
    }
    let parent = writable(inodes, user, at.parent)?;
    Ok(New {
        inode: inodes.inode_number()?,
        parent,
    })
}

/// Whether what has a name already, if anything has, may lose it to an inode of this kind.
pub fn may_replace(
    inodes: &Inodes,
    names: &Names,
    own: Kind,
    kind: Kind,
    there: Option<u32>,
) -> Result<(), Errno>
    ensures may { result ≡ may_replace own kind inodes.now.inodes names.now there }
{
    let Some(there) = there else {
        return Ok(());
    };
    let Some(target) = inodes.attr(there) else {
        return Err(Errno::ENOENT);
    };
    let onto = target.attribute.kind == Kind::Directory;
    let moves = kind == Kind::Directory;
    if moves && !onto {
        return Err(Errno::ENOTDIR);
    }
    if onto && !moves {
        return Err(Errno::EISDIR);
    }
    if !names.is_empty(there) {
        return Err(Errno::ENOTEMPTY);
    }
    if !is_own(own, target.attribute.kind) {
        return Err(Errno::ENOENT);
    }
    Ok(())
}

/// Whether a path leads to its mount's root.
pub fn is_root(rest: &Rest<'_>) -> bool
    ensures { result ≡ (length rest.now == 0) }
{
    rest.components().next().is_none()
}

/// The attribute of a directory in which the user may make and remove names, else EACCES.
pub fn writable(inodes: &Inodes, user: User, directory: u32) -> Result<Attribute, Errno>
    ensures writable { result ≡ machine.writable inodes.now.inodes user.0 directory }
{
    let Some(attr) = inodes.attr(directory) else {
        return Err(Errno::ENOENT);
    };
    check_access(&attr.attribute, user, Access::Write)?;
    Ok(attr.attribute)
}

/// A directory's attribute once an entry was made or removed.
pub fn changed(moment: u64, attribute: Attribute) -> Attribute
    ensures { result ≡ machine.with_entries_changed moment attribute }
{
    Attribute {
        mtime: moment,
        ctime: moment,
        ..attribute
    }
}

/// An inode's attribute once it has no name.
pub fn unnamed(moment: u64, attribute: Attribute) -> Attribute
    ensures { result ≡ machine.unnamed moment attribute }
{
    Attribute {
        links: 0,
        ctime: moment,
        ..attribute
    }
}

/// An inode as it is made, named once.
pub fn new_attribute(kind: Kind, mode: u16, user: User, moment: u64) -> Attribute
    ensures { result ≡ of_inodes.new_attribute kind mode user.0 moment }
{
    Attribute {
        kind,
        mode,
        links: 1,
        owner: user.0 as u32,
        size: 0,
        mtime: moment,
        ctime: moment,
    }
}

/// The root of a mount of a user, at first.
pub fn root_attribute(user: User) -> Attribute
    ensures { result ≡ attributes.root_attribute user.0 }
{
    Attribute {
        kind: Kind::Directory,
        mode: 0o700,
        links: 1,
        owner: user.0 as u32,
        size: 0,
        mtime: 0,
        ctime: 0,
    }
}
