ghost use Rattle.std.specs.Prelude.{◌≡◌, Ok, Err};
ghost use Rattle.qx_machine.specs.Names as machine;

use qx_attr::{Inodes, check_access};
use qx_machine::{Access, Kind};
use qx_types::{Errno, User};

/// Where a path leads: the directory in which its last component is looked up, that component, and what is there.
#[derive(Clone, Copy, Debug, PartialEq, Eq)]
pub struct Spot<'a> {
    pub parent: u32,
    pub name: &'a [u8],
    pub inode: Option<u32>,
}

/// Whether a user may look a name up in an inode: ENOTDIR where that is no directory, EACCES without search (C Library
/// Reference: `open`).
pub fn search(inodes: &Inodes, user: User, inode: u32) -> Result<bool, Errno>
    ensures search { result ≡ machine.search inodes.now.inodes user.0 inode }
{
    let Some(attr) = inodes.attr(inode) else {
        return Err(Errno::ENOENT);
    };
    if attr.attribute.kind != Kind::Directory {
        return Err(Errno::ENOTDIR);
    }
    check_access(&attr.attribute, user, Access::Search)?;
    Ok(true)
}
