ghost use Rattle.std.specs.Prelude.{◌≡◌, Ok, Err, if◌then◌else◌};
ghost use Rattle.qx_base.specs.declared.errno.Errno.TheVariants.{EACCES};
ghost use Rattle.qx_machine.specs.Inodes as inodes;

use qx_machine::{Access, Attribute};
use qx_types::{Errno, User};

/// Whether a user may do that with an inode, else EACCES. The owner is judged by the owner's bits alone, anybody else by the
/// last three (Writing a Resource Manager: `iofunc_check_access`; that the group's bits are not looked at is this profile).
pub fn check_access(attribute: &Attribute, user: User, access: Access) -> Result<(), Errno>
    ensures access { result ≡ (if inodes.may attribute.now user.0 access then Ok tt else Err EACCES) }
{
    let bit = if attribute.owner == user.0 as u32 {
        owner_bit(access)
    } else {
        other_bit(access)
    };
    if attribute.mode & bit != 0 {
        Ok(())
    } else {
        Err(Errno::EACCES)
    }
}

fn owner_bit(access: Access) -> u16
    ensures { result ≡ inodes.owner_bit access }
{
    match access {
        Access::Read => 0o400,
        Access::Write => 0o200,
        Access::Search => 0o100,
    }
}

fn other_bit(access: Access) -> u16
    ensures { result ≡ inodes.other_bit access }
{
    match access {
        Access::Read => 0o4,
        Access::Write => 0o2,
        Access::Search => 0o1,
    }
}
