//! Numbers of nodes and handles as they leave to the kernel: the user stands in the upper half, and the user's own number in the
//! lower one.
ghost use Rattle.std.specs.Prelude.{◌≡◌};
ghost use Rattle.qx_fuse_tables.specs.Numbers.{number_of, own_part, owner};

use qx_types::User;

/// How many numbers a user has.
const SHARE: u64 = 0x1_0000_0000;

/// The kernel's number of a user's own one.
pub fn number_of(user: User, own: u64) -> u64
    ensures number { result ≡ number_of user own }
{
    SHARE * u64::from(user.0) + own % SHARE
}

/// Whose number it is. User 0 is nobody, under whom the mount's root stands.
pub fn owner(number: u64) -> Option<User>
    ensures owner { result ≡ owner number }
{
    let user = number / SHARE;
    if user < 256 {
        Some(User(user as u8))
    } else {
        None
    }
}

/// What it is among its user's own numbers.
pub fn own_part(number: u64) -> u64
    ensures own { result ≡ own_part number }
{
    number % SHARE
}
