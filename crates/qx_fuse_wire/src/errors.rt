//! The numbers that errors have on Linux.
ghost use Rattle.std.specs.Prelude.{◌≡◌};
ghost use Rattle.qx_fuse_wire.specs.Replies.{errno_number, failure_number};

use crate::reply::Failure;
use qx_base::Errno;

/// The number of an error.
pub fn errno_number(error: Errno) -> u32
    ensures number { result ≡ errno_number error }
{
    match error {
        Errno::EACCES => 13,
        Errno::EAGAIN => 11,
        Errno::EBADF => 9,
        Errno::EBUSY => 16,
        Errno::EEXIST => 17,
        Errno::EFBIG => 27,
        Errno::EINTR => 4,
        Errno::EINVAL => 22,
        Errno::EISDIR => 21,
        Errno::EMFILE => 24,
        Errno::ENAMETOOLONG => 36,
        Errno::ENFILE => 23,
        Errno::ENOENT => 2,
        Errno::ENOSPC => 28,
        Errno::ENOSYS => 38,
        Errno::ENOTDIR => 20,
        Errno::ENOTEMPTY => 39,
        Errno::EPERM => 1,
        Errno::EPIPE => 32,
        Errno::ESPIPE => 29,
        Errno::EXDEV => 18,
    }
}

/// The number of a failure.
pub fn failure_number(failure: Failure) -> u32
    ensures number { result ≡ failure_number failure }
{
    match failure {
        Failure::Refused(error) => errno_number(error),
        Failure::Malformed => 5,
        Failure::Memory => 12,
        Failure::Protocol => 71,
    }
}
