//! What each kind of body says.
ghost use Rattle.std.specs.Prelude.{◌≡◌};
ghost use Rattle.qx_fuse_wire.specs.Forms.{all, end, read};
ghost use Rattle.qx_fuse_wire.specs.Table.{access, batch_forget, create, flush, forget, get_attributes, init, interrupt, link, lock_form, lookup, make_directory, make_node, more_flags, offer, open_line, owner_form, poll, read_from, read_line, read_made, release, remove_directory, rename, rename_2, seek, set_attributes, set_owner, set_times, symbolic_link, sync, times_form, unlink, write, write_made};

use crate::body::{Body, Opened, Reads, Times};
use crate::fields::{behind, name_at, text_at, u32_at, u64_at};
use crate::forgets::Forgets;
use qx_wire::BorrowedBytes;

/// The body, if no bytes are left.
pub fn ended<'a>(bytes: &[u8], body: Body<'a>) -> Option<Body<'a>>
    ensures { result ≡ read end (Some body.entry) bytes.now }
{
    if bytes.is_empty() { Some(body) } else { None }
}

/// LOOKUP.
pub fn lookup_at(body: &[u8]) -> Option<Body<'_>>
    ensures { result ≡ read_line lookup body.now }
{
    let (name, body) = name_at(body)?;
    let name = BorrowedBytes::new(name);
    ended(body, Body::Lookup { name })
}

/// FORGET.
pub fn forget_at(body: &[u8]) -> Option<Body<'_>>
    ensures { result ≡ read_line forget body.now }
{
    let (lookups, body) = u64_at(body)?;
    ended(body, Body::Forget { lookups })
}

/// GETATTR.
pub fn get_attributes_at(body: &[u8]) -> Option<Body<'_>>
    ensures { result ≡ read_line get_attributes body.now }
{
    let (flags, body) = u32_at(body)?;
    let body = behind(4, body)?;
    let (handle, body) = u64_at(body)?;
    ended(body, Body::GetAttributes { flags, handle })
}

/// SETATTR.
pub fn set_attributes_at(body: &[u8]) -> Option<Body<'_>>
    ensures { result ≡ read_line set_attributes body.now }
{
    let (valid, body) = u32_at(body)?;
    let body = behind(4, body)?;
    let (handle, body) = u64_at(body)?;
    let (size, body) = u64_at(body)?;
    let (lock_owner, body) = u64_at(body)?;
    set_times_at(valid, handle, size, lock_owner, body)
}

/// The same from its times on.
fn set_times_at(
    valid: u32,
    handle: u64,
    size: u64,
    lock_owner: u64,
    body: &[u8],
) -> Option<Body<'_>>
    ensures { result ≡ read times_form (set_times (set_owner valid handle size lock_owner)) body.now }
{
    let (access_seconds, body) = u64_at(body)?;
    let (modify_seconds, body) = u64_at(body)?;
    let (change_seconds, body) = u64_at(body)?;
    let (access_nanoseconds, body) = u32_at(body)?;
    let (modify_nanoseconds, body) = u32_at(body)?;
    let (change_nanoseconds, body) = u32_at(body)?;
    let times = Times {
        access_seconds,
        modify_seconds,
        change_seconds,
        access_nanoseconds,
        modify_nanoseconds,
        change_nanoseconds,
    };
    set_owner_at(valid, handle, size, lock_owner, times, body)
}

/// The same from its mode on.
fn set_owner_at(
    valid: u32,
    handle: u64,
    size: u64,
    lock_owner: u64,
    times: Times,
    body: &[u8],
) -> Option<Body<'_>>
    ensures { result ≡ read owner_form (set_owner valid handle size lock_owner times) body.now }
{
    let (mode, body) = u32_at(body)?;
    let body = behind(4, body)?;
    let (user, body) = u32_at(body)?;
    let (group, body) = u32_at(body)?;
    let body = behind(4, body)?;
    ended(
        body,
        Body::SetAttributes {
            valid,
            handle,
            size,
            lock_owner,
            times,
            mode,
            user,
            group,
        },
    )
}

/// SYMLINK.
pub fn symbolic_link_at(body: &[u8]) -> Option<Body<'_>>
    ensures { result ≡ read_line symbolic_link body.now }
{
    let (name, body) = name_at(body)?;
    let (target, body) = text_at(body)?;
    let name = BorrowedBytes::new(name);
    let target = BorrowedBytes::new(target);
    ended(body, Body::SymbolicLink { name, target })
}

/// LINK.
pub fn link_at(body: &[u8]) -> Option<Body<'_>>
    ensures { result ≡ read_line link body.now }
{
    let (node, body) = u64_at(body)?;
    let (name, body) = name_at(body)?;
    let name = BorrowedBytes::new(name);
    ended(body, Body::Link { node, name })
}

/// MKNOD.
pub fn make_node_at(body: &[u8]) -> Option<Body<'_>>
    ensures { result ≡ read_line make_node body.now }
{
    let (mode, body) = u32_at(body)?;
    let (device, body) = u32_at(body)?;
    let (umask, body) = u32_at(body)?;
    let body = behind(4, body)?;
    let (name, body) = name_at(body)?;
    let name = BorrowedBytes::new(name);
    ended(
        body,
        Body::MakeNode {
            mode,
            device,
            umask,
            name,
        },
    )
}

/// MKDIR.
pub fn make_directory_at(body: &[u8]) -> Option<Body<'_>>
    ensures { result ≡ read_line make_directory body.now }
{
    let (mode, body) = u32_at(body)?;
    let (umask, body) = u32_at(body)?;
    let (name, body) = name_at(body)?;
    let name = BorrowedBytes::new(name);
    ended(body, Body::MakeDirectory { mode, umask, name })
}

/// UNLINK.
pub fn unlink_at(body: &[u8]) -> Option<Body<'_>>
    ensures { result ≡ read_line unlink body.now }
{
    let (name, body) = name_at(body)?;
    let name = BorrowedBytes::new(name);
    ended(body, Body::Unlink { name })
}

/// RMDIR.
pub fn remove_directory_at(body: &[u8]) -> Option<Body<'_>>
    ensures { result ≡ read_line remove_directory body.now }
{
    let (name, body) = name_at(body)?;
    let name = BorrowedBytes::new(name);
    ended(body, Body::RemoveDirectory { name })
}

/// RENAME.
pub fn rename_at(body: &[u8]) -> Option<Body<'_>>
    ensures { result ≡ read_line rename body.now }
{
    let (directory, body) = u64_at(body)?;
    let (from, body) = name_at(body)?;
    let (to, body) = name_at(body)?;
    let from = BorrowedBytes::new(from);
    let to = BorrowedBytes::new(to);
    ended(
        body,
        Body::Rename {
            directory,
            flags: 0,
            from,
            to,
        },
    )
}

/// RENAME2.
pub fn rename_2_at(body: &[u8]) -> Option<Body<'_>>
    ensures { result ≡ read_line rename_2 body.now }
{
    let (directory, body) = u64_at(body)?;
    let (flags, body) = u32_at(body)?;
    let body = behind(4, body)?;
    let (from, body) = name_at(body)?;
    let (to, body) = name_at(body)?;
    let from = BorrowedBytes::new(from);
    let to = BorrowedBytes::new(to);
    ended(
        body,
        Body::Rename {
            directory,
            flags,
            from,
            to,
        },
    )
}

/// OPEN or OPENDIR.
pub fn open_at(opened: Opened, body: &[u8]) -> Option<Body<'_>>
    ensures { result ≡ read_line (open_line opened) body.now }
{
    let (flags, body) = u32_at(body)?;
    let (open_flags, body) = u32_at(body)?;
    ended(
        body,
        Body::Open {
            opened,
            flags,
            open_flags,
        },
    )
}

/// CREATE.
pub fn create_at(body: &[u8]) -> Option<Body<'_>>
    ensures { result ≡ read_line create body.now }
{
    let (flags, body) = u32_at(body)?;
    let (mode, body) = u32_at(body)?;
    let (umask, body) = u32_at(body)?;
    let (open_flags, body) = u32_at(body)?;
    let (name, body) = name_at(body)?;
    let name = BorrowedBytes::new(name);
    ended(
        body,
        Body::Create {
            flags,
            mode,
            umask,
            open_flags,
            name,
        },
    )
}

/// READ, READDIR or READDIRPLUS.
pub fn read_at(reads: Reads, body: &[u8]) -> Option<Body<'_>>
    ensures { result ≡ read_line (read_from reads) body.now }
{
    let (handle, body) = u64_at(body)?;
    let (offset, body) = u64_at(body)?;
    let (size, body) = u32_at(body)?;
    let (read_flags, body) = u32_at(body)?;
    read_lock_at(reads, handle, offset, size, read_flags, body)
}

/// The same from the owner of a lock on.
fn read_lock_at(
    reads: Reads,
    handle: u64,
    offset: u64,
    size: u32,
    read_flags: u32,
    body: &[u8],
) -> Option<Body<'_>>
    ensures { result ≡ read (lock_form end) (read_made reads handle offset size read_flags) body.now }
{
    let (lock_owner, body) = u64_at(body)?;
    let (flags, body) = u32_at(body)?;
    let body = behind(4, body)?;
    ended(
        body,
        Body::Read {
            reads,
            handle,
            offset,
            size,
            read_flags,
            lock_owner,
            flags,
        },
    )
}

/// WRITE.
pub fn write_at(body: &[u8]) -> Option<Body<'_>>
    ensures { result ≡ read_line write body.now }
{
    let (handle, body) = u64_at(body)?;
    let (offset, body) = u64_at(body)?;
    let (size, body) = u32_at(body)?;
    let (write_flags, body) = u32_at(body)?;
    write_lock_at(handle, offset, size, write_flags, body)
}

/// The same from the owner of a lock on.
fn write_lock_at(
    handle: u64,
    offset: u64,
    size: u32,
    write_flags: u32,
    body: &[u8],
) -> Option<Body<'_>>
    ensures { result ≡ read (lock_form all) (write_made handle offset size write_flags) body.now }
{
    let (lock_owner, body) = u64_at(body)?;
    let (flags, body) = u32_at(body)?;
    let body = behind(4, body)?;
    if body.len() != size as usize {
        return None;
    }
    let bytes = BorrowedBytes::new(body);
    Some(Body::Write {
        handle,
        offset,
        write_flags,
        lock_owner,
        flags,
        bytes,
    })
}

/// RELEASE or RELEASEDIR.
pub fn release_at(opened: Opened, body: &[u8]) -> Option<Body<'_>>
    ensures { result ≡ read_line (release opened) body.now }
{
    let (handle, body) = u64_at(body)?;
    let (flags, body) = u32_at(body)?;
    let (release_flags, body) = u32_at(body)?;
    let (lock_owner, body) = u64_at(body)?;
    ended(
        body,
        Body::Release {
            opened,
            handle,
            flags,
            release_flags,
            lock_owner,
        },
    )
}

/// FSYNC or FSYNCDIR.
pub fn sync_at(opened: Opened, body: &[u8]) -> Option<Body<'_>>
    ensures { result ≡ read_line (sync opened) body.now }
{
    let (handle, body) = u64_at(body)?;
    let (flags, body) = u32_at(body)?;
    let body = behind(4, body)?;
    ended(
        body,
        Body::Sync {
            opened,
            handle,
            flags,
        },
    )
}

/// FLUSH.
pub fn flush_at(body: &[u8]) -> Option<Body<'_>>
    ensures { result ≡ read_line flush body.now }
{
    let (handle, body) = u64_at(body)?;
    let body = behind(8, body)?;
    let (lock_owner, body) = u64_at(body)?;
    ended(body, Body::Flush { handle, lock_owner })
}

/// INIT.
pub fn init_at(body: &[u8]) -> Option<Body<'_>>
    ensures { result ≡ read_line init body.now }
{
    let (major, body) = u32_at(body)?;
    let (minor, body) = u32_at(body)?;
    if major == 7 && minor >= 31 {
        offer_at(minor, body)
    } else {
        Some(Body::OtherVersion { major, minor })
    }
}

/// What an INIT offers behind the version.
fn offer_at(minor: u32, bytes: &[u8]) -> Option<Body<'_>>
    ensures { result ≡ offer minor bytes.now }
{
    let (readahead, body) = u32_at(bytes)?;
    let (flags, body) = u32_at(body)?;
    more_flags_at(minor, readahead, flags, body)
}

/// The same from its further flags on, none where no bytes are left.
fn more_flags_at(minor: u32, readahead: u32, flags: u32, bytes: &[u8]) -> Option<Body<'_>>
    ensures { result ≡ more_flags (λ more_flags. Body.Offer minor readahead flags more_flags) bytes.now }
{
    if bytes.is_empty() {
        return Some(Body::Offer {
            minor,
            readahead,
            flags,
            more_flags: 0,
        });
    }
    let (more_flags, body) = u32_at(bytes)?;
    let body = behind(44, body)?;
    ended(
        body,
        Body::Offer {
            minor,
            readahead,
            flags,
            more_flags,
        },
    )
}

/// ACCESS.
pub fn access_at(body: &[u8]) -> Option<Body<'_>>
    ensures { result ≡ read_line access body.now }
{
    let (mask, body) = u32_at(body)?;
    let body = behind(4, body)?;
    ended(body, Body::Access { mask })
}

/// INTERRUPT.
pub fn interrupt_at(body: &[u8]) -> Option<Body<'_>>
    ensures { result ≡ read_line interrupt body.now }
{
    let (unique, body) = u64_at(body)?;
    ended(body, Body::Interrupt { unique })
}

/// POLL.
pub fn poll_at(body: &[u8]) -> Option<Body<'_>>
    ensures { result ≡ read_line poll body.now }
{
    let (handle, body) = u64_at(body)?;
    let (waiter, body) = u64_at(body)?;
    let (flags, body) = u32_at(body)?;
    let (events, body) = u32_at(body)?;
    ended(
        body,
        Body::Poll {
            handle,
            waiter,
            flags,
            events,
        },
    )
}

/// BATCH_FORGET.
pub fn batch_forget_at(body: &[u8]) -> Option<Body<'_>>
    ensures { result ≡ read_line batch_forget body.now }
{
    let (count, body) = u32_at(body)?;
    let body = behind(4, body)?;
    if body.len() != 16 * count as usize {
        return None;
    }
    let forgets = Forgets::new(count as usize, body);
    Some(Body::BatchForget { forgets })
}

/// LSEEK.
pub fn seek_at(body: &[u8]) -> Option<Body<'_>>
    ensures { result ≡ read_line seek body.now }
{
    let (handle, body) = u64_at(body)?;
    let (offset, body) = u64_at(body)?;
    let (whence, body) = u32_at(body)?;
    let body = behind(4, body)?;
    ended(
        body,
        Body::Seek {
            handle,
            offset,
            whence,
        },
    )
}
