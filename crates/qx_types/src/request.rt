ghost use Rattle.std.specs.Prelude.{◌≡◌};

use crate::fields::{NotifyAction, Whence};
use crate::flags::{Conds, OFlags};
use crate::names::Coid;
use qx_base::Bytes;
use std::alloc::AllocError;

/// What a client asks of a resource manager. The ranges of the fields are those of the messages (`docs/FORMATS.md`); a
/// path is judged as a path, and a connection by whether it is there.
#[derive(Debug, PartialEq, Eq)]
pub enum Request {
    // Bytes stand last in each, behind what has place beside the kind. So a request would take 32 bytes, but that a rename has
    // two paths: it takes 56.
    /// Opens a name (C Library Reference: `open`). The mode has at most the bits 0777.
    OpenPath {
        flags: OFlags,
        mode: u16,
        path: Bytes,
    },
    /// Asks for the status of a name (C Library Reference: `stat`).
    StatPath {
        path: Bytes,
    },
    /// Removes a name (C Library Reference: `unlink`; that it takes an empty directory too is this profile).
    Unlink {
        path: Bytes,
    },
    /// Makes a directory (C Library Reference: `mkdir`). The mode has at most the bits 0777.
    Mkdir {
        mode: u16,
        path: Bytes,
    },
    /// Gives what has a name another one in the same mount (C Library Reference: `rename`).
    Rename {
        from: Bytes,
        to: Bytes,
    },
    /// Reads at most `count` bytes, of which there may be 0 to 4,096 (C Library Reference: `read`).
    Read {
        coid: Coid,
        count: u32,
    },
    /// Writes 0 to 4,096 bytes (C Library Reference: `write`).
    Write {
        coid: Coid,
        bytes: Bytes,
    },
    /// Closes a connection (C Library Reference: `close`).
    Close {
        coid: Coid,
    },
    /// Makes another connection to what a connection has open (C Library Reference: `dup`).
    Dup {
        coid: Coid,
    },
    /// Sets the offset in bytes (C Library Reference: `lseek`).
    Seek {
        coid: Coid,
        whence: Whence,
        by: i64,
    },
    /// Asks for the status of what a connection has open (C Library Reference: `fstat`).
    Fstat {
        coid: Coid,
    },
    /// Asks for the names of a directory behind the name `after`, or for the first ones if that is empty (C Library
    /// Reference: `readdir`).
    List {
        coid: Coid,
        after: Bytes,
    },
    /// Sets the permission bits, at most 0777 (C Library Reference: `fchmod`).
    Chmod {
        coid: Coid,
        mode: u16,
    },
    /// Asks which of the conditions hold, or for a pulse with this code, 0 to 127, and this value, below 2^28, when one
    /// of them comes to hold (C Library Reference: `ionotify`).
    Notify {
        coid: Coid,
        action: NotifyAction,
        conds: Conds,
        code: u8,
        value: u32,
    },
    /// The same for a pulse with a value below 2^60 (C Library Reference: `ionotify`, `struct sigevent`).
    Notify64 {
        coid: Coid,
        action: NotifyAction,
        conds: Conds,
        code: u8,
        value: u64,
    },
    /// Sends at most 4,168 bytes as they are (C Library Reference: `MsgSend`).
    Raw {
        coid: Coid,
        bytes: Bytes,
    },
}

/// As it would be derived, for the reason at `Step`.
impl Drop for Request {
    fn drop(self) {
        match self {
            Request::OpenPath {
                flags: _,
                mode: _,
                path: _,
            }
            | Request::StatPath { path: _ }
            | Request::Unlink { path: _ }
            | Request::Mkdir { mode: _, path: _ }
            | Request::Rename { from: _, to: _ }
            | Request::Read { coid: _, count: _ }
            | Request::Write { coid: _, bytes: _ }
            | Request::Close { coid: _ }
            | Request::Dup { coid: _ }
            | Request::Seek {
                coid: _,
                whence: _,
                by: _,
            }
            | Request::Fstat { coid: _ }
            | Request::List { coid: _, after: _ }
            | Request::Chmod { coid: _, mode: _ }
            | Request::Notify {
                coid: _,
                action: _,
                conds: _,
                code: _,
                value: _,
            }
            | Request::Notify64 {
                coid: _,
                action: _,
                conds: _,
                code: _,
                value: _,
            }
            | Request::Raw { coid: _, bytes: _ } => {}
        }
    }
}

// Written out and not derived, so that its contract says outright that the copy is equal.
impl Clone for Request {
    ghost is_clone = { λ original copy. copy ≡ original };

    fn clone(&self) -> Result<Request, AllocError> {
        Ok(match self {
            Request::OpenPath { path, flags, mode } => Request::OpenPath {
                path: path.clone()?,
                flags: *flags,
                mode: *mode,
            },
            Request::StatPath { path } => Request::StatPath {
                path: path.clone()?,
            },
            Request::Unlink { path } => Request::Unlink {
                path: path.clone()?,
            },
            Request::Mkdir { path, mode } => Request::Mkdir {
                path: path.clone()?,
                mode: *mode,
            },
            Request::Rename { from, to } => Request::Rename {
                from: from.clone()?,
                to: to.clone()?,
            },
            Request::Read { coid, count } => Request::Read {
                coid: *coid,
                count: *count,
            },
            Request::Write { coid, bytes } => Request::Write {
                coid: *coid,
                bytes: bytes.clone()?,
            },
            Request::Close { coid } => Request::Close { coid: *coid },
            Request::Dup { coid } => Request::Dup { coid: *coid },
            Request::Seek { coid, whence, by } => Request::Seek {
                coid: *coid,
                whence: *whence,
                by: *by,
            },
            Request::Fstat { coid } => Request::Fstat { coid: *coid },
            Request::List { coid, after } => Request::List {
                coid: *coid,
                after: after.clone()?,
            },
            Request::Chmod { coid, mode } => Request::Chmod {
                coid: *coid,
                mode: *mode,
            },
            Request::Notify {
                coid,
                action,
                conds,
                code,
                value,
            } => Request::Notify {
                coid: *coid,
                action: *action,
                conds: *conds,
                code: *code,
                value: *value,
            },
            Request::Notify64 {
                coid,
                action,
                conds,
                code,
                value,
            } => Request::Notify64 {
                coid: *coid,
                action: *action,
                conds: *conds,
                code: *code,
                value: *value,
            },
            Request::Raw { coid, bytes } => Request::Raw {
                coid: *coid,
                bytes: bytes.clone()?,
            },
        })
    }
}
