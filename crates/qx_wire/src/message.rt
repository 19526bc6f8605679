use crate::borrowed::BorrowedBytes;
use crate::rest::Rest;
use crate::rests::Rests;
use qx_types::{Coid, Conds, NotifyAction, OFlags, PulseValue, Whence};

/// What a client tells a manager. Its texts and bytes stand in the bytes that it was read from. The names beside are
/// those of QNX's messages (Writing a Resource Manager: connect messages, I/O messages); fields and ranges are this
/// profile (`docs/FORMATS.md`), and `in_ranges` judges them.
#[derive(Debug, Drop)]
pub enum Message<'a> {
    /// Opens a name (`_IO_CONNECT`, subtype `_IO_CONNECT_OPEN`). The mode has at most the bits 0777.
    Open {
        flags: OFlags,
        mode: u16,
        rest: Rest<'a>,
    },
    /// Asks for the status of a name: open, stat and close in one (`_IO_CONNECT_COMBINE_CLOSE` with `_IO_STAT`).
    Stat {
        rest: Rest<'a>,
    },
    /// Removes a name (`_IO_CONNECT_UNLINK`).
    Unlink {
        rest: Rest<'a>,
    },
    /// Makes a directory (`_IO_CONNECT_MKNOD`). The mode has at most the bits 0777.
    Mknod {
        mode: u16,
        rest: Rest<'a>,
    },
    /// Gives what has a name another one, in the same mount (`_IO_CONNECT_RENAME`). Both are behind the root of that.
    Rename {
        rests: Rests<'a>,
    },
    /// Reads at most `count` bytes, of which there may be 0 to 4,096 (`_IO_READ`).
    Read {
        count: u32,
    },
    /// Writes 0 to 4,096 bytes (`_IO_WRITE`).
    Write {
        bytes: BorrowedBytes<'a>,
    },
    /// Closes the connection (`_IO_CLOSE`).
    Close,
    /// Makes the connection another one to what the connection `old`, 3 to 66, has open (`_IO_DUP`).
    Dup {
        old: Coid,
    },
    /// Sets the offset in bytes (`_IO_LSEEK`).
    Lseek {
        whence: Whence,
        offset: i64,
    },
    /// Asks for the status of what is open (`_IO_STAT`).
    Fstat,
    /// Asks for the names of a directory behind the name `after`, or for the first ones if that is empty (`_IO_READ` of
    /// a directory).
    List {
        after: BorrowedBytes<'a>,
    },
    /// Sets the permission bits, at most 0777 (`_IO_CHMOD`).
    Chmod {
        mode: u16,
    },
    /// Asks which of the conditions hold, or for a pulse with this code, 0 to 127, and this value, below 2^28 or below 2^60,
    /// when one of them comes to hold (`_IO_NOTIFY`; that it is of one type for each width of a value is this profile).
    Notify {
        action: NotifyAction,
        conditions: Conds,
        code: u8,
        value: PulseValue,
    },
}

/// What bytes mean.
#[derive(Debug, Drop)]
pub enum Meaning<'a> {
    /// The message that they spell.
    Known(Message<'a>),
    /// Header and body fit, and no message has that type and subtype: a manager answers ENOSYS.
    Unknown,
    /// Anything else: a manager answers EINVAL.
    Malformed,
}
