use crate::forgets::Forgets;
use qx_wire::BorrowedBytes;

/// What stands before each body. The kernel answers to `unique`.
#[derive(Clone, Copy, Debug)]
pub struct Header {
    /// How many bytes the request has, with this header.
    pub length: u32,
    /// The kind of the request.
    pub opcode: u32,
    /// The number of the request.
    pub unique: u64,
    /// The node that is meant.
    pub node: u64,
    /// Who asks: uid, gid and pid.
    pub user: u32,
    pub group: u32,
    pub process: u32,
    /// How many pieces of 8 bytes stand behind the body. None are asked for at INIT, and none are read.
    pub extensions: u16,
}

/// What an OPEN, a RELEASE or an FSYNC is about.
#[derive(Clone, Copy, Debug, PartialEq, Eq)]
pub enum Opened {
    File,
    Directory,
}

/// What a READ, a READDIR or a READDIRPLUS reads.
#[derive(Clone, Copy, Debug, PartialEq, Eq)]
pub enum Reads {
    Bytes,
    Names,
    Entries,
}

/// When a node was read, when its data were changed, and when its attributes were.
#[derive(Clone, Copy, Debug)]
pub struct Times {
    pub access_seconds: u64,
    pub modify_seconds: u64,
    pub change_seconds: u64,
    pub access_nanoseconds: u32,
    pub modify_nanoseconds: u32,
    pub change_nanoseconds: u32,
}

/// What the kernel asks for. The names beside are those of <linux/fuse.h>. Names and bytes stand in what was read. The front answers
/// LINK and SYMLINK with EPERM, as a file system without links does, so they are known.
#[derive(Debug, Drop)]
pub enum Body<'a> {
    /// LOOKUP: the node of a name in a directory.
    Lookup {
        name: BorrowedBytes<'a>,
    },
    /// FORGET, without a reply: so many look-ups of the node are forgotten.
    Forget {
        lookups: u64,
    },
    /// BATCH_FORGET, without a reply: so many look-ups of each node are forgotten.
    BatchForget {
        forgets: Forgets<'a>,
    },
    /// GETATTR: the attributes of a node, by a handle if the flags say so.
    GetAttributes {
        flags: u32,
        handle: u64,
    },
    /// SETATTR: those of the attributes are set that `valid` has.
    SetAttributes {
        valid: u32,
        handle: u64,
        size: u64,
        lock_owner: u64,
        times: Times,
        mode: u32,
        user: u32,
        group: u32,
    },
    /// READLINK: what a symbolic link says.
    ReadLink,
    /// SYMLINK: a symbolic link is made that says `target`.
    SymbolicLink {
        name: BorrowedBytes<'a>,
        target: BorrowedBytes<'a>,
    },
    /// LINK: the node gets a further name.
    Link {
        node: u64,
        name: BorrowedBytes<'a>,
    },
    /// MKNOD: a file or a device is made.
    MakeNode {
        mode: u32,
        device: u32,
        umask: u32,
        name: BorrowedBytes<'a>,
    },
    /// MKDIR: a directory is made.
    MakeDirectory {
        mode: u32,
        umask: u32,
        name: BorrowedBytes<'a>,
    },
    /// UNLINK: a name goes.
    Unlink {
        name: BorrowedBytes<'a>,
    },
    /// RMDIR: an empty directory goes.
    RemoveDirectory {
        name: BorrowedBytes<'a>,
    },
    /// RENAME, without flags, or RENAME2: a name of the node becomes one in another directory.
    Rename {
        directory: u64,
        flags: u32,
        from: BorrowedBytes<'a>,
        to: BorrowedBytes<'a>,
    },
    /// OPEN or OPENDIR.
    Open {
        opened: Opened,
        flags: u32,
        open_flags: u32,
    },
    /// CREATE: a file is made and opened.
    Create {
        flags: u32,
        mode: u32,
        umask: u32,
        open_flags: u32,
        name: BorrowedBytes<'a>,
    },
    /// READ, READDIR or READDIRPLUS: at most `size` bytes from an offset on.
    Read {
        reads: Reads,
        handle: u64,
        offset: u64,
        size: u32,
        read_flags: u32,
        lock_owner: u64,
        flags: u32,
    },
    /// WRITE: these bytes, at an offset.
    Write {
        handle: u64,
        offset: u64,
        write_flags: u32,
        lock_owner: u64,
        flags: u32,
        bytes: BorrowedBytes<'a>,
    },
    /// STATFS: the state of the file system.
    FileSystem,
    /// RELEASE or RELEASEDIR: the handle's last use is over.
    Release {
        opened: Opened,
        handle: u64,
        flags: u32,
        release_flags: u32,
        lock_owner: u64,
    },
    /// FSYNC or FSYNCDIR: what was written is to last.
    Sync {
        opened: Opened,
        handle: u64,
        flags: u32,
    },
    /// FLUSH: a descriptor of the handle was closed.
    Flush {
        handle: u64,
        lock_owner: u64,
    },
    /// INIT of this protocol, 7.31 or later: what the kernel offers.
    Offer {
        minor: u32,
        readahead: u32,
        flags: u32,
        more_flags: u32,
    },
    /// INIT of another version.
    OtherVersion {
        major: u32,
        minor: u32,
    },
    /// ACCESS: whether the caller may do that.
    Access {
        mask: u32,
    },
    /// INTERRUPT: the caller of the request with that number was interrupted.
    Interrupt {
        unique: u64,
    },
    /// DESTROY: the mount goes.
    Destroy,
    /// POLL: which of the events hold; with the flag 1 a notification is asked for, under the number `waiter`.
    Poll {
        handle: u64,
        waiter: u64,
        flags: u32,
        events: u32,
    },
    /// LSEEK: where data or a hole is.
    Seek {
        handle: u64,
        offset: u64,
        whence: u32,
    },
}

/// What bytes mean.
#[derive(Debug, Drop)]
pub enum Meaning<'a> {
    /// A request that is known.
    Known(Header, Body<'a>),
    /// Header and length agree, and no known request has that opcode: ENOSYS is answered.
    Unknown(Header),
    /// A length that does not agree, or a body that is not of its opcode: EIO is answered.
    Malformed(Header),
    /// Fewer bytes than a header has: nothing can be answered.
    Short,
}
