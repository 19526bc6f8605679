use crate::body::Times;
use qx_base::Errno;
use qx_wire::BorrowedBytes;

/// Why a request is refused.
#[derive(Clone, Copy, Debug)]
pub enum Failure {
    /// What a manager answered.
    Refused(Errno),
    /// The request could not be read (EIO).
    Malformed,
    /// Memory is short (ENOMEM).
    Memory,
    /// The kernel speaks an older protocol (EPROTO).
    Protocol,
}

/// The attributes of a node (`fuse_attr`, whose flags are 0).
#[derive(Clone, Copy, Debug)]
pub struct Attributes {
    pub node: u64,
    pub size: u64,
    pub blocks: u64,
    pub times: Times,
    pub mode: u32,
    pub links: u32,
    pub user: u32,
    pub group: u32,
    pub device: u32,
    pub block_size: u32,
}

/// A name's node, and how long the kernel may keep the name and the attributes (`fuse_entry_out`).
#[derive(Clone, Copy, Debug)]
pub struct Entry {
    pub node: u64,
    pub generation: u64,
    pub name_seconds: u64,
    pub attributes_seconds: u64,
    pub name_nanoseconds: u32,
    pub attributes_nanoseconds: u32,
    pub attributes: Attributes,
}

/// The state of the file system (`fuse_kstatfs`).
#[derive(Clone, Copy, Debug)]
pub struct FileSystem {
    pub blocks: u64,
    pub free_blocks: u64,
    pub available_blocks: u64,
    pub files: u64,
    pub free_files: u64,
    pub block_size: u32,
    pub name_length: u32,
    pub fragment_size: u32,
}

/// What is agreed at INIT (`fuse_init_out`), of version 7.
#[derive(Clone, Copy, Debug)]
pub struct Agreed {
    pub minor: u32,
    pub readahead: u32,
    pub flags: u32,
    pub background: u16,
    pub congestion: u16,
    pub write_size: u32,
    pub time_step: u32,
    pub pages: u16,
    pub more_flags: u32,
}

/// What is answered.
#[derive(Debug, Drop)]
pub enum Reply<'a> {
    /// It is done, and nothing more is told.
    Done,
    Failed(Failure),
    /// LOOKUP, MKNOD, MKDIR.
    Entry(Entry),
    /// GETATTR, SETATTR.
    Attributes {
        seconds: u64,
        nanoseconds: u32,
        attributes: Attributes,
    },
    /// OPEN, OPENDIR.
    Opened {
        handle: u64,
        open_flags: u32,
    },
    /// CREATE.
    Created {
        entry: Entry,
        handle: u64,
        open_flags: u32,
    },
    /// READ, READDIR, READDIRPLUS.
    Bytes(BorrowedBytes<'a>),
    /// WRITE.
    Written {
        size: u32,
    },
    /// STATFS.
    FileSystem(FileSystem),
    /// INIT.
    Agreed(Agreed),
    /// LSEEK.
    Offset {
        offset: u64,
    },
    /// POLL.
    Events {
        events: u32,
    },
}
