use qx_isolation::ServerName;
use qx_paths::Path;
use qx_types::{
    Answer, Coid, Conds, Device, Errno, Manager, MessageBytes, OFlags, Prio, PulseValue,
};
use qx_wire::{BorrowedBytes, Message};

/// What a call sends (C Library Reference: `MsgSend`): a message of the table, or bytes as they are.
#[derive(Debug, Drop)]
pub enum Content<'a> {
    Spelled(Message<'a>),
    Raw(BorrowedBytes<'a>),
}

/// What a message goes over: a connection that its call makes, one that is there, or a side connection, which has no
/// number and lasts as long as the message.
#[derive(Clone, Copy, Debug, PartialEq, Eq)]
pub enum Over {
    New(Coid),
    Existing(Coid),
    Side,
}

/// Where a message goes: to which manager, over what, and with which priority.
#[derive(Clone, Copy, Debug, PartialEq, Eq)]
pub struct Target {
    pub manager: Manager,
    /// Of a message to a path, the mount to which the path leads, by the inode of its root (Writing a Resource Manager:
    /// the handle that connect functions are given).
    pub root: Option<u32>,
    pub over: Over,
    pub prio: Prio,
}

/// Where a call's message goes, and what the call's path has behind the prefix of its mount, and the second path of a
/// call that names two; a call that names none has nothing there.
#[derive(Debug, Drop)]
pub struct Addressed<'a> {
    pub target: Target,
    pub rest: Path<'a>,
    pub to: Path<'a>,
}

/// A message: its bytes, and what its channel keeps beside them: where it went, and whether it was asked to unblock its
/// thread.
#[derive(Debug, Drop, PartialEq, Eq)]
pub struct Sent {
    pub target: Target,
    pub is_asked: bool,
    pub bytes: MessageBytes,
}

/// What a thread is doing (System Architecture: the SEND-blocked and REPLY-blocked states).
#[derive(Debug, Drop)]
pub enum State {
    Ready,
    /// Its message stands in a line.
    Queued(Sent),
    /// Its message was received and not yet answered.
    Taken(Sent),
    /// Its message was served and not yet answered: the call waits, and the message's bytes are gone.
    Waiting(Sent),
    /// Its message was answered, and the answer not yet taken.
    Answered(Answer),
}

/// A thread: its state, its priority, how many calls it has made, and whether memory for a reply is kept for it.
#[derive(Debug, Drop)]
pub struct ThreadRow {
    pub state: State,
    pub prio: Prio,
    pub calls: u64,
    /// There is memory for the bytes of a reply: from the first call on, until a reply takes it along whose bytes are more
    /// than stand in its value. While a message is served, and as long as its call waits, the memory is with the call.
    pub has_room: bool,
}

/// A connection: its manager, and its open control block once the open has been performed.
#[derive(Clone, Copy, Debug, PartialEq, Eq)]
pub struct Connection {
    pub manager: Manager,
    pub block: Option<u16>,
}

/// A server connection: a process, as a manager knows it that something of the process is attached to, or was until its
/// disconnect pulse was made (Writing a Resource Manager: `_PULSE_CODE_DISCONNECT`).
#[derive(Clone, Copy, Debug, PartialEq, Eq)]
pub struct ServerConnection {
    /// Its disconnect pulse was made, and it is not used again.
    pub is_leaving: bool,
}

/// A client of a manager: a process, by one of its server connections (Writing a Resource Manager: `resmgr_context_t`, the
/// `scoid`).
#[derive(Clone, Copy, Debug, PartialEq, Eq)]
pub struct Client {
    pub process: u8,
    pub server: ServerName,
}

/// What a message does to the connection that it came over, once it is done.
#[derive(Clone, Copy, Debug, PartialEq, Eq)]
pub enum Effect {
    Keeps,
    /// The connection has its open control block, a new one or that of another connection.
    Opens { coid: Coid, block: u16 },
    /// The connection goes.
    Closes(Coid),
}

/// Whose message a function is given: the thread that sent it, with which of its calls, and whether it was asked to unblock
/// (Writing a Resource Manager: `resmgr_context_t`, the `rcvid`).
#[derive(Clone, Copy, Debug, PartialEq, Eq)]
pub struct Caller {
    pub call: u64,
    pub process: u8,
    pub thread: u8,
    pub is_asked: bool,
}

/// What a message over a connection works on: whose message it is, the connection, and the number of its open control
/// block; and the moment at which it does. A dup works on the connection that it names, the old one.
#[derive(Clone, Copy, Debug, PartialEq, Eq)]
pub struct Opened {
    pub process: u8,
    pub thread: u8,
    pub coid: Coid,
    pub is_asked: bool,
    pub number: u16,
    pub call: u64,
    pub moment: u64,
}

/// What a message is served with beside its own fields: where it was sent, by which client, what it has open, or the error if
/// that is nothing, and the moment (Writing a Resource Manager: `resmgr_context_t`).
#[derive(Clone, Copy, Debug, PartialEq, Eq)]
pub struct Context {
    pub target: Target,
    pub client: Client,
    pub opened: Result<Opened, Errno>,
    pub moment: u64,
}

/// A call that waits in a pipe (Writing a Resource Manager: a client to whom no reply is made yet): of which thread, over
/// which open control block, how many bytes it reads, and which it writes; and whether its process has ended since. Its
/// message's bytes are here and not with the thread.
#[derive(Debug, Drop, PartialEq, Eq)]
pub struct WaitingCall {
    pub process: u8,
    pub thread: u8,
    pub call: u64,
    pub block: u16,
    pub wanted: u32,
    pub bytes: MessageBytes,
    pub is_gone: bool,
}

/// What an open is given: the connection that its call made, of which client, and the inode of the root of the mount that its
/// path led to (Writing a Resource Manager: the handle that connect functions are given).
#[derive(Clone, Copy, Debug, PartialEq, Eq)]
pub struct NewOpen {
    pub coid: Coid,
    pub client: Client,
    pub root: u32,
}

/// What a dup is given: the connection that its call made, and what is open over the old one.
#[derive(Clone, Copy, Debug, PartialEq, Eq)]
pub struct NewDup {
    pub coid: Coid,
    pub old: Opened,
}

/// What an open wishes: to be opened with these flags, and what is missing to be made of this mode, at that moment (C Library
/// Reference: `open`).
#[derive(Clone, Copy, Debug, PartialEq, Eq)]
pub struct Wish {
    pub flags: OFlags,
    pub mode: u16,
    pub moment: u64,
}

/// What an inode is.
#[derive(Clone, Copy, Debug, PartialEq, Eq)]
pub enum Kind {
    File,
    Directory,
    Pipe,
    Device(Device),
}

/// The attribute of an inode (Writing a Resource Manager: `iofunc_attr_t`).
#[derive(Clone, Copy, Debug, PartialEq, Eq)]
pub struct Attribute {
    pub kind: Kind,
    pub mode: u16,
    pub links: u32,
    pub owner: u32,
    pub size: u64,
    pub mtime: u64,
    pub ctime: u64,
}

/// An open control block: the inode that it has open, the flags of the open, where the next read or write begins, how many
/// connections have it, and the client who opened it (Writing a Resource Manager: `iofunc_ocb_t`; C Library Reference:
/// `dup`).
#[derive(Clone, Copy, Debug, PartialEq, Eq)]
pub struct Ocb {
    pub inode: u32,
    pub flags: OFlags,
    pub offset: u64,
    pub uses: u8,
    pub client: Client,
}

/// What an inode's mode may allow (C Library Reference: `access`).
#[derive(Clone, Copy, Debug, PartialEq, Eq)]
pub enum Access {
    Read,
    Write,
    /// Of a directory, that names are looked up in it.
    Search,
}

/// How a READ or a WRITE of a pipe is done.
#[derive(Clone, Copy, Debug, PartialEq, Eq)]
pub struct Manner {
    /// The pipe has an open control block for the other side: for writing at a READ, for reading at a WRITE.
    pub has_other_side: bool,
    /// The message's block is NONBLOCK.
    pub is_nonblock: bool,
    /// The call was asked to unblock.
    pub is_asked: bool,
}

/// For which of its two sides a pipe has open control blocks.
#[derive(Clone, Copy, Debug, PartialEq, Eq)]
pub struct Sides {
    pub for_reading: bool,
    pub for_writing: bool,
}

/// What a notification asks for: which conditions are wanted, and the code and the value of the pulse (C Library Reference:
/// `ionotify`, `struct sigevent`).
#[derive(Clone, Copy, Debug, PartialEq, Eq)]
pub struct PulseWish {
    pub conditions: Conds,
    pub code: u8,
    pub value: PulseValue,
}

/// Which conditions hold of what an open control block has open (C Library Reference: `ionotify`).
#[derive(Clone, Copy, Debug, PartialEq, Eq)]
pub struct Conditions {
    pub input: bool,
    pub output: bool,
}

/// An armed event: once a wanted condition comes to hold of what a block has open, a process gets a pulse of this code and
/// value (C Library Reference: `ionotify`, `struct sigevent`, `SIGEV_PULSE_INIT`).
#[derive(Clone, Copy, Debug, PartialEq, Eq)]
pub struct Event {
    pub process: u8,
    pub block: u16,
    pub conditions: Conds,
    pub code: u8,
    pub value: PulseValue,
}

/// A pulse (C Library Reference: `MsgReceivePulse`, `struct _pulse`).
#[derive(Clone, Copy, Debug, PartialEq, Eq)]
pub struct Pulse {
    pub code: u8,
    pub value: u64,
}

impl Pulse {
    /// The bit, 28, that says beside a value of 32 bits that INPUT is wanted and holds.
    pub const INPUT: u64 = 268_435_456;
    /// The bit, 29, that says so of OUTPUT.
    pub const OUTPUT: u64 = 536_870_912;
    /// The bit, 60, that says beside a value of 64 bits that INPUT is wanted and holds.
    pub const INPUT_64: u64 = 1_152_921_504_606_846_976;
    /// The bit, 61, that says so of OUTPUT.
    pub const OUTPUT_64: u64 = 2_305_843_009_213_693_952;
}
