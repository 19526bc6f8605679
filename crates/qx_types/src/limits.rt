/// The limits of this profile: definitions and code name them and no number.
pub struct Limits;

impl Limits {
    /// Users of a configuration.
    pub const USERS: usize = 16;
    /// Bytes of a user's name.
    pub const NAME: usize = 16;
    /// Workers of a configuration.
    pub const WORKERS: u8 = 8;
    /// Processes of a user.
    pub const PROCESSES: usize = 16;
    /// Threads of a process.
    pub const THREADS: u8 = 4;
    /// Connections of a process.
    pub const CONNECTIONS: usize = 64;
    /// The least number of a connection.
    pub const FIRST_CONNECTION: usize = 3;
    /// The greatest number of a connection.
    pub const LAST_CONNECTION: usize = 66;
    /// Server connections of a user at one manager.
    pub const SERVERS: usize = 64;
    /// Mounts of a user, the top included.
    pub const MOUNTS: usize = 8;
    /// Inodes of a user.
    pub const INODES: usize = 1024;
    /// Open blocks of a user.
    pub const BLOCKS: usize = 256;
    /// The greatest priority.
    pub const PRIORITY: u8 = 255;
    /// A user's ceiling, the greatest priority that the user may give a thread, where none is set.
    pub const CEILING: u8 = 63;
    /// The greatest mode, 0777.
    pub const MODE: u16 = 511;
    /// Bytes of a path.
    pub const PATH: usize = 1024;
    /// Bytes of a path's component.
    pub const COMPONENT: usize = 64;
    /// Bytes of one read or write.
    pub const TRANSFER: usize = 4096;
    /// Bytes of one file.
    pub const FILE: usize = 65_536;
    /// Bytes of all files of a user together.
    pub const FILES: usize = 1_048_576;
    /// Bytes that stand in a pipe.
    pub const PIPE: usize = 4096;
    /// The greatest offset, 2^63 - 1.
    pub const OFFSET: u64 = 9_223_372_036_854_775_807;
    /// Bytes of a message's body.
    pub const BODY: usize = 4160;
    /// Bytes of a message, of which its header has 8.
    pub const MESSAGE: usize = 4168;
    /// The greatest code of a pulse.
    pub const PULSE_CODE: u8 = 127;
    /// The greatest value that a NOTIFY asks for, below 2^28.
    pub const PULSE_VALUE: u32 = 268_435_455;
    /// The greatest value that a NOTIFY64 asks for, below 2^60.
    pub const PULSE_VALUE_64: u64 = 1_152_921_504_606_846_975;
    /// Armed events and untaken pulses of a user, together.
    pub const EVENTS: usize = 128;
    /// Calls of a thread.
    pub const CALLS: u64 = 18_446_744_073_709_551_615;
}
