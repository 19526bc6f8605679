/// Where the offset of a seek counts from (C Library Reference: `lseek`).
#[derive(Clone, Copy, Debug, PartialEq, Eq)]
pub enum Whence {
    /// The beginning (`SEEK_SET`).
    Set,
    /// Where the connection stands (`SEEK_CUR`).
    Current,
    /// The end (`SEEK_END`).
    End,
}

/// What a notification is to do (C Library Reference: `iofunc_notify`).
#[derive(Clone, Copy, Debug, PartialEq, Eq)]
pub enum NotifyAction {
    /// Tells which conditions hold (`_NOTIFY_ACTION_POLL`).
    Poll,
    /// Tells which hold, and sends a pulse later if none does (`_NOTIFY_ACTION_POLLARM`).
    PollArm,
    /// Sends a pulse at the next change (`_NOTIFY_ACTION_TRANARM`).
    TranArm,
}

/// The value of the pulse that a notification asks for (C Library Reference: `SIGEV_PULSE_INIT`, whose value has the bits of
/// a pointer; that both widths exist, and that the pulse's own bits lie above the value's, is this profile).
#[derive(Clone, Copy, Debug, PartialEq, Eq)]
pub enum PulseValue {
    /// Below 2^28; the bits 28 and 29 of the pulse tell which conditions hold.
    Bits32(u32),
    /// Below 2^60; the bits 60 and 61 of the pulse tell which conditions hold.
    Bits64(u64),
}
