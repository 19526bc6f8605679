use qx_types::{Actor, Manager, Outcome, Prio, Step, User};

/// Which server connection of a process: at which manager, and its number there.
#[derive(Clone, Copy, Debug, PartialEq, Eq)]
pub struct ServerName {
    pub manager: Manager,
    pub number: u8,
}

/// An item of a line or of a worker, by the numbers of its user.
#[derive(Clone, Copy, Debug, PartialEq, Eq)]
pub enum OwnItem {
    /// The message that a thread of a process sent.
    Message { process: u8, thread: u8 },
    /// The pulse that asks to unblock a thread of a process from the call of that number.
    Unblock { process: u8, thread: u8, call: u64 },
    /// The pulse that a process has lost the last connection of a server connection.
    Disconnect { process: u8, server: ServerName },
}

/// An item in a line, with its user and its priority.
#[derive(Clone, Copy, Debug, PartialEq, Eq)]
pub struct Queued {
    pub user: User,
    pub item: OwnItem,
    pub prio: Prio,
}

/// An item in a worker's hand, with its user.
#[derive(Clone, Copy, Debug, PartialEq, Eq)]
pub struct Held {
    pub user: User,
    pub item: OwnItem,
}

/// A step that was taken, with its outcome.
#[derive(Debug, Drop, PartialEq, Eq)]
pub struct Entry {
    pub step: Step,
    pub outcome: Outcome,
}

/// What a client step of a user gave, and to whom.
#[derive(Debug, Drop, PartialEq, Eq)]
pub struct Seen {
    pub actor: Actor,
    pub outcome: Outcome,
}
