ghost use Rattle.std.specs.Prelude.{◌≡◌, ◌<◌, ◌≤◌, slice_get};
ghost use Rattle.qx_types.specs.Managers.{manager_count, manager_number, managers};
ghost use Rattle.qx_types.specs.Step.{user_of};
ghost use Rattle.qx_types.specs.declared.names.TheConstants.Manager.{MOST};

use qx_devices::Device;

/// A user's number, from 1 in the order of the configuration.
#[derive(Clone, Copy, Debug, PartialEq, Eq)]
pub struct User(pub u8);

/// A process: its user, and its number among that user's processes, from 1.
#[derive(Clone, Copy, Debug, PartialEq, Eq)]
pub struct Proc {
    pub user: User,
    pub num: u8,
}

/// A thread of a process, from 1 to 4.
#[derive(Clone, Copy, Debug, PartialEq, Eq)]
pub struct Thread {
    pub proc: Proc,
    pub tid: u8,
}

/// A connection's number in its process, from 3 as a file descriptor's (C Library Reference: `ConnectAttach`; that they
/// begin at 3 is this profile).
#[derive(Clone, Copy, Debug, PartialEq, Eq)]
pub struct Coid(pub u8);

/// A priority, from 1 (lowest) to 255 (highest). A user may give threads those up to the user's ceiling (`Config`); other
/// numbers are refused where a step names them. Disconnect pulses have the highest.
#[derive(Clone, Copy, Debug, PartialEq, Eq)]
pub struct Prio(pub u8);

/// A resource manager.
#[derive(Clone, Copy, Debug, PartialEq, Eq)]
pub enum Manager {
    /// Files and directories in memory.
    Ram,
    /// Pipes.
    Pipe,
    /// Devices of one kind.
    Device(Device),
}

impl Manager {
    /// The most managers that there can be.
    pub const MOST: usize = 2 + Device::MOST;

    /// How many managers there are.
    pub fn count() -> usize
        ensures count { result ≡ manager_count }
        ensures few { result ≤ MOST }
    {
        2 + Device::count()
    }

    /// The manager's number, from 0, under which rows of each manager stand.
    pub fn number(self) -> usize
        ensures number { result ≡ manager_number self }
        ensures few { result < manager_count }
        ensures most { result < MOST }
    {
        match self {
            Manager::Ram => 0,
            Manager::Pipe => 1,
            Manager::Device(device) => 2 + device.number(),
        }
    }

    /// The manager of a number; none for another number.
    pub fn of_number(number: usize) -> Option<Manager>
        ensures { result ≡ slice_get managers number }
    {
        match number {
            0 => Some(Manager::Ram),
            1 => Some(Manager::Pipe),
            _ => Some(Manager::Device(Device::of_number(number - 2)?)),
        }
    }
}

/// A worker's number, from 1.
#[derive(Clone, Copy, Debug, PartialEq, Eq)]
pub struct Worker(pub u8);

/// Who takes a client step.
#[derive(Clone, Copy, Debug, PartialEq, Eq)]
pub enum Actor {
    OfUser(User),
    OfProc(Proc),
    OfThread(Thread),
}

impl Actor {
    /// Whose actor it is.
    pub fn user(self) -> User
        ensures { result.0 ≡ user_of self }
    {
        match self {
            Actor::OfUser(user) => user,
            Actor::OfProc(proc) => proc.user,
            Actor::OfThread(thread) => thread.proc.user,
        }
    }
}

/// What a line holds and a worker takes (System Architecture: messages and pulses; that both stand in one line is this
/// profile).
#[derive(Clone, Copy, Debug, PartialEq, Eq)]
pub enum Item {
    /// The message that a thread sent.
    Message(Thread),
    /// The pulse that asks to unblock a thread.
    Unblock(Thread),
    /// The pulse that a process has lost its last connection.
    Disconnect(Proc),
}
