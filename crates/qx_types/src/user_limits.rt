ghost use Rattle.std.specs.Prelude.{◌≡◌, ◌≤◌};
ghost use Rattle.qx_types.specs.UserLimits.{AreLimits, IsWithin, default_limits, limit_in, most_of, with_limit};

use crate::limits::Limits;
use crate::names::Prio;
use std::marker::Model;

/// A limit of one user that a configuration may set below its default (this profile).
#[derive(Clone, Copy, Debug, PartialEq, Eq)]
pub enum LimitName {
    /// Processes, those that have ended and keep their numbers among them.
    Processes,
    /// Connections of each process.
    Connections,
    /// Server connections at one manager, those whose disconnect pulse is not performed yet among them.
    Servers,
    /// Open control blocks.
    Blocks,
    /// Inodes, the roots of mounts among them.
    Inodes,
    /// Bytes of one file.
    File,
    /// Bytes of all files together.
    Bytes,
    /// Mounts, the top among them.
    Mounts,
    /// Armed events, and pulses that are not taken.
    Events,
}

impl LimitName {
    /// The greatest value, which is the default.
    pub fn most(self) -> usize
        ensures most { result ≡ most_of self }
    {
        match self {
            LimitName::Processes => Limits::PROCESSES,
            LimitName::Connections => Limits::CONNECTIONS,
            LimitName::Servers => Limits::SERVERS,
            LimitName::Blocks => Limits::BLOCKS,
            LimitName::Inodes => Limits::INODES,
            LimitName::File => Limits::FILE,
            LimitName::Bytes => Limits::FILES,
            LimitName::Mounts => Limits::MOUNTS,
            LimitName::Events => Limits::EVENTS,
        }
    }
}

/// What one user may hold, the ceiling, which is the greatest priority that the user may give a thread, and the priority of the
/// user's disconnect pulses. Each is at least 1; a limit is at most its default.
#[derive(Clone, Copy, Debug)]
pub struct UserLimits {
    ceiling: u8,
    disconnect: u8,
    processes: u32,
    connections: u32,
    servers: u32,
    blocks: u32,
    inodes: u32,
    file: u32,
    bytes: u32,
    mounts: u32,
    events: u32,
}

impl Model for UserLimits {
    ghost use Rattle.qx_types.specs.UserLimits as limits;

    ghost Value = { limits.UserLimits };

    ghost view = { λ l. record { ceiling = l.ceiling; disconnect = l.disconnect; processes = l.processes; connections = l.connections; servers = l.servers; blocks = l.blocks; inodes = l.inodes; file = l.file; bytes = l.bytes; mounts = l.mounts; events = l.events } };

    ghost inverse = { λ l. record { ceiling = l.ceiling; disconnect = l.disconnect; processes = l.processes; connections = l.connections; servers = l.servers; blocks = l.blocks; inodes = l.inodes; file = l.file; bytes = l.bytes; mounts = l.mounts; events = l.events } };

    ghost invariant = { λ l. limits.AreLimits (record { ceiling = l.ceiling; disconnect = l.disconnect; processes = l.processes; connections = l.connections; servers = l.servers; blocks = l.blocks; inodes = l.inodes; file = l.file; bytes = l.bytes; mounts = l.mounts; events = l.events }) };
}

/// Those of a user for whom none is set.
impl Default for UserLimits {
    ghost is_default = { λ limits. limits ≡ default_limits };

    fn default() -> UserLimits {
        UserLimits {
            ceiling: Limits::CEILING,
            disconnect: Limits::PRIORITY,
            processes: Limits::PROCESSES as u32,
            connections: Limits::CONNECTIONS as u32,
            servers: Limits::SERVERS as u32,
            blocks: Limits::BLOCKS as u32,
            inodes: Limits::INODES as u32,
            file: Limits::FILE as u32,
            bytes: Limits::FILES as u32,
            mounts: Limits::MOUNTS as u32,
            events: Limits::EVENTS as u32,
        }
    }
}

impl UserLimits {
    /// The ceiling.
    pub fn ceiling(&self) -> Prio
        ensures ceiling { result.0 ≡ self.now.ceiling }
    {
        Prio(self.ceiling)
    }

    /// The priority of the disconnect pulses.
    pub fn disconnect_prio(&self) -> Prio
        ensures disconnect { result.0 ≡ self.now.disconnect }
    {
        Prio(self.disconnect)
    }

    /// One of the limits.
    pub fn get(&self, name: LimitName) -> usize
        ensures limit { result ≡ limit_in name self.now }
        ensures few { result ≤ most_of name }
    {
        let limit = match name {
            LimitName::Processes => self.processes,
            LimitName::Connections => self.connections,
            LimitName::Servers => self.servers,
            LimitName::Blocks => self.blocks,
            LimitName::Inodes => self.inodes,
            LimitName::File => self.file,
            LimitName::Bytes => self.bytes,
            LimitName::Mounts => self.mounts,
            LimitName::Events => self.events,
        };
        limit as usize
    }

    /// Sets the ceiling.
    pub(crate) fn set_ceiling(&mut self, prio: Prio)
        requires some { 1 ≤ prio.0 }
        ensures set { self.new ≡ record self.old { ceiling = prio.0 } }
    {
        self.ceiling = prio.0;
    }

    /// Sets the priority of the disconnect pulses.
    pub(crate) fn set_disconnect_prio(&mut self, prio: Prio)
        requires some { 1 ≤ prio.0 }
        ensures set { self.new ≡ record self.old { disconnect = prio.0 } }
    {
        self.disconnect = prio.0;
    }

    /// Sets one of the limits.
    #[tactic(auto, using(crate::proofs::LimitLemmas::limited))]
    pub(crate) fn set(&mut self, name: LimitName, n: usize)
        requires within { IsWithin (most_of name) n }
        ensures set { self.new ≡ with_limit name n self.old }
    {
        let n = n as u32;
        match name {
            LimitName::Processes => self.processes = n,
            LimitName::Connections => self.connections = n,
            LimitName::Servers => self.servers = n,
            LimitName::Blocks => self.blocks = n,
            LimitName::Inodes => self.inodes = n,
            LimitName::File => self.file = n,
            LimitName::Bytes => self.bytes = n,
            LimitName::Mounts => self.mounts = n,
            LimitName::Events => self.events = n,
        }
    }

    /// Tells what holds of them.
    pub fn know(&self)
        ensures limited { AreLimits self.now }
    {
        let _ceiling = self.ceiling;
    }
}
