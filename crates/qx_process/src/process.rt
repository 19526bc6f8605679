ghost use Rattle.std.specs.Prelude.{IsSome, ◌≡◌, ◌+◌, ◌≤◌, count_by, is_some, length, IfOk, IfSome, IsOk, IsTrue, OnSome, OnOk, OnErr, Some, None, true, vec_capacity};
ghost use Rattle.std.specs.Option.{option_copied, option_copied_mut};
ghost use Rattle.std.specs.Borrow.{sem};
ghost use Rattle.qx_base.specs.Memory.{Leave};
ghost use Rattle.qx_types.specs.declared.limits.TheConstants.Limits.{FIRST_CONNECTION, LAST_CONNECTION, SERVERS, THREADS};
ghost use Rattle.qx_types.specs.declared.outcome.Answer.TheVariants.{Reply as TheReply};
ghost use Rattle.qx_machine.specs.Performing.{client_at};
ghost use Rattle.qx_machine.specs.Processes as machine;
ghost use Rattle.qx_machine.specs.Processes.{answered_thread, servers_at, with_thread};
ghost use Rattle.qx_isolation.specs.Rows.{row_at, lowest_from};
ghost use Rattle.qx_process.specs.Reads.{AwaitsReply, BringsRoom, CanAttach, CanCall, CanGo, HasNumber, HasPlace, IsPriority, Loses, LosesAll, Uses, UsesBy, bytes_received, has_own_room, is_served, used_at};

use crate::connections::{self, Connections};
use crate::servers::{self, AllServers, Sides};
use crate::thread::{Replied, ThreadCell};
use crate::threads::{self, Held, PLACES, Threads};
use arrayvec::ArrayVec;
use qx_hint::{as_mut_unchecked, assert_unchecked};
use qx_machine::{Client, Connection, Effect, Over, Sent, ServerName};
use qx_rows::{Reply, Room, places};
use qx_types::{Answer, Coid, Errno, Limits, Manager, MessageBytes, Prio};
use std::alloc::{AllocError, Global};
use std::marker::Model;

/// A process: its threads from 1 and its connections from 3, the side connections of its threads, and its server
/// connections, which follow what is attached. One that has ended has no threads, and keeps the messages that workers hold.
#[derive(Drop)]
pub struct Process {
    threads: Threads,
    connections: Connections,
    sides: Sides,
    servers: AllServers,
    held: Held,
}

impl Model for Process {
    ghost use Rattle.std.specs.Prelude.{◌≡◌, length};
    ghost use Rattle.qx_machine.specs.Processes as machine;
    ghost use Rattle.qx_types.specs.Managers.{manager_count};
    ghost use Rattle.qx_machine.specs.Servers.{is_attached, servers_from};

    ghost Value = { machine.Process };

    ghost view = { λ p. record { threads = p.threads.items; connections = p.connections.items; sides = p.sides; servers = p.servers.items; held = p.held.items } };

    ghost invariant = { λ p. (p.servers.items ≡ servers_from (λ number. is_attached number p.connections.items p.sides) 0 p.servers.items) × (length p.servers.items ≡ manager_count) };
}

impl Process {
    ghost use Rattle.qx_process.specs.Lends.{lends_thread, lends_thread_there};

    /// A process with so many ready threads, and nothing attached.
    pub fn new(alloc: Global, threads: u8, prio: Prio) -> Result<Self, AllocError>
        requires threads { threads ≤ THREADS }
        requires priority { IsPriority prio.0 }
        ensures process { IfOk result (λ process. process ≡ machine.new_process threads prio.0) }
    {
        let servers = servers::no_servers(alloc)?;
        Ok(Process {
            threads: threads::new_threads(threads, prio),
            connections: connections::no_connections(),
            sides: [None; PLACES],
            servers,
            held: ArrayVec::new(),
        })
    }

    /// A thread; none where it is not there.
    pub fn thread(&self, thread: u8) -> Option<&ThreadCell>
        ensures row { option_copied result ≡ row_at self.now.threads thread }
    {
        places::row(self.threads.as_slice(), thread as usize)
    }

    /// A thread, for writing; none where it is not there.
    pub fn thread_mut(&mut self, thread: u8) -> Option<&mut ThreadCell>
        ensures* writes_back { sem 𝓛 (lends_thread self.entry thread result) }
        ensures row { option_copied_mut result ≡ row_at self.old.threads thread }
    {
        self.threads.get_mut(thread as usize)?.as_mut()
    }

    /// A thread that is there, for writing.
    pub fn thread_there(&mut self, thread: u8) -> &mut ThreadCell
        requires there { IsSome (row_at self.old.threads thread) }
        ensures* writes_back { sem 𝓛 (lends_thread_there self.entry thread result) }
        ensures row { row_at self.old.threads thread ≡ Some result.now }
    {
        match self.threads.get_mut(thread as usize) {
            Some(place) => as_mut_unchecked(place),
            None => {
                assert_unchecked(false);
                unreachable!()
            }
        }
    }

    /// How many places it has for threads, from 0; none once it has ended.
    pub fn places(&self) -> u8
        ensures places { result ≡ length self.now.threads }
    {
        self.threads.len() as u8
    }

    /// A connection's row; none where it is not there.
    pub fn conn_of(&self, coid: Coid) -> Option<&Connection>
        ensures row { option_copied result ≡ row_at self.now.connections coid.0 }
        ensures within { OnSome result (coid.0 ≤ LAST_CONNECTION) }
        ensures served { IfSome result (λ connection. is_served connection.now.manager self.now ≡ true) }
    {
        places::row(self.connections.as_slice(), coid.0 as usize)
    }

    /// The lowest free number of a connection.
    pub fn free_connection(&self) -> usize
        ensures number { result ≡ lowest_from FIRST_CONNECTION self.now.connections }
    {
        places::lowest_free(self.connections.as_slice(), Limits::FIRST_CONNECTION)
    }

    /// At which manager a thread has a side connection; none where it has none.
    pub fn side(&self, thread: u8) -> Option<Manager>
        ensures side { result ≡ row_at self.now.sides thread }
        ensures served { IfSome result (λ manager. is_served manager self.now ≡ true) }
    {
        places::row(&self.sides, thread as usize).copied()
    }

    /// Whether a server connection is in use at a manager: something is attached there.
    pub fn is_served(&self, manager: Manager) -> bool
        ensures { result ≡ is_served manager self.now }
    {
        servers::servers_at(&self.servers, manager)
            .in_use()
            .is_some()
    }

    /// The server connection in use at a manager, if one is.
    pub fn used_server(&self, manager: Manager) -> Option<ServerName>
        ensures used { result ≡ used_at self.now manager }
    {
        let number = servers::servers_at(&self.servers, manager).in_use()?;
        Some(ServerName { manager, number })
    }

    /// How many server connections there are at a manager, those whose disconnect pulse was made among them.
    pub fn server_count(&self, manager: Manager) -> usize
        ensures count { result ≡ count_by is_some (servers_at manager self.now) }
        ensures few { result ≤ SERVERS + 1 }
    {
        servers::servers_at(&self.servers, manager).count()
    }

    /// Whether there is a server connection at any manager, in use or left.
    pub fn has_server(&self) -> bool
        ensures { result ≡ machine.has_server self.now }
    {
        servers::has_any(&self.servers)
    }

    /// The process as a manager knows it, by the process' number.
    pub fn client(&self, number: u8, manager: Manager) -> Client
        ensures client { result ≡ client_at number manager self.now }
    {
        let in_use = servers::servers_at(&self.servers, manager).in_use();
        let server = ServerName {
            manager,
            number: in_use.unwrap_or(0),
        };
        Client {
            process: number,
            server,
        }
    }

    /// Whether the process has ended.
    pub fn has_ended(&self) -> bool
        ensures { result ≡ machine.has_ended self.now }
    {
        self.threads.is_empty()
    }

    /// The bytes of the message of a thread that the process had before it ended, if that was received and is not served, and
    /// else no bytes; none of a living process.
    pub fn held(&self, thread: u8) -> Option<&MessageBytes>
        ensures held { option_copied result ≡ row_at self.now.held thread }
    {
        places::row(self.held.as_slice(), thread as usize)
    }

    /// A new connection, for which the server connection in use at its manager is used or one is made (C Library Reference:
    /// `ConnectAttach`).
    pub fn attach(&mut self, coid: Coid, manager: Manager)
        requires within { coid.0 ≤ LAST_CONNECTION }
        requires free { row_at self.old.connections coid.0 ≡ None }
        requires place { HasPlace (servers_at manager self.old) }
        ensures process { self.new ≡ machine.with_connection coid.0 manager self.old }
        ensures uses { Uses manager self.old self.new }
    {
        let connection = Connection {
            manager,
            block: None,
        };
        places::put_within(&mut self.connections, coid.0 as usize, connection);
        servers::settle(&mut self.servers, manager, true);
    }

    /// A connection goes; gives the server connection that the process has lost with it, if it was the last that is attached to
    /// its manager (C Library Reference: `ConnectDetach`).
    #[inline(always)]
    pub fn detach(&mut self, coid: Coid) -> Option<ServerName>
        ensures process { self.new ≡ machine.without_connection coid.0 self.old }
        ensures lost { Loses result self.old self.new }
    {
        let manager = self.conn_of(coid)?.manager;
        connections::free(&mut self.connections, coid);
        let is_attached = servers::is_attached(manager, self.connections.as_slice(), &self.sides);
        servers::settle(&mut self.servers, manager, is_attached)
    }

    /// A side connection of a thread, for which the server connection in use at its manager is used or one is made (C Library
    /// Reference: `_NTO_SIDE_CHANNEL`).
    pub fn attach_side(&mut self, thread: u8, manager: Manager)
        requires free { row_at self.old.sides thread ≡ None }
        requires place { HasPlace (servers_at manager self.old) }
        ensures process { self.new ≡ machine.with_side thread (Some manager) self.old }
        ensures uses { Uses manager self.old self.new }
    {
        servers::set_side(&mut self.sides, thread, Some(manager));
        let is_attached = servers::is_attached(manager, self.connections.as_slice(), &self.sides);
        servers::settle(&mut self.servers, manager, is_attached);
    }

    /// A side connection goes; gives the server connection that the process has lost with it, if it was the last that is
    /// attached to its manager.
    #[inline(always)]
    pub fn detach_side(&mut self, thread: u8) -> Option<ServerName>
        ensures process { self.new ≡ machine.with_side thread None self.old }
        ensures lost { Loses result self.old self.new }
    {
        let manager = self.side(thread)?;
        servers::set_side(&mut self.sides, thread, None);
        let is_attached = servers::is_attached(manager, self.connections.as_slice(), &self.sides);
        servers::settle(&mut self.servers, manager, is_attached)
    }

    /// A server connection goes, if it was left, as its disconnect pulse is performed (C Library Reference: `ConnectDetach`).
    pub fn free_server(&mut self, server: ServerName)
        ensures process { self.new ≡ machine.without_server server self.old }
    {
        servers::free(&mut self.servers, server);
    }

    /// A connection has its open control block (Writing a Resource Manager: `iofunc_ocb_t`).
    pub fn set_block(&mut self, coid: Coid, block: u16)
        ensures process { self.new ≡ machine.with_block coid.0 block self.old }
    {
        connections::set_block(&mut self.connections, coid, block);
    }

    /// A message of a thread goes out: the thread is blocked, with room for the reply, and what the message goes over is
    /// attached (C Library Reference: `MsgSend`).
    #[tactic(auto, using(crate::proofs::ThreadLemmas::thread_put_back))]
    pub fn send(&mut self, alloc: Global, thread: u8, sent: Sent) -> Result<(), AllocError>
        requires call { CanCall (row_at self.old.threads thread) }
        requires target { CanGo sent.target }
        requires place { CanAttach self.old sent.target.manager sent.target.over }
        ensures ok { OnOk result (self.new ≡ machine.with_queued thread sent self.old) }
        ensures uses { OnOk result (UsesBy sent.target.over sent.target.manager self.old self.new) }
        ensures had_room { IfSome (row_at self.old.threads thread) (λ row. IsTrue (has_own_room row)) → IsOk result }
        ensures err { OnErr result (self.new ≡ self.old) }
    {
        let target = sent.target;
        let cell = self.thread_there(thread);
        cell.send(alloc, sent)?;
        self.connect(thread, target.manager, target.over);
        Ok(())
    }

    /// A message of a thread is replied to: what it came over becomes as its effect says, and a side connection goes (C Library
    /// Reference: `MsgReply`). Gives the server connection that the process has lost with that.
    fn conclude(&mut self, thread: u8, over: Over, effect: Effect) -> Option<ServerName>
        ensures process { self.new ≡ machine.after_reply thread over effect self.old }
        ensures lost { Loses result self.old self.new }
    {
        match over {
            Over::Side => self.detach_side(thread),
            _ => self.apply(effect),
        }
    }

    /// What a message does to a connection.
    fn apply(&mut self, effect: Effect) -> Option<ServerName>
        ensures process { self.new ≡ machine.after_effect effect self.old }
        ensures lost { Loses result self.old self.new }
    {
        match effect {
            Effect::Keeps => None,
            Effect::Opens { coid, block } => {
                self.set_block(coid, block);
                None
            }
            Effect::Closes(coid) => self.detach(coid),
        }
    }

    /// A thread gets an error, with the room for its replies where that had gone; what its call attached goes (C Library
    /// Reference: `MsgError`). Gives the server connection that the process has lost with that.
    #[inline(always)]
    pub fn fail(
        &mut self,
        thread: u8,
        over: Over,
        error: Errno,
        room: Option<Room>,
    ) -> Option<ServerName>
        requires room { BringsRoom (Answer.Failed error) room (row_at self.old.threads thread) }
        ensures process { self.new ≡ machine.after_error thread over (with_thread thread (answered_thread (Answer.Failed error)) self.old) }
        ensures lost { Loses result self.old self.new }
    {
        self.answer(thread, Answer::Failed(error), room);
        self.give_back(thread, over)
    }

    /// What a call attached goes. Gives the server connection that the process has lost with that.
    #[inline(always)]
    fn give_back(&mut self, thread: u8, over: Over) -> Option<ServerName>
        ensures process { self.new ≡ machine.after_error thread over self.old }
        ensures lost { Loses result self.old self.new }
    {
        match over {
            Over::New(coid) => self.detach(coid),
            Over::Side => self.detach_side(thread),
            Over::Existing(_) => None,
        }
    }

    /// A thread gets an answer, with the room for its replies where that comes back with it.
    #[tactic(auto, using(crate::proofs::ThreadLemmas::thread_absent))]
    pub fn answer(&mut self, thread: u8, answer: Answer, room: Option<Room>)
        requires room { BringsRoom answer room (row_at self.old.threads thread) }
        ensures process { self.new ≡ with_thread thread (answered_thread answer) self.old }
    {
        if let Some(cell) = self.thread_mut(thread) {
            cell.answer(answer, room);
        }
    }

    /// A thread whose message was received gets a reply, and the message does what it does to what it came over, and leaves its
    /// memory for others (C Library Reference: `MsgReply`). Gives the server connection that the process has lost with that.
    #[tactic(auto, using(crate::proofs::ThreadLemmas::thread_absent))]
    pub fn reply(
        &mut self,
        thread: u8,
        over: Over,
        replied: Replied,
        reply: &mut Reply,
        memory: &mut Vec<u8>,
    ) -> Option<ServerName>
        requires received { AwaitsReply (row_at self.old.threads thread) }
        ensures process { self.new ≡ machine.after_reply thread over replied.effect (with_thread thread (answered_thread (TheReply replied.status reply.old)) self.old) }
        ensures lost { Loses result self.old self.new }
        ensures memory { Leave (bytes_received (row_at self.old.threads thread)) (vec_capacity memory.old) (vec_capacity memory.new) }
    {
        let cell = self.thread_there(thread);
        cell.reply(replied.status, reply, memory);
        self.conclude(thread, over, replied.effect)
    }

    /// A thread whose message was received gets an error; what its call attached goes, and the message leaves its memory for
    /// others (C Library Reference: `MsgError`). Gives the server connection that the process has lost with that.
    #[tactic(auto, using(crate::proofs::ThreadLemmas::thread_absent))]
    #[inline(always)]
    pub fn reply_error(
        &mut self,
        thread: u8,
        over: Over,
        error: Errno,
        memory: &mut Vec<u8>,
    ) -> Option<ServerName>
        requires received { AwaitsReply (row_at self.old.threads thread) }
        ensures process { self.new ≡ machine.after_error thread over (with_thread thread (answered_thread (Answer.Failed error)) self.old) }
        ensures lost { Loses result self.old self.new }
        ensures memory { Leave (bytes_received (row_at self.old.threads thread)) (vec_capacity memory.old) (vec_capacity memory.new) }
    {
        self.thread_there(thread).reply_error(error, memory);
        self.give_back(thread, over)
    }

    /// The process ends: its threads go, with their answers and rooms, and its connections, and what workers hold of its messages
    /// is kept (C Library Reference: `_exit`). The server connections that it used are lost with that.
    pub fn end(&mut self, alloc: Global)
        ensures process { self.new ≡ machine.ended self.old }
        ensures lost { LosesAll self.old self.new }
    {
        threads::end(&mut self.threads, &mut self.held, alloc);
        self.connections.clear();
        self.sides = [None; PLACES];
        servers::leave(&mut self.servers);
    }

    /// What a message goes over is attached.
    #[inline(always)]
    fn connect(&mut self, thread: u8, manager: Manager, over: Over)
        requires number { HasNumber over }
        requires place { CanAttach self.old manager over }
        ensures process { self.new ≡ machine.with_over thread manager over self.old }
        ensures uses { UsesBy over manager self.old self.new }
    {
        match over {
            Over::New(coid) => self.attach(coid, manager),
            Over::Side => self.connect_side(thread, manager),
            Over::Existing(_) => {}
        }
    }

    /// A thread gets a side connection, unless it has one.
    fn connect_side(&mut self, thread: u8, manager: Manager)
        requires place { HasPlace (servers_at manager self.old) }
        ensures process { self.new ≡ machine.with_new_side thread manager self.old }
        ensures uses { Uses manager self.old self.new }
    {
        if self.side(thread).is_none() {
            self.attach_side(thread, manager);
        }
    }
}
