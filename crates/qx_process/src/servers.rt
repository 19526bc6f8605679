//! The server connections of a process at each manager, and the side connections of its threads.

ghost use Rattle.std.specs.Prelude.{◌≡◌, ◌+◌, ◌≤◌, IfOk, IsTrue, None, count_by, is_some, length, map, option_map, replicate, slice_set};
ghost use Rattle.std.specs.List.{list_any};
ghost use Rattle.std.specs.Option.{option_to_list};
ghost use Rattle.qx_types.specs.Managers.{manager_count, manager_number};
ghost use Rattle.qx_types.specs.declared.limits.TheConstants.Limits.{SERVERS};
ghost use Rattle.qx_types.specs.declared.names.Manager.{Manager as TheManager};
ghost use Rattle.qx_isolation.specs.Lines.{line_at, with_line};
ghost use Rattle.qx_isolation.specs.Rows.{lowest_from, put_row};
ghost use Rattle.qx_machine.specs.Servers as machine;
ghost use Rattle.qx_process.specs.Reads.{HasPlace, named};

use crate::threads;
use arrayvec::ArrayVec;
use qx_machine::{Connection, ServerConnection, ServerName};
use qx_rows::places;
use qx_types::{Limits, Manager};
use std::alloc::{AllocError, Global};
use std::marker::Model;

/// A place for each number up to the last; place 0 is no server connection's.
const PLACES: usize = Limits::SERVERS + 1;

/// The server connections of a process at one manager.
#[derive(Drop)]
pub struct Servers {
    places: ArrayVec<Option<ServerConnection>, PLACES>,
    /// The number of the one in use, if one is.
    in_use: Option<u8>,
}

impl Model for Servers {
    ghost use Rattle.std.specs.Prelude.{◌≡◌};
    ghost use Rattle.qx_machine.specs.Servers as machine;

    ghost Value = { machine.Servers };

    ghost view = { λ s. s.places.items };

    ghost invariant = { λ s. s.in_use ≡ machine.in_use s.places.items };
}

/// Those at each manager.
pub type AllServers = Vec<Servers>;

/// At which manager each thread has a side connection.
pub type Sides = [Option<Manager>; threads::PLACES];

/// None at any manager.
pub fn no_servers(alloc: Global) -> Result<AllServers, AllocError>
    ensures none { IfOk result (λ servers. servers.items ≡ replicate manager_count machine.no_servers) }
{
    let count = Manager::count();
    let mut servers = Vec::with_capacity(alloc, count)?;
    for _ in 0..count {
        servers.push(Servers::default())?;
    }
    Ok(servers)
}

impl Default for Servers {
    /// No server connection.
    fn default() -> Self
        ensures none { result ≡ machine.no_servers }
    {
        let mut places = ArrayVec::new();
        places.push(None);
        Servers {
            places,
            in_use: None,
        }
    }
}

impl Servers {
    /// The number of the one in use, if one is.
    pub fn in_use(&self) -> Option<u8>
        ensures number { result ≡ machine.in_use self.now }
    {
        self.in_use
    }

    /// How many there are, those whose disconnect pulse was made among them.
    pub fn count(&self) -> usize
        ensures count { result ≡ count_by is_some self.now }
        ensures few { result ≤ SERVERS + 1 }
    {
        self.places.iter().filter(|place| place.is_some()).count()
    }

    /// Whether there is one, in use or left.
    pub fn has_any(&self) -> bool
        ensures any { result ≡ list_any is_some self.now }
    {
        self.places.iter().any(|place| place.is_some())
    }

    /// One is used or made while something is attached, and left with the last; gives the number of the one that is left.
    fn settle(&mut self, is_attached: bool) -> Option<u8>
        requires place { IsTrue is_attached → HasPlace self.old }
        ensures servers { self.new ≡ machine.servers_while is_attached self.old }
        ensures lost { (manager : TheManager) → machine.lost_by manager (machine.in_use self.old) (machine.in_use self.new) ≡ map (named manager) (option_to_list result) }
    {
        let in_use = self.in_use();
        if !is_attached {
            self.leave();
            return in_use;
        }
        if in_use.is_none() {
            self.make();
        }
        None
    }

    /// A new one, under the lowest free number.
    fn make(&mut self)
        requires place { HasPlace self.old }
        requires none { machine.in_use self.old ≡ None }
        ensures made { self.new ≡ put_row self.old (lowest_from 1 self.old) machine.new_server }
    {
        let number = places::lowest_free(self.places.as_slice(), 1);
        places::put_within(
            &mut self.places,
            number,
            ServerConnection { is_leaving: false },
        );
        self.in_use = in_use_among(&self.places);
    }

    /// None is in use any more.
    fn leave(&mut self)
        ensures left { self.new ≡ map (option_map machine.leaving) self.old }
    {
        for number in 0..self.places.len() {
            if let Some(server) = self.places[number].as_mut() {
                server.is_leaving = true;
            }
        }
        self.in_use = None;
    }

    /// The one of a number goes, if it was left.
    fn free(&mut self, number: u8)
        ensures freed { self.new ≡ machine.without_left number self.old }
    {
        let place = number as usize;
        if place >= self.places.len() {
            return;
        }
        if is_left(&self.places[place]) {
            self.places[place] = None;
        }
    }
}

/// The server connections at a manager.
pub fn servers_at(servers: &AllServers, manager: Manager) -> &Servers
    requires all { length servers.now.items ≡ manager_count }
    ensures servers { result.now ≡ line_at servers.now.items (manager_number manager) }
{
    &servers[manager.number()]
}

/// At a manager a server connection is used or made while something is attached, and left with the last; gives the one that is
/// left.
pub fn settle(servers: &mut AllServers, manager: Manager, is_attached: bool) -> Option<ServerName>
    requires all { length servers.old.items ≡ manager_count }
    requires place { IsTrue is_attached → HasPlace (line_at servers.old.items (manager_number manager)) }
    ensures servers { servers.new.items ≡ with_line servers.old.items (manager_number manager) (machine.servers_while is_attached) }
    ensures lost { option_to_list result ≡ machine.lost_by manager (machine.in_use (line_at servers.old.items (manager_number manager))) (machine.in_use (line_at servers.new.items (manager_number manager))) }
{
    let number = servers[manager.number()].settle(is_attached)?;
    Some(ServerName { manager, number })
}

/// Those in use at all managers are left.
pub fn leave(servers: &mut AllServers)
    ensures left { servers.new.items ≡ map (map (option_map machine.leaving)) servers.old.items }
{
    for number in 0..servers.len() {
        servers[number].leave();
    }
}

/// Whether there is a server connection at any manager.
pub fn has_any(servers: &AllServers) -> bool
    ensures any { result ≡ list_any (list_any is_some) servers.now.items }
{
    servers.iter().any(|here| here.has_any())
}

/// A server connection goes, if it was left.
pub fn free(servers: &mut AllServers, server: ServerName)
    requires all { length servers.old.items ≡ manager_count }
    ensures servers { servers.new.items ≡ with_line servers.old.items (manager_number server.manager) (machine.without_left server.number) }
{
    servers[server.manager.number()].free(server.number);
}

/// The number of the one in use, if one is.
fn in_use_among(places: &ArrayVec<Option<ServerConnection>, PLACES>) -> Option<u8>
    ensures number { result ≡ machine.in_use places.now.items }
{
    for number in 0..places.len() {
        if is_in_use(&places[number]) {
            return Some(number as u8);
        }
    }
    None
}

/// Whether a server connection is in use.
fn is_in_use(place: &Option<ServerConnection>) -> bool
    ensures { result ≡ machine.is_in_use place.now }
{
    match place {
        Some(server) => !server.is_leaving,
        None => false,
    }
}

/// Whether a server connection was left.
fn is_left(place: &Option<ServerConnection>) -> bool
    ensures { result ≡ machine.is_left place.now }
{
    match place {
        Some(server) => server.is_leaving,
        None => false,
    }
}

/// A thread has a side connection at a manager, or none.
pub fn set_side(sides: &mut Sides, thread: u8, side: Option<Manager>)
    ensures side { sides.new ≡ slice_set sides.old thread side }
{
    let place = thread as usize;
    if place < sides.len() {
        sides[place] = side;
    }
}

/// Whether something of a process is attached to a manager.
pub fn is_attached(manager: Manager, connections: &[Option<Connection>], sides: &Sides) -> bool
    ensures attached { result ≡ machine.is_attached (manager_number manager) connections.now sides.now }
{
    has_connection(manager.number(), connections) || has_side(manager.number(), sides)
}

/// Whether a process has a connection at the manager of a number.
fn has_connection(number: usize, connections: &[Option<Connection>]) -> bool
    ensures connection { result ≡ list_any (machine.connects number) connections.now }
{
    connections.iter().any(|place| connects(number, place))
}

/// Whether a thread of a process has a side connection at the manager of a number.
fn has_side(number: usize, sides: &Sides) -> bool
    ensures side { result ≡ list_any (machine.sides_with number) sides.now }
{
    sides.iter().any(|place| sides_with(number, place))
}

/// Whether a connection is there, at the manager.
fn connects(number: usize, place: &Option<Connection>) -> bool
    ensures connects { result ≡ machine.connects number place.now }
{
    match place {
        Some(connection) => connection.manager.number() == number,
        None => false,
    }
}

/// Whether a thread has a side connection at the manager.
fn sides_with(number: usize, place: &Option<Manager>) -> bool
    ensures sides { result ≡ machine.sides_with number place.now }
{
    match place {
        Some(manager) => manager.number() == number,
        None => false,
    }
}
