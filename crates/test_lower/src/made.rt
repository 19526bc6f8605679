//! What takes memory: each thing made as it should be, wherever memory is had.

use crate::files::CLIENT;
use qx_attr::Inodes;
use qx_clients::Processes;
use qx_lists::Table;
use qx_machine::{Attribute, Kind};
use qx_paths::{Mount, Mounts, read_path};
use qx_types::{
    Answer, Bytes, Config, LimitName, Limits, Manager, MessageBytes, NoMemory, OFlags, Outcome,
    Prio, User, UserLimits,
};
use qx_wire::{Message, Rest, encode, in_ranges};
use std::alloc::{AllocError, Global};

/// Things that take memory.
#[derive(Clone, Copy, Debug)]
pub enum Thing {
    Text,
    Received,
    Names,
    Answered,
    Given,
    Spelled,
    Joined,
    Mounted,
    Spawned,
    Numbered,
    Linked,
}

/// All of them.
pub const THINGS: &[Thing] = &[
    Thing::Text,
    Thing::Received,
    Thing::Names,
    Thing::Answered,
    Thing::Given,
    Thing::Spelled,
    Thing::Joined,
    Thing::Mounted,
    Thing::Spawned,
    Thing::Numbered,
    Thing::Linked,
];

/// Makes a thing, and tells whether it is as it should be.
pub fn is_made(alloc: Global, thing: Thing) -> Result<bool, NoMemory> {
    match thing {
        Thing::Text => text(alloc),
        Thing::Received => received(alloc),
        Thing::Names => names(alloc),
        Thing::Answered => answered(alloc),
        Thing::Given => given(alloc),
        Thing::Spelled => spelled(alloc),
        Thing::Joined => joined(alloc),
        Thing::Mounted => mounted(alloc),
        Thing::Spawned => spawned(alloc),
        Thing::Numbered => numbered(alloc),
        Thing::Linked => linked(alloc),
    }
}

/// Whether a copy equals the value that it is of.
fn is_copied<T: Clone + PartialEq + Drop>(value: T) -> Result<bool, NoMemory> {
    Ok(value.clone()? == value)
}

/// A path, taken out of its vector and put back.
fn path(alloc: Global) -> Result<Bytes, AllocError> {
    Ok(Bytes::from_vec(Bytes::from_slice(alloc, b"/tmp/log")?.into_vec()))
}

fn text(alloc: Global) -> Result<bool, NoMemory> {
    Ok(path(alloc)?.as_slice() == b"/tmp/log".as_slice() && is_copied(path(alloc)?)?)
}

/// The bytes of a reply, more than stand in a value, in two parts.
fn reply(alloc: Global) -> Result<MessageBytes, AllocError> {
    let first = [7; MessageBytes::INLINE];
    MessageBytes::joined(&mut Vec::new(alloc), &first, &[7], &[])
}

fn received(alloc: Global) -> Result<bool, NoMemory> {
    let whole = vec![in alloc; 7; MessageBytes::INLINE + 1]?;
    Ok(reply(alloc)? == MessageBytes::from_vec(whole))
}

/// A configuration of ann, bob and three workers; none where it is refused.
fn config(alloc: Global) -> Result<Option<Config>, AllocError> {
    let mut names = Vec::new(alloc);
    for name in ["ann", "bob"] {
        names.push(Bytes::from_slice(alloc, name.as_bytes())?)?;
    }
    Ok(Config::new(names, 3))
}

/// Whether the configuration is that one.
fn is_of_ann_and_bob(config: &Config) -> bool {
    config.workers() == 3
        && config.user_count() == 2
        && config.names().len() == 2
        && config.name_bytes(User(1)) == b"ann".as_slice()
        && config.name_bytes(User(2)) == b"bob".as_slice()
        && config.name(User(3)).is_none()
}

/// Whether ceilings are set from 1 on for users who are there, the last one of a user holds, and all others stay.
fn sets_ceilings(config: &mut Config) -> bool {
    config.set_ceiling(User(1), Prio(0)).is_err()
        && config.set_ceiling(User(0), Prio(1)).is_err()
        && config.set_ceiling(User(3), Prio(1)).is_err()
        && config.limits(User(1)).ceiling() == Prio(63)
        && config.set_ceiling(User(2), Prio(1)).is_ok()
        && config.set_ceiling(User(2), Prio(255)).is_ok()
        && config.limits(User(1)).ceiling() == Prio(63)
        && config.limits(User(2)).ceiling() == Prio(255)
}

/// Whether the priorities of disconnect pulses are set so, and ceilings stay.
fn sets_disconnect_prios(config: &mut Config) -> bool {
    config.set_disconnect_prio(User(1), Prio(0)).is_err()
        && config.set_disconnect_prio(User(0), Prio(1)).is_err()
        && config.set_disconnect_prio(User(3), Prio(1)).is_err()
        && config.limits(User(1)).disconnect_prio() == Prio(255)
        && config.set_disconnect_prio(User(2), Prio(255)).is_ok()
        && config.set_disconnect_prio(User(2), Prio(1)).is_ok()
        && config.limits(User(1)).disconnect_prio() == Prio(255)
        && config.limits(User(2)).disconnect_prio() == Prio(1)
        && config.limits(User(2)).ceiling() == Prio(255)
}

/// The names of all limits.
const NAMES: &[LimitName] = &[
    LimitName::Processes,
    LimitName::Connections,
    LimitName::Servers,
    LimitName::Blocks,
    LimitName::Inodes,
    LimitName::File,
    LimitName::Bytes,
    LimitName::Mounts,
    LimitName::Events,
];

/// Whether each limit is set so.
fn sets_limits(config: &mut Config) -> bool {
    let mut is_good = true;
    for name in NAMES {
        is_good = sets_limit(config, *name) && is_good;
    }
    is_good
}

/// Whether a limit is set from 1 to its default for users who are there, the last one holds, upwards too, and that of
/// another user stays, as do the priorities.
fn sets_limit(config: &mut Config, name: LimitName) -> bool {
    let most = name.most();
    config.set_limit(User(1), name, 0).is_err()
        && config.set_limit(User(1), name, most + 1).is_err()
        && config.set_limit(User(0), name, 1).is_err()
        && config.set_limit(User(3), name, 1).is_err()
        && config.limits(User(1)).get(name) == most
        && config.set_limit(User(2), name, 1).is_ok()
        && config.limits(User(2)).get(name) == 1
        && config.set_limit(User(2), name, most).is_ok()
        && config.limits(User(2)).get(name) == most
        && config.limits(User(1)).get(name) == most
        && config.limits(User(2)).ceiling() == Prio(255)
        && config.limits(User(2)).disconnect_prio() == Prio(1)
}

fn names(alloc: Global) -> Result<bool, NoMemory> {
    match config(alloc)? {
        Some(mut config) => {
            let is_set = sets_ceilings(&mut config)
                && sets_disconnect_prios(&mut config)
                && sets_limits(&mut config);
            Ok(is_set && is_of_ann_and_bob(&config.clone()?))
        }
        None => Ok(false),
    }
}

fn answered(alloc: Global) -> Result<bool, NoMemory> {
    is_copied(Answer::Reply(4, reply(alloc)?))
}

fn given(alloc: Global) -> Result<bool, NoMemory> {
    is_copied(Outcome::Reply(4, reply(alloc)?))
}

/// A name of 40 bytes.
const NAME: [u8; 40] = [b'n'; 40];

fn spelled(alloc: Global) -> Result<bool, NoMemory> {
    let rest = Rest::new(&NAME);
    let message = Message::Stat { rest };
    if !in_ranges(&message) {
        return Ok(false);
    }
    Ok(encode(&mut Vec::new(alloc), &message)?.as_slice().get(8..) == Some(NAME.as_slice()))
}

fn joined(alloc: Global) -> Result<bool, NoMemory> {
    match read_path(b"//ann//x/") {
        Ok(path) => Ok(path.joined(alloc)?.as_slice() == b"ann/x".as_slice()),
        Err(_) => Ok(false),
    }
}

fn mounted(alloc: Global) -> Result<bool, NoMemory> {
    let (Some(config), Ok(path)) = (config(alloc)?, read_path(b"/bob/one/two")) else {
        return Ok(false);
    };
    if config.user_count() < 2 {
        return Ok(false);
    }
    let mut mounts = Mounts::boot(alloc, &config, 1)?;
    let mount = Mount::new(alloc, &path, Manager::Pipe, 2)?;
    if mounts.add(2, User(2), &path, mount) != Ok(()) {
        return Ok(false);
    }
    match mounts.resolve(&config, User(2), &path) {
        Ok(place) => Ok(place.number == 1 && place.root == 2),
        Err(_) => Ok(false),
    }
}

fn spawned(alloc: Global) -> Result<bool, NoMemory> {
    Ok(
        Processes::new(alloc)?.spawn(alloc, &UserLimits::default(), 2, Prio(10))?
            == Outcome::Spawned(1),
    )
}

/// A file of user 1.
const ATTRIBUTE: Attribute = Attribute {
    kind: Kind::File,
    mode: 0o600,
    links: 1,
    owner: 1,
    size: 0,
    mtime: 5,
    ctime: 5,
};

fn numbered(alloc: Global) -> Result<bool, NoMemory> {
    is_numbered(&mut Inodes::new(Limits::INODES, Limits::BLOCKS, alloc)?)
}

/// Whether a new inode and a new open control block are each under the first number.
fn is_numbered(inodes: &mut Inodes) -> Result<bool, NoMemory> {
    let inode = inodes.new_inode(ATTRIBUTE)?;
    if inode != Ok(1) || inodes.attr(1).is_none() {
        return Ok(false);
    }
    let block = inodes.open_block(1, OFlags::READ, CLIENT)?;
    Ok(block == Ok(1) && inodes.block(1).is_some())
}

fn linked(alloc: Global) -> Result<bool, NoMemory> {
    let mut table = Table::new(alloc);
    table.reserve(2)?;
    table.add_list()?;
    let node = table.new_node('a')?;
    Ok(table.free_node(node) == 'a')
}
