//! The lists of one user, and the event of a block in a list.

ghost use Rattle.std.specs.Prelude.{◌≡◌, ◌+◌, ◌-◌, ◌<◌, IfOk, IsOk, OnErr, OnOk, Some, length, filter, slice_get};
ghost use Rattle.std.specs.FinMap as map;
ghost use Rattle.qx_types.specs.declared.limits.TheConstants.Limits.{PROCESSES};
ghost use Rattle.qx_lists.specs.Table.{ContainsList, IsIn, nodes_of};
ghost use Rattle.qx_machine.specs.Events.{is_on};
ghost use Rattle.qx_notify.specs.inner.Kept.{AreNew, Put, event_at, lists_at, lists_of, pulse_taken, unlinked};

use qx_lists::Table;
use qx_machine::Event;
use qx_types::{Limits, Proc, User};
use std::alloc::{AllocError, Global};
use std::marker::Model;

/// The list of a user's armed events, and the list of each process' untaken pulses under its number.
#[derive(Drop)]
pub(crate) struct UserLists {
    pub(crate) armed: usize,
    pub(crate) pulses: Vec<usize>,
}

impl Model for UserLists {
    ghost use Rattle.qx_notify.specs.inner.Kept as words;

    ghost Value = { words.EventLists };

    ghost coded = { words.lists_code };

    ghost view = { λ l. record { armed = l.armed; pulses = l.pulses.items } };
}

impl UserLists {
    /// New lists, all empty.
    pub(crate) fn new(alloc: Global, table: &mut Table<Event>) -> Result<Self, AllocError>
        ensures added { IfOk result (λ lists. AreNew table.old table.new (lists_of lists)) }
        ensures places { IfOk result (λ lists. length lists.pulses ≡ PROCESSES + 1) }
    {
        let armed = table.add_list()?;
        let mut pulses = Vec::new(alloc);
        'processes: for _ in 0..Limits::PROCESSES + 1 {
            let list = table.add_list()?;
            pulses.push(list)?;
        }
        Ok(UserLists { armed, pulses })
    }
}

/// The list of a user's armed events.
pub(crate) fn armed_of(all: &[UserLists], user: User) -> usize
    requires user { user.0 < length all.now }
    ensures { result ≡ (lists_at all.now user.0).armed }
{
    let own = &all[user.0 as usize];
    own.armed
}

/// The list of a process' untaken pulses.
pub(crate) fn pulses_of(all: &[UserLists], proc: Proc) -> usize
    requires user { proc.user.0 < length all.now }
    requires process { proc.num < length (lists_at all.now proc.user.0).pulses }
    ensures { slice_get (lists_at all.now proc.user.0).pulses proc.num ≡ Some result }
{
    let own = &all[proc.user.0 as usize];
    own.pulses[proc.num as usize]
}

/// The first node of a list whose event is the block's.
pub(crate) fn find(table: &Table<Event>, list: usize, block: u16) -> Option<usize>
    requires list { ContainsList table.now list }
    ensures { result ≡ slice_get (filter (λ node. is_on block (event_at table.now node)) (nodes_of table.now list)) 0 }
{
    table.know();
    let mut next = qx_uncounted::first(table, list);
    'nodes: while let Some(node) = next {
        if table.value(node).block == block {
            return Some(node);
        }
        next = qx_uncounted::next(table, list, node);
    }
    None
}

/// A node leaves its list and is given back, and its event is handed out.
pub(crate) fn take_out(table: &mut Table<Event>, list: usize, node: usize) -> Event
    requires node { IsIn table.old list node }
    ensures event { result ≡ event_at table.old node }
    ensures taken { table.new ≡ pulse_taken table.old list node }
{
    qx_uncounted::unlink(table, list, node);
    table.free_node(node)
}

/// A node leaves a list, and stands last in a list with another event.
pub(crate) fn move_to(table: &mut Table<Event>, from: usize, node: usize, to: usize, event: Event)
    requires node { IsIn table.old from node }
    requires to { ContainsList table.old to }
    ensures put { Put (unlinked table.old from node) table.new to node event }
    ensures room { table.new.room ≡ table.old.room }
{
    qx_uncounted::unlink(table, from, node);
    *table.value_mut(node) = event;
    qx_uncounted::push_back(table, to, node);
}

/// A new node stands last in a list, with an event.
pub(crate) fn append(
    table: &mut Table<Event>,
    list: usize,
    event: Event,
) -> Result<usize, AllocError>
    requires list { ContainsList table.old list }
    ensures put { IfOk result (λ node. Put table.old table.new list node event) }
    ensures room { OnOk result (table.new.room ≡ table.old.room - 1) }
    ensures err { OnErr result (table.new ≡ table.old) }
    ensures had_room { 0 < table.old.room → IsOk result }
{
    table.know();
    let node = table.new_node(event)?;
    qx_uncounted::push_back(table, list, node);
    Ok(node)
}
