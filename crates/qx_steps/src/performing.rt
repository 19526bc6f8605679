//! What a worker performs, for the user whose item it is, and how processes that have ended are freed.

ghost use Rattle.std.specs.Prelude.{◌≡◌, false, IfOk, IsFalse, IsOk, OnErr, OnOk};
ghost use Rattle.std.specs.List.{list_any};
ghost use Rattle.std.specs.Option.{option_copied};
ghost use Rattle.qx_machine.specs.Machine as machine;
ghost use Rattle.qx_machine.specs.Machine.{own_held};
ghost use Rattle.qx_isolation.specs.Rows.{row_at};
ghost use Rattle.qx_machine.specs.Settling.{process_of_item};
ghost use Rattle.qx_machine.specs.Wants.{item_wants_memory};
ghost use Rattle.qx_clients.specs.Calls.{has_ended_in};
ghost use Rattle.qx_chan.specs.Serving.{IsReadOf};
ghost use Rattle.qx_chan.specs.Users.{process_of};
ghost use Rattle.qx_steps.specs.inner.Held.{taken_item, IsThere};
ghost use Rattle.qx_steps.specs.inner.Parts.{parts_of, told_all, AreResourcesOf};
ghost use Rattle.qx_steps.specs.inner.Performing.{holds_of, with_one_left, PerformsFor};

use qx_chan::Channel;
use qx_machine::{Held, OwnItem};
use qx_resources::AllResources;
use qx_rows::Reply;
use qx_types::{Config, Proc, Thread, User};
use qx_wire::Parsed;
use std::alloc::AllocError;

/// Does an item of a user that a worker holds, at a moment; nothing, where the user is not there. If it is a message, that may
/// have been read before. Tells whether the process whose item it is may have ended.
#[inline(always)]
pub(crate) fn perform(
    channel: &mut Channel,
    config: &Config,
    resources: &mut AllResources,
    held: Held,
    read: Option<&Parsed>,
    moment: u64,
    reply: &mut Reply,
    memory: &mut Vec<u8>,
) -> Result<bool, AllocError>
    requires users { AreResourcesOf channel.old resources.old }
    requires read { IsReadOf (option_copied read) (taken_item channel.old.users held) }
    ensures ok { OnOk result (PerformsFor config.now channel.old channel.new resources.old resources.new held moment (row_at resources.old held.user.0)) }
    ensures there { IfOk result (λ may_have_ended. IsFalse may_have_ended → IsThere channel.old.users held) }
    ensures err { OnErr result ((channel.new ≡ channel.old) × (resources.new ≡ resources.old)) }
    ensures sure { IsFalse (item_wants_memory (row_at (parts_of channel.old.users (told_all channel.old resources.old)) held.user.0) held.item moment) → IsOk result }
{
    let Some(resources) = resources.user_mut(held.user) else {
        return Ok(true);
    };
    Ok(match held.item {
        OwnItem::Message { process, thread } => {
            let thread = named_thread(held.user, process, thread);
            !channel.serve(config, resources, thread, read, moment, reply, memory)?
        }
        OwnItem::Unblock {
            process,
            thread,
            call,
        } => {
            let thread = named_thread(held.user, process, thread);
            channel.cancel(resources, thread, call, moment);
            true
        }
        OwnItem::Disconnect { process, server } => {
            let proc = named_process(held.user, process);
            channel.disconnect(resources, proc, server, moment);
            true
        }
    })
}

/// Frees the process whose item was performed, if it has ended and nothing of it is left.
pub(crate) fn free_owner(
    channel: &mut Channel,
    hands: &[Option<Held>],
    held: Held,
    may_have_ended: bool,
)
    requires lives { IsFalse may_have_ended → has_ended_in (process_of channel.old.users (record { user = held.user; num = process_of_item held.item })) ≡ false }
    ensures freed { channel.new ≡ record (with_one_left channel.old (own_held held.user.0 hands.now) (record { user = held.user; num = process_of_item held.item })) { room = channel.new.room } }
{
    if may_have_ended {
        free_one(channel, hands, owner_of(held));
    }
}

/// Frees a process, if it has ended and nothing of it is left.
pub(crate) fn free_one(channel: &mut Channel, hands: &[Option<Held>], proc: Proc)
    ensures { channel.new ≡ record (with_one_left channel.old (own_held proc.user.0 hands.now) proc) { room = channel.new.room } }
{
    if channel.has_ended(proc) && !is_held_of(hands, proc) {
        channel.free_ended(proc);
    }
}

/// Whether a worker holds an item of a process.
fn is_held_of(hands: &[Option<Held>], proc: Proc) -> bool
    ensures { result ≡ list_any (holds_of proc.user.0 proc.num) hands.now }
{
    hands.iter().any(|hand| is_of(hand, proc))
}

/// Whether what is in a hand is an item of a process.
fn is_of(hand: &Option<Held>, proc: Proc) -> bool
    ensures { result ≡ holds_of proc.user.0 proc.num hand.now }
{
    match hand {
        Some(held) => held.user == proc.user && process_of(held.item) == proc.num,
        None => false,
    }
}

/// Whose item it is.
fn process_of(item: OwnItem) -> u8
    ensures { result ≡ process_of_item item }
{
    match item {
        OwnItem::Message { process, .. }
        | OwnItem::Unblock { process, .. }
        | OwnItem::Disconnect { process, .. } => process,
    }
}

/// The process whose item a worker holds.
fn owner_of(held: Held) -> Proc
    ensures { result ≡ record { user = held.user; num = process_of_item held.item } }
{
    named_process(held.user, process_of(held.item))
}

/// A process of a user.
fn named_process(user: User, process: u8) -> Proc
    ensures { result ≡ record { user = user; num = process } }
{
    Proc { user, num: process }
}

/// A thread of a user.
pub(crate) fn named_thread(user: User, process: u8, thread: u8) -> Thread
    ensures { result ≡ machine.named_thread user.0 process thread }
{
    Thread {
        proc: Proc { user, num: process },
        tid: thread,
    }
}
