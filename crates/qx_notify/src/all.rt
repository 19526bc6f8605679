//! The armed events and the untaken pulses of all users, in lists over one table.

ghost use Rattle.std.specs.Prelude.{◌≡◌, ◌==◌, ◌+◌, ◌<◌, ◌≤◌, ◌&&◌, not, ℕ, IfOk, IsFalse, IsOk, OnErr, OnOk, is_some, length, max};
ghost use Rattle.qx_types.specs.declared.limits.TheConstants.Limits.{EVENTS, PROCESSES};
ghost use Rattle.qx_machine.specs.Events as machine;
ghost use Rattle.qx_notify.specs.Events.{AreLimited, arms_event, armed_outcome, events_after, events_of, nothing_armed, status_given, notified_after, wants_node, with_events};

use crate::changes::Changes;
use crate::conditions::{come_to_hold, is_any, number_of, pulse_value, status_of, wanted_of};
use crate::lists::{UserLists, append, armed_of, find, move_to, pulses_of, take_out};
use qx_lists::Table;
use qx_machine::{Conditions, Event, Pulse};
use qx_types::{Errno, NotifyAction, Proc, PulseValue, User};
use std::alloc::{AllocError, Global};
use std::marker::Model;

/// The armed events and the untaken pulses of all users. An event's node is made as it is armed, is moved as it gives its
/// pulse, and is given back as the pulse is taken, or at once where it gives none.
#[derive(Drop)]
pub struct AllEvents {
    table: Table<Event>,
    lists: Vec<UserLists>,
    // How many events and pulses of each user stand in these.
    counts: Vec<usize>,
}

impl Model for AllEvents {
    ghost use Rattle.qx_notify.specs.inner.Kept.{KeepsLists, shown_events};
    ghost use Rattle.qx_notify.specs.Events as words;

    ghost Value = { words.AllEvents };

    ghost coded = { words.all_events_code };

    ghost view = { λ a. shown_events a.table a.lists.items };

    ghost invariant = { λ a. KeepsLists a.table a.lists.items a.counts.items };
}

impl AllEvents {
    /// No events and no pulses of the users from 1 to this many.
    pub fn new(alloc: Global, users: usize) -> Result<Self, AllocError>
        requires few { users < 256 }
        ensures empty { IfOk result (λ all. all ≡ nothing_armed users) }
    {
        let mut table = Table::new(alloc);
        let mut lists = Vec::new(alloc);
        let mut counts = Vec::new(alloc);
        'users: for _ in 0..users + 1 {
            lists.push(UserLists::new(alloc, &mut table)?)?;
            counts.push(0)?;
        }
        Ok(AllEvents {
            table,
            lists,
            counts,
        })
    }

    /// Makes room for so many more events.
    pub fn reserve(&mut self, count: usize) -> Result<(), AllocError>
        ensures ok { OnOk result (self.new ≡ record self.old { room = max self.old.room count }) }
        ensures had_room { count ≤ self.old.room → IsOk result }
        ensures err { OnErr result (self.new ≡ self.old) }
    {
        self.table.reserve(count)?;
        Ok(())
    }

    /// Whether a user has armed events. Where none is armed, none can become due.
    pub fn has_armed(&self, user: User) -> bool
        requires user { user.0 < length self.now.events }
        ensures { result ≡ not (length (events_of self.now user.0).armed == 0) }
    {
        qx_uncounted::first(&self.table, armed_of(&self.lists, user)).is_some()
    }

    /// Takes away what a block had armed, as the block goes (C Library Reference: `iofunc_notify_remove`).
    pub fn disarm(&mut self, user: User, block: u16)
        requires user { user.0 < length self.old.events }
        ensures { self.new ≡ with_events self.old user.0 (machine.disarmed block (events_of self.old user.0)) }
    {
        self.table.know();
        let armed = armed_of(&self.lists, user);
        if let Some(node) = find(&self.table, armed, block) {
            take_out(&mut self.table, armed, node);
            self.counts[user.0 as usize] -= 1;
        }
    }

    /// Polls: takes away what an event's block had armed, and tells which wanted conditions hold (C Library Reference:
    /// `iofunc_notify`, `_NOTIFY_ACTION_POLL`).
    pub fn poll(&mut self, user: User, event: Event, holding: Conditions) -> u64
        requires user { user.0 < length self.old.events }
        ensures status { result ≡ (machine.polled event holding (events_of self.old user.0)).status }
        ensures events { self.new ≡ with_events self.old user.0 (machine.polled event holding (events_of self.old user.0)).events }
    {
        self.disarm(user, event.block);
        status_of(wanted_of(event.conditions, holding))
    }

    /// Arms an event of a user who may have so many as the newest, in place of what its block had armed (C Library Reference:
    /// `iofunc_notify`, `_NOTIFY_ACTION_TRANARM`). EAGAIN where there are as many beside what goes, and nothing changes then.
    /// An event takes the node of the one that goes; only where none goes it wants memory.
    pub fn arm(
        &mut self,
        most: usize,
        user: User,
        event: Event,
    ) -> Result<Result<(), Errno>, AllocError>
        requires few { most ≤ EVENTS }
        requires user { user.0 < length self.old.events }
        requires process { event.process ≤ PROCESSES }
        ensures judged { IfOk result (λ given. given ≡ armed_outcome (machine.arm_event most event (events_of self.old user.0))) }
        ensures armed { OnOk result (self.new ≡ events_after self.old user.0 (machine.arm_event most event (events_of self.old user.0))) }
        ensures err { OnErr result (self.new ≡ self.old) }
        ensures sure { IsFalse (wants_node most event (events_of self.old user.0)) → IsOk result }
        ensures had_room { 0 < self.old.room → IsOk result }
    {
        self.table.know();
        let armed = armed_of(&self.lists, user);
        let count = self.counts[user.0 as usize];
        if let Some(node) = find(&self.table, armed, event.block) {
            // the one that goes is not counted
            if count > most {
                return Ok(Err(Errno::EAGAIN));
            }
            move_to(&mut self.table, armed, node, armed, event);
            return Ok(Ok(()));
        }
        if count >= most {
            return Ok(Err(Errno::EAGAIN));
        }
        append(&mut self.table, armed, event)?;
        self.counts[user.0 as usize] += 1;
        Ok(Ok(()))
    }

    /// What the notification of a user who may have so many events does, with its status: POLL polls, TRANARM arms, and
    /// POLLARM polls where a wanted condition holds and else arms (C Library Reference: `iofunc_notify`). EAGAIN as `arm`
    /// gives it.
    pub fn notify(
        &mut self,
        most: usize,
        user: User,
        action: NotifyAction,
        event: Event,
        holding: Conditions,
    ) -> Result<Result<u64, Errno>, AllocError>
        requires few { most ≤ EVENTS }
        requires user { user.0 < length self.old.events }
        requires process { event.process ≤ PROCESSES }
        ensures judged { IfOk result (λ given. given ≡ status_given (machine.notified most action event holding (events_of self.old user.0))) }
        ensures notified { OnOk result (self.new ≡ notified_after self.old user.0 (machine.notified most action event holding (events_of self.old user.0))) }
        ensures err { OnErr result (self.new ≡ self.old) }
        ensures sure { IsFalse (arms_event action event holding && wants_node most event (events_of self.old user.0)) → IsOk result }
        ensures had_room { 0 < self.old.room → IsOk result }
    {
        let arms = match action {
            NotifyAction::Poll => false,
            NotifyAction::PollArm => !is_any(wanted_of(event.conditions, holding)),
            NotifyAction::TranArm => true,
        };
        if !arms {
            return Ok(Ok(self.poll(user, event, holding)));
        }
        match self.arm(most, user, event)? {
            Ok(()) => Ok(Ok(0)),
            Err(errno) => Ok(Err(errno)),
        }
    }

    /// After a step's work each due event of a user is armed no more, and gives one pulse where its process lives, which goes
    /// last into the queue of the process, in order of arming (C Library Reference: `iofunc_notify_trigger`). One that gives
    /// none has its node given back. Where nothing is armed, that is seen at once.
    pub fn trigger<C: Changes>(&mut self, user: User, changes: &C)
        requires user { user.0 < length self.old.events }
        ensures { self.new ≡ with_events self.old user.0 (machine.triggered (C.lives changes.now) (C.before changes.now) (C.after changes.now) (events_of self.old user.0)) }
    {
        self.table.know();
        let armed = armed_of(&self.lists, user);
        let mut next = qx_uncounted::first(&self.table, armed);
        'events: while let Some(node) = next {
            self.table.know();
            next = qx_uncounted::next(&self.table, armed, node);
            let event = self.table.value(node);
            let change = changes.of(event.block);
            if !is_any(wanted_of(event.conditions, come_to_hold(change))) {
                continue;
            }
            if changes.lives(event.process) {
                let proc = Proc {
                    user,
                    num: event.process,
                };
                let pulse = Event {
                    value: PulseValue::Bits64(pulse_value(event, change.after)),
                    ..*event
                };
                let queue = pulses_of(&self.lists, proc);
                move_to(&mut self.table, armed, node, queue, pulse);
            } else {
                take_out(&mut self.table, armed, node);
                self.counts[user.0 as usize] -= 1;
            }
        }
    }

    /// Takes a process' first untaken pulse (C Library Reference: `MsgReceivePulse`).
    pub fn take_pulse(&mut self, proc: Proc) -> Option<Pulse>
        requires user { proc.user.0 < length self.old.events }
        requires process { proc.num ≤ PROCESSES }
        ensures first { result ≡ machine.first_pulse proc.num (events_of self.old proc.user.0) }
        ensures rest { self.new ≡ with_events self.old proc.user.0 (machine.without_first_pulse proc.num (events_of self.old proc.user.0)) }
    {
        self.table.know();
        let queue = pulses_of(&self.lists, proc);
        let node = qx_uncounted::first(&self.table, queue)?;
        let event = take_out(&mut self.table, queue, node);
        self.counts[proc.user.0 as usize] -= 1;
        Some(Pulse {
            code: event.code,
            value: number_of(event.value),
        })
    }

    /// Whether a process has untaken pulses.
    pub fn has_pulse(&self, proc: Proc) -> bool
        requires user { proc.user.0 < length self.now.events }
        requires process { proc.num ≤ PROCESSES }
        ensures { result ≡ is_some (machine.first_pulse proc.num (events_of self.now proc.user.0)) }
    {
        qx_uncounted::first(&self.table, pulses_of(&self.lists, proc)).is_some()
    }

    /// A process' untaken pulses go, as the process does.
    pub fn clear(&mut self, proc: Proc)
        requires user { proc.user.0 < length self.old.events }
        requires process { proc.num ≤ PROCESSES }
        ensures { self.new ≡ with_events self.old proc.user.0 (machine.without_pulses proc.num (events_of self.old proc.user.0)) }
    {
        self.know();
        'pulses: while let Some(_pulse) = self.take_pulse(proc) {}
    }

    /// Tells what holds of each user's events: the limit, and that a block has one armed event at most.
    pub fn know(&self)
        ensures limited { (user : ℕ) → user < length self.now.events → AreLimited (events_of self.now user) }
    {
        let _users = self.counts.len();
    }
}
