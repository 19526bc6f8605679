//! The managers' lines and the lists of calls that wait or were answered, over one table, in which the nodes of all users'
//! threads and server connections stand.

ghost use Rattle.std.specs.Prelude.{◌≡◌, ◌≢◌, ℕ, ◌+◌, ◌-◌, ◌*◌, ◌<◌, ◌≤◌, false, option_map, length, drop, slice_get, is_some, max, IfOk, IsOk, OnOk, OnErr, IfSome, IsTrue, None, Some, find, nat_lt};
ghost use Rattle.std.specs.FinMap as maps;
ghost use Rattle.qx_types.specs.Managers.{manager_number, managers};
ghost use Rattle.qx_types.specs.declared.limits.TheConstants.Limits.{PROCESSES, THREADS};
ghost use Rattle.qx_types.specs.declared.names.TheConstants.Manager.{MOST};
ghost use Rattle.qx_lists.specs.Table.{ContainsNode, IsFree, IsIn, nodes_of, with_nodes, with_value, without};
ghost use Rattle.qx_lines.specs.Line.{IsInLine, IsLineOf, item_count};
ghost use Rattle.qx_isolation.specs.Lines.{into};
ghost use Rattle.qx_machine.specs.Machine as machine;
ghost use Rattle.qx_isolation.specs.declared.rows.OwnItem.TheVariants as item;
ghost use Rattle.qx_queues.specs.Queues.{HasNoListedCall, HasThreadNodes, IsGone, disconnect_of, pulse_call, queues_line, has_server_node, has_thread_nodes, message_of, no_queues, stands, unblock_call, unblock_of, with_disconnect, with_queues_line, with_process_nodes, with_server_node, with_thread_nodes, without_first_item, without_process_nodes, without_thread_nodes};
ghost use Rattle.qx_queues.specs.inner.Kept.{PutIn, TakenOut, entries, entry_of_node, node_owner, waiting_of_node};
ghost use Rattle.qx_queues.specs.inner.Marks.{is_marked};
ghost use Rattle.qx_queues.specs.Nodes.{Unblock};
ghost use Rattle.qx_queues.specs.Waiting.{ComesWithRoom, addressed_by, idle, rank_of};
ghost use Rattle.qx_queues.specs.inner.Waiting.{KeepsRoom, load_of, ranked};

use crate::marks::{Marks, lowest_from, marked};
use crate::nodes::{Nodes, ThreadNodes};
use crate::waiting::{Answered, Slot, Waiting};
use qx_lines::{Line, uncounted as lines};
use qx_lists::Table;
use qx_machine::{OwnItem, Queued, ServerName};
use qx_types::{Limits, Manager, Prio, Proc, Thread};
use std::alloc::{AllocError, Global};
use std::marker::Model;

/// The managers' lines, the lists in which calls wait and the list of those that were answered, over one table, in which the
/// nodes of all users' threads and server connections stand.
#[derive(Drop)]
pub struct Queues {
    pub(crate) table: Table<Waiting>,
    lines: Vec<Line>,
    marks: Marks,
    pub(crate) answered: usize,
    pub(crate) nodes: Nodes,
}

impl Model for Queues {
    ghost use Rattle.std.specs.Prelude.{◌≡◌, length, map};
    ghost use Rattle.qx_types.specs.Managers.{manager_count};
    ghost use Rattle.qx_queues.specs.Queues as words;
    ghost use Rattle.qx_queues.specs.inner.Kept.{KnowsPulses, AreListsOfTable, answered_calls, entries, waiting_lists};
    ghost use Rattle.qx_queues.specs.inner.Marks.{AreMarked};
    ghost use Rattle.qx_queues.specs.Nodes.{pulse_line_at, node_of, servers_of, threads_of};

    ghost Value = { words.Queues };

    ghost coded = { words.queues_code };

    ghost view = { λ c. record {
      lines = map (entries c.table) c.lines.items;
      threads = threads_of c.nodes;
      servers = servers_of c.nodes;
      users = length c.nodes;
      room = c.table.room;
      pipes = waiting_lists c.table c.lines.items c.answered;
      answered = answered_calls c.table c.answered;
    } };

    ghost invariant = { λ c. (length c.lines.items ≡ manager_count) × AreListsOfTable c.table c.lines.items c.answered (node_of c.nodes) × KnowsPulses (map (entries c.table) c.lines.items) (pulse_line_at c.nodes) × AreMarked c.marks c.lines.items };
}

impl Queues {
    /// Empty lines, no pipes, and no nodes of the users from 1 to this many.
    pub fn new(alloc: Global, users: usize) -> Result<Self, AllocError>
        requires few { users < 256 }
        ensures empty { IfOk result (λ queues. queues ≡ no_queues users) }
    {
        let mut table = Table::new(alloc);
        let answered = table.add_list()?;
        let mut lines = Vec::new(alloc);
        let nodes = Nodes::new(alloc, users)?;
        'managers: for _ in 0..Manager::count() {
            let line = Line::new(&mut table)?;
            lines.push(line)?;
        }
        Ok(Queues {
            table,
            lines,
            marks: 0,
            answered,
            nodes,
        })
    }

    /// Puts a thread's message, which stands in no line, into a line (C Library Reference: `MsgSend`).
    pub fn send(&mut self, manager: Manager, thread: Thread, prio: Prio)
        requires own { IsTrue (has_thread_nodes self.old thread) }
        requires idle { (number : ℕ) → stands (queues_line self.old number) thread ≡ false }
        requires no_call { HasNoListedCall self.old thread }
        requires lowest { 1 ≤ prio.0 }
        ensures sent { self.new ≡ with_queues_line self.old (manager_number manager) (λ line. into machine.rank line (message_of thread prio.0)) }
    {
        let node = self.nodes.there(thread).message;
        let number = manager.number();
        let line = &mut self.lines[number];
        put_again(&mut self.table, line, node, prio);
        self.marks = marked(self.marks, number, true);
    }

    /// Takes the first item of a line, a message or a pulse (C Library Reference: `MsgReceive`); the node of a disconnect pulse
    /// is given back, and room is kept for it.
    pub fn receive(&mut self, manager: Manager) -> Option<Queued>
        ensures first { result ≡ slice_get (queues_line self.old (manager_number manager)) 0 }
        ensures rest { self.new ≡ without_first_item self.old (manager_number manager) }
        ensures gone { IfSome result (λ first. IsGone first (drop 1 (queues_line self.old (manager_number manager)))) }
    {
        self.table.know();
        let number = manager.number();
        let line = &mut self.lines[number];
        let (node, first) = take_out(&mut self.table, line, &mut self.marks, number)?;
        match first.item {
            OwnItem::Message { .. } => {}
            OwnItem::Unblock {
                process,
                thread,
                ..
            } => {
                let proc = Proc {
                    user: first.user,
                    num: process,
                };
                self.nodes.set_asked(Thread { proc, tid: thread }, None);
            }
            OwnItem::Disconnect { .. } => {
                give_back(&mut self.table, node);
            }
        }
        Some(first)
    }

    /// Puts the pulse that asks to unblock a thread from a call, where none of the thread stands in a line (C Library
    /// Reference: `ChannelCreate`, `_NTO_CHF_UNBLOCK`).
    pub fn ask_unblock(&mut self, manager: Manager, thread: Thread, call: u64, prio: Prio)
        requires own { IsTrue (has_thread_nodes self.old thread) }
        requires idle { (number : ℕ) → unblock_call (queues_line self.old number) thread ≡ None }
        requires lowest { 1 ≤ prio.0 }
        ensures asked { self.new ≡ with_queues_line self.old (manager_number manager) (λ line. into machine.rank line (unblock_of thread call prio.0)) }
    {
        let Some(own) = self.nodes.at(thread) else {
            unreachable!();
        };
        let number = manager.number();
        let line = &mut self.lines[number];
        let pulse = queued_unblock(thread, call, prio);
        put_in(&mut self.table, line, own.unblock, pulse);
        self.marks = marked(self.marks, number, true);
        self.nodes.set_asked(thread, Some(manager));
    }

    /// Takes a thread's message out of the line that it stands in, as a call ends early (C Library Reference: `MsgSend`,
    /// `EINTR`).
    pub fn withdraw(&mut self, manager: Manager, thread: Thread)
        requires stands { IsTrue (stands (queues_line self.old (manager_number manager)) thread) }
        ensures withdrawn { self.new ≡ with_queues_line self.old (manager_number manager) (machine.line_without thread.proc.user.0 (item.Message thread.proc.num thread.tid)) }
        ensures gone { stands (machine.line_without thread.proc.user.0 (item.Message thread.proc.num thread.tid) (queues_line self.old (manager_number manager))) thread ≡ false }
    {
        let Some(own) = self.nodes.at(thread) else {
            unreachable!();
        };
        self.table.know();
        let number = manager.number();
        let line = &mut self.lines[number];
        remove(&mut self.table, line, own.message);
        self.marks = marked(self.marks, number, line.len() > 0);
    }

    /// Takes the pulse that asks to unblock a thread from a call out of the line, if it stands there, as the call is
    /// answered (C Library Reference: `MsgReply`).
    #[inline(always)]
    pub fn reply(&mut self, manager: Manager, thread: Thread, call: u64)
        ensures replied { self.new ≡ with_queues_line self.old (manager_number manager) (machine.line_without thread.proc.user.0 (item.Unblock thread.proc.num thread.tid call)) }
        ensures gone { unblock_call (queues_line self.old (manager_number manager)) thread ≡ Some call → unblock_call (machine.line_without thread.proc.user.0 (item.Unblock thread.proc.num thread.tid call) (queues_line self.old (manager_number manager))) thread ≡ None }
    {
        let Some(own) = self.nodes.at(thread) else {
            return;
        };
        let Some(asked) = own.asked else {
            return;
        };
        if asked.number() != manager.number() {
            return;
        }
        if asked_call(&self.table, own.unblock) != call {
            return;
        }
        self.table.know();
        let line = &mut self.lines[manager.number()];
        remove(&mut self.table, line, own.unblock);
        self.marks = marked(self.marks, manager.number(), line.len() > 0);
        self.nodes.set_asked(thread, None);
    }

    /// Whether anyone was answered.
    pub fn has_answered(&self) -> bool
        ensures answered { result ≡ is_some (slice_get self.now.answered 0) }
    {
        qx_uncounted::first(&self.table, self.answered).is_some()
    }

    /// Takes out the first of those who were answered, with the answer, and with the room for the thread's replies, unless the
    /// answer took that along.
    pub fn take_answered(&mut self) -> Option<Answered>
        ensures first { option_map addressed_by result ≡ slice_get self.old.answered 0 }
        ensures room { IfSome result ComesWithRoom }
        ensures rest { self.new ≡ record self.old { answered = drop 1 self.old.answered } }
        ensures gone { IfSome result (λ taken. HasNoListedCall self.new taken.thread) }
    {
        let node = qx_uncounted::first(&self.table, self.answered)?;
        self.table.know();
        Some(take_slot(&mut self.table, self.answered, node).into_answered())
    }

    /// The first item of a line.
    pub fn first(&self, manager: Manager) -> Option<Queued>
        ensures first { result ≡ slice_get (queues_line self.now (manager_number manager)) 0 }
    {
        self.table.know();
        first_of(&self.table, &self.lines[manager.number()])
    }

    /// How many items stand in a line.
    pub fn len(&self, manager: Manager) -> usize
        ensures count { result ≡ length (queues_line self.now (manager_number manager)) }
    {
        self.lines[manager.number()].len()
    }

    /// The first manager, by number and from one on, in whose line an item stands.
    pub fn next_from(&self, number: usize) -> Option<Manager>
        ensures { result ≡ find (λ manager. nat_lt 0 (length (queues_line self.now (manager_number manager)))) (drop number managers) }
    {
        Manager::of_number(lowest_from(self.marks, number)?)
    }

    /// Makes room for the nodes of so many threads.
    pub fn reserve(&mut self, threads: u8) -> Result<(), AllocError>
        ensures ok { OnOk result (self.new ≡ record self.old { room = max self.old.room (2 * threads) }) }
        ensures had_room { 2 * threads ≤ self.old.room → IsOk result }
        ensures err { OnErr result (self.new ≡ self.old) }
    {
        self.table.reserve(2 * threads as usize)?;
        Ok(())
    }

    /// Makes the nodes of a thread that has none, for which there is room.
    pub fn add(&mut self, thread: Thread, prio: Prio)
        requires fresh { has_thread_nodes self.old thread ≡ false }
        requires user { thread.proc.user.0 < self.old.users }
        requires process { thread.proc.num ≤ PROCESSES }
        requires thread { thread.tid ≤ THREADS }
        requires lowest { 1 ≤ prio.0 }
        requires room { 2 ≤ self.old.room }
        ensures added { self.new ≡ with_thread_nodes self.old thread }
    {
        self.table.know();
        let message = new_node(&mut self.table, Waiting::new(queued_message(thread, prio)));
        self.table.know();
        let unblock = new_node(
            &mut self.table,
            Waiting::new(queued_unblock(thread, 0, prio)),
        );
        let asked = None;
        self.nodes.set(
            thread,
            Some(ThreadNodes {
                message,
                unblock,
                asked,
            }),
        );
    }

    /// Makes the nodes of a process' threads, for which there is room, and none of which has any.
    pub fn add_process(&mut self, proc: Proc, threads: u8, prio: Prio)
        requires fresh { (thread : ℕ) → has_thread_nodes self.old (record { proc = proc; tid = thread }) ≡ false }
        requires user { proc.user.0 < self.old.users }
        requires process { proc.num ≤ PROCESSES }
        requires threads { threads ≤ THREADS }
        requires lowest { 1 ≤ prio.0 }
        requires room { 2 * threads ≤ self.old.room }
        ensures added { self.new ≡ with_process_nodes self.old proc threads }
    {
        if threads == 0 {
            return;
        }
        self.add_process(proc, threads - 1, prio);
        self.add(Thread { proc, tid: threads }, prio);
    }

    /// The nodes of a process' threads are given back, none of which stands in a line or carries a call or an answer, and room is
    /// kept for them.
    pub fn remove_process(&mut self, proc: Proc)
        requires idle { (thread number : ℕ) → stands (queues_line self.old number) (record { proc = proc; tid = thread }) ≡ false }
        requires unasked { (thread number : ℕ) → unblock_call (queues_line self.old number) (record { proc = proc; tid = thread }) ≡ None }
        requires no_call { (thread : ℕ) → HasNoListedCall self.old (record { proc = proc; tid = thread }) }
        ensures removed { self.new ≡ without_process_nodes self.old proc }
        ensures gone { (thread : ℕ) → has_thread_nodes self.new (record { proc = proc; tid = thread }) ≡ false }
    {
        for tid in 0..Limits::THREADS + 1 {
            self.remove(Thread { proc, tid });
        }
        self.nodes.know(proc);
    }

    /// The nodes of a thread, if it has any, are given back, where they stand in no list.
    fn remove(&mut self, thread: Thread)
        requires idle { (number : ℕ) → stands (queues_line self.old number) thread ≡ false }
        requires unasked { (number : ℕ) → unblock_call (queues_line self.old number) thread ≡ None }
        requires no_call { HasNoListedCall self.old thread }
        ensures removed { self.new ≡ without_thread_nodes self.old thread }
    {
        let Some(own) = self.nodes.at(thread) else {
            return;
        };
        give_back(&mut self.table, own.message);
        give_back(&mut self.table, own.unblock);
        self.nodes.set(thread, None);
    }

    /// A process has a disconnect node at a manager from now on: the one that it had, or a new one.
    pub fn add_server(&mut self, proc: Proc, manager: Manager) -> Result<(), AllocError>
        requires started { HasThreadNodes self.old proc }
        ensures ok { OnOk result (self.new ≡ with_server_node self.old proc (manager_number manager)) }
        ensures had_node { IsTrue (has_server_node self.old proc (manager_number manager)) → IsOk result }
        ensures had_room { 1 ≤ self.old.room → IsOk result }
        ensures err { OnErr result (self.new ≡ self.old) }
    {
        let number = manager.number();
        if self.nodes.disconnect(proc, number).is_some() {
            return Ok(());
        }
        self.table.reserve(1)?;
        self.table.know();
        // Threads are numbered from 1: until it is put into a line, the node stands for no message that is sent.
        let nobody = Thread { proc, tid: 0 };
        let node = new_node(
            &mut self.table,
            Waiting::new(queued_message(nobody, Prio(Limits::PRIORITY))),
        );
        self.nodes.set_disconnect(proc, number, Some(node));
        Ok(())
    }

    /// A process has lost a server connection: its disconnect node at that manager goes into the manager's line as the pulse
    /// that tells so (Writing a Resource Manager: `_PULSE_CODE_DISCONNECT`), with a priority.
    pub fn disconnect(&mut self, proc: Proc, server: ServerName, prio: Prio)
        requires there { IsTrue (has_server_node self.old proc (manager_number server.manager)) }
        requires lowest { 1 ≤ prio.0 }
        ensures disconnected { self.new ≡ with_disconnect self.old proc server prio.0 }
    {
        let number = server.manager.number();
        let Some(node) = self.nodes.disconnect(proc, number) else {
            unreachable!();
        };
        self.nodes.set_disconnect(proc, number, None);
        let line = &mut self.lines[number];
        let pulse = queued_disconnect(proc, server, prio);
        put_in(&mut self.table, line, node, pulse);
        self.marks = marked(self.marks, number, true);
    }
}

/// A thread's message, as it stands in a line.
fn queued_message(thread: Thread, prio: Prio) -> Queued
    ensures message { result ≡ message_of thread prio.0 }
{
    Queued {
        user: thread.proc.user,
        item: OwnItem::Message {
            process: thread.proc.num,
            thread: thread.tid,
        },
        prio,
    }
}

/// The pulse that asks to unblock a thread from a call, as it stands in a line.
fn queued_unblock(thread: Thread, call: u64, prio: Prio) -> Queued
    ensures pulse { result ≡ unblock_of thread call prio.0 }
{
    Queued {
        user: thread.proc.user,
        item: OwnItem::Unblock {
            process: thread.proc.num,
            thread: thread.tid,
            call,
        },
        prio,
    }
}

/// The disconnect pulse of a process, as it stands in a line.
fn queued_disconnect(proc: Proc, server: ServerName, prio: Prio) -> Queued
    ensures pulse { result ≡ disconnect_of proc server prio.0 }
{
    Queued {
        user: proc.user,
        item: OwnItem::Disconnect {
            process: proc.num,
            server,
        },
        prio,
    }
}

/// Makes a node, for which there is room.
fn new_node(table: &mut Table<Waiting>, waiting: Waiting) -> usize
    requires room { 0 < table.old.room }
    ensures made { table.new ≡ record table.old { values = maps.insert table.old.values result waiting; room = table.old.room - 1 } }
    ensures was_new { maps.get table.old.values result ≡ None }
{
    match table.new_node(waiting) {
        Ok(node) => node,
        Err(_) => unreachable!(),
    }
}

/// A node stands for another item from now on, and carries nothing.
fn set_entry(table: &mut Table<Waiting>, node: usize, queued: Queued)
    requires there { ContainsNode table.old node }
    requires lowest { 1 ≤ queued.prio.0 }
    ensures set { table.new ≡ with_value table.old node (idle queued) }
{
    table.value_mut(node).stand_for(queued);
}

/// What a node stands for has another priority from now on.
fn set_prio(table: &mut Table<Waiting>, node: usize, prio: Prio)
    requires there { ContainsNode table.old node }
    requires lowest { 1 ≤ prio.0 }
    ensures set { table.new ≡ with_value table.old node (ranked prio (waiting_of_node table.old node)) }
{
    table.value_mut(node).set_prio(prio);
}

/// Puts a free node, which stands for an item from now on, into a line.
#[inline(always)]
fn put_in(table: &mut Table<Waiting>, line: &mut Line, node: usize, queued: Queued)
    requires line { IsLineOf rank_of table.old line.old }
    requires free { IsFree table.old node }
    requires lowest { 1 ≤ queued.prio.0 }
    ensures put { PutIn table.old table.new line.old line.new node (idle queued) }
{
    set_entry(table, node, queued);
    lines::put(line, table, node);
}

/// Puts a free node into a line with another priority from now on; it stands for the item that it stood for, and what it
/// carries stays.
#[inline(always)]
fn put_again(table: &mut Table<Waiting>, line: &mut Line, node: usize, prio: Prio)
    requires line { IsLineOf rank_of table.old line.old }
    requires free { IsFree table.old node }
    requires lowest { 1 ≤ prio.0 }
    ensures put { PutIn table.old table.new line.old line.new node (ranked prio (waiting_of_node table.old node)) }
{
    set_prio(table, node, prio);
    lines::put(line, table, node);
}

/// Takes the first node out of a manager's line, with what it stands for. With the last node the manager's mark goes.
fn take_out(
    table: &mut Table<Waiting>,
    line: &mut Line,
    marks: &mut Marks,
    number: usize,
) -> Option<(usize, Queued)>
    requires line { IsLineOf rank_of table.old line.old }
    requires there { (list node : ℕ) → IsIn table.old list node → ContainsNode table.old node }
    requires number { number < MOST }
    requires marked { is_marked marks.old number ≡ nat_lt 0 (item_count line.old) }
    ensures out { TakenOut table.old table.new line.old line.new (drop 1) }
    ensures first { option_map (λ taken. taken.1) result ≡ slice_get (entries table.old line.old) 0 }
    ensures entry { IfSome result (λ taken. entry_of_node table.new taken.0 ≡ taken.1) }
    ensures free { IfSome result (λ taken. IsFree table.new taken.0) }
    ensures mark { is_marked marks.new number ≡ nat_lt 0 (item_count line.new) }
    ensures others { (other : ℕ) → other < MOST → other ≢ number → is_marked marks.new other ≡ is_marked marks.old other }
{
    let node = lines::take(line, table)?;
    if line.len() == 0 {
        *marks = marked(*marks, number, false);
    }
    Some((node, table.value(node).queued()))
}

/// Gives a node back that stands in no list.
fn give_back(table: &mut Table<Waiting>, node: usize)
    requires free { IsFree table.old node }
    ensures freed { table.new ≡ record table.old { values = maps.remove table.old.values node; room = table.old.room + 1 } }
{
    table.free_node(node);
}

/// Takes a node out of its line.
fn remove(table: &mut Table<Waiting>, line: &mut Line, node: usize)
    requires line { IsLineOf rank_of table.old line.old }
    requires in_line { IsInLine table.old line.old node }
    ensures out { TakenOut table.old table.new line.old line.new (without node) }
{
    lines::remove(line, table, node);
}

/// Takes a node out of a list, with what it carries.
pub(crate) fn take_slot(table: &mut Table<Waiting>, list: usize, node: usize) -> Slot
    requires in_list { IsIn table.old list node }
    requires there { ContainsNode table.old node }
    ensures carried { load_of result ≡ (waiting_of_node table.old node).load }
    ensures room { KeepsRoom result }
    ensures taken { table.new ≡ with_value (with_nodes table.old list (without node (nodes_of table.old list))) node (idle (entry_of_node table.old node)) }
    ensures free { IsFree table.new node }
{
    qx_uncounted::unlink(table, list, node);
    table.value_mut(node).replace(Slot::Empty)
}

/// The call that the pulse of a node names.
fn asked_call(table: &Table<Waiting>, node: usize) -> u64
    requires there { ContainsNode table.now node }
    requires pulse { (thread : Thread) × (node_owner (entry_of_node table.now node) ≡ Unblock thread) }
    ensures call { pulse_call (entry_of_node table.now node).item ≡ Some result }
{
    match table.value(node).queued().item {
        OwnItem::Unblock { call, .. } => call,
        OwnItem::Message { .. } | OwnItem::Disconnect { .. } => unreachable!(),
    }
}

/// What the first node of a line stands for.
fn first_of(table: &Table<Waiting>, line: &Line) -> Option<Queued>
    requires line { IsLineOf rank_of table.now line.now }
    requires there { (list node : ℕ) → IsIn table.now list node → ContainsNode table.now node }
    ensures first { result ≡ slice_get (entries table.now line.now) 0 }
{
    let node = lines::first(line, table)?;
    Some(table.value(node).queued())
}
