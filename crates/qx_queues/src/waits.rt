//! Calls that wait, in lists under numbers, and those that were answered.

ghost use Rattle.std.specs.Prelude.{◌≡◌, ◌<◌, ◌≤◌, ◌+◌, ◌++◌, ◌∷◌, ◌↔◌, [], ℕ, false, None, Some, IfNone, IfOk, IfSome, IsFalse, IsTrue, OnErr, drop, filter, is_some, length, map, option_map, slice_get, take};
ghost use Rattle.std.specs.FinMap as maps;
ghost use Rattle.std.specs.List.{list_any};
ghost use Rattle.std.specs.Option.{option_copied};
ghost use Rattle.std.specs.Result.{ForOk};
ghost use Rattle.qx_types.specs.declared.limits.TheConstants.Limits.{TRANSFER};
ghost use Rattle.qx_types.specs.declared.names.Thread.{Thread as TheThread};
ghost use Rattle.qx_types.specs.declared.outcome.Answer.TheVariants.{Reply};
ghost use Rattle.qx_lists.specs.Table.{ContainsList, ContainsNode, IsFree, IsIn, nodes_of, with_nodes, with_value};
ghost use Rattle.qx_machine.specs.Waiting.{is_written as is_written_by};
ghost use Rattle.qx_machine.specs.Pipes.{staying};
ghost use Rattle.qx_isolation.specs.Rows.{row_at};
ghost use Rattle.qx_queues.specs.Kept.{HasLoad};
ghost use Rattle.qx_queues.specs.inner.Kept.{Abandoned, entry_of_node, waiting_of_node, waits_with};
ghost use Rattle.qx_queues.specs.Nodes.{Message, node_of, nodes_of_thread};
ghost use Rattle.qx_queues.specs.Queues.{HasList, IsMessageReceived, answer_to, caller, has_call, has_call_of, waiting_in_list, with_abandoned, with_more_answers, with_waiting, without_list};
ghost use Rattle.qx_queues.specs.inner.Waiting.{KeepsRoom, load_of};
ghost use Rattle.qx_queues.specs.Waiting.{ComesWithRoom, addressed_by, call_carried, carrying};
ghost use Rattle.qx_queues.specs.Waits.{handed, is_users_call, leaves, users_call};
ghost use Rattle.qx_queues.specs.inner.Waits.{without_first};

use crate::calls::PipeCall;
use crate::leaving::Leaving;
use crate::nodes::{Nodes, ThreadNodes};
use crate::queues::{Queues, take_slot};
use crate::waiting::{Answered, Slot, Waiting};
use qx_lists::Table;
use qx_rows::Room;
use qx_types::{Errno, Proc, Thread, User};
use std::alloc::AllocError;

impl Queues {
    /// Makes an empty list in which calls may wait, and gives its number.
    pub fn add_list(&mut self) -> Result<usize, AllocError>
        ensures made { IfOk result (λ list. self.new ≡ with_waiting self.old list []) }
        ensures was_new { IfOk result (λ list. maps.get self.old.pipes list ≡ None) }
        ensures err { OnErr result (self.new ≡ self.old) }
    {
        let list = self.table.add_list()?;
        Ok(list)
    }

    /// Takes a list away; the calls that wait there wait nowhere then.
    pub fn free_list(&mut self, list: usize)
        requires list { HasList self.old list }
        ensures { self.new ≡ without_list self.old list }
    {
        self.take_out(list, Leaving::All);
        self.table.free_list(list);
    }

    /// The first call that waits in a list.
    pub fn first_waiting(&self, list: usize) -> Option<&PipeCall>
        requires list { HasList self.now list }
        ensures { option_copied result ≡ option_map (λ own. own.call) (slice_get (waiting_in_list self.now list) 0) }
    {
        self.table.know();
        let node = qx_uncounted::first(&self.table, list)?;
        Some(self.table.value(node).call())
    }

    /// Whether one of those calls waits in a list.
    pub fn is_waiting(&self, list: usize, which: Leaving) -> bool
        requires list { HasList self.now list }
        ensures { result ≡ list_any (λ own. leaves which own.call) (waiting_in_list self.now list) }
    {
        first_leaving(&self.table, list, which).is_some()
    }

    /// Over which open control block a call of a thread waits; none where it waits nowhere.
    pub fn waits(&self, thread: Thread, call: u64) -> Option<u16>
        ensures nowhere { IfNone result ((list : ℕ) → list_any (is_users_call thread call) (waiting_in_list self.now list) ≡ false) }
    {
        let own = self.nodes.at(thread)?;
        self.table.value(own.message).waits(call)
    }

    /// Whether a call of a process waits.
    pub fn has_waiting(&self, proc: Proc) -> bool
        ensures { IsFalse result ↔ ((list : ℕ) → has_call_of (waiting_in_list self.now list) proc ≡ false) }
    {
        any_waits(&self.table, self.nodes.threads(proc))
    }

    /// The calls of a process that wait are those of a process that has ended from now on.
    pub fn abandon(&mut self, proc: Proc)
        ensures { self.new ≡ with_abandoned self.old proc }
    {
        abandon_all(&mut self.table, self.nodes.threads(proc));
    }

    /// Tells that a thread waits in one list at most.
    pub fn know(&self)
        ensures once { (thread : TheThread) (one other : ℕ) → IsTrue (has_call (waiting_in_list self.now one) thread) → IsTrue (has_call (waiting_in_list self.now other) thread) → one ≡ other }
    {
        self.table.know();
    }

    /// A call whose message was received waits, last in a list, until it is answered (Writing a Resource Manager: a client to
    /// whom no reply is made yet).
    pub fn wait(&mut self, list: usize, user: User, call: PipeCall)
        requires list { HasList self.old list }
        requires received { IsMessageReceived self.old (caller (users_call user.0 call)) }
        ensures { self.new ≡ with_waiting self.old list (waiting_in_list self.old list ++ users_call user.0 call ∷ []) }
    {
        let node = message_node(&self.nodes, call.thread(user));
        put_slot(&mut self.table, list, node, Slot::Waits(call));
    }

    /// A call whose message was received is answered, with a status and bytes or with an error; tells whether that takes the
    /// bytes that it writes.
    #[inline(always)]
    pub fn answer(
        &mut self,
        user: User,
        call: PipeCall,
        answer: Result<(u64, &[u8]), Errno>,
    ) -> bool
        requires received { IsMessageReceived self.old (caller (users_call user.0 call)) }
        requires short { ForOk answer (λ reply. length reply.1.now ≤ TRANSFER) }
        ensures answered { self.new ≡ with_more_answers self.old (answer_to (users_call user.0 call) (handed answer.entry) ∷ []) }
        ensures written { result ≡ is_written_by call.bytes (handed answer.entry) }
    {
        let written = is_written(&call, answer);
        self.give(Answered::new(user, call, answer));
        written
    }

    /// A call whose message was received is answered, with a status and with bytes in two pieces; tells whether that takes the
    /// bytes that it writes.
    pub fn pass(
        &mut self,
        user: User,
        call: PipeCall,
        status: u64,
        first: &[u8],
        second: &[u8],
    ) -> bool
        requires received { IsMessageReceived self.old (caller (users_call user.0 call)) }
        requires short { length first.now + length second.now ≤ TRANSFER }
        ensures answered { self.new ≡ with_more_answers self.old (answer_to (users_call user.0 call) (Reply status (first.now ++ second.now)) ∷ []) }
        ensures written { result ≡ is_written_by call.bytes (Reply status (first.now ++ second.now)) }
    {
        let written = is_written(&call, Ok((status, first)));
        self.give(Answered::in_pieces(user, call, status, first, second));
        written
    }

    /// A call whose message was received is replied to with the bytes that stand in a buffer, which is left empty; tells whether
    /// that takes the bytes that it writes.
    pub fn reply_given(&mut self, user: User, call: PipeCall, status: u64, given: &mut Room) -> bool
        requires received { IsMessageReceived self.old (caller (users_call user.0 call)) }
        ensures answered { self.new ≡ with_more_answers self.old (answer_to (users_call user.0 call) (Reply status given.old) ∷ []) }
        ensures written { result ≡ is_written_by call.bytes (Reply status given.old) }
        ensures left { given.new ≡ [] }
    {
        let written = is_written(&call, Ok((status, &[])));
        self.give(Answered::given(user, call, status, given));
        written
    }

    /// The answer to a call whose message was received stands last among those that are given.
    #[inline(always)]
    fn give(&mut self, answered: Answered)
        requires received { IsMessageReceived self.old answered.thread }
        requires room { ComesWithRoom answered }
        ensures given { self.new ≡ with_more_answers self.old (addressed_by answered ∷ []) }
    {
        let node = message_node(&self.nodes, answered.thread);
        put_slot(
            &mut self.table,
            self.answered,
            node,
            Slot::Answered(answered),
        );
    }

    /// The first call of a list is answered; tells whether that takes the bytes that it writes.
    pub fn answer_first(&mut self, list: usize, answer: Result<(u64, &[u8]), Errno>) -> bool
        requires list { HasList self.old list }
        requires waits { 0 < length (waiting_in_list self.old list) }
        requires short { ForOk answer (λ reply. length reply.1.now ≤ TRANSFER) }
        ensures answered { self.new ≡ with_more_answers (with_waiting self.old list (drop 1 (waiting_in_list self.old list))) (map (λ own. answer_to own (handed answer.entry)) (take 1 (waiting_in_list self.old list))) }
        ensures written { result ≡ list_any (λ own. is_written_by own.call.bytes (handed answer.entry)) (take 1 (waiting_in_list self.old list)) }
    {
        match self.take_first(list, Leaving::All) {
            Some((user, call)) => self.answer(user, call, answer),
            None => unreachable!(),
        }
    }

    /// The first call of a list is answered, with a status and with bytes in two pieces; tells whether that takes the bytes that
    /// it writes.
    pub fn pass_first(&mut self, list: usize, status: u64, first: &[u8], second: &[u8]) -> bool
        requires list { HasList self.old list }
        requires waits { 0 < length (waiting_in_list self.old list) }
        requires short { length first.now + length second.now ≤ TRANSFER }
        ensures answered { self.new ≡ with_more_answers (with_waiting self.old list (drop 1 (waiting_in_list self.old list))) (map (λ own. answer_to own (Reply status (first.now ++ second.now))) (take 1 (waiting_in_list self.old list))) }
        ensures written { result ≡ list_any (λ own. is_written_by own.call.bytes (Reply status (first.now ++ second.now))) (take 1 (waiting_in_list self.old list)) }
    {
        match self.take_first(list, Leaving::All) {
            Some((user, call)) => self.pass(user, call, status, first, second),
            None => unreachable!(),
        }
    }

    /// The first call of a list is replied to with the bytes that stand in a buffer, which is left empty; tells whether that takes
    /// the bytes that it writes.
    pub fn reply_first(&mut self, list: usize, status: u64, given: &mut Room) -> bool
        requires list { HasList self.old list }
        requires waits { 0 < length (waiting_in_list self.old list) }
        ensures answered { self.new ≡ with_more_answers (with_waiting self.old list (drop 1 (waiting_in_list self.old list))) (map (λ own. answer_to own (Reply status given.old)) (take 1 (waiting_in_list self.old list))) }
        ensures written { result ≡ list_any (λ own. is_written_by own.call.bytes (Reply status given.old)) (take 1 (waiting_in_list self.old list)) }
        ensures left { given.new ≡ [] }
    {
        match self.take_first(list, Leaving::All) {
            Some((user, call)) => self.reply_given(user, call, status, given),
            None => unreachable!(),
        }
    }

    /// Those calls of a list are answered, from the first on.
    pub fn dismiss(&mut self, list: usize, which: Leaving, answer: Result<(u64, &[u8]), Errno>)
        requires list { HasList self.old list }
        requires short { ForOk answer (λ reply. length reply.1.now ≤ TRANSFER) }
        ensures { self.new ≡ with_more_answers (with_waiting self.old list (staying (λ own. leaves which own.call) (waiting_in_list self.old list))) (map (λ own. answer_to own (handed answer.entry)) (filter (λ own. leaves which own.call) (waiting_in_list self.old list))) }
    {
        'leaving: while let Some((user, call)) = self.take_first(list, which) {
            self.answer(user, call, answer);
        }
    }

    /// Those calls leave a list, and nobody answers them.
    pub fn take_out(&mut self, list: usize, which: Leaving)
        requires list { HasList self.old list }
        ensures { self.new ≡ with_waiting self.old list (staying (λ own. leaves which own.call) (waiting_in_list self.old list)) }
    {
        'leaving: while let Some(_taken) = self.take_first(list, which) {}
    }

    /// Takes the first of those calls out of a list, with its user: its message was received then, and it waits nowhere.
    #[inline(always)]
    fn take_first(&mut self, list: usize, which: Leaving) -> Option<(User, PipeCall)>
        requires list { HasList self.old list }
        ensures first { option_map (λ taken. users_call taken.0.0 taken.1) result ≡ slice_get (filter (λ own. leaves which own.call) (waiting_in_list self.old list)) 0 }
        ensures nobody { IfNone result (self.new ≡ self.old) }
        ensures taken { IfSome result (λ taken. self.new ≡ with_waiting self.old list (without_first (λ own. leaves which own.call) (waiting_in_list self.old list))) }
        ensures received { IfSome result (λ taken. IsMessageReceived self.new (caller (users_call taken.0.0 taken.1))) }
    {
        let node = first_leaving(&self.table, list, which)?;
        self.table.know();
        let user = self.table.value(node).queued().user;
        let call = take_slot(&mut self.table, list, node).into_call();
        Some((user, call))
    }
}

/// The node of a thread's messages.
fn message_node(nodes: &Nodes, thread: Thread) -> usize
    requires there { IsTrue (is_some (nodes_of_thread nodes.now thread)) }
    ensures node { node_of nodes.now (Message thread) ≡ Some result }
{
    match nodes.at(thread) {
        Some(own) => own.message,
        None => unreachable!(),
    }
}

/// Whether a call waits with the message node of one of these threads.
fn any_waits(table: &Table<Waiting>, threads: &[Option<ThreadNodes>]) -> bool
    requires there { (number : ℕ) → IfSome (row_at threads.now number) (λ own. ContainsNode table.now own.message) }
    ensures { result ≡ list_any (waits_with table.now) threads.now }
{
    for row in threads {
        if let Some(own) = row {
            if table.value(own.message).has_call() {
                return true;
            }
        }
    }
    false
}

/// The calls that wait with the message nodes of these threads are those of a process that has ended from now on.
fn abandon_all(table: &mut Table<Waiting>, threads: &[Option<ThreadNodes>])
    requires there { (number : ℕ) → IfSome (row_at threads.now number) (λ own. ContainsNode table.old own.message) }
    ensures { Abandoned table.old table.new threads.now }
{
    for row in threads {
        if let Some(own) = row {
            table.value_mut(own.message).abandon();
        }
    }
}

/// Puts a free node last into a list, and it carries something else from now on.
#[inline(always)]
fn put_slot(table: &mut Table<Waiting>, list: usize, node: usize, slot: Slot)
    requires list { ContainsList table.old list }
    requires free { IsFree table.old node }
    requires room { KeepsRoom slot }
    ensures put { table.new ≡ with_value (with_nodes table.old list (nodes_of table.old list ++ node ∷ [])) node (carrying (entry_of_node table.old node) (load_of slot)) }
{
    table.value_mut(node).carry(slot);
    qx_uncounted::push_back(table, list, node);
}

/// Whether an answer takes the bytes that a call writes.
fn is_written(call: &PipeCall, answer: Result<(u64, &[u8]), Errno>) -> bool
    ensures { result ≡ is_written_by call.now.bytes (handed answer.entry) }
{
    match answer {
        Ok((status, _)) => !call.bytes().is_empty() && status != 0,
        Err(_) => false,
    }
}

/// The first node of a list whose call is meant.
fn first_leaving(table: &Table<Waiting>, list: usize, which: Leaving) -> Option<usize>
    requires list { ContainsList table.now list }
    requires wait { (node : ℕ) → IsIn table.now list node → HasLoad false (waiting_of_node table.now node).load }
    ensures { result ≡ slice_get (filter (λ node. leaves which (call_carried (waiting_of_node table.now node))) (nodes_of table.now list)) 0 }
{
    table.know();
    let mut next = qx_uncounted::first(table, list);
    'nodes: while let Some(node) = next {
        if which.means(table.value(node).call()) {
            return Some(node);
        }
        next = qx_uncounted::next(table, list, node);
    }
    None
}
