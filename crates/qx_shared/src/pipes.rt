//! The pipes of all users, one at a time but where a process ends: each call makes of one pipe what it says, and leaves all
//! others.

ghost use Rattle.std.specs.Prelude.{◌≡◌, ◌<◌, ◌≤◌, ◌+◌, ◌++◌, ◌∷◌, [], None, Some, IfErr, IfNone, IfOk, IfSome, IsSome, IsTrue, OnErr, OnOk, false, ℕ, drop, is_some, length, map, slice_get, slice_set, take};
ghost use Rattle.std.specs.List.{flat_map};
ghost use Rattle.std.specs.Option.{option_copied};
ghost use Rattle.std.specs.Result.{ForOk};
ghost use Rattle.qx_base.specs.Verdict.{left_by};
ghost use Rattle.qx_machine.specs.Notification.{conditions_of};
ghost use Rattle.qx_machine.specs.Verdicts.{read_of, write_of};
ghost use Rattle.qx_machine.specs.Waiting.{holds, is_call, is_written, offered, wanted};
ghost use Rattle.qx_machine.specs.Pipes.{nobody_answered, pipe_of, read_told, removed};
ghost use Rattle.qx_isolation.specs.Rows.{row_at};
ghost use Rattle.qx_machine.specs.Settling as settling;
ghost use Rattle.qx_queues.specs.Waits.{handed, leaves};
ghost use Rattle.qx_shared.specs.inner.Row.{HasRow, bytes_at, list_of_place, place, row_of, row_with_bytes, verdict_on};
ghost use Rattle.qx_shared.specs.Shared.{HasPipe, IsCallReceived, after_own, after_told, dismissed_on, first_told, passed_to, pipe_at, pipes_of, taken_from, waiting_on, went_in, with_abandoned_calls, with_pipe_after, with_answer_to, with_row_at, with_waiting_on};
ghost use Rattle.qx_types.specs.declared.limits.TheConstants.Limits.{INODES, PIPE, TRANSFER};

use crate::row::{Blank, PipeRow, UserPipes};
use crate::shared::Shared;
use crate::side::Side;
use qx_base::{Given, Told};
use qx_machine::{Conditions, Sides};
use qx_queues::{Leaving, PipeCall};
use qx_rows::Reply;
use qx_types::{Device, Errno, Proc, Thread, User};
use std::alloc::AllocError;

impl Shared {
    /// Whether there is a pipe under the number of an inode.
    pub fn has_pipe(&self, user: User, inode: u32) -> bool
        ensures is { result ≡ is_some (row_at (pipes_of self.now user.0) inode) }
        ensures places { length (pipes_of self.now user.0) ≡ INODES + 1 }
    {
        row(&self.pipes, user, inode).is_some()
    }

    /// The device that stands under the number of an inode; none of a pipe, and where nothing stands.
    pub fn device(&self, user: User, inode: u32) -> Option<Device>
        ensures device { result ≡ (pipe_at self.now user.0 inode).device }
    {
        match row(&self.pipes, user, inode) {
            Some(row) => row.device(),
            None => None,
        }
    }

    /// Makes a pipe or a device with no bytes, in which nobody waits, under the number of an inode that has none.
    pub fn add_pipe(
        &mut self,
        user: User,
        inode: u32,
        device: Option<Device>,
    ) -> Result<(), AllocError>
        requires user { user.0 < length self.old.pipes }
        requires inode { inode ≤ INODES }
        requires none { row_at (pipes_of self.old user.0) inode ≡ None }
        ensures ok { OnOk result (self.new ≡ with_row_at self.old user.0 inode (Some (pipe_of device [] [] []))) }
        ensures err { OnErr result (self.new ≡ self.old) }
    {
        let blank = self.blank(device)?;
        let readers = self.queues.add_list()?;
        match self.queues.add_list() {
            Ok(writers) => {
                let row = PipeRow::new(blank, readers, writers);
                self.pipes[user.0 as usize].set(inode, row);
                Ok(())
            }
            Err(error) => {
                drop(blank);
                self.queues.free_list(readers);
                Err(error)
            }
        }
    }

    /// Memory for the bytes of a pipe or of a device.
    pub fn blank(&self, device: Option<Device>) -> Result<Blank, AllocError>
        ensures blank { IfOk result (λ blank. blank ≡ device) }
    {
        Blank::new(*self.pipes.allocator(), device)
    }

    /// A pipe or a device with no bytes stands in place of what stood; the calls that wait there wait on.
    pub fn renew(&mut self, user: User, inode: u32, blank: Blank)
        requires pipe { HasPipe self.old user.0 inode }
        ensures { self.new ≡ with_pipe_after self.old user.0 inode (nobody_answered (record (pipe_at self.old user.0 inode) { device = blank; bytes = [] })) }
    {
        self.pipes[user.0 as usize].renew(inode, blank);
    }

    /// A pipe goes, with its bytes; the calls that wait in it wait nowhere then.
    pub fn remove_pipe(&mut self, user: User, inode: u32)
        requires pipe { HasPipe self.old user.0 inode }
        ensures { self.new ≡ with_row_at self.old user.0 inode None }
    {
        let readers = list(&self.pipes, user, inode, Side::Reading);
        let writers = list(&self.pipes, user, inode, Side::Writing);
        self.queues.free_list(readers);
        self.queues.free_list(writers);
        self.pipes[user.0 as usize].remove(inode);
    }

    /// How many bytes stand in a pipe; none where there is no pipe.
    pub fn pipe_len(&self, user: User, inode: u32) -> usize
        ensures count { result ≡ length (pipe_at self.now user.0 inode).bytes }
        ensures within { result ≤ PIPE }
    {
        match row(&self.pipes, user, inode) {
            Some(row) => row.len(),
            None => 0,
        }
    }

    /// Which conditions hold of what an inode is that has open control blocks for these sides: of a pipe, of a device, or of
    /// neither, of which both hold (C Library Reference: `ionotify`).
    pub fn conditions(&self, user: User, inode: u32, sides: Sides) -> Conditions
        ensures conditions { result ≡ conditions_of sides (row_at (pipes_of self.now user.0) inode) }
    {
        match row(&self.pipes, user, inode) {
            Some(row) => row.conditions(sides),
            None => Conditions {
                input: true,
                output: true,
            },
        }
    }

    /// The first call that waits on a side of a pipe.
    pub fn first_waiting(&self, user: User, inode: u32, side: Side) -> Option<&PipeCall>
        ensures { option_copied result ≡ slice_get (waiting_on side (pipe_at self.now user.0 inode)) 0 }
    {
        let row = row(&self.pipes, user, inode)?;
        self.queues.first_waiting(row.list(side))
    }

    /// Whether a call waits in a pipe; then it waits in no other of the user's.
    pub fn is_waiting(&self, thread: Thread, call: u64, inode: u32) -> bool
        ensures holds { result ≡ holds (is_call thread.proc.num thread.tid call) (row_at (pipes_of self.now thread.proc.user.0) inode) }
        ensures only { IsTrue result → (other : ℕ) → IsTrue (holds (is_call thread.proc.num thread.tid call) (row_at (pipes_of self.now thread.proc.user.0) other)) → other ≡ inode }
    {
        let Some(row) = row(&self.pipes, thread.proc.user, inode) else {
            return false;
        };
        self.queues.know();
        let which = Leaving::Call {
            process: thread.proc.num,
            thread: thread.tid,
            call,
        };
        let reads = self.queues.is_waiting(row.list(Side::Reading), which);
        let writes = self.queues.is_waiting(row.list(Side::Writing), which);
        reads | writes
    }

    /// Over which open control block a call of a thread waits; none where it waits nowhere.
    pub fn waits(&self, thread: Thread, call: u64) -> Option<u16>
        ensures nowhere { IfNone result ((inode : ℕ) → holds (is_call thread.proc.num thread.tid call) (row_at (pipes_of self.now thread.proc.user.0) inode) ≡ false) }
        ensures places { length (pipes_of self.now thread.proc.user.0) ≡ INODES + 1 }
    {
        self.queues.waits(thread, call)
    }

    /// Whether a call of a process waits in a pipe.
    pub fn has_waiting(&self, proc: Proc) -> bool
        ensures waits { result ≡ settling.has_waiting (pipes_of self.now proc.user.0) proc.num }
    {
        self.queues.has_waiting(proc)
    }

    /// The calls of a process that wait are those of a process that has ended from now on.
    pub fn abandon(&mut self, proc: Proc)
        ensures abandoned { self.new ≡ with_abandoned_calls self.old proc }
    {
        self.queues.abandon(proc);
    }

    /// A call whose message was received waits, last on a side of a pipe, until it is answered (Writing a Resource Manager: a
    /// client to whom no reply is made yet).
    pub fn wait(&mut self, user: User, inode: u32, side: Side, call: PipeCall)
        requires pipe { HasPipe self.old user.0 inode }
        requires received { IsCallReceived self.old user.0 call }
        ensures { self.new ≡ with_pipe_after self.old user.0 inode (nobody_answered (with_waiting_on side (waiting_on side (pipe_at self.old user.0 inode) ++ call ∷ []) (pipe_at self.old user.0 inode))) }
    {
        let list = list(&self.pipes, user, inode, side);
        self.queues.wait(list, user, call);
    }

    /// A call whose message was received is answered, with a status and bytes or with an error; tells whether that takes the
    /// bytes that it writes.
    pub fn answer(
        &mut self,
        user: User,
        call: PipeCall,
        answer: Result<(u64, &[u8]), Errno>,
    ) -> bool
        requires received { IsCallReceived self.old user.0 call }
        requires short { ForOk answer (λ reply. length reply.1.now ≤ TRANSFER) }
        ensures answered { self.new ≡ with_answer_to self.old user.0 call (handed answer.entry) }
        ensures written { result ≡ is_written call.bytes (handed answer.entry) }
    {
        self.queues.answer(user, call, answer)
    }

    /// The first call that waits on a side of a pipe is answered; tells whether that takes the bytes that it writes.
    pub fn answer_first(
        &mut self,
        user: User,
        inode: u32,
        side: Side,
        answer: Result<(u64, &[u8]), Errno>,
    ) -> bool
        requires pipe { HasPipe self.old user.0 inode }
        requires waits { 0 < length (waiting_on side (pipe_at self.old user.0 inode)) }
        requires short { ForOk answer (λ reply. length reply.1.now ≤ TRANSFER) }
        ensures answered { self.new ≡ with_pipe_after self.old user.0 inode (record {
          pipe = with_waiting_on side (drop 1 (waiting_on side (pipe_at self.old user.0 inode))) (pipe_at self.old user.0 inode);
          answers = map (λ call. (call, handed answer.entry)) (take 1 (waiting_on side (pipe_at self.old user.0 inode)));
        }) }
        ensures written { result ≡ went_in (map (λ call. (call, handed answer.entry)) (take 1 (waiting_on side (pipe_at self.old user.0 inode)))) }
    {
        let list = list(&self.pipes, user, inode, side);
        self.queues.answer_first(list, answer)
    }

    /// Those calls on a side of a pipe are answered, from the first on.
    pub fn dismiss(
        &mut self,
        user: User,
        inode: u32,
        side: Side,
        which: Leaving,
        answer: Result<(u64, &[u8]), Errno>,
    )
        requires pipe { HasPipe self.old user.0 inode }
        requires short { ForOk answer (λ reply. length reply.1.now ≤ TRANSFER) }
        ensures { self.new ≡ with_pipe_after self.old user.0 inode (dismissed_on side (leaves which) (handed answer.entry) (pipe_at self.old user.0 inode)) }
    {
        let list = list(&self.pipes, user, inode, side);
        self.queues.dismiss(list, which, answer);
    }

    /// Those calls leave a pipe, and nobody answers them.
    pub fn take_out(&mut self, user: User, inode: u32, which: Leaving)
        requires pipe { HasPipe self.old user.0 inode }
        ensures { self.new ≡ with_pipe_after self.old user.0 inode (nobody_answered (removed (leaves which) (pipe_at self.old user.0 inode))) }
    {
        let readers = list(&self.pipes, user, inode, Side::Reading);
        let writers = list(&self.pipes, user, inode, Side::Writing);
        self.queues.take_out(readers, which);
        self.queues.take_out(writers, which);
    }

    /// The first reader gets so many of the first bytes that stand; tells whether that takes bytes that it writes.
    pub fn pass_bytes(&mut self, user: User, inode: u32, count: usize) -> bool
        requires pipe { HasPipe self.old user.0 inode }
        requires waits { 0 < length (pipe_at self.old user.0 inode).readers }
        requires count { count ≤ length (pipe_at self.old user.0 inode).bytes }
        ensures passed { self.new ≡ with_pipe_after self.old user.0 inode (passed_to count (take 1 (pipe_at self.old user.0 inode).readers) (record (pipe_at self.old user.0 inode) { readers = drop 1 (pipe_at self.old user.0 inode).readers })) }
        ensures written { result ≡ went_in (passed_to count (take 1 (pipe_at self.old user.0 inode).readers) (pipe_at self.old user.0 inode)).answers }
    {
        let readers = list(&self.pipes, user, inode, Side::Reading);
        let (first, second) = first_bytes(&self.pipes, user, inode, count);
        let written = self.queues.pass_first(readers, count as u64, first, second);
        self.pipes[user.0 as usize].drop_front(inode, count);
        written
    }

    /// A call whose message was received gets so many of the first bytes that stand; tells whether that takes bytes that it
    /// writes.
    pub fn hand_bytes(&mut self, user: User, inode: u32, call: PipeCall, count: usize) -> bool
        requires pipe { HasPipe self.old user.0 inode }
        requires received { IsCallReceived self.old user.0 call }
        requires count { count ≤ length (pipe_at self.old user.0 inode).bytes }
        ensures passed { self.new ≡ with_pipe_after self.old user.0 inode (passed_to count (call ∷ []) (pipe_at self.old user.0 inode)) }
        ensures written { result ≡ went_in (passed_to count (call ∷ []) (pipe_at self.old user.0 inode)).answers }
    {
        let (first, second) = first_bytes(&self.pipes, user, inode, count);
        let written = self.queues.pass(user, call, count as u64, first, second);
        self.pipes[user.0 as usize].drop_front(inode, count);
        written
    }

    /// The bytes of the first writer, which fit, go in last, and it is answered; tells whether there were any.
    pub fn take_bytes(&mut self, user: User, inode: u32) -> bool
        requires pipe { HasPipe self.old user.0 inode }
        requires waits { 0 < length (pipe_at self.old user.0 inode).writers }
        requires fits { length (pipe_at self.old user.0 inode).bytes + length (flat_map (λ call. call.bytes) (take 1 (pipe_at self.old user.0 inode).writers)) ≤ PIPE }
        ensures taken { self.new ≡ with_pipe_after self.old user.0 inode (taken_from (take 1 (pipe_at self.old user.0 inode).writers) (record (pipe_at self.old user.0 inode) { writers = drop 1 (pipe_at self.old user.0 inode).writers })) }
        ensures written { result ≡ went_in (taken_from (take 1 (pipe_at self.old user.0 inode).writers) (pipe_at self.old user.0 inode)).answers }
    {
        let writers = list(&self.pipes, user, inode, Side::Writing);
        let Some(call) = self.queues.first_waiting(writers) else {
            unreachable!();
        };
        let bytes = call.bytes();
        let count = bytes.len();
        self.pipes[user.0 as usize].append(inode, bytes);
        self.queues.answer_first(writers, Ok((count as u64, &[])))
    }

    /// Bytes that a call whose message was received writes, and that fit, go in last, and it is answered; tells whether there
    /// were any. What the call's room keeps is not looked at.
    pub fn put_bytes(&mut self, user: User, inode: u32, call: PipeCall, bytes: &[u8]) -> bool
        requires pipe { HasPipe self.old user.0 inode }
        requires received { IsCallReceived self.old user.0 call }
        requires fits { length (pipe_at self.old user.0 inode).bytes + length bytes.now ≤ PIPE }
        ensures taken { self.new ≡ with_pipe_after self.old user.0 inode (taken_from (record call { bytes = bytes.now } ∷ []) (pipe_at self.old user.0 inode)) }
        ensures written { result ≡ went_in (taken_from (record call { bytes = bytes.now } ∷ []) (pipe_at self.old user.0 inode)).answers }
    {
        let count = bytes.len();
        self.pipes[user.0 as usize].append(inode, bytes);
        self.queues.answer(user, call, Ok((count as u64, &[])));
        count != 0
    }

    /// The first call that waits on a side of a device is answered what the device says, if it says anything; tells whether that
    /// takes the bytes that it writes.
    pub fn serve_first(&mut self, user: User, inode: u32, side: Side) -> Option<bool>
        requires pipe { HasPipe self.old user.0 inode }
        requires device { IsSome (pipe_at self.old user.0 inode).device }
        ensures told { is_some result ≡ is_some (first_told side (pipe_at self.old user.0 inode)) }
        ensures served { self.new ≡ with_pipe_after self.old user.0 inode (after_told side (pipe_at self.old user.0 inode) (first_told side (pipe_at self.old user.0 inode))) }
        ensures written { IfSome result (λ written. written ≡ went_in (after_told side (pipe_at self.old user.0 inode) (first_told side (pipe_at self.old user.0 inode))).answers) }
        ensures same { IfNone result (self.new ≡ self.old) }
    {
        self.spare.clear();
        let list = list(&self.pipes, user, inode, side);
        let call = self.queues.first_waiting(list)?;
        let rows = &mut self.pipes[user.0 as usize];
        match ask(rows, inode, side, call, &mut self.spare) {
            Told::Waits => None,
            Told::Gives(status) => Some(self.queues.reply_first(list, status, &mut self.spare)),
            Told::Fails(error) => Some(self.queues.answer_first(list, Err(error))),
        }
    }

    /// A read of a device by a call whose message was received, before which no reader waits: it is answered what the device
    /// says, or comes back where it has to wait; tells whether that takes the bytes that it writes.
    pub fn serve_read(&mut self, user: User, inode: u32, call: PipeCall) -> Result<bool, PipeCall>
        requires pipe { HasPipe self.old user.0 inode }
        requires device { IsSome (pipe_at self.old user.0 inode).device }
        requires received { IsCallReceived self.old user.0 call }
        ensures told { IfOk result (λ written. IsSome (read_told wanted offered (pipe_at self.old user.0 inode).device (pipe_at self.old user.0 inode).bytes call)) }
        ensures served { IfOk result (λ written. self.new ≡ with_pipe_after self.old user.0 inode (after_own call (pipe_at self.old user.0 inode) (read_told wanted offered (pipe_at self.old user.0 inode).device (pipe_at self.old user.0 inode).bytes call))) }
        ensures written { IfOk result (λ written. written ≡ went_in (after_own call (pipe_at self.old user.0 inode) (read_told wanted offered (pipe_at self.old user.0 inode).device (pipe_at self.old user.0 inode).bytes call)).answers) }
        ensures waits { IfErr result (λ back. (back ≡ call) × (read_told wanted offered (pipe_at self.old user.0 inode).device (pipe_at self.old user.0 inode).bytes call ≡ None) × (self.new ≡ self.old)) }
    {
        self.spare.clear();
        let rows = &mut self.pipes[user.0 as usize];
        match rows.read(inode, call.wanted(), &mut self.spare) {
            Told::Waits => Err(call),
            Told::Gives(status) => {
                Ok(self.queues.reply_given(user, call, status, &mut self.spare))
            }
            Told::Fails(error) => Ok(self.queues.answer(user, call, Err(error))),
        }
    }

    /// A read of a device by a call that does not wait: what it is told, and the bytes that it is given, which are the reply's.
    pub fn read_device(&mut self, user: User, inode: u32, count: u32, reply: &mut Reply) -> Told
        requires pipe { HasPipe self.old user.0 inode }
        requires device { IsSome (pipe_at self.old user.0 inode).device }
        requires empty { reply.old ≡ [] }
        ensures left { record { told = result; bytes = reply.new; state = (pipe_at self.new user.0 inode).bytes } ≡ left_by (pipe_at self.old user.0 inode).bytes (read_of (pipe_at self.old user.0 inode).device count (pipe_at self.old user.0 inode).bytes) }
        ensures others { self.new ≡ with_pipe_after self.old user.0 inode (nobody_answered (record (pipe_at self.old user.0 inode) { bytes = (pipe_at self.new user.0 inode).bytes })) }
    {
        self.spare.clear();
        let told = self.pipes[user.0 as usize].read(inode, count, &mut self.spare);
        reply.take(&mut self.spare);
        told
    }

    /// A write of bytes to a device by a call that does not wait: what it is told.
    pub fn write_device(&mut self, user: User, inode: u32, bytes: &[u8]) -> Told
        requires pipe { HasPipe self.old user.0 inode }
        requires device { IsSome (pipe_at self.old user.0 inode).device }
        requires few { length bytes.now ≤ TRANSFER }
        ensures left { record { told = result; bytes = []; state = (pipe_at self.new user.0 inode).bytes } ≡ left_by (pipe_at self.old user.0 inode).bytes (write_of (pipe_at self.old user.0 inode).device bytes.now (pipe_at self.old user.0 inode).bytes) }
        ensures others { self.new ≡ with_pipe_after self.old user.0 inode (nobody_answered (record (pipe_at self.old user.0 inode) { bytes = (pipe_at self.new user.0 inode).bytes })) }
    {
        self.pipes[user.0 as usize].write(inode, bytes)
    }

    /// So many of the first bytes that stand in a pipe, in two pieces.
    pub fn front(&self, user: User, inode: u32, count: usize) -> (&[u8], &[u8])
        requires pipe { HasPipe self.now user.0 inode }
        requires count { count ≤ length (pipe_at self.now user.0 inode).bytes }
        ensures bytes { result.0.now ++ result.1.now ≡ take count (pipe_at self.now user.0 inode).bytes }
        ensures within { length result.0.now + length result.1.now ≤ PIPE }
    {
        first_bytes(&self.pipes, user, inode, count)
    }

    /// So many of the first bytes that stand in a pipe go.
    pub fn drop_front(&mut self, user: User, inode: u32, count: usize)
        requires pipe { HasPipe self.old user.0 inode }
        requires count { count ≤ length (pipe_at self.old user.0 inode).bytes }
        ensures rest { self.new ≡ with_pipe_after self.old user.0 inode (nobody_answered (record (pipe_at self.old user.0 inode) { bytes = drop count (pipe_at self.old user.0 inode).bytes })) }
    {
        self.pipes[user.0 as usize].drop_front(inode, count);
    }

    /// Bytes that fit go last into a pipe.
    pub fn append(&mut self, user: User, inode: u32, bytes: &[u8])
        requires pipe { HasPipe self.old user.0 inode }
        requires fits { length (pipe_at self.old user.0 inode).bytes + length bytes.now ≤ PIPE }
        ensures appended { self.new ≡ with_pipe_after self.old user.0 inode (nobody_answered (record (pipe_at self.old user.0 inode) { bytes = (pipe_at self.old user.0 inode).bytes ++ bytes.now })) }
    {
        self.pipes[user.0 as usize].append(inode, bytes);
    }

    /// The bytes that stand in a pipe go.
    pub fn discard(&mut self, user: User, inode: u32)
        requires pipe { HasPipe self.old user.0 inode }
        ensures { self.new ≡ with_pipe_after self.old user.0 inode (nobody_answered (record (pipe_at self.old user.0 inode) { bytes = [] })) }
    {
        self.pipes[user.0 as usize].clear(inode);
    }
}

/// The pipe of an inode of a user.
fn row(pipes: &[UserPipes], user: User, inode: u32) -> Option<&PipeRow>
    ensures row { option_copied result ≡ row_of pipes.now user.0 inode }
{
    pipes.get(user.0 as usize)?.row(inode)
}

/// So many of the first bytes that stand in a pipe, in two pieces.
fn first_bytes(pipes: &[UserPipes], user: User, inode: u32, count: usize) -> (&[u8], &[u8])
    requires stand { (row : PipeRow) × (row_of pipes.now user.0 inode ≡ Some row) × (count ≤ length row.bytes) }
    ensures bytes { IfSome (row_of pipes.now user.0 inode) (λ row. result.0.now ++ result.1.now ≡ take count row.bytes) }
    ensures within { length result.0.now + length result.1.now ≤ PIPE }
{
    let Some(row) = row(pipes, user, inode) else {
        unreachable!();
    };
    row.first_bytes(count)
}

/// What a call on a side of a device is told, as the device says; the bytes that it is given go into a buffer.
fn ask(rows: &mut UserPipes, inode: u32, side: Side, call: &PipeCall, given: &mut Given) -> Told
    requires device { IfSome (row_at rows.old inode) (λ row. IsSome row.device) }
    requires none { given.old ≡ [] }
    ensures left { IfSome (row_at rows.old inode) (λ row. record { told = result; bytes = given.new; state = bytes_at rows.new inode } ≡ left_by row.bytes (verdict_on side call.now row.device row.bytes)) }
    ensures others { IfSome (row_at rows.old inode) (λ row. rows.new ≡ slice_set rows.old inode (Some (row_with_bytes row (bytes_at rows.new inode)))) }
{
    match side {
        Side::Reading => rows.read(inode, call.wanted(), given),
        Side::Writing => rows.write(inode, call.bytes()),
    }
}

/// In which list calls wait on a side of a pipe.
fn list(pipes: &[UserPipes], user: User, inode: u32, side: Side) -> usize
    requires there { HasRow pipes.now user.0 inode }
    ensures list { list_of_place pipes.now (place user.0 inode side) ≡ Some result }
{
    let Some(row) = row(pipes, user, inode) else {
        unreachable!();
    };
    row.list(side)
}
