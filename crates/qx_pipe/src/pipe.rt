//! What is done to one pipe or device, under the number of an inode of a user. Each call tells whether bytes went in. A
//! device of an author's own is served as a pipe is, in all but what a call comes to by the bytes that stand; whose row it
//! is is looked up once, and handed on.
#![tactic(auto, using(crate::proofs::AfterLemmas::steps))]

ghost use Rattle.std.specs.Prelude.{◌≡◌, ◌==◌, ◌<◌, ◌≤◌, ◌+◌, ◌++◌, [], None, Some, IfErr, IfNone, IfOk, IfSome, IsFalse, IsTrue, OnErr, false, if◌then◌else◌, length, not};
ghost use Rattle.qx_machine.specs.Waiting.{is_call, is_gone, offered, waiting_call, wanted};
ghost use Rattle.qx_machine.specs.Pipes as machine;
ghost use Rattle.qx_machine.specs.Pipes.{clean_read, clean_write, dismissed, is_idle, nobody_answered, one_answered, only_reply, read_told, readers_ended, without_bytes, write_told, writers_ended};
ghost use Rattle.qx_machine.specs.Verdicts as verdicts;
ghost use Rattle.qx_machine.specs.Verdicts.{read_ended};
ghost use Rattle.qx_machine.specs.declared.rows.Opened.{Opened as AnyOpened};
ghost use Rattle.qx_pipe.specs.inner.Turns.{NobodyWaits, Served, Turning, settling, status_given, unless_served, waiting_count};
ghost use Rattle.qx_queues.specs.Waits.{leaves};
ghost use Rattle.qx_shared.specs.Shared.{HasPipe, IsCallReceived, pipe_at, waiting_on, went_in, with_pipe_after};
ghost use Rattle.qx_shared.specs.declared.side.Side.TheVariants.{Writing};
ghost use Rattle.qx_types.specs.declared.limits.TheConstants.Limits.{PIPE, TRANSFER};
ghost use Rattle.qx_types.specs.declared.outcome.Answer.TheVariants.{Failed, Reply as TheReply};

use qx_base::Told;
use qx_machine::{Manner, Opened, Sides};
use qx_queues::{Leaving, PipeCall};
use qx_rows::{Reply, Room};
use qx_shared::{Shared, Side};
use qx_types::{Device, Errno, Limits, User};

/// A call that is told its reply at once: with this status, and so many bytes stand then.
#[derive(Drop)]
pub struct AtOnce {
    pub status: u64,
    pub size: usize,
}

/// Answers those who wait, as long as the first reader or the first writer can be served.
pub fn settle(shared: &mut Shared, user: User, inode: u32) -> bool
    requires pipe { HasPipe shared.old user.0 inode }
    ensures after { shared.new ≡ with_pipe_after shared.old user.0 inode (machine.settle wanted offered (pipe_at shared.old user.0 inode)) }
    ensures filled { result ≡ went_in (machine.settle wanted offered (pipe_at shared.old user.0 inode)).answers }
{
    let device = shared.device(user, inode);
    settle_of(shared, user, inode, device)
}

/// Takes out the waiting calls of ended processes, and answers those who can be served then.
pub fn clean(shared: &mut Shared, user: User, inode: u32) -> bool
    requires pipe { HasPipe shared.old user.0 inode }
    ensures after { shared.new ≡ with_pipe_after shared.old user.0 inode (machine.clean wanted offered is_gone (pipe_at shared.old user.0 inode)) }
    ensures filled { result ≡ went_in (machine.clean wanted offered is_gone (pipe_at shared.old user.0 inode)).answers }
{
    let device = shared.device(user, inode);
    clean_of(shared, user, inode, device)
}

/// A READ of a call whose message was received: cleans the pipe, and then the call is answered or waits (C Library Reference:
/// `read`).
pub fn read(shared: &mut Shared, user: User, inode: u32, call: PipeCall, manner: Manner) -> bool
    requires pipe { HasPipe shared.old user.0 inode }
    requires received { IsCallReceived shared.old user.0 call }
    ensures after { shared.new ≡ with_pipe_after shared.old user.0 inode (machine.read wanted offered is_gone manner call (pipe_at shared.old user.0 inode)) }
    ensures filled { result ≡ went_in (machine.read wanted offered is_gone manner call (pipe_at shared.old user.0 inode)).answers }
{
    let device = shared.device(user, inode);
    let others = anyone_waits(shared, user, inode);
    let before = clean_others(shared, user, inode, device, others);
    let own = read_clean(shared, user, inode, device, call, manner, others);
    before | own
}

/// A WRITE of a call whose message was received: cleans the pipe, and then the call is answered or waits with a copy of
/// the bytes in the room for its reply (C Library Reference: `write`).
pub fn write(
    shared: &mut Shared,
    user: User,
    inode: u32,
    opened: Opened,
    bytes: &[u8],
    room: Room,
    manner: Manner,
) -> bool
    requires pipe { HasPipe shared.old user.0 inode }
    requires received { IsCallReceived shared.old user.0 (waiting_call opened 0 bytes.now) }
    requires few { length bytes.now ≤ TRANSFER }
    ensures after { shared.new ≡ with_pipe_after shared.old user.0 inode (machine.write wanted offered is_gone manner (waiting_call opened 0 bytes.now) (pipe_at shared.old user.0 inode)) }
    ensures filled { result ≡ went_in (machine.write wanted offered is_gone manner (waiting_call opened 0 bytes.now) (pipe_at shared.old user.0 inode)).answers }
{
    let device = shared.device(user, inode);
    let others = anyone_waits(shared, user, inode);
    let before = clean_others(shared, user, inode, device, others);
    let own = write_clean(
        shared, user, inode, device, opened, bytes, room, manner, others,
    );
    before | own
}

/// A READ of a call that is told its reply at once, where nobody waits in the pipe and it is answered with a reply: the
/// bytes that it gets go from the pipe into the reply (C Library Reference: `read`). None else, and nothing is done.
pub fn read_alone(
    shared: &mut Shared,
    user: User,
    inode: u32,
    count: u32,
    manner: Manner,
    reply: &mut Reply,
) -> Option<AtOnce>
    requires pipe { HasPipe shared.old user.0 inode }
    requires empty { reply.old ≡ [] }
    ensures idle { IfSome result (λ told. IsTrue (is_idle (pipe_at shared.old user.0 inode))) }
    ensures told { IfSome result (λ told. (opened : AnyOpened) → machine.read wanted offered is_gone manner (waiting_call opened count []) (pipe_at shared.old user.0 inode) ≡ one_answered (waiting_call opened count []) (TheReply told.status reply.new) (pipe_at shared.new user.0 inode)) }
    ensures size { IfSome result (λ told. told.size ≡ length (pipe_at shared.new user.0 inode).bytes) }
    ensures left { IfSome result (λ told. shared.new ≡ with_pipe_after shared.old user.0 inode (nobody_answered (pipe_at shared.new user.0 inode))) }
    ensures otherwise { IfNone result (IsTrue (is_idle (pipe_at shared.old user.0 inode)) → (opened : AnyOpened) → only_reply (machine.read wanted offered is_gone manner (waiting_call opened count []) (pipe_at shared.old user.0 inode)).answers ≡ None) }
    ensures same { IfNone result (shared.new ≡ shared.old) }
    ensures unused { IfNone result (reply.new ≡ []) }
{
    if anyone_waits(shared, user, inode) {
        return None;
    }
    if shared.device(user, inode).is_some() {
        let status = gives(shared.read_device(user, inode, count, reply))?;
        let size = shared.pipe_len(user, inode);
        return Some(AtOnce { status, size });
    }
    let size = shared.pipe_len(user, inode);
    if count == 0 {
        return Some(AtOnce { status: 0, size });
    }
    if size != 0 {
        let count = (count as usize).min(size);
        let (first, second) = shared.front(user, inode, count);
        push_both(reply, first, second);
        shared.drop_front(user, inode, count);
        return Some(AtOnce {
            status: count as u64,
            size: size - count,
        });
    }
    if manner.has_other_side {
        return None;
    }
    Some(AtOnce { status: 0, size })
}

/// A WRITE of a call that is told its reply at once, where nobody waits in the pipe and it is answered with a reply, which
/// has no bytes (C Library Reference: `write`). None else, and nothing is done.
pub fn write_alone(
    shared: &mut Shared,
    user: User,
    inode: u32,
    bytes: &[u8],
    manner: Manner,
) -> Option<AtOnce>
    requires pipe { HasPipe shared.old user.0 inode }
    requires few { length bytes.now ≤ TRANSFER }
    ensures idle { IfSome result (λ told. IsTrue (is_idle (pipe_at shared.old user.0 inode))) }
    ensures told { IfSome result (λ told. (opened : AnyOpened) → machine.write wanted offered is_gone manner (waiting_call opened 0 bytes.now) (pipe_at shared.old user.0 inode) ≡ one_answered (waiting_call opened 0 bytes.now) (TheReply told.status []) (pipe_at shared.new user.0 inode)) }
    ensures size { IfSome result (λ told. told.size ≡ length (pipe_at shared.new user.0 inode).bytes) }
    ensures left { IfSome result (λ told. shared.new ≡ with_pipe_after shared.old user.0 inode (nobody_answered (pipe_at shared.new user.0 inode))) }
    ensures otherwise { IfNone result (IsTrue (is_idle (pipe_at shared.old user.0 inode)) → (opened : AnyOpened) → only_reply (machine.write wanted offered is_gone manner (waiting_call opened 0 bytes.now) (pipe_at shared.old user.0 inode)).answers ≡ None) }
    ensures same { IfNone result (shared.new ≡ shared.old) }
{
    if anyone_waits(shared, user, inode) {
        return None;
    }
    if shared.device(user, inode).is_some() {
        let status = gives(shared.write_device(user, inode, bytes))?;
        let size = shared.pipe_len(user, inode);
        return Some(AtOnce { status, size });
    }
    let len = bytes.len();
    let size = shared.pipe_len(user, inode);
    if len == 0 {
        return Some(AtOnce { status: 0, size });
    }
    if !manner.has_other_side {
        return None;
    }
    if len > Limits::PIPE - size {
        return None;
    }
    shared.append(user, inode, bytes);
    Some(AtOnce {
        status: len as u64,
        size: size + len,
    })
}

/// An unblock of a call of a thread: the pipe is cleaned; if the call waits then, it is answered EINTR, and others may be
/// served (Writing a Resource Manager: the unblock pulse).
pub fn cancel(
    shared: &mut Shared,
    user: User,
    inode: u32,
    process: u8,
    thread: u8,
    call: u64,
) -> bool
    requires pipe { HasPipe shared.old user.0 inode }
    ensures after { shared.new ≡ with_pipe_after shared.old user.0 inode (machine.cancel wanted offered is_gone (is_call process thread call) (pipe_at shared.old user.0 inode)) }
    ensures filled { result ≡ went_in (machine.cancel wanted offered is_gone (is_call process thread call) (pipe_at shared.old user.0 inode)).answers }
{
    let before = clean(shared, user, inode);
    let which = Leaving::Call {
        process,
        thread,
        call,
    };
    dismiss(shared, user, inode, which, Errno::EINTR);
    let after = settle(shared, user, inode);
    before | after
}

/// A block is freed, and `sides` are those for which there are blocks then: the pipe is cleaned; the calls over the block
/// are answered EBADF, readers first; of a side with no block left, those who wait for it are answered, readers with the
/// end of the file and writers EPIPE; others may be served; with the last block go the bytes (C Library Reference: `close`).
pub fn release(shared: &mut Shared, user: User, inode: u32, block: u16, sides: Sides) -> bool
    requires pipe { HasPipe shared.old user.0 inode }
    ensures after { shared.new ≡ with_pipe_after shared.old user.0 inode (machine.release wanted offered is_gone (λ call. call.block == block) sides (pipe_at shared.old user.0 inode)) }
    ensures filled { result ≡ went_in (machine.release wanted offered is_gone (λ call. call.block == block) sides (pipe_at shared.old user.0 inode)).answers }
{
    let sides = sides_at(shared.device(user, inode), sides);
    let before = clean(shared, user, inode);
    dismiss(shared, user, inode, Leaving::Block(block), Errno::EBADF);
    end_readers(shared, user, inode, sides);
    end_writers(shared, user, inode, sides);
    let after = settle(shared, user, inode);
    discard(shared, user, inode, sides);
    before | after
}

// Settles a pipe, or a device, which is that one.
fn settle_of(shared: &mut Shared, user: User, inode: u32, device: Option<Device>) -> bool
    requires pipe { HasPipe shared.old user.0 inode }
    requires device { device ≡ (pipe_at shared.old user.0 inode).device }
    ensures after { shared.new ≡ with_pipe_after shared.old user.0 inode (machine.settle wanted offered (pipe_at shared.old user.0 inode)) }
    ensures filled { result ≡ went_in (machine.settle wanted offered (pipe_at shared.old user.0 inode)).answers }
{
    let mut filled = false;
    'turns: while let Some(more) = turn(shared, user, inode, device) {
        filled |= more;
    }
    filled
}

// Cleans a pipe, or a device, which is that one.
fn clean_of(shared: &mut Shared, user: User, inode: u32, device: Option<Device>) -> bool
    requires pipe { HasPipe shared.old user.0 inode }
    requires device { device ≡ (pipe_at shared.old user.0 inode).device }
    ensures after { shared.new ≡ with_pipe_after shared.old user.0 inode (machine.clean wanted offered is_gone (pipe_at shared.old user.0 inode)) }
    ensures filled { result ≡ went_in (machine.clean wanted offered is_gone (pipe_at shared.old user.0 inode)).answers }
{
    shared.take_out(user, inode, Leaving::Gone);
    settle_of(shared, user, inode, device)
}

// Answers the first one that can be served, if there is one, and tells whether bytes went in.
fn turn(shared: &mut Shared, user: User, inode: u32, device: Option<Device>) -> Option<bool>
    requires pipe { HasPipe shared.old user.0 inode }
    requires device { device ≡ (pipe_at shared.old user.0 inode).device }
    ensures turned { IfSome result (λ more. Turning shared.old shared.new user.0 inode more) }
    ensures fewer { IfSome result (λ more. waiting_count (pipe_at shared.new user.0 inode) < waiting_count (pipe_at shared.old user.0 inode)) }
    ensures rested { IfNone result (settling shared.old user.0 inode ≡ nobody_answered (pipe_at shared.old user.0 inode)) }
    ensures same { IfNone result (shared.new ≡ shared.old) }
{
    if device.is_some() {
        if let Some(more) = shared.serve_first(user, inode, Side::Reading) {
            return Some(more);
        }
        return shared.serve_first(user, inode, Side::Writing);
    }
    let stand = shared.pipe_len(user, inode);
    if stand != 0 {
        if let Some(reader) = shared.first_waiting(user, inode, Side::Reading) {
            let count = (reader.wanted() as usize).min(stand);
            return Some(shared.pass_bytes(user, inode, count));
        }
    }
    let writer = shared.first_waiting(user, inode, Side::Writing)?;
    if writer.bytes().len() > Limits::PIPE - stand {
        return None;
    }
    Some(shared.take_bytes(user, inode))
}

// Bytes in two pieces, of which the second is seldom there, go into a reply.
fn push_both(reply: &mut Reply, first: &[u8], second: &[u8])
    requires empty { reply.old ≡ [] }
    requires room { length first.now + length second.now ≤ PIPE }
    ensures both { reply.new ≡ first.now ++ second.now }
{
    reply.push(first);
    if !second.is_empty() {
        reply.push(second);
    }
}

// The status of a reply that a call to a device is told; None where it waits or gets an error.
fn gives(told: Told) -> Option<u64>
    ensures { result ≡ status_given told }
{
    match told {
        Told::Gives(status) => Some(status),
        Told::Waits | Told::Fails(_) => None,
    }
}

// For which sides a pipe is there that has open control blocks for these; a device is there for both.
fn sides_at(device: Option<Device>, sides: Sides) -> Sides
    ensures { result ≡ verdicts.sides_at device sides }
{
    match device {
        None => sides,
        Some(_) => Sides {
            for_reading: true,
            for_writing: true,
        },
    }
}

// Whether a call waits in a pipe. Where none does, there is nobody to take out or to serve.
fn anyone_waits(shared: &Shared, user: User, inode: u32) -> bool
    ensures alone { IsFalse result → NobodyWaits (pipe_at shared.now user.0 inode) }
    ensures idle { result ≡ not (is_idle (pipe_at shared.now user.0 inode)) }
{
    shared.first_waiting(user, inode, Side::Reading).is_some()
        || shared.first_waiting(user, inode, Side::Writing).is_some()
}

// Cleans a pipe, if others may wait there.
fn clean_others(
    shared: &mut Shared,
    user: User,
    inode: u32,
    device: Option<Device>,
    others: bool,
) -> bool
    requires pipe { HasPipe shared.old user.0 inode }
    requires device { device ≡ (pipe_at shared.old user.0 inode).device }
    requires alone { IsFalse others → NobodyWaits (pipe_at shared.old user.0 inode) }
    ensures after { shared.new ≡ with_pipe_after shared.old user.0 inode (machine.clean wanted offered is_gone (pipe_at shared.old user.0 inode)) }
    ensures filled { result ≡ went_in (machine.clean wanted offered is_gone (pipe_at shared.old user.0 inode)).answers }
    ensures device { device ≡ (pipe_at shared.new user.0 inode).device }
    ensures same { IsFalse others → shared.new ≡ shared.old }
{
    others && clean_of(shared, user, inode, device)
}

// Settles a pipe, if others may wait there.
fn settle_others(
    shared: &mut Shared,
    user: User,
    inode: u32,
    device: Option<Device>,
    others: bool,
) -> bool
    requires pipe { HasPipe shared.old user.0 inode }
    requires device { device ≡ (pipe_at shared.old user.0 inode).device }
    requires alone { IsFalse others → NobodyWaits (pipe_at shared.old user.0 inode) }
    ensures after { shared.new ≡ with_pipe_after shared.old user.0 inode (machine.settle wanted offered (pipe_at shared.old user.0 inode)) }
    ensures filled { result ≡ went_in (machine.settle wanted offered (pipe_at shared.old user.0 inode)).answers }
{
    others && settle_of(shared, user, inode, device)
}

// A READ, once the pipe is clean; others may wait there.
fn read_clean(
    shared: &mut Shared,
    user: User,
    inode: u32,
    device: Option<Device>,
    call: PipeCall,
    manner: Manner,
    others: bool,
) -> bool
    requires pipe { HasPipe shared.old user.0 inode }
    requires device { device ≡ (pipe_at shared.old user.0 inode).device }
    requires received { IsCallReceived shared.old user.0 call }
    requires alone { IsFalse others → NobodyWaits (pipe_at shared.old user.0 inode) }
    ensures after { shared.new ≡ with_pipe_after shared.old user.0 inode (clean_read wanted offered manner call (pipe_at shared.old user.0 inode)) }
    ensures filled { result ≡ went_in (clean_read wanted offered manner call (pipe_at shared.old user.0 inode)).answers }
{
    if is_read_ended(shared, user, inode, device, call.wanted(), manner) {
        return shared.answer(user, call, Ok((0, &[])));
    }
    if !is_first(shared, user, inode, Side::Reading, others) {
        return wait_unless(shared, user, inode, Side::Reading, call, manner);
    }
    match serve_read(shared, user, inode, device, call) {
        Ok(own) => {
            let after = settle_others(shared, user, inode, device, others);
            own | after
        }
        Err(call) => wait_unless(shared, user, inode, Side::Reading, call, manner),
    }
}

// Whether a READ is told at a pipe, whoever waits there, that it is done or has come to the end.
fn is_read_ended(
    shared: &Shared,
    user: User,
    inode: u32,
    device: Option<Device>,
    count: u32,
    manner: Manner,
) -> bool
    requires device { device ≡ (pipe_at shared.now user.0 inode).device }
    ensures ended { read_ended (pipe_at shared.now user.0 inode).device manner count (pipe_at shared.now user.0 inode).bytes ≡ (if result then Some (TheReply 0 []) else None) }
{
    device.is_none()
        && (count == 0 || (!manner.has_other_side && shared.pipe_len(user, inode) == 0))
}

// A READ before which no reader waits is answered by the bytes that stand, or comes back.
fn serve_read(
    shared: &mut Shared,
    user: User,
    inode: u32,
    device: Option<Device>,
    call: PipeCall,
) -> Result<bool, PipeCall>
    requires pipe { HasPipe shared.old user.0 inode }
    requires device { device ≡ (pipe_at shared.old user.0 inode).device }
    requires received { IsCallReceived shared.old user.0 call }
    ensures served { IfOk result (λ more. Served shared.old shared.new user.0 inode call (read_told wanted offered (pipe_at shared.old user.0 inode).device (pipe_at shared.old user.0 inode).bytes call) more) }
    ensures waits { IfErr result (λ back. (back ≡ call) × (read_told wanted offered (pipe_at shared.old user.0 inode).device (pipe_at shared.old user.0 inode).bytes call ≡ None) × (shared.new ≡ shared.old)) }
{
    if device.is_some() {
        return shared.serve_read(user, inode, call);
    }
    let len = shared.pipe_len(user, inode);
    if len == 0 {
        return Err(call);
    }
    let count = (call.wanted() as usize).min(len);
    Ok(shared.hand_bytes(user, inode, call, count))
}

// Whether a call would be the first on a side.
fn is_first(shared: &Shared, user: User, inode: u32, side: Side, others: bool) -> bool
    requires alone { IsFalse others → NobodyWaits (pipe_at shared.now user.0 inode) }
    ensures first { result ≡ (length (waiting_on side (pipe_at shared.now user.0 inode)) == 0) }
{
    !others || shared.first_waiting(user, inode, side).is_none()
}

// A WRITE, once the pipe is clean; others may wait there.
fn write_clean(
    shared: &mut Shared,
    user: User,
    inode: u32,
    device: Option<Device>,
    opened: Opened,
    bytes: &[u8],
    room: Room,
    manner: Manner,
    others: bool,
) -> bool
    requires pipe { HasPipe shared.old user.0 inode }
    requires device { device ≡ (pipe_at shared.old user.0 inode).device }
    requires received { IsCallReceived shared.old user.0 (waiting_call opened 0 bytes.now) }
    requires few { length bytes.now ≤ TRANSFER }
    requires alone { IsFalse others → NobodyWaits (pipe_at shared.old user.0 inode) }
    ensures after { shared.new ≡ with_pipe_after shared.old user.0 inode (clean_write wanted offered manner (waiting_call opened 0 bytes.now) (pipe_at shared.old user.0 inode)) }
    ensures filled { result ≡ went_in (clean_write wanted offered manner (waiting_call opened 0 bytes.now) (pipe_at shared.old user.0 inode)).answers }
{
    if device.is_none() {
        if bytes.is_empty() {
            return shared.answer(user, PipeCall::writing(opened, room), Ok((0, &[])));
        }
        if !manner.has_other_side {
            let call = PipeCall::writing(opened, room);
            return shared.answer(user, call, Err(Errno::EPIPE));
        }
    }
    if !is_first(shared, user, inode, Side::Writing, others) {
        return write_later(shared, user, inode, opened, bytes, room, manner);
    }
    match serve_write(shared, user, inode, device, opened, bytes, room) {
        Ok(own) => {
            let after = settle_others(shared, user, inode, device, others);
            own | after
        }
        Err(room) => write_later(shared, user, inode, opened, bytes, room, manner),
    }
}

// A WRITE before which no writer waits is answered by the bytes that stand, or its room comes back.
fn serve_write(
    shared: &mut Shared,
    user: User,
    inode: u32,
    device: Option<Device>,
    opened: Opened,
    bytes: &[u8],
    room: Room,
) -> Result<bool, Room>
    requires pipe { HasPipe shared.old user.0 inode }
    requires device { device ≡ (pipe_at shared.old user.0 inode).device }
    requires received { IsCallReceived shared.old user.0 (waiting_call opened 0 bytes.now) }
    requires few { length bytes.now ≤ TRANSFER }
    ensures served { IfOk result (λ more. Served shared.old shared.new user.0 inode (waiting_call opened 0 bytes.now) (write_told wanted offered (pipe_at shared.old user.0 inode).device (pipe_at shared.old user.0 inode).bytes (waiting_call opened 0 bytes.now)) more) }
    ensures waits { OnErr result (write_told wanted offered (pipe_at shared.old user.0 inode).device (pipe_at shared.old user.0 inode).bytes (waiting_call opened 0 bytes.now) ≡ None) }
    ensures same { OnErr result (shared.new ≡ shared.old) }
{
    if device.is_some() {
        return match shared.write_device(user, inode, bytes) {
            Told::Waits => Err(room),
            Told::Gives(status) => {
                shared.answer(user, PipeCall::writing(opened, room), Ok((status, &[])));
                Ok(!bytes.is_empty() && status != 0)
            }
            Told::Fails(error) => {
                Ok(shared.answer(user, PipeCall::writing(opened, room), Err(error)))
            }
        };
    }
    if bytes.len() > Limits::PIPE - shared.pipe_len(user, inode) {
        return Err(room);
    }
    Ok(shared.put_bytes(user, inode, PipeCall::writing(opened, room), bytes))
}

// A WRITE that can't be served at once waits with a copy of its bytes in its room, unless it is not to wait.
fn write_later(
    shared: &mut Shared,
    user: User,
    inode: u32,
    opened: Opened,
    bytes: &[u8],
    mut room: Room,
    manner: Manner,
) -> bool
    requires pipe { HasPipe shared.old user.0 inode }
    requires received { IsCallReceived shared.old user.0 (waiting_call opened 0 bytes.now) }
    requires few { length bytes.now ≤ TRANSFER }
    ensures after { shared.new ≡ with_pipe_after shared.old user.0 inode (unless_served Writing manner (waiting_call opened 0 bytes.now) (pipe_at shared.old user.0 inode)) }
    ensures filled { result ≡ went_in (unless_served Writing manner (waiting_call opened 0 bytes.now) (pipe_at shared.old user.0 inode)).answers }
{
    room.set(bytes);
    let call = PipeCall::writing(opened, room);
    wait_unless(shared, user, inode, Side::Writing, call, manner)
}

// A call that can't be served at once waits, unless its block is NONBLOCK or it was asked to unblock.
fn wait_unless(
    shared: &mut Shared,
    user: User,
    inode: u32,
    side: Side,
    call: PipeCall,
    manner: Manner,
) -> bool
    requires pipe { HasPipe shared.old user.0 inode }
    requires received { IsCallReceived shared.old user.0 call }
    ensures after { shared.new ≡ with_pipe_after shared.old user.0 inode (unless_served side manner call (pipe_at shared.old user.0 inode)) }
    ensures filled { result ≡ went_in (unless_served side manner call (pipe_at shared.old user.0 inode)).answers }
{
    if manner.is_nonblock {
        shared.answer(user, call, Err(Errno::EAGAIN))
    } else if manner.is_asked {
        shared.answer(user, call, Err(Errno::EINTR))
    } else {
        shared.wait(user, inode, side, call);
        false
    }
}

// Those calls are answered an error, readers first.
fn dismiss(shared: &mut Shared, user: User, inode: u32, which: Leaving, error: Errno)
    requires pipe { HasPipe shared.old user.0 inode }
    ensures after { shared.new ≡ with_pipe_after shared.old user.0 inode (dismissed (leaves which) (Failed error) (pipe_at shared.old user.0 inode)) }
{
    shared.dismiss(user, inode, Side::Reading, which, Err(error));
    shared.dismiss(user, inode, Side::Writing, which, Err(error));
}

// Readers come to the end of a pipe that nobody writes any more.
fn end_readers(shared: &mut Shared, user: User, inode: u32, sides: Sides)
    requires pipe { HasPipe shared.old user.0 inode }
    ensures after { shared.new ≡ with_pipe_after shared.old user.0 inode (readers_ended sides (pipe_at shared.old user.0 inode)) }
{
    if !sides.for_writing {
        shared.dismiss(user, inode, Side::Reading, Leaving::All, Ok((0, &[])));
    }
}

// A pipe that nobody reads any more is broken for writers.
fn end_writers(shared: &mut Shared, user: User, inode: u32, sides: Sides)
    requires pipe { HasPipe shared.old user.0 inode }
    ensures after { shared.new ≡ with_pipe_after shared.old user.0 inode (writers_ended sides (pipe_at shared.old user.0 inode)) }
{
    if !sides.for_reading {
        shared.dismiss(user, inode, Side::Writing, Leaving::All, Err(Errno::EPIPE));
    }
}

// With the last block go the bytes.
fn discard(shared: &mut Shared, user: User, inode: u32, sides: Sides)
    requires pipe { HasPipe shared.old user.0 inode }
    ensures after { shared.new ≡ with_pipe_after shared.old user.0 inode (without_bytes sides (pipe_at shared.old user.0 inode)) }
{
    if !sides.for_reading && !sides.for_writing {
        shared.discard(user, inode);
    }
}
