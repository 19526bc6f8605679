//! What a call sends, and its bytes.

ghost use Rattle.std.specs.Prelude.{◌≡◌, ◌+◌, ◌++◌, ◌≤◌, [], length, vec_capacity, vec_len, IsOk, IsTrue, IfOk, OnErr, OnOk};
ghost use Rattle.qx_base.specs.Memory.{FitInto, kept_beside};
ghost use Rattle.qx_machine.specs.Calls as calls;
ghost use Rattle.qx_machine.specs.Calls.{bytes_of, can_send, content_of, request_in_ranges};
ghost use Rattle.qx_clients.specs.Targets.{Name, NameTwo};
ghost use Rattle.qx_wire.specs.Rests.{components_of};

use qx_machine::Content;
use qx_paths::Path;
use qx_types::{Bytes, Limits, MessageBytes, NoMemory, PulseValue, Request};
use qx_wire::ranges::{are_conditions, are_flags, is_name, is_offset};
use qx_wire::{BorrowedBytes, Message, Rest, Rests, encode};
use std::alloc::Global;

/// The bytes that a request sends: the spelling of its message, with what its path has behind the mount, and so of a second
/// one, or a copy of its bytes. More than a few take the memory that is there (C Library Reference: `MsgSend`).
pub fn encoded(
    memory: &mut Vec<u8>,
    request: &Request,
    rest: &Path<'_>,
    to: &Path<'_>,
) -> Result<MessageBytes, NoMemory>
    requires sendable { IsTrue (can_send (content_of request.now rest.now to.now)) }
    ensures bytes { IfOk result (λ bytes. bytes ≡ bytes_of (content_of request.now rest.now to.now)) }
    ensures sure { rest.now ≡ [] → to.now ≡ [] → FitInto (bytes_of (content_of request.now rest.now to.now)) (vec_capacity memory.old) → IsOk result }
    ensures kept { OnOk result (vec_capacity memory.new ≡ kept_beside (bytes_of (content_of request.now rest.now to.now)) (vec_capacity memory.old)) }
    ensures err { OnErr result (vec_capacity memory.new ≡ vec_capacity memory.old) }
{
    let named = match request {
        Request::OpenPath { .. }
        | Request::StatPath { .. }
        | Request::Unlink { .. }
        | Request::Mkdir { .. } => joined(*memory.allocator(), rest)?,
        Request::Rename { .. } => Bytes::from_vec(both(*memory.allocator(), rest, to)?),
        _ => Bytes::new(*memory.allocator()),
    };
    match content_of(request, named.as_slice(), rest, to) {
        Content::Spelled(message) => encode(memory, &message),
        Content::Raw(bytes) => Ok(MessageBytes::joined(memory, bytes.as_slice(), &[], &[])?),
    }
}

/// What a path has behind the mount, as it stands in a message; for nothing no memory is taken.
#[tactic(auto, unfolding(qx_wire::specs::Rests::components_of))]
fn joined(alloc: Global, rest: &Path<'_>) -> Result<Bytes, NoMemory>
    ensures rest { IfOk result (λ bytes. components_of bytes ≡ rest.now) }
    ensures sure { rest.now ≡ [] → IsOk result }
{
    if rest.is_empty() {
        return Ok(Bytes::new(alloc));
    }
    Ok(rest.joined(alloc)?)
}

/// What both paths of a rename have behind the mount, as it stands in its message, in memory for just these bytes; for nothing
/// no memory is taken. A function of its own, so that no other call goes through it.
#[cold]
#[inline(never)]
fn both(alloc: Global, from: &Path<'_>, to: &Path<'_>) -> Result<Vec<u8>, NoMemory>
    ensures named { IfOk result (λ bytes. NameTwo bytes.items from.now to.now) }
    ensures sure { from.now ≡ [] → to.now ≡ [] → IsOk result }
    ensures capacity { IfOk result (λ bytes. vec_capacity bytes ≡ vec_len bytes) }
{
    if from.is_empty() && to.is_empty() {
        return Ok(Vec::new(alloc));
    }
    from.know();
    to.know();
    let (from, to) = (from.joined(alloc)?, to.joined(alloc)?);
    let len = (from.len() as u16).to_le_bytes();
    let both = Vec::with_capacity(alloc, len.len() + from.len() + to.len())?;
    let both = with_piece(both, &len);
    let both = with_piece(both, from.as_slice());
    Ok(with_piece(both, to.as_slice()))
}

/// Bytes and a piece behind them, for which there is room.
fn with_piece(mut bytes: Vec<u8>, piece: &[u8]) -> Vec<u8>
    requires room { vec_len bytes + length piece.now ≤ vec_capacity bytes }
    ensures bytes { result.items ≡ bytes.items ++ piece.now }
    ensures len { vec_len result ≡ vec_len bytes + length piece.now }
    ensures capacity { vec_capacity result ≡ vec_capacity bytes }
{
    for number in 0..piece.len() {
        bytes.push_reserved(piece[number]);
    }
    bytes
}

/// Whether each field of a request is in its range. A path is judged as a path, and the connection of a dup by whether it
/// is there.
pub(crate) fn is_in_ranges(request: &Request) -> bool
    ensures ranges { result ≡ request_in_ranges request.now }
{
    match request {
        Request::StatPath { .. }
        | Request::Unlink { .. }
        | Request::Rename { .. }
        | Request::Close { .. }
        | Request::Dup { .. }
        | Request::Fstat { .. } => true,
        Request::Seek { by, .. } => is_offset(*by),
        Request::OpenPath { flags, mode, .. } => are_flags(*flags) && *mode <= Limits::MODE,
        Request::Mkdir { mode, .. } | Request::Chmod { mode, .. } => *mode <= Limits::MODE,
        Request::Read { count, .. } => *count <= Limits::TRANSFER as u32,
        Request::Write { bytes, .. } => bytes.as_slice().len() <= Limits::TRANSFER,
        Request::List { after, .. } => is_name(after.as_slice()),
        Request::Notify {
            conds,
            code,
            value,
            ..
        } => {
            are_conditions(*conds) && *code <= Limits::PULSE_CODE && *value <= Limits::PULSE_VALUE
        }
        Request::Notify64 {
            conds,
            code,
            value,
            ..
        } => {
            are_conditions(*conds)
                && *code <= Limits::PULSE_CODE
                && *value <= Limits::PULSE_VALUE_64
        }
        Request::Raw { bytes, .. } => bytes.as_slice().len() <= Limits::MESSAGE,
    }
}

/// What two paths have behind the mount, as it stands in these bytes.
#[tactic(auto, unfolding(qx_wire::specs::Rests::components_of, qx_wire::specs::Rests::rests_of))]
fn rests_in<'a>(named: &'a [u8], from: &Path<'_>, to: &Path<'_>) -> Rests<'a>
    requires named { NameTwo named.now from.now to.now }
    ensures rests { result ≡ (from.now, to.now) }
{
    if named.is_empty() {
        return Rests::new(&[0, 0]);
    }
    Rests::new(named)
}

/// What a request sends; of a path, what is behind its mount, and so of a second one, as it stands in these bytes.
fn content_of<'a>(
    request: &'a Request,
    named: &'a [u8],
    rest: &Path<'_>,
    to: &Path<'_>,
) -> Content<'a>
    requires named { Name request.now named.now rest.now to.now }
    ensures { result ≡ calls.content_of request.now rest.now to.now }
{
    let path = Rest::new(named);
    Content::Spelled(match *request {
        Request::OpenPath { flags, mode, .. } => Message::Open {
            flags,
            mode,
            rest: path,
        },
        Request::StatPath { .. } => Message::Stat { rest: path },
        Request::Unlink { .. } => Message::Unlink { rest: path },
        Request::Mkdir { mode, .. } => Message::Mknod { mode, rest: path },
        Request::Rename { .. } => Message::Rename {
            rests: rests_in(named, rest, to),
        },
        Request::Read { count, .. } => Message::Read { count },
        Request::Write { ref bytes, .. } => Message::Write {
            bytes: BorrowedBytes::new(bytes.as_slice()),
        },
        Request::Close { .. } => Message::Close,
        Request::Dup { coid } => Message::Dup { old: coid },
        Request::Seek { whence, by, .. } => Message::Lseek { whence, offset: by },
        Request::Fstat { .. } => Message::Fstat,
        Request::List { ref after, .. } => Message::List {
            after: BorrowedBytes::new(after.as_slice()),
        },
        Request::Chmod { mode, .. } => Message::Chmod { mode },
        Request::Notify {
            action,
            conds,
            code,
            value,
            ..
        } => Message::Notify {
            action,
            conditions: conds,
            code,
            value: PulseValue::Bits32(value),
        },
        Request::Notify64 {
            action,
            conds,
            code,
            value,
            ..
        } => Message::Notify {
            action,
            conditions: conds,
            code,
            value: PulseValue::Bits64(value),
        },
        Request::Raw { ref bytes, .. } => return Content::Raw(BorrowedBytes::new(bytes.as_slice())),
    })
}
