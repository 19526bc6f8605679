//! Replies and notifications as bytes, each behind what stands in the caller's vector.
ghost use Rattle.std.specs.Prelude.{◌≡◌, ◌≤◌, ◌<◌, ◌+◌, ◌++◌, ◌^◌, OnErr, OnOk, length, vec_len, vec_capacity};
ghost use Rattle.qx_fuse_wire.specs.Replies.{agreed_bytes, attributes_bytes, body_bytes, bytes_read, entry_bytes, error_number, file_system_bytes, header_bytes, opened_bytes, reply_bytes, wake_bytes};

use crate::errors::failure_number;
use crate::numbers::Number::{Half, Long, Word};
use crate::numbers::{put_bytes, put_numbers};
use crate::reply::{Agreed, Attributes, Entry, FileSystem, Reply};
use std::alloc::AllocError;

/// The bytes of attributes.
#[tactic(auto, unfolding(crate::specs::Replies::attributes_bytes))]
pub(crate) fn put_attributes(out: &mut Vec<u8>, it: &Attributes)
    requires room { vec_len out.old + 88 ≤ vec_capacity out.old }
    ensures bytes { out.new.items ≡ out.old.items ++ attributes_bytes it.now }
    ensures len { vec_len out.new ≡ vec_len out.old + 88 }
    ensures room { vec_capacity out.old ≤ vec_capacity out.new }
{
    let it = *it;
    let times = it.times;
    let numbers = [
        Long(it.node),
        Long(it.size),
        Long(it.blocks),
        Long(times.access_seconds),
        Long(times.modify_seconds),
        Long(times.change_seconds),
        Word(times.access_nanoseconds),
        Word(times.modify_nanoseconds),
        Word(times.change_nanoseconds),
        Word(it.mode),
        Word(it.links),
        Word(it.user),
        Word(it.group),
        Word(it.device),
        Word(it.block_size),
        Word(0),
    ];
    put_numbers(out, &numbers);
}

/// The bytes of a name's node.
#[tactic(auto, unfolding(crate::specs::Replies::entry_bytes))]
pub(crate) fn put_entry(out: &mut Vec<u8>, it: &Entry)
    requires room { vec_len out.old + 128 ≤ vec_capacity out.old }
    ensures bytes { out.new.items ≡ out.old.items ++ entry_bytes it.now }
    ensures len { vec_len out.new ≡ vec_len out.old + 128 }
    ensures room { vec_capacity out.old ≤ vec_capacity out.new }
{
    let numbers = [
        Long(it.node),
        Long(it.generation),
        Long(it.name_seconds),
        Long(it.attributes_seconds),
        Word(it.name_nanoseconds),
        Word(it.attributes_nanoseconds),
    ];
    put_numbers(out, &numbers);
    put_attributes(out, &it.attributes);
}

/// The bytes of an open.
fn put_opened(out: &mut Vec<u8>, handle: u64, open_flags: u32)
    requires room { vec_len out.old + 16 ≤ vec_capacity out.old }
    ensures bytes { out.new.items ≡ out.old.items ++ opened_bytes handle open_flags }
    ensures len { vec_len out.new ≡ vec_len out.old + 16 }
    ensures room { vec_capacity out.old ≤ vec_capacity out.new }
{
    put_numbers(out, &[Long(handle), Word(open_flags), Word(0)]);
}

/// The bytes of a file system's state.
#[tactic(auto, unfolding(crate::specs::Replies::file_system_bytes))]
fn put_file_system(out: &mut Vec<u8>, it: &FileSystem)
    requires room { vec_len out.old + 80 ≤ vec_capacity out.old }
    ensures bytes { out.new.items ≡ out.old.items ++ file_system_bytes it.now }
{
    let numbers = [
        Long(it.blocks),
        Long(it.free_blocks),
        Long(it.available_blocks),
        Long(it.files),
        Long(it.free_files),
        Word(it.block_size),
        Word(it.name_length),
        Word(it.fragment_size),
        Word(0),
        Long(0),
        Long(0),
        Long(0),
    ];
    put_numbers(out, &numbers);
}

/// The bytes of what is agreed.
#[tactic(auto, unfolding(crate::specs::Replies::agreed_bytes))]
fn put_agreed(out: &mut Vec<u8>, it: &Agreed)
    requires room { vec_len out.old + 64 ≤ vec_capacity out.old }
    ensures bytes { out.new.items ≡ out.old.items ++ agreed_bytes it.now }
{
    let numbers = [
        Word(7),
        Word(it.minor),
        Word(it.readahead),
        Word(it.flags),
        Half(it.background),
        Half(it.congestion),
        Word(it.write_size),
        Word(it.time_step),
        Half(it.pages),
        Half(0),
        Word(it.more_flags),
        Word(0),
        Long(0),
        Long(0),
        Long(0),
    ];
    put_numbers(out, &numbers);
}

/// How many bytes a reply has behind its header.
#[tactic(auto, using(crate::proofs::ReplyLemmas::agreed_length, crate::proofs::ReplyLemmas::attributes_length, crate::proofs::ReplyLemmas::created_length, crate::proofs::ReplyLemmas::entry_length, crate::proofs::ReplyLemmas::file_system_length))]
fn body_length(reply: &Reply<'_>) -> usize
    ensures length { result ≡ length (body_bytes reply.now) }
    ensures few { result ≤ bytes_read reply.now + 144 }
{
    match reply {
        Reply::Done | Reply::Failed(_) => 0,
        Reply::Entry(_) => 128,
        Reply::Attributes { .. } => 104,
        Reply::Opened { .. } => 16,
        Reply::Created { .. } => 144,
        Reply::Bytes(bytes) => bytes.as_slice().len(),
        Reply::Written { .. } | Reply::Offset { .. } | Reply::Events { .. } => 8,
        Reply::FileSystem(_) => 80,
        Reply::Agreed(_) => 64,
    }
}

/// The number of a reply's error, 0 for none.
fn error_number(reply: &Reply<'_>) -> u32
    ensures number { result ≡ error_number reply.now }
{
    match reply {
        Reply::Failed(failure) => failure_number(*failure),
        _ => 0,
    }
}

/// What a reply has behind its header.
#[tactic(auto, using(crate::proofs::ReplyLemmas::agreed_length, crate::proofs::ReplyLemmas::attributes_length, crate::proofs::ReplyLemmas::created_length, crate::proofs::ReplyLemmas::entry_length, crate::proofs::ReplyLemmas::file_system_length))]
fn put_body(out: &mut Vec<u8>, reply: &Reply<'_>)
    requires room { vec_len out.old + length (body_bytes reply.now) ≤ vec_capacity out.old }
    ensures bytes { out.new.items ≡ out.old.items ++ body_bytes reply.now }
{
    match reply {
        Reply::Done | Reply::Failed(_) => {}
        Reply::Entry(entry) => put_entry(out, entry),
        Reply::Attributes {
            seconds,
            nanoseconds,
            attributes,
        } => {
            put_numbers(out, &[Long(*seconds), Word(*nanoseconds), Word(0)]);
            put_attributes(out, attributes);
        }
        Reply::Opened { handle, open_flags } => put_opened(out, *handle, *open_flags),
        Reply::Created {
            entry,
            handle,
            open_flags,
        } => {
            put_entry(out, entry);
            put_opened(out, *handle, *open_flags);
        }
        Reply::Bytes(bytes) => put_bytes(out, bytes.as_slice()),
        Reply::Written { size } => put_numbers(out, &[Word(*size), Word(0)]),
        Reply::FileSystem(state) => put_file_system(out, state),
        Reply::Agreed(agreed) => put_agreed(out, agreed),
        Reply::Offset { offset } => put_numbers(out, &[Long(*offset)]),
        Reply::Events { events } => put_numbers(out, &[Word(*events), Word(0)]),
    }
}

/// A reply to the request of that number. Room is asked for first, so that nothing is changed where memory is short.
#[tactic(auto, unfolding(crate::specs::Replies::reply_bytes))]
pub fn put_reply(out: &mut Vec<u8>, unique: u64, reply: &Reply<'_>) -> Result<(), AllocError>
    requires short { bytes_read reply.now < 2 ^ 31 }
    ensures reply { OnOk result (out.new.items ≡ out.old.items ++ reply_bytes unique reply.now) }
    ensures err { OnErr result (out.new.items ≡ out.old.items) }
{
    let length = 16 + body_length(reply);
    let error = 0u32.wrapping_sub(error_number(reply));
    out.reserve(length)?;
    put_numbers(out, &[Word(length as u32), Word(error), Long(unique)]);
    put_body(out, reply);
    Ok(())
}

/// A notification: who polls under that number may ask again.
#[tactic(auto, unfolding(crate::specs::Replies::wake_bytes))]
pub fn put_wake(out: &mut Vec<u8>, waiter: u64) -> Result<(), AllocError>
    ensures wake { OnOk result (out.new.items ≡ out.old.items ++ wake_bytes waiter) }
    ensures err { OnErr result (out.new.items ≡ out.old.items) }
{
    out.reserve(24)?;
    put_numbers(out, &[Word(24), Word(1), Long(0), Long(waiter)]);
    Ok(())
}
