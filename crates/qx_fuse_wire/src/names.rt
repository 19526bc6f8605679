//! What a READDIR and a READDIRPLUS list, one name behind the other.
ghost use Rattle.std.specs.Prelude.{◌≡◌, ◌≤◌, ◌<◌, ◌+◌, ◌%◌, ◌++◌, ◌^◌, ℕ, OnErr, OnOk, length, replicate, vec_len, vec_capacity};
ghost use Rattle.qx_fuse_wire.specs.Replies.{full_name_bytes, name_bytes, padding};

use crate::numbers::Number::{Long, Word};
use crate::numbers::{put_bytes, put_numbers};
use crate::reply::Entry;
use crate::writing::put_entry;
use std::alloc::AllocError;

/// How many zero bytes stand behind a name of that length.
fn padding(length: usize) -> usize
    ensures padding { result ≡ padding length }
    ensures few { result < 8 }
{
    (8 - length % 8) % 8
}

/// So many zero bytes.
fn put_zeros(out: &mut Vec<u8>, count: usize)
    requires few { count < 8 }
    requires room { vec_len out.old + count ≤ vec_capacity out.old }
    ensures zeros { out.new.items ≡ out.old.items ++ replicate count 0 }
{
    let zeros = [0u8; 8];
    put_bytes(out, &zeros[..count]);
}

/// How many bytes a name has in a list that READDIR gives, which is a multiple of 8.
#[tactic(auto, unfolding(crate::specs::Replies::name_bytes))]
pub fn name_length(name: &[u8]) -> usize
    requires short { length name.now < 2 ^ 32 }
    ensures length { (node next kind : ℕ) → result ≡ length (name_bytes node next kind name.now) }
    ensures aligned { result % 8 ≡ 0 }
    ensures few { result < 2 ^ 33 }
{
    24 + name.len() + padding(name.len())
}

/// A name that READDIR lists: its node, where the list goes on behind it, and the kind of the node.
#[tactic(auto, unfolding(crate::specs::Replies::name_bytes))]
fn put_name_here(out: &mut Vec<u8>, node: u64, next: u64, kind: u32, name: &[u8])
    requires short { length name.now < 2 ^ 32 }
    requires room { vec_len out.old + length (name_bytes node next kind name.now) ≤ vec_capacity out.old }
    ensures name { out.new.items ≡ out.old.items ++ name_bytes node next kind name.now }
{
    let numbers = [Long(node), Long(next), Word(name.len() as u32), Word(kind)];
    put_numbers(out, &numbers);
    put_bytes(out, name);
    put_zeros(out, padding(name.len()));
}

/// A name that READDIR lists: its node, where the list goes on behind it, and the kind of the node.
pub fn put_name(
    out: &mut Vec<u8>,
    node: u64,
    next: u64,
    kind: u32,
    name: &[u8],
) -> Result<(), AllocError>
    requires short { length name.now < 2 ^ 32 }
    ensures name { OnOk result (out.new.items ≡ out.old.items ++ name_bytes node next kind name.now) }
    ensures err { OnErr result (out.new.items ≡ out.old.items) }
{
    out.reserve(name_length(name))?;
    put_name_here(out, node, next, kind, name);
    Ok(())
}

/// A name that READDIRPLUS lists, with what a LOOKUP of it tells.
#[tactic(auto, unfolding(crate::specs::Replies::full_name_bytes))]
pub fn put_full_name(
    out: &mut Vec<u8>,
    entry: &Entry,
    next: u64,
    kind: u32,
    name: &[u8],
) -> Result<(), AllocError>
    requires short { length name.now < 2 ^ 32 }
    ensures name { OnOk result (out.new.items ≡ out.old.items ++ full_name_bytes entry.now next kind name.now) }
    ensures err { OnErr result (out.new.items ≡ out.old.items) }
{
    out.reserve(128 + name_length(name))?;
    put_entry(out, entry);
    put_name_here(out, entry.attributes.node, next, kind, name);
    Ok(())
}
