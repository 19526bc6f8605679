//! One kind of calls below a world, so many times: those that a script does not reach alone.

ghost use Rattle.std.specs.Prelude.{IsTrue};
ghost use Rattle.qx_lines.specs.Line.{IsLineOf};
ghost use Rattle.qx_lists.specs.Table.{IsFree};
ghost use Rattle.qx_wire.specs.Table.{in_ranges};

use anyhow::bail;
use qx_lines::{Line, uncounted};
use qx_lists::Table;
use qx_types::{MessageBytes, OFlags, Prio, Ranked};
use qx_wire::{Meaning, Message, Parsed, Rest, encode, in_ranges};
use std::alloc::{AllocError, AllocFailed, Global};

/// An item of middle priority.
#[derive(Drop)]
struct Item;

impl Ranked for Item {
    ghost rank = { λ item. 10 };

    fn prio(&self) -> Prio {
        Prio(10)
    }
}

/// Puts new nodes into the line.
#[tactic(auto, using(qx_lines::proofs::LineFacts::line_facts))]
fn line_up(table: &mut Table<Item>, line: &mut Line, count: usize) -> Result<(), AllocFailed<Item>>
    requires { IsLineOf (λ item. 10) table.old line.old }
    ensures { IsLineOf (λ item. 10) table.new line.new }
{
    'nodes: for _ in 0..count {
        let node = table.new_node(Item)?;
        uncounted::put(line, table, node);
    }
    Ok(())
}

/// Puts a node behind the items of the line and takes it out, over and over.
#[tactic(auto, using(qx_lines::proofs::LineFacts::line_facts))]
fn put_and_remove(table: &mut Table<Item>, line: &mut Line, node: usize, rounds: u32)
    requires of { IsLineOf (λ item. 10) table.old line.old }
    requires free { IsFree table.old node }
{
    'rounds: for _ in 0..rounds {
        uncounted::put(line, table, node);
        uncounted::remove(line, table, node);
    }
}

/// Makes one kind of calls in each round, and tells how many items or bytes that were.
pub fn make_calls(alloc: Global, calls: &str, count: usize, rounds: u32) -> anyhow::Result<u64> {
    match calls {
        "line" => on_line(alloc, count, rounds),
        "encode" | "read" => on_message(alloc, calls, count, rounds),
        _ => bail!("the first word is script, line, encode or read"),
    }
}

/// Puts a node behind so many items, and takes it out.
#[tactic(auto, using(qx_lines::proofs::LineFacts::line_facts))]
fn on_line(alloc: Global, count: usize, rounds: u32) -> anyhow::Result<u64> {
    let mut table = Table::new(alloc);
    let mut line = Line::new(&mut table)?;
    line_up(&mut table, &mut line, count)?;
    let node = table.new_node(Item)?;
    put_and_remove(&mut table, &mut line, node, rounds);
    Ok(line.len() as u64)
}

/// Encodes or reads an open with a rest of so many bytes, in components of 64, or an fstat where there are none.
fn on_message(alloc: Global, calls: &str, len: usize, rounds: u32) -> anyhow::Result<u64> {
    let text = components(alloc, len)?;
    let message = match text.as_slice() {
        [] => Message::Fstat,
        rest => Message::Open {
            flags: OFlags::READ,
            mode: 0,
            rest: Rest::new(rest),
        },
    };
    if !in_ranges(&message) {
        bail!("the message is out of its ranges");
    }
    match encode(&mut Vec::new(alloc), &message) {
        Ok(_) if calls == "encode" => Ok(encoded(alloc, &message, rounds)),
        Ok(bytes) => Ok(read(bytes, rounds)),
        Err(_) => bail!("out of memory"),
    }
}

/// Components of 64 letters, of so many bytes together with the slashes.
fn components(alloc: Global, len: usize) -> Result<Vec<u8>, AllocError> {
    let mut text = Vec::new(alloc);
    for place in 1..=len {
        text.push(if place % 65 == 0 { b'/' } else { b'm' })?;
    }
    Ok(text)
}

/// In each round a message is encoded, and its memory kept for the next one.
fn encoded(alloc: Global, message: &Message<'_>, rounds: u32) -> u64
    requires { IsTrue (in_ranges message.now) }
{
    let mut total: u64 = 0;
    let mut memory = Vec::new(alloc);
    for _ in 0..rounds {
        if let Ok(bytes) = encode(&mut memory, message) {
            total = total.saturating_add(bytes.as_slice().len() as u64);
            bytes.into_memory(&mut memory);
        }
    }
    total
}

/// In each round bytes are read, asked for their meaning and taken back.
fn read(mut bytes: MessageBytes, rounds: u32) -> u64 {
    let mut total: u64 = 0;
    for _ in 0..rounds {
        let parsed = Parsed::read(bytes);
        if let Meaning::Known(_) = parsed.meaning() {
            total = total.saturating_add(parsed.bytes().as_slice().len() as u64);
        }
        bytes = parsed.into_bytes();
    }
    total
}
