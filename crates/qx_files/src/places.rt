//! The blocks of a file: where each one stands, what makes them, and what puts bytes into them.

ghost use Rattle.std.specs.Prelude.{◌≡◌, ◌+◌, ◌-◌, ◌*◌, ◌/◌, ◌<◌, ◌≤◌, ◌^◌, ◌++◌, ◌⊎◌, ℕ, None, Some, OnOk, OnErr, is_some, length, replicate, slice_index, slice_set, true, vec_capacity, max};
ghost use Rattle.qx_files.specs.Blocks.{blocks_after, blocks_for, with_blocks};
ghost use Rattle.qx_files.specs.inner.Places.{HasAll, InOrder, InRun, LacksOne, LacksPlace, Stand, Stay, byte_after, byte_at, padded, there};
ghost use Rattle.qx_isolation.specs.Rows.{row_at};

use qx_rows::{growth, places};
use std::alloc::AllocError;
use std::mem::replace;

/// How many bytes stand in a block.
pub const BLOCK: usize = 512;

/// The bytes of a block that isn't there.
static ZEROS: [u8; 512] = [0; 512];

/// The first of so many bytes from an offset on, as far as they stand one behind another. Those of a block that isn't there
/// are zero.
pub fn first_run<'a>(
    bytes: &'a [u8],
    places: &[Option<usize>],
    in_order: usize,
    offset: usize,
    count: usize,
) -> &'a [u8]
    requires stand { Stand (length bytes.now) places.now }
    requires ordered { InOrder places.now in_order }
    ensures bytes { (n : ℕ) → n < length result.now → slice_index result.now n ≡ byte_at bytes.now places.now (offset + n) }
    ensures most { length result.now ≤ count }
    ensures some { 0 < count → 0 < length result.now }
{
    if offset / BLOCK < in_order {
        let count = count.min(BLOCK * in_order - offset);
        return &bytes[offset..offset + count];
    }
    let from = offset % BLOCK;
    let count = count.min(BLOCK - from);
    match places::row(places, offset / BLOCK) {
        Some(index) => {
            let at = BLOCK * *index + from;
            &bytes[at..at + count]
        }
        None => &ZEROS[..count],
    }
}

/// How many of so many bytes from an offset on stand one behind another: those up to the end of the blocks that stand in
/// order, or of one block.
fn run_length(in_order: usize, offset: usize, count: usize) -> usize
    requires fits { 512 * in_order < 2 ^ 64 }
    ensures run { InRun in_order offset result }
    ensures most { result ≤ count }
    ensures some { 0 < count → 0 < result }
{
    if offset / BLOCK < in_order {
        count.min(BLOCK * in_order - offset)
    } else {
        count.min(BLOCK - offset % BLOCK)
    }
}

/// How many blocks stand in order, where it is known that so many do.
fn blocks_in_order(places: &[Option<usize>], known: usize) -> usize
    requires ordered { InOrder places.now known }
    ensures ordered { InOrder places.now result }
{
    match places::row(places, known) {
        Some(index) if *index == known => blocks_in_order(places, known + 1),
        _ => known,
    }
}

/// Puts bytes at an offset. The blocks in which they stand are made first, and where memory is short nothing changes: it is
/// wanted only where one of these isn't there.
pub fn write_bytes(
    bytes: &mut Vec<u8>,
    places: &mut Vec<Option<usize>>,
    in_order: &mut usize,
    offset: usize,
    new: &[u8],
) -> Result<(), AllocError>
    requires within { offset + length new.now < 2 ^ 63 }
    requires stand { Stand (length bytes.old.items) places.old.items }
    requires ordered { InOrder places.old.items in_order.old }
    requires room { vec_capacity bytes.old ≤ 2 * length bytes.old.items }
    requires none { length places.old.items ≡ 0 → vec_capacity places.old ≡ 0 }
    ensures bytes { OnOk result ((n : ℕ) → byte_at bytes.new.items places.new.items n ≡ byte_after offset new.now (byte_at bytes.old.items places.old.items) n) }
    ensures there { OnOk result (there places.new.items ≡ blocks_after (there places.old.items) offset (length new.now)) }
    ensures stand { Stand (length bytes.new.items) places.new.items }
    ensures ordered { InOrder places.new.items in_order.new }
    ensures room { vec_capacity bytes.new ≤ 2 * length bytes.new.items }
    ensures none { length places.new.items ≡ 0 → vec_capacity places.new ≡ 0 }
    ensures err_bytes { OnErr result (bytes.new.items ≡ bytes.old.items) }
    ensures err_places { OnErr result (places.new.items ≡ places.old.items) }
    ensures lacks { OnErr result (LacksPlace places.old.items offset (length new.now)) }
{
    if new.is_empty() {
        return Ok(());
    }
    let end = (offset + new.len() + 511) / BLOCK;
    make_lacking(bytes, places, in_order, offset / BLOCK, end)?;
    put_bytes(
        bytes.as_mut_slice(),
        places.as_slice(),
        *in_order,
        offset,
        new,
    );
    Ok(())
}

/// Makes the blocks from one on, up to another, that aren't there. Where memory is short, nothing changes.
fn make_lacking(
    bytes: &mut Vec<u8>,
    places: &mut Vec<Option<usize>>,
    in_order: &mut usize,
    first: usize,
    end: usize,
) -> Result<(), AllocError>
    requires order { first ≤ end }
    requires fits { 512 * (end - first) < 2 ^ 64 }
    requires stand { Stand (length bytes.old.items) places.old.items }
    requires ordered { InOrder places.old.items in_order.old }
    requires room { vec_capacity bytes.old ≤ 2 * length bytes.old.items }
    ensures bytes { OnOk result ((n : ℕ) → byte_at bytes.new.items places.new.items n ≡ byte_at bytes.old.items places.old.items n) }
    ensures made { OnOk result (there places.new.items ≡ with_blocks (there places.old.items) first end) }
    ensures stand { Stand (length bytes.new.items) places.new.items }
    ensures ordered { InOrder places.new.items in_order.new }
    ensures room { vec_capacity bytes.new ≤ 2 * length bytes.new.items }
    ensures err_bytes { OnErr result (bytes.new.items ≡ bytes.old.items) }
    ensures err_places { OnErr result (places.new.items ≡ places.old.items) }
    ensures none { OnErr result (length places.new.items ≡ 0 → vec_capacity places.new ≤ vec_capacity places.old) }
    ensures lacks { OnErr result ((length places.old.items < end) ⊎ LacksOne places.old.items first end) }
{
    if end <= *in_order {
        return Ok(());
    }
    make_blocks(bytes, places, first, end, end, 0)?;
    *in_order = blocks_in_order(places.as_slice(), *in_order);
    Ok(())
}

/// Makes the blocks from one on, up to another, that aren't there, the first one first; places for so many in all, and room
/// for so many more blocks. Where memory is short, nothing changes.
fn make_blocks(
    bytes: &mut Vec<u8>,
    places: &mut Vec<Option<usize>>,
    first: usize,
    end: usize,
    total: usize,
    more: usize,
) -> Result<(), AllocError>
    requires order { first ≤ end }
    requires within { end ≤ total }
    requires fits { 512 * (more + (end - first)) < 2 ^ 64 }
    requires stand { Stand (length bytes.old.items) places.old.items }
    requires room { vec_capacity bytes.old ≤ 2 * length bytes.old.items }
    ensures bytes { OnOk result ((n : ℕ) → byte_at bytes.new.items places.new.items n ≡ byte_at bytes.old.items places.old.items n) }
    ensures made { OnOk result (there places.new.items ≡ with_blocks (padded (there places.old.items) total) first end) }
    ensures stay { OnOk result (Stay places.old.items places.new.items) }
    ensures stand { Stand (length bytes.new.items) places.new.items }
    ensures room { OnOk result (length bytes.new.items + 512 * more ≤ vec_capacity bytes.new) }
    ensures most { OnOk result (vec_capacity bytes.new ≤ 2 * (length bytes.new.items + 512 * more)) }
    ensures err_bytes { OnErr result (bytes.new.items ≡ bytes.old.items) }
    ensures err_places { OnErr result (places.new.items ≡ places.old.items) }
    ensures capacity { OnErr result (vec_capacity bytes.new ≤ 2 * length bytes.new.items) }
    ensures none { OnErr result (length places.new.items ≡ 0 → vec_capacity places.new ≤ vec_capacity places.old) }
    ensures lacks { OnErr result ((0 < more) ⊎ ((length places.old.items < total) ⊎ LacksOne places.old.items first end)) }
{
    if first == end {
        return make_places(bytes, places, total, more);
    }
    if has_block(places.as_slice(), end - 1) {
        return make_blocks(bytes, places, first, end - 1, total, more);
    }
    make_blocks(bytes, places, first, end - 1, total, more + 1)?;
    make_block(bytes, places, end - 1);
    Ok(())
}

/// Whether a block is there.
fn has_block(places: &[Option<usize>], number: usize) -> bool
    ensures { result ≡ is_some (row_at places.now number) }
{
    places::row(places, number).is_some()
}

/// Makes a block of zero bytes that isn't there, for which there is room.
fn make_block(bytes: &mut Vec<u8>, places: &mut Vec<Option<usize>>, number: usize)
    requires room { length bytes.old.items + 512 ≤ vec_capacity bytes.old }
    requires within { number < length places.old.items }
    requires lacking { row_at places.old.items number ≡ None }
    requires stand { Stand (length bytes.old.items) places.old.items }
    ensures bytes { (n : ℕ) → byte_at bytes.new.items places.new.items n ≡ byte_at bytes.old.items places.old.items n }
    ensures made { there places.new.items ≡ slice_set (there places.old.items) number true }
    ensures stay { Stay places.old.items places.new.items }
    ensures count { length bytes.new.items ≡ length bytes.old.items + 512 }
    ensures capacity { vec_capacity bytes.new ≡ vec_capacity bytes.old }
    ensures stand { Stand (length bytes.new.items) places.new.items }
{
    let index = bytes.len() / BLOCK;
    let alloc = *bytes.allocator();
    *bytes = with_zeros(replace(bytes, Vec::new(alloc)));
    places::set(places, number, index);
}

/// These bytes, and one more block of zero bytes, for which there is room. A vector that is owned is filled by one `memset`.
fn with_zeros(mut bytes: Vec<u8>) -> Vec<u8>
    requires room { length bytes.items + 512 ≤ vec_capacity bytes }
    ensures zeros { result.items ≡ bytes.items ++ replicate 512 0 }
    ensures capacity { vec_capacity result ≡ vec_capacity bytes }
{
    for _ in 0..BLOCK {
        bytes.push_reserved(0);
    }
    bytes
}

/// Makes places up to one, with no blocks, and room for so many blocks. Where memory is short, nothing changes.
fn make_places(
    bytes: &mut Vec<u8>,
    places: &mut Vec<Option<usize>>,
    end: usize,
    count: usize,
) -> Result<(), AllocError>
    requires fits { 512 * count < 2 ^ 64 }
    requires stand { Stand (length bytes.old.items) places.old.items }
    ensures stand { Stand (length bytes.new.items) places.new.items }
    ensures bytes { bytes.new.items ≡ bytes.old.items }
    ensures ok { OnOk result (places.new.items ≡ places.old.items ++ replicate (end - length places.old.items) None) }
    ensures err { OnErr result (places.new.items ≡ places.old.items) }
    ensures room { OnOk result (length bytes.new.items + 512 * count ≤ vec_capacity bytes.new) }
    ensures most { vec_capacity bytes.new ≤ max (vec_capacity bytes.old) (2 * (length bytes.old.items + 512 * count)) }
    ensures capacity { OnErr result (vec_capacity bytes.new ≡ vec_capacity bytes.old) }
    ensures none { OnErr result (length places.new.items ≡ 0 → vec_capacity places.new ≤ vec_capacity places.old) }
    ensures lacks { OnErr result ((0 < count) ⊎ (length places.old.items < end)) }
{
    let more = end.saturating_sub(places.len());
    reserve_places(places, more)?;
    if let Err(refused) = growth::reserve(bytes, BLOCK * count) {
        places.shrink_to_fit();
        return Err(refused);
    }
    for _ in 0..more {
        places.push_reserved(None);
    }
    Ok(())
}

/// Makes room for so many more places, and for 24 at least where it must grow. It then mostly doubles, and at other lengths
/// than the blocks of a file that is written in pieces of 4,096 bytes, so that few writes make both grow.
fn reserve_places(places: &mut Vec<Option<usize>>, more: usize) -> Result<(), AllocError>
    ensures items { places.new.items ≡ places.old.items }
    ensures room { OnOk result (length places.new.items + more ≤ vec_capacity places.new) }
    ensures err { OnErr result (vec_capacity places.new ≡ vec_capacity places.old) }
    ensures lacks { OnErr result (0 < more) }
{
    if more <= places.capacity() - places.len() {
        return Ok(());
    }
    places.reserve(more.max(24))
}

/// Puts some bytes at an offset into blocks that are there: at once where they stand one behind another, as mostly, and else
/// run by run.
fn put_bytes(bytes: &mut [u8], places: &[Option<usize>], in_order: usize, offset: usize, new: &[u8])
    requires some { 0 < length new.now }
    requires within { offset + length new.now < 2 ^ 63 }
    requires stand { Stand (length bytes.old) places.now }
    requires ordered { InOrder places.now in_order }
    requires made { HasAll places.now (offset / 512) (blocks_for (offset + length new.now)) }
    ensures bytes { (n : ℕ) → byte_at bytes.new places.now n ≡ byte_after offset new.now (byte_at bytes.old places.now) n }
{
    if run_length(in_order, offset, new.len()) == new.len() {
        put_run(bytes, places, in_order, offset, new);
    } else {
        put_runs(bytes, places, in_order, offset, new);
    }
}

/// Puts bytes at an offset into blocks that are there, run by run. A function of its own, so that bytes of one run don't pay for
/// its loop.
#[inline(never)]
fn put_runs(bytes: &mut [u8], places: &[Option<usize>], in_order: usize, offset: usize, new: &[u8])
    requires within { offset + length new.now < 2 ^ 63 }
    requires stand { Stand (length bytes.old) places.now }
    requires ordered { InOrder places.now in_order }
    requires made { HasAll places.now (offset / 512) (blocks_for (offset + length new.now)) }
    ensures bytes { (n : ℕ) → byte_at bytes.new places.now n ≡ byte_after offset new.now (byte_at bytes.old places.now) n }
{
    if new.is_empty() {
        return;
    }
    let count = run_length(in_order, offset, new.len());
    let (run, rest) = new.split_at(count);
    put_run(bytes, places, in_order, offset, run);
    put_runs(bytes, places, in_order, offset + count, rest);
}

/// Where a block stands that is there; those in order stand under their own number.
fn index_of(places: &[Option<usize>], in_order: usize, number: usize) -> usize
    requires ordered { InOrder places.now in_order }
    requires made { is_some (row_at places.now number) ≡ true }
    ensures index { row_at places.now number ≡ Some result }
{
    if number < in_order {
        number
    } else {
        *places::there(places, number)
    }
}

/// Puts bytes at an offset into blocks that are there, in which they stand one behind another.
fn put_run(bytes: &mut [u8], places: &[Option<usize>], in_order: usize, offset: usize, new: &[u8])
    requires run { InRun in_order offset (length new.now) }
    requires stand { Stand (length bytes.old) places.now }
    requires ordered { InOrder places.now in_order }
    requires made { is_some (row_at places.now (offset / 512)) ≡ true }
    ensures put { (n : ℕ) → byte_at bytes.new places.now n ≡ byte_after offset new.now (byte_at bytes.old places.now) n }
{
    let index = index_of(places, in_order, offset / BLOCK);
    let at = BLOCK * index + offset % BLOCK;
    bytes[at..at + new.len()].copy_from_slice(new);
}
