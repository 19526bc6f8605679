ghost use Rattle.std.specs.Prelude.{◌≡◌, ◌+◌, ◌<◌, ◌≤◌, ◌^◌, ◌++◌, Some, OnOk, OnErr, length};
ghost use Rattle.qx_files.specs.Blocks.{LacksBlock, after_write, blocks_for, count_of, nothing};
ghost use Rattle.qx_machine.specs.Files.{get};
ghost use Rattle.qx_types.specs.declared.limits.TheConstants.Limits.{BODY};

use crate::places::{BLOCK, first_run, write_bytes};
use qx_rows::Reply;
use std::alloc::{AllocError, Global};
use std::marker::Model;

/// The bytes of a file, in blocks of 512. A block that was never written isn't there, and reads as zero bytes. Those that are
/// there stand one behind another in the order in which they were made, with room for at most as many more.
#[derive(Drop)]
pub struct Data {
    // The bytes of the blocks that are there.
    bytes: Vec<u8>,
    // For each block of the file which one of these it is; none where it isn't there.
    places: Vec<Option<usize>>,
    // So many blocks at the file's begin stand at its begin in `bytes` too, in the same order.
    in_order: usize,
    size: usize,
}

impl Model for Data {
    ghost use Rattle.std.specs.Prelude.{◌≡◌, ◌*◌, ◌≤◌, ℕ, length, vec_capacity};
    ghost use Rattle.qx_files.specs.Blocks.{Held, blocks_for};
    ghost use Rattle.qx_files.specs.inner.Places.{InOrder, Stand, byte_at, bytes_of, there};

    ghost Value = { Held };

    ghost view = { λ d. record { bytes = bytes_of (byte_at d.bytes.items d.places.items) d.size; blocks = there d.places.items } };

    // each block has one place, of its own; the first ones stand in order; behind the last byte stand zero bytes; there are no
    // more blocks than the bytes need; there is room for at most as many more; no blocks hold no memory
    ghost invariant = { λ d. record {
      stand : Stand (length d.bytes.items) d.places.items;
      ordered : InOrder d.places.items d.in_order;
      zeros : (n : ℕ) → d.size ≤ n → byte_at d.bytes.items d.places.items n ≡ 0;
      few : length d.places.items ≤ blocks_for d.size;
      room : vec_capacity d.bytes ≤ 2 * length d.bytes.items;
      none : length d.places.items ≡ 0 → vec_capacity d.places ≡ 0;
    } };
}

impl Data {
    /// None.
    pub fn new(alloc: Global) -> Data
        ensures { result ≡ nothing }
    {
        Data {
            bytes: Vec::new(alloc),
            places: Vec::new(alloc),
            in_order: 0,
            size: 0,
        }
    }

    /// How many bytes there are.
    pub fn len(&self) -> usize
        ensures { result ≡ length self.now.bytes }
    {
        self.size
    }

    /// How many blocks are there: no more than the bytes need.
    pub fn blocks(&self) -> usize
        ensures count { result ≡ count_of (Some self.now.blocks) }
        ensures few { result ≤ blocks_for (length self.now.bytes) }
    {
        self.bytes.len() / BLOCK
    }

    /// Takes all away, with their memory.
    pub fn clear(&mut self)
        ensures { self.new ≡ nothing }
    {
        self.bytes.clear();
        self.bytes.shrink_to_fit();
        self.places.clear();
        self.places.shrink_to_fit();
        self.in_order = 0;
        self.size = 0;
    }

    /// Writes at most so many bytes from an offset on into a reply, and gives their number.
    pub fn read(&self, offset: usize, count: usize, reply: &mut Reply) -> usize
        requires room { length reply.old + count ≤ BODY }
        ensures got { reply.new ≡ reply.old ++ get self.now.bytes offset count }
        ensures count { result ≡ length (get self.now.bytes offset count) }
        ensures within { offset + result < 2 ^ 64 }
    {
        let from = offset.min(self.size);
        let count = count.min(self.size - from);
        self.push(from, count, reply);
        count
    }

    // Writes these bytes into a reply, run by run.
    fn push(&self, offset: usize, count: usize, reply: &mut Reply)
        requires room { length reply.old + count ≤ BODY }
        requires within { offset + count ≤ length self.now.bytes }
        requires fits { offset + count < 2 ^ 64 }
        ensures got { reply.new ≡ reply.old ++ get self.now.bytes offset count }
    {
        if count == 0 {
            return;
        }
        let run = self.run(offset, count);
        reply.push(run);
        self.push(offset + run.len(), count - run.len(), reply);
    }

    // The first of these bytes, as far as they stand one behind another.
    fn run(&self, offset: usize, count: usize) -> &[u8]
        requires within { offset + count ≤ length self.now.bytes }
        ensures got { result.now ≡ get self.now.bytes offset (length result.now) }
        ensures most { length result.now ≤ count }
        ensures some { 0 < count → 0 < length result.now }
    {
        first_run(
            self.bytes.as_slice(),
            self.places.as_slice(),
            self.in_order,
            offset,
            count,
        )
    }

    /// Puts bytes at an offset; a gap before them has zero bytes. The blocks in which they stand are made first, and where
    /// memory is short nothing changes: it is wanted only where one of these isn't there, which reads as zero bytes then.
    pub fn write(&mut self, offset: usize, new: &[u8]) -> Result<(), AllocError>
        requires { offset + length new.now < 2 ^ 63 }
        ensures ok { OnOk result (self.new ≡ after_write self.old offset new.now) }
        ensures err { OnErr result (self.new ≡ self.old) }
        ensures lacks { OnErr result (LacksBlock self.old offset (length new.now)) }
    {
        write_bytes(
            &mut self.bytes,
            &mut self.places,
            &mut self.in_order,
            offset,
            new,
        )?;
        self.size = self.size.max(offset + new.len());
        Ok(())
    }
}
