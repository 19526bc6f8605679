ghost use Rattle.std.specs.Prelude.{◌≡◌, ◌≤◌, ◌+◌, ◌++◌, ◌==◌, [], IfOk, drop, length, min, take};
ghost use Rattle.qx_base.specs.declared.message.TheConstants.MessageBytes.{INLINE};

use crate::message::MessageBytes;
use std::alloc::{AllocError, Global};
use std::marker::Model;

/// So many empty places are few.
const FEW: usize = 64;

/// At most so many bytes in one piece, with memory for all of them from the start, so that no change of them asks for memory.
#[derive(Drop)]
pub struct Buffer<const MOST: usize> {
    bytes: Vec<u8>,
}

impl<const MOST: usize> Model for Buffer<MOST> {
    ghost use Rattle.std.specs.Prelude.{◌≤◌, List, ℕ, vec_len, vec_capacity};

    ghost Value = { List ℕ };

    ghost view = { λ b. b.bytes.items };

    ghost invariant = { λ b. (vec_len b.bytes ≤ MOST) × (MOST ≤ vec_capacity b.bytes) };
}

impl<const MOST: usize> Buffer<MOST> {
    /// None yet, and memory for all.
    pub fn new(alloc: Global) -> Result<Self, AllocError>
        ensures none { IfOk result (λ buffer. buffer ≡ []) }
    {
        Ok(Buffer {
            bytes: Vec::with_capacity(alloc, MOST)?,
        })
    }

    /// The bytes.
    pub fn as_slice(&self) -> &[u8]
        ensures bytes { result.now ≡ self.now }
        ensures few { length result.now ≤ MOST }
    {
        self.bytes.as_slice()
    }

    /// The first bytes, at most so many.
    pub fn first(&self, most: u32) -> &[u8]
        ensures bytes { result.now ≡ take most self.now }
        ensures number { length result.now ≡ min most (length self.now) }
        ensures few { length result.now ≤ MOST }
    {
        let number = (most as usize).min(self.bytes.len());
        &self.bytes.as_slice()[..number]
    }

    /// How many bytes there are.
    pub fn len(&self) -> usize
        ensures number { result ≡ length self.now }
        ensures few { result ≤ MOST }
    {
        self.bytes.len()
    }

    /// Whether there are none.
    pub fn is_empty(&self) -> bool
        ensures none { result ≡ (length self.now == 0) }
        ensures few { length self.now ≤ MOST }
    {
        self.bytes.is_empty()
    }

    /// Tells that there are no more than may be.
    #[inline(always)]
    pub fn know(&self)
        ensures few { length self.now ≤ MOST }
    {
        let _few = self.len();
    }

    /// None any more.
    pub fn clear(&mut self)
        ensures { self.new ≡ [] }
    {
        self.bytes.clear();
    }

    /// Bytes behind those that are there.
    pub fn push(&mut self, bytes: &[u8])
        requires room { length self.old + length bytes.now ≤ MOST }
        ensures behind { self.new ≡ self.old ++ bytes.now }
    {
        match self.bytes.extend_from_slice(bytes) {
            Ok(()) => {}
            Err(_) => unreachable!(),
        }
    }

    /// These bytes in place of those that are there.
    pub fn set(&mut self, bytes: &[u8])
        requires room { length bytes.now ≤ MOST }
        ensures set { self.new ≡ bytes.now }
    {
        self.clear();
        self.push(bytes);
    }

    /// So many of the first bytes go.
    pub fn drop_front(&mut self, count: usize)
        requires there { count ≤ length self.old }
        ensures { self.new ≡ drop count self.old }
    {
        self.bytes.drain(..count);
    }

    /// At most so many bytes, the first ones.
    pub fn truncate(&mut self, most: usize)
        ensures { self.new ≡ take most self.old }
    {
        self.bytes.truncate(most);
    }

    /// A copy of few bytes, which stand inline and leave the buffer.
    pub fn inline(&self, bytes: &[u8]) -> MessageBytes
        requires few { length bytes.now ≤ INLINE }
        ensures bytes { result ≡ bytes.now }
    {
        MessageBytes::inline(*self.bytes.allocator(), bytes)
    }

    /// The buffer filled with these bytes, as it goes with them.
    #[inline(never)]
    pub fn filled(mut self, bytes: &[u8]) -> MessageBytes
        requires room { length bytes.now ≤ MOST }
        ensures bytes { result ≡ bytes.now }
    {
        self.set(bytes);
        self.into_bytes()
    }

    /// The bytes, as the buffer goes with them, shrunk to them where more than a few places are empty. Where it can't be shrunk
    /// it stays whole, so nothing is refused.
    pub fn into_bytes(self) -> MessageBytes
        ensures bytes { result ≡ self.entry }
    {
        let Buffer { mut bytes } = self;
        if MOST - bytes.len() > FEW {
            bytes.shrink_to_fit();
        }
        MessageBytes::from_vec(bytes)
    }
}
