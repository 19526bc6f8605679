//! The bytes of a message or of its answer: few stand in the value itself.

ghost use Rattle.std.specs.Prelude.{◌≡◌, ◌+◌, ◌<◌, ◌≤◌, ◌^◌, ◌++◌, [], length, take, vec_capacity, IfOk, IsOk, OnErr, OnOk};
ghost use Rattle.std.specs.Str.{bytes_eq};
ghost use Rattle.qx_base.specs.Memory.{FitInto, Leave, kept_beside};
ghost use Rattle.qx_base.specs.declared.message.TheConstants.MessageBytes.{INLINE};

use std::alloc::{AllocError, Global};
use std::marker::Model;
use std::{fmt, mem};

/// A place in the value for each of a few bytes.
const PLACES: usize = MessageBytes::INLINE;

/// Bytes of a message or of its answer, which contracts see as a list of numbers: at most 40 stand inline, more in a
/// vector.
#[derive(Drop)]
pub struct MessageBytes {
    items: Items,
}

/// Where bytes stand.
#[derive(Drop)]
enum Items {
    Few(Few),
    Many(Vec<u8>),
}

/// The first of these places, so many; what stands in the others is nobody's to see.
#[derive(Drop)]
struct Few {
    alloc: Global,
    // of 4 bytes, so that it stands in one word with the mark of few bytes
    len: u32,
    places: [u8; PLACES],
}

impl Model for MessageBytes {
    ghost use Rattle.std.specs.Prelude.{◌≡◌, ◌≤◌, List, ℕ, length};
    ghost use Rattle.qx_base.specs.declared.message.TheConstants.MessageBytes.{INLINE};

    ghost Value = { List ℕ };

    ghost use Rattle.qx_base.specs.Items.{are_within, bytes_in};

    ghost view = { λ b. bytes_in b.items };

    // few bytes stand inline, and no more than there are places
    ghost invariant = { λ b. are_within b.items };
}

impl MessageBytes {
    /// The most bytes that stand in the value, and so take no memory.
    pub const INLINE: usize = 40;

    /// No bytes.
    pub fn new(alloc: Global) -> Self
        ensures none { result ≡ [] }
    {
        MessageBytes {
            items: Items::Few(Few {
                alloc,
                len: 0,
                places: [0; PLACES],
            }),
        }
    }

    /// A copy of a few bytes, for which no memory is taken.
    pub fn inline(alloc: Global, bytes: &[u8]) -> Self
        requires few { length bytes.now ≤ INLINE }
        ensures bytes { result ≡ bytes.now }
    {
        let mut few = [0; PLACES];
        few[..bytes.len()].copy_from_slice(bytes);
        MessageBytes::from_buf_and_len(alloc, few, bytes.len())
    }

    /// The first bytes of an array of as many as stand in the value, for which no memory is taken.
    pub fn from_buf_and_len(alloc: Global, few: [u8; PLACES], len: usize) -> Self
        requires few { len ≤ INLINE }
        ensures bytes { result ≡ take len few }
    {
        MessageBytes {
            items: Items::Few(Few {
                alloc,
                len: len as u32,
                places: few,
            }),
        }
    }

    /// A copy of a slice, for which memory is taken only where it has more than a few bytes.
    pub fn from_slice(alloc: Global, bytes: &[u8]) -> Result<Self, AllocError>
        ensures bytes { IfOk result (λ copy. copy ≡ bytes.now) }
        ensures few { length bytes.now ≤ INLINE → IsOk result }
    {
        if bytes.len() <= MessageBytes::INLINE {
            return Ok(MessageBytes::inline(alloc, bytes));
        }
        let mut items = Vec::new(alloc);
        items.extend_from_slice(bytes)?;
        Ok(MessageBytes {
            items: Items::Many(items),
        })
    }

    /// The bytes of a vector: few are copied inline, and more stay in its memory.
    pub fn from_vec(items: Vec<u8>) -> Self
        ensures bytes { result ≡ items.items }
    {
        if items.len() <= MessageBytes::INLINE {
            return MessageBytes::inline(*items.allocator(), items.as_slice());
        }
        MessageBytes {
            items: Items::Many(items),
        }
    }

    /// Three pieces, one behind the other. More than a few bytes take the memory that is there, for which more is taken only
    /// where they don't fit, once and for just so many; what stood in it goes.
    #[inline(always)]
    pub fn joined(
        memory: &mut Vec<u8>,
        first: &[u8],
        second: &[u8],
        third: &[u8],
    ) -> Result<Self, AllocError>
        requires fits { length (first.now ++ (second.now ++ third.now)) < 2 ^ 64 }
        ensures bytes { IfOk result (λ joined. joined ≡ first.now ++ (second.now ++ third.now)) }
        ensures sure { FitInto (first.now ++ (second.now ++ third.now)) (vec_capacity memory.old) → IsOk result }
        ensures kept { OnOk result (vec_capacity memory.new ≡ kept_beside (first.now ++ (second.now ++ third.now)) (vec_capacity memory.old)) }
        ensures err { OnErr result (vec_capacity memory.new ≡ vec_capacity memory.old) }
    {
        if first.len() + second.len() + third.len() > MessageBytes::INLINE {
            put_all(memory, first, second, third)?;
            let none = Vec::new(*memory.allocator());
            return Ok(MessageBytes {
                items: Items::Many(mem::replace(memory, none)),
            });
        }
        let mut few = [0; PLACES];
        // the last ones apart: so the compiler keeps the others as words, and none in memory
        few[32..].copy_from_slice(&[0; 8]);
        let end = append(&mut few, 0, first);
        let end = append(&mut few, end, second);
        let end = append(&mut few, end, third);
        let alloc = *memory.allocator();
        Ok(MessageBytes::from_buf_and_len(alloc, few, end))
    }

    /// The bytes, after which there are none.
    pub fn take(&mut self) -> Self
        ensures bytes { result ≡ self.old }
        ensures none { self.new ≡ [] }
    {
        let none = MessageBytes::new(*self.allocator());
        mem::replace(self, none)
    }

    /// The bytes go, and the memory of more than a few comes in place of that which is there, so that others can stand in it.
    pub fn into_memory(self, memory: &mut Vec<u8>)
        ensures memory { Leave self (vec_capacity memory.old) (vec_capacity memory.new) }
    {
        if let Items::Many(items) = self.items {
            *memory = items;
        }
    }

    /// The bytes as a slice.
    pub fn as_slice(&self) -> &[u8]
        ensures bytes { result.now ≡ self.now }
    {
        match &self.items {
            Items::Few(few) => &few.places[..few.len as usize],
            Items::Many(items) => items.as_slice(),
        }
    }

    fn allocator(&self) -> &Global {
        match &self.items {
            Items::Few(few) => &few.alloc,
            Items::Many(items) => items.allocator(),
        }
    }
}

/// Three pieces come in the place of what stands in memory. A call of its own, and none that gives a message: few bytes would
/// clear a place for that.
#[inline(never)]
fn put_all(
    memory: &mut Vec<u8>,
    first: &[u8],
    second: &[u8],
    third: &[u8],
) -> Result<(), AllocError>
    requires fits { length (first.now ++ (second.now ++ third.now)) < 2 ^ 64 }
    ensures bytes { OnOk result (memory.new.items ≡ first.now ++ (second.now ++ third.now)) }
    ensures sure { length (first.now ++ (second.now ++ third.now)) ≤ vec_capacity memory.old → IsOk result }
    ensures err { OnErr result (vec_capacity memory.new ≡ vec_capacity memory.old) }
{
    memory.clear();
    memory.reserve_exact(first.len() + second.len() + third.len())?;
    memory.extend_from_slice(first)?;
    memory.extend_from_slice(second)?;
    memory.extend_from_slice(third)?;
    Ok(())
}

/// Puts a piece behind the first bytes of an array, and gives how many they are then.
fn append(few: &mut [u8; PLACES], end: usize, piece: &[u8]) -> usize
    requires fits { end + length piece.now ≤ INLINE }
    ensures bytes { take result few.new ≡ take end few.old ++ piece.now }
    ensures end { result ≡ end + length piece.now }
{
    let behind = end + piece.len();
    few[end..behind].copy_from_slice(piece);
    behind
}

impl fmt::Debug for MessageBytes {
    fn fmt<W: fmt::Write>(&self, f: &mut fmt::Formatter<W>) -> fmt::Result {
        f.debug_list().entries(self.as_slice()).finish()
    }
}

impl PartialEq for MessageBytes {
    ghost use Rattle.std.specs.Cmp.{partial_equiv_from_equiv};
    ghost use Rattle.std.specs.Cmp.Lexicographic.{nat_list_eq_equiv};

    ghost eq = { bytes_eq };

    ghost laws = { partial_equiv_from_equiv nat_list_eq_equiv };

    fn eq(&self, other: &MessageBytes) -> bool {
        self.as_slice() == other.as_slice()
    }
}

impl Eq for MessageBytes {
    ghost use Rattle.std.specs.Cmp.Lexicographic.{nat_list_eq_equiv};

    ghost laws = { nat_list_eq_equiv };
}

// Written out and not derived, so that its contract says outright that the copy is equal.
impl Clone for MessageBytes {
    ghost is_clone = { λ original copy. copy ≡ original };

    fn clone(&self) -> Result<MessageBytes, AllocError> {
        MessageBytes::from_slice(*self.allocator(), self.as_slice())
    }
}
