ghost use Rattle.std.specs.Prelude.{◌≡◌, ◌+◌, ◌<◌, ◌≤◌, ◌++◌, ◌==◌, [], IfOk, IfSome, is_some, length, nat_le};
ghost use Rattle.qx_base.specs.declared.message.TheConstants.MessageBytes.{INLINE};
ghost use Rattle.qx_types.specs.declared.limits.TheConstants.Limits.{BODY};

use crate::room::Room;
use qx_hint::unwrap_unchecked;
use qx_types::{Limits, MessageBytes};
use std::alloc::{AllocError, Global};
use std::marker::Model;
use std::mem;

/// A place for each byte that a reply may have.
const PLACES: usize = Limits::BODY;

/// The bytes of a reply while a function writes them, with room for as many as a reply may have: made once, and then used for
/// each message (Writing a Resource Manager: the message buffer of `resmgr_context_t`). Bytes that come in pieces stand in
/// an array; more than a few that come first stand in a room, with which they leave.
#[derive(Drop)]
pub struct Reply {
    /// The bytes that came in pieces stand first; what stands behind them is of earlier messages.
    places: Box<[u8; PLACES]>,
    /// How many bytes there are, wherever they stand.
    len: usize,
    /// Whether the bytes stand in the room.
    is_in_room: bool,
    room: Room,
}

impl Model for Reply {
    ghost use Rattle.std.specs.Prelude.{◌≡◌, ◌<◌, ◌≤◌, IsTrue, List, ℕ, if◌then◌else◌, length, take};
    ghost use Rattle.qx_base.specs.declared.message.TheConstants.MessageBytes.{INLINE};
    ghost use Rattle.qx_types.specs.declared.limits.TheConstants.Limits.{BODY};

    ghost Value = { List ℕ };

    ghost view = { λ r. if r.is_in_room then r.room else take r.len r.places.value };

    ghost invariant = { λ r. record {
      places : length r.places.value ≡ BODY;
      few : r.len ≤ BODY;
      many : IsTrue r.is_in_room → INLINE < length r.room;
      as_many : IsTrue r.is_in_room → r.len ≡ length r.room;
    } };
}

impl Reply {
    /// None yet.
    pub fn new(alloc: Global) -> Result<Self, AllocError>
        ensures none { IfOk result (λ reply. reply ≡ []) }
    {
        Ok(Reply {
            places: Box::new(alloc, [0; PLACES])?,
            len: 0,
            is_in_room: false,
            room: Room::new(alloc)?,
        })
    }

    /// None any more.
    pub fn clear(&mut self)
        ensures none { self.new ≡ [] }
    {
        self.len = 0;
        self.is_in_room = false;
    }

    /// Bytes behind those that are there, for which there is room.
    pub fn push(&mut self, bytes: &[u8])
        requires room { length self.old + length bytes.now ≤ BODY }
        ensures behind { self.new ≡ self.old ++ bytes.now }
    {
        if self.is_in_room {
            return self.push_in_room(bytes);
        }
        if self.len == 0 && bytes.len() > MessageBytes::INLINE {
            return self.keep(bytes);
        }
        let end = self.len + bytes.len();
        self.places[self.len..end].copy_from_slice(bytes);
        self.len = end;
    }

    /// The same into the room.
    #[inline(never)]
    fn push_in_room(&mut self, bytes: &[u8])
        requires room { length self.old + length bytes.now ≤ BODY }
        requires many { INLINE < length self.old + length bytes.now }
        ensures behind { self.new ≡ self.old ++ bytes.now }
    {
        if !self.is_in_room {
            self.room.set(&self.places[..self.len]);
            self.is_in_room = true;
        }
        self.room.push(bytes);
        self.len += bytes.len();
    }

    /// The first bytes, which are more than a few.
    #[inline(never)]
    fn keep(&mut self, bytes: &[u8])
        requires none { self.old ≡ [] }
        requires room { length bytes.now ≤ BODY }
        requires many { INLINE < length bytes.now }
        ensures kept { self.new ≡ bytes.now }
    {
        self.room.set(bytes);
        self.len = bytes.len();
        self.is_in_room = true;
    }

    /// The bytes that a buffer has, which is left empty: more than a few go with the memory that they stand in.
    pub fn take(&mut self, given: &mut Room)
        requires none { self.old ≡ [] }
        ensures taken { self.new ≡ given.old }
        ensures left { given.new ≡ [] }
    {
        if given.len() > MessageBytes::INLINE {
            self.len = given.len();
            self.is_in_room = true;
            mem::swap(&mut self.room, given);
        } else {
            self.push(given.as_slice());
        }
        given.clear();
    }

    /// A copy of few bytes, for which no memory is taken; none of more.
    pub fn inline(&self) -> Option<MessageBytes>
        ensures few { is_some result ≡ nat_le (length self.now) INLINE }
        ensures bytes { IfSome result (λ bytes. bytes ≡ self.now) }
    {
        if self.len > MessageBytes::INLINE {
            return None;
        }
        let alloc = *Box::allocator(&self.places);
        let few = *unwrap_unchecked(self.places.first_chunk());
        Some(MessageBytes::from_buf_and_len(alloc, few, self.len))
    }

    /// More than a few bytes, which go with the room that they stand in, while another comes in its place, or else with the
    /// other.
    #[inline(never)]
    pub fn take_many(&mut self, other: Room) -> MessageBytes
        requires many { INLINE < length self.old }
        ensures bytes { result ≡ self.old }
    {
        if self.is_in_room {
            self.is_in_room = false;
            return mem::replace(&mut self.room, other).into_bytes();
        }
        other.filled(&self.places[..self.len])
    }

    /// Whether there are none.
    pub fn is_empty(&self) -> bool
        ensures none { result ≡ (length self.now == 0) }
    {
        self.len == 0
    }

    /// The bytes.
    pub fn as_slice(&self) -> &[u8]
        ensures bytes { result.now ≡ self.now }
        ensures few { length result.now ≤ BODY }
    {
        if self.is_in_room {
            self.room.as_slice()
        } else {
            &self.places[..self.len]
        }
    }
}
