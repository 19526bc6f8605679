ghost use Rattle.std.specs.Prelude.{◌≡◌, ◌≤◌, length, is_some, nat_le, IsSome};
ghost use Rattle.qx_base.specs.declared.message.TheConstants.MessageBytes.{INLINE};
ghost use Rattle.qx_types.specs.declared.limits.TheConstants.Limits.{BODY};

use qx_base::{Buffer, MessageBytes};
use qx_types::Limits;

/// As many bytes as a reply may have.
const BYTES: usize = Limits::BODY;

/// Memory for the bytes of a reply, of as many as one may have: there before a message is sent, so that no answer is refused
/// for want of it. Until the reply comes it may keep bytes of the call.
pub type Room = Buffer<BYTES>;

/// The bytes of a reply: few leave the room where it is, and more take it along.
#[inline(always)]
pub fn reply_bytes(room: &mut Option<Room>, reply: &[u8]) -> MessageBytes
    requires room { IsSome room.old }
    requires fits { length reply.now ≤ BODY }
    ensures bytes { result ≡ reply.now }
    ensures stays { length reply.now ≤ INLINE → room.new ≡ room.old }
    ensures left { is_some room.new ≡ nat_le (length reply.now) INLINE }
{
    match room {
        Some(room) if reply.len() <= MessageBytes::INLINE => room.inline(reply),
        _ => match room.take() {
            Some(room) => room.filled(reply),
            None => unreachable!(),
        },
    }
}
