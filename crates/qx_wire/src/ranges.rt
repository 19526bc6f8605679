ghost use Rattle.std.specs.Prelude.{◌≡◌, ◌==◌, ◌||◌, ◌&&◌, ◌%◌, length, nat_le, nat_lt};
ghost use Rattle.qx_types.specs.declared.limits.TheConstants.Limits.{FIRST_CONNECTION, LAST_CONNECTION};
ghost use Rattle.qx_wire.specs.Rests.{is_component};
ghost use Rattle.qx_wire.specs.Table.{in_ranges, is_i64, pulse_value};

use crate::message::Message;
use crate::rest::is_component;
use qx_types::{Coid, Conds, Limits, OFlags, PulseValue};

/// Whether each value of the message is in its range: what `encode` asks for, and what every message that was read
/// meets.
#[inline(always)]
pub fn in_ranges(message: &Message<'_>) -> bool
    ensures in_ranges { result ≡ in_ranges message.now }
{
    match message {
        Message::Open { flags, mode, rest } => {
            are_flags(*flags) && *mode <= Limits::MODE && rest.is_good()
        }
        Message::Stat { rest } | Message::Unlink { rest } => rest.is_good(),
        Message::Mknod { mode, rest } => *mode <= Limits::MODE && rest.is_good(),
        Message::Rename { rests } => rests.from().is_good() && rests.to().is_good(),
        Message::Read { count } => *count <= Limits::TRANSFER as u32,
        Message::Write { bytes } => bytes.as_slice().len() <= Limits::TRANSFER,
        Message::Close | Message::Fstat => true,
        Message::Dup { old } => is_connection(*old),
        Message::Lseek { offset, .. } => is_offset(*offset),
        Message::List { after } => is_name(after.as_slice()),
        Message::Chmod { mode } => *mode <= Limits::MODE,
        Message::Notify {
            conditions,
            code,
            value,
            ..
        } => are_conditions(*conditions) && *code <= Limits::PULSE_CODE && is_pulse_value(*value),
    }
}

/// Whether they are some of the seven flags, READ or WRITE among them (C Library Reference: `open`).
pub fn are_flags(flags: OFlags) -> bool
    ensures flags { result ≡ (nat_lt flags.0 128 && nat_lt 0 (flags.0 % 4)) }
{
    flags.0 < 128 && 0 < flags.0 % 4
}

/// Whether a connection may have that number.
fn is_connection(coid: Coid) -> bool
    ensures { result ≡ (nat_le FIRST_CONNECTION coid.0 && nat_le coid.0 LAST_CONNECTION) }
{
    Limits::FIRST_CONNECTION <= usize::from(coid.0)
        && usize::from(coid.0) <= Limits::LAST_CONNECTION
}

/// Every offset is in its range (C Library Reference: `lseek`).
pub fn is_offset(_offset: i64) -> bool
    ensures offset { result ≡ is_i64 _offset }
{
    true
}

/// Whether a pulse may have that value beside the bits that tell of conditions (this profile).
fn is_pulse_value(value: PulseValue) -> bool
    ensures value { result ≡ (pulse_value value).good }
{
    match value {
        PulseValue::Bits32(value) => value <= Limits::PULSE_VALUE,
        PulseValue::Bits64(value) => value <= Limits::PULSE_VALUE_64,
    }
}

/// Whether they are INPUT, OUTPUT or both (this profile).
pub fn are_conditions(conditions: Conds) -> bool
    ensures conditions { result ≡ (nat_le 1 conditions.0 && nat_le conditions.0 3) }
{
    1 <= conditions.0 && conditions.0 <= 3
}

/// Whether the bytes are one component, or none (this profile).
pub fn is_name(bytes: &[u8]) -> bool
    ensures name { result ≡ (length bytes.now == 0 || is_component bytes.now) }
{
    bytes.is_empty() || is_component(bytes)
}
