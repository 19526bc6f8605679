ghost use Rattle.std.specs.Prelude.{◌≡◌, ◌≤◌, ◌++◌, IsTrue, IfOk, IsOk, OnErr, OnOk, length, vec_capacity};
ghost use Rattle.std.specs.Int.{w8, w16, w32, w64, to_le_bytes};
ghost use Rattle.qx_base.specs.Memory.{FitInto, kept_beside};
ghost use Rattle.qx_types.specs.declared.limits.TheConstants.Limits.{BODY};
ghost use Rattle.qx_wire.specs.Table.{action_number, framed, in_ranges, spelling, whence_number};

use crate::message::Message;
use qx_types::{MessageBytes, NoMemory, NotifyAction, PulseValue, Whence};

/// The one spelling of a message whose values are in their ranges. Where its bytes do not stand inline they take the memory
/// that is there, for which more is taken only where they don't fit.
#[tactic(auto, unfolding(crate::specs::Table::spelling))]
#[inline(always)]
pub fn encode(memory: &mut Vec<u8>, message: &Message<'_>) -> Result<MessageBytes, NoMemory>
    requires in_ranges { IsTrue (in_ranges message.now) }
    ensures spelling { IfOk result (λ bytes. bytes ≡ spelling message.now) }
    ensures sure { FitInto (spelling message.now) (vec_capacity memory.old) → IsOk result }
    ensures kept { OnOk result (vec_capacity memory.new ≡ kept_beside (spelling message.now) (vec_capacity memory.old)) }
    ensures err { OnErr result (vec_capacity memory.new ≡ vec_capacity memory.old) }
{
    match message {
        Message::Open { flags, mode, rest } => {
            framed(memory, 256, 1, &words(flags.0, *mode), rest.as_slice())
        }
        Message::Stat { rest } => framed(memory, 256, 2, &[], rest.as_slice()),
        Message::Unlink { rest } => framed(memory, 256, 3, &[], rest.as_slice()),
        Message::Mknod { mode, rest } => framed(memory, 256, 4, &words(2, *mode), rest.as_slice()),
        Message::Rename { rests } => framed(memory, 256, 5, &[], rests.as_slice()),
        Message::Read { count } => framed(memory, 257, 0, &count.to_le_bytes(), &[]),
        Message::Write { bytes } => framed(memory, 258, 0, &[], bytes.as_slice()),
        Message::Close => framed(memory, 259, 0, &[], &[]),
        Message::Dup { old } => framed(memory, 260, 0, &u16::from(old.0).to_le_bytes(), &[]),
        Message::Lseek { whence, offset } => {
            framed(
                memory,
                261,
                whence_number(*whence),
                &offset.to_le_bytes(),
                &[],
            )
        }
        Message::Fstat => framed(memory, 262, 0, &[], &[]),
        Message::List { after } => framed(memory, 263, 0, &[], after.as_slice()),
        Message::Chmod { mode } => framed(memory, 264, 0, &mode.to_le_bytes(), &[]),
        Message::Notify {
            action,
            conditions,
            code,
            value: PulseValue::Bits32(value),
        } => framed(
            memory,
            265,
            action_number(*action),
            &notification(conditions.0, *code, *value),
            &[],
        ),
        Message::Notify {
            action,
            conditions,
            code,
            value: PulseValue::Bits64(value),
        } => framed(
            memory,
            266,
            action_number(*action),
            &notification_64(conditions.0, *code, *value),
            &[],
        ),
    }
}

/// Two numbers of 16 bits.
fn words(first: u16, second: u16) -> [u8; 4]
    ensures words { result ≡ to_le_bytes w16 first ++ to_le_bytes w16 second }
{
    let [f0, f1] = first.to_le_bytes();
    let [s0, s1] = second.to_le_bytes();
    [f0, f1, s0, s1]
}

/// What a notification has: conditions, code and value.
fn notification(conditions: u8, code: u8, value: u32) -> [u8; 6]
    ensures notification { result ≡ to_le_bytes w8 conditions ++ (to_le_bytes w8 code ++ to_le_bytes w32 value) }
{
    let [v0, v1, v2, v3] = value.to_le_bytes();
    [conditions, code, v0, v1, v2, v3]
}

/// The same with a value of 64 bits.
fn notification_64(conditions: u8, code: u8, value: u64) -> [u8; 10]
    ensures notification { result ≡ to_le_bytes w8 conditions ++ (to_le_bytes w8 code ++ to_le_bytes w64 value) }
{
    let [v0, v1, v2, v3, v4, v5, v6, v7] = value.to_le_bytes();
    [conditions, code, v0, v1, v2, v3, v4, v5, v6, v7]
}

/// The subtype of a seek.
fn whence_number(whence: Whence) -> u16
    ensures { result ≡ whence_number whence }
{
    match whence {
        Whence::Set => 0,
        Whence::Current => 1,
        Whence::End => 2,
    }
}

/// The subtype of a notification.
fn action_number(action: NotifyAction) -> u16
    ensures { result ≡ action_number action }
{
    match action {
        NotifyAction::Poll => 0,
        NotifyAction::PollArm => 1,
        NotifyAction::TranArm => 2,
    }
}

/// A header, and behind it numbers and a text.
#[inline(always)]
fn framed(
    memory: &mut Vec<u8>,
    kind: u16,
    subtype: u16,
    numbers: &[u8],
    text: &[u8],
) -> Result<MessageBytes, NoMemory>
    requires fits { length (numbers.now ++ text.now) ≤ BODY }
    ensures framed { IfOk result (λ bytes. bytes ≡ framed kind subtype (numbers.now ++ text.now)) }
    ensures sure { FitInto (framed kind subtype (numbers.now ++ text.now)) (vec_capacity memory.old) → IsOk result }
    ensures kept { OnOk result (vec_capacity memory.new ≡ kept_beside (framed kind subtype (numbers.now ++ text.now)) (vec_capacity memory.old)) }
    ensures err { OnErr result (vec_capacity memory.new ≡ vec_capacity memory.old) }
{
    let len = numbers.len() + text.len();
    let header = header(kind, subtype, len as u32);
    Ok(MessageBytes::joined(memory, &header, numbers, text)?)
}

/// A header: the type, the subtype and the length of the body.
fn header(kind: u16, subtype: u16, len: u32) -> [u8; 8]
    ensures header { result ≡ to_le_bytes w16 kind ++ (to_le_bytes w16 subtype ++ to_le_bytes w32 len) }
{
    let [k0, k1] = kind.to_le_bytes();
    let [s0, s1] = subtype.to_le_bytes();
    let [l0, l1, l2, l3] = len.to_le_bytes();
    [k0, k1, s0, s1, l0, l1, l2, l3]
}
