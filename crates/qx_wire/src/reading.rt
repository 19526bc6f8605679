ghost use Rattle.std.specs.Prelude.{◌≡◌, ◌<◌, Option, None, Some};
ghost use Rattle.std.specs.Int.{w8, w16, w32, w64};
ghost use Rattle.std.specs.Option.{option_map};
ghost use Rattle.qx_wire.specs.Laws.{IfKnown};
ghost use Rattle.qx_wire.specs.Reading.{body_cut, chmod_at, cut, dup_at, ended, judged_where, known_or_malformed, lseek_at, mknod_at, notify_64_at, notify_at, number_at, open_at, read_at, rename_at};
ghost use Rattle.qx_wire.specs.Table.{spelling};

use crate::borrowed::BorrowedBytes;
use crate::message::{Meaning, Message};
use crate::ranges::in_ranges;
use crate::rest::Rest;
use crate::rests::Rests;
use qx_types::{Coid, Conds, Limits, NotifyAction, OFlags, PulseValue, Whence};

/// A number of 8 bits, and the bytes after it.
fn u8_at(bytes: &[u8]) -> Option<(u8, &[u8])>
    ensures { option_map (λ x. (x.0, x.1.now)) result ≡ number_at w8 bytes.now }
{
    let [b0, rest @ ..] = bytes else {
        return None;
    };
    Some((u8::from_le_bytes([*b0]), rest))
}

/// A number of 16 bits, and the bytes after it.
fn u16_at(bytes: &[u8]) -> Option<(u16, &[u8])>
    ensures { option_map (λ x. (x.0, x.1.now)) result ≡ number_at w16 bytes.now }
{
    let [b0, b1, rest @ ..] = bytes else {
        return None;
    };
    Some((u16::from_le_bytes([*b0, *b1]), rest))
}

/// A number of 32 bits, and the bytes after it.
fn u32_at(bytes: &[u8]) -> Option<(u32, &[u8])>
    ensures { option_map (λ x. (x.0, x.1.now)) result ≡ number_at w32 bytes.now }
{
    let [b0, b1, b2, b3, rest @ ..] = bytes else {
        return None;
    };
    Some((u32::from_le_bytes([*b0, *b1, *b2, *b3]), rest))
}

/// A number of 64 bits, and the bytes after it.
fn u64_at(bytes: &[u8]) -> Option<(u64, &[u8])>
    ensures { option_map (λ x. (x.0, x.1.now)) result ≡ number_at w64 bytes.now }
{
    let [b0, b1, b2, b3, b4, b5, b6, b7, rest @ ..] = bytes else {
        return None;
    };
    Some((
        u64::from_le_bytes([*b0, *b1, *b2, *b3, *b4, *b5, *b6, *b7]),
        rest,
    ))
}

/// The message, if no bytes are left.
fn ended<'a>(bytes: &[u8], message: Message<'a>) -> Option<Message<'a>>
    ensures { result ≡ ended bytes.now message.entry }
{
    if bytes.is_empty() {
        Some(message)
    } else {
        None
    }
}

// What each kind of body is cut into.

#[tactic(auto, unfolding(crate::specs::Reading::open_at))]
fn open_at(body: &[u8]) -> Option<Message<'_>>
    ensures { result ≡ open_at body.now }
{
    let (flags, body) = u16_at(body)?;
    let (mode, body) = u16_at(body)?;
    Some(Message::Open {
        flags: OFlags(flags),
        mode,
        rest: Rest::new(body),
    })
}

#[tactic(auto, unfolding(crate::specs::Reading::mknod_at))]
fn mknod_at(body: &[u8]) -> Option<Message<'_>>
    ensures { result ≡ mknod_at body.now }
{
    let (kind, body) = u16_at(body)?;
    let (mode, body) = u16_at(body)?;
    if kind != 2 {
        return None;
    }
    Some(Message::Mknod {
        mode,
        rest: Rest::new(body),
    })
}

#[tactic(auto, unfolding(crate::specs::Reading::rename_at, crate::specs::Rests::rests_of))]
fn rename_at(body: &[u8]) -> Option<Message<'_>>
    ensures { result ≡ rename_at body.now }
{
    let (len, both) = u16_at(body)?;
    if both.len() < usize::from(len) {
        return None;
    }
    Some(Message::Rename {
        rests: Rests::new(body),
    })
}

#[tactic(auto, unfolding(crate::specs::Reading::read_at))]
fn read_at(body: &[u8]) -> Option<Message<'_>>
    ensures { result ≡ read_at body.now }
{
    let (count, body) = u32_at(body)?;
    ended(body, Message::Read { count })
}

#[tactic(auto, unfolding(crate::specs::Reading::dup_at))]
fn dup_at(body: &[u8]) -> Option<Message<'_>>
    ensures { result ≡ dup_at body.now }
{
    let (old, body) = u16_at(body)?;
    if old > 255 {
        return None;
    }
    ended(
        body,
        Message::Dup {
            old: Coid(old as u8),
        },
    )
}

#[tactic(auto, unfolding(crate::specs::Reading::lseek_at))]
fn lseek_at(whence: Whence, body: &[u8]) -> Option<Message<'_>>
    ensures { result ≡ lseek_at whence body.now }
{
    let (offset, body) = u64_at(body)?;
    ended(
        body,
        Message::Lseek {
            whence,
            offset: offset.cast_signed(),
        },
    )
}

#[tactic(auto, unfolding(crate::specs::Reading::chmod_at))]
fn chmod_at(body: &[u8]) -> Option<Message<'_>>
    ensures { result ≡ chmod_at body.now }
{
    let (mode, body) = u16_at(body)?;
    ended(body, Message::Chmod { mode })
}

#[tactic(auto, unfolding(crate::specs::Reading::notify_at))]
fn notify_at(action: NotifyAction, body: &[u8]) -> Option<Message<'_>>
    ensures { result ≡ notify_at action body.now }
{
    let (conditions, body) = u8_at(body)?;
    let (code, body) = u8_at(body)?;
    let (value, body) = u32_at(body)?;
    ended(
        body,
        Message::Notify {
            action,
            conditions: Conds(conditions),
            code,
            value: PulseValue::Bits32(value),
        },
    )
}

#[tactic(auto, unfolding(crate::specs::Reading::notify_64_at))]
fn notify_64_at(action: NotifyAction, body: &[u8]) -> Option<Message<'_>>
    ensures { result ≡ notify_64_at action body.now }
{
    let (conditions, body) = u8_at(body)?;
    let (code, body) = u8_at(body)?;
    let (value, body) = u64_at(body)?;
    ended(
        body,
        Message::Notify {
            action,
            conditions: Conds(conditions),
            code,
            value: PulseValue::Bits64(value),
        },
    )
}

/// What was cut, or that it could not be cut, or that a value is not in its range, where that is judged. In place at each kind,
/// so that a kind's ranges are judged where its body is cut.
#[inline(always)]
fn known(message: Option<Message<'_>>, judges: bool) -> Meaning<'_>
    ensures { result ≡ judged_where judges (known_or_malformed message.entry) }
{
    match message {
        None => Meaning::Malformed,
        Some(message) if judges && !in_ranges(&message) => Meaning::Malformed,
        Some(message) => Meaning::Known(message),
    }
}

/// What a body of that type and subtype is cut into.
#[tactic(auto, unfolding(crate::specs::Reading::body_cut))]
fn body_cut(kind: u16, subtype: u16, body: &[u8], judges: bool) -> Meaning<'_>
    ensures { result ≡ judged_where judges (body_cut kind subtype body.now) }
{
    match (kind, subtype) {
        (256, 1) => known(open_at(body), judges),
        (256, 2) => {
            let rest = Rest::new(body);
            known(Some(Message::Stat { rest }), judges)
        }
        (256, 3) => {
            let rest = Rest::new(body);
            known(Some(Message::Unlink { rest }), judges)
        }
        (256, 4) => known(mknod_at(body), judges),
        (256, 5) => known(rename_at(body), judges),
        (257, 0) => known(read_at(body), judges),
        (258, 0) => {
            let bytes = BorrowedBytes::new(body);
            known(Some(Message::Write { bytes }), judges)
        }
        (259, 0) => known(ended(body, Message::Close), judges),
        (260, 0) => known(dup_at(body), judges),
        (261, 0) => known(lseek_at(Whence::Set, body), judges),
        (261, 1) => known(lseek_at(Whence::Current, body), judges),
        (261, 2) => known(lseek_at(Whence::End, body), judges),
        (262, 0) => known(ended(body, Message::Fstat), judges),
        (263, 0) => {
            let after = BorrowedBytes::new(body);
            known(Some(Message::List { after }), judges)
        }
        (264, 0) => known(chmod_at(body), judges),
        (265, 0) => known(notify_at(NotifyAction::Poll, body), judges),
        (265, 1) => known(notify_at(NotifyAction::PollArm, body), judges),
        (265, 2) => known(notify_at(NotifyAction::TranArm, body), judges),
        (266, 0) => known(notify_64_at(NotifyAction::Poll, body), judges),
        (266, 1) => known(notify_64_at(NotifyAction::PollArm, body), judges),
        (266, 2) => known(notify_64_at(NotifyAction::TranArm, body), judges),
        _ => Meaning::Unknown,
    }
}

/// How many bytes a header has.
const HEADER: usize = 8;

/// What bytes are cut into, with a look at the ranges of values and at the bytes of texts only where these are judged.
#[tactic(auto, unfolding(crate::specs::Reading::cut, crate::specs::Reading::frame_at))]
pub(crate) fn cut(bytes: &[u8], judges: bool) -> Meaning<'_>
    ensures cut { result ≡ judged_where judges (cut bytes.now) }
    ensures spelled { IfKnown result (λ message. bytes.now ≡ spelling message) }
{
    // asked once, so that none of the next three asks
    if bytes.len() < HEADER {
        return Meaning::Malformed;
    }
    let Some((kind, rest)) = u16_at(bytes) else {
        return Meaning::Malformed;
    };
    let Some((subtype, rest)) = u16_at(rest) else {
        return Meaning::Malformed;
    };
    let Some((len, body)) = u32_at(rest) else {
        return Meaning::Malformed;
    };
    if body.len() != len as usize || body.len() > Limits::BODY {
        return Meaning::Malformed;
    }
    body_cut(kind, subtype, body, judges)
}
