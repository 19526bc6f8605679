//! Messages that were spelled by hand from the table of `docs/FORMATS.md`.

use hex::FromHexError;
use qx_types::{MessageBytes, NoMemory};
use qx_wire::{Meaning, Message, Parsed, encode};
use std::alloc::{AllocError, Global};
use std::process::Abort;
use std::test::Fail;

/// Bytes in hexadecimal digits, and what they mean: one of each type and subtype, the last and the first behind the last of
/// what fields may have, and what is no message.
const SPELLINGS: &[(&str, &str)] = &[
    (
        "00010100070000000500a401612f62",
        "Open { flags: OFlags(5), mode: 420, rest: Rest { bytes: [97, 47, 98] } }",
    ),
    ("000102000100000078", "Stat { rest: Rest { bytes: [120] } }"),
    (
        "00010300020000006f6b",
        "Unlink { rest: Rest { bytes: [111, 107] } }",
    ),
    (
        "00010400050000000200ed0164",
        "Mknod { mode: 493, rest: Rest { bytes: [100] } }",
    ),
    (
        "00010500060000000300612f6263",
        "Rename { rests: Rests { bytes: [3, 0, 97, 47, 98, 99] } }",
    ),
    (
        "00010500020000000000",
        "Rename { rests: Rests { bytes: [0, 0] } }",
    ),
    ("010100000400000003000000", "Read { count: 3 }"),
    (
        "0201000003000000686900",
        "Write { bytes: BorrowedBytes { bytes: [104, 105, 0] } }",
    ),
    ("0301000000000000", "Close"),
    ("04010000020000000500", "Dup { old: Coid(5) }"),
    (
        "05010000080000000700000000000000",
        "Lseek { whence: Set, offset: 7 }",
    ),
    (
        "0501010008000000ffffffffffffffff",
        "Lseek { whence: Current, offset: -1 }",
    ),
    (
        "05010200080000000001000000000000",
        "Lseek { whence: End, offset: 256 }",
    ),
    ("0601000000000000", "Fstat"),
    (
        "0701000000000000",
        "List { after: BorrowedBytes { bytes: [] } }",
    ),
    (
        "070100000100000061",
        "List { after: BorrowedBytes { bytes: [97] } }",
    ),
    ("08010000020000008001", "Chmod { mode: 384 }"),
    (
        "0901000006000000010203000000",
        "Notify { action: Poll, conditions: Conds(1), code: 2, value: Bits32(3) }",
    ),
    (
        "0901010006000000037fffffff0f",
        "Notify { action: PollArm, conditions: Conds(3), code: 127, value: Bits32(268435455) }",
    ),
    (
        "0901020006000000020000010000",
        "Notify { action: TranArm, conditions: Conds(2), code: 0, value: Bits32(256) }",
    ),
    (
        "0a0100000a00000003050700000000000000",
        "Notify { action: Poll, conditions: Conds(3), code: 5, value: Bits64(7) }",
    ),
    (
        "0a0101000a000000017fffffffffffffff0f",
        "Notify { action: PollArm, conditions: Conds(1), code: 127, value: Bits64(1152921504606846975) }",
    ),
    (
        "0a0102000a00000002000000000001000000",
        "Notify { action: TranArm, conditions: Conds(2), code: 0, value: Bits64(4294967296) }",
    ),
    ("010100000400000000100000", "Read { count: 4096 }"),
    ("010100000400000001100000", "Malformed"),
    ("04010000020000004200", "Dup { old: Coid(66) }"),
    ("04010000020000004300", "Malformed"),
    ("04010000020000000301", "Malformed"),
    ("0801000002000000ff01", "Chmod { mode: 511 }"),
    ("08010000020000000002", "Malformed"),
    ("0901000006000000018000000000", "Malformed"),
    ("0901000006000000010000000010", "Malformed"),
    ("0901000006000000040000000000", "Malformed"),
    ("0a0100000a00000001000000000000000010", "Malformed"),
    ("0a01000006000000010203000000", "Malformed"),
    ("090100000a00000003050700000000000000", "Malformed"),
    ("00010100040000000400ff01", "Malformed"),
    ("000101000400000081000000", "Malformed"),
    ("00010400050000000100ed0164", "Malformed"),
    ("0001050000000000", "Malformed"),
    ("000105000100000001", "Malformed"),
    ("000105000400000003006667", "Malformed"),
    ("000105000500000002002e2e67", "Malformed"),
    ("00010500050000000200662f67", "Malformed"),
    ("0001050005000000010066672f", "Malformed"),
    ("0001020002000000782f", "Malformed"),
    ("00010200020000002e2e", "Malformed"),
    ("0701000003000000612f62", "Malformed"),
    ("e703000000000000", "Unknown"),
    ("0a01030000000000", "Unknown"),
    ("0001060000000000", "Unknown"),
];

/// How many bytes the two paths of a rename have behind their mount, and whether they may have so many.
const LENGTHS: &[(u16, u16, bool)] = &[
    (1024, 1024, true),
    (1024, 0, true),
    (0, 1024, true),
    (1025, 1, false),
    (1, 1025, false),
];

/// The bytes of hexadecimal digits.
fn from_hex(alloc: Global, digits: &str) -> Result<Vec<u8>, Fail> {
    match hex::decode(alloc, digits) {
        Ok(bytes) => Ok(bytes),
        Err(FromHexError::OutOfMemory) => Err(Fail::from(AllocError)),
        Err(_) => Err(Fail::new("no hexadecimal digits")),
    }
}

/// So many bytes of a path, in components of at most 31 bytes.
fn push_rest(bytes: &mut Vec<u8>, len: u16) -> Result<(), AllocError> {
    for at in 0..len {
        bytes.push(if at % 32 == 15 { b'/' } else { b'a' })?;
    }
    Ok(())
}

/// A rename whose paths have so many bytes behind their mount.
fn renaming(alloc: Global, from: u16, to: u16) -> Result<MessageBytes, AllocError> {
    let [low, high] = from.saturating_add(to).saturating_add(2).to_le_bytes();
    let [first, second] = from.to_le_bytes();
    let mut bytes = vec![in alloc; 0, 1, 5, 0, low, high, 0, 0, first, second]?;
    push_rest(&mut bytes, from)?;
    push_rest(&mut bytes, to)?;
    Ok(MessageBytes::from_vec(bytes))
}

/// What bytes mean, in print.
fn printed(alloc: Global, parsed: &Parsed) -> Result<String, AllocError> {
    match parsed.meaning() {
        Meaning::Known(message) => format!(in alloc; "{message:?}"),
        meaning => format!(in alloc; "{meaning:?}"),
    }
}

/// Whether the message that they mean, if they mean one, is encoded to the same bytes.
fn is_encoded_again(alloc: Global, parsed: &Parsed) -> Result<bool, NoMemory> {
    match parsed.meaning() {
        Meaning::Known(message) => Ok(encode(&mut Vec::new(alloc), &message)? == *parsed.bytes()),
        _ => Ok(true),
    }
}

/// All spellings. The prover reads a table once for each function that names it.
fn spellings() -> &'static [(&'static str, &'static str)] {
    SPELLINGS
}

#[test]
fn messages_are_spelled_so(rt: HostRuntime) -> Result<(), Fail> {
    for (digits, meaning) in spellings() {
        let parsed = Parsed::read(MessageBytes::from_vec(from_hex(rt.alloc(), digits)?));
        let is_meant = printed(rt.alloc(), &parsed)?.as_str() == *meaning;
        assert!(rt;
            is_meant && is_encoded_again(rt.alloc(), &parsed)?,
            "{digits}"
        );
    }
    Ok(())
}

/// The first word of what a spelling means once its body is longer, so many bytes, with zeros at its end.
fn drawn_out(meaning: &str, len: usize) -> &'static str {
    if meaning.starts_with("Write") && len <= 4096 {
        "Write"
    } else if meaning == "Unknown" && len <= 4160 {
        "Unknown"
    } else {
        "Malformed"
    }
}

/// Gives a message a body of so many bytes, with zeros behind those that it has.
fn draw_out(bytes: &mut Vec<u8>, len: usize) -> Result<(), AllocError> {
    bytes.resize(len.saturating_add(8), 0)?;
    let [low, high, ..] = len.to_le_bytes();
    if let [_, _, _, _, first, second, ..] = bytes.as_mut_slice() {
        *first = low;
        *second = high;
    }
    Ok(())
}

/// Asserts that this is the first word of what bytes mean, and that a message that they mean is encoded to them.
fn mean(
    rt: &impl Abort,
    alloc: Global,
    digits: &str,
    bytes: &[u8],
    word: &str,
) -> Result<(), NoMemory> {
    let parsed = Parsed::read(MessageBytes::from_slice(alloc, bytes)?);
    let is_meant = printed(alloc, &parsed)?.as_str().starts_with(word);
    let len = bytes.len();
    assert!(rt;
        is_meant && is_encoded_again(alloc, &parsed)?,
        "{len} bytes of {digits}"
    );
    Ok(())
}

#[test]
fn other_lengths_are_malformed(rt: HostRuntime) -> Result<(), Fail> {
    let alloc = rt.alloc();
    for (digits, meaning) in spellings() {
        let mut bytes = from_hex(alloc, digits)?;
        for end in 0..bytes.len() {
            mean(
                &rt,
                alloc,
                digits,
                bytes.get(..end).unwrap_or(b""),
                "Malformed",
            )?;
        }
        bytes.push(0)?;
        mean(&rt, alloc, digits, &bytes, "Malformed")?;
        for len in [bytes.len().saturating_sub(8), 4096, 4097, 4160, 4161] {
            draw_out(&mut bytes, len)?;
            mean(&rt, alloc, digits, &bytes, drawn_out(meaning, len))?;
        }
    }
    Ok(())
}

#[test]
fn renames_have_paths_of_1024_bytes(rt: HostRuntime) -> Result<(), Fail> {
    for (from, to, may_be) in LENGTHS {
        let parsed = Parsed::read(renaming(rt.alloc(), *from, *to)?);
        let is_known = matches!(parsed.meaning(), Meaning::Known(Message::Rename { .. }));
        let is_encoded = is_encoded_again(rt.alloc(), &parsed)?;
        assert!(rt; is_known == *may_be && is_encoded, "{from} {to}");
    }
    Ok(())
}
