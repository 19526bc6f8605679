//! Requests that Linux 6.18 wrote, and some that were put together by hand from <linux/fuse.h>.

use hex::FromHexError;
use qx_fuse_wire::{Meaning, meaning};
use std::alloc::{AllocError, Global};
use std::test::Fail;

/// Requests in hexadecimal digits, and what they mean. The first 27 are the kernel's.
const REQUESTS: &[(&str, &str)] = &[
    (
        "2a000000010000001e000000000000000100000000000000000000000000000060660000000000006400",
        "Known(Header { length: 42, opcode: 1, unique: 30, node: 1, user: 0, group: 0, process: 26208, extensions: 0 }, Lookup { name: BorrowedBytes { bytes: [100] } })",
    ),
    (
        "3000000002000000fc000000000000000300000000000000000000000000000000000000000000000c00000000000000",
        "Known(Header { length: 48, opcode: 2, unique: 252, node: 3, user: 0, group: 0, process: 0, extensions: 0 }, Forget { lookups: 12 })",
    ),
    (
        "38000000030000000400000000000000010000000000000000000000000000005e6600000000000000000000000000000000000000000000",
        "Known(Header { length: 56, opcode: 3, unique: 4, node: 1, user: 0, group: 0, process: 26206, extensions: 0 }, GetAttributes { flags: 0, handle: 0 })",
    ),
    (
        "8000000004000000b400000000000000030000000000000000000000000000006366000000000000b00100000000000000000000000000000000000000000000000000000000000025da0e6b0000000025da0e6b000000000000000000000000692e4c38692e4c38000000000000000000000000000000000000000000000000",
        "Known(Header { length: 128, opcode: 4, unique: 180, node: 3, user: 0, group: 0, process: 26211, extensions: 0 }, SetAttributes { valid: 432, handle: 0, size: 0, lock_owner: 0, times: Times { access_seconds: 1796135461, modify_seconds: 1796135461, change_seconds: 0, access_nanoseconds: 944516713, modify_nanoseconds: 944516713, change_nanoseconds: 0 }, mode: 0, user: 0, group: 0 })",
    ),
    (
        "2c00000006000000c00000000000000001000000000000000000000000000000636600000000000073007800",
        "Known(Header { length: 44, opcode: 6, unique: 192, node: 1, user: 0, group: 0, process: 26211, extensions: 0 }, SymbolicLink { name: BorrowedBytes { bytes: [115] }, target: BorrowedBytes { bytes: [120] } })",
    ),
    (
        "3a00000008000000e000000000000000010000000000000000000000000000006366000000000000808100000000000012000000000000006e00",
        "Known(Header { length: 58, opcode: 8, unique: 224, node: 1, user: 0, group: 0, process: 26211, extensions: 0 }, MakeNode { mode: 33152, device: 0, umask: 18, name: BorrowedBytes { bytes: [110] } })",
    ),
    (
        "32000000090000002200000000000000010000000000000000000000000000006066000000000000ed010000120000006400",
        "Known(Header { length: 50, opcode: 9, unique: 34, node: 1, user: 0, group: 0, process: 26208, extensions: 0 }, MakeDirectory { mode: 493, umask: 18, name: BorrowedBytes { bytes: [100] } })",
    ),
    (
        "2a0000000a000000fa000000000000000100000000000000000000000000000064660000000000006300",
        "Known(Header { length: 42, opcode: 10, unique: 250, node: 1, user: 0, group: 0, process: 26212, extensions: 0 }, Unlink { name: BorrowedBytes { bytes: [99] } })",
    ),
    (
        "2a0000000b00000008010000000000000100000000000000000000000000000065660000000000006400",
        "Known(Header { length: 42, opcode: 11, unique: 264, node: 1, user: 0, group: 0, process: 26213, extensions: 0 }, RemoveDirectory { name: BorrowedBytes { bytes: [100] } })",
    ),
    (
        "320000000d000000ce0000000000000001000000000000000000000000000000636600000000000003000000000000006c00",
        "Known(Header { length: 50, opcode: 13, unique: 206, node: 1, user: 0, group: 0, process: 26211, extensions: 0 }, Link { node: 3, name: BorrowedBytes { bytes: [108] } })",
    ),
    (
        "300000000e00000044000000000000000300000000000000000000000000000061660000000000000080000000000000",
        "Known(Header { length: 48, opcode: 14, unique: 68, node: 3, user: 0, group: 0, process: 26209, extensions: 0 }, Open { opened: File, flags: 32768, open_flags: 0 })",
    ),
    (
        "500000000f00000048000000000000000300000000000000000000000000000061660000000000004d0000000000000000000000000000000000020002000000fa1af2044025cccf0080000000000000",
        "Known(Header { length: 80, opcode: 15, unique: 72, node: 3, user: 0, group: 0, process: 26209, extensions: 0 }, Read { reads: Bytes, handle: 77, offset: 0, size: 131072, read_flags: 2, lock_owner: 14973383817991166714, flags: 32768 })",
    ),
    (
        "53000000100000003400000000000000030000000000000000000000000000005e660000000000004d00000000000000000000000000000003000000000000000000000000000000018000000000000068690a",
        "Known(Header { length: 83, opcode: 16, unique: 52, node: 3, user: 0, group: 0, process: 26206, extensions: 0 }, Write { handle: 77, offset: 0, write_flags: 0, lock_owner: 0, flags: 32769, bytes: BorrowedBytes { bytes: [104, 105, 10] } })",
    ),
    (
        "2800000011000000b800000000000000010000000000000000000000000000006366000000000000",
        "Known(Header { length: 40, opcode: 17, unique: 184, node: 1, user: 0, group: 0, process: 26211, extensions: 0 }, FileSystem)",
    ),
    (
        "400000001200000038000000000000000300000000000000000000000000000000000000000000004d0000000000000001800000000000000000000000000000",
        "Known(Header { length: 64, opcode: 18, unique: 56, node: 3, user: 0, group: 0, process: 0, extensions: 0 }, Release { opened: File, handle: 77, flags: 32769, release_flags: 0, lock_owner: 0 })",
    ),
    (
        "380000001400000088000000000000000300000000000000000000000000000063660000000000004d000000000000000000000000000000",
        "Known(Header { length: 56, opcode: 20, unique: 136, node: 3, user: 0, group: 0, process: 26211, extensions: 0 }, Sync { opened: File, handle: 77, flags: 0 })",
    ),
    (
        "44000000160000003200000000000000030000000000000000000000000000005e66000000000000000000000000000073656375726974792e6361706162696c69747900",
        "Unknown(Header { length: 68, opcode: 22, unique: 50, node: 3, user: 0, group: 0, process: 26206, extensions: 0 })",
    ),
    (
        "40000000190000002e00000000000000030000000000000000000000000000005e660000000000004d0000000000000000000000000000003a0b7a280c808150",
        "Known(Header { length: 64, opcode: 25, unique: 46, node: 3, user: 0, group: 0, process: 26206, extensions: 0 }, Flush { handle: 77, lock_owner: 5801058584736959290 })",
    ),
    (
        "680000001a0000000200000000000000000000000000000000000000000000000000000000000000070000002d00000000000200fbffff73fd0500000000000000000000000000000000000000000000000000000000000000000000000000000000000000000000",
        "Known(Header { length: 104, opcode: 26, unique: 2, node: 0, user: 0, group: 0, process: 0, extensions: 0 }, Offer { minor: 45, readahead: 131072, flags: 1946157051, more_flags: 1533 })",
    ),
    (
        "300000001b0000001000000000000000010000000000000000000000000000005f660000000000000088010000000000",
        "Known(Header { length: 48, opcode: 27, unique: 16, node: 1, user: 0, group: 0, process: 26207, extensions: 0 }, Open { opened: Directory, flags: 100352, open_flags: 0 })",
    ),
    (
        "400000001d00000016000000000000000100000000000000000000000000000000000000000000004d0000000000000000880100000000000000000000000000",
        "Known(Header { length: 64, opcode: 29, unique: 22, node: 1, user: 0, group: 0, process: 0, extensions: 0 }, Release { opened: Directory, handle: 77, flags: 100352, release_flags: 0, lock_owner: 0 })",
    ),
    (
        "380000001e0000009a000000000000000200000000000000000000000000000063660000000000004d000000000000000000000000000000",
        "Known(Header { length: 56, opcode: 30, unique: 154, node: 2, user: 0, group: 0, process: 26211, extensions: 0 }, Sync { opened: Directory, handle: 77, flags: 0 })",
    ),
    (
        "3a000000230000002a00000000000000010000000000000000000000000000005e6600000000000041820000a481000012000000000000006100",
        "Known(Header { length: 58, opcode: 35, unique: 42, node: 1, user: 0, group: 0, process: 26206, extensions: 0 }, Create { flags: 33345, mode: 33188, umask: 18, open_flags: 0, name: BorrowedBytes { bytes: [97] } })",
    ),
    (
        "40000000280000008a000000000000000300000000000000000000000000000063660000000000004d0000000000000005000000000000000000000019000000",
        "Known(Header { length: 64, opcode: 40, unique: 138, node: 3, user: 0, group: 0, process: 26211, extensions: 0 }, Poll { handle: 77, waiter: 5, flags: 0, events: 25 })",
    ),
    (
        "500000002c0000001400000000000000010000000000000000000000000000005f660000000000004d000000000000000000000000000000008000000000000000000000000000000088010000000000",
        "Known(Header { length: 80, opcode: 44, unique: 20, node: 1, user: 0, group: 0, process: 26207, extensions: 0 }, Read { reads: Entries, handle: 77, offset: 0, size: 32768, read_flags: 0, lock_owner: 0, flags: 100352 })",
    ),
    (
        "3c0000002d00000060000000000000000100000000000000000000000000000062660000000000000100000000000000010000000000000061006200",
        "Known(Header { length: 60, opcode: 45, unique: 96, node: 1, user: 0, group: 0, process: 26210, extensions: 0 }, Rename { directory: 1, flags: 1, from: BorrowedBytes { bytes: [97] }, to: BorrowedBytes { bytes: [98] } })",
    ),
    (
        "400000002e0000008c000000000000000300000000000000000000000000000063660000000000004d0000000000000000000000000000000300000000000000",
        "Known(Header { length: 64, opcode: 46, unique: 140, node: 3, user: 0, group: 0, process: 26211, extensions: 0 }, Seek { handle: 77, offset: 0, whence: 3 })",
    ),
    (
        "280000000500000009000000000000000100000000000000e8030000640000004d00000000000000",
        "Known(Header { length: 40, opcode: 5, unique: 9, node: 1, user: 1000, group: 100, process: 77, extensions: 0 }, ReadLink)",
    ),
    (
        "350000000c00000009000000000000000100000000000000e8030000640000004d0000000000000001000000000000006100626300",
        "Known(Header { length: 53, opcode: 12, unique: 9, node: 1, user: 1000, group: 100, process: 77, extensions: 0 }, Rename { directory: 1, flags: 0, from: BorrowedBytes { bytes: [97] }, to: BorrowedBytes { bytes: [98, 99] } })",
    ),
    (
        "500000001c00000009000000000000000100000000000000e8030000640000004d0000000000000007000000000000001800000000000000001000000000000000000000000000000080000000000000",
        "Known(Header { length: 80, opcode: 28, unique: 9, node: 1, user: 1000, group: 100, process: 77, extensions: 0 }, Read { reads: Names, handle: 7, offset: 24, size: 4096, read_flags: 0, lock_owner: 0, flags: 32768 })",
    ),
    (
        "300000002200000009000000000000000100000000000000e8030000640000004d000000000000000400000000000000",
        "Known(Header { length: 48, opcode: 34, unique: 9, node: 1, user: 1000, group: 100, process: 77, extensions: 0 }, Access { mask: 4 })",
    ),
    (
        "300000002400000009000000000000000100000000000000e8030000640000004d000000000000000800000000000000",
        "Known(Header { length: 48, opcode: 36, unique: 9, node: 1, user: 1000, group: 100, process: 77, extensions: 0 }, Interrupt { unique: 8 })",
    ),
    (
        "280000002600000009000000000000000100000000000000e8030000640000004d00000000000000",
        "Known(Header { length: 40, opcode: 38, unique: 9, node: 1, user: 1000, group: 100, process: 77, extensions: 0 }, Destroy)",
    ),
    (
        "500000002a00000009000000000000000100000000000000e8030000640000004d0000000000000002000000000000000300000000000000010000000000000004000000000000000200000000000000",
        "Known(Header { length: 80, opcode: 42, unique: 9, node: 1, user: 1000, group: 100, process: 77, extensions: 0 }, BatchForget { forgets: Forgets { count: 2, bytes: [3, 0, 0, 0, 0, 0, 0, 0, 1, 0, 0, 0, 0, 0, 0, 0, 4, 0, 0, 0, 0, 0, 0, 0, 2, 0, 0, 0, 0, 0, 0, 0] } })",
    ),
    (
        "380000001a00000009000000000000000100000000000000e8030000640000004d00000000000000070000001f000000000001002b000000",
        "Known(Header { length: 56, opcode: 26, unique: 9, node: 1, user: 1000, group: 100, process: 77, extensions: 0 }, Offer { minor: 31, readahead: 65536, flags: 43, more_flags: 0 })",
    ),
    (
        "300000001a00000009000000000000000100000000000000e8030000640000004d000000000000000600000001000000",
        "Known(Header { length: 48, opcode: 26, unique: 9, node: 1, user: 1000, group: 100, process: 77, extensions: 0 }, OtherVersion { major: 6, minor: 1 })",
    ),
    (
        "940000001a00000009000000000000000100000000000000e8030000640000004d00000000000000080000000000000001010101010101010101010101010101010101010101010101010101010101010101010101010101010101010101010101010101010101010101010101010101010101010101010101010101010101010101010101010101010101010101010101010101",
        "Known(Header { length: 148, opcode: 26, unique: 9, node: 1, user: 1000, group: 100, process: 77, extensions: 0 }, OtherVersion { major: 8, minor: 0 })",
    ),
    (
        "380000001a00000009000000000000000100000000000000e8030000640000004d00000000000000070000001e0000000100000001000000",
        "Known(Header { length: 56, opcode: 26, unique: 9, node: 1, user: 1000, group: 100, process: 77, extensions: 0 }, OtherVersion { major: 7, minor: 30 })",
    ),
    (
        "3c0000000100000009000000000000000100000000000000e8030000640000004d0000000200000065787400eeeeeeeeeeeeeeeeeeeeeeeeeeeeeeee",
        "Known(Header { length: 60, opcode: 1, unique: 9, node: 1, user: 1000, group: 100, process: 77, extensions: 2 }, Lookup { name: BorrowedBytes { bytes: [101, 120, 116] } })",
    ),
];

/// Requests that are malformed, and how.
const MALFORMED: &[(&str, &str)] = &[
    (
        "fewer bytes than the header says",
        "310000000200000009000000000000000100000000000000e8030000640000004d000000000000000100000000000000",
    ),
    (
        "more bytes",
        "2f0000000200000009000000000000000100000000000000e8030000640000004d000000000000000100000000000000",
    ),
    (
        "a body too short",
        "2f0000000200000009000000000000000100000000000000e8030000640000004d0000000000000000000000000000",
    ),
    (
        "a body too long",
        "310000000200000009000000000000000100000000000000e8030000640000004d00000000000000000000000000000000",
    ),
    (
        "a name without a zero byte",
        "290000000100000009000000000000000100000000000000e8030000640000004d0000000000000061",
    ),
    (
        "no name",
        "290000000100000009000000000000000100000000000000e8030000640000004d0000000000000000",
    ),
    (
        "no bytes of a name",
        "280000000100000009000000000000000100000000000000e8030000640000004d00000000000000",
    ),
    (
        "a slash",
        "2c0000000100000009000000000000000100000000000000e8030000640000004d00000000000000612f6200",
    ),
    (
        "a zero byte in a name",
        "2c0000000100000009000000000000000100000000000000e8030000640000004d0000000000000061006200",
    ),
    (
        "one name of two",
        "320000000c00000009000000000000000100000000000000e8030000640000004d0000000000000001000000000000006100",
    ),
    (
        "fewer bytes to write than the size says",
        "520000001000000009000000000000000100000000000000e8030000640000004d00000000000000070000000000000000000000000000000300000000000000000000000000000000000000000000006162",
    ),
    (
        "one pair of two",
        "400000002a00000009000000000000000100000000000000e8030000640000004d00000000000000020000000000000003000000000000000100000000000000",
    ),
    (
        "more extensions than bytes",
        "280000002600000009000000000000000100000000000000e8030000640000004d00000001000000",
    ),
    (
        "an offer of no known length",
        "3c0000001a00000009000000000000000100000000000000e8030000640000004d00000000000000070000001f000000010000000100000000000000",
    ),
    (
        "no version",
        "2c0000001a00000009000000000000000100000000000000e8030000640000004d0000000000000007000000",
    ),
];

/// The bytes of hexadecimal digits.
pub fn from_hex(alloc: Global, digits: &str) -> Result<Vec<u8>, Fail> {
    match hex::decode(alloc, digits) {
        Ok(bytes) => Ok(bytes),
        Err(FromHexError::OutOfMemory) => Err(Fail::from(AllocError)),
        Err(_) => Err(Fail::new("no hexadecimal digits")),
    }
}

#[test]
fn requests_mean_this(rt: HostRuntime) -> Result<(), Fail> {
    for (digits, wanted) in REQUESTS {
        let bytes = from_hex(rt.alloc(), digits)?;
        let meaning = meaning(bytes.as_slice());
        let printed = format!(in rt.alloc(); "{meaning:?}")?;
        assert!(rt; printed.as_str() == *wanted, "{digits}: {printed}");
    }
    Ok(())
}

#[test]
fn these_are_malformed(rt: HostRuntime) -> Result<(), Fail> {
    for (how, digits) in MALFORMED {
        let bytes = from_hex(rt.alloc(), digits)?;
        assert!(rt;
            matches!(meaning(bytes.as_slice()), Meaning::Malformed(_)),
            "{how}"
        );
    }
    Ok(())
}

#[test]
fn a_front_of_a_request_is_none(rt: HostRuntime) -> Result<(), Fail> {
    for (digits, _) in REQUESTS {
        let bytes = from_hex(rt.alloc(), digits)?;
        for end in 0..bytes.len() {
            let front = bytes.get(..end).unwrap_or(b"");
            let is_none = match meaning(front) {
                Meaning::Short => end < 40,
                Meaning::Malformed(_) => end >= 40,
                _ => false,
            };
            assert!(rt; is_none, "{digits} {end}");
        }
    }
    Ok(())
}
