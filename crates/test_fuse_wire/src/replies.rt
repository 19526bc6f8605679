//! Each reply once, beside bytes that were put together by hand from <linux/fuse.h>.

ghost use Rattle.std.specs.Prelude.{◌<◌, ◌^◌};
ghost use Rattle.qx_fuse_wire.specs.Replies.{bytes_read};

use crate::requests::from_hex;
use qx_base::Errno;
use qx_fuse_wire::init::{Wanted, init_reply};
use qx_fuse_wire::names::{name_length, put_full_name, put_name};
use qx_fuse_wire::reply::{Agreed, Attributes, Entry, Failure, FileSystem, Reply};
use qx_fuse_wire::writing::{put_reply, put_wake};
use qx_fuse_wire::{Body, Times};
use qx_wire::BorrowedBytes;
use std::test::Fail;

/// Attributes whose fields are 1 to 15.
fn attributes() -> Attributes {
    Attributes {
        node: 1,
        size: 2,
        blocks: 3,
        times: Times {
            access_seconds: 4,
            modify_seconds: 5,
            change_seconds: 6,
            access_nanoseconds: 7,
            modify_nanoseconds: 8,
            change_nanoseconds: 9,
        },
        mode: 10,
        links: 11,
        user: 12,
        group: 13,
        device: 14,
        block_size: 15,
    }
}

/// An entry whose own fields are 21 to 26.
fn entry() -> Entry {
    Entry {
        node: 21,
        generation: 22,
        name_seconds: 23,
        attributes_seconds: 24,
        name_nanoseconds: 25,
        attributes_nanoseconds: 26,
        attributes: attributes(),
    }
}

/// A state whose fields are 1 to 8.
fn state() -> FileSystem {
    FileSystem {
        blocks: 1,
        free_blocks: 2,
        available_blocks: 3,
        files: 4,
        free_files: 5,
        block_size: 6,
        name_length: 7,
        fragment_size: 8,
    }
}

/// What is agreed, with fields from 61 on.
fn agreed() -> Agreed {
    Agreed {
        minor: 31,
        readahead: 61,
        flags: 62,
        background: 63,
        congestion: 64,
        write_size: 65,
        time_step: 66,
        pages: 67,
        more_flags: 68,
    }
}

/// Whether the reply to the request 513 has these bytes, behind one that is there.
fn is_written(rt: &HostRuntime, reply: &Reply<'_>, digits: &str) -> Result<bool, Fail>
    requires short { bytes_read reply.now < 2 ^ 31 }
{
    let mut out = Vec::new(rt.alloc());
    out.push(9)?;
    put_reply(&mut out, 513, reply)?;
    let wanted = from_hex(rt.alloc(), digits)?;
    Ok(out.get(1..).unwrap_or(b"") == wanted.as_slice())
}

#[test]
fn replies_have_these_bytes(rt: HostRuntime) -> Result<(), Fail> {
    let entry = entry();
    let attributes = attributes();
    let state = state();
    let agreed = agreed();
    assert!(rt; is_written(&rt, &Reply::Done, "10000000000000000102000000000000")?);
    assert!(rt;
        is_written(
            &rt,
            &Reply::Failed(Failure::Refused(Errno::ENOENT)),
            "10000000feffffff0102000000000000"
        )?
    );
    assert!(rt;
        is_written(
            &rt,
            &Reply::Failed(Failure::Refused(Errno::ENOSYS)),
            "10000000daffffff0102000000000000"
        )?
    );
    assert!(rt;
        is_written(
            &rt,
            &Reply::Failed(Failure::Malformed),
            "10000000fbffffff0102000000000000"
        )?
    );
    assert!(rt;
        is_written(
            &rt,
            &Reply::Failed(Failure::Memory),
            "10000000f4ffffff0102000000000000"
        )?
    );
    assert!(rt;
        is_written(
            &rt,
            &Reply::Failed(Failure::Protocol),
            "10000000b9ffffff0102000000000000"
        )?
    );
    assert!(rt;
        is_written(
            &rt,
            &Reply::Entry(entry),
            "900000000000000001020000000000001500000000000000160000000000000017000000000000001800000000000000190000001a0000000100000000000000020000000000000003000000000000000400000000000000050000000000000006000000000000000700000008000000090000000a0000000b0000000c0000000d0000000e0000000f00000000000000"
        )?
    );
    assert!(rt;
        is_written(
            &rt,
            &Reply::Attributes {
                seconds: 31,
                nanoseconds: 32,
                attributes
            },
            "780000000000000001020000000000001f0000000000000020000000000000000100000000000000020000000000000003000000000000000400000000000000050000000000000006000000000000000700000008000000090000000a0000000b0000000c0000000d0000000e0000000f00000000000000"
        )?
    );
    assert!(rt;
        is_written(
            &rt,
            &Reply::Opened {
                handle: 41,
                open_flags: 42
            },
            "2000000000000000010200000000000029000000000000002a00000000000000"
        )?
    );
    assert!(rt;
        is_written(
            &rt,
            &Reply::Created {
                entry,
                handle: 41,
                open_flags: 42
            },
            "a00000000000000001020000000000001500000000000000160000000000000017000000000000001800000000000000190000001a0000000100000000000000020000000000000003000000000000000400000000000000050000000000000006000000000000000700000008000000090000000a0000000b0000000c0000000d0000000e0000000f0000000000000029000000000000002a00000000000000"
        )?
    );
    assert!(rt;
        is_written(
            &rt,
            &Reply::Bytes(BorrowedBytes::new(b"hello")),
            "1500000000000000010200000000000068656c6c6f"
        )?
    );
    assert!(rt;
        is_written(
            &rt,
            &Reply::Written { size: 51 },
            "180000000000000001020000000000003300000000000000"
        )?
    );
    assert!(rt;
        is_written(
            &rt,
            &Reply::FileSystem(state),
            "600000000000000001020000000000000100000000000000020000000000000003000000000000000400000000000000050000000000000006000000070000000800000000000000000000000000000000000000000000000000000000000000"
        )?
    );
    assert!(rt;
        is_written(
            &rt,
            &Reply::Agreed(agreed),
            "50000000000000000102000000000000070000001f0000003d0000003e0000003f0040004100000042000000430000004400000000000000000000000000000000000000000000000000000000000000"
        )?
    );
    assert!(rt;
        is_written(
            &rt,
            &Reply::Offset { offset: 71 },
            "180000000000000001020000000000004700000000000000"
        )?
    );
    assert!(rt;
        is_written(
            &rt,
            &Reply::Events { events: 81 },
            "180000000000000001020000000000005100000000000000"
        )?
    );
    Ok(())
}

#[test]
fn names_have_these_bytes(rt: HostRuntime) -> Result<(), Fail> {
    let mut out = Vec::new(rt.alloc());
    put_name(&mut out, 5, 6, 8, b"abcdefgh")?;
    put_name(&mut out, 5, 7, 4, b"abc")?;
    assert!(rt; out.len() == name_length(b"abcdefgh") + name_length(b"abc"));
    assert!(rt;
        out == from_hex(
            rt.alloc(),
            "05000000000000000600000000000000080000000800000061626364656667680500000000000000070000000000000003000000040000006162630000000000"
        )?
    );
    out.clear();
    put_full_name(&mut out, &entry(), 6, 8, b"ab")?;
    assert!(rt;
        out == from_hex(
            rt.alloc(),
            "1500000000000000160000000000000017000000000000001800000000000000190000001a0000000100000000000000020000000000000003000000000000000400000000000000050000000000000006000000000000000700000008000000090000000a0000000b0000000c0000000d0000000e0000000f000000000000000100000000000000060000000000000002000000080000006162000000000000"
        )?
    );
    out.clear();
    put_wake(&mut out, 91)?;
    assert!(rt;
        out == from_hex(
            rt.alloc(),
            "180000000100000000000000000000005b00000000000000"
        )?
    );
    Ok(())
}

#[test]
fn init_is_answered(rt: HostRuntime) -> Result<(), Fail> {
    let wanted = Wanted {
        readahead: 100,
        flags: 12,
        more_flags: 6,
        background: 12,
        congestion: 9,
        write_size: 65536,
        time_step: 1,
        pages: 16,
    };
    let offer = Body::Offer {
        minor: 45,
        readahead: 131072,
        flags: 10,
        more_flags: 3,
    };
    let newer = Body::OtherVersion { major: 8, minor: 0 };
    let older = Body::OtherVersion {
        major: 7,
        minor: 30,
    };
    for (body, digits) in [
        (
            offer,
            "50000000000000000102000000000000070000001f00000064000000080000000c0009000000010001000000100000000200000000000000000000000000000000000000000000000000000000000000",
        ),
        (
            newer,
            "50000000000000000102000000000000070000001f0000000000000000000000000000000000000000000000000000000000000000000000000000000000000000000000000000000000000000000000",
        ),
        (older, "10000000b9ffffff0102000000000000"),
    ] {
        let Some(reply) = init_reply(&body, &wanted) else {
            return Err(Fail::new("no reply"));
        };
        assert!(rt; is_written(&rt, &reply, digits)?);
    }
    assert!(rt; init_reply(&Body::Destroy, &wanted).is_none());
    Ok(())
}
