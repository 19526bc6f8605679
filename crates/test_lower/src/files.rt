//! A user's file through the functions of the RAM manager: how many of the blocks of its bytes are there.

use qx_iofunc::Store;
use qx_machine::{Client, Kind, Opened, ServerName, Wish};
use qx_rows::Reply;
use qx_types::{Coid, Errno, Limits, Manager, OFlags, User, UserLimits, Whence};
use qx_wire::Rest;
use std::alloc::{AllocError, Global};
use std::process::Abort;
use std::test::Fail;

/// The root of the user's top.
const TOP: u32 = 1;

/// As the manager knows the caller.
pub const CLIENT: Client = Client {
    process: 1,
    server: ServerName {
        manager: Manager::Ram,
        number: 1,
    },
};

/// A message over what an open control block has open.
fn over(number: u16) -> Opened {
    Opened {
        process: 1,
        thread: 1,
        coid: Coid(3),
        is_asked: false,
        number,
        call: 1,
        moment: 7,
    }
}

/// A user's store with a file in it.
struct Bench {
    store: Store,
    reply: Reply,
    // The file's inode.
    inode: u32,
}

/// As it would be derived; but what drops a bench at an exit is proved with one call there.
impl Drop for Bench {
    fn drop(self) {
        let Bench {
            store: _,
            reply: _,
            inode: _,
        } = self;
    }
}

impl Bench {
    /// The user 1, with no file.
    fn new(alloc: Global) -> Result<Bench, AllocError> {
        Ok(Bench {
            reply: Reply::new(alloc)?,
            store: Store::boot(alloc, UserLimits::default(), User(1))?,
            inode: 0,
        })
    }

    /// Opens the file, and gives the number of the open control block, or 0 where it can't be opened.
    fn open(&mut self, flags: OFlags) -> Result<u16, AllocError> {
        let rest = Rest::new(b"f");
        let Ok(lookup) = self.store.lookup(TOP, &rest, flags) else {
            return Ok(0);
        };
        let wish = Wish {
            flags,
            mode: 0o600,
            moment: 5,
        };
        let opening = self.store.open(Kind::File, CLIENT, lookup, wish)?;
        self.inode = opening.inode;
        Ok(opening.number)
    }

    /// Writes bytes at an offset.
    fn write(
        &mut self,
        rt: &impl Abort,
        number: u16,
        offset: i64,
        bytes: &[u8],
    ) -> Result<Result<u64, Errno>, AllocError> {
        assert!(rt; bytes.len() <= Limits::TRANSFER);
        if let Err(error) = qx_ram::seek(&mut self.store, over(number), Whence::Set, offset) {
            return Ok(Err(error));
        }
        qx_ram::write(&mut self.store, over(number), bytes)
    }

    /// Whether these bytes are read at an offset, and as many behind them as there are.
    fn reads(&mut self, number: u16, offset: i64, bytes: &[u8]) -> bool {
        self.reply.clear();
        if qx_ram::seek(&mut self.store, over(number), Whence::Set, offset).is_err() {
            return false;
        }
        let read = qx_ram::read(&mut self.store, over(number), 4096, &mut self.reply);
        read.is_ok() && self.reply.as_slice() == bytes
    }

    /// How many blocks of the file are there.
    fn blocks(&self) -> usize {
        qx_ram::blocks(&self.store, self.inode)
    }
}

/// For reading and writing, and more.
fn both_ways(more: OFlags) -> OFlags {
    OFlags(OFlags::READ.0 | OFlags::WRITE.0 | more.0)
}

/// Bytes on both sides of a block's edge, a truncation, and a byte behind a gap; how many blocks were there after each.
fn come_and_go(rt: &impl Abort, bench: &mut Bench) -> Result<[usize; 3], AllocError> {
    let first = bench.open(both_ways(OFlags::CREAT))?;
    assert!(rt; bench.write(rt, first, 511, b"ab")? == Ok(2));
    let written = bench.blocks();
    assert!(rt; bench.reads(first, 510, b"\0ab"));
    let second = bench.open(both_ways(OFlags::TRUNC))?;
    let truncated = bench.blocks();
    assert!(rt; bench.write(rt, second, 600, b"c")? == Ok(1));
    assert!(rt; bench.reads(second, 598, b"\0\0c"));
    Ok([written, truncated, bench.blocks()])
}

#[test]
fn blocks_come_and_go(rt: HostRuntime) -> Result<(), Fail> {
    let mut bench = Bench::new(rt.alloc())?;
    let counts = come_and_go(&rt, &mut bench)?;
    assert!(rt; counts == [2, 0, 1]);
    assert!(rt; qx_ram::blocks(&bench.store, TOP) == 0 && qx_ram::blocks(&bench.store, 1000) == 0);
    Ok(())
}
