//! Readers and writers that fail, and the script that the tests run.

use qx_sh::watched::Watched;
use std::alloc::Global;
use std::io;
use std::io::{ErrorKind, Read, Write};

/// One user opens, closes, opens again and asks for the status.
pub const SCRIPT: &[u8] =
    b"user ann\nspawn ann 1 10\ndo 5 open ann.1.1 /ann r 000\ndo 6 close ann.1.1 3\ndo 7 open ann.1.1 /ann r 000\ndo 8 fstat ann.1.1 3\nshow ann\n";

/// What that script prints.
pub const SHOWN: &[u8] =
    b"ann spawned 1\nann.1.1 sent\nann.1.1 reply 3 -\nann.1.1 sent\nann.1.1 reply 0 -\nann.1.1 sent\nann.1.1 reply 3 -\nann.1.1 sent\nann.1.1 reply 0 010000000200c0010100000001000000000000000000000000000000000000000000000000000000\n";

/// Gives one byte at each of so many reads, and then fails.
#[derive(Drop)]
pub struct FailingReader<'a> {
    pub bytes: &'a [u8],
    pub reads: usize,
    pub error: ErrorKind,
}

impl<'a> Read for FailingReader<'a> {
    fn read(&mut self, buf: &mut [u8]) -> io::Result<usize> {
        if self.reads == 0 {
            return Err(io::Error::from(self.error));
        }
        self.reads -= 1;
        let count = self.bytes.len().min(buf.len()).min(1);
        buf[..count].copy_from_slice(&self.bytes[..count]);
        self.bytes = &self.bytes[count..];
        Ok(count)
    }
}

/// Takes one byte at each of so many writes, and then fails, or takes none where no error is named.
#[derive(Drop)]
pub struct FailingWriter {
    pub taken: Vec<u8>,
    pub writes: usize,
    pub error: Option<ErrorKind>,
}

impl FailingWriter {
    pub fn new(alloc: Global, writes: usize, error: Option<ErrorKind>) -> FailingWriter {
        FailingWriter {
            taken: Vec::new(alloc),
            writes,
            error,
        }
    }
}

impl Write for FailingWriter {
    fn write(&mut self, buf: &[u8]) -> io::Result<usize> {
        if self.writes == 0 {
            return match self.error {
                Some(error) => Err(io::Error::from(error)),
                None => Ok(0),
            };
        }
        self.writes -= 1;
        let count = buf.len().min(1);
        self.taken.extend_from_slice(&buf[..count])?;
        Ok(count)
    }

    fn flush(&mut self) -> io::Result<()> {
        Ok(())
    }
}

/// Takes all bytes, and fails where it is flushed.
#[derive(Drop)]
pub struct FailingFlush {
    pub taken: Vec<u8>,
}

impl Write for FailingFlush {
    fn write(&mut self, buf: &[u8]) -> io::Result<usize> {
        self.taken.extend_from_slice(buf)?;
        Ok(buf.len())
    }

    fn flush(&mut self) -> io::Result<()> {
        Err(io::Error::from(ErrorKind::StorageFull))
    }
}

/// A writer that keeps all in memory.
pub fn kept(alloc: Global) -> Watched<Vec<u8>> {
    Watched::new(Vec::new(alloc))
}
