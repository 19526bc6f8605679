ghost use Rattle.std.specs.Prelude.{◌≡◌, ◌<◌, ◌≤◌, ℕ, Bool, List, Option, ⊤, true, false, length, is_ok, IfOk, OnErr, OnOk};
ghost use Rattle.std.specs.Io.{ReadsAtMost, WritesAtMost};
ghost use Rattle.std.specs.Io.KnownBytes.{Keeps, ReadConsumes, WriteAppends};
ghost use Rattle.qx_sh.specs.Watched.{has_failed, held, is_flushed, taken};

use std::io;
use std::io::{Read, Write};

/// A reader, with what a read of it may come to.
pub trait Source {
    // The bytes that are left, where they are known.
    ghost remaining: { Self → Option (List ℕ) };

    // Holds of the reader before a read, whether that succeeds, and the reader after it.
    ghost may_read: { Self → Bool → Self → Type 0 };

    fn read(&mut self, buffer: &mut [u8]) -> io::Result<usize>
        ensures bound { ReadsAtMost result buffer.new }
        ensures bytes { ReadConsumes (remaining self.old) (remaining self.new) result buffer.new }
        ensures may { may_read self.old (is_ok result) self.new };
}

/// A writer, with what a write and a flush of it may come to.
pub trait Sink {
    // The bytes that the writer holds, where they are known.
    ghost contents: { Self → Option (List ℕ) };

    // Holds of the writer before a write, how many bytes that takes, none where it fails, and the writer after it.
    ghost may_write: { Self → ℕ → Self → Type 0 };

    // Holds of the writer before a flush, whether that succeeds, and the writer after it.
    ghost may_flush: { Self → Bool → Self → Type 0 };

    fn write(&mut self, bytes: &[u8]) -> io::Result<usize>
        ensures bound { WritesAtMost result bytes.now }
        ensures bytes { WriteAppends (contents self.old) (contents self.new) result bytes.now }
        ensures may { may_write self.old (taken result) self.new };

    fn flush(&mut self) -> io::Result<()>
        ensures bytes { Keeps (contents self.old) (contents self.new) }
        ensures may { may_flush self.old (is_ok result) self.new };
}

impl<R: Read> Source for R {
    ghost remaining = { R.Read.remaining };

    ghost may_read = { λ _ _ _. ⊤ };

    fn read(&mut self, buffer: &mut [u8]) -> io::Result<usize> {
        Read::read(self, buffer)
    }
}

impl<W: Write> Sink for W {
    ghost contents = { W.Write.contents };

    ghost may_write = { λ _ _ _. ⊤ };

    ghost may_flush = { λ _ _ _. ⊤ };

    fn write(&mut self, bytes: &[u8]) -> io::Result<usize> {
        Write::write(self, bytes)
    }

    fn flush(&mut self) -> io::Result<()> {
        Write::flush(self)
    }
}

/// A write or a flush failed, or a write took nothing.
#[derive(Clone, Copy, Debug, PartialEq, Eq)]
pub struct WriteFailed;

/// A reader or a writer that remembers what its calls came to.
#[derive(Drop)]
pub struct Watched<S> {
    stream: S,
    /// A read, a write or a flush has failed, or a write took nothing.
    failed: bool,
    /// A flush has succeeded since the last write.
    flushed: bool,
}

impl<S> Watched<S> {
    pub fn new(stream: S) -> Watched<S>
        ensures holds { result.stream ≡ stream }
        ensures unfailed { has_failed result ≡ false }
        ensures unflushed { is_flushed result ≡ false }
    {
        Watched {
            stream,
            failed: false,
            flushed: false,
        }
    }

    /// Whether a read, a write or a flush has failed, or a write took nothing.
    pub fn has_failed(&self) -> bool
        ensures failed { result ≡ has_failed self.now }
    {
        self.failed
    }

    /// The reader or writer.
    pub fn into_inner(self) -> S
        ensures holds { result ≡ self.stream }
    {
        self.stream
    }
}

impl<R: Source> Watched<R> {
    /// Reads once. It fails exactly where the reader does.
    pub fn read(&mut self, buffer: &mut [u8]) -> io::Result<usize>
        ensures bound { ReadsAtMost result buffer.new }
        ensures bytes { ReadConsumes (held R.remaining self.old) (held R.remaining self.new) result buffer.new }
        ensures may { R.may_read self.old.stream (is_ok result) self.new.stream }
        ensures failed { OnErr result (has_failed self.new ≡ true) }
        ensures no_worse { OnOk result (has_failed self.new ≡ has_failed self.old) }
    {
        let outcome = self.stream.read(buffer);
        if outcome.is_err() {
            self.failed = true;
        }
        outcome
    }
}

impl<W: Sink> Watched<W> {
    /// Writes once. It fails exactly where the writer does or takes nothing.
    pub fn write(&mut self, bytes: &[u8]) -> Result<usize, WriteFailed>
        ensures bound { IfOk result (λ count. (0 < count) × (count ≤ length bytes.now)) }
        ensures bytes { WriteAppends (held W.contents self.old) (held W.contents self.new) result bytes.now }
        ensures may { W.may_write self.old.stream (taken result) self.new.stream }
        ensures unflushed { is_flushed self.new ≡ false }
        ensures failed { OnErr result (has_failed self.new ≡ true) }
        ensures no_worse { OnOk result (has_failed self.new ≡ has_failed self.old) }
    {
        self.flushed = false;
        match self.stream.write(bytes) {
            Ok(count) if count > 0 => Ok(count),
            _ => {
                self.failed = true;
                Err(WriteFailed)
            }
        }
    }

    /// Flushes the writer. It fails exactly where the writer does.
    pub fn flush(&mut self) -> Result<(), WriteFailed>
        ensures bytes { Keeps (held W.contents self.old) (held W.contents self.new) }
        ensures may { W.may_flush self.old.stream (is_ok result) self.new.stream }
        ensures flushed { OnOk result (is_flushed self.new ≡ true) }
        ensures kept { OnErr result (is_flushed self.new ≡ is_flushed self.old) }
        ensures failed { OnErr result (has_failed self.new ≡ true) }
        ensures no_worse { OnOk result (has_failed self.new ≡ has_failed self.old) }
    {
        match self.stream.flush() {
            Ok(()) => {
                self.flushed = true;
                Ok(())
            }
            Err(_) => {
                self.failed = true;
                Err(WriteFailed)
            }
        }
    }
}
