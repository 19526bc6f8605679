ghost use Rattle.std.specs.Prelude.{[], ◌≡◌, ◌≢◌, true, ◌+◌, ◌^◌, ◌<◌, ◌≤◌, IfOk, IfSome, Err, IsErrOf, IsOk, OnErr, OnOk, drop, length};
ghost use Rattle.std.specs.Io.{StartsWith};
ghost use Rattle.std.specs.Io.KnownBytes.{Appends, Consumes, IsAtEnd};
ghost use Rattle.qx_sh.specs.Watched.{has_failed, held};
ghost use Rattle.qx_sh.specs.Written.{AppendsFront};

use crate::watched::{Sink, Source, Watched, WriteFailed};
use std::alloc::Global;

/// Why not all was read.
#[derive(Clone, Copy, Debug, PartialEq, Eq)]
pub enum ReadFault {
    /// A read failed.
    Failed,
    /// There are more bytes than the limit.
    TooLong,
    /// A growth was refused.
    NoMemory,
}

/// How many bytes are asked for at once.
const CHUNK: usize = 4096;

/// Reads to the end, where that comes after at most `limit` bytes.
pub fn read_all<R: Source>(
    alloc: Global,
    reader: &mut Watched<R>,
    limit: usize,
) -> Result<Vec<u8>, ReadFault>
    requires small { limit < 2 ^ 63 }
    ensures all { IfOk result (λ text. IfSome (held R.remaining reader.old) (λ bytes. text.items ≡ bytes)) }
    ensures within { IfOk result (λ text. length text.items ≤ limit) }
    ensures at_end { OnOk result (IsAtEnd (held R.remaining reader.new)) }
    ensures too_long { IsErrOf result ReadFault.TooLong → IfSome (held R.remaining reader.old) (λ bytes. limit < length bytes) }
    ensures failed { IsErrOf result ReadFault.Failed → has_failed reader.new ≡ true }
    ensures no_worse { result ≢ Err ReadFault.Failed → has_failed reader.new ≡ has_failed reader.old }
{
    let mut text = Vec::new(alloc);
    'reads: while text.len() <= limit {
        let count = read_more(reader, &mut text, limit)?;
        if count == 0 {
            return Ok(text);
        }
    }
    Err(ReadFault::TooLong)
}

/// Reads once, at most one byte past the limit, and says how many bytes that gave.
fn read_more<R: Source>(
    reader: &mut Watched<R>,
    text: &mut Vec<u8>,
    limit: usize,
) -> Result<usize, ReadFault>
    requires small { limit < 2 ^ 63 }
    requires room { length text.old.items ≤ limit }
    ensures kept { OnOk result (StartsWith text.new.items text.old.items) }
    ensures count { IfOk result (λ count. length text.new.items ≡ length text.old.items + count) }
    ensures within { OnOk result (length text.new.items ≤ limit + 1) }
    ensures consumed { OnOk result (Consumes (held R.remaining reader.old) (held R.remaining reader.new) (drop (length text.old.items) text.new.items)) }
    ensures at_end { IfOk result (λ count. count ≡ 0 → IsAtEnd (held R.remaining reader.new)) }
    ensures not_long { IsErrOf result ReadFault.TooLong → ⊥ }
    ensures failed { IsErrOf result ReadFault.Failed → has_failed reader.new ≡ true }
    ensures no_worse { result ≢ Err ReadFault.Failed → has_failed reader.new ≡ has_failed reader.old }
{
    let mut chunk = [0; CHUNK];
    let room = CHUNK.min(limit + 1 - text.len());
    let Ok(count) = reader.read(&mut chunk[..room]) else {
        return Err(ReadFault::Failed);
    };
    match text.extend_from_slice(&chunk[..count]) {
        Ok(()) => Ok(count),
        Err(_) => Err(ReadFault::NoMemory),
    }
}

/// Writes all bytes, or a front of them. Where there are none it does not fail.
pub fn write_out<W: Sink>(writer: &mut Watched<W>, bytes: &[u8]) -> Result<(), WriteFailed>
    ensures whole { OnOk result (Appends (held W.contents writer.old) (held W.contents writer.new) bytes.now) }
    ensures front { OnErr result (AppendsFront (held W.contents writer.old) (held W.contents writer.new) bytes.now) }
    ensures nothing { bytes.now ≡ [] → IsOk result }
    ensures failed { OnErr result (has_failed writer.new ≡ true) }
    ensures no_worse { OnOk result (has_failed writer.new ≡ has_failed writer.old) }
{
    let mut written = 0;
    'writes: while written < bytes.len() {
        written += writer.write(&bytes[written..])?;
    }
    Ok(())
}
