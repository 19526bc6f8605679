ghost use Rattle.std.specs.Prelude.{◌≡◌, ◌≢◌, true, MatchResult, OnErr, OnOk};
ghost use Rattle.std.specs.Io.KnownBytes.{Appends};
ghost use Rattle.qx_script.specs.Script.{said};
ghost use Rattle.qx_sh.specs.Run.{EndsAs, Prints};
ghost use Rattle.qx_sh.specs.inner.Run.{EndsUnprinted, PlaysAs};
ghost use Rattle.qx_sh.specs.Watched.{has_failed, held, is_flushed, told_by};
ghost use Rattle.qx_sh.specs.Written.{AppendsFront};

use crate::ending::End;
use crate::limit::Options;
use crate::streams::{ReadFault, read_all, write_out};
use crate::watched::{Sink, Source, Watched, WriteFailed};
use qx_play::play::play;
use qx_script::{Script, parse};
use std::alloc::Global;

/// Reads a script, runs it, writes what its lines print and flushes the writer. A script that is longer than the
/// limit is not run.
pub fn run<R: Source, W: Sink>(
    alloc: Global,
    reader: &mut Watched<R>,
    writer: &mut Watched<W>,
    options: &Options,
) -> End
    ensures ending { EndsAs options.now.limit (told_by R.remaining W.contents reader.old reader.new writer.old writer.new) result }
{
    let text = match read_all(alloc, reader, options.limit) {
        Ok(text) => text,
        Err(fault) => return unread_script(fault),
    };
    match printed(alloc, &text) {
        Ok(text) => match write_flushed(writer, &text) {
            Ok(()) => End::Done,
            Err(_) => End::Output,
        },
        Err(end) => end,
    }
}

/// How a run ends whose script was not read.
fn unread_script(fault: ReadFault) -> End
    ensures memory { fault ≡ ReadFault.NoMemory → result ≡ End.Memory }
    ensures input { fault ≢ ReadFault.NoMemory → result ≡ End.Input }
{
    match fault {
        ReadFault::NoMemory => End::Memory,
        ReadFault::Failed | ReadFault::TooLong => End::Input,
    }
}

/// Writes all bytes, or a front of them, and flushes. Where the flush fails, all were written.
fn write_flushed<W: Sink>(writer: &mut Watched<W>, bytes: &[u8]) -> Result<(), WriteFailed>
    ensures whole { OnOk result (Appends (held W.contents writer.old) (held W.contents writer.new) bytes.now) }
    ensures front { OnErr result (AppendsFront (held W.contents writer.old) (held W.contents writer.new) bytes.now) }
    ensures flushed { OnOk result (is_flushed writer.new ≡ true) }
    ensures failed { OnErr result (has_failed writer.new ≡ true) }
    ensures no_worse { OnOk result (has_failed writer.new ≡ has_failed writer.old) }
{
    write_out(writer, bytes)?;
    writer.flush()
}

/// What a script prints, or how it ends with nothing printed.
fn printed(alloc: Global, text: &[u8]) -> Result<Vec<u8>, End>
    ensures { MatchResult result (λ shown. Prints text.now shown.items) (EndsUnprinted text.now) }
{
    match parse(alloc, text) {
        Ok(script) => played(alloc, script),
        Err(_) => Err(End::Memory),
    }
}

/// What a script that was read prints, or how it ends with nothing printed: a bad one at its line.
fn played(alloc: Global, script: Script) -> Result<Vec<u8>, End>
    ensures { PlaysAs (said script) result }
{
    match script {
        Script::Good(config, commands) => match play(alloc, config, commands) {
            Ok(text) => Ok(text),
            Err(_) => Err(End::Memory),
        },
        Script::Bad(line) => Err(End::Line(line)),
    }
}
