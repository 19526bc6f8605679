ghost use Rattle.std.specs.Prelude.{◌≡◌, ◌++◌, true, false, OnOk, OnErr, codes, decimal};
ghost use Rattle.std.specs.Io.KnownBytes.{Appends};
ghost use Rattle.qx_sh.specs.Watched.{has_failed, held};
ghost use Rattle.qx_sh.specs.Written.{AppendsFront, report_text, status_of};

use crate::streams::write_out;
use crate::watched::{Sink, Watched, WriteFailed};
use itoa::Buffer;

/// How the program ended.
#[derive(Clone, Copy, Debug, PartialEq, Eq)]
pub enum End {
    Done,
    /// A read failed, or the script is too long.
    Input,
    /// A write or a flush failed.
    Output,
    /// The command line's words were refused.
    Words,
    /// The first bad line of the script.
    Line(u64),
    /// A growth was refused.
    Memory,
}

impl End {
    /// The program's exit status.
    pub fn status(self) -> u8
        ensures status { result ≡ status_of self }
    {
        match self {
            End::Done => 0,
            End::Input | End::Output => 1,
            End::Words => 2,
            End::Line(_) => 3,
            End::Memory => 4,
        }
    }
}

/// Writes the line that tells the end; after `Done` there is none. Where a write fails, a front of it is written.
pub fn report<W: Sink>(end: &End, writer: &mut Watched<W>)
    ensures whole { has_failed writer.new ≡ false → Appends (held W.contents writer.old) (held W.contents writer.new) (report_text end.now) }
    ensures front { AppendsFront (held W.contents writer.old) (held W.contents writer.new) (report_text end.now) }
{
    let _ = write_report(end, writer);
}

/// Writes the line that tells the end.
fn write_report<W: Sink>(end: &End, writer: &mut Watched<W>) -> Result<(), WriteFailed>
    ensures whole { OnOk result (Appends (held W.contents writer.old) (held W.contents writer.new) (report_text end.now)) }
    ensures front { OnErr result (AppendsFront (held W.contents writer.old) (held W.contents writer.new) (report_text end.now)) }
    ensures failed { OnErr result (has_failed writer.new ≡ true) }
{
    match end {
        End::Done => Ok(()),
        End::Input => write_out(writer, b"qnxsh: input\n"),
        End::Output => write_out(writer, b"qnxsh: output\n"),
        End::Words => write_out(writer, b"qnxsh: words\n"),
        End::Line(line) => write_line(*line, writer),
        End::Memory => write_out(writer, b"qnxsh: memory\n"),
    }
}

/// Writes the line that tells of a bad line.
fn write_line<W: Sink>(line: u64, writer: &mut Watched<W>) -> Result<(), WriteFailed>
    ensures whole { OnOk result (Appends (held W.contents writer.old) (held W.contents writer.new) (codes "qnxsh: line " ++ decimal line ++ codes "\n")) }
    ensures front { OnErr result (AppendsFront (held W.contents writer.old) (held W.contents writer.new) (codes "qnxsh: line " ++ decimal line ++ codes "\n")) }
    ensures failed { OnErr result (has_failed writer.new ≡ true) }
{
    write_out(writer, b"qnxsh: line ")?;
    write_number(line, writer)?;
    write_out(writer, b"\n")
}

/// Writes a number.
fn write_number<W: Sink>(number: u64, writer: &mut Watched<W>) -> Result<(), WriteFailed>
    ensures whole { OnOk result (Appends (held W.contents writer.old) (held W.contents writer.new) (decimal number)) }
    ensures front { OnErr result (AppendsFront (held W.contents writer.old) (held W.contents writer.new) (decimal number)) }
    ensures failed { OnErr result (has_failed writer.new ≡ true) }
{
    let mut buffer = Buffer::new();
    write_out(writer, buffer.format(number).as_bytes())
}
