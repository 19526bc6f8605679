//! All lines of a text and then of a reader, and how that ends.

ghost use Rattle.std.specs.Prelude.{◌≡◌, ◌≢◌, true, IfOk, IfSome, OnOk};
ghost use Rattle.std.specs.Io.KnownBytes.{Appends};
ghost use Rattle.qx_live_text.specs.Front.{after_text, answer, session_text};
ghost use Rattle.qx_live_text.specs.Fronts.{IsReady, front_of};

use crate::front::{Front, Unanswered};
use crate::line::without_newline;
use qx_live::LineFault;
use std::alloc::Global;
use std::io;
use std::io::{BufRead, ErrorKind, Write};

/// How a session ended.
#[derive(Clone, Copy, Debug)]
pub enum End {
    /// Each line was answered.
    Done,
    /// A read failed.
    Input,
    /// A write or a flush failed.
    Output,
    /// The words of the command line are refused.
    Words,
    /// Memory was short for a line or for its answer.
    Memory,
}

impl End {
    /// The program's exit status.
    pub fn status(self) -> u8 {
        match self {
            End::Done => 0,
            End::Input | End::Output => 1,
            End::Words => 2,
            End::Memory => 4,
        }
    }

    /// The line on standard error.
    pub fn text(self) -> &'static [u8] {
        match self {
            End::Done => b"",
            End::Input => b"qxlive: input\n",
            End::Output => b"qxlive: output\n",
            End::Words => b"qxlive: words\n",
            End::Memory => b"qxlive: memory\n",
        }
    }
}

/// Why no more lines are read.
#[derive(Clone, Copy)]
enum Stop {
    Input,
    Output,
    Memory,
}

impl Stop {
    /// How the session ends.
    fn end(self) -> End
        ensures not_done { result ≢ End.Done }
    {
        match self {
            Stop::Input => End::Input,
            Stop::Output => End::Output,
            Stop::Memory => End::Memory,
        }
    }
}

/// Each line of a text and then of a reader is answered at a writer, which is flushed before the next line is read. A line for
/// which memory is short is answered by a line that says so, and the session goes on.
#[tactic(auto, unfolding(crate::specs::Front::session_text))]
pub fn serve_all<R: BufRead, W: Write>(
    alloc: Global,
    keeps: bool,
    first: &[u8],
    reader: &mut R,
    writer: &mut W,
) -> End
    ensures answered { result ≡ End.Done → IfSome (R.remaining reader.old) (λ bytes. Appends (W.contents writer.old) (W.contents writer.new) (session_text keeps first.now bytes)) }
{
    let mut front = Front::new(alloc, keeps);
    let mut given = first;
    let had_memory = match serve(alloc, &mut front, &mut given, writer) {
        Ok(had_memory) => had_memory,
        Err(stop) => return stop.end(),
    };
    match serve(alloc, &mut front, reader, writer) {
        Ok(all) if all && had_memory => End::Done,
        Ok(_) => End::Memory,
        Err(stop) => stop.end(),
    }
}

/// Each line of a reader is answered. Returns whether there was memory for all.
fn serve<R: BufRead, W: Write>(
    alloc: Global,
    front: &mut Front,
    reader: &mut R,
    writer: &mut W,
) -> Result<bool, Stop>
    ensures ready { IsReady front.old → IfOk result (λ had_memory. had_memory ≡ true → IsReady front.new) }
    ensures front { IsReady front.old → IfOk result (λ had_memory. had_memory ≡ true → IfSome (R.remaining reader.old) (λ bytes. front_of front.new ≡ (after_text (front_of front.old) bytes).front)) }
    ensures answered { IsReady front.old → IfOk result (λ had_memory. had_memory ≡ true → IfSome (R.remaining reader.old) (λ bytes. Appends (W.contents writer.old) (W.contents writer.new) (after_text (front_of front.old) bytes).text)) }
{
    let mut line = Vec::new(alloc);
    let mut had_memory = true;
    'lines: for _ in 0..u64::MAX {
        line.clear();
        match reader.read_until(b'\n', &mut line) {
            Ok(0) => return Ok(had_memory),
            Ok(_) => {}
            Err(error) => return Err(unread(&error)),
        }
        if !answer_line(alloc, front, without_newline(&line), writer)? {
            had_memory = false;
        }
    }
    Err(Stop::Memory)
}

/// Why a line could not be read.
fn unread(error: &io::Error) -> Stop {
    match error.kind() {
        ErrorKind::OutOfMemory => Stop::Memory,
        _ => Stop::Input,
    }
}

/// A line is answered at a writer, which is flushed. Returns whether there was memory for it.
fn answer_line<W: Write>(
    alloc: Global,
    front: &mut Front,
    line: &[u8],
    writer: &mut W,
) -> Result<bool, Stop>
    ensures ready { IsReady front.old → IfOk result (λ had_memory. had_memory ≡ true → IsReady front.new) }
    ensures front { IsReady front.old → IfOk result (λ had_memory. had_memory ≡ true → front_of front.new ≡ (answer (front_of front.old) line.now).front) }
    ensures text { IsReady front.old → IfOk result (λ had_memory. had_memory ≡ true → Appends (W.contents writer.old) (W.contents writer.new) (answer (front_of front.old) line.now).text) }
{
    let mut text = Vec::new(alloc);
    let answered = front.answer(alloc, &mut text, line);
    write_out(writer, &text)?;
    match answered {
        Ok(()) => Ok(true),
        Err(Unanswered::Line(fault)) => {
            write_out(writer, fault_text(fault))?;
            Ok(false)
        }
        Err(_) => Err(Stop::Memory),
    }
}

/// Writes a text and flushes the writer.
fn write_out<W: Write>(writer: &mut W, text: &[u8]) -> Result<(), Stop>
    ensures whole { OnOk result (Appends (W.contents writer.old) (W.contents writer.new) text.now) }
{
    match writer.write_all(text) {
        Ok(()) => {}
        Err(_) => return Err(Stop::Output),
    }
    match writer.flush() {
        Ok(()) => Ok(()),
        Err(_) => Err(Stop::Output),
    }
}

/// The line that tells of want of memory.
fn fault_text(fault: LineFault) -> &'static [u8] {
    match fault {
        LineFault::Refused => b"out of memory: the line was not taken\n",
        LineFault::Late => b"out of memory: the line is not done yet\n",
    }
}
