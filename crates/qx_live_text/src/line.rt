//! What a line asks for.

ghost use Rattle.std.specs.Prelude.{◌≡◌, ◌==◌, ◌<◌, ◌++◌, IfOk, IfSome, length, position};
ghost use Rattle.std.specs.Io.BufRead.{strip_last};
ghost use Rattle.qx_script.specs.Script as script;
ghost use Rattle.qx_script.specs.Script.{said};
ghost use Rattle.qx_live_text.specs.Front as spec;
ghost use Rattle.qx_live_text.specs.Front.{asked, bad_text, said_of};
ghost use Rattle.qx_script.specs.declared.command.Command.TheVariants.{Take};

use qx_live::LiveLine;
use qx_script::{Command, Script, parse};
use qx_types::{Config, NoMemory, Step};
use qx_words::words::moment;
use std::alloc::Global;

/// What is wrong with a line.
#[derive(Clone, Copy)]
pub enum BadLine {
    /// No line of a script.
    Unread,
    /// A worker's step, or a line that asks for no step.
    NotAClients,
    /// A setting after the first step.
    Late,
    /// A `trace` where no lines are kept.
    NotKept,
}

impl BadLine {
    /// The line that answers it.
    pub fn text(self) -> &'static [u8]
        ensures { result.now ≡ bad_text self }
    {
        match self {
            BadLine::Unread => b"bad: no line of a script\n",
            BadLine::NotAClients => b"bad: no client's step\n",
            BadLine::Late => b"bad: a setting after the first step\n",
            BadLine::NotKept => b"bad: no lines are kept\n",
        }
    }
}

/// What a line asks for.
#[derive(Drop)]
pub enum Said {
    /// It sets something, or says nothing.
    Setting,
    /// A client's step, for users that are so configured.
    Asks(Config, LiveLine),
    /// A trace, for users that are so configured.
    Traces(Config),
    Bad(BadLine),
}

/// A line, and its moment: that before the first space, or else its number.
#[derive(Clone, Copy)]
pub struct Timed<'a> {
    pub moment: u64,
    pub line: &'a [u8],
}

/// A line with this number.
#[tactic(auto, unfolding(crate::specs::Front::at_moment))]
pub fn at_moment(number: u64, line: &[u8]) -> Timed<'_>
    ensures moment { result.moment ≡ (spec.at_moment number line.now).moment }
    ensures line { result.line.now ≡ (spec.at_moment number line.now).line }
{
    let whole = Timed {
        moment: number,
        line,
    };
    let Some(place) = place_of_space(line) else {
        return whole;
    };
    match moment(&line[..place]) {
        Some(moment) => Timed {
            moment,
            line: &line[place + 1..],
        },
        None => whole,
    }
}

/// Where the first space stands.
fn place_of_space(line: &[u8]) -> Option<usize>
    ensures place { result ≡ position (λ byte. byte == 32) line.now }
    ensures within { IfSome result (λ place. place < length line.now) }
{
    line.iter().position(|byte| *byte == b' ')
}

/// What a line asks for at a moment, behind the lines that set something.
pub fn read(alloc: Global, settings: &[u8], line: Timed<'_>) -> Result<Said, NoMemory>
    ensures said { IfOk result (λ read. read ≡ said_of line.entry.moment (script.script (settings.now ++ line.entry.line.now))) }
{
    let mut text = Vec::new(alloc);
    text.extend_from_slice(settings)?;
    text.extend_from_slice(line.line)?;
    let script = parse(alloc, &text)?;
    Ok(script_says(line.moment, script))
}

/// What a script asks for whose last line alone takes a step.
fn script_says(moment: u64, script: Script) -> Said
    ensures said { result ≡ said_of moment (said script) }
{
    match script {
        Script::Bad(_) => Said::Bad(BadLine::Unread),
        Script::Good(config, commands) => {
            let mut commands = commands.into_iter();
            match commands.next() {
                Some(command) => command_says(config, moment, command),
                None => Said::Setting,
            }
        }
    }
}

/// What a command asks for.
fn command_says(config: Config, moment: u64, command: Command) -> Said
    ensures said { result ≡ asked config moment command }
{
    match command {
        Command::Take(step) => step_says(config, moment, step),
        Command::Do(moment, thread, request) => {
            let step = Step::Call { thread, request };
            Said::Asks(config, LiveLine { moment, step })
        }
        Command::Trace => Said::Traces(config),
        _ => Said::Bad(BadLine::NotAClients),
    }
}

/// What a step asks for.
fn step_says(config: Config, moment: u64, step: Step) -> Said
    ensures said { result ≡ asked config moment (Take step) }
{
    match step.actor() {
        Some(_) => Said::Asks(config, LiveLine { moment, step }),
        None => Said::Bad(BadLine::NotAClients),
    }
}

/// Whether a line is empty or a comment.
pub fn is_skipped(line: &[u8]) -> bool
    ensures skipped { result ≡ script.is_skipped line.now }
{
    match line {
        [] => true,
        [first, ..] => *first == b'#',
    }
}

/// The line without the newline at its end.
pub fn without_newline(line: &[u8]) -> &[u8]
    ensures front { result.now ≡ strip_last 10 line.now }
{
    match line {
        [front @ .., b'\n'] => front,
        _ => line,
    }
}
